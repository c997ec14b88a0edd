//! The words of a line, split off one after another.
//!
//! The words of a line are found in the text, and no list of them is made: so a line takes no memory but what its event holds.
//! A space at the end of a line is an empty word, which is neither a number nor bytes.

ghost use Rattle.std.specs.Prelude.{◌≡◌, ◌∷◌, [], MatchOption, position};
ghost use Rattle.std.specs.List.{slice_split};
ghost use Rattle.traces.specs.Line.{is_space};

/// The index of the first space. It is compiled once: three copies of its loop in a caller were slower.
#[inline(never)]
fn word_end(line: &[u8]) -> Option<usize>
    ensures { result ≡ position is_space line.now }
{
    line.iter().position(|c| *c == b' ')
}

/// The first word of a line and the words after its space, or `None` if the line is one word.
#[tactic(auto, using(crate::proofs::FirstWord::split_at, crate::proofs::FirstWord::not_split))]
pub fn split_word(line: &[u8]) -> Option<(&[u8], &[u8])>
    ensures { MatchOption result (slice_split is_space line.now ≡ line.now ∷ []) (λ parts. slice_split is_space line.now ≡ parts.0.now ∷ slice_split is_space parts.1.now) }
{
    let at = word_end(line)?;
    Some((&line[..at], &line[at + 1..]))
}
