//! The driver's word about interrupts, as bytes.

use anyhow::{Result, ensure};
use machine::Piece;

/// The bytes at a piece of RAM that a word of the driver lies in.
#[derive(Clone, Copy, Debug, PartialEq, Eq)]
pub struct Word {
    /// Where it lies.
    pub piece: Piece,

    /// Its bytes, of which there are as many as the piece has.
    pub word: [u8; 4],
}

impl Word {
    /// Its bytes, and no others.
    pub fn bytes(&self) -> &[u8] {
        if self.piece.count == 2 {
            &self.word[..2]
        } else {
            self.word.as_slice()
        }
    }
}

/// The word in these bytes. The piece has two or four bytes.
pub fn word_in(bytes: &[u8], piece: Piece) -> Result<Word> {
    let (at, count) = (piece.at as usize, piece.count as usize);
    ensure!(count == 2 || count == 4, "another word");
    ensure!(
        at <= bytes.len() && count <= bytes.len() - at,
        "a word outside RAM"
    );
    let mut word = [0; 4];
    word[..count].copy_from_slice(&bytes[at..at + count]);
    Ok(Word { piece, word })
}
