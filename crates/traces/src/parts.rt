//! Writes the parts of a line to a writer. A fault leaves a prefix of them written.
//!
//! A writer that takes 0 bytes has failed; one that was interrupted is asked again.

ghost use Rattle.std.specs.Prelude.{◌≡◌, ◌≤◌, ◌++◌, OnOk, OnErr, take, decimal, length};
ghost use Rattle.std.specs.Io.KnownBytes.{Appends};
ghost use Rattle.hex.specs.Hex.{encode_lower};
ghost use Rattle.traces.specs.Replies.{AppendsBeginning, newline};

use crate::digits::{MOST_DIGITS, write_decimal};
use std::io::{ErrorKind, Write};
use thiserror::Error;

/// The writer failed.
#[derive(Clone, Copy, Debug, Drop, PartialEq, Eq, Error)]
#[error("write error")]
pub struct WriteFault;

/// How many bytes are turned into digits at a time.
const BYTES_AT_ONCE: usize = 32;

/// Writes the bytes, or after a fault a prefix of them. `write_all` of std does not say what was written on an Err.
pub fn put<W: Write>(out: &mut W, bytes: &[u8]) -> Result<(), WriteFault>
    ensures ok { OnOk result (Appends (W.contents out.old) (W.contents out.new) bytes.now) }
    ensures err { OnErr result (AppendsBeginning (W.contents out.old) (W.contents out.new) bytes.now) }
{
    let mut at = 0;
    for _ in 0..u64::MAX {
        if at == bytes.len() {
            return Ok(());
        }
        match out.write(&bytes[at..]) {
            Ok(0) => return Err(WriteFault),
            Ok(n) => at += n,
            Err(e) => {
                if e.kind() != ErrorKind::Interrupted {
                    return Err(WriteFault);
                }
            }
        }
    }
    Err(WriteFault)
}

/// Writes one after the other, or after a fault a prefix of the two.
#[tactic(auto, using(crate::proofs::Known::appends_on, crate::proofs::Known::begins_first, crate::proofs::Known::begins_on))]
pub fn put_both<W: Write>(out: &mut W, first: &[u8], second: &[u8]) -> Result<(), WriteFault>
    ensures ok { OnOk result (Appends (W.contents out.old) (W.contents out.new) (first.now ++ second.now)) }
    ensures err { OnErr result (AppendsBeginning (W.contents out.old) (W.contents out.new) (first.now ++ second.now)) }
{
    put(out, first)?;
    put(out, second)
}

/// Writes a word, a text and LF, or after a fault a prefix of the three.
#[tactic(auto, using(crate::proofs::Known::appends_on, crate::proofs::Known::begins_first, crate::proofs::Known::begins_on))]
pub fn put_line<W: Write>(out: &mut W, word: &[u8], text: &[u8]) -> Result<(), WriteFault>
    ensures ok { OnOk result (Appends (W.contents out.old) (W.contents out.new) (word.now ++ text.now ++ newline)) }
    ensures err { OnErr result (AppendsBeginning (W.contents out.old) (W.contents out.new) (word.now ++ text.now ++ newline)) }
{
    put_both(out, word, text)?;
    put(out, b"\n")
}

/// Writes a word, a decimal number without leading zeros, and LF, or after a fault a prefix of the three.
pub fn put_number<W: Write>(out: &mut W, word: &[u8], number: u64) -> Result<(), WriteFault>
    ensures ok { OnOk result (Appends (W.contents out.old) (W.contents out.new) (word.now ++ decimal number ++ newline)) }
    ensures err { OnErr result (AppendsBeginning (W.contents out.old) (W.contents out.new) (word.now ++ decimal number ++ newline)) }
{
    let mut digits = [b'\n'; MOST_DIGITS + 1];
    let start = write_decimal(&mut digits[..MOST_DIGITS], number);
    put_both(out, word, &digits[start..])
}

/// Writes a word and a decimal number, or after a fault a prefix of the two.
pub fn put_plain<W: Write>(out: &mut W, word: &[u8], number: u64) -> Result<(), WriteFault>
    ensures ok { OnOk result (Appends (W.contents out.old) (W.contents out.new) (word.now ++ decimal number)) }
    ensures err { OnErr result (AppendsBeginning (W.contents out.old) (W.contents out.new) (word.now ++ decimal number)) }
{
    let mut digits = [b'0'; MOST_DIGITS];
    let start = write_decimal(&mut digits, number);
    put_both(out, word, &digits[start..])
}

/// Writes two digits for each byte, of at most `BYTES_AT_ONCE`.
fn put_few_digits<W: Write>(out: &mut W, bytes: &[u8]) -> Result<(), WriteFault>
    requires { length bytes.now ≤ BYTES_AT_ONCE }
    ensures ok { OnOk result (Appends (W.contents out.old) (W.contents out.new) (encode_lower bytes.now)) }
    ensures err { OnErr result (AppendsBeginning (W.contents out.old) (W.contents out.new) (encode_lower bytes.now)) }
{
    let mut digits = [0; 2 * BYTES_AT_ONCE];
    let count = 2 * bytes.len();
    match hex::encode_to_slice(bytes, &mut digits[..count]) {
        Ok(()) => put(out, &digits[..count]),
        Err(_) => Err(WriteFault),
    }
}

/// Writes two digits for each byte, in lower case. However many bytes there are, it takes no memory.
pub fn put_digits<W: Write>(out: &mut W, bytes: &[u8]) -> Result<(), WriteFault>
    ensures ok { OnOk result (Appends (W.contents out.old) (W.contents out.new) (encode_lower bytes.now)) }
    ensures err { OnErr result (AppendsBeginning (W.contents out.old) (W.contents out.new) (encode_lower bytes.now)) }
{
    let mut at = 0;
    while at < bytes.len() {
        let count = BYTES_AT_ONCE.min(bytes.len() - at);
        put_few_digits(out, &bytes[at..at + count])?;
        at += count;
    }
    Ok(())
}

/// Writes a word and then the digits of bytes.
#[tactic(auto, using(crate::proofs::Known::appends_on, crate::proofs::Known::begins_first, crate::proofs::Known::begins_on))]
pub fn put_with_digits<W: Write>(out: &mut W, word: &[u8], bytes: &[u8]) -> Result<(), WriteFault>
    ensures ok { OnOk result (Appends (W.contents out.old) (W.contents out.new) (word.now ++ encode_lower bytes.now)) }
    ensures err { OnErr result (AppendsBeginning (W.contents out.old) (W.contents out.new) (word.now ++ encode_lower bytes.now)) }
{
    put(out, word)?;
    put_digits(out, bytes)
}
