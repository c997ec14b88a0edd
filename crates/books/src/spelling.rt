//! Streams as text.

use anyhow::Result;
use sha2::{Digest, Sha256};
use std::alloc::Global;

/// The tag of the record that ends a stream.
const COMMIT: u8 = 5;

/// The bytes that a text encodes: words of hexadecimal digits, the bytes of each as often as a number after `*` says
/// (`00*4096`). Some words stand for common parts of a stream: `HEADER` for the header of one page and one entropy device, `PAGE`
/// for the record of page 0 of zeros, `DEVICE` for the record of such a device as it begins, and `FRESH` for the whole stream of
/// such a machine, all in version 1; `HEADER_2`, `ZEROS` and `FRESH_2` for header, page and stream in version 2. `COMMIT` stands
/// for the record that ends a stream, with the SHA-256 of all bytes before it, and `|` separates records for a reader and means
/// nothing.
pub fn spelled(alloc: Global, text: &str) -> Result<Vec<u8>> {
    let mut bytes = Vec::new(alloc);
    for word in text.split_whitespace() {
        if word == "COMMIT" {
            add_commit(&mut bytes)?;
            continue;
        }
        for part in meaning(word).split(' ') {
            add_word(alloc, &mut bytes, part)?;
        }
    }
    Ok(bytes)
}

fn meaning(word: &str) -> &str {
    match word {
        "HEADER" => "564d4947 01000000 01000000 01000000 04",
        "PAGE" => "01 00000000 00*4096",
        "DEVICE" => "04 00 40000000 00*58 010000 010000",
        "FRESH" => concat!(
            "564d4947 01000000 01000000 01000000 04 01 00000000 00*4096 04 00 40000000 00*58 010000 010000 05 ",
            "0462f7be415328f8018cdf1e37eb8886ff32fe1ed27858552e208da3e1ac3d2d"
        ),
        "HEADER_2" => "564d4947 02000000 01000000 01000000 04",
        "ZEROS" => "06 00000000",
        "FRESH_2" => concat!(
            "564d4947 02000000 01000000 01000000 04 06 00000000 04 00 40000000 00*58 010000 010000 05 ",
            "3ed9c2fd3332bfee423c73812bb8144ffb0688c3a76c767b9f7a081f13a9a58e"
        ),
        "|" => "",
        _ => word,
    }
}

/// Adds the last record of a stream that begins with these bytes.
fn add_commit(bytes: &mut Vec<u8>) -> Result<()> {
    let digest = Sha256::digest(bytes.as_slice());
    bytes.push(COMMIT)?;
    bytes.extend_from_slice(digest.as_slice())?;
    Ok(())
}

fn add_word(alloc: Global, bytes: &mut Vec<u8>, word: &str) -> Result<()> {
    let (digits, count) = word.split_once('*').unwrap_or((word, "1"));
    let part = hex::decode(alloc, digits)?;
    for _ in 0..count.parse::<u16>()? {
        bytes.extend_from_slice(part.as_slice())?;
    }
    Ok(())
}
