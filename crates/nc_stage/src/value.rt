//! The bytes that a scene names.

use crate::running::spelled;
use std::alloc::Global;
use std::test::Fail;

/// What follows the generation in the payload of the metadata of "abcdefgh" by the striped code: its length, the rows of
/// the code, the slots, the SHA-256 of each chunk by the program sha256sum, and no witnesses. bench/plain.py makes the same.
const STRIPED: &str =
    "0000000000000008010000000001000000000100000000010100010000010001010002000001000200000000fb8e20fc2e4c3f248c60c39bd652f3c1347298bb977b8b4d5903b8505562060321e721c35a5823fdb452fa2f9f0a612c74fb952e06927489c6b27a43b817bed44ca669ac3713d1f4aea07dae8dcc0d1c9867d27ea82a3ba4e6158a42206f959bfb2b7fce0940161406a6aa3e4d8b4aa6104014774ffa665743f8d9704f0eb0ecb4cc09a903fa62a167ff8ad0e48085c54509806d3d259a89c43d2d3d16da6eb08f70197b722fb84a9fc811720295e1e3cb351833852d4db6606694e14128779ab574cdfb10c65977ed3b7e2176b8269fd89b4a17c2ea39d0538019661bac5ecbbd67b1b81bb0e972ecd5e4ef08a340a93f57494f0feb1fc93991454fd52f931300";

/// The same with zeros for the rows of the code.
const UNSOUND: &str =
    "0000000000000008000000000000000000000000000000000000000000000000000000000000000000000000fb8e20fc2e4c3f248c60c39bd652f3c1347298bb977b8b4d5903b8505562060321e721c35a5823fdb452fa2f9f0a612c74fb952e06927489c6b27a43b817bed44ca669ac3713d1f4aea07dae8dcc0d1c9867d27ea82a3ba4e6158a42206f959bfb2b7fce0940161406a6aa3e4d8b4aa6104014774ffa665743f8d9704f0eb0ecb4cc09a903fa62a167ff8ad0e48085c54509806d3d259a89c43d2d3d16da6eb08f70197b722fb84a9fc811720295e1e3cb351833852d4db6606694e14128779ab574cdfb10c65977ed3b7e2176b8269fd89b4a17c2ea39d0538019661bac5ecbbd67b1b81bb0e972ecd5e4ef08a340a93f57494f0feb1fc93991454fd52f931300";

/// The bytes of these pieces, one after the other.
pub fn bytes_of(alloc: Global, pieces: &[&str]) -> Result<Vec<u8>, Fail> {
    let mut bytes = Vec::new(alloc);
    for piece in pieces {
        bytes.extend_from_slice(piece_bytes(alloc, piece)?.as_slice())?;
    }
    Ok(bytes)
}

/// The bytes of one piece.
pub fn piece_bytes(alloc: Global, piece: &str) -> Result<Vec<u8>, Fail> {
    match piece.split_once(':') {
        Some((kind, number)) => numbered(alloc, kind, number),
        None => literal(alloc, piece),
    }
}

/// A text in quotes, or hexadecimal digits.
fn literal(alloc: Global, piece: &str) -> Result<Vec<u8>, Fail> {
    match piece.strip_prefix('"') {
        Some(text) => { Ok(spelled(alloc, text.trim_end_matches('"'))?.into_bytes()) }
        None => Ok(hex::decode(alloc, piece)?),
    }
}

fn numbered(alloc: Global, kind: &str, number: &str) -> Result<Vec<u8>, Fail> {
    let number: u64 = number.parse()?;
    match kind {
        "zeros" => zeros(alloc, number),
        "mixed" => mixed(alloc, number),
        "live" => meta(alloc, 1, number, STRIPED),
        "unsound" => meta(alloc, 1, number, UNSOUND),
        "gone" => meta(alloc, 0, number, ""),
        "generation" => Ok(format!(in alloc; "generation {number}\n")?.into_bytes()),
        _ => Err(Fail::new("no such bytes")),
    }
}

fn zeros(alloc: Global, len: u64) -> Result<Vec<u8>, Fail> {
    let mut bytes = Vec::new(alloc);
    bytes.resize(usize::try_from(len)?, 0)?;
    Ok(bytes)
}

/// The upper bytes of a linear congruence.
fn mixed(alloc: Global, len: u64) -> Result<Vec<u8>, Fail> {
    let mut bytes = Vec::new(alloc);
    let mut state = 1_u32;
    for _ in 0..len {
        state = state.wrapping_mul(1_664_525).wrapping_add(1_013_904_223);
        bytes.push(state.to_be_bytes()[0])?;
    }
    Ok(bytes)
}

/// The payload of metadata: live or not, of this generation, and so on.
fn meta(alloc: Global, live: u8, generation: u64, rest: &str) -> Result<Vec<u8>, Fail> {
    let digits = format!(in alloc; "4e434d31{live:02x}{generation:016x}{rest}")?;
    Ok(hex::decode(alloc, digits.as_str())?)
}
