//! What commands print, over numbers and names. Each text is written in pieces, without memory.
ghost use Rattle.std.specs.Prelude.{◌≡◌, ◌≤◌, length, None, Some};
ghost use Rattle.hex.specs.Hex.{encode_lower};
ghost use Rattle.nc_words.specs.Sending.{Sends};
ghost use Rattle.nc_words.specs.Texts.{about_text, flaw_text, hex_text, mill_text, number_text, row_text, yes_or_no};

use crate::sending::{send, send_parts};
use itoa::Buffer;
use nc_stream::{Failed, Sink};

/// Tells a number after a word.
pub fn say_number<K: Sink>(out: &mut K, word: &[u8], number: u64) -> Result<(), Failed>
    ensures says { Sends K.Sink (number_text word.now number) out.old out.new result }
{
    let mut buffer = Buffer::new();
    send_parts(out, &[word, buffer.format(number).as_bytes(), b"\n"])
}

/// Tells how many bytes a file has, and its name.
pub fn say_row<K: Sink>(out: &mut K, len: u64, name: &[u8]) -> Result<(), Failed>
    ensures says { Sends K.Sink (row_text len name.now) out.old out.new result }
{
    let mut buffer = Buffer::new();
    send_parts(out, &[buffer.format(len).as_bytes(), b" ", name, b"\n"])
}

/// Tells what is known of a file.
pub fn say_about<K: Sink>(
    out: &mut K,
    generation: u64,
    len: u64,
    witnessed: bool,
) -> Result<(), Failed>
    ensures says { Sends K.Sink (about_text generation len witnessed) out.old out.new result }
{
    let mut first = Buffer::new();
    let mut second = Buffer::new();
    send_parts(
        out,
        &[
            b"generation ",
            first.format(generation).as_bytes(),
            b" length ",
            second.format(len).as_bytes(),
            b" witnesses ",
            answer_to(witnessed),
            b"\n",
        ],
    )
}

/// Yes or no.
fn answer_to(holds: bool) -> &'static [u8]
    ensures { result.now ≡ yes_or_no holds }
{
    if holds { b"yes" } else { b"no" }
}

/// Tells that a part of a file isn't right: on which cloud, its metadata or the chunk of a row, why
/// in a word, and of which name.
pub fn say_flaw<K: Sink>(
    out: &mut K,
    cloud: u8,
    row: Option<u8>,
    state: &[u8],
    name: &[u8],
) -> Result<(), Failed>
    ensures says { Sends K.Sink (flaw_text cloud row state.now name.now) out.old out.new result }
{
    match row {
        None => say_meta(out, cloud, state, name),
        Some(row) => say_chunk(out, cloud, row, state, name),
    }
}

/// A cloud's metadata isn't right.
fn say_meta<K: Sink>(out: &mut K, cloud: u8, state: &[u8], name: &[u8]) -> Result<(), Failed>
    ensures says { Sends K.Sink (flaw_text cloud None state.now name.now) out.old out.new result }
{
    let mut buffer = Buffer::new();
    send_parts(
        out,
        &[
            b"cloud ",
            buffer.format(cloud).as_bytes(),
            b" meta ",
            state,
            b" ",
            name,
            b"\n",
        ],
    )
}

/// The chunk of this row on a cloud isn't right.
fn say_chunk<K: Sink>(
    out: &mut K,
    cloud: u8,
    row: u8,
    state: &[u8],
    name: &[u8],
) -> Result<(), Failed>
    ensures says { Sends K.Sink (flaw_text cloud (Some row) state.now name.now)
        out.old out.new result }
{
    let mut first = Buffer::new();
    let mut second = Buffer::new();
    send_parts(
        out,
        &[
            b"cloud ",
            first.format(cloud).as_bytes(),
            b" chunk ",
            second.format(row).as_bytes(),
            b" ",
            state,
            b" ",
            name,
            b"\n",
        ],
    )
}

/// Tells of a mill: its number, how many clouds there were, which was lost, how many chunks its
/// repair took, and the SHA-256 of what it got last.
pub fn say_mill<K: Sink>(
    out: &mut K,
    number: u64,
    width: u8,
    lost: u8,
    fetched: u64,
    digest: &[u8; 32],
) -> Result<(), Failed>
    ensures says { Sends K.Sink (mill_text number width lost fetched digest.now)
        out.old out.new result }
{
    let mut first = Buffer::new();
    let mut second = Buffer::new();
    let mut third = Buffer::new();
    let mut fourth = Buffer::new();
    send_parts(
        out,
        &[
            b"mill ",
            first.format(number).as_bytes(),
            b" width ",
            second.format(width).as_bytes(),
            b" lost ",
            third.format(lost).as_bytes(),
            b" fetched ",
            fourth.format(fetched).as_bytes(),
            b" sha256 ",
            &digits_of(digest),
            b"\n",
        ],
    )
}

/// The digits of a digest.
fn digits_of(digest: &[u8; 32]) -> [u8; 64]
    ensures { result ≡ encode_lower digest.now }
{
    let mut digits = [0; 64];
    let _ = hex::encode_to_slice(digest.as_slice(), digits.as_mut_slice());
    digits
}

/// How many bytes are written as digits at once.
const PIECE: usize = 256;

/// Tells bytes as two lower-case hexadecimal digits each, on a line.
pub fn say_hex<K: Sink>(out: &mut K, bytes: &[u8]) -> Result<(), Failed>
    ensures says { Sends K.Sink (hex_text bytes.now) out.old out.new result }
{
    send_digits(out, bytes)?;
    send(out, b"\n")
}

/// Writes the digits of bytes, a piece after the other.
fn send_digits<K: Sink>(out: &mut K, bytes: &[u8]) -> Result<(), Failed>
    ensures sends { Sends K.Sink (encode_lower bytes.now) out.old out.new result }
{
    let mut rest = bytes;
    while !rest.is_empty() {
        let (piece, left) = rest.split_at(rest.len().min(PIECE));
        send_piece(out, piece)?;
        rest = left;
    }
    Ok(())
}

/// Writes the digits of a few bytes, at once.
fn send_piece<K: Sink>(out: &mut K, piece: &[u8]) -> Result<(), Failed>
    requires few { length piece.now ≤ 256 }
    ensures sends { Sends K.Sink (encode_lower piece.now) out.old out.new result }
{
    let mut buffer = [0; 2 * PIECE];
    let (digits, _) = buffer.split_at_mut(2 * piece.len());
    let _ = hex::encode_to_slice(piece, digits);
    send(out, digits)
}
