//! A line of a batch.

ghost use Rattle.std.specs.Prelude.{◌≡◌, ◌≤◌, ◌∷◌, ◌++◌, [], IfOk, IfErr, IfSome, IfNone, codes, length};
ghost use Rattle.clap.specs.Walk.{texts};
ghost use Rattle.nc_words.specs.Acts.{FitsWidth};
ghost use Rattle.nc_words.specs.LineParts.{HasNoSpace, IsPlainAct, IsPut, RefusesAct, RefusesData, RefusesPut, SplitsAtFirst, SplitsAtLast};
ghost use Rattle.nc_words.specs.Lines.{IsData, LineAsks, RefusesLine};
ghost use Rattle.nc_words.specs.declared.lines.LineFault.TheVariants.{Memory};

use crate::act::{Act, Command};
use crate::commands::read_arguments;
use hex::FromHexError;
use nc_name::{Blob, Name};
use std::alloc::Global;
use thiserror::Error;

/// What a line asks for.
#[derive(Debug, Drop)]
pub struct Line {
    pub act: Act,
    /// The bytes that a put stores; no other act has any.
    pub bytes: Blob,
}

/// Why a line isn't done.
#[derive(Clone, Copy, Debug, PartialEq, Eq, Error)]
pub enum LineFault {
    /// It is none of the lines of a batch.
    #[error("the line is none of the lines of a batch")]
    Outside,
    /// Memory ran out while it was read.
    #[error("memory ran out")]
    Memory,
}

/// Reads a line of a batch over so many clouds, without its line feed.
pub fn read_line(alloc: Global, line: &[u8], width: u8) -> Result<Line, LineFault>
    ensures line { IfOk result (λ read. LineAsks width line.now read.act read.bytes) }
    ensures fits { IfOk result (λ read. FitsWidth width read.act) }
    ensures short { IfOk result (λ read. length read.bytes ≤ length line.now) }
    ensures fault { IfErr result (RefusesLine width line.now) }
{
    match str::from_utf8(line) {
        Ok(text) => read_text(alloc, text, width),
        Err(_) => Err(LineFault::Outside),
    }
}

/// Reads a line that is a text: its first word says how what follows is read.
fn read_text(alloc: Global, text: &str, width: u8) -> Result<Line, LineFault>
    ensures line { IfOk result (λ read. LineAsks width text.now read.act read.bytes) }
    ensures fits { IfOk result (λ read. FitsWidth width read.act) }
    ensures fault { IfErr result (RefusesLine width text.now) }
{
    let Some((word, tail)) = split_first(text) else {
        return read_plain(alloc, text, &[], width);
    };
    match word {
        "put" => read_put(alloc, tail),
        "restore" => read_restore(alloc, tail, width),
        _ => read_plain(alloc, word, &[tail], width),
    }
}

/// Reads what follows the word of a put: a name, a space and the digits of its bytes. A name may hold spaces, digits have none.
fn read_put(alloc: Global, tail: &str) -> Result<Line, LineFault>
    ensures put { IfOk result (λ read. IsPut tail.now read.act read.bytes) }
    ensures fault { IfErr result (RefusesPut tail.now) }
{
    let Some((front, digits)) = split_last(tail) else {
        return Err(LineFault::Outside);
    };
    let Ok(name) = Name::read(front) else {
        return Err(LineFault::Outside);
    };
    match read_data(alloc, digits) {
        Ok(bytes) => Ok(Line {
            act: Act::Put(name),
            bytes,
        }),
        Err(fault) => Err(fault),
    }
}

/// The bytes that a text is.
fn read_data(alloc: Global, text: &str) -> Result<Blob, LineFault>
    ensures is_data { IfOk result (IsData text.now) }
    ensures fault { IfErr result (RefusesData text.now) }
{
    if text == "-" {
        return no_bytes(alloc);
    }
    if text.len() < 2 {
        return Err(LineFault::Outside);
    }
    match hex::decode(alloc, text) {
        Ok(bytes) => Ok(Blob::from_vec(bytes)),
        Err(FromHexError::OutOfMemory) => Err(LineFault::Memory),
        Err(_) => Err(LineFault::Outside),
    }
}

/// Reads what follows the word of a restore: the number of one cloud, or those of two with a space between them.
fn read_restore(alloc: Global, tail: &str, width: u8) -> Result<Line, LineFault>
    ensures line { IfOk result
        (λ read. LineAsks width (codes "restore " ++ tail.now) read.act read.bytes) }
    ensures fits { IfOk result (λ read. FitsWidth width read.act) }
    ensures fault { IfErr result (RefusesLine width (codes "restore " ++ tail.now)) }
{
    match split_first(tail) {
        Some((first, second)) => read_plain(alloc, "restore", &[first, second], width),
        None => read_plain(alloc, "restore", &[tail], width),
    }
}

/// Reads the words of an act that stores no bytes, as a command line has them.
fn read_plain(alloc: Global, word: &str, rest: &[&str], width: u8) -> Result<Line, LineFault>
    ensures act { IfOk result
        (λ read. IsPlainAct width (word.now ∷ texts rest.now) read.act read.bytes) }
    ensures fits { IfOk result (λ read. FitsWidth width read.act) }
    ensures fault { IfErr result (RefusesAct width (word.now ∷ texts rest.now)) }
{
    match read_arguments(word, rest, width) {
        Ok(Command::Act(act)) => match no_bytes(alloc) {
            Ok(bytes) => Ok(Line { act, bytes }),
            Err(fault) => Err(fault),
        },
        Ok(_) => Err(LineFault::Outside),
        Err(_) => Err(LineFault::Outside),
    }
}

fn no_bytes(alloc: Global) -> Result<Blob, LineFault>
    ensures none { IfOk result (λ bytes. bytes ≡ []) }
    ensures memory { IfErr result (λ fault. fault ≡ Memory) }
{
    match Blob::from_slice(alloc, &[]) {
        Ok(bytes) => Ok(bytes),
        Err(_) => Err(LineFault::Memory),
    }
}

/// The two parts of a text around its first space.
fn split_first(text: &str) -> Option<(&str, &str)>
    ensures some { IfSome result
        (λ parts. SplitsAtFirst text.now parts.0.now parts.1.now) }
    ensures none { IfNone result (HasNoSpace text.now) }
{
    text.split_once(' ')
}

/// The two parts of a text around its last space.
fn split_last(text: &str) -> Option<(&str, &str)>
    ensures some { IfSome result
        (λ parts. SplitsAtLast text.now parts.0.now parts.1.now) }
    ensures none { IfNone result (HasNoSpace text.now) }
{
    text.rsplit_once(' ')
}
