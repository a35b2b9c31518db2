ghost use Rattle.std.specs.Prelude.{◌≡◌, ◌≤◌, ◌<◌, ◌+◌, ◌++◌, ◌^◌, length, take, vec_len, IfOk, OnOk, OnErr, IfErr, IsErrOf};
ghost use Rattle.std.specs.Io.KnownBytes.{Consumes, IsAtEnd, Keeps};
ghost use Rattle.nc_bytes.specs.Bytes.{part};
ghost use Rattle.nc_stream.specs.Counts.{HasCount};
ghost use Rattle.nc_stream.specs.Input.{limit, Reads, Adds, FailsBy};

use crate::failed::Failed;
use crate::source::Source;
use nc_name::Blob;
use std::alloc::Global;
use thiserror::Error;

/// The most bytes that a file may have: 64 MiB.
pub const LIMIT: usize = 67_108_864;

/// How many bytes are asked for at once.
const PIECE: usize = 1_048_576;

/// Why the input wasn't read.
#[derive(Clone, Copy, Debug, PartialEq, Eq, Error)]
pub enum InputFault {
    /// It has more than `LIMIT` bytes.
    #[error("the input is longer than 64 MiB")]
    TooLong,
    /// The source failed before its end.
    #[error("the input failed before its end")]
    Failed,
    /// No memory was found.
    #[error("no memory was found")]
    Memory,
}

/// Reads the whole input.
pub fn read_all<S: Source>(alloc: Global, source: &mut S) -> Result<Blob, InputFault>
    ensures reads { Reads (S.left source.old) (S.left source.new) (result) }
    ensures cause { FailsBy S.counts_exactly (S.faults source.old) (S.faults source.new) result }
{
    let mut bytes = match Vec::with_capacity(alloc, LIMIT + 1) {
        Ok(bytes) => bytes,
        Err(_) => return Err(InputFault::Memory),
    };
    while bytes.len() <= LIMIT {
        match read_piece(source, &mut bytes) {
            Ok(0) => return Ok(Blob::from_vec(bytes)),
            Ok(_) => {}
            Err(fault) => return Err(fault),
        }
    }
    Err(InputFault::TooLong)
}

/// Reads the next bytes, and adds them to those that are there. It answers how many: 0 at the end alone.
fn read_piece<S: Source>(source: &mut S, bytes: &mut Vec<u8>) -> Result<usize, InputFault>
    requires { vec_len bytes.old ≤ limit }
    ensures taken { IfOk result (λ n. Adds (S.left source.old) (S.left source.new) bytes.old.items bytes.new.items n) }
    ensures room { OnOk result (vec_len bytes.new ≤ limit + 1) }
    ensures end { IfOk result (λ n. n ≡ 0 → IsAtEnd (S.left source.new)) }
    ensures kept { OnErr result (Keeps (S.left source.old) (S.left source.new)) }
    ensures same { OnErr result (bytes.new.items ≡ bytes.old.items) }
    ensures short { IsErrOf result InputFault.TooLong → ⊥ }
    ensures cause { FailsBy S.counts_exactly (S.faults source.old) (S.faults source.new) result }
{
    let at = bytes.len();
    let room = PIECE.min(LIMIT + 1 - at);
    grow(bytes, room)?;
    match read_from(source, bytes, at) {
        Ok(n) => {
            bytes.truncate(at + n);
            Ok(n)
        }
        Err(_) => {
            bytes.truncate(at);
            Err(InputFault::Failed)
        }
    }
}

/// Makes room for so many bytes more.
fn grow(bytes: &mut Vec<u8>, room: usize) -> Result<(), InputFault>
    requires { vec_len bytes.old + room ≤ limit + 1 }
    ensures front { OnOk result (take (vec_len bytes.old) bytes.new.items ≡ bytes.old.items) }
    ensures len { OnOk result (vec_len bytes.new ≡ vec_len bytes.old + room) }
    ensures same { OnErr result (bytes.new.items ≡ bytes.old.items) }
    ensures memory { IfErr result (λ fault. fault ≡ InputFault.Memory) }
{
    let len = bytes.len() + room;
    match bytes.resize(len, 0) {
        Ok(()) => Ok(()),
        Err(_) => Err(InputFault::Memory),
    }
}

/// Reads the next bytes into the buffer, from place `at` on, and answers how many.
fn read_from<S: Source>(source: &mut S, buf: &mut [u8], at: usize) -> Result<usize, Failed>
    requires { at < length buf.old }
    ensures front { take at buf.new ≡ take at buf.old }
    ensures bound { IfOk result (λ n. at + n ≤ length buf.old) }
    ensures taken { IfOk result (λ n. Consumes (S.left source.old) (S.left source.new) (part at n buf.new)) }
    ensures end { IfOk result (λ n. n ≡ 0 → IsAtEnd (S.left source.new)) }
    ensures kept { OnErr result (Keeps (S.left source.old) (S.left source.new)) }
    ensures cause { HasCount S.counts_exactly (S.faults source.old) (S.faults source.new) result }
{
    source.read(&mut buf[at..])
}
