ghost use Rattle.std.specs.Prelude.{◌≡◌, ◌+◌, ◌-◌, ◌≤◌, ◌++◌, [], ℕ, List, IfOk, OnOk, OnErr, drop, length, take};
ghost use Rattle.nc_bytes.specs.Bytes.{part};

use std::alloc::{AllocError, AllocFailed, Global};
use std::marker::Model;
use thiserror::Error;

/// No memory was found. Where a call may answer it, it is the one answer that no clause ties to a cause.
#[derive(Clone, Copy, Debug, PartialEq, Eq, Error)]
#[error("no memory was found")]
pub struct Memory;

impl From<AllocError> for Memory {
    fn from(_: AllocError) -> Self {
        Memory
    }
}

impl<T: Drop> From<AllocFailed<T>> for Memory {
    fn from(_: AllocFailed<T>) -> Self {
        Memory
    }
}

/// The room that a frame takes before its payload, whatever its key.
pub const FRONT: usize = 256;

/// The room that a frame takes behind its payload: that of a digest.
pub const BEHIND: usize = 32;

/// Bytes on the heap, seen as their list. There may be room before them and behind them, in which more are put without a copy.
#[derive(Debug, Drop)]
pub struct Blob {
    bytes: Vec<u8>,
    /// The room in front: the list begins behind it.
    front: usize,
    ghost within: { front ≤ length bytes.items },
}

impl Model for Blob {
    ghost use Rattle.std.specs.Prelude.{ℕ, List, drop};

    ghost Value = { List ℕ };

    ghost view = { λ b. drop b.front b.bytes.items };
}

impl Blob {
    /// A copy of the bytes.
    pub fn from_slice(alloc: Global, bytes: &[u8]) -> Result<Blob, Memory>
        ensures { IfOk result (λ blob. blob ≡ bytes.now) }
    {
        let bytes = Vec::from_slice(alloc, bytes)?;
        Ok(Blob { bytes, front: 0 })
    }

    /// The same bytes. It takes no memory.
    pub fn from_vec(bytes: Vec<u8>) -> Blob
        ensures { result ≡ bytes.items }
    {
        Blob { bytes, front: 0 }
    }

    /// No bytes, with room for so many in front and so many behind.
    pub fn with_room(alloc: Global, front: usize, behind: usize) -> Result<Blob, Memory>
        ensures { IfOk result (λ blob. blob ≡ []) }
    {
        let Some(room) = front.checked_add(behind) else {
            return Err(Memory);
        };
        let mut bytes = Vec::with_capacity(alloc, room)?;
        bytes.resize(front, 0)?;
        Ok(Blob { bytes, front })
    }

    pub fn bytes(&self) -> &[u8]
        ensures { result.now ≡ self.now }
    {
        let (_, bytes) = self.bytes.split_at(self.front);
        bytes
    }

    /// Puts these bytes at the end. Where there is room behind it takes no memory; at `Memory` the list is as it was.
    pub fn append(&mut self, more: &[u8]) -> Result<(), Memory>
        ensures ok { OnOk result (self.new ≡ self.old ++ more.now) }
        ensures err { OnErr result (self.new ≡ self.old) }
    {
        match self.bytes.extend_from_slice(more) {
            Ok(()) => Ok(()),
            Err(_) => Err(Memory),
        }
    }

    /// These bytes and then those of the blob. Where there is room in front it takes no memory.
    pub fn with_front(self, alloc: Global, more: &[u8]) -> Result<Blob, Memory>
        ensures { IfOk result (λ blob. blob ≡ more.now ++ self) }
    {
        if self.front < more.len() {
            return joined(alloc, more, self.bytes());
        }
        let Blob { mut bytes, front } = self;
        let front = front - more.len();
        write_over(&mut bytes, more, front);
        Ok(Blob { bytes, front })
    }

    /// The same bytes, but for these in place of as many at the end. It takes no memory.
    pub fn with_end(self, more: &[u8]) -> Blob
        requires { length more.now ≤ length self }
        ensures { result ≡ take (length self - length more.now) self ++ more.now }
    {
        let Blob { mut bytes, front } = self;
        let at = bytes.len() - more.len();
        write_at_end(&mut bytes, more, at);
        Blob { bytes, front }
    }

    /// The `n` bytes from place `at` on, where they are: it takes no memory.
    pub fn into_part(self, at: usize, n: usize) -> Blob
        requires { at + n ≤ length self }
        ensures { result ≡ part at n self }
    {
        let Blob { mut bytes, front } = self;
        let front = front + at;
        bytes.truncate(front + n);
        Blob { bytes, front }
    }
}

/// Both byte strings, one after the other.
fn joined(alloc: Global, one: &[u8], other: &[u8]) -> Result<Blob, Memory>
    ensures { IfOk result (λ blob. blob ≡ one.now ++ other.now) }
{
    let mut blob = Blob::with_room(alloc, 0, one.len().saturating_add(other.len()))?;
    blob.append(one)?;
    blob.append(other)?;
    Ok(blob)
}

/// Writes these bytes over what stands from place `at` on, to the end.
fn write_at_end(bytes: &mut [u8], more: &[u8], at: usize)
    requires { at + length more.now ≡ length bytes.old }
    ensures { bytes.new ≡ take at bytes.old ++ more.now }
{
    let (_, place) = bytes.split_at_mut(at);
    place.copy_from_slice(more);
}

/// Writes these bytes over what stands from place `at` on.
fn write_over(bytes: &mut [u8], more: &[u8], at: usize)
    requires { at + length more.now ≤ length bytes.old }
    ensures { drop at bytes.new ≡ more.now ++ drop (at + length more.now) bytes.old }
{
    let (_, rest) = bytes.split_at_mut(at);
    let (place, _) = rest.split_at_mut(more.len());
    place.copy_from_slice(more);
}
