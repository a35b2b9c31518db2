//! A source and a sink in memory, which fail at named calls.
ghost use Rattle.std.specs.Prelude.{◌≡◌, ◌+◌, ◌-◌, ◌^◌, ◌≤◌, ◌<◌, ◌++◌, ◌∷◌, [], ◌↔◌, ℕ, Some, length, take, drop, min, Contains, IsErr, is_ok, if◌then◌else◌, IfOk, OnOk, OnErr};
ghost use Rattle.std.specs.Io.{ReadsAtMost, WritesAtMost};
ghost use Rattle.std.specs.Io.KnownBytes.{ReadConsumes, WriteAppends};
ghost use Rattle.nc_name.specs.Counts.{next};
ghost use Rattle.nc_stream.specs.Counts.{HasCount, Moves};

use crate::failed::Failed;
use crate::sink::Sink;
use crate::source::Source;
use nc_name::{Blob, Memory};
use std::alloc::Global;

/// The calls of a source or a sink, numbered from 1, and which of them fail.
#[derive(Drop)]
pub struct Calls {
    made: u64,
    refused: Vec<u64>,
    faults: u64,
}

impl Calls {
    fn new(alloc: Global) -> Calls
        ensures none { result.refused.items ≡ [] }
        ensures calls { result.made ≡ 0 }
        ensures faults { result.faults ≡ 0 }
    {
        Calls {
            made: 0,
            refused: Vec::new(alloc),
            faults: 0,
        }
    }

    fn refuse(&mut self, nth: u64) -> Result<(), Memory>
        ensures ok { OnOk result (self.new.refused.items ≡ self.old.refused.items ++ nth ∷ []) }
        ensures err { OnErr result (self.new.refused.items ≡ self.old.refused.items) }
        ensures calls { self.new.made ≡ self.old.made }
        ensures faults { self.new.faults ≡ self.old.faults }
    {
        match self.refused.push(nth) {
            Ok(()) => Ok(()),
            Err(_) => Err(Memory),
        }
    }

    /// Counts a call, which fails where its number was refused.
    fn begin(&mut self) -> Result<(), Failed>
        ensures made { self.new.made ≡ next self.old.made }
        ensures refused { self.new.refused.items ≡ self.old.refused.items }
        ensures exact { IsErr result ↔ Contains self.old.refused.items (next self.old.made) }
        ensures faults { self.new.faults ≡ (if is_ok result then self.old.faults else next self.old.faults) }
        ensures cause { HasCount (Unit {0}) self.old.faults self.new.faults result }
    {
        self.made = self.made.saturating_add(1);
        if self.refused.contains(&self.made) {
            self.faults = self.faults.saturating_add(1);
            return Err(Failed);
        }
        Ok(())
    }
}

/// Bytes as a source. A call gives at most `most` of them.
#[derive(Drop)]
pub struct MemSource {
    bytes: Blob,
    at: usize,
    most: usize,
    calls: Calls,
    ghost within: { at ≤ length bytes },
    ghost moves: { 1 ≤ most },
}

impl MemSource {
    pub fn new(alloc: Global, bytes: Blob, most: usize) -> MemSource
        requires { 1 ≤ most }
        ensures left { drop result.at result.bytes ≡ bytes }
        ensures most { result.most ≡ most }
        ensures none { result.calls.refused.items ≡ [] }
        ensures calls { result.calls.made ≡ 0 }
        ensures faults { result.calls.faults ≡ 0 }
    {
        MemSource {
            bytes,
            at: 0,
            most,
            calls: Calls::new(alloc),
        }
    }

    /// Lets the nth call, numbered from 1, fail.
    pub fn refuse(&mut self, nth: u64) -> Result<(), Memory>
        ensures ok { OnOk result (self.new.calls.refused.items ≡ self.old.calls.refused.items ++ nth ∷ []) }
        ensures err { OnErr result (self.new.calls.refused.items ≡ self.old.calls.refused.items) }
        ensures calls { self.new.calls.made ≡ self.old.calls.made }
        ensures faults { self.new.calls.faults ≡ self.old.calls.faults }
        ensures left { drop self.new.at self.new.bytes ≡ drop self.old.at self.old.bytes }
        ensures most { self.new.most ≡ self.old.most }
    {
        self.calls.refuse(nth)
    }
}

impl Source for MemSource {
    ghost left = { λ s. Some (drop s.at s.bytes) };

    ghost faults = { λ s. s.calls.faults };

    ghost counts_exactly = { Unit {0} };

    fn read(&mut self, buf: &mut [u8]) -> Result<usize, Failed>
        ensures bound { ReadsAtMost result buf.new }
        ensures bytes { ReadConsumes (Some (drop self.old.at self.old.bytes)) (Some (drop self.new.at self.new.bytes)) result buf.new }
        ensures cause { HasCount (Unit {0}) self.old.calls.faults self.new.calls.faults result }
        ensures exact { IsErr result ↔ Contains self.old.calls.refused.items (next self.old.calls.made) }
        ensures made { self.new.calls.made ≡ next self.old.calls.made }
        ensures refused { self.new.calls.refused.items ≡ self.old.calls.refused.items }
        ensures faults { self.new.calls.faults ≡ (if is_ok result then self.old.calls.faults else next self.old.calls.faults) }
        ensures most { IfOk result (λ n. n ≤ self.old.most) }
        ensures same { self.new.most ≡ self.old.most }
    {
        self.calls.begin()?;
        let (_, rest) = self.bytes.bytes().split_at(self.at);
        let n = give(buf, rest, self.most);
        self.at += n;
        Ok(n)
    }
}

/// Copies the first bytes, at most so many, and answers how many.
fn give(buf: &mut [u8], from: &[u8], most: usize) -> usize
    requires { 1 ≤ most }
    ensures room { result ≤ length buf.old }
    ensures there { result ≤ length from.now }
    ensures given { take result buf.new ≡ take result from.now }
    ensures none { result ≡ 0 → 0 < length buf.old → from.now ≡ [] }
    ensures most { result ≤ most }
{
    let n = from.len().min(buf.len()).min(most);
    let (front, _) = from.split_at(n);
    buf[..n].copy_from_slice(front);
    n
}

/// A sink that keeps what is written. A call takes at most `most` bytes.
#[derive(Drop)]
pub struct MemSink {
    bytes: Vec<u8>,
    most: usize,
    calls: Calls,
    ghost moves: { 1 ≤ most },
}

impl MemSink {
    pub fn new(alloc: Global, most: usize) -> MemSink
        requires { 1 ≤ most }
        ensures empty { result.bytes.items ≡ [] }
        ensures most { result.most ≡ most }
        ensures none { result.calls.refused.items ≡ [] }
        ensures calls { result.calls.made ≡ 0 }
        ensures faults { result.calls.faults ≡ 0 }
    {
        MemSink {
            bytes: Vec::new(alloc),
            most,
            calls: Calls::new(alloc),
        }
    }

    /// What was written.
    pub fn bytes(&self) -> &[u8]
        ensures { result.now ≡ self.now.bytes.items }
    {
        self.bytes.as_slice()
    }

    /// Lets the nth call, numbered from 1, fail.
    pub fn refuse(&mut self, nth: u64) -> Result<(), Memory>
        ensures ok { OnOk result (self.new.calls.refused.items ≡ self.old.calls.refused.items ++ nth ∷ []) }
        ensures err { OnErr result (self.new.calls.refused.items ≡ self.old.calls.refused.items) }
        ensures calls { self.new.calls.made ≡ self.old.calls.made }
        ensures faults { self.new.calls.faults ≡ self.old.calls.faults }
        ensures written { self.new.bytes.items ≡ self.old.bytes.items }
        ensures most { self.new.most ≡ self.old.most }
    {
        self.calls.refuse(nth)
    }
}

impl Sink for MemSink {
    ghost written = { λ s. Some s.bytes.items };

    ghost faults = { λ s. s.calls.faults };

    ghost counts_exactly = { Unit {0} };

    fn write(&mut self, bytes: &[u8]) -> Result<usize, Failed>
        ensures bound { WritesAtMost result bytes.now }
        ensures bytes { WriteAppends (Some self.old.bytes.items) (Some self.new.bytes.items) result bytes.now }
        ensures moves { Moves bytes.now result }
        ensures cause { HasCount (Unit {0}) self.old.calls.faults self.new.calls.faults result }
        ensures fails { Contains self.old.calls.refused.items (next self.old.calls.made) → IsErr result }
        ensures made { self.new.calls.made ≡ next self.old.calls.made }
        ensures refused { self.new.calls.refused.items ≡ self.old.calls.refused.items }
        ensures faults { self.new.calls.faults ≡ (if is_ok result then self.old.calls.faults else next self.old.calls.faults) }
        ensures most { IfOk result (λ n. n ≤ self.old.most) }
        ensures same { self.new.most ≡ self.old.most }
    {
        self.calls.begin()?;
        let n = bytes.len().min(self.most);
        let (front, _) = bytes.split_at(n);
        match self.bytes.extend_from_slice(front) {
            Ok(()) => Ok(n),
            Err(_) => {
                self.calls.faults = self.calls.faults.saturating_add(1);
                Err(Failed)
            }
        }
    }
}
