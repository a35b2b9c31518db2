ghost use Rattle.std.specs.Prelude.{◌≡◌, ℕ, List, Option, None};
ghost use Rattle.std.specs.Io.{WritesAtMost};
ghost use Rattle.std.specs.Io.KnownBytes.{WriteAppends};
ghost use Rattle.nc_stream.specs.Counts.{HasCount, Moves};

use crate::failed::Failed;
use std::io::Write;

/// Where an output goes.
pub trait Sink {
    /// The bytes that were written, where the sink tells.
    ghost written: { Self → Option (List ℕ) } = { λ _. None };

    /// How many writes have failed.
    ghost faults: { Self → ℕ };

    /// This count rises at writes that failed, and at no others.
    ghost counts_exactly: { Type 0 } = { ⊥ };

    /// Writes the first of these bytes, and answers how many: at least one, where there is one.
    fn write(&mut self, bytes: &[u8]) -> Result<usize, Failed>
        ensures bound { WritesAtMost result bytes.now }
        ensures bytes { WriteAppends (written self.old) (written self.new) result bytes.now }
        ensures moves { Moves bytes.now result }
        ensures cause { HasCount counts_exactly (faults self.old) (faults self.new) result };
}

/// A writer of std as a sink: the trusted edge to standard output. It tells what the writer tells, and counts exactly.
#[derive(Drop)]
pub struct StdSink<W: Write + Drop> {
    inner: W,
    faults: u64,
}

impl<W: Write + Drop> StdSink<W> {
    pub fn new(inner: W) -> StdSink<W>
        ensures inner { result.inner ≡ inner }
        ensures faults { result.faults ≡ 0 }
    {
        StdSink { inner, faults: 0 }
    }
}

impl<W: Write + Drop> Sink for StdSink<W> {
    ghost written = { λ s. W.contents s.inner };

    ghost faults = { λ s. s.faults };

    ghost counts_exactly = { Unit {0} };

    fn write(&mut self, bytes: &[u8]) -> Result<usize, Failed> {
        match self.inner.write(bytes) {
            Ok(n) if n > 0 || bytes.is_empty() => Ok(n),
            _ => {
                self.faults = self.faults.saturating_add(1);
                Err(Failed)
            }
        }
    }
}
