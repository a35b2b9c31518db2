ghost use Rattle.std.specs.Prelude.{◌≡◌};
ghost use Rattle.sha2.specs.Sha256.{sha256};
ghost use Rattle.nc_bytes.specs.Bytes.{AreBytes};

use nc_name::Blob;
use nc_write::mark_of;
use std::thread;
use std::thread::Threads;

/// The marks of the new chunks of the lost cloud, by row.
#[derive(Clone, Copy, Debug)]
pub(crate) struct NewMarks {
    pub zero: [u8; 32],
    pub one: [u8; 32],
}

/// The marks of both chunks, taken at once where there are two workers.
pub(crate) fn marks_of_both<R: Threads + Sync>(
    rt: &R,
    zero: &Blob,
    one: &Blob,
    workers: u8,
) -> NewMarks
    ensures zero { result.zero ≡ sha256 zero.now }
    ensures one { result.one ≡ sha256 one.now }
    ensures zero_bytes { AreBytes result.zero }
    ensures one_bytes { AreBytes result.one }
{
    if workers == 1 {
        return NewMarks {
            zero: mark_of(zero),
            one: mark_of(one),
        };
    }
    let zeroth = || -> [u8; 32]
        ensures { result ≡ sha256 zero.entry.now }
    { mark_of(zero) };
    let first = || -> [u8; 32]
        ensures { result ≡ sha256 one.entry.now }
    { mark_of(one) };
    let (zeroth, first) = thread::join(rt, zeroth, first);
    NewMarks {
        zero: zeroth,
        one: first,
    }
}
