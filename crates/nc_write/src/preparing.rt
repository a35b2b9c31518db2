//! All writes of a put, made before the first of them.
ghost use Rattle.std.specs.Prelude.{◌≡◌, ◌≤◌, ◌+◌, ◌*◌, ◌^◌, ℕ, List, IfOk, length};
ghost use Rattle.nc_meta.specs.Parts.{IsGeneration};
ghost use Rattle.nc_state.specs.Holding.{top_generation};
ghost use Rattle.nc_write.specs.Laying.{IsPutLaid};

use crate::live::put_live;
use crate::marks::marks_of;
use crate::rows::by_row;
use crate::sealing::{VersionWrites, lay_version};
use nc_bytes::told_bytes;
use nc_meta::Meta;
use nc_mix::{Open, encode_file};
use nc_name::{Memory, Name};
use nc_nextloss::GoodCode;
use std::alloc::Global;
use std::thread::Threads;

/// Combines the file by this code, and lays out the frames of its chunks, beside those of the metadata before, and seals its metadata.
/// All of a put's memory is taken here.
pub(crate) fn prepare<R: Threads + Sync>(
    rt: &R,
    alloc: Global,
    name: &Name,
    top: &Option<Meta>,
    generation: u64,
    good: &GoodCode,
    workers: u8,
    bytes: &[u8],
) -> Result<VersionWrites, Memory>
    requires next { generation ≡ top_generation top.now + 1 }
    requires last { IsGeneration generation }
    requires some_workers { 1 ≤ workers }
    requires few_workers { workers ≤ 16 }
    requires short { length bytes.now ≤ 2 ^ 26 }
    ensures { IfOk result (IsPutLaid good.now.code.width name.now top.now good.now bytes.now) }
{
    told_bytes(bytes);
    let width = good.code().width();
    let chunks = encode_file(rt, alloc, bytes, good.code(), workers, &Open)?;
    let marks = marks_of(rt, chunks.items(), workers);
    let live = put_live(top, generation, bytes.len() as u64, good, &marks);
    let rows = by_row(alloc, width, chunks)?;
    let version = lay_version(alloc, width, name, &live, rows)?;
    Ok(version)
}
