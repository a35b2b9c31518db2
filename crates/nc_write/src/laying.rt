//! Frames of a version's chunks are laid out around them, which takes all the memory that its writes need.
ghost use Rattle.std.specs.Prelude.{◌≡◌, ◌<◌, ◌≤◌, ◌++◌, ◌∷◌, [], All, IfOk, OnOk};
ghost use Rattle.nc_name.specs.Keys.{Slots};
ghost use Rattle.nc_meta.specs.Metas.{IsLive};
ghost use Rattle.nc_cloud.specs.Fleet.{writes};
ghost use Rattle.nc_write.specs.Laying.{AreLaidWrites, Fits, laid_write};
ghost use Rattle.nc_write.specs.Writes.{chunk_key as chunk_key_of};

use crate::rows::Rows;
use crate::sealing::{Placed, RowWrites};
use nc_cloud::{Done, Job};
use nc_frame::lay_out;
use nc_meta::Live;
use nc_name::{Key, Memory, Name};
use nc_settle::push_job;
use std::alloc::Global;

/// The writes of the chunks of a version, by row, whose frames are laid out: each around its chunk, where that has room for it.
pub(crate) fn lay_rows(
    alloc: Global,
    width: u8,
    name: &Name,
    live: &Live,
    rows: Rows,
) -> Result<RowWrites, Memory>
    requires narrow { width ≤ 10 }
    requires fits { IsLive width live.now }
    requires within_zeros { All (λ x. x.cloud < width) rows.zeros.items }
    requires within_ones { All (λ x. x.cloud < width) rows.ones.items }
    ensures first { IfOk result
        (λ w. AreLaidWrites width name.now live.now 0 rows.zeros.items w.first.items) }
    ensures second { IfOk result
        (λ w. AreLaidWrites width name.now live.now 1 rows.ones.items w.second.items) }
{
    let Rows { zeros, ones } = rows;
    let first = lay_row(alloc, width, name, live, 0, zeros)?;
    let second = lay_row(alloc, width, name, live, 1, ones)?;
    Ok(RowWrites { first, second })
}

/// The writes of these chunks of a row.
fn lay_row(
    alloc: Global,
    width: u8,
    name: &Name,
    live: &Live,
    row: u8,
    chunks: Vec<Placed>,
) -> Result<Vec<Job>, Memory>
    requires narrow { width ≤ 10 }
    requires fits { IsLive width live.now }
    requires pair { row < 2 }
    requires within { All (λ x. x.cloud < width) chunks.items }
    ensures { IfOk result
        (λ jobs. AreLaidWrites width name.now live.now row chunks.items jobs.items) }
{
    let mut jobs = Vec::new(alloc);
    for placed in chunks {
        push_laid(alloc, &mut jobs, width, name, live, row, placed)?;
    }
    Ok(jobs)
}

/// Adds the write of a chunk.
fn push_laid(
    alloc: Global,
    jobs: &mut Vec<Job>,
    width: u8,
    name: &Name,
    live: &Live,
    row: u8,
    placed: Placed,
) -> Result<(), Memory>
    requires narrow { width ≤ 10 }
    requires fits { IsLive width live.now }
    requires pair { row < 2 }
    requires within { placed.cloud < width }
    ensures added { OnOk result
        (writes jobs.new.items
        ≡ writes jobs.old.items ++ laid_write width name.now live.now row placed ∷ []) }
    ensures fits { OnOk result (Fits width name.now live.now row placed) }
{
    let Placed { cloud, chunk } = placed;
    let key = chunk_key(width, name, live, row, cloud);
    let bytes = lay_out(alloc, cloud, width, &key, chunk)?;
    push_job(
        jobs,
        Job {
            cloud,
            key,
            bytes,
            done: Done::Waiting,
        },
    )?;
    Ok(())
}

/// Where a chunk of this row of a version stands on a cloud.
fn chunk_key(width: u8, name: &Name, live: &Live, row: u8, cloud: u8) -> Key
    requires narrow { width ≤ 10 }
    requires fits { IsLive width live.now }
    requires pair { row < 2 }
    requires within { cloud < width }
    ensures is { result ≡ chunk_key_of name.now live.now row cloud }
    ensures slots { Slots result }
{
    Key::Chunk {
        name: *name,
        slot: live.slots[usize::from(cloud)],
        row,
    }
}
