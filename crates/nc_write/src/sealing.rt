//! All writes of a version, made before the first of them.
ghost use Rattle.std.specs.Prelude.{◌≡◌, ◌<◌, ◌≤◌, All, IfOk};
ghost use Rattle.nc_meta.specs.Metas.{IsLive, IsMeta};
ghost use Rattle.nc_meta.specs.declared.meta.Meta.TheVariants.{Live as LiveMeta};
ghost use Rattle.nc_cloud.specs.Deciding.{AreAscending};
ghost use Rattle.nc_write.specs.Laying.{AreVersionLaid};
ghost use Rattle.nc_write.specs.Writes.{AreChunkWrites, AreMetaWrites, AreVersionWrites, clouds_of};

use crate::finishing::finish_rows;
use crate::laying::lay_rows;
use crate::rows::Rows;
use nc_cloud::Job;
use nc_meta::{Live, Meta};
use nc_name::{Blob, Memory, Name};
use nc_settle::meta_jobs;
use std::alloc::Global;
use std::thread::Threads;

/// A chunk, and the cloud that it goes to.
#[derive(Debug, Drop)]
pub struct Placed {
    pub cloud: u8,
    pub chunk: Blob,
}

/// The writes of chunks of a version, by row.
#[derive(Debug, Drop)]
pub struct RowWrites {
    pub first: Vec<Job>,
    pub second: Vec<Job>,
}

/// The metadata of a version, and all its writes, by rounds.
#[derive(Debug, Drop)]
pub struct VersionWrites {
    pub live: Live,
    /// The new chunks of row 0.
    pub first: Vec<Job>,
    /// The new chunks of row 1.
    pub second: Vec<Job>,
    /// The metadata on all clouds.
    pub metas: Vec<Job>,
}

/// Lays out a version with these new chunks, one of each row for each of some clouds: a put's are on all clouds, a repair's on one.
/// The frames of its chunks have no digests yet; its metadata is sealed.
pub(crate) fn lay_version(
    alloc: Global,
    width: u8,
    name: &Name,
    live: &Live,
    rows: Rows,
) -> Result<VersionWrites, Memory>
    requires wide { 4 ≤ width }
    requires narrow { width ≤ 10 }
    requires fits { IsLive width live.now }
    requires ascend { AreAscending (λ c. c) width (clouds_of rows.zeros.items) }
    requires same { clouds_of rows.ones.items ≡ clouds_of rows.zeros.items }
    ensures live { IfOk result (λ w. w.live ≡ live.now) }
    ensures laid { IfOk result
        (AreVersionLaid width name.now rows.zeros.items rows.ones.items) }
{
    let chunks = lay_rows(alloc, width, name, live, rows)?;
    let version = with_metas(alloc, width, name, live, chunks)?;
    Ok(version)
}

/// Seals a version with these new chunks, as `lay_version` lays it out, up to so many at once.
pub fn seal_version<R: Threads + Sync>(
    rt: &R,
    alloc: Global,
    width: u8,
    name: &Name,
    live: &Live,
    rows: Rows,
    workers: u8,
) -> Result<VersionWrites, Memory>
    requires wide { 4 ≤ width }
    requires narrow { width ≤ 10 }
    requires fits { IsLive width live.now }
    requires ascend { AreAscending (λ c. c) width (clouds_of rows.zeros.items) }
    requires same { clouds_of rows.ones.items ≡ clouds_of rows.zeros.items }
    requires some_workers { 1 ≤ workers }
    requires few_workers { workers ≤ 16 }
    ensures live { IfOk result (λ w. w.live ≡ live.now) }
    ensures made { IfOk result
        (AreVersionWrites width name.now rows.zeros.items rows.ones.items) }
{
    let chunks = seal_rows(rt, alloc, width, name, live, rows, workers)?;
    let version = with_metas(alloc, width, name, live, chunks)?;
    Ok(version)
}

/// These writes of chunks, and those of the metadata.
fn with_metas(
    alloc: Global,
    width: u8,
    name: &Name,
    live: &Live,
    chunks: RowWrites,
) -> Result<VersionWrites, Memory>
    requires wide { 4 ≤ width }
    requires narrow { width ≤ 10 }
    requires fits { IsLive width live.now }
    ensures live { IfOk result (λ w. w.live ≡ live.now) }
    ensures first { IfOk result (λ w. w.first ≡ chunks.first) }
    ensures second { IfOk result (λ w. w.second ≡ chunks.second) }
    ensures metas { IfOk result
        (λ w. AreMetaWrites width name.now (LiveMeta live.now) w.metas.items) }
{
    let metas = metas_for(alloc, width, name, &Meta::Live(*live))?;
    let RowWrites { first, second } = chunks;
    Ok(VersionWrites {
        live: *live,
        first,
        second,
        metas,
    })
}

/// The writes of this metadata, one on each cloud.
pub fn metas_for(alloc: Global, width: u8, name: &Name, meta: &Meta) -> Result<Vec<Job>, Memory>
    requires wide { 4 ≤ width }
    requires narrow { width ≤ 10 }
    requires fits { IsMeta width meta.now }
    ensures { IfOk result (λ jobs. AreMetaWrites width name.now meta.now jobs.items) }
{
    let jobs = meta_jobs(alloc, width, name, meta, &[true; 10])?;
    Ok(jobs)
}

/// Seals chunks as those of a version, up to so many at once. A frame is made around its chunk, where that has room for it.
pub fn seal_rows<R: Threads + Sync>(
    rt: &R,
    alloc: Global,
    width: u8,
    name: &Name,
    live: &Live,
    rows: Rows,
    workers: u8,
) -> Result<RowWrites, Memory>
    requires narrow { width ≤ 10 }
    requires fits { IsLive width live.now }
    requires within_zeros { All (λ x. x.cloud < width) rows.zeros.items }
    requires within_ones { All (λ x. x.cloud < width) rows.ones.items }
    requires some_workers { 1 ≤ workers }
    requires few_workers { workers ≤ 16 }
    ensures first { IfOk result
        (λ w. AreChunkWrites width name.now live.now 0 rows.zeros.items w.first.items) }
    ensures second { IfOk result
        (λ w. AreChunkWrites width name.now live.now 1 rows.ones.items w.second.items) }
{
    let laid = lay_rows(alloc, width, name, live, rows)?;
    Ok(finish_rows(rt, alloc, laid, workers))
}
