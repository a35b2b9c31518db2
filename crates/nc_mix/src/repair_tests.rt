//! Chunks that are made anew.

ghost use Rattle.std.specs.Prelude.{◌≡◌, ◌+◌, ◌*◌, ◌<◌, ◌≤◌, length, IfOk};
ghost use Rattle.nc_native.specs.Native.{AllLong};

use crate::tests::file_of;
use crate::{Gate, Open, Pair, encode, regenerate};
use nc_code::{Code, Plan, repaired, striped};
use nc_name::{Blob, Memory};
use nc_native::{chunk_size, cut};
use std::alloc::Global;
use std::test::Fail;
use std::thread::Threads;

/// A copy of a chunk that has so many bytes.
fn copy_of(alloc: Global, chunk: &[u8], size: usize) -> Result<Blob, Fail>
    ensures { IfOk result (λ blob. length blob ≡ size) }
{
    if chunk.len() != size {
        return Err(Fail::from("another size"));
    }
    Ok(Blob::from_slice(alloc, chunk)?)
}

/// The chunks that a plan takes from the clouds other than the lost one.
fn chosen(
    alloc: Global,
    chunks: &[Blob],
    plan: &Plan,
    lost: u8,
    width: u8,
    size: usize,
) -> Result<Vec<Blob>, Fail>
    requires narrow { width ≤ 10 }
    requires count { length chunks.now ≡ 2 * width }
    ensures { IfOk result (λ v. AllLong size v.items) }
{
    plan.told_plan();
    let mut fetched = Vec::new(alloc);
    for cloud in 0..width {
        if cloud != lost {
            let row = plan.choice[cloud as usize];
            let chunk = chunks[2 * cloud as usize + row as usize].bytes();
            fetched.push(copy_of(alloc, chunk, size)?)?;
        }
    }
    Ok(fetched)
}

/// Both chunks of the lost cloud, made anew of the chunks that its plan chooses.
pub fn made_anew<R: Threads + Sync, G: Gate + Sync>(
    rt: &R,
    alloc: Global,
    chunks: &[Blob],
    plan: &Plan,
    lost: u8,
    width: u8,
    size: usize,
    workers: u8,
    gate: &G,
) -> Result<Pair, Fail>
    requires wide { 4 ≤ width }
    requires narrow { width ≤ 10 }
    requires lost { lost < width }
    requires count { length chunks.now ≡ 2 * width }
    requires some_worker { 1 ≤ workers }
    requires few_workers { workers ≤ 16 }
{
    let fetched = chosen(alloc, chunks, plan, lost, width, size)?;
    if fetched.len() + 1 != width as usize {
        return Err(Fail::from("not all but one cloud"));
    }
    Ok(regenerate(rt, alloc, &fetched, plan, lost, width, workers, gate)?)
}

/// Both chunks of the lost cloud of a file, one after the other, made anew from its chunks by a code.
fn made_of<R: Threads + Sync>(
    rt: &R,
    alloc: Global,
    file: &[u8],
    code: &Code,
    plan: &Plan,
    lost: u8,
) -> Result<Vec<u8>, Fail>
    requires lost { lost < code.now.width }
{
    let width = code.width();
    let size = chunk_size(file.len() as u64, width) as usize;
    let natives = cut(alloc, file, width)?;
    let chunks = encode(rt, alloc, &natives, code, 1, &Open)?;
    let pair = made_anew(rt, alloc, chunks.items(), plan, lost, width, size, 1, &Open)?;
    let mut both = Vec::new(alloc);
    both.extend_from_slice(pair.zero.bytes())?;
    both.extend_from_slice(pair.one.bytes())?;
    Ok(both)
}

/// A plan for any loss.
pub fn mixed_plan() -> Plan {
    let coefs = [
        [0x11, 0x22, 0x33, 0x44, 0x55, 0x66, 0x77, 0x88, 0x99, 0xAA],
        [0xFE, 0x80, 0x01, 0x00, 0x8E, 0x1D, 0x40, 0xC3, 0x02, 0x53],
    ];
    Plan::new(&[0, 1, 1, 0, 1, 0, 0, 1, 0, 1], &coefs)
}

#[test]
fn a_lost_cloud_of_four(rt: HostRuntime) -> Result<(), Fail> {
    let coefs = [
        [0, 1, 2, 3, 0, 0, 0, 0, 0, 0],
        [0, 0, 1, 1, 0, 0, 0, 0, 0, 0],
    ];
    let plan = Plan::new(&[0; 10], &coefs);
    let both = made_of(&rt, rt.alloc(), b"abcdefgh", &striped(4), &plan, 0)?;
    assert_eq!(rt; both.as_slice(), [0x8D, 0x81, 0xAF, 0xAA].as_slice());
    let coefs = [
        [0x53, 0x07, 0x63, 0xCA, 0, 0, 0, 0, 0, 0],
        [0x01, 0x8E, 0x63, 0x02, 0, 0, 0, 0, 0, 0],
    ];
    let plan = Plan::new(&[1, 0, 0, 1, 0, 0, 0, 0, 0, 0], &coefs);
    let both = made_of(&rt, rt.alloc(), b"abcdefgh", &striped(4), &plan, 2)?;
    assert_eq!(rt; both.as_slice(), [0x46, 0x03, 0x98, 0x22].as_slice());
    Ok(())
}

#[test]
fn a_lost_cloud_of_ten(rt: HostRuntime) -> Result<(), Fail> {
    let mut file = Vec::new(rt.alloc());
    for i in 1..33u8 {
        file.push(i)?;
    }
    let both = made_of(&rt, rt.alloc(), &file, &striped(10), &mixed_plan(), 9)?;
    assert_eq!(rt; both.as_slice(), [0x7F, 0x6C, 0xF6, 0x9B].as_slice());
    let both = made_of(&rt, rt.alloc(), &file, &striped(10), &mixed_plan(), 4)?;
    assert_eq!(rt; both.as_slice(), [0x11, 0xC9, 0x7F, 0xE8].as_slice());
    Ok(())
}

/// Whether, for each cloud that may be lost, the chunks made anew are those that the repaired code gives of the file.
fn repairs_all<R: Threads + Sync>(
    rt: &R,
    alloc: Global,
    width: u8,
    len: u32,
    workers: u8,
) -> Result<bool, Fail>
    requires wide { 4 ≤ width }
    requires narrow { width ≤ 10 }
    requires some_worker { 1 ≤ workers }
    requires few_workers { workers ≤ 16 }
{
    let file = file_of(alloc, len)?;
    let code = striped(width);
    for lost in 0..width {
        if !repairs_one(rt, alloc, &file, &code, lost, workers)? {
            return Ok(false);
        }
    }
    Ok(true)
}

/// Whether the chunks of a lost cloud, made anew, are those that the repaired code gives of the file.
fn repairs_one<R: Threads + Sync>(
    rt: &R,
    alloc: Global,
    file: &[u8],
    code: &Code,
    lost: u8,
    workers: u8,
) -> Result<bool, Fail>
    requires lost { lost < code.now.width }
    requires some_worker { 1 ≤ workers }
    requires few_workers { workers ≤ 16 }
{
    let width = code.width();
    let plan = mixed_plan();
    let size = chunk_size(file.len() as u64, width) as usize;
    let natives = cut(alloc, file, width)?;
    let chunks = encode(rt, alloc, &natives, code, 1, &Open)?;
    let pair = made_anew(
        rt,
        alloc,
        chunks.items(),
        &plan,
        lost,
        width,
        size,
        workers,
        &Open,
    )?;
    let again = repaired(code, lost, &plan);
    let wanted = encode(rt, alloc, &natives, &again, 1, &Open)?;
    let place = 2 * lost as usize;
    Ok(
        pair.zero.bytes() == wanted.items()[place].bytes()
            && pair.one.bytes() == wanted.items()[place + 1].bytes(),
    )
}

#[test]
fn each_cloud_may_be_lost(rt: HostRuntime) -> Result<(), Fail> {
    for len in [0u32, 1, 8, 30_003] {
        assert!(rt; repairs_all(&rt, rt.alloc(), 4, len, 1)?, "{len} bytes");
        assert!(rt; repairs_all(&rt, rt.alloc(), 7, len, 3)?, "{len} bytes");
        assert!(rt; repairs_all(&rt, rt.alloc(), 10, len, 16)?, "{len} bytes");
    }
    Ok(())
}
