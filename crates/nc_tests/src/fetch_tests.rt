//! A file that is large enough for a thread of its own to make room for it comes back, by one worker and by more.
ghost use Rattle.std.specs.Prelude.{◌≡◌, ◌≤◌};
ghost use Rattle.nc_memory.specs.Memory.{width_of};

use crate::codes::good_code;
use crate::stored::lose;
use nc_fetch::fetch;
use nc_memory::MemFleet;
use nc_name::{Memory, Name};
use nc_settle::Settled;
use nc_write::put;
use std::alloc::Global;
use std::process::Abort;
use std::test::Fail;
use std::thread::Threads;

/// One byte more than 2^20: the bytes 0 to 250 again and again.
fn large_file(alloc: Global) -> Result<Vec<u8>, Memory> {
    let mut file = Vec::new(alloc);
    for i in 0..1_048_577u32 {
        file.push((i % 251) as u8)?;
    }
    Ok(file)
}

/// Stores the file under the name.
fn store<R: Threads + Sync + Abort>(
    rt: &R,
    alloc: Global,
    fleet: &mut MemFleet,
    name: &Name,
    file: &[u8],
)
    requires { width_of fleet.old ≡ 4 }
    ensures { width_of fleet.new ≡ 4 }
{
    assert!(rt; file.len() <= 67_108_864);
    let never = Settled { top: None };
    let good = good_code(rt);
    let answer = put(rt, alloc, fleet, name, &never, &good, file, 4);
    assert!(rt; answer.is_ok());
}

/// Whether the file of the name is this one, fetched by so many workers.
fn comes_back<R: Threads + Sync>(
    rt: &R,
    alloc: Global,
    fleet: &mut MemFleet,
    name: &Name,
    file: &[u8],
    workers: u8,
) -> bool
    requires width { width_of fleet.old ≡ 4 }
    requires some { 1 ≤ workers }
    requires few { workers ≤ 16 }
    ensures { width_of fleet.new ≡ 4 }
{
    match fetch(rt, alloc, fleet, name, workers) {
        Ok(found) => found.bytes() == file,
        Err(_) => false,
    }
}

#[test]
fn a_large_file_comes_back(rt: HostRuntime) -> Result<(), Fail> {
    let alloc = rt.alloc();
    let name = Name::read("a")?;
    let file = large_file(alloc)?;
    let mut fleet = MemFleet::new(alloc, 4)?;
    store(&rt, alloc, &mut fleet, &name, &file);
    assert!(rt; comes_back(&rt, alloc, &mut fleet, &name, &file, 1));
    assert!(rt; comes_back(&rt, alloc, &mut fleet, &name, &file, 4));
    lose(alloc, &mut fleet, 0)?;
    lose(alloc, &mut fleet, 3)?;
    assert!(rt; comes_back(&rt, alloc, &mut fleet, &name, &file, 1));
    assert!(rt; comes_back(&rt, alloc, &mut fleet, &name, &file, 4));
    Ok(())
}
