//! Clouds that are served at the same time.
ghost use Rattle.std.specs.Prelude.{◌≡◌, IfOk, None, length};

use crate::fanned_tests::job;
use crate::keys::meta;
use nc_cloud::{
    Ask, AtOnce, Cloud, CloudError, Erase, Fanned, Got, Job, KeyList, RoundFault, Seat,
    delete_at_once, get_at_once, put_at_once, write_round,
};
use nc_memory::{MemCloud, Torn};
use nc_name::{Key, Memory, Name};
use std::alloc::{AllocError, Global};
use std::sync::Arc;
use std::sync::atomic::{AtomicU64, Ordering};
use std::test::Fail;
use std::thread::Threads;

/// A cloud whose put waits for that of another, for some time. It fails where none comes.
#[derive(Drop)]
struct Waiting {
    begun: Arc<AtomicU64>,
    faults: u64,
}

impl Cloud for Waiting {
    ghost held = { λ cloud key. None };

    ghost faults = { λ cloud. cloud.faults };

    ghost slips = { λ cloud. 0 };

    ghost chunk_gets = { λ cloud. 0 };

    fn get(&mut self, _key: &Key, _most: u64) -> Result<Got, CloudError> {
        Ok(Got::Absent)
    }

    fn put(&mut self, _key: &Key, _bytes: &[u8]) -> Result<(), CloudError> {
        if two_have_begun(&self.begun) {
            return Ok(());
        }
        self.faults = self.faults.saturating_add(1);
        Err(CloudError::Failed)
    }

    fn delete(&mut self, _key: &Key) -> Result<(), CloudError> {
        Ok(())
    }

    fn list(&mut self) -> Result<KeyList, CloudError> {
        Err(CloudError::Memory)
    }
}

impl AtOnce for Waiting {
    fn get_all<R: Threads + Sync>(rt: &R, seats: &mut [Seat<Self>], asks: &[Ask]) {
        get_at_once(rt, seats, asks);
    }

    fn put_all<R: Threads + Sync>(rt: &R, seats: &mut [Seat<Self>], jobs: &[Job]) {
        put_at_once(rt, seats, jobs);
    }

    fn delete_all<R: Threads + Sync>(rt: &R, seats: &mut [Seat<Self>], erases: &[Erase]) {
        delete_at_once(rt, seats, erases);
    }
}

/// Begins, and tells whether another has begun too before it gives up.
fn two_have_begun(begun: &Arc<AtomicU64>) -> bool {
    begun.fetch_add(1, Ordering::SeqCst);
    for _ in 0..2_000_000_000u32 {
        if begun.load(Ordering::SeqCst) >= 2 {
            return true;
        }
    }
    false
}

/// Four clouds of which two wait for each other.
fn four_waiting(alloc: Global) -> Result<Vec<Waiting>, AllocError>
    ensures { IfOk result (λ clouds. length clouds.items ≡ 4) }
{
    let begun = Arc::new(alloc, AtomicU64::new(0))?;
    let mut clouds = Vec::new(alloc);
    clouds.push(Waiting {
        begun: begun.clone()?,
        faults: 0,
    })?;
    clouds.push(Waiting {
        begun: begun.clone()?,
        faults: 0,
    })?;
    clouds.push(Waiting {
        begun: begun.clone()?,
        faults: 0,
    })?;
    clouds.push(Waiting { begun, faults: 0 })?;
    Ok(clouds)
}

/// Four clouds of which those in the middle fail at their first call.
fn two_failing(alloc: Global) -> Result<Vec<MemCloud>, Memory>
    ensures { IfOk result (λ clouds. length clouds.items ≡ 4) }
{
    let mut second = MemCloud::new(alloc);
    second.refuse(1, Torn::Old)?;
    let mut third = MemCloud::new(alloc);
    third.refuse(1, Torn::New)?;
    let mut clouds = Vec::new(alloc);
    clouds.push(MemCloud::new(alloc))?;
    clouds.push(second)?;
    clouds.push(third)?;
    clouds.push(MemCloud::new(alloc))?;
    Ok(clouds)
}

#[test]
fn puts_of_one_round_meet(rt: HostRuntime) -> Result<(), Fail> {
    let key = meta(Name::read("a")?);
    let mut fleet = Fanned::new(rt, rt.alloc(), four_waiting(rt.alloc())?)?;
    let mut jobs = [job(rt.alloc(), 0, &key)?, job(rt.alloc(), 3, &key)?];
    assert!(rt; write_round(&mut fleet, &mut jobs).is_ok());
    Ok(())
}

#[test]
fn the_least_cloud_that_failed_is_told(rt: HostRuntime) -> Result<(), Fail> {
    let key = meta(Name::read("a")?);
    let mut fleet = Fanned::new(rt, rt.alloc(), two_failing(rt.alloc())?)?;
    let mut jobs = [
        job(rt.alloc(), 0, &key)?,
        job(rt.alloc(), 1, &key)?,
        job(rt.alloc(), 2, &key)?,
    ];
    let told = write_round(&mut fleet, &mut jobs);
    assert!(rt; matches!(told, Err(RoundFault::Cloud(1))));
    Ok(())
}
