ghost use Rattle.std.specs.Prelude.{◌≡◌, ◌≢◌, ◌+◌, ◌-◌, ◌^◌, ◌≤◌, Ok, None, min, IfOk};
ghost use Rattle.nc_cloud.specs.Cloud.{got_after};
ghost use Rattle.nc_cloud.specs.Contents.{Rose};
ghost use Rattle.nc_folder.specs.Folder.{chunk_gets_of, faults_of, path_of, slips_of};
ghost use Rattle.nc_cloud.specs.declared.cloud.CloudError.TheVariants.{Failed};

use crate::files;
use crate::files::Trouble;
use nc_cloud::{
    Ask, AtOnce, Cloud, CloudError, Erase, Got, Job, KeyList, Seat, delete_at_once, get_at_once,
    put_at_once,
};
use nc_name::{Key, Memory};
use std::thread::Threads;

/// A folder as a cloud. It tells no contents: what stands in the folder is the system's word.
/// Each error of the system raises one of its counts.
#[derive(Drop)]
pub struct FolderCloud {
    rt: HostRuntime,
    path: String,
    faults: u64,
    slips: u64,
    chunk_gets: u64,
}

/// The answer to a call that wasn't done, and its count afterwards.
fn failure(trouble: Trouble, count: u64) -> (CloudError, u64)
    ensures failed { result.0 ≡ Failed → Rose count result.1 }
    ensures exact { result.0 ≢ Failed → result.1 ≡ count }
    ensures later { count ≤ result.1 }
{
    match trouble {
        Trouble::System => (CloudError::Failed, count.saturating_add(1)),
        Trouble::Memory => (CloudError::Memory, count),
    }
}

/// How many gets of chunks have given bytes, after a get.
fn given_after(count: u64, key: &Key, got: &Got) -> u64
    ensures { result ≡ got_after key.now (Ok got.now) count }
{
    match (key, got) {
        (Key::Chunk { .. }, Got::Bytes(_)) => count.saturating_add(1),
        _ => count,
    }
}

impl FolderCloud {
    /// The folder at this path. A folder that isn't there makes every call fail, and so does an empty path.
    pub fn open(rt: HostRuntime, path: &str) -> Result<FolderCloud, Memory>
        ensures path { IfOk result (λ folder. path_of folder ≡ path.now) }
        ensures faults { IfOk result (λ folder. faults_of folder ≡ 0) }
        ensures slips { IfOk result (λ folder. slips_of folder ≡ 0) }
        ensures gets { IfOk result (λ folder. chunk_gets_of folder ≡ 0) }
    {
        let path = String::from_str(rt.alloc(), path)?;
        Ok(FolderCloud {
            rt,
            path,
            faults: 0,
            slips: 0,
            chunk_gets: 0,
        })
    }
}

impl Cloud for FolderCloud {
    ghost held = { λ folder key. None };

    ghost faults = { faults_of };

    ghost slips = { slips_of };

    ghost counts_exactly = { Unit {0} };

    ghost chunk_gets = { chunk_gets_of };

    fn get(&mut self, key: &Key, most: u64) -> Result<Got, CloudError> {
        match files::get(&self.rt, self.rt.alloc(), self.path.as_str(), key, most) {
            Ok(got) => {
                self.chunk_gets = given_after(self.chunk_gets, key, &got);
                Ok(got)
            }
            Err(trouble) => {
                let (error, faults) = failure(trouble, self.faults);
                self.faults = faults;
                Err(error)
            }
        }
    }

    fn put(&mut self, key: &Key, bytes: &[u8]) -> Result<(), CloudError> {
        match files::put(&self.rt, self.rt.alloc(), self.path.as_str(), key, bytes) {
            Ok(()) => Ok(()),
            Err(trouble) => {
                let (error, faults) = failure(trouble, self.faults);
                self.faults = faults;
                Err(error)
            }
        }
    }

    fn delete(&mut self, key: &Key) -> Result<(), CloudError> {
        match files::delete(&self.rt, self.rt.alloc(), self.path.as_str(), key) {
            Ok(()) => Ok(()),
            Err(trouble) => {
                let (error, slips) = failure(trouble, self.slips);
                self.slips = slips;
                Err(error)
            }
        }
    }

    fn list(&mut self) -> Result<KeyList, CloudError> {
        match files::list(&self.rt, self.rt.alloc(), self.path.as_str()) {
            Ok(keys) => Ok(keys),
            Err(trouble) => {
                let (error, slips) = failure(trouble, self.slips);
                self.slips = slips;
                Err(error)
            }
        }
    }
}

impl AtOnce for FolderCloud {
    fn get_all<R: Threads + Sync>(rt: &R, seats: &mut [Seat<Self>], asks: &[Ask]) {
        get_at_once(rt, seats, asks);
    }

    fn put_all<R: Threads + Sync>(rt: &R, seats: &mut [Seat<Self>], jobs: &[Job]) {
        put_at_once(rt, seats, jobs);
    }

    fn delete_all<R: Threads + Sync>(rt: &R, seats: &mut [Seat<Self>], erases: &[Erase]) {
        delete_at_once(rt, seats, erases);
    }
}
