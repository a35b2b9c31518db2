ghost use Rattle.std.specs.Prelude.{◌≡◌, ◌≤◌, ◌+◌, ◌++◌, ◌∷◌, [], ℕ, Some, None, IsSome, IfOk, OnOk, OnErr, Ok, Err, IsOk, IsErr, IsErrOf, is_ok};
ghost use Rattle.nc_frame.specs.Frames.{Whole};
ghost use Rattle.nc_cloud.specs.Contents.{ChangesAt, Rose, Settles};
ghost use Rattle.nc_cloud.specs.Cloud.{AreSorted, GetShows, got_after, Lists};
ghost use Rattle.nc_memory.specs.Record.{counted, left, refused_at};
ghost use Rattle.nc_memory.specs.Store.{stored, TakesNoMemory};
ghost use Rattle.nc_memory.specs.MemCloud.{calls_of, chunk_gets_of, faults_of, refusals_of, slips_of, stored_of};
ghost use Rattle.nc_cloud.specs.declared.cloud.CloudError.TheVariants.{Failed, Memory as NoMemory};

use crate::record::{Refusal, Torn, refusal_of};
use crate::store::{Object, bytes_of, empty, keys_of, place, remove};
use nc_cloud::{
    Ask, AtOnce, Cloud, CloudError, Erase, Got, Job, KeyList, Seat, delete_at_once, get_at_once,
    put_at_once,
};
use nc_name::{Blob, Key, Memory};
use std::alloc::Global;
use std::thread::Threads;

/// A cloud in memory, which fails where it was told to. Its deletes take no memory.
#[derive(Drop)]
pub struct MemCloud {
    alloc: Global,
    objects: Vec<Object>,
    refusals: Vec<Refusal>,
    calls: u64,
    faults: u64,
    slips: u64,
    chunk_gets: u64,
}

/// What a get finds, with a copy of the bytes.
fn found(alloc: Global, objects: &[Object], key: &Key, most: u64) -> Result<Got, Memory>
    ensures { IfOk result (λ got. GetShows (Ok got) most (stored objects.now key.now)) }
{
    match bytes_of(objects, key) {
        None => Ok(Got::Absent),
        Some(bytes) if bytes.len() as u64 <= most => {
            Ok(Got::Bytes(Blob::from_slice(alloc, bytes)?))
        }
        Some(_) => Ok(Got::Long),
    }
}

/// A count of chunks after a get.
fn given_after(count: u64, key: &Key, got: &Got) -> u64
    ensures { result ≡ got_after key.now (Ok got.now) count }
{
    match (key, got) {
        (Key::Chunk { .. }, Got::Bytes(_)) => count.saturating_add(1),
        _ => count,
    }
}

/// Leaves of a put what it was told to.
fn put_by(
    alloc: Global,
    objects: &mut Vec<Object>,
    refused: Option<Torn>,
    key: &Key,
    bytes: &[u8],
) -> Result<(), Memory>
    ensures ok { OnOk result (ChangesAt key.now (λ old now. now ≡ left refused (Some bytes.now) old) (stored objects.old.items) (stored objects.new.items)) }
    ensures err { OnErr result (objects.new.items ≡ objects.old.items) }
    ensures sure { TakesNoMemory refused → IsOk result }
{
    match refused {
        None | Some(Torn::New) => place(objects, key, Blob::from_slice(alloc, bytes)?),
        Some(Torn::Old) => Ok(()),
        Some(Torn::Gone) => {
            remove(objects, key);
            Ok(())
        }
        Some(Torn::Broken) => {
            let front = nc_bytes::part_of(bytes, 0, bytes.len().saturating_sub(1));
            place(objects, key, Blob::from_slice(alloc, front)?)
        }
    }
}

/// Leaves of a delete what it was told to.
fn delete_by(alloc: Global, objects: &mut Vec<Object>, refused: Option<Torn>, key: &Key)
    ensures { ChangesAt key.now (λ old now. now ≡ left refused None old) (stored objects.old.items) (stored objects.new.items) }
{
    match refused {
        None | Some(Torn::New) | Some(Torn::Gone) => remove(objects, key),
        Some(Torn::Old) => {}
        Some(Torn::Broken) => empty(alloc, objects, key),
    }
}

impl MemCloud {
    /// A cloud without objects, which was told to fail nowhere.
    pub fn new(alloc: Global) -> MemCloud
        ensures held { stored_of result ≡ (λ key. None) }
        ensures refusals { refusals_of result ≡ [] }
        ensures calls { calls_of result ≡ 0 }
        ensures faults { faults_of result ≡ 0 }
        ensures slips { slips_of result ≡ 0 }
        ensures gets { chunk_gets_of result ≡ 0 }
    {
        MemCloud {
            alloc,
            objects: Vec::new(alloc),
            refusals: Vec::new(alloc),
            calls: 0,
            faults: 0,
            slips: 0,
            chunk_gets: 0,
        }
    }

    /// Lets the nth call fail, counted from 1 from the making on. What was given first for a number counts.
    /// At `Memory` nothing changed.
    pub fn refuse(&mut self, nth: u64, outcome: Torn) -> Result<(), Memory>
        ensures ok { OnOk result (refusals_of self.new ≡ refusals_of self.old ++ record { nth = nth; outcome = outcome } ∷ []) }
        ensures err { OnErr result (refusals_of self.new ≡ refusals_of self.old) }
        ensures held { stored_of self.new ≡ stored_of self.old }
        ensures calls { calls_of self.new ≡ calls_of self.old }
        ensures faults { faults_of self.new ≡ faults_of self.old }
        ensures slips { slips_of self.new ≡ slips_of self.old }
        ensures gets { chunk_gets_of self.new ≡ chunk_gets_of self.old }
    {
        self.refusals.push(Refusal { nth, outcome })?;
        Ok(())
    }

    /// Counts a call, and tells what it is to fail with.
    fn turn(&mut self) -> Option<Torn>
        ensures refused { result ≡ refused_at (refusals_of self.old) (calls_of self.old + 1) }
        ensures stays { self.new ≡ record self.old { calls = counted (calls_of self.old + 1) } }
    {
        let refused = refusal_of(self.refusals.as_slice(), self.calls, 0);
        self.calls = self.calls.saturating_add(1);
        refused
    }
}

impl Cloud for MemCloud {
    ghost tells = { Unit {0} };

    ghost held = { stored_of };

    ghost faults = { faults_of };

    ghost slips = { slips_of };

    ghost counts_exactly = { Unit {0} };

    ghost chunk_gets = { chunk_gets_of };

    ghost sure_deletes = { Unit {0} };

    fn get(&mut self, key: &Key, most: u64) -> Result<Got, CloudError>
        ensures told { GetShows result most (stored_of self.old key.now) }
        ensures held { stored_of self.new ≡ stored_of self.old }
        ensures failed { IsErrOf result Failed → Rose (faults_of self.old) (faults_of self.new) }
        ensures exact { (IsErrOf result Failed → ⊥) → faults_of self.new ≡ faults_of self.old }
        ensures later { faults_of self.old ≤ faults_of self.new }
        ensures slips { slips_of self.new ≡ slips_of self.old }
        ensures gets { chunk_gets_of self.new ≡ got_after key.now result (chunk_gets_of self.old) }
        ensures refused { IsSome (refused_at (refusals_of self.old) (calls_of self.old + 1)) → result ≡ Err Failed }
        ensures spared { refused_at (refusals_of self.old) (calls_of self.old + 1) ≡ None → IsErrOf result Failed → ⊥ }
        ensures calls { calls_of self.new ≡ counted (calls_of self.old + 1) }
        ensures refusals { refusals_of self.new ≡ refusals_of self.old }
    {
        if self.turn().is_some() {
            self.faults = self.faults.saturating_add(1);
            return Err(CloudError::Failed);
        }
        let got = found(self.alloc, self.objects.as_slice(), key, most)?;
        self.chunk_gets = given_after(self.chunk_gets, key, &got);
        Ok(got)
    }

    fn put(&mut self, key: &Key, bytes: &[u8]) -> Result<(), CloudError>
        requires { Whole bytes.now }
        ensures told { ChangesAt key.now (Settles (is_ok result) (Some bytes.now)) (stored_of self.old) (stored_of self.new) }
        ensures failed { IsErrOf result Failed → Rose (faults_of self.old) (faults_of self.new) }
        ensures exact { (IsErrOf result Failed → ⊥) → faults_of self.new ≡ faults_of self.old }
        ensures later { faults_of self.old ≤ faults_of self.new }
        ensures slips { slips_of self.new ≡ slips_of self.old }
        ensures gets { chunk_gets_of self.new ≡ chunk_gets_of self.old }
        ensures refused { IsSome (refused_at (refusals_of self.old) (calls_of self.old + 1)) → IsErr result }
        ensures sure { TakesNoMemory (refused_at (refusals_of self.old) (calls_of self.old + 1)) → result ≡ Err Failed }
        ensures spared { refused_at (refusals_of self.old) (calls_of self.old + 1) ≡ None → IsErrOf result Failed → ⊥ }
        ensures left { (IsErrOf result NoMemory → ⊥) → ChangesAt key.now (λ old now. now ≡ left (refused_at (refusals_of self.old) (calls_of self.old + 1)) (Some bytes.now) old) (stored_of self.old) (stored_of self.new) }
        ensures starved { IsErrOf result NoMemory → stored_of self.new ≡ stored_of self.old }
        ensures calls { calls_of self.new ≡ counted (calls_of self.old + 1) }
        ensures refusals { refusals_of self.new ≡ refusals_of self.old }
    {
        let refused = self.turn();
        put_by(self.alloc, &mut self.objects, refused, key, bytes)?;
        if refused.is_some() {
            self.faults = self.faults.saturating_add(1);
            return Err(CloudError::Failed);
        }
        Ok(())
    }

    fn delete(&mut self, key: &Key) -> Result<(), CloudError>
        ensures told { ChangesAt key.now (Settles (is_ok result) None) (stored_of self.old) (stored_of self.new) }
        ensures failed { IsErrOf result Failed → Rose (slips_of self.old) (slips_of self.new) }
        ensures exact { (IsErrOf result Failed → ⊥) → slips_of self.new ≡ slips_of self.old }
        ensures later { slips_of self.old ≤ slips_of self.new }
        ensures faults { faults_of self.new ≡ faults_of self.old }
        ensures gets { chunk_gets_of self.new ≡ chunk_gets_of self.old }
        ensures sure { IsErrOf result NoMemory → ⊥ }
        ensures refused { IsSome (refused_at (refusals_of self.old) (calls_of self.old + 1)) → result ≡ Err Failed }
        ensures spared { refused_at (refusals_of self.old) (calls_of self.old + 1) ≡ None → IsOk result }
        ensures left { ChangesAt key.now (λ old now. now ≡ left (refused_at (refusals_of self.old) (calls_of self.old + 1)) None old) (stored_of self.old) (stored_of self.new) }
        ensures calls { calls_of self.new ≡ counted (calls_of self.old + 1) }
        ensures refusals { refusals_of self.new ≡ refusals_of self.old }
    {
        let refused = self.turn();
        delete_by(self.alloc, &mut self.objects, refused, key);
        if refused.is_some() {
            self.slips = self.slips.saturating_add(1);
            return Err(CloudError::Failed);
        }
        Ok(())
    }

    fn list(&mut self) -> Result<KeyList, CloudError>
        ensures told { IfOk result (Lists (stored_of self.old)) }
        ensures sorted { IfOk result AreSorted }
        ensures held { stored_of self.new ≡ stored_of self.old }
        ensures failed { IsErrOf result Failed → Rose (slips_of self.old) (slips_of self.new) }
        ensures exact { (IsErrOf result Failed → ⊥) → slips_of self.new ≡ slips_of self.old }
        ensures later { slips_of self.old ≤ slips_of self.new }
        ensures faults { faults_of self.new ≡ faults_of self.old }
        ensures gets { chunk_gets_of self.new ≡ chunk_gets_of self.old }
        ensures refused { IsSome (refused_at (refusals_of self.old) (calls_of self.old + 1)) → result ≡ Err Failed }
        ensures spared { refused_at (refusals_of self.old) (calls_of self.old + 1) ≡ None → IsErrOf result Failed → ⊥ }
        ensures calls { calls_of self.new ≡ counted (calls_of self.old + 1) }
        ensures refusals { refusals_of self.new ≡ refusals_of self.old }
    {
        if self.turn().is_some() {
            self.slips = self.slips.saturating_add(1);
            return Err(CloudError::Failed);
        }
        Ok(keys_of(self.alloc, self.objects.as_slice())?)
    }
}

impl AtOnce for MemCloud {
    fn get_all<R: Threads + Sync>(rt: &R, seats: &mut [Seat<Self>], asks: &[Ask]) {
        get_at_once(rt, seats, asks);
    }

    fn put_all<R: Threads + Sync>(rt: &R, seats: &mut [Seat<Self>], jobs: &[Job]) {
        put_at_once(rt, seats, jobs);
    }

    fn delete_all<R: Threads + Sync>(rt: &R, seats: &mut [Seat<Self>], erases: &[Erase]) {
        delete_at_once(rt, seats, erases);
    }
}
