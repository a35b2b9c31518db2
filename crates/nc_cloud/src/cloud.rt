ghost use Rattle.std.specs.Prelude.{◌≡◌, ◌≤◌, ℕ, Some, None, IfOk, IsErrOf, is_ok};
ghost use Rattle.nc_frame.specs.Frames.{Whole};
ghost use Rattle.nc_cloud.specs.Contents.{Store, Rose, Settles, ChangesAt};
ghost use Rattle.nc_cloud.specs.Cloud.{AreSorted, GetShows, got_after, Lists};
ghost use Rattle.nc_cloud.specs.declared.cloud.CloudError.TheVariants.{Failed, Memory as NoMemory};

use nc_name::{Blob, Key, Memory, Sequence};
use thiserror::Error;

/// Why a call on a cloud wasn't done.
#[derive(Clone, Copy, Debug, PartialEq, Eq, Error)]
pub enum CloudError {
    /// The cloud failed. Its count rose.
    #[error("the cloud failed")]
    Failed,
    /// No memory was found.
    #[error("no memory")]
    Memory,
}

impl From<Memory> for CloudError {
    ghost from_gives = { λ _ e. e ≡ NoMemory };

    fn from(_: Memory) -> Self {
        CloudError::Memory
    }
}

/// What a cloud has of an object.
#[derive(Debug, Drop)]
pub enum Got {
    /// The object.
    Bytes(Blob),
    /// There is none.
    Absent,
    /// There is one, longer than was asked for.
    Long,
}

/// Keys in order.
pub type KeyList = Sequence<Key>;

/// One cloud. A call that fails raises one of its two counts.
pub trait Cloud {
    /// The cloud says what it holds.
    ghost tells: { Type 0 } = { ⊥ };

    /// What it holds under each key, where it tells.
    ghost held: { Self → Store };

    /// How many gets and puts have failed.
    ghost faults: { Self → ℕ };

    /// How many deletes and lists have failed.
    ghost slips: { Self → ℕ };

    /// These two counts rise at calls that failed, and at no others.
    ghost counts_exactly: { Type 0 } = { ⊥ };

    /// How many gets of chunks have given bytes.
    ghost chunk_gets: { Self → ℕ };

    /// Its deletes never answer `Memory`.
    ghost sure_deletes: { Type 0 } = { ⊥ };

    /// Asks for at most `most` bytes of an object.
    fn get(&mut self, key: &Key, most: u64) -> Result<Got, CloudError>
        ensures told { tells → GetShows result most (held self.old key.now) }
        ensures held { held self.new ≡ held self.old }
        ensures failed { IsErrOf result Failed → Rose (faults self.old) (faults self.new) }
        ensures exact { counts_exactly → (IsErrOf result Failed → ⊥) → faults self.new ≡ faults self.old }
        ensures later { faults self.old ≤ faults self.new }
        ensures slips { slips self.new ≡ slips self.old }
        ensures gets { chunk_gets self.new ≡ got_after key.now result (chunk_gets self.old) };

    /// Writes an object: a whole frame. Where it isn't Ok, the object may be old, new, gone or torn.
    fn put(&mut self, key: &Key, bytes: &[u8]) -> Result<(), CloudError>
        requires { Whole bytes.now }
        ensures told { tells → ChangesAt key.now (Settles (is_ok result) (Some bytes.now)) (held self.old) (held self.new) }
        ensures failed { IsErrOf result Failed → Rose (faults self.old) (faults self.new) }
        ensures exact { counts_exactly → (IsErrOf result Failed → ⊥) → faults self.new ≡ faults self.old }
        ensures later { faults self.old ≤ faults self.new }
        ensures slips { slips self.new ≡ slips self.old }
        ensures gets { chunk_gets self.new ≡ chunk_gets self.old };

    /// Deletes an object, which need not be there. Where it isn't Ok, the object may be old, gone or torn.
    fn delete(&mut self, key: &Key) -> Result<(), CloudError>
        ensures told { tells → ChangesAt key.now (Settles (is_ok result) None) (held self.old) (held self.new) }
        ensures failed { IsErrOf result Failed → Rose (slips self.old) (slips self.new) }
        ensures exact { counts_exactly → (IsErrOf result Failed → ⊥) → slips self.new ≡ slips self.old }
        ensures later { slips self.old ≤ slips self.new }
        ensures faults { faults self.new ≡ faults self.old }
        ensures gets { chunk_gets self.new ≡ chunk_gets self.old }
        ensures sure { sure_deletes → IsErrOf result NoMemory → ⊥ };

    /// The keys of all objects, sorted by their texts.
    fn list(&mut self) -> Result<KeyList, CloudError>
        ensures told { tells → IfOk result (Lists (held self.old)) }
        ensures sorted { IfOk result AreSorted }
        ensures held { held self.new ≡ held self.old }
        ensures failed { IsErrOf result Failed → Rose (slips self.old) (slips self.new) }
        ensures exact { counts_exactly → (IsErrOf result Failed → ⊥) → slips self.new ≡ slips self.old }
        ensures later { slips self.old ≤ slips self.new }
        ensures faults { faults self.new ≡ faults self.old }
        ensures gets { chunk_gets self.new ≡ chunk_gets self.old };
}
