ghost use Rattle.std.specs.Prelude.{◌≡◌, ◌≢◌, ◌<◌, ◌≤◌, ℕ, All, AllPairs, IfOk, IsErrOf, map};
ghost use Rattle.nc_frame.specs.Frames.{Whole};
ghost use Rattle.nc_cloud.specs.Contents.{Contents, Rose, Leaves, Grows, nothing};
ghost use Rattle.nc_cloud.specs.Cloud.{AreSorted, Lists};
ghost use Rattle.nc_cloud.specs.Fleet.{asked, chunks_got, got_count, writes, touches, erasures, erase_touches, Answers};
ghost use Rattle.nc_cloud.specs.Images.{Image};
ghost use Rattle.nc_cloud.specs.Time.{Elapses, Stays};
ghost use Rattle.nc_cloud.specs.declared.fleet.Answer.TheVariants.{Waiting as Unanswered, Failed as NoAnswer};
ghost use Rattle.nc_cloud.specs.declared.fleet.Done.TheVariants.{Waiting, Failed, Memory as NoMemory};
ghost use Rattle.nc_cloud.specs.declared.cloud.CloudError.TheVariants.{Failed as ListFailed};

use crate::cloud::{CloudError, KeyList};
use nc_name::{Blob, Key};

/// What a cloud answered to an `Ask`.
#[derive(Debug, Drop)]
pub enum Answer {
    /// Not asked yet. No entry stands so after its round.
    Waiting,
    /// The object.
    Bytes(Blob),
    /// There is none.
    Absent,
    /// There is one, longer than was asked for.
    Long,
    /// The cloud failed.
    Failed,
    /// No memory was found.
    Memory,
}

/// A get of one object: at most `most` bytes of it.
#[derive(Debug, Drop)]
pub struct Ask {
    pub cloud: u8,
    pub key: Key,
    pub most: u64,
    pub answer: Answer,
}

/// How a write or a delete ended.
#[derive(Clone, Copy, Debug, PartialEq, Eq)]
pub enum Done {
    /// Not begun yet. No entry stands so after its round.
    Waiting,
    /// The object is written, or gone.
    Ok,
    /// The cloud failed; the object may be old, new, gone or torn.
    Failed,
    /// No memory was found; the object may be old, new, gone or torn.
    Memory,
}

/// A write of one object: a whole frame.
#[derive(Debug, Drop)]
pub struct Job {
    pub cloud: u8,
    pub key: Key,
    pub bytes: Blob,
    pub done: Done,
}

/// A delete of one object, which need not be there.
#[derive(Clone, Copy, Debug)]
pub struct Erase {
    pub cloud: u8,
    pub key: Key,
    pub done: Done,
}

/// All clouds. A round serves at most one entry for each cloud.
pub trait Fleet {
    /// What the caller has to know of the type: where threads serve the rounds, that they may share the runtime.
    ghost ready: { Type 0 } = { Unit {0} };

    /// How many clouds there are.
    ghost clouds: { Self → ℕ };

    /// The fleet says what its clouds hold.
    ghost tells: { Type 0 } = { ⊥ };

    /// What each cloud holds under each key, where the fleet tells.
    ghost held: { Self → Contents };

    /// How many gets and puts of a cloud have failed.
    ghost faults: { Self → ℕ → ℕ };

    /// How many deletes and lists of a cloud have failed.
    ghost slips: { Self → ℕ → ℕ };

    /// These counts rise at entries that failed, and at no others.
    ghost counts_exactly: { Type 0 } = { ⊥ };

    /// How many gets of chunks of a cloud have given bytes.
    ghost chunk_gets: { Self → ℕ → ℕ };

    /// Its rounds of deletes never answer `Memory`.
    ghost sure_deletes: { Type 0 } = { ⊥ };

    /// The fleet says what a stop may leave, and what was held before.
    ghost tells_images: { Type 0 } = { ⊥ };

    /// A moment that never falls.
    ghost now: { Self → ℕ };

    /// What was held at a moment, where the fleet tells images.
    ghost past: { Self → ℕ → Contents } = { λ _ _. nothing };

    /// A stop at that moment or later could have left these contents. Nothing, where the fleet doesn't tell images.
    ghost image: { Self → ℕ → Contents → Type 0 } = { λ _ _ _. ⊥ };

    /// The number of clouds, which never changes.
    fn width(&self) -> usize
        ensures { result ≡ clouds self.now };

    /// Asks for an object of each of some clouds. The answers stand in the entries afterwards.
    fn get_round(&mut self, asks: &mut [Ask])
        requires ready { ready }
        requires below { All (λ a. a.cloud < clouds self.old) asks.old }
        requires once { AllPairs (λ a b. a.cloud ≢ b.cloud) asks.old }
        ensures entries { map asked asks.new ≡ map asked asks.old }
        ensures answered { All (λ a. a.answer ≢ Unanswered) asks.new }
        ensures told { tells → All (λ a. Answers a (held self.old a.cloud a.key)) asks.new }
        ensures failed { All (λ a. a.answer ≡ NoAnswer → Rose (faults self.old a.cloud) (faults self.new a.cloud)) asks.new }
        ensures exact { counts_exactly → (c : ℕ) → All (λ a. a.cloud ≡ c → a.answer ≢ NoAnswer) asks.new → faults self.new c ≡ faults self.old c }
        ensures clouds { clouds self.new ≡ clouds self.old }
        ensures held { held self.new ≡ held self.old }
        ensures grows { Grows (faults self.old) (faults self.new) }
        ensures slips { slips self.new ≡ slips self.old }
        ensures gets { (c : ℕ) → chunk_gets self.new c ≡ got_count (chunk_gets self.old c) (chunks_got c asks.new) }
        ensures time { Elapses (now self.old) (now self.new) (image self.old) (image self.new) (λ G. G ≡ held self.old) }
        ensures past { tells_images → Stays (now self.old) (past self.old) (past self.new) };

    /// Writes an object on each of some clouds. How each ended stands in the entries afterwards.
    fn put_round(&mut self, jobs: &mut [Job])
        requires ready { ready }
        requires below { All (λ j. j.cloud < clouds self.old) jobs.old }
        requires once { AllPairs (λ a b. a.cloud ≢ b.cloud) jobs.old }
        requires whole { All (λ j. Whole j.bytes) jobs.old }
        ensures entries { writes jobs.new ≡ writes jobs.old }
        ensures answered { All (λ j. j.done ≢ Waiting) jobs.new }
        ensures told { tells → Leaves (touches jobs.new) (held self.old) (held self.new) }
        ensures failed { All (λ j. j.done ≡ Failed → Rose (faults self.old j.cloud) (faults self.new j.cloud)) jobs.new }
        ensures exact { counts_exactly → (c : ℕ) → All (λ j. j.cloud ≡ c → j.done ≢ Failed) jobs.new → faults self.new c ≡ faults self.old c }
        ensures clouds { clouds self.new ≡ clouds self.old }
        ensures grows { Grows (faults self.old) (faults self.new) }
        ensures slips { slips self.new ≡ slips self.old }
        ensures gets { chunk_gets self.new ≡ chunk_gets self.old }
        ensures time { Elapses (now self.old) (now self.new) (image self.old) (image self.new) (Image (writes jobs.old) (held self.old)) }
        ensures past { tells_images → Stays (now self.old) (past self.old) (past self.new) };

    /// Deletes an object of each of some clouds. How each ended stands in the entries afterwards.
    fn delete_round(&mut self, erases: &mut [Erase])
        requires ready { ready }
        requires below { All (λ e. e.cloud < clouds self.old) erases.old }
        requires once { AllPairs (λ a b. a.cloud ≢ b.cloud) erases.old }
        ensures entries { erasures erases.new ≡ erasures erases.old }
        ensures answered { All (λ e. e.done ≢ Waiting) erases.new }
        ensures told { tells → Leaves (erase_touches erases.new) (held self.old) (held self.new) }
        ensures failed { All (λ e. e.done ≡ Failed → Rose (slips self.old e.cloud) (slips self.new e.cloud)) erases.new }
        ensures exact { counts_exactly → (c : ℕ) → All (λ e. e.cloud ≡ c → e.done ≢ Failed) erases.new → slips self.new c ≡ slips self.old c }
        ensures sure { sure_deletes → All (λ e. e.done ≢ NoMemory) erases.new }
        ensures clouds { clouds self.new ≡ clouds self.old }
        ensures grows { Grows (slips self.old) (slips self.new) }
        ensures faults { faults self.new ≡ faults self.old }
        ensures gets { chunk_gets self.new ≡ chunk_gets self.old }
        ensures time { Elapses (now self.old) (now self.new) (image self.old) (image self.new) (Image (erasures erases.old) (held self.old)) }
        ensures past { tells_images → Stays (now self.old) (past self.old) (past self.new) };

    /// The keys of all objects of a cloud, sorted by their texts.
    fn list(&mut self, cloud: u8) -> Result<KeyList, CloudError>
        requires ready { ready }
        requires below { cloud < clouds self.old }
        ensures told { tells → IfOk result (Lists (held self.old cloud)) }
        ensures sorted { IfOk result AreSorted }
        ensures failed { IsErrOf result ListFailed → Rose (slips self.old cloud) (slips self.new cloud) }
        ensures exact { counts_exactly → (c : ℕ) → (c ≡ cloud → IsErrOf result ListFailed → ⊥) → slips self.new c ≡ slips self.old c }
        ensures clouds { clouds self.new ≡ clouds self.old }
        ensures held { held self.new ≡ held self.old }
        ensures grows { Grows (slips self.old) (slips self.new) }
        ensures faults { faults self.new ≡ faults self.old }
        ensures gets { chunk_gets self.new ≡ chunk_gets self.old }
        ensures time { Elapses (now self.old) (now self.new) (image self.old) (image self.new) (λ G. G ≡ held self.old) }
        ensures past { tells_images → Stays (now self.old) (past self.old) (past self.new) };

    /// What is held now is an image since each moment up to now.
    ghost counts_now: { (fleet : Self) (t : ℕ) → tells_images → t ≤ now fleet → image fleet t (held fleet) };

    /// What is held now is what is held at this moment.
    ghost past_now: { (fleet : Self) → tells_images → past fleet (now fleet) ≡ held fleet };

    /// Since now itself no other contents are one.
    ghost only_now: { (fleet : Self) (G : Contents) → image fleet (now fleet) G → G ≡ held fleet };

    /// An image since a moment is one since every earlier moment.
    ghost earlier: { (fleet : Self) (s t : ℕ) (G : Contents) → s ≤ t → image fleet t G → image fleet s G };
}
