ghost use Rattle.std.specs.Prelude.{◌≡◌, ◌≢◌, ◌<◌, ◌++◌, ◌∷◌, [], ℕ, None, Some, All, AllPairs, map, option_map, IfOk, IsErrOf, OnOk, OnErr};
ghost use Rattle.nc_name.specs.declared.key.Key.{Key};
ghost use Rattle.nc_frame.specs.Frames.{Whole};
ghost use Rattle.nc_cloud.specs.Cloud.{AreSorted, Lists};
ghost use Rattle.nc_cloud.specs.Contents.{Rose, Leaves, Grows, nothing};
ghost use Rattle.nc_cloud.specs.Fleet.{asked, chunks_got, erase_touches, erasure, erasures, got_count, write, writes, touches, Answers};
ghost use Rattle.nc_cloud.specs.declared.cloud.CloudError.TheVariants.{Failed as ListFailed};
ghost use Rattle.nc_cloud.specs.declared.fleet.Answer.TheVariants.{Waiting as Unanswered, Failed as NoAnswer};
ghost use Rattle.nc_cloud.specs.declared.fleet.Done.TheVariants.{Waiting, Failed};
ghost use Rattle.nc_cloud.specs.Images.{Image};
ghost use Rattle.nc_cloud.specs.Time.{Elapses, Stays};
ghost use Rattle.nc_memory.specs.MomentLaws.{at_last, one_earlier, only_last, still_one};
ghost use Rattle.nc_memory.specs.Moments.{image_of, now_of, past_of};
ghost use Rattle.nc_memory.specs.Record.{counted, end_erase, end_job, fate_in, lost, WholeSteps};
ghost use Rattle.nc_memory.specs.Rounds.{entries_served, round_entries, round_place, rounds_in};
ghost use Rattle.nc_memory.specs.Stops.{cut, LeavesStopped};
ghost use Rattle.nc_memory.specs.Memory.{chunk_gets_of, contents_of, entries_of, faults_of, gets_event, log_of, refusals_of, slips_of, width_of, writes_event};
ghost use Rattle.nc_memory.specs.Memory.{Gives, ServesDeletes, ServesGets, ServesList, ServesPuts, Takes, TakesList, Unchanged};

use crate::log::Log;
use crate::record::{Damage, Event, LookList, Refusal, StepList, Torn, gifts_in, refusal_of};
use crate::rounds::{count_entries, count_rounds, entries_at, find_round};
use crate::serving::{
    answer_all, looks_of, mark_erases, mark_jobs, plan_erases, plan_puts, starve_asks,
    starve_erases, starve_jobs,
};
use crate::stops::{copied_damage, copied_refusals, cut_log, push_refusal};
use nc_cloud::{Ask, CloudError, Erase, Fleet, Job, KeyList};
use nc_name::{Blob, Key, Memory};
use std::alloc::Global;

/// Clouds in memory, which fail where they were told to. What its clouds hold and how often they failed follows from
/// the record of all its rounds.
#[derive(Drop)]
pub struct MemFleet {
    alloc: Global,
    width: usize,
    log: Log,
    refusals: Vec<Refusal>,
    entries: u64,
}

/// Records the gets of a round, where there are any.
fn record_gets(alloc: Global, log: &mut Log, looks: LookList) -> Result<(), Memory>
    ensures ok { OnOk result (log.new.events.items ≡ log.old.events.items ++ gets_event looks) }
    ensures err { OnErr result (log.new.events.items ≡ log.old.events.items) }
{
    if looks.items().is_empty() {
        return Ok(());
    }
    log.push(alloc, Event::Gets(looks))
}

/// Records the writes of a round, where there are any.
fn record_writes(alloc: Global, log: &mut Log, steps: StepList) -> Result<(), Memory>
    requires { WholeSteps steps }
    ensures ok { OnOk result (log.new.events.items ≡ log.old.events.items ++ writes_event steps) }
    ensures err { OnErr result (log.new.events.items ≡ log.old.events.items) }
{
    if steps.items().is_empty() {
        return Ok(());
    }
    log.push(alloc, Event::Writes(steps))
}

impl MemFleet {
    /// A fleet of so many clouds without objects, of which none was told to fail.
    pub fn new(alloc: Global, width: usize) -> Result<MemFleet, Memory>
        ensures empty { IfOk result (λ fleet. log_of fleet ≡ []) }
        ensures refusals { IfOk result (λ fleet. refusals_of fleet ≡ []) }
        ensures entries { IfOk result (λ fleet. entries_of fleet ≡ 0) }
        ensures width { IfOk result (λ fleet. width_of fleet ≡ width) }
        ensures held { IfOk result (λ fleet. contents_of fleet ≡ nothing) }
        ensures faults { IfOk result (λ fleet. (c : ℕ) → faults_of fleet c ≡ 0) }
        ensures slips { IfOk result (λ fleet. (c : ℕ) → slips_of fleet c ≡ 0) }
    {
        Ok(MemFleet {
            alloc,
            width,
            log: Log::new(alloc),
            refusals: Vec::new(alloc),
            entries: 0,
        })
    }

    /// Lets the nth entry fail, counted from 1 over all rounds in the order of their entries; a list is one entry. What
    /// was given first for a number counts. At `Memory` nothing changed.
    pub fn refuse(&mut self, nth: u64, outcome: Torn) -> Result<(), Memory>
        ensures ok { OnOk result (refusals_of self.new ≡ refusals_of self.old ++ record { nth = nth; outcome = outcome } ∷ []) }
        ensures err { OnErr result (refusals_of self.new ≡ refusals_of self.old) }
        ensures log { log_of self.new ≡ log_of self.old }
        ensures held { contents_of self.new ≡ contents_of self.old }
        ensures faults { faults_of self.new ≡ faults_of self.old }
        ensures slips { slips_of self.new ≡ slips_of self.old }
        ensures entries { entries_of self.new ≡ entries_of self.old }
        ensures width { width_of self.new ≡ width_of self.old }
    {
        push_refusal(&mut self.refusals, Refusal { nth, outcome })
    }

    /// What a cloud holds under a key.
    pub fn object(&self, cloud: u8, key: &Key) -> Option<&[u8]>
        ensures { option_map (λ bytes. bytes.now) result ≡ contents_of self.now cloud key.now }
    {
        self.log.object(cloud, key)
    }

    /// How many gets of chunks of a cloud have given bytes.
    pub fn gets(&self, cloud: u8) -> u64
        ensures { result ≡ chunk_gets_of self.now cloud }
    {
        gifts_in(&self.log.events, cloud)
    }

    /// How many rounds there were. A round without entries doesn't count, nor does a list.
    pub fn rounds(&self) -> u64
        ensures { result ≡ rounds_in (log_of self.now) }
    {
        count_rounds(&self.log.events)
    }

    /// How many entries a round had, the first round being round 0.
    pub fn entries(&self, round: u64) -> usize
        ensures { result ≡ round_entries (log_of self.now) round }
    {
        entries_at(&self.log.events, round)
    }

    /// The fleet as a stop in this round leaves it, with each entry in its fate: Old where none is given. It keeps the
    /// record and the counts up to this round, this one included, and all refusals.
    pub fn stopped(&self, round: u64, fates: &[Torn]) -> Result<MemFleet, Memory>
        requires { round < rounds_in (log_of self.now) }
        ensures cut { IfOk result (λ fleet. log_of fleet ≡ cut (round_place (log_of self.now) round) fates.now (log_of self.now)) }
        ensures leaves { IfOk result (LeavesStopped (round_place (log_of self.now) round) self.now) }
        ensures entries { IfOk result (λ fleet. entries_of fleet ≡ counted (entries_served (log_of fleet))) }
        ensures refusals { IfOk result (λ fleet. refusals_of fleet ≡ refusals_of self.now) }
        ensures width { IfOk result (λ fleet. width_of fleet ≡ width_of self.now) }
    {
        let at = find_round(&self.log.events, round);
        let log = cut_log(self.alloc, &self.log, at, fates)?;
        let refusals = copied_refusals(self.alloc, &self.refusals)?;
        let entries = count_entries(&log.events);
        Ok(MemFleet {
            alloc: self.alloc,
            width: self.width,
            log,
            refusals,
            entries,
        })
    }

    /// The length of the record: its rounds, the lists, the objects that were planted and the losses.
    pub fn length(&self) -> u64
        ensures { result ≡ now_of self.now }
    {
        self.log.events.len() as u64
    }

    /// Places an object on a cloud without a round. It serves tests. At `Memory` nothing changed.
    pub fn plant(&mut self, cloud: u8, key: &Key, bytes: &[u8]) -> Result<(), Memory>
        requires { cloud < width_of self.old }
        ensures ok { OnOk result (log_of self.new ≡ log_of self.old ++ Event.Planted cloud key.now bytes.now ∷ []) }
        ensures err { OnErr result (log_of self.new ≡ log_of self.old) }
        ensures there { OnOk result (contents_of self.new cloud key.now ≡ Some bytes.now) }
        ensures others { OnOk result ((c : ℕ) (q : Key) → (c ≡ cloud → q ≢ key.now) → contents_of self.new c q ≡ contents_of self.old c q) }
        ensures faults { faults_of self.new ≡ faults_of self.old }
        ensures slips { slips_of self.new ≡ slips_of self.old }
        ensures gets { chunk_gets_of self.new ≡ chunk_gets_of self.old }
        ensures refusals { refusals_of self.new ≡ refusals_of self.old }
        ensures entries { entries_of self.new ≡ entries_of self.old }
        ensures width { width_of self.new ≡ width_of self.old }
    {
        let bytes = Blob::from_slice(self.alloc, bytes)?;
        let event = Event::Planted {
            cloud,
            key: *key,
            bytes,
        };
        self.log.push(self.alloc, event)?;
        Ok(())
    }

    /// A cloud loses objects, each in its fate. It is no round and no entry, and fails none. At `Memory` nothing
    /// changed.
    pub fn lose(&mut self, cloud: u8, damage: &Damage) -> Result<(), Memory>
        requires { cloud < width_of self.old }
        ensures ok { OnOk result (log_of self.new ≡ log_of self.old ++ Event.Lost cloud damage.now ∷ []) }
        ensures err { OnErr result (log_of self.new ≡ log_of self.old) }
        ensures leaves { OnOk result ((q : Key) → contents_of self.new cloud q ≡ lost (fate_in damage.now q) (contents_of self.old cloud q)) }
        ensures others { OnOk result ((c : ℕ) (q : Key) → c ≢ cloud → contents_of self.new c q ≡ contents_of self.old c q) }
        ensures faults { faults_of self.new ≡ faults_of self.old }
        ensures slips { slips_of self.new ≡ slips_of self.old }
        ensures gets { chunk_gets_of self.new ≡ chunk_gets_of self.old }
        ensures refusals { refusals_of self.new ≡ refusals_of self.old }
        ensures entries { entries_of self.new ≡ entries_of self.old }
        ensures width { width_of self.new ≡ width_of self.old }
    {
        let damage = copied_damage(self.alloc, damage)?;
        self.log.push(self.alloc, Event::Lost { cloud, damage })?;
        Ok(())
    }

    /// Answers the gets of a round and records them.
    fn give(&mut self, asks: &mut [Ask]) -> Result<(), Memory>
        ensures asked { map asked asks.new ≡ map asked asks.old }
        ensures ok { OnOk result (Gives self.old self.new asks.old asks.new) }
        ensures err { OnErr result (Unchanged self.old self.new) }
    {
        answer_all(self.alloc, &self.log, &self.refusals, self.entries, asks)?;
        let looks = looks_of(self.alloc, asks)?;
        record_gets(self.alloc, &mut self.log, looks)?;
        self.entries = self.entries.saturating_add(asks.len() as u64);
        Ok(())
    }

    /// Records the puts of a round and answers them.
    fn take_jobs(&mut self, jobs: &mut [Job]) -> Result<(), Memory>
        requires { All (λ j. Whole j.bytes) jobs.old }
        ensures ok { OnOk result (Takes write end_job self.old self.new jobs.old jobs.new) }
        ensures err { OnErr result ((jobs.new ≡ jobs.old) × Unchanged self.old self.new) }
    {
        let steps = plan_puts(self.alloc, &self.refusals, self.entries, jobs)?;
        record_writes(self.alloc, &mut self.log, steps)?;
        mark_jobs(&self.refusals, self.entries, jobs);
        self.entries = self.entries.saturating_add(jobs.len() as u64);
        Ok(())
    }

    /// Records the deletes of a round and answers them.
    fn take_erases(&mut self, erases: &mut [Erase]) -> Result<(), Memory>
        ensures ok { OnOk result (Takes erasure end_erase self.old self.new erases.old erases.new) }
        ensures err { OnErr result ((erases.new ≡ erases.old) × Unchanged self.old self.new) }
    {
        let steps = plan_erases(self.alloc, &self.refusals, self.entries, erases)?;
        record_writes(self.alloc, &mut self.log, steps)?;
        mark_erases(&self.refusals, self.entries, erases);
        self.entries = self.entries.saturating_add(erases.len() as u64);
        Ok(())
    }

    /// Records a list.
    fn take_list(&mut self, cloud: u8, failed: bool) -> Result<(), Memory>
        ensures ok { OnOk result (TakesList self.old self.new cloud failed) }
        ensures err { OnErr result (Unchanged self.old self.new) }
    {
        self.log.push(self.alloc, Event::Listed { cloud, failed })?;
        self.entries = self.entries.saturating_add(1);
        Ok(())
    }

    #[tactic(auto, using(crate::proofs::RecordLaws::starved_same))]
    fn serve_gets(&mut self, asks: &mut [Ask])
        ensures { ServesGets self.old self.new asks.old asks.new }
    {
        if self.give(asks).is_err() {
            starve_asks(asks);
        }
    }

    fn serve_puts(&mut self, jobs: &mut [Job])
        requires { All (λ j. Whole j.bytes) jobs.old }
        ensures { ServesPuts self.old self.new jobs.old jobs.new }
    {
        if self.take_jobs(jobs).is_err() {
            starve_jobs(jobs);
        }
    }

    fn serve_deletes(&mut self, erases: &mut [Erase])
        ensures { ServesDeletes self.old self.new erases.old erases.new }
    {
        if self.take_erases(erases).is_err() {
            starve_erases(erases);
        }
    }

    fn serve_list(&mut self, cloud: u8) -> Result<KeyList, CloudError>
        ensures told { IfOk result (Lists (contents_of self.old cloud)) }
        ensures serves { ServesList self.old self.new cloud result }
    {
        if refusal_of(&self.refusals, self.entries, 0).is_some() {
            self.take_list(cloud, true)?;
            return Err(CloudError::Failed);
        }
        let keys = self.log.list(self.alloc, cloud)?;
        self.take_list(cloud, false)?;
        Ok(keys)
    }
}

impl Fleet for MemFleet {
    ghost clouds = { width_of };

    ghost tells = { Unit {0} };

    ghost held = { contents_of };

    ghost faults = { faults_of };

    ghost slips = { slips_of };

    ghost counts_exactly = { Unit {0} };

    ghost chunk_gets = { chunk_gets_of };

    ghost tells_images = { Unit {0} };

    ghost now = { now_of };

    ghost past = { past_of };

    ghost image = { image_of };

    fn width(&self) -> usize {
        self.width
    }

    fn get_round(&mut self, asks: &mut [Ask])
        requires below { All (λ a. a.cloud < width_of self.old) asks.old }
        requires once { AllPairs (λ a b. a.cloud ≢ b.cloud) asks.old }
        ensures entries { map asked asks.new ≡ map asked asks.old }
        ensures answered { All (λ a. a.answer ≢ Unanswered) asks.new }
        ensures told { All (λ a. Answers a (contents_of self.old a.cloud a.key)) asks.new }
        ensures failed { All (λ a. a.answer ≡ NoAnswer → Rose (faults_of self.old a.cloud) (faults_of self.new a.cloud)) asks.new }
        ensures exact { (c : ℕ) → All (λ a. a.cloud ≡ c → a.answer ≢ NoAnswer) asks.new → faults_of self.new c ≡ faults_of self.old c }
        ensures clouds { width_of self.new ≡ width_of self.old }
        ensures held { contents_of self.new ≡ contents_of self.old }
        ensures grows { Grows (faults_of self.old) (faults_of self.new) }
        ensures slips { slips_of self.new ≡ slips_of self.old }
        ensures gets { (c : ℕ) → chunk_gets_of self.new c ≡ got_count (chunk_gets_of self.old c) (chunks_got c asks.new) }
        ensures time { Elapses (now_of self.old) (now_of self.new) (image_of self.old) (image_of self.new) (λ G. G ≡ contents_of self.old) }
        ensures past { Stays (now_of self.old) (past_of self.old) (past_of self.new) }
        ensures serves { ServesGets self.old self.new asks.old asks.new }
    {
        self.serve_gets(asks);
    }

    fn put_round(&mut self, jobs: &mut [Job])
        requires below { All (λ j. j.cloud < width_of self.old) jobs.old }
        requires once { AllPairs (λ a b. a.cloud ≢ b.cloud) jobs.old }
        requires whole { All (λ j. Whole j.bytes) jobs.old }
        ensures entries { writes jobs.new ≡ writes jobs.old }
        ensures answered { All (λ j. j.done ≢ Waiting) jobs.new }
        ensures told { Leaves (touches jobs.new) (contents_of self.old) (contents_of self.new) }
        ensures failed { All (λ j. j.done ≡ Failed → Rose (faults_of self.old j.cloud) (faults_of self.new j.cloud)) jobs.new }
        ensures exact { (c : ℕ) → All (λ j. j.cloud ≡ c → j.done ≢ Failed) jobs.new → faults_of self.new c ≡ faults_of self.old c }
        ensures clouds { width_of self.new ≡ width_of self.old }
        ensures grows { Grows (faults_of self.old) (faults_of self.new) }
        ensures slips { slips_of self.new ≡ slips_of self.old }
        ensures gets { chunk_gets_of self.new ≡ chunk_gets_of self.old }
        ensures time { Elapses (now_of self.old) (now_of self.new) (image_of self.old) (image_of self.new) (Image (writes jobs.old) (contents_of self.old)) }
        ensures past { Stays (now_of self.old) (past_of self.old) (past_of self.new) }
        ensures serves { ServesPuts self.old self.new jobs.old jobs.new }
    {
        self.serve_puts(jobs);
    }

    fn delete_round(&mut self, erases: &mut [Erase])
        requires below { All (λ e. e.cloud < width_of self.old) erases.old }
        requires once { AllPairs (λ a b. a.cloud ≢ b.cloud) erases.old }
        ensures entries { erasures erases.new ≡ erasures erases.old }
        ensures answered { All (λ e. e.done ≢ Waiting) erases.new }
        ensures told { Leaves (erase_touches erases.new) (contents_of self.old) (contents_of self.new) }
        ensures failed { All (λ e. e.done ≡ Failed → Rose (slips_of self.old e.cloud) (slips_of self.new e.cloud)) erases.new }
        ensures exact { (c : ℕ) → All (λ e. e.cloud ≡ c → e.done ≢ Failed) erases.new → slips_of self.new c ≡ slips_of self.old c }
        ensures clouds { width_of self.new ≡ width_of self.old }
        ensures grows { Grows (slips_of self.old) (slips_of self.new) }
        ensures faults { faults_of self.new ≡ faults_of self.old }
        ensures gets { chunk_gets_of self.new ≡ chunk_gets_of self.old }
        ensures time { Elapses (now_of self.old) (now_of self.new) (image_of self.old) (image_of self.new) (Image (erasures erases.old) (contents_of self.old)) }
        ensures past { Stays (now_of self.old) (past_of self.old) (past_of self.new) }
        ensures serves { ServesDeletes self.old self.new erases.old erases.new }
    {
        self.serve_deletes(erases);
    }

    fn list(&mut self, cloud: u8) -> Result<KeyList, CloudError>
        requires below { cloud < width_of self.old }
        ensures told { IfOk result (Lists (contents_of self.old cloud)) }
        ensures sorted { IfOk result AreSorted }
        ensures failed { IsErrOf result ListFailed → Rose (slips_of self.old cloud) (slips_of self.new cloud) }
        ensures exact { (c : ℕ) → (c ≡ cloud → IsErrOf result ListFailed → ⊥) → slips_of self.new c ≡ slips_of self.old c }
        ensures clouds { width_of self.new ≡ width_of self.old }
        ensures held { contents_of self.new ≡ contents_of self.old }
        ensures grows { Grows (slips_of self.old) (slips_of self.new) }
        ensures faults { faults_of self.new ≡ faults_of self.old }
        ensures gets { chunk_gets_of self.new ≡ chunk_gets_of self.old }
        ensures time { Elapses (now_of self.old) (now_of self.new) (image_of self.old) (image_of self.new) (λ G. G ≡ contents_of self.old) }
        ensures past { Stays (now_of self.old) (past_of self.old) (past_of self.new) }
        ensures serves { ServesList self.old self.new cloud result }
    {
        self.serve_list(cloud)
    }

    ghost counts_now = { λ f t told le. still_one (log_of f) t nothing };

    ghost past_now = { λ f told. at_last (log_of f) nothing };

    ghost only_now = { λ f G is. only_last (log_of f) nothing G is };

    ghost earlier = { λ f s t G le is. one_earlier (log_of f) s t nothing G le is };
}
