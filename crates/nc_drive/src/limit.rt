ghost use Rattle.std.specs.Prelude.{◌≡◌};
ghost use Rattle.nc_memory.specs.Moments.{now_of};
ghost use Rattle.nc_drive.specs.Limits.{limit_ends, limit_knows};

use nc_memory::MemFleet;
use nc_run::Watch;

/// Lets a run go on until an act ends once the round of this number has begun, counted over all of
/// the record. It counts the acts that ended before, and keeps how long the record was at the end of
/// the last of them.
#[derive(Clone, Copy, Debug)]
pub struct Limit {
    pub round: u64,
    pub done: u64,
    pub since: u64,
}

impl Limit {
    pub fn new(fleet: &MemFleet, round: u64) -> Limit
        ensures round { result.round ≡ round }
        ensures none { result.done ≡ 0 }
        ensures since { result.since ≡ now_of fleet.now }
    {
        Limit {
            round,
            done: 0,
            since: fleet.length(),
        }
    }
}

impl Watch<MemFleet> for Limit {
    ghost knows = { limit_knows };

    ghost why = { limit_ends };

    fn act_done(&mut self, fleet: &MemFleet) -> bool {
        if self.round < fleet.rounds() {
            return false;
        }
        self.done = self.done.saturating_add(1);
        self.since = fleet.length();
        true
    }
}
