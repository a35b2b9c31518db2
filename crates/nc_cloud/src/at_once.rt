ghost use Rattle.std.specs.Prelude.{All};
ghost use Rattle.std.specs.Thread.{IsSync};
ghost use Rattle.nc_frame.specs.Frames.{Whole};
ghost use Rattle.nc_cloud.specs.Seats.{ask_at, erase_at, job_at, AllServed, DidErase, DidGet, DidPut, Serves};

use crate::cloud::Cloud;
use crate::fleet::{Ask, Erase, Job};
use crate::seats::Seat;
use std::thread::Threads;

/// A cloud that serves a round beside others of its kind, all at the same time. What begins threads for values of some type has to
/// know the type: so each kind of cloud has these three functions, and each is a call of the one in this crate that serves any.
pub trait AtOnce: Cloud + Drop {
    /// Each cloud serves its ask: `get_at_once`.
    fn get_all<R: Threads + Sync>(rt: &R, seats: &mut [Seat<Self>], asks: &[Ask])
        requires shared { IsSync R.row }
        ensures { AllServed (λ c. Serves (DidGet Self.Cloud) (ask_at asks.now c)) seats.old seats.new };

    /// Each cloud does its job: `put_at_once`.
    fn put_all<R: Threads + Sync>(rt: &R, seats: &mut [Seat<Self>], jobs: &[Job])
        requires shared { IsSync R.row }
        requires whole { All (λ j. Whole j.bytes) jobs.now }
        ensures { AllServed (λ c. Serves (DidPut Self.Cloud) (job_at jobs.now c)) seats.old seats.new };

    /// Each cloud does its delete: `delete_at_once`.
    fn delete_all<R: Threads + Sync>(rt: &R, seats: &mut [Seat<Self>], erases: &[Erase])
        requires shared { IsSync R.row }
        ensures { AllServed (λ c. Serves (DidErase Self.Cloud) (erase_at erases.now c)) seats.old seats.new };
}
