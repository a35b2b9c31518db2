ghost use Rattle.std.specs.Prelude.{◌≡◌, ◌<◌, length, slice_index_or, IfOk};
ghost use Rattle.std.specs.Thread.{IsSync};
ghost use Rattle.nc_cloud.specs.Fan.{clouds_of};
ghost use Rattle.nc_cloud.specs.Seats.{clouds_in, contents_at, count_at};

use crate::at_once::AtOnce;
use crate::cloud::{CloudError, KeyList};
use crate::fleet::{Answer, Ask, Done, Erase, Fleet, Job};
use crate::seats::{Seat, fan_deletes, fan_gets, fan_puts, list_at};
use nc_name::Memory;
use std::alloc::Global;
use std::thread::Threads;

/// Clouds side by side. It tells what they tell.
#[derive(Drop)]
pub struct Fanned<C, R> {
    rt: R,
    alloc: Global,
    seats: Vec<Seat<C>>,
}

impl<C: AtOnce, R: Threads + Sync + Drop> Fanned<C, R> {
    /// A fleet of these clouds, in their order. At `Memory` they are dropped.
    pub fn new(rt: R, alloc: Global, clouds: Vec<C>) -> Result<Fanned<C, R>, Memory>
        ensures { IfOk result (λ fleet. clouds_of fleet ≡ clouds.items) }
    {
        let seats = seated(alloc, clouds)?;
        Ok(Fanned { rt, alloc, seats })
    }

    /// One of the clouds.
    pub fn cloud(&self, c: u8) -> &C
        requires { c < length (clouds_of self.now) }
        ensures { result.now ≡ slice_index_or (clouds_of self.now) c result.now }
    {
        &self.seats[c as usize].cloud
    }

    /// The clouds, in their order. At `Memory` they are dropped.
    pub fn into_clouds(self) -> Result<Vec<C>, Memory>
        ensures { IfOk result (λ clouds. clouds.items ≡ clouds_of self) }
    {
        unseated(self.alloc, self.seats)
    }
}

impl<C: AtOnce, R: Threads + Sync + Drop> Fleet for Fanned<C, R> {
    ghost ready = { IsSync R.row };

    ghost clouds = { λ fleet. length (clouds_of fleet) };

    ghost tells = { C.tells };

    ghost held = { λ fleet. contents_at C.held (clouds_of fleet) };

    ghost faults = { λ fleet. count_at C.faults (clouds_of fleet) };

    ghost slips = { λ fleet. count_at C.slips (clouds_of fleet) };

    ghost counts_exactly = { C.counts_exactly };

    ghost chunk_gets = { λ fleet. count_at C.chunk_gets (clouds_of fleet) };

    ghost sure_deletes = { C.sure_deletes };

    ghost now = { λ _. 0 };

    fn width(&self) -> usize {
        self.seats.len()
    }

    fn get_round(&mut self, asks: &mut [Ask]) {
        fan_gets(&self.rt, &mut self.seats, asks);
    }

    fn put_round(&mut self, jobs: &mut [Job]) {
        fan_puts(&self.rt, &mut self.seats, jobs);
    }

    fn delete_round(&mut self, erases: &mut [Erase]) {
        fan_deletes(&self.rt, &mut self.seats, erases);
    }

    fn list(&mut self, cloud: u8) -> Result<KeyList, CloudError> {
        list_at(&mut self.seats, cloud as usize)
    }

    ghost counts_now = { λ f t told le. absurd told };

    ghost past_now = { λ f told. absurd told };

    ghost only_now = { λ f G is. absurd is };

    ghost earlier = { λ f s t G le is. is };
}

/// Each cloud in a seat.
fn seated<C: Drop>(alloc: Global, clouds: Vec<C>) -> Result<Vec<Seat<C>>, Memory>
    ensures { IfOk result (λ seats. clouds_in seats.items ≡ clouds.items) }
{
    let mut seats = Vec::with_capacity(alloc, clouds.len())?;
    for cloud in clouds {
        seats.push(Seat {
            cloud,
            answer: Answer::Waiting,
            done: Done::Ok,
        })?;
    }
    Ok(seats)
}

/// The clouds of seats.
fn unseated<C: Drop>(alloc: Global, seats: Vec<Seat<C>>) -> Result<Vec<C>, Memory>
    ensures { IfOk result (λ clouds. clouds.items ≡ clouds_in seats.items) }
{
    let mut clouds = Vec::with_capacity(alloc, seats.len())?;
    for seat in seats {
        let Seat { cloud, .. } = seat;
        clouds.push(cloud)?;
    }
    Ok(clouds)
}
