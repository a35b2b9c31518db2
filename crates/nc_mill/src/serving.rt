//! What clouds in memory that never fail do.
ghost use Rattle.std.specs.Prelude.{◌≡◌, ◌<◌, IfOk, OnOk};
ghost use Rattle.nc_cloud.specs.Contents.{nothing};
ghost use Rattle.nc_state.specs.Losses.{Loses};
ghost use Rattle.nc_mill.specs.Sures.{chunks_given, count_in, held_by};

use crate::sure::Sure;
use nc_cloud::{Ask, CloudError, Erase, Fleet, Job, KeyList};
use nc_memory::{Damage, KeyFates, MemFleet, Torn};
use nc_name::Memory;
use std::alloc::Global;

impl Sure {
    /// So many clouds without objects.
    pub(crate) fn new(alloc: Global, width: u8) -> Result<Sure, Memory>
        ensures width { IfOk result (λ clouds. count_in clouds ≡ width) }
        ensures empty { IfOk result (λ clouds. held_by clouds ≡ nothing) }
    {
        let fleet = MemFleet::new(alloc, usize::from(width))?;
        Ok(Sure { fleet })
    }

    /// Takes all objects of a cloud away.
    pub(crate) fn empty(&mut self, alloc: Global, cloud: u8) -> Result<(), Memory>
        requires { cloud < count_in self.old }
        ensures loses { OnOk result (Loses cloud (held_by self.old) (held_by self.new)) }
        ensures width { count_in self.new ≡ count_in self.old }
    {
        let all = Damage {
            rest: Torn::Gone,
            except: KeyFates::new(alloc),
        };
        self.fleet.lose(cloud, &all)
    }
}

impl Fleet for Sure {
    ghost clouds = { count_in };

    ghost tells = { Unit {0} };

    ghost held = { held_by };

    ghost faults = { λ _ _. 0 };

    ghost slips = { λ _ _. 0 };

    ghost chunk_gets = { chunks_given };

    ghost now = { λ _. 0 };

    fn width(&self) -> usize {
        self.fleet.width()
    }

    fn get_round(&mut self, asks: &mut [Ask]) {
        self.fleet.get_round(asks);
    }

    fn put_round(&mut self, jobs: &mut [Job]) {
        self.fleet.put_round(jobs);
    }

    fn delete_round(&mut self, erases: &mut [Erase]) {
        self.fleet.delete_round(erases);
    }

    fn list(&mut self, cloud: u8) -> Result<KeyList, CloudError> {
        self.fleet.list(cloud)
    }

    ghost counts_now = { λ f t told le. absurd told };

    ghost past_now = { λ f told. absurd told };

    ghost only_now = { λ f G is. absurd is };

    ghost earlier = { λ f s t G le is. is };
}
