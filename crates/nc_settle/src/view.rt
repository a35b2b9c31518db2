ghost use Rattle.std.specs.Prelude.{◌≡◌, ◌<◌, ◌≤◌};
ghost use Rattle.nc_settle.specs.Views.{place_at, width_of, HasTwoSlots};

use crate::place::Place;
use std::marker::Model;

/// What stands under both metadata keys of a name, on each cloud.
#[derive(Debug, Drop)]
pub struct View {
    first: Vec<Place>,
    second: Vec<Place>,
}

impl Model for View {
    ghost use Rattle.nc_settle.specs.Views.{Places, HasTwoSlots};

    ghost Value = { Places };

    ghost view = { λ v. record { first = v.first.items; second = v.second.items } };

    ghost invariant = { λ v. HasTwoSlots (record { first = v.first.items; second = v.second.items }) };
}

impl View {
    /// The view of these places, by cloud: those of slot 0, and those of slot 1.
    pub(crate) fn new(first: Vec<Place>, second: Vec<Place>) -> View
        requires { HasTwoSlots (record { first = first.items; second = second.items }) }
        ensures { result ≡ record { first = first.items; second = second.items } }
    {
        View { first, second }
    }

    /// The number of clouds, at most 10.
    pub fn width(&self) -> u8
        ensures width { result ≡ width_of self.now }
        ensures kept { HasTwoSlots self.now }
    {
        self.first.len() as u8
    }

    /// What stands on this cloud in this slot, 0 or 1.
    pub fn place(&self, cloud: u8, slot: u8) -> &Place
        requires cloud { cloud < width_of self.now }
        requires slot { slot < 2 }
        ensures { result.now ≡ place_at self.now cloud slot }
    {
        if slot == 0 {
            &self.first[cloud as usize]
        } else {
            &self.second[cloud as usize]
        }
    }
}
