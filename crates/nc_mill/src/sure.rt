//! Clouds in memory that never fail.
ghost use Rattle.std.specs.Prelude.{◌≡◌, []};
ghost use Rattle.nc_memory.specs.Memory.{refusals_of};

use nc_memory::MemFleet;

/// Clouds in memory of which none was told to fail, so that none does.
#[derive(Drop)]
pub struct Sure {
    pub(crate) fleet: MemFleet,
    ghost sure: { refusals_of fleet ≡ [] },
}
