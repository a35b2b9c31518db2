//! The keys that tests put objects under.
ghost use Rattle.std.specs.Prelude.{◌<◌};
ghost use Rattle.nc_name.specs.Keys.{Slots};

use nc_name::{Key, Name};

pub(crate) fn meta(name: Name) -> Key
    ensures { Slots result }
{
    Key::Meta { name, slot: 0 }
}

pub(crate) fn chunk(name: Name, row: u8) -> Key
    requires { row < 2 }
    ensures { Slots result }
{
    Key::Chunk { name, slot: 0, row }
}
