ghost use Rattle.std.specs.Prelude.{◌≡◌, ◌+◌, ◌-◌, ◌^◌, ◌<◌, ◌≤◌, ◌%◌, IfSome, IfNone};
ghost use Rattle.nc_meta.specs.Parts.{IsGeneration};
ghost use Rattle.nc_state.specs.Right.{free_slot as free_slot_in, names_slot};

use nc_meta::Meta;

/// The last generation that can be stored.
const LAST: u64 = u64::MAX - 1;

/// The slot that metadata of this generation stands in.
pub fn slot_of(generation: u64) -> u8
    ensures is { result ≡ generation % 2 }
    ensures pair { result < 2 }
{
    (generation % 2) as u8
}

/// The slot beside this one.
pub fn other_slot(slot: u8) -> u8
    requires { slot < 2 }
    ensures { result ≡ 1 - slot }
{
    1 - slot
}

/// The generation of the next version, unless this one was the last that can be stored.
pub fn next_generation(generation: u64) -> Option<u64>
    ensures next { IfSome result (λ next. (next ≡ generation + 1) × IsGeneration next) }
    ensures worn { IfNone result (2 ^ 64 - 2 ≤ generation) }
{
    if generation < LAST {
        Some(generation + 1)
    } else {
        None
    }
}

/// Where the next chunks of cloud `cloud` are written, after the version of this metadata: beside its chunks.
pub fn free_slot(meta: &Meta, cloud: u8) -> u8
    requires { cloud < 10 }
    ensures is { result ≡ free_slot_in meta.now cloud }
    ensures pair { result < 2 }
{
    match meta {
        Meta::Live(live) => {
            if live.slots[cloud as usize] == 0 {
                1
            } else {
                0
            }
        }
        Meta::Gone { generation: _ } => 0,
    }
}

/// Whether the version of this metadata has its chunks in this slot of cloud `cloud`.
pub fn is_live(meta: &Meta, cloud: u8, slot: u8) -> bool
    requires { cloud < 10 }
    ensures { result ≡ names_slot meta.now cloud slot }
{
    match meta {
        Meta::Live(live) => live.slots[cloud as usize] == slot,
        Meta::Gone { generation: _ } => false,
    }
}
