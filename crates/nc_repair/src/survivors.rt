ghost use Rattle.std.specs.Prelude.{◌≡◌, ◌≢◌, ◌<◌, ◌+◌, slice_index};
ghost use Rattle.nc_mix.specs.Regenerating.{survivor as survivor_of};

use nc_code::Plan;

/// The cloud at position k among those other than the lost one.
pub(crate) fn survivor(lost: u8, k: u8) -> u8
    requires { k < 255 }
    ensures { result ≡ survivor_of lost k }
{
    if k < lost { k } else { k + 1 }
}

/// The row of the chunk that the plan takes from a cloud.
pub(crate) fn chosen_row(plan: &Plan, cloud: u8) -> u8
    requires { cloud < 10 }
    ensures is { result ≡ slice_index plan.now.choice cloud }
    ensures pair { result < 2 }
{
    plan.told_plan();
    plan.choice[usize::from(cloud)]
}
