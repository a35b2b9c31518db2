ghost use Rattle.std.specs.Prelude.{◌≡◌, ◌≤◌, IfNone, IfSome};
ghost use Rattle.nc_names.specs.Listing.{named};
ghost use Rattle.nc_state.specs.Clouds.{count_of};
ghost use Rattle.nc_vault.specs.Listing.{IsLeastOfThree};

use nc_names::first_marked;

/// The least of the clouds that failed, where three did or more.
pub(crate) fn least_of_three(failed: &[bool; 10], width: u8) -> Option<u8>
    requires narrow { width ≤ 10 }
    ensures some { IfSome result (IsLeastOfThree width (named failed.now)) }
    ensures none { IfNone result (count_of width (named failed.now) ≤ 2) }
{
    if count(failed, width) <= 2 {
        return None;
    }
    first_marked(failed)
}

/// How many clouds failed.
fn count(failed: &[bool; 10], width: u8) -> u8
    requires narrow { width ≤ 10 }
    ensures { result ≡ count_of width (named failed.now) }
{
    let mut count = 0;
    for cloud in 0..width {
        count += u8::from(failed[cloud as usize]);
    }
    count
}
