ghost use Rattle.std.specs.Prelude.{◌≡◌, ◌≤◌};
ghost use Rattle.nc_mds.specs.Laws.{StripedIsMds};
ghost use Rattle.nc_mds.specs.declared.verdict.Verdict.TheVariants.{Mds};

use crate::checking::check;
use crate::verdict::Verdict;

/// The striped code is MDS at each width.
pub fn striped_is_mds()
    ensures { StripedIsMds }
{}

/// The check finds that the striped code is MDS.
pub fn check_striped(width: u8) -> Verdict
    requires wide { 4 ≤ width }
    requires narrow { width ≤ 10 }
    ensures { result ≡ Mds }
{
    check(&nc_code::striped(width))
}
