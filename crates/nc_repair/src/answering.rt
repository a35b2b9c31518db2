ghost use Rattle.std.specs.Prelude.{◌≡◌};
ghost use Rattle.nc_repair.specs.Repairing.{answer_by};

use crate::fault::RepairFault;
use nc_cloud::RoundFault;
use nc_meta::Meta;
use nc_settle::Settled;

/// The answer of a repair whose rounds of writes were answered so, and which wrote this metadata in the last of them.
pub(crate) fn answer_of(rounds: Result<(), RoundFault>, meta: Meta) -> Result<Settled, RepairFault>
    ensures { result ≡ answer_by meta rounds }
{
    match rounds {
        Ok(()) => Ok(Settled { top: Some(meta) }),
        Err(RoundFault::Cloud(cloud)) => Err(RepairFault::Cloud(cloud)),
        Err(RoundFault::Memory) => Err(RepairFault::Memory),
    }
}
