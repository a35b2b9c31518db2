ghost use Rattle.std.specs.Prelude.{◌≡◌};
ghost use Rattle.nc_write.specs.Doing.{answer_by};

use crate::fault::WriteFault;
use nc_cloud::RoundFault;
use nc_meta::Meta;
use nc_settle::Settled;

/// The answer of a command whose rounds were answered so, and which wrote this metadata in the last of them.
pub fn answer_of(rounds: Result<(), RoundFault>, meta: Meta) -> Result<Settled, WriteFault>
    ensures { result ≡ answer_by meta rounds }
{
    match rounds {
        Ok(()) => Ok(Settled { top: Some(meta) }),
        Err(RoundFault::Cloud(cloud)) => Err(WriteFault::Cloud(cloud)),
        Err(RoundFault::Memory) => Err(WriteFault::Memory),
    }
}
