//! How the acts of a mill were answered.
ghost use Rattle.std.specs.Prelude.{◌≡◌, Some, IfOk, IfErr};
ghost use Rattle.nc_mill.specs.Ends.{MayGive, MayRepair, MayStop, MayStore, mill_fault, stop_of};
ghost use Rattle.nc_mill.specs.declared.milled.MillFault.TheVariants.{Memory as NoMemory};

use crate::milled::MillFault;
use nc_name::Blob;
use nc_vault::{Fault, Reply};

/// Why a put stored nothing.
pub(crate) fn unstored(reply: &Reply) -> Option<MillFault>
    requires { MayStore reply.now }
    ensures { result ≡ stop_of reply.now }
{
    match reply {
        Reply::Stored { .. } => None,
        Reply::Stopped { fault, .. } => Some(cause_of(fault)),
        _ => unreachable!(),
    }
}

/// What a get gave.
pub(crate) fn given(reply: Reply) -> Result<Blob, MillFault>
    requires { MayGive reply }
    ensures ok { IfOk result (λ bytes. reply ≡ Reply.Bytes bytes) }
    ensures err { IfErr result (λ fault. fault ≡ NoMemory) }
{
    match reply {
        Reply::Bytes(bytes) => Ok(bytes),
        Reply::Stopped { .. } => Err(MillFault::Memory),
        _ => unreachable!(),
    }
}

/// How many files a repair repaired.
pub(crate) fn repaired(reply: &Reply) -> Result<u64, MillFault>
    requires { MayRepair reply.now }
    ensures ok { IfOk result (λ files. reply.now ≡ Reply.Repaired files) }
    ensures err { IfErr result (λ fault. Some fault ≡ stop_of reply.now) }
{
    match reply {
        Reply::Repaired { files } => Ok(*files),
        Reply::Stopped { fault, .. } => Err(cause_of(fault)),
        _ => unreachable!(),
    }
}

/// The answer of a mill whose act was stopped for this cause.
fn cause_of(fault: &Fault) -> MillFault
    requires { MayStop fault.now }
    ensures { result ≡ mill_fault fault.now }
{
    match fault {
        Fault::Spent(tried) => MillFault::Spent(*tried),
        Fault::Memory => MillFault::Memory,
        _ => unreachable!(),
    }
}
