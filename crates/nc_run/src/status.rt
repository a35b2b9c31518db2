ghost use Rattle.std.specs.Prelude.{◌≡◌};
ghost use Rattle.nc_run.specs.Codes.{exit_code, fault_code};

use nc_name::NameFault;
use nc_vault::Fault;
use thiserror::Error;

/// How a run ended.
#[derive(Debug, Drop, Error)]
pub enum Status {
    /// The command was done.
    #[error("the command was done")]
    Ok,
    /// There are not 4 to 10 clouds.
    #[error("{0} clouds are not 4 to 10")]
    Width(usize),
    /// The words are no command with exactly its arguments.
    #[error("the words are no command with its arguments")]
    Usage,
    /// The words are a command, but the name isn't one.
    #[error("the name isn't one")]
    Name(NameFault),
    /// This line of a batch, counted from 1, asks for nothing. The lines before it were done.
    #[error("line {0} of the batch asks for nothing")]
    BatchLine(u64),
    /// The input is longer than 64 MiB.
    #[error("the input is longer than 64 MiB")]
    TooLong,
    /// The input failed before its end.
    #[error("the input failed before its end")]
    ReadFault,
    /// The output failed. The command was done.
    #[error("the output failed, and the command was done")]
    WriteFault,
    /// The command wasn't done on the clouds.
    #[error("{0}")]
    Vault(Fault),
}

impl Status {
    /// The program's exit code.
    pub fn code(&self) -> u8
        ensures { result ≡ exit_code self.now }
    {
        match self {
            Status::Ok => 0,
            Status::Width(_) | Status::Usage | Status::Name(_) | Status::BatchLine(_) => 2,
            Status::TooLong => 7,
            Status::ReadFault => 8,
            Status::WriteFault => 9,
            Status::Vault(fault) => code_of(fault),
        }
    }
}

/// The exit code where the command wasn't done on the clouds, for this cause.
fn code_of(fault: &Fault) -> u8
    ensures { result ≡ fault_code fault.now }
{
    match fault {
        Fault::Memory => 1,
        Fault::NoFile => 3,
        Fault::Cloud(_) => 4,
        Fault::Short(_) => 5,
        Fault::Spent(_) => 6,
        Fault::Damaged { .. } => 10,
        Fault::Conflict { .. } | Fault::Misplaced { .. } | Fault::Unsound { .. } => 11,
        Fault::Worn => 12,
    }
}
