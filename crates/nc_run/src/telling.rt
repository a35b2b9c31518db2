//! The line that a run tells of its fault. It takes no memory.
ghost use Rattle.std.specs.Prelude.{◌≡◌};
ghost use Rattle.nc_words.specs.Sending.{Sends};
ghost use Rattle.nc_run.specs.Ending.{plain};
ghost use Rattle.nc_run.specs.Telling.{Tells, after_text, fault_line, line_text};

use crate::causes::say_status;
use crate::ending::{Ending, plain};
use crate::numbers::say_one;
use crate::status::Status;
use nc_stream::{Failed, Sink};
use nc_words::send;

/// Tells a status by which the program ends before it runs, and gives it back.
pub fn tell_early<E: Sink>(err: &mut E, status: Status) -> Status
    ensures same { result ≡ status }
    ensures tells { Tells E.Sink (plain status) err.old err.new }
{
    let ending = plain(status);
    tell(err, &ending);
    ending.status
}

/// Tells why a run ended so: a line, or nothing where it ended Ok. What can't be written is dropped.
pub(crate) fn tell<E: Sink>(err: &mut E, ending: &Ending)
    ensures { Tells E.Sink ending.now err.old err.new }
{
    match &ending.status {
        Status::Ok => {}
        _ => {
            let _ = say_line(err, ending);
        }
    }
}

/// The line of a fault.
fn say_line<E: Sink>(err: &mut E, ending: &Ending) -> Result<(), Failed>
    ensures says { Sends E.Sink (fault_line ending.now) err.old err.new result }
{
    send(err, b"nccloud: ")?;
    say_place(err, ending.line)?;
    say_after(err, ending.after)?;
    say_status(err, &ending.status)?;
    send(err, b"\n")
}

/// Which line of a batch it was.
fn say_place<E: Sink>(err: &mut E, line: Option<u64>) -> Result<(), Failed>
    ensures says { Sends E.Sink (line_text line) err.old err.new result }
{
    match line {
        None => Ok(()),
        Some(line) => say_one(err, b"line ", line, b": "),
    }
}

/// With how many names an act on all of them was done.
fn say_after<E: Sink>(err: &mut E, after: Option<u64>) -> Result<(), Failed>
    ensures says { Sends E.Sink (after_text after) err.old err.new result }
{
    match after {
        None => Ok(()),
        Some(names) => say_one(err, b"after ", names, b" names: "),
    }
}
