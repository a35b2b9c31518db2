//! How a run must end.

use crate::running::{Outcome, Setup};
use crate::value::{bytes_of, piece_bytes};
use nc_cloud::Fleet;
use std::alloc::Global;
use std::test::Fail;
use std::thread::Threads;

/// How a run must end: the exit code and what its fault's line tells, its output, and how many objects there are then, where
/// that is asked.
#[derive(Drop)]
pub struct End<'a> {
    pub answer: &'a str,
    pub output: &'a str,
    pub leaving: &'a str,
}

/// The parts of a text `ANSWER = OUTPUT leaving COUNTS`, of which the last two may be left out.
pub fn end_of(text: &str) -> End<'_> {
    let (text, leaving) = match text.split_once(" leaving ") {
        Some(parts) => parts,
        None => (text, ""),
    };
    let (answer, output) = match text.split_once(" = ") {
        Some(parts) => parts,
        None => (text, ""),
    };
    End {
        answer: written_out(answer),
        output,
        leaving,
    }
}

/// The answer that a scene writes so: words that are no command are told by one line.
fn written_out(answer: &str) -> &str {
    match answer {
        "2 usage" => {
            "2 usage: nccloud CLOUDS [--seed HEX64] [--budget N] [--workers N] COMMAND [ARGUMENT]..."
        }
        other => other,
    }
}

/// A run ended so.
pub fn check_end(alloc: Global, outcome: &Outcome, end: &End<'_>) -> Result<(), Fail> {
    check_answer(outcome.answer.as_str(), end.answer)?;
    let pieces: Vec<&str> = end.output.split_whitespace().collect(alloc)?;
    let wanted = bytes_of(alloc, &pieces)?;
    check_bytes(outcome.output.bytes(), wanted.as_slice())
}

/// A run of these words ends so. The input stands after the words, where there is some.
pub fn check_run<R: Threads + Sync + AllocGlobal, F: Fleet>(
    rt: &R,
    fleet: &mut F,
    run: &str,
    end: &str,
) -> Result<(), Fail>
    requires ready { F.ready }
{
    let alloc = rt.alloc();
    let (words, input) = match run.split_once(" < ") {
        Some(parts) => parts,
        None => (run, "zeros:0"),
    };
    let setup = Setup::new(piece_bytes(alloc, input)?);
    let outcome = setup.run(rt, fleet, words)?;
    check_end(alloc, &outcome, &end_of(end))
}

pub fn check_answer(found: &str, wanted: &str) -> Result<(), Fail> {
    if found == wanted {
        Ok(())
    } else {
        Err(Fail::new(format_args!("it ended with: {found}")))
    }
}

pub fn check_bytes(found: &[u8], wanted: &[u8]) -> Result<(), Fail> {
    if found == wanted {
        Ok(())
    } else {
        Err(Fail::new(format_args!("these bytes are there: {found:?}")))
    }
}
