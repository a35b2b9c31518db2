ghost use Rattle.std.specs.Prelude.{◌≡◌, IfOk, IfErr, map, string_bytes};
ghost use Rattle.clap.specs.Matches.{found_of};
ghost use Rattle.clap.specs.Walk.{rows_of};
ghost use Rattle.nc_words.specs.Matched.{IsTaken, matched};
ghost use Rattle.nc_words.specs.Settings.{IsSetting};
ghost use Rattle.nc_words.specs.Words.{Asks, Declines, FitsCommand, RefusesWords, told_as};

use crate::act::Request;
use crate::commands::read_command;
use crate::declared::parsed;
use crate::options::read_setting;
use clap::ArgMatches;
use clap::error::ErrorKind;
use nc_name::NameFault;
use std::alloc::Global;
use thiserror::Error;

/// Why the words ask for nothing.
#[derive(Clone, Copy, Debug, Error)]
pub enum WordFault {
    /// They aren't one of the commands with exactly its arguments, or an option has no text that fits it. A number that is no
    /// cloud's is no argument, and two numbers of one cloud aren't two.
    #[error("the words are no command with its arguments")]
    Usage,
    /// They are, but the name isn't one.
    #[error("the name isn't one")]
    Name(NameFault),
    /// Memory ran out while they were read.
    #[error("memory ran out")]
    Memory,
}

/// Reads the words of a run over so many clouds: one command with exactly its arguments, and options before or between them.
pub fn read_words(alloc: Global, words: &[String], width: u8) -> Result<Request, WordFault>
    ensures request { IfOk result (Asks width (map string_bytes words.now)) }
    ensures setting { IfOk result (λ request. IsSetting request.setting) }
    ensures fits { IfOk result (λ request. FitsCommand width request.command) }
    ensures fault { IfErr result (RefusesWords width (map string_bytes words.now)) }
{
    let matches = match taken(alloc, words) {
        Ok(matches) => matches,
        Err(fault) => return Err(fault),
    };
    let Some(setting) = read_setting(&matches) else {
        return Err(WordFault::Usage);
    };
    match read_command(&matches, width) {
        Ok(command) => Ok(Request { setting, command }),
        Err(fault) => Err(fault),
    }
}

/// What the words give each option and each positional word, where the declared command takes them.
#[tactic(auto, using(crate::proofs::Asking::declined))]
fn taken<'a>(alloc: Global, words: &'a [String]) -> Result<ArgMatches<'a>, WordFault>
    ensures rows { IfOk result (λ m. rows_of (found_of m) ≡ matched (map string_bytes words.now)) }
    ensures taken { IfOk result (λ m. IsTaken (map string_bytes words.now)) }
    ensures fault { IfErr result (Declines (map string_bytes words.now)) }
{
    match parsed(alloc, words) {
        Ok(matches) => Ok(matches),
        Err(error) => Err(fault_of(error.kind())),
    }
}

/// What is told of an error of `clap`.
fn fault_of(kind: ErrorKind) -> WordFault
    ensures { result ≡ told_as kind }
{
    match kind {
        ErrorKind::OutOfMemory => WordFault::Memory,
        _ => WordFault::Usage,
    }
}
