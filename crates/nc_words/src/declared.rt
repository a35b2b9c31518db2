//! The words of a run, read as one simple command of `clap`.

ghost use Rattle.std.specs.Prelude.{◌≡◌, IfOk, IfErr, false, map, string_bytes};
ghost use Rattle.clap.specs.Walk.{rows_of, rule_of};
ghost use Rattle.clap.specs.Simple.{app_of};
ghost use Rattle.clap.specs.Kinds.{FailsBy};
ghost use Rattle.clap.specs.Matches.{found_of};
ghost use Rattle.nc_words.specs.CommandLine.{bare, budget, command, nccloud, rest, seed, workers};
ghost use Rattle.nc_words.specs.Matched.{faults, matched};

use clap::{Arg, ArgMatches, Command, Error};
use std::alloc::{AllocError, Global};

/// What the words give each option and each positional word.
pub(crate) fn parsed<'a>(alloc: Global, words: &'a [String]) -> Result<ArgMatches<'a>, Error>
    ensures rows { IfOk result (λ m. rows_of (found_of m) ≡ matched (map string_bytes words.now)) }
    ensures taken { FailsBy (faults (map string_bytes words.now)) result }
{
    declared(alloc)?.try_get_matches_from(words)
}

/// The command.
fn declared<'a>(alloc: Global) -> Result<Command<'a>, AllocError>
    ensures { IfOk result (λ c. app_of c ≡ nccloud) }
{
    let command = bare_command(alloc)
        .arg(seed_option(alloc))?
        .arg(budget_option(alloc))?
        .arg(workers_option(alloc))?
        .arg(command_word(alloc))?
        .arg(rest_words(alloc))?;
    Ok(command)
}

/// The command without its options.
fn bare_command<'a>(alloc: Global) -> Command<'a>
    ensures { app_of result ≡ bare }
{
    Command::new(alloc, "nccloud")
        .no_binary_name(true)
        .disable_help_flag(true)
}

fn seed_option<'a>(alloc: Global) -> Arg<'a>
    ensures rule { rule_of result ≡ seed }
    ensures local { result.global ≡ false }
{
    Arg::new(alloc, "seed").long("seed").default_value(
        "0000000000000000000000000000000000000000000000000000000000000000",
    )
}

fn budget_option<'a>(alloc: Global) -> Arg<'a>
    ensures rule { rule_of result ≡ budget }
    ensures local { result.global ≡ false }
{
    Arg::new(alloc, "budget").long("budget").default_value("64")
}

fn workers_option<'a>(alloc: Global) -> Arg<'a>
    ensures rule { rule_of result ≡ workers }
    ensures local { result.global ≡ false }
{
    Arg::new(alloc, "workers")
        .long("workers")
        .default_value("1")
}

fn command_word<'a>(alloc: Global) -> Arg<'a>
    ensures rule { rule_of result ≡ command }
    ensures local { result.global ≡ false }
{
    Arg::new(alloc, "command").required(true)
}

fn rest_words<'a>(alloc: Global) -> Arg<'a>
    ensures rule { rule_of result ≡ rest }
    ensures local { result.global ≡ false }
{
    Arg::new(alloc, "rest").num_args(0..)
}
