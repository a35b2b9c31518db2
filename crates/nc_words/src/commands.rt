//! The command that arguments are.

ghost use Rattle.std.specs.Prelude.{◌≡◌, ◌≢◌, ◌∷◌, [], IfOk, IfErr, codes};
ghost use Rattle.clap.specs.Matches.{found_of};
ghost use Rattle.clap.specs.Walk.{rows_of, texts};
ghost use Rattle.nc_words.specs.Words.{FitsCommand, IsCommand, RefusesArguments, arguments_in};

use crate::act::{Act, Command};
use crate::numbers::{read_cloud, read_number};
use crate::options::first_text;
use crate::words::WordFault;
use clap::ArgMatches;
use nc_name::Name;

/// The command that the command's word and the rest are.
pub(crate) fn read_command(matches: &ArgMatches, width: u8) -> Result<Command, WordFault>
    ensures command { IfOk result
        (IsCommand width (arguments_in (rows_of (found_of matches.now)))) }
    ensures fits { IfOk result (FitsCommand width) }
    ensures fault { IfErr result
        (RefusesArguments width (arguments_in (rows_of (found_of matches.now)))) }
{
    let Some(word) = first_text(matches, "command") else {
        return Err(WordFault::Usage);
    };
    match matches.get_strs("rest") {
        Some(rest) => read_arguments(word, rest, width),
        None => read_arguments(word, &[], width),
    }
}

/// The command that a word and so many texts are.
pub(crate) fn read_arguments(word: &str, rest: &[&str], width: u8) -> Result<Command, WordFault>
    ensures command { IfOk result (IsCommand width (word.now ∷ texts rest.now)) }
    ensures fits { IfOk result (FitsCommand width) }
    ensures fault { IfErr result (RefusesArguments width (word.now ∷ texts rest.now)) }
{
    match *rest {
        [] => match word {
            "ls" => Ok(Command::Act(Act::List)),
            "scrub" => Ok(Command::Act(Act::Scrub)),
            "recover" => Ok(Command::Act(Act::Recover)),
            "batch" => Ok(Command::Batch),
            _ => Err(WordFault::Usage),
        },
        [text] => read_pair(word, text, width),
        [text, other] => read_triple(word, text, other, width),
        _ => Err(WordFault::Usage),
    }
}

/// The command that two words are: one about a cloud, about a number or about a name.
fn read_pair(word: &str, text: &str, width: u8) -> Result<Command, WordFault>
    ensures command { IfOk result (IsCommand width (word.now ∷ text.now ∷ [])) }
    ensures fits { IfOk result (FitsCommand width) }
    ensures fault { IfErr result (RefusesArguments width (word.now ∷ text.now ∷ [])) }
{
    if word == "repair" {
        return match read_cloud(text, width) {
            Some(cloud) => Ok(Command::Act(Act::Repair(cloud))),
            None => Err(WordFault::Usage),
        };
    }
    if word == "restore" {
        return match read_cloud(text, width) {
            Some(first) => Ok(Command::Act(Act::Restore {
                first,
                second: None,
            })),
            None => Err(WordFault::Usage),
        };
    }
    if word == "mill" {
        return match read_number(text) {
            Some(number) => Ok(Command::Mill(number)),
            None => Err(WordFault::Usage),
        };
    }
    read_named(word, text, width)
}

/// The command that two words are which speak of no number: one about a name.
fn read_named(word: &str, text: &str, width: u8) -> Result<Command, WordFault>
    requires { (word.now ≢ codes "repair") × (word.now ≢ codes "restore") × (word.now ≢ codes "mill") }
    ensures command { IfOk result (IsCommand width (word.now ∷ text.now ∷ [])) }
    ensures fits { IfOk result (FitsCommand width) }
    ensures fault { IfErr result (RefusesArguments width (word.now ∷ text.now ∷ [])) }
{
    let name = Name::read(text);
    let made = match word {
        "put" => name.map(Act::Put),
        "get" => name.map(Act::Get),
        "rm" => name.map(Act::Remove),
        "stat" => name.map(Act::Stat),
        _ => return Err(WordFault::Usage),
    };
    match made {
        Ok(act) => Ok(Command::Act(act)),
        Err(cause) => Err(WordFault::Name(cause)),
    }
}

/// The command that three words are: one about two clouds, whose numbers differ.
fn read_triple(word: &str, text: &str, other: &str, width: u8) -> Result<Command, WordFault>
    ensures command { IfOk result (IsCommand width (word.now ∷ text.now ∷ other.now ∷ [])) }
    ensures fits { IfOk result (FitsCommand width) }
    ensures fault { IfErr result (RefusesArguments width (word.now ∷ text.now ∷ other.now ∷ [])) }
{
    if word != "restore" {
        return Err(WordFault::Usage);
    }
    let (Some(first), Some(second)) = (read_cloud(text, width), read_cloud(other, width)) else {
        return Err(WordFault::Usage);
    };
    if first == second {
        return Err(WordFault::Usage);
    }
    Ok(Command::Act(Act::Restore {
        first,
        second: Some(second),
    }))
}
