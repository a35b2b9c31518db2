//! What the options of a run choose.

ghost use Rattle.std.specs.Prelude.{◌≡◌, ◌≤◌, ◌<◌, ◌^◌, IfSome, IfNone, None, Some};
ghost use Rattle.clap.specs.Matches.{found_of};
ghost use Rattle.clap.specs.Walk.{first_of, rows_of};
ghost use Rattle.nc_words.specs.Options.{Chooses, ChoosesNothing, GivesNoNumber, GivesNoSeed, GivesNumber, GivesSeed};
ghost use Rattle.nc_words.specs.Settings.{IsSetting};

use crate::numbers::read_number;
use crate::setting::Setting;
use clap::ArgMatches;
use hex::FromHex;

/// The setting that the options choose, where each has a text that fits it.
pub(crate) fn read_setting(matches: &ArgMatches) -> Option<Setting>
    ensures some { IfSome result (Chooses (rows_of (found_of matches.now))) }
    ensures setting { IfSome result IsSetting }
    ensures none { IfNone result (ChoosesNothing (rows_of (found_of matches.now))) }
{
    let seed = read_seed(matches)?;
    let budget = read_within(matches, "budget", 1, 4096)?;
    let workers = read_within(matches, "workers", 1, 16)?;
    Some(Setting {
        seed,
        budget,
        workers: workers as u8,
    })
}

/// The seed that is given.
fn read_seed(matches: &ArgMatches) -> Option<[u8; 32]>
    ensures some { IfSome result (GivesSeed (rows_of (found_of matches.now))) }
    ensures none { IfNone result (GivesNoSeed (rows_of (found_of matches.now))) }
{
    let text = first_text(matches, "seed")?;
    <[u8; 32] as FromHex>::from_hex(text).ok()
}

/// The number that an option is given, where it is one in this range.
fn read_within(matches: &ArgMatches, option: &str, low: u16, high: u16) -> Option<u16>
    ensures some { IfSome result
        (GivesNumber option.now low high (rows_of (found_of matches.now))) }
    ensures none { IfNone result
        (GivesNoNumber option.now low high (rows_of (found_of matches.now))) }
{
    let text = first_text(matches, option)?;
    let number = read_number(text)?;
    if number < u64::from(low) || u64::from(high) < number {
        return None;
    }
    Some(number as u16)
}

/// The first text that an option or a positional word is given.
pub(crate) fn first_text<'a>(matches: &ArgMatches<'a>, id: &str) -> Option<&'a str>
    ensures some { IfSome result
        (λ text. first_of id.now (rows_of (found_of matches.now)) ≡ Some text.now) }
    ensures none { IfNone result (first_of id.now (rows_of (found_of matches.now)) ≡ None) }
{
    matches.get_str(id)
}
