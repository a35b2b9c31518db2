//! What a scrub prints: a line for each part that isn't right. It takes no memory.
ghost use Rattle.std.specs.Prelude.{◌≡◌, map};
ghost use Rattle.std.specs.List.{concat};
ghost use Rattle.nc_words.specs.Sending.{Sends};
ghost use Rattle.nc_run.specs.Texts.{named_flaw_text, row_of, state_text};

use nc_scrub::{Part, State};
use nc_stream::{Failed, Sink};
use nc_vault::NamedFlaw;
use nc_words::say_flaw;

/// All parts that aren't right, a line for each.
pub(crate) fn say_flaws<K: Sink>(out: &mut K, flaws: &[NamedFlaw]) -> Result<(), Failed>
    ensures says { Sends K.Sink (concat (map named_flaw_text flaws.now)) out.old out.new result }
{
    for flaw in flaws {
        say_named(out, flaw)?;
    }
    Ok(())
}

/// One part that isn't right.
fn say_named<K: Sink>(out: &mut K, named: &NamedFlaw) -> Result<(), Failed>
    ensures says { Sends K.Sink (named_flaw_text named.now) out.old out.new result }
{
    let flaw = named.flaw;
    let state = state_word(&flaw.state);
    say_flaw(
        out,
        flaw.cloud,
        row_in(flaw.part),
        state,
        named.name.bytes(),
    )
}

/// The row of a chunk; metadata has none.
fn row_in(part: Part) -> Option<u8>
    ensures { result ≡ row_of part }
{
    match part {
        Part::Meta => None,
        Part::Chunk(row) => Some(row),
    }
}

/// Why a part isn't right, in a word.
fn state_word(state: &State) -> &[u8]
    ensures { result.now ≡ state_text state.now }
{
    match *state {
        State::Missing => b"missing",
        State::Broken => b"broken",
        State::Old => b"old",
        State::Marked => b"changed",
    }
}
