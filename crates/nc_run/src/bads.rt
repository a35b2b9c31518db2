//! Clouds that give nothing, in words.
ghost use Rattle.std.specs.Prelude.{◌≡◌, ◌++◌, codes, map};
ghost use Rattle.std.specs.List.{concat};
ghost use Rattle.nc_words.specs.Sending.{Sends};
ghost use Rattle.nc_download.specs.declared.short.Why.TheVariants.{Row};
ghost use Rattle.nc_run.specs.Telling.{bad_text, bads_text, how_text, next_bad, why_text};

use itoa::Buffer;
use nc_download::{Bad, How, ShortList, Why};
use nc_stream::{Failed, Sink};
use nc_words::{send, send_parts};

/// That too few clouds are good, and what each other one lacks.
pub(crate) fn say_short<K: Sink>(out: &mut K, bads: &ShortList) -> Result<(), Failed>
    ensures says { Sends K.Sink (codes "too few clouds: " ++ bads_text bads.now)
        out.old out.new result }
{
    send(out, b"too few clouds: ")?;
    say_bads(out, bads.items())
}

/// All of these clouds, with commas between.
fn say_bads<K: Sink>(out: &mut K, bads: &[Bad]) -> Result<(), Failed>
    ensures says { Sends K.Sink (bads_text bads.now) out.old out.new result }
{
    match bads.split_first() {
        None => Ok(()),
        Some((bad, others)) => say_listed(out, bad, others),
    }
}

/// A cloud, and others after it.
fn say_listed<K: Sink>(out: &mut K, bad: &Bad, others: &[Bad]) -> Result<(), Failed>
    ensures says { Sends K.Sink (bad_text bad.now ++ concat (map next_bad others.now))
        out.old out.new result }
{
    say_bad(out, bad)?;
    say_others(out, others)
}

/// Other clouds, each after a comma.
fn say_others<K: Sink>(out: &mut K, others: &[Bad]) -> Result<(), Failed>
    ensures says { Sends K.Sink (concat (map next_bad others.now)) out.old out.new result }
{
    for bad in others {
        say_next(out, bad)?;
    }
    Ok(())
}

/// Another cloud, after a comma.
fn say_next<K: Sink>(out: &mut K, bad: &Bad) -> Result<(), Failed>
    ensures says { Sends K.Sink (next_bad bad.now) out.old out.new result }
{
    send(out, b", ")?;
    say_bad(out, bad)
}

/// A cloud, and why it gives nothing.
fn say_bad<K: Sink>(out: &mut K, bad: &Bad) -> Result<(), Failed>
    ensures says { Sends K.Sink (bad_text bad.now) out.old out.new result }
{
    let mut buffer = Buffer::new();
    send(out, buffer.format(bad.cloud).as_bytes())?;
    say_why(out, &bad.why)
}

/// Why a cloud gives nothing.
fn say_why<K: Sink>(out: &mut K, why: &Why) -> Result<(), Failed>
    ensures says { Sends K.Sink (why_text why.now) out.old out.new result }
{
    match why {
        Why::Failed => send(out, b" failed"),
        Why::Row { row, how } => say_row(out, *row, *how),
    }
}

/// The chunk of this row isn't good.
fn say_row<K: Sink>(out: &mut K, row: u8, how: How) -> Result<(), Failed>
    ensures says { Sends K.Sink (why_text (Row row how)) out.old out.new result }
{
    let mut buffer = Buffer::new();
    let row = buffer.format(row).as_bytes();
    send_parts(out, &[b" row ", row, b" ", how_word(how)])
}

/// Why a chunk isn't good, in a word.
pub(crate) fn how_word(how: How) -> &'static [u8]
    ensures { result.now ≡ how_text how }
{
    match how {
        How::Missing => b"missing",
        How::Broken => b"broken",
        How::Marked => b"changed",
    }
}
