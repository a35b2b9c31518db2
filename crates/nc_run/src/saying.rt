//! What an act that was done prints. It takes no memory.
ghost use Rattle.std.specs.Prelude.{◌≡◌, true, false, map, OnErr};
ghost use Rattle.std.specs.List.{concat};
ghost use Rattle.nc_words.specs.Sending.{Sends};
ghost use Rattle.nc_run.specs.Texts.{bytes_text, file_row_text, text_of};
ghost use Rattle.nc_run.specs.Turns.{is_done};

use crate::flaws::say_flaws;
use nc_stream::{Failed, Sink};
use nc_vault::{FileRow, Reply};
use nc_words::{say_about, say_hex, say_number, say_row, send};

/// Tells how an act was done, alone or in a batch. Of one that wasn't, nothing is written.
pub(crate) fn say<K: Sink>(out: &mut K, batch: bool, reply: &Reply) -> Result<(), Failed>
    ensures says { Sends K.Sink (text_of batch reply.now) out.old out.new result }
    ensures done { OnErr result (is_done reply.now ≡ true) }
    ensures quiet { is_done reply.now ≡ false → out.new ≡ out.old }
{
    match reply {
        Reply::Stored { generation } => say_number(out, b"generation ", *generation),
        Reply::Removed { generation } => say_number(out, b"generation ", *generation),
        Reply::Bytes(bytes) => say_bytes(out, batch, bytes.bytes()),
        Reply::Listing(rows) => say_rows(out, rows.items()),
        Reply::About {
            generation,
            len,
            witnessed,
        } => say_about(out, *generation, *len, *witnessed),
        Reply::Repaired { files } => say_number(out, b"repaired ", *files),
        Reply::Restored { objects } => say_number(out, b"restored ", *objects),
        Reply::Settled { names } => say_number(out, b"settled ", *names),
        Reply::Damage(flaws) => say_flaws(out, flaws.items()),
        Reply::Stopped { .. } => Ok(()),
    }
}

/// A file's bytes: as they are, or in a batch as a line of digits.
fn say_bytes<K: Sink>(out: &mut K, batch: bool, bytes: &[u8]) -> Result<(), Failed>
    ensures says { Sends K.Sink (bytes_text batch bytes.now) out.old out.new result }
{
    if batch {
        return say_hex(out, bytes);
    }
    send(out, bytes)
}

/// All files, a line for each.
fn say_rows<K: Sink>(out: &mut K, rows: &[FileRow]) -> Result<(), Failed>
    ensures says { Sends K.Sink (concat (map file_row_text rows.now)) out.old out.new result }
{
    for row in rows {
        say_file(out, row)?;
    }
    Ok(())
}

/// One file: how many bytes it has, and its name.
fn say_file<K: Sink>(out: &mut K, row: &FileRow) -> Result<(), Failed>
    ensures says { Sends K.Sink (file_row_text row.now) out.old out.new result }
{
    say_row(out, row.len, row.name.bytes())
}
