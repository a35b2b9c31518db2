//! Writes bytes, and texts in parts.
ghost use Rattle.std.specs.Prelude.{map};
ghost use Rattle.std.specs.List.{concat};
ghost use Rattle.nc_words.specs.Sending.{Sends};

use nc_stream::{Failed, Sink};

/// Writes these bytes.
pub fn send<K: Sink>(out: &mut K, bytes: &[u8]) -> Result<(), Failed>
    ensures sends { Sends K.Sink bytes.now out.old out.new result }
{
    nc_stream::send(out, bytes)
}

/// Writes these parts, one after the other.
pub fn send_parts<K: Sink>(out: &mut K, parts: &[&[u8]]) -> Result<(), Failed>
    ensures sends { Sends K.Sink (concat (map (λ part. part.now) parts.now))
        out.old out.new result }
{
    for part in parts {
        send(out, part)?;
    }
    Ok(())
}
