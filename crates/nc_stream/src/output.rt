ghost use Rattle.std.specs.Prelude.{OnOk};
ghost use Rattle.std.specs.Io.KnownBytes.{Appends};
ghost use Rattle.nc_stream.specs.Counts.{HasCount};
ghost use Rattle.nc_stream.specs.Output.{AppendsSome};

use crate::failed::Failed;
use crate::sink::Sink;

/// Writes all these bytes.
pub fn send<K: Sink>(out: &mut K, bytes: &[u8]) -> Result<(), Failed>
    ensures ok { OnOk result (Appends (K.written out.old) (K.written out.new) bytes.now) }
    ensures some { AppendsSome (K.written out.old) (K.written out.new) bytes.now }
    ensures cause { HasCount K.counts_exactly (K.faults out.old) (K.faults out.new) result }
{
    let mut rest = bytes;
    while !rest.is_empty() {
        match out.write(rest) {
            Ok(n) => {
                let (_, left) = rest.split_at(n);
                rest = left;
            }
            Err(fault) => return Err(fault),
        }
    }
    Ok(())
}
