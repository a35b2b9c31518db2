ghost use Rattle.std.specs.Prelude.{◌∷◌, []};
ghost use Rattle.std.specs.List.{concat};
ghost use Rattle.nc_words.specs.Sending.{Sends};

use itoa::{Buffer, Integer};
use nc_stream::{Failed, Sink};
use nc_words::send_parts;

/// Writes a number between two words.
pub(crate) fn say_one<K: Sink, N: Integer>(
    out: &mut K,
    front: &[u8],
    number: N,
    back: &[u8],
) -> Result<(), Failed>
    ensures says { Sends K.Sink (concat (front.now ∷ N.text number ∷ back.now ∷ []))
        out.old out.new result }
{
    let mut buffer = Buffer::new();
    send_parts(out, &[front, buffer.format(number).as_bytes(), back])
}
