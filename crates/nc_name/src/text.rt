ghost use Rattle.std.specs.Prelude.{◌≡◌, ◌+◌, ◌*◌, ◌≤◌, ◌<◌, [], ◌∷◌, ◌++◌, length, take};
ghost use Rattle.std.specs.Str.{IsAscii};
ghost use Rattle.hex.specs.Hex.{encode_lower};

use std::marker::Model;

/// The text of a key, at most 206 bytes, seen as the list of its bytes. It takes no memory.
#[derive(Debug, Drop)]
pub struct KeyText {
    bytes: [u8; 206],
    len: u8,
}

impl Model for KeyText {
    ghost use Rattle.std.specs.Prelude.{ℕ, List, take};

    ghost Value = { List ℕ };

    ghost use Rattle.nc_name.specs.Texts.{IsText};

    ghost view = { λ t. take t.len t.bytes };

    ghost invariant = { IsText };
}

impl KeyText {
    /// A letter, `-`, the name in lower-case hexadecimal digits, and the end.
    pub(crate) fn new(letter: u8, name: &[u8], end: &[u8]) -> KeyText
        requires letter { letter < 128 }
        requires name { length name.now ≤ 100 }
        requires end { length end.now ≤ 4 }
        requires ascii { IsAscii end.now }
        ensures { result ≡ (letter ∷ 45 ∷ []) ++ (encode_lower name.now ++ end.now) }
    {
        let mut bytes = [0; 206];
        let end_at = 2 + 2 * name.len();
        put(&mut bytes, 0, &[letter, b'-']);
        put_hex(&mut bytes, 2, name);
        put(&mut bytes, end_at, end);
        KeyText {
            bytes,
            len: (end_at + end.len()) as u8,
        }
    }

    pub fn as_str(&self) -> &str
        ensures { result.now ≡ self.now }
    {
        let bytes = nc_bytes::part_of(&self.bytes, 0, self.len as usize);
        str::from_utf8(bytes).unwrap_or("")
    }
}

/// Writes bytes at a place.
fn put(out: &mut [u8], at: usize, bytes: &[u8])
    requires { at + length bytes.now ≤ length out.old }
    ensures { take (at + length bytes.now) out.new ≡ take at out.old ++ bytes.now }
{
    let (_, rest) = out.split_at_mut(at);
    let (here, _) = rest.split_at_mut(bytes.len());
    here.copy_from_slice(bytes);
}

/// Writes the hexadecimal digits of bytes at a place.
fn put_hex(out: &mut [u8], at: usize, bytes: &[u8])
    requires { at + 2 * length bytes.now ≤ length out.old }
    ensures { take (at + 2 * length bytes.now) out.new ≡ take at out.old ++ encode_lower bytes.now }
{
    let (_, rest) = out.split_at_mut(at);
    let (here, _) = rest.split_at_mut(2 * bytes.len());
    let _ = hex::encode_to_slice(bytes, here);
}
