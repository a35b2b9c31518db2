ghost use Rattle.std.specs.Prelude.{◌≡◌, ◌≢◌, ◌+◌, ◌-◌, ◌*◌, ◌/◌, ◌≤◌, ◌<◌, ℕ, List, ◌++◌, Some, IfSome, IfNone, length, take, slice_index};
ghost use Rattle.hex.specs.Hex.{encode_lower};
ghost use Rattle.nc_bytes.specs.Bytes.{AreBytes};
ghost use Rattle.nc_name.specs.declared.key.Key.{Key};
ghost use Rattle.nc_name.specs.Names.{IsName};
ghost use Rattle.nc_name.specs.Keys.{key_text, IsKey, Slots};

use crate::key::Key;
use crate::name::Name;
use nc_bytes::part_of;

/// The key whose text this is. A text that is no key's is one that `Key::text` never gives.
pub fn read_key(text: &str) -> Option<Key>
    ensures some { IfSome result (λ key. IsKey key × (text.now ≡ key_text key)) }
    ensures none { IfNone result ((key : Key) → IsKey key → text.now ≢ key_text key) }
    ensures is { (key : Key) → IsKey key → text.now ≡ key_text key → result ≡ Some key }
{
    let key = likely(text.as_bytes())?;
    if key.text().as_str() == text {
        Some(key)
    } else {
        None
    }
}

/// The one key that may have this text.
fn likely(text: &[u8]) -> Option<Key>
    ensures some { IfSome result IsKey }
    ensures is { (key : Key) → IsKey key → text.now ≡ key_text key → result ≡ Some key }
{
    if text.len() < 4 {
        return None;
    }
    if text[0] == b'm' {
        let name = name_within(text, 2)?;
        let slot = bit_at(text, text.len() - 1);
        Some(Key::Meta { name, slot })
    } else {
        let name = name_within(text, 4)?;
        let slot = bit_at(text, text.len() - 3);
        let row = bit_at(text, text.len() - 1);
        Some(Key::Chunk { name, slot, row })
    }
}

/// 1 for the digit `1`, else 0.
fn bit_at(text: &[u8], at: usize) -> u8
    requires { at < length text.now }
    ensures small { result < 2 }
    ensures is { (bit : ℕ) → bit < 2 → slice_index text.now at ≡ 48 + bit → result ≡ bit }
{
    if text[at] == b'1' { 1 } else { 0 }
}

/// The name whose digits stand between two bytes in front and so many at the end.
fn name_within(text: &[u8], end: usize) -> Option<Name>
    requires { end ≤ 4 }
    ensures name { IfSome result IsName }
    ensures is { (front name back : List ℕ) → length front ≡ 2 → length back ≡ end → IsName name → text.now ≡ front ++ (encode_lower name ++ back) → result ≡ Some name }
{
    if text.len() < 2 + end {
        return None;
    }
    let digits = part_of(text, 2, text.len() - 2 - end);
    if 200 < digits.len() {
        return None;
    }
    let bytes = decoded(digits);
    name_of(part_of(&bytes, 0, digits.len() / 2))
}

/// The bytes of the digits stand in front, if these are digits.
fn decoded(digits: &[u8]) -> [u8; 100]
    requires { length digits.now ≤ 200 }
    ensures { (bytes : List ℕ) → AreBytes bytes → digits.now ≡ encode_lower bytes → take (length bytes) result ≡ bytes }
{
    let mut bytes = [0; 100];
    let (here, _) = bytes.split_at_mut(digits.len() / 2);
    let _ = hex::decode_to_slice(digits, here);
    bytes
}

/// The name of these bytes, if they are one.
fn name_of(bytes: &[u8]) -> Option<Name>
    ensures name { IfSome result IsName }
    ensures is { IsName bytes.now → result ≡ Some bytes.now }
{
    let text = str::from_utf8(bytes).ok()?;
    Name::read(text).ok()
}
