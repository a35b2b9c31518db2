ghost use Rattle.std.specs.Prelude.{◌≡◌, ◌↔◌, IsTrue};
ghost use Rattle.nc_name.specs.Keys.{name_of, key_text, Slots};

use crate::name::Name;
use crate::text::KeyText;

/// What an object is stored under. Slot and row are 0 or 1.
#[derive(Clone, Copy, Debug)]
pub enum Key {
    /// The metadata of a file.
    Meta { name: Name, slot: u8 },
    /// One of the two chunks that a cloud holds of a file.
    Chunk { name: Name, slot: u8, row: u8 },
}

impl Key {
    /// The name of the file.
    pub fn name(&self) -> &Name
        ensures { result.now ≡ name_of self.now }
    {
        match self {
            Key::Meta { name, .. } => name,
            Key::Chunk { name, .. } => name,
        }
    }

    /// The text of the key: `m-HEX-SLOT` or `c-HEX-SLOT-ROW`, where HEX is the name in lower-case hexadecimal digits.
    #[tactic(auto, unfolding(crate::specs::Keys::key_text))]
    pub fn text(&self) -> KeyText
        requires { Slots self.now }
        ensures { result ≡ key_text self.now }
    {
        match self {
            Key::Meta { name, slot } => KeyText::new(b'm', name.bytes(), &[b'-', b'0' + *slot]),
            Key::Chunk { name, slot, row } => {
                KeyText::new(b'c', name.bytes(), &[b'-', b'0' + *slot, b'-', b'0' + *row])
            }
        }
    }

    /// Whether two keys are the same.
    pub fn is_same(&self, other: &Key) -> bool
        ensures { IsTrue result ↔ (self.now ≡ other.now) }
    {
        match (self, other) {
            (
                Key::Meta { name, slot },
                Key::Meta {
                    name: other_name,
                    slot: other_slot,
                },
            ) => { name.is_same(other_name) && slot == other_slot }
            (
                Key::Chunk { name, slot, row },
                Key::Chunk {
                    name: other_name,
                    slot: other_slot,
                    row: other_row,
                },
            ) => name.is_same(other_name) && slot == other_slot && row == other_row,
            _ => false,
        }
    }
}
