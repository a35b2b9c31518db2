ghost use Rattle.std.specs.Prelude.{◌≡◌, Some, nat_eq, refl};
ghost use Rattle.std.specs.Cmp.{on_per, on_po, partial_equiv_from_equiv};
ghost use Rattle.std.specs.Cmp.Lexicographic.{nat_list_eq_equiv, on_texts, on_texts_equal, pointwise, slice_cmp, texts_po, texts_ties};
ghost use Rattle.std.specs.Ordering.{nat_cmp, on};
ghost use Rattle.nc_memory.specs.Sites.{key_numbers, site_cmp, site_numbers};

use nc_name::Key;
use std::cmp::Ordering;

/// Where an object stands: on which cloud, and under which key.
#[derive(Clone, Copy, Debug)]
pub struct Site {
    pub cloud: u8,
    pub key: Key,
}

fn key_cmp(a: &Key, b: &Key) -> Ordering
    ensures { result ≡ slice_cmp nat_cmp (key_numbers a.now) (key_numbers b.now) }
{
    match (a, b) {
        (
            Key::Chunk { name, slot, row },
            Key::Chunk {
                name: other,
                slot: s,
                row: r,
            },
        ) => {
            let names = name.bytes().cmp(other.bytes());
            slot.cmp(s).then(row.cmp(r).then(names))
        }
        (
            Key::Meta { name, slot },
            Key::Meta {
                name: other,
                slot: s,
            },
        ) => {
            let names = name.bytes().cmp(other.bytes());
            slot.cmp(s).then(names)
        }
        (Key::Meta { .. }, Key::Chunk { .. }) => Ordering::Less,
        (Key::Chunk { .. }, Key::Meta { .. }) => Ordering::Greater,
    }
}

impl PartialEq for Site {
    ghost eq = { on site_numbers (pointwise nat_eq) };

    ghost laws = { on_per site_numbers (partial_equiv_from_equiv nat_list_eq_equiv) };

    fn eq(&self, other: &Site) -> bool {
        self.cloud == other.cloud && self.key.is_same(&other.key)
    }
}

impl Eq for Site {
    ghost laws = { on_texts_equal site_numbers };
}

impl PartialOrd for Site {
    ghost partial_cmp = { λ x y. Some (site_cmp x y) };

    ghost laws = { on_po site_numbers texts_po };

    fn partial_cmp(&self, other: &Site) -> Option<Ordering> {
        Some(self.cmp(other))
    }
}

impl Ord for Site {
    ghost cmp = { site_cmp };

    ghost total = { on_texts site_numbers };

    ghost matches_partial_cmp = { λ x y. refl };

    ghost matches_eq = { λ x y. texts_ties (site_numbers x) (site_numbers y) };

    fn cmp(&self, other: &Site) -> Ordering {
        self.cloud
            .cmp(&other.cloud)
            .then(key_cmp(&self.key, &other.key))
    }
}
