ghost use Rattle.std.specs.Prelude.{◌≡◌, ◌↔◌, IsTrue};

use crate::meta::{Live, Meta};
use nc_code::{Witnesses, same_code, same_witnesses};

/// Whether two metas are equal.
pub fn same_meta(a: &Meta, b: &Meta) -> bool
    ensures { IsTrue result ↔ (a.now ≡ b.now) }
{
    match (a, b) {
        (Meta::Live(a), Meta::Live(b)) => same_live(a, b),
        (Meta::Gone { generation }, Meta::Gone { generation: other }) => generation == other,
        _ => false,
    }
}

fn same_live(a: &Live, b: &Live) -> bool
    ensures { IsTrue result ↔ (a.now ≡ b.now) }
{
    a.generation == b.generation
        && a.len == b.len
        && same_code(&a.code, &b.code)
        && same_slots(&a.slots, &b.slots)
        && same_marks(&a.marks, &b.marks)
        && same_plans(&a.witnesses, &b.witnesses)
}

fn same_slots(a: &[u8; 10], b: &[u8; 10]) -> bool
    ensures { IsTrue result ↔ (a.now ≡ b.now) }
{
    a == b
}

fn same_marks(a: &[[u8; 32]; 20], b: &[[u8; 32]; 20]) -> bool
    ensures { IsTrue result ↔ (a.now ≡ b.now) }
{
    a == b
}

fn same_plans(a: &Option<Witnesses>, b: &Option<Witnesses>) -> bool
    ensures { IsTrue result ↔ (a.now ≡ b.now) }
{
    match (a, b) {
        (None, None) => true,
        (Some(a), Some(b)) => same_witnesses(a, b),
        _ => false,
    }
}
