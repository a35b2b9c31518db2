ghost use Rattle.std.specs.Prelude.{◌≡◌, ℕ, IfOk, IfSome, IfNone};
ghost use Rattle.nc_meta.specs.Metas.{SpellsGone, gone_spelling};

use crate::tables::is_generation;
use nc_bytes::{is_same, part_of, u64_at, u64_bytes};
use nc_name::Memory;
use std::alloc::Global;

/// The generation of a deleted file.
pub(crate) fn read_gone(payload: &[u8]) -> Option<u64>
    ensures some { IfSome result (SpellsGone payload.now) }
    ensures none { IfNone result ((generation : ℕ) → SpellsGone payload.now generation → ⊥) }
{
    if payload.len() != 13 {
        return None;
    }
    if !is_same(part_of(payload, 0, 5), b"NCM1\x00") {
        return None;
    }
    let generation = u64_at(payload, 5);
    if is_generation(generation) {
        Some(generation)
    } else {
        None
    }
}

#[tactic(auto, unfolding(crate::specs::Metas::gone_spelling))]
pub(crate) fn gone_bytes(alloc: Global, generation: u64) -> Result<Vec<u8>, Memory>
    ensures { IfOk result (λ bytes. bytes.items ≡ gone_spelling generation) }
{
    let mut bytes = Vec::with_capacity(alloc, 13)?;
    bytes.extend_from_slice(b"NCM1\x00")?;
    bytes.extend_from_slice(&u64_bytes(generation))?;
    Ok(bytes)
}
