use crate::fault::Fault;
use std::alloc::Global;

/// So many bytes, which go through 251 values again and again.
pub fn bytes_of(alloc: Global, count: usize) -> Result<Vec<u8>, Fault> {
    let bytes = (0..count).map(|i| (i % 251) as u8).collect(alloc)?;
    Ok(bytes)
}
