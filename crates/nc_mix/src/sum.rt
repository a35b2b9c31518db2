ghost use Rattle.std.specs.Prelude.{◌≡◌, [], IfOk};
ghost use Rattle.nc_mix.specs.Sums.{Extends, kept};

use nc_name::{BEHIND, Blob, FRONT, Memory};
use std::alloc::Global;

/// The bytes of a mix so far.
#[derive(Drop)]
pub struct Sum {
    pub bytes: Blob,
    /// No memory was found for some part: the bytes don't count.
    pub refused: bool,
}

impl Sum {
    /// No bytes, and room for so many and a frame around them.
    pub fn with_room(alloc: Global, size: usize) -> Result<Sum, Memory>
        ensures { IfOk result (λ sum. sum ≡ kept []) }
    {
        let bytes = Blob::with_room(alloc, FRONT, size.saturating_add(BEHIND))?;
        Ok(Sum {
            bytes,
            refused: false,
        })
    }

    /// Puts the part at the end, where memory is found for it.
    pub fn append(&mut self, part: &[u8])
        ensures { Extends part.now self.old self.new }
    {
        if self.bytes.append(part).is_err() {
            self.refused = true;
        }
    }

    /// All bytes. It takes no memory; `Memory` says that some part was refused.
    pub fn finish(self) -> Result<Blob, Memory>
        ensures { IfOk result (λ bytes. self ≡ kept bytes) }
    {
        let Sum { bytes, refused } = self;
        if refused {
            return Err(Memory);
        }
        Ok(bytes)
    }
}
