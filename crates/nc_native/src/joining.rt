ghost use Rattle.std.specs.Prelude.{◌≡◌, ◌≤◌, length, take, IfOk};
ghost use Rattle.std.specs.List.{concat};
ghost use Rattle.nc_native.specs.Native.{natives_of};

use crate::Natives;
use nc_name::{Blob, Memory};
use std::alloc::Global;

/// The first `len` bytes of the natives side by side.
pub fn join(alloc: Global, natives: &Natives, len: u64) -> Result<Blob, Memory>
    requires { len ≤ length (concat natives.now) }
    ensures { IfOk result (λ blob. blob ≡ take len (concat natives.now)) }
{
    let wanted = len as usize;
    let Ok(mut bytes) = Vec::with_capacity(alloc, wanted) else {
        return Err(Memory);
    };
    for native in natives.items() {
        let room = wanted - bytes.len();
        let (front, _) = native.bytes().split_at(room.min(native.bytes().len()));
        if bytes.extend_from_slice(front).is_err() {
            return Err(Memory);
        }
    }
    Ok(Blob::from_vec(bytes))
}

/// What a file was cut into has at least its length, and joined to that length it is the file.
pub fn joins(v: &[u8], width: u8)
    requires wide { 4 ≤ width }
    requires narrow { width ≤ 10 }
    ensures fits { length v.now ≤ length (concat (natives_of v.now width)) }
    ensures whole { take (length v.now) (concat (natives_of v.now width)) ≡ v.now }
{}
