//! What a cloud in memory holds after a delete that failed.
ghost use Rattle.nc_name.specs.Keys.{Slots};

use crate::keys::meta;
use nc_cloud::{Cloud, CloudError, Got};
use nc_frame::seal;
use nc_memory::{MemCloud, Torn};
use nc_name::{Key, Name};
use std::alloc::Global;
use std::test::Fail;

fn gave(got: &Got, len: usize) -> bool {
    match got {
        Got::Bytes(bytes) => bytes.bytes().len() == len,
        _ => false,
    }
}

fn put(alloc: Global, cloud: &mut MemCloud, key: &Key) -> Result<(), CloudError>
    requires { Slots key.now }
{
    let bytes = seal(alloc, 0, 4, key, &[4, 4])?;
    cloud.put(key, bytes.bytes())
}

#[test]
fn a_broken_delete_leaves_an_empty_object(rt: HostRuntime) -> Result<(), Fail> {
    let key = meta(Name::read("a")?);
    let mut cloud = MemCloud::new(rt.alloc());
    cloud.refuse(2, Torn::Broken)?;
    put(rt.alloc(), &mut cloud, &key)?;
    assert!(rt; matches!(cloud.delete(&key), Err(CloudError::Failed)));
    assert!(rt; gave(&cloud.get(&key, 58)?, 0));
    cloud.delete(&key)?;
    cloud.delete(&key)?;
    assert!(rt; matches!(cloud.get(&key, 58)?, Got::Absent));
    Ok(())
}
