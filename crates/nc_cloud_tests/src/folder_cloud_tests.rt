//! Folders as clouds. What stands in them is the system's word, so tests alone look at it.
ghost use Rattle.nc_name.specs.Keys.{Slots};

use crate::keys::{chunk, meta};
use nc_cloud::{Cloud, CloudError, Got};
use nc_folder::FolderCloud;
use nc_frame::seal;
use nc_name::{Blob, Key, Name};
use std::alloc::Global;
use std::fs;
use std::test::Fail;

fn gave(got: &Got, bytes: &[u8]) -> bool {
    match got {
        Got::Bytes(blob) => blob.bytes() == bytes,
        _ => false,
    }
}

fn failed<T>(answer: &Result<T, CloudError>) -> bool {
    matches!(answer, Err(CloudError::Failed))
}

/// Stores an object under the key.
fn store(alloc: Global, folder: &mut FolderCloud, key: &Key) -> Result<Blob, Fail>
    requires { Slots key.now }
{
    let bytes = seal(alloc, 0, 4, key, &[4, 4])?;
    folder.put(key, bytes.bytes())?;
    Ok(bytes)
}

/// How many of the calls but `list` fail.
fn failures(alloc: Global, folder: &mut FolderCloud, key: &Key) -> Result<u8, Fail>
    requires { Slots key.now }
{
    let bytes = seal(alloc, 0, 4, key, &[4, 4])?;
    let mut count: u8 = 0;
    if failed(&folder.get(key, 58)) {
        count += 1;
    }
    if failed(&folder.put(key, bytes.bytes())) {
        count += 1;
    }
    if failed(&folder.delete(key)) {
        count += 1;
    }
    Ok(count)
}

#[test]
fn objects_are_written_read_listed_and_deleted(rt: HostRuntime) -> Result<(), Fail> {
    fs::create_dir_all(&rt, "scratch_objects")?;
    let (name, other) = (Name::read("a")?, Name::read("b")?);
    let key = chunk(name, 0);
    let mut folder = FolderCloud::open(rt, "scratch_objects")?;
    assert!(rt; matches!(folder.get(&key, 58)?, Got::Absent));
    store(rt.alloc(), &mut folder, &meta(other))?;
    store(rt.alloc(), &mut folder, &meta(name))?;
    store(rt.alloc(), &mut folder, &chunk(other, 0))?;
    let bytes = store(rt.alloc(), &mut folder, &key)?;
    assert!(rt; gave(&folder.get(&key, 58)?, bytes.bytes()));
    assert!(rt; matches!(folder.get(&key, 57)?, Got::Long));
    fs::write(&rt, "scratch_objects/notes.txt", "no key")?;
    let listed = folder.list()?;
    assert_eq!(rt; listed.items().len(), 4);
    for (found, want) in listed
        .items()
        .iter()
        .zip([key, chunk(other, 0), meta(name), meta(other)])
    {
        assert!(rt; found.is_same(&want));
    }
    folder.delete(&key)?;
    folder.delete(&key)?;
    assert!(rt; matches!(folder.get(&key, 58)?, Got::Absent));
    fs::remove_dir_all(&rt, "scratch_objects")?;
    Ok(())
}

#[test]
fn what_is_no_plain_file_is_listed_and_fails(rt: HostRuntime) -> Result<(), Fail> {
    fs::create_dir_all(&rt, "scratch_entries/m-61-0")?;
    let key = meta(Name::read("a")?);
    let mut folder = FolderCloud::open(rt, "scratch_entries")?;
    assert_eq!(rt; folder.list()?.items().len(), 1);
    assert_eq!(rt; failures(rt.alloc(), &mut folder, &key)?, 3);
    fs::remove_dir_all(&rt, "scratch_entries")?;
    Ok(())
}

#[test]
fn what_is_no_folder_fails(rt: HostRuntime) -> Result<(), Fail> {
    fs::write(&rt, "scratch_file", "no folder")?;
    let key = meta(Name::read("a")?);
    for path in ["scratch_missing", "", "scratch_file"] {
        let mut folder = FolderCloud::open(rt, path)?;
        assert_eq!(rt; failures(rt.alloc(), &mut folder, &key)?, 3, "{path}");
        assert!(rt; failed(&folder.list()), "{path}");
    }
    fs::remove_file(&rt, "scratch_file")?;
    Ok(())
}

#[test]
fn a_changed_file_is_given_as_it_is(rt: HostRuntime) -> Result<(), Fail> {
    fs::create_dir_all(&rt, "scratch_changed")?;
    let key = chunk(Name::read("a")?, 0);
    let frame = seal(rt.alloc(), 0, 4, &key, &[4, 4])?;
    let mut folder = FolderCloud::open(rt, "scratch_changed")?;
    folder.put(&key, frame.bytes())?;
    fs::write(&rt, "scratch_changed/c-61-0-0", "NCF1")?;
    assert!(rt; gave(&folder.get(&key, 58)?, b"NCF1"));
    fs::write(&rt, "scratch_changed/c-61-0-0", "")?;
    assert!(rt; gave(&folder.get(&key, 58)?, b""));
    fs::write(&rt, "scratch_changed/c-61-0-0", [7; 59].as_slice())?;
    assert!(rt; matches!(folder.get(&key, 58)?, Got::Long));
    assert_eq!(rt; folder.list()?.items().len(), 1);
    fs::remove_dir_all(&rt, "scratch_changed")?;
    Ok(())
}
