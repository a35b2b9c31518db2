ghost use Rattle.std.specs.Prelude.{◌≡◌, IfOk, IsSome, IsTrue};
ghost use Rattle.std.specs.IoError.{raw_os_error};
ghost use Rattle.nc_folder.specs.declared.files.Trouble.TheVariants.{System, Memory as NoMemory};
ghost use Rattle.nc_name.specs.Keys.{Slots};
ghost use Rattle.nc_cloud.specs.Cloud.{AreSorted};

use nc_cloud::{Got, KeyList, sorted_keys};
use nc_name::{Blob, Key, Memory, read_key};
use std::alloc::{AllocError, AllocFailed, Global};
use std::fs::{Metadata, OpenFile};
use std::io::{ErrorKind, Read, Write};
use std::{fs, io};

/// Why the files of a folder didn't do what was asked for.
#[derive(Clone, Copy, Debug, PartialEq, Eq)]
pub enum Trouble {
    /// The system answered an error, or something stands there that isn't a plain file.
    System,
    /// No memory was found.
    Memory,
}

impl From<AllocError> for Trouble {
    ghost from_gives = { λ _ trouble. trouble ≡ NoMemory };

    fn from(_: AllocError) -> Self {
        Trouble::Memory
    }
}

impl<T: Drop> From<AllocFailed<T>> for Trouble {
    ghost from_gives = { λ _ trouble. trouble ≡ NoMemory };

    fn from(_: AllocFailed<T>) -> Self {
        Trouble::Memory
    }
}

impl From<Memory> for Trouble {
    ghost from_gives = { λ _ trouble. trouble ≡ NoMemory };

    fn from(_: Memory) -> Self {
        Trouble::Memory
    }
}

impl From<io::Error> for Trouble {
    ghost from_gives = { λ e trouble. IsSome (raw_os_error e) → trouble ≡ System };

    /// The library's own want of memory carries no number of the system.
    fn from(e: io::Error) -> Self {
        if e.raw_os_error().is_none() && e.kind() == ErrorKind::OutOfMemory {
            Trouble::Memory
        } else {
            Trouble::System
        }
    }
}

/// Whether the key has a text: slot and row are 0 or 1.
fn has_text(key: &Key) -> bool
    ensures { IsTrue result → Slots key.now }
{
    match key {
        Key::Meta { slot, .. } => *slot < 2,
        Key::Chunk { slot, row, .. } => *slot < 2 && *row < 2,
    }
}

/// The path of an object. A key without a text has none, and no file stands in a folder without a name.
fn path_of(alloc: Global, folder: &str, key: &Key) -> Result<String, Trouble> {
    if folder.is_empty() || !has_text(key) {
        return Err(Trouble::System);
    }
    let mut path = String::from_str(alloc, folder)?;
    path.push('/')?;
    path.push_str(key.text().as_str())?;
    Ok(path)
}

/// What stands at a path: a plain file, or nothing in a folder that is there.
fn file_at(rt: &HostRuntime, folder: &str, path: &str) -> Result<Option<Metadata>, Trouble> {
    match fs::symlink_metadata(rt, path) {
        Ok(metadata) if metadata.is_file() => Ok(Some(metadata)),
        Ok(_) => Err(Trouble::System),
        Err(e) if e.kind() == ErrorKind::NotFound => {
            if fs::metadata(rt, folder)?.is_dir() {
                Ok(None)
            } else {
                Err(Trouble::System)
            }
        }
        Err(e) => Err(Trouble::from(e)),
    }
}

/// The bytes of a file of this length. A read that gives another number of them is cut short, or the file changed. There is room for
/// one byte more, so that the read that finds the end takes no memory.
fn read_whole(rt: &HostRuntime, alloc: Global, path: &str, len: usize) -> Result<Blob, Trouble> {
    let mut bytes = Vec::with_capacity(alloc, len.saturating_add(1))?;
    let mut file = fs::open(rt, path)?.take((len as u64).saturating_add(1));
    file.read_to_end(&mut bytes)?;
    if bytes.len() == len {
        Ok(Blob::from_vec(bytes))
    } else {
        Err(Trouble::System)
    }
}

pub fn get(
    rt: &HostRuntime,
    alloc: Global,
    folder: &str,
    key: &Key,
    most: u64,
) -> Result<Got, Trouble> {
    let path = path_of(alloc, folder, key)?;
    match file_at(rt, folder, path.as_str())? {
        None => Ok(Got::Absent),
        Some(metadata) if metadata.len() <= most => {
            let len = metadata.len() as usize;
            Ok(Got::Bytes(read_whole(rt, alloc, path.as_str(), len)?))
        }
        Some(_) => Ok(Got::Long),
    }
}

/// Writes a file, syncs it and closes it. Then the folder is synced, which holds its name: a file that is there already may
/// be of a put that didn't come so far.
pub fn put(
    rt: &HostRuntime,
    alloc: Global,
    folder: &str,
    key: &Key,
    bytes: &[u8],
) -> Result<(), Trouble> {
    let path = path_of(alloc, folder, key)?;
    let _before = file_at(rt, folder, path.as_str())?;
    let mut file = fs::create(rt, path.as_str())?;
    file.write_all(bytes)?;
    file.sync_all()?;
    fs::open(rt, folder)?.sync_all()?;
    Ok(())
}

pub fn delete(rt: &HostRuntime, alloc: Global, folder: &str, key: &Key) -> Result<(), Trouble> {
    let path = path_of(alloc, folder, key)?;
    if file_at(rt, folder, path.as_str())?.is_some() {
        fs::remove_file(rt, path.as_str())?;
    }
    Ok(())
}

/// The keys whose texts are names in a folder. A name that is no key's is passed over.
fn keys_in(rt: &HostRuntime, alloc: Global, folder: &str) -> Result<Vec<Key>, Trouble> {
    let mut keys = Vec::new(alloc);
    for entry in fs::read_dir(rt, folder)? {
        let entry = entry?;
        if let Some(key) = read_key(entry.file_name()) {
            keys.push(key)?;
        }
    }
    Ok(keys)
}

/// The keys of all files, sorted by their texts, each once.
pub fn list(rt: &HostRuntime, alloc: Global, folder: &str) -> Result<KeyList, Trouble>
    ensures { IfOk result AreSorted }
{
    if folder.is_empty() {
        return Err(Trouble::System);
    }
    let keys = keys_in(rt, alloc, folder)?;
    Ok(sorted_keys(alloc, keys)?)
}
