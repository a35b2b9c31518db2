//! What `main` joins: the words of the command line, the folders that the first names, and how the process ends.
ghost use Rattle.std.specs.Prelude.{◌≡◌, ◌==◌, IfOk, OnOk, map, drop, ◌++◌, ◌∷◌, [], string_bytes};
ghost use Rattle.std.specs.List.{slice_split};
ghost use Rattle.std.specs.Process.{exit_status};
ghost use Rattle.nc_folder.specs.Folder.{path_of};
ghost use Rattle.nc_run.specs.Codes.{exit_code};
ghost use Rattle.nccloud.specs.Paths.{folder_paths};

use nc_folder::FolderCloud;
use nc_name::Memory;
use nc_run::Status;
use std::alloc::{AllocError, Global};
use std::process::ExitCode;

/// How the process ends after this.
pub fn ending(status: &Status) -> ExitCode
    ensures { exit_status result ≡ exit_code status.now }
{
    ExitCode::from(status.code())
}

/// The words after the first.
pub fn after_first(words: &[String]) -> &[String]
    ensures { result.now ≡ drop 1 words.now }
{
    match words.split_first() {
        Some((_, rest)) => rest,
        None => words,
    }
}

/// The clouds of the first word: a folder for each part between its commas. No word is no cloud.
pub fn folders(rt: HostRuntime, words: &[String]) -> Result<Vec<FolderCloud>, Memory>
    ensures { IfOk result (λ clouds. map path_of clouds.items ≡ folder_paths (map string_bytes words.now)) }
{
    match words.first() {
        Some(list) => opened(rt, paths(rt.alloc(), list.as_str())?.as_slice()),
        None => Ok(Vec::new(rt.alloc())),
    }
}

/// The parts of a text between its commas.
fn paths(alloc: Global, list: &str) -> Result<Vec<&str>, AllocError>
    ensures { IfOk result (λ paths. map (λ path. path.now) paths.items ≡ slice_split (λ b. b == 44) list.now) }
{
    list.split(',').collect(alloc)
}

/// The folders at these paths.
fn opened(rt: HostRuntime, paths: &[&str]) -> Result<Vec<FolderCloud>, Memory>
    ensures { IfOk result (λ clouds. map path_of clouds.items ≡ map (λ path. path.now) paths.now) }
{
    let mut clouds = Vec::new(rt.alloc());
    for path in paths {
        push_folder(&mut clouds, rt, path)?;
    }
    Ok(clouds)
}

/// A folder more.
fn push_folder(clouds: &mut Vec<FolderCloud>, rt: HostRuntime, path: &str) -> Result<(), Memory>
    ensures { OnOk result (map path_of clouds.new.items ≡ map path_of clouds.old.items ++ path.now ∷ []) }
{
    let folder = FolderCloud::open(rt, path)?;
    match clouds.push(folder) {
        Ok(()) => Ok(()),
        Err(_) => Err(Memory),
    }
}
