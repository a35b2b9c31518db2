//! Tells what a list of each of these folders answers: `nc_listing FOLDER..`. The gate runs it over data/, where a folder has an
//! entry whose name isn't UTF-8, which no test can make.
#![tactic(auto)]

ghost use Rattle.std.specs.Prelude.{◌≡◌};
ghost use Rattle.nc_listing.specs.Telling.{told};

use nc_cloud::{Cloud, CloudError, KeyList};
use nc_folder::FolderCloud;
use std::{env, io};

fn main(rt: HostRuntime) -> io::Result<()> {
    let words: Vec<String> = env::args(&rt)?.collect(rt.alloc())?;
    for path in words.iter().skip(1) {
        let answer = list(rt, path.as_str());
        println!(rt; "{path}: {answer}")?;
    }
    Ok(())
}

/// What a list of this folder answers.
fn list(rt: HostRuntime, path: &str) -> &'static str {
    match FolderCloud::open(rt, path) {
        Ok(mut folder) => said(&folder.list()),
        Err(_) => "no memory",
    }
}

/// What a list answered.
fn said(answer: &Result<KeyList, CloudError>) -> &'static str
    ensures { result.now ≡ told answer.now }
{
    match answer {
        Ok(keys) if keys.items().is_empty() => "no keys",
        Ok(_) => "keys",
        Err(CloudError::Failed) => "failed",
        Err(CloudError::Memory) => "no memory",
    }
}
