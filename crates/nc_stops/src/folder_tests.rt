//! Runs over folders. What stands in them is the system's word, so tests alone look at it.

use nc_cloud::Fanned;
use nc_folder::FolderCloud;
use nc_stage::check_run;
use std::fs;
use std::test::Fail;

/// Four folders.
static LIST: &str = "scratch_file/0,scratch_file/1,scratch_file/2,scratch_file/3";

/// A file is repaired on an emptied folder, read without two others, restored on these, and removed.
static REPAIRED: &str = r#"
    put photos.db < mixed:3000000 -> 0 Ok = generation:1
    long scratch_file/2/c-70686f746f732e6462-0-1 750072
    raze scratch_file/2
    make scratch_file/2
    repair 2 -> 0 Ok = "repaired·1¶"
    long scratch_file/2/c-70686f746f732e6462-1-0 750072
    long scratch_file/2/c-70686f746f732e6462-1-1 750072
    lacks scratch_file/1/c-70686f746f732e6462-1-0
    raze scratch_file/0
    make scratch_file/0
    raze scratch_file/3
    make scratch_file/3
    get photos.db -> 0 Ok = mixed:3000000
    restore 0 3 -> 0 Ok = "restored·4¶"
    has scratch_file/0/c-70686f746f732e6462-0-0
    has scratch_file/3/c-70686f746f732e6462-0-1
    scrub -> 0 Ok
    batch < "rm·photos.db¶get·photos.db¶" -> 3 line 2: no such file = generation:3"#;

/// A file is written over, and what is no chunk, or a folder in a chunk's place, stands in one of the folders.
static CHANGED: &str = r#"
    put a < mixed:300000 -> 0 Ok = generation:1
    get a -> 0 Ok = mixed:300000
    write scratch_file/0/c-61-0-0
    get a -> 0 Ok = mixed:300000
    remove scratch_file/2/c-61-0-1
    get a -> 0 Ok = mixed:300000
    lacks scratch_file/2/m-61-0
    put a < mixed:5 -> 0 Ok = generation:2
    get a -> 0 Ok = mixed:5
    lacks scratch_file/2/c-61-0-0
    lacks scratch_file/2/c-61-0-1
    has scratch_file/2/c-61-1-0
    has scratch_file/2/c-61-1-1
    has scratch_file/2/m-61-0
    lacks scratch_file/2/m-61-1
    make scratch_file/2/c-61-0-1
    get a -> 0 Ok = mixed:5
    put a < mixed:4 -> 4 cloud 2 failed
    get a -> 0 Ok = mixed:5
    raze scratch_file/2/c-61-0-1
    put a < mixed:4 -> 0 Ok = generation:3
    get a -> 0 Ok = mixed:4
    rm a -> 0 Ok = generation:4
    has scratch_file/2/m-61-0
    lacks scratch_file/2/m-61-1
    lacks scratch_file/2/c-61-0-0
    lacks scratch_file/2/c-61-0-1
    ls -> 0 Ok
    put a < mixed:4 -> 0 Ok = generation:5
    ls -> 0 Ok = "4·a¶"
    stat a -> 0 Ok = "generation·5·length·4·witnesses·yes¶"
    remove scratch_file/2/c-61-0-1
    make scratch_file/2/c-61-0-1
    get a -> 0 Ok = mixed:4
    recover -> 0 Ok = "settled·2¶""#;

/// Folders go one after the other.
static RAZED: &str = r#"
    raze scratch_file/3
    get a -> 0 Ok = mixed:4
    get b -> 3 no such file
    put b -> 4 cloud 3 failed
    scrub -> 4 after 0 names: cloud 3 failed
    restore 0 -> 4 after 0 names: cloud 3 failed
    raze scratch_file/1
    get a -> 5 too few clouds: 1 failed, 2 failed, 3 failed
    get b -> 3 no such file
    put b -> 4 cloud 1 failed
    write scratch_file/1
    get b -> 3 no such file
    put b -> 4 cloud 1 failed
    raze scratch_file/0
    get b -> 4 cloud 0 failed"#;

/// The clouds of this list of folders, or none where there is no list.
fn clouds_of(rt: HostRuntime, list: Option<&str>) -> Result<Vec<FolderCloud>, Fail> {
    let mut clouds = Vec::new(rt.alloc());
    if let Some(list) = list {
        for path in list.split(',') {
            clouds.push(FolderCloud::open(rt, path)?)?;
        }
    }
    Ok(clouds)
}

/// Makes four folders, without what an earlier run left there.
fn make_folders(rt: &HostRuntime) -> Result<(), Fail> {
    if fs::exists(rt, "scratch_file")? {
        fs::remove_dir_all(rt, "scratch_file")?;
    }
    for folder in LIST.split(',') {
        fs::create_dir_all(rt, folder)?;
    }
    Ok(())
}

/// What is done at this path: a file is written or removed, or a folder made or removed with all that stands in it. Or what
/// must stand there: something, nothing, or a file of so many bytes.
fn perform(rt: &HostRuntime, act: &str, path: &str) -> Result<(), Fail> {
    match act {
        "write" => fs::write(rt, path, "NCF1")?,
        "remove" => fs::remove_file(rt, path)?,
        "make" => fs::create_dir(rt, path)?,
        "raze" => fs::remove_dir_all(rt, path)?,
        "has" => check_stands(rt, path, true)?,
        "lacks" => check_stands(rt, path, false)?,
        "long" => check_long(rt, path)?,
        _ => return Err(Fail::new("no such act")),
    }
    Ok(())
}

fn check_stands(rt: &HostRuntime, path: &str, wanted: bool) -> Result<(), Fail> {
    if fs::exists(rt, path)? == wanted {
        Ok(())
    } else {
        Err(Fail::new(format_args!("what stands at {path}")))
    }
}

/// A path, and after it how many bytes the file there must have.
fn check_long(rt: &HostRuntime, words: &str) -> Result<(), Fail> {
    let (path, wanted) = words.split_once(' ').ok_or("no length")?;
    let wanted: u64 = wanted.parse()?;
    if fs::metadata(rt, path)?.len() == wanted {
        Ok(())
    } else {
        Err(Fail::new(format_args!("how long {path} is")))
    }
}

#[test]
fn a_file_stands_in_folders(rt: HostRuntime) -> Result<(), Fail> {
    make_folders(&rt)?;
    let mut fleet = Fanned::new(rt, rt.alloc(), clouds_of(rt, Some(LIST))?)?;
    for scene in [REPAIRED, CHANGED, RAZED] {
        for line in scene.lines() {
            let line = line.trim();
            if let Some((words, end)) = line.split_once(" -> ") {
                check_run(&rt, &mut fleet, words, end)?;
            } else if let Some((act, path)) = line.split_once(' ') {
                perform(&rt, act, path)?;
            }
        }
    }
    fs::remove_dir_all(&rt, "scratch_file")?;
    Ok(())
}

/// The folders in brackets, if any are given, the words, and how their run ends.
#[test]
fn lists_that_are_refused_make_no_folder(rt: HostRuntime) -> Result<(), Fail> {
    let scene = "
        put a -> 2 width 0 is not 4 to 10
        []: put a -> 2 width 1 is not 4 to 10
        [scratch_none/0,scratch_none/1,scratch_none/2]: put a -> 2 width 3 is not 4 to 10
        [scratch_none/0,scratch_none/1,scratch_none/2,scratch_none/3,scratch_none/4,scratch_none/5,scratch_none/6,scratch_none/7,scratch_none/8,scratch_none/9,scratch_none/10]: put a -> 2 width 11 is not 4 to 10
        [,,,]: put a -> 4 cloud 0 failed
        [,,,]: get a -> 4 cloud 0 failed
        [scratch_none/0,,,]: get a -> 4 cloud 0 failed";
    for line in scene.lines() {
        if let Some((run, end)) = line.trim().split_once(" -> ") {
            let (list, words) = match run.split_once(": ") {
                Some((list, words)) => (Some(list.trim_matches(['[', ']'])), words),
                None => (None, run),
            };
            let mut fleet = Fanned::new(rt, rt.alloc(), clouds_of(rt, list)?)?;
            check_run(&rt, &mut fleet, words, end)?;
        }
    }
    assert!(rt; !fs::exists(&rt, "scratch_none")?);
    Ok(())
}
