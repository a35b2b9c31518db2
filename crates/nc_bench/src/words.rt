//! The words of the command line.

ghost use Rattle.std.specs.Prelude.{◌≤◌};

use crate::fault::Fault;
use std::alloc::Global;

/// As many bytes as a put takes.
const MOST: usize = 1 << 26;

/// What is timed.
#[derive(Clone, Copy, Debug)]
pub enum Job {
    Kernel(Kernel),
    Encode(Mixing),
    Decode(Mixing),
}

/// So many passes a turn of `dst ^= c * src` over so many bytes.
#[derive(Clone, Copy, Debug)]
pub struct Kernel {
    pub bytes: usize,
    pub passes: u32,
    pub turns: u32,
}

/// The chunks of a file of so many bytes, or the file of its chunks, by so many workers.
#[derive(Clone, Copy, Debug)]
pub struct Mixing {
    pub width: u8,
    pub bytes: usize,
    pub workers: u8,
    pub turns: u32,
    ghost wide: { 4 ≤ width },
    ghost narrow: { width ≤ 10 },
    ghost some_worker: { 1 ≤ workers },
    ghost few_workers: { workers ≤ 16 },
}

/// What the words after the program's name ask for.
pub fn job_of(alloc: Global, line: &[String]) -> Result<Job, Fault> {
    let words = line
        .iter()
        .map(|word| word.as_str())
        .collect::<Vec<&str>>(alloc)?;
    match *words {
        [_, "kernel", bytes, passes, turns] => Ok(Job::Kernel(kernel_of(bytes, passes, turns)?)),
        [_, "encode", ref rest @ ..] => Ok(Job::Encode(mixing_of(rest)?)),
        [_, "decode", ref rest @ ..] => Ok(Job::Decode(mixing_of(rest)?)),
        _ => Err(Fault::Usage),
    }
}

fn kernel_of(bytes: &str, passes: &str, turns: &str) -> Result<Kernel, Fault> {
    let bytes = byte_count(bytes)?;
    let Ok(passes) = passes.parse() else {
        return Err(Fault::Usage);
    };
    let turns = turns_of(turns)?;
    Ok(Kernel {
        bytes,
        passes,
        turns,
    })
}

fn mixing_of(words: &[&str]) -> Result<Mixing, Fault> {
    let [width, bytes, workers, turns] = *words else {
        return Err(Fault::Usage);
    };
    let (Ok(width), Ok(workers)) = (width.parse(), workers.parse()) else {
        return Err(Fault::Usage);
    };
    if width < 4 || width > 10 || workers < 1 || workers > 16 {
        return Err(Fault::Usage);
    }
    let bytes = byte_count(bytes)?;
    let turns = turns_of(turns)?;
    Ok(Mixing {
        width,
        bytes,
        workers,
        turns,
    })
}

fn byte_count(word: &str) -> Result<usize, Fault> {
    match word.parse() {
        Ok(bytes) if bytes <= MOST => Ok(bytes),
        _ => Err(Fault::Usage),
    }
}

/// There is a least time of one turn or more.
fn turns_of(word: &str) -> Result<u32, Fault> {
    match word.parse() {
        Ok(0) | Err(_) => Err(Fault::Usage),
        Ok(turns) => Ok(turns),
    }
}
