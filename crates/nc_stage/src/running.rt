//! One run of the program over any clouds.

use nc_cloud::Fleet;
use nc_name::Blob;
use nc_run::run;
use nc_stream::{MemSink, MemSource};
use std::alloc::Global;
use std::test::Fail;
use std::thread::Threads;

/// More bytes than a scene has.
const MANY: usize = 134_217_728;

/// How a run is made, beside its words. A read gives at most so many bytes, and a write of the output, or of the fault's line,
/// takes at most so many; reads and writes are numbered from 1 on, and no 0th one fails.
#[derive(Drop)]
pub struct Setup {
    pub input: Vec<u8>,
    pub reads_up_to: usize,
    pub failing_read: u64,
    pub writes_up_to: usize,
    pub failing_write: u64,
    pub tells_up_to: usize,
    pub failing_tell: u64,
}

/// How a run ended: the exit code and the line of its fault, its output, and the input as the run left it.
#[derive(Drop)]
pub struct Outcome {
    pub answer: String,
    pub output: MemSink,
    pub input: MemSource,
}

impl Setup {
    /// This input, all bytes in one call, and nothing that fails.
    pub fn new(input: Vec<u8>) -> Setup {
        Setup {
            input,
            reads_up_to: MANY,
            failing_read: 0,
            writes_up_to: MANY,
            failing_write: 0,
            tells_up_to: MANY,
            failing_tell: 0,
        }
    }

    fn source(&self, alloc: Global) -> Result<MemSource, Fail> {
        let bytes = Blob::from_slice(alloc, self.input.as_slice())?;
        let mut source = MemSource::new(alloc, bytes, self.reads_up_to.max(1));
        source.refuse(self.failing_read)?;
        Ok(source)
    }

    /// Runs these words so.
    pub fn run<R: Threads + Sync + AllocGlobal, F: Fleet>(
        &self,
        rt: &R,
        fleet: &mut F,
        words: &str,
    ) -> Result<Outcome, Fail>
        requires ready { F.ready }
    {
        let alloc = rt.alloc();
        let words = split(alloc, words)?;
        let mut input = self.source(alloc)?;
        let mut output = sink(alloc, self.writes_up_to, self.failing_write)?;
        let mut err = sink(alloc, self.tells_up_to, self.failing_tell)?;
        let status = run(
            rt,
            alloc,
            words.as_slice(),
            fleet,
            &mut input,
            &mut output,
            &mut err,
        );
        Ok(Outcome {
            answer: answer_of(alloc, status.code(), err.bytes())?,
            output,
            input,
        })
    }
}

/// Takes at most so many bytes a call, of which this one fails.
fn sink(alloc: Global, most: usize, failing: u64) -> Result<MemSink, Fail> {
    let mut sink = MemSink::new(alloc, most.max(1));
    sink.refuse(failing)?;
    Ok(sink)
}

/// The words, split at single spaces. The empty text has none.
fn split(alloc: Global, words: &str) -> Result<Vec<String>, Fail> {
    let mut all = Vec::new(alloc);
    if !words.is_empty() {
        for word in words.split(' ') {
            all.push(spelled(alloc, word)?)?;
        }
    }
    Ok(all)
}

/// The text that these letters of a scene stand for.
pub fn spelled(alloc: Global, word: &str) -> Result<String, Fail> {
    let mut text = String::new(alloc);
    for letter in word.chars() {
        text.push(meant(letter))?;
    }
    Ok(text)
}

/// What a letter of a scene stands for.
fn meant(letter: char) -> char {
    match letter {
        '¶' => '\n',
        '·' => ' ',
        other => other,
    }
}

/// The exit code, and what was told of a fault: its line without the program's name, or, with three dots, a beginning of it.
fn answer_of(alloc: Global, code: u8, told: &[u8]) -> Result<String, Fail> {
    if code == 0 && told.is_empty() {
        return Ok(format!(in alloc; "0 Ok")?);
    }
    let told = str::from_utf8(told)?;
    match cause_in(told) {
        Some(cause) => Ok(format!(in alloc; "{code} {cause}")?),
        None => Ok(format!(in alloc; "{code} {told}...")?),
    }
}

/// The cause that a whole line of a fault tells.
fn cause_in(told: &str) -> Option<&str> {
    match told.strip_prefix("nccloud: ") {
        Some(rest) => rest.strip_suffix('\n'),
        None => None,
    }
}
