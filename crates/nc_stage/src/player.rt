//! Plays scenes over clouds in memory, and tells the first line that ends otherwise than it must.

use crate::checks::{check_number, check_same, check_unread};
use crate::clouds::{NONE, all_clouds, arranged, count, image_of, keys};
use crate::ending::{End, check_end, end_of};
use crate::running::{Setup, spelled};
use crate::value::bytes_of;
use nc_memory::{MemFleet, Torn};
use nc_name::Key;
use std::alloc::Global;
use std::mem;
use std::test::Fail;
use std::thread::Threads;

/// The ways in which an entry fails, in the order of the numbers after `leaving`.
pub static FATES: [Torn; 4] = [Torn::Old, Torn::New, Torn::Gone, Torn::Broken];

/// Where a scene stands.
#[derive(Drop)]
pub struct Stage {
    pub alloc: Global,
    pub keys: Vec<Key>,
    pub clouds: MemFleet,
    /// The clouds before the last run.
    pub before: MemFleet,
    pub next: Setup,
    /// An entry of the next run that fails, and what it leaves.
    pub failing: (u64, Torn),
    /// The lines of a batch that has no other input.
    lines: Vec<u8>,
    /// Whether more lines are added to these. Else the next one is the first.
    adding: bool,
}

/// Plays these scenes.
pub fn play<R: Threads + Sync + AllocGlobal + Eprint>(rt: &R, scenes: &str) -> Result<(), Fail> {
    let mut stage = Stage::new(rt.alloc(), 0)?;
    let mut number = 0_u32;
    for line in scenes.lines() {
        number = number.saturating_add(1);
        if let Err(fail) = stage.perform(rt, line.trim()) {
            let _ = eprintln!(rt; "line {number}: {line}");
            return Err(fail);
        }
    }
    Ok(())
}

impl Stage {
    pub fn new(alloc: Global, width: usize) -> Result<Stage, Fail> {
        Ok(Stage {
            alloc,
            keys: keys(alloc)?,
            clouds: MemFleet::new(alloc, width)?,
            before: MemFleet::new(alloc, width)?,
            next: Setup::new(Vec::new(alloc)),
            failing: (0, Torn::Old),
            lines: Vec::new(alloc),
            adding: false,
        })
    }

    fn perform<R: Threads + Sync + AllocGlobal>(&mut self, rt: &R, line: &str) -> Result<(), Fail> {
        if line.starts_with('#') {
            return Ok(());
        }
        if let Some(text) = line.strip_prefix('|') {
            return self.add_line(text.trim_start());
        }
        self.adding = false;
        match line.split_once(" -> ") {
            Some((run, end)) => self.perform_run(rt, run, &end_of(end)),
            None => match line.split_once(": ") {
                Some((how, words)) => self.stop(rt, how, words),
                None => self.step(line),
            },
        }
    }

    /// Does a line without a run.
    fn step(&mut self, line: &str) -> Result<(), Fail> {
        let words: Vec<&str> = line.split_whitespace().collect(self.alloc)?;
        if words.is_empty()
            || self.prepare(&words)?
            || self.change(&words)?
            || self.stands(&words)?
        {
            return Ok(());
        }
        Err(Fail::new("no such line"))
    }

    /// Adds a line to the batches that follow.
    fn add_line(&mut self, text: &str) -> Result<(), Fail> {
        if !self.adding {
            self.lines = Vec::new(self.alloc);
            self.adding = true;
        }
        let text = spelled(self.alloc, text)?;
        self.lines.extend_from_slice(text.as_bytes())?;
        self.lines.push(b'\n')?;
        Ok(())
    }

    fn perform_run<R: Threads + Sync + AllocGlobal>(
        &mut self,
        rt: &R,
        run: &str,
        end: &End<'_>,
    ) -> Result<(), Fail> {
        let (how, words) = match run.split_once(": ") {
            Some(parts) => parts,
            None => ("", run),
        };
        if how.contains(" stops ") || how.contains(" bears ") {
            return self.perform_interrupted(rt, how, words, end);
        }
        let words = self.take_input(words)?;
        let how: Vec<&str> = how.split_whitespace().collect(self.alloc)?;
        match *how {
            [] => self.run(rt, words, end),
            ["without", "two"] => self.run_without_two(rt, words, end),
            ["refused"] => self.run_refused(rt, words, end),
            ["failing", ..] => self.run_failing(rt, &how, words, end),
            _ => Err(Fail::new("no such run")),
        }
    }

    /// Sets the input that stands after the words, or the lines of a batch, and answers the words.
    fn take_input<'a>(&mut self, words: &'a str) -> Result<&'a str, Fail> {
        match words.split_once(" < ") {
            Some((words, input)) => {
                let pieces: Vec<&str> = input.split_whitespace().collect(self.alloc)?;
                self.next.input = bytes_of(self.alloc, &pieces)?;
                Ok(words)
            }
            None => {
                self.next.input = self.lines_for(words)?;
                Ok(words)
            }
        }
    }

    /// The input of these words, where none stands after them: of a batch the lines before it.
    fn lines_for(&self, words: &str) -> Result<Vec<u8>, Fail> {
        if words.ends_with("batch") {
            Ok(self.lines.clone()?)
        } else {
            Ok(Vec::new(self.alloc))
        }
    }

    /// How words are run that come with no more.
    pub fn setup_of(&self, words: &str) -> Result<Setup, Fail> {
        Ok(Setup::new(self.lines_for(words)?))
    }

    /// The same clouds, of which none has been asked yet.
    pub fn copy(&self) -> Result<MemFleet, Fail> {
        let order = all_clouds(self.alloc, &self.clouds)?;
        arranged(self.alloc, &self.clouds, &self.keys, order.as_slice())
    }

    /// The setup of this run. The next one has nothing that was set.
    fn take_next(&mut self) -> Setup {
        mem::replace(&mut self.next, Setup::new(Vec::new(self.alloc)))
    }

    fn run<R: Threads + Sync + AllocGlobal>(
        &mut self,
        rt: &R,
        words: &str,
        end: &End<'_>,
    ) -> Result<(), Fail> {
        let setup = self.take_next();
        let mut clouds = self.copy()?;
        let (entry, fate) = self.failing;
        clouds.refuse(entry, fate)?;
        self.failing = (0, Torn::Old);
        let outcome = setup.run(rt, &mut clouds, words)?;
        self.before = mem::replace(&mut self.clouds, clouds);
        check_end(self.alloc, &outcome, end)
    }

    fn run_without_two<R: Threads + Sync + AllocGlobal>(
        &mut self,
        rt: &R,
        words: &str,
        end: &End<'_>,
    ) -> Result<(), Fail> {
        let setup = self.take_next();
        for a in 0..self.width() {
            for b in 0..a {
                let mut rest = self.without(a, b)?;
                let outcome = setup.run(rt, &mut rest, words)?;
                check_end(self.alloc, &outcome, end)?;
            }
        }
        Ok(())
    }

    /// The clouds without the objects of two.
    pub fn without(&self, a: u8, b: u8) -> Result<MemFleet, Fail> {
        let mut order = Vec::new(self.alloc);
        for cloud in 0..self.width() {
            order.push(if cloud == a || cloud == b {
                NONE
            } else {
                cloud
            })?;
        }
        arranged(self.alloc, &self.clouds, &self.keys, order.as_slice())
    }

    /// Runs words whose entries of these numbers fail, in each of the ways.
    fn run_failing<R: Threads + Sync + AllocGlobal>(
        &mut self,
        rt: &R,
        how: &[&str],
        words: &str,
        end: &End<'_>,
    ) -> Result<(), Fail> {
        let setup = self.take_next();
        for (fate, objects) in FATES.iter().zip(end.leaving.split(' ')) {
            let mut clouds = self.copy()?;
            for entry in how {
                if *entry != "failing" {
                    clouds.refuse(entry.parse()?, *fate)?;
                }
            }
            let outcome = setup.run(rt, &mut clouds, words)?;
            check_end(self.alloc, &outcome, end)?;
            check_number(count(&clouds, &self.keys), objects)?;
        }
        Ok(())
    }

    fn run_refused<R: Threads + Sync + AllocGlobal>(
        &self,
        rt: &R,
        words: &str,
        end: &End<'_>,
    ) -> Result<(), Fail> {
        let words = words.trim_start_matches('[').trim_end_matches(']');
        let setup = Setup::new(bytes_of(self.alloc, &["\"abc\""])?);
        let mut clouds = self.copy()?;
        let mut outcome = setup.run(rt, &mut clouds, words)?;
        check_end(self.alloc, &outcome, end)?;
        check_unread(&mut outcome.input)?;
        check_same(&self.clouds, &clouds, &self.keys)
    }

    /// Runs words that stop in a round.
    fn stop<R: Threads + Sync + AllocGlobal>(
        &mut self,
        rt: &R,
        how: &str,
        words: &str,
    ) -> Result<(), Fail> {
        let (round, fates) = match how.split_once(" leaving ") {
            Some(parts) => parts,
            None => return Err(Fail::new("no such stop")),
        };
        let round: u64 = round.trim_start_matches("stopped in round ").parse()?;
        let words = self.take_input(words)?;
        let setup = self.take_next();
        let mut clouds = self.copy()?;
        setup.run(rt, &mut clouds, words)?;
        let fates = fates_of(self.alloc, fates)?;
        let image = image_of(&clouds, round, fates.as_slice())?;
        self.before = mem::replace(&mut self.clouds, image);
        Ok(())
    }
}

/// The fates of a round's entries.
pub fn fates_of(alloc: Global, texts: &str) -> Result<Vec<Torn>, Fail> {
    let mut fates = Vec::new(alloc);
    for text in texts.split(' ') {
        fates.push(fate_of(text)?)?;
    }
    Ok(fates)
}

/// What becomes of an object.
pub fn fate_of(text: &str) -> Result<Torn, Fail> {
    match text {
        "old" => Ok(Torn::Old),
        "new" => Ok(Torn::New),
        "gone" => Ok(Torn::Gone),
        "broken" => Ok(Torn::Broken),
        _ => Err(Fail::new("no such fate")),
    }
}
