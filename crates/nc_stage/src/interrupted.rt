//! A command that is interrupted at each of its entries in turn, and then done once more; and one that stops in its rounds.

use crate::clouds::{all_clouds, arranged, image_of};
use crate::ending::{End, check_answer, check_end, end_of};
use crate::player::{FATES, Stage, fates_of};
use crate::running::Setup;
use nc_memory::MemFleet;
use std::test::Fail;
use std::thread::Threads;

impl Stage {
    /// Interrupts a command, or stops it, and runs words on what that leaves.
    pub fn perform_interrupted<R: Threads + Sync + AllocGlobal>(
        &self,
        rt: &R,
        how: &str,
        words: &str,
        end: &End<'_>,
    ) -> Result<(), Fail> {
        if let Some((command, rounds)) = how.split_once(" stops in rounds ") {
            let setup = self.setup_of(command)?;
            return self.run_stopped(rt, &setup, command, rounds, words, end);
        }
        if let Some((command, range)) = how.split_once(" stops at ") {
            return self.run_interrupted(rt, command, true, range, words, end);
        }
        let (command, range) = how.split_once(" bears ").ok_or("no such run")?;
        self.run_interrupted(rt, command, false, range, words, end)
    }

    /// A command fails by a cloud, or is Ok, wherever one of its entries of a range fails, in each of the ways. On what it leaves,
    /// other words end as they must. Then the command done once more is Ok, a scrub tells nothing, and the words end so again.
    fn run_interrupted<R: Threads + Sync + AllocGlobal>(
        &self,
        rt: &R,
        command: &str,
        fails: bool,
        range: &str,
        words: &str,
        end: &End<'_>,
    ) -> Result<(), Fail> {
        let (first, last) = range.split_once(" to ").ok_or("no range")?;
        let first: u64 = first.parse()?;
        let last: u64 = last.parse()?;
        let setup = Setup::new(Vec::new(self.alloc));
        for entry in first..last.saturating_add(1) {
            for fate in FATES.iter() {
                let mut clouds = self.copy()?;
                clouds.refuse(entry, *fate)?;
                let outcome = setup.run(rt, &mut clouds, command)?;
                check_interrupted(outcome.answer.as_str(), fails)?;
                self.check_left(rt, &clouds, command, words, end)?;
            }
        }
        Ok(())
    }

    /// On these clouds the words end so; the command is Ok, a scrub tells nothing then, and the words end so again.
    fn check_left<R: Threads + Sync + AllocGlobal>(
        &self,
        rt: &R,
        left: &MemFleet,
        command: &str,
        words: &str,
        end: &End<'_>,
    ) -> Result<(), Fail> {
        let setup = Setup::new(Vec::new(self.alloc));
        let order = all_clouds(self.alloc, left)?;
        let mut clouds = arranged(self.alloc, left, &self.keys, order.as_slice())?;
        check_end(self.alloc, &setup.run(rt, &mut clouds, words)?, end)?;
        let again = setup.run(rt, &mut clouds, command)?;
        check_answer(again.answer.as_str(), "0 Ok")?;
        check_end(
            self.alloc,
            &setup.run(rt, &mut clouds, "scrub")?,
            &end_of("0 Ok"),
        )?;
        check_end(self.alloc, &setup.run(rt, &mut clouds, words)?, end)
    }

    /// A command stops in each of these rounds, with its entries in these fates. On what each stop leaves the words end as they
    /// must, and so again once the names are settled.
    fn run_stopped<R: Threads + Sync + AllocGlobal>(
        &self,
        rt: &R,
        setup: &Setup,
        command: &str,
        rounds: &str,
        words: &str,
        end: &End<'_>,
    ) -> Result<(), Fail> {
        let (rounds, fates) = rounds.split_once(" leaving ").ok_or("no fates")?;
        let (first, last) = rounds.split_once(" to ").ok_or("no range")?;
        let first: u64 = first.parse()?;
        let last: u64 = last.parse()?;
        let fates = fates_of(self.alloc, fates)?;
        let mut done = self.copy()?;
        setup.run(rt, &mut done, command)?;
        for round in first..last.saturating_add(1) {
            let image = image_of(&done, round, fates.as_slice())?;
            self.check_settled(rt, image, words, end)?;
        }
        Ok(())
    }

    /// On these clouds the words end so, and so again once a recover settled the names.
    fn check_settled<R: Threads + Sync + AllocGlobal>(
        &self,
        rt: &R,
        mut clouds: MemFleet,
        words: &str,
        end: &End<'_>,
    ) -> Result<(), Fail> {
        let setup = Setup::new(Vec::new(self.alloc));
        check_end(self.alloc, &setup.run(rt, &mut clouds, words)?, end)?;
        let settled = setup.run(rt, &mut clouds, "recover")?;
        check_answer(settled.answer.as_str(), "0 Ok")?;
        check_end(self.alloc, &setup.run(rt, &mut clouds, words)?, end)
    }
}

/// A run ended by a cloud that failed, or Ok.
fn check_interrupted(found: &str, fails: bool) -> Result<(), Fail> {
    if fails && found.starts_with("4 ") && found.ends_with(" failed") {
        return Ok(());
    }
    if !fails && found == "0 Ok" {
        return Ok(());
    }
    Err(Fail::new(format_args!("it ended with: {found}")))
}
