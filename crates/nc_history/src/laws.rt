//! Laws of histories. Each function does nothing; its contract is the law, or some laws.

ghost use Rattle.nc_history.specs.Laws.{DamageIs, EmptyVaultStands, EnoughAreGood, HistoryStands, LastDoneIsGot, LossLeads, LossesAreFew, NeverPutHasNoFile, NoFileIsRight, NoneDoneIsUnfinished, NothingElseStopsGet, PutIsFound, PutThenGet, RemovedIsGone, RepairKeepsFiles, RepairedIsGood, RepairedIsWhole, RunLeads};

// ---- what happens

/// A vault whose clouds hold nothing stands: histories may begin with it.
pub fn empty_vault_stands()
    ensures { EmptyVaultStands }
{}

/// What a run leaves at its end, or where it is stopped, is what happened: acts that were done, and
/// perhaps one more that was begun.
pub fn run_leads()
    ensures { RunLeads }
{}

/// A loss may come at any time and leave any part of the cloud's objects, as long as at most two
/// clouds are damaged then.
pub fn loss_leads()
    ensures { LossLeads }
{}

/// Whatever happens in a history, the clouds stand for entries.
pub fn history_stands()
    ensures { HistoryStands }
{}

/// A loss adds its cloud to the damaged ones, and a repair or a restore that was done takes its
/// clouds from them. Nothing else changes them.
pub fn losses_are_few()
    ensures damaged { DamageIs }
    ensures few { LossesAreFew }
{}

// ---- what a get gives

/// After any history of runs, stops and losses, bytes that a get gives are those of the last act on
/// the name that was done, or of a put since that was begun and not done, each wholly. So a version
/// that was replaced doesn't come back, nor does a file that was removed.
pub fn last_done_is_got()
    ensures { LastDoneIsGot }
{}

/// Where a get finds no file, the last act on the name that was done is a removal, or one was begun
/// since.
pub fn no_file_is_right()
    ensures { NoFileIsRight }
{}

/// While damaged and failing clouds are at most two together, there are enough for each file.
pub fn enough_are_good()
    ensures { EnoughAreGood }
{}

/// The clouds don't contradict each other, nothing of elsewhere stands on them, and each code is
/// sound.
pub fn nothing_else_stops_get()
    ensures { NothingElseStopsGet }
{}

/// From empty clouds on, bytes that a get gives were put: where no act on the name was done, by a
/// put that was begun.
pub fn never_put_has_no_file()
    ensures unfinished { NoneDoneIsUnfinished }
    ensures none { NeverPutHasNoFile }
{}

/// Where no act since would give the name another value: the put's bytes, whatever else was done,
/// begun or lost, and they are found.
pub fn put_then_get()
    ensures bytes { PutThenGet }
    ensures found { PutIsFound }
{}

/// The same of a removal.
pub fn remove_then_get()
    ensures { RemovedIsGone }
{}

// ---- what a repair leaves

/// A repair that was done leaves the clouds ready for the next loss: each file's code has a witness
/// for each, and the repaired cloud isn't damaged. Every file has the bytes that it had.
pub fn repair_leaves()
    ensures good { RepairedIsGood }
    ensures whole { RepairedIsWhole }
    ensures files { RepairKeepsFiles }
{}
