ghost use Rattle.std.specs.Prelude.{◌≡◌, ◌↔◌, ◌≤◌, ◌^◌, [], map, length, string_bytes, true, IfSome, IsTrue};
ghost use Rattle.nc_words.specs.Settings.{IsSetting};
ghost use Rattle.nc_words.specs.Words.{FitsCommand};
ghost use Rattle.nc_run.specs.Ending.{CountsStream, IsEarly, IsRefused, refusal};
ghost use Rattle.nc_run.specs.Items.{does_acts, is_batch, items_of};
ghost use Rattle.nc_run.specs.Running.{Concludes, IsAnswered};
ghost use Rattle.nc_run.specs.Sides.{IsWide, sides};
ghost use Rattle.nc_run.specs.Watching.{ConcludesShown, CourseShown, RequestShown, ShownIn};

use crate::acting::run_single;
use crate::batching::run_lines;
use crate::ending::{Ending, plain};
use crate::milling::run_mill;
use crate::status::Status;
use crate::taking::take_input;
use crate::telling::tell;
use crate::watching::{Silent, Watch};
use nc_cloud::Fleet;
use nc_stream::{InputFault, Sink, Source};
use nc_vault::Fault;
use nc_words::{Command, Request, WordFault, read_words};
use std::alloc::Global;
use std::thread::Threads;

/// Does what the words ask for, over these clouds, this input and this output, and tells a fault on `err`: one line, at any
/// status but Ok. The words hold neither the program's name nor the list of clouds. A failing `err` changes no status.
pub fn run<R: Threads + Sync, F: Fleet, S: Source, K: Sink, E: Sink>(
    rt: &R,
    alloc: Global,
    words: &[String],
    fleet: &mut F,
    source: &mut S,
    out: &mut K,
    err: &mut E,
) -> Status
    requires ready { F.ready }
    ensures answered { IsAnswered F.Fleet S.Source K.Sink (map string_bytes words.now)
        (sides fleet.old source.old out.old) (sides fleet.new source.new out.new) result }
    ensures concludes { Concludes F.Fleet S.Source K.Sink E.Sink (map string_bytes words.now)
        (sides fleet.old source.old out.old) (sides fleet.new source.new out.new) err.old err.new result }
{
    let mut silent = Silent;
    match run_shown(rt, alloc, words, fleet, source, out, err, &mut silent) {
        Some(status) => status,
        None => unreachable!(),
    }
}

/// The same, while the fleet is shown to a watcher at the end of each act that was answered Ok. Where the watcher doesn't let
/// the run go on, it ends there, and there is no status: that act's text isn't written, and nothing is told.
pub fn run_shown<R: Threads + Sync, F: Fleet, S: Source, K: Sink, E: Sink, W: Watch<F>>(
    rt: &R,
    alloc: Global,
    words: &[String],
    fleet: &mut F,
    source: &mut S,
    out: &mut K,
    err: &mut E,
    watch: &mut W,
) -> Option<Status>
    requires ready { F.ready }
    requires begins { W.knows watch.old watch.old [] fleet.old }
    ensures answered { IfSome result (IsAnswered F.Fleet S.Source K.Sink (map string_bytes words.now)
        (sides fleet.old source.old out.old) (sides fleet.new source.new out.new)) }
    ensures concludes { ConcludesShown F.Fleet S.Source K.Sink E.Sink W.Watch (map string_bytes words.now)
        (sides fleet.old source.old out.old) (sides fleet.new source.new out.new)
        err.old err.new watch.old watch.new result }
{
    let ending = run_words(rt, alloc, words, fleet, source, out, watch)?;
    tell(err, &ending);
    Some(ending.status)
}

/// Does what the words ask for, and tells nothing of a fault.
fn run_words<R: Threads + Sync, F: Fleet, S: Source, K: Sink, W: Watch<F>>(
    rt: &R,
    alloc: Global,
    words: &[String],
    fleet: &mut F,
    source: &mut S,
    out: &mut K,
    watch: &mut W,
) -> Option<Ending>
    requires ready { F.ready }
    requires begins { W.knows watch.old watch.old [] fleet.old }
    ensures answered { IfSome result (λ e. IsAnswered F.Fleet S.Source K.Sink (map string_bytes words.now)
        (sides fleet.old source.old out.old) (sides fleet.new source.new out.new) e.status) }
    ensures shown { ShownIn F.Fleet S.Source K.Sink W.Watch (map string_bytes words.now)
        (sides fleet.old source.old out.old) (sides fleet.new source.new out.new) watch.old watch.new result }
{
    let width = fleet.width();
    if !is_wide(width) {
        return Some(plain(Status::Width(width)));
    }
    match read_words(alloc, words, width as u8) {
        Ok(request) => run_asked(rt, alloc, &request, fleet, source, out, watch),
        Err(fault) => Some(plain(refusal(fault))),
    }
}

/// The status of a run whose words ask for nothing that can be done.
fn refusal(fault: WordFault) -> Status
    ensures { result ≡ refusal fault }
{
    match fault {
        WordFault::Usage => Status::Usage,
        WordFault::Name(cause) => Status::Name(cause),
        WordFault::Memory => Status::Vault(Fault::Memory),
    }
}

/// Whether files are spread over so many clouds.
fn is_wide(width: usize) -> bool
    ensures { IsTrue result ↔ IsWide width }
{
    4 <= width && width <= 10
}

/// Does what a request asks for: a mill, or takes the input that it wants, and does its acts.
fn run_asked<R: Threads + Sync, F: Fleet, S: Source, K: Sink, W: Watch<F>>(
    rt: &R,
    alloc: Global,
    request: &Request,
    fleet: &mut F,
    source: &mut S,
    out: &mut K,
    watch: &mut W,
) -> Option<Ending>
    requires ready { F.ready }
    requires width { IsWide (F.clouds fleet.old) }
    requires setting { IsSetting request.now.setting }
    requires fits { FitsCommand (F.clouds fleet.old) request.now.command }
    requires begins { W.knows watch.old watch.old [] fleet.old }
    ensures begun { IfSome result (λ e. IsRefused e.status → ⊥) }
    ensures early { IfSome result (λ e. IsEarly e.status → fleet.new ≡ fleet.old) }
    ensures shown { RequestShown F.Fleet S.Source K.Sink W.Watch request.now
        (sides fleet.old source.old out.old) (sides fleet.new source.new out.new) watch.old watch.new result }
    ensures read { IfSome result (λ e. CountsStream Status.ReadFault S.counts_exactly
        (S.faults source.old) (S.faults source.new) e.status) }
    ensures write { IfSome result (λ e. CountsStream Status.WriteFault K.counts_exactly
        (K.faults out.old) (K.faults out.new) e.status) }
{
    if let Command::Mill(number) = request.command {
        let width = fleet.width() as u8;
        return Some(run_mill(rt, alloc, &request.setting, width, number, out));
    }
    match take_input(alloc, &request.command, source) {
        Ok(input) => run_command(rt, alloc, request, input.bytes(), fleet, out, watch),
        Err(InputFault::TooLong) => Some(plain(Status::TooLong)),
        Err(InputFault::Failed) => Some(plain(Status::ReadFault)),
        Err(InputFault::Memory) => Some(plain(Status::Vault(Fault::Memory))),
    }
}

/// Does the acts that a request asks for with this input.
fn run_command<R: Threads + Sync, F: Fleet, K: Sink, W: Watch<F>>(
    rt: &R,
    alloc: Global,
    request: &Request,
    input: &[u8],
    fleet: &mut F,
    out: &mut K,
    watch: &mut W,
) -> Option<Ending>
    requires ready { F.ready }
    requires width { IsWide (F.clouds fleet.old) }
    requires setting { IsSetting request.now.setting }
    requires fits { FitsCommand (F.clouds fleet.old) request.now.command }
    requires acts { does_acts request.now.command ≡ true }
    requires short { length input.now ≤ 2 ^ 26 }
    requires begins { W.knows watch.old watch.old [] fleet.old }
    ensures begun { IfSome result (λ e. IsRefused e.status → ⊥) }
    ensures late { IfSome result (λ e. IsEarly e.status → ⊥) }
    ensures shown { CourseShown F.Fleet K.Sink W.Watch (F.clouds fleet.old) (is_batch request.now.command)
        (items_of request.now input.now) fleet.old fleet.new out.old out.new watch.old watch.new result }
    ensures write { IfSome result (λ e. CountsStream Status.WriteFault K.counts_exactly
        (K.faults out.old) (K.faults out.new) e.status) }
{
    let setting = &request.setting;
    match &request.command {
        Command::Act(act) => run_single(rt, alloc, setting, act, input, fleet, out, watch),
        Command::Batch => run_lines(rt, alloc, setting, input, fleet, out, watch),
        Command::Mill(_) => unreachable!(),
    }
}
