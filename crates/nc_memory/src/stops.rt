ghost use Rattle.std.specs.Prelude.{◌≡◌, ◌<◌, ◌++◌, ◌∷◌, [], Some, IfOk, OnOk, OnErr, length, slice_index_or};
ghost use Rattle.nc_memory.specs.Record.{numbered};
ghost use Rattle.nc_memory.specs.Stops.{cut, stopped_event, stopped_step};

use crate::log::{Log, push_event};
use crate::record::{
    Damage, Event, KeyFate, KeyFates, Look, LookList, Refusal, Step, StepList, Torn, copied_object,
    object_written,
};
use crate::shelf::shelf_of;
use nc_name::{Blob, Memory};
use std::alloc::Global;

/// The fate of an entry: Old where there is none.
fn fate_of(fates: &[Torn], i: usize) -> Torn
    ensures { result ≡ slice_index_or fates.now i Torn.Old }
{
    match fates.get(i) {
        Some(fate) => *fate,
        None => Torn::Old,
    }
}

fn copied_looks(alloc: Global, looks: &[Look]) -> Result<LookList, Memory>
    ensures { IfOk result (λ copies. copies ≡ looks.now) }
{
    let mut copies = LookList::new(alloc);
    for look in looks {
        copies.push(*look)?;
    }
    Ok(copies)
}

/// A copy of a write, with another fate.
fn copied_step(alloc: Global, step: &Step, fate: Option<Torn>) -> Result<Step, Memory>
    ensures { IfOk result (λ copy. copy ≡ record step.now { fate = fate }) }
{
    Ok(Step {
        cloud: step.cloud,
        key: step.key,
        new: copied_object(alloc, object_written(step))?,
        failed: step.failed,
        fate,
    })
}

fn copied_steps(alloc: Global, steps: &[Step]) -> Result<StepList, Memory>
    ensures { IfOk result (λ copies. copies ≡ steps.now) }
{
    let mut copies = StepList::new(alloc);
    for step in steps {
        copies.push(copied_step(alloc, step, step.fate)?)?;
    }
    Ok(copies)
}

/// The writes of a round, stopped in these fates.
fn stopped_steps(alloc: Global, steps: &[Step], fates: &[Torn]) -> Result<StepList, Memory>
    ensures { IfOk result (λ copies. copies ≡ numbered (stopped_step fates.now) 0 steps.now) }
{
    let mut copies = StepList::new(alloc);
    for (i, step) in steps.iter().enumerate() {
        copies.push(copied_step(alloc, step, Some(fate_of(fates, i)))?)?;
    }
    Ok(copies)
}

fn copied_fates(alloc: Global, fates: &[KeyFate]) -> Result<KeyFates, Memory>
    ensures { IfOk result (λ copies. copies ≡ fates.now) }
{
    let mut copies = KeyFates::new(alloc);
    for fate in fates {
        copies.push(*fate)?;
    }
    Ok(copies)
}

pub(crate) fn copied_damage(alloc: Global, damage: &Damage) -> Result<Damage, Memory>
    ensures { IfOk result (λ copy. copy ≡ damage.now) }
{
    Ok(Damage {
        rest: damage.rest,
        except: copied_fates(alloc, damage.except.items())?,
    })
}

fn copied_event(alloc: Global, event: &Event) -> Result<Event, Memory>
    ensures { IfOk result (λ copy. copy ≡ event.now) }
{
    match event {
        Event::Gets(looks) => Ok(Event::Gets(copied_looks(alloc, looks.items())?)),
        Event::Writes(steps) => Ok(Event::Writes(copied_steps(alloc, steps.items())?)),
        Event::Listed { cloud, failed } => Ok(Event::Listed {
            cloud: *cloud,
            failed: *failed,
        }),
        Event::Planted { cloud, key, bytes } => Ok(Event::Planted {
            cloud: *cloud,
            key: *key,
            bytes: Blob::from_slice(alloc, bytes.bytes())?,
        }),
        Event::Lost { cloud, damage } => Ok(Event::Lost {
            cloud: *cloud,
            damage: copied_damage(alloc, damage)?,
        }),
    }
}

/// An event that was stopped in these fates of its entries.
fn stop_event(alloc: Global, event: &Event, fates: &[Torn]) -> Result<Event, Memory>
    ensures { IfOk result (λ copy. copy ≡ stopped_event fates.now event.now) }
{
    match event {
        Event::Writes(steps) => Ok(Event::Writes(stopped_steps(alloc, steps.items(), fates)?)),
        Event::Gets(_) | Event::Listed { .. } | Event::Planted { .. } | Event::Lost { .. } => {
            copied_event(alloc, event)
        }
    }
}

fn cut_events(alloc: Global, log: &[Event], at: usize, fates: &[Torn]) -> Result<Vec<Event>, Memory>
    requires { at < length log.now }
    ensures { IfOk result (λ events. events.items ≡ cut at fates.now log.now) }
{
    let mut events = Vec::new(alloc);
    for i in 0..at {
        push_event(&mut events, copied_event(alloc, &log[i])?)?;
    }
    push_event(&mut events, stop_event(alloc, &log[at], fates)?)?;
    Ok(events)
}

/// A record up to a stop in the event that stands there.
pub(crate) fn cut_log(alloc: Global, log: &Log, at: usize, fates: &[Torn]) -> Result<Log, Memory>
    requires { at < length log.now.events.items }
    ensures { IfOk result (λ short. short.events.items ≡ cut at fates.now log.now.events.items) }
{
    let events = cut_events(alloc, &log.events, at, fates)?;
    let shelf = shelf_of(alloc, &events);
    Ok(Log { events, shelf })
}

pub(crate) fn push_refusal(refusals: &mut Vec<Refusal>, refusal: Refusal) -> Result<(), Memory>
    ensures ok { OnOk result (refusals.new.items ≡ refusals.old.items ++ refusal ∷ []) }
    ensures err { OnErr result (refusals.new.items ≡ refusals.old.items) }
{
    match refusals.push(refusal) {
        Ok(()) => Ok(()),
        Err(_) => Err(Memory),
    }
}

pub(crate) fn copied_refusals(alloc: Global, refusals: &[Refusal]) -> Result<Vec<Refusal>, Memory>
    ensures { IfOk result (λ copies. copies.items ≡ refusals.now) }
{
    let mut copies = Vec::new(alloc);
    for refusal in refusals {
        push_refusal(&mut copies, *refusal)?;
    }
    Ok(copies)
}
