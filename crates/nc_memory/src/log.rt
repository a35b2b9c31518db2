ghost use Rattle.std.specs.Prelude.{◌≡◌, ◌++◌, ◌∷◌, [], IfOk, OnOk, OnErr, option_map, None};
ghost use Rattle.std.specs.Option.{ForSome};
ghost use Rattle.nc_cloud.specs.Cloud.{Lists};
ghost use Rattle.nc_cloud.specs.Contents.{nothing};
ghost use Rattle.nc_memory.specs.Record.{contents_after, value, WholeEvent, WholeLog};
ghost use Rattle.nc_memory.specs.Shelf.{shelved};

use crate::record::{Event, object_in};
use crate::shelf::{Shelf, bytes_at, kept, list_there, shelf_of};
use nc_cloud::KeyList;
use nc_name::{Key, Memory};
use std::alloc::Global;

/// What happened to a fleet, in order, and beside it what its clouds hold now. What was put in rounds was whole.
/// Where a push finds no memory, the shelf is let go, and from then on the record alone says what is held.
#[derive(Drop)]
pub struct Log {
    pub events: Vec<Event>,
    pub shelf: Option<Shelf>,
    ghost whole: { ∥ WholeLog events.items ∥₁ },
    ghost current: { ForSome shelf (λ s. shelved s ≡ contents_after events.items nothing) },
}

pub(crate) fn push_event(events: &mut Vec<Event>, event: Event) -> Result<(), Memory>
    ensures ok { OnOk result (events.new.items ≡ events.old.items ++ event ∷ []) }
    ensures err { OnErr result (events.new.items ≡ events.old.items) }
{
    match events.push(event) {
        Ok(()) => Ok(()),
        Err(_) => Err(Memory),
    }
}

impl Log {
    pub(crate) fn new(alloc: Global) -> Log
        ensures { result.events.items ≡ [] }
    {
        Log {
            events: Vec::new(alloc),
            shelf: Some(Shelf::new(alloc)),
        }
    }

    pub(crate) fn push(&mut self, alloc: Global, event: Event) -> Result<(), Memory>
        requires { WholeEvent event }
        ensures ok { OnOk result (self.new.events.items ≡ self.old.events.items ++ event ∷ []) }
        ensures err { OnErr result (self.new.events.items ≡ self.old.events.items) }
    {
        let shelf = kept(alloc, self.shelf.take(), &event);
        push_event(&mut self.events, event)?;
        self.shelf = shelf;
        Ok(())
    }

    /// The keys of a cloud's objects, sorted by their texts.
    pub(crate) fn list(&self, alloc: Global, cloud: u8) -> Result<KeyList, Memory>
        ensures { IfOk result (Lists (contents_after self.now.events.items nothing cloud)) }
    {
        if let Some(shelf) = &self.shelf {
            return list_there(alloc, shelf, cloud);
        }
        match shelf_of(alloc, &self.events) {
            Some(shelf) => list_there(alloc, &shelf, cloud),
            None => Err(Memory),
        }
    }

    /// What a cloud holds under a key.
    pub(crate) fn object(&self, cloud: u8, key: &Key) -> Option<&[u8]>
        ensures { option_map (λ r. r.now) result ≡ value self.now.events.items cloud key.now None }
    {
        match &self.shelf {
            Some(shelf) => bytes_at(shelf, cloud, key),
            None => object_in(&self.events, cloud, key),
        }
    }
}
