ghost use Rattle.std.specs.Prelude.{◌≡◌, [], ◌∷◌, ◌++◌, OnOk, OnErr};

use crate::blob::Memory;
use std::alloc::Global;
use std::marker::Model;

/// Items in order on the heap, seen as their list.
#[derive(Debug, Drop)]
pub struct Sequence<T> {
    list: Vec<T>,
}

impl<T> Model for Sequence<T> {
    ghost use Rattle.std.specs.Prelude.{List};

    ghost Value = { List T };

    ghost view = { λ s. s.list.items };
}

impl<T: Drop> Sequence<T> {
    /// No items. It takes no memory.
    pub fn new(alloc: Global) -> Sequence<T>
        ensures { result ≡ [] }
    {
        Sequence {
            list: Vec::new(alloc),
        }
    }

    /// Puts an item at the end. At `Memory` the list is as it was.
    pub fn push(&mut self, item: T) -> Result<(), Memory>
        ensures ok { OnOk result (self.new ≡ self.old ++ (item ∷ [])) }
        ensures err { OnErr result (self.new ≡ self.old) }
    {
        match self.list.push(item) {
            Ok(()) => Ok(()),
            Err(_) => Err(Memory),
        }
    }

    /// The items themselves. It takes no memory.
    pub fn into_items(self) -> Vec<T>
        ensures { result.items ≡ self }
    {
        let Sequence { list } = self;
        list
    }

    pub fn items(&self) -> &[T]
        ensures { result.now ≡ self.now }
    {
        self.list.as_slice()
    }
}
