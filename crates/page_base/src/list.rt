//! A list whose room is known.
//!
//! Contracts see `items` and `spare`. The vector may have more capacity than `spare` says, and never less: `room` counts
//! what was reserved and not yet used, so `put` takes no memory.
ghost use Rattle.std.specs.Prelude.{◌≡◌, ◌<◌, ◌≤◌, ◌+◌, [], ◌∷◌, ◌++◌, length, slice_get, Some, IsOk, OnOk, OnErr};
ghost use Rattle.std.specs.Borrow.{Lends, sem};
ghost use Rattle.page_base.specs.contracts.list.List.{the_row};
ghost use Rattle.page_base.specs.ListSeen.{with_item};

use crate::faults::OutOfMemory;
use std::alloc::Global;
use std::marker::Model;

/// Items in order, and room for some more.
#[derive(Debug, Drop)]
pub struct List<T> {
    kept: Vec<T>,
    room: usize,
}

impl<T> Model for List<T> {
    ghost use Rattle.std.specs.Prelude.{◌+◌, ◌≤◌, vec_len, vec_capacity};
    ghost use Rattle.page_base.specs.ListSeen.{ListSeen};

    ghost Value = { ListSeen T };

    ghost view = { λ l. record { items = l.kept.items; spare = l.room } };

    ghost invariant = { λ l. vec_len l.kept + l.room ≤ vec_capacity l.kept };
}

impl<T> List<T> {
    /// An empty list, which has taken no memory.
    pub fn new(alloc: Global) -> List<T>
        ensures items { result.items ≡ [] }
        ensures spare { result.spare ≡ 0 }
    {
        List {
            kept: Vec::new(alloc),
            room: 0,
        }
    }

    /// The items of a vector, with no room beside them.
    pub fn from_vec(kept: Vec<T>) -> List<T>
        ensures items { result.items ≡ kept.items }
        ensures spare { result.spare ≡ 0 }
    {
        List { kept, room: 0 }
    }

    /// The vector of the items.
    pub fn into_vec(self) -> Vec<T>
        ensures { result.items ≡ self.items }
    {
        let List { kept, room: _ } = self;
        kept
    }

    /// The allocator that the room is taken from.
    pub fn allocator(&self) -> Global {
        *self.kept.allocator()
    }

    /// The number of items.
    pub fn len(&self) -> usize
        ensures { result ≡ length self.now.items }
    {
        self.kept.len()
    }

    /// How many more items go in without taking memory.
    pub fn spare(&self) -> usize
        ensures { result ≡ self.now.spare }
    {
        self.room
    }

    /// The item at `i`, counted from 0.
    pub fn get(&self, i: usize) -> &T
        requires { i < length self.now.items }
        ensures { slice_get self.now.items i ≡ Some result.now }
    {
        &self.kept[i]
    }

    /// The items in order.
    pub fn as_slice(&self) -> &[T]
        ensures { result.now ≡ self.now.items }
    {
        self.kept.as_slice()
    }

    /// The item at `i`, counted from 0, to be written over.
    pub fn get_mut(&mut self, i: usize) -> &mut T
        requires { i < length self.old.items }
        ensures* writes_back { sem 𝓛 (Lends (the_row T.row) T.row self.entry result (with_item self.old i)) }
        ensures value { slice_get self.old.items i ≡ Some result.now }
    {
        &mut self.kept[i]
    }

    /// Makes room for at least `more` items beside those that are there.
    pub fn reserve(&mut self, more: usize) -> Result<(), OutOfMemory>
        ensures items { self.new.items ≡ self.old.items }
        ensures ok { OnOk result (more ≤ self.new.spare) }
        ensures kept { self.old.spare ≤ self.new.spare }
        ensures err { OnErr result (self.new.spare ≡ self.old.spare) }
        ensures enough { more ≤ self.old.spare → IsOk result }
    {
        match self.kept.reserve_exact(more) {
            Ok(()) => {
                self.room = self.room.max(more);
                Ok(())
            }
            Err(_) => Err(OutOfMemory),
        }
    }

    /// Appends an item. It takes no memory.
    pub fn put(&mut self, item: T)
        requires { 1 ≤ self.old.spare }
        ensures items { self.new.items ≡ self.old.items ++ item ∷ [] }
        ensures spare { self.new.spare + 1 ≡ self.old.spare }
    {
        self.kept.push_reserved(item);
        self.room -= 1;
    }
}

impl<T: Drop> List<T> {
    /// Appends an item. Where no room is left, it takes room for as many items again as there are, and for 4 at least.
    pub fn push(&mut self, item: T) -> Result<(), OutOfMemory>
        ensures ok { OnOk result (self.new.items ≡ self.old.items ++ item ∷ []) }
        ensures err { OnErr result (self.new ≡ self.old) }
        ensures enough { 1 ≤ self.old.spare → IsOk result }
    {
        if self.spare() == 0 {
            self.reserve(self.len().max(4))?;
        }
        self.put(item);
        Ok(())
    }
}
