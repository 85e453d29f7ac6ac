//! Texts whose room is known: a `List` of strings, each seen as its bytes.
ghost use Rattle.std.specs.Prelude.{◌≡◌, ◌<◌, ◌≤◌, ◌+◌, [], ◌∷◌, ◌++◌, length, slice_get, Some, IsOk, OnOk, OnErr, map, string_bytes};

use crate::faults::OutOfMemory;
use std::alloc::Global;
use std::marker::Model;

/// Strings in order, and room for some more.
#[derive(Debug, Drop)]
pub struct Texts {
    kept: Vec<String>,
    room: usize,
}

impl Model for Texts {
    ghost use Rattle.std.specs.Prelude.{◌+◌, ◌≤◌, ℕ, List, map, string_bytes, vec_len, vec_capacity};
    ghost use Rattle.page_base.specs.ListSeen.{ListSeen};

    ghost Value = { ListSeen (List ℕ) };

    ghost view = { λ t. record { items = map string_bytes t.kept.items; spare = t.room } };

    ghost invariant = { λ t. vec_len t.kept + t.room ≤ vec_capacity t.kept };
}

impl Texts {
    /// No texts, and no memory taken.
    pub fn new(alloc: Global) -> Texts
        ensures items { result.items ≡ [] }
        ensures spare { result.spare ≡ 0 }
    {
        Texts {
            kept: Vec::new(alloc),
            room: 0,
        }
    }

    /// The number of texts.
    pub fn len(&self) -> usize
        ensures { result ≡ length self.now.items }
    {
        self.kept.len()
    }

    /// How many more texts go in without taking memory.
    pub fn spare(&self) -> usize
        ensures { result ≡ self.now.spare }
    {
        self.room
    }

    /// The text at `i`, counted from 0.
    pub fn get(&self, i: usize) -> &String
        requires { i < length self.now.items }
        ensures { slice_get self.now.items i ≡ Some (string_bytes result.now) }
    {
        &self.kept[i]
    }

    /// The texts in order.
    pub fn as_slice(&self) -> &[String]
        ensures { map string_bytes result.now ≡ self.now.items }
    {
        self.kept.as_slice()
    }

    /// Makes room for at least `more` texts beside those that are there.
    pub fn reserve(&mut self, more: usize) -> Result<(), OutOfMemory>
        ensures items { self.new.items ≡ self.old.items }
        ensures ok { OnOk result (more ≤ self.new.spare) }
        ensures kept { self.old.spare ≤ self.new.spare }
        ensures err { OnErr result (self.new.spare ≡ self.old.spare) }
        ensures enough { more ≤ self.old.spare → IsOk result }
    {
        match self.kept.reserve_exact(more) {
            Ok(()) => {
                self.room = self.room.max(more);
                Ok(())
            }
            Err(_) => Err(OutOfMemory),
        }
    }

    /// Appends a text. It takes no memory.
    pub fn put(&mut self, item: String)
        requires { 1 ≤ self.old.spare }
        ensures items { self.new.items ≡ self.old.items ++ string_bytes item ∷ [] }
        ensures spare { self.new.spare + 1 ≡ self.old.spare }
    {
        self.kept.push_reserved(item);
        self.room -= 1;
    }
}
