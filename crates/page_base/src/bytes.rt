//! Bytes whose room is known: a `List` of bytes with the calls that move many at once.
//!
//! Contracts see `items` and `spare`, as of a `List`.
ghost use Rattle.std.specs.Prelude.{◌≡◌, ◌<◌, ◌≤◌, ◌+◌, [], ◌∷◌, ◌++◌, length, slice_get, Some, IsOk, OnOk, OnErr, IfOk};
ghost use Rattle.page_base.specs.ListSeen.{spliced};

use crate::faults::OutOfMemory;
use std::alloc::Global;
use std::marker::Model;

/// Bytes in order, and room for some more.
#[derive(Debug, Drop)]
pub struct Bytes {
    kept: Vec<u8>,
    room: usize,
}

impl Model for Bytes {
    ghost use Rattle.std.specs.Prelude.{◌+◌, ◌≤◌, ℕ, vec_len, vec_capacity};
    ghost use Rattle.page_base.specs.ListSeen.{ListSeen};

    ghost Value = { ListSeen ℕ };

    ghost view = { λ b. record { items = b.kept.items; spare = b.room } };

    ghost invariant = { λ b. vec_len b.kept + b.room ≤ vec_capacity b.kept };
}

impl Bytes {
    /// No bytes, and no memory taken.
    pub fn new(alloc: Global) -> Bytes
        ensures items { result.items ≡ [] }
        ensures spare { result.spare ≡ 0 }
    {
        Bytes {
            kept: Vec::new(alloc),
            room: 0,
        }
    }

    /// The bytes of a vector, with no room beside them.
    pub fn from_vec(kept: Vec<u8>) -> Bytes
        ensures items { result.items ≡ kept.items }
        ensures spare { result.spare ≡ 0 }
    {
        Bytes { kept, room: 0 }
    }

    /// A copy of a slice, with no room beside it.
    pub fn from_slice(alloc: Global, bytes: &[u8]) -> Result<Bytes, OutOfMemory>
        ensures items { IfOk result (λ b. b.items ≡ bytes.now) }
        ensures spare { IfOk result (λ b. b.spare ≡ 0) }
    {
        match Vec::from_slice(alloc, bytes) {
            Ok(kept) => Ok(Bytes { kept, room: 0 }),
            Err(_) => Err(OutOfMemory),
        }
    }

    /// The vector of the bytes.
    pub fn into_vec(self) -> Vec<u8>
        ensures { result.items ≡ self.items }
    {
        let Bytes { kept, room: _ } = self;
        kept
    }

    /// The allocator that the room is taken from.
    pub fn allocator(&self) -> Global {
        *self.kept.allocator()
    }

    /// The number of bytes.
    pub fn len(&self) -> usize
        ensures { result ≡ length self.now.items }
    {
        self.kept.len()
    }

    /// How many more bytes go in without taking memory.
    pub fn spare(&self) -> usize
        ensures { result ≡ self.now.spare }
    {
        self.room
    }

    /// The byte at `i`, counted from 0.
    pub fn get(&self, i: usize) -> &u8
        requires { i < length self.now.items }
        ensures { slice_get self.now.items i ≡ Some result.now }
    {
        &self.kept[i]
    }

    /// The bytes in order.
    pub fn as_slice(&self) -> &[u8]
        ensures { result.now ≡ self.now.items }
    {
        self.kept.as_slice()
    }

    /// Makes room for at least `more` bytes beside those that are there.
    pub fn reserve(&mut self, more: usize) -> Result<(), OutOfMemory>
        ensures items { self.new.items ≡ self.old.items }
        ensures ok { OnOk result (more ≤ self.new.spare) }
        ensures kept { self.old.spare ≤ self.new.spare }
        ensures err { OnErr result (self.new.spare ≡ self.old.spare) }
        ensures enough { more ≤ self.old.spare → IsOk result }
    {
        match self.kept.reserve_exact(more) {
            Ok(()) => {
                self.room = self.room.max(more);
                Ok(())
            }
            Err(_) => Err(OutOfMemory),
        }
    }

    /// Appends a byte. It takes no memory.
    pub fn put(&mut self, item: u8)
        requires { 1 ≤ self.old.spare }
        ensures items { self.new.items ≡ self.old.items ++ item ∷ [] }
        ensures spare { self.new.spare + 1 ≡ self.old.spare }
    {
        self.kept.push_reserved(item);
        self.room -= 1;
    }

    /// Appends a piece. It takes no memory.
    pub fn put_all(&mut self, piece: &[u8])
        requires { length piece.now ≤ self.old.spare }
        ensures items { self.new.items ≡ self.old.items ++ piece.now }
        ensures spare { self.new.spare + length piece.now ≡ self.old.spare }
    {
        match self.kept.extend_from_slice(piece) {
            Ok(()) => self.room -= piece.len(),
            Err(_) => unreachable!(),
        }
    }

    /// Writes over the bytes from `at` on.
    pub fn write_at(&mut self, at: usize, bytes: &[u8])
        requires { at + length bytes.now ≤ length self.old.items }
        ensures items { self.new.items ≡ spliced self.old.items at bytes.now }
        ensures spare { self.new.spare ≡ self.old.spare }
    {
        self.kept[at..at + bytes.len()].copy_from_slice(bytes);
    }
}
