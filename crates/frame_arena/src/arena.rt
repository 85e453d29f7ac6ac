//! The arena: the shell of its block, and the frames that are home, each in the slot of its number.
//!
//! What must stay true when this file is changed: the frames that are out and those in the slots are together the block, so
//! that `free` can put all their bytes back into the shell. `hints` are numbers of frames that were put back. They may be
//! wrong, and cost only time then: `take` looks at the slot, and goes through all slots where no hint is right.
ghost use Rattle.std.specs.Prelude.{◌≡◌, ◌+◌, ◌*◌, ◌<◌, ◌≤◌, Some, None, length, replicate, All, IfOk, IfSome, IfNone, IsSome, slice_set, slice_get, slice_index_or};
ghost use Rattle.page_base.specs.declared.limits.TheConstants.{MOST_BUFFER_BYTES};
ghost use Rattle.frame_arena.specs.Frames.{held, home, with_slot};
ghost use Rattle.frame_arena.specs.InsideArenas.{IsShelf};

use crate::book::Book;
use crate::frame::Frame;
use crate::shell::Shell;
use page_base::OutOfMemory;
use std::alloc::Global;
use std::marker::Model;
use std::mem;

/// One block of bytes, cut into frames of one page each. It must be freed, once all frames are home.
pub struct FrameArena {
    whole: Shell,
    book: Book,
    slots: Vec<Option<Frame>>,
    hints: Vec<u32>,
    frames: u32,
    page_size: u32,
}

impl Model for FrameArena {
    ghost use Rattle.frame_arena.specs.Frames.{ArenaSeen};
    ghost use Rattle.frame_arena.specs.InsideArenas.{id_of, IsArena};

    ghost Value = { ArenaSeen };

    ghost view = { λ a. record { arena = id_of a.whole a.page_size a.book.names; frames = a.frames; slots = a.slots.items } };

    ghost invariant = { λ a. IsArena a.whole a.book.names a.slots.items a.frames a.page_size };
}

/// Puts a frame in the slot of its number, which is empty, since no frame is there twice.
fn shelve(slots: &mut Vec<Option<Frame>>, frame: Frame)
    requires shelf { IsShelf frame.arena 0 slots.old.items }
    requires size { length slots.old.items ≡ length frame.arena.names }
    ensures within { frame.number < length slots.old.items }
    ensures shelved { slots.new.items ≡ slice_set slots.old.items frame.number (Some frame) }
    ensures empty { slice_get slots.old.items frame.number ≡ Some None }
{
    let at = frame.number() as usize;
    let Some(other) = mem::replace(&mut slots[at], Some(frame)) else {
        return;
    };
    let here = slots[at].take().unwrap();
    let (_here, _other) = here.differ(other);
    unreachable!()
}

/// Takes the frame out of a slot that has one.
fn unshelve(slots: &mut Vec<Option<Frame>>, at: usize) -> Frame
    requires within { at < length slots.old.items }
    requires held { IsSome (slice_index_or slots.old.items at None) }
    ensures was { slice_index_or slots.old.items at None ≡ Some result }
    ensures emptied { slots.new.items ≡ slice_set slots.old.items at None }
{
    slots[at].take().unwrap()
}

/// A slot that has its frame, by the hints first. None where no slot has.
fn find_home(slots: &Vec<Option<Frame>>, hints: &mut Vec<u32>) -> Option<usize>
    ensures within { IfSome result (λ at. at < length slots.now.items) }
    ensures held { IfSome result (λ at. IsSome (slice_index_or slots.now.items at None)) }
    ensures none { IfNone result (held slots.now.items ≡ 0) }
{
    for _ in 0..hints.len() {
        let Some(hint) = hints.pop() else {
            break;
        };
        let at = hint as usize;
        if at < slots.len() && slots[at].is_some() {
            return Some(at);
        }
    }
    for at in 0..slots.len() {
        if slots[at].is_some() {
            return Some(at);
        }
    }
    None
}

impl FrameArena {
    /// So many frames of `page_size` bytes each, all home and all zeros. It takes all memory that the arena ever takes, and
    /// answers `OutOfMemory` where that isn't there.
    pub fn new(alloc: Global, frames: u32, page_size: u32) -> Result<FrameArena, OutOfMemory>
        requires some { (1 ≤ frames) × (1 ≤ page_size) }
        requires small { frames * page_size ≤ MOST_BUFFER_BYTES }
        ensures size { IfOk result (λ a. (a.frames ≡ frames) × (a.arena.page_size ≡ page_size)) }
        ensures home { IfOk result (λ a. home a ≡ frames) }
        ensures zeros { IfOk result (λ a. All (λ slot. IfSome slot (λ f. f.bytes ≡ replicate page_size 0)) a.slots) }
    {
        let count = frames as usize;
        let size = page_size as usize;
        let mut block = vec![in alloc; 0u8; count * size]?;
        let mut hints = Vec::with_capacity(alloc, count)?;
        let mut slots = Vec::with_capacity(alloc, count)?;
        let mut at = block.as_mut_ptr();
        let (mut rest, whole) = Shell::open(block);
        let mut book = Book::new(count);
        for number in 0..frames {
            let (frame, behind, later) = Frame::cut(at, size, number, rest, book);
            rest = behind;
            book = later;
            at = unsafe { at.byte_add(size) };
            slots.push_reserved(Some(frame));
            hints.push_reserved(frames - 1 - number);
        }
        rest.end();
        Ok(FrameArena {
            whole,
            book,
            slots,
            hints,
            frames,
            page_size,
        })
    }

    /// A frame that is home, with the bytes that it was put back with. None exactly where no frame is home.
    pub fn take(&mut self) -> Option<Frame>
        ensures none { IfNone result ((home self.old ≡ 0) × (self.new ≡ self.old)) }
        ensures was { IfSome result (λ f. slice_get self.old.slots f.number ≡ Some (Some f)) }
        ensures taken { IfSome result (λ f. self.new ≡ with_slot self.old f.number None) }
        ensures arena { IfSome result (λ f. f.arena ≡ self.old.arena) }
        ensures home { IfSome result (λ _. home self.old ≡ home self.new + 1) }
    {
        let at = find_home(&self.slots, &mut self.hints)?;
        Some(unshelve(&mut self.slots, at))
    }

    /// Puts a frame of this arena back, which is home then.
    pub fn put(&mut self, frame: Frame)
        requires arena { frame.arena ≡ self.old.arena }
        ensures put { self.new ≡ with_slot self.old frame.number (Some frame) }
        ensures out { slice_get self.old.slots frame.number ≡ Some None }
        ensures home { home self.new ≡ home self.old + 1 }
    {
        let number = frame.number();
        shelve(&mut self.slots, frame);
        if self.hints.len() < self.hints.capacity() {
            self.hints.push_reserved(number);
        }
    }

    /// Gives the block back, once all frames are home.
    pub fn free(self)
        requires all { home self ≡ self.frames }
    {
        let FrameArena {
            whole,
            book: _,
            mut slots,
            hints: _,
            frames,
            page_size: _,
        } = self;
        let mut bytes = slots.pop().unwrap().unwrap().into_piece();
        for _ in 1..frames {
            bytes = slots.pop().unwrap().unwrap().into_piece().join(bytes);
        }
        slots.destroy_empty();
        drop(whole.close(bytes));
    }
}
