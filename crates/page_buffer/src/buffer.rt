//! The frames of a stripe, the order of its resident pages, and the frames that are free.
//!
//! What must stay true when this file is changed: all frames of the arena are here, a page has one frame at the most, `order` has
//! the number of each frame with a resident page once, in the group of the page's region and marked where the page is clean,
//! `free` has that of each free frame, and `resident` says how many pages are in the order. The room of `free` is for as many as
//! there are frames, so it doesn't grow. No call goes through the order but `nth`, over the pages before its place;
//! `mark_clean` goes from the page outwards through its region's pages, up to the nearest clean one.
ghost use Rattle.std.specs.Prelude.{◌≡◌, ◌<◌, ◌≤◌, ◌+◌, ◌*◌, length, count_by, find, true, false, IsTrue, IfSome, IfOk, Some, None, slice_get};
ghost use Rattle.std.specs.Borrow.{Lends, sem, Array, u8 as byte};
ghost use Rattle.page_base.specs.declared.keys.Key.{Key};
ghost use Rattle.page_base.specs.declared.limits.TheConstants.{MOST_BUFFER_BYTES, MOST_REGIONS};
ghost use Rattle.page_buffer.specs.Frames.{Free, Reserved, is_reserved, is_resident, resident_key, page_of, bytes_of};
ghost use Rattle.page_buffer.specs.Buffers.{all_free, frame_of, has_frame_for, free_frames, reserved_frames, key_of_frame, with_frame, filled, released, marked, with_page, is_of_region, is_clean_but, evicts_further, IsFillOrder};
ghost use Rattle.index_lists.specs.Orders.{FirstOfBoth};
ghost use Rattle.page_buffer.specs.contracts.buffer.PageBuffer.{the_row};

use crate::frame::{Frame, Use};
use frame_arena::FrameArena;
use index_lists::GroupedOrder;
use page_base::{Key, Marks, OutOfMemory};
use std::alloc::Global;
use std::marker::Model;

/// As many frames as the quota, and the resident pages in order of filling. It must be closed.
pub struct PageBuffer {
    arena: FrameArena,
    frames: Vec<Frame>,
    order: GroupedOrder,
    free: Vec<u32>,
    resident: u32,
}

impl Model for PageBuffer {
    ghost use Rattle.std.specs.Prelude.{◌≤◌, length, vec_capacity};
    ghost use Rattle.page_buffer.specs.Buffers.{BufferSeen};
    ghost use Rattle.page_buffer.specs.Insides.{frames_seen, residents_seen, IsSound};

    ghost Value = { BufferSeen };

    ghost view = { λ b. record {
      page_size = b.arena.arena.page_size;
      regions = b.order.groups;
      frames = frames_seen b.frames.items;
      order = b.order.order;
      residents = residents_seen (frames_seen b.frames.items) b.order.order;
      clean = b.order.marks;
    } };

    ghost invariant = { λ b. IsSound b.arena b.frames.items b.order b.free.items b.resident
        × (length b.frames.items ≤ vec_capacity b.free) };
}

impl PageBuffer {
    /// A buffer of free frames, for pages of the regions below `regions`. It takes all memory that the buffer ever takes, and keeps
    /// none where it is refused.
    pub fn new(
        alloc: Global,
        quota: u32,
        page_size: u32,
        regions: u32,
    ) -> Result<PageBuffer, OutOfMemory>
        requires some { 1 ≤ quota }
        requires page { 1 ≤ page_size }
        requires small { quota * page_size ≤ MOST_BUFFER_BYTES }
        requires few { regions ≤ MOST_REGIONS }
        ensures free { IfOk result (λ b. b ≡ all_free quota page_size regions) }
    {
        let order = GroupedOrder::new(alloc, regions, quota)?;
        let mut free = Vec::with_capacity(alloc, quota as usize)?;
        let mut frames = Vec::with_capacity(alloc, quota as usize)?;
        let mut arena = match FrameArena::new(alloc, quota, page_size) {
            Ok(arena) => arena,
            Err(refused) => {
                frames.destroy_empty();
                return Err(refused);
            }
        };
        for frame in 0..quota {
            let page = arena.take().unwrap();
            frames.push_reserved(Frame {
                used: Use::Free,
                page,
            });
            free.push_reserved(frame);
        }
        Ok(PageBuffer {
            arena,
            frames,
            order,
            free,
            resident: 0,
        })
    }

    /// Puts every frame back and frees the block, whatever the frames hold.
    pub fn close(self) {
        let PageBuffer {
            mut arena,
            mut frames,
            order: _,
            free: _,
            resident: _,
        } = self;
        for _ in 0..frames.len() {
            let Frame { used: _, page } = frames.pop().unwrap();
            arena.put(page);
        }
        frames.destroy_empty();
        arena.free();
    }

    /// Takes a free frame for a page whose read begins.
    pub fn reserve(&mut self, key: Key) -> u32
        requires free { 0 < free_frames self.old }
        requires fresh { has_frame_for self.old key ≡ false }
        ensures within { result < length self.old.frames }
        ensures free { frame_of self.old result ≡ Free }
        ensures reserved { self.new ≡ with_frame self.old result (Reserved key) }
    {
        let frame = self.free.pop().unwrap();
        let room = &mut self.frames[frame as usize];
        room.used = Use::Reserved(key);
        frame
    }

    /// Makes the page of a reserved frame resident, with these bytes. It is the newest, and clean or dirty.
    pub fn fill(&mut self, frame: u32, bytes: &[u8], clean: bool)
        requires reserved { IsTrue (is_reserved (frame_of self.old frame)) }
        requires region { (key_of_frame self.old frame).region < self.old.regions }
        requires page { length bytes.now ≡ self.old.page_size }
        ensures filled { self.new ≡ filled self.old frame bytes.now clean }
    {
        let room = &mut self.frames[frame as usize];
        let Use::Reserved(key) = room.used else {
            unreachable!()
        };
        room.used = Use::Resident(key);
        room.page.bytes_mut().copy_from_slice(bytes);
        self.order.whole();
        self.order.push_back(key.region as u32, frame, clean);
        self.resident += 1;
    }

    /// Gives a reserved frame back, after a failed read.
    pub fn unreserve(&mut self, frame: u32)
        requires reserved { IsTrue (is_reserved (frame_of self.old frame)) }
        ensures free { self.new ≡ with_frame self.old frame Free }
    {
        let room = &mut self.frames[frame as usize];
        room.used = Use::Free;
        self.free.push_reserved(frame);
    }

    /// Gives the frame of a resident page back. The other pages keep their order.
    pub fn release(&mut self, frame: u32)
        requires resident { IsTrue (is_resident (frame_of self.old frame)) }
        ensures released { self.new ≡ released self.old frame }
    {
        let room = &mut self.frames[frame as usize];
        room.used = Use::Free;
        self.order.remove(frame);
        self.resident -= 1;
        self.free.push_reserved(frame);
    }

    /// The bytes of a resident page.
    pub fn bytes(&self, frame: u32) -> &[u8]
        requires resident { IsTrue (is_resident (frame_of self.now frame)) }
        ensures bytes { result.now ≡ bytes_of (frame_of self.now frame) }
        ensures size { length result.now ≡ self.now.page_size }
    {
        self.frames[frame as usize].page.bytes()
    }

    /// The bytes of a resident page, to be written over.
    pub fn bytes_mut(&mut self, frame: u32) -> &mut [u8]
        requires resident { IsTrue (is_resident (frame_of self.old frame)) }
        ensures* writes_back { sem 𝓛 (Lends the_row (Array byte 0) self.entry result (with_page self.old frame)) }
        ensures bytes { result.now ≡ bytes_of (frame_of self.old frame) }
        ensures size { length result.now ≡ self.old.page_size }
    {
        self.frames[frame as usize].page.bytes_mut()
    }

    /// Marks a resident page as clean.
    pub fn mark_clean(&mut self, frame: u32)
        requires resident { IsTrue (is_resident (frame_of self.old frame)) }
        ensures marked { self.new ≡ marked self.old frame true }
    {
        self.order.mark(frame);
    }

    /// Marks a resident page as dirty.
    pub fn mark_dirty(&mut self, frame: u32)
        requires resident { IsTrue (is_resident (frame_of self.old frame)) }
        ensures marked { self.new ≡ marked self.old frame false }
    {
        self.order.unmark(frame);
    }

    /// The frame of the oldest page of a region, none where no page of it is resident.
    pub fn oldest_of(&self, region: u16) -> Option<u32>
        ensures exact { result ≡ find (is_of_region self.now region) self.now.order }
    {
        self.order.first_of(region as u32)
    }

    /// The frame of the oldest clean page of a region but one page, none where there is none.
    pub fn oldest_clean(&self, region: u16, but: Option<Key>) -> Option<u32>
        ensures exact { result ≡ find (is_clean_but self.now region but) self.now.order }
    {
        let oldest = self.order.first_marked(region as u32);
        let Some(page) = but else {
            return oldest;
        };
        match oldest {
            Some(frame) => self.oldest_past(region, frame, page),
            None => None,
        }
    }

    /// The frame of the oldest clean page of a region but one page, from the oldest of all its clean pages.
    fn oldest_past(&self, region: u16, oldest: u32, but: Key) -> Option<u32>
        requires resident { IsTrue (is_resident (frame_of self.now oldest)) }
        requires oldest { Some oldest ≡ find (is_clean_but self.now region None) self.now.order }
        ensures exact { result ≡ find (is_clean_but self.now region (Some but)) self.now.order }
    {
        if self.resident_in(oldest) == but {
            self.order.first_marked_but(region as u32, oldest)
        } else {
            Some(oldest)
        }
    }

    /// Of two frames with resident pages, where there are two, that of the older page.
    pub fn older(&self, one: Option<u32>, other: Option<u32>) -> Option<u32>
        requires one { IfSome one (λ frame. frame < length self.now.frames) }
        requires other { IfSome other (λ frame. frame < length self.now.frames) }
        ensures first { FirstOfBoth self.now.order one other result }
        ensures within { IfSome result (λ frame. frame < length self.now.frames) }
    {
        self.order.older(one, other)
    }

    /// The frames in the order have the resident pages, in the order of filling.
    pub fn ordered(&self)
        ensures ordered { IsFillOrder self.now }
    {
        self.order.whole();
    }

    /// The resident page of a frame, none where there is none.
    pub fn at(&self, frame: u32) -> Option<Key>
        requires within { frame < length self.now.frames }
        ensures exact { result ≡ resident_key (frame_of self.now frame) }
    {
        match self.frames[frame as usize].used {
            Use::Resident(key) => Some(key),
            Use::Free | Use::Reserved(_) => None,
        }
    }

    /// The resident page at a place in the order of filling, none past the last. It walks there from the oldest.
    pub fn nth(&self, place: u32) -> Option<Key>
        ensures exact { result ≡ slice_get self.now.residents place }
    {
        let mut at = self.order.first();
        for _ in 0..place {
            at = self.order.next(at?);
        }
        Some(self.resident_in(at?))
    }

    /// The page of a frame in the order.
    fn resident_in(&self, frame: u32) -> Key
        requires resident { IsTrue (is_resident (frame_of self.now frame)) }
        ensures page { result ≡ page_of (frame_of self.now frame) }
    {
        let Use::Resident(key) = self.frames[frame as usize].used else {
            unreachable!()
        };
        key
    }

    /// The number of resident pages.
    pub fn resident(&self) -> u32
        ensures exact { result ≡ length self.now.residents }
        ensures counted { result ≡ count_by is_resident self.now.frames }
    {
        self.resident
    }

    /// The number of free frames.
    pub fn free(&self) -> u32
        ensures exact { result ≡ free_frames self.now }
        ensures together { result + reserved_frames self.now + length self.now.residents ≡ length self.now.frames }
    {
        self.free.len() as u32
    }

    /// Whether the stripe evicts, where it did so `before` or not.
    pub fn evicting(&self, before: bool, marks: Marks) -> bool
        ensures exact { result ≡ evicts_further before marks (length self.now.residents) }
    {
        let resident = self.resident();
        resident >= marks.on || resident > marks.off && before
    }
}

#[cfg(test)]
mod tests {
    use super::*;
    use std::test::Fail;

    const PAGE: Key = Key { region: 0, page: 1 };

    /// A frame is reserved and given back.
    #[test]
    fn reserved_and_given_back(rt: HostRuntime) -> Result<(), Fail> {
        let mut buffer = PageBuffer::new(rt.alloc(), 2, 2, 10)?;
        let frame = buffer.reserve(PAGE);
        assert_eq!(rt; buffer.at(frame), None);
        assert_eq!(rt; buffer.free(), 1);
        buffer.unreserve(frame);
        assert_eq!(rt; buffer.free(), 2);
        buffer.close();
        Ok(())
    }

    /// A page is filled, written over, and leaves.
    #[test]
    fn filled_written_and_released(rt: HostRuntime) -> Result<(), Fail> {
        let mut buffer = PageBuffer::new(rt.alloc(), 1, 2, 1)?;
        let frame = buffer.reserve(PAGE);
        buffer.fill(frame, &[5, 6], true);
        assert_eq!(rt; buffer.at(frame), Some(PAGE));
        assert_eq!(rt; buffer.bytes(frame), [5, 6].as_slice());
        buffer.bytes_mut(frame).copy_from_slice(&[7, 8]);
        assert_eq!(rt; buffer.bytes(frame), [7, 8].as_slice());
        buffer.release(frame);
        assert_eq!(rt; buffer.resident(), 0);
        buffer.close();
        Ok(())
    }

    /// The oldest of a region is its page that was filled first, and so is the oldest of its clean pages.
    #[test]
    fn oldest_first(rt: HostRuntime) -> Result<(), Fail> {
        let mut buffer = PageBuffer::new(rt.alloc(), 2, 2, 10)?;
        let old = buffer.reserve(Key { region: 9, page: 9 });
        buffer.fill(old, &[5, 6], false);
        let new = buffer.reserve(PAGE);
        buffer.fill(new, &[7, 8], true);
        assert_eq!(rt; buffer.oldest_of(9), Some(old));
        assert_eq!(rt; buffer.oldest_of(0), Some(new));
        assert_eq!(rt; buffer.oldest_of(1), None);
        assert_eq!(rt; buffer.oldest_clean(9, None), None);
        assert_eq!(rt; buffer.oldest_clean(0, None), Some(new));
        assert_eq!(rt; buffer.oldest_clean(0, Some(PAGE)), None);
        assert_eq!(rt; buffer.older(Some(new), Some(old)), Some(old));
        assert_eq!(rt; buffer.nth(1), Some(PAGE));
        buffer.close();
        Ok(())
    }

    /// A page is among the clean pages of its region while it is marked so.
    #[test]
    fn marked_clean_and_dirty(rt: HostRuntime) -> Result<(), Fail> {
        let mut buffer = PageBuffer::new(rt.alloc(), 1, 1, 1)?;
        let frame = buffer.reserve(PAGE);
        buffer.fill(frame, &[5], false);
        buffer.mark_clean(frame);
        assert_eq!(rt; buffer.oldest_clean(0, None), Some(frame));
        buffer.mark_dirty(frame);
        assert_eq!(rt; buffer.oldest_clean(0, None), None);
        buffer.close();
        Ok(())
    }

    /// Between the marks a stripe goes on as before.
    #[test]
    fn evicts_from_one_mark_to_the_other(rt: HostRuntime) -> Result<(), Fail> {
        let buffer = PageBuffer::new(rt.alloc(), 1, 1, 1)?;
        assert_eq!(rt; buffer.evicting(false, Marks { on: 1, off: 0 }), false);
        assert_eq!(rt; buffer.evicting(true, Marks { on: 1, off: 0 }), false);
        assert_eq!(rt; buffer.evicting(false, Marks { on: 0, off: 0 }), true);
        buffer.close();
        Ok(())
    }
}
