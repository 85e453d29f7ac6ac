//! One order whose members have groups and marks, as lists: the order, each group, and the marked of each group.
//!
//! What must stay true when this file is changed: the list of a group is the order without the members of other groups, the
//! list of its marked members is that without those that aren't marked, and the stamps rise along the order. So the first of a
//! group is read off, and of two firsts the older is that with the lower stamp.
ghost use Rattle.std.specs.Prelude.{◌≡◌, ◌+◌, ◌<◌, ◌≤◌, ℕ, length, replicate, true, false, find, IsTrue, IfOk, IfSome, Some, slice_get};
ghost use Rattle.index_lists.specs.Lists.{list_at, stands};
ghost use Rattle.index_lists.specs.InsideOrders.{no_place, AreRising, AreBelow, IsSpotOf, IsSpotBefore, StandsWhere, marked_members, put_at, groups_in, marks_in};
ghost use Rattle.index_lists.specs.Orders.{FirstOfBoth, IsWhole, no_members, is_member, mark_of, in_group, marked_in, marked_but, appended, left_out, with_mark};

use crate::lists::IndexLists;
use crate::place::{Place, Spot};
use page_base::OutOfMemory;
use std::alloc::Global;
use std::marker::Model;

/// An order of numbers below a bound. Each member has a group, and is marked or not.
#[derive(Drop)]
pub struct GroupedOrder {
    order: IndexLists,
    groups: IndexLists,
    marked: IndexLists,
    places: Vec<Place>,
    many: u32,
    next: u64,
}

impl Model for GroupedOrder {
    ghost use Rattle.index_lists.specs.Orders.{OrderSeen};
    ghost use Rattle.index_lists.specs.InsideOrders.{order_seen, IsGrouped};

    ghost Value = { OrderSeen };

    ghost view = { λ o. order_seen o.order o.places.items o.many };

    ghost invariant = { λ o. IsGrouped (order_seen o.order o.places.items o.many) o.order o.groups o.marked o.places.items o.next };
}

impl GroupedOrder {
    /// An order with no members, for so many groups and the numbers below `numbers`. It takes all memory that it ever takes.
    pub fn new(alloc: Global, groups: u32, numbers: u32) -> Result<GroupedOrder, OutOfMemory>
        requires few { numbers + groups < 4294967296 }
        requires one_more { numbers + 1 < 4294967296 }
        ensures empty { IfOk result (λ o. o ≡ no_members groups numbers) }
    {
        let order = IndexLists::new(alloc, 1, numbers)?;
        let by_group = IndexLists::new(alloc, groups, numbers)?;
        let marked = IndexLists::new(alloc, groups, numbers)?;
        let places = places_for(alloc, numbers)?;
        Ok(GroupedOrder {
            order,
            groups: by_group,
            marked,
            places,
            many: groups,
            next: 0,
        })
    }

    /// The first of all members, none where there are none.
    pub fn first(&self) -> Option<u32>
        ensures exact { result ≡ slice_get self.now.order 0 }
        ensures within { IfSome result (λ number. number < self.now.numbers) }
    {
        self.order.first(0)
    }

    /// The member that stands behind this one in the order, none behind the last.
    pub fn next(&self, number: u32) -> Option<u32>
        requires within { number < self.now.numbers }
        ensures exact { (place : ℕ) → slice_get self.now.order place ≡ Some number
            → result ≡ slice_get self.now.order (place + 1) }
        ensures within { IfSome result (λ next. next < self.now.numbers) }
    {
        self.order.next(number)
    }

    /// The first member of a group, none where it has none.
    pub fn first_of(&self, group: u32) -> Option<u32>
        ensures exact { result ≡ find (in_group self.now group) self.now.order }
        ensures within { IfSome result (λ number. number < self.now.numbers) }
    {
        if group < self.many {
            self.groups.first(group)
        } else {
            None
        }
    }

    /// The first marked member of a group, none where it has none.
    pub fn first_marked(&self, group: u32) -> Option<u32>
        ensures exact { result ≡ find (marked_in self.now group) self.now.order }
        ensures within { IfSome result (λ number. number < self.now.numbers) }
    {
        if group < self.many {
            self.marked.first(group)
        } else {
            None
        }
    }

    /// The first marked member of a group that isn't this number, none where there is none.
    pub fn first_marked_but(&self, group: u32, but: u32) -> Option<u32>
        ensures exact { result ≡ find (marked_but self.now group but) self.now.order }
        ensures within { IfSome result (λ number. number < self.now.numbers) }
    {
        let first = self.first_marked(group)?;
        if first == but {
            self.marked.next(first)
        } else {
            Some(first)
        }
    }

    /// Of two members, where there are two, that which stands first.
    pub fn older(&self, one: Option<u32>, other: Option<u32>) -> Option<u32>
        requires one { IfSome one (λ number. number < self.now.numbers) }
        requires other { IfSome other (λ number. number < self.now.numbers) }
        ensures first { FirstOfBoth self.now.order one other result }
        ensures within { IfSome result (λ number. number < self.now.numbers) }
    {
        match (one, other) {
            (Some(a), Some(b)) => {
                if self.places[b as usize].stamp < self.places[a as usize].stamp {
                    Some(b)
                } else {
                    Some(a)
                }
            }
            (Some(a), None) => Some(a),
            (None, b) => b,
        }
    }

    /// Puts a number that is no member at the end of the order.
    pub fn push_back(&mut self, group: u32, number: u32, mark: bool)
        requires group { group < self.old.groups }
        requires within { number < self.old.numbers }
        requires fresh { is_member self.old number ≡ false }
        ensures appended { self.new ≡ appended self.old group number mark }
    {
        let stamp = next_stamp(&self.order, &mut self.places, self.next);
        self.places[number as usize] = Place {
            stamp,
            group,
            marked: mark,
        };
        self.next = stamp + 1;
        self.order.push_back(0, number);
        self.groups.push_back(group, number);
        if mark {
            self.marked.push_back(group, number);
        }
    }

    /// Takes a member out of the order.
    pub fn remove(&mut self, number: u32)
        requires member { IsTrue (is_member self.old number) }
        ensures left_out { self.new ≡ left_out self.old number }
    {
        self.order.remove(number);
        self.groups.remove(number);
        if self.places[number as usize].marked {
            self.marked.remove(number);
        }
    }

    /// Marks a member. It goes to its place among the marked of its group, which is looked for from it outwards in the list of
    /// the group.
    pub fn mark(&mut self, number: u32)
        requires member { IsTrue (is_member self.old number) }
        ensures marked { self.new ≡ with_mark self.old number true }
    {
        let Place { group, marked, .. } = self.places[number as usize];
        if marked {
            return;
        }
        let spot = self.spot(number);
        put(&mut self.marked, group, number, spot);
        self.places[number as usize].marked = true;
    }

    /// Takes a member's mark.
    pub fn unmark(&mut self, number: u32)
        requires member { IsTrue (is_member self.old number) }
        ensures unmarked { self.new ≡ with_mark self.old number false }
    {
        if !self.places[number as usize].marked {
            return;
        }
        self.marked.remove(number);
        self.places[number as usize].marked = false;
    }

    /// Each number below the bound has a place for its group and its mark.
    pub fn whole(&self)
        ensures whole { IsWhole self.now }
    {
        let _numbers = self.places.len();
    }

    /// Where a member that isn't marked comes to stand among the marked ones of its group. It goes outwards from the member, to
    /// both sides at once, and stops at the nearest that is marked or at an end.
    fn spot(&self, number: u32) -> Spot
        requires member { IsTrue (is_member self.now number) }
        requires unmarked { mark_of self.now number ≡ false }
        ensures spot { IsSpotOf self.now number result }
    {
        let mut before = self.groups.previous(number);
        let mut behind = self.groups.next(number);
        for _ in 0..self.places.len() {
            let Some(left) = before else {
                return Spot::Front;
            };
            if self.is_marked(left) {
                return Spot::Behind(left);
            }
            let Some(right) = behind else {
                return Spot::Back;
            };
            if self.is_marked(right) {
                return self.spot_before(right);
            }
            before = self.groups.previous(left);
            behind = self.groups.next(right);
        }
        Spot::Front
    }

    /// In front of a member among the marked ones of its group.
    fn spot_before(&self, number: u32) -> Spot
        requires within { number < self.now.numbers }
        ensures spot { (group place : ℕ) → group < self.now.groups
            → slice_get (marked_members self.now group) place ≡ Some number
            → IsSpotBefore (marked_members self.now group) place result }
    {
        match self.marked.previous(number) {
            Some(other) => Spot::Behind(other),
            None => Spot::Front,
        }
    }

    fn is_marked(&self, number: u32) -> bool
        requires within { number < self.now.numbers }
        ensures exact { result ≡ mark_of self.now number }
    {
        self.places[number as usize].marked
    }
}

/// Nothing kept of any number.
fn places_for(alloc: Global, numbers: u32) -> Result<Vec<Place>, OutOfMemory>
    ensures { IfOk result (λ places. places.items ≡ replicate numbers no_place) }
{
    let blank = Place {
        stamp: 0,
        group: 0,
        marked: false,
    };
    Ok(vec![in alloc; blank; numbers as usize]?)
}

/// Puts a number that stands in no list into one.
fn put(lists: &mut IndexLists, list: u32, number: u32, spot: Spot)
    requires list { list < length lists.old.lists }
    requires within { number < lists.old.numbers }
    requires fresh { stands lists.old number ≡ false }
    requires other { StandsWhere lists.old spot }
    ensures put { lists.new ≡ put_at lists.old list number spot }
{
    match spot {
        Spot::Front => lists.push_front(list, number),
        Spot::Back => lists.push_back(list, number),
        Spot::Behind(other) => lists.insert_behind(other, number),
    }
}

/// A stamp above those of all members. Where there is none, the stamps are dealt anew first, which happens once in 2^64 members.
fn next_stamp(order: &IndexLists, places: &mut Vec<Place>, next: u64) -> u64
    requires few { length places.old.items < 4294967296 }
    requires numbers { order.now.numbers ≡ length places.old.items }
    requires one { 0 < length order.now.lists }
    requires rising { AreRising places.old.items (list_at order.now 0) }
    requires below { AreBelow places.old.items (list_at order.now 0) next }
    ensures groups { groups_in places.new.items ≡ groups_in places.old.items }
    ensures marks { marks_in places.new.items ≡ marks_in places.old.items }
    ensures rising { AreRising places.new.items (list_at order.now 0) }
    ensures below { AreBelow places.new.items (list_at order.now 0) result }
    ensures room { result < 18446744073709551615 }
{
    if next < u64::MAX {
        return next;
    }
    restamp(order, places)
}

/// Deals the stamps anew, along the order from 0 on, and answers the next.
fn restamp(order: &IndexLists, places: &mut Vec<Place>) -> u64
    requires few { length places.old.items < 4294967296 }
    requires numbers { order.now.numbers ≡ length places.old.items }
    requires one { 0 < length order.now.lists }
    ensures groups { groups_in places.new.items ≡ groups_in places.old.items }
    ensures marks { marks_in places.new.items ≡ marks_in places.old.items }
    ensures rising { AreRising places.new.items (list_at order.now 0) }
    ensures below { AreBelow places.new.items (list_at order.now 0) result }
    ensures small { result < 4294967296 }
{
    order.sound();
    let mut at = order.first(0);
    let end = places.len() as u64;
    for stamp in 0..end {
        let Some(number) = at else {
            return end;
        };
        places[number as usize].stamp = stamp;
        at = order.next(number);
    }
    end
}
