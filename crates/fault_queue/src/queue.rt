//! The fault queue: slots for as many raises as the capacity, the order in which they were raised, and chains by page.
//!
//! The order is a list over the numbers of the slots, and the free slots are another. A page's raise is found in the chain of
//! its bucket, which has the slots of that bucket in the order of the queue. Each change has to keep one raise a page at the
//! most, since a chain is walked to the first that it has of a page.
//!
//! By group the slots stand in lists of their own, again in the order of the queue, and each slot has a stamp that rises along
//! the order. So the first raise among several groups is the head with the least stamp. A stamp at the end of its range says
//! nothing any more, and the order is walked in its place.
ghost use Rattle.std.specs.Prelude.{◌≡◌, ◌<◌, ◌≤◌, ◌↔◌, [], length, false, Some, None, IsSome, IfSome, IfNone, IsErr, OnOk, OnErr, IfOk, All, Contains, find, option_map, true, ◌==◌};
ghost use Rattle.std.specs.List.{list_any};
ghost use Rattle.page_base.specs.declared.limits.TheConstants.{MOST_REGIONS};
ghost use Rattle.page_base.specs.declared.keys.Key.{Key};
ghost use Rattle.page_base.specs.declared.keys.Why.{Why};
ghost use Rattle.page_base.specs.declared.keys.Raise.{Raise};
ghost use Rattle.index_lists.specs.Lists.{list_at};
ghost use Rattle.fault_queue.specs.InsideQueues.{bucket_of, holds, fault_group, groups, earlier};
ghost use Rattle.fault_queue.specs.Queues.{pending_why, without, raise_of, of_raise, with_raise, IsFirst, FindsComputed, asks_group, of_group, FindsAmong, AreOnce, group_region, opens};

use index_lists::IndexLists;
use page_base::{Key, MOST_REGIONS, OutOfMemory, Raise, Why};
use std::alloc::Global;
use std::marker::Model;
use thiserror::Error;

/// The queue holds as many raises as it may.
#[derive(Clone, Copy, Debug, PartialEq, Eq, Error)]
#[error("the fault queue is full")]
pub struct QueueFull;

// The two lists over the slots.
const QUEUED: u32 = 0;

const FREE: u32 = 1;

// More slots and chains can't be numbered.
const MOST_SLOTS: u32 = 2_147_483_647;

// The groups of raises that are for reading stand first, by region, and those for protected pages behind them.
const READING: u32 = MOST_REGIONS as u32;

const GROUPS: u32 = 2 * READING;

// Up to so many raises a walk over the order is no slower than a look at the head of each group.
const FEW_RAISES: u32 = 64;

// No stamp: those before it rise.
const NO_STAMP: u64 = u64::MAX;

/// The raises that wait, in order.
#[derive(Drop)]
pub struct FaultQueue {
    slots: Vec<Raise>,
    order: IndexLists,
    chains: IndexLists,
    groups: IndexLists,
    stamps: Vec<u64>,
    told: u64,
    count: u32,
}

impl Model for FaultQueue {
    ghost use Rattle.std.specs.Prelude.{length};
    ghost use Rattle.index_lists.specs.Lists.{list_at};
    ghost use Rattle.fault_queue.specs.Queues.{QueueSeen};
    ghost use Rattle.fault_queue.specs.InsideQueues.{raises_in, IsSound, AreFaultsGrouped};

    ghost Value = { QueueSeen };

    ghost view = { λ q. record { raises = raises_in q.slots.items (list_at q.order 0); capacity = length q.slots.items } };

    ghost invariant = { λ q. IsSound q.slots.items q.order q.chains q.count
        × AreFaultsGrouped q.slots.items (list_at q.order 0) q.groups q.stamps.items q.told };
}

impl FaultQueue {
    /// An empty queue. It takes all memory that the queue ever takes.
    pub fn new(alloc: Global, capacity: u32) -> Result<FaultQueue, OutOfMemory>
        requires some { 1 ≤ capacity }
        ensures empty { IfOk result (λ q. q.raises ≡ []) }
        ensures capacity { IfOk result (λ q. q.capacity ≡ capacity) }
    {
        if capacity > MOST_SLOTS {
            return Err(OutOfMemory);
        }
        let blank = Raise {
            key: Key { region: 0, page: 0 },
            why: Why::Read,
        };
        let slots = vec![in alloc; blank; capacity as usize]?;
        let stamps = vec![in alloc; 0u64; capacity as usize]?;
        let chains = IndexLists::new(alloc, capacity, capacity)?;
        let groups = IndexLists::new(alloc, GROUPS, capacity)?;
        let mut order = IndexLists::new(alloc, 2, capacity)?;
        for slot in 0..capacity {
            order.push_back(FREE, slot);
        }
        Ok(FaultQueue {
            slots,
            order,
            chains,
            groups,
            stamps,
            told: 0,
            count: 0,
        })
    }

    /// Puts a raise at the end of the queue.
    pub fn raise(&mut self, key: Key, why: Why) -> Result<(), QueueFull>
        requires fresh { pending_why self.old.raises key ≡ None }
        ensures ok { OnOk result (self.new ≡ with_raise self.old key why) }
        ensures room { OnOk result (length self.old.raises < self.old.capacity) }
        ensures full { IsErr result ↔ (length self.old.raises ≡ self.old.capacity) }
        ensures err { OnErr result (self.new ≡ self.old) }
    {
        let Some(slot) = self.order.first(FREE) else {
            return Err(QueueFull);
        };
        self.order.sound();
        self.order.remove(slot);
        self.order.push_back(QUEUED, slot);
        let bucket = bucket(self.slots.len(), key);
        self.chains.push_back(bucket, slot);
        self.groups.push_back(group(key, why), slot);
        self.slots[slot as usize] = Raise { key, why };
        self.stamps[slot as usize] = self.told;
        self.told = self.told.saturating_add(1);
        self.count += 1;
        Ok(())
    }

    /// The first raise that passes the test, in order.
    pub fn first_where<T: Fn(Key, Why) -> bool>(&self, test: T) -> Option<(Key, Why)>
        requires callable { (r : Raise) → Contains self.now.raises r → T.pre test r.key r.why }
        ensures first { IfSome result (λ r. IsFirst (of_raise (T.post test)) self.now.raises (raise_of r)) }
        ensures none { IfNone result (All (λ r. T.post test r.key r.why false) self.now.raises) }
        ensures computed { FindsComputed (of_raise (T.post test)) self.now.raises (option_map raise_of result) }
    {
        self.order.sound();
        let mut at = self.order.first(QUEUED);
        for _ in 0..self.count {
            let slot = at.unwrap();
            let raise = self.slots[slot as usize];
            if test(raise.key, raise.why) {
                return Some((raise.key, raise.why));
            }
            at = self.order.next(slot);
        }
        None
    }

    /// The first raise of the groups that pass the test, in order. A raise is of the group of its region's number modulo
    /// `MOST_REGIONS`, apart by whether it is for a protected page, and the test gets both. It looks at the first raise of
    /// each group at the most.
    pub fn first_among<T: Fn(u16, bool) -> bool>(&self, test: T) -> Option<(Key, Why)>
        requires callable { (r : Raise) → Contains self.now.raises r → asks_group (T.pre test) r }
        ensures computed { FindsAmong (T.post test) self.now.raises (option_map raise_of result) }
    {
        if self.count <= FEW_RAISES || self.told >= NO_STAMP {
            return self.first_where(
                |key: Key, why: Why| -> bool
                    requires { asks_group (T.pre test) (record { key = key; why = why }) }
                    ensures { of_group (T.post test) (record { key = key; why = why }) result }
                { test(region_of(key), is_opening(why)) },
            );
        }
        let mut best: Option<u32> = None;
        for group in 0..GROUPS {
            if let Some(slot) = self.groups.first(group) {
                let raise = self.slots[slot as usize];
                if test(region_of(raise.key), is_opening(raise.why)) {
                    best = Some(earlier(&self.stamps, best, slot));
                }
            }
        }
        let raise = self.slots[best? as usize];
        Some((raise.key, raise.why))
    }

    /// Whether a raise of a region waits. The region's number is below `MOST_REGIONS`, and taken modulo that of the raises.
    pub fn waits_in(&self, region: u16) -> bool
        requires few { region < MOST_REGIONS }
        ensures exact { result ≡ list_any (λ r. group_region r == region) self.now.raises }
    {
        self.groups.first(u32::from(region)).is_some()
            || self.groups.first(READING + u32::from(region)).is_some()
    }

    /// A page is raised at most once.
    pub fn sound(&self)
        ensures once { AreOnce self.now.raises }
    {
        let _count = self.count;
    }

    /// Why a page waits, none where it doesn't.
    pub fn pending(&self, key: Key) -> Option<Why>
        ensures exact { result ≡ pending_why self.now.raises key }
    {
        let slot = slot_of(&self.slots, &self.chains, key)?;
        Some(self.slots[slot as usize].why)
    }

    /// Takes the raise of a page out of the queue.
    pub fn withdraw(&mut self, key: Key) -> Why
        requires pending { IsSome (pending_why self.old.raises key) }
        ensures why { pending_why self.old.raises key ≡ Some result }
        ensures others { self.new ≡ record self.old { raises = without key self.old.raises } }
    {
        let slot = slot_of(&self.slots, &self.chains, key).unwrap();
        self.order.sound();
        self.order.remove(slot);
        self.order.push_back(FREE, slot);
        self.chains.remove(slot);
        self.groups.remove(slot);
        self.count -= 1;
        self.slots[slot as usize].why
    }

    /// The number of raises.
    pub fn len(&self) -> u32
        ensures exact { result ≡ length self.now.raises }
        ensures within { result ≤ self.now.capacity }
    {
        self.count
    }
}

/// The bucket of a page.
fn bucket(buckets: usize, key: Key) -> u32
    requires some { 1 ≤ buckets }
    requires few { buckets < 2147483648 }
    ensures exact { result ≡ bucket_of buckets key }
    ensures below { result < buckets }
{
    let number = u64::from(key.region) * 65537 + u64::from(key.page);
    (number % buckets as u64) as u32
}

/// The region's number modulo that of regions.
fn region_of(key: Key) -> u16
    ensures exact { (why : Why) → result ≡ group_region (record { key = key; why = why }) }
{
    key.region % MOST_REGIONS as u16
}

/// Whether a raise is for a protected page.
fn is_opening(why: Why) -> bool
    ensures exact { (key : Key) → result ≡ opens (record { key = key; why = why }) }
{
    matches!(why, Why::Protected)
}

/// The group of a raise.
fn group(key: Key, why: Why) -> u32
    ensures exact { result ≡ fault_group (record { key = key; why = why }) }
    ensures below { result < groups }
{
    let region = u32::from(region_of(key));
    if is_opening(why) {
        READING + region
    } else {
        region
    }
}

/// The one of two slots whose raise came first.
fn earlier(stamps: &[u64], best: Option<u32>, slot: u32) -> u32
    requires best { IfSome best (λ b. b < length stamps.now) }
    requires slot { slot < length stamps.now }
    ensures exact { result ≡ earlier stamps.now best slot }
{
    match best {
        Some(first) if stamps[first as usize] < stamps[slot as usize] => first,
        _ => slot,
    }
}

/// The slot of a page's raise, none where there is none. It walks the chain of the page's bucket.
fn slot_of(slots: &[Raise], chains: &IndexLists, key: Key) -> Option<u32>
    requires some { 1 ≤ length slots.now }
    requires few { length slots.now < 2147483648 }
    requires numbers { chains.now.numbers ≡ length slots.now }
    requires lists { length chains.now.lists ≡ length slots.now }
    requires short { length (list_at chains.now (bucket_of (length slots.now) key)) ≤ length slots.now }
    ensures exact { result ≡ find (holds slots.now key) (list_at chains.now (bucket_of (length slots.now) key)) }
    ensures within { IfSome result (λ slot. slot < length slots.now) }
{
    let mut at = chains.first(bucket(slots.len(), key));
    for _ in 0..slots.len() {
        let slot = at?;
        if slots[slot as usize].key == key {
            return Some(slot);
        }
        at = chains.next(slot);
    }
    None
}

#[cfg(test)]
mod tests {
    use super::*;
    use std::process::Abort;
    use std::test::Fail;

    const FIRST: Key = Key { region: 0, page: 0 };

    const SECOND: Key = Key { region: 0, page: 1 };

    const THIRD: Key = Key { region: 1, page: 0 };

    /// A queue with room for one: raised, pending, full.
    #[test]
    fn room_for_one(rt: HostRuntime) -> Result<(), Fail> {
        let mut queue = FaultQueue::new(rt.alloc(), 1)?;
        assert_eq!(rt; queue.raise(FIRST, Why::Read), Ok(()));
        assert_eq!(rt; queue.pending(FIRST), Some(Why::Read));
        assert_eq!(rt; queue.pending(SECOND), None);
        assert_eq!(rt; queue.raise(SECOND, Why::Read), Err(QueueFull));
        assert_eq!(rt; queue.len(), 1);
        Ok(())
    }

    /// The first that passes is the oldest, and a withdrawal keeps the order of the others.
    #[test]
    fn others_keep_their_order(rt: HostRuntime) -> Result<(), Fail> {
        let mut queue = FaultQueue::new(rt.alloc(), 4)?;
        let _ = queue.raise(FIRST, Why::Read);
        let _ = queue.raise(SECOND, Why::Write);
        let _ = queue.raise(THIRD, Why::Ahead);
        assert_eq!(rt;
            queue.first_where(|_, why| why != Why::Read),
            Some((SECOND, Why::Write))
        );
        assert_eq!(rt; queue.pending(FIRST), Some(Why::Read));
        assert_eq!(rt; queue.withdraw(FIRST), Why::Read);
        assert_eq!(rt; queue.first_where(|_, _| true), Some((SECOND, Why::Write)));
        assert_eq!(rt; queue.first_where(|key, _| key.region == 7), None);
        assert_eq!(rt; queue.len(), 2);
        Ok(())
    }

    /// Two pages of one bucket, of which the first is withdrawn: the other is found behind it, and the order is that of the
    /// raises, up to the capacity.
    #[test]
    fn a_bucket_has_two_pages(rt: HostRuntime) -> Result<(), Fail> {
        const FOURTH: Key = Key { region: 0, page: 3 };
        const SEVENTH: Key = Key { region: 0, page: 6 };
        const TENTH: Key = Key { region: 0, page: 9 };
        let mut queue = FaultQueue::new(rt.alloc(), 3)?;
        let _ = queue.raise(FIRST, Why::Read);
        let _ = queue.raise(FOURTH, Why::Read);
        let _ = queue.raise(SECOND, Why::Write);
        assert_eq!(rt; queue.pending(FOURTH), Some(Why::Read));
        assert_eq!(rt; queue.pending(FIRST), Some(Why::Read));
        assert_eq!(rt; queue.withdraw(FIRST), Why::Read);
        assert_eq!(rt; queue.pending(FOURTH), Some(Why::Read));
        assert_eq!(rt; queue.first_where(|_, _| true), Some((FOURTH, Why::Read)));
        assert_eq!(rt; queue.pending(SEVENTH), None);
        assert_eq!(rt; queue.raise(SEVENTH, Why::Ahead), Ok(()));
        assert_eq!(rt;
            queue.first_where(|key, _| key != FOURTH),
            Some((SECOND, Why::Write))
        );
        assert_eq!(rt;
            queue.first_where(|key, _| key.page > 3),
            Some((SEVENTH, Why::Ahead))
        );
        assert_eq!(rt; queue.pending(TENTH), None);
        assert_eq!(rt; queue.raise(TENTH, Why::Read), Err(QueueFull));
        Ok(())
    }

    fn raise_new(queue: &mut FaultQueue, key: Key, why: Why) {
        if queue.pending(key).is_none() {
            let _ = queue.raise(key, why);
        }
    }

    fn key(region: u16, page: u32) -> Key {
        Key { region, page }
    }

    /// Each row of two regions, and the first raise of the third.
    fn assert_rows(rt: &impl Abort, queue: &FaultQueue, third: Option<(Key, Why)>) {
        let zero = queue.first_among(|region, _| region == 0);
        assert_eq!(rt; zero, Some((key(0, 0), Why::Protected)));
        let reading = queue.first_among(|_, opens| !opens);
        assert_eq!(rt; reading, Some((key(1, 0), Why::Read)));
        let opening = queue.first_among(|region, opens| region == 1 && opens);
        assert_eq!(rt; opening, Some((key(1, 1), Why::Protected)));
        assert_eq!(rt;
            queue.first_among(|_, _| true),
            Some((key(1, 0), Why::Read))
        );
        assert_eq!(rt; queue.first_among(|region, _| region == 2), third);
        assert_eq!(rt; queue.first_among(|region, _| region == 63), None);
        assert_eq!(rt; queue.waits_in(1), true);
        assert_eq!(rt; queue.waits_in(63), false);
    }

    /// The first among groups where few raises wait, and the same where the third region fills the queue.
    #[test]
    fn the_first_among_groups(rt: HostRuntime) -> Result<(), Fail> {
        let mut queue = FaultQueue::new(rt.alloc(), 80)?;
        raise_new(&mut queue, key(1, 0), Why::Read);
        raise_new(&mut queue, key(0, 0), Why::Protected);
        raise_new(&mut queue, key(0, 1), Why::Write);
        raise_new(&mut queue, key(1, 1), Why::Protected);
        assert_rows(&rt, &queue, None);
        for page in 0..76 {
            raise_new(&mut queue, key(2, page), Why::Ahead);
        }
        assert_eq!(rt; queue.len(), 80);
        assert_rows(&rt, &queue, Some((key(2, 0), Why::Ahead)));
        Ok(())
    }
}
