//! Two threads that add to one list.
ghost use Rattle.std.specs.Prelude.{◌≡◌, ℕ, ◌^◌, ◌≤◌, true, [], IfOk};
ghost use Rattle.histories.specs.Histories.{calls_of};
ghost use Rattle.turn_lock.specs.Jobs.{EachReady, EachDone};
ghost use Rattle.turn_lock.specs.Seen.{IsPassOf};
ghost use Rattle.locked_list.specs.Adders.{IsSameBut, HasAdded, Leaves};
ghost use Rattle.locked_list.specs.Numbers.{down_from};

use crate::adder::{Adder, Flag};
use crate::list::{Lines, Shelf};
use std::alloc::Global;
use std::sync::Wait;
use std::thread::Threads;
use turn_lock::{Closed, NewFault, Pass, TurnLock, work_beside, work_two};

// Works on two jobs, one beside the other, and hands their passes back.
fn work_both<'a, S: Shelf + Send, R: Threads + Wait + Sync>(
    rt: &'a R,
    lock: &'a TurnLock<Lines<S>>,
    first: Pass<Lines<S>>,
    second: Pass<Lines<S>>,
    count: u64,
) -> (Pass<Lines<S>>, Pass<Lines<S>>, bool)
    requires first { IsPassOf lock.now first × (first.mine ≡ []) }
    requires second { IsPassOf lock.now second × (second.mine ≡ []) }
    ensures first { IsPassOf lock.now result.0 × IsSameBut first result.0 }
    ensures second { IsPassOf lock.now result.1 × IsSameBut second result.1 }
    ensures added { HasAdded count result.0 result.2 × HasAdded count result.1 result.2 }
{
    let mut one = Adder {
        rt,
        lock,
        pass: first,
        count,
        done: false,
    };
    let mut other = Adder {
        rt,
        lock,
        pass: second,
        count,
        done: false,
    };
    work_two(rt, &mut one, &mut other);
    let all = one.done && other.done;
    (one.pass, other.pass, all)
}

/// Works on the followers' jobs beside the leaders', and sets the flag once the leaders are done.
pub fn add_all<'a, S: Shelf + Send, R: Threads + Wait + Sync>(
    rt: &'a R,
    done: &Flag,
    followers: &mut [Adder<'a, S, R>],
    leaders: &mut [Adder<'a, S, R>],
)
    requires followers { EachReady (λ j. IsPassOf j.lock.now j.pass × (j.pass.mine ≡ [])) followers.old }
    requires leaders { EachReady (λ j. IsPassOf j.lock.now j.pass × (j.pass.mine ≡ [])) leaders.old }
    ensures followers { EachDone (λ j k. Leaves j.lock.now j.count j.pass k.pass k.done) followers.old followers.new }
    ensures leaders { EachDone (λ j k. Leaves j.lock.now j.count j.pass k.pass k.done) leaders.old leaders.new }
{
    work_beside(rt, done, followers, leaders);
}

/// The list at the end, its history, and whether both threads added all their numbers.
#[derive(Drop)]
pub struct Added<S: Shelf> {
    pub lines: Lines<S>,
    pub closed: Closed<u64>,
    pub all: bool,
}

/// Two threads add the numbers below `count` each, one beside the other. For want of memory the list comes back.
pub fn add_beside<S: Shelf + Send, R: Threads + Wait + Sync>(
    rt: &R,
    alloc: Global,
    lines: Lines<S>,
    count: u64,
) -> Result<Added<S>, Lines<S>>
    requires empty { lines.items.items ≡ [] }
    requires count { (2 ≤ count) × (count ≤ 2 ^ 40) }
    ensures stands { IfOk result (λ a. a.lines.items.items ≡ a.closed.history) }
    ensures label { IfOk result (λ a. a.lines.label ≡ lines.label) }
    ensures first { IfOk result (λ a. a.all ≡ true → calls_of 0 a.closed.history ≡ down_from count) }
    ensures second { IfOk result (λ a. a.all ≡ true → calls_of 1 a.closed.history ≡ down_from count) }
    ensures no_others { IfOk result (λ a. (o : ℕ) → 2 ≤ o → calls_of o a.closed.history ≡ []) }
{
    let (lock, mut first) = match TurnLock::new(alloc, lines, 2, count) {
        Ok(made) => made,
        Err(NewFault::OutOfMemory { value }) => return Err(value),
        Err(NewFault::TooManySeats { value: _ }) => unreachable!(),
    };
    let Ok(second) = first.split(&lock) else {
        unreachable!()
    };
    let (mut first, second, all) = work_both(rt, &lock, first, second, count);
    first.fold(&lock, second);
    let (lines, closed) = lock.close(first);
    Ok(Added { lines, closed, all })
}
