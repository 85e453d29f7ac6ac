//! A job that adds numbers to the list, one in each hold.
ghost use Rattle.std.specs.Prelude.{◌≡◌, true, false, ◌∷◌};
ghost use Rattle.turn_lock.specs.Seen.{IsPassOf};
ghost use Rattle.locked_list.specs.Adders.{IsSameBut};

use crate::list::{Lines, Noted, Shelf};
use std::sync::Wait;
use std::sync::atomic::{AtomicU64, Ordering};
use turn_lock::{Pass, Signal, TurnLock, Work};

/// Adds a number. `false` where memory or the pass's holds ran out; then it made no entry, and a spent pass is as it was.
pub fn add_one<S: Shelf, R: Wait>(
    rt: &R,
    lock: &TurnLock<Lines<S>>,
    pass: &mut Pass<Lines<S>>,
    number: u64,
) -> bool
    requires own { IsPassOf lock.now pass.old }
    ensures own { IsPassOf lock.now pass.new }
    ensures same { IsSameBut pass.old pass.new }
    ensures added { result ≡ true → pass.new.mine ≡ number ∷ pass.old.mine }
    ensures none { result ≡ false → pass.new.mine ≡ pass.old.mine }
    ensures spent { pass.old.holds ≡ lock.now.holds → (result ≡ false) × (pass.new ≡ pass.old) }
{
    let (mut lines, held) = match lock.hold(rt, pass) {
        Ok(made) => made,
        Err(spent) => {
            spent.fault();
            return false;
        }
    };
    let owner = held.number();
    if lines.items.push_front((owner, number)).is_err() {
        held.leave(lines);
        return false;
    }
    held.give(lines, &Noted { number });
    true
}

/// Adds the numbers below `count` in rising order.
#[derive(Drop)]
pub struct Adder<'a, S: Shelf, R> {
    pub rt: &'a R,
    pub lock: &'a TurnLock<Lines<S>>,
    pub pass: Pass<Lines<S>>,
    pub count: u64,
    /// Whether all were added.
    pub done: bool,
}

impl<'a, S: Shelf, R: Wait> Work for Adder<'a, S, R> {
    ghost use Rattle.std.specs.Prelude.{◌≡◌, []};
    ghost use Rattle.turn_lock.specs.Seen.{IsPassOf};
    ghost use Rattle.locked_list.specs.Adders.{IsSameBut, HasAdded};

    ghost ready = { λ j. IsPassOf j.lock.now j.pass × (j.pass.mine ≡ []) };

    ghost leaves = { λ j k. IsPassOf j.lock.now k.pass × IsSameBut j.pass k.pass × HasAdded j.count k.pass k.done };

    fn work(&mut self) {
        self.done = false;
        for number in 0..self.count {
            if !add_one(self.rt, self.lock, &mut self.pass, number) {
                return;
            }
        }
        self.done = true;
    }
}

/// Set once the leading threads are done.
#[derive(Drop)]
pub struct Flag {
    word: AtomicU64,
}

impl Flag {
    /// A flag that isn't set.
    pub fn new() -> Flag {
        Flag {
            word: AtomicU64::new(0),
        }
    }

    /// Whether it is set; no clause says when.
    pub fn is_set(&self) -> bool {
        self.word.load(Ordering::SeqCst) != 0
    }
}

impl Signal for Flag {
    fn set<R: Wait>(&self, _rt: &R) {
        self.word.store(1, Ordering::SeqCst);
    }
}
