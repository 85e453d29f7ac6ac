//! A thread's work: holds of its locks in turn, timed from when all threads are there.
ghost use Rattle.std.specs.Prelude.{◌≡◌};
ghost use Rattle.turn_lock.specs.Seen.{IsPassOf};

use crate::tally::{Tally, Visit};
use std::marker::Model;
use std::rt::Clock;
use std::sync::{Barrier, Wait};
use std::time::Instant;
use turn_lock::{NoSpare, Pass, TurnLock, Work};

/// A lock and a pass of it.
#[derive(Drop)]
pub struct Station<'a> {
    lock: &'a TurnLock<Tally>,
    pass: Pass<Tally>,
}

impl<'a> Model for Station<'a> {
    ghost use Rattle.turn_lock.specs.Seen.{PassSeen, IsPassOf};
    ghost use Rattle.lock_bench.specs.declared.tally.Tally.{Tally};

    ghost Value = { PassSeen Tally (Unit {0}) };

    ghost view = { λ s. s.pass };

    ghost invariant = { λ s. IsPassOf s.lock.now s.pass };
}

impl<'a> Station<'a> {
    /// A station at this lock, with a pass of it.
    pub fn new(lock: &'a TurnLock<Tally>, pass: Pass<Tally>) -> Station<'a>
        requires { IsPassOf lock.now pass }
        ensures { result ≡ pass }
    {
        Station { lock, pass }
    }

    /// A further station at the same lock.
    pub fn beside(&mut self) -> Result<Station<'a>, NoSpare> {
        let pass = self.pass.split(self.lock)?;
        Ok(Station {
            lock: self.lock,
            pass,
        })
    }

    /// One hold that gives an entry. `false` where the pass has made all its holds.
    fn visit<R: Wait>(&mut self, rt: &R) -> bool {
        let (mut tally, held) = match self.lock.hold(rt, &mut self.pass) {
            Ok(made) => made,
            Err(spent) => {
                spent.fault();
                return false;
            }
        };
        tally.visit();
        held.give(tally, &Visit);
        true
    }
}

/// So many holds, one station after another, and the nanoseconds that they took, where the clock told them.
#[derive(Drop)]
pub struct Worker<'r, 'a, R> {
    pub rt: &'r R,
    pub start: &'r Barrier,
    pub stations: Vec<Station<'a>>,
    pub holds: u64,
    pub nanos: Option<u128>,
}

impl<'r, 'a, R: Wait> Worker<'r, 'a, R> {
    fn hold_in_turn(&mut self) {
        let mut made = 0;
        for _ in self.rt.forever() {
            for station in self.stations.iter_mut() {
                if made >= self.holds || !station.visit(self.rt) {
                    return;
                }
                made += 1;
            }
            if self.stations.is_empty() {
                return;
            }
        }
    }
}

impl<'r, 'a, R: Wait + Clock> Work for Worker<'r, 'a, R> {
    ghost use Rattle.std.specs.Prelude.{⊤};

    ghost ready = { λ w. ⊤ };

    ghost leaves = { λ w x. ⊤ };

    fn work(&mut self) {
        self.start.wait(self.rt);
        let Ok(start) = Instant::now(self.rt) else {
            return;
        };
        self.hold_in_turn();
        if let Ok(took) = start.elapsed(self.rt) {
            self.nanos = Some(took.as_nanos());
        }
    }
}
