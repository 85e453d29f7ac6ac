//! One stripe under its lock by hand: a region of two pages that take turns in one frame of 64 bytes.
ghost use Rattle.std.specs.Prelude.{◌≡◌, ◌<◌, ◌≤◌, ◌^◌, IfOk};
ghost use Rattle.page_model.specs.Setups.{regions};
ghost use Rattle.store_trait.specs.Memory.{memory_origin};

use crate::one_stripe::small_config;
use case_tools::{failing_memory_lane, memory_lane};
use locked_stripe::{
    Access, Back, NotedStripe, Served, StripeBox, load_in, make_room_in, serve_in, store_in,
};
use page_base::{Key, Layout, List};
use page_model::NoJournal;
use std::alloc::Global;
use std::marker::Model;
use std::process::Abort;
use std::sync::Wait;
use std::test::Fail;
use store_trait::Store;
use stripe_core::{NewStripe, Stripe};
use turn_lock::{Pass, PassSpent, TurnLock};

/// A stripe with two pages, each of 64 bytes, under a lock with one pass.
struct Seat<S: Store> {
    lock: TurnLock<StripeBox<S, NoJournal>>,
    pass: Pass<StripeBox<S, NoJournal>>,
}

impl<S: Store> Model for Seat<S> {
    ghost use Rattle.std.specs.Prelude.{◌≡◌, ℕ, ◌<◌, true};
    ghost use Rattle.page_model.specs.Setups.{has_page, is_writable, regions};
    ghost use Rattle.locked_stripe.specs.Terms.{locked_setup};
    ghost use Rattle.turn_lock.specs.Seen.{IsPassOf};

    ghost Value = { ℕ };

    ghost view = { λ s. s.pass.holds };

    ghost invariant = { λ s. record { own : IsPassOf s.lock s.pass; page_size : (locked_setup s.lock).page_size ≡ 64; pages : (p : ℕ) → p < 2 → has_page (locked_setup s.lock) (record { region = 0; page = p }) ≡ true; writable : is_writable (locked_setup s.lock) 0 ≡ true; one : regions (locked_setup s.lock) ≡ 1 } };
}

impl<S: Store> Seat<S> {
    fn load<R: Wait>(&mut self, rt: &R, page: u32) -> Result<u8, Access>
        requires page { page < 2 }
    {
        let mut scratch = [0u8; 64];
        let mut byte = [0u8];
        let key = Key { region: 0, page };
        match load_in(
            rt,
            &self.lock,
            &mut self.pass,
            &mut scratch,
            key,
            5,
            &mut byte,
        ) {
            Ok(()) => Ok(byte[0]),
            Err(why) => Err(why),
        }
    }

    fn store<R: Wait>(&mut self, rt: &R, page: u32, byte: u8) -> Result<(), Access>
        requires page { page < 2 }
    {
        let mut scratch = [0u8; 64];
        let key = Key { region: 0, page };
        store_in(
            rt,
            &self.lock,
            &mut self.pass,
            &mut scratch,
            key,
            5,
            &[byte],
        )
    }

    fn serve<R: Wait>(&mut self, rt: &R) -> Result<Served, PassSpent> {
        let mut scratch = [0u8; 64];
        serve_in(rt, &self.lock, &mut self.pass, &mut scratch)
    }

    fn make_room<R: Wait>(&mut self, rt: &R) -> Result<Back, PassSpent> {
        let mut scratch = [0u8; 64];
        make_room_in(rt, &self.lock, &mut self.pass, &mut scratch)
    }

    fn left(&self) -> u64 {
        self.pass.left()
    }
}

impl<S: Store + Drop> Seat<S> {
    /// Ends the lock and the stripe. Where a pass or a lane were out, it would abort.
    fn end<R: Abort>(self, rt: &R) {
        let Seat { lock, pass } = self;
        if pass.number() != 0 || !pass.alone() {
            panic!(rt; "another pass is out");
        }
        let (stripe, _closed) = lock.close(pass);
        let (stripe, _journal) = stripe.into_parts();
        spend(rt, stripe);
    }
}

/// Ends a stripe of one region. Where its lane were out, it would abort.
fn spend<S: Store + Drop, R: Abort>(rt: &R, stripe: Stripe<S>)
    requires one { regions stripe.setup ≡ 1 }
{
    if !stripe.is_home(0) {
        panic!(rt; "a lane is out");
    }
    let _lanes = stripe.into_lanes();
}

/// The stripe under a lock, whose one pass may make so many holds.
fn seated<S: Store + Drop, R: Abort>(
    rt: &R,
    alloc: Global,
    layout: Layout,
    lane: S,
    holds: u64,
) -> Result<Seat<S>, Fail>
    requires page_size { layout.page_size ≡ 64 }
    requires stripes { layout.stripes ≡ 1 }
    requires lane { (S.seen lane).origin ≡ memory_origin 0 2 64 1 0 }
    requires holds { (2 ≤ holds) × (holds ≤ 2 ^ 40) }
{
    let config = small_config(alloc, layout)?;
    let mut lanes = Vec::new(alloc);
    if lanes.push(lane).is_err() {
        return Err(Fail::new("no memory"));
    }
    let stripe = match Stripe::new(alloc, &config, List::from_vec(lanes)) {
        Ok(stripe) => stripe,
        Err(NewStripe::OutOfMemory { lanes: _ }) => return Err(Fail::new("no memory")),
    };
    let boxed = match StripeBox::new(alloc, stripe, NoJournal) {
        Ok(boxed) => boxed,
        Err(NotedStripe { stripe, journal: _ }) => {
            spend(rt, stripe);
            return Err(Fail::new("no memory"));
        }
    };
    match TurnLock::new(alloc, boxed, 1, holds) {
        Ok((lock, pass)) => Ok(Seat { lock, pass }),
        Err(_) => panic!(rt; "no memory for a lock"),
    }
}

fn page(page: u32) -> Key {
    Key { region: 0, page }
}

#[test]
fn pages_take_turns_under_the_lock(rt: HostRuntime) -> Result<(), Fail> {
    let layout = Layout::new(64, 1, 1)?;
    let lane = memory_lane(rt.alloc(), &layout)?;
    let mut seat = seated(&rt, rt.alloc(), layout, lane, 100)?;
    assert_eq!(rt; seat.load(&rt, 0), Ok(7));
    assert_eq!(rt; seat.store(&rt, 0, 9), Ok(()));
    assert_eq!(rt; seat.load(&rt, 1), Ok(7));
    assert_eq!(rt; seat.load(&rt, 0), Ok(9));
    assert_eq!(rt; seat.serve(&rt), Ok(Served::Nothing));
    assert_eq!(rt; seat.make_room(&rt), Ok(Back::Evicted(page(0))));
    assert_eq!(rt; seat.make_room(&rt), Ok(Back::Nothing));
    seat.end(&rt);
    Ok(())
}

#[test]
fn a_read_that_fails_is_told_once(rt: HostRuntime) -> Result<(), Fail> {
    let layout = Layout::new(64, 1, 1)?;
    let lane = failing_memory_lane(rt.alloc(), &layout, &[1], &[])?;
    let mut seat = seated(&rt, rt.alloc(), layout, lane, 100)?;
    let key = page(0);
    assert_eq!(rt;
        seat.load(&rt, 0),
        Err(Access::StoreFault { key, faults: 1 })
    );
    assert_eq!(rt; seat.load(&rt, 0), Ok(7));
    seat.end(&rt);
    Ok(())
}

#[test]
fn a_write_that_fails_leaves_the_page(rt: HostRuntime) -> Result<(), Fail> {
    let layout = Layout::new(64, 1, 1)?;
    let lane = failing_memory_lane(rt.alloc(), &layout, &[], &[1, 2])?;
    let mut seat = seated(&rt, rt.alloc(), layout, lane, 100)?;
    let key = page(0);
    assert_eq!(rt; seat.store(&rt, 0, 9), Ok(()));
    assert_eq!(rt;
        seat.load(&rt, 1),
        Err(Access::StoreFault { key, faults: 1 })
    );
    assert_eq!(rt; seat.load(&rt, 0), Ok(9));
    assert_eq!(rt; seat.make_room(&rt), Ok(Back::WriteFailed(key, 2)));
    assert_eq!(rt; seat.make_room(&rt), Ok(Back::Written(key)));
    seat.end(&rt);
    Ok(())
}

#[test]
fn a_pass_is_spent_before_two_holds_are_left(rt: HostRuntime) -> Result<(), Fail> {
    let layout = Layout::new(64, 1, 1)?;
    let rows = [
        (2, Err(Access::PassSpent), 1),
        (4, Err(Access::PassSpent), 1),
        (5, Ok(7), 1),
    ];
    for (holds, answer, left) in rows {
        let lane = memory_lane(rt.alloc(), &layout)?;
        let mut seat = seated(&rt, rt.alloc(), layout, lane, holds)?;
        assert_eq!(rt; seat.load(&rt, 0), answer);
        assert_eq!(rt; seat.left(), left);
        seat.end(&rt);
    }
    Ok(())
}
