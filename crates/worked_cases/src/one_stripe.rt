//! One stripe by hand: a region of two pages that take turns in one frame of 64 bytes.
ghost use Rattle.std.specs.Prelude.{◌≡◌, ℕ, [], ◌∷◌, ◌+◌, ◌<◌, ◌≤◌, ◌^◌, map, true, false, IfOk};
ghost use Rattle.page_model.specs.Core.{is_closing};
ghost use Rattle.serial_pager.specs.Rests.{IsAtRest};
ghost use Rattle.stripe_core.specs.Configs.{setup_of, CanMake};
ghost use Rattle.store_trait.specs.Memory.{memory_origin};

use case_tools::{failing_memory_lane, memory_lane};
use page_base::{Layout, List, RegionShape};
use page_model::NoJournal;
use serial_pager::{Key, PageFault, SerialStripe};
use std::alloc::Global;
use std::marker::Model;
use std::process::Abort;
use std::test::Fail;
use store_trait::Store;
use stripe_core::{NewStripe, Stripe, StripeConfig};

/// How an unmapping went, whether the region closes then, and whether it is unmapped.
type Unmapping = (Result<(), PageFault>, bool, bool);

/// A stripe at rest with two pages, each of 64 bytes.
struct Small<S: Store> {
    stripe: SerialStripe<S, NoJournal>,
}

impl<S: Store> Model for Small<S> {
    ghost use Rattle.std.specs.Prelude.{◌≡◌, ℕ, ◌<◌, true, false};
    ghost use Rattle.page_model.specs.Core.{is_closing};
    ghost use Rattle.page_model.specs.Setups.{has_page, is_writable, regions};
    ghost use Rattle.serial_pager.specs.Rests.{IsAtRest};

    ghost Value = { ℕ };

    ghost view = { λ s. s.stripe.core.events };

    ghost invariant = { λ s. record { rest : IsAtRest s.stripe.core; page_size : s.stripe.core.setup.page_size ≡ 64; pages : (p : ℕ) → p < 2 → has_page s.stripe.core.setup (record { region = 0; page = p }) ≡ true; writable : is_writable s.stripe.core.setup 0 ≡ true; open_ : is_closing s.stripe.core 0 ≡ false; one : regions s.stripe.core.setup ≡ 1 } };
}

impl<S: Store> Small<S> {
    fn load(&mut self, page: u32) -> Result<u8, PageFault>
        requires page { page < 2 }
        requires few { self.old + 2 ^ 16 ≤ 2 ^ 62 }
        ensures few { self.new ≤ self.old + 2 ^ 16 }
    {
        let mut scratch = [0u8; 64];
        let mut byte = [0u8];
        let key = Key { region: 0, page };
        match self.stripe.load(&mut scratch, key, 5, &mut byte) {
            Ok(()) => Ok(byte[0]),
            Err(fault) => Err(fault),
        }
    }

    fn store(&mut self, page: u32, byte: u8) -> Result<(), PageFault>
        requires page { page < 2 }
        requires few { self.old + 2 ^ 16 ≤ 2 ^ 62 }
        ensures few { self.new ≤ self.old + 2 ^ 16 }
    {
        let mut scratch = [0u8; 64];
        self.stripe
            .store(&mut scratch, Key { region: 0, page }, 5, &[byte])
    }

    fn flush(&mut self) -> Result<(), PageFault>
        requires few { self.old + 2 ^ 22 ≤ 2 ^ 62 }
        ensures few { self.new ≤ self.old + 2 ^ 22 }
    {
        let mut scratch = [0u8; 64];
        self.stripe.flush(&mut scratch)
    }
}

impl<S: Store + Drop> Small<S> {
    fn end(self) {
        let Small { stripe } = self;
        let (_lanes, _journal) = stripe.into_parts();
    }

    /// Unmaps the region twice, and ends the stripe.
    fn unmap_twice(self) -> (Unmapping, Unmapping)
        requires few { self + 2 ^ 23 ≤ 2 ^ 62 }
    {
        let mut scratch = [0u8; 64];
        let Small { mut stripe } = self;
        let first = (
            stripe.unmap(&mut scratch, 0),
            stripe.is_closing(0),
            stripe.is_unmapped(0),
        );
        let second = (
            stripe.unmap(&mut scratch, 0),
            stripe.is_closing(0),
            stripe.is_unmapped(0),
        );
        let (_lanes, _journal) = stripe.into_parts();
        (first, second)
    }
}

fn made<S: Store + Drop>(
    alloc: Global,
    config: &StripeConfig,
    lanes: List<S>,
) -> Result<SerialStripe<S, NoJournal>, Fail>
    requires can { CanMake config.now (map S.seen lanes.items) }
    ensures rest { IfOk result (λ s. IsAtRest s.core) }
    ensures open_ { IfOk result (λ s. is_closing s.core 0 ≡ false) }
    ensures events { IfOk result (λ s. s.core.events ≡ 0) }
    ensures setup { IfOk result (λ s. s.core.setup ≡ setup_of config.now (map S.seen lanes.items)) }
{
    match Stripe::new(alloc, config, lanes) {
        Ok(stripe) => Ok(SerialStripe::new(stripe, NoJournal)),
        Err(NewStripe::OutOfMemory { lanes: _ }) => Err(Fail::new("no memory")),
    }
}

/// What such a stripe is made with.
pub(crate) fn small_config(alloc: Global, layout: Layout) -> Result<StripeConfig, Fail>
    ensures layout { IfOk result (λ c. c.layout ≡ layout) }
    ensures numbers { IfOk result (λ c. (c.number ≡ 0) × (c.faults ≡ 2) × (c.high ≡ 90) × (c.low ≡ 70)) }
    ensures shapes { IfOk result (λ c. c.shapes.items ≡ record { pages = 2; group = 1; writable = true } ∷ []) }
{
    let shape = RegionShape {
        pages: 2,
        group: 1,
        writable: true,
    };
    let shapes = vec![in alloc; shape]?;
    Ok(StripeConfig {
        layout,
        number: 0,
        faults: 2,
        high: 90,
        low: 70,
        shapes: List::from_vec(shapes),
    })
}

fn stripe_over<S: Store + Drop>(alloc: Global, layout: Layout, lane: S) -> Result<Small<S>, Fail>
    requires page_size { layout.page_size ≡ 64 }
    requires stripes { layout.stripes ≡ 1 }
    requires lane { (S.seen lane).origin ≡ memory_origin 0 2 64 1 0 }
    ensures { IfOk result (λ s. s ≡ 0) }
{
    let config = small_config(alloc, layout)?;
    let mut lanes = Vec::new(alloc);
    if lanes.push(lane).is_err() {
        return Err(Fail::new("no memory"));
    }
    let stripe = made(alloc, &config, List::from_vec(lanes))?;
    Ok(Small { stripe })
}

#[test]
fn pages_take_turns_in_one_frame(rt: HostRuntime) -> Result<(), Fail> {
    let layout = Layout::new(64, 1, 1)?;
    let mut stripe = stripe_over(rt.alloc(), layout, memory_lane(rt.alloc(), &layout)?)?;
    assert_eq!(rt; stripe.load(0), Ok(7));
    assert_eq!(rt; stripe.store(0, 9), Ok(()));
    assert_eq!(rt; stripe.load(1), Ok(7));
    assert_eq!(rt; stripe.load(0), Ok(9));
    assert_eq!(rt; stripe.flush(), Ok(()));
    stripe.end();
    Ok(())
}

#[test]
fn the_first_read_fails(rt: HostRuntime) -> Result<(), Fail> {
    let layout = Layout::new(64, 1, 1)?;
    let mut stripe = stripe_over(
        rt.alloc(),
        layout,
        failing_memory_lane(rt.alloc(), &layout, &[1], &[])?,
    )?;
    let key = Key { region: 0, page: 0 };
    assert_eq!(rt; stripe.load(0), Err(PageFault { key, faults: 1 }));
    assert_eq!(rt; stripe.load(0), Ok(7));
    stripe.end();
    Ok(())
}

#[test]
fn every_write_fails(rt: HostRuntime) -> Result<(), Fail> {
    let layout = Layout::new(64, 1, 1)?;
    let mut stripe = stripe_over(
        rt.alloc(),
        layout,
        failing_memory_lane(rt.alloc(), &layout, &[], &[1, 2])?,
    )?;
    let key = Key { region: 0, page: 0 };
    assert_eq!(rt; stripe.store(0, 9), Ok(()));
    assert_eq!(rt; stripe.load(1), Err(PageFault { key, faults: 1 }));
    assert_eq!(rt; stripe.load(0), Ok(9));
    assert_eq!(rt; stripe.flush(), Err(PageFault { key, faults: 2 }));
    stripe.end();
    Ok(())
}

#[test]
fn a_flush_writes_each_dirty_page_and_leaves_it(rt: HostRuntime) -> Result<(), Fail> {
    let layout = Layout::new(64, 1, 2)?;
    let mut stripe = stripe_over(
        rt.alloc(),
        layout,
        failing_memory_lane(rt.alloc(), &layout, &[], &[2])?,
    )?;
    let key = Key { region: 0, page: 1 };
    assert_eq!(rt; stripe.store(1, 9), Ok(()));
    assert_eq!(rt; stripe.store(0, 8), Ok(()));
    assert_eq!(rt; stripe.flush(), Err(PageFault { key, faults: 1 }));
    assert_eq!(rt; stripe.flush(), Ok(()));
    assert_eq!(rt; stripe.load(0), Ok(8));
    assert_eq!(rt; stripe.load(1), Ok(9));
    assert_eq!(rt; stripe.flush(), Ok(()));
    stripe.end();
    Ok(())
}

#[test]
fn a_region_is_unmapped_once(rt: HostRuntime) -> Result<(), Fail> {
    let layout = Layout::new(64, 1, 1)?;
    let mut stripe = stripe_over(rt.alloc(), layout, memory_lane(rt.alloc(), &layout)?)?;
    assert_eq!(rt; stripe.store(0, 9), Ok(()));
    let gone = (Ok(()), true, true);
    assert_eq!(rt; stripe.unmap_twice(), (gone, gone));
    Ok(())
}

#[test]
fn an_unmapping_goes_on_after_a_failed_write(rt: HostRuntime) -> Result<(), Fail> {
    let layout = Layout::new(64, 1, 1)?;
    let mut stripe = stripe_over(
        rt.alloc(),
        layout,
        failing_memory_lane(rt.alloc(), &layout, &[], &[1])?,
    )?;
    let key = Key { region: 0, page: 0 };
    assert_eq!(rt; stripe.store(0, 9), Ok(()));
    let stays = (Err(PageFault { key, faults: 1 }), true, false);
    assert_eq!(rt; stripe.unmap_twice(), (stays, (Ok(()), true, true)));
    Ok(())
}
