//! A pager's start.
//!
//! All stripes are made and locked one after another. Where the memory for one is missing, those that are locked already are
//! ended again, so that all lanes and journals come back.
ghost use Rattle.std.specs.Prelude.{◌≡◌, ◌≤◌, ◌^◌, [], length, map, IfOk, IfErr};
ghost use Rattle.page_base.specs.declared.limits.TheConstants.{MOST_PAGES, MOST_REGIONS};
ghost use Rattle.region_table.specs.Regions.{shapes_of, page_count};
ghost use Rattle.turn_lock.specs.Seen.{first_pass};
ghost use Rattle.turn_lock.specs.declared.lock.TheConstants.{MOST_SEATS};
ghost use Rattle.stripe_core.specs.Configs.{CanMake, setup_of};
ghost use Rattle.locked_stripe.specs.Terms.{locked_setup};
ghost use Rattle.umap_pager.specs.Ended.{rows_seen};
ghost use Rattle.umap_pager.specs.Opened.{CanShare, OpensShared, BackFrom, HaveNotedNothing};
ghost use Rattle.umap_pager.specs.InsideOpened.{HaveGroups, HaveWholePages, IsFresh};

use crate::closing::{PagerEnd, end_all};
use crate::config::{OpenFault, PagerConfig};
use crate::pager::Pager;
use crate::passes::Passes;
use crate::room::EndRoom;
use locked_stripe::{NotedStripe, StripeBox};
use page_base::{List, OutOfMemory, RegionShape};
use page_model::Journal;
use region_table::RegionTable;
use std::alloc::Global;
use std::sync::Mutex;
use store_trait::{LaneSet, Store};
use stripe_core::{NewStripe, Stripe, StripeConfig};
use turn_lock::{NewFault, Pass, TurnLock};

/// A stripe that isn't locked: its lanes and its journal.
struct StripeBack<S, J> {
    lanes: List<S>,
    journal: J,
}

/// The shape of each region, by its number.
fn shapes(alloc: Global, table: &RegionTable) -> Result<List<RegionShape>, OutOfMemory>
    ensures shapes { IfOk result (λ shapes. shapes.items ≡ shapes_of table.now) }
    ensures groups { IfOk result (λ shapes. HaveGroups (shapes_of table.now)) }
    ensures few { IfOk result (λ shapes. page_count table.now ≤ MOST_PAGES) }
    ensures regions { IfOk result (λ shapes. length table.now.regions ≤ MOST_REGIONS) }
    ensures whole { IfOk result (λ shapes. HaveWholePages table.now) }
{
    let count = table.count();
    let mut shapes = List::new(alloc);
    shapes.reserve(count as usize)?;
    for region in 0..count {
        shapes.put(table.shape(region));
    }
    Ok(shapes)
}

/// The lanes and the journal of a stripe that has just been made.
fn unmade<S: Store, J>(stripe: Stripe<S>, journal: J) -> StripeBack<S, J>
    requires fresh { IsFresh stripe }
    ensures lanes { map S.seen result.lanes.items ≡ stripe.setup.lanes }
    ensures journal { result.journal ≡ journal }
{
    StripeBack {
        lanes: stripe.into_lanes(),
        journal,
    }
}

/// The same of one that lies in its box.
fn unboxed<S: Store, J>(kept: StripeBox<S, J>) -> StripeBack<S, J>
    requires fresh { IsFresh kept.noted.value.stripe }
    ensures lanes { map S.seen result.lanes.items ≡ kept.noted.value.stripe.setup.lanes }
    ensures journal { result.journal ≡ kept.noted.value.journal }
{
    let (stripe, journal) = kept.into_parts();
    unmade(stripe, journal)
}

/// A stripe with its journal under a lock of its own, and the lock's first pass.
fn lock_stripe<S: Store, J: Journal>(
    alloc: Global,
    config: &StripeConfig,
    lanes: List<S>,
    journal: J,
    seats: u32,
    holds: u64,
) -> Result<(TurnLock<StripeBox<S, J>>, Pass<StripeBox<S, J>>), StripeBack<S, J>>
    requires can { CanMake config.now (map S.seen lanes.items) }
    requires noted { J.has_noted journal [] }
    requires seats { (1 ≤ seats) × (seats ≤ MOST_SEATS) }
    requires holds { (2 ≤ holds) × (holds ≤ 2 ^ 40) }
    ensures setup { IfOk result (λ r. locked_setup r.0 ≡ setup_of config.now (map S.seen lanes.items)) }
    ensures journal { IfOk result (λ r. r.0.origin.noted.value.journal ≡ journal) }
    ensures limits { IfOk result (λ r. (r.0.seats ≡ seats) × (r.0.holds ≡ holds)) }
    ensures pass { IfOk result (λ r. r.1 ≡ first_pass r.0) }
    ensures back { IfErr result (λ b. map S.seen b.lanes.items ≡ map S.seen lanes.items) }
    ensures kept { IfErr result (λ b. b.journal ≡ journal) }
{
    let stripe = match Stripe::new(alloc, config, lanes) {
        Ok(stripe) => stripe,
        Err(NewStripe::OutOfMemory { lanes }) => return Err(StripeBack { lanes, journal }),
    };
    let kept = match StripeBox::new(alloc, stripe, journal) {
        Ok(kept) => kept,
        Err(NotedStripe { stripe, journal }) => return Err(unmade(stripe, journal)),
    };
    match TurnLock::new(alloc, kept, seats, holds) {
        Ok(made) => Ok(made),
        Err(NewFault::TooManySeats { value }) => Err(unboxed(value)),
        Err(NewFault::OutOfMemory { value }) => Err(unboxed(value)),
    }
}

impl<S: Store, J: Journal> Pager<S, J> {
    /// A pager with no page resident, and the first passes of its locks. `lanes` has for each stripe one lane a region, and
    /// `journals` one journal a stripe. It takes all memory that the pager ever takes; where there isn't enough, lanes and
    /// journals come back.
    pub fn open(
        alloc: Global,
        config: &PagerConfig,
        table: RegionTable,
        lanes: LaneSet<S>,
        journals: List<J>,
    ) -> Result<(Pager<S, J>, Passes<S, J>), OpenFault<S, J>>
        requires can { CanShare config.now table (rows_seen S.seen lanes.stripes.items) (length journals.items) }
        requires noted { HaveNotedNothing J.has_noted journals.items }
        ensures opened { IfOk result (λ r. OpensShared config.now table (rows_seen S.seen lanes.stripes.items)
            journals.items r.0 r.1) }
        ensures back { IfErr result (BackFrom J.has_noted J.made_with S.seen config.now table
            (rows_seen S.seen lanes.stripes.items) journals.items) }
    {
        let count = lanes.stripes.len();
        let Ok(shapes) = shapes(alloc, &table) else {
            return Err(OpenFault::OutOfMemory { lanes, journals });
        };
        let Ok(scratch) = vec![in alloc; 0u8; config.layout.page_size() as usize] else {
            return Err(OpenFault::OutOfMemory { lanes, journals });
        };
        let Ok(ends) = Vec::with_capacity(alloc, count) else {
            return Err(OpenFault::OutOfMemory { lanes, journals });
        };
        let Ok(mut passes) = Vec::with_capacity(alloc, count) else {
            return Err(OpenFault::OutOfMemory { lanes, journals });
        };
        let Ok(mut locks) = Vec::with_capacity(alloc, count) else {
            passes.destroy_empty();
            return Err(OpenFault::OutOfMemory { lanes, journals });
        };
        let Ok(room) = EndRoom::new(alloc) else {
            passes.destroy_empty();
            locks.destroy_empty();
            return Err(OpenFault::OutOfMemory { lanes, journals });
        };
        let mut own_config = StripeConfig {
            layout: config.layout,
            number: 0,
            faults: config.faults,
            high: config.high,
            low: config.low,
            shapes,
        };
        let mut home = lanes.stripes.into_vec();
        home.reverse();
        let mut noted = journals.into_vec();
        noted.reverse();
        'making: while let Some(own) = home.pop() {
            let Some(journal) = noted.pop() else {
                unreachable!()
            };
            match lock_stripe(alloc, &own_config, own, journal, config.seats, config.holds) {
                Ok((lock, pass)) => {
                    locks.push_reserved(lock);
                    passes.push_reserved(pass);
                }
                Err(StripeBack { lanes, journal }) => {
                    room.free();
                    home.push_reserved(lanes);
                    noted.push_reserved(journal);
                    let PagerEnd {
                        lanes,
                        journals,
                        stripes: _,
                        counts: _,
                    } = end_all(locks, passes, home, noted, ends);
                    return Err(OpenFault::OutOfMemory { lanes, journals });
                }
            }
            own_config.number += 1;
        }
        home.destroy_empty();
        noted.destroy_empty();
        let pager = Pager {
            config: own_config,
            table,
            locks,
            room: Mutex::new(room),
        };
        Ok((pager, Passes { passes, scratch }))
    }
}
