//! The stripe: its parts, and what contracts see of them.
//!
//! | a page is | present | protected | dirty | it gets there by |
//! |---|---|---|---|---|
//! | missing | - | - | - | the start; `evict` |
//! | clean | yes | yes | no | `filled` for a read; `written` where nobody opened it since the write began |
//! | dirty and open | yes | no | yes | `filled` for a store; `open_page` |
//! | dirty and protected | yes | yes | yes | `start_write`, and `write_failed` after it |
//!
//! What must stay true when this file is changed: table, frames and reads name one another (`specs/InsideTied.antt`). The paging
//! itself, which entries may follow and what the bits mean, is `page_model`'s; here stands only what a change of
//! representation would touch.
ghost use Rattle.std.specs.Prelude.{◌≡◌, ◌<◌, ℕ, [], map, true, Some, IfOk, IfErr};
ghost use Rattle.page_model.specs.Core.{Home, is_home};
ghost use Rattle.page_model.specs.Setups.{regions};

use crate::config::{NewStripe, StripeConfig};
use crate::region::Region;
use crate::room::{Parts, regions_of};
use crate::waiting_faults::WaitingFaults;
use page_base::{List, Marks, marks};
use page_buffer::PageBuffer;
use page_model::Counts;
use page_model::events::{fresh_stands, service_knows};
use soft_mmu::PageTable;
use std::alloc::Global;
use std::marker::Model;
use std::snapshot::Snapshot;
use store_trait::Store;

/// One stripe: its pages of every region, the frames that they share, the faults that wait, and the regions' lanes.
pub struct Stripe<S: Store> {
    pub(crate) table: PageTable,
    pub(crate) buffer: PageBuffer,
    pub(crate) queue: WaitingFaults,
    pub(crate) regions: Vec<Region<S>>,
    /// Room for the lanes when they are handed back.
    pub(crate) home: Vec<S>,
    pub(crate) marks: Marks,
    pub(crate) evicting: bool,
    pub(crate) counts: Counts,
    pub(crate) events: u64,
    pub(crate) config: Snapshot<StripeConfig>,
    pub(crate) lanes: Snapshot<List<S>>,
}

impl<S: Store> Model for Stripe<S> {
    ghost use Rattle.std.specs.Prelude.{◌≤◌, ◌≡◌, [], length, map, vec_capacity};
    ghost use Rattle.page_model.specs.Core.{Core};

    ghost Value = { Core };

    ghost use Rattle.stripe_core.specs.Configs.{setup_of};
    ghost use Rattle.stripe_core.specs.Parts.{core_of};
    ghost use Rattle.stripe_core.specs.InsideParts.{reads_of};
    ghost use Rattle.stripe_core.specs.InsideTied.{Tied, IsSized, CountsWithin};

    ghost view = { λ s. core_of S.seen (setup_of s.config.value (map S.seen s.lanes.value.items)) s.table s.buffer s.queue.raises s.regions.items s.evicting s.counts s.events };

    ghost invariant = { λ s. Tied s.table s.buffer (reads_of s.regions.items) × IsSized s.config.value (map S.seen s.lanes.value.items) s.table s.buffer s.queue s.regions.items s.marks × (s.home.items ≡ []) × (length s.regions.items ≤ vec_capacity s.home) × CountsWithin s.counts s.events };
}

impl<S: Store> Stripe<S> {
    ghost use Rattle.stripe_core.specs.Configs.{setup_of, CanMake};
    ghost use Rattle.stripe_core.specs.Standing.{AreHomeLanes};
    ghost use Rattle.page_model.specs.Stands.{StandsFor};
    ghost use Rattle.page_model.specs.Steps as step;

    /// A stripe with no page resident and every lane home. `lanes` has one lane for each region, in order of number. It takes
    /// all memory that the stripe ever takes; where there isn't enough, the lanes come back.
    pub fn new(
        alloc: Global,
        config: &StripeConfig,
        lanes: List<S>,
    ) -> Result<Stripe<S>, NewStripe<S>>
        requires can { CanMake config.now (map S.seen lanes.items) }
        ensures fresh { IfOk result (λ s. s ≡ step.fresh (setup_of config.now (map S.seen lanes.items))) }
        ensures stands { IfOk result (λ s. StandsFor [] s) }
        ensures back { IfErr result (λ e. e ≡ NewStripe.OutOfMemory lanes) }
    {
        fresh_stands();
        let Ok(room) = Vec::with_capacity(alloc, lanes.len()) else {
            return Err(NewStripe::OutOfMemory { lanes });
        };
        let Ok(parts) = Parts::new(alloc, config) else {
            room.destroy_empty();
            return Err(NewStripe::OutOfMemory { lanes });
        };
        let Parts {
            table,
            buffer,
            queue,
            faults,
        } = parts;
        let first = Snapshot::of(&lanes);
        let marks = marks(config.layout.quota(config.number), config.high, config.low);
        let (regions, home) = regions_of(room, lanes.into_vec(), faults);
        Ok(Stripe {
            table,
            buffer,
            queue,
            regions,
            home,
            marks,
            evicting: false,
            counts: Counts::none(),
            events: 0,
            config: Snapshot::of(config),
            lanes: first,
        })
    }

    /// Ends the stripe, and hands its lanes back in order of region. It takes no memory.
    pub fn into_lanes(self) -> List<S>
        requires home { (r : ℕ) → r < regions self.setup → is_home self r ≡ true }
        ensures lanes { map (λ s. Home (S.seen s)) result.items ≡ map (λ g. g.place) self.regions }
        ensures stands { AreHomeLanes S.seen self result.items }
    {
        service_knows();
        let Stripe {
            table: _,
            buffer,
            queue: _,
            mut regions,
            mut home,
            marks: _,
            evicting: _,
            counts: _,
            events: _,
            config: _,
            lanes: _,
        } = self;
        while let Some(region) = regions.pop() {
            home.push_reserved(region.into_lane());
        }
        regions.destroy_empty();
        buffer.close();
        home.reverse();
        List::from_vec(home)
    }
}
