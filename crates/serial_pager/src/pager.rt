//! A pager of one thread: the stripes of a buffer, each with its journal, and one scratch page for all of them.
//!
//! What must stay true when this file is changed: stripe s of the list was made as stripe s of the layout, with the shapes of
//! all regions; and each piece makes at most 2^16 entries, so that no stripe comes to 2^62 of them (`specs/InsideSound.antt`).
ghost use Rattle.std.specs.Prelude.{◌≡◌, ◌≤◌, ◌+◌, ℕ, true, [], ◌++◌, length, map, reverse, slice_get, Some, vec_len, vec_capacity, IfOk, IfErr};
ghost use Rattle.serial_pager.specs.Pagers.{rows_by, rows_of, CanOpen, IsOpened, AreRowsOf};
ghost use Rattle.serial_pager.specs.Rests.{IsAtRest};
ghost use Rattle.serial_pager.specs.InsideSound.{HandsBack};

mod calls;
mod walks;

use crate::stripe::SerialStripe;
use page_base::{Layout, List, RegionShape};
use page_model::Journal;
use std::alloc::Global;
use std::marker::Model;
use store_trait::{LaneSet, Store};
use stripe_core::{NewStripe, Stripe, StripeConfig};

/// What a pager is made with: the layout of the buffer, how many faults may wait in a stripe (1 to 4096), the watermarks in
/// percent of a stripe's frames, and the shape of each region, by its number.
#[derive(Debug, Drop)]
pub struct PagerConfig {
    pub layout: Layout,
    pub faults: u32,
    pub high: u32,
    pub low: u32,
    pub shapes: List<RegionShape>,
}

/// There was no memory for a pager. It gives back the lanes as they were, and the journals.
#[derive(Drop)]
pub struct PagerBack<S, J> {
    pub lanes: LaneSet<S>,
    pub journals: List<J>,
}

/// The stripes of a buffer with the lanes of all regions.
pub struct SerialPager<S: Store, J: Journal> {
    pub(crate) stripes: Vec<SerialStripe<S, J>>,
    /// One page.
    pub(crate) scratch: Vec<u8>,
    /// Its number is that of whatever stripe was written last.
    pub(crate) config: StripeConfig,
    /// Room for the lanes and the journals when they are handed back.
    home: Vec<List<S>>,
    noted: Vec<J>,
    pub(crate) spent: u64,
}

impl<S: Store, J: Journal> Model for SerialPager<S, J> {
    ghost use Rattle.serial_pager.specs.Pagers.{PagerSeen};

    ghost Value = { PagerSeen J };

    ghost use Rattle.std.specs.Prelude.{◌≡◌, ◌≤◌, [], length, vec_len, vec_capacity};
    ghost use Rattle.serial_pager.specs.Sound.{seen_of};
    ghost use Rattle.serial_pager.specs.InsideSound.{IsSound};

    ghost view = { λ p. seen_of p.config p.stripes.items p.spent };

    ghost invariant = { λ p. IsSound (seen_of p.config p.stripes.items p.spent) × (length p.stripes.items ≡ p.config.layout.stripes) × (vec_len p.scratch ≡ p.config.layout.page_size) × (p.home.items ≡ []) × (p.noted.items ≡ []) × (length p.stripes.items ≤ vec_capacity p.home) × (length p.stripes.items ≤ vec_capacity p.noted) };
}

/// The lanes and journals of these stripes, behind those of later stripes that `lanes` and `journals` hold, the last first.
fn unmade<S: Store, J: Journal>(
    mut stripes: Vec<SerialStripe<S, J>>,
    mut lanes: Vec<List<S>>,
    mut journals: Vec<J>,
) -> PagerBack<S, J>
    requires rest { (s : ℕ) (x : _) → slice_get stripes.items s ≡ Some x → IsAtRest x.core }
    requires lanes { vec_len lanes + vec_len stripes ≤ vec_capacity lanes }
    requires journals { vec_len journals + vec_len stripes ≤ vec_capacity journals }
    ensures lanes { HandsBack stripes.items (rows_by S.seen lanes.items) (rows_of S.seen result.lanes) }
    ensures journals { result.journals.items ≡ map (λ x. x.journal) stripes.items ++ reverse journals.items }
{
    'stripes: while let Some(stripe) = stripes.pop() {
        let (own, journal) = stripe.into_parts();
        lanes.push_reserved(own);
        journals.push_reserved(journal);
    }
    stripes.destroy_empty();
    lanes.reverse();
    journals.reverse();
    PagerBack {
        lanes: LaneSet {
            stripes: List::from_vec(lanes),
        },
        journals: List::from_vec(journals),
    }
}

impl<S: Store, J: Journal> SerialPager<S, J> {
    /// A pager with no page resident. `lanes` has for each stripe one lane a region, and `journals` one journal a stripe. It
    /// takes all memory that the pager ever takes; where there isn't enough, lanes and journals come back.
    pub fn open(
        alloc: Global,
        config: PagerConfig,
        lanes: LaneSet<S>,
        journals: List<J>,
    ) -> Result<SerialPager<S, J>, PagerBack<S, J>>
        requires can { CanOpen config (rows_of S.seen lanes) (length journals.items) }
        ensures opened { IfOk result (λ p. IsOpened config (rows_of S.seen lanes) journals.items p) }
        ensures back { IfErr result (λ b. rows_of S.seen b.lanes ≡ rows_of S.seen lanes) }
        ensures journals { IfErr result (λ b. b.journals.items ≡ journals.items) }
    {
        let count = lanes.stripes.len();
        let Ok(scratch) = vec![in alloc; 0u8; config.layout.page_size() as usize] else {
            return Err(PagerBack { lanes, journals });
        };
        let Ok(mut stripes) = Vec::with_capacity(alloc, count) else {
            return Err(PagerBack { lanes, journals });
        };
        let PagerConfig {
            layout,
            faults,
            high,
            low,
            shapes,
        } = config;
        let mut config = StripeConfig {
            layout,
            number: 0,
            faults,
            high,
            low,
            shapes,
        };
        let mut home = lanes.stripes.into_vec();
        home.reverse();
        let mut noted = journals.into_vec();
        noted.reverse();
        'making: while let Some(own) = home.pop() {
            let Some(journal) = noted.pop() else {
                unreachable!()
            };
            match Stripe::new(alloc, &config, own) {
                Ok(stripe) => stripes.push_reserved(SerialStripe::new(stripe, journal)),
                Err(NewStripe::OutOfMemory { lanes: own }) => {
                    home.push_reserved(own);
                    noted.push_reserved(journal);
                    return Err(unmade(stripes, home, noted));
                }
            }
            config.number += 1;
        }
        Ok(SerialPager {
            stripes,
            scratch,
            config,
            home,
            noted,
            spent: 0,
        })
    }

    /// Ends the pager. The lanes come back as the stripes have them, with the journals. It takes no memory.
    pub fn into_parts(self) -> (LaneSet<S>, List<J>)
        ensures lanes { AreRowsOf self (rows_of S.seen result.0) }
        ensures journals { result.1.items ≡ map (λ x. x.journal) self.stripes }
    {
        let SerialPager {
            stripes,
            scratch: _,
            config: _,
            home,
            noted,
            spent: _,
        } = self;
        let PagerBack { lanes, journals } = unmade(stripes, home, noted);
        (lanes, journals)
    }
}
