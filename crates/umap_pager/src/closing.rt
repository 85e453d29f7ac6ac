//! A pager's end: what is left of its stripes.
ghost use Rattle.std.specs.Prelude.{◌≡◌, ◌≤◌, ◌+◌, [], length, map, vec_len, vec_capacity};
ghost use Rattle.turn_lock.specs.Seen.{IsPassOf};
ghost use Rattle.page_model.specs.Tallies.{counts_of};
ghost use Rattle.umap_pager.specs.Ended.{both_counts, counts_over, MayClose, AllMayClose, StripeEnded, PagerEnded, rows_seen};
ghost use Rattle.umap_pager.specs.InsideEnded.{MayCloseEach, EndsBefore};
ghost use Rattle.umap_pager.specs.Passes.{FitTo};

use crate::pager::Pager;
use crate::passes::Passes;
use crate::room::EndRoom;
use locked_stripe::{StripeBox, whole_trips};
use page_base::List;
use page_model::events::readers_agree;
use page_model::{Counts, Entry, Journal};
use store_trait::{LaneSet, Store};
use turn_lock::{Closed, Pass, TurnLock};

/// What is left of a pager: the lanes, the journals, and each stripe's history, in order of the stripes' numbers.
#[derive(Drop)]
pub struct PagerEnd<S, J> {
    pub lanes: LaneSet<S>,
    pub journals: List<J>,
    pub stripes: List<Closed<Entry>>,
    /// How many pages were read in, written back and evicted, and how many store calls failed. Each number stands at
    /// 18446744073709551615 where it is above that.
    pub counts: Counts,
}

/// The counts of two parts.
fn both(own: Counts, others: Counts) -> Counts
    ensures { result ≡ both_counts own others }
{
    Counts {
        fills: own.fills.saturating_add(others.fills),
        writes: own.writes.saturating_add(others.writes),
        evictions: own.evictions.saturating_add(others.evictions),
        faults: own.faults.saturating_add(others.faults),
    }
}

/// Ends one stripe.
fn end_stripe<S: Store, J: Journal>(
    lock: TurnLock<StripeBox<S, J>>,
    pass: Pass<StripeBox<S, J>>,
) -> (List<S>, J, Closed<Entry>, Counts)
    requires own { IsPassOf lock pass }
    requires may { MayClose pass }
    ensures ended { StripeEnded J.has_noted J.made_with lock pass (map S.seen result.0.items) result.1 result.2 }
    ensures counts { result.3 ≡ counts_of result.2.history }
{
    readers_agree();
    whole_trips();
    let (kept, closed) = lock.close(pass);
    let (stripe, journal) = kept.into_parts();
    let tally = stripe.counts();
    (stripe.into_lanes(), journal, closed, tally)
}

/// Ends these stripes. What is left of them lies before what is left of later ones, of which the vectors have the last first.
pub(crate) fn end_all<S: Store, J: Journal>(
    mut locks: Vec<TurnLock<StripeBox<S, J>>>,
    mut passes: Vec<Pass<StripeBox<S, J>>>,
    mut lanes: Vec<List<S>>,
    mut journals: Vec<J>,
    mut stripes: Vec<Closed<Entry>>,
) -> PagerEnd<S, J>
    requires may { MayCloseEach locks.items passes.items }
    requires lanes { vec_len lanes + vec_len locks ≤ vec_capacity lanes }
    requires journals { vec_len journals + vec_len locks ≤ vec_capacity journals }
    requires stripes { vec_len stripes + vec_len locks ≤ vec_capacity stripes }
    requires none { stripes.items ≡ [] }
    ensures counts { result.counts ≡ counts_over result.stripes.items }
    ensures ended { EndsBefore J.has_noted J.made_with S.seen locks.items passes.items lanes.items journals.items
        stripes.items result.lanes.stripes.items result.journals.items result.stripes.items }
{
    let mut counts = Counts::none();
    'stripes: while let Some(lock) = locks.pop() {
        let Some(pass) = passes.pop() else {
            unreachable!()
        };
        let (own, journal, closed, tally) = end_stripe(lock, pass);
        lanes.push_reserved(own);
        journals.push_reserved(journal);
        stripes.push_reserved(closed);
        counts = both(tally, counts);
    }
    locks.destroy_empty();
    passes.destroy_empty();
    lanes.reverse();
    journals.reverse();
    stripes.reverse();
    PagerEnd {
        lanes: LaneSet {
            stripes: List::from_vec(lanes),
        },
        journals: List::from_vec(journals),
        stripes: List::from_vec(stripes),
        counts,
    }
}

impl<S: Store, J: Journal> Pager<S, J> {
    /// Ends the pager. The passes have to be its first ones, with every other folded back. No call leaves a trip open, by
    /// `calls_end_trips`.
    pub fn close(self, p: Passes<S, J>) -> PagerEnd<S, J>
        requires fit { FitTo self p }
        requires may { AllMayClose p }
        ensures counts { result.counts ≡ counts_over result.stripes.items }
        ensures ended { PagerEnded J.has_noted J.made_with self p (rows_seen S.seen result.lanes.stripes.items)
            result.journals.items result.stripes.items }
    {
        let Pager {
            config: _,
            table: _,
            locks,
            room,
        } = self;
        let EndRoom {
            lanes,
            journals,
            stripes,
        } = room.into_inner();
        let Passes { passes, scratch: _ } = p;
        end_all(locks, passes, lanes, journals, stripes)
    }
}
