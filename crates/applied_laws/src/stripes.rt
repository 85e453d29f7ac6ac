//! Pages that a stripe picks out.
ghost use Rattle.applied_laws.specs.Applied.{PickHasItsLane, OldestIsResident};

use page_model::events::picks_know;

/// The lane of a dirty page that may leave is home.
pub fn a_pick_that_is_dirty_has_its_lane()
    ensures { PickHasItsLane }
{
    picks_know();
}

/// The oldest page of a region is resident.
pub fn an_oldest_page_is_resident()
    ensures { OldestIsResident }
{
    picks_know();
}
