//! The pager of a run, as it is opened over the lanes of a workload.
ghost use Rattle.std.specs.Prelude.{◌≡◌, ◌≤◌, [], IfOk, IfErr};
ghost use Rattle.page_base.specs.declared.limits.TheConstants.{MOST_PAGES};
ghost use Rattle.region_table.specs.Regions.{shapes_of, page_count};
ghost use Rattle.serial_pager.specs.Pagers.{rows_of};
ghost use Rattle.script_run.specs.InsideRunning.{MayOpen, OpensFor};

use crate::settings::Settings;
use page_base::{List, OutOfMemory, RegionShape};
use page_model::Journal;
use region_table::RegionTable;
use serial_pager::{PagerBack, PagerConfig, SerialPager};
use std::alloc::Global;
use std::mem;
use store_trait::{LaneSet, Store};

/// The shape of each region, by its number.
fn shapes_of(alloc: Global, table: &RegionTable) -> Result<List<RegionShape>, OutOfMemory>
    ensures shapes { IfOk result (λ shapes. shapes.items ≡ shapes_of table.now) }
    ensures few { IfOk result (λ shapes. page_count table.now ≤ MOST_PAGES) }
{
    let count = table.count();
    let mut shapes = List::new(alloc);
    shapes.reserve(count as usize)?;
    for region in 0..count {
        shapes.put(table.shape(region));
    }
    Ok(shapes)
}

/// Puts journals into a list that has none.
pub(crate) fn put_journals<J>(list: &mut List<J>, journals: List<J>)
    requires { list.old.items ≡ [] }
    ensures { list.new.items ≡ journals.items }
{
    mem::replace(list, journals).into_vec().destroy_empty();
}

/// The pager of a run, with no page resident. It has the journals, which leaves their list empty; where there is no memory,
/// the lanes come back and the list keeps them.
pub(crate) fn open_pager<S: Store, J: Journal>(
    alloc: Global,
    settings: &Settings,
    table: &RegionTable,
    lanes: LaneSet<S>,
    journals: &mut List<J>,
) -> Result<SerialPager<S, J>, LaneSet<S>>
    requires may { (lines : _) × MayOpen settings.now table.now lines (rows_of S.seen lanes) journals.old.items }
    ensures opened { IfOk result (λ p. OpensFor settings.now table.now (rows_of S.seen lanes) journals.old.items p) }
    ensures taken { IfOk result (λ p. journals.new.items ≡ []) }
    ensures back { IfErr result (λ back. rows_of S.seen back ≡ rows_of S.seen lanes) }
    ensures journals { IfErr result (λ back. journals.new.items ≡ journals.old.items) }
{
    let Ok(shapes) = shapes_of(alloc, table) else {
        return Err(lanes);
    };
    let config = PagerConfig {
        layout: settings.layout,
        faults: settings.faults,
        high: settings.high,
        low: settings.low,
        shapes,
    };
    let own = mem::replace(journals, List::new(alloc));
    match SerialPager::open(alloc, config, lanes, own) {
        Ok(pager) => Ok(pager),
        Err(
            PagerBack {
                lanes,
                journals: own,
            },
        ) => {
            put_journals(journals, own);
            Err(lanes)
        }
    }
}
