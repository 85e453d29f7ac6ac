//! What follows from the meaning of a run, from that of its regions, and from its journals. Each function does nothing but
//! call the laws that it rests on: its contract is the law.
ghost use Rattle.script_run.specs.FlatJournals.{JournalsAreFlat};
ghost use Rattle.script_run.specs.FromJournals.{FromJournals};
ghost use Rattle.script_run.specs.FitsLaws.{WithoutFaults, MemoryRunsAreSerial, RegionsAreMaps, LastUnmaps};
ghost use Rattle.script_run.specs.InsideRunning.{StripesAgree};
ghost use Rattle.script_run.specs.Tellings.{ToldIsHeld, FlagIsCounted};

use flat_lines::laws::{bytes_by_pages, owners_are_flat};
use histories::laws::calls_of_one;
use page_model::events::{pages_show, readers_agree};
use page_model::laws::{
    clean_is_kept, dirty_is_raised, faults_are_counted as model_faults, flush_laws,
    unmapped_is_emptied,
};
use page_model::{Entry, Journal};
use region_table::laws::{pieces_cover, pieces_follow};

/// A run that isn't flagged answers the serial text and leaves the serial contents, where all is told.
pub fn without_faults()
    ensures { WithoutFaults }
{}

/// A run over lanes in memory, whose calls never fail, answers the serial text.
pub fn memory_runs_are_serial()
    ensures { MemoryRunsAreSerial }
{}

/// The regions of a workload's lines are those of its `map` lines.
pub fn regions_are_maps()
    ensures { RegionsAreMaps }
{}

/// Lanes that tell the bytes of a region, page by page, hold them.
pub fn told_is_held()
    ensures { ToldIsHeld }
{}

/// In a run that is flagged the count of some lane rose.
pub fn faults_are_counted()
    ensures { FlagIsCounted }
{}

/// The last unmapping unmaps each region and writes what the lines left dirty, by what the journals have noted alone.
pub fn last_unmaps<J: Journal>()
    ensures { LastUnmaps J.has_noted }
{
    unmapped_is_emptied();
}

/// What stripes show is what their histories say: which pages are dirty, which regions close and are unmapped; and a flush that
/// leaves no page dirty covers all stores before it.
pub(crate) fn stripes_agree()
    ensures { StripesAgree }
{
    readers_agree();
    pages_show();
    clean_is_kept();
    flush_laws();
}

/// What lines load and what they leave follows from the histories of the stripes.
pub fn journals_are_flat()
    ensures { JournalsAreFlat }
{
    pieces_cover();
    calls_of_one::<Entry>();
    owners_are_flat();
}

/// What a run shows follows from what its journals have noted, from its replies, and from the lanes that come back.
pub fn from_journals<J: Journal>()
    ensures { FromJournals J.has_noted }
{
    pieces_follow();
    clean_is_kept();
    dirty_is_raised();
    model_faults();
    unmapped_is_emptied();
    bytes_by_pages();
    journals_are_flat();
}
