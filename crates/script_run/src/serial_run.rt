//! A serial run: every script of a workload, one after another, in file order. A fault of a store ends its line alone.
//!
//! All memory is taken before the first line runs, so the only refusal comes at opening: it hands the lanes back, and leaves
//! the journals in their list.
ghost use Rattle.std.specs.Prelude.{◌≡◌, ◌+◌, ◌*◌, ◌^◌, ◌<◌, ◌≤◌, ◌||◌, ◌∷◌, ◌++◌, [], ℕ, Some, true, length, map, slice_get, IfOk, IfErr};
ghost use Rattle.serial_pager.specs.Pagers.{rows_of, journals_made};
ghost use Rattle.workload_text.specs.Line.{load_line, store_line, flush_line, unmap_line};
ghost use Rattle.workload_text.specs.View.{lines_of, script_lines, command_line};
ghost use Rattle.workload_text.specs.Built.{is_built};
ghost use Rattle.workload_text.specs.Accepted.{IsRunnable, regions_of};
ghost use Rattle.script_run.specs.Fits.{LanesFit, AreInRange};
ghost use Rattle.script_run.specs.Ends.{lanes_in, origins_in, FitsRun};
ghost use Rattle.script_run.specs.InsideRooms.{fault_room, fault_of, end_reply, unmap_reply, IsKnownEnd, IsKnownError};
ghost use Rattle.script_run.specs.InsideRunning.{MayRunOf, RanOf, RanOne};
ghost use Rattle.script_run.specs.Replies.{reply_text, is_fault_reply};
ghost use Rattle.script_run.specs.Tables.{table_of};
ghost use Rattle.script_run.specs.Tellings.{EndsTold};

use crate::access::{AccessEnd, load, store};
use crate::laws::{from_journals, stripes_agree};
use crate::opening::{open_pager, put_journals};
use crate::replies::Replies;
use crate::rooms::room_of;
use crate::settings::Settings;
use page_base::{Bytes, List};
use page_model::Journal;
use region_table::RegionTable;
use serial_pager::{PageFault, SerialPager, UnmapError};
use std::alloc::Global;
use store_trait::{LaneSet, Store};
use workload_text::{Command, MOST_ACCESS_BYTES, Script, Workload};

/// Tells a fault by the name of its region.
fn tell_fault(replies: &mut Replies, workload: &Workload, fault: &PageFault)
    requires region { fault.now.key.region < length (regions_of (lines_of workload.now)) }
    requires room { fault_room (regions_of (lines_of workload.now)) ≤ replies.old.text.spare }
    ensures text { replies.new.text.items ≡ replies.old.text.items ++ fault_of workload.now fault.now }
    ensures spare { replies.old.text.spare ≤ replies.new.text.spare + fault_room (regions_of (lines_of workload.now)) }
    ensures loaded { replies.new.loaded ≡ replies.old.loaded }
    ensures sum { replies.new.sum ≡ replies.old.sum }
    ensures faulted { replies.new.faulted ≡ true }
{
    let map = &workload.maps.as_slice()[fault.key.region as usize];
    replies.fault(map.name.as_slice(), fault.key.page, fault.faults);
}

/// Tells why an access of a range ended.
fn tell_end(replies: &mut Replies, workload: &Workload, end: &AccessEnd)
    requires region { IsKnownEnd (length (regions_of (lines_of workload.now))) end.now }
    requires room { fault_room (regions_of (lines_of workload.now)) ≤ replies.old.text.spare }
    ensures text { (done : ℕ) → replies.new.text.items
        ≡ replies.old.text.items ++ reply_text (regions_of (lines_of workload.now)) (end_reply done end.now) }
    ensures spare { replies.old.text.spare ≤ replies.new.text.spare + fault_room (regions_of (lines_of workload.now)) }
    ensures loaded { replies.new.loaded ≡ replies.old.loaded }
    ensures sum { replies.new.sum ≡ replies.old.sum }
    ensures faulted { (done : ℕ) → replies.new.faulted
        ≡ (replies.old.faulted || is_fault_reply (end_reply done end.now)) }
{
    match end {
        AccessEnd::Unmapped => replies.unmapped(),
        AccessEnd::Fault(fault) => tell_fault(replies, workload, fault),
    }
}

/// Tells why a region wasn't unmapped.
fn tell_error(replies: &mut Replies, workload: &Workload, error: &UnmapError)
    requires region { IsKnownError (length (regions_of (lines_of workload.now))) error.now }
    requires room { fault_room (regions_of (lines_of workload.now)) ≤ replies.old.text.spare }
    ensures text { replies.new.text.items
        ≡ replies.old.text.items ++ reply_text (regions_of (lines_of workload.now)) (unmap_reply error.now) }
    ensures spare { replies.old.text.spare ≤ replies.new.text.spare + fault_room (regions_of (lines_of workload.now)) }
    ensures loaded { replies.new.loaded ≡ replies.old.loaded }
    ensures sum { replies.new.sum ≡ replies.old.sum }
    ensures faulted { replies.new.faulted ≡ (replies.old.faulted || is_fault_reply (unmap_reply error.now)) }
{
    match error {
        UnmapError::Unmapped => replies.unmapped(),
        UnmapError::Fault(fault) => tell_fault(replies, workload, fault),
    }
}

fn run_load<S: Store, J: Journal>(
    replies: &mut Replies,
    pager: &mut SerialPager<S, J>,
    bytes: &mut [u8],
    workload: &Workload,
    table: &RegionTable,
    region: u16,
    off: u64,
)
    requires table { table.now ≡ table_of pager.old.page_size (lines_of workload.now) }
    requires may { MayRunOf workload.now (load_line region off (length bytes.old) ∷ []) replies.old pager.old }
    ensures ran { RanOf J.has_noted workload.now (load_line region off (length bytes.old) ∷ [])
        replies.old replies.new pager.old pager.new }
    ensures journals { journals_made J.made_with pager.new ≡ journals_made J.made_with pager.old }
{
    stripes_agree();
    match load(pager, table, region, off, bytes) {
        Ok(()) => replies.load(bytes),
        Err(end) => tell_end(replies, workload, &end),
    }
}

fn run_store<S: Store, J: Journal>(
    replies: &mut Replies,
    pager: &mut SerialPager<S, J>,
    bytes: &[u8],
    workload: &Workload,
    table: &RegionTable,
    region: u16,
    off: u64,
)
    requires table { table.now ≡ table_of pager.old.page_size (lines_of workload.now) }
    requires may { MayRunOf workload.now (store_line region off bytes.now ∷ []) replies.old pager.old }
    ensures ran { RanOf J.has_noted workload.now (store_line region off bytes.now ∷ [])
        replies.old replies.new pager.old pager.new }
    ensures journals { journals_made J.made_with pager.new ≡ journals_made J.made_with pager.old }
{
    stripes_agree();
    match store(pager, table, region, off, bytes) {
        Ok(()) => replies.ok(),
        Err(end) => tell_end(replies, workload, &end),
    }
}

fn run_flush<S: Store, J: Journal>(
    replies: &mut Replies,
    pager: &mut SerialPager<S, J>,
    workload: &Workload,
)
    requires may { MayRunOf workload.now (flush_line ∷ []) replies.old pager.old }
    ensures ran { RanOf J.has_noted workload.now (flush_line ∷ []) replies.old replies.new pager.old pager.new }
    ensures journals { journals_made J.made_with pager.new ≡ journals_made J.made_with pager.old }
{
    stripes_agree();
    match pager.flush() {
        Ok(()) => replies.ok(),
        Err(fault) => tell_fault(replies, workload, &fault),
    }
}

fn run_unmap<S: Store, J: Journal>(
    replies: &mut Replies,
    pager: &mut SerialPager<S, J>,
    workload: &Workload,
    region: u16,
)
    requires may { MayRunOf workload.now (unmap_line region ∷ []) replies.old pager.old }
    ensures ran { RanOf J.has_noted workload.now (unmap_line region ∷ []) replies.old replies.new pager.old pager.new }
    ensures journals { journals_made J.made_with pager.new ≡ journals_made J.made_with pager.old }
{
    stripes_agree();
    match pager.unmap(region) {
        Ok(()) => replies.ok(),
        Err(error) => tell_error(replies, workload, &error),
    }
}

fn run_command<S: Store, J: Journal>(
    replies: &mut Replies,
    pager: &mut SerialPager<S, J>,
    buf: &mut [u8],
    workload: &Workload,
    table: &RegionTable,
    command: &Command,
)
    requires wide { length buf.old ≡ MOST_ACCESS_BYTES }
    requires table { table.now ≡ table_of pager.old.page_size (lines_of workload.now) }
    requires may { MayRunOf workload.now (command_line command.now ∷ []) replies.old pager.old }
    ensures ran { RanOne J.has_noted workload.now command.now replies.old replies.new pager.old pager.new }
    ensures journals { journals_made J.made_with pager.new ≡ journals_made J.made_with pager.old }
{
    match command {
        Command::Load { region, off, len } => {
            let bytes = &mut buf[..*len as usize];
            run_load(replies, pager, bytes, workload, table, *region, *off);
        }
        Command::Store { region, off, bytes } => {
            run_store(
                replies,
                pager,
                bytes.as_slice(),
                workload,
                table,
                *region,
                *off,
            );
        }
        Command::Flush => run_flush(replies, pager, workload),
        Command::Unmap { region } => run_unmap(replies, pager, workload, *region),
        // No accepted text has one of these yet.
        Command::Prefetch {
            region: _,
            off: _,
            len: _,
        } => unreachable!(),
    }
}

fn run_script<S: Store, J: Journal>(
    replies: &mut Replies,
    pager: &mut SerialPager<S, J>,
    buf: &mut [u8],
    workload: &Workload,
    table: &RegionTable,
    script: &Script,
)
    requires wide { length buf.old ≡ MOST_ACCESS_BYTES }
    requires table { table.now ≡ table_of pager.old.page_size (lines_of workload.now) }
    requires may { MayRunOf workload.now (script_lines script.now) replies.old pager.old }
    ensures ran { RanOf J.has_noted workload.now (script_lines script.now) replies.old replies.new pager.old pager.new }
    ensures journals { journals_made J.made_with pager.new ≡ journals_made J.made_with pager.old }
{
    replies.script(script.name.as_slice());
    let commands = script.commands.as_slice();
    for i in 0..commands.len() {
        run_command(replies, pager, buf, workload, table, &commands[i]);
    }
}

fn run_scripts<S: Store, J: Journal>(
    replies: &mut Replies,
    pager: &mut SerialPager<S, J>,
    buf: &mut [u8],
    workload: &Workload,
    table: &RegionTable,
)
    requires wide { length buf.old ≡ MOST_ACCESS_BYTES }
    requires table { table.now ≡ table_of pager.old.page_size (lines_of workload.now) }
    requires may { MayRunOf workload.now (lines_of workload.now) replies.old pager.old }
    ensures ran { RanOf J.has_noted workload.now (lines_of workload.now) replies.old replies.new pager.old pager.new }
    ensures journals { journals_made J.made_with pager.new ≡ journals_made J.made_with pager.old }
{
    let scripts = workload.scripts.as_slice();
    for i in 0..scripts.len() {
        run_script(replies, pager, buf, workload, table, &scripts[i]);
    }
}

/// What a serial run leaves.
#[derive(Drop)]
pub struct SerialEnd<S> {
    /// The replies of all scripts, line by line.
    pub text: Bytes,
    /// Whether a line of the text names a fault, or the last unmapping failed.
    pub faulted: bool,
    /// How many bytes were loaded, and their values added up.
    pub loaded: u64,
    pub sum: u64,
    pub lanes: LaneSet<S>,
}

/// Why a run didn't begin. It gives the lanes back as they were.
#[derive(Drop)]
pub enum RunBack<S> {
    OutOfMemory { lanes: LaneSet<S> },
}

/// Whether one of two holds.
fn either(one: bool, other: bool) -> bool
    ensures { result ≡ (one || other) }
{
    one || other
}

/// Runs the scripts one after another over these lanes, for whatever they hold at first, and unmaps every region at the end, in
/// order of number. The settings' layout says how pages are spread; `table` is the table of the workload's regions. Each entry of a
/// stripe's history is noted in the stripe's journal, by owner 0.
///
/// Where a call of a store fails, the line that needed it is answered with a fault, and the next line runs; so does the
/// unmapping of the next region at the end. Where none did, the text and what the lanes hold afterwards are those of the serial meaning: `laws::without_faults`.
pub fn serial<S: Store, J: Journal>(
    alloc: Global,
    settings: &Settings,
    workload: &Workload,
    table: RegionTable,
    lanes: LaneSet<S>,
    journals: &mut List<J>,
) -> Result<SerialEnd<S>, RunBack<S>>
    requires runnable { IsRunnable (lines_of workload.now) }
    requires built { is_built (lines_of workload.now) ≡ true }
    requires settings { AreInRange settings.now }
    requires table { table ≡ table_of settings.now.layout.page_size (lines_of workload.now) }
    requires lanes { LanesFit settings.now (lines_of workload.now) (rows_of S.seen lanes) }
    requires journals { length journals.old.items ≡ settings.now.layout.stripes }
    requires empty { (s : ℕ) (journal : J) → slice_get journals.old.items s ≡ Some journal → J.has_noted journal [] }
    // what the lines answer and leave, and what the journals have noted of it
    ensures fits { IfOk result (λ e. FitsRun S.seen J.has_noted settings.now table workload.now lanes e journals.new) }
    ensures told { IfOk result (λ e. EndsTold S.seen settings.now workload.now lanes e) }
    ensures origins { IfOk result (λ e. origins_in S.seen e.lanes ≡ origins_in S.seen lanes) }
    ensures journals { IfOk result (λ e. map J.made_with journals.new.items ≡ map J.made_with journals.old.items) }
    ensures back { IfErr result (λ back. rows_of S.seen (lanes_in back) ≡ rows_of S.seen lanes) }
    ensures unchanged { IfErr result (λ back. journals.new.items ≡ journals.old.items) }
{
    from_journals::<J>();
    let Some(room) = room_of(workload) else {
        return Err(RunBack::OutOfMemory { lanes });
    };
    let Ok(mut replies) = Replies::with_room(alloc, room) else {
        return Err(RunBack::OutOfMemory { lanes });
    };
    let Ok(mut buf) = vec![in alloc; 0u8; MOST_ACCESS_BYTES] else {
        return Err(RunBack::OutOfMemory { lanes });
    };
    let mut pager = match open_pager(alloc, settings, &table, lanes, journals) {
        Ok(pager) => pager,
        Err(lanes) => return Err(RunBack::OutOfMemory { lanes }),
    };
    run_scripts(
        &mut replies,
        &mut pager,
        buf.as_mut_slice(),
        workload,
        &table,
    );
    stripes_agree();
    let failed = pager.unmap_all().is_err();
    let (lanes, noted) = pager.into_parts();
    put_journals(journals, noted);
    let faulted = either(replies.faulted, failed);
    let loaded = replies.loaded;
    let sum = replies.sum;
    Ok(SerialEnd {
        text: replies.into_text(),
        faulted,
        loaded,
        sum,
        lanes,
    })
}
