//! The top call: from words, variables, input and files to output, files and status.
//!
//! What comes first decides: the words, then the source, then the text, then memory, then the folder, then the run, then the
//! sink.
ghost use Rattle.std.specs.Prelude.{◌≡◌, ◌<◌, ◌≤◌, true, length, vec_len, IfOk, IfErr, OnErr};
ghost use Rattle.workload_text.specs.View.{lines_of};
ghost use Rattle.workload_text.specs.Accepted.{IsRunnable};
ghost use Rattle.workload_text.specs.Built.{is_built};
ghost use Rattle.script_run.specs.Ends.{lanes_in};
ghost use Rattle.script_run.specs.Fits.{AreInRange};
ghost use Rattle.script_run.specs.Tables.{table_of};
ghost use Rattle.region_lanes.specs.Regions.{CanBeOpened, NoPartIsOut, IsAsBefore};
ghost use Rattle.call_words.specs.Calls.{reads_of, settings_seen};
ghost use Rattle.umapsh.specs.Top.{outside, Accepts, Says, RefusesRightly, DecidesWords, Causes, ReadsFew};
ghost use Rattle.umapsh.specs.InsideTop.{text_status, region_status, stop_status, ReadAll, ReadStop, AcceptStop, OpenStop, RunStop};
ghost use Rattle.umapsh.specs.InsideTop.{RanOver, RanText, Delivers};

use crate::refusal::Refusal;
use crate::status::Status;
use call_words::{Call, CallFault, settings_of_call};
use file_store::{Folder, FolderFault, Sink, Source};
use page_base::{Bytes, Layout, List};
use page_model::NoJournal;
use region_lanes::laws::{
    files_hold_what_their_lanes_told, no_part_stays_out, opened_lanes_tell_the_file,
    other_files_stay, rules_keep_regions_apart, same_lanes_are_of_the_same_regions,
    same_lanes_have_the_same_parts,
};
use region_lanes::{LaneStop, close_lanes, open_lanes};
use region_table::RegionTable;
use script_run::laws::{faults_are_counted, regions_are_maps, told_is_held, without_faults};
use script_run::{RunBack, Settings, TableFault, serial, table_of_maps};
use std::alloc::{AllocError, Global};
use store_trait::LaneSet;
use workload_text::laws::{
    refusals_are_right, text_is_read_as_spelt, text_is_read_one_way,
    text_is_refused_at_its_first_bad_line,
};
use workload_text::{MOST_TEXT_BYTES, TextFault, Workload, is_built, parse};

/// One byte more than a text may have.
const MOST_READ: usize = MOST_TEXT_BYTES + 1;

/// How many bytes are asked for at once.
const READ_SIZE: usize = 65_536;

/// Reads to the end of the input, or one byte past the longest text; `buf` is scratch.
fn read_into<S: Source>(alloc: Global, source: &mut S, buf: &mut [u8]) -> Result<Vec<u8>, Status>
    requires { 0 < length buf.old }
    ensures all { IfOk result (λ v. ReadAll (S.left source.old) (S.left source.new) v.items) }
    ensures few { ReadsFew (S.left source.old) (S.left source.new) }
    ensures stop { IfErr result (λ e. ReadStop e (S.fault_count source.old) (S.fault_count source.new)) }
{
    let mut all = Vec::new(alloc);
    'reading: while all.len() < MOST_READ {
        let want = (MOST_READ - all.len()).min(buf.len());
        let part = &mut buf[..want];
        match source.read(part) {
            Err(fault) => {
                return Err(Status::SourceFault {
                    faults: fault.faults,
                });
            }
            Ok(count) => {
                if count == 0 {
                    return Ok(all);
                }
                if all.extend_from_slice(&part[..count]).is_err() {
                    return Err(Status::Memory);
                }
            }
        }
    }
    Ok(all)
}

fn zeros(alloc: Global, count: usize) -> Result<Vec<u8>, AllocError>
    ensures { IfOk result (λ v. vec_len v ≡ count) }
{
    vec![in alloc; 0u8; count]
}

/// Reads to the end of the input, or one byte past the longest text.
fn read_all<S: Source>(alloc: Global, source: &mut S) -> Result<Vec<u8>, Status>
    ensures all { IfOk result (λ v. ReadAll (S.left source.old) (S.left source.new) v.items) }
    ensures few { ReadsFew (S.left source.old) (S.left source.new) }
    ensures stop { IfErr result (λ e. ReadStop e (S.fault_count source.old) (S.fault_count source.new)) }
{
    match zeros(alloc, READ_SIZE) {
        Ok(mut buf) => read_into(alloc, source, buf.as_mut_slice()),
        Err(_) => Err(Status::Memory),
    }
}

fn text_status(fault: TextFault) -> Status
    ensures { result ≡ text_status fault }
{
    match fault {
        TextFault::Refused { line, kind } => Status::Refused {
            line,
            kind: Refusal::Text(kind),
        },
        TextFault::OutOfMemory => Status::Memory,
    }
}

fn region_status(fault: TableFault) -> Status
    ensures { result ≡ region_status fault }
{
    match fault {
        TableFault::Refused(refusal) => Status::Refused {
            line: refusal.line,
            kind: Refusal::Region(refusal.kind),
        },
        TableFault::OutOfMemory => Status::Memory,
    }
}

fn stop_status(stop: LaneStop) -> Status
    ensures { result ≡ stop_status stop }
{
    let region = stop.region;
    match stop.fault {
        FolderFault::OutOfMemory => Status::Memory,
        fault => Status::Folder { region, fault },
    }
}

/// What an input gives that isn't refused: a workload, and the table of its regions.
#[derive(Drop)]
pub(crate) struct Accepted {
    pub(crate) workload: Workload,
    pub(crate) table: RegionTable,
}

/// The workload of an input, if it isn't refused: by its text, by the rules on regions, or because it isn't built yet.
pub(crate) fn accept(alloc: Global, layout: Layout, bytes: &[u8]) -> Result<Accepted, Status>
    ensures accepted { IfOk result (λ a. Accepts layout.page_size bytes.now (lines_of a.workload)) }
    ensures regions { IfOk result (λ a. CanBeOpened layout.page_size (lines_of a.workload)) }
    ensures built { IfOk result (λ a. is_built (lines_of a.workload) ≡ true) }
    ensures table { IfOk result (λ a. a.table ≡ table_of layout.page_size (lines_of a.workload)) }
    ensures stop { IfErr result (λ e. AcceptStop layout.page_size e bytes.now) }
{
    text_is_read_as_spelt();
    text_is_read_one_way();
    text_is_refused_at_its_first_bad_line();
    regions_are_maps();
    let parsed = match parse(alloc, bytes) {
        Ok(parsed) => parsed,
        Err(fault) => return Err(text_status(fault)),
    };
    let workload = parsed.workload;
    let maps = workload.maps.as_slice();
    let lines = parsed.map_lines.as_slice();
    let table = match table_of_maps(alloc, layout.page_size(), maps, lines) {
        Ok(table) => table,
        Err(fault) => return Err(region_status(fault)),
    };
    if !is_built(&workload) {
        return Err(Status::Refused {
            line: 0,
            kind: Refusal::Unbuilt,
        });
    }
    Ok(Accepted { workload, table })
}

/// What a run leaves to be told.
#[derive(Drop)]
struct Ended {
    text: Bytes,
    /// Whether a line names a fault, or a last write failed.
    faulted: bool,
}

fn no_journals(alloc: Global, layout: Layout) -> Result<List<NoJournal>, AllocError>
    ensures { IfOk result (λ js. length js.items ≡ layout.stripes) }
{
    let journals = vec![in alloc; NoJournal; layout.stripes() as usize]?;
    Ok(List::from_vec(journals))
}

/// The lanes of a run that didn't begin.
fn lanes_back<S>(back: RunBack<S>) -> LaneSet<S>
    ensures { result ≡ lanes_in back }
{
    match back {
        RunBack::OutOfMemory { lanes } => lanes,
    }
}

/// Runs a workload over memory and the folder's files. Its parts are closed whatever happens.
fn run_over<F: Folder>(
    alloc: Global,
    settings: &Settings,
    accepted: Accepted,
    folder: &mut F,
) -> Result<Ended, Status>
    requires settings { AreInRange settings.now }
    requires regions { CanBeOpened settings.now.layout.page_size (lines_of accepted.workload) }
    requires built { is_built (lines_of accepted.workload) ≡ true }
    requires table { accepted.table ≡ table_of settings.now.layout.page_size (lines_of accepted.workload) }
    requires none_out { NoPartIsOut (F.seen folder.old) }
    ensures ran { IfOk result
        (RanOver (settings_seen settings.now) (lines_of accepted.workload) (F.seen folder.old) (F.seen folder.new)) }
    ensures stop { IfErr result
        (λ e. OpenStop e (lines_of accepted.workload) (F.seen folder.old) (F.seen folder.new)) }
    ensures back { OnErr result (IsAsBefore (F.seen folder.old) (F.seen folder.new)) }
    ensures none_out { NoPartIsOut (F.seen folder.new) }
    ensures later { (F.seen folder.old).count ≤ (F.seen folder.new).count }
{
    opened_lanes_tell_the_file();
    files_hold_what_their_lanes_told();
    other_files_stay();
    no_part_stays_out();
    rules_keep_regions_apart();
    same_lanes_have_the_same_parts();
    same_lanes_are_of_the_same_regions();
    without_faults();
    told_is_held();
    faults_are_counted();
    let Ok(mut journals) = no_journals(alloc, settings.layout) else {
        return Err(Status::Memory);
    };
    let Accepted { workload, table } = accepted;
    let lanes = match open_lanes(alloc, settings, &workload, folder) {
        Ok(lanes) => lanes,
        Err(stop) => return Err(stop_status(stop)),
    };
    match serial(alloc, settings, &workload, table, lanes, &mut journals) {
        Ok(end) => {
            close_lanes(folder, end.lanes);
            Ok(Ended {
                text: end.text,
                faulted: end.faulted,
            })
        }
        Err(back) => {
            close_lanes(folder, lanes_back(back));
            Err(Status::Memory)
        }
    }
}

/// The replies to an input, with its workload run.
fn run<F: Folder>(
    alloc: Global,
    settings: &Settings,
    bytes: &[u8],
    folder: &mut F,
) -> Result<Ended, Status>
    requires settings { AreInRange settings.now }
    requires none_out { NoPartIsOut (F.seen folder.old) }
    ensures ran { IfOk result
        (RanText (settings_seen settings.now) bytes.now (F.seen folder.old) (F.seen folder.new)) }
    ensures stop { IfErr result
        (λ e. RunStop settings.now.layout.page_size e bytes.now (F.seen folder.old) (F.seen folder.new)) }
    ensures back { OnErr result (IsAsBefore (F.seen folder.old) (F.seen folder.new)) }
    ensures none_out { NoPartIsOut (F.seen folder.new) }
    ensures later { (F.seen folder.old).count ≤ (F.seen folder.new).count }
{
    match accept(alloc, settings.layout, bytes) {
        Ok(accepted) => run_over(alloc, settings, accepted, folder),
        Err(status) => Err(status),
    }
}

/// Writes the replies of a run. A fault of a store comes before one of the sink.
fn deliver<K: Sink>(ended: &Ended, sink: &mut K) -> Status
    ensures { Delivers result ended.now.faulted ended.now.text.items (K.written sink.old) (K.written sink.new)
        (K.fault_count sink.old) (K.fault_count sink.new) }
{
    let written = sink.write_all(ended.text.as_slice());
    if ended.faulted {
        return Status::StoreFault;
    }
    match written {
        Ok(()) => Status::Done,
        Err(fault) => Status::SinkFault {
            faults: fault.faults,
        },
    }
}

fn answer<S: Source, F: Folder, K: Sink>(
    alloc: Global,
    call: &Call,
    source: &mut S,
    folder: &mut F,
    sink: &mut K,
) -> Status
    requires none_out { NoPartIsOut (F.seen folder.old) }
    ensures says { Says (reads_of call.now) result
        (outside S.left S.fault_count F.seen K.written K.fault_count source.old folder.old sink.old)
        (outside S.left S.fault_count F.seen K.written K.fault_count source.new folder.new sink.new) }
    ensures causes { Causes result
        (outside S.left S.fault_count F.seen K.written K.fault_count source.old folder.old sink.old)
        (outside S.left S.fault_count F.seen K.written K.fault_count source.new folder.new sink.new) }
    ensures words { DecidesWords (reads_of call.now) result }
    ensures few { ReadsFew (S.left source.old) (S.left source.new) }
    ensures none_out { NoPartIsOut (F.seen folder.new) }
    ensures later { (F.seen folder.old).count ≤ (F.seen folder.new).count }
{
    let settings = match settings_of_call(alloc, call) {
        Ok(settings) => settings,
        Err(CallFault::Refused(fault)) => return Status::Words(fault),
        Err(CallFault::OutOfMemory) => return Status::Memory,
    };
    let bytes = match read_all(alloc, source) {
        Ok(bytes) => bytes,
        Err(status) => return status,
    };
    match run(alloc, &settings, bytes.as_slice(), folder) {
        Ok(ended) => deliver(&ended, sink),
        Err(status) => status,
    }
}

/// `umapsh serial`: runs the workload that the source spells, over memory and the folder's files, and writes its replies. The
/// folder is handed back with no part out. Other words are refused.
pub fn top_serial<S: Source, F: Folder, K: Sink>(
    alloc: Global,
    call: Call,
    source: &mut S,
    folder: F,
    sink: &mut K,
) -> (Status, F)
    requires none_out { NoPartIsOut (F.seen folder) }
    ensures says { Says (reads_of call) result.0
        (outside S.left S.fault_count F.seen K.written K.fault_count source.old folder sink.old)
        (outside S.left S.fault_count F.seen K.written K.fault_count source.new result.1 sink.new) }
    ensures right { RefusesRightly result.0 (S.left source.old) }
    ensures causes { Causes result.0
        (outside S.left S.fault_count F.seen K.written K.fault_count source.old folder sink.old)
        (outside S.left S.fault_count F.seen K.written K.fault_count source.new result.1 sink.new) }
    ensures words { DecidesWords (reads_of call) result.0 }
    ensures few { ReadsFew (S.left source.old) (S.left source.new) }
    ensures none_out { NoPartIsOut (F.seen result.1) }
    ensures later { (F.seen folder).count ≤ (F.seen result.1).count }
{
    text_is_refused_at_its_first_bad_line();
    refusals_are_right();
    let mut folder = folder;
    let status = answer(alloc, &call, source, &mut folder, sink);
    (status, folder)
}
