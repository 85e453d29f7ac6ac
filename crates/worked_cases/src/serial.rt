//! Workloads with their texts, over several layouts and settings, and over lanes that fail.
ghost use Rattle.std.specs.Prelude.{◌≡◌, ℕ, [], length, map, slice_get, Some, true, IfOk};
ghost use Rattle.serial_pager.specs.Pagers.{rows_of};
ghost use Rattle.store_trait.specs.MemLanes.{lane_seen};
ghost use Rattle.workload_text.specs.Accepted.{IsRunnable, regions_of};
ghost use Rattle.workload_text.specs.Built.{is_built, is_in_memory};
ghost use Rattle.workload_text.specs.View.{lines_of};
ghost use Rattle.script_run.specs.Ends.{origins_in};
ghost use Rattle.script_run.specs.Fits.{AreInRange, has_whole_pages};
ghost use Rattle.script_run.specs.Tables.{table_of};

use case_tools::{NO_PAGE, Row, Rows, failing_lane};
use page_base::{Layout, List, OutOfMemory};
use page_model::{Journal, NoJournal};
use region_table::RegionTable;
use script_run::laws::regions_are_maps;
use script_run::{
    RegionKind, RegionRefusal, SerialEnd, Settings, TableFault, memory_lanes, serial, table_of_maps,
};
use std::alloc::Global;
use std::process::Abort;
use std::test::Fail;
use store_trait::{FailLane, LaneSet, MemLane, Store};
use workload_text::{Workload, is_built, is_in_memory, parse};

/// A workload that may run, and the table of its regions.
struct Accepted {
    workload: Workload,
    table: RegionTable,
}

/// What a text gives that is accepted, with pages of the layout.
fn accept(alloc: Global, layout: &Layout, text: &str) -> Result<Accepted, Fail>
    ensures runnable { IfOk result (λ a. IsRunnable (lines_of a.workload)) }
    ensures built { IfOk result (λ a. is_built (lines_of a.workload) ≡ true) }
    ensures memory { IfOk result (λ a. is_in_memory (lines_of a.workload) ≡ true) }
    ensures table { IfOk result (λ a. a.table ≡ table_of layout.now.page_size (lines_of a.workload)) }
    ensures whole { IfOk result (λ a. has_whole_pages layout.now.page_size (regions_of (lines_of a.workload)) ≡ true) }
{
    regions_are_maps();
    let parsed = parse(alloc, text.as_bytes())?;
    if !is_built(&parsed.workload) || !is_in_memory(&parsed.workload) {
        return Err(Fail::new(format_args!("not built or not in memory: {text}")));
    }
    let maps = parsed.workload.maps.as_slice();
    let lines = parsed.map_lines.as_slice();
    if maps.len() > 64 || lines.len() != maps.len() {
        return Err(Fail::new(format_args!("{} regions", maps.len())));
    }
    let table = table_of_maps(alloc, layout.page_size(), maps, lines)?;
    Ok(Accepted {
        workload: parsed.workload,
        table,
    })
}

/// A journal a stripe, none of which keeps anything.
fn no_journals(alloc: Global, layout: &Layout) -> Result<List<NoJournal>, Fail>
    ensures { IfOk result (λ js. length js.items ≡ layout.now.stripes) }
{
    let journals = vec![in alloc; NoJournal; layout.stripes() as usize]?;
    Ok(List::from_vec(journals))
}

/// Runs a text that is accepted.
fn answer_in(alloc: Global, settings: &Settings, text: &str) -> Result<SerialEnd<MemLane>, Fail>
    requires { AreInRange settings.now }
{
    let Accepted { workload, table } = accept(alloc, &settings.layout, text)?;
    let lanes = memory_lanes(alloc, settings, &workload)?;
    let mut journals = no_journals(alloc, &settings.layout)?;
    let ran = serial(alloc, settings, &workload, table, lanes, &mut journals);
    Ok(ran.map_err(|_| OutOfMemory)?)
}

fn answer(alloc: Global, layout: Layout, text: &str) -> Result<SerialEnd<MemLane>, Fail> {
    let settings = Settings {
        layout,
        ..Settings::defaults()
    };
    answer_in(alloc, &settings, text)
}

/// Of one stripe's lane of a region, which of its reads and writes fail, by their numbers.
#[derive(Clone, Copy)]
struct Failing<'a> {
    stripe: usize,
    region: usize,
    reads: &'a [u64],
    writes: &'a [u64],
}

/// A stripe's lane of a region, of which the calls fail that the plan says.
fn planned_lane(
    alloc: Global,
    lane: MemLane,
    stripe: usize,
    region: usize,
    plan: &[Failing<'_>],
) -> Result<FailLane<MemLane>, Fail>
    ensures { IfOk result (λ l. (⟦<FailLane<MemLane> as Store>⟧.seen l).origin ≡ (lane_seen lane).origin) }
{
    for i in 0..plan.len() {
        if plan[i].stripe == stripe && plan[i].region == region {
            return Ok(failing_lane(alloc, lane, plan[i].reads, plan[i].writes)?);
        }
    }
    Ok(failing_lane(alloc, lane, &[], &[])?)
}

/// The same of all lanes of a stripe.
fn planned_row(
    alloc: Global,
    row: List<MemLane>,
    stripe: usize,
    plan: &[Failing<'_>],
) -> Result<List<FailLane<MemLane>>, Fail>
    ensures { IfOk result (λ ls. map (λ l. l.origin) (map ⟦<FailLane<MemLane> as Store>⟧.seen ls.items)
        ≡ map (λ l. l.origin) (map lane_seen row.items)) }
{
    let mut lanes = row.into_vec();
    lanes.reverse();
    let mut planned = Vec::new(alloc);
    'lanes: while let Some(lane) = lanes.pop() {
        let region = planned.len();
        planned.push(planned_lane(alloc, lane, stripe, region, plan)?)?;
    }
    Ok(List::from_vec(planned))
}

/// The same of all lanes.
fn planned_lanes(
    alloc: Global,
    lanes: LaneSet<MemLane>,
    plan: &[Failing<'_>],
) -> Result<LaneSet<FailLane<MemLane>>, Fail>
    ensures { IfOk result (λ ls. origins_in ⟦<FailLane<MemLane> as Store>⟧.seen ls ≡ origins_in lane_seen lanes) }
{
    let mut rows = lanes.stripes.into_vec();
    rows.reverse();
    let mut planned = Vec::new(alloc);
    'rows: while let Some(row) = rows.pop() {
        let stripe = planned.len();
        planned.push(planned_row(alloc, row, stripe, plan)?)?;
    }
    Ok(LaneSet {
        stripes: List::from_vec(planned),
    })
}

/// Runs a text over lanes of which the calls fail that the plan says.
fn answer_planned(
    alloc: Global,
    layout: Layout,
    text: &str,
    plan: &[Failing<'_>],
) -> Result<SerialEnd<FailLane<MemLane>>, Fail> {
    let mut journals = no_journals(alloc, &layout)?;
    failing_run(alloc, layout, text, plan, &mut journals)
}

/// Runs a text over lanes of which those of the first stripe and region fail at reads and writes of these numbers.
fn answer_failing(
    alloc: Global,
    layout: Layout,
    text: &str,
    reads: &[u64],
    writes: &[u64],
) -> Result<SerialEnd<FailLane<MemLane>>, Fail> {
    let plan = [Failing {
        stripe: 0,
        region: 0,
        reads,
        writes,
    }];
    answer_planned(alloc, layout, text, &plan)
}

/// Runs a text over lanes that fail so, with these journals.
fn failing_run<J: Journal>(
    alloc: Global,
    layout: Layout,
    text: &str,
    plan: &[Failing<'_>],
    journals: &mut List<J>,
) -> Result<SerialEnd<FailLane<MemLane>>, Fail>
    requires journals { length journals.old.items ≡ layout.stripes }
    requires empty { (s : ℕ) (journal : J) → slice_get journals.old.items s ≡ Some journal → J.has_noted journal [] }
{
    let settings = Settings {
        layout,
        ..Settings::defaults()
    };
    let accepted = accept(alloc, &layout, text)?;
    let Accepted { workload, table } = accepted;
    let memory = memory_lanes(alloc, &settings, &workload)?;
    let lanes = planned_lanes(alloc, memory, plan)?;
    let ran = serial(alloc, &settings, &workload, table, lanes, journals);
    Ok(ran.map_err(|_| OutOfMemory)?)
}

/// The settings of these numbers.
fn settings_of(rt: &impl Abort, layout: Layout, high: u32, low: u32, faults: u32) -> Settings
    ensures { AreInRange result }
{
    if faults < 1 {
        panic!(rt; "no fault may wait");
    }
    if faults > 4096 {
        panic!(rt; "{faults} faults");
    }
    if low >= high {
        panic!(rt; "marks {low} and {high}");
    }
    if high > 100 {
        panic!(rt; "mark {high}");
    }
    Settings {
        layout,
        high,
        low,
        faults,
        ..Settings::defaults()
    }
}

#[test]
fn workloads_have_their_texts(rt: HostRuntime) -> Result<(), Fail> {
    let one_page = "map A memory 64 rw\n";
    let rows = [
        ("", ""),
        (one_page, ""),
        (
            "map A memory 64 rw\nscript s\nstore A 0 48656c6c6f\nload A 0 5\n",
            "script s\nok\nload 48656c6c6f\n",
        ),
        // A page that is left and comes back.
        (
            "map A memory 128 rw\nscript s\nstore A 0 aa\nload A 64 1\nload A 0 1\n",
            "script s\nok\nload 00\nload aa\n",
        ),
        // A page that is loaded, stored to, left, and comes back.
        (
            "map A memory 128 rw\nscript s\nload A 0 1\nstore A 0 aa\nload A 64 1\nload A 0 1\n",
            "script s\nload 00\nok\nload 00\nload aa\n",
        ),
        // More pages than frames, each stored to.
        (
            "map A memory 256 rw\nscript s\nstore A 0 aa\nstore A 64 bb\nstore A 128 cc\nstore A 0 dd\nload A 0 1\nload A 64 1\nload A 128 1\n",
            "script s\nok\nok\nok\nok\nload dd\nload bb\nload cc\n",
        ),
        // Accesses across a page border.
        (
            "map A memory 128 rw\nscript s\nstore A 62 01020304\nload A 62 4\n",
            "script s\nok\nload 01020304\n",
        ),
        // Two regions, and a page of the second that is left.
        (
            "map A memory 64 rw\nmap B memory 128 rw\nscript s\nstore A 1 aa\nstore B 63 0102\nload A 0 2\nload B 62 3\n",
            "script s\nok\nok\nload 00aa\nload 000102\n",
        ),
        // Two regions whose pages take turns in a small buffer.
        (
            "map A memory 192 rw\nmap B memory 128 rw\nscript s\nstore A 60 0102030405060708\nstore B 127 ff\nstore A 188 aabbccdd\nload B 120 8\nstore B 0 11\nload A 62 4\nload A 187 5\nload B 0 2\nload B 127 1\n",
            "script s\nok\nok\nok\nload 00000000000000ff\nok\nload 03040506\nload 00aabbccdd\nload 1100\nload ff\n",
        ),
        // Two scripts one after another, and a load of nothing at the region's end.
        (
            "map A memory 64 rw\nscript s\nstore A 0 01\nscript t\nload A 0 1\nload A 64 0\n",
            "script s\nok\nscript t\nload 01\nload\n",
        ),
        // A flush between two stores to one page, and one of nothing.
        (
            "map A memory 128 rw\nscript s\nflush\nstore A 0 aa\nflush\nstore A 0 bb\nload A 0 1\n",
            "script s\nok\nok\nok\nok\nload bb\n",
        ),
        // An unmapped region, of which nothing can be loaded, nor unmapped again.
        (
            "map A memory 64 rw\nscript s\nunmap A\nload A 0 1\nunmap A\n",
            "script s\nok\nunmapped\nunmapped\n",
        ),
        // Another region goes on, and a load of nothing is no access.
        (
            "map A memory 192 rw\nmap B memory 192 rw\nscript s\nstore A 60 0102030405060708\nstore B 60 0102030405060708\nunmap A\nload B 62 4\nload A 62 4\nstore A 64 ff\nload A 192 0\nscript t\nflush\nload B 64 1\nunmap B\nstore B 0 01\n",
            "script s\nok\nok\nok\nload 03040506\nunmapped\nunmapped\nload\nscript t\nok\nload 05\nok\nunmapped\n",
        ),
    ];
    for (stripes, frames) in [(1, 1), (1, 2), (4, 5), (64, 64)] {
        let layout = Layout::new(64, stripes, frames)?;
        for (text, wanted) in rows {
            let end = answer(rt.alloc(), layout, text)?;
            assert_eq!(rt;
                end.text.as_slice(),
                wanted.as_bytes(),
                "{stripes} stripes: {text}"
            );
        }
    }
    Ok(())
}

#[test]
fn loaded_bytes_are_counted_and_added_up(rt: HostRuntime) -> Result<(), Fail> {
    for page_size in [64, 4096, 65536] {
        let layout = Layout::new(page_size, 1, 1)?;
        let text =
            "map A memory 131072 rw\nscript s\nstore A 65534 ff02fe04\nload A 65535 3\nload A 0 2\n";
        let end = answer(rt.alloc(), layout, text)?;
        assert_eq!(rt;
            end.text.as_slice(),
            b"script s\nok\nload 02fe04\nload 0000\n".as_slice()
        );
        assert_eq!(rt; (end.loaded, end.sum), (5, 260));
    }
    Ok(())
}

#[test]
fn a_failed_read_is_told_and_the_next_line_runs(rt: HostRuntime) -> Result<(), Fail> {
    let layout = Layout::new(64, 1, 1)?;
    let text = "map A memory 64 rw\nscript s\nload A 0 1\nload A 0 1\n";
    let end = answer_failing(rt.alloc(), layout, text, &[1], &[])?;
    assert_eq!(rt;
        end.text.as_slice(),
        b"script s\nfault A 0 1\nload 00\n".as_slice()
    );
    assert_eq!(rt; end.faulted, true);
    Ok(())
}

#[test]
fn a_flush_that_fails_names_its_page_and_the_next_one_writes_it(
    rt: HostRuntime,
) -> Result<(), Fail> {
    let layout = Layout::new(64, 1, 2)?;
    let text =
        "map A memory 128 rw\nscript s\nload A 0 1\nstore A 64 02\nflush\nflush\nload A 64 1\n";
    let end = answer_failing(rt.alloc(), layout, text, &[], &[1])?;
    assert_eq!(rt;
        end.text.as_slice(),
        b"script s\nload 00\nok\nfault A 1 1\nok\nload 02\n".as_slice()
    );
    assert_eq!(rt; end.faulted, true);
    Ok(())
}

#[test]
fn a_region_whose_unmapping_failed_stays_closed_and_is_unmapped_later(
    rt: HostRuntime,
) -> Result<(), Fail> {
    let layout = Layout::new(64, 1, 2)?;
    let text =
        "map A memory 128 rw\nscript s\nstore A 0 01\nunmap A\nload A 0 1\nload A 0 0\nunmap A\nunmap A\n";
    let end = answer_failing(rt.alloc(), layout, text, &[], &[1])?;
    assert_eq!(rt;
        end.text.as_slice(),
        b"script s\nok\nfault A 0 1\nunmapped\nload\nok\nunmapped\n".as_slice()
    );
    assert_eq!(rt; end.faulted, true);
    Ok(())
}

#[test]
fn an_unmap_that_fails_in_the_second_stripe_has_closed_the_first_two(
    rt: HostRuntime,
) -> Result<(), Fail> {
    // pages 0 and 3 lie in the first of three stripes, 1 in the second, 2 in the third
    let layout = Layout::new(64, 3, 6)?;
    let text =
        "map A memory 256 rw\nscript s\nstore A 0 01\nstore A 64 02\nstore A 128 03\nunmap A\nload A 0 1\nload A 64 1\nload A 128 1\nload A 127 2\nstore A 191 0405\nload A 191 1\nunmap A\nload A 128 1\n";
    let plan = [Failing {
        stripe: 1,
        region: 0,
        reads: &[],
        writes: &[1],
    }];
    let end = answer_planned(rt.alloc(), layout, text, &plan)?;
    assert_eq!(rt;
        end.text.as_slice(),
        b"script s\nok\nok\nok\nfault A 1 1\nunmapped\nunmapped\nload 03\nunmapped\nunmapped\nload 04\nok\nunmapped\n".as_slice()
    );
    assert_eq!(rt; end.faulted, true);
    Ok(())
}

#[test]
fn three_regions_over_three_stripes_fail_apart(rt: HostRuntime) -> Result<(), Fail> {
    // page p of region r lies in stripe (r + p) mod 3; one frame a stripe
    let layout = Layout::new(64, 3, 3)?;
    let text =
        "map A memory 192 rw\nmap B memory 192 rw\nmap C memory 192 rw\nscript s\nload A 0 1\nload B 64 1\nstore A 0 0a\nstore B 0 0b\nstore C 0 0c\nflush\nunmap B\nload B 64 1\nload B 0 1\nflush\nload C 0 1\n";
    let plan = [
        Failing {
            stripe: 0,
            region: 0,
            reads: &[1],
            writes: &[1, 2],
        },
        Failing {
            stripe: 1,
            region: 1,
            reads: &[],
            writes: &[1],
        },
        Failing {
            stripe: 2,
            region: 1,
            reads: &[1],
            writes: &[],
        },
        Failing {
            stripe: 2,
            region: 2,
            reads: &[],
            writes: &[2],
        },
    ];
    let end = answer_planned(rt.alloc(), layout, text, &plan)?;
    assert_eq!(rt;
        end.text.as_slice(),
        b"script s\nfault A 0 1\nfault B 1 1\nok\nok\nok\nfault A 0 2\nfault B 0 1\nload 00\nunmapped\nfault A 0 3\nload 0c\n".as_slice()
    );
    assert_eq!(rt; end.faulted, true);
    Ok(())
}

#[test]
fn pages_that_cannot_be_written_stay(rt: HostRuntime) -> Result<(), Fail> {
    let layout = Layout::new(64, 1, 2)?;
    let text =
        "map A memory 192 rw\nscript s\nstore A 0 01\nstore A 64 02\nstore A 128 03\nload A 0 1\nload A 64 1\n";
    let writes = [
        1, 2, 3, 4, 5, 6, 7, 8, 9, 10, 11, 12, 13, 14, 15, 16, 17, 18, 19, 20,
    ];
    let end = answer_failing(rt.alloc(), layout, text, &[], &writes)?;
    assert_eq!(rt;
        end.text.as_slice(),
        b"script s\nok\nok\nfault A 0 1\nload 01\nload 02\n".as_slice()
    );
    assert_eq!(rt; end.faulted, true);
    Ok(())
}

#[test]
fn the_text_is_the_same_under_all_settings(rt: HostRuntime) -> Result<(), Fail> {
    let text =
        "map A memory 8192 rw\nmap B memory 4096 rw\nscript s\nstore A 4094 01020304\nstore B 62 aabbcc\nload A 4093 6\nstore A 255 0506\nload B 60 6\nstore B 4095 ff\nload A 254 4\nload B 4092 4\nload A 4094 4\n";
    let wanted =
        b"script s\nok\nok\nload 000102030400\nok\nload 0000aabbcc00\nok\nload 00050600\nload 000000ff\nload 01020304\n";
    let rows = [
        (64, 1, 1, 90, 70, 64),
        (64, 1, 1, 100, 0, 1),
        (64, 1, 2, 90, 70, 1),
        (64, 1, 3, 50, 25, 2),
        (64, 2, 2, 90, 70, 1),
        (64, 2, 3, 1, 0, 1),
        (64, 4, 5, 100, 99, 3),
        (64, 64, 64, 90, 70, 4096),
        (64, 64, 200, 60, 30, 1),
        (128, 1, 1, 90, 70, 1),
        (128, 3, 7, 75, 50, 8),
        (256, 1, 4, 50, 0, 1),
        (256, 5, 5, 90, 70, 64),
        (512, 2, 4, 100, 50, 1),
        (1024, 1, 1, 1, 0, 1),
        (1024, 3, 3, 90, 70, 2),
        (2048, 1, 2, 51, 49, 1),
        (2048, 4, 1024, 90, 70, 64),
        (4096, 1, 1, 100, 0, 1),
        (4096, 2, 2, 90, 70, 4096),
    ];
    for (page_size, stripes, frames, high, low, faults) in rows {
        let layout = Layout::new(page_size, stripes, frames)?;
        let settings = settings_of(&rt, layout, high, low, faults);
        let end = answer_in(rt.alloc(), &settings, text)?;
        assert_eq!(rt;
            end.text.as_slice(),
            wanted.as_slice(),
            "{page_size}, {stripes}, {frames}, {high}, {low}, {faults}"
        );
    }
    Ok(())
}

/// What the only stripe makes of a text, over lanes that fail so.
fn entries_over(
    alloc: Global,
    layout: Layout,
    text: &str,
    plan: &[Failing<'_>],
) -> Result<Rows, Fail> {
    if layout.stripes() != 1 {
        return Err(Fail::new("several stripes"));
    }
    let mut journals = Vec::new(alloc);
    if journals.push(Rows::new(alloc)).is_err() {
        return Err(Fail::new("no memory"));
    }
    let mut journals = List::from_vec(journals);
    failing_run(alloc, layout, text, plan, &mut journals)?;
    Ok(journals.into_vec().pop().ok_or("no journal")?)
}

/// The same, over one frame and lanes of which those of the first region fail at reads and writes of these numbers.
fn entries_of(alloc: Global, text: &str, reads: &[u64], writes: &[u64]) -> Result<Rows, Fail> {
    let layout = Layout::new(64, 1, 1)?;
    let plan = [Failing {
        stripe: 0,
        region: 0,
        reads,
        writes,
    }];
    entries_over(alloc, layout, text, &plan)
}

#[test]
fn a_journal_tells_how_two_pages_take_turns_in_one_frame(rt: HostRuntime) -> Result<(), Fail> {
    let text = "map A memory 128 rw\nscript s\nstore A 0 aa\nload A 64 1\nload A 0 1\n";
    let wanted = [
        Row::of("raised", 0),
        Row::of("start read", 0),
        Row::of("filled", 0),
        Row::of("save", 0).last(0xaa),
        Row::of("raised", 1),
        Row::of("start write", 0),
        Row::of("written", 0).number(5),
        Row::of("evicted", 0),
        Row::of("start read", 1),
        Row::of("filled", 1),
        Row::of("load", 1),
        Row::of("raised", 0),
        Row::of("evicted", 1),
        Row::of("start read", 0),
        Row::of("filled", 0),
        Row::of("load", 0).last(0xaa),
        // the end unmaps the region
        Row::of("closing", NO_PAGE),
        Row::of("evicted", 0),
        Row::of("unmapped", NO_PAGE),
    ];
    assert_eq!(rt;
        entries_of(rt.alloc(), text, &[], &[])?.as_slice(),
        wanted.as_slice()
    );
    Ok(())
}

#[test]
fn a_journal_tells_the_failures_of_fault_lines_and_of_the_last_unmapping(
    rt: HostRuntime,
) -> Result<(), Fail> {
    let text = "map A memory 128 rw\nscript s\nload A 0 1\nstore A 0 aa\nload A 62 4\nload A 0 1\n";
    let wanted = [
        Row::of("raised", 0),
        Row::of("start read", 0),
        Row::of("read failed", 0).number(1),
        Row::of("raised", 0),
        Row::of("start read", 0),
        Row::of("filled", 0),
        Row::of("save", 0).last(0xaa),
        // the line loads of page 0, and ends where page 1 wants room
        Row::of("load", 0).number(62),
        Row::of("raised", 1),
        Row::of("start write", 0),
        Row::of("write failed", 0).number(2),
        Row::of("load", 0).last(0xaa),
        // the end fails to unmap the region
        Row::of("closing", NO_PAGE),
        Row::of("dropped", 1),
        Row::of("start write", 0),
        Row::of("write failed", 0).number(3),
    ];
    assert_eq!(rt;
        entries_of(rt.alloc(), text, &[1], &[1, 2])?.as_slice(),
        wanted.as_slice()
    );
    Ok(())
}

#[test]
fn a_journal_tells_of_flushes_and_of_unmappings(rt: HostRuntime) -> Result<(), Fail> {
    let text =
        "map A memory 64 rw\nscript s\nstore A 0 aa\nflush\nflush\nstore A 1 bb\nunmap A\nload A 0 1\nunmap A\nunmap A\n";
    let wanted = [
        Row::of("raised", 0),
        Row::of("start read", 0),
        Row::of("filled", 0),
        Row::of("save", 0).last(0xaa),
        // the first flush, and nothing for the second
        Row::of("start write", 0),
        Row::of("written", 0).number(4),
        // the page is opened again
        Row::of("raised", 0),
        Row::of("opened", 0),
        Row::of("save", 0).number(1).last(0xbb),
        // the first `unmap` fails
        Row::of("closing", NO_PAGE),
        Row::of("start write", 0),
        Row::of("write failed", 0).number(1),
        // the second goes on, the third and the end have nothing left to do
        Row::of("start write", 0),
        Row::of("written", 0).number(12),
        Row::of("evicted", 0),
        Row::of("unmapped", NO_PAGE),
    ];
    assert_eq!(rt;
        entries_of(rt.alloc(), text, &[], &[2])?.as_slice(),
        wanted.as_slice()
    );
    Ok(())
}

#[test]
fn the_end_fails_in_one_region_and_goes_on_in_the_next(rt: HostRuntime) -> Result<(), Fail> {
    let layout = Layout::new(64, 1, 2)?;
    let text = "map A memory 64 rw\nmap B memory 64 rw\nscript s\nstore A 0 0a\nstore B 0 0b\n";
    let plan = [Failing {
        stripe: 0,
        region: 0,
        reads: &[],
        writes: &[1],
    }];
    let wanted = [
        Row::of("raised", 0),
        Row::of("start read", 0),
        Row::of("filled", 0),
        Row::of("save", 0).last(0x0a),
        Row::of("raised", 0).region(1),
        Row::of("start read", 0).region(1),
        Row::of("filled", 0).region(1),
        Row::of("save", 0).region(1).last(0x0b),
        Row::of("closing", NO_PAGE),
        Row::of("start write", 0),
        Row::of("write failed", 0).number(1),
        Row::of("closing", NO_PAGE).region(1),
        Row::of("start write", 0).region(1),
        Row::of("written", 0).region(1).number(12),
        Row::of("evicted", 0).region(1),
        Row::of("unmapped", NO_PAGE).region(1),
    ];
    assert_eq!(rt;
        entries_over(rt.alloc(), layout, text, &plan)?.as_slice(),
        wanted.as_slice()
    );
    let end = answer_planned(rt.alloc(), layout, text, &plan)?;
    assert_eq!(rt; end.text.as_slice(), b"script s\nok\nok\n".as_slice());
    assert_eq!(rt; end.faulted, true);
    Ok(())
}

#[test]
fn the_first_region_that_breaks_a_rule_is_named_by_its_line(rt: HostRuntime) -> Result<(), Fail> {
    let text = "map A memory 64 rw\n# B\nmap B memory 96 rw\nmap A memory 64 rw\n";
    let parsed = parse(rt.alloc(), text.as_bytes())?;
    let maps = parsed.workload.maps.as_slice();
    let lines = parsed.map_lines.as_slice();
    if maps.len() > 64 || lines.len() != maps.len() {
        panic!(rt; "{} regions", maps.len());
    }
    let layout = Layout::new(64, 1, 1)?;
    match table_of_maps(rt.alloc(), layout.page_size(), maps, lines) {
        Err(TableFault::Refused(refusal)) => {
            let line = 3;
            let kind = RegionKind::BadLength;
            assert_eq!(rt; refusal, RegionRefusal { line, kind });
        }
        _ => panic!(rt; "a table with a region of a page and a half"),
    }
    Ok(())
}
