//! The command over files: what it answers, and what the files hold then.
ghost use Rattle.workload_text.specs.View.{lines_of};
ghost use Rattle.region_lanes.specs.Regions.{CanBeOpened, NoPartIsOut};

use super::{Around, NOTHING, answer_in, bytes, folder, texts};
use crate::refusal::Refusal;
use crate::status::Status;
use crate::top::{accept, top_serial};
use call_words::Call;
use file_store::{DirFolder, Folder, FolderCall, FolderFault, MemSink, MemSource, PartCall};
use page_base::{Bytes, Layout, List};
use region_lanes::{LaneStop, close_lanes, open_lanes};
use script_run::{RegionKind, Settings};
use std::alloc::Global;
use std::fs;
use std::process::Abort;
use std::test::Fail;
use workload_text::Workload;

/// Runs an input over the file `f` with pages of 64 bytes in one stripe of so many frames, and tests all that it leaves.
fn leaves<R: Abort + AllocGlobal>(
    rt: &R,
    frames: &str,
    input: &str,
    around: &Around,
    status: Status,
    replies: &str,
    file: &[u8],
) -> Result<(), Fail> {
    let words = ["serial", "--stripes", "1"];
    let vars = ["UMAP_PAGESIZE=64", frames];
    let answered = answer_in(rt, words.as_slice(), vars.as_slice(), input, around)?;
    assert_eq!(rt; answered.status, status, "{input}");
    assert_eq!(rt; answered.written.as_slice(), replies.as_bytes(), "{input}");
    match answered.files.as_slice().first() {
        Some(first) => assert_eq!(rt; first.bytes.as_slice(), file, "{input}"),
        None => panic!(rt; "no file"),
    }
    Ok(())
}

const TWO_PAGES: &str = "map A file f 128 rw\nscript s\nstore A 0 aa\nload A 64 1\nload A 0 1\n";

const ZEROS: [u8; 128] = [0u8; 128];

/// So many zeros behind one byte.
fn behind<R: AllocGlobal>(rt: &R, first: u8, zeros: usize) -> Result<Vec<u8>, Fail> {
    let mut all = Vec::new(rt.alloc());
    all.push(first)?;
    for _ in 0..zeros {
        all.push(0)?;
    }
    Ok(all)
}

#[test]
fn each_failing_call_of_a_file_is_told(rt: HostRuntime) -> Result<(), Fail> {
    let kept = behind(&rt, 0xaa, 127)?;
    for (call, status, replies, file) in [
        (
            (PartCall::Read, 1),
            Status::StoreFault,
            "script s\nfault A 0 1\nload 00\nload 00\n",
            ZEROS.as_slice(),
        ),
        (
            (PartCall::Write, 1),
            Status::StoreFault,
            "script s\nok\nfault A 0 1\nload aa\n",
            kept.as_slice(),
        ),
        (
            (PartCall::Read, 2),
            Status::StoreFault,
            "script s\nok\nfault A 1 1\nload aa\n",
            kept.as_slice(),
        ),
        (
            (PartCall::Read, 3),
            Status::StoreFault,
            "script s\nok\nload 00\nfault A 0 1\n",
            kept.as_slice(),
        ),
        (
            (PartCall::Read, 4),
            Status::Done,
            "script s\nok\nload 00\nload aa\n",
            kept.as_slice(),
        ),
    ] {
        let around = Around {
            files: &[("f", ZEROS.as_slice())],
            part_calls: &[call],
            ..NOTHING
        };
        leaves(
            &rt,
            "UMAP_BUFSIZE=1",
            TWO_PAGES,
            &around,
            status,
            replies,
            file,
        )?;
    }
    Ok(())
}

#[test]
fn a_page_whose_read_failed_is_read_again(rt: HostRuntime) -> Result<(), Fail> {
    let content = behind(&rt, 7, 63)?;
    let around = Around {
        files: &[("f", content.as_slice())],
        part_calls: &[(PartCall::Read, 1)],
        ..NOTHING
    };
    let input = "map A file f 64 ro\nscript s\nload A 0 1\nload A 0 1\n";
    let replies = "script s\nfault A 0 1\nload 07\n";
    leaves(
        &rt,
        "UMAP_BUFSIZE=1",
        input,
        &around,
        Status::StoreFault,
        replies,
        content.as_slice(),
    )
}

#[test]
fn a_file_that_takes_no_write_is_as_before(rt: HostRuntime) -> Result<(), Fail> {
    let content = behind(&rt, 0, 191)?;
    let around = Around {
        files: &[("f", content.as_slice())],
        part_calls: &[
            (PartCall::Write, 1),
            (PartCall::Write, 2),
            (PartCall::Write, 3),
        ],
        ..NOTHING
    };
    let input = "map A file f 192 rw\nscript s\nstore A 0 01\nstore A 64 02\nstore A 128 03\n";
    let replies = "script s\nok\nok\nfault A 0 1\n";
    leaves(
        &rt,
        "UMAP_BUFSIZE=2",
        input,
        &around,
        Status::StoreFault,
        replies,
        content.as_slice(),
    )
}

#[test]
fn a_longer_file_keeps_its_further_bytes(rt: HostRuntime) -> Result<(), Fail> {
    let content = behind(&rt, 1, 199)?;
    let after = behind(&rt, 0xaa, 199)?;
    let around = Around {
        files: &[("f", content.as_slice())],
        ..NOTHING
    };
    let replies = "script s\nok\nload 00\nload aa\n";
    leaves(
        &rt,
        "UMAP_BUFSIZE=2",
        TWO_PAGES,
        &around,
        Status::Done,
        replies,
        after.as_slice(),
    )
}

/// Equal paths are refused, and no file is touched.
#[test]
fn two_regions_of_one_path_are_refused(rt: HostRuntime) -> Result<(), Fail> {
    let content = behind(&rt, 7, 63)?;
    let around = Around {
        files: &[("x", content.as_slice())],
        ..NOTHING
    };
    let input = "map A file x 64 rw\nmap B file x 64 ro\nscript s\nstore A 0 01\n";
    let kind = Refusal::Region(RegionKind::SameStore);
    leaves(
        &rt,
        "UMAP_BUFSIZE=2",
        input,
        &around,
        Status::Refused { line: 2, kind },
        "",
        content.as_slice(),
    )
}

/// Of paths that are nearly equal each region has its own file.
#[test]
fn regions_of_like_paths_have_a_file_each(rt: HostRuntime) -> Result<(), Fail> {
    let content = behind(&rt, 7, 63)?;
    let around = Around {
        files: &[
            ("x", content.as_slice()),
            ("xx", content.as_slice()),
            ("x.d/x", content.as_slice()),
        ],
        ..NOTHING
    };
    let words = ["serial", "--stripes", "2"];
    let vars = ["UMAP_PAGESIZE=64", "UMAP_BUFSIZE=2"];
    let input =
        "map A file x 64 rw\nmap B file xx 64 rw\nmap C file x.d/x 64 rw\nscript s\nstore A 0 01\nstore B 0 02\nstore C 0 03\nload A 0 2\n";
    let answered = answer_in(&rt, words.as_slice(), vars.as_slice(), input, &around)?;
    assert_eq!(rt; answered.status, Status::Done);
    assert_eq!(rt;
        answered.written.as_slice(),
        b"script s\nok\nok\nok\nload 0100\n".as_slice()
    );
    assert_eq!(rt; answered.files.len(), 3);
    for i in 0..3 {
        let after = behind(&rt, i as u8 + 1, 63)?;
        assert_eq!(rt;
            answered.files[i].bytes.as_slice(),
            after.as_slice(),
            "file {i}"
        );
    }
    Ok(())
}

#[test]
fn a_region_that_cannot_be_opened_is_named(rt: HostRuntime) -> Result<(), Fail> {
    let short = behind(&rt, 1, 126)?;
    let around = Around {
        files: &[("f", short.as_slice())],
        ..NOTHING
    };
    let status = Status::Folder {
        region: 0,
        fault: FolderFault::TooShort {
            have: 127,
            need: 128,
        },
    };
    leaves(
        &rt,
        "UMAP_BUFSIZE=1",
        TWO_PAGES,
        &around,
        status,
        "",
        short.as_slice(),
    )?;
    let around = Around {
        files: &[("f", ZEROS.as_slice())],
        folder_call: Some(FolderCall::OpenStriped),
        ..NOTHING
    };
    let status = Status::Folder {
        region: 0,
        fault: FolderFault::Failed { faults: 1 },
    };
    leaves(
        &rt,
        "UMAP_BUFSIZE=1",
        TWO_PAGES,
        &around,
        status,
        "",
        ZEROS.as_slice(),
    )?;
    let around = Around {
        files: &[("f", ZEROS.as_slice())],
        ..NOTHING
    };
    let input = "map A file f 128 rw\nmap B file g 64 rw\nscript s\nstore A 0 01\n";
    let status = Status::Folder {
        region: 1,
        fault: FolderFault::Missing,
    };
    leaves(
        &rt,
        "UMAP_BUFSIZE=2",
        input,
        &around,
        status,
        "",
        ZEROS.as_slice(),
    )
}

/// Opens the lanes of a workload, and closes them at once.
fn open_and_close<F: Folder>(
    alloc: Global,
    settings: &Settings,
    workload: &Workload,
    folder: &mut F,
) -> Result<(), LaneStop>
    requires regions { CanBeOpened settings.now.layout.page_size (lines_of workload.now) }
    requires none_out { NoPartIsOut (F.seen folder.old) }
{
    match open_lanes(alloc, settings, workload, folder) {
        Ok(lanes) => {
            close_lanes(folder, lanes);
            Ok(())
        }
        Err(stop) => Err(stop),
    }
}

const SEVENS: [u8; 200] = [7u8; 200];

/// Whatever comes of it, the file is as before.
fn opens<R: Abort + AllocGlobal>(
    rt: &R,
    text: &str,
    call: Option<FolderCall>,
    wanted: Result<(), (u16, FolderFault)>,
) -> Result<(), Fail> {
    let settings = Settings {
        layout: Layout::new(64, 2, 2)?,
        ..Settings::defaults()
    };
    let around = Around {
        files: &[("f", SEVENS.as_slice())],
        folder_call: call,
        ..NOTHING
    };
    let mut folder = folder(rt, &around)?;
    match accept(rt.alloc(), settings.layout, text.as_bytes()) {
        Ok(accepted) => {
            let workload = &accepted.workload;
            let opened = open_and_close(rt.alloc(), &settings, workload, &mut folder);
            assert_eq!(rt;
                opened.map_err(|stop| (stop.region, stop.fault)),
                wanted,
                "{text}"
            );
        }
        Err(status) => panic!(rt; "{status:?}"),
    }
    let files = folder.into_files();
    match files.as_slice().first() {
        Some(first) => assert_eq!(rt; first.bytes.as_slice(), SEVENS.as_slice(), "{text}"),
        None => panic!(rt; "no file"),
    }
    Ok(())
}

#[test]
fn lanes_are_opened_and_closed_or_the_first_refusal_is_told(rt: HostRuntime) -> Result<(), Fail> {
    let both = "map A memory 64 rw\nmap F file f 192 rw\n";
    opens(&rt, "", None, Ok(()))?;
    opens(&rt, both, None, Ok(()))?;
    let failed = FolderFault::Failed { faults: 1 };
    opens(&rt, both, Some(FolderCall::OpenStriped), Err((1, failed)))?;
    let short = FolderFault::TooShort {
        have: 200,
        need: 256,
    };
    let text = "map A memory 64 rw\nmap F file f 256 rw\n";
    opens(&rt, text, None, Err((1, short)))?;
    let text = "map F file f 192 rw\nmap G file g 64 rw\n";
    opens(&rt, text, None, Err((1, FolderFault::Missing)))
}

#[test]
fn four_scripts_share_a_large_file(rt: HostRuntime) -> Result<(), Fail> {
    let mut input = String::from_str(rt.alloc(), "map F file big.bin 1048576 rw\n")?;
    for (name, place, byte) in [
        ("a", 0, "11"),
        ("b", 262144, "22"),
        ("c", 524288, "33"),
        ("d", 786432, "44"),
    ] {
        input.push_str(format!(in rt.alloc();
            "script {name}\nstore F {place} {byte}\nload F {place} 2\n"
        )?.as_str())?;
    }
    let content = behind(&rt, 0, 1048575)?;
    let around = Around {
        files: &[("big.bin", content.as_slice())],
        ..NOTHING
    };
    let vars = ["UMAP_BUFSIZE=64"];
    let answered = answer_in(&rt, &["serial"], vars.as_slice(), input.as_str(), &around)?;
    assert_eq!(rt; answered.status, Status::Done);
    assert_eq!(rt;
        answered.written.as_slice(),
        b"script a\nok\nload 1100\nscript b\nok\nload 2200\nscript c\nok\nload 3300\nscript d\nok\nload 4400\n".as_slice()
    );
    match answered.files.as_slice().first() {
        Some(first) => {
            let file = first.bytes.as_slice();
            assert_eq!(rt; file.len(), 1048576);
            for (place, byte) in [(0, 0x11), (262144, 0x22), (524288, 0x33), (786432, 0x44)] {
                assert_eq!(rt; file.get(place), Some(&byte));
            }
        }
        None => panic!(rt; "no file"),
    }
    Ok(())
}

#[test]
fn a_run_over_a_real_file_leaves_its_bytes(rt: HostRuntime) -> Result<(), Fail> {
    let path = bytes(&rt, b"umapsh_disk.img")?;
    let _ = fs::remove_file(&rt, "umapsh_disk.img");
    let mut folder = DirFolder::new(rt.alloc(), rt.clone()?);
    assert_eq!(rt; folder.write_new(&path, &[7u8; 200]), Ok(()));
    let input = "map A file umapsh_disk.img 128 rw\nscript s\nstore A 63 0102\nload A 62 4\n";
    let mut source = MemSource::new(bytes(&rt, input.as_bytes())?, List::new(rt.alloc()));
    let mut room = Bytes::new(rt.alloc());
    room.reserve(64)?;
    let mut sink = MemSink::new(room, List::new(rt.alloc()));
    let call = Call {
        words: texts(&rt, &["serial"])?,
        vars: texts(&rt, &["UMAP_PAGESIZE=64", "UMAP_BUFSIZE=1"])?,
    };
    let (status, folder) = top_serial(rt.alloc(), call, &mut source, folder, &mut sink);
    assert_eq!(rt; status, Status::Done);
    assert_eq!(rt;
        sink.into_bytes().as_slice(),
        b"script s\nok\nload 07010207\n".as_slice()
    );
    let mut folder = folder;
    let mut head = [0u8; 200];
    assert_eq!(rt; folder.read_head(&path, &mut head), Ok(200));
    assert_eq!(rt;
        [head[62], head[63], head[64], head[65], head[199]],
        [7, 1, 2, 7, 7]
    );
    assert_eq!(rt; folder.faults(), 0);
    fs::remove_file(&rt, "umapsh_disk.img")?;
    Ok(())
}
