//! The command on streams and files in memory: each status, and what was written. Over files, in `files`, what they hold then.
ghost use Rattle.std.specs.Prelude.{IfOk};
ghost use Rattle.region_lanes.specs.Regions.{NoPartIsOut};

mod files;

use crate::refusal::Refusal;
use crate::status::Status;
use crate::top::top_serial;
use call_words::{Call, OptionName, SettingName, WordsFault};
use file_store::{
    FailingFolder, FailingPart, FailingWrite, Folder, FolderCall, FolderFault, MemFile, MemFolder,
    MemSink, MemSource, PartCall,
};
use page_base::{Bytes, List, Texts};
use script_run::RegionKind;
use std::process::Abort;
use std::test::Fail;
use workload_text::TextKind;

const RUN: &str =
    "map A memory 4096 rw\n# B stays as it is\nmap B memory 8192 ro\nscript s\nstore A 0 48656c6c6f\nload A 0 5\nload B 8191 1\n";

const REPLIES: &[u8] = b"script s\nok\nload 48656c6c6f\nload 00\n";

fn texts<R: AllocGlobal>(rt: &R, words: &[&str]) -> Result<Texts, Fail> {
    let mut texts = Texts::new(rt.alloc());
    for word in words {
        texts.reserve(1)?;
        texts.put(String::from_str(rt.alloc(), *word)?);
    }
    Ok(texts)
}

/// What the command is handed beside its words, variables and input, and what fails of it.
#[derive(Clone, Copy)]
struct Around<'a> {
    files: &'a [(&'a str, &'a [u8])],
    reads: &'a [u64],
    writes: &'a [FailingWrite],
    /// A call of this kind for the first file.
    folder_call: Option<FolderCall>,
    /// Calls of each part of the first file, by kind and number.
    part_calls: &'a [(PartCall, u64)],
}

const NOTHING: Around<'static> = Around {
    files: &[],
    reads: &[],
    writes: &[],
    folder_call: None,
    part_calls: &[],
};

fn bytes<R: AllocGlobal>(rt: &R, text: &[u8]) -> Result<Bytes, Fail> {
    Ok(Bytes::from_vec(text.to_vec(rt.alloc())?))
}

/// A folder of the files, whose stated calls fail.
fn folder<R: AllocGlobal>(rt: &R, around: &Around) -> Result<MemFolder, Fail>
    ensures { IfOk result (λ f. NoPartIsOut (⟦<MemFolder as Folder>⟧.seen f)) }
{
    let mut files = Vec::new(rt.alloc());
    let mut failing = Vec::new(rt.alloc());
    let mut failing_parts = Vec::new(rt.alloc());
    for (path, content) in around.files {
        if files.is_empty() {
            if let Some(call) = around.folder_call {
                let path = bytes(rt, path.as_bytes())?;
                let number = 1;
                failing.push(FailingFolder { path, call, number })?;
            }
            for (call, number) in around.part_calls {
                let path = bytes(rt, path.as_bytes())?;
                let (call, number) = (*call, *number);
                failing_parts.push(FailingPart { path, call, number })?;
            }
        }
        files.push(MemFile {
            path: bytes(rt, path.as_bytes())?,
            bytes: bytes(rt, content)?,
        })?;
    }
    Ok(MemFolder::new(
        rt.alloc(),
        List::from_vec(files),
        List::from_vec(failing),
        List::from_vec(failing_parts),
    ))
}

/// What the command answers.
#[derive(Drop)]
struct Answered {
    status: Status,
    written: Vec<u8>,
    files: Vec<MemFile>,
}

fn answer_in<R: AllocGlobal>(
    rt: &R,
    words: &[&str],
    vars: &[&str],
    input: &str,
    around: &Around,
) -> Result<Answered, Fail> {
    let contents = bytes(rt, input.as_bytes())?;
    let mut source = MemSource::new(contents, List::from_vec(around.reads.to_vec(rt.alloc())?));
    let mut room = Bytes::new(rt.alloc());
    room.reserve(1024)?;
    let mut sink = MemSink::new(room, List::from_vec(around.writes.to_vec(rt.alloc())?));
    let call = Call {
        words: texts(rt, words)?,
        vars: texts(rt, vars)?,
    };
    let folder = folder(rt, around)?;
    let (status, folder) = top_serial(rt.alloc(), call, &mut source, folder, &mut sink);
    Ok(Answered {
        status,
        written: sink.into_bytes().into_vec(),
        files: folder.into_files().into_vec(),
    })
}

/// The same over no file.
fn answer<R: AllocGlobal>(
    rt: &R,
    words: &[&str],
    vars: &[&str],
    input: &str,
) -> Result<(Status, Vec<u8>), Fail> {
    let answered = answer_in(rt, words, vars, input, &NOTHING)?;
    Ok((answered.status, answered.written))
}

#[test]
fn an_accepted_input_is_answered_whole(rt: HostRuntime) -> Result<(), Fail> {
    for (input, replies) in [
        ("", b"".as_slice()),
        (RUN, REPLIES),
        (
            "map A memory 4096 rw\nscript s\nload A 4096 0\n",
            b"script s\nload\n".as_slice(),
        ),
    ] {
        let (status, written) = answer(&rt, &["serial"], &[], input)?;
        assert_eq!(rt; status, Status::Done, "{input}");
        assert_eq!(rt; written.as_slice(), replies, "{input}");
    }
    Ok(())
}

/// A call that is refused reads and writes nothing.
fn refuses<R: Abort + AllocGlobal>(
    rt: &R,
    words: &[&str],
    vars: &[&str],
    fault: WordsFault,
) -> Result<(), Fail> {
    let (status, written) = answer(rt, words, vars, RUN)?;
    assert_eq!(rt; status, Status::Words(fault));
    assert!(rt; written.is_empty());
    Ok(())
}

#[test]
fn other_words_and_settings_are_refused(rt: HostRuntime) -> Result<(), Fail> {
    let stripes = WordsFault::BadOption {
        name: OptionName::Stripes,
    };
    let frames = WordsFault::BadSetting {
        name: SettingName::BufSize,
    };
    refuses(&rt, &[], &[], WordsFault::NoCommand)?;
    refuses(&rt, &["run"], &[], WordsFault::UnknownCommand)?;
    refuses(&rt, &["serial", "x"], &[], WordsFault::Words)?;
    refuses(&rt, &["serial", "--stripes", "05"], &[], stripes)?;
    refuses(&rt, &["serial"], &["UMAP_BUFSIZE=0"], frames)
}

/// At another page size the same text is another workload's, or is refused.
#[test]
fn settings_decide_over_the_run(rt: HostRuntime) -> Result<(), Fail> {
    let text = "map A memory 128 rw\nscript s\nstore A 0 aa\nload A 64 1\nload A 0 1\n";
    let small = ["UMAP_PAGESIZE=64", "UMAP_BUFSIZE=1"];
    let (status, written) = answer(&rt, &["serial"], small.as_slice(), text)?;
    assert_eq!(rt; status, Status::Done);
    assert_eq!(rt;
        written.as_slice(),
        b"script s\nok\nload 00\nload aa\n".as_slice()
    );
    let (status, written) = answer(&rt, &["serial"], &[], text)?;
    let kind = Refusal::Region(RegionKind::BadLength);
    assert_eq!(rt; status, Status::Refused { line: 1, kind });
    assert!(rt; written.is_empty());
    Ok(())
}

#[test]
fn refused_inputs_are_named_by_line_and_kind(rt: HostRuntime) -> Result<(), Fail> {
    let rows = [
        ("load A 0 1\n", 1, Refusal::Text(TextKind::Order)),
        (
            "map A memory 4096 rw\nscript s\nload A 4096 1\n",
            3,
            Refusal::Text(TextKind::Range),
        ),
        (
            "map A memory 4096 ro\nscript s\nstore A 0 01\n",
            3,
            Refusal::Text(TextKind::ReadOnly),
        ),
        // The text comes before the regions.
        (
            "map A memory 64 rw\nmap A memory 64 rw\nflush",
            3,
            Refusal::Text(TextKind::Unended),
        ),
        // Each rule before the one behind it, and lines that say nothing counted.
        (
            "# one\n\nmap A file f 64 rw\nmap A file f 64 rw\n",
            3,
            Refusal::Region(RegionKind::BadLength),
        ),
        (
            "map A file f 4096 rw\n\nmap A file f 64 rw\n",
            3,
            Refusal::Region(RegionKind::SameName),
        ),
        (
            "map A file x 4096 rw\nmap B file x 4096 ro\n",
            2,
            Refusal::Region(RegionKind::SameStore),
        ),
        (
            "map A sparse d 4096 4096 rw\nmap B file d/f 64 rw\n",
            2,
            Refusal::Region(RegionKind::SameStore),
        ),
        (
            "map A sparse d 4296015872 1048576 rw\n",
            1,
            Refusal::Region(RegionKind::BadLength),
        ),
        (
            "map A file a 4294967296 rw\nmap B memory 4096 rw\nscript s\nflush\n",
            2,
            Refusal::Region(RegionKind::TooManyPages),
        ),
        (
            "map A memory 4096 rw\nscript s\nprefetch A 0 1\n",
            0,
            Refusal::Unbuilt,
        ),
        ("map A sparse d 4096 4096 rw\n", 0, Refusal::Unbuilt),
    ];
    for (input, line, kind) in rows {
        let (status, written) = answer(&rt, &["serial"], &[], input)?;
        assert_eq!(rt; status, Status::Refused { line, kind }, "{input}");
        assert!(rt; written.is_empty());
    }
    Ok(())
}

#[test]
fn a_bad_third_line_is_named(rt: HostRuntime) -> Result<(), Fail> {
    for (line, kind) in [
        ("load A 00 1\n", TextKind::Number),
        ("load A 0 1 \n", TextKind::Line),
        ("load B 0 1\n", TextKind::Unknown),
        ("store A 0 0G\n", TextKind::Hex),
        ("script s\n", TextKind::Double),
        ("flush", TextKind::Unended),
    ] {
        let input = format!(in rt.alloc(); "map A memory 4096 rw\nscript s\n{line}")?;
        let (status, written) = answer(&rt, &["serial"], &[], input.as_str())?;
        let kind = Refusal::Text(kind);
        assert_eq!(rt; status, Status::Refused { line: 3, kind }, "{line}");
        assert!(rt; written.is_empty());
    }
    Ok(())
}

#[test]
fn failing_streams_are_told(rt: HostRuntime) -> Result<(), Fail> {
    let around = Around {
        reads: &[1],
        ..NOTHING
    };
    let answered = answer_in(&rt, &["serial"], &[], RUN, &around)?;
    assert_eq!(rt; answered.status, Status::SourceFault { faults: 1 });
    assert!(rt; answered.written.is_empty());
    let around = Around {
        writes: &[FailingWrite {
            number: 1,
            takes: 3,
        }],
        ..NOTHING
    };
    let answered = answer_in(&rt, &["serial"], &[], RUN, &around)?;
    assert_eq!(rt; answered.status, Status::SinkFault { faults: 1 });
    assert_eq!(rt; answered.written.as_slice(), b"scr".as_slice());
    Ok(())
}

#[test]
fn statuses_have_their_texts(rt: HostRuntime) {
    for (status, code, wanted) in [
        (Status::Done, 0, ""),
        (Status::StoreFault, 1, "umapsh: store fault\n"),
        (
            Status::Refused {
                line: 0,
                kind: Refusal::Unbuilt,
            },
            2,
            "umapsh: line 0: unbuilt\n",
        ),
        (
            Status::Refused {
                line: 4294967295,
                kind: Refusal::Region(RegionKind::TooManyPages),
            },
            2,
            "umapsh: line 4294967295: too many pages\n",
        ),
        (
            Status::Refused {
                line: 3,
                kind: Refusal::Text(TextKind::ReadOnly),
            },
            2,
            "umapsh: line 3: readonly\n",
        ),
        (
            Status::Words(WordsFault::NoCommand),
            3,
            "umapsh: words refused\n",
        ),
        (
            Status::Words(WordsFault::BadOption {
                name: OptionName::Stripes,
            }),
            3,
            "umapsh: option --stripes refused\n",
        ),
        (
            Status::Words(WordsFault::BadSetting {
                name: SettingName::HighWater,
            }),
            3,
            "umapsh: setting UMAP_EVICT_HIGH_WATER_THRESHOLD refused\n",
        ),
        (
            Status::Folder {
                region: 0,
                fault: FolderFault::TooShort {
                    have: 127,
                    need: 128,
                },
            },
            4,
            "umapsh: region 0: too short 127 128\n",
        ),
        (
            Status::Folder {
                region: 63,
                fault: FolderFault::Missing,
            },
            4,
            "umapsh: region 63: missing\n",
        ),
        (
            Status::Folder {
                region: 1,
                fault: FolderFault::Failed { faults: 2 },
            },
            4,
            "umapsh: region 1: failed 2\n",
        ),
        (Status::Memory, 5, "umapsh: out of memory\n"),
        (
            Status::SinkFault { faults: 1 },
            6,
            "umapsh: output failed\n",
        ),
        (
            Status::SourceFault { faults: 1 },
            7,
            "umapsh: input failed\n",
        ),
    ] {
        let mut out = [0u8; 128];
        let len = status.text(&mut out);
        assert_eq!(rt; status.code(), code);
        assert_eq!(rt; &out[..len], wanted.as_bytes());
    }
}
