//! Texts and what is answered to them, from the description of the language and not from its
//! specs; the boundary of each limit from both sides.
use page_base::OutOfMemory;
use std::alloc::{AllocError, Global};
use std::test::Fail;
use workload_text::{Command, TextFault, TextKind, is_built, is_in_memory, parse};

/// A text given as pieces, each so many times.
type Pieces = &'static [(&'static str, usize)];

fn text_of(alloc: Global, pieces: &[(&'static str, usize)]) -> Result<Vec<u8>, AllocError> {
    let mut text = Vec::new(alloc);
    for (piece, times) in pieces {
        for _ in 0..*times {
            text.extend_from_slice(piece.as_bytes())?;
        }
    }
    Ok(text)
}

/// The line that is refused and why, if one is.
fn refused(alloc: Global, text: &[u8]) -> Result<Option<(u32, TextKind)>, OutOfMemory> {
    match parse(alloc, text) {
        Ok(_) => Ok(None),
        Err(TextFault::Refused { line, kind }) => Ok(Some((line, kind))),
        Err(TextFault::OutOfMemory) => Err(OutOfMemory),
    }
}

#[test]
fn an_accepted_text_gives_its_workload(rt: HostRuntime) -> Result<(), Fail> {
    let text =
        b"# two\nmap A memory 128 rw\n\nmap B file f 64 ro\nscript s\nstore A 62 01fe0304\nload B 62 2\nscript t_2\n";
    let parsed = parse(rt.alloc(), text)?;
    let workload = &parsed.workload;
    assert_eq!(rt; parsed.map_lines.as_slice(), [2, 4].as_slice());
    assert_eq!(rt; workload.maps.len(), 2);
    let region = workload.maps.get(0);
    assert_eq!(rt; region.name.as_slice(), b"A".as_slice());
    assert_eq!(rt; region.length, 128);
    assert!(rt; region.writable);
    assert_eq!(rt; workload.scripts.len(), 2);
    assert_eq!(rt; workload.scripts.get(1).name.as_slice(), b"t_2".as_slice());
    let commands = &workload.scripts.get(0).commands;
    assert_eq!(rt; commands.len(), 2);
    match commands.get(0) {
        Command::Store { region, off, bytes } => {
            assert_eq!(rt; *region, 0);
            assert_eq!(rt; *off, 62);
            assert_eq!(rt; bytes.as_slice(), [1, 254, 3, 4].as_slice());
        }
        _ => panic!(rt; "the first command is a store"),
    }
    match commands.get(1) {
        Command::Load { region, off, len } => {
            assert_eq!(rt; *region, 1);
            assert_eq!(rt; *off, 62);
            assert_eq!(rt; *len, 2);
        }
        _ => panic!(rt; "the second command is a load"),
    }
    Ok(())
}

#[test]
fn a_text_is_refused_at_its_first_bad_line(rt: HostRuntime) -> Result<(), Fail> {
    let rows = [
        ("", None),
        ("\n\n", None),
        ("#", Some((1, TextKind::Unended))),
        ("script s\nflush\n# end", Some((3, TextKind::Unended))),
        ("# \u{e4}\n\nflush\n", Some((3, TextKind::Order))),
        ("flush\njump\n", Some((1, TextKind::Order))),
        (" # says something\n", Some((1, TextKind::Line))),
        ("map A disk\n", Some((1, TextKind::Kind))),
        ("map A memory\n", Some((1, TextKind::Line))),
        ("map A disk 1 2 3 4 5 6 7\n", Some((1, TextKind::Kind))),
        ("map A disk \n", Some((1, TextKind::Line))),
        ("map  disk 1\n", Some((1, TextKind::Line))),
        ("map A memory 64 rw 64\n", Some((1, TextKind::Line))),
        ("map A-B file a//b 0 wr\n", Some((1, TextKind::Name))),
        ("map A file a//b 0 wr\n", Some((1, TextKind::Path))),
        ("map A file a 0 wr\n", Some((1, TextKind::Number))),
        ("map A sparse d 64 064 wr\n", Some((1, TextKind::Number))),
        ("map A sparse d 64 64 wr\n", Some((1, TextKind::Mode))),
        ("map A sparse d/e.f-g_ 64 64 rw\n", None),
        ("map A file /a 1 rw\n", Some((1, TextKind::Path))),
        ("map A file a/ 1 rw\n", Some((1, TextKind::Path))),
        ("map A file a/./b 1 rw\n", Some((1, TextKind::Path))),
        ("map A file .. 1 rw\n", Some((1, TextKind::Path))),
        ("map A file a/... 1 rw\n", None),
        ("load A-B 0 1\n", Some((1, TextKind::Order))),
        (
            "map A sparse d 64 64 rw\nmap A file d/f 9 ro\nscript s\nstore A 63 00\n",
            None,
        ),
    ];
    for (text, wanted) in rows {
        assert_eq!(rt;
            refused(rt.alloc(), text.as_bytes())?,
            wanted,
            "at {text:?}"
        );
    }
    Ok(())
}

#[test]
fn the_first_kind_decides(rt: HostRuntime) -> Result<(), Fail> {
    let head = ("map A memory 128 rw\nmap R memory 64 ro\nscript s\n", 1);
    let rows = [
        ("load A 0 128\n", None),
        ("load A 128 0\n", None),
        ("store A 127 ff\n", None),
        ("prefetch A 0 128\n", None),
        ("flush\nunmap A\n", None),
        ("flush", Some(TextKind::Unended)),
        ("load A  0 1", Some(TextKind::Unended)),
        ("load A  0 1\n", Some(TextKind::Line)),
        ("load A 0 1 \n", Some(TextKind::Line)),
        ("load A 0\n", Some(TextKind::Line)),
        ("flush A\n", Some(TextKind::Line)),
        ("unmap A B\n", Some(TextKind::Line)),
        ("script\n", Some(TextKind::Line)),
        ("Load A 0 1\n", Some(TextKind::Line)),
        ("load\tA 0 1\n", Some(TextKind::Line)),
        ("map A disk\n", Some(TextKind::Kind)),
        ("map A-B memory x wr\n", Some(TextKind::Order)),
        ("load A-B 00 1\n", Some(TextKind::Name)),
        ("load A\0 0 1\n", Some(TextKind::Name)),
        ("load A 00 1\n", Some(TextKind::Number)),
        ("load A +0 1\n", Some(TextKind::Number)),
        ("load A 0 1\r\n", Some(TextKind::Number)),
        ("load A 0 65537\n", Some(TextKind::Number)),
        ("load A 18446744073709551616 0\n", Some(TextKind::Number)),
        ("store A 00 0G\n", Some(TextKind::Number)),
        ("store B 0 0G\n", Some(TextKind::Hex)),
        ("store A 0 abc\n", Some(TextKind::Hex)),
        ("load B 00 1\n", Some(TextKind::Number)),
        ("load B 129 1\n", Some(TextKind::Unknown)),
        ("script s-\n", Some(TextKind::Name)),
        ("script s\n", Some(TextKind::Double)),
        ("load A 128 1\n", Some(TextKind::Range)),
        ("prefetch A 0 129\n", Some(TextKind::Range)),
        ("store R 64 00\n", Some(TextKind::Range)),
        ("store R 63 00\n", Some(TextKind::ReadOnly)),
    ];
    for (line, kind) in rows {
        let text = text_of(rt.alloc(), &[head, (line, 1)])?;
        let wanted = match kind {
            Some(kind) => Some((4, kind)),
            None => None,
        };
        assert_eq!(rt;
            refused(rt.alloc(), text.as_slice())?,
            wanted,
            "at {line:?}"
        );
    }
    Ok(())
}

#[test]
fn limits_hold_to_the_last_one(rt: HostRuntime) -> Result<(), Fail> {
    let rows: [(&str, Pieces, Option<(u32, TextKind)>); 16] = [
        (
            "a name of 32 bytes",
            &[("map ", 1), ("n", 32), (" memory 64 rw\n", 1)],
            None,
        ),
        (
            "a name of 33 bytes",
            &[("map ", 1), ("n", 33), (" memory 64 rw\n", 1)],
            Some((1, TextKind::Name)),
        ),
        (
            "the longest region",
            &[("map A memory 16777216 rw\n", 1)],
            None,
        ),
        (
            "a longer region",
            &[("map A memory 16777217 rw\n", 1)],
            Some((1, TextKind::Number)),
        ),
        (
            "a path of 255 bytes",
            &[("map A file ", 1), ("p", 255), (" 1099511627776 rw\n", 1)],
            None,
        ),
        (
            "a path of 256 bytes",
            &[("map A file ", 1), ("p", 256), (" 1099511627777 rw\n", 1)],
            Some((1, TextKind::Path)),
        ),
        (
            "the longest load",
            &[("map A memory 65537 rw\nscript s\nload A 0 65536\n", 1)],
            None,
        ),
        (
            "a longer load",
            &[("map A memory 65537 rw\nscript s\nload A 0 65537\n", 1)],
            Some((3, TextKind::Number)),
        ),
        (
            "the longest store",
            &[
                ("map A memory 65537 rw\nscript s\nstore A 0 ", 1),
                ("5a", 65536),
                ("\n", 1),
            ],
            None,
        ),
        (
            "a longer store",
            &[
                ("map A memory 65537 rw\nscript s\nstore A 0 ", 1),
                ("5a", 65537),
                ("\n", 1),
            ],
            Some((3, TextKind::Hex)),
        ),
        (
            "as many loaded bytes as may be",
            &[
                ("map A memory 65536 rw\nscript s\n", 1),
                ("load A 0 65536\n", 512),
            ],
            None,
        ),
        (
            "one more loaded byte",
            &[
                ("map A memory 65536 rw\nscript s\n", 1),
                ("load A 0 65536\n", 512),
                ("load A 0 1\n", 1),
            ],
            Some((515, TextKind::Many)),
        ),
        (
            "one more loaded byte, behind the region's end",
            &[
                ("map A memory 65536 rw\nscript s\n", 1),
                ("load A 0 65536\n", 512),
                ("load A 65536 1\n", 1),
            ],
            Some((515, TextKind::Range)),
        ),
        (
            "as many commands as may be",
            &[
                ("map A memory 1 rw\nscript s\n", 1),
                ("load A 0 0\n", 262144),
            ],
            None,
        ),
        (
            "one more command",
            &[
                ("map A memory 1 rw\nscript s\n", 1),
                ("load A 0 0\n", 262145),
            ],
            Some((262147, TextKind::Many)),
        ),
        (
            "one more command, which stores where it may not",
            &[
                ("map A memory 1 ro\nscript s\n", 1),
                ("load A 0 0\n", 262144),
                ("store A 0 00\n", 1),
            ],
            Some((262147, TextKind::ReadOnly)),
        ),
    ];
    for (shows, pieces, wanted) in rows {
        let text = text_of(rt.alloc(), pieces)?;
        assert_eq!(rt; refused(rt.alloc(), text.as_slice())?, wanted, "{shows}");
    }
    Ok(())
}

/// Stores that fill a text up to its greatest length, and a script's name that may be longer.
fn filled(alloc: Global, script: &[u8]) -> Result<Vec<u8>, AllocError> {
    let mut text = text_of(alloc, &[("map A memory 131072 rw\nscript ", 1)])?;
    text.extend_from_slice(script)?;
    text.extend_from_slice(b"\n")?;
    let mut store = text_of(alloc, &[("store A 0 ", 1), ("5a", 65536), ("\n", 1)])?;
    for _ in 0..127 {
        text.extend_from_slice(store.as_slice())?;
    }
    store = text_of(alloc, &[("store A 0 ", 1), ("00", 64816), ("\n", 1)])?;
    text.extend_from_slice(store.as_slice())?;
    Ok(text)
}

#[test]
fn a_text_may_have_16777216_bytes(rt: HostRuntime) -> Result<(), Fail> {
    let longest = filled(rt.alloc(), b"s")?;
    assert_eq!(rt; longest.len(), 16777216);
    assert_eq!(rt; refused(rt.alloc(), longest.as_slice())?, None);
    let mut longer = filled(rt.alloc(), b"ss")?;
    let long = Some((0, TextKind::Long));
    assert_eq!(rt; refused(rt.alloc(), longer.as_slice())?, long);
    longer.extend_from_slice(b"flush")?;
    assert_eq!(rt; refused(rt.alloc(), longer.as_slice())?, long, "unended");
    Ok(())
}

#[test]
fn sixty_four_regions_and_scripts_may_begin(rt: HostRuntime) -> Result<(), Fail> {
    for (line, behind, other, kind) in [
        ("map n", " memory 1 rw", "map n memory 1 wr", TextKind::Mode),
        ("script s", "", "script s0", TextKind::Double),
    ] {
        let mut text = String::new(rt.alloc());
        for i in 0..64 {
            text.push_str(format!(in rt.alloc(); "{line}{i}{behind}\n")?.as_str())?;
        }
        assert_eq!(rt; refused(rt.alloc(), text.as_bytes())?, None);
        let worse = format!(in rt.alloc(); "{text}{other}\n")?;
        assert_eq!(rt;
            refused(rt.alloc(), worse.as_bytes())?,
            Some((65, kind)),
            "{other}"
        );
        text.push_str(format!(in rt.alloc(); "{line}64{behind}\n")?.as_str())?;
        assert_eq!(rt;
            refused(rt.alloc(), text.as_bytes())?,
            Some((65, TextKind::Many))
        );
    }
    Ok(())
}

#[test]
fn regions_in_memory_or_a_file_and_all_but_a_prefetch_are_built(
    rt: HostRuntime,
) -> Result<(), Fail> {
    for (text, built, memory) in [
        (
            "map A memory 64 rw\nmap B memory 64 ro\nscript s\nload B 0 1\nstore A 0 00\n",
            true,
            true,
        ),
        (
            "map A memory 64 rw\nscript s\nload A 0 1\nflush\nscript t\nunmap A\n",
            true,
            true,
        ),
        (
            "map A memory 64 rw\nscript s\nload A 0 1\nscript t\nprefetch A 0 1\n",
            false,
            true,
        ),
        ("map A memory 64 rw\nmap B file f 64 rw\n", true, false),
        ("map A sparse d 64 64 rw\n", false, false),
    ] {
        let parsed = parse(rt.alloc(), text.as_bytes())?;
        assert_eq!(rt; is_built(&parsed.workload), built, "{text}");
        assert_eq!(rt; is_in_memory(&parsed.workload), memory, "{text}");
    }
    Ok(())
}
