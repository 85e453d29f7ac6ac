//! Each call once, over notes of every kind.
use crate::{Cause, Counts, Entry, HintAnswer, Journal, Key, NoJournal, Note, Why};
use std::alloc::AllocError;

const PAGE: Key = Key { region: 2, page: 7 };

#[test]
fn a_note_tells_its_page_and_whether_it_is_an_access(rt: HostRuntime) {
    let bytes = [1, 2];
    for (note, page, access) in [
        (
            Note::Load {
                key: PAGE,
                place: 0,
                bytes: &bytes,
            },
            Some(PAGE),
            true,
        ),
        (
            Note::Hint {
                key: PAGE,
                answer: HintAnswer::Full,
            },
            Some(PAGE),
            true,
        ),
        (
            Note::Raised {
                key: PAGE,
                why: Why::Ahead,
            },
            Some(PAGE),
            false,
        ),
        (
            Note::StartWrite {
                key: PAGE,
                why: Cause::Flush,
            },
            Some(PAGE),
            false,
        ),
        (Note::Closing { region: 2 }, None, false),
    ] {
        assert_eq!(rt; note.key(), page);
        assert_eq!(rt; note.is_access(), access);
    }
}

#[test]
fn counts_tell_the_kinds_apart(rt: HostRuntime) {
    let mut counts = Counts::none();
    counts.add(&Note::Filled { key: PAGE });
    counts.add(&Note::Written {
        key: PAGE,
        at: 4,
        bytes: &[],
    });
    counts.add(&Note::Evicted {
        key: PAGE,
        why: Cause::Pressure,
    });
    counts.add(&Note::ReadFailed { key: PAGE, n: 1 });
    counts.add(&Note::WriteFailed { key: PAGE, n: 2 });
    counts.add(&Note::Opened { key: PAGE });
    assert_eq!(rt;
        counts,
        Counts {
            fills: 1,
            writes: 1,
            evictions: 1,
            faults: 2
        }
    );
}

#[test]
fn an_entry_has_bytes_of_its_own(rt: HostRuntime) -> Result<(), AllocError> {
    let note = Note::Save {
        key: PAGE,
        place: 5,
        bytes: &[8, 9],
    };
    let mut journal = NoJournal;
    journal.note(1, &note);
    match note.to_entry(rt.alloc())? {
        Entry::Save { key, place, bytes } => {
            assert_eq!(rt; key, PAGE);
            assert_eq!(rt; place, 5);
            assert_eq!(rt; bytes.as_slice(), [8, 9].as_slice());
        }
        _ => assert!(rt; false, "a note of a store is a store"),
    }
    Ok(())
}
