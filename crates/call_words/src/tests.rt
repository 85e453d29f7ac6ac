//! Calls and what they give: settings by row, refusals by row, and what is read of the system.
use crate::call::{Call, read_call, settings_of_call};
use crate::fault::{CallFault, OptionName, SettingName, WordsFault};
use page_base::Texts;
use script_run::Settings;
use std::env::{Env, FillError};
use std::process::Abort;
use std::test::Fail;

fn texts(rt: &impl AllocGlobal, words: &[&str]) -> Result<Texts, Fail> {
    let mut texts = Texts::new(rt.alloc());
    for word in words {
        texts.reserve(1)?;
        texts.put(String::from_str(rt.alloc(), *word)?);
    }
    Ok(texts)
}

fn answer(
    rt: &impl AllocGlobal,
    words: &[&str],
    vars: &[&str],
) -> Result<Result<Settings, CallFault>, Fail> {
    let call = Call {
        words: texts(rt, words)?,
        vars: texts(rt, vars)?,
    };
    Ok(settings_of_call(rt.alloc(), &call))
}

/// Page size, frames, stripes, faults, fillers, evictors, high, low, ahead.
fn numbers(s: &Settings) -> [u32; 9] {
    [
        s.layout.page_size(),
        s.layout.frames(),
        s.layout.stripes(),
        s.faults,
        s.fillers,
        s.evictors,
        s.high,
        s.low,
        s.ahead,
    ]
}

const SERIAL: &[&str] = &["serial"];

const TWICE: &[&str] = &["UMAP_BUFSIZE=7", "UMAP_BUFSIZE=9"];

const ALL: &[&str] = &[
    "UMAP_PAGESIZE=64",
    "UMAP_BUFSIZE=1048576",
    "UMAP_PAGE_FILLERS=64",
    "UMAP_PAGE_EVICTORS=64",
    "UMAP_EVICT_HIGH_WATER_THRESHOLD=100",
    "UMAP_EVICT_LOW_WATER_THRESHOLD=0",
    "UMAP_READ_AHEAD=1024",
];

#[test]
fn accepted_calls_give_their_settings(rt: HostRuntime) -> Result<(), Fail> {
    for (words, vars, wanted) in [
        (SERIAL, [].as_slice(), [4096, 1024, 4, 64, 2, 1, 90, 70, 0]),
        (
            ["serial", "--faults", "4096", "--stripes=64"].as_slice(),
            ALL,
            [64, 1048576, 64, 4096, 64, 64, 100, 0, 1024],
        ),
        (SERIAL, TWICE, [4096, 7, 4, 64, 2, 1, 90, 70, 0]),
        // A buffer of few pages has as few stripes.
        (
            SERIAL,
            [
                "UMAP_BUFSIZE=2",
                "HOME=/",
                "UMAP_LOG_LEVEL=5",
                "UMAP_BUFSIZE",
            ]
            .as_slice(),
            [4096, 2, 2, 64, 2, 1, 90, 70, 0],
        ),
        // A missing watermark makes room for the other.
        (
            SERIAL,
            ["UMAP_EVICT_HIGH_WATER_THRESHOLD=60"].as_slice(),
            [4096, 1024, 4, 64, 2, 1, 60, 59, 0],
        ),
        (
            SERIAL,
            ["UMAP_EVICT_LOW_WATER_THRESHOLD=99"].as_slice(),
            [4096, 1024, 4, 64, 2, 1, 100, 99, 0],
        ),
    ] {
        match answer(&rt, words, vars)? {
            Ok(settings) => assert_eq!(rt; numbers(&settings), wanted),
            Err(fault) => panic!(rt; "{fault:?}"),
        }
    }
    Ok(())
}

#[test]
fn other_words_are_refused(rt: HostRuntime) -> Result<(), Fail> {
    let stripes = WordsFault::BadOption {
        name: OptionName::Stripes,
    };
    let faults = WordsFault::BadOption {
        name: OptionName::Faults,
    };
    for (words, fault) in [
        ([].as_slice(), WordsFault::NoCommand),
        (["run"].as_slice(), WordsFault::UnknownCommand),
        (["make"].as_slice(), WordsFault::UnknownCommand),
        (["serial", "x"].as_slice(), WordsFault::Words),
        (["serial", ""].as_slice(), WordsFault::Words),
        (["serial", "--stats"].as_slice(), WordsFault::Words),
        (["serial", "--"].as_slice(), WordsFault::Words),
        (["serial", "-s", "2"].as_slice(), WordsFault::Words),
        (["serial", "-h"].as_slice(), WordsFault::Words),
        (["serial", "--help"].as_slice(), WordsFault::Words),
        (["serial", "--version"].as_slice(), WordsFault::Words),
        (["serial", "--stripe", "2"].as_slice(), WordsFault::Words),
        (["serial", "--stripes"].as_slice(), WordsFault::Words),
        (["serial", "--stripes="].as_slice(), WordsFault::Words),
        (["serial", "--stripes", "-1"].as_slice(), WordsFault::Words),
        (
            ["serial", "--stripes", "2", "--stripes", "2"].as_slice(),
            WordsFault::Words,
        ),
        (["serial", "--stripes", ""].as_slice(), stripes),
        (["serial", "--stripes=0"].as_slice(), stripes),
        (["serial", "--stripes=65"].as_slice(), stripes),
        (["serial", "--stripes=+2"].as_slice(), stripes),
        (["serial", "--faults", "0"].as_slice(), faults),
        (["serial", "--faults=04"].as_slice(), faults),
        (["serial", "--faults=0", "--stripes=0"].as_slice(), stripes),
    ] {
        match answer(&rt, words, ["UMAP_BUFSIZE=0"].as_slice())? {
            Ok(_) => panic!(rt; "taken"),
            Err(refused) => assert_eq!(rt; refused, CallFault::Refused(fault)),
        }
    }
    Ok(())
}

#[test]
fn other_settings_are_refused(rt: HostRuntime) -> Result<(), Fail> {
    for (vars, name) in [
        (["UMAP_BUFSIZE=0"].as_slice(), SettingName::BufSize),
        (["UMAP_BUFSIZE=064"].as_slice(), SettingName::BufSize),
        (["UMAP_BUFSIZE="].as_slice(), SettingName::BufSize),
        (["UMAP_BUFSIZE=1=2"].as_slice(), SettingName::BufSize),
        (["UMAP_BUFSIZE=1048577"].as_slice(), SettingName::BufSize),
        (
            ["UMAP_BUFSIZE=x", "UMAP_BUFSIZE=4"].as_slice(),
            SettingName::BufSize,
        ),
        (["UMAP_PAGESIZE=32"].as_slice(), SettingName::PageSize),
        (["UMAP_PAGESIZE=96"].as_slice(), SettingName::PageSize),
        (["UMAP_PAGESIZE=2097152"].as_slice(), SettingName::PageSize),
        (
            ["UMAP_PAGE_FILLERS=65"].as_slice(),
            SettingName::PageFillers,
        ),
        (
            ["UMAP_PAGE_EVICTORS=0"].as_slice(),
            SettingName::PageEvictors,
        ),
        (["UMAP_READ_AHEAD=1025"].as_slice(), SettingName::ReadAhead),
        // A bad range comes before the rules that join settings, and these have their order.
        (
            [
                "UMAP_EVICT_HIGH_WATER_THRESHOLD=70",
                "UMAP_EVICT_LOW_WATER_THRESHOLD=80",
            ]
            .as_slice(),
            SettingName::LowWater,
        ),
        (
            [
                "UMAP_EVICT_HIGH_WATER_THRESHOLD=101",
                "UMAP_EVICT_LOW_WATER_THRESHOLD=100",
            ]
            .as_slice(),
            SettingName::HighWater,
        ),
        (
            ["UMAP_PAGESIZE=1048576", "UMAP_BUFSIZE=1025"].as_slice(),
            SettingName::BufSize,
        ),
    ] {
        match answer(&rt, SERIAL, vars)? {
            Ok(_) => panic!(rt; "taken"),
            Err(fault) => {
                assert_eq!(rt; fault, CallFault::Refused(WordsFault::BadSetting { name }))
            }
        }
    }
    Ok(())
}

#[test]
fn there_is_a_page_for_each_stripe(rt: HostRuntime) -> Result<(), Fail> {
    let words = ["serial", "--stripes", "5"].as_slice();
    let refused = WordsFault::BadOption {
        name: OptionName::Stripes,
    };
    match answer(&rt, words, ["UMAP_BUFSIZE=4"].as_slice())? {
        Ok(_) => panic!(rt; "taken"),
        Err(fault) => assert_eq!(rt; fault, CallFault::Refused(refused)),
    }
    assert!(rt; answer(&rt, words, ["UMAP_BUFSIZE=5"].as_slice())?.is_ok());
    Ok(())
}

/// A system that was called with these words, the program's name before them, and has these variables.
#[derive(Drop)]
struct Told<'a> {
    words: &'a [&'a [u8]],
    vars: &'a [(&'a str, &'a [u8])],
}

impl Env for Told<'_> {
    fn arg(&self, i: usize, buf: &mut [u8]) -> Result<usize, FillError> {
        if i >= self.words.len() {
            return Err(FillError::NotPresent);
        }
        let word = self.words[i];
        if word.len() > buf.len() {
            return Err(FillError::TooLong);
        }
        buf[..word.len()].copy_from_slice(word);
        Ok(word.len())
    }

    fn var(&self, name: &str, buf: &mut [u8]) -> Result<usize, FillError> {
        for (told, value) in self.vars {
            if *told == name {
                let value = *value;
                if value.len() > buf.len() {
                    return Err(FillError::TooLong);
                }
                buf[..value.len()].copy_from_slice(value);
                return Ok(value.len());
            }
        }
        Err(FillError::NotPresent)
    }

    fn var_at(&self, _i: usize, _buf: &mut [u8]) -> Result<usize, FillError> {
        Err(FillError::NotPresent)
    }
}

fn have(rt: &impl Abort, texts: &Texts, wanted: &[&str]) {
    assert_eq!(rt; texts.len(), wanted.len());
    for i in 0..wanted.len().min(texts.len()) {
        assert_eq!(rt; texts.get(i).as_str(), wanted[i]);
    }
}

#[test]
fn a_call_has_the_words_and_the_settings_of_the_system(rt: HostRuntime) {
    let words = [b"umapsh".as_slice(), b"serial".as_slice(), b"".as_slice()];
    let vars = [
        ("UMAP_READ_AHEAD", b"\xff".as_slice()),
        ("HOME", b"/".as_slice()),
        ("UMAP_BUFSIZE", b"4".as_slice()),
    ];
    for (count, wanted) in [
        (0, [].as_slice()),
        (1, [].as_slice()),
        (3, ["serial", ""].as_slice()),
    ] {
        let told = Told {
            words: &words[..count],
            vars: &vars,
        };
        match read_call(&(told, rt.alloc())) {
            Ok(call) => {
                have(&rt, &call.words, wanted);
                have(&rt, &call.vars, &["UMAP_BUFSIZE=4", "UMAP_READ_AHEAD="]);
            }
            Err(fault) => panic!(rt; "{fault:?}"),
        }
    }
}

/// All seven settings are read of the system, in their order, whatever order the system has.
#[test]
fn the_variables_of_all_settings_are_read(rt: HostRuntime) {
    let vars = [
        ("UMAP_READ_AHEAD", b"7".as_slice()),
        ("UMAP_EVICT_LOW_WATER_THRESHOLD", b"6".as_slice()),
        ("UMAP_EVICT_HIGH_WATER_THRESHOLD", b"5".as_slice()),
        ("UMAP_PAGE_EVICTORS", b"4".as_slice()),
        ("UMAP_PAGE_FILLERS", b"3".as_slice()),
        ("UMAP_BUFSIZE", b"2".as_slice()),
        ("UMAP_PAGESIZE", b"64".as_slice()),
    ];
    let told = Told {
        words: &[],
        vars: &vars,
    };
    let wanted = [
        "UMAP_PAGESIZE=64",
        "UMAP_BUFSIZE=2",
        "UMAP_PAGE_FILLERS=3",
        "UMAP_PAGE_EVICTORS=4",
        "UMAP_EVICT_HIGH_WATER_THRESHOLD=5",
        "UMAP_EVICT_LOW_WATER_THRESHOLD=6",
        "UMAP_READ_AHEAD=7",
    ];
    match read_call(&(told, rt.alloc())) {
        Ok(call) => have(&rt, &call.vars, &wanted),
        Err(fault) => panic!(rt; "{fault:?}"),
    }
}

#[test]
fn a_word_that_is_no_text_is_refused(rt: HostRuntime) {
    let words = [
        b"umapsh".as_slice(),
        b"serial".as_slice(),
        b"\xff".as_slice(),
    ];
    let told = Told {
        words: &words,
        vars: &[],
    };
    match read_call(&(told, rt.alloc())) {
        Ok(_) => panic!(rt; "taken"),
        Err(fault) => assert_eq!(rt; fault, CallFault::Refused(WordsFault::Words)),
    }
}
