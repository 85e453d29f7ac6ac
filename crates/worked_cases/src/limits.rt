//! Each limit and each default by its number. Clauses and definitions cite these constants, so no proof pins them.
use page_base::{
    LEAST_PAGE_SIZE, MOST_BUFFER_BYTES, MOST_FAULTS, MOST_FRAMES, MOST_PAGE_SIZE, MOST_PAGES,
    MOST_REGIONS, MOST_STRIPES,
};
use region_table::MOST_FILES;
use script_run::Settings;
use std::process::Abort;
use workload_text::{
    MOST_ACCESS_BYTES, MOST_COMMANDS, MOST_LOADED_BYTES, MOST_MEMORY_BYTES, MOST_NAME_BYTES,
    MOST_PATH_BYTES, MOST_SCRIPTS, MOST_STORED_BYTES, MOST_TEXT_BYTES,
};

#[test]
fn limits_are_these_numbers(rt: HostRuntime) {
    let rows = [
        ("least page size", u64::from(LEAST_PAGE_SIZE), 64),
        ("most page size", u64::from(MOST_PAGE_SIZE), 1_048_576),
        ("most frames", u64::from(MOST_FRAMES), 1_048_576),
        ("most bytes of a buffer", MOST_BUFFER_BYTES, 1_073_741_824),
        ("most stripes", u64::from(MOST_STRIPES), 64),
        ("most faults that wait", u64::from(MOST_FAULTS), 4096),
        ("most regions", MOST_REGIONS as u64, 64),
        ("most pages", MOST_PAGES, 1_048_576),
        ("most files of a region", MOST_FILES, 4096),
        ("most bytes of a text", MOST_TEXT_BYTES as u64, 16_777_216),
        ("most bytes of a name", MOST_NAME_BYTES as u64, 32),
        ("most bytes of a path", MOST_PATH_BYTES as u64, 255),
        ("most bytes in memory", MOST_MEMORY_BYTES, 16_777_216),
        ("most bytes in files", MOST_STORED_BYTES, 1_099_511_627_776),
        ("most scripts", MOST_SCRIPTS as u64, 64),
        ("most commands", u64::from(MOST_COMMANDS), 262_144),
        ("most bytes of an access", MOST_ACCESS_BYTES as u64, 65_536),
        ("most bytes of all loads", MOST_LOADED_BYTES, 33_554_432),
    ];
    for (name, limit, wanted) in rows {
        assert_eq!(rt; limit, wanted, "{name}");
    }
}

#[test]
fn defaults_are_these_numbers(rt: HostRuntime) {
    let settings = Settings::defaults();
    let rows = [
        ("page size", settings.layout.page_size(), 4096),
        ("stripes", settings.layout.stripes(), 4),
        ("frames", settings.layout.frames(), 1024),
        ("fillers", settings.fillers, 2),
        ("evictors", settings.evictors, 1),
        ("high watermark", settings.high, 90),
        ("low watermark", settings.low, 70),
        ("read-ahead", settings.ahead, 0),
        ("faults that wait", settings.faults, 64),
    ];
    for (name, number, wanted) in rows {
        assert_eq!(rt; number, wanted, "{name}");
    }
}
