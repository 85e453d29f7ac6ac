//! The limits of the language. Clauses and definitions cite these names; the most regions stand in `page_base`.

/// The most bytes of a text.
pub const MOST_TEXT_BYTES: usize = 16_777_216;

/// The most bytes of a region's or script's name.
pub const MOST_NAME_BYTES: usize = 32;

/// The most bytes of a path.
pub const MOST_PATH_BYTES: usize = 255;

/// The most bytes of a region in memory.
pub const MOST_MEMORY_BYTES: u64 = 16_777_216;

/// The most bytes of a region in files and of one of its files, and so the greatest offset and the longest hint.
pub const MOST_STORED_BYTES: u64 = 1_099_511_627_776;

/// The most scripts of a text.
pub const MOST_SCRIPTS: usize = 64;

/// The most commands of all scripts together.
pub const MOST_COMMANDS: u32 = 262_144;

/// The most bytes of one load or store.
pub const MOST_ACCESS_BYTES: usize = 65_536;

/// The most bytes that all loads of a text load together.
pub const MOST_LOADED_BYTES: u64 = 33_554_432;
