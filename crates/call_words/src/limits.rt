//! The limits of the settings that no layout has. The others stand in `page_base`.

/// The most threads that fill pages.
pub const MOST_FILLERS: u32 = 64;

/// The most threads that evict pages.
pub const MOST_EVICTORS: u32 = 64;

/// The greatest high watermark, in percent.
pub const MOST_HIGH: u32 = 100;

/// The greatest low watermark, in percent.
pub const MOST_LOW: u32 = 99;

/// The most pages that are read ahead.
pub const MOST_AHEAD: u32 = 1024;
