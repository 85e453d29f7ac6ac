//! The limits of a buffer and of what it pages. Clauses and definitions cite these names.

/// The least bytes of a page.
pub const LEAST_PAGE_SIZE: u32 = 64;

/// The most bytes of a page.
pub const MOST_PAGE_SIZE: u32 = 1_048_576;

/// The most frames of a buffer.
pub const MOST_FRAMES: u32 = 1_048_576;

/// The most bytes of all frames of a buffer together.
pub const MOST_BUFFER_BYTES: u64 = 1_073_741_824;

/// The most stripes that share a buffer.
pub const MOST_STRIPES: u32 = 64;

/// The most faults that may wait in one stripe.
pub const MOST_FAULTS: u32 = 4096;

/// The most regions that are mapped at once.
pub const MOST_REGIONS: usize = 64;

/// The most pages of all regions together.
pub const MOST_PAGES: u64 = 1_048_576;
