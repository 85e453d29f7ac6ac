//! The software memory unit: a page table with the bits of every page of a stripe's regions.
//!
//! It stands on `page_base` alone. Contracts see one list of entries per region, in order of page: an entry is absent, or
//! present with its bits and its frame. It promises that an access is translated exactly by the bits, and that every change
//! sets one entry and leaves all others as they were. The bits mean what they mean to userfaultfd(2): a page is present,
//! it may be write-protected, and it is dirty where memory is newer than the store. The table counts its present and its
//! dirty pages by region, and finds the dirty ones in order of key. All memory is taken in `PageTable::new`; every other
//! call takes constant time, but for the search for a dirty page.
//!
//! `word` is one entry in eight bytes, `leaf` 512 words, `region` a directory of leaves, and `table` one directory for each
//! region. Each has a model, so that the one above it sees lists of entries.
#![tactic(auto)]

mod entry;
mod leaf;
mod region;
mod table;
mod word;

pub use entry::{Bits, Found, PageEntry, Wants};
pub use table::PageTable;
