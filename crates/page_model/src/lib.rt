//! The paging model: what a stripe's history is, which histories are legal, and the laws that every layer above stands on.
//!
//! It stands on `histories`, which knows lists of entries with their owners, and on `page_base`, which knows pages. It holds
//! no state and does no paging: it is what a reader must believe.
//!
//! - An `Entry` is one event of a stripe. A history is a list of entries, each with its owner's number, the newest first.
//! - `specs/` has one file per concept: what a history says of memory, of the pages' bits, of I/O in flight, of pending
//!   faults, of eviction and of unmapping. `specs/Legal.antt` says which entry may come next, and so which histories are legal.
//! - `specs/Core.antt` is what a stripe shows of itself, as plain data. `specs/Steps.antt` has one pure step per event.
//!   `specs/Stands.antt` says when such data stand for a history.
//! - The contracts of `laws` are the laws of legal histories. The contracts of `events` say, event by event, that the step of
//!   what stands for a history stands for that history with the entry. `examples` has worked histories, right and wrong ones,
//!   and `applied` what laws say of them.
#![tactic(auto)]

pub mod applied;
mod entry;
pub mod events;
pub mod examples;
mod journal;
pub mod laws;
mod note;
mod seen;
#[cfg(test)]
mod tests;

pub use entry::{Cause, Entry, EntryBytes, HintAnswer};
pub use journal::{Journal, NoJournal};
pub use note::Note;
pub use page_base::{Key, Raise, Why};
pub use seen::{Counts, Next, Pick};
