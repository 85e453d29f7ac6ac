//! The workload language, version 1: its values, its grammar and its reading.
//!
//! It stands on `page_base`, and on the kit's `hex` and `memchr`. The grammar is a relation that prints
//! (`specs/Grammar.antt`); `parse` promises a workload exactly where the bytes spell one, else the first bad line and the
//! first kind of refusal that applies to it (`specs/Refusals.antt`), and that what it gives can be run: ranges lie inside
//! their regions, stores name writable ones, limits hold. `laws` has what follows from the definitions alone. `is_built`
//! tells what the program can run so far.
#![tactic(auto)]

mod commands;
mod cut;
mod field;
pub mod laws;
mod limits;
mod maps;
mod reading;
mod refusal;
mod scripts;
mod text;
mod workload;

pub use crate::field::number;
pub use crate::limits::{
    MOST_ACCESS_BYTES, MOST_COMMANDS, MOST_LOADED_BYTES, MOST_MEMORY_BYTES, MOST_NAME_BYTES,
    MOST_PATH_BYTES, MOST_SCRIPTS, MOST_STORED_BYTES, MOST_TEXT_BYTES,
};
pub use crate::refusal::{TextFault, TextKind};
pub use crate::text::parse;
pub use crate::workload::{
    Command, MapLine, Parsed, Script, StoreKind, Workload, is_built, is_in_memory,
};
