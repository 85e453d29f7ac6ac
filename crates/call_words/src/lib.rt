//! The words and the settings of a call of the command.
//!
//! It stands on `script_run`, whose settings it gives, on `workload_text`, whose numbers it reads, on `page_base`, and on the
//! kit's `clap` and `thiserror`. `settings_of_call` promises the settings, or the first refusal, of one definition over words
//! and variables as bytes (`reads_call`); `clap` reads the options behind a test of single words, and isn't named there.
#![tactic(auto)]

mod call;
mod fault;
mod limits;
mod options;
mod settings;
#[cfg(test)]
mod tests;
mod variables;

pub use crate::call::{Call, read_call, settings_of_call};
pub use crate::fault::{CallFault, OptionName, SettingName, WordsFault};
pub use crate::limits::{MOST_AHEAD, MOST_EVICTORS, MOST_FILLERS, MOST_HIGH, MOST_LOW};
