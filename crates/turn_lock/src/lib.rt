//! A ticket lock whose every hold hands out a value that stands for one history.
//!
//! It stands on `histories` (entries with owners, newest first) and on the kit's `atomic_table` (words and slots that
//! change in atomic steps under a stated rule). It knows nothing of what a value is or what an entry says.
//!
//! Callers share one `TurnLock` and have a `Pass` each. What it promises: a hold hands out the value, which stands for a
//! history that goes on from all that this pass had seen, in which the pass's own entries are those that it made, each
//! once. `Held::give` puts the value back with one entry more, `Held::leave` with none. Nothing of the history is stored:
//! the passes have no bytes for it, and the contracts speak of it through what a pass shows (`specs/Seen.antt`).
//!
//! A pass that has made all its holds gets no further one and comes back as it was. A `Held` can't be let go. Who keeps
//! its pass with others lends it: `Held::lend` hands the pass back in the hold with a `Lent`, which can't be let go either,
//! and `TurnLock::resume` takes both. When passes are folded together, what each had seen is a part of what is seen then.
//!
//! It doesn't promise that a hold is ever served, an order among those that wait, or any time. `work_two`,
//! `work_all` and `work_beside` run jobs that own their passes in threads of their own.
#![tactic(auto)]

mod closed;
mod faults;
mod held;
mod jobs;
mod laws;
mod lock;
mod pass;
mod rule;
mod stands;
mod steps;
#[cfg(test)]
mod tests;
mod view;

pub use closed::Closed;
pub use faults::{NewFault, NoSpare, PassSpent, Spent, SpentPass};
pub use held::{Held, Holding, Lent};
pub use jobs::{Signal, Work, work_all, work_beside, work_two};
pub use lock::{MOST_SEATS, TurnLock};
pub use pass::{Pass, Seated};
pub use stands::{NoteFor, Stands};
pub use view::{Ended, Terms};
