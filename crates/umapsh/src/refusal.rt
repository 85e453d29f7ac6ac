//! Why an input is refused: its text is no workload, its regions break a rule, or it can't be run yet.

use script_run::RegionKind;
use workload_text::TextKind;

/// The kinds of refusal together. The text comes first, then the regions.
#[derive(Clone, Copy, Debug, PartialEq, Eq)]
pub enum Refusal {
    Text(TextKind),
    Region(RegionKind),
    /// A part of the language that isn't built yet: a region in a folder of files, or a `prefetch`.
    Unbuilt,
}
