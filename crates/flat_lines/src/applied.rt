//! The laws applied to a worked case: what they ask can be met, and what they say of it.
ghost use Rattle.flat_lines.specs.Worked.{LoadsWhatWasStored};

use crate::laws::{bytes_by_pages, lines_are_flat};

/// A load over two stripes gives what was stored over both.
pub fn a_load_gives_what_was_stored()
    ensures { LoadsWhatWasStored }
{
    lines_are_flat();
    bytes_by_pages();
}
