//! Texts of the workload language.
ghost use Rattle.applied_laws.specs.Applied.{FirstLineIsFree};

use workload_text::laws::accepted_is_free;

/// No kind of refusal applies to the first line of an accepted text.
pub fn the_first_line_of_a_text_has_no_fault()
    ensures { FirstLineIsFree }
{
    accepted_is_free();
}
