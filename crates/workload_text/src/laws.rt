//! The laws of the language: functions with nothing to do whose contracts are what callers rest on.
//!
//! A caller that needs a law calls it beside the values that it speaks of; the call costs nothing.
ghost use Rattle.std.specs.Prelude.{◌≡◌, ◌↔◌, ℕ, List, Ok, Err, Some, None};
ghost use Rattle.workload_text.specs.Line.{Line, TextLine};
ghost use Rattle.workload_text.specs.Grammar.{IsText, Spells};
ghost use Rattle.workload_text.specs.Refusals.{RefusedAt, read_text, refusal};
ghost use Rattle.workload_text.specs.FirstBad.{RefusalsAreRight, AcceptedIsFree};
ghost use Rattle.workload_text.specs.Accepted.{IsRunnable};

/// The reading function reads exactly what the grammar spells.
pub fn text_is_read_as_spelt()
    ensures { (bytes : List ℕ) (texts : List TextLine) → (read_text bytes ≡ Ok texts) ↔ IsText bytes texts }
{}

/// It refuses exactly the first bad line, for its first kind.
pub fn text_is_refused_at_its_first_bad_line()
    ensures { (bytes : List ℕ) (r : RefusedAt) → (read_text bytes ≡ Err r) ↔ (refusal bytes ≡ Some r) }
{}

/// A text has one reading at most.
pub fn text_is_read_one_way()
    ensures { (bytes : List ℕ) (some other : List TextLine) → IsText bytes some → IsText bytes other → some ≡ other }
{}

/// A text spells one workload at most.
pub fn text_spells_one_workload()
    ensures { (bytes : List ℕ) (some other : List Line) → Spells bytes some → Spells bytes other → some ≡ other }
{}

/// A text spells a workload exactly where it has no refusal: one of the two is given, and never both.
pub fn text_is_spelt_or_refused()
    ensures { (bytes : List ℕ) → ((lines : List Line) × Spells bytes lines) ↔ (refusal bytes ≡ None) }
{}

/// The lines of an accepted text can be run.
pub fn accepted_lines_are_runnable()
    ensures { (bytes : List ℕ) (lines : List Line) → Spells bytes lines → IsRunnable lines }
{}

/// A refusal names, by the grammar alone, the first line with which no accepted text begins, and the first kind that
/// applies to it; a text that is too long is refused as a whole.
pub fn refusals_are_right()
    ensures { RefusalsAreRight }
{}

/// To no line of an accepted text does a kind of refusal apply.
pub fn accepted_is_free()
    ensures { AcceptedIsFree }
{}
