//! Laws applied to the worked histories: what they ask can be met, and what they say of it.
ghost use Rattle.std.specs.Prelude.{◌≡◌, ◌≤◌, ◌++◌, ◌∷◌, [], true, List, length, reverse};
ghost use Rattle.std.specs.List.{list_any};
ghost use Rattle.histories.specs.Histories.{History, by, Alone, Grew, HasNew, IsNew};
ghost use Rattle.page_model.specs.declared.entry.Entry.{Entry as Seen};
ghost use Rattle.page_model.specs.declared.entry.Entry.TheVariants.{ReadFailed};
ghost use Rattle.page_model.specs.Closings.{is_unmapped};
ghost use Rattle.page_model.specs.Entries.{accesses_of};
ghost use Rattle.page_base.specs.declared.keys.Key.{Key};
ghost use Rattle.page_model.specs.Faults.{pending};
ghost use Rattle.page_model.specs.Memory.{flat};
ghost use Rattle.page_model.specs.Owned.{InTurn};
ghost use Rattle.page_model.specs.Laws.{HasMoreToClear, IsCounted, IsEmptied, raises_for_store};
ghost use Rattle.page_model.specs.Examples.{stripe_with, history_of, page, a_failed_read, reads_fail_twice, write_fails_twice, two_pages_in_one_frame, three_hints, closing_with_a_fault, after_one_read, after_two_reads, two_pages, by_one_owner};

use crate::entry::Entry;
use crate::examples::{hints_are_answered, the_store_fails, two_pages_take_turns};
use crate::laws::{
    accesses_of_both, closing_goes_ahead, closings_stay, dirty_is_raised, faults_are_counted,
    few_are_pending, own_bytes, owners_in_turn, read_fault_is_new, unmapped_is_emptied,
};
use histories::laws::{alone_is_own, growing_adds_up, grown_knows, new_stays, one_later};

/// Where two pages took turns and the region was unmapped, nothing of it is left.
pub fn nothing_is_left_of_the_two_pages()
    ensures { IsEmptied (history_of two_pages_in_one_frame) 0 }
{
    two_pages_take_turns();
    unmapped_is_emptied();
}

/// A region that closes while a fault is pending has that fault to drop, or a page.
pub fn a_pending_fault_is_to_be_dropped()
    ensures { HasMoreToClear (stripe_with 1) (history_of closing_with_a_fault) 0 }
{
    closing_goes_ahead();
}

/// The second failed read is new to who had seen the first.
pub fn the_second_failed_read_is_new()
    ensures { HasNew (λ x. x.1 ≡ ReadFailed (page 0) 2) (history_of (a_failed_read 1)) (history_of reads_fail_twice) }
{
    read_fault_is_new();
}

/// The second failed write is the lane's last fault, and above its first count.
pub fn the_second_failed_write_is_counted()
    ensures { IsCounted (stripe_with 1) (history_of write_fails_twice) 0 2 }
{
    the_store_fails();
    faults_are_counted();
}

/// The page whose write failed is dirty still, so it was raised for a store.
pub fn the_unwritten_page_was_raised()
    ensures { list_any (raises_for_store (page 0)) (history_of write_fails_twice) ≡ true }
{
    the_store_fails();
    dirty_is_raised();
}

/// No more hints raised than the queue has room for.
pub fn the_hints_fit_the_queue()
    ensures { length (pending (history_of three_hints)) ≤ 2 }
{
    hints_are_answered();
    few_are_pending();
}

/// A caller that had seen the first failed read made three entries more, of which the newest is the second failure; and that
/// is new to whoever had seen less.
pub fn a_caller_reads_again()
    ensures grew { Grew 1 after_one_read after_two_reads (reverse (a_failed_read 2)) }
    ensures newest { IsNew (1, ReadFailed (page 0) 2) after_one_read after_two_reads }
    ensures newer { IsNew (1, ReadFailed (page 0) 2) [] after_two_reads }
{
    growing_adds_up::<Entry>();
    grown_knows::<Entry>();
    new_stays::<Entry>();
}

/// What a caller made in between is told by the two histories; and where it was alone, that is all that came.
pub fn two_histories_tell_what_came()
    ensures own { (es : List Seen) → Grew 1 after_one_read after_two_reads es → es ≡ reverse (a_failed_read 2) }
    ensures all { (h : History Seen) (es : List Seen) → Grew 1 [] h es → Alone 1 [] h → h ≡ by 1 es }
{
    one_later::<Entry>();
    alone_is_own::<Entry>();
}

/// A region that was unmapped stays so, whatever comes.
pub fn unmapped_for_ever()
    ensures { (later : History Seen) → is_unmapped (later ++ history_of two_pages_in_one_frame) 0 ≡ true }
{
    closings_stay();
}

/// Failed reads are no accesses.
pub fn failed_reads_are_no_accesses()
    ensures { (later : History Seen) → accesses_of 1 (later ++ history_of reads_fail_twice) ≡ accesses_of 1 later }
{
    accesses_of_both();
}

/// Where one owner alone made all accesses, these give what each page holds and what each load gave.
pub fn the_two_pages_have_one_owner()
    ensures bytes { (k : Key) → flat (stripe_with 1) two_pages k ≡ flat (stripe_with 1) by_one_owner k }
    ensures turn { InTurn (stripe_with 1) (λ k. 1) two_pages (1 ∷ []) }
{
    two_pages_take_turns();
    own_bytes();
    owners_in_turn();
}
