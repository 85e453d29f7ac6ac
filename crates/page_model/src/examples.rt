//! Worked histories, which the checker computes: legal ones, and wrong ones that no stripe may have. For each kind of entry
//! at least one wrong history ends with it where it may not stand.
//!
//! Owners, pages and bytes are those of `specs/Examples.antt`.
ghost use Rattle.std.specs.Prelude.{reverse};
ghost use Rattle.histories.specs.Histories.{first};
ghost use Rattle.page_model.specs.Legal.{IsLegal};
ghost use Rattle.page_model.specs.Flushed.{IsFlushed};
ghost use Rattle.page_model.specs.Examples.{stripe_with, early_evictor, history_of};
ghost use Rattle.page_model.specs.Examples.{two_pages_in_one_frame, reopened_while_written, evictor_and_flusher, three_hints, reads_fail_twice, reads_fail_at_the_greatest_number};
ghost use Rattle.page_model.specs.Examples.{write_fails_twice, read_ahead_and_opened, evicted_at_the_high_mark, evicted_down_to_the_low_mark, evicted_beside_a_write};
ghost use Rattle.page_model.specs.Examples.{stale_fault_dropped, dropped_before_unmapping, hint_while_read, hints_while_closing};
ghost use Rattle.page_model.specs.Examples.{load_of_a_byte_that_nobody_stored, load_of_an_absent_page, load_past_the_page, load_of_no_byte, store_to_a_protected_page, store_to_a_page_read_ahead};
ghost use Rattle.page_model.specs.Examples.{raised_twice, raised_while_resident, read_that_nobody_raised, later_fault_served_first, one_page_over_the_quota};
ghost use Rattle.page_model.specs.Examples.{stale_fault_opened, dropped_while_wanted, read_while_closing};
ghost use Rattle.page_model.specs.Examples.{hint_raises_past_the_bound, hint_finds_a_page_that_is_being_read_present, hint_finds_a_page_pending_that_nobody_raised, hint_finds_a_page_of_a_closing_region_present};
ghost use Rattle.page_model.specs.Examples.{second_io_on_one_lane, end_by_another_owner, write_back_of_bytes_stored_after_its_start, clean_page_written_back};
ghost use Rattle.page_model.specs.Examples.{fault_number_repeated, fault_number_of_the_start, write_fault_number_repeated};
ghost use Rattle.page_model.specs.Examples.{newest_page_evicted, eviction_without_pressure, evicted_below_the_high_mark, evicted_below_the_low_mark, evicted_for_a_flush, evicted_while_written, evicted_after_a_failed_write, clean_after_reopening};
ghost use Rattle.page_model.specs.Examples.{closed_twice, unmapped_with_a_page_left, unmapped_with_a_fault_left, unmapped_while_in_use};

/// Two pages take turns in one frame, with a write-back between them and an unmap at the end.
pub fn two_pages_take_turns()
    ensures { IsLegal (stripe_with 1) (history_of two_pages_in_one_frame) }
{}

/// A page is stored to while it is written back.
pub fn a_page_is_reopened()
    ensures { IsLegal (stripe_with 1) (history_of reopened_while_written) }
{}

/// What an evictor's write began before doesn't serve the flush of a later store.
pub fn a_flush_waits_for_its_own_write()
    ensures legal { IsLegal (stripe_with 1) (reverse evictor_and_flusher) }
    ensures not_yet { ¬ IsFlushed (first 9 (reverse evictor_and_flusher)) (first 8 (reverse evictor_and_flusher)) }
    ensures flushed { IsFlushed (reverse evictor_and_flusher) (first 8 (reverse evictor_and_flusher)) }
{}

/// Reads and writes of the store fail, with rising numbers as far as numbers go.
pub fn the_store_fails()
    ensures reads { IsLegal (stripe_with 1) (history_of reads_fail_twice) }
    ensures greatest { IsLegal (stripe_with 1) (history_of reads_fail_at_the_greatest_number) }
    ensures writes { IsLegal (stripe_with 1) (history_of write_fails_twice) }
{}

/// Eviction begins at the high mark and ends at the low one, and passes over a page that is being written.
pub fn pages_leave_between_the_marks()
    ensures high { IsLegal early_evictor (history_of evicted_at_the_high_mark) }
    ensures low { IsLegal early_evictor (history_of evicted_down_to_the_low_mark) }
    ensures beside_a_write { IsLegal (stripe_with 2) (history_of evicted_beside_a_write) }
{}

/// A fault that nobody waits for any more is dropped.
pub fn faults_are_dropped()
    ensures stale { IsLegal (stripe_with 1) (history_of stale_fault_dropped) }
    ensures closing { IsLegal (stripe_with 1) (history_of dropped_before_unmapping) }
{}

/// What hints raise and are answered; the third of three finds no room.
pub fn hints_are_answered()
    ensures ahead { IsLegal (stripe_with 1) (history_of read_ahead_and_opened) }
    ensures full { IsLegal (record (stripe_with 1) { faults = 2 }) (history_of three_hints) }
    ensures being_read { IsLegal (stripe_with 1) (history_of hint_while_read) }
    ensures closing { IsLegal (stripe_with 1) (history_of hints_while_closing) }
{}

/// Loads and stores that no page may have.
pub fn wrong_accesses()
    ensures invented_byte { ¬ IsLegal (stripe_with 1) (history_of load_of_a_byte_that_nobody_stored) }
    ensures absent { ¬ IsLegal (stripe_with 1) (history_of load_of_an_absent_page) }
    ensures past_the_end { ¬ IsLegal (stripe_with 1) (history_of load_past_the_page) }
    ensures no_byte { ¬ IsLegal (stripe_with 1) (history_of load_of_no_byte) }
    ensures protected { ¬ IsLegal (stripe_with 1) (history_of store_to_a_protected_page) }
    ensures ahead { ¬ IsLegal (stripe_with 1) (history_of store_to_a_page_read_ahead) }
{}

/// Faults that may not be raised, or not be served so.
pub fn wrong_faults()
    ensures twice { ¬ IsLegal (stripe_with 1) (history_of raised_twice) }
    ensures resident { ¬ IsLegal (stripe_with 1) (history_of raised_while_resident) }
    ensures not_raised { ¬ IsLegal (stripe_with 1) (history_of read_that_nobody_raised) }
    ensures out_of_order { ¬ IsLegal (stripe_with 2) (history_of later_fault_served_first) }
    ensures over_the_quota { ¬ IsLegal (stripe_with 1) (history_of one_page_over_the_quota) }
    ensures stale { ¬ IsLegal (stripe_with 1) (history_of stale_fault_opened) }
    ensures wanted { ¬ IsLegal (stripe_with 1) (history_of dropped_while_wanted) }
    ensures closing { ¬ IsLegal (stripe_with 1) (history_of read_while_closing) }
{}

/// Answers that a hint may not get.
pub fn wrong_answers_to_hints()
    ensures full { ¬ IsLegal (record (stripe_with 1) { faults = 2 }) (history_of hint_raises_past_the_bound) }
    ensures being_read { ¬ IsLegal (stripe_with 1) (history_of hint_finds_a_page_that_is_being_read_present) }
    ensures not_raised { ¬ IsLegal (stripe_with 1) (history_of hint_finds_a_page_pending_that_nobody_raised) }
    ensures closing { ¬ IsLegal (stripe_with 1) (history_of hint_finds_a_page_of_a_closing_region_present) }
{}

/// Reads and writes of the store that may not start, or not end so.
pub fn wrong_reads_and_writes()
    ensures second_io { ¬ IsLegal (stripe_with 2) (history_of second_io_on_one_lane) }
    ensures another_owner { ¬ IsLegal (stripe_with 1) (reverse end_by_another_owner) }
    ensures later_bytes { ¬ IsLegal (stripe_with 1) (history_of write_back_of_bytes_stored_after_its_start) }
    ensures clean { ¬ IsLegal (stripe_with 1) (history_of clean_page_written_back) }
    ensures same_number { ¬ IsLegal (stripe_with 1) (history_of fault_number_repeated) }
    ensures first_number { ¬ IsLegal (stripe_with 1) (history_of fault_number_of_the_start) }
    ensures same_write_number { ¬ IsLegal (stripe_with 1) (history_of write_fault_number_repeated) }
{}

/// Pages that may not leave.
pub fn wrong_evictions()
    ensures newest { ¬ IsLegal (stripe_with 2) (history_of newest_page_evicted) }
    ensures no_pressure { ¬ IsLegal (stripe_with 4) (history_of eviction_without_pressure) }
    ensures too_early { ¬ IsLegal early_evictor (history_of evicted_below_the_high_mark) }
    ensures too_late { ¬ IsLegal early_evictor (history_of evicted_below_the_low_mark) }
    ensures for_a_flush { ¬ IsLegal (stripe_with 1) (history_of evicted_for_a_flush) }
    ensures being_written { ¬ IsLegal (stripe_with 2) (history_of evicted_while_written) }
    ensures not_written { ¬ IsLegal (stripe_with 1) (history_of evicted_after_a_failed_write) }
    ensures lost_store { ¬ IsLegal (stripe_with 1) (history_of clean_after_reopening) }
{}

/// Regions that may not close, or not be unmapped.
pub fn wrong_unmappings()
    ensures twice { ¬ IsLegal (stripe_with 1) (history_of closed_twice) }
    ensures page_left { ¬ IsLegal (stripe_with 1) (history_of unmapped_with_a_page_left) }
    ensures fault_left { ¬ IsLegal (stripe_with 1) (history_of unmapped_with_a_fault_left) }
    ensures in_use { ¬ IsLegal (stripe_with 1) (history_of unmapped_while_in_use) }
{}
