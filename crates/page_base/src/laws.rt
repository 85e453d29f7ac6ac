//! Laws of keys and lists. Each function does nothing: its contract is the law, and a caller calls it where its proof needs
//! the law. The statements stand in `specs/Laws.antt`.
ghost use Rattle.page_base.specs.Laws.{SameIsEqual, KeysAreOrdered, LeastIsFirst, SetIsRead, ListsByPlace};

/// The test of two keys answers true exactly for one page.
pub fn same_is_equal()
    ensures { SameIsEqual }
{}

/// Of two keys that differ one comes before the other, and what comes before is passed on.
pub fn keys_are_ordered()
    ensures { KeysAreOrdered }
{}

/// The least of some keys is the one of them that none comes before.
pub fn least_is_first()
    ensures { LeastIsFirst }
{}

/// A list with one item written over reads as written there, and elsewhere as before.
pub fn set_is_read<A>()
    ensures { SetIsRead A }
{}

/// Lists with the same items at all places are one, and one that grew by an item has it at its end.
pub fn lists_by_place<A>()
    ensures { ListsByPlace A }
{}
