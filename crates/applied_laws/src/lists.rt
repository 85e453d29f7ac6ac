//! Keys, lists, and pages that lie behind one another.
ghost use Rattle.applied_laws.specs.Applied.{TestsBothWays, RisesOnce, WritesOver, PutsBehind};

use page_base::laws::{keys_are_ordered, same_is_equal, set_is_read};
use store_trait::laws::{pages_append, pages_lie_apart};

/// A test of two keys that answers true answers true the other way round.
pub fn keys_of_one_page()
    ensures { TestsBothWays }
{
    same_is_equal();
}

/// Keys in rising order don't begin again.
pub fn keys_in_rising_order()
    ensures { RisesOnce }
{
    keys_are_ordered();
}

/// Of two items written over one another the second is read, and a list stays as long.
pub fn written_items()
    ensures { WritesOver }
{
    set_is_read::<u64>();
}

/// Of two pages put behind others the first is read at its place, and begins before the second.
pub fn pages_behind_one_another()
    ensures { PutsBehind }
{
    pages_append();
    pages_lie_apart();
}
