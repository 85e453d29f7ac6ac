//! Parts of several files that are closed.
ghost use Rattle.std.specs.Prelude.{◌≡◌, ◌≤◌, true, map, IfSome};
ghost use Rattle.page_base.specs.Lanes.{Rose};
ghost use Rattle.file_store.specs.Parts.{WhereTold};
ghost use Rattle.sparse_store.specs.Closings.{AreAllOut, ClosesEach, any_fault};
ghost use Rattle.sparse_store.specs.InsideStores.{AreApart};

use file_store::{Folder, Part};

/// Closes the parts, the last one first. It takes no memory.
pub(crate) fn close_parts<F: Folder>(folder: &mut F, mut parts: Vec<F::Part>)
    requires apart { AreApart (map F.Part.seen parts.items) }
    requires out { IfSome (F.seen folder.old).told (λ s. AreAllOut (map F.Part.seen parts.items) s.out) }
    ensures closed { WhereTold (ClosesEach (map F.Part.seen parts.items))
        (F.seen folder.old).told (F.seen folder.new).told }
    ensures later { (F.seen folder.old).count ≤ (F.seen folder.new).count }
    ensures faults { any_fault (map F.Part.seen parts.items) ≡ true →
        Rose (F.seen folder.old).count (F.seen folder.new).count }
{
    'parts: while let Some(part) = parts.pop() {
        folder.close_part(part);
    }
}
