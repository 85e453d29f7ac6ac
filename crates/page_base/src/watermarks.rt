//! The two watermarks of a stripe.
ghost use Rattle.std.specs.Prelude.{◌≡◌, ◌<◌, ◌≤◌};
ghost use Rattle.page_base.specs.Pages.{on_mark, off_mark};

use crate::keys::Marks;

/// The watermarks of a stripe with `quota` frames, from two percentages.
pub fn marks(quota: u32, high: u32, low: u32) -> Marks
    requires some { 1 ≤ quota }
    requires order { low < high }
    requires percent { high ≤ 100 }
    ensures on { result.on ≡ on_mark quota high }
    ensures off { result.off ≡ off_mark quota low }
    ensures apart { result.off < result.on }
    ensures within { result.on ≤ quota }
{
    let quota = u64::from(quota);
    Marks {
        on: ((quota * u64::from(high) + 99) / 100) as u32,
        off: (quota * u64::from(low) / 100) as u32,
    }
}
