//! The layout of a buffer: one page size, and frames that are shared out over stripes.
ghost use Rattle.std.specs.Prelude.{◌≡◌, ◌<◌, ◌≤◌, ◌*◌, true, IfOk};
ghost use Rattle.page_base.specs.Pages.{stripe_of, quota_of};
ghost use Rattle.page_base.specs.Layouts.{is_page_size, layout_fault, IsRefusedBy};
ghost use Rattle.page_base.specs.declared.limits.TheConstants.{LEAST_PAGE_SIZE, MOST_PAGE_SIZE, MOST_FRAMES, MOST_BUFFER_BYTES, MOST_STRIPES};

use crate::faults::LayoutFault;
use crate::keys::Key;
use crate::limits::{
    LEAST_PAGE_SIZE, MOST_BUFFER_BYTES, MOST_FRAMES, MOST_PAGE_SIZE, MOST_STRIPES,
};

/// A page size in bytes, the stripes, and the frames that they share.
#[derive(Clone, Copy, Debug, PartialEq, Eq)]
pub struct Layout {
    page_size: u32,
    stripes: u32,
    frames: u32,
    pub ghost sized: { is_page_size page_size ≡ true },
    pub ghost large_pages: { LEAST_PAGE_SIZE ≤ page_size },
    pub ghost small_pages: { page_size ≤ MOST_PAGE_SIZE },
    pub ghost some_stripe: { 1 ≤ stripes },
    pub ghost few_stripes: { stripes ≤ MOST_STRIPES },
    pub ghost shared: { stripes ≤ frames },
    pub ghost few_frames: { frames ≤ MOST_FRAMES },
    pub ghost few_bytes: { frames * page_size ≤ MOST_BUFFER_BYTES },
}

impl Layout {
    /// The layout of these numbers. The rules are tested in the order of `LayoutFault`'s variants.
    pub fn new(page_size: u32, stripes: u32, frames: u32) -> Result<Layout, LayoutFault>
        ensures page_size { IfOk result (λ l. l.page_size ≡ page_size) }
        ensures stripes { IfOk result (λ l. l.stripes ≡ stripes) }
        ensures frames { IfOk result (λ l. l.frames ≡ frames) }
        ensures refused { IsRefusedBy (layout_fault page_size stripes frames) result }
    {
        let in_range = page_size >= LEAST_PAGE_SIZE && page_size <= MOST_PAGE_SIZE;
        if !page_size.is_power_of_two() || !in_range {
            return Err(LayoutFault::BadPageSize);
        }
        if frames == 0 {
            return Err(LayoutFault::NoFrames);
        }
        let bytes = u64::from(frames) * u64::from(page_size);
        if frames > MOST_FRAMES || bytes > MOST_BUFFER_BYTES {
            return Err(LayoutFault::TooManyFrames);
        }
        if stripes == 0 {
            return Err(LayoutFault::NoStripes);
        }
        if stripes > MOST_STRIPES || stripes > frames {
            return Err(LayoutFault::TooManyStripes);
        }
        Ok(Layout {
            page_size,
            stripes,
            frames,
        })
    }

    /// The bytes of a page.
    pub fn page_size(&self) -> u32
        ensures { result ≡ self.now.page_size }
    {
        self.page_size
    }

    /// The stripes.
    pub fn stripes(&self) -> u32
        ensures { result ≡ self.now.stripes }
    {
        self.stripes
    }

    /// The frames of all stripes together.
    pub fn frames(&self) -> u32
        ensures { result ≡ self.now.frames }
    {
        self.frames
    }

    /// The stripe that a page belongs to, where `group` pages of its region lie together.
    pub fn stripe_of(&self, key: Key, group: u32) -> u32
        requires { 1 ≤ group }
        ensures stripe { result ≡ stripe_of self.now.stripes group key.region key.page }
        ensures below { result < self.now.stripes }
    {
        ((u64::from(key.region) + u64::from(key.page / group)) % u64::from(self.stripes)) as u32
    }

    /// The frames of one stripe.
    pub fn quota(&self, stripe: u32) -> u32
        requires { stripe < self.now.stripes }
        ensures quota { result ≡ quota_of self.now.frames self.now.stripes stripe }
        ensures some { 1 ≤ result }
        ensures within { result ≤ self.now.frames }
    {
        let share = self.frames / self.stripes;
        if stripe < self.frames % self.stripes {
            share + 1
        } else {
            share
        }
    }
}
