//! How a workload is run.
ghost use Rattle.std.specs.Prelude.{◌≡◌};

use page_base::Layout;

/// What a program that is told nothing is set to: the bytes of a page.
pub const DEFAULT_PAGE_SIZE: u32 = 4096;

/// The stripes.
pub const DEFAULT_STRIPES: u32 = 4;

/// The frames of all stripes.
pub const DEFAULT_FRAMES: u32 = 1024;

/// Threads that fill pages.
pub const DEFAULT_FILLERS: u32 = 2;

/// Threads that evict pages.
pub const DEFAULT_EVICTORS: u32 = 1;

/// The high watermark, in percent.
pub const DEFAULT_HIGH: u32 = 90;

/// The low watermark, in percent.
pub const DEFAULT_LOW: u32 = 70;

/// The pages that are read ahead.
pub const DEFAULT_AHEAD: u32 = 0;

/// The faults that may wait in a stripe.
pub const DEFAULT_FAULTS: u32 = 64;

/// The layout of the page buffer, and what workers and watermarks are set to. `serial` uses the layout, the watermarks and
/// the bound on waiting faults.
#[derive(Clone, Copy, Debug, PartialEq, Eq)]
pub struct Settings {
    pub layout: Layout,
    /// Threads that fill pages: UMAP_PAGE_FILLERS.
    pub fillers: u32,
    /// Threads that evict pages: UMAP_PAGE_EVICTORS.
    pub evictors: u32,
    /// In percent of a stripe's quota: UMAP_EVICT_HIGH_WATER_THRESHOLD.
    pub high: u32,
    /// In percent of a stripe's quota: UMAP_EVICT_LOW_WATER_THRESHOLD.
    pub low: u32,
    /// In pages: UMAP_READ_AHEAD.
    pub ahead: u32,
    /// How many faults may wait in a stripe.
    pub faults: u32,
}

impl Settings {
    /// The settings of a program that is told nothing.
    pub fn defaults() -> Settings
        ensures page_size { result.layout.page_size ≡ DEFAULT_PAGE_SIZE }
        ensures frames { result.layout.frames ≡ DEFAULT_FRAMES }
        ensures stripes { result.layout.stripes ≡ DEFAULT_STRIPES }
        ensures fillers { result.fillers ≡ DEFAULT_FILLERS }
        ensures evictors { result.evictors ≡ DEFAULT_EVICTORS }
        ensures high { result.high ≡ DEFAULT_HIGH }
        ensures low { result.low ≡ DEFAULT_LOW }
        ensures ahead { result.ahead ≡ DEFAULT_AHEAD }
        ensures faults { result.faults ≡ DEFAULT_FAULTS }
    {
        match Layout::new(DEFAULT_PAGE_SIZE, DEFAULT_STRIPES, DEFAULT_FRAMES) {
            Ok(layout) => Settings {
                layout,
                fillers: DEFAULT_FILLERS,
                evictors: DEFAULT_EVICTORS,
                high: DEFAULT_HIGH,
                low: DEFAULT_LOW,
                ahead: DEFAULT_AHEAD,
                faults: DEFAULT_FAULTS,
            },
            Err(_) => unreachable!(),
        }
    }
}
