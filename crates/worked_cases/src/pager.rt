//! All stripes of a buffer by hand.
use page_base::{Layout, List};
use page_model::NoJournal;
use serial_pager::{PagerConfig, SerialPager};
use std::process::Abort;
use std::test::Fail;
use store_trait::{LaneSet, MemLane};

#[test]
fn a_pager_without_regions_has_nothing_to_write(rt: HostRuntime) -> Result<(), Fail> {
    let Ok(layout) = Layout::new(64, 1, 2) else {
        panic!(rt; "the layout is refused");
    };
    let config = PagerConfig {
        layout,
        faults: 2,
        high: 90,
        low: 70,
        shapes: List::new(rt.alloc()),
    };
    let none: List<MemLane> = List::new(rt.alloc());
    let lanes = LaneSet {
        stripes: List::from_vec(vec![in rt.alloc(); none]?),
    };
    let journals = List::from_vec(vec![in rt.alloc(); NoJournal]?);
    let Ok(mut pager) = SerialPager::open(rt.alloc(), config, lanes, journals) else {
        panic!(rt; "no memory for two frames");
    };
    assert_eq!(rt; pager.page_size(), 64);
    assert_eq!(rt; pager.flush(), Ok(()));
    assert_eq!(rt; pager.unmap_all(), Ok(()));
    let (lanes, journals) = pager.into_parts();
    assert_eq!(rt; (lanes.stripes.len(), journals.len()), (1, 1));
    Ok(())
}
