//! Worked values, and each call once on its happy path.
use crate::{Bytes, Key, Layout, LayoutFault, List, OutOfMemory, Texts, marks};

fn fault_of(page_size: u32, stripes: u32, frames: u32) -> Option<LayoutFault> {
    Layout::new(page_size, stripes, frames).err()
}

#[test]
fn a_layout_is_refused_by_its_first_broken_rule(rt: HostRuntime) {
    for (page_size, stripes, frames, want) in [
        (96, 1, 1, Some(LayoutFault::BadPageSize)),
        (32, 1, 1, Some(LayoutFault::BadPageSize)),
        (64, 1, 0, Some(LayoutFault::NoFrames)),
        (64, 0, 1, Some(LayoutFault::NoStripes)),
        (64, 2, 1, Some(LayoutFault::TooManyStripes)),
        (1_048_576, 1, 1025, Some(LayoutFault::TooManyFrames)),
        (64, 3, 10, None),
        (1_048_576, 64, 1024, None),
    ] {
        assert_eq!(rt;
            fault_of(page_size, stripes, frames),
            want,
            "at {page_size} {stripes} {frames}"
        );
    }
}

#[test]
fn ten_frames_over_three_stripes(rt: HostRuntime) {
    let Ok(layout) = Layout::new(64, 3, 10) else {
        assert!(rt; false, "the layout is accepted");
        return;
    };
    for (stripe, want) in [(0, 4), (1, 3), (2, 3)] {
        if stripe < layout.stripes() {
            assert_eq!(rt; layout.quota(stripe), want, "of stripe {stripe}");
        }
    }
    for (region, page, group, want) in [(0, 0, 1, 0), (0, 4, 1, 1), (1, 1, 1, 2), (1, 5, 2, 0)] {
        assert_eq!(rt;
            layout.stripe_of(Key { region, page }, group),
            want,
            "of page {page}"
        );
    }
}

#[test]
fn watermarks_of_ten_frames_and_of_one(rt: HostRuntime) {
    for (quota, on, off) in [(10, 9, 7), (1, 1, 0)] {
        let found = marks(quota, 90, 70);
        assert_eq!(rt; found.on, on, "of {quota} frames");
        assert_eq!(rt; found.off, off, "of {quota} frames");
    }
}

#[test]
fn what_is_reserved_goes_in(rt: HostRuntime) -> Result<(), OutOfMemory> {
    let mut numbers = List::new(rt.alloc());
    numbers.reserve(2)?;
    numbers.put(7u64);
    assert_eq!(rt; numbers.len(), 1);
    assert_eq!(rt; *numbers.get(0), 7);
    assert_eq!(rt; numbers.spare(), 1);

    let mut bytes = Bytes::from_slice(rt.alloc(), b"page")?;
    bytes.reserve(3)?;
    bytes.put(b's');
    bytes.put_all(b"..");
    bytes.write_at(0, b"P");
    assert_eq!(rt; bytes.as_slice(), b"Pages..".as_slice());

    let mut texts = Texts::new(rt.alloc());
    texts.reserve(1)?;
    texts.put(String::from_str(rt.alloc(), "serial")?);
    assert_eq!(rt; texts.get(0).as_str(), "serial");
    assert_eq!(rt; texts.as_slice().len(), 1);
    Ok(())
}

#[test]
fn a_list_grows_by_pushes_and_its_items_are_written_over(
    rt: HostRuntime,
) -> Result<(), OutOfMemory> {
    let mut numbers = List::new(rt.alloc());
    numbers.push(1u64)?;
    numbers.push(2)?;
    *numbers.get_mut(1) = 20;
    assert_eq!(rt; numbers.as_slice(), [1, 20].as_slice());
    Ok(())
}
