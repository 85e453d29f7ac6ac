//! A store cut into lanes and joined again, and a lane whose calls fail at stated numbers.
ghost use Rattle.std.specs.Prelude.{◌≡◌};
ghost use Rattle.store_trait.specs.Memory.{memory_origin};

use crate::{FailLane, MemLane, MemStore, Store, read_page, write_page};
use page_base::{Bytes, Layout, List};
use std::process::Abort;
use std::test::Fail;

const PAGE: usize = 64;

fn numbered(rt: &HostRuntime, pages: usize) -> Result<Vec<u8>, Fail> {
    let mut bytes = Vec::new(rt.alloc());
    for place in 0..pages.min(1000) * PAGE {
        bytes.push((place % 251) as u8)?;
    }
    Ok(bytes)
}

#[test]
fn lanes_join_to_the_same_bytes(rt: HostRuntime) -> Result<(), Fail> {
    for (pages, stripes, region) in [(1, 1, 0), (5, 3, 0), (5, 3, 7), (2, 4, 1), (64, 64, 63)] {
        let bytes = numbered(&rt, pages)?;
        let wanted = bytes.clone()?;
        assert!(rt; bytes.len() == 64 * pages && pages > 0 && pages < 1000);
        let store = MemStore::new(Bytes::from_vec(bytes), 64);
        let Ok(layout) = Layout::new(64, stripes, stripes) else {
            panic!(rt; "{stripes} stripes");
        };
        let Ok(lanes) = store.split(&layout, region) else {
            panic!(rt; "no memory");
        };
        assert_eq!(rt; lanes.len(), stripes as usize);
        let Ok(joined) = MemStore::join(lanes) else {
            panic!(rt; "no memory");
        };
        assert_eq!(rt; joined.contents.as_slice(), wanted.as_slice());
    }
    Ok(())
}

/// The lane of a store of two pages in memory whose bytes are all 7.
fn sevens(rt: &(impl Abort + AllocGlobal), layout: &Layout) -> MemLane
    requires page_size { layout.now.page_size ≡ 64 }
    requires stripes { layout.now.stripes ≡ 1 }
    ensures { (⟦<MemLane as Store>⟧.seen result).origin ≡ memory_origin 0 2 64 1 0 }
{
    let Ok(bytes) = vec![in rt.alloc(); 7u8; 128] else {
        panic!(rt; "no memory");
    };
    let Ok(lanes) = MemStore::new(Bytes::from_vec(bytes), 64).split(layout, 0) else {
        panic!(rt; "no memory");
    };
    let Some(lane) = lanes.into_vec().pop() else {
        panic!(rt; "no lane");
    };
    lane
}

#[test]
fn listed_calls_fail_and_write_nothing(rt: HostRuntime) -> Result<(), Fail> {
    let Ok(layout) = Layout::new(64, 1, 1) else {
        panic!(rt; "one stripe");
    };
    let second = List::from_vec(vec![in rt.alloc(); 2]?);
    let first = List::from_vec(vec![in rt.alloc(); 1]?);
    let mut lane = FailLane::new(sevens(&rt, &layout), second, first);
    let mut page = [0u8; PAGE];
    assert!(rt; write_page(&mut lane, 1, &[9u8; PAGE]).is_err());
    assert!(rt; read_page(&mut lane, 1, &mut page).is_ok());
    assert_eq!(rt; page[0], 7);
    assert!(rt; read_page(&mut lane, 1, &mut page).is_err());
    assert!(rt; write_page(&mut lane, 1, &[9u8; PAGE]).is_ok());
    assert!(rt; read_page(&mut lane, 1, &mut page).is_ok());
    assert_eq!(rt; page[63], 9);
    assert_eq!(rt; lane.faults(), 2);
    Ok(())
}
