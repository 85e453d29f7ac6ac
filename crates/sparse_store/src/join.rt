//! Lanes joined to the store that was split into them.
//!
//! All memory is taken before the first part is moved, so that a refusal hands back the lanes as they were.
ghost use Rattle.std.specs.Prelude.{◌≡◌, ◌<◌, ◌≤◌, ◌+◌, [], map, length, vec_len, IfOk, IfErr};
ghost use Rattle.sparse_store.specs.InsideJoins.{HoldFiles, MovesLast};
ghost use Rattle.sparse_store.specs.Joins.{AreOfOneStore, AreOfStore, AreDealtOf};
ghost use Rattle.sparse_store.specs.Splits.{shares_of};

use crate::lane::SparseLane;
use crate::split::SparseBack;
use crate::store::SparseStore;
use file_store::Part;
use page_base::{Bytes, List};
use store_trait::Store;

/// The parts of each lane. `rows` is an empty list with room for them.
fn rows_of<P: Part + Drop>(mut rows: List<Vec<P>>, mut lanes: Vec<SparseLane<P>>) -> Vec<Vec<P>>
    requires empty { rows.items ≡ [] }
    requires room { vec_len lanes ≤ rows.spare }
    ensures { map (λ row. row.items) result.items ≡ map (λ lane. lane.parts.items) lanes.items }
{
    lanes.reverse();
    'lanes: while let Some(lane) = lanes.pop() {
        rows.put(lane.into_parts());
    }
    rows.into_vec()
}

/// Moves the last part of a stripe's behind those that were moved before.
fn move_last<P: Drop>(row: &mut Vec<P>, parts: &mut List<P>)
    requires some { 0 < vec_len row.old }
    requires room { 1 ≤ parts.old.spare }
    ensures moved { MovesLast row.old.items row.new.items parts.old.items parts.new.items }
    ensures spare { parts.new.spare + 1 ≡ parts.old.spare }
{
    if let Some(part) = row.pop() {
        parts.put(part);
    }
}

/// The parts of all files, in order of number. `parts` is an empty list with room for them.
fn gather<P: Drop>(rows: &mut [Vec<P>], mut parts: List<P>, count: u64, region: u16) -> List<P>
    requires some { 0 < length rows.old }
    requires empty { parts.items ≡ [] }
    requires room { count ≤ parts.spare }
    requires files { HoldFiles count region (map (λ row. row.items) rows.old) }
    ensures count { length result.items ≡ count }
    ensures parts { shares_of (length rows.old) region result.items ≡ map (λ row. row.items) rows.old }
{
    let stripes = rows.len() as u64;
    let mut number = count;
    'number: while 0 < number {
        number -= 1;
        let stripe = (u64::from(region) + number) % stripes;
        move_last(&mut rows[stripe as usize], &mut parts);
    }
    let mut found = parts.into_vec();
    found.reverse();
    List::from_vec(found)
}

impl<P: Part + Drop> SparseStore<P> {
    /// The store that was split into these lanes, with what was written to them since. The only refusal is want of memory.
    pub fn join(lanes: List<SparseLane<P>>) -> Result<SparseStore<P>, SparseBack<P>>
        requires split { AreOfOneStore (map ⟦<SparseLane<P> as Store>⟧.seen lanes.items) }
        ensures store { IfOk result (λ store. AreOfStore store.dir.items store.shape
            (map ⟦<SparseLane<P> as Store>⟧.seen lanes.items)) }
        ensures parts { IfOk result (λ store. AreDealtOf
            (map ⟦<SparseLane<P> as Store>⟧.seen lanes.items) (map (λ lane. lane.parts.items) lanes.items) store.parts.items) }
        ensures back { IfErr result (λ back. back ≡ SparseBack.Lanes lanes) }
    {
        let first = lanes.get(0);
        let (shape, region) = (first.shape, first.region);
        let count = shape.size / shape.file;
        let Ok(dir) = Bytes::from_slice(lanes.allocator(), first.dir.as_slice()) else {
            return Err(SparseBack::Lanes(lanes));
        };
        let mut parts = List::new(lanes.allocator());
        let mut rows = List::new(lanes.allocator());
        if parts.reserve(count as usize).is_err() {
            return Err(SparseBack::Lanes(lanes));
        }
        if rows.reserve(lanes.len()).is_err() {
            return Err(SparseBack::Lanes(lanes));
        }
        let mut rows = rows_of(rows, lanes.into_vec());
        let parts = gather(rows.as_mut_slice(), parts, count, region);
        Ok(SparseStore { dir, shape, parts })
    }
}
