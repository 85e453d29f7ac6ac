//! A store split into one lane for each stripe.
//!
//! All memory is taken before the first part is moved, so that a refusal hands back the store as it was.
ghost use Rattle.std.specs.Prelude.{◌≡◌, ◌<◌, ◌≤◌, ◌++◌, [], ◌∷◌, ◌+◌, map, length, vec_len, IfOk, IfErr};
ghost use Rattle.page_base.specs.declared.limits.TheConstants.{MOST_STRIPES};
ghost use Rattle.sparse_store.specs.Files.{IsShape};
ghost use Rattle.sparse_store.specs.InsideLaneFiles.{AreLaneFiles};
ghost use Rattle.sparse_store.specs.InsideSplits.{room_of, IsEmptyShare, AreEmptyShares, HaveShareRoom, AreDealt};
ghost use Rattle.sparse_store.specs.InsideSplits.{AreLaneShares, share_lane, share_lanes, share_parts};
ghost use Rattle.sparse_store.specs.SparseLanes.{HasWholePages};
ghost use Rattle.sparse_store.specs.Contents.{contents_of};
ghost use Rattle.sparse_store.specs.Joins.{AreOfOneStore};
ghost use Rattle.sparse_store.specs.Splits.{shares_of, lanes_seen, TellPages};
ghost use Rattle.sparse_store.specs.declared.store.TheConstants.{MOST_FILES};

use crate::lane::SparseLane;
use crate::meta::Meta;
use crate::store::SparseStore;
use file_store::Part;
use page_base::{Bytes, Layout, List, OutOfMemory};
use std::snapshot::Snapshot;
use store_trait::Store;

/// There was no memory to split a store, or to join lanes. It gives them back.
#[derive(Drop)]
pub enum SparseBack<P: Part> {
    Store(SparseStore<P>),
    Lanes(List<SparseLane<P>>),
}

/// A stripe's share of a store while its parts are dealt out.
#[derive(Drop)]
struct Share<P> {
    dir: Bytes,
    first: Snapshot<List<P>>,
    parts: List<P>,
}

fn empty_share<P: Drop>(dir: &Bytes, all: &List<P>, room: usize) -> Result<Share<P>, OutOfMemory>
    ensures { IfOk result (IsEmptyShare dir.now.items all.now room) }
{
    let own = Bytes::from_slice(dir.allocator(), dir.as_slice())?;
    let mut parts = List::new(dir.allocator());
    parts.reserve(room)?;
    Ok(Share {
        dir: own,
        first: Snapshot::of(all),
        parts,
    })
}

/// So many shares of a store, each with room for so many parts.
fn empty_shares<P: Drop>(
    dir: &Bytes,
    all: &List<P>,
    room: usize,
    stripes: u32,
) -> Result<List<Share<P>>, OutOfMemory>
    ensures { IfOk result (λ shares. AreEmptyShares dir.now.items all.now room stripes shares.items) }
{
    let mut shares = List::new(dir.allocator());
    shares.reserve(stripes as usize)?;
    for _stripe in 0..stripes {
        let share = empty_share(dir, all, room)?;
        shares.put(share);
    }
    Ok(shares)
}

fn put_part<P: Drop>(share: &mut Share<P>, part: P)
    requires room { 1 ≤ share.old.parts.spare }
    ensures dir { share.new.dir ≡ share.old.dir }
    ensures first { share.new.first ≡ share.old.first }
    ensures items { share.new.parts.items ≡ share.old.parts.items ++ part ∷ [] }
    ensures spare { share.new.parts.spare + 1 ≡ share.old.parts.spare }
{
    share.parts.put(part);
}

/// Deals the parts of a region's files round the shares, in order of number.
fn deal<P: Drop>(shares: &mut [Share<P>], mut parts: Vec<P>, region: u16)
    requires some { 0 < length shares.old }
    requires few { vec_len parts ≤ MOST_FILES }
    requires room { HaveShareRoom (room_of (vec_len parts) (length shares.old)) shares.old }
    ensures { AreDealt region parts.items shares.old shares.new }
{
    parts.reverse();
    let stripes = shares.len() as u64;
    let mut number = 0u64;
    'parts: while let Some(part) = parts.pop() {
        let stripe = (u64::from(region) + number) % stripes;
        put_part(&mut shares[stripe as usize], part);
        number += 1;
    }
}

/// The lane of a share.
fn lane_of<P: Part>(
    share: Share<P>,
    shape: Meta,
    layout: &Layout,
    region: u16,
    stripe: u32,
) -> SparseLane<P>
    requires shape { IsShape shape }
    requires whole { HasWholePages shape layout.now }
    requires files { AreLaneFiles share.dir.items shape layout.now region stripe (map P.seen share.parts.items) }
    ensures seen { ⟦<SparseLane<P> as Store>⟧.seen result ≡ share_lane P.seen shape layout.now region stripe share }
    ensures parts { result.parts ≡ share.parts }
{
    let Share { dir, first, parts } = share;
    SparseLane {
        dir,
        shape,
        layout: *layout,
        region,
        stripe,
        parts,
        first,
    }
}

/// The lanes of shares, in order of stripe. `lanes` is an empty list with room for them.
fn lanes_of<P: Part + Drop>(
    mut lanes: List<SparseLane<P>>,
    mut shares: Vec<Share<P>>,
    shape: Meta,
    layout: &Layout,
    region: u16,
) -> List<SparseLane<P>>
    requires empty { lanes.items ≡ [] }
    requires room { vec_len shares ≤ lanes.spare }
    requires few { vec_len shares ≤ MOST_STRIPES }
    requires shape { IsShape shape }
    requires whole { HasWholePages shape layout.now }
    requires files { AreLaneShares P.seen shape layout.now region shares.items }
    ensures seen { map ⟦<SparseLane<P> as Store>⟧.seen result.items ≡
        share_lanes P.seen shape layout.now region 0 shares.items }
    ensures parts { map (λ lane. lane.parts.items) result.items ≡ share_parts shares.items }
{
    shares.reverse();
    'shares: while let Some(share) = shares.pop() {
        let stripe = lanes.len() as u32;
        lanes.put(lane_of(share, shape, layout, region, stripe));
    }
    lanes
}

impl<P: Part + Drop> SparseStore<P> {
    /// One lane for each stripe of the layout: of n stripes, file k of the region is stripe (region + k) mod n's. The only
    /// refusal is want of memory.
    pub fn split(self, layout: &Layout, region: u16) -> Result<List<SparseLane<P>>, SparseBack<P>>
        requires whole { HasWholePages self.shape layout.now }
        ensures lanes { IfOk result (λ lanes. map ⟦<SparseLane<P> as Store>⟧.seen lanes.items ≡
            lanes_seen self.dir.items self.shape layout.now region (map P.seen self.parts.items)) }
        ensures one_split { IfOk result (λ lanes. AreOfOneStore (map ⟦<SparseLane<P> as Store>⟧.seen lanes.items)) }
        ensures tells { IfOk result (λ lanes. TellPages
            (contents_of (map P.seen self.parts.items)) (map ⟦<SparseLane<P> as Store>⟧.seen lanes.items)) }
        ensures parts { IfOk result (λ lanes. map (λ lane. lane.parts.items) lanes.items ≡
            shares_of layout.now.stripes region self.parts.items) }
        ensures back { IfErr result (λ back. back ≡ SparseBack.Store self) }
    {
        let stripes = layout.stripes();
        let room = self.parts.len() / stripes as usize + 1;
        let mut lanes = List::new(self.dir.allocator());
        if lanes.reserve(stripes as usize).is_err() {
            return Err(SparseBack::Store(self));
        }
        let Ok(shares) = empty_shares(&self.dir, &self.parts, room, stripes) else {
            return Err(SparseBack::Store(self));
        };
        let SparseStore {
            dir: _,
            shape,
            parts,
        } = self;
        let mut shares = shares.into_vec();
        deal(shares.as_mut_slice(), parts.into_vec(), region);
        Ok(lanes_of(lanes, shares, shape, layout, region))
    }
}
