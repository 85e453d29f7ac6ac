//! The calls of a pager that go over all its stripes: flushing, unmapping a region, and unmapping all.
ghost use Rattle.std.specs.Prelude.{◌≡◌, ◌≤◌, ◌<◌, ◌+◌, ◌*◌, ◌^◌, true, length, OnOk, IfErr};
ghost use Rattle.std.specs.List.{list_all};
ghost use Rattle.page_base.specs.declared.limits.TheConstants.{MOST_REGIONS, MOST_STRIPES};
ghost use Rattle.page_model.specs.Core as core;
ghost use Rattle.serial_pager.specs.Goings.{EachDid, OneFailed};
ghost use Rattle.serial_pager.specs.InsideSound.{MayFlushEach, GoesEach, HasRegionEach, all_made};
ghost use Rattle.serial_pager.specs.InsideUnmappings.{write_fault};
ghost use Rattle.serial_pager.specs.Pagers.{IsSame, ClosesOnly, IsWithin, FlushFails, UnmapsEach, EndsUnmap, journals_made, has_key, stripe_at, closes_at};
ghost use Rattle.serial_pager.specs.Pagers as pagers;
ghost use Rattle.serial_pager.specs.Rests.{ClosesSame};
ghost use Rattle.serial_pager.specs.Unmappings.{Unmaps, FailsToUnmap, ClosesOne};
ghost use Rattle.serial_pager.specs.UnmapsAll.{ClosesMore, UnmapsAll, fault_in, first_of};
ghost use Rattle.serial_pager.specs.Writings.{WritesAll, WritesUpTo};

use crate::fault::{PageFault, UnmapError};
use crate::laws::model_laws;
use crate::pager::SerialPager;
use crate::stripe::SerialStripe;
use page_base::{Key, MOST_STRIPES};
use page_model::Journal;
use store_trait::Store;

/// Flushes each stripe, up to the first failed write; `scratch` is one page.
fn flush_stripes<S: Store, J: Journal>(
    stripes: &mut Vec<SerialStripe<S, J>>,
    scratch: &mut [u8],
) -> Result<(), PageFault>
    requires each { MayFlushEach (length scratch.old) stripes.old.items }
    ensures count { length stripes.new.items ≡ length stripes.old.items }
    ensures goes { GoesEach MOST_STRIPES ClosesSame stripes.old.items stripes.new.items }
    ensures made { all_made J.made_with stripes.new.items ≡ all_made J.made_with stripes.old.items }
    ensures ok { OnOk result (EachDid 0 J.has_noted WritesAll stripes.old.items stripes.new.items) }
    ensures err { IfErr result (λ f. OneFailed 0 J.has_noted WritesAll (WritesUpTo f)
        stripes.old.items stripes.new.items) }
{
    for stripe in 0..stripes.len() {
        match stripes[stripe].flush(scratch) {
            Ok(()) => {}
            Err(fault) => return Err(fault),
        }
    }
    Ok(())
}

/// Unmaps a region in each stripe, up to the first failed write; `scratch` is one page.
fn unmap_stripes<S: Store, J: Journal>(
    stripes: &mut Vec<SerialStripe<S, J>>,
    scratch: &mut [u8],
    region: u16,
) -> Result<(), PageFault>
    requires each { MayFlushEach (length scratch.old) stripes.old.items }
    requires region { HasRegionEach region stripes.old.items }
    ensures count { length stripes.new.items ≡ length stripes.old.items }
    ensures goes { GoesEach MOST_STRIPES (ClosesOne region) stripes.old.items stripes.new.items }
    ensures made { all_made J.made_with stripes.new.items ≡ all_made J.made_with stripes.old.items }
    ensures ok { OnOk result (EachDid 0 J.has_noted (Unmaps region) stripes.old.items stripes.new.items) }
    ensures err { IfErr result (λ f. OneFailed 0 J.has_noted (Unmaps region) (FailsToUnmap region f)
        stripes.old.items stripes.new.items) }
{
    for stripe in 0..stripes.len() {
        match stripes[stripe].unmap(scratch, region) {
            Ok(()) => {}
            Err(fault) => return Err(fault),
        }
    }
    Ok(())
}

/// Whether the region is unmapped in each of these stripes.
fn all_unmapped<S: Store, J: Journal>(stripes: &Vec<SerialStripe<S, J>>, region: u16) -> bool
    requires region { HasRegionEach region stripes.now.items }
    ensures exact { result ≡ list_all (λ x. core.is_unmapped x.core region) stripes.now.items }
{
    for stripe in 0..stripes.len() {
        if !stripes[stripe].is_unmapped(region) {
            return false;
        }
    }
    true
}

/// The first fault of an answer and of the unmapping behind it.
fn first_fault(first: Result<(), PageFault>, next: Result<(), UnmapError>) -> Result<(), PageFault>
    ensures exact { fault_in result ≡ first_of (fault_in first) (write_fault next) }
{
    match (first, next) {
        (Err(fault), _) => Err(fault),
        (Ok(()), Err(UnmapError::Fault(fault))) => Err(fault),
        (Ok(()), _) => Ok(()),
    }
}

impl<S: Store, J: Journal> SerialPager<S, J> {
    /// How many regions there are.
    fn regions(&self) -> u16
        ensures exact { result ≡ length self.now.shapes }
        ensures few { result ≤ MOST_REGIONS }
        ensures within { IsWithin self.now }
    {
        model_laws();
        self.config.shapes.len() as u16
    }

    /// Whether the region is unmapped in every stripe.
    pub fn is_gone(&self, region: u16) -> bool
        requires region { region < length self.now.shapes }
        ensures exact { result ≡ pagers.is_gone self.now region }
    {
        all_unmapped(&self.stripes, region)
    }

    /// Whether the page's region closes in the page's stripe, or is unmapped there. No access of the page is served then.
    pub fn is_closing(&self, key: Key) -> bool
        requires page { has_key self.now key ≡ true }
        ensures exact { result ≡ closes_at self.now (stripe_at self.now key) key.region }
    {
        model_laws();
        let stripe = self.stripe_of(key);
        self.stripes[stripe].is_closing(key.region)
    }

    /// Writes the dirty pages, each once, stripe by stripe and there in rising order of region and page. The first failed write
    /// ends it and is the answer. The pages stay resident.
    pub fn flush(&mut self) -> Result<(), PageFault>
        requires few { self.old.spent + MOST_STRIPES ≤ 2 ^ 44 }
        ensures same { IsSame self.old self.new }
        ensures made { journals_made J.made_with self.new ≡ journals_made J.made_with self.old }
        ensures spent { self.new.spent ≡ self.old.spent + MOST_STRIPES }
        ensures within { IsWithin self.new }
        ensures ok { OnOk result (EachDid 0 J.has_noted WritesAll self.old.stripes self.new.stripes) }
        ensures err { IfErr result (FlushFails 0 J.has_noted self.old self.new) }
    {
        model_laws();
        self.spent += MOST_STRIPES as u64;
        flush_stripes(&mut self.stripes, self.scratch.as_mut_slice())
    }

    /// Unmaps a region, stripe by stripe: no access of it is served any more, and its pages are in the store. The first failed
    /// write ends it and is the answer; then the region closes in at least one stripe, no stripe opens it again, and a later call
    /// goes on from there. Where the region is unmapped in every stripe, nothing is done.
    pub fn unmap(&mut self, region: u16) -> Result<(), UnmapError>
        requires few { self.old.spent + MOST_STRIPES ≤ 2 ^ 44 }
        requires region { region < length self.old.shapes }
        ensures same { ClosesOnly region self.old self.new }
        ensures made { journals_made J.made_with self.new ≡ journals_made J.made_with self.old }
        ensures spent { self.new.spent ≡ self.old.spent + MOST_STRIPES }
        ensures within { IsWithin self.new }
        ensures ok { OnOk result (UnmapsEach 0 J.has_noted region self.old self.new) }
        ensures err { IfErr result (EndsUnmap 0 J.has_noted region self.old self.new) }
    {
        model_laws();
        self.spent += MOST_STRIPES as u64;
        if all_unmapped(&self.stripes, region) {
            return Err(UnmapError::Unmapped);
        }
        match unmap_stripes(&mut self.stripes, self.scratch.as_mut_slice(), region) {
            Ok(()) => Ok(()),
            Err(fault) => Err(UnmapError::Fault(fault)),
        }
    }

    /// Unmaps every region, in order of number. A failed write ends the unmapping of its region, and the next region's begins; the
    /// first fault is the answer. Regions that are unmapped are passed over.
    pub fn unmap_all(&mut self) -> Result<(), PageFault>
        requires few { self.old.spent + MOST_STRIPES * MOST_REGIONS ≤ 2 ^ 44 }
        ensures same { ClosesMore self.old self.new }
        ensures made { journals_made J.made_with self.new ≡ journals_made J.made_with self.old }
        ensures spent { self.new.spent ≡ self.old.spent + MOST_STRIPES * length self.old.shapes }
        ensures within { IsWithin self.new }
        ensures unmapped { UnmapsAll 0 J.has_noted (fault_in result) self.old self.new }
    {
        let mut answer = Ok(());
        for region in 0..self.regions() {
            answer = first_fault(answer, self.unmap(region));
        }
        answer
    }
}
