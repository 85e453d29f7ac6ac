//! Unmapping a region in one stripe: it begins to close, stale faults are dropped, its pages are written and evicted, and it is
//! unmapped.
ghost use Rattle.std.specs.Prelude.{◌≡◌, ℕ, ◌+◌, ◌*◌, ◌≤◌, ◌<◌, ◌^◌, [], ◌∷◌, None, true, false, length, OnOk, IfErr};
ghost use Rattle.page_base.specs.declared.keys.Key.{Key};
ghost use Rattle.page_model.specs.Core as core;
ghost use Rattle.page_model.specs.Events.{CanUnmap};
ghost use Rattle.page_model.specs.Setups.{has_page, regions};
ghost use Rattle.page_model.specs.declared.entry.Cause.TheVariants.{Unmap};
ghost use Rattle.page_model.specs.declared.entry.Entry.TheVariants as entry;
ghost use Rattle.page_model.specs.declared.seen.Next.TheVariants as serve;
ghost use Rattle.serial_pager.specs.Goings.{Did, Went};
ghost use Rattle.serial_pager.specs.InsideGoings.{WentBy, FailsToWriteOut};
ghost use Rattle.serial_pager.specs.InsideUnmappings.{IsReadied, FailsToLeave};
ghost use Rattle.serial_pager.specs.Rests.{IsAtRest};
ghost use Rattle.serial_pager.specs.Seen.{fixed_of};
ghost use Rattle.serial_pager.specs.Unmappings.{Unmaps, FailsToUnmap, ClosesOne, begin_closing, drops, leaves_region};

use crate::fault::PageFault;
use crate::laws::model_laws;
use crate::stripe::SerialStripe;
use page_base::Key;
use page_model::events::picks_know;
use page_model::{Cause, Journal, Next, Note};
use store_trait::Store;

impl<S: Store, J: Journal> SerialStripe<S, J> {
    /// Whether the region closes, or is unmapped.
    pub fn is_closing(&self, region: u16) -> bool
        requires region { region < regions self.now.core.setup }
        ensures exact { result ≡ core.is_closing self.now.core region }
    {
        self.stripe.is_closing(region)
    }

    /// Whether the region is unmapped.
    pub fn is_unmapped(&self, region: u16) -> bool
        requires region { region < regions self.now.core.setup }
        ensures exact { result ≡ core.is_unmapped self.now.core region }
    {
        self.stripe.is_unmapped(region)
    }

    /// Unmaps a region: no access of it is served any more, and what its pages hold is in the store. The first failed write ends
    /// it; the region goes on closing, and a later call goes on from there. In an unmapped region nothing is done.
    pub fn unmap(&mut self, scratch: &mut [u8], region: u16) -> Result<(), PageFault>
        requires rest { IsAtRest self.old.core }
        requires few { self.old.core.events + 2 ^ 22 ≤ 2 ^ 62 }
        requires scratch { length scratch.old ≡ self.old.core.setup.page_size }
        requires region { region < regions self.old.core.setup }
        ensures rest { IsAtRest self.new.core }
        ensures fixed { fixed_of J.made_with self.new ≡ fixed_of J.made_with self.old }
        ensures few { self.new.core.events ≤ self.old.core.events + 2 ^ 22 }
        ensures closes { ClosesOne region self.old.core self.new.core }
        ensures ok { OnOk result (Did 0 J.has_noted (Unmaps region) self.old self.new) }
        ensures err { IfErr result (λ f. Did 0 J.has_noted (FailsToUnmap region f) self.old self.new) }
    {
        model_laws();
        if self.stripe.is_unmapped(region) {
            return Ok(());
        }
        self.begin_closing(region);
        self.drop_stale();
        match self.clear(scratch, region) {
            Ok(()) => {}
            Err(fault) => return Err(fault),
        }
        self.end_closing(region);
        Ok(())
    }

    /// Begins to close a region, where it doesn't close yet.
    fn begin_closing(&mut self, region: u16)
        requires rest { IsAtRest self.old.core }
        requires few { self.old.core.events < 2 ^ 62 }
        requires region { region < regions self.old.core.setup }
        ensures rest { IsAtRest self.new.core }
        ensures made { J.made_with self.new.journal ≡ J.made_with self.old.journal }
        ensures went { Went 0 J.has_noted (begin_closing self.old.core region) self.old self.new }
        ensures few { self.new.core.events ≤ self.old.core.events + 1 }
    {
        model_laws();
        if self.stripe.is_closing(region) {
            return;
        }
        self.stripe.closing(region);
        self.journal.note(0, &Note::Closing { region });
    }

    /// Drops faults for as long as that is next.
    fn drop_stale(&mut self)
        requires rest { IsAtRest self.old.core }
        requires few { self.old.core.events + length self.old.core.queue ≤ 2 ^ 62 }
        ensures rest { IsAtRest self.new.core }
        ensures made { J.made_with self.new.journal ≡ J.made_with self.old.journal }
        ensures went { WentBy 0 J.has_noted drops self.old self.new }
        ensures few { self.new.core.events ≤ self.old.core.events + length self.old.core.queue }
        ensures none { (k : Key) → core.next self.new.core ≡ serve.Drop k → ⊥ }
    {
        model_laws();
        'faults: while let Next::Drop(_) = self.stripe.next() {
            self.drop_raise();
        }
    }

    /// Lets the pages of a closing region leave in order of filling, and writes each before where it is dirty.
    fn clear(&mut self, scratch: &mut [u8], region: u16) -> Result<(), PageFault>
        requires rest { IsAtRest self.old.core }
        requires few { self.old.core.events + 3 * length self.old.core.pages ≤ 2 ^ 62 }
        requires scratch { length scratch.old ≡ self.old.core.setup.page_size }
        requires closing { core.is_closing self.old.core region ≡ true }
        ensures rest { IsAtRest self.new.core }
        ensures made { J.made_with self.new.journal ≡ J.made_with self.old.journal }
        ensures queue { self.new.core.queue ≡ self.old.core.queue }
        ensures few { self.new.core.events ≤ self.old.core.events + 3 * length self.old.core.pages }
        ensures ok { OnOk result (WentBy 0 J.has_noted (leaves_region region) self.old self.new) }
        ensures none { OnOk result (core.oldest_of self.new.core region ≡ None) }
        ensures err { IfErr result (FailsToLeave 0 J.has_noted region self.old self.new) }
    {
        model_laws();
        picks_know();
        'pages: while let Some(pick) = self.stripe.oldest_of(region) {
            match self.let_leave(scratch, pick.key, pick.dirty) {
                Ok(()) => {}
                Err(fault) => return Err(fault),
            }
        }
        Ok(())
    }

    /// Lets a page of a closing region leave, and writes it before where it is dirty.
    fn let_leave(&mut self, scratch: &mut [u8], key: Key, dirty: bool) -> Result<(), PageFault>
        requires rest { IsAtRest self.old.core }
        requires few { self.old.core.events + 3 ≤ 2 ^ 62 }
        requires scratch { length scratch.old ≡ self.old.core.setup.page_size }
        requires present { core.is_present self.old.core key ≡ true }
        requires dirty { core.is_dirty self.old.core key ≡ dirty }
        requires closing { core.is_closing self.old.core key.region ≡ true }
        ensures rest { IsAtRest self.new.core }
        ensures made { J.made_with self.new.journal ≡ J.made_with self.old.journal }
        ensures queue { self.new.core.queue ≡ self.old.core.queue }
        ensures few { self.new.core.events ≤ self.old.core.events + 3 }
        ensures went { OnOk result (WentBy 0 J.has_noted (leaves_region key.region) self.old self.new) }
        ensures fewer { OnOk result (length self.new.core.pages < length self.old.core.pages) }
        ensures ends { IfErr result (λ f. FailsToWriteOut 0 J.has_noted key Unmap self.old self.new f) }
        ensures key { IfErr result (λ f. f.key ≡ key) }
    {
        model_laws();
        match self.make_clean(scratch, key, dirty) {
            Ok(()) => {}
            Err(fault) => return Err(fault),
        }
        self.evict(key, Cause::Unmap);
        Ok(())
    }

    /// Writes a page of a closing region where it is dirty.
    fn make_clean(&mut self, scratch: &mut [u8], key: Key, dirty: bool) -> Result<(), PageFault>
        requires rest { IsAtRest self.old.core }
        requires few { self.old.core.events + 2 ≤ 2 ^ 62 }
        requires scratch { length scratch.old ≡ self.old.core.setup.page_size }
        requires present { core.is_present self.old.core key ≡ true }
        requires dirty { core.is_dirty self.old.core key ≡ dirty }
        requires closing { core.is_closing self.old.core key.region ≡ true }
        ensures rest { IsAtRest self.new.core }
        ensures made { J.made_with self.new.journal ≡ J.made_with self.old.journal }
        ensures queue { self.new.core.queue ≡ self.old.core.queue }
        ensures few { self.new.core.events ≤ self.old.core.events + 2 }
        ensures went { OnOk result (WentBy 0 J.has_noted (leaves_region key.region) self.old self.new) }
        ensures ready { OnOk result (IsReadied key self.old.core self.new.core) }
        ensures ends { IfErr result (λ f. FailsToWriteOut 0 J.has_noted key Unmap self.old self.new f) }
        ensures key { IfErr result (λ f. f.key ≡ key) }
    {
        model_laws();
        if !dirty {
            return Ok(());
        }
        self.write_out(scratch, key, Cause::Unmap)
    }

    /// Ends the closing of a region of which nothing is left.
    fn end_closing(&mut self, region: u16)
        requires rest { IsAtRest self.old.core }
        requires few { self.old.core.events < 2 ^ 62 }
        requires can { CanUnmap self.old.core region }
        ensures rest { IsAtRest self.new.core }
        ensures made { J.made_with self.new.journal ≡ J.made_with self.old.journal }
        ensures went { Went 0 J.has_noted (entry.Unmapped region ∷ []) self.old self.new }
    {
        self.stripe.unmapped(region);
        self.journal.note(0, &Note::Unmapped { region });
    }
}
