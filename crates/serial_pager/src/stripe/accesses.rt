//! Loads and stores of a part of one page, with the page faults that they make.
ghost use Rattle.std.specs.Prelude.{◌≡◌, ◌+◌, ◌≤◌, ◌^◌, ◌<◌, [], ◌∷◌, true, false, length, OnOk, IfErr};
ghost use Rattle.page_model.specs.declared.entry.Entry.TheVariants as entry;
ghost use Rattle.page_model.specs.Events.{InPage};
ghost use Rattle.page_model.specs.Core.{is_closing, is_present};
ghost use Rattle.page_model.specs.Setups.{is_writable};
ghost use Rattle.serial_pager.specs.Accesses.{serves, is_read, is_for_store, AccessFails, Loads, Stores};
ghost use Rattle.serial_pager.specs.Goings.{Went};
ghost use Rattle.serial_pager.specs.InsideGoings.{WentBy};
ghost use Rattle.serial_pager.specs.Seen.{fixed_of};
ghost use Rattle.serial_pager.specs.Rests.{ClosesSame, IsAtRest};
ghost use Rattle.serial_pager.specs.InsideServices.{Raises, is_shut, why_shut};

use crate::fault::PageFault;
use crate::laws::model_laws;
use crate::stripe::SerialStripe;
use page_base::{Key, Why};
use page_model::{Journal, Note};
use store_trait::Store;
use stripe_core::Look;

impl<S: Store, J: Journal> SerialStripe<S, J> {
    /// Reads a part of a page into `buf`, from byte `place` of the page on, by way of one scratch page. After a fault of the
    /// store no load was made.
    pub fn load(
        &mut self,
        scratch: &mut [u8],
        key: Key,
        place: u32,
        buf: &mut [u8],
    ) -> Result<(), PageFault>
        requires rest { IsAtRest self.old.core }
        requires few { self.old.core.events + 2 ^ 16 ≤ 2 ^ 62 }
        requires scratch { length scratch.old ≡ self.old.core.setup.page_size }
        requires not_closing { is_closing self.old.core key.region ≡ false }
        requires in_page { InPage self.old.core.setup key place (length buf.old) }
        ensures rest { IsAtRest self.new.core }
        ensures fixed { fixed_of J.made_with self.new ≡ fixed_of J.made_with self.old }
        ensures few { self.new.core.events ≤ self.old.core.events + 2 ^ 16 }
        ensures closes { ClosesSame self.old.core self.new.core }
        ensures ok { OnOk result (Loads 0 J.has_noted key place buf.new self.old self.new) }
        ensures err { IfErr result (AccessFails 0 J.has_noted key is_read self.old self.new) }
    {
        model_laws();
        while !self.try_load(key, place, buf) {
            match self.serve(scratch, key) {
                Ok(()) => {}
                Err(fault) => return Err(fault),
            }
        }
        Ok(())
    }

    /// Writes `bytes` over a part of a page, from byte `place` of the page on, by way of one scratch page. After a fault of the
    /// store no store was made.
    pub fn store(
        &mut self,
        scratch: &mut [u8],
        key: Key,
        place: u32,
        bytes: &[u8],
    ) -> Result<(), PageFault>
        requires rest { IsAtRest self.old.core }
        requires few { self.old.core.events + 2 ^ 16 ≤ 2 ^ 62 }
        requires scratch { length scratch.old ≡ self.old.core.setup.page_size }
        requires not_closing { is_closing self.old.core key.region ≡ false }
        requires in_page { InPage self.old.core.setup key place (length bytes.now) }
        requires writable { is_writable self.old.core.setup key.region ≡ true }
        ensures rest { IsAtRest self.new.core }
        ensures fixed { fixed_of J.made_with self.new ≡ fixed_of J.made_with self.old }
        ensures few { self.new.core.events ≤ self.old.core.events + 2 ^ 16 }
        ensures closes { ClosesSame self.old.core self.new.core }
        ensures ok { OnOk result (Stores 0 J.has_noted key place bytes.now self.old self.new) }
        ensures err { IfErr result (AccessFails 0 J.has_noted key is_for_store self.old self.new) }
    {
        model_laws();
        while !self.try_store(key, place, bytes) {
            match self.serve(scratch, key) {
                Ok(()) => {}
                Err(fault) => return Err(fault),
            }
        }
        Ok(())
    }

    /// Loads where the page is resident. Where it isn't, it waits from now on to be read in.
    fn try_load(&mut self, key: Key, place: u32, buf: &mut [u8]) -> bool
        requires rest { IsAtRest self.old.core }
        requires few { self.old.core.events < 2 ^ 62 }
        requires not_closing { is_closing self.old.core key.region ≡ false }
        requires in_page { InPage self.old.core.setup key place (length buf.old) }
        ensures rest { IsAtRest self.new.core }
        ensures made { J.made_with self.new.journal ≡ J.made_with self.old.journal }
        ensures went { result ≡ true → Went 0 J.has_noted (entry.Load key place buf.new ∷ []) self.old self.new }
        ensures raises { result ≡ false → Raises key Why.Read self.old.core self.new.core }
        ensures missed { result ≡ false → is_present self.new.core key ≡ false }
        ensures waits { result ≡ false → 0 < length self.new.core.queue }
        ensures before { result ≡ false → WentBy 0 J.has_noted (serves key is_read) self.old self.new }
    {
        match self.stripe.load(key, place, buf) {
            Look::Hit => {
                self.journal.note(
                    0,
                    &Note::Load {
                        key,
                        place,
                        bytes: buf,
                    },
                );
                true
            }
            Look::Missing => {
                self.raise(key, Why::Read);
                false
            }
            Look::Protected | Look::Closed => unreachable!(),
        }
    }

    /// Stores where the page is resident and open to stores. Where it isn't, it waits from now on to be read in or opened.
    fn try_store(&mut self, key: Key, place: u32, bytes: &[u8]) -> bool
        requires rest { IsAtRest self.old.core }
        requires few { self.old.core.events < 2 ^ 62 }
        requires not_closing { is_closing self.old.core key.region ≡ false }
        requires in_page { InPage self.old.core.setup key place (length bytes.now) }
        requires writable { is_writable self.old.core.setup key.region ≡ true }
        ensures rest { IsAtRest self.new.core }
        ensures made { J.made_with self.new.journal ≡ J.made_with self.old.journal }
        ensures went { result ≡ true → Went 0 J.has_noted (entry.Save key place bytes.now ∷ []) self.old self.new }
        ensures raises { result ≡ false → Raises key (why_shut self.old.core key) self.old.core self.new.core }
        ensures missed { result ≡ false → is_shut self.new.core key ≡ true }
        ensures waits { result ≡ false → 0 < length self.new.core.queue }
        ensures before { result ≡ false → WentBy 0 J.has_noted (serves key is_for_store) self.old self.new }
    {
        match self.stripe.save(key, place, bytes) {
            Look::Hit => {
                self.journal.note(0, &Note::Save { key, place, bytes });
                true
            }
            Look::Missing => {
                self.raise(key, Why::Write);
                false
            }
            Look::Protected => {
                self.raise(key, Why::Protected);
                false
            }
            Look::Closed => unreachable!(),
        }
    }
}
