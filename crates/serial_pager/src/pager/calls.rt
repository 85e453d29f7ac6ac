//! The calls of a pager: loads and stores of one piece of a page.
ghost use Rattle.std.specs.Prelude.{◌≡◌, ◌<◌, ◌+◌, ◌^◌, true, length, OnOk, IfErr};
ghost use Rattle.serial_pager.specs.Pagers.{IsPiece, IsSame, IsWithin, LoadsPiece, StoresPiece, FailsToLoad, FailsToStore, NamesFault, journals_made, has_key, is_writable, stripe_at};

use crate::fault::PageFault;
use crate::pager::SerialPager;
use page_base::Key;
use page_model::Journal;
use page_model::events::service_knows;
use store_trait::Store;

impl<S: Store, J: Journal> SerialPager<S, J> {
    /// The bytes of a page.
    pub fn page_size(&self) -> u32
        ensures value { result ≡ self.now.page_size }
        ensures some { 0 < result }
    {
        self.config.layout.page_size()
    }

    /// The stripe that a page lies in.
    pub(crate) fn stripe_of(&self, key: Key) -> usize
        requires page { has_key self.now key ≡ true }
        ensures stripe { result ≡ stripe_at self.now key }
        ensures below { result < length self.now.stripes }
    {
        let group = self.config.shapes.get(key.region as usize).group;
        self.config.layout.stripe_of(key, group) as usize
    }

    /// Reads a piece of a page into `buf`, from byte `place` of the page on. After a fault of the store no load was made.
    pub fn load(&mut self, key: Key, place: u32, buf: &mut [u8]) -> Result<(), PageFault>
        requires piece { IsPiece self.old key place (length buf.old) }
        requires few { self.old.spent < 2 ^ 44 }
        ensures same { IsSame self.old self.new }
        ensures made { journals_made J.made_with self.new ≡ journals_made J.made_with self.old }
        ensures spent { self.new.spent ≡ self.old.spent + 1 }
        ensures within { IsWithin self.new }
        ensures ok { OnOk result (LoadsPiece 0 J.has_noted key place buf.new self.old self.new) }
        ensures err { IfErr result (FailsToLoad 0 J.has_noted key self.old self.new) }
        ensures fault { IfErr result (NamesFault key self.old) }
    {
        service_knows();
        let stripe = self.stripe_of(key);
        self.spent += 1;
        self.stripes[stripe].load(self.scratch.as_mut_slice(), key, place, buf)
    }

    /// Writes `bytes` over a piece of a page, from byte `place` of the page on. After a fault of the store no store was made.
    pub fn store(&mut self, key: Key, place: u32, bytes: &[u8]) -> Result<(), PageFault>
        requires piece { IsPiece self.old key place (length bytes.now) }
        requires writable { is_writable self.old key.region ≡ true }
        requires few { self.old.spent < 2 ^ 44 }
        ensures same { IsSame self.old self.new }
        ensures made { journals_made J.made_with self.new ≡ journals_made J.made_with self.old }
        ensures spent { self.new.spent ≡ self.old.spent + 1 }
        ensures within { IsWithin self.new }
        ensures ok { OnOk result (StoresPiece 0 J.has_noted key place bytes.now self.old self.new) }
        ensures err { IfErr result (FailsToStore 0 J.has_noted key self.old self.new) }
        ensures fault { IfErr result (NamesFault key self.old) }
    {
        service_knows();
        let stripe = self.stripe_of(key);
        self.spent += 1;
        self.stripes[stripe].store(self.scratch.as_mut_slice(), key, place, bytes)
    }
}
