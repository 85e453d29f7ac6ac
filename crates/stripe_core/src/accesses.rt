//! Loads and stores of resident pages: one look-up, one copy.
ghost use Rattle.std.specs.Prelude.{◌≡◌, ◌≢◌, ◌<◌, ◌^◌, length, true};
ghost use Rattle.page_model.specs.declared.entry.Entry.TheVariants as entry;
ghost use Rattle.page_model.specs.Events.{InPage};
ghost use Rattle.page_model.specs.Setups.{is_writable};
ghost use Rattle.page_model.specs.Steps as step;
ghost use Rattle.stripe_core.specs.Answers.{load_look, save_look, GivesBytes};
ghost use Rattle.stripe_core.specs.Standing.{StandsAfter};

use crate::answers::Look;
use crate::stripe::Stripe;
use page_base::Key;
use page_model::events::{load_stands, save_stands};
use soft_mmu::{Found, Wants};
use store_trait::Store;

// The steps, by the data that they leave.
impl<S: Store> Stripe<S> {
    fn load_step(&mut self, key: Key, place: u32, buf: &mut [u8]) -> Look
        requires few { self.old.events < 2 ^ 62 }
        requires in_page { InPage self.old.setup key place (length buf.old) }
        ensures answer { result ≡ load_look self.old key }
        ensures step { result ≡ Look.Hit → self.new ≡ step.load self.old }
        ensures bytes { result ≡ Look.Hit → GivesBytes self.old key place buf.new }
        ensures same { result ≢ Look.Hit → self.new ≡ self.old }
        ensures untouched { result ≢ Look.Hit → buf.new ≡ buf.old }
        ensures fixed { self.new.setup ≡ self.old.setup }
    {
        if self.is_closing(key.region) {
            return Look::Closed;
        }
        match self.table.translate(key, Wants::Read) {
            Found::Hit(frame) => {
                let from = place as usize;
                let bytes = self.buffer.bytes(frame);
                buf.copy_from_slice(&bytes[from..from + buf.len()]);
                self.events += 1;
                Look::Hit
            }
            Found::Missing => Look::Missing,
            Found::Protected => unreachable!(),
        }
    }

    fn save_step(&mut self, key: Key, place: u32, bytes: &[u8]) -> Look
        requires few { self.old.events < 2 ^ 62 }
        requires in_page { InPage self.old.setup key place (length bytes.now) }
        ensures answer { result ≡ save_look self.old key }
        ensures step { result ≡ Look.Hit → self.new ≡ step.save self.old key place bytes.now }
        ensures same { result ≢ Look.Hit → self.new ≡ self.old }
        ensures fixed { self.new.setup ≡ self.old.setup }
    {
        if self.is_closing(key.region) {
            return Look::Closed;
        }
        match self.table.translate(key, Wants::Write) {
            Found::Hit(frame) => {
                let from = place as usize;
                let page = self.buffer.bytes_mut(frame);
                page[from..from + bytes.len()].copy_from_slice(bytes);
                self.events += 1;
                Look::Hit
            }
            Found::Missing => Look::Missing,
            Found::Protected => Look::Protected,
        }
    }
}

// The events, by the history that the stripe stands for.
impl<S: Store> Stripe<S> {
    /// Reads a part of a page into `buf`, from byte `place` of the page on.
    pub fn load(&mut self, key: Key, place: u32, buf: &mut [u8]) -> Look
        requires few { self.old.events < 2 ^ 62 }
        requires in_page { InPage self.old.setup key place (length buf.old) }
        ensures answer { result ≡ load_look self.old key }
        ensures step { result ≡ Look.Hit → self.new ≡ step.load self.old }
        ensures bytes { result ≡ Look.Hit → GivesBytes self.old key place buf.new }
        ensures same { result ≢ Look.Hit → self.new ≡ self.old }
        ensures untouched { result ≢ Look.Hit → buf.new ≡ buf.old }
        ensures fixed { self.new.setup ≡ self.old.setup }
        ensures stands { result ≡ Look.Hit → StandsAfter (entry.Load key place buf.new) self.old self.new }
    {
        load_stands();
        self.load_step(key, place, buf)
    }

    /// Writes `bytes` over a part of a page, from byte `place` of the page on.
    pub fn save(&mut self, key: Key, place: u32, bytes: &[u8]) -> Look
        requires few { self.old.events < 2 ^ 62 }
        requires in_page { InPage self.old.setup key place (length bytes.now) }
        requires writable { is_writable self.old.setup key.region ≡ true }
        ensures answer { result ≡ save_look self.old key }
        ensures step { result ≡ Look.Hit → self.new ≡ step.save self.old key place bytes.now }
        ensures same { result ≢ Look.Hit → self.new ≡ self.old }
        ensures fixed { self.new.setup ≡ self.old.setup }
        ensures stands { result ≡ Look.Hit → StandsAfter (entry.Save key place bytes.now) self.old self.new }
    {
        save_stands();
        self.save_step(key, place, bytes)
    }
}
