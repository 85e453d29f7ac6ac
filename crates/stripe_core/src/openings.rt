//! Faults that are served without a read: a protected page is opened to stores, a stale fault is dropped.
ghost use Rattle.std.specs.Prelude.{◌≡◌, ◌<◌, ◌^◌, true};
ghost use Rattle.histories.specs.Histories.{History};
ghost use Rattle.page_model.specs.declared.entry.Entry.{Entry};
ghost use Rattle.page_model.specs.declared.entry.Entry.TheVariants as entry;
ghost use Rattle.page_model.specs.declared.seen.Next.TheVariants as serve;
ghost use Rattle.page_model.specs.Core.{next};
ghost use Rattle.page_model.specs.Core as core;
ghost use Rattle.page_model.specs.Setups.{has_page};
ghost use Rattle.page_model.specs.Stands.{StandsFor};
ghost use Rattle.page_model.specs.Steps as step;
ghost use Rattle.stripe_core.specs.Standing.{StandsAfter};

use crate::stripe::Stripe;
use page_base::Key;
use page_model::events::{drop_raise_stands, open_page_stands, service_knows};
use soft_mmu::{Found, Wants};
use store_trait::Store;

// The steps, by the data that they leave.
impl<S: Store> Stripe<S> {
    fn open_step(&mut self, key: Key)
        requires few { self.old.events < 2 ^ 62 }
        requires page { has_page self.old.setup key ≡ true }
        requires guarded { core.is_guarded self.old key ≡ true }
        requires pending { core.is_pending self.old key ≡ true }
        ensures step { self.new ≡ step.open_page self.old key }
    {
        let Found::Hit(frame) = self.table.translate(key, Wants::Read) else {
            unreachable!()
        };
        self.table.open_page(key);
        self.buffer.mark_dirty(frame);
        self.queue.withdraw(key);
        self.events += 1;
    }

    fn drop_step(&mut self, key: Key)
        requires few { self.old.events < 2 ^ 62 }
        requires page { has_page self.old.setup key ≡ true }
        requires pending { core.is_pending self.old key ≡ true }
        ensures step { self.new ≡ step.drop_raise self.old key }
    {
        let guarded = self.table.bits(key).protected;
        self.queue.drop_out(key, guarded);
        self.events += 1;
    }
}

// The events, by the history that the stripe stands for.
impl<S: Store> Stripe<S> {
    /// Opens the protected page of the first fault that can be served: stores hit it from now on, and it is dirty.
    pub fn open_page(&mut self) -> Key
        requires few { self.old.events < 2 ^ 62 }
        requires stands { (h : History Entry) × StandsFor h self.old }
        requires next { (k : Key) × (next self.old ≡ serve.Open k) }
        ensures key { next self.old ≡ serve.Open result }
        ensures step { self.new ≡ step.open_page self.old result }
        ensures fixed { self.new.setup ≡ self.old.setup }
        ensures page { has_page self.old.setup result ≡ true }
        ensures stands { StandsAfter (entry.Opened result) self.old self.new }
    {
        service_knows();
        open_page_stands();
        let key = self.next_open();
        self.open_step(key);
        key
    }

    /// Withdraws the first fault that nobody waits for any more.
    pub fn drop_raise(&mut self) -> Key
        requires few { self.old.events < 2 ^ 62 }
        requires stands { (h : History Entry) × StandsFor h self.old }
        requires next { (k : Key) × (next self.old ≡ serve.Drop k) }
        ensures key { next self.old ≡ serve.Drop result }
        ensures step { self.new ≡ step.drop_raise self.old result }
        ensures fixed { self.new.setup ≡ self.old.setup }
        ensures page { has_page self.old.setup result ≡ true }
        ensures stands { StandsAfter (entry.Dropped result) self.old self.new }
    {
        service_knows();
        drop_raise_stands();
        let key = self.next_drop();
        self.drop_step(key);
        key
    }
}
