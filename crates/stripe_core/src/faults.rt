//! Faults: how a page comes to wait, and what is served next.
ghost use Rattle.std.specs.Prelude.{◌≡◌, ◌≢◌, ◌<◌, ◌^◌, ◌&&◌, not, true, false, find, option_map};
ghost use Rattle.std.specs.List.{list_any};
ghost use Rattle.page_model.specs.declared.entry.Entry.TheVariants as entry;
ghost use Rattle.page_model.specs.Core as core;
ghost use Rattle.page_model.specs.declared.seen.Next.TheVariants as serve;
ghost use Rattle.page_model.specs.Events.{CanRaiseFor};
ghost use Rattle.page_model.specs.Setups.{has_page, regions};
ghost use Rattle.page_model.specs.Steps as step;
ghost use Rattle.fault_queue.specs.Queues.{raise_of, opens_why};
ghost use Rattle.stripe_core.specs.InsideServing.{in_closing, is_ready, is_ready_in};
ghost use Rattle.stripe_core.specs.Answers.{raise_answer};
ghost use Rattle.stripe_core.specs.Standing.{StandsAfter};

use crate::answers::Raise;
use crate::stripe::Stripe;
use page_base::{Key, Why};
use page_model::events::{hint_stands, raise_stands};
use page_model::{HintAnswer, Next};
use store_trait::Store;

// What a fault meets.
impl<S: Store> Stripe<S> {
    pub(crate) fn is_pending(&self, key: Key) -> bool
        ensures exact { result ≡ core.is_pending self.now key }
    {
        self.queue.pending(key).is_some()
    }

    pub(crate) fn is_reading(&self, key: Key) -> bool
        requires region { key.region < regions self.now.setup }
        ensures exact { result ≡ core.is_reading self.now key }
    {
        self.regions[key.region as usize].lane.reads(key)
    }

    pub(crate) fn free_frames(&self) -> u32
        ensures exact { result ≡ core.free_frames self.now }
    {
        self.buffer.free()
    }

    fn is_stale(&self, key: Key, why: Why) -> bool
        requires page { has_page self.now.setup key ≡ true }
        ensures exact { result ≡ core.is_stale self.now (record { key = key; why = why }) }
    {
        self.is_closing(key.region) || matches!(why, Why::Protected) && !self.is_present(key)
    }

    fn is_servable(&self, key: Key, why: Why) -> bool
        requires page { has_page self.now.setup key ≡ true }
        ensures exact { result ≡ core.is_servable self.now (record { key = key; why = why }) }
    {
        if matches!(why, Why::Protected) {
            self.is_guarded(key)
        } else {
            self.free_frames() > 0 && self.is_home(key.region)
        }
    }
}

// The steps, by the data that they leave.
impl<S: Store> Stripe<S> {
    fn raise_step(&mut self, key: Key, why: Why) -> Raise
        requires few { self.old.events < 2 ^ 62 }
        requires page { has_page self.old.setup key ≡ true }
        requires fits { opens_why why ≡ true → core.is_guarded self.old key ≡ true }
        ensures answer { result ≡ raise_answer self.old key }
        ensures step { result ≡ Raise.Raised → self.new ≡ step.raise self.old key why }
        ensures same { result ≢ Raise.Raised → self.new ≡ self.old }
        ensures fixed { self.new.setup ≡ self.old.setup }
    {
        if self.is_pending(key) || self.is_reading(key) {
            return Raise::Pending;
        }
        match self.queue.raise(key, why) {
            Ok(()) => {}
            Err(_) => return Raise::QueueFull,
        }
        self.events += 1;
        Raise::Raised
    }

    /// Counts an entry that changes nothing else.
    fn pass(&mut self)
        requires few { self.old.events < 2 ^ 62 }
        ensures step { self.new ≡ step.load self.old }
    {
        self.events += 1;
    }

    fn hint_step(&mut self, key: Key) -> HintAnswer
        requires few { self.old.events < 2 ^ 62 }
        requires page { has_page self.old.setup key ≡ true }
        ensures answer { result ≡ core.hint_answer self.old key }
        ensures step { self.new ≡ step.hint self.old key }
    {
        if self.is_closing(key.region) {
            self.pass();
            return HintAnswer::Closed;
        }
        if self.is_present(key) {
            self.pass();
            return HintAnswer::Present;
        }
        match self.raise_step(key, Why::Ahead) {
            Raise::Raised => HintAnswer::Raised,
            Raise::Pending => {
                self.pass();
                HintAnswer::Pending
            }
            Raise::QueueFull => {
                self.pass();
                HintAnswer::Full
            }
        }
    }
}

// The events, by the history that the stripe stands for, and what is served next.
impl<S: Store> Stripe<S> {
    /// Lets a page wait: to be read in for a load, a store or a later use, or to be opened to stores.
    pub fn raise(&mut self, key: Key, why: Why) -> Raise
        requires few { self.old.events < 2 ^ 62 }
        requires page { has_page self.old.setup key ≡ true }
        requires not_closing { core.is_closing self.old key.region ≡ false }
        requires fits { CanRaiseFor self.old key why }
        ensures answer { result ≡ raise_answer self.old key }
        ensures step { result ≡ Raise.Raised → self.new ≡ step.raise self.old key why }
        ensures same { result ≢ Raise.Raised → self.new ≡ self.old }
        ensures fixed { self.new.setup ≡ self.old.setup }
        ensures stands { result ≡ Raise.Raised → StandsAfter (entry.Raised key why) self.old self.new }
    {
        raise_stands();
        self.raise_step(key, why)
    }

    /// Is told that a page will be wanted. Where it is answered Raised, the page waits to be read ahead.
    pub fn hint(&mut self, key: Key) -> HintAnswer
        requires few { self.old.events < 2 ^ 62 }
        requires page { has_page self.old.setup key ≡ true }
        ensures answer { result ≡ core.hint_answer self.old key }
        ensures step { self.new ≡ step.hint self.old key }
        ensures fixed { self.new.setup ≡ self.old.setup }
        ensures stands { StandsAfter (entry.Hint key result) self.old self.new }
    {
        hint_stands();
        self.hint_step(key)
    }

    /// What has to be done next for the pages that wait.
    pub fn next(&self) -> Next
        ensures exact { result ≡ core.next self.now }
    {
        if let Some((key, _)) = self.first_stale() {
            return Next::Drop(key);
        }
        match self.first_servable() {
            Some((key, Why::Protected)) => Next::Open(key),
            Some((key, _)) => Next::Read(key),
            None if self.some_waits() => Next::Room,
            None => Next::Nothing,
        }
    }

    /// The page to read, where that is next.
    pub(crate) fn next_read(&self) -> Key
        requires next { (k : Key) × (core.next self.now ≡ serve.Read k) }
        ensures is { core.next self.now ≡ serve.Read result }
    {
        let Some((key, _)) = self.first_servable() else {
            unreachable!()
        };
        key
    }

    /// The page to open, where that is next.
    pub(crate) fn next_open(&self) -> Key
        requires next { (k : Key) × (core.next self.now ≡ serve.Open k) }
        ensures is { core.next self.now ≡ serve.Open result }
    {
        let Some((key, _)) = self.first_servable() else {
            unreachable!()
        };
        key
    }

    /// The page of the fault to drop, where that is next.
    pub(crate) fn next_drop(&self) -> Key
        requires next { (k : Key) × (core.next self.now ≡ serve.Drop k) }
        ensures is { core.next self.now ≡ serve.Drop result }
    {
        let Some((key, _)) = self.first_stale() else {
            unreachable!()
        };
        key
    }

    fn first_stale(&self) -> Option<(Key, Why)>
        ensures exact { option_map raise_of result ≡ find (core.is_stale self.now) self.now.queue }
    {
        if self.queue.lost() > 0 {
            self.first_stale_of_all()
        } else {
            self.first_closing()
        }
    }

    fn first_servable(&self) -> Option<(Key, Why)>
        ensures exact { option_map raise_of result ≡ find (core.is_servable self.now) self.now.queue }
    {
        if self.queue.lost() > 0 {
            self.first_servable_of_all()
        } else {
            self.first_ready()
        }
    }

    fn some_waits(&self) -> bool
        ensures exact { result ≡ list_any (core.waits_for_room self.now) self.now.queue }
    {
        self.first_waiting().is_some()
    }
}

// Searches by group, and the walks over all faults that wait, for where one may be lost.
impl<S: Store> Stripe<S> {
    fn first_closing(&self) -> Option<(Key, Why)>
        ensures exact { option_map raise_of result ≡ find (in_closing self.now) self.now.queue }
    {
        self.queue.faults().first_among(
            |region: u16, _opens: bool| -> bool
                requires { region < regions self.now.setup }
                ensures { result ≡ core.is_closing self.entry.now region }
            { self.is_closing(region) },
        )
    }

    fn first_ready(&self) -> Option<(Key, Why)>
        ensures exact { option_map raise_of result ≡ find (is_ready self.now) self.now.queue }
    {
        self.queue.faults().first_among(
            |region: u16, opens: bool| -> bool
                requires { region < regions self.now.setup }
                ensures { result ≡ is_ready_in self.entry.now region opens }
            { opens || self.free_frames() > 0 && self.is_home(region) },
        )
    }

    fn first_waiting(&self) -> Option<(Key, Why)>
        ensures exact { option_map raise_of result ≡ find (core.waits_for_room self.now) self.now.queue }
    {
        self.queue.faults().first_among(
            |region: u16, opens: bool| -> bool
                requires { region < regions self.now.setup }
                ensures { result ≡ (not opens && core.is_home self.entry.now region) }
            { !opens && self.is_home(region) },
        )
    }

    fn first_stale_of_all(&self) -> Option<(Key, Why)>
        ensures exact { option_map raise_of result ≡ find (core.is_stale self.now) self.now.queue }
    {
        self.queue.faults().first_where(
            |key: Key, why: Why| -> bool
                requires { has_page self.now.setup key ≡ true }
                ensures { result ≡ core.is_stale self.entry.now (record { key = key; why = why }) }
            { self.is_stale(key, why) },
        )
    }

    fn first_servable_of_all(&self) -> Option<(Key, Why)>
        ensures exact { option_map raise_of result ≡ find (core.is_servable self.now) self.now.queue }
    {
        self.queue.faults().first_where(
            |key: Key, why: Why| -> bool
                requires { has_page self.now.setup key ≡ true }
                ensures { result ≡ core.is_servable self.entry.now (record { key = key; why = why }) }
            { self.is_servable(key, why) },
        )
    }
}
