//! The atomic steps of a hold: draw a ticket, wait for it to be served and take the value, give the value back. And the
//! end of the table, where the value comes out for good.
ghost use Rattle.std.specs.Prelude.{◌≡◌, ℕ, ◌+◌, ◌<◌, ◌≤◌, true, length, [], ◌∷◌, None};
ghost use Rattle.turn_lock.specs.InsideViews.{waiting, given_view};
ghost use Rattle.turn_lock.specs.InsidePlays.{SitsAt, Enters, Closes};
ghost use Rattle.turn_lock.specs.declared.view.Turn.TheVariants.{Out, Waits, Inside};

use crate::laws::history_laws;
use crate::rule::{Choice, Draw, Give, Look, SERVING, TICKETS, TurnSeat, TurnTable, Turnstile};
use crate::stands::Stands;
use std::hint;
use std::sync::Wait;
use std::sync::atomic::AtomicU64;
use std::sync::atomic::Ordering::SeqCst;

/// Looks at the serving word before a wait sleeps on it.
const LOOKS: u32 = 50;

// A sleep on a word compares its low half.
const HALF: u64 = 1 << 32;

// Looks, and then sleeps, until another ticket is served than when it last looked. It may also return for no reason.
// Who sleeps is counted before the last look, and a step that serves the next ticket reads the count behind it: so a
// sleep either sees that step or is woken by it.
fn await_turn<T: Stands, R: Wait>(rt: &R, table: &Turnstile<T>, sleepers: &AtomicU64, ticket: u64)
    requires { table.now.table_id.words ≡ 2 }
{
    for _ in 0..LOOKS {
        if table.peek(SERVING) == ticket {
            return;
        }
        hint::spin_loop();
    }
    sleepers.fetch_add(1, SeqCst);
    let served = table.peek(SERVING);
    if served != ticket {
        table.park(rt, SERVING, (served % HALF) as u32);
    }
    sleepers.fetch_sub(1, SeqCst);
}

pub(crate) fn draw<T: Stands>(table: &Turnstile<T>, seat: &mut TurnSeat<T>) -> u64
    requires table { (seat.old.table_id ≡ table.now.table_id) × (table.now.table_id.words ≡ 2) }
    requires live { seat.old.me.0.live ≡ true }
    requires out { (seat.old.me.0.turn ≡ Out) × (seat.old.me.1 ≡ []) }
    requires room { seat.old.me.0.holds < table.now.key.holds }
    ensures table { seat.new.table_id ≡ seat.old.table_id }
    ensures view { seat.new.me ≡ (waiting seat.old.me.0 result, []) }
{
    table.fetch_add::<Draw>(seat, TICKETS, 1)
}

pub(crate) fn enter<T: Stands, R: Wait>(
    rt: &R,
    table: &Turnstile<T>,
    sleepers: &AtomicU64,
    seat: &mut TurnSeat<T>,
    ticket: u64,
) -> T
    requires table { SitsAt seat.old.table_id table.now.table_id }
    requires live { seat.old.me.0.live ≡ true }
    requires waits { (seat.old.me.0.turn ≡ Waits ticket) × (seat.old.me.1 ≡ []) }
    ensures table { seat.new.table_id ≡ seat.old.table_id }
    ensures view { Enters T.stands T.fixed seat.old.me.0 result seat.new.me }
{
    history_laws::<T::Entry>();
    for _ in rt.forever() {
        if table.load::<Look<T>>(seat, SERVING) == ticket {
            let Some(value) = table.exchange(seat, 0, None) else {
                unreachable!()
            };
            return value;
        }
        await_turn(rt, table, sleepers, ticket);
    }
    unreachable!()
}

pub(crate) fn finish<T: Stands, N, G: Choice<T::Entry>>(
    table: &Turnstile<T>,
    sleepers: &AtomicU64,
    seat: &mut TurnSeat<T>,
    value: T,
    note: &N,
)
    requires table { SitsAt seat.old.table_id table.now.table_id }
    requires live { seat.old.me.0.live ≡ true }
    requires inside { (t : ℕ) × (seat.old.me.0.turn ≡ Inside t) × (seat.old.me.1 ≡ (0, None) ∷ []) }
    requires few { length G.entries ≤ 1 }
    requires stands { T.stands (given_view seat.old.me.0 G.entries).seen value }
    requires fixed { T.fixed value ≡ T.fixed table.now.key.origin.value }
    ensures table { seat.new.table_id ≡ seat.old.table_id }
    ensures view { seat.new.me ≡ (given_view seat.old.me.0 G.entries, []) }
{
    history_laws::<T::Entry>();
    let left = table.exchange(seat, 0, Some(value));
    let None = left else { unreachable!() };
    table.fetch_add::<Give<G>>(seat, SERVING, 1);
    if sleepers.load(SeqCst) != 0 {
        table.wake_all(SERVING);
    }
}

/// The value of a table that only its first pass is left of.
pub(crate) fn close_table<T: Stands>(table: TurnTable<T>, seat: TurnSeat<T>) -> T
    requires table { (seat.table_id ≡ table.shared.table_id) × (table.shared.table_id.slots ≡ 1) }
    requires live { seat.me.0.live ≡ true }
    requires first { seat.me.0.number ≡ 0 }
    requires out { seat.me.0.turn ≡ Out }
    requires alone { length seat.me.0.ended + seat.me.0.spare + 1 ≡ table.shared.key.seats }
    ensures { Closes T.stands T.fixed table.shared.key seat.me.0 result }
{
    let mut slots = table.close_with(seat);
    let Some(value) = slots.take(0) else {
        unreachable!()
    };
    slots.free();
    value
}
