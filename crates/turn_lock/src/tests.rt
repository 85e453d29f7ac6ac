//! Rows worked by hand: what the clauses say, at one concrete value.
ghost use Rattle.std.specs.Prelude.{◌≡◌, [], OnErr, OnOk};
ghost use Rattle.turn_lock.specs.Seen.{IsPassOf};

use super::*;
use std::alloc::Global;
use std::collections::VecDeque;
use std::sync::Wait;
use std::test::Fail;

// A list that is its own history, with a name that stays.
#[derive(Drop)]
struct Named {
    name: u64,
    items: VecDeque<(u32, u64)>,
}

impl Stands for Named {
    ghost use Rattle.std.specs.Prelude.{◌≡◌};

    type Entry = u64;

    type Fixed = u64;

    ghost stands = { λ h x. x.items.items ≡ h };

    ghost fixed = { λ x. x.name };
}

struct Noted {
    number: u64,
}

impl NoteFor<Named> for Noted {
    ghost entry = { λ n. n.number };
}

fn empty_list(alloc: Global, name: u64) -> Named
    ensures { result.items.items ≡ [] }
{
    Named {
        name,
        items: VecDeque::new(alloc),
    }
}

// A hold that changes nothing.
fn visit<R: Wait>(rt: &R, lock: &TurnLock<Named>, pass: &mut Pass<Named>) -> Result<(), PassSpent>
    requires { IsPassOf lock.now pass.old }
    ensures ok { OnOk result (IsPassOf lock.now pass.new) }
    ensures spent { OnErr result (pass.new ≡ pass.old) }
{
    let (value, held) = match lock.hold(rt, pass) {
        Ok(made) => made,
        Err(spent) => return Err(spent.fault()),
    };
    held.leave(value);
    Ok(())
}

#[test]
fn one_seat_and_two_holds(rt: HostRuntime) -> Result<(), Fail> {
    let Ok((lock, mut pass)) = TurnLock::new(rt.alloc(), empty_list(rt.alloc(), 7), 1, 2) else {
        return Err(Fail::from("out of memory"));
    };
    assert_eq!(rt; pass.split(&lock).is_err(), true);
    assert_eq!(rt; pass.left(), 2);
    visit(&rt, &lock, &mut pass)?;
    visit(&rt, &lock, &mut pass)?;
    assert_eq!(rt; pass.left(), 0);
    assert_eq!(rt; visit(&rt, &lock, &mut pass), Err(PassSpent));
    Ok(())
}

#[test]
fn one_seat_too_many_hands_the_value_back(rt: HostRuntime) {
    match TurnLock::new(rt.alloc(), empty_list(rt.alloc(), 7), MOST_SEATS + 1, 2) {
        Err(NewFault::TooManySeats { value }) => assert_eq!(rt; value.name, 7),
        Err(NewFault::OutOfMemory { value: _ }) => assert!(rt; false),
        Ok(_) => assert!(rt; false),
    }
}

#[test]
fn alone_before_the_split_and_after_the_fold(rt: HostRuntime) -> Result<(), Fail> {
    let Ok((lock, mut first)) = TurnLock::new(rt.alloc(), empty_list(rt.alloc(), 7), 2, 4) else {
        return Err(Fail::from("out of memory"));
    };
    assert!(rt; first.alone());
    let mut second = first.split(&lock)?;
    assert!(rt; !first.alone());
    assert_eq!(rt; second.number(), 1);
    assert_eq!(rt; first.split(&lock).is_err(), true);
    let Ok((mut value, held)) = lock.hold(&rt, &mut second) else {
        return Err(Fail::from("spent"));
    };
    if value.items.push_front((1, 5)).is_err() {
        held.leave(value);
        return Err(Fail::from("out of memory"));
    }
    held.give(value, &Noted { number: 5 });
    first.fold(&lock, second);
    assert!(rt; first.alone());
    let (value, closed) = lock.close(first);
    drop(closed);
    assert_eq!(rt; value.items.len(), 1);
    assert_eq!(rt; value.name, 7);
    Ok(())
}
