//! Two threads, each with a thousand numbers.
ghost use Rattle.std.specs.Prelude.{◌≡◌, []};
ghost use Rattle.turn_lock.specs.Seen.{IsPassOf};

use super::*;
use std::alloc::Global;
use std::collections::VecDeque;
use std::sync::Wait;
use std::test::Fail;
use std::thread::Threads;
use turn_lock::{Pass, TurnLock};

const COUNT: u64 = 1000;

#[derive(Drop)]
struct Board;

impl Shelf for Board {
    ghost label_of = { λ b. 3 };

    fn label(&self) -> u64 {
        3
    }
}

fn empty(alloc: Global) -> Lines<Board>
    ensures { result.items.items ≡ [] }
{
    Lines {
        shelf: Board,
        label: 3,
        items: VecDeque::new(alloc),
    }
}

// Whether the numbers of one thread are all there in their order, the newest first.
fn counts_down(items: &VecDeque<(u32, u64)>, owner: u32) -> bool {
    let mut next = COUNT;
    for (by, number) in items.iter() {
        if *by == owner {
            if next == 0 || *number != next - 1 {
                return false;
            }
            next -= 1;
        }
    }
    next == 0
}

#[test]
fn two_threads_add_a_thousand_each(rt: HostRuntime) -> Result<(), Fail> {
    let Ok(added) = add_beside(&rt, rt.alloc(), empty(rt.alloc()), COUNT) else {
        return Err(Fail::from("out of memory"));
    };
    assert!(rt; added.all);
    assert_eq!(rt; added.lines.items.len(), 2000);
    assert!(rt; counts_down(&added.lines.items, 0));
    assert!(rt; counts_down(&added.lines.items, 1));
    assert_eq!(rt; added.lines.shelf.label(), added.lines.label);
    Ok(())
}

// One job follows and one leads.
fn lead_one<'a, R: Threads + Wait + Sync>(
    rt: &'a R,
    lock: &'a TurnLock<Lines<Board>>,
    follower: Pass<Lines<Board>>,
    leader: Pass<Lines<Board>>,
) -> bool
    requires follower { IsPassOf lock.now follower × (follower.mine ≡ []) }
    requires leader { IsPassOf lock.now leader × (leader.mine ≡ []) }
{
    let done = Flag::new();
    let mut followers = [adder(rt, lock, follower)];
    let mut leaders = [adder(rt, lock, leader)];
    add_all(rt, &done, &mut followers, &mut leaders);
    done.is_set() && followers[0].done && leaders[0].done
}

fn adder<'a, R>(
    rt: &'a R,
    lock: &'a TurnLock<Lines<Board>>,
    pass: Pass<Lines<Board>>,
) -> Adder<'a, Board, R>
    requires { IsPassOf lock.now pass × (pass.mine ≡ []) }
    ensures { IsPassOf result.lock.now result.pass × (result.pass.mine ≡ []) }
{
    Adder {
        rt,
        lock,
        pass,
        count: COUNT,
        done: false,
    }
}

#[test]
fn followers_work_beside_leaders(rt: HostRuntime) -> Result<(), Fail> {
    let Ok((lock, mut first)) = TurnLock::new(rt.alloc(), empty(rt.alloc()), 2, COUNT) else {
        return Err(Fail::from("out of memory"));
    };
    let second = first.split(&lock)?;
    assert!(rt; lead_one(&rt, &lock, second, first));
    Ok(())
}

#[test]
fn a_hold_is_kept_with_all_passes(rt: HostRuntime) -> Result<(), Fail> {
    let Ok((lock, first)) = TurnLock::new(rt.alloc(), empty(rt.alloc()), 1, COUNT) else {
        return Err(Fail::from("out of memory"));
    };
    let mut passes = Passes {
        passes: vec![in rt.alloc(); first]?,
    };
    let (mut lines, one) = hold_one(&rt, &lock, &mut passes, 0)?;
    if lines.items.push_front((0, 5)).is_err() {
        one.leave(lines);
        return Err(Fail::from("out of memory"));
    }
    one.give(lines, &Noted { number: 5 });
    assert_eq!(rt; passes.passes[0].left(), COUNT - 1);
    Ok(())
}
