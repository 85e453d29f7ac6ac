//! Times the history lock: holds that each give an entry, by 1, 2, 4 and 7 threads on one lock and on four.
//!
//! It stands on `turn_lock`. Without an argument it makes a few holds and prints nothing, so that what it prints is the
//! same at each run. `lock_bench HOLDS` lets each thread make that many holds and prints the nanoseconds of one, from when
//! all threads are there to when the last is done. Only times are measured: the lock promises none.
#![tactic(auto)]

ghost use Rattle.std.specs.Prelude.{◌≤◌};

mod rounds;
mod tally;
mod worker;

use anyhow::{Context, Result, ensure};
use rounds::{four_locks, one_lock, two_adds};
use std::env;
use std::rt::{Clock, Env};
use std::sync::Wait;
use std::thread::Threads;

const COUNTS: [u32; 4] = [1, 2, 4, 7];

const MOST_HOLDS: u64 = 1_000_000_000;

fn print_times<R: Threads + Wait + Clock + AllocGlobal + Print + Sync>(
    rt: &R,
    holds: u64,
) -> Result<()>
    requires { (2 ≤ holds) × (holds ≤ 1000000000) }
{
    let floor = two_adds(rt, holds)?;
    println!(rt; "two fetch_adds: {floor} ns")?;
    for threads in COUNTS {
        let one = one_lock(rt, rt.alloc(), threads, holds, true)?;
        let four = four_locks(rt, rt.alloc(), threads, holds, true)?;
        println!(rt; "{threads} threads: {one} ns a hold on one lock, {four} ns on four")?;
    }
    Ok(())
}

fn main(rt: HostRuntime) -> Result<()> {
    if let Some(text) = env::args(&rt)?.nth(1) {
        let holds = text.as_str().parse::<u64>().context("HOLDS")?;
        ensure!(
            2 <= holds && holds <= MOST_HOLDS,
            "from 2 to {MOST_HOLDS} holds"
        );
        return print_times(&rt, holds);
    }
    for threads in COUNTS {
        one_lock(&rt, rt.alloc(), threads, 100, false)?;
        four_locks(&rt, rt.alloc(), threads, 100, false)?;
    }
    Ok(())
}
