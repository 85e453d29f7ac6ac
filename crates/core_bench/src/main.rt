//! Times one stripe, which it drives by hand: loads and stores of resident pages, fills with evictions, last writes, and the
//! steps that look for a page or a fault.
//!
//! It stands on `stripe_core`. Without arguments it makes a few of each and prints nothing, so that what it prints is the same
//! at each run. Else it prints nanoseconds, of all calls of a kind together:
//!
//! - `core_bench spread BYTES ROUNDS` and `core_bench together BYTES ROUNDS`: of loads, and of stores, of that many bytes of
//!   each of 64 pages in each round, at spread places of the pages or at their fronts;
//! - `core_bench fills FRAMES FILLS`: of fills behind the eviction of a clean page, and of a dirty one;
//! - `core_bench last PAGES`: of the writes of so many dirty pages, filled in order and scattered;
//! - `core_bench steps EACH STRIPES CALLS`: of `pick`, `next`, `next` where a fault is lost, and steps of an unmapping, each behind its
//!   number of calls, in so many stripes with so many resident pages of each of 64 regions.
//!
//! Only times are measured: the core promises none. The crate's tests are worked histories of a stripe.
#![tactic(auto)]

ghost use Rattle.std.specs.Prelude.{◌*◌, ◌≤◌, IfOk};
ghost use Rattle.page_base.specs.declared.limits.TheConstants.{MOST_PAGES};
ghost use Rattle.core_bench.specs.declared.steps.TheConstants.{MOST_EACH};

mod asked;
mod calls;
mod fills;
mod flushes;
mod hand;
mod meanwhile;
mod memory;
mod rounds;
mod steps;
mod sweeps;
#[cfg(test)]
mod tests;
#[cfg(test)]
mod timed_tests;
mod unmaps;

use anyhow::{Context, Result, bail, ensure};
use fills::time_fills;
use flushes::time_flushes;
use rounds::time_accesses;
use std::env;
use std::rt::Clock;
use steps::{MOST_EACH, Timed, time_steps};

const PAGE_SIZE: u32 = 4096;

const MOST_CALLS: u32 = 1_000_000_000;

/// The most frames that are filled or flushed: there may be twice as many pages.
const MOST_SIZE: u32 = 524_288;

const USAGE: &str =
    "usage: core_bench [spread|together BYTES ROUNDS | fills FRAMES FILLS | last PAGES | steps EACH STRIPES CALLS]";

/// A few of each kind.
fn make_few<R: Clock + AllocGlobal>(rt: &R) -> Result<()> {
    let _spread = time_accesses(rt, rt.alloc(), PAGE_SIZE, 64, 1, true)?;
    let _together = time_accesses(rt, rt.alloc(), PAGE_SIZE, 64, 1, false)?;
    let _fills = time_fills(rt, rt.alloc(), 4, 8)?;
    let _last = time_flushes(rt, rt.alloc(), 8)?;
    let _steps = time_steps(rt, rt.alloc(), 1, 1, 1)?;
    Ok(())
}

/// The number of a word, from 1 to the most.
fn number(word: Option<&str>, name: &str, most: u32) -> Result<u32>
    ensures some { IfOk result (λ n. 1 ≤ n) }
    ensures few { IfOk result (λ n. n ≤ most) }
{
    let Some(word) = word else {
        bail!("{USAGE}");
    };
    let n = word.parse::<u32>().context(format_args!("{name}"))?;
    ensure!(1 <= n && n <= most, "{name} is from 1 to {most}");
    Ok(n)
}

/// Prints the times of accesses at spread places, or at one.
fn print_accesses<R: Clock + AllocGlobal + Print>(
    rt: &R,
    bytes: u32,
    rounds: u32,
    spread: bool,
) -> Result<()> {
    let times = time_accesses(rt, rt.alloc(), PAGE_SIZE, bytes, u64::from(rounds), spread)?;
    println!(rt; "{} {}", times.loads, times.saves)?;
    Ok(())
}

fn print_fills<R: Clock + AllocGlobal + Print>(rt: &R, frames: u32, fills: u32) -> Result<()>
    requires some { 1 ≤ frames }
    requires few { 2 * frames ≤ MOST_PAGES }
{
    let times = time_fills(rt, rt.alloc(), frames, fills)?;
    println!(rt; "{} {}", times.clean, times.dirty)?;
    Ok(())
}

fn print_last<R: Clock + AllocGlobal + Print>(rt: &R, pages: u32) -> Result<()>
    requires some { 1 ≤ pages }
    requires few { pages ≤ MOST_PAGES }
{
    let times = time_flushes(rt, rt.alloc(), pages)?;
    println!(rt; "{} {}", times.in_order, times.scattered)?;
    Ok(())
}

fn print_steps<R: Clock + AllocGlobal + Print>(
    rt: &R,
    each: u32,
    stripes: u32,
    calls: u32,
) -> Result<()>
    requires some { 1 ≤ each }
    requires few { each ≤ MOST_EACH }
{
    let times = time_steps(rt, rt.alloc(), each, stripes, calls)?;
    for Timed { calls, nanos } in [times.picks, times.nexts, times.lost, times.unmaps] {
        println!(rt; "{calls} {nanos}")?;
    }
    Ok(())
}

fn main(rt: HostRuntime) -> Result<()> {
    let mut words = env::args(&rt)?.skip(1);
    let Some(kind) = words.next() else {
        return make_few(&rt);
    };
    let first = words.next();
    let second = words.next();
    let third = words.next();
    ensure!(words.next().is_none(), "{USAGE}");
    let first = first.as_ref().map(|word| word.as_str());
    let second = second.as_ref().map(|word| word.as_str());
    let third = third.as_ref().map(|word| word.as_str());
    match kind.as_str() {
        "spread" | "together" if third.is_none() => {
            let bytes = number(first, "BYTES", PAGE_SIZE)?;
            let rounds = number(second, "ROUNDS", MOST_CALLS)?;
            print_accesses(&rt, bytes, rounds, kind.as_str() == "spread")
        }
        "fills" if third.is_none() => {
            let frames = number(first, "FRAMES", MOST_SIZE)?;
            let fills = number(second, "FILLS", MOST_CALLS)?;
            print_fills(&rt, frames, fills)
        }
        "last" if second.is_none() => {
            let pages = number(first, "PAGES", MOST_SIZE)?;
            print_last(&rt, pages)
        }
        "steps" => {
            let each = number(first, "EACH", MOST_EACH)?;
            let stripes = number(second, "STRIPES", MOST_CALLS)?;
            let calls = number(third, "CALLS", MOST_CALLS)?;
            print_steps(&rt, each, stripes, calls)
        }
        _ => bail!("{USAGE}"),
    }
}
