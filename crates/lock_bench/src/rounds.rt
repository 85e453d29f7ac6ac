//! One measurement: locks, workers, and the time that they take.
ghost use Rattle.std.specs.Prelude.{◌≤◌, ◌<◌, ◌^◌, IfOk};
ghost use Rattle.turn_lock.specs.Seen.{IsPassOf};

use crate::tally::{Counts, Tally};
use crate::worker::{Station, Worker};
use anyhow::{Context, Result, anyhow};
use std::alloc::Global;
use std::rt::Clock;
use std::sync::atomic::{AtomicU64, Ordering};
use std::sync::{Barrier, Wait};
use std::thread::Threads;
use std::time::Instant;
use turn_lock::{Pass, TurnLock, work_all};

// A lock for so many threads beside its first pass.
fn fresh(alloc: Global, threads: u32, holds: u64) -> Result<(TurnLock<Tally>, Pass<Tally>)>
    requires threads { threads < 64 }
    requires holds { (2 ≤ holds) × (holds ≤ 2 ^ 40) }
    ensures { IfOk result (λ r. IsPassOf r.0 r.1) }
{
    let counts = Box::new(
        alloc,
        Counts {
            visits: 0,
            others: [0; 63],
        },
    )
    .map_err(|_| anyhow!("out of memory"))?;
    match TurnLock::new(alloc, Tally { counts }, threads + 1, holds) {
        Ok(made) => Ok(made),
        Err(_) => Err(anyhow!("out of memory")),
    }
}

// Nanoseconds of one of so many.
fn each_of(nanos: u128, count: u128) -> u128 {
    if count == 0 { 0 } else { nanos / count }
}

// Workers with a station at each lock.
fn workers_at<'r, 'a, R>(
    rt: &'r R,
    start: &'r Barrier,
    alloc: Global,
    desks: &mut [Station<'a>],
    threads: u32,
    holds: u64,
) -> Result<Vec<Worker<'r, 'a, R>>> {
    let mut workers = Vec::new(alloc);
    for _ in 0..threads {
        let mut stations = Vec::new(alloc);
        for desk in desks.iter_mut() {
            stations.push(desk.beside()?)?;
        }
        workers.push(Worker {
            rt,
            start,
            stations,
            holds,
            nanos: None,
        })?;
    }
    Ok(workers)
}

// The time of the slowest worker, none where a clock failed.
fn longest<'r, 'a, R>(workers: &[Worker<'r, 'a, R>]) -> Option<u128> {
    let mut most = 0;
    for worker in workers {
        most = most.max(worker.nanos?);
    }
    Some(most)
}

// The nanoseconds of a hold, where so many threads make so many holds each at these locks in turn. Where they are to start
// together, each waits for the others, so that the starting of threads isn't timed.
fn time_at<'a, R: Threads + Wait + Clock + Sync>(
    rt: &R,
    alloc: Global,
    desks: &mut [Station<'a>],
    threads: u32,
    holds: u64,
    together: bool,
) -> Result<u128> {
    let start = Barrier::new(if together { threads as usize } else { 1 });
    let mut workers = workers_at(rt, &start, alloc, desks, threads, holds)?;
    work_all(rt, workers.as_mut_slice());
    let nanos = longest(workers.as_slice()).context("the clock failed")?;
    Ok(each_of(nanos, u128::from(holds) * u128::from(threads)))
}

/// The nanoseconds of a hold, where so many threads make so many holds each on one lock, all from one moment on where they
/// are to start together.
pub fn one_lock<R: Threads + Wait + Clock + Sync>(
    rt: &R,
    alloc: Global,
    threads: u32,
    holds: u64,
    together: bool,
) -> Result<u128>
    requires threads { threads < 64 }
    requires holds { (2 ≤ holds) × (holds ≤ 2 ^ 40) }
{
    let (lock, first) = fresh(alloc, threads, holds)?;
    let mut desks = [Station::new(&lock, first)];
    time_at(rt, alloc, &mut desks, threads, holds, together)
}

/// The same on four locks, which each thread holds in turn.
pub fn four_locks<R: Threads + Wait + Clock + Sync>(
    rt: &R,
    alloc: Global,
    threads: u32,
    holds: u64,
    together: bool,
) -> Result<u128>
    requires threads { threads < 64 }
    requires holds { (2 ≤ holds) × (holds ≤ 2 ^ 40) }
{
    let (north, at_north) = fresh(alloc, threads, holds)?;
    let (east, at_east) = fresh(alloc, threads, holds)?;
    let (south, at_south) = fresh(alloc, threads, holds)?;
    let (west, at_west) = fresh(alloc, threads, holds)?;
    let mut desks = [
        Station::new(&north, at_north),
        Station::new(&east, at_east),
        Station::new(&south, at_south),
        Station::new(&west, at_west),
    ];
    time_at(rt, alloc, &mut desks, threads, holds, together)
}

/// The nanoseconds of two sequentially consistent adds to words of one thread: the floor of a hold.
pub fn two_adds<R: Clock>(rt: &R, count: u64) -> Result<u128> {
    let tickets = AtomicU64::new(0);
    let serving = AtomicU64::new(0);
    let start = Instant::now(rt)?;
    for _ in 0..count {
        tickets.fetch_add(1, Ordering::SeqCst);
        serving.fetch_add(1, Ordering::SeqCst);
    }
    let nanos = start.elapsed(rt)?.as_nanos();
    Ok(each_of(nanos, u128::from(count)))
}
