//! Work that threads do on passes of their own.
//!
//! A job owns its passes and keeps its results. It stays where it is and is worked on through a `&mut`, so no pass is
//! ever moved into a thread or lost there, and nothing takes memory. What a caller knows of each job afterwards is what
//! the job's `leaves` says. That a thread of its own ran it isn't said: where none can be made, the caller runs it.
ghost use Rattle.turn_lock.specs.Jobs.{EachReady, EachDone};
ghost use denote.Param.Send.{IsSync, IsSend};

use std::sync::Wait;
use std::thread;
use std::thread::{Threads, join_mut};

/// A job that is done in place.
pub trait Work {
    // The job may be begun.
    ghost ready: { Self → Type 0 };

    // What it was before, and what it is afterwards.
    ghost leaves: { Self → Self → Type 0 };

    /// Does the job, in place.
    fn work(&mut self)
        requires { ready self.old }
        ensures { leaves self.old self.new };
}

/// What is told once that a part of the work is done.
pub trait Signal {
    /// Tells that the part is done.
    fn set<R: Wait>(&self, rt: &R);
}

/// Does two jobs, one beside the other.
pub fn work_two<R: Threads, J: Work + Send, K: Work>(rt: &R, first: &mut J, second: &mut K)
    requires first { J.ready first.old }
    requires second { K.ready second.old }
    ensures first { J.leaves first.old first.new }
    ensures second { K.leaves second.old second.new }
{
    let mut front = ||
        requires { J.ready first.now }
        ensures { J.leaves first.entry.now first.exit.now }
    { first.work() };
    let mut back = ||
        requires { K.ready second.now }
        ensures { K.leaves second.entry.now second.exit.now }
    { second.work() };
    join_mut(rt, &mut front, &mut back);
}

/// Does each job in a thread of its own, where one can be made.
pub fn work_all<R: Threads + Sync, J: Work + Send>(rt: &R, jobs: &mut [J])
    requires { EachReady J.ready jobs.old }
    ensures { EachDone J.leaves jobs.old jobs.new }
{
    let count = jobs.len();
    if count == 0 {
        return;
    }
    thread::for_each_mut(
        rt,
        jobs,
        count,
        &|_, job: &mut J|
            requires { J.ready job.old }
            ensures { J.leaves job.old job.new }
        { job.work() },
    );
}

fn lead<R: Threads + Wait + Sync, S: Signal, C: Work + Send>(rt: &R, done: &S, leaders: &mut [C])
    requires { EachReady C.ready leaders.old }
    ensures { EachDone C.leaves leaders.old leaders.new }
{
    work_all(rt, leaders);
    done.set(rt);
}

/// Does the followers' jobs beside the leaders' and sets `done` once all leaders are done. A follower that no thread
/// could be made for is run by the caller, after that.
pub fn work_beside<R: Threads + Wait + Sync, S: Signal + Sync, W: Work + Send, C: Work + Send>(
    rt: &R,
    done: &S,
    followers: &mut [W],
    leaders: &mut [C],
)
    requires followers { EachReady W.ready followers.old }
    requires leaders { EachReady C.ready leaders.old }
    ensures followers { EachDone W.leaves followers.old followers.new }
    ensures leaders { EachDone C.leaves leaders.old leaders.new }
{
    let mut front = ||
        requires { IsSync R.row × IsSend W.row × EachReady W.ready followers.now }
        ensures { EachDone W.leaves followers.entry.now followers.exit.now }
    { work_all(rt, followers) };
    let mut back = ||
        requires { IsSync R.row × IsSync S.row × IsSend C.row × EachReady C.ready leaders.now }
        ensures { EachDone C.leaves leaders.entry.now leaders.exit.now }
    { lead(rt, done, leaders) };
    join_mut(rt, &mut front, &mut back);
}
