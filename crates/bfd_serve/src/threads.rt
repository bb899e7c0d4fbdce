//! Workers and the timer in parallel, each in a thread.
ghost use Rattle.std.specs.Prelude.{◌≡◌, ◌<◌, ℕ, false, length, slice_index_or};
ghost use Rattle.std.specs.List.{All};
ghost use Rattle.bfd_engine.specs.Engines.{IsOf, AllThere};
ghost use Rattle.bfd_serve.specs.Jobs.{IsReady, IsWorked};
ghost use Rattle.bfd_serve.specs.Serves.{IsTended};

use crate::ending::End;
use crate::jobs::{Job, work};
use crate::timing::timer;
use bfd_edge::{Gate, Link, Ticker};
use bfd_engine::{Engine, EnginePass};
use bfd_script::line::Line;
use bfd_wheel::Timers;
use std::alloc::Global;
use std::sync::Wait;
use std::thread;
use std::thread::{Threads, join_mut};

/// Works on all jobs, at most 64, in parallel.
fn work_all<W: Timers + Send, L: Link + Send, G: Gate + Sync, R: Threads + Wait + Sync>(
    rt: &R,
    alloc: Global,
    engine: &Engine<W>,
    jobs: &mut [Job<L>],
    gate: &G,
    turns: u64,
)
    requires { All (IsReady L.observed engine.now) jobs.old }
    ensures worked { (at : ℕ) (d : _) → at < length jobs.old
        → IsWorked L.observed engine.now turns (slice_index_or jobs.old at d) (slice_index_or jobs.new at d) }
    ensures long { length jobs.new ≡ length jobs.old }
{
    thread::for_each_mut(
        rt,
        jobs,
        64,
        &|_, job: &mut Job<L>|
            requires { IsReady L.observed engine.now job.now }
            ensures { IsWorked L.observed engine.entry.now turns job.entry.now job.exit.now }
        { work(rt, alloc, engine, job, gate, turns) },
    );
}

/// The timer alongside the workers: how it ended, and how many sends it lost.
pub(crate) fn beside<
    W: Timers + Send,
    L: Link + Send,
    T: Ticker + Send,
    G: Gate + Sync,
    R: Threads + Wait + Sync,
>(
    rt: &R,
    alloc: Global,
    engine: &Engine<W>,
    first: &mut EnginePass,
    own: &mut L,
    ticker: &mut T,
    jobs: &mut [Job<L>],
    gate: &G,
    orders: &[Line],
    turns: u64,
    ticks: u64,
) -> (End, u64)
    requires of { IsOf engine.now first.old.1 }
    requires there { AllThere first.old.1 }
    requires open { (T.observed ticker.old).over ≡ false }
    requires jobs { All (IsReady L.observed engine.now) jobs.old }
    ensures tended { IsTended engine.now first.old first.new (L.observed own.old) (L.observed own.new) (T.observed ticker.old)
        (T.observed ticker.new) orders.now ticks result.0 result.1 }
    ensures long { length jobs.new ≡ length jobs.old }
    ensures worked { (at : ℕ) (d : _) → at < length jobs.old
        → IsWorked L.observed engine.now turns (slice_index_or jobs.old at d) (slice_index_or jobs.new at d) }
{
    let mut worked = ||
        requires { All (IsReady L.observed engine.now) jobs.now }
        ensures worked { (at : ℕ) (d : _) → at < length jobs.entry.now
            → IsWorked L.observed engine.entry.now turns (slice_index_or jobs.entry.now at d)
            (slice_index_or jobs.exit.now at d) }
        ensures long { length jobs.exit.now ≡ length jobs.entry.now }
    { work_all(rt, alloc, engine, jobs, gate, turns) };
    let mut timed = || -> (End, u64)
        requires { IsOf engine.now first.now.1 × AllThere first.now.1 × ((T.observed ticker.now).over ≡ false) }
        ensures { IsTended engine.entry.now first.entry.now first.exit.now (L.observed own.entry.now) (L.observed own.exit.now)
            (T.observed ticker.entry.now) (T.observed ticker.exit.now) orders.entry.now ticks result.0 result.1 }
    { timer(rt, alloc, engine, first, own, ticker, orders, ticks) };
    let (ended, _) = join_mut(rt, &mut timed, &mut worked);
    ended
}
