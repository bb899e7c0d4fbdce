//! A run of workers over links alongside a timer.
ghost use Rattle.std.specs.Prelude.{◌≡◌, ◌<◌, ◌≤◌, ◌+◌, ◌++◌, ◌∷◌, ℕ, [], false, length, map, IfOk, IfErr, vec_capacity};
ghost use Rattle.std.specs.List.{All, sum};
ghost use Rattle.bfd_edge.specs.Faults.{risen};
ghost use Rattle.bfd_engine.specs.Engines.{IsOf, AllThere};
ghost use Rattle.bfd_engine.specs.Opening.{IsNewPass};
ghost use Rattle.bfd_serve.specs.Jobs.{IsOpen, pass_of, link_of, end_of_job, lost_of};
ghost use Rattle.bfd_serve.specs.Joins.{HasSplit, IsUnserved};
ghost use Rattle.bfd_serve.specs.Serves.{HasServed};

use crate::ending::End;
use crate::jobs::Job;
use crate::passes::{join_all, split_all};
use crate::threads::beside;
use bfd_edge::{Gate, Link, Ticker};
use bfd_engine::{Engine, EnginePass};
use bfd_script::line::Line;
use bfd_wheel::Timers;
use std::alloc::{AllocError, Global};
use std::sync::Wait;
use std::thread::Threads;

/// How long a run may be.
#[derive(Clone, Copy, Debug, PartialEq, Eq)]
pub struct Limits {
    /// The turns of each worker.
    pub turns: u64,

    /// The ticks of the timer.
    pub ticks: u64,
}

/// What a run leaves.
#[derive(Drop)]
pub struct Served<L> {
    /// The workers' links, in the order in which they were handed in.
    pub links: Vec<L>,

    /// How the timer ended, and then each worker.
    pub ends: Vec<End>,

    /// How many sends failed, of all callers.
    pub lost: u64,
}

/// What has to be present before anybody works.
#[derive(Drop)]
struct Room<L> {
    jobs: Vec<Job<L>>,
    links: Vec<L>,
    ends: Vec<End>,
    passes: Vec<EnginePass>,
}

/// Room for so many workers.
fn reserve<L: Drop>(alloc: Global, count: usize) -> Result<Room<L>, AllocError>
    requires few { count ≤ 64 }
    ensures jobs { IfOk result (λ r. (r.jobs.items ≡ []) × (count ≤ vec_capacity r.jobs)) }
    ensures links { IfOk result (λ r. (r.links.items ≡ []) × (count ≤ vec_capacity r.links)) }
    ensures ends { IfOk result (λ r. (r.ends.items ≡ []) × (count + 1 ≤ vec_capacity r.ends)) }
    ensures passes { IfOk result (λ r. (r.passes.items ≡ []) × (count ≤ vec_capacity r.passes)) }
{
    Ok(Room {
        jobs: Vec::with_capacity(alloc, count)?,
        links: Vec::with_capacity(alloc, count)?,
        ends: Vec::with_capacity(alloc, count + 1)?,
        passes: Vec::with_capacity(alloc, count)?,
    })
}

/// A job for each link and pass.
fn pair_up<L: Drop>(links: Vec<L>, passes: Vec<EnginePass>, jobs: Vec<Job<L>>) -> Vec<Job<L>>
    requires long { length passes.items ≡ length links.items }
    requires none { jobs.items ≡ [] }
    requires room { length links.items ≤ vec_capacity jobs }
    ensures passes { map pass_of result.items ≡ passes.items }
    ensures links { map link_of result.items ≡ links.items }
{
    let mut passes = passes;
    let mut jobs = jobs;
    for link in links {
        let pass = passes.remove(0);
        jobs.push_reserved(Job {
            pass,
            link,
            end: End::Memory,
            lost: 0,
        });
    }
    jobs
}

/// The parts of the jobs, each kind in order.
fn take_apart<L: Drop>(
    jobs: Vec<Job<L>>,
    passes: Vec<EnginePass>,
    links: Vec<L>,
    ends: Vec<End>,
    lost: u64,
) -> (Vec<EnginePass>, Served<L>)
    requires none { (passes.items ≡ []) × (links.items ≡ []) }
    requires passes { length jobs.items ≤ vec_capacity passes }
    requires links { length jobs.items ≤ vec_capacity links }
    requires ends { length ends.items + length jobs.items ≤ vec_capacity ends }
    ensures passes { result.0.items ≡ map pass_of jobs.items }
    ensures links { result.1.links.items ≡ map link_of jobs.items }
    ensures ends { result.1.ends.items ≡ ends.items ++ map end_of_job jobs.items }
    ensures lost { result.1.lost ≡ risen lost (sum (map lost_of jobs.items)) }
{
    let mut passes = passes;
    let mut links = links;
    let mut ends = ends;
    let mut lost = lost;
    for job in jobs {
        let Job {
            pass,
            link,
            end,
            lost: missing,
        } = job;
        passes.push_reserved(pass);
        links.push_reserved(link);
        ends.push_reserved(end);
        lost = lost.saturating_add(missing);
    }
    (passes, Served { links, ends, lost })
}

/// Works with the passes, and joins them.
fn run_all<
    W: Timers + Send,
    L: Link + Send + Drop,
    T: Ticker + Send,
    G: Gate + Sync,
    R: Threads + Wait + Sync,
>(
    rt: &R,
    alloc: Global,
    engine: &Engine<W>,
    first: &mut EnginePass,
    own: &mut L,
    links: Vec<L>,
    passes: Vec<EnginePass>,
    room: Room<L>,
    ticker: &mut T,
    gate: &G,
    orders: &[Line],
    limits: Limits,
) -> Served<L>
    requires split { HasSplit engine.now first.old passes.items (length links.items) }
    requires clock { (T.observed ticker.old).over ≡ false }
    requires open { All (IsOpen L.observed) links.items }
    requires jobs { (room.jobs.items ≡ []) × (length links.items ≤ vec_capacity room.jobs) }
    requires back { (room.links.items ≡ []) × (length links.items ≤ vec_capacity room.links) }
    requires ends { (room.ends.items ≡ []) × (length links.items + 1 ≤ vec_capacity room.ends) }
    requires done { (room.passes.items ≡ []) × (length links.items ≤ vec_capacity room.passes) }
    ensures of { IsOf engine.now first.new.1 }
    ensures there { AllThere first.new.1 }
    ensures number { first.new.0 ≡ 0 }
    ensures served { HasServed L.observed engine.now first.new (L.observed own.old) (L.observed own.new) (T.observed ticker.old)
        (T.observed ticker.new) orders.now limits links.items result.links.items result.ends.items result.lost }
{
    let Room {
        jobs,
        links: back,
        ends,
        passes: done,
    } = room;
    let mut ends = ends;
    let mut jobs = pair_up(links, passes, jobs);
    let (end, lost) = beside(
        rt,
        alloc,
        engine,
        first,
        own,
        ticker,
        &mut jobs,
        gate,
        orders,
        limits.turns,
        limits.ticks,
    );
    ends.push_reserved(end);
    let (done, served) = take_apart(jobs, done, back, ends, lost);
    join_all(engine, first, done);
    served
}

/// Runs a worker over each link alongside the timer, all in parallel, each in a thread. It may wait.
///
/// The timer is caller 0, with the pass that the engine was opened with and a link of its own; worker i is caller i, counted from
/// 1. When it returns, every pass that it split is joined to that of caller 0, which then keeps each worker's calls. Fails only
/// when out of memory before any of them starts: that returns the links, and uses up the numbers of the passes that were
/// split. There are at most 64 links.
pub fn serve<
    W: Timers + Send,
    L: Link + Send + Drop,
    T: Ticker + Send,
    G: Gate + Sync,
    R: Threads + Wait + Sync,
>(
    rt: &R,
    alloc: Global,
    engine: &Engine<W>,
    first: &mut EnginePass,
    own: &mut L,
    links: Vec<L>,
    ticker: &mut T,
    gate: &G,
    orders: &[Line],
    limits: Limits,
) -> Result<Served<L>, Vec<L>>
    requires new { IsNewPass engine.now first.old }
    requires few { length links.items ≤ 64 }
    requires clock { (T.observed ticker.old).over ≡ false }
    requires open { All (IsOpen L.observed) links.items }
    ensures of { IsOf engine.now first.new.1 }
    ensures there { AllThere first.new.1 }
    ensures number { first.new.0 ≡ 0 }
    ensures served { IfOk result (λ served. HasServed L.observed engine.now first.new (L.observed own.old) (L.observed own.new)
        (T.observed ticker.old) (T.observed ticker.new)
        orders.now limits links.items served.links.items served.ends.items served.lost) }
    ensures refused { IfErr result (λ back. (back.items ≡ links.items) × IsUnserved engine.now first.new
        × (L.observed own.new ≡ L.observed own.old) × (T.observed ticker.new ≡ T.observed ticker.old)) }
{
    let count = links.len();
    let Ok(room) = reserve(alloc, count) else {
        return Err(links);
    };
    let Ok(passes) = split_all(engine, alloc, first, count) else {
        return Err(links);
    };
    Ok(run_all(
        rt, alloc, engine, first, own, links, passes, room, ticker, gate, orders, limits,
    ))
}
