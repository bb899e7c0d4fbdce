//! Workers' jobs.
ghost use Rattle.std.specs.Prelude.{ℕ, ◌≡◌, ◌≤◌, ◌<◌, ◌+◌, ◌*◌, ◌%◌, [], Ok, IfOk, OnOk, false, if◌then◌else◌, length, map, slice_index_or};
ghost use Rattle.std.specs.List.{All};
ghost use Rattle.std.specs.Thread.{IsSend, IsSync};
ghost use Rattle.bfd_engine.specs.Engines.{configs_at};
ghost use Rattle.bfd_replay.specs.Jobs.{Work, HasWorkedOn, HasEnded, AreOwn, seen_as};
ghost use Rattle.bfd_replay.specs.Working.{IsWorkerReady, HasLeft};
ghost use Rattle.bfd_num.specs.Counting.{IsBlankOf};

use crate::plan::Queue;
use crate::report::Part;
use crate::worker::working::all_shards;
use bfd_edge::Gate;
use bfd_engine::{Engine, EngineFault, EnginePass};
use bfd_num::Steps;
use bfd_rules::Outs;
use bfd_wheel::Timers;
use std::alloc::{AllocError, Global};
use std::marker::{Brand, Model};
use std::mem;
use std::sync::Wait;
use std::sync::ledger::{Blank, Ledger};
use std::thread::{Threads, join_mut};

/// A worker's pass, its queues by shard, and what it reported of each shard, or why it stopped.
#[derive(Drop)]
pub(crate) struct Job {
    pub(crate) pass: EnginePass,
    pub(crate) queues: Vec<Queue>,
    pub(crate) reported: Result<Vec<Part>, EngineFault>,
}

impl Model for Job {
    ghost use Rattle.std.specs.Prelude.{map};
    ghost use Rattle.bfd_replay.specs.Jobs.{Work, seen_as};

    ghost Value = { Work };

    ghost view = { λ j. record {
      pass = j.pass;
      queues = j.queues.items;
      reported = seen_as (λ parts. parts.items) j.reported;
    } };
}

/// Does a worker's queues, with room for the outputs of any event.
fn run<W: Timers, R: Wait, G: Gate, L: Ledger>(
    rt: &R,
    alloc: Global,
    engine: &Engine<W>,
    pass: &mut EnginePass,
    queues: Vec<Queue>,
    room: usize,
    gate: &G,
    blank: Blank,
) -> Result<Vec<Part>, EngineFault>
    requires ready { IsWorkerReady engine.now queues.items pass.old }
    requires room { (shard : ℕ) → 5 * length (configs_at engine.now shard) + 5 ≤ room }
    requires blank { IsBlankOf L.name L.parts blank.name blank.parts }
    ensures left { HasLeft engine.now queues.items pass.old pass.new }
    ensures ended { HasEnded engine.now queues.items
        pass.new (seen_as (λ parts. parts.items) result) }
{
    let Ok(mut outs) = Outs::make(alloc, room) else {
        return Err(EngineFault::Memory);
    };
    let mut steps = Steps::<L>::new(blank);
    all_shards(rt, alloc, engine, pass, queues, &mut outs, &mut steps, gate)
}

/// Works on one job.
fn work<W: Timers, R: Wait, G: Gate>(
    rt: &R,
    alloc: Global,
    engine: &Engine<W>,
    job: &mut Job,
    room: usize,
    gate: &G,
)
    requires ready { IsWorkerReady engine.now job.old.queues job.old.pass }
    requires room { (shard : ℕ) → 5 * length (configs_at engine.now shard) + 5 ≤ room }
    ensures { HasWorkedOn engine.now job.old job.new }
{
    let queues = mem::replace(&mut job.queues, Vec::new(alloc));
    job.reported = run::<W, R, G, Brand>(
        rt,
        alloc,
        engine,
        &mut job.pass,
        queues,
        room,
        gate,
        Blank::new(1),
    );
}

/// Works on a job in a thread of its own if one is available, and on all others alongside it.
#[cycle(workers)]
fn work_beside<W: Timers + Send, R: Threads + Wait + Sync, G: Gate + Sync>(
    rt: &R,
    alloc: Global,
    engine: &Engine<W>,
    room: usize,
    gate: &G,
    job: &mut Job,
    rest: &mut [Job],
)
    requires own { IsWorkerReady engine.now job.old.queues job.old.pass }
    requires ready { All (λ (j : Work). IsWorkerReady engine.now j.queues j.pass) rest.old }
    requires room { (shard : ℕ) → 5 * length (configs_at engine.now shard) + 5 ≤ room }
    ensures own { HasWorkedOn engine.now job.old job.new }
    ensures worked { (i : ℕ) (d : Work) → i < length rest.old
        → HasWorkedOn engine.now (slice_index_or rest.old i d) (slice_index_or rest.new i d) }
    ensures long { length rest.new ≡ length rest.old }
{
    let mut own = ||
        requires ready { IsWorkerReady engine.now job.now.queues job.now.pass }
        requires room { (shard : ℕ) → 5 * length (configs_at engine.now shard) + 5 ≤ room }
        ensures { HasWorkedOn engine.entry.now job.entry.now job.exit.now }
    { work(rt, alloc, engine, job, room, gate) };
    let mut others = ||
        requires bounds { IsSync R.row × IsSync G.row × IsSend W.row }
        requires ready { All (λ (j : Work). IsWorkerReady engine.now j.queues j.pass) rest.now }
        requires room { (shard : ℕ) → 5 * length (configs_at engine.now shard) + 5 ≤ room }
        ensures worked { (i : ℕ) (d : Work) → i < length rest.entry.now
            → HasWorkedOn engine.entry.now (slice_index_or rest.entry.now i d) (slice_index_or rest.exit.now i d) }
        ensures long { length rest.exit.now ≡ length rest.entry.now }
    { work_each(rt, alloc, engine, room, gate, rest) };
    join_mut(rt, &mut own, &mut others);
}

/// Works on all jobs in parallel, each but the last in a thread of its own if one is available. They are started one after another by this
/// thread: where threads are started by threads that were just started, two are at times set on one processor while another is idle.
#[cycle(workers)]
fn work_each<W: Timers + Send, R: Threads + Wait + Sync, G: Gate + Sync>(
    rt: &R,
    alloc: Global,
    engine: &Engine<W>,
    room: usize,
    gate: &G,
    jobs: &mut [Job],
)
    requires ready { All (λ (j : Work). IsWorkerReady engine.now j.queues j.pass) jobs.old }
    requires room { (shard : ℕ) → 5 * length (configs_at engine.now shard) + 5 ≤ room }
    ensures worked { (i : ℕ) (d : Work) → i < length jobs.old
        → HasWorkedOn engine.now (slice_index_or jobs.old i d) (slice_index_or jobs.new i d) }
    ensures long { length jobs.new ≡ length jobs.old }
{
    if let Some((job, rest)) = jobs.split_first_mut() {
        if rest.is_empty() {
            work(rt, alloc, engine, job, room, gate);
        } else {
            work_beside(rt, alloc, engine, room, gate, job, rest);
        }
    }
}

/// The same, of a list of jobs.
pub(crate) fn work_all<W: Timers + Send, R: Threads + Wait + Sync, G: Gate + Sync>(
    rt: &R,
    alloc: Global,
    engine: &Engine<W>,
    jobs: &mut Vec<Job>,
    room: usize,
    gate: &G,
)
    requires ready { All (λ (j : Work). IsWorkerReady engine.now j.queues j.pass) jobs.old.items }
    requires room { (shard : ℕ) → 5 * length (configs_at engine.now shard) + 5 ≤ room }
    ensures worked { (i : ℕ) (d : Work) → i < length jobs.old.items
        → HasWorkedOn engine.now (slice_index_or jobs.old.items i d) (slice_index_or jobs.new.items i d) }
    ensures long { length jobs.new.items ≡ length jobs.old.items }
{
    work_each(rt, alloc, engine, room, gate, jobs);
}

/// Takes a queue out where it is the worker's own, and gives an empty one where it isn't.
fn take_own(alloc: Global, queues: &mut Vec<Queue>, shard: usize, own: bool) -> Queue
    requires { shard < length queues.old.items }
    ensures taken { result ≡ (if own then slice_index_or queues.old.items shard [] else []) }
    ensures long { length queues.new.items ≡ length queues.old.items }
    ensures others { (r : ℕ) → (r ≡ shard → ⊥)
        → slice_index_or queues.new.items r [] ≡ slice_index_or queues.old.items r [] }
    ensures left { own ≡ false → queues.new.items ≡ queues.old.items }
{
    if own {
        mem::replace(&mut queues[shard], Queue::new(alloc))
    } else {
        Queue::new(alloc)
    }
}

/// The queues of the worker at this place of so many, taken out of these.
pub(crate) fn own_queues(
    alloc: Global,
    queues: &mut Vec<Queue>,
    workers: u32,
    at: u32,
) -> Result<Vec<Queue>, AllocError>
    requires some { 0 < workers }
    requires few { length queues.old.items ≤ 64 }
    ensures own { IfOk result (λ own. AreOwn workers at queues.old.items own.items) }
    ensures long { OnOk result (length queues.new.items ≡ length queues.old.items) }
    ensures others { OnOk result ((shard : ℕ) → (shard % workers ≡ at → ⊥)
        → slice_index_or queues.new.items shard [] ≡ slice_index_or queues.old.items shard []) }
{
    let mut own = Vec::new(alloc);
    for shard in 0..queues.len() {
        let mine = shard as u32 % workers == at;
        own.push(take_own(alloc, queues, shard, mine))?;
    }
    Ok(own)
}
