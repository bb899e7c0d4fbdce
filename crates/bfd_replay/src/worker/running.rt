//! The engine of a replay, from its opening to its closing.
ghost use Rattle.std.specs.Prelude.{ℕ, ◌≡◌, ◌≤◌, ◌<◌, ◌+◌, ◌*◌, [], IfOk, length, map, slice_index_or};
ghost use Rattle.bfd_engine.specs.Engines.{configs_at};
ghost use Rattle.bfd_engine.specs.Opening.{IsNewPass};
ghost use Rattle.bfd_replay.specs.Ends.{AreStates, AreReported};
ghost use Rattle.bfd_replay.specs.Working.{AreMet};

use crate::plan::Queue;
use crate::report::Part;
use crate::worker::finish::all_parts;
use crate::worker::jobs::work_all;
use crate::worker::passes::{deal_jobs, join_all};
use bfd_edge::Gate;
use bfd_engine::{Engine, EnginePass};
use bfd_shard::ShardState;
use bfd_wheel::Timers;
use std::alloc::{AllocError, Global};
use std::sync::Wait;
use std::thread::Threads;

/// The queues of an engine's shards, done by so many workers: the closed shards, and what each worker reported of each shard. Fails only
/// when out of memory.
pub(crate) fn run_all<W: Timers + Send, R: Threads + Wait + Sync, G: Gate + Sync>(
    rt: &R,
    alloc: Global,
    engine: Engine<W>,
    first: EnginePass,
    queues: Vec<Queue>,
    workers: u32,
    room: usize,
    gate: &G,
) -> Result<(Vec<ShardState<W>>, Vec<Vec<Part>>), AllocError>
    requires new { IsNewPass engine first }
    requires workers { (0 < workers) × (workers ≤ 64) }
    requires locks { (0 < length engine.locks) × (length engine.locks ≤ 64) }
    requires long { length queues.items ≡ length engine.locks }
    requires met { (s : ℕ) → s < length engine.locks
        → AreMet engine s (slice_index_or queues.items s []) }
    requires room { (s : ℕ) → 5 * length (configs_at engine s) + 5 ≤ room }
    requires short { (s : ℕ) → length (slice_index_or queues.items s []) ≤ engine.limit }
    requires small { engine.limit ≤ 200000 }
    ensures states { IfOk result (λ r. AreStates engine queues.items workers r.0.items) }
    ensures reported { IfOk result (λ r. AreReported engine queues.items
        workers (map (λ parts. parts.items) r.1.items)) }
{
    let states = Vec::with_capacity(alloc, engine.shards() as usize)?;
    let mut first = first;
    let mut jobs = deal_jobs(alloc, &engine, &mut first, queues, workers)?;
    work_all(rt, alloc, &engine, &mut jobs, room, gate);
    let worker_parts = join_all(alloc, &engine, &mut first, jobs)?;
    let states = engine.close(first, states);
    let all = all_parts(alloc, worker_parts)?;
    Ok((states, all))
}
