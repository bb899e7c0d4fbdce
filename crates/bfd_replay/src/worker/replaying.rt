//! A replay on shards, by several workers.
ghost use Rattle.std.specs.Prelude.{ℕ, ◌≡◌, ◌≤◌, ◌<◌, List, IfOk, OnOk, length, map};
ghost use Rattle.std.specs.Io.KnownBytes.{Appends};
ghost use Rattle.bfd_edge.specs.Faults.{HasCause};
ghost use Rattle.bfd_replay.specs.Happenings.{AreParts, Happening, happening_outcomes};
ghost use Rattle.bfd_instance.specs.World.{replayed};
ghost use Rattle.bfd_script.specs.Report as script;
ghost use Rattle.bfd_script.specs.Sound.{IsScript};
ghost use Rattle.bfd_session.specs.Kinds.{Running};
ghost use Rattle.bfd_replay.specs.Written.{TookFront};
ghost use Rattle.bfd_session.specs.Step.{started};
ghost use Rattle.bfd_instance.specs.Stage.{IsTable};
ghost use Rattle.bfd_replay.specs.Planned.{happenings, script_with};
ghost use Rattle.bfd_replay.specs.Counts.{counts_of};
ghost use Rattle.bfd_replay.specs.Replayed.{HasTotals, HaveReplayed, worker_of};

use crate::counting::{Replayed, up_all};
use crate::plan::{Plan, longest};
use crate::report::{Counts, Part, report_by_threads, write_each};
use crate::worker::beginning::begun;
use crate::worker::finish::in_order;
use crate::worker::running::run_all;
use bfd_edge::{Fault, Gate, Sink};
use bfd_engine::Engine;
use bfd_sbfd::Reflector;
use bfd_script::Script;
use bfd_script::line::Line;
use bfd_session::SessionConfig;
use bfd_shard::ShardState;
use bfd_wheel::Timers;
use std::alloc::{AllocError, Global};
use std::snapshot::Snapshot;
use std::sync::Wait;
use std::thread;
use std::thread::{JoinHandle, Threads};

/// The parts of a script's report, and the closed shards.
fn worked<W: Timers + Send, R: Threads + Wait + Sync, G: Gate + Sync>(
    rt: &R,
    alloc: Global,
    configs: Vec<SessionConfig>,
    pool: Vec<Reflector>,
    events: Vec<Line>,
    shards: u32,
    workers: u32,
    gate: &G,
) -> Result<(Vec<Part>, Vec<ShardState<W>>), AllocError>
    requires table { IsTable configs.items pool.items }
    requires few { length events.items ≤ 200000 }
    requires shards { (0 < shards) × (shards ≤ 64) }
    requires workers { (0 < workers) × (workers ≤ 64) }
    ensures parts { IfOk result (λ r. AreParts shards 1 0 (happenings configs.items pool.items events.items)
        (map started configs.items) r.0.items) }
    ensures states { IfOk result (λ r. HaveReplayed (script_with configs.items pool.items events.items)
        shards (worker_of workers) r.1.items) }
{
    let room = 5 * configs.len() + 5;
    let (made, plan) = begun(rt, alloc, &configs, pool, events, shards, workers)?;
    drop(configs);
    let Plan {
        table,
        queues,
        apart,
    } = plan;
    let most = longest(&queues);
    let (engine, first) = Engine::of_shards(rt, alloc, table, made, most)?;
    let (states, all) = run_all(rt, alloc, engine, first, queues, workers, room, gate)?;
    let parts = in_order(alloc, all, shards, apart)?;
    Ok((parts, states))
}

/// Frees shards in a thread of its own, and gives that thread; if none is available, before it returns.
fn free<W: Timers + Send + 'static, R: Threads>(
    rt: &R,
    states: Vec<ShardState<W>>,
) -> Option<JoinHandle<()>> {
    let freeing = thread::spawn(rt, move || {
        let _states = states;
    });
    freeing.ok()
}

/// Waits for the thread, if there is one.
fn join<R: Threads>(rt: &R, thread: Option<JoinHandle<()>>) {
    if let Some(thread) = thread {
        thread.join(rt);
    }
}

/// Writes the report of so many events, which is put together by up to four threads; the shards are freed meanwhile.
fn write_report<W: Timers + Send + 'static, R: Threads + Sync, K: Sink>(
    rt: &R,
    alloc: Global,
    parts: Vec<Part>,
    states: Vec<ShardState<W>>,
    events: u64,
    sink: &mut K,
) -> Result<Counts, Fault>
    ensures whole { (shards last : ℕ) (happenings : List Happening) (sessions : List Running)
        → length happenings ≡ events
        → AreParts shards 1 last happenings sessions parts.items
        → OnOk result (Appends (K.taken sink.old) (K.taken sink.new)
        (script.report (happening_outcomes last happenings sessions))) }
    ensures front { (shards last : ℕ) (happenings : List Happening) (sessions : List Running)
        → length happenings ≡ events
        → AreParts shards 1 last happenings sessions parts.items
        → TookFront (K.taken sink.old) (K.taken sink.new)
        (script.report (happening_outcomes last happenings sessions)) }
    ensures counts { (shards last : ℕ) (happenings : List Happening) (sessions : List Running)
        → length happenings ≡ events
        → AreParts shards 1 last happenings sessions parts.items
        → IfOk result (λ counts. counts ≡ counts_of (happening_outcomes last happenings sessions)) }
    ensures cause { HasCause (K.faults sink.old) (K.faults sink.new) result }
    ensures calm { OnOk result (K.faults sink.new ≡ K.faults sink.old) }
{
    let Ok((texts, counts)) = report_by_threads(rt, alloc, parts, events) else {
        return Err(Fault::Memory);
    };
    let freeing = free(rt, states);
    let written = write_each(sink, texts.as_slice());
    join(rt, freeing);
    match written {
        Ok(()) => Ok(counts),
        Err(fault) => Err(fault),
    }
}

/// The same replay, whose report is put together by up to four threads and then written to the sink; the shards with their journals are
/// freed meanwhile. It is refused as Failed where the sink failed, and as Memory when out of memory, here or in the sink, or at 2^64
/// packets sent or dropped; the sink accepted a prefix of the report then. Its counts come back,
/// and for clauses what the closed shards were.
#[tactic(auto, using(crate::proofs::Worlds::is_table))]
pub(crate) fn replay_by_workers<
    W: Timers + Send + 'static,
    R: Threads + Wait + Sync,
    G: Gate + Sync,
    K: Sink,
>(
    rt: &R,
    alloc: Global,
    script: Script,
    shards: u32,
    workers: u32,
    gate: &G,
    sink: &mut K,
) -> Result<Replayed<W>, Fault>
    requires script { IsScript script }
    requires shards { (0 < shards) × (shards ≤ 64) }
    requires workers { (0 < workers) × (workers ≤ 64) }
    ensures whole { OnOk result (Appends (K.taken sink.old) (K.taken sink.new) (replayed script)) }
    ensures front { TookFront (K.taken sink.old) (K.taken sink.new) (replayed script) }
    ensures states { IfOk result (λ r. HaveReplayed script shards (worker_of workers) r.closed.value.items) }
    ensures totals { IfOk result (λ r. HasTotals script r.counts r.up) }
    ensures cause { HasCause (K.faults sink.old) (K.faults sink.new) result }
    ensures calm { OnOk result (K.faults sink.new ≡ K.faults sink.old) }
{
    let Script {
        configs,
        pool,
        events,
    } = script;
    let count = events.len() as u64;
    let Ok((parts, states)) = worked::<W, R, G>(
        rt, alloc, configs, pool, events, shards, workers, gate,
    ) else {
        return Err(Fault::Memory);
    };
    let closed = Snapshot::of(&states);
    let up = up_all(&states);
    match write_report(rt, alloc, parts, states, count, sink) {
        Ok(counts) => Ok(Replayed { counts, up, closed }),
        Err(fault) => Err(fault),
    }
}
