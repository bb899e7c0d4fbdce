//! The passes of an engine's threads, from their making to the closing of the engine.
ghost use Rattle.std.specs.Prelude.{ℕ, ◌≡◌, ◌≤◌, ◌<◌, ◌+◌, ◌*◌, IfOk, OnOk, OnErr, length, map};
ghost use Rattle.std.specs.List.{All};
ghost use Rattle.bfd_engine.specs.Engines.{configs_at};
ghost use Rattle.bfd_thread_tests.specs.Joining.{HasOpen, HasAdded, HasJoined, HasClosed};
ghost use Rattle.bfd_thread_tests.specs.Ready.{IsJobReady, number_of};

use crate::embedding::threads::{Call, Job, Saw};
use bfd_engine::{Engine, EnginePass};
use bfd_shard::ShardState;
use bfd_wheel::Timers;
use std::alloc::{AllocError, Global};

/// One more job, for one more thread: a further pass, which has seen what caller 0 has seen, with these calls, the last first, and
/// room for so many outputs of each. Fails only when out of memory. That leaves the jobs and every shard's pass as they were,
/// and may use a number up.
pub fn add_job<W: Timers>(
    alloc: Global,
    engine: &Engine<W>,
    first: &mut EnginePass,
    jobs: &mut Vec<Job>,
    calls: Vec<Call>,
    room: usize,
) -> Result<(), AllocError>
    requires passes { HasOpen engine.now first.old (map number_of jobs.old.items) }
    requires ready { All (λ (j : _). IsJobReady engine.now j) jobs.old.items }
    requires few { first.old.2 < 64 }
    requires room { (shard : ℕ) → 5 * length (configs_at engine.now shard) + 5 ≤ room }
    ensures passes { HasOpen engine.now first.new (map number_of jobs.new.items) }
    ensures ready { All (λ (j : _). IsJobReady engine.now j) jobs.new.items }
    ensures used { first.new.2 ≤ first.old.2 + 1 }
    ensures added { OnOk result (HasAdded engine.now first.old first.new jobs.old.items jobs.new.items calls.items room) }
    ensures same { OnErr result ((jobs.new.items ≡ jobs.old.items) × (first.new.1 ≡ first.old.1)) }
{
    jobs.reserve(1)?;
    let pass = engine.split(alloc, first)?;
    jobs.push_reserved(Job {
        pass,
        calls,
        saw: Vec::new(alloc),
        room,
        ended: Ok(()),
    });
    Ok(())
}

/// Joins the passes of jobs into that of caller 0, in order. Gives what each job saw.
fn join_all<W: Timers>(
    alloc: Global,
    engine: &Engine<W>,
    first: &mut EnginePass,
    jobs: Vec<Job>,
) -> Result<Vec<Vec<Saw>>, AllocError>
    requires passes { HasOpen engine.now first.old (map number_of jobs.items) }
    requires ready { All (λ (j : _). IsJobReady engine.now j) jobs.items }
    ensures joined { IfOk result (λ _. HasJoined engine.now first.old first.new jobs.items) }
    ensures saw { IfOk result (λ list. map (λ saw. saw.items) list.items ≡ map (λ (j : _). j.saw.items) jobs.items) }
{
    let mut list = Vec::with_capacity(alloc, jobs.len())?;
    for job in jobs {
        let Job { pass, saw, .. } = job;
        engine.join(first, pass);
        list.push_reserved(saw);
    }
    Ok(list)
}

/// Joins the passes of all jobs, and closes the engine: the shards by number, and what each job saw. Fails only when out of
/// memory, and the engine is gone then.
pub fn finish<W: Timers>(
    alloc: Global,
    engine: Engine<W>,
    first: EnginePass,
    jobs: Vec<Job>,
) -> Result<(Vec<ShardState<W>>, Vec<Vec<Saw>>), AllocError>
    requires passes { HasOpen engine first (map number_of jobs.items) }
    requires ready { All (λ (j : _). IsJobReady engine j) jobs.items }
    ensures shards { IfOk result (λ r. HasClosed engine first jobs.items r.0.items) }
    ensures saw { IfOk result (λ r. map (λ saw. saw.items) r.1.items ≡ map (λ (j : _). j.saw.items) jobs.items) }
{
    let shards = Vec::with_capacity(alloc, engine.shards() as usize)?;
    let mut first = first;
    let list = join_all(alloc, &engine, &mut first, jobs)?;
    Ok((engine.close(first, shards), list))
}
