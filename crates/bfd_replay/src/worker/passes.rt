//! The workers' passes, from their making to the closing of the engine.
ghost use Rattle.std.specs.Prelude.{ℕ, ◌≡◌, ◌≤◌, ◌<◌, ◌+◌, ◌*◌, [], IfOk, length, map, slice_get, Some};
ghost use Rattle.bfd_engine.specs.Engines.{IsOf, AllThere};
ghost use Rattle.bfd_engine.specs.Opening.{IsNewPass};
ghost use Rattle.bfd_replay.specs.Jobs.{AllJobsJoined, AreJobs, IsJoining, Work, seen_as};

use crate::plan::Queue;
use crate::report::Part;
use crate::worker::jobs::{Job, own_queues};
use bfd_engine::{Engine, EngineFault, EnginePass};
use bfd_wheel::Timers;
use std::alloc::{AllocError, Global};

/// A job for each worker: worker w has the shards whose number, divided by the number of workers, leaves w - 1.
pub(crate) fn deal_jobs<W: Timers>(
    alloc: Global,
    engine: &Engine<W>,
    first: &mut EnginePass,
    queues: Vec<Queue>,
    workers: u32,
) -> Result<Vec<Job>, AllocError>
    requires new { IsNewPass engine.now first.old }
    requires workers { (0 < workers) × (workers ≤ 64) }
    requires few { length queues.items ≤ 64 }
    ensures { IfOk result (λ jobs. AreJobs engine.now queues.items
        workers workers first.new jobs.items) }
{
    let mut queues = queues;
    let mut jobs = Vec::new(alloc);
    for at in 0..workers {
        let pass = engine.split(alloc, first)?;
        let own = own_queues(alloc, &mut queues, workers, at)?;
        jobs.push(Job {
            pass,
            queues: own,
            reported: Ok(Vec::new(alloc)),
        })?;
    }
    Ok(jobs)
}

/// What each worker reported, or why it stopped.
pub(crate) type WorkerParts = Result<Vec<Part>, EngineFault>;

/// Joins the workers' passes into that of caller 0, and returns what each reported.
pub(crate) fn join_all<W: Timers>(
    alloc: Global,
    engine: &Engine<W>,
    first: &mut EnginePass,
    jobs: Vec<Job>,
) -> Result<Vec<WorkerParts>, AllocError>
    requires of { IsOf engine.now first.old.1 }
    requires there { AllThere first.old.1 }
    requires first { first.old.0 ≡ 0 }
    requires others { (i : ℕ) (w : Work) → slice_get jobs.items i ≡ Some w → IsJoining engine.now 200000 w }
    ensures joined { IfOk result (λ _. AllJobsJoined engine.now 200000 first.old first.new jobs.items) }
    ensures reported { IfOk result (λ worker_parts. map (seen_as (λ parts. parts.items)) worker_parts.items
        ≡ map (λ w. w.reported) jobs.items) }
{
    let mut worker_parts = Vec::new(alloc);
    for job in jobs {
        let Job { pass, reported, .. } = job;
        engine.join(first, pass);
        worker_parts.push(reported)?;
    }
    Ok(worker_parts)
}
