//! Shards and plan of a replay, made in parallel.
ghost use Rattle.std.specs.Prelude.{◌≡◌, ◌≤◌, ◌<◌, IfOk, length};
ghost use Rattle.bfd_engine.specs.Opening.{AreNewStates, MayOpen};
ghost use Rattle.bfd_session.specs.Rows.{table_of as table_in};
ghost use Rattle.bfd_instance.specs.Stage.{IsTable};
ghost use Rattle.bfd_replay.specs.Beginning.{IsBeginning};

use crate::plan::{Plan, planned};
use bfd_demux::Row;
use bfd_engine::make_shards;
use bfd_sbfd::Reflector;
use bfd_script::line::Line;
use bfd_session::{Roster, SessionConfig, table_of};
use bfd_shard::ShardState;
use bfd_wheel::Timers;
use std::alloc::{AllocError, Global};
use std::thread;
use std::thread::Threads;

/// The roster of the sessions and the rows of the sessions and the pool, made in parallel. Fails only when out of memory.
fn roster_and_rows<R: Threads + Sync>(
    rt: &R,
    alloc: Global,
    configs: &Vec<SessionConfig>,
    pool: &Vec<Reflector>,
) -> Result<(Roster, Vec<Row>), AllocError>
    ensures roster { IfOk result (λ r. r.0 ≡ configs.now.items) }
    ensures rows { IfOk result (λ r. r.1.items ≡ table_in configs.now.items pool.now.items) }
{
    let (roster, rows) = thread::join(
        rt,
        || -> Result<Roster, AllocError>
            ensures { IfOk result (λ roster. roster ≡ configs.entry.now.items) }
        { Roster::of(alloc, configs) },
        || -> Result<Vec<Row>, AllocError>
            ensures { IfOk result (λ rows. rows.items ≡ table_in configs.entry.now.items pool.entry.now.items) }
        { table_of(alloc, configs, pool) },
    );
    Ok((roster?, rows?))
}

/// What a replay on an engine begins with. Fails only when out of memory.
fn plan<R: Threads + Sync>(
    rt: &R,
    alloc: Global,
    configs: &Vec<SessionConfig>,
    pool: Vec<Reflector>,
    events: Vec<Line>,
    shards: u32,
    workers: u32,
) -> Result<Plan, AllocError>
    requires table { IsTable configs.now.items pool.items }
    requires few { length events.items ≤ 200000 }
    requires shards { (0 < shards) × (shards ≤ 64) }
    requires workers { (0 < workers) × (workers ≤ 64) }
    ensures { IfOk result (IsBeginning configs.now.items pool.items events.items shards) }
{
    let (roster, rows) = roster_and_rows(rt, alloc, configs, &pool)?;
    let planned = planned(rt, alloc, rows, roster, pool, events, shards, workers)?;
    Ok(planned)
}

/// New shards of the sessions, and what the replay begins with, made in parallel. Fails only when out of memory.
pub(crate) fn begun<W: Timers + Send, R: Threads + Sync>(
    rt: &R,
    alloc: Global,
    configs: &Vec<SessionConfig>,
    pool: Vec<Reflector>,
    events: Vec<Line>,
    shards: u32,
    workers: u32,
) -> Result<(Vec<ShardState<W>>, Plan), AllocError>
    requires table { IsTable configs.now.items pool.items }
    requires few { length events.items ≤ 200000 }
    requires shards { (0 < shards) × (shards ≤ 64) }
    requires workers { (0 < workers) × (workers ≤ 64) }
    ensures new { IfOk result (λ r. AreNewStates shards configs.now.items r.0.items) }
    ensures planned { IfOk result (λ r. IsBeginning configs.now.items pool.items events.items shards r.1) }
{
    let (states, plan) = thread::join(
        rt,
        move || -> Result<Vec<ShardState<W>>, AllocError>
            requires shards { (0 < shards) × (shards ≤ 64) }
            requires sessions { MayOpen configs.now.items }
            ensures { IfOk result (λ states. AreNewStates shards configs.entry.now.items states.items) }
        { make_shards(rt, alloc, configs.as_slice(), shards) },
        move || -> Result<Plan, AllocError>
            requires table { IsTable configs.now.items pool.items }
            requires few { length events.items ≤ 200000 }
            requires shards { (0 < shards) × (shards ≤ 64) }
            requires workers { (0 < workers) × (workers ≤ 64) }
            ensures { IfOk result (IsBeginning configs.entry.now.items pool.items events.items shards) }
        { plan(rt, alloc, configs, pool, events, shards, workers) },
    );
    Ok((states?, plan?))
}
