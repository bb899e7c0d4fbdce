//! Opening an engine.
ghost use Rattle.std.specs.Prelude.{◌≡◌, ◌≤◌, ◌<◌, None, Some, IfOk, MatchResult, length, map};
ghost use Rattle.std.specs.List.{AllByRecursion};
ghost use Rattle.bfd_demux.specs.Rows.{build_fault};
ghost use Rattle.bfd_session.specs.Kinds.{configs_of};
ghost use Rattle.bfd_session.specs.Rows as rows;
ghost use Rattle.bfd_session.specs.Rows.{AreFit};
ghost use Rattle.bfd_shard.specs.Shard.{Shard};
ghost use Rattle.bfd_engine.specs.Opening.{IsNewPass, IsOpenFault, AreNewStates, MayLock, IsMade, AreOpened, HaveOpened};
ghost use Rattle.bfd_session.specs.Tables.{IsSorted, members};

use crate::beside::{all_there, each};
use crate::engine::Engine;
use crate::fault::OpenFault;
use crate::locked::{Base, Locked};
use crate::making::make_in_turn;
use crate::pass::EnginePass;
use bfd_demux::BuildFault;
use bfd_sbfd::Reflector;
use bfd_session::{SessionConfig, Table};
use bfd_shard::{Entry, ShardState};
use bfd_turn::{Pass, TurnLock};
use bfd_wheel::Timers;
use std::alloc::{AllocError, Global};
use std::thread::Threads;

/// The table of the sessions and reflectors, or what is wrong with it.
fn plan(
    alloc: Global,
    configs: &Vec<SessionConfig>,
    pool: Vec<Reflector>,
) -> Result<Table, OpenFault>
    requires { IsSorted configs.now.items pool.items }
    ensures { MatchResult result (λ table. (table ≡ members configs.now.items pool.items)
        × (build_fault (rows.table_of configs.now.items pool.items) ≡ None))
        (IsOpenFault (rows.table_of configs.now.items pool.items)) }
{
    match Table::build(alloc, configs, pool) {
        Ok(table) => Ok(table),
        Err(BuildFault::Memory) => Err(OpenFault::Memory),
        Err(fault) => Err(OpenFault::Build(fault)),
    }
}

/// A shard's lock, the pass of its caller 0, and how many sessions it has.
type NewShard<W> = (TurnLock<Locked<W>>, Pass<Entry, Base>, usize);

/// What the shards are opened as: their locks, the passes of caller 0, and how many sessions each has.
type Opened<W> = (
    Vec<TurnLock<Locked<W>>>,
    Vec<Option<Pass<Entry, Base>>>,
    Vec<usize>,
);

/// A shard that has seen nothing, behind its lock, with a journal that accepts so many entries.
fn lock_shard<W: Timers>(
    alloc: Global,
    state: ShardState<W>,
    limit: usize,
) -> Result<NewShard<W>, AllocError>
    requires { MayLock limit state }
    ensures { IfOk result (λ shard. IsMade limit (configs_of state.sessions) shard) }
{
    let mut state = state;
    state.raise_limit(limit)?;
    let size = state.sessions().len();
    let shard = Box::new(alloc, state)?;
    let (lock, pass) = TurnLock::new(alloc, Locked { shard }, 0)?;
    Ok((lock, pass, size))
}

/// The shards' parts, each in a list of its own.
fn apart<W: Timers>(alloc: Global, shards: Vec<NewShard<W>>) -> Result<Opened<W>, AllocError>
    ensures { IfOk result (λ r. (r.0.items ≡ map (λ s. s.0) shards.items)
        × (r.1.items ≡ map (λ s. Some s.1) shards.items) × (r.2.items ≡ map (λ s. s.2) shards.items)) }
{
    let mut locks = Vec::with_capacity(alloc, shards.len())?;
    let mut passes = Vec::with_capacity(alloc, shards.len())?;
    let mut sizes = Vec::with_capacity(alloc, shards.len())?;
    for (lock, pass, size) in shards {
        locks.push(lock)?;
        passes.push(Some(pass))?;
        sizes.push(size)?;
    }
    Ok((locks, passes, sizes))
}

/// Each shard behind its lock, one after another.
fn lock_in_turn<W: Timers>(
    alloc: Global,
    states: Vec<ShardState<W>>,
    limit: usize,
) -> Result<Opened<W>, AllocError>
    requires { AllByRecursion (MayLock limit) states.items }
    ensures { IfOk result (λ r. AreOpened limit (map (λ (s : Shard). configs_of s.sessions) states.items)
        r.0.items r.1.items r.2.items) }
{
    let mut shards = Vec::with_capacity(alloc, states.len())?;
    for state in states {
        let shard = lock_shard(alloc, state, limit)?;
        shards.push(shard)?;
    }
    apart(alloc, shards)
}

/// The engine of these shards, and the pass of caller 0.
fn engine_of<W: Timers>(opened: Opened<W>, table: Table, limit: usize) -> (Engine<W>, EnginePass)
    requires opened { HaveOpened limit table.configs opened.0.items opened.1.items opened.2.items }
    requires few { (0 < length opened.0.items) × (length opened.0.items ≤ 64) }
    ensures shards { length result.0.locks ≡ length opened.0.items }
    ensures configs { result.0.configs ≡ table.configs }
    ensures pool { result.0.pool ≡ table.pool }
    ensures limit { result.0.limit ≡ limit }
    ensures pass { IsNewPass result.0 result.1 }
{
    // proof: the read brings the invariant
    let _ = table.pool();
    let (locks, passes, sizes) = opened;
    let engine = Engine {
        locks,
        table,
        sizes,
        limit,
    };
    let pass = EnginePass {
        passes,
        number: 0,
        used: 0,
    };
    (engine, pass)
}

/// An engine whose shards are made one after another.
fn alone<W: Timers>(
    alloc: Global,
    table: Table,
    configs: Vec<SessionConfig>,
    shards: u32,
    limit: usize,
) -> Result<(Engine<W>, EnginePass), AllocError>
    requires shards { (0 < shards) × (shards ≤ 64) }
    requires its { table.configs ≡ configs.items }
    requires fit { AreFit configs.items }
    ensures shards { IfOk result (λ r. length r.0.locks ≡ shards) }
    ensures configs { IfOk result (λ r. r.0.configs ≡ configs.items) }
    ensures pool { IfOk result (λ r. r.0.pool ≡ table.pool) }
    ensures limit { IfOk result (λ r. r.0.limit ≡ limit) }
    ensures pass { IfOk result (λ r. IsNewPass r.0 r.1) }
{
    // proof: the read brings the invariant
    let _ = table.pool();
    let states = make_in_turn(alloc, configs.as_slice(), shards)?;
    drop(configs);
    let opened = lock_in_turn(alloc, states, limit)?;
    Ok(engine_of(opened, table, limit))
}

impl<W: Timers> Engine<W> {
    /// An engine of 1 to 64 shards, and the pass of caller 0. The sessions and the reflectors each stand in ascending order of
    /// discriminator, and each configuration is within its ranges. Session k of the list lives in shard k % shards, at place
    /// k / shards, and each shard's journal accepts `limit` entries.
    ///
    /// Build comes only where the rows of the sessions, and then of the reflectors, make no table, with what is wrong with them; Memory
    /// only when out of memory, also in the place of Build.
    pub fn open(
        alloc: Global,
        configs: Vec<SessionConfig>,
        pool: Vec<Reflector>,
        shards: u32,
        limit: usize,
    ) -> Result<(Engine<W>, EnginePass), OpenFault>
        requires shards { (0 < shards) × (shards ≤ 64) }
        requires sorted { IsSorted configs.items pool.items }
        requires fit { AreFit configs.items }
        ensures shards { IfOk result (λ r. length r.0.locks ≡ shards) }
        ensures configs { IfOk result (λ r. r.0.configs ≡ configs.items) }
        ensures pool { IfOk result (λ r. r.0.pool ≡ pool.items) }
        ensures limit { IfOk result (λ r. r.0.limit ≡ limit) }
        ensures pass { IfOk result (λ r. IsNewPass r.0 r.1) }
        ensures fault { MatchResult result (λ _. build_fault (rows.table_of configs.items pool.items) ≡ None)
            (IsOpenFault (rows.table_of configs.items pool.items)) }
    {
        let table = plan(alloc, &configs, pool)?;
        match alone(alloc, table, configs, shards, limit) {
            Ok(opened) => Ok(opened),
            Err(_) => Err(OpenFault::Memory),
        }
    }
}

impl<W: Timers + Send> Engine<W> {
    /// An engine of the shards that `make_shards` built from a table's sessions, and the pass of caller 0. Each shard's journal accepts
    /// `limit` entries. Each lock is made in a thread of its own if one is available, so that workers of different shards don't write
    /// side by side. Fails only when out of memory.
    pub fn of_shards<R: Threads + Sync>(
        rt: &R,
        alloc: Global,
        table: Table,
        states: Vec<ShardState<W>>,
        limit: usize,
    ) -> Result<(Engine<W>, EnginePass), AllocError>
        requires shards { (0 < length states.items) × (length states.items ≤ 64) }
        requires new { AreNewStates (length states.items) table.configs states.items }
        ensures shards { IfOk result (λ r. length r.0.locks ≡ length states.items) }
        ensures configs { IfOk result (λ r. r.0.configs ≡ table.configs) }
        ensures pool { IfOk result (λ r. r.0.pool ≡ table.pool) }
        ensures limit { IfOk result (λ r. r.0.limit ≡ limit) }
        ensures pass { IfOk result (λ r. IsNewPass r.0 r.1) }
    {
        let made = each(
            rt,
            alloc,
            states,
            &|state: ShardState<W>| -> Result<NewShard<W>, AllocError>
                requires { MayLock limit state }
                ensures { IfOk result (λ shard. IsMade limit (configs_of state.sessions) shard) }
            { lock_shard(alloc, state, limit) },
        )?;
        let shards = all_there(alloc, made)?;
        let opened = apart(alloc, shards)?;
        Ok(engine_of(opened, table, limit))
    }
}
