//! A script's events, dealt out to shards.
ghost use Rattle.std.specs.Prelude.{ℕ, ◌≡◌, ◌<◌, ◌≤◌, ◌+◌, [], IfOk, OnOk, None, length, map, slice_index_or};
ghost use Rattle.std.specs.List.{All, AllByRecursion};
ghost use Rattle.bfd_demux.specs.Index.{AreAddresses, AreNames};
ghost use Rattle.bfd_demux.specs.Rows.{build_fault};
ghost use Rattle.bfd_session.specs.Rows.{table_of as table_in};
ghost use Rattle.bfd_session.specs.Tables.{members};
ghost use Rattle.bfd_replay.specs.Happenings.{apart_pieces};
ghost use Rattle.bfd_instance.specs.Stage.{IsTable};
ghost use Rattle.bfd_replay.specs.Planned.{IsMet, AreQueues, AreRuns, IsPlanned, IsPlanOf, happenings, route_is};
ghost use Rattle.bfd_replay.specs.declared.plan.runs.Run.{Run as RunIn};

use crate::plan::queues::{Queue, new_queues, push_pieces};
use crate::plan::routing::{Route, route_of};
use crate::plan::runs::{Run, cut};
use crate::plan::shrinking::next_of;
use crate::report::{Numbered, Part, queue_event};
use bfd_demux::{Addresses, Demux, Names, Row};
use bfd_engine::{all_there, each};
use bfd_sbfd::Reflector;
use bfd_script::line::Line;
use bfd_session::{Answer, Roster, Table};
use std::alloc::{AllocError, Global};
use std::thread;
use std::thread::Threads;

/// As many empty queues, each with this room.
fn empty_queues(alloc: Global, count: usize, room: usize) -> Result<Vec<Vec<Numbered>>, AllocError>
    ensures long { IfOk result (λ queues. length queues.items ≡ count) }
    ensures each { IfOk result (λ queues. (k : ℕ) → slice_index_or (map (λ q. q.items) queues.items) k [] ≡ []) }
{
    let mut queues = Vec::with_capacity(alloc, count)?;
    for _ in 0..count {
        queues.push(Vec::with_capacity(alloc, room)?)?;
    }
    Ok(queues)
}

/// The greater of two numbers.
fn greater(a: usize, b: usize) -> usize
    ensures first { a ≤ result }
    ensures second { b ≤ result }
    ensures least { (most : ℕ) → a ≤ most → b ≤ most → result ≤ most }
{
    if a < b { b } else { a }
}

/// How many events the longest queue has.
pub fn longest(queues: &Vec<Queue>) -> usize
    ensures all { (s : ℕ) → length (slice_index_or queues.now.items s []) ≤ result }
    ensures least { (most : ℕ) → ((s : ℕ) → length (slice_index_or queues.now.items s []) ≤ most) → result ≤ most }
{
    let mut most = 0;
    for shard in 0..queues.len() {
        most = greater(most, queues[shard].len());
    }
    most
}

/// Adds what the event of this number is.
fn take_in(
    queues: &mut Vec<Vec<Numbered>>,
    apart: &mut Part,
    number: u64,
    route: Route,
) -> Result<(), AllocError>
    requires some { 0 < length queues.old.items }
    requires few { length queues.old.items ≤ 64 }
    ensures long { length queues.new.items ≡ length queues.old.items }
    ensures planned { OnOk result (IsPlanned number (route_is route) (map (λ q. q.items) queues.old.items)
        (map (λ q. q.items) queues.new.items) apart.old apart.new) }
{
    match route {
        Route::Rests(answer) => apart.add_event(number, &[], &answer),
        Route::Answers(out) => apart.add_event(number, &[out], &Answer::Handled),
        Route::Happens(event) => queue_event(queues, number, event),
    }
}

/// The queues of a run of lines, and what is reported separately. The queues get room for a shard's even share of the run's lines and a
/// 64th of them more, which is a guess: shares differ, and a tick goes to every shard. Fails only when out of memory.
fn plan_run(
    alloc: Global,
    table: &Table,
    run: Run,
    shards: u32,
) -> Result<(Vec<Vec<Numbered>>, Part), AllocError>
    requires shards { (0 < shards) × (shards ≤ 64) }
    requires within { run.first + length run.lines.items ≤ 200001 }
    ensures { IfOk result (λ r. IsPlanOf table.now.configs table.now.pool shards run r) }
{
    let Run { first, lines } = run;
    let room = lines.len() / shards as usize + lines.len() / 64 + 1;
    let mut queues = empty_queues(alloc, shards as usize, room)?;
    let mut apart = Part::new(alloc);
    let mut number = first;
    let mut left = lines;
    left.reverse();
    'lines: while let Some(line) = next_of(&mut left) {
        take_in(&mut queues, &mut apart, number, route_of(table, line))?;
        number += 1;
    }
    Ok((queues, apart))
}

/// The same of each run, all but the last each in a thread of its own if one is available.
fn plan_each<R: Threads + Sync>(
    rt: &R,
    alloc: Global,
    table: &Table,
    runs: Vec<Run>,
    shards: u32,
) -> Result<Vec<(Vec<Vec<Numbered>>, Part)>, AllocError>
    requires shards { (0 < shards) × (shards ≤ 64) }
    requires within { All (λ (r : RunIn). r.first + length r.lines.items ≤ 200001) runs.items }
    ensures long { IfOk result (λ plans. length plans.items ≡ length runs.items) }
    ensures each { IfOk result (λ plans. (i : ℕ) (r : RunIn) (p : _) → i < length runs.items
        → IsPlanOf table.now.configs table.now.pool shards (slice_index_or runs.items i r) (slice_index_or plans.items i p)) }
{
    let done = each(
        rt,
        alloc,
        runs,
        &|run: Run|
            requires shards { (0 < shards) × (shards ≤ 64) }
            requires within { run.first + length run.lines.items ≤ 200001 }
            ensures { IfOk result (λ r. IsPlanOf table.entry.now.configs table.entry.now.pool shards run r) }
        { plan_run(alloc, table, run, shards) },
    )?;
    let plans = all_there(alloc, done)?;
    Ok(plans)
}

/// The table of rows that have no fault, its two lists made in parallel. Fails only when out of memory.
fn table_of_rows<R: Threads>(rt: &R, alloc: Global, rows: Vec<Row>) -> Result<Demux, AllocError>
    requires { build_fault rows.items ≡ None }
    ensures { IfOk result (λ demux. demux ≡ rows.items) }
{
    let (names, addresses) = thread::join(
        rt,
        || -> Result<Names, AllocError>
            requires { build_fault rows.items ≡ None }
            ensures { IfOk result (AreNames rows.items) }
        { Names::of(alloc, &rows) },
        || -> Result<Addresses, AllocError>
            requires { build_fault rows.items ≡ None }
            ensures { IfOk result (AreAddresses rows.items) }
        { Addresses::of(alloc, &rows) },
    );
    let names = names?;
    let addresses = addresses?;
    Ok(Demux::of_lists(rows, names, addresses))
}

/// The table of rows that have no fault, and the lines in at most as many runs as there are workers: made in parallel. Fails only when out
/// of memory.
fn table_and_runs<R: Threads + Sync>(
    rt: &R,
    alloc: Global,
    rows: Vec<Row>,
    events: Vec<Line>,
    workers: u32,
) -> Result<(Demux, Vec<Run>), AllocError>
    requires sound { build_fault rows.items ≡ None }
    requires some { 0 < workers }
    requires few { length events.items ≤ 200000 }
    ensures demux { IfOk result (λ r. r.0 ≡ rows.items) }
    ensures runs { IfOk result (λ r. AreRuns events.items r.1.items) }
{
    let (demux, runs) = thread::join(
        rt,
        move || -> Result<Demux, AllocError>
            requires { build_fault rows.items ≡ None }
            ensures { IfOk result (λ demux. demux ≡ rows.items) }
        { table_of_rows(rt, alloc, rows) },
        move || -> Result<Vec<Run>, AllocError>
            requires { (0 < workers) × (length events.items ≤ 200000) }
            ensures { IfOk result (λ runs. AreRuns events.items runs.items) }
        { cut(alloc, events, workers as usize) },
    );
    Ok((demux?, runs?))
}

/// What a replay on an engine begins with.
#[derive(Drop)]
pub struct Plan {
    /// The table by which packets are selected.
    pub table: Table,
    /// The queue of each shard, in pieces.
    pub queues: Vec<Queue>,
    /// What is reported of the events that match no session.
    pub apart: Part,
}

/// What a replay on an engine begins with, by the rows of the sessions and the pool: their table, the queue of each shard, and what is
/// reported of the events that match no session. The table is built, its two lists in parallel, while the lines are cut into runs, one for
/// each worker or fewer, and the runs are planned in parallel. Then the runs' queues and what they report are put one behind another. Fails
/// only when out of memory.
pub fn planned<R: Threads + Sync>(
    rt: &R,
    alloc: Global,
    rows: Vec<Row>,
    roster: Roster,
    pool: Vec<Reflector>,
    events: Vec<Line>,
    shards: u32,
    workers: u32,
) -> Result<Plan, AllocError>
    requires table { IsTable roster pool.items }
    requires rows { rows.items ≡ table_in roster pool.items }
    requires shards { (0 < shards) × (shards ≤ 64) }
    requires workers { (0 < workers) × (workers ≤ 64) }
    requires events { length events.items ≤ 200000 }
    ensures table { IfOk result (λ plan. plan.table ≡ members roster pool.items) }
    ensures queues { IfOk result (λ plan. AreQueues shards (happenings roster pool.items events.items) plan.queues.items) }
    ensures apart { IfOk result (λ plan. plan.apart ≡ apart_pieces 1 (happenings roster pool.items events.items)) }
    ensures met { IfOk result (λ plan. AllByRecursion (IsMet roster) (happenings roster pool.items events.items)) }
{
    let (demux, runs) = table_and_runs(rt, alloc, rows, events, workers)?;
    let table = Table::of(demux, roster, pool);
    let mut left = plan_each(rt, alloc, &table, runs, shards)?;
    left.reverse();
    let mut queues = new_queues(alloc, shards as usize)?;
    let mut apart = Part::new(alloc);
    'runs: while let Some((more, reported)) = next_of(&mut left) {
        queues = push_pieces(alloc, queues, more)?;
        apart.append(&reported)?;
    }
    Ok(Plan {
        table,
        queues,
        apart,
    })
}
