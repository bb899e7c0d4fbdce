//! The report of a script, written as it comes.
ghost use Rattle.std.specs.Prelude.{ℕ, ◌≡◌, ◌≤◌, ◌<◌, ◌+◌, ◌*◌, ◌++◌, [], ◌∷◌, IfErr, IfNone, IfOk, IfSome, List, OnOk, length};
ghost use Rattle.std.specs.Prelude.{vec_capacity};
ghost use Rattle.std.specs.Io.KnownBytes.{Appends};
ghost use Rattle.bfd_edge.specs.Faults.{HasCause};
ghost use Rattle.bfd_engine.specs.Engines.{IsOf, AllThere, configs_at};
ghost use Rattle.bfd_engine.specs.Opening.{IsNewPass};
ghost use Rattle.bfd_sbfd.specs.declared.reflecting.Reflector.{Reflector};
ghost use Rattle.bfd_session.specs.declared.event.SessionConfig.{SessionConfig};
ghost use Rattle.bfd_session.specs.Rows.{Ascends};
ghost use Rattle.bfd_script.specs.declared.line.entries.Line.TheVariants.{Tick as TickLine};
ghost use Rattle.bfd_shard.specs.declared.entry.ShardEvent.TheVariants.{Tick as TickEvent};
ghost use Rattle.bfd_script.specs.Report.{lines_from, report};
ghost use Rattle.bfd_script.specs.Sound.{IsScript};
ghost use Rattle.bfd_instance.specs.World.{replayed};
ghost use Rattle.bfd_replay.specs.Happenings.{Among};
ghost use Rattle.bfd_replay.specs.Planned.{happening, happenings};
ghost use Rattle.bfd_replay.specs.Counts.{counts_of};
ghost use Rattle.bfd_replay.specs.Replayed.{HasTotals, HaveReplayed, taker_of};
ghost use Rattle.bfd_replay.specs.PendingLines.{HasBrought, HasStopCause, HasReportedEvent, HasReportedFront, IsClosedAfter, IsEventStop};
ghost use Rattle.bfd_replay.specs.PendingLines.{IsMeant, IsStop, ReportedUpTo, reason_of, outcomes_on};
ghost use Rattle.bfd_replay.specs.Turning.{AllSole, HasKept, IsOfOne, Went, brought};
ghost use Rattle.bfd_replay.specs.Written.{TookFront};
ghost use Rattle.bfd_num.specs.Counting.{IsBlankOf};

use crate::counting::{Replayed, up_all};
use crate::plan::next_of;
use crate::report::Counts;
use crate::stream::opening::opened;
use crate::stream::pending::{Pending, Stop};
use crate::stream::ticking::tick_parts;
use crate::stream::turning::happen;
use bfd_edge::{Fault, Gate, Sink};
use bfd_engine::{Engine, EngineFault, EnginePass};
use bfd_num::{Steps, Tick};
use bfd_rules::Outs;
use bfd_script::Script;
use bfd_script::line::Line;
use bfd_shard::ShardState;
use bfd_wheel::Timers;
use std::alloc::Global;
use std::marker::Brand;
use std::snapshot::Snapshot;
use std::sync::Wait;
use std::sync::ledger::{Blank, Ledger};

/// A tick of several shards: what their parts report of it is appended, and a long text goes to the sink.
fn report_parts<W: Timers, R: Wait, G: Gate, K: Sink, L: Ledger>(
    rt: &R,
    alloc: Global,
    engine: &Engine<W>,
    pass: &mut EnginePass,
    tick: Tick,
    outs: &mut Outs,
    reported: &mut Pending,
    steps: &mut Steps<L>,
    gate: &G,
    sink: &mut K,
) -> Result<(), Stop>
    requires of { IsOf engine.now pass.old.1 }
    requires there { AllThere pass.old.1 }
    requires number { pass.old.0 ≡ 0 }
    requires some { 0 < length engine.now.locks }
    requires ascends { Ascends engine.now.configs }
    requires room { (shard : ℕ) → 5 * length (configs_at engine.now shard) + 5 ≤ outs.old.room }
    requires few { reported.old.events < 200000 }
    ensures of { IsOf engine.now pass.new.1 }
    ensures there { AllThere pass.new.1 }
    ensures kept { HasKept 1 pass.old pass.new }
    ensures went { OnOk result ((r : ℕ) → r < length engine.now.locks → Went pass.old pass.new (TickEvent tick ∷ []) r) }
    ensures reported { OnOk result (HasReportedEvent engine.now (Among (TickEvent tick)) pass.old pass.new
        (K.taken sink.old) (K.taken sink.new) reported.old reported.new) }
    ensures events { OnOk result (reported.new.events ≡ reported.old.events + 1) }
    ensures front { HasReportedFront engine.now (Among (TickEvent tick)) pass.old pass.new
        (K.taken sink.old) (K.taken sink.new) reported.old }
    ensures stopped { IfErr result (IsEventStop engine.now pass.old pass.new) }
    ensures cause { IfErr result (HasStopCause (K.faults sink.old) (K.faults sink.new)) }
    ensures calm { OnOk result (K.faults sink.new ≡ K.faults sink.old) }
    ensures room { outs.new.room ≡ outs.old.room }
{
    let number = reported.number();
    let parts = match tick_parts(rt, alloc, engine, pass, number, tick, outs, steps, gate) {
        Ok(parts) => parts,
        Err(fault) => return Err(Stop::Refused(fault)),
    };
    match reported.gather(alloc, parts, sink) {
        Ok(()) => Ok(()),
        Err(fault) => Err(Stop::Unwritten(fault)),
    }
}

/// Any other line, or a tick of one shard: it happens, what it gave is reported, and a long text goes to the sink.
fn report_one<W: Timers, R: Wait, G: Gate, K: Sink, L: Ledger>(
    rt: &R,
    engine: &Engine<W>,
    pass: &mut EnginePass,
    line: Line,
    outs: &mut Outs,
    reported: &mut Pending,
    steps: &mut Steps<L>,
    gate: &G,
    sink: &mut K,
) -> Result<(), Stop>
    requires of { IsOf engine.now pass.old.1 }
    requires there { AllThere pass.old.1 }
    requires number { pass.old.0 ≡ 0 }
    requires some { 0 < length engine.now.locks }
    requires one { IsOfOne (length engine.now.locks) (happening engine.now.configs engine.now.pool line) }
    requires room { (shard : ℕ) → 5 * length (configs_at engine.now shard) + 5 ≤ outs.old.room }
    requires few { reported.old.events < 200000 }
    ensures of { IsOf engine.now pass.new.1 }
    ensures there { AllThere pass.new.1 }
    ensures kept { HasKept 1 pass.old pass.new }
    ensures went { OnOk result ((r : ℕ) → r < length engine.now.locks
        → Went pass.old pass.new (brought (length engine.now.locks) (happening engine.now.configs engine.now.pool line) r) r) }
    ensures reported { OnOk result (HasReportedEvent engine.now (happening engine.now.configs engine.now.pool line) pass.old pass.new
        (K.taken sink.old) (K.taken sink.new) reported.old reported.new) }
    ensures events { OnOk result (reported.new.events ≡ reported.old.events + 1) }
    ensures front { HasReportedFront engine.now (happening engine.now.configs engine.now.pool line) pass.old pass.new
        (K.taken sink.old) (K.taken sink.new) reported.old }
    ensures stopped { IfErr result (IsEventStop engine.now pass.old pass.new) }
    ensures cause { IfErr result (HasStopCause (K.faults sink.old) (K.faults sink.new)) }
    ensures calm { OnOk result (K.faults sink.new ≡ K.faults sink.old) }
    ensures room { outs.new.room ≡ outs.old.room }
{
    let answer = match happen(rt, engine, pass, reported.number(), line, outs, steps, gate) {
        Ok(answer) => answer,
        Err(fault) => return Err(Stop::Refused(fault)),
    };
    match reported.append_outcome(outs, &answer, sink) {
        Ok(()) => Ok(()),
        Err(fault) => Err(Stop::Unwritten(fault)),
    }
}

/// The tick that a line is, if several shards have it.
fn shared_tick(line: &Line, shards: u32) -> Option<Tick>
    ensures some { IfSome result (λ tick. line.now ≡ TickLine tick) }
    ensures none { IfNone result ((configs : List SessionConfig) (pool : List Reflector) → IsOfOne shards (happening configs pool
        line.now)) }
{
    match line {
        Line::Tick(tick) if shards != 1 => Some(*tick),
        _ => None,
    }
}

/// One line, on any number of shards.
fn report_line<W: Timers, R: Wait, G: Gate, K: Sink, L: Ledger>(
    rt: &R,
    alloc: Global,
    engine: &Engine<W>,
    pass: &mut EnginePass,
    line: Line,
    outs: &mut Outs,
    reported: &mut Pending,
    steps: &mut Steps<L>,
    gate: &G,
    sink: &mut K,
) -> Result<(), Stop>
    requires of { IsOf engine.now pass.old.1 }
    requires there { AllThere pass.old.1 }
    requires number { pass.old.0 ≡ 0 }
    requires some { 0 < length engine.now.locks }
    requires ascends { Ascends engine.now.configs }
    requires room { (shard : ℕ) → 5 * length (configs_at engine.now shard) + 5 ≤ outs.old.room }
    requires few { reported.old.events < 200000 }
    ensures of { IsOf engine.now pass.new.1 }
    ensures there { AllThere pass.new.1 }
    ensures kept { HasKept 1 pass.old pass.new }
    ensures went { OnOk result ((r : ℕ) → r < length engine.now.locks
        → Went pass.old pass.new (brought (length engine.now.locks) (happening engine.now.configs engine.now.pool line) r) r) }
    ensures reported { OnOk result (HasReportedEvent engine.now (happening engine.now.configs engine.now.pool line) pass.old pass.new
        (K.taken sink.old) (K.taken sink.new) reported.old reported.new) }
    ensures events { OnOk result (reported.new.events ≡ reported.old.events + 1) }
    ensures front { HasReportedFront engine.now (happening engine.now.configs engine.now.pool line) pass.old pass.new
        (K.taken sink.old) (K.taken sink.new) reported.old }
    ensures stopped { IfErr result (IsEventStop engine.now pass.old pass.new) }
    ensures cause { IfErr result (HasStopCause (K.faults sink.old) (K.faults sink.new)) }
    ensures calm { OnOk result (K.faults sink.new ≡ K.faults sink.old) }
    ensures room { outs.new.room ≡ outs.old.room }
{
    match shared_tick(&line, engine.shards()) {
        Some(tick) => report_parts(
            rt, alloc, engine, pass, tick, outs, reported, steps, gate, sink,
        ),
        None => report_one(rt, engine, pass, line, outs, reported, steps, gate, sink),
    }
}

/// Reports the lines of a script one by one; `reported` keeps what isn't written yet. Their list frees its memory while the journal grows.
fn report_lines<W: Timers, R: Wait, G: Gate, K: Sink, L: Ledger>(
    rt: &R,
    alloc: Global,
    engine: &Engine<W>,
    pass: &mut EnginePass,
    events: Vec<Line>,
    outs: Outs,
    reported: &mut Pending,
    gate: &G,
    sink: &mut K,
    blank: Blank,
) -> Result<(), Stop>
    requires new { IsNewPass engine.now pass.old }
    requires shards { 0 < length engine.now.locks }
    requires ascends { Ascends engine.now.configs }
    requires limit { length events.items ≤ engine.now.limit }
    requires few { length events.items ≤ 200000 }
    requires none { reported.old.events ≡ 0 }
    requires room { (shard : ℕ) → 5 * length (configs_at engine.now shard) + 5 ≤ outs.room }
    requires blank { IsBlankOf L.name L.parts blank.name blank.parts }
    ensures of { IsOf engine.now pass.new.1 }
    ensures there { AllThere pass.new.1 }
    ensures kept { HasKept (length events.items) pass.old pass.new }
    ensures brought { OnOk result (HasBrought engine.now (happenings engine.now.configs engine.now.pool events.items) pass.new) }
    ensures reported { OnOk result (AllSole (length engine.now.locks) pass.new
        → ReportedUpTo (K.taken sink.old) (K.taken sink.new) reported.old reported.new
        (outcomes_on engine.now (happenings engine.now.configs engine.now.pool events.items)) []) }
    ensures front { AllSole (length engine.now.locks) pass.new → TookFront (K.taken sink.old) (K.taken sink.new) (reported.old.text
        ++ lines_from (reported.old.events + 1) (outcomes_on engine.now (happenings engine.now.configs engine.now.pool events.items))) }
    ensures stopped { IfErr result (IsStop engine.now pass.new) }
    ensures cause { IfErr result (HasStopCause (K.faults sink.old) (K.faults sink.new)) }
    ensures calm { OnOk result (K.faults sink.new ≡ K.faults sink.old) }
{
    let mut steps = Steps::<L>::new(blank);
    let mut outs = outs;
    let mut left = events;
    left.reverse();
    'lines: while let Some(line) = next_of(&mut left) {
        match report_line(
            rt, alloc, engine, pass, line, &mut outs, reported, &mut steps, gate, sink,
        ) {
            Ok(()) => {}
            Err(stop) => return Err(stop),
        }
    }
    Ok(())
}

/// What broke a replay off that took place.
fn reason_of(stop: Stop) -> Fault
    requires { IsMeant stop }
    ensures { result ≡ reason_of stop }
{
    match stop {
        Stop::Unwritten(fault) => fault,
        Stop::Refused(EngineFault::Memory) => Fault::Memory,
        Stop::Refused(_) => unreachable!(),
    }
}

/// The report of a script's lines on a new engine, and the closed shards.
fn report_all<W: Timers, R: Wait, G: Gate, K: Sink>(
    rt: &R,
    alloc: Global,
    engine: Engine<W>,
    pass: EnginePass,
    states: Vec<ShardState<W>>,
    events: Vec<Line>,
    outs: Outs,
    gate: &G,
    sink: &mut K,
) -> Result<(Vec<ShardState<W>>, Counts), Fault>
    requires new { IsNewPass engine pass }
    requires some { 0 < length engine.locks }
    requires ascends { Ascends engine.configs }
    requires limit { length events.items ≤ engine.limit }
    requires few { length events.items ≤ 200000 }
    requires room { (shard : ℕ) → 5 * length (configs_at engine shard) + 5 ≤ outs.room }
    requires empty { states.items ≡ [] }
    requires enough { length engine.locks ≤ vec_capacity states }
    ensures whole { OnOk result (Appends (K.taken sink.old) (K.taken sink.new)
        (report (outcomes_on engine (happenings engine.configs engine.pool events.items)))) }
    ensures states { IfOk result (λ r. IsClosedAfter engine (happenings engine.configs engine.pool events.items) r.0.items) }
    ensures counts { IfOk result (λ r. r.1 ≡ counts_of (outcomes_on engine (happenings engine.configs engine.pool events.items))) }
    ensures front { TookFront (K.taken sink.old) (K.taken sink.new)
        (report (outcomes_on engine (happenings engine.configs engine.pool events.items))) }
    ensures cause { HasCause (K.faults sink.old) (K.faults sink.new) result }
    ensures calm { OnOk result (K.faults sink.new ≡ K.faults sink.old) }
{
    let mut pass = pass;
    let mut reported = Pending::new(alloc);
    let end = report_lines::<W, R, G, K, Brand>(
        rt,
        alloc,
        &engine,
        &mut pass,
        events,
        outs,
        &mut reported,
        gate,
        sink,
        Blank::new(1),
    );
    let states = engine.close(pass, states);
    match end {
        Ok(()) => match reported.close(alloc, sink) {
            Ok(counts) => Ok((states, counts)),
            Err(fault) => Err(fault),
        },
        Err(stop) => Err(reason_of(stop)),
    }
}

/// Replays the script on 1 to 64 shards, in the caller's thread, and writes its report to the sink as it comes. Each turn for event N
/// stands between `gate.before(0, N)` and `gate.after(0, N)`. It is refused as Failed where the sink failed, and as Memory when out of
/// memory, here or in the sink, or at 2^64 packets sent or dropped; the sink accepted a prefix of the report then. Its counts come back,
/// and for clauses what the closed shards were. It may wait.
pub(crate) fn report_to<W: Timers, R: Wait, G: Gate, K: Sink>(
    rt: &R,
    alloc: Global,
    script: Script,
    shards: u32,
    gate: &G,
    sink: &mut K,
) -> Result<Replayed<W>, Fault>
    requires script { IsScript script }
    requires shards { (0 < shards) × (shards ≤ 64) }
    ensures whole { OnOk result (Appends (K.taken sink.old) (K.taken sink.new) (replayed script)) }
    ensures states { IfOk result (λ r. HaveReplayed script shards (taker_of 1) r.closed.value.items) }
    ensures totals { IfOk result (λ r. HasTotals script r.counts r.up) }
    ensures front { TookFront (K.taken sink.old) (K.taken sink.new) (replayed script) }
    ensures cause { HasCause (K.faults sink.old) (K.faults sink.new) result }
    ensures calm { OnOk result (K.faults sink.new ≡ K.faults sink.old) }
{
    let Script {
        configs,
        pool,
        events,
    } = script;
    let Ok(outs) = Outs::make(alloc, 5 * configs.len() + 5) else {
        return Err(Fault::Memory);
    };
    let Ok(states) = Vec::with_capacity(alloc, shards as usize) else {
        return Err(Fault::Memory);
    };
    let Ok((engine, pass)) = opened(alloc, configs, pool, &events, shards) else {
        return Err(Fault::Memory);
    };
    match report_all(rt, alloc, engine, pass, states, events, outs, gate, sink) {
        Ok((states, counts)) => Ok(Replayed {
            counts,
            up: up_all(&states),
            closed: Snapshot::of(&states),
        }),
        Err(fault) => Err(fault),
    }
}
