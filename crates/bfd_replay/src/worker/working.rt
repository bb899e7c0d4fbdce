//! A worker's turns on the shards that it has.
ghost use Rattle.std.specs.Prelude.{ℕ, ◌≡◌, ◌≤◌, ◌<◌, ◌+◌, ◌*◌, ◌++◌, true, [], IfOk, IfErr, OnOk, length};
ghost use Rattle.bfd_shard.specs.declared.entry.ShardEvent.{ShardEvent as EventIn};
ghost use Rattle.bfd_shard.specs.Shard.{CanHappen};
ghost use Rattle.bfd_engine.specs.Engines.{IsOf, AllThere, configs_at};
ghost use Rattle.bfd_engine.specs.Calls.{seen_at, taken_at};
ghost use Rattle.bfd_engine.specs.Turned.{room_in};
ghost use Rattle.bfd_replay.specs.Pieces.{event_pieces};
ghost use Rattle.bfd_replay.specs.Working.{AreMet, HasDoneAt, HasFinished, HasLeft, HasStopped, HasReported, HasUsedAt, IsElsewhere};
ghost use Rattle.bfd_replay.specs.Working.{IsIdle, IsWorkerReady, IsTurnRefused, IsStopAt, is_tick};

use crate::plan::Queue;
use crate::report::{Numbered, Part};
use bfd_edge::Gate;
use bfd_engine::{Engine, EngineFault, EnginePass};
use bfd_num::Steps;
use bfd_rules::{Out, Outs};
use bfd_session::Answer;
use bfd_shard::ShardEvent;
use bfd_wheel::Timers;
use std::alloc::{AllocError, Global};
use std::sync::Wait;
use std::sync::ledger::Ledger;

/// Whether it is an event of every session.
fn is_for_all(event: &ShardEvent) -> bool
    ensures { result ≡ is_tick event.now }
{
    match event {
        ShardEvent::Own { .. } => false,
        ShardEvent::Tick(_) => true,
    }
}

/// Reports what an event gave, by its kind.
fn append_outcome(
    part: &mut Part,
    number: u64,
    every: bool,
    outs: &[Out],
    answer: &Answer,
) -> Result<(), AllocError>
    ensures { (event : EventIn) → every ≡ is_tick event
        → OnOk result (part.new ≡ part.old
        ++ event_pieces number event (record { items = outs.now; answer = answer.now })) }
{
    if every {
        part.add_tick(number, outs)
    } else {
        part.add_event(number, outs, answer)
    }
}

/// One event of a shard, and what it gave is reported. Round the turn stands the gate.
fn one_event<W: Timers, R: Wait, G: Gate, L: Ledger>(
    rt: &R,
    engine: &Engine<W>,
    pass: &mut EnginePass,
    shard: u32,
    event: Numbered,
    part: &mut Part,
    outs: &mut Outs,
    steps: &mut Steps<L>,
    gate: &G,
) -> Result<(), EngineFault>
    requires of { IsOf engine.now pass.old.1 }
    requires there { AllThere pass.old.1 }
    requires shard { shard < length engine.now.locks }
    requires can { CanHappen (configs_at engine.now shard) event.event }
    requires room { room_in (configs_at engine.now shard) event.event ≤ outs.old.room }
    ensures of { IsOf engine.now pass.new.1 }
    ensures there { AllThere pass.new.1 }
    ensures elsewhere { IsElsewhere pass.old pass.new shard }
    ensures taken { taken_at pass.new shard ≤ taken_at pass.old shard + 1 }
    ensures reported { OnOk result (HasReported engine.now shard event pass.old pass.new part.old part.new) }
    ensures refused { IfErr result (λ fault. IsTurnRefused fault engine.now shard pass.old pass.new) }
    ensures room { outs.new.room ≡ outs.old.room }
{
    let Numbered { number, event } = event;
    let worker = pass.caller();
    let every = is_for_all(&event);
    outs.clear();
    gate.before(worker, number);
    let outcome = engine.turn_on(rt, pass, shard, event, outs, steps);
    gate.after(worker, number);
    let answer = outcome?;
    match append_outcome(part, number, every, outs.items(), &answer) {
        Ok(()) => Ok(()),
        Err(_) => Err(EngineFault::Memory),
    }
}

/// The events of a shard's queue, in their order.
fn one_shard<W: Timers, R: Wait, G: Gate, L: Ledger>(
    rt: &R,
    engine: &Engine<W>,
    pass: &mut EnginePass,
    shard: u32,
    queue: Queue,
    part: &mut Part,
    outs: &mut Outs,
    steps: &mut Steps<L>,
    gate: &G,
) -> Result<(), EngineFault>
    requires of { IsOf engine.now pass.old.1 }
    requires there { AllThere pass.old.1 }
    requires shard { shard < length engine.now.locks }
    requires met { AreMet engine.now shard queue }
    requires room { 5 * length (configs_at engine.now shard) + 5 ≤ outs.old.room }
    requires idle { IsIdle pass.old shard }
    requires empty { part.old ≡ [] }
    ensures of { IsOf engine.now pass.new.1 }
    ensures there { AllThere pass.new.1 }
    ensures elsewhere { IsElsewhere pass.old pass.new shard }
    ensures used { HasUsedAt pass.new shard queue }
    ensures done { OnOk result (HasDoneAt engine.now shard queue pass.new part.new) }
    ensures stopped { IfErr result (λ fault. IsStopAt fault engine.now shard (length queue) pass.new) }
    ensures room { outs.new.room ≡ outs.old.room }
{
    let mut left = queue;
    'events: while let Some(event) = left.next() {
        match one_event(rt, engine, pass, shard, event, part, outs, steps, gate) {
            Ok(()) => {}
            Err(fault) => return Err(fault),
        }
    }
    Ok(())
}

/// The queues of a worker, one for each shard, which are empty where another worker has the shard: what each shard's events
/// gave, or why a turn was refused.
pub(crate) fn all_shards<W: Timers, R: Wait, G: Gate, L: Ledger>(
    rt: &R,
    alloc: Global,
    engine: &Engine<W>,
    pass: &mut EnginePass,
    queues: Vec<Queue>,
    outs: &mut Outs,
    steps: &mut Steps<L>,
    gate: &G,
) -> Result<Vec<Part>, EngineFault>
    requires ready { IsWorkerReady engine.now queues.items pass.old }
    requires room { (shard : ℕ) → 5 * length (configs_at engine.now shard) + 5 ≤ outs.old.room }
    ensures left { HasLeft engine.now queues.items pass.old pass.new }
    ensures done { IfOk result (λ parts. HasFinished engine.now queues.items
        pass.new parts.items) }
    ensures stopped { IfErr result (HasStopped engine.now queues.items pass.new) }
{
    let mut parts = Vec::new(alloc);
    for queue in queues {
        let mut part = Part::with_room(alloc, queue.len());
        let shard = parts.len() as u32;
        match one_shard(rt, engine, pass, shard, queue, &mut part, outs, steps, gate) {
            Ok(()) => {}
            Err(fault) => return Err(fault),
        }
        let Ok(()) = parts.push(part) else {
            return Err(EngineFault::Memory);
        };
    }
    Ok(parts)
}
