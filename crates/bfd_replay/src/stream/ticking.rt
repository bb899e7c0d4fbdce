//! A tick on several shards, reported.
ghost use Rattle.std.specs.Prelude.{ℕ, ◌≡◌, ◌≤◌, ◌<◌, ◌+◌, ◌*◌, [], ◌∷◌, IfErr, IfOk, OnOk, length, slice_index_or};
ghost use Rattle.bfd_shard.specs.declared.entry.ShardEvent.TheVariants.{Tick as TickEvent};
ghost use Rattle.bfd_engine.specs.Engines.{IsOf, AllThere, configs_at};
ghost use Rattle.bfd_replay.specs.Turning.{HasKept, HaveReportedTick, IsRefusal, Went};

use crate::report::Part;
use crate::stream::turning::turn;
use bfd_edge::Gate;
use bfd_engine::{Engine, EngineFault, EnginePass};
use bfd_num::{Steps, Tick};
use bfd_rules::Outs;
use bfd_shard::ShardEvent;
use bfd_wheel::Timers;
use std::alloc::Global;
use std::sync::Wait;
use std::sync::ledger::Ledger;

/// A tick of every shard: what each reports of it, and behind them an empty part, that of the events that match no session.
pub(super) fn tick_parts<W: Timers, R: Wait, G: Gate, L: Ledger>(
    rt: &R,
    alloc: Global,
    engine: &Engine<W>,
    pass: &mut EnginePass,
    number: u64,
    tick: Tick,
    outs: &mut Outs,
    steps: &mut Steps<L>,
    gate: &G,
) -> Result<Vec<Part>, EngineFault>
    requires of { IsOf engine.now pass.old.1 }
    requires there { AllThere pass.old.1 }
    requires number { pass.old.0 ≡ 0 }
    requires room { (shard : ℕ) → 5 * length (configs_at engine.now shard) + 5 ≤ outs.old.room }
    ensures of { IsOf engine.now pass.new.1 }
    ensures there { AllThere pass.new.1 }
    ensures kept { HasKept 1 pass.old pass.new }
    ensures went { OnOk result ((r : ℕ) → r < length engine.now.locks → Went pass.old pass.new (TickEvent tick ∷ []) r) }
    ensures long { IfOk result (λ parts. length parts.items ≡ length engine.now.locks + 1) }
    ensures reported { IfOk result (λ parts. HaveReportedTick engine.now number tick (length engine.now.locks)
        pass.old pass.new parts.items) }
    ensures last { IfOk result (λ parts. slice_index_or parts.items (length engine.now.locks) [] ≡ []) }
    ensures refused { IfErr result (λ fault. IsRefusal fault engine.now pass.old pass.new) }
    ensures room { outs.new.room ≡ outs.old.room }
{
    let mut parts = Vec::new(alloc);
    for shard in 0..engine.shards() {
        let event = ShardEvent::Tick(tick);
        match turn(rt, engine, pass, number, shard, event, outs, steps, gate) {
            Ok(_) => {}
            Err(fault) => return Err(fault),
        }
        let mut part = Part::new(alloc);
        let Ok(()) = part.add_tick(number, outs.items()) else {
            return Err(EngineFault::Memory);
        };
        let Ok(()) = parts.push(part) else {
            return Err(EngineFault::Memory);
        };
    }
    let Ok(()) = parts.push(Part::new(alloc)) else {
        return Err(EngineFault::Memory);
    };
    Ok(parts)
}
