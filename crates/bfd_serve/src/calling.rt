//! Calls of the engine, each with a counter of steps of its own, and the sends that follow them.
ghost use Rattle.std.specs.Prelude.{◌≡◌, ◌≤◌, ◌<◌, ◌+◌, ◌*◌, ◌∷◌, [], length};
ghost use Rattle.bfd_shard.specs.declared.entry.ShardEvent.TheVariants.{Tick as TickEvent};
ghost use Rattle.bfd_engine.specs.Engines.{IsOf, AllThere, configs_at};
ghost use Rattle.bfd_engine.specs.Calls.{IsDone, Turns, arrival_act};
ghost use Rattle.bfd_serve.specs.Orders.{order_act};
ghost use Rattle.bfd_serve.specs.Works.{AreDone, HasRoom};
ghost use Rattle.bfd_num.specs.Counting.{IsBlankOf};

use crate::ending::End;
use crate::sending::settle;
use bfd_edge::Link;
use bfd_engine::{Engine, EngineFault, EnginePass};
use bfd_num::{Moment, Steps, Tick};
use bfd_packet::Arrival;
use bfd_rules::Outs;
use bfd_script::line::Line;
use bfd_session::Answer;
use bfd_wheel::Timers;
use std::marker::Brand;
use std::sync::Wait;
use std::sync::ledger::{Blank, Ledger};

/// Hands an arrival to the engine.
fn receive<W: Timers, R: Wait, S: Ledger>(
    rt: &R,
    engine: &Engine<W>,
    pass: &mut EnginePass,
    moment: Moment,
    arrival: Arrival,
    outs: &mut Outs,
    blank: Blank,
) -> Result<Answer, EngineFault>
    requires blank { IsBlankOf S.name S.parts blank.name blank.parts }
    requires of { IsOf engine.now pass.old.1 }
    requires there { AllThere pass.old.1 }
    requires room { 5 ≤ outs.old.spare }
    ensures of { IsOf engine.now pass.new.1 }
    ensures there { AllThere pass.new.1 }
    ensures call { IsDone (arrival_act engine.now moment arrival)
        engine.now pass.old pass.new outs.old.items outs.new.items result }
    ensures room { outs.new.room ≡ outs.old.room }
{
    engine.receive(rt, pass, moment, arrival, outs, &mut Steps::<S>::new(blank))
}

/// Hands an arrival to the engine, and sends what it emits.
#[tactic(auto, using(crate::proofs::Doing::done_one))]
pub(crate) fn handle<W: Timers, L: Link, R: Wait>(
    rt: &R,
    engine: &Engine<W>,
    pass: &mut EnginePass,
    link: &mut L,
    moment: Moment,
    arrival: Arrival,
    outs: &mut Outs,
    lost: &mut u64,
) -> Result<(), End>
    requires of { IsOf engine.now pass.old.1 }
    requires there { AllThere pass.old.1 }
    requires room { 5 ≤ outs.old.room }
    ensures of { IsOf engine.now pass.new.1 }
    ensures there { AllThere pass.new.1 }
    ensures room { outs.new.room ≡ outs.old.room }
    ensures done { AreDone engine.now (arrival_act engine.now moment arrival ∷ []) pass.old pass.new (L.observed link.old)
        (L.observed link.new) lost.old lost.new result }
{
    outs.clear();
    let outcome = receive::<W, R, Brand>(rt, engine, pass, moment, arrival, outs, Blank::new(1));
    settle(outcome, link, outs.items(), lost)
}

/// Gives an order to the engine. A packet and a tick are no orders: they do nothing.
fn ask<W: Timers, R: Wait, S: Ledger>(
    rt: &R,
    engine: &Engine<W>,
    pass: &mut EnginePass,
    order: &Line,
    outs: &mut Outs,
    blank: Blank,
) -> Result<Answer, EngineFault>
    requires blank { IsBlankOf S.name S.parts blank.name blank.parts }
    requires of { IsOf engine.now pass.old.1 }
    requires there { AllThere pass.old.1 }
    requires room { 5 ≤ outs.old.spare }
    ensures of { IsOf engine.now pass.new.1 }
    ensures there { AllThere pass.new.1 }
    ensures call { IsDone (order_act engine.now order.now)
        engine.now pass.old pass.new outs.old.items outs.new.items result }
    ensures room { outs.new.room ≡ outs.old.room }
{
    let mut steps = Steps::<S>::new(blank);
    match order {
        Line::Rx { .. } | Line::Tick(_) => Ok(Answer::Handled),
        Line::Cmd { moment, discr, cmd } => {
            engine.command(rt, pass, *moment, *discr, *cmd, outs, &mut steps)
        }
        Line::Show { moment, discr } => engine.show(rt, pass, *moment, *discr, outs, &mut steps),
    }
}

/// Gives an order to the engine, and sends what it emits.
#[tactic(auto, using(crate::proofs::Doing::done_one))]
pub(crate) fn give<W: Timers, L: Link, R: Wait>(
    rt: &R,
    engine: &Engine<W>,
    pass: &mut EnginePass,
    link: &mut L,
    order: &Line,
    outs: &mut Outs,
    lost: &mut u64,
) -> Result<(), End>
    requires of { IsOf engine.now pass.old.1 }
    requires there { AllThere pass.old.1 }
    requires room { 5 ≤ outs.old.room }
    ensures of { IsOf engine.now pass.new.1 }
    ensures there { AllThere pass.new.1 }
    ensures room { outs.new.room ≡ outs.old.room }
    ensures done { AreDone engine.now (order_act engine.now order.now ∷ []) pass.old pass.new (L.observed link.old)
        (L.observed link.new) lost.old lost.new result }
{
    outs.clear();
    let outcome = ask::<W, R, Brand>(rt, engine, pass, order, outs, Blank::new(1));
    settle(outcome, link, outs.items(), lost)
}

/// Advances a shard of the engine.
fn advance_shard<W: Timers, R: Wait, S: Ledger>(
    rt: &R,
    engine: &Engine<W>,
    pass: &mut EnginePass,
    shard: u32,
    tick: Tick,
    outs: &mut Outs,
    blank: Blank,
) -> Result<Answer, EngineFault>
    requires blank { IsBlankOf S.name S.parts blank.name blank.parts }
    requires of { IsOf engine.now pass.old.1 }
    requires there { AllThere pass.old.1 }
    requires shard { shard < length engine.now.locks }
    requires room { 5 * length (configs_at engine.now shard) ≤ outs.old.spare }
    ensures of { IsOf engine.now pass.new.1 }
    ensures there { AllThere pass.new.1 }
    ensures call { IsDone (Turns shard (TickEvent tick))
        engine.now pass.old pass.new outs.old.items outs.new.items result }
    ensures room { outs.new.room ≡ outs.old.room }
{
    engine.advance(rt, pass, shard, tick, outs, &mut Steps::<S>::new(blank))
}

/// Advances a shard of the engine, and sends what it emits.
pub(crate) fn advance<W: Timers, L: Link, R: Wait>(
    rt: &R,
    engine: &Engine<W>,
    pass: &mut EnginePass,
    link: &mut L,
    shard: u32,
    tick: Tick,
    outs: &mut Outs,
    lost: &mut u64,
) -> Result<(), End>
    requires of { IsOf engine.now pass.old.1 }
    requires there { AllThere pass.old.1 }
    requires shard { shard < length engine.now.locks }
    requires room { HasRoom engine.now outs.old.room }
    ensures of { IsOf engine.now pass.new.1 }
    ensures there { AllThere pass.new.1 }
    ensures room { outs.new.room ≡ outs.old.room }
    ensures done { AreDone engine.now (Turns shard (TickEvent tick) ∷ []) pass.old pass.new (L.observed link.old)
        (L.observed link.new) lost.old lost.new result }
{
    outs.clear();
    let outcome = advance_shard::<W, R, Brand>(rt, engine, pass, shard, tick, outs, Blank::new(1));
    settle(outcome, link, outs.items(), lost)
}
