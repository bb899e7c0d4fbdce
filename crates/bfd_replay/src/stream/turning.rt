//! A line of a script through an engine.
ghost use Rattle.std.specs.Prelude.{ℕ, ◌≡◌, ◌≤◌, ◌<◌, ◌+◌, ◌*◌, [], ◌∷◌, IfErr, IfOk, List, OnOk, length, slice_get};
ghost use Rattle.bfd_shard.specs.declared.entry.ShardEvent.TheVariants.{Own as OwnEvent, Tick as TickEvent};
ghost use Rattle.bfd_session.specs.Reaching.{IsNamed, IsTaken};
ghost use Rattle.bfd_sbfd.specs.Reflect.{reflect};
ghost use Rattle.bfd_sbfd.specs.declared.reflecting.Reflector.{Reflector};
ghost use Rattle.bfd_session.specs.Alone.{Outcome};
ghost use Rattle.bfd_session.specs.Rows.{place_of as place_in};
ghost use Rattle.bfd_session.specs.Step.{CanTake};
ghost use Rattle.bfd_session.specs.declared.event.Event.TheVariants.{Returned};
ghost use Rattle.bfd_session.specs.declared.event.SessionConfig.{SessionConfig};
ghost use Rattle.bfd_script.specs.Doing.{asking};
ghost use Rattle.bfd_shard.specs.Shard.{CanHappen};
ghost use Rattle.bfd_engine.specs.Engines.{IsOf, AllThere, configs_at};
ghost use Rattle.bfd_engine.specs.Calls.{IsDone, Turns};
ghost use Rattle.bfd_engine.specs.Turned.{room_in};
ghost use Rattle.bfd_replay.specs.Happenings.{Among};
ghost use Rattle.bfd_replay.specs.Planned.{happening, happening_by, reflecting};
ghost use Rattle.bfd_replay.specs.Turning.{Gave, HasKept, IsRefusal, Went, brought};

use bfd_demux::Target;
use bfd_edge::Gate;
use bfd_engine::{Engine, EngineFault, EnginePass};
use bfd_num::{Moment, Steps, Tick};
use bfd_packet::Arrival;
use bfd_rules::{Outs, Refusal};
use bfd_script::line::Line;
use bfd_session::{Answer, Event, Table};
use bfd_shard::ShardEvent;
use bfd_wheel::Timers;
use std::sync::Wait;
use std::sync::ledger::Ledger;

/// A turn of a shard, between the gate's two calls. What was emitted before is dropped.
pub(super) fn turn<W: Timers, R: Wait, G: Gate, L: Ledger>(
    rt: &R,
    engine: &Engine<W>,
    pass: &mut EnginePass,
    number: u64,
    shard: u32,
    event: ShardEvent,
    outs: &mut Outs,
    steps: &mut Steps<L>,
    gate: &G,
) -> Result<Answer, EngineFault>
    requires of { IsOf engine.now pass.old.1 }
    requires there { AllThere pass.old.1 }
    requires shard { shard < length engine.now.locks }
    requires can { CanHappen (configs_at engine.now shard) event }
    requires room { room_in (configs_at engine.now shard) event ≤ outs.old.room }
    ensures of { IsOf engine.now pass.new.1 }
    ensures there { AllThere pass.new.1 }
    ensures call { IsDone (Turns shard event) engine.now pass.old pass.new [] outs.new.items result }
    ensures room { outs.new.room ≡ outs.old.room }
{
    let worker = pass.caller();
    outs.clear();
    gate.before(worker, number);
    let outcome = engine.turn_on(rt, pass, shard, event, outs, steps);
    gate.after(worker, number);
    outcome
}

/// A tick of every shard.
#[inline(never)]
fn tick<W: Timers, R: Wait, G: Gate, L: Ledger>(
    rt: &R,
    engine: &Engine<W>,
    pass: &mut EnginePass,
    number: u64,
    tick: Tick,
    outs: &mut Outs,
    steps: &mut Steps<L>,
    gate: &G,
) -> Result<Answer, EngineFault>
    requires of { IsOf engine.now pass.old.1 }
    requires there { AllThere pass.old.1 }
    requires number { pass.old.0 ≡ 0 }
    requires room { (shard : ℕ) → 5 * length (configs_at engine.now shard) + 5 ≤ outs.old.room }
    ensures of { IsOf engine.now pass.new.1 }
    ensures there { AllThere pass.new.1 }
    ensures kept { HasKept 1 pass.old pass.new }
    ensures went { OnOk result ((r : ℕ) → r < length engine.now.locks → Went pass.old pass.new (TickEvent tick ∷ []) r) }
    ensures gave { IfOk result (λ answer. Gave engine.now pass.old pass.new (Among (TickEvent tick))
        (record { items = outs.new.items; answer = answer })) }
    ensures refused { IfErr result (λ fault. IsRefusal fault engine.now pass.old pass.new) }
    ensures room { outs.new.room ≡ outs.old.room }
{
    let mut answer = Answer::Ticked;
    for shard in 0..engine.shards() {
        let event = ShardEvent::Tick(tick);
        answer = match turn(rt, engine, pass, number, shard, event, outs, steps, gate) {
            Ok(answer) => answer,
            Err(fault) => return Err(fault),
        };
    }
    Ok(answer)
}

/// An own event of the session at this place of the table.
#[inline(always)]
fn own<W: Timers, R: Wait, G: Gate, L: Ledger>(
    rt: &R,
    engine: &Engine<W>,
    pass: &mut EnginePass,
    number: u64,
    place: u32,
    moment: Moment,
    event: Event,
    outs: &mut Outs,
    steps: &mut Steps<L>,
    gate: &G,
) -> Result<Answer, EngineFault>
    requires of { IsOf engine.now pass.old.1 }
    requires there { AllThere pass.old.1 }
    requires number { pass.old.0 ≡ 0 }
    requires taken { IsTaken engine.now.configs place event }
    requires room { 5 ≤ outs.old.room }
    ensures of { IsOf engine.now pass.new.1 }
    ensures there { AllThere pass.new.1 }
    ensures kept { HasKept 1 pass.old pass.new }
    ensures went { OnOk result ((r : ℕ) → r < length engine.now.locks
        → Went pass.old pass.new (brought (length engine.now.locks) (Among (OwnEvent place moment event)) r) r) }
    ensures gave { IfOk result (λ answer. Gave engine.now pass.old pass.new (Among (OwnEvent place moment event))
        (record { items = outs.new.items; answer = answer })) }
    ensures refused { IfErr result (λ fault. IsRefusal fault engine.now pass.old pass.new) }
    ensures room { outs.new.room ≡ outs.old.room }
{
    let shards = engine.shards();
    let own = ShardEvent::Own {
        place: place / shards,
        moment,
        event,
    };
    match turn(
        rt,
        engine,
        pass,
        number,
        place % shards,
        own,
        outs,
        steps,
        gate,
    ) {
        Ok(answer) => Ok(answer),
        Err(fault) => Err(fault),
    }
}

/// An echo packet that came back to the session at this place of the table.
#[inline(never)]
fn returned<W: Timers, R: Wait, G: Gate, L: Ledger>(
    rt: &R,
    engine: &Engine<W>,
    pass: &mut EnginePass,
    number: u64,
    place: u32,
    moment: Moment,
    sequence: u32,
    outs: &mut Outs,
    steps: &mut Steps<L>,
    gate: &G,
) -> Result<Answer, EngineFault>
    requires of { IsOf engine.now pass.old.1 }
    requires there { AllThere pass.old.1 }
    requires number { pass.old.0 ≡ 0 }
    requires taken { IsTaken engine.now.configs place (Returned sequence) }
    requires room { 5 ≤ outs.old.room }
    ensures of { IsOf engine.now pass.new.1 }
    ensures there { AllThere pass.new.1 }
    ensures kept { HasKept 1 pass.old pass.new }
    ensures went { OnOk result ((r : ℕ) → r < length engine.now.locks
        → Went pass.old pass.new (brought (length engine.now.locks) (Among (OwnEvent place moment (Returned sequence))) r) r) }
    ensures gave { IfOk result (λ answer. Gave engine.now pass.old pass.new (Among (OwnEvent place moment (Returned sequence)))
        (record { items = outs.new.items; answer = answer })) }
    ensures refused { IfErr result (λ fault. IsRefusal fault engine.now pass.old pass.new) }
    ensures room { outs.new.room ≡ outs.old.room }
{
    let event = Event::Returned(sequence);
    own(
        rt, engine, pass, number, place, moment, event, outs, steps, gate,
    )
}

/// A packet for the reflector at this place of the table.
#[inline(never)]
fn reflected(table: &Table, place: u32, arrival: &Arrival, outs: &mut Outs) -> Answer
    requires named { IsNamed table.now.pool place arrival.now }
    requires room { 0 < outs.old.room }
    ensures gave { (let o : Outcome = record { items = outs.new.items; answer = result } in o)
        ≡ reflecting (slice_get table.now.pool place) (reflect table.now.pool arrival.now) }
    ensures room { outs.new.room ≡ outs.old.room }
{
    outs.clear();
    match table.reflected(place, arrival) {
        Ok(out) => {
            outs.push(out);
            Answer::Handled
        }
        Err(test) => Answer::Dropped(test),
    }
}

/// A command or a question to the session with this discriminator.
#[inline(never)]
fn asked<W: Timers, R: Wait, G: Gate, L: Ledger>(
    rt: &R,
    engine: &Engine<W>,
    pass: &mut EnginePass,
    number: u64,
    moment: Moment,
    discr: u32,
    event: Event,
    outs: &mut Outs,
    steps: &mut Steps<L>,
    gate: &G,
) -> Result<Answer, EngineFault>
    requires of { IsOf engine.now pass.old.1 }
    requires there { AllThere pass.old.1 }
    requires number { pass.old.0 ≡ 0 }
    requires free { (config : SessionConfig) → CanTake config event }
    requires room { 5 ≤ outs.old.room }
    ensures of { IsOf engine.now pass.new.1 }
    ensures there { AllThere pass.new.1 }
    ensures kept { HasKept 1 pass.old pass.new }
    ensures went { OnOk result ((pool : List Reflector) (r : ℕ) → r < length engine.now.locks → Went pass.old pass.new
        (brought (length engine.now.locks) (happening_by pool (asking moment event (place_in discr engine.now.configs))) r) r) }
    ensures gave { IfOk result (λ answer. (pool : List Reflector) → Gave engine.now pass.old pass.new
        (happening_by pool (asking moment event (place_in discr engine.now.configs)))
        (record { items = outs.new.items; answer = answer })) }
    ensures refused { IfErr result (λ fault. IsRefusal fault engine.now pass.old pass.new) }
    ensures room { outs.new.room ≡ outs.old.room }
{
    match engine.table().place_of(discr) {
        Some(place) => own(
            rt, engine, pass, number, place, moment, event, outs, steps, gate,
        ),
        None => {
            outs.clear();
            Ok(Answer::Refused(Refusal::UnknownSession))
        }
    }
}

/// The line of this number, by turns of the shards that it is for, each between `gate.before` and `gate.after`. On one shard `outs` and
/// the answer are then what the line gave, and on several those of the last turn.
#[inline(always)]
pub fn happen<W: Timers, R: Wait, G: Gate, L: Ledger>(
    rt: &R,
    engine: &Engine<W>,
    pass: &mut EnginePass,
    number: u64,
    line: Line,
    outs: &mut Outs,
    steps: &mut Steps<L>,
    gate: &G,
) -> Result<Answer, EngineFault>
    requires of { IsOf engine.now pass.old.1 }
    requires there { AllThere pass.old.1 }
    requires number { pass.old.0 ≡ 0 }
    requires some { 0 < length engine.now.locks }
    requires room { (shard : ℕ) → 5 * length (configs_at engine.now shard) + 5 ≤ outs.old.room }
    ensures of { IsOf engine.now pass.new.1 }
    ensures there { AllThere pass.new.1 }
    ensures kept { HasKept 1 pass.old pass.new }
    ensures went { OnOk result ((r : ℕ) → r < length engine.now.locks
        → Went pass.old pass.new (brought (length engine.now.locks) (happening engine.now.configs engine.now.pool line) r) r) }
    ensures gave { IfOk result (λ answer. Gave engine.now pass.old pass.new (happening engine.now.configs engine.now.pool line)
        (record { items = outs.new.items; answer = answer })) }
    ensures refused { IfErr result (λ fault. IsRefusal fault engine.now pass.old pass.new) }
    ensures room { outs.new.room ≡ outs.old.room }
{
    match line {
        Line::Rx { moment, arrival } => match engine.table().screen_uncounted(&arrival) {
            Ok(Target::Session(place)) => {
                let event = Event::Packet(arrival);
                own(
                    rt, engine, pass, number, place, moment, event, outs, steps, gate,
                )
            }
            Ok(Target::Echo(place, sequence)) => {
                returned(
                    rt, engine, pass, number, place, moment, sequence, outs, steps, gate,
                )
            }
            Ok(Target::Reflector(place)) => Ok(reflected(engine.table(), place, &arrival, outs)),
            Err(test) => {
                outs.clear();
                Ok(Answer::Dropped(test))
            }
        },
        Line::Tick(t) => tick(rt, engine, pass, number, t, outs, steps, gate),
        Line::Cmd { moment, discr, cmd } => {
            let event = Event::Command(cmd);
            asked(
                rt, engine, pass, number, moment, discr, event, outs, steps, gate,
            )
        }
        Line::Show { moment, discr } => {
            let event = Event::Show;
            asked(
                rt, engine, pass, number, moment, discr, event, outs, steps, gate,
            )
        }
    }
}
