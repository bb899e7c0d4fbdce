//! The timer: one thread's loop over its ticker.
ghost use Rattle.std.specs.Prelude.{◌≡◌, ◌<◌, ◌≤◌, ◌+◌, ◌*◌, [], false, true, length, IfNone, IfSome};
ghost use Rattle.bfd_engine.specs.Engines.{IsOf, AllThere, configs_at};
ghost use Rattle.bfd_serve.specs.Orders as todo;
ghost use Rattle.bfd_serve.specs.Orders.{orders_due, advances, orders_acts, tick_acts};
ghost use Rattle.bfd_serve.specs.Works.{AreDone, HasRoom, IsTooWide};
ghost use Rattle.bfd_serve.specs.Ticks.{HasTimed, IsFinished};

use crate::calling::{advance, give};
use crate::ending::End;
use bfd_edge::{Link, Next, Ticker};
use bfd_engine::{Engine, EnginePass};
use bfd_num::Tick;
use bfd_rules::Outs;
use bfd_script::line::Line;
use bfd_wheel::Timers;
use std::alloc::Global;
use std::sync::Wait;

/// Whether the line's moment has come by a tick.
fn is_due(order: &Line, tick: Tick) -> bool
    ensures { result ≡ todo.is_due tick order.now }
{
    let ms = tick.get();
    match order {
        Line::Rx { moment, .. } | Line::Cmd { moment, .. } | Line::Show { moment, .. } => {
            moment.get() <= 1000 * ms
        }
        Line::Tick(tick) => tick.get() <= ms,
    }
}

/// How many leading orders are due by a tick.
fn due_by(orders: &[Line], tick: Tick) -> usize
    ensures value { result ≡ orders_due tick orders.now }
    ensures few { result ≤ length orders.now }
{
    for at in 0..orders.len() {
        if !is_due(&orders[at], tick) {
            return at;
        }
    }
    orders.len()
}

/// Gives orders, in order.
fn give_all<W: Timers, L: Link, R: Wait>(
    rt: &R,
    engine: &Engine<W>,
    pass: &mut EnginePass,
    link: &mut L,
    orders: &[Line],
    outs: &mut Outs,
    lost: &mut u64,
) -> Result<(), End>
    requires of { IsOf engine.now pass.old.1 }
    requires there { AllThere pass.old.1 }
    requires room { 5 ≤ outs.old.room }
    ensures of { IsOf engine.now pass.new.1 }
    ensures there { AllThere pass.new.1 }
    ensures room { outs.new.room ≡ outs.old.room }
    ensures done { AreDone engine.now (orders_acts engine.now orders.now) pass.old pass.new (L.observed link.old)
        (L.observed link.new) lost.old lost.new result }
{
    for at in 0..orders.len() {
        if let Err(end) = give(rt, engine, pass, link, &orders[at], outs, lost) {
            return Err(end);
        }
    }
    Ok(())
}

/// Advances every shard, ascending.
fn advance_all<W: Timers, L: Link, R: Wait>(
    rt: &R,
    engine: &Engine<W>,
    pass: &mut EnginePass,
    link: &mut L,
    tick: Tick,
    outs: &mut Outs,
    lost: &mut u64,
) -> Result<(), End>
    requires of { IsOf engine.now pass.old.1 }
    requires there { AllThere pass.old.1 }
    requires room { HasRoom engine.now outs.old.room }
    ensures of { IsOf engine.now pass.new.1 }
    ensures there { AllThere pass.new.1 }
    ensures room { outs.new.room ≡ outs.old.room }
    ensures done { AreDone engine.now (advances (length engine.now.locks) tick) pass.old pass.new (L.observed link.old)
        (L.observed link.new) lost.old lost.new result }
{
    for shard in 0..engine.shards() {
        if let Err(end) = advance(rt, engine, pass, link, shard, tick, outs, lost) {
            return Err(end);
        }
    }
    Ok(())
}

/// Gives the orders that are due by a tick, and then advances every shard.
fn on_tick<W: Timers, L: Link, R: Wait>(
    rt: &R,
    engine: &Engine<W>,
    pass: &mut EnginePass,
    link: &mut L,
    orders: &[Line],
    due_orders: usize,
    tick: Tick,
    outs: &mut Outs,
    lost: &mut u64,
) -> Result<(), End>
    requires of { IsOf engine.now pass.old.1 }
    requires there { AllThere pass.old.1 }
    requires room { HasRoom engine.now outs.old.room }
    requires due { due_orders ≡ orders_due tick orders.now }
    requires few { due_orders ≤ length orders.now }
    ensures of { IsOf engine.now pass.new.1 }
    ensures there { AllThere pass.new.1 }
    ensures room { outs.new.room ≡ outs.old.room }
    ensures done { AreDone engine.now (tick_acts engine.now orders.now tick) pass.old pass.new (L.observed link.old)
        (L.observed link.new) lost.old lost.new result }
{
    if let Err(end) = give_all(rt, engine, pass, link, &orders[..due_orders], outs, lost) {
        return Err(end);
    }
    advance_all(rt, engine, pass, link, tick, outs, lost)
}

/// Gives the orders that are left.
fn finish<W: Timers, L: Link, R: Wait>(
    rt: &R,
    engine: &Engine<W>,
    pass: &mut EnginePass,
    link: &mut L,
    orders: &[Line],
    outs: &mut Outs,
    lost: &mut u64,
) -> End
    requires of { IsOf engine.now pass.old.1 }
    requires there { AllThere pass.old.1 }
    requires room { 5 ≤ outs.old.room }
    ensures of { IsOf engine.now pass.new.1 }
    ensures there { AllThere pass.new.1 }
    ensures finished { IsFinished engine.now (orders_acts engine.now orders.now) pass.old pass.new (L.observed link.old)
        (L.observed link.new) lost.old lost.new result }
{
    match give_all(rt, engine, pass, link, orders, outs, lost) {
        Ok(()) => End::Ended,
        Err(end) => end,
    }
}

/// Room for the outputs of any one call of the engine, if so much can be asked for: for five outputs of each session of any shard.
fn room_of<W: Timers>(engine: &Engine<W>) -> Option<usize>
    ensures room { IfSome result (λ room. HasRoom engine.now room) }
    ensures none { IfNone result (IsTooWide engine.now) }
{
    let mut most = 1;
    for shard in 0..engine.shards() {
        most = most.max(engine.sessions(shard));
    }
    most.checked_mul(5)
}

/// Whether neither a tick nor an order is left.
fn is_idle(orders: &[Line], ticks: u64) -> bool
    ensures none { result ≡ true → (ticks ≡ 0) × (orders.now ≡ []) }
    ensures some { result ≡ false → 0 < ticks + length orders.now }
{
    ticks == 0 && orders.is_empty()
}

/// Advances the engine to the ticks of a ticker, and gives it orders, each before the first tick by which its moment has come. It
/// sends what they emit on its link. It may wait. It answers why it ended, and how many sends failed.
///
/// Before a tick come the leading orders that are due by it, up to the first that isn't; then every shard is advanced to it, ascending. At
/// most `ticks` ticks are accepted. After the last one, and where the ticker answers Ended, come the orders that are left, and then the end
/// is Ended. ClockFault comes immediately, if and only if the ticker fails, Full and Spent where the engine's call has that fault. A send
/// that fails is counted and no more. Memory means out of memory, and is never reported where all was done.
pub fn timer<W: Timers, L: Link, T: Ticker, R: Wait>(
    rt: &R,
    alloc: Global,
    engine: &Engine<W>,
    pass: &mut EnginePass,
    link: &mut L,
    ticker: &mut T,
    orders: &[Line],
    ticks: u64,
) -> (End, u64)
    requires of { IsOf engine.now pass.old.1 }
    requires there { AllThere pass.old.1 }
    requires open { (T.observed ticker.old).over ≡ false }
    ensures of { IsOf engine.now pass.new.1 }
    ensures there { AllThere pass.new.1 }
    ensures timed { HasTimed engine.now pass.old pass.new (L.observed link.old) (L.observed link.new) (T.observed ticker.old)
        (T.observed ticker.new) orders.now ticks result.0 result.1 }
{
    let mut lost = 0;
    if is_idle(orders, ticks) {
        return (End::Ended, lost);
    }
    let Some(room) = room_of(engine) else {
        return (End::Memory, lost);
    };
    let Ok(mut outs) = Outs::make(alloc, room) else {
        return (End::Memory, lost);
    };
    let mut left = orders;
    for count in 0..ticks {
        match ticker.next() {
            Next::Ended => {
                let end = finish(rt, engine, pass, link, left, &mut outs, &mut lost);
                return (end, lost);
            }
            Next::Failed => return (End::ClockFault, lost),
            Next::Got(tick) => {
                let due = due_by(left, tick);
                let ticked = on_tick(
                    rt, engine, pass, link, left, due, tick, &mut outs, &mut lost,
                );
                if let Err(end) = ticked {
                    return (end, lost);
                }
                (_, left) = left.split_at(due);
            }
        }
    }
    let end = finish(rt, engine, pass, link, left, &mut outs, &mut lost);
    (end, lost)
}
