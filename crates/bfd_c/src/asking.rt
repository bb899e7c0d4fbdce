//! The calls that are events: a packet, a tick, a command and a question.
ghost use Rattle.std.specs.Prelude.{◌≡◌, ◌≢◌, ◌≤◌, None, Some, Ok, Err, IfOk, OnErr, length};
ghost use Rattle.bfd_c.specs.Engines.{asked, called, held_by};
ghost use Rattle.bfd_c.specs.Lines.{cmd_of, command_line, packet_asked, packet_line, show_line, tick_line};
ghost use Rattle.bfd_c.specs.Sizes.{packet_size};

use crate::engine::{CLOSED, DONE, Engine, MEMORY, RANGE, SIZE};
use crate::handle::Handle;
use crate::sizes;
use crate::wire::{Packet, arrival};
use bfd_num::{Moment, Tick};
use bfd_rules::Cmd;
use bfd_script::line::Line;
use std::alloc::{AllocError, Global};

/// A question.
fn show(moment: u64, discr: u32) -> Option<Line>
    ensures { result ≡ show_line moment discr }
{
    if discr == 0 {
        return None;
    }
    match Moment::new(moment) {
        Some(moment) => Some(Line::Show { moment, discr }),
        None => None,
    }
}

/// The command of a number.
fn cmd(verb: u32, value: u64) -> Option<Cmd>
    ensures { result ≡ cmd_of verb value }
{
    match verb {
        1 => Some(Cmd::Disable),
        2 => Some(Cmd::Enable),
        3 => Some(Cmd::Reset),
        4 => Some(Cmd::Path(value)),
        5 => Some(Cmd::Tx(value)),
        6 => Some(Cmd::Rx(value)),
        7 => Some(Cmd::Mult(value)),
        8 => Some(Cmd::Demand(value)),
        9 => Some(Cmd::EchoEvery(value)),
        10 => Some(Cmd::Key(value)),
        _ => None,
    }
}

/// A command.
fn command(moment: u64, discr: u32, verb: u32, value: u64) -> Option<Line>
    ensures { result ≡ command_line moment discr verb value }
{
    if discr == 0 {
        return None;
    }
    match (Moment::new(moment), cmd(verb, value)) {
        (Some(moment), Some(cmd)) => Some(Line::Cmd { moment, discr, cmd }),
        _ => None,
    }
}

/// An event that was asked for, or none where a value is outside its range.
fn call(alloc: Global, handle: &mut Handle, line: Option<Line>) -> u32
    ensures { (handle.new.kept.held, result) ≡ called line handle.old.kept.held }
{
    match handle.take(alloc) {
        Some(engine) => {
            let mut engine = engine;
            let code = engine.ask(line);
            handle.put(engine);
            code
        }
        None => CLOSED,
    }
}

/// A tick for an open engine.
fn pass(engine: &mut Engine, ms: u64) -> u32
    ensures { (engine.new, result) ≡ asked (tick_line ms) engine.old }
{
    match Tick::new(ms) {
        Some(t) => {
            engine.tick(t);
            DONE
        }
        None => RANGE,
    }
}

/// A packet for an open engine, in a struct of the size that is known.
pub(crate) fn hear(alloc: Global, engine: &mut Engine, values: &Packet, payload: &[u8]) -> u32
    ensures done { result ≢ 2 → (engine.new, result) ≡ asked (packet_line values.now payload.now) engine.old }
    ensures memory { result ≡ 2 → engine.new ≡ engine.old }
    ensures fits { result ≡ 2 → packet_line values.now payload.now ≢ None }
    ensures short { length payload.now ≤ 52 → result ≢ 2 }
{
    let Some(moment) = Moment::new(values.moment) else {
        return RANGE;
    };
    match arrival(alloc, values, payload) {
        Ok(Some(arrival)) => {
            engine.hear(moment, arrival);
            DONE
        }
        Ok(None) => RANGE,
        Err(AllocError) => MEMORY,
    }
}

/// A packet came in. The first 256 bytes of its payload are kept.
///
/// 1 comes if and only if the handle is closed; 11 iff it's open and the struct's size isn't known; 3 iff neither comes
/// and the moment is 2^60 or above, the port isn't 1 to 5, the interface is above 65,535, or a family isn't 4 or 6; 2 only when out of
/// memory for the payload, where no other comes, and never with one of up to 52 bytes. Then nothing has changed.
#[unsafe(no_mangle)]
pub extern "C" fn bfdd_receive(
    alloc: Global,
    handle: &mut Handle,
    packet: &Packet,
    payload: &[u8],
) -> u32
    ensures done { result ≢ 2 → (handle.new.kept.held, result)
        ≡ held_by (packet_asked packet.now payload.now) handle.old.kept.held }
    ensures kept { result ≡ 2 → handle.new.kept.held ≡ handle.old.kept.held }
    ensures memory { result ≡ 2 → (handle.old.kept.held ≢ None) × (packet.now.size ≡ packet_size)
        × (packet_line packet.now payload.now ≢ None) }
    ensures short { length payload.now ≤ 52 → result ≢ 2 }
{
    match handle.take(alloc) {
        Some(engine) => {
            let mut engine = engine;
            let mut code = SIZE;
            if packet.size == sizes::PACKET {
                code = hear(alloc, &mut engine, packet, payload);
            }
            handle.put(engine);
            code
        }
        None => CLOSED,
    }
}

/// A tick of the clock, in milliseconds; one below the greatest so far counts as that.
///
/// 1 comes if and only if the handle is closed, 3 iff it's open and the tick is above the greatest,
/// 1,152,921,504,606,846. Then nothing has changed.
#[unsafe(no_mangle)]
pub extern "C" fn bfdd_tick(alloc: Global, handle: &mut Handle, ms: u64) -> u32
    ensures { (handle.new.kept.held, result) ≡ called (tick_line ms) handle.old.kept.held }
{
    match handle.take(alloc) {
        Some(engine) => {
            let mut engine = engine;
            let code = pass(&mut engine, ms);
            handle.put(engine);
            code
        }
        None => CLOSED,
    }
}

/// A command to the session of this discriminator, at this moment in microseconds: 1 disable, 2 enable, 3 reset, 4 path, 5 tx,
/// 6 rx, 7 mult, 8 demand, 9 echo, 10 key. The value counts from 4 on. It is 0, 6 or 8 of path (RFC 5880 section 6.8.17), microseconds
/// of tx, rx and echo, where 0 turns echo off, Detect Mult 1 to 255, 0 or 1 of demand, and a key's id of key. One that is out of
/// its range the session refuses.
///
/// 1 comes if and only if the handle is closed; 3 iff it's open and the moment is 2^60 or above, the discriminator is
/// 0, or the command none of these. Then nothing has changed. What the session refuses is an answer, with the code 0.
#[unsafe(no_mangle)]
pub extern "C" fn bfdd_command(
    alloc: Global,
    handle: &mut Handle,
    moment: u64,
    discr: u32,
    verb: u32,
    value: u64,
) -> u32
    ensures { (handle.new.kept.held, result) ≡ called (command_line moment discr verb value) handle.old.kept.held }
{
    call(alloc, handle, command(moment, discr, verb, value))
}

/// A question: the session of this discriminator is to show itself. What has come due by the moment, in microseconds, is done
/// first.
///
/// 1 comes if and only if the handle is closed; 3 iff it's open and the moment is 2^60 or above, or the discriminator
/// is 0. Then nothing has changed.
#[unsafe(no_mangle)]
pub extern "C" fn bfdd_show(alloc: Global, handle: &mut Handle, moment: u64, discr: u32) -> u32
    ensures { (handle.new.kept.held, result) ≡ called (show_line moment discr) handle.old.kept.held }
{
    call(alloc, handle, show(moment, discr))
}
