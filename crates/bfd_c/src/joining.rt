//! The calls by which sessions and reflectors come and go.
ghost use Rattle.std.specs.Prelude.{◌≡◌, ◌≢◌};
ghost use Rattle.bfd_c.specs.Engines.{held_by};
ghost use Rattle.bfd_c.specs.Joining as joining;
ghost use Rattle.bfd_c.specs.Joining.{fields_added, session_removed, reflector_added, reflector_removed};

use crate::engine::{CLOSED, Engine, RANGE, SIZE};
use crate::fields::{Fields, config, interval};
use crate::handle::Handle;
use crate::sizes;
use bfd_sbfd::Reflector;
use std::alloc::Global;

/// One more session for an open engine.
fn join(alloc: Global, engine: &mut Engine, fields: &Fields) -> u32
    ensures done { result ≢ 2 → (engine.new, result) ≡ fields_added fields.now engine.old }
    ensures kept { result ≡ 2 → engine.new ≡ engine.old }
    ensures memory { result ≡ 2 → (fields_added fields.now engine.old).1 ≡ 0 }
{
    if fields.size != sizes::SESSION {
        return SIZE;
    }
    match config(fields) {
        Some(config) => engine.add(alloc, config),
        None => RANGE,
    }
}

/// One more session, with the variables of the start. Nothing else changes: outputs that weren't read and the answer stay.
///
/// 1 comes if and only if the handle is closed; 11 iff it's open and the struct's size isn't known; 3 iff neither comes
/// and a value that the kind uses is outside its range; 9, 7 and 8 iff none of these comes and, in this order, there are 65,536
/// sessions and reflectors, one of them has the discriminator, a session of the kind has the same selecting addresses; and 2 only when out
/// of memory, and where no other comes. Then nothing has changed.
#[unsafe(no_mangle)]
pub extern "C" fn bfdd_add(alloc: Global, handle: &mut Handle, fields: &Fields) -> u32
    ensures done { result ≢ 2 → (handle.new.kept.held, result)
        ≡ held_by (fields_added fields.now) handle.old.kept.held }
    ensures kept { result ≡ 2 → handle.new.kept.held ≡ handle.old.kept.held }
    ensures memory { result ≡ 2 → (held_by (fields_added fields.now) handle.old.kept.held).1 ≡ 0 }
{
    match handle.take(alloc) {
        Some(engine) => {
            let mut engine = engine;
            let code = join(alloc, &mut engine, fields);
            handle.put(engine);
            code
        }
        None => CLOSED,
    }
}

/// The session of this discriminator leaves. Nothing else changes: outputs that weren't read and the answer stay.
///
/// 1 comes if and only if the handle is closed, 10 iff it's open and no session has the discriminator. Then nothing has
/// changed.
#[unsafe(no_mangle)]
pub extern "C" fn bfdd_remove(alloc: Global, handle: &mut Handle, discr: u32) -> u32
    ensures { (handle.new.kept.held, result) ≡ held_by (session_removed discr) handle.old.kept.held }
{
    match handle.take(alloc) {
        Some(engine) => {
            let mut engine = engine;
            let code = engine.remove(discr);
            handle.put(engine);
            code
        }
        None => CLOSED,
    }
}

/// A reflector of values in their ranges.
fn reflector(discr: u32, rx: u32, up: u32) -> Option<Reflector>
    ensures { result ≡ joining.reflector_from_c discr rx up }
{
    if discr >= 1 && interval(rx) && up < 2 {
        Some(Reflector {
            discr,
            rx,
            up: up == 1,
        })
    } else {
        None
    }
}

/// One more reflector for an open engine.
fn join_reflector(engine: &mut Engine, reflector: Option<Reflector>) -> u32
    ensures done { result ≢ 2 → (engine.new, result) ≡ reflector_added reflector engine.old }
    ensures kept { result ≡ 2 → engine.new ≡ engine.old }
    ensures memory { result ≡ 2 → (reflector_added reflector engine.old).1 ≡ 0 }
{
    match reflector {
        Some(reflector) => engine.add_reflector(reflector),
        None => RANGE,
    }
}

/// One more reflector, of this discriminator and Required Min RX Interval in microseconds, which is Up where `up` is 1 and
/// AdminDown where it is 0. Nothing else changes.
///
/// 1 comes if and only if the handle is closed; 3 iff it's open and the discriminator is 0, the interval outside 10,000 to
/// 60,000,000, or `up` above 1; and 9, 7 and 2 as of `bfdd_add`. Then nothing has changed.
#[unsafe(no_mangle)]
pub extern "C" fn bfdd_add_reflector(
    alloc: Global,
    handle: &mut Handle,
    discr: u32,
    rx: u32,
    up: u32,
) -> u32
    ensures done { result ≢ 2 → (handle.new.kept.held, result)
        ≡ held_by (reflector_added (joining.reflector_from_c discr rx up)) handle.old.kept.held }
    ensures kept { result ≡ 2 → handle.new.kept.held ≡ handle.old.kept.held }
    ensures memory { result ≡ 2
        → (held_by (reflector_added (joining.reflector_from_c discr rx up)) handle.old.kept.held).1 ≡ 0 }
{
    match handle.take(alloc) {
        Some(engine) => {
            let mut engine = engine;
            let code = join_reflector(&mut engine, reflector(discr, rx, up));
            handle.put(engine);
            code
        }
        None => CLOSED,
    }
}

/// The reflector of this discriminator leaves. Nothing else changes.
///
/// 1 comes if and only if the handle is closed, 10 iff it's open and no reflector has the discriminator. Then nothing has
/// changed.
#[unsafe(no_mangle)]
pub extern "C" fn bfdd_remove_reflector(alloc: Global, handle: &mut Handle, discr: u32) -> u32
    ensures { (handle.new.kept.held, result) ≡ held_by (reflector_removed discr) handle.old.kept.held }
{
    match handle.take(alloc) {
        Some(engine) => {
            let mut engine = engine;
            let code = engine.remove_reflector(discr);
            handle.put(engine);
            code
        }
        None => CLOSED,
    }
}
