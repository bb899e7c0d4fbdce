//! The calls that read what the last event gave, and when the next is needed.
ghost use Rattle.std.specs.Prelude.{◌≡◌};
ghost use Rattle.bfd_c.specs.Engines.{held_by, soonest};
ghost use Rattle.bfd_c.specs.Reading.{answer_read, due_read, due_read_by, next_by, next_asked, output_asked, output_read, output_read_of};

use crate::engine::{CLOSED, DONE, END, Engine, SIZE};
use crate::handle::Handle;
use crate::sizes;
use crate::structs::{Answered, Output, answer_out, write_output};
use std::alloc::Global;

/// The next output that wasn't read, in a struct of the size that is known.
pub(crate) fn read_next(engine: &mut Engine, output: &mut Output) -> u32
    ensures call { (engine.new, result) ≡ next_by engine.old.left engine.old }
    ensures reported { output.new ≡ output_read engine.old.left output.old }
{
    match engine.first() {
        Some(out) => {
            write_output(out, output);
            engine.read_on();
            DONE
        }
        None => END,
    }
}

/// The same in a struct of any size.
fn read_sized(engine: &mut Engine, output: &mut Output) -> u32
    ensures call { (engine.new, result) ≡ next_asked output.old engine.old }
    ensures reported { output.new ≡ output_asked output.old engine.old }
{
    if output.size != sizes::OUTPUT {
        return SIZE;
    }
    read_next(engine, output)
}

/// The next output of the last event, in their order. Every event makes them stand to be read from the first on; what wasn't read
/// of the event before is gone.
///
/// 1 comes if and only if the handle is closed, 11 iff it's open and the struct's size isn't known, and 4 iff neither
/// comes and all were read. Then nothing has changed, `output` neither.
#[unsafe(no_mangle)]
pub extern "C" fn bfdd_next(alloc: Global, handle: &mut Handle, output: &mut Output) -> u32
    ensures call { (handle.new.kept.held, result) ≡ held_by (next_asked output.old) handle.old.kept.held }
    ensures reported { output.new ≡ output_read_of handle.old.kept.held output.old }
{
    match handle.take(alloc) {
        Some(engine) => {
            let mut engine = engine;
            let code = read_sized(&mut engine, output);
            handle.put(engine);
            code
        }
        None => CLOSED,
    }
}

/// What the last event was answered; before the first, that it was handled.
///
/// 1 comes if and only if the handle is closed, 11 iff it's open and the struct's size isn't known. Then nothing has changed,
/// `answer` neither.
#[unsafe(no_mangle)]
pub extern "C" fn bfdd_answer(alloc: Global, handle: &mut Handle, answer: &mut Answered) -> u32
    ensures held { handle.new.kept.held ≡ handle.old.kept.held }
    ensures reported { (answer.new, result) ≡ answer_read handle.old.kept.held answer.old }
{
    match handle.take(alloc) {
        Some(engine) => {
            let mut code = SIZE;
            if answer.size == sizes::ANSWERED {
                *answer = answer_out(engine.discr(), engine.answer());
                code = DONE;
            }
            handle.put(engine);
            code
        }
        None => CLOSED,
    }
}

/// The due tick of an engine.
fn read_due(engine: &Engine, ms: &mut u64) -> u32
    ensures { (ms.new, result) ≡ due_read_by (soonest engine.now.world.sessions) ms.old }
{
    match engine.due() {
        Some(t) => {
            *ms = t;
            DONE
        }
        None => END,
    }
}

/// The least tick that a session needs next, in milliseconds: no tick below it does anything. It may lie at or below the last one;
/// then the next tick does what is due.
///
/// 1 comes if and only if the handle is closed, 4 iff it's open and no session needs a tick. Then `ms` hasn't changed.
#[unsafe(no_mangle)]
pub extern "C" fn bfdd_due(alloc: Global, handle: &mut Handle, ms: &mut u64) -> u32
    ensures held { handle.new.kept.held ≡ handle.old.kept.held }
    ensures reported { (ms.new, result) ≡ due_read handle.old.kept.held ms.old }
{
    match handle.take(alloc) {
        Some(engine) => {
            let code = read_due(&engine, ms);
            handle.put(engine);
            code
        }
        None => CLOSED,
    }
}
