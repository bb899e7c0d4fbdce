//! A worker: one thread's loop over its link.
ghost use Rattle.std.specs.Prelude.{◌≡◌, false};
ghost use Rattle.bfd_engine.specs.Engines.{IsOf, AllThere};
ghost use Rattle.bfd_serve.specs.Works.{HasWorked};

use crate::calling::handle;
use crate::ending::End;
use bfd_edge::{Gate, Link, Received};
use bfd_engine::{Engine, EnginePass};
use bfd_rules::Outs;
use bfd_wheel::Timers;
use std::alloc::Global;
use std::sync::Wait;

/// Gives the arrivals of a link to the engine, in order, and sends what they emit on the same link. It may wait. It answers
/// why it ended, and how many sends failed.
///
/// A turn is one `receive` of the link, and at most `turns` are made. An arrival is handled between `gate.before` and `gate.after`. Ended
/// comes if and only if the link answers it, LinkFault where it fails to receive, Full and Spent where the engine's call has that fault,
/// and Turns where all turns were made. A send that fails is counted and no more: the engine goes on as if the packet had been lost on its
/// way. Memory means out of memory, and is never reported where all turns were made and all was handled and sent.
pub fn worker<W: Timers, L: Link, G: Gate, R: Wait>(
    rt: &R,
    alloc: Global,
    engine: &Engine<W>,
    pass: &mut EnginePass,
    link: &mut L,
    gate: &G,
    turns: u64,
) -> (End, u64)
    requires of { IsOf engine.now pass.old.1 }
    requires there { AllThere pass.old.1 }
    requires open { (L.observed link.old).counts.over ≡ false }
    ensures of { IsOf engine.now pass.new.1 }
    ensures there { AllThere pass.new.1 }
    ensures worked { HasWorked engine.now pass.old pass.new (L.observed link.old) (L.observed link.new)
        turns result.0 result.1 }
{
    let caller = pass.caller();
    let mut lost = 0;
    if turns == 0 {
        return (End::Turns(turns), lost);
    }
    let Ok(mut outs) = Outs::make(alloc, 5) else {
        return (End::Memory, lost);
    };
    for turn in 0..turns {
        match link.receive() {
            Received::Ended => return (End::Ended, lost),
            Received::Failed => return (End::LinkFault, lost),
            Received::Memory => return (End::Memory, lost),
            Received::Quiet => {}
            Received::Got { moment, arrival } => {
                gate.before(caller, turn);
                let handled = handle(
                    rt, engine, pass, link, moment, arrival, &mut outs, &mut lost,
                );
                gate.after(caller, turn);
                if let Err(end) = handled {
                    return (end, lost);
                }
            }
        }
    }
    (End::Turns(turns), lost)
}
