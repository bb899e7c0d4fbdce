//! The engine of a script.
ghost use Rattle.std.specs.Prelude.{◌≤◌, ◌<◌, IfOk, length};
ghost use Rattle.bfd_engine.specs.Opening.{IsNewPass};
ghost use Rattle.bfd_script.specs.Sound.{IsScript};
ghost use Rattle.bfd_replay.specs.Turning.{IsOpenedFor};

use bfd_engine::{Engine, EnginePass, OpenFault};
use bfd_sbfd::Reflector;
use bfd_script::line::Line;
use bfd_session::SessionConfig;
use bfd_wheel::Timers;
use std::alloc::{AllocError, Global};

/// An engine of a script's sessions and reflectors, whose shards' journals have room for all its events. Fails only when out of memory.
#[tactic(auto, using(crate::proofs::Opening::no_fault, crate::proofs::Opening::sorted))]
pub fn opened<W: Timers>(
    alloc: Global,
    configs: Vec<SessionConfig>,
    pool: Vec<Reflector>,
    events: &[Line],
    shards: u32,
) -> Result<(Engine<W>, EnginePass), AllocError>
    requires shards { (0 < shards) × (shards ≤ 64) }
    requires script { IsScript (record { configs = configs.items; pool = pool.items; events = events.now }) }
    ensures engine { IfOk result (λ r. IsOpenedFor r.0 configs.items pool.items shards (length events.now)) }
    ensures pass { IfOk result (λ r. IsNewPass r.0 r.1) }
{
    match Engine::open(alloc, configs, pool, shards, events.len()) {
        Ok(opened) => Ok(opened),
        Err(OpenFault::Memory) => Err(AllocError),
        Err(OpenFault::Build(_)) => unreachable!(),
    }
}
