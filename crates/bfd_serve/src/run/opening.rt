//! The engine of a script.
ghost use Rattle.std.specs.Prelude.{◌≡◌, ◌<◌, ◌≤◌, IfOk, length};
ghost use Rattle.bfd_script.specs.Sound.{IsScript};
ghost use Rattle.bfd_engine.specs.Opening.{IsNewPass};
ghost use Rattle.bfd_serve.specs.Runs.{IsOpened, script_with};

use bfd_engine::{Engine, EnginePass, OpenFault};
use bfd_sbfd::Reflector;
use bfd_script::line::Line;
use bfd_session::SessionConfig;
use bfd_wheel::Timers;
use std::alloc::{AllocError, Global};

/// An engine of a script's sessions and reflectors. `events` are its event lines, which its table says nothing of.
#[tactic(auto, using(crate::proofs::Tables::no_fault, crate::proofs::Tables::sorted))]
pub(crate) fn opened<W: Timers>(
    alloc: Global,
    configs: Vec<SessionConfig>,
    pool: Vec<Reflector>,
    events: &[Line],
    shards: u32,
    journal: usize,
) -> Result<(Engine<W>, EnginePass), AllocError>
    requires shards { (0 < shards) × (shards ≤ 64) }
    requires script { IsScript (script_with configs.items pool.items events.now) }
    ensures engine { IfOk result (λ r. IsOpened r.0 (script_with configs.items pool.items events.now) shards journal) }
    ensures pass { IfOk result (λ r. IsNewPass r.0 r.1) }
{
    match Engine::open(alloc, configs, pool, shards, journal) {
        Ok(opened) => Ok(opened),
        Err(OpenFault::Memory) => Err(AllocError),
        Err(OpenFault::Build(_)) => unreachable!(),
    }
}
