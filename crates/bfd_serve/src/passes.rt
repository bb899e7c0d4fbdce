//! The workers' passes, from their making to their joining.
ghost use Rattle.std.specs.Prelude.{◌≡◌, ◌<◌, ◌≤◌, ℕ, length, IfOk, OnErr};
ghost use Rattle.std.specs.List.{All};
ghost use Rattle.bfd_engine.specs.Engines.{IsOf, AllThere};
ghost use Rattle.bfd_engine.specs.Opening.{IsNewPass};
ghost use Rattle.bfd_serve.specs.Joins.{IsOther, HasSplit, AreJoined, IsUnserved};

use bfd_engine::{Engine, EnginePass};
use bfd_wheel::Timers;
use std::alloc::{AllocError, Global};

/// Joins passes to that of caller 0, in order.
pub(crate) fn join_all<W: Timers>(
    engine: &Engine<W>,
    first: &mut EnginePass,
    passes: Vec<EnginePass>,
)
    requires of { IsOf engine.now first.old.1 }
    requires there { AllThere first.old.1 }
    requires number { first.old.0 ≡ 0 }
    requires others { All (IsOther engine.now) passes.items }
    ensures of { IsOf engine.now first.new.1 }
    ensures there { AllThere first.new.1 }
    ensures number { first.new.0 ≡ 0 }
    ensures joined { (shard : ℕ) → shard < length engine.now.locks → AreJoined first.old passes.items first.new shard }
{
    for pass in passes {
        engine.join(first, pass);
    }
}

/// So many passes of a new engine, or none when out of memory: then those that were made are joined again.
pub(crate) fn split_all<W: Timers>(
    engine: &Engine<W>,
    alloc: Global,
    first: &mut EnginePass,
    count: usize,
) -> Result<Vec<EnginePass>, AllocError>
    requires few { count ≤ 64 }
    requires new { IsNewPass engine.now first.old }
    ensures split { IfOk result (λ passes. HasSplit engine.now first.new passes.items count) }
    ensures refused { OnErr result (IsUnserved engine.now first.new) }
{
    let mut passes = Vec::with_capacity(alloc, count)?;
    for _ in 0..count {
        let Ok(pass) = engine.split(alloc, first) else {
            join_all(engine, first, passes);
            return Err(AllocError);
        };
        passes.push_reserved(pass);
    }
    Ok(passes)
}
