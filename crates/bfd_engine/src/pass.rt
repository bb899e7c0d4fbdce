//! A caller's right to ask an engine for turns.
ghost use Rattle.std.specs.Prelude.{◌≡◌, ◌<◌, ◌+◌, length, Some, None, slice_get, slice_set};
ghost use Rattle.bfd_turn.specs.Passes.{TableId};
ghost use Rattle.bfd_engine.specs.Engines.{AreNew, IsCallers};
ghost use Rattle.bfd_engine.specs.Turned.{OfShard};

use crate::locked::Base;
use bfd_shard::Entry;
use bfd_turn::Pass;
use std::marker::Model;

/// One caller's passes, one for each shard. A shard whose turn it holds has none meanwhile.
#[derive(Drop)]
pub struct EnginePass {
    pub(crate) passes: Vec<Option<Pass<Entry, Base>>>,
    pub(crate) number: u32,
    // How many numbers caller 0 has used for passes.
    pub(crate) used: u32,
}

impl Model for EnginePass {
    ghost use Rattle.bfd_engine.specs.Engines.{Knows, AllOf};

    ghost Value = { Knows };

    ghost view = { λ pass. (pass.number, pass.passes.items, pass.used) };

    ghost invariant = { λ pass. AllOf pass.number pass.used pass.passes.items };
}

impl EnginePass {
    /// The caller's number: 0 for the pass that the engine was opened with.
    pub fn caller(&self) -> u32
        ensures { result ≡ self.now.0 }
    {
        self.number
    }

    /// How many numbers were used for passes that this caller made: those from 1 up to this.
    pub fn used(&self) -> u32
        ensures { result ≡ self.now.2 }
    {
        self.used
    }

    /// Uses the next number up.
    pub(crate) fn next_number(&mut self) -> u32
        requires few { self.old.2 < 64 }
        ensures number { result ≡ self.old.2 + 1 }
        ensures used { self.new ≡ (self.old.0, self.old.1, result) }
        ensures new { AreNew result self.old.1 }
    {
        self.used += 1;
        self.used
    }

    /// Takes a shard's pass out, and leaves none there.
    pub(crate) fn lift(&mut self, shard: usize) -> Pass<Entry, Base>
        requires { (p : TableId × OfShard) × (slice_get self.old.1 shard ≡ Some (Some p)) }
        ensures pass { slice_get self.old.1 shard ≡ Some (Some result) }
        ensures rest { self.new ≡ (self.old.0, slice_set self.old.1 shard None, self.old.2) }
        ensures callers { IsCallers self.old.0 self.old.2 result.1 }
    {
        let held = self.passes[shard].take();
        let Some(pass) = held else { unreachable!() };
        pass
    }

    /// Puts a shard's pass back.
    pub(crate) fn put(&mut self, shard: usize, pass: Pass<Entry, Base>)
        requires callers { IsCallers self.old.0 self.old.2 pass.1 }
        requires place { shard < length self.old.1 }
        ensures { self.new ≡ (self.old.0, slice_set self.old.1 shard (Some pass), self.old.2) }
    {
        self.passes[shard] = Some(pass);
    }
}
