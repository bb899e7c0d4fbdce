//! Further passes of an engine.
ghost use Rattle.std.specs.Prelude.{◌≡◌, ◌≢◌, ◌<◌, ◌+◌, ℕ, Some, IfOk, OnErr, length, slice_get};
ghost use Rattle.bfd_turn.specs.Passes.{TableId};
ghost use Rattle.bfd_engine.specs.Engines.{IsOf, AllThere, AreNewAt};
ghost use Rattle.bfd_engine.specs.Passes.{Parted, CutsAt};

use crate::engine::Engine;
use crate::locked::Base;
use crate::pass::EnginePass;
use bfd_shard::Entry;
use bfd_turn::Pass;
use bfd_wheel::Timers;
use std::alloc::{AllocError, Global};

impl<W: Timers> Engine<W> {
    /// A pass of one shard with this number, made by caller 0.
    fn split_at(&self, first: &mut EnginePass, number: u32, at: usize) -> Pass<Entry, Base>
        requires of { IsOf self.now first.old.1 }
        requires there { AllThere first.old.1 }
        requires at { at < length self.now.locks }
        requires first { first.old.0 ≡ 0 }
        requires number { (0 < number) × (number ≡ first.old.2) }
        requires new { AreNewAt number first.old.1 at }
        ensures of { IsOf self.now first.new.1 }
        ensures there { AllThere first.new.1 }
        ensures number { first.new.0 ≡ 0 }
        ensures used { first.new.2 ≡ first.old.2 }
        ensures cut { CutsAt number at first.old.1 first.new.1 result }
    {
        let mut pass = first.lift(at);
        let made = self.locks[at].split(&mut pass, number);
        first.put(at, pass);
        made
    }

    /// A pass for a further caller, which has seen what caller 0 has seen. It has the next number on every shard: fewer than 64
    /// were used before. Fails only when out of memory; that uses the number up too, and leaves every shard's pass as it was.
    pub fn split(&self, alloc: Global, first: &mut EnginePass) -> Result<EnginePass, AllocError>
        requires of { IsOf self.now first.old.1 }
        requires there { AllThere first.old.1 }
        requires first { first.old.0 ≡ 0 }
        requires few { first.old.2 < 64 }
        ensures of { IsOf self.now first.new.1 }
        ensures there { AllThere first.new.1 }
        ensures number { first.new.0 ≡ 0 }
        ensures used { first.new.2 ≡ first.old.2 + 1 }
        ensures refused { OnErr result (first.new.1 ≡ first.old.1) }
        ensures other { IfOk result (λ other. (other.0 ≡ first.old.2 + 1) × IsOf self.now other.1 × AllThere other.1
            × (other.2 ≡ 0)) }
        ensures parted { IfOk result (λ other. (shard : ℕ) → shard < length self.now.locks
            → Parted first.old first.new other shard) }
    {
        let number = first.next_number();
        let mut passes = Vec::with_capacity(alloc, self.locks.len())?;
        for at in 0..self.locks.len() {
            passes.push_reserved(Some(self.split_at(first, number, at)));
        }
        Ok(EnginePass {
            passes,
            number,
            used: 0,
        })
    }
}
