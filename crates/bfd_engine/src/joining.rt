//! The end of passes: joined into that of caller 0, and closed with the engine.
ghost use Rattle.std.specs.Prelude.{◌≡◌, ◌≢◌, ◌<◌, ◌≤◌, ℕ, [], Some, length, slice_get, vec_capacity};
ghost use Rattle.bfd_turn.specs.Passes.{TableId};
ghost use Rattle.bfd_engine.specs.Engines.{IsOf, AllThere};
ghost use Rattle.bfd_engine.specs.Passes.{Joined, GluesAt, EachJoined, AreClosed};
ghost use Rattle.bfd_engine.specs.Turned.{OfShard};

use crate::engine::Engine;
use crate::locked::Locked;
use crate::pass::EnginePass;
use bfd_shard::ShardState;
use bfd_wheel::Timers;

impl<W: Timers> Engine<W> {
    /// Joins another pass of one shard into that of caller 0.
    fn join_at(&self, first: &mut EnginePass, other: &mut EnginePass, at: usize)
        requires of { IsOf self.now first.old.1 × IsOf self.now other.old.1 }
        requires there { AllThere first.old.1 }
        requires here { (q : TableId × OfShard) × (slice_get other.old.1 at ≡ Some (Some q)) }
        requires at { at < length self.now.locks }
        requires numbers { (first.old.0 ≡ 0) × (other.old.0 ≢ 0) }
        ensures of { IsOf self.now first.new.1 × IsOf self.now other.new.1 }
        ensures there { AllThere first.new.1 }
        ensures numbers { (first.new.0 ≡ 0) × (other.new.0 ≡ other.old.0) }
        ensures used { first.new.2 ≡ first.old.2 }
        ensures glued { GluesAt other.old.0 at first.old.1 other.old.1 first.new.1 other.new.1 }
    {
        let mut pass = first.lift(at);
        let theirs = other.lift(at);
        self.locks[at].join(&mut pass, theirs);
        first.put(at, pass);
    }

    /// Joins another caller's pass into that of caller 0, which has then seen on each shard the longer of the two lists, of which
    /// each is a beginning, and keeps the other's number and calls. No later entry names that number.
    pub fn join(&self, first: &mut EnginePass, other: EnginePass)
        requires of { IsOf self.now first.old.1 × IsOf self.now other.1 }
        requires there { AllThere first.old.1 × AllThere other.1 }
        requires numbers { (first.old.0 ≡ 0) × (other.0 ≢ 0) }
        ensures of { IsOf self.now first.new.1 }
        ensures there { AllThere first.new.1 }
        ensures number { first.new.0 ≡ 0 }
        ensures used { first.new.2 ≡ first.old.2 }
        ensures joined { (shard : ℕ) → shard < length self.now.locks → Joined first.old other first.new shard }
    {
        let mut other = other;
        for at in 0..self.locks.len() {
            self.join_at(first, &mut other, at);
        }
    }

    /// The shards, by number, once every pass that was made was joined. `shards` is empty and has room for them. Allocates no memory.
    pub fn close(self, pass: EnginePass, shards: Vec<ShardState<W>>) -> Vec<ShardState<W>>
        requires of { IsOf self pass.1 }
        requires there { AllThere pass.1 }
        requires first { pass.0 ≡ 0 }
        requires joined { EachJoined self pass }
        requires none { shards.items ≡ [] }
        requires room { length self.locks ≤ vec_capacity shards }
        ensures closed { AreClosed self pass result.items }
    {
        let mut shards = shards;
        let mut pass = pass;
        let Engine { locks, .. } = self;
        for lock in locks {
            let own = pass.lift(shards.len());
            let Locked { shard } = lock.close(own);
            shards.push_reserved(Box::into_inner(shard));
        }
        shards
    }
}
