//! A shard's turn that is held from call to call, and adds no entry.
ghost use Rattle.std.specs.Prelude.{◌≡◌, ◌<◌, Some, IfOk, IfErr, OnErr, length, slice_get, slice_set};
ghost use Rattle.bfd_turn.specs.Passes.{TableId, having_done};
ghost use Rattle.bfd_engine.specs.Engines.{IsOf, AllThere};
ghost use Rattle.bfd_engine.specs.Holds.{IsHeld, HasTaken, IsKept};
ghost use Rattle.bfd_engine.specs.Turned.{OfShard};

use crate::engine::Engine;
use crate::locked::Locked;
use crate::pass::EnginePass;
use bfd_turn::{TryFault, Turn};
use bfd_wheel::Timers;
use std::marker::Model;

/// The turn of a shard, until `Engine::let_go`, which has to spend it. Meanwhile its pass has none of this shard.
pub struct Hold<W: Timers> {
    turn: Turn<Locked<W>>,
    shard: u32,
}

impl<W: Timers> Model for Hold<W> {
    ghost use Rattle.std.specs.Prelude.{◌≡◌, Some};
    ghost use Rattle.bfd_session.specs.Kinds.{configs_of};
    ghost use Rattle.bfd_engine.specs.Holds.{Holding};

    ghost Value = { Holding };

    ghost view = { λ hold. (hold.shard, hold.turn.0, hold.turn.1) };

    ghost invariant = { λ hold. (hold.turn.2.shard.value.journal ≡ hold.turn.1.seen)
        × (Some (record {
          configs = configs_of hold.turn.2.shard.value.sessions;
          limit = hold.turn.2.shard.value.limit;
        }) ≡ hold.turn.1.base) };
}

/// Why a turn isn't held.
#[derive(Clone, Copy, Debug, PartialEq, Eq)]
pub enum HoldFault {
    /// The word read was odd, so that another held the turn, and then the second is the first; or the exchange met another word,
    /// the second.
    Busy(u64, u64),
    /// The word is 2^64 - 2: no turn is left.
    Spent(u64),
}

impl<W: Timers> Engine<W> {
    /// The turn of a shard, whose number is below `shards()`, if nobody has it. It doesn't wait.
    ///
    /// Busy comes only where the word read is odd or the exchange finds another word, and Spent only where the word read
    /// is 2^64 - 2. Either way all is as before but the last word that the pass has met: where no turn was held, none is.
    pub fn try_hold(&self, pass: &mut EnginePass, shard: u32) -> Result<Hold<W>, HoldFault>
        requires of { IsOf self.now pass.old.1 }
        requires shard { shard < length self.now.locks }
        requires here { (p : TableId × OfShard) × (slice_get pass.old.1 shard ≡ Some (Some p)) }
        ensures of { IsOf self.now pass.new.1 }
        ensures hold { IfOk result (HasTaken self.now shard pass.old pass.new) }
        ensures kept { IfErr result (λ fault. IsKept fault shard pass.old pass.new) }
        ensures there { OnErr result (AllThere pass.old.1 → AllThere pass.new.1) }
    {
        let at = shard as usize;
        let own = pass.lift(at);
        match self.locks[at].try_turn(own) {
            Ok(turn) => Ok(Hold { turn, shard }),
            Err(
                TryFault::Busy {
                    pass: back,
                    read,
                    found,
                },
            ) => {
                pass.put(at, back);
                Err(HoldFault::Busy(read, found))
            }
            Err(TryFault::Spent { pass: back, word }) => {
                pass.put(at, back);
                Err(HoldFault::Spent(word))
            }
        }
    }

    /// Gives the turn back, with no entry.
    pub fn let_go(&self, pass: &mut EnginePass, hold: Hold<W>)
        requires of { IsOf self.now pass.old.1 }
        requires held { IsHeld self.now pass.old hold }
        ensures of { IsOf self.now pass.new.1 }
        ensures pass { pass.new ≡ (
          pass.old.0,
          slice_set pass.old.1 hold.0 (Some (hold.1, having_done hold.2.seen hold.2)),
          pass.old.2,
        ) }
    {
        let Hold { turn, shard } = hold;
        let at = shard as usize;
        let back = self.locks[at].done(turn);
        pass.put(at, back);
    }
}
