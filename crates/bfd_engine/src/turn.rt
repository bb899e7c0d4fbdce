//! One turn of one shard.
ghost use Rattle.std.specs.Prelude.{◌≡◌, ◌≤◌, ◌+◌, IfOk, IfErr, OnErr};
ghost use Rattle.bfd_shard.specs.Shard.{CanHappen, IsOwn};
ghost use Rattle.bfd_engine.specs.Turned.{IsSame, HasTurned, HasLooked, IsTurnCause, IsTimely, WasUsed, configs_in, room_in};

use crate::locked::{Base, Locked};
use bfd_num::Steps;
use bfd_rules::Outs;
use bfd_session::Answer;
use bfd_shard::{Entry, ShardEvent};
use bfd_turn::{Pass, Spent, TurnLock};
use bfd_wheel::Timers;
use std::sync::Wait;
use std::sync::ledger::Ledger;

/// Why a turn added no entry to a shard's journal. The shard is as before.
#[derive(Clone, Copy, Debug, PartialEq, Eq)]
pub enum TurnFault {
    /// Out of memory for the entry.
    Memory,
    /// The journal has this many entries, which is its limit.
    Full(usize),
    /// The lock's word is 2^64 - 2: no turn is left.
    Spent(u64),
}

/// One event of a shard, under a turn of its lock. It may wait. The entry is made room for, and the event applied, and then
/// the turn is given back, after a fault too.
pub(crate) fn turn_with<W: Timers, R: Wait, L: Ledger>(
    rt: &R,
    lock: &TurnLock<Locked<W>>,
    pass: Pass<Entry, Base>,
    event: ShardEvent,
    outs: &mut Outs,
    steps: &mut Steps<L>,
) -> (Pass<Entry, Base>, Result<Answer, TurnFault>)
    requires of { pass.0 ≡ lock.now }
    requires can { CanHappen (configs_in pass.1.base) event }
    requires room { room_in (configs_in pass.1.base) event ≤ outs.old.spare }
    ensures of { result.0.0 ≡ pass.0 }
    ensures same { IsSame pass.1 result.0.1 }
    ensures turned { IfOk result.1 (λ answer. HasTurned pass.1 event result.0.1 outs.old.items outs.new.items answer) }
    ensures timely { IfOk result.1 (λ _. IsTimely (configs_in pass.1.base) pass.1.number event result.0.1.seen) }
    ensures fault { IfErr result.1 (λ fault. HasLooked pass.1 result.0.1 × IsTurnCause fault result.0.1
        × WasUsed fault pass.1 result.0.1) }
    ensures unreported { OnErr result.1 (outs.new ≡ outs.old) }
    ensures outs_room { outs.new.room ≡ outs.old.room }
    ensures spare { outs.old.spare ≤ outs.new.spare + room_in (configs_in pass.1.base) event }
    ensures cost { IsOwn event → steps.new ≤ steps.old + 2 }
{
    let caller = pass.caller();
    match lock.turn(rt, pass) {
        Err(Spent { pass, word }) => (pass, Err(TurnFault::Spent(word))),
        Ok(mut turn) => {
            let shard = &mut *turn.value().shard;
            if shard.prepare().is_err() {
                return (lock.done(turn), Err(TurnFault::Memory));
            }
            shard.sessions();
            match shard.apply(caller, event, outs, steps) {
                Err(full) => (lock.done(turn), Err(TurnFault::Full(full.0))),
                Ok(answer) => (lock.done(turn), Ok(answer)),
            }
        }
    }
}
