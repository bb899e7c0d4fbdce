//! The engine, and its calls of one turn.
ghost use Rattle.std.specs.Prelude.{◌≡◌, ◌≤◌, ◌<◌, ◌+◌, ◌*◌, length, IfOk};
ghost use Rattle.bfd_shard.specs.Shard.{CanHappen, IsOwn};
ghost use Rattle.bfd_shard.specs.declared.entry.ShardEvent.TheVariants.{Tick as TickEvent};
ghost use Rattle.bfd_engine.specs.Turned.{IsTimely, room_in};
ghost use Rattle.bfd_engine.specs.Engines.{IsOf, AllThere, configs_at};
ghost use Rattle.bfd_engine.specs.Calls.{IsDone, Turns, fault_of, seen_at};

use crate::fault::EngineFault;
use crate::locked::Locked;
use crate::pass::EnginePass;
use crate::turn::{TurnFault, turn_with};
use bfd_num::Steps;
use bfd_rules::Outs;
use bfd_session::{Answer, Table};
use bfd_shard::ShardEvent;
use bfd_turn::TurnLock;
use bfd_wheel::Timers;
use std::marker::Model;
use std::sync::Wait;
use std::sync::ledger::Ledger;

/// Sessions in 1 to 64 shards, each behind a lock of its own, and reflectors. Threads share it by reference; each has a pass of
/// its own.
#[derive(Drop)]
pub struct Engine<W: Timers> {
    pub(crate) locks: Vec<TurnLock<Locked<W>>>,
    pub(crate) table: Table,
    // How many sessions each shard has.
    pub(crate) sizes: Vec<usize>,
    pub(crate) limit: usize,
}

impl<W: Timers> Model for Engine<W> {
    ghost use Rattle.bfd_engine.specs.Engines.{Shards, IsEngine};

    ghost Value = { Shards };

    ghost view = { λ e. record {
      locks = e.locks.items;
      configs = e.table.configs;
      pool = e.table.pool;
      limit = e.limit;
    } };

    ghost invariant = { λ e. IsEngine (record {
      locks = e.locks.items;
      configs = e.table.configs;
      pool = e.table.pool;
      limit = e.limit;
    }) e.sizes.items };
}

/// The fault of a shard's turn.
pub(crate) fn fault_at(shard: u32, fault: TurnFault) -> EngineFault
    ensures { result ≡ fault_of shard fault }
{
    match fault {
        TurnFault::Memory => EngineFault::Memory,
        TurnFault::Full(length) => EngineFault::Full(shard, length),
        TurnFault::Spent(word) => EngineFault::Spent(shard, word),
    }
}

impl<W: Timers> Engine<W> {
    /// The number of shards, 1 to 64.
    pub fn shards(&self) -> u32
        ensures value { result ≡ length self.now.locks }
        ensures few { (0 < result) × (result ≤ 64) }
    {
        self.locks.len() as u32
    }

    /// The number of a shard's sessions. The shard's number is below `shards()`.
    pub fn sessions(&self, shard: u32) -> usize
        requires { shard < length self.now.locks }
        ensures { result ≡ length (configs_at self.now shard) }
    {
        self.sizes[shard as usize]
    }

    /// The table by which packets, commands and questions find their session or their reflector.
    pub fn table(&self) -> &Table
        ensures configs { result.now.configs ≡ self.now.configs }
        ensures pool { result.now.pool ≡ self.now.pool }
    {
        &self.table
    }

    /// One turn of a shard, with an event that its sessions accept, for a caller that knows already whose it is. It may wait.
    ///
    /// Its entry is this event, at a place of the shard, whose number is below `shards()`. `outs` has room for five outputs, or at
    /// a tick for five of each session of the shard.
    ///
    /// Full comes only where the journal has as many entries as its limit, Spent only where the lock has no turn left, and Memory when out
    /// of memory, with a journal below its limit. Then no entry and no output is added, and the sessions are as before.
    #[inline(always)]
    pub fn turn_on<R: Wait, L: Ledger>(
        &self,
        rt: &R,
        pass: &mut EnginePass,
        shard: u32,
        event: ShardEvent,
        outs: &mut Outs,
        steps: &mut Steps<L>,
    ) -> Result<Answer, EngineFault>
        requires of { IsOf self.now pass.old.1 }
        requires there { AllThere pass.old.1 }
        requires shard { shard < length self.now.locks }
        requires can { CanHappen (configs_at self.now shard) event }
        requires room { room_in (configs_at self.now shard) event ≤ outs.old.spare }
        ensures of { IsOf self.now pass.new.1 }
        ensures there { AllThere pass.new.1 }
        ensures call { IsDone (Turns shard event) self.now pass.old pass.new outs.old.items outs.new.items result }
        ensures timely { IfOk result (λ _. IsTimely (configs_at self.now shard)
            pass.old.0 event (seen_at pass.new shard)) }
        ensures room { outs.new.room ≡ outs.old.room }
        ensures spare { outs.old.spare ≤ outs.new.spare + room_in (configs_at self.now shard) event }
        ensures cost { IsOwn event → steps.new ≤ steps.old + 2 }
    {
        let at = shard as usize;
        let own = pass.lift(at);
        let (back, outcome) = turn_with(rt, &self.locks[at], own, event, outs, steps);
        pass.put(at, back);
        match outcome {
            Ok(answer) => Ok(answer),
            Err(fault) => Err(fault_at(shard, fault)),
        }
    }
}
