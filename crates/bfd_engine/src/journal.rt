//! A shard's history, as a caller reads it.
ghost use Rattle.std.specs.Prelude.{◌≡◌, ◌≤◌, ◌<◌, ◌++◌, IfOk, IfErr, OnOk, length, drop};
ghost use Rattle.bfd_engine.specs.Calls.{fault_of, seen_at};
ghost use Rattle.bfd_engine.specs.Engines.{IsOf, AllThere, configs_at};
ghost use Rattle.bfd_engine.specs.Reads.{HasRead, IsHistoryUnread, IsUnreadAt, AreGiven};
ghost use Rattle.bfd_engine.specs.Turned.{HasLooked, IsSame, configs_in};

use crate::engine::{Engine, fault_at};
use crate::fault::EngineFault;
use crate::locked::{Base, Locked};
use crate::pass::EnginePass;
use crate::turn::TurnFault;
use bfd_shard::Entry;
use bfd_turn::{Pass, Spent, TurnLock};
use bfd_wheel::Timers;
use std::alloc::{AllocError, Global};
use std::sync::Wait;

/// Equal entries, from a place on.
fn copy_from(alloc: Global, journal: &[Entry], from: usize) -> Result<Vec<Entry>, AllocError>
    requires { from ≤ length journal.now }
    ensures { IfOk result (λ list. list.items ≡ drop from journal.now) }
{
    let mut list = Vec::new(alloc);
    for place in from..journal.len() {
        list.push(journal[place].copy(alloc)?)?;
    }
    Ok(list)
}

/// The journal of a shard from a place on, under a turn of its lock that adds no entry. It may wait.
fn read_with<W: Timers, R: Wait>(
    rt: &R,
    alloc: Global,
    lock: &TurnLock<Locked<W>>,
    pass: Pass<Entry, Base>,
    from: usize,
) -> (Pass<Entry, Base>, Result<Vec<Entry>, TurnFault>)
    requires of { pass.0 ≡ lock.now }
    requires from { from ≤ length pass.1.seen }
    ensures of { result.0.0 ≡ pass.0 }
    ensures same { IsSame pass.1 result.0.1 }
    ensures looked { HasLooked pass.1 result.0.1 }
    ensures list { IfOk result.1 (λ list. list.items ≡ drop from result.0.1.seen) }
    ensures given { IfOk result.1 (λ list. AreGiven (configs_in pass.1.base) list.items) }
    ensures fault { IfErr result.1 (λ fault. IsHistoryUnread fault result.0.1) }
{
    match lock.turn(rt, pass) {
        Err(Spent { pass, word }) => (pass, Err(TurnFault::Spent(word))),
        Ok(mut turn) => {
            let shard = &*turn.value().shard;
            shard.sessions();
            let copied = copy_from(alloc, shard.journal(), from);
            let back = lock.done(turn);
            match copied {
                Ok(list) => (back, Ok(list)),
                Err(_) => (back, Err(TurnFault::Memory)),
            }
        }
    }
}

impl<W: Timers> Engine<W> {
    /// The same, under a turn of the engine's lock.
    fn read_on<R: Wait>(
        &self,
        rt: &R,
        alloc: Global,
        pass: &mut EnginePass,
        shard: u32,
        from: usize,
    ) -> Result<Vec<Entry>, TurnFault>
        requires of { IsOf self.now pass.old.1 }
        requires there { AllThere pass.old.1 }
        requires shard { shard < length self.now.locks }
        requires from { from ≤ length (seen_at pass.old shard) }
        ensures of { IsOf self.now pass.new.1 }
        ensures there { AllThere pass.new.1 }
        ensures read { HasRead pass.old pass.new shard }
        ensures list { IfOk result (λ list. list.items ≡ drop from (seen_at pass.new shard)) }
        ensures given { IfOk result (λ list. AreGiven (configs_at self.now shard) list.items) }
        ensures fault { IfErr result (λ fault. IsUnreadAt (fault_of shard fault) shard pass.new) }
    {
        let at = shard as usize;
        let own = pass.lift(at);
        let (back, outcome) = read_with(rt, alloc, &self.locks[at], own, from);
        pass.put(at, back);
        outcome
    }

    /// Appends the history of a shard, whose number is below `shards()`, from a place on, which is at most the length of what the
    /// pass has seen of it; the pass has then seen it whole. It may wait.
    ///
    /// It is one turn that adds no entry. Each entry may be given to a shard of the same sessions. Memory when out of memory, Spent where
    /// no turn is left, and never Full; after either `out` is as before.
    pub fn journal_from<R: Wait>(
        &self,
        rt: &R,
        alloc: Global,
        pass: &mut EnginePass,
        shard: u32,
        from: usize,
        out: &mut Vec<Entry>,
    ) -> Result<(), EngineFault>
        requires of { IsOf self.now pass.old.1 }
        requires there { AllThere pass.old.1 }
        requires shard { shard < length self.now.locks }
        requires from { from ≤ length (seen_at pass.old shard) }
        ensures of { IsOf self.now pass.new.1 }
        ensures there { AllThere pass.new.1 }
        ensures read { HasRead pass.old pass.new shard }
        ensures out { OnOk result (out.new.items ≡ out.old.items ++ drop from (seen_at pass.new shard)) }
        ensures given { OnOk result (AreGiven (configs_at self.now shard) (drop from (seen_at pass.new shard))) }
        ensures fault { IfErr result (λ fault. (out.new.items ≡ out.old.items) × IsUnreadAt fault shard pass.new) }
    {
        match self.read_on(rt, alloc, pass, shard, from) {
            Ok(mut list) => match out.append(&mut list) {
                Ok(()) => Ok(()),
                Err(_) => Err(EngineFault::Memory),
            },
            Err(fault) => Err(fault_at(shard, fault)),
        }
    }
}
