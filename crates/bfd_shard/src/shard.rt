//! A shard.
ghost use Rattle.std.specs.Prelude.{◌≡◌, ◌+◌, ◌<◌, ◌≤◌, ◌++◌, ◌∷◌, [], IfErr, IfOk, OnErr, OnOk, IsTrue, ◌↔◌, length, map, min};
ghost use Rattle.bfd_session.specs.Kinds.{configs_of};
ghost use Rattle.bfd_session.specs.Rows.{AreFit};
ghost use Rattle.bfd_session.specs.Step.{started};
ghost use Rattle.bfd_shard.specs.Dealing.{share};
ghost use Rattle.bfd_shard.specs.History.{later, moved, outcome_of};
ghost use Rattle.bfd_shard.specs.Shard.{IsShard, IsOwn, IsOver, IsExact, CanHappen, room_for};

use crate::entry::{Entry, Full, ShardEvent};
use crate::law::expiry_laws;
use crate::seat::Seat;
use crate::sessions::Sessions;
use bfd_num::{Steps, Tick};
use bfd_rules::Outs;
use bfd_session::{Answer, SessionConfig};
use bfd_wheel::Timers;
use std::alloc::{AllocError, Global};
use std::marker::Model;
use std::sync::ledger::Ledger;

/// For how many entries a new shard reserves room, if its journal accepts that many: a journal that grows in small steps is moved many
/// times, and leaves holes.
const MOST_AT_ONCE: usize = 200_000;

/// Sessions by place, with their timers and the last tick, and the journal of their events.
#[derive(Drop)]
pub struct ShardState<W: Timers> {
    group: Sessions<W>,
    journal: Vec<Entry>,
    limit: usize,
}

impl<W: Timers> Model for ShardState<W> {
    ghost use Rattle.std.specs.Prelude.{◌-◌, vec_len, vec_capacity};
    ghost use Rattle.bfd_shard.specs.Shard.{IsShard, Shard, shard_of};

    ghost Value = { Shard };

    ghost view = { λ s. shard_of s.group.sessions s.group.last s.journal.items s.limit
        (vec_capacity s.journal - vec_len s.journal) };

    ghost invariant = { λ s. IsShard (shard_of s.group.sessions s.group.last s.journal.items s.limit
        (vec_capacity s.journal - vec_len s.journal)) };
}

impl<W: Timers> ShardState<W> {
    /// A shard of the sessions with these configurations, at most 65,536 and each within its ranges: all stand at the start, the last tick
    /// is 0, and the journal is empty and accepts `limit` entries. It fails only when out of memory.
    pub fn make(
        alloc: Global,
        configs: Vec<SessionConfig>,
        limit: usize,
    ) -> Result<ShardState<W>, AllocError>
        requires few { length configs.items ≤ 65536 }
        requires fit { AreFit configs.items }
        ensures sessions { IfOk result (λ shard. shard.sessions ≡ map started configs.items) }
        ensures last { IfOk result (λ shard. shard.last ≡ 0) }
        ensures journal { IfOk result (λ shard. shard.journal ≡ []) }
        ensures limit { IfOk result (λ shard. shard.limit ≡ limit) }
        ensures kept { IfOk result (λ shard. IsShard shard) }
    {
        let group = Sessions::make(alloc, configs)?;
        ShardState::at_start(alloc, group, limit)
    }

    /// The same of one shard of 1 to 64, `shard` counted from 0, out of the configurations of all sessions, which stay: session k of the
    /// list stands in shard k % shards, at place k / shards. It fails only when out of memory.
    pub fn make_share(
        alloc: Global,
        configs: &[SessionConfig],
        shards: usize,
        shard: usize,
        limit: usize,
    ) -> Result<ShardState<W>, AllocError>
        requires within { (shard < shards) × (shards ≤ 64) }
        requires few { length configs.now ≤ 65536 }
        requires fit { AreFit configs.now }
        ensures sessions { IfOk result (λ state. state.sessions ≡ map started (share shards shard configs.now)) }
        ensures last { IfOk result (λ state. state.last ≡ 0) }
        ensures journal { IfOk result (λ state. state.journal ≡ []) }
        ensures limit { IfOk result (λ state. state.limit ≡ limit) }
        ensures kept { IfOk result (λ state. IsShard state) }
    {
        let group = Sessions::make_share(alloc, configs, shards, shard)?;
        ShardState::at_start(alloc, group, limit)
    }

    // A shard of these sessions, which stand at the start.
    fn at_start(
        alloc: Global,
        group: Sessions<W>,
        limit: usize,
    ) -> Result<ShardState<W>, AllocError>
        requires start { group.sessions ≡ map started (configs_of group.sessions) }
        requires last { group.last ≡ 0 }
        ensures sessions { IfOk result (λ shard. shard.sessions ≡ group.sessions) }
        ensures last { IfOk result (λ shard. shard.last ≡ 0) }
        ensures journal { IfOk result (λ shard. shard.journal ≡ []) }
        ensures limit { IfOk result (λ shard. shard.limit ≡ limit) }
        ensures kept { IfOk result (λ shard. IsShard shard) }
    {
        // proof: the read brings the invariant
        let _ = group.sessions();
        let journal = Vec::with_capacity(alloc, limit.min(MOST_AT_ONCE))?;
        Ok(ShardState {
            group,
            journal,
            limit,
        })
    }

    /// Whether the event may be applied: a tick always may, and an own event where a session stands at its place that accepts
    /// it.
    pub fn takes(&self, event: &ShardEvent) -> bool
        ensures { IsTrue result ↔ CanHappen (configs_of self.now.sessions) event.now }
    {
        self.group.takes(event)
    }

    /// Makes room for one more entry in the journal, where it is below its limit. Nothing else changes. It fails only when out of memory,
    /// and only below the limit, and then all is as before.
    pub fn prepare(&mut self) -> Result<(), AllocError>
        ensures ready { OnOk result (length self.new.journal < self.new.limit → 0 < self.new.room) }
        ensures room { self.old.room ≤ self.new.room }
        ensures below { OnErr result (length self.new.journal < self.new.limit) }
        ensures same { OnErr result (self.new ≡ self.old) }
        ensures sessions { self.new.sessions ≡ self.old.sessions }
        ensures last { self.new.last ≡ self.old.last }
        ensures journal { self.new.journal ≡ self.old.journal }
        ensures limit { self.new.limit ≡ self.old.limit }
    {
        if self.journal.len() < self.limit {
            self.journal.reserve(1)?;
        }
        Ok(())
    }

    /// Lets the journal accept `limit` entries, no fewer than before, and makes room for so many more, 200,000 at most. Nothing else
    /// changes. It fails only when out of memory, and then all is as before.
    pub fn raise_limit(&mut self, limit: usize) -> Result<(), AllocError>
        requires { self.old.limit ≤ limit }
        ensures limit { OnOk result (self.new.limit ≡ limit) }
        ensures room { OnOk result (min limit 200000 ≤ self.new.room) }
        ensures same { OnErr result (self.new ≡ self.old) }
        ensures sessions { self.new.sessions ≡ self.old.sessions }
        ensures last { self.new.last ≡ self.old.last }
        ensures journal { self.new.journal ≡ self.old.journal }
    {
        self.journal.reserve(limit.min(MOST_AT_ONCE))?;
        self.limit = limit;
        Ok(())
    }

    /// One event of this caller. The shard is prepared; an own event is one that the session at its place accepts;
    /// and `outs` has room for five outputs, or at a tick for five of each session.
    ///
    /// The entry is appended to the journal. An own event changes the session at its place and no other, in at most 2 steps
    /// of the timers; a tick changes every session, and leaves nothing that is due by the last tick. The outputs are
    /// appended, at a tick by ascending place, and the answer is the session's, or `Ticked`. `Full` comes if and only if the
    /// journal has as many entries as its limit, which it reports; then all is as before. Allocates no memory.
    #[inline(always)]
    pub fn apply<L: Ledger>(
        &mut self,
        caller: u32,
        event: ShardEvent,
        outs: &mut Outs,
        steps: &mut Steps<L>,
    ) -> Result<Answer, Full>
        requires ready { length self.old.journal < self.old.limit → 0 < self.old.room }
        requires can { CanHappen (configs_of self.old.sessions) event }
        requires room { room_for self.old.sessions event ≤ outs.old.spare }
        ensures full { IfErr result (λ full. (full.0 ≡ length self.old.journal)
            × (length self.old.journal ≡ self.old.limit)) }
        ensures below { OnOk result (length self.old.journal < self.old.limit) }
        ensures same { OnErr result (self.new ≡ self.old) }
        ensures unreported { OnErr result (outs.new ≡ outs.old) }
        ensures journal { OnOk result (self.new.journal
            ≡ self.old.journal ++ record { caller = caller; event = event } ∷ []) }
        ensures limit { self.new.limit ≡ self.old.limit }
        ensures last { OnOk result (self.new.last ≡ later self.old.last event) }
        ensures sessions { OnOk result (self.new.sessions ≡ moved self.old.last event self.old.sessions) }
        ensures configs { configs_of self.new.sessions ≡ configs_of self.old.sessions }
        ensures items { OnOk result (outs.new.items
            ≡ outs.old.items ++ (outcome_of self.old.last event self.old.sessions).items) }
        ensures answer { IfOk result (λ answer. answer ≡ (outcome_of self.old.last event self.old.sessions).answer) }
        ensures over { OnOk result (IsOver self.new.last event self.new.sessions) }
        ensures exact { OnOk result (IsExact self.old event self.new.sessions) }
        ensures stood { IsShard self.old }
        ensures kept { IsShard self.new }
        ensures spare { outs.old.spare ≤ outs.new.spare + room_for self.old.sessions event }
        ensures outs_room { outs.new.room ≡ outs.old.room }
        ensures cost { IsOwn event → steps.new ≤ steps.old + 2 }
    {
        if self.journal.len() == self.limit {
            return Err(Full(self.limit));
        }
        expiry_laws();
        let entry = Entry { caller, event };
        let answer = self.group.apply(&entry.event, outs, steps);
        self.journal.push_reserved(entry);
        Ok(answer)
    }

    /// The sessions, by place. Between events a shard is what its journal makes of it.
    pub fn sessions(&self) -> &[Seat]
        ensures value { result.now ≡ self.now.sessions }
        ensures kept { IsShard self.now }
    {
        // proof: the read brings the invariant
        let _ = &self.limit;
        self.group.sessions()
    }

    /// The last tick: the greatest one so far, or 0.
    pub fn last(&self) -> Tick
        ensures { result ≡ self.now.last }
    {
        self.group.last()
    }

    /// The journal: the events so far, each with the number of its caller.
    pub fn journal(&self) -> &[Entry]
        ensures { result.now ≡ self.now.journal }
    {
        self.journal.as_slice()
    }
}
