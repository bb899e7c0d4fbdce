//! A client's cursor over the history of a shard.
ghost use Rattle.std.specs.Prelude.{ℕ, ◌≡◌, ◌+◌, ◌*◌, ◌<◌, ◌≤◌, ◌++◌, ◌∷◌, [], List, IfErr, IfOk, IsOk, IsTrue, OnErr, OnOk, ◌↔◌, length};
ghost use Rattle.std.specs.Prelude.{vec_len, vec_capacity, map};
ghost use Rattle.std.specs.List.{cons_option};
ghost use Rattle.bfd_session.specs.Kinds.{configs_of};
ghost use Rattle.bfd_session.specs.Rows.{AreFit};
ghost use Rattle.bfd_shard.specs.History.{events_of, later, moved, outcome_of, runs};
ghost use Rattle.bfd_shard.specs.Shard.{CanHappen, room_for};
ghost use Rattle.bfd_watch.specs.declared.change.Change.{Change};
ghost use Rattle.bfd_watch.specs.Changes.{change_in, history_changes, changes_in};
ghost use Rattle.bfd_watch.specs.Watching.{IsWatchFault, reported_by, watching};
ghost use Rattle.bfd_num.specs.Counting.{IsBlankOf};

use crate::change::{Change, WatchFault};
use bfd_num::Steps;
use bfd_rules::{Out, Outs};
use bfd_session::SessionConfig;
use bfd_shard::{Entry, Full, Seat, ShardEvent, ShardState};
use bfd_wheel::Timers;
use std::alloc::{AllocError, Global};
use std::marker::{Brand, Model};
use std::sync::ledger::{Blank, Ledger};

/// A cursor over the history of a shard: a shard of its own, which accepts the history's entries.
#[derive(Drop)]
pub struct Watch<W: Timers> {
    shard: ShardState<W>,
    outs: Outs,
    limit: usize,
}

impl<W: Timers> Model for Watch<W> {
    ghost use Rattle.bfd_session.specs.Kinds.{configs_of};
    ghost use Rattle.bfd_watch.specs.Watching.{Watching, IsWatch, watching};

    ghost Value = { Watching };

    ghost view = { λ w. watching (configs_of w.shard.sessions) w.shard.journal w.limit };

    ghost invariant = { λ w. IsWatch w.shard w.outs w.limit };
}

/// How many outputs the event may give, of a shard with so many sessions.
fn most_outputs(sessions: &[Seat], event: &ShardEvent) -> usize
    requires few { length sessions.now ≤ 65536 }
    ensures { result ≡ room_for sessions.now event.now }
{
    match event {
        ShardEvent::Own { .. } => 5,
        ShardEvent::Tick(_) => 5 * sessions.len(),
    }
}

/// Appends the change that the output of the event of this number reports, where it reports one.
fn append_change(number: u64, item: &Out, out: &mut Vec<Change>)
    requires room { vec_len out.old < vec_capacity out.old }
    ensures items { out.new.items ≡ out.old.items ++ cons_option (change_in number item.now) [] }
    ensures len { vec_len out.new ≤ vec_len out.old + 1 }
    ensures capacity { vec_capacity out.new ≡ vec_capacity out.old }
{
    if let Out::Changed {
        discr,
        old,
        new,
        diag,
    } = item
    {
        out.push_reserved(Change {
            number,
            discr: *discr,
            old: *old,
            new: *new,
            diag: *diag,
        });
    }
}

/// Appends the changes that the outputs of the event of this number report. Allocates no memory.
fn append_changes(number: u64, items: &[Out], out: &mut Vec<Change>)
    requires room { vec_len out.old + length items.now ≤ vec_capacity out.old }
    ensures { out.new.items ≡ out.old.items ++ changes_in number items.now }
{
    for item in items {
        append_change(number, item, out);
    }
}

/// The changes that the outputs of the event of this number report, in their order. Fails only when out of memory.
pub fn changes_of(alloc: Global, number: u64, items: &[Out]) -> Result<Vec<Change>, AllocError>
    ensures { IfOk result (λ changes. changes.items ≡ changes_in number items.now) }
{
    let mut changes = Vec::with_capacity(alloc, items.len())?;
    append_changes(number, items, &mut changes);
    Ok(changes)
}

/// The entry as an event of the shard, which is below its limit, with a counter of steps of its own. What it emits is in
/// `outs`.
fn follow<W: Timers, L: Ledger>(
    shard: &mut ShardState<W>,
    entry: Entry,
    outs: &mut Outs,
    blank: Blank,
) -> Result<(), Full>
    requires ready { 0 < shard.old.room }
    requires below { length shard.old.journal < shard.old.limit }
    requires can { CanHappen (configs_of shard.old.sessions) entry.event }
    requires room { room_for shard.old.sessions entry.event ≤ outs.old.room }
    requires blank { IsBlankOf L.name L.parts blank.name blank.parts }
    ensures taken { IsOk result }
    ensures journal { shard.new.journal ≡ shard.old.journal ++ entry ∷ [] }
    ensures limit { shard.new.limit ≡ shard.old.limit }
    ensures configs { configs_of shard.new.sessions ≡ configs_of shard.old.sessions }
    ensures items { outs.new.items ≡ (outcome_of shard.old.last entry.event shard.old.sessions).items }
    ensures few { length outs.new.items ≤ room_for shard.old.sessions entry.event }
    ensures outs_room { outs.new.room ≡ outs.old.room }
{
    outs.clear();
    shard.apply(entry.caller, entry.event, outs, &mut Steps::<L>::new(blank))?;
    let _items = outs.items();
    Ok(())
}

impl<W: Timers> Watch<W> {
    /// A watch of a shard of the sessions with these configurations, at most 65,536 and each within its ranges; they are the ones with
    /// which the shard was made. No entry was accepted, and `limit` entries may be. It fails only when out of memory.
    pub fn make(
        alloc: Global,
        configs: Vec<SessionConfig>,
        limit: usize,
    ) -> Result<Watch<W>, AllocError>
        requires few { length configs.items ≤ 65536 }
        requires fit { AreFit configs.items }
        ensures { IfOk result (λ watch. watch ≡ watching configs.items [] limit) }
    {
        let outs = Outs::make(alloc, 5 * configs.len() + 5)?;
        let shard = ShardState::make(alloc, configs, limit)?;
        Ok(Watch { shard, outs, limit })
    }

    /// How many entries were accepted: the client's cursor over the history.
    pub fn taken(&self) -> usize
        ensures { result ≡ length self.now.entries }
    {
        self.shard.journal().len()
    }

    /// Whether the entry may be accepted: a tick always may, and an own event where a session stands at its place that accepts it.
    /// Every entry of a shard's history may be, where the watch was made with the shard's configurations.
    pub fn takes(&self, entry: &Entry) -> bool
        ensures { IsTrue result ↔ CanHappen self.now.configs entry.now.event }
    {
        self.shard.takes(&entry.event)
    }

    /// The sessions as the entries have left them, by place.
    pub fn sessions(&self) -> &[Seat]
        ensures { result.now ≡ runs (events_of self.now.entries) self.now.configs }
    {
        self.shard.sessions()
    }

    /// The next entry of the history, which the shard's sessions may be given. The changes that it reports are appended to `out`, in order,
    /// each with the number of the entry, from 1. So where `out` had the changes of the entries that were accepted before, behind whatever,
    /// it has now those of all. `Full` comes if and only if as many entries as the limit were accepted, and `Memory` when out of memory
    /// below it; after each of them the watch and what `out` holds are as before.
    pub fn take(&mut self, entry: Entry, out: &mut Vec<Change>) -> Result<(), WatchFault>
        requires can { CanHappen self.old.configs entry.event }
        ensures taken { OnOk result (self.new ≡ record self.old { entries = self.old.entries ++ entry ∷ [] }) }
        ensures below { OnOk result (length self.old.entries < self.old.limit) }
        ensures reported { OnOk result (out.new.items ≡ out.old.items ++ reported_by self.old entry) }
        ensures whole { OnOk result ((before : List Change)
            → out.old.items ≡ before ++ history_changes self.old.configs (events_of self.old.entries)
            → out.new.items ≡ before ++ history_changes self.new.configs (events_of self.new.entries)) }
        ensures fault { IfErr result (λ fault. IsWatchFault fault self.old) }
        ensures same { OnErr result (self.new ≡ self.old) }
        ensures unreported { OnErr result (out.new.items ≡ out.old.items) }
    {
        let taken = self.shard.journal().len();
        if taken == self.limit {
            return Err(WatchFault::Full(taken));
        }
        let room = most_outputs(self.shard.sessions(), &entry.event);
        self.shard.prepare()?;
        out.reserve(room)?;
        follow::<W, Brand>(&mut self.shard, entry, &mut self.outs, Blank::new(1)).unwrap();
        append_changes(taken as u64 + 1, self.outs.items(), out);
        Ok(())
    }
}
