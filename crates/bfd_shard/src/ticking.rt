//! A tick of every session, of which only those are touched that are due.
ghost use Rattle.std.specs.Prelude.{ℕ, ◌≡◌, ◌+◌, ◌*◌, ◌≤◌, ◌<◌, ◌++◌, false, length, map, slice_index_or, slice_set};
ghost use Rattle.std.specs.List.{AllByRecursion, flat_map};
ghost use Rattle.bfd_num.specs.Numbers.{greatest_tick};
ghost use Rattle.bfd_num.specs.Due.{has_come};
ghost use Rattle.bfd_lanes.specs.Held.{room_of};
ghost use Rattle.bfd_session.specs.Alone.{ticked, tick_items};
ghost use Rattle.bfd_session.specs.Due.{due as due_tick};
ghost use Rattle.bfd_session.specs.Kinds.{Running};
ghost use Rattle.bfd_session.specs.Step.{IsSound};
ghost use Rattle.bfd_shard.specs.Shard.{NoneDue};

use crate::own::keep_due;
use crate::seat::Seat;
use bfd_lanes::Ids;
use bfd_num::Steps;
use bfd_rules::Outs;
use bfd_session::tick_laws;
use bfd_wheel::Timers;
use std::sync::ledger::Ledger;

/// The part that the session at this place has in the tick `last`; its due tick is updated.
fn tick_at<W: Timers, L: Ledger>(
    sessions: &mut Vec<Seat>,
    timers: &mut W,
    last: u64,
    place: u32,
    outs: &mut Outs,
    steps: &mut Steps<L>,
)
    requires place { place < length sessions.old.items }
    requires last { last ≤ greatest_tick }
    requires timers { length (W.dues timers.old) ≡ length sessions.old.items }
    requires room { 5 ≤ outs.old.spare }
    ensures sessions { (d : Running)
        → sessions.new.items ≡ slice_set sessions.old.items place
        (ticked last (slice_index_or sessions.old.items place d)) }
    ensures dues { (d : Running) → W.dues timers.new
        ≡ slice_set (W.dues timers.old) place (due_tick (ticked last (slice_index_or sessions.old.items place d))) }
    ensures items { (d : Running) → outs.new.items
        ≡ outs.old.items ++ tick_items last (slice_index_or sessions.old.items place d) }
    ensures over { (d : Running) → has_come last (due_tick (ticked last (slice_index_or sessions.old.items place d)))
        ≡ false }
    ensures spare { outs.old.spare ≤ outs.new.spare + 5 }
    ensures room { outs.new.room ≡ outs.old.room }
{
    let seat = &mut sessions[place as usize];
    seat.tick(last, outs);
    let due = seat.session().due();
    keep_due(timers, place, due, steps);
}

/// The tick `last` of all sessions, by ascending place. Those that aren't due by it would stay as they are.
pub(crate) fn tick_all<W: Timers, L: Ledger>(
    sessions: &mut Vec<Seat>,
    timers: &mut W,
    last: u64,
    ids: &mut Ids,
    outs: &mut Outs,
    steps: &mut Steps<L>,
)
    requires few { length sessions.old.items ≤ 65536 }
    requires last { last ≤ greatest_tick }
    requires dues { W.dues timers.old ≡ map due_tick sessions.old.items }
    requires sound { AllByRecursion IsSound sessions.old.items }
    requires ids { length sessions.old.items ≤ room_of ids.old }
    requires room { 5 * length sessions.old.items ≤ outs.old.spare }
    ensures sessions { sessions.new.items ≡ map (ticked last) sessions.old.items }
    ensures dues { W.dues timers.new ≡ map due_tick sessions.new.items }
    ensures items { outs.new.items ≡ outs.old.items ++ flat_map (tick_items last) sessions.old.items }
    ensures over { NoneDue last sessions.new.items }
    ensures sound { AllByRecursion IsSound sessions.new.items }
    ensures ids { room_of ids.new ≡ room_of ids.old }
    ensures spare { outs.old.spare ≤ outs.new.spare + 5 * length sessions.old.items }
    ensures room { outs.new.room ≡ outs.old.room }
{
    tick_laws();
    ids.clear();
    timers.advance(last, ids);
    for i in 0..ids.items().len() {
        let place = ids.items()[i];
        tick_at(sessions, timers, last, place, outs, steps);
    }
}
