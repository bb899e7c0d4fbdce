//! An own event of one session, and its due tick in the timers.
ghost use Rattle.std.specs.Prelude.{ℕ, ◌≡◌, ◌+◌, ◌*◌, ◌<◌, ◌≤◌, ◌++◌, IfSome, length, map, slice_index_or, slice_set};
ghost use Rattle.std.specs.List.{AllByRecursion};
ghost use Rattle.bfd_num.specs.Numbers.{moment_bound, greatest_tick};
ghost use Rattle.bfd_session.specs.Alone.{stepped, step_outcome};
ghost use Rattle.bfd_session.specs.Due.{due as due_tick};
ghost use Rattle.bfd_session.specs.Kinds.{Running};
ghost use Rattle.bfd_session.specs.Step.{CanTake, IsSound};

use crate::seat::Seat;
use bfd_num::Steps;
use bfd_rules::Outs;
use bfd_session::{Answer, Event};
use bfd_wheel::Timers;
use std::sync::ledger::Ledger;

/// Keeps the due tick of the session at a place, in place of the one that the timers had: at most 2 steps.
pub(crate) fn keep_due<W: Timers, L: Ledger>(
    timers: &mut W,
    place: u32,
    due: Option<u64>,
    steps: &mut Steps<L>,
)
    requires place { place < length (W.dues timers.old) }
    requires due { IfSome due (λ t. t < moment_bound) }
    ensures dues { W.dues timers.new ≡ slice_set (W.dues timers.old) place due }
    ensures cost { steps.new ≤ steps.old + 2 }
{
    match due {
        Some(due) => timers.set(place, due, steps),
        None => timers.clear(place, steps),
    }
}

/// An own event of the session at this place, whose due tick is updated.
#[tactic(auto, using(crate::proofs::Moves::due_set, crate::proofs::Moves::all_set))]
pub(crate) fn step_at<W: Timers, L: Ledger>(
    sessions: &mut Vec<Seat>,
    timers: &mut W,
    last: u64,
    place: u32,
    moment: u64,
    event: &Event,
    outs: &mut Outs,
    steps: &mut Steps<L>,
) -> Answer
    requires place { place < length sessions.old.items }
    requires last { last ≤ greatest_tick }
    requires moment { moment < moment_bound }
    requires takes { (d : Running) → CanTake (slice_index_or sessions.old.items place d).config event.now }
    requires dues { W.dues timers.old ≡ map due_tick sessions.old.items }
    requires sound { AllByRecursion IsSound sessions.old.items }
    requires room { 5 ≤ outs.old.spare }
    ensures sessions { (d : Running) → sessions.new.items
        ≡ slice_set sessions.old.items place
        (stepped moment last event.now (slice_index_or sessions.old.items place d)) }
    ensures sound { AllByRecursion IsSound sessions.new.items }
    ensures dues { W.dues timers.new ≡ map due_tick sessions.new.items }
    ensures items { (d : Running) → outs.new.items
        ≡ outs.old.items ++ (step_outcome moment last event.now (slice_index_or sessions.old.items place d)).items }
    ensures answer { (d : Running) → result
        ≡ (step_outcome moment last event.now (slice_index_or sessions.old.items place d)).answer }
    ensures spare { outs.old.spare ≤ outs.new.spare + 5 }
    ensures room { outs.new.room ≡ outs.old.room }
    ensures cost { steps.new ≤ steps.old + 2 }
{
    let seat = &mut sessions[place as usize];
    let answer = seat.step(last, moment, event, outs);
    let due = seat.session().due();
    keep_due(timers, place, due, steps);
    answer
}
