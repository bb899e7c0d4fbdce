//! The events of a machine without an Echo function: an initiator, a head and a tail.
ghost use Rattle.std.specs.Prelude.{◌≡◌, ◌<◌, ◌≤◌, ◌+◌, ◌*◌, ◌++◌, ℕ, false, None, IfSome};
ghost use Rattle.std.specs.Option.{ForSome};
ghost use Rattle.bfd_num.specs.Numbers.{moment_bound};
ghost use Rattle.bfd_num.specs.Due.{has_come};
ghost use Rattle.bfd_rules.specs.EventFrame.{course};
ghost use Rattle.bfd_rules.specs.declared.variables.Mark.{Mark as MarkOf};
ghost use Rattle.bfd_session.specs.Due as due;
ghost use Rattle.bfd_session.specs.Kinds.{Running, left_by, plain};
ghost use Rattle.bfd_session.specs.Step as session;
ghost use Rattle.bfd_session.specs.Step.{CanTake, HasSize, IsSound};

use crate::{Answer, Event};
use bfd_rules::{Mark, Outs};

/// A machine without an Echo function, seen as the session that it runs: what the parts of an event do to it.
pub trait PlainMachine {
    ghost running_of: { Self → Running };

    /// What settling by a limit, at an effective moment, leaves for the end of the event.
    ghost is_settled: { ℕ → ℕ → MarkOf → Self → Type 0 };

    /// Begins an event, an own one with its effective moment and a tick with none, and does what has come due by `limit`.
    fn settles(&mut self, own: Option<u64>, limit: u64, eff: u64, outs: &mut Outs) -> Mark
        requires own { ForSome own (λ at. at < moment_bound) }
        requires eff { eff < moment_bound }
        requires room { 2 ≤ outs.old.spare }
        ensures config { (running_of self.new).config ≡ (running_of self.old).config }
        ensures flow { plain (course (running_of self.new).vars result outs.new.items)
            ≡ session.settled (running_of self.old).config limit eff (session.begun own (running_of self.old) outs.old.items) }
        ensures settled { own ≡ None → limit ≤ eff → IsSound (running_of self.old) → is_settled limit eff result self.new }
        ensures spare { outs.old.spare ≤ outs.new.spare + 2 }
        ensures room { outs.new.room ≡ outs.old.room };

    /// The event's own rules, after settling.
    fn acts(&mut self, eff: u64, event: &Event, mark: &mut Mark, outs: &mut Outs) -> Answer
        requires eff { eff < moment_bound }
        requires takes { CanTake (running_of self.old).config event.now }
        requires room { 1 ≤ outs.old.spare }
        ensures config { (running_of self.new).config ≡ (running_of self.old).config }
        ensures flow { plain (course (running_of self.new).vars mark.new outs.new.items)
            ≡ session.acted (running_of self.old).config eff event.now (plain (course (running_of self.old).vars mark.old outs.old.items)) }
        ensures answer { result ≡ session.answer_of (running_of self.old).config event.now
            (plain (course (running_of self.old).vars mark.old outs.old.items)) }
        ensures size { HasSize (running_of self.old).config event.now }
        ensures spare { outs.old.spare ≤ outs.new.spare + 1 }
        ensures room { outs.new.room ≡ outs.old.room };

    /// Ends an event. After a tick nothing that was due by its limit is left.
    fn ends(&mut self, eff: u64, mark: Mark, outs: &mut Outs)
        requires eff { eff < moment_bound }
        requires room { 1 ≤ outs.old.spare }
        ensures session { running_of self.new ≡ left_by (session.finished (running_of self.old).config eff
            (plain (course (running_of self.old).vars mark outs.old.items))) (running_of self.old) }
        ensures outs { outs.new.items ≡ (session.finished (running_of self.old).config eff
            (plain (course (running_of self.old).vars mark outs.old.items))).course.outs }
        ensures over { (limit t : ℕ) → limit ≡ 1000 * t → limit ≤ eff → is_settled limit eff mark self.old
            → has_come t (due.due (running_of self.new)) ≡ false }
        ensures sound { IsSound (running_of self.new) }
        ensures spare { outs.old.spare ≤ outs.new.spare + 1 }
        ensures room { outs.new.room ≡ outs.old.room };

    /// The least due tick.
    fn due_tick(&self) -> Option<u64>
        ensures value { result ≡ due.due (running_of self.now) }
        ensures below { IfSome result (λ t. t < moment_bound) };
}

/// An own event at its effective moment.
pub fn steps<M: PlainMachine>(machine: &mut M, eff: u64, event: &Event, outs: &mut Outs) -> Answer
    requires eff { eff < moment_bound }
    requires takes { CanTake (M.running_of machine.old).config event.now }
    requires room { 4 ≤ outs.old.spare }
    ensures session { M.running_of machine.new ≡ session.next eff event.now (M.running_of machine.old) }
    ensures outs { outs.new.items ≡ outs.old.items ++ session.emits eff event.now (M.running_of machine.old) }
    ensures answer { result ≡ session.reply eff event.now (M.running_of machine.old) }
    ensures size { HasSize (M.running_of machine.old).config event.now }
    ensures sound { IsSound (M.running_of machine.new) }
    ensures spare { outs.old.spare ≤ outs.new.spare + 4 }
    ensures room { outs.new.room ≡ outs.old.room }
{
    let mut mark = machine.settles(Some(eff), eff, eff, outs);
    let answer = machine.acts(eff, event, &mut mark, outs);
    machine.ends(eff, mark, outs);
    answer
}

/// A tick with this limit, at the effective moment `eff`.
pub fn ticks<M: PlainMachine>(machine: &mut M, limit: u64, eff: u64, outs: &mut Outs)
    requires sound { IsSound (M.running_of machine.old) }
    requires eff { eff < moment_bound }
    requires room { 3 ≤ outs.old.spare }
    ensures session { M.running_of machine.new ≡ session.tick_next limit eff (M.running_of machine.old) }
    ensures outs { outs.new.items ≡ outs.old.items ++ session.tick_emits limit eff (M.running_of machine.old) }
    ensures over { (t : ℕ) → limit ≡ 1000 * t → limit ≤ eff → has_come t (due.due (M.running_of machine.new)) ≡ false }
    ensures sound { IsSound (M.running_of machine.new) }
    ensures spare { outs.old.spare ≤ outs.new.spare + 3 }
    ensures room { outs.new.room ≡ outs.old.room }
{
    let mark = machine.settles(None, limit, eff, outs);
    machine.ends(eff, mark, outs);
}
