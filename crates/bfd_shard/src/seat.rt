//! A session in a block of its own.
ghost use Rattle.std.specs.Prelude.{◌≡◌, ◌+◌, ◌*◌, ◌<◌, ◌≤◌, ◌++◌, IfOk, false};
ghost use Rattle.bfd_num.specs.Due.{has_come};
ghost use Rattle.bfd_num.specs.Numbers.{moment_bound, greatest_tick};
ghost use Rattle.bfd_session.specs.Alone.{stepped, step_outcome, ticked, tick_items};
ghost use Rattle.bfd_session.specs.Due.{due as due_tick};
ghost use Rattle.bfd_session.specs.Step.{CanTake, IsFit, IsSound, started};

use bfd_rules::Outs;
use bfd_session::{Answer, Event, Session, SessionConfig};
use std::alloc::{AllocError, Global};
use std::marker::Model;

/// A session in a block of memory of its own: where a list of sessions moves, pointers do.
#[derive(Drop)]
pub struct Seat {
    session: Box<Session>,
}

impl Model for Seat {
    ghost use Rattle.bfd_session.specs.Kinds.{Running};

    ghost Value = { Running };

    ghost view = { λ s. s.session.value };
}

impl Seat {
    /// A session at the start, of this configuration, which is within its ranges. Fails only when out of memory.
    pub(crate) fn make(alloc: Global, config: SessionConfig) -> Result<Seat, AllocError>
        requires { IsFit config }
        ensures session { IfOk result (λ seat. seat ≡ started config) }
        ensures sound { IfOk result IsSound }
    {
        let session = Box::new(alloc, Session::make(config))?;
        Ok(Seat { session })
    }

    /// The session.
    pub fn session(&self) -> &Session
        ensures { result.now ≡ self.now }
    {
        self.session.as_ref()
    }

    /// An own event at its effective moment: no earlier than the last tick and the session's last own event.
    pub(crate) fn step(&mut self, last: u64, moment: u64, event: &Event, outs: &mut Outs) -> Answer
        requires last { last ≤ greatest_tick }
        requires moment { moment < moment_bound }
        requires takes { CanTake self.old.config event.now }
        requires room { 5 ≤ outs.old.spare }
        ensures session { self.new ≡ stepped moment last event.now self.old }
        ensures items { outs.new.items ≡ outs.old.items ++ (step_outcome moment last event.now self.old).items }
        ensures answer { result ≡ (step_outcome moment last event.now self.old).answer }
        ensures sound { IsSound self.new }
        ensures spare { outs.old.spare ≤ outs.new.spare + 5 }
        ensures room { outs.new.room ≡ outs.old.room }
    {
        let at = self.session.vars().at;
        let eff = moment.max((1000 * last).max(at));
        self.session.step(eff, event, outs)
    }

    /// The part that the session has in the tick `last`.
    pub(crate) fn tick(&mut self, last: u64, outs: &mut Outs)
        requires last { last ≤ greatest_tick }
        requires room { 5 ≤ outs.old.spare }
        ensures session { self.new ≡ ticked last self.old }
        ensures items { outs.new.items ≡ outs.old.items ++ tick_items last self.old }
        ensures over { has_come last (due_tick (ticked last self.old)) ≡ false }
        ensures spare { outs.old.spare ≤ outs.new.spare + 5 }
        ensures room { outs.new.room ≡ outs.old.room }
    {
        let limit = 1000 * last;
        let eff = limit.max(self.session.vars().at);
        self.session.tick(limit, eff, outs);
    }
}
