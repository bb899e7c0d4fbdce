//! Calls of an engine by discriminator: commands and questions.
ghost use Rattle.std.specs.Prelude.{◌≡◌, ◌≤◌, ◌<◌, ◌+◌, length};
ghost use Rattle.bfd_session.specs.declared.event.SessionConfig.{SessionConfig};
ghost use Rattle.bfd_session.specs.declared.event.Event.TheVariants.{Command as CommandEvent, Show as ShowEvent};
ghost use Rattle.bfd_session.specs.Step.{CanTake};
ghost use Rattle.bfd_engine.specs.Engines.{IsOf, AllThere};
ghost use Rattle.bfd_engine.specs.Calls.{IsDone, asking_by_discr};

use crate::engine::Engine;
use crate::fault::EngineFault;
use crate::pass::EnginePass;
use bfd_num::{Moment, Steps};
use bfd_rules::{Cmd, Outs, Refusal};
use bfd_session::{Answer, Event};
use bfd_wheel::Timers;
use std::sync::Wait;
use std::sync::ledger::Ledger;

impl<W: Timers> Engine<W> {
    /// An event that every session accepts, for the one with this discriminator.
    fn ask<R: Wait, L: Ledger>(
        &self,
        rt: &R,
        pass: &mut EnginePass,
        moment: Moment,
        discr: u32,
        event: Event,
        outs: &mut Outs,
        steps: &mut Steps<L>,
    ) -> Result<Answer, EngineFault>
        requires of { IsOf self.now pass.old.1 }
        requires there { AllThere pass.old.1 }
        requires takes { (c : SessionConfig) → CanTake c event }
        requires room { 5 ≤ outs.old.spare }
        ensures of { IsOf self.now pass.new.1 }
        ensures there { AllThere pass.new.1 }
        ensures call { IsDone (asking_by_discr self.now moment discr event)
            self.now pass.old pass.new outs.old.items outs.new.items result }
        ensures room { outs.new.room ≡ outs.old.room }
        ensures spare { outs.old.spare ≤ outs.new.spare + 5 }
        ensures cost { steps.new ≤ steps.old + 2 }
    {
        match self.table.place_of(discr) {
            Some(k) => self.own(rt, pass, moment, k, event, outs, steps),
            None => Ok(Answer::Refused(Refusal::UnknownSession)),
        }
    }

    /// Gives a command to the session with this discriminator. It may wait.
    ///
    /// Where no session has it, a reflector's among them, the answer is `Refused(UnknownSession)` and no turn is taken. Otherwise
    /// it is one turn, whose entry is the session's own event at this moment. `outs` has room for five. A turn is refused as
    /// `turn_on` says.
    pub fn command<R: Wait, L: Ledger>(
        &self,
        rt: &R,
        pass: &mut EnginePass,
        moment: Moment,
        discr: u32,
        cmd: Cmd,
        outs: &mut Outs,
        steps: &mut Steps<L>,
    ) -> Result<Answer, EngineFault>
        requires of { IsOf self.now pass.old.1 }
        requires there { AllThere pass.old.1 }
        requires room { 5 ≤ outs.old.spare }
        ensures of { IsOf self.now pass.new.1 }
        ensures there { AllThere pass.new.1 }
        ensures call { IsDone (asking_by_discr self.now moment discr (CommandEvent cmd))
            self.now pass.old pass.new outs.old.items outs.new.items result }
        ensures room { outs.new.room ≡ outs.old.room }
        ensures spare { outs.old.spare ≤ outs.new.spare + 5 }
        ensures cost { steps.new ≤ steps.old + 2 }
    {
        self.ask(rt, pass, moment, discr, Event::Command(cmd), outs, steps)
    }

    /// Asks the session with this discriminator what it shows of itself, by the same rule. What has come due by this moment is
    /// done first, so it is one turn and an entry too. A turn is refused as `turn_on` says.
    pub fn show<R: Wait, L: Ledger>(
        &self,
        rt: &R,
        pass: &mut EnginePass,
        moment: Moment,
        discr: u32,
        outs: &mut Outs,
        steps: &mut Steps<L>,
    ) -> Result<Answer, EngineFault>
        requires of { IsOf self.now pass.old.1 }
        requires there { AllThere pass.old.1 }
        requires room { 5 ≤ outs.old.spare }
        ensures of { IsOf self.now pass.new.1 }
        ensures there { AllThere pass.new.1 }
        ensures call { IsDone (asking_by_discr self.now moment discr ShowEvent)
            self.now pass.old pass.new outs.old.items outs.new.items result }
        ensures room { outs.new.room ≡ outs.old.room }
        ensures spare { outs.old.spare ≤ outs.new.spare + 5 }
        ensures cost { steps.new ≤ steps.old + 2 }
    {
        self.ask(rt, pass, moment, discr, Event::Show, outs, steps)
    }
}
