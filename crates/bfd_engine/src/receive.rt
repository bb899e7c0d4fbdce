//! Calls of an engine by what comes from outside: arrivals and ticks.
ghost use Rattle.std.specs.Prelude.{◌≡◌, ◌≤◌, ◌<◌, ◌+◌, ◌*◌, ◌/◌, ◌%◌, IfOk, length};
ghost use Rattle.bfd_session.specs.Arrivals.{comes_to};
ghost use Rattle.bfd_session.specs.Reaching.{IsTaken};
ghost use Rattle.bfd_session.specs.Rows.{table_of};
ghost use Rattle.bfd_shard.specs.declared.entry.ShardEvent.TheVariants.{Tick as TickEvent};
ghost use Rattle.bfd_engine.specs.Engines.{IsOf, AllThere, configs_at};
ghost use Rattle.bfd_engine.specs.Calls.{IsDone, Turns, own_act, arrival_act, seen_at};
ghost use Rattle.bfd_engine.specs.Judging.{arrival_judged};
ghost use Rattle.bfd_engine.specs.Turned.{HasExpired};

use crate::engine::Engine;
use crate::fault::EngineFault;
use crate::pass::EnginePass;
use bfd_demux::Target;
use bfd_num::{Moment, Steps, Tick};
use bfd_packet::Arrival;
use bfd_rules::Outs;
use bfd_session::{Answer, Event};
use bfd_shard::ShardEvent;
use bfd_wheel::Timers;
use std::sync::Wait;
use std::sync::ledger::Ledger;

impl<W: Timers> Engine<W> {
    /// An own event of the session at this place of the table.
    #[tactic(auto, using(crate::proofs::Reaching::dealt_event))]
    pub(crate) fn own<R: Wait, L: Ledger>(
        &self,
        rt: &R,
        pass: &mut EnginePass,
        moment: Moment,
        k: u32,
        event: Event,
        outs: &mut Outs,
        steps: &mut Steps<L>,
    ) -> Result<Answer, EngineFault>
        requires of { IsOf self.now pass.old.1 }
        requires there { AllThere pass.old.1 }
        requires taken { IsTaken self.now.configs k event }
        requires room { 5 ≤ outs.old.spare }
        ensures of { IsOf self.now pass.new.1 }
        ensures there { AllThere pass.new.1 }
        ensures call { IsDone (own_act self.now moment k event)
            self.now pass.old pass.new outs.old.items outs.new.items result }
        ensures room { outs.new.room ≡ outs.old.room }
        ensures spare { outs.old.spare ≤ outs.new.spare + 5 }
        ensures cost { steps.new ≤ steps.old + 2 }
    {
        let shards = self.shards();
        let event = ShardEvent::Own {
            place: k / shards,
            moment,
            event,
        };
        self.turn_on(rt, pass, k % shards, event, outs, steps)
    }

    /// Hands an arrival to what it is for. It may wait.
    ///
    /// An arrival that fails a test up to selection is answered `Dropped` with the first that it fails. A packet for a reflector
    /// is answered by it: its answer is emitted as `Sent` in the reflector's name, or it is `Dropped`. Neither takes a turn.
    /// Any other arrival is one turn, whose entry is the session's own event at this moment. A packet of a session is `Dropped` by
    /// the first test that it fails, over the session's variables after settling, and `Handled` where it fails none (RFC 5880
    /// section 6.8.6). `outs` has room for five. At most 36 steps are taken. A turn is refused as `turn_on` says.
    pub fn receive<R: Wait, L: Ledger>(
        &self,
        rt: &R,
        pass: &mut EnginePass,
        moment: Moment,
        arrival: Arrival,
        outs: &mut Outs,
        steps: &mut Steps<L>,
    ) -> Result<Answer, EngineFault>
        requires of { IsOf self.now pass.old.1 }
        requires there { AllThere pass.old.1 }
        requires room { 5 ≤ outs.old.spare }
        ensures of { IsOf self.now pass.new.1 }
        ensures there { AllThere pass.new.1 }
        ensures call { IsDone (arrival_act self.now moment arrival)
            self.now pass.old pass.new outs.old.items outs.new.items result }
        ensures judged { IfOk result (λ answer. arrival_judged self.now moment arrival
            (comes_to (table_of self.now.configs self.now.pool) arrival) pass.new answer) }
        ensures room { outs.new.room ≡ outs.old.room }
        ensures spare { outs.old.spare ≤ outs.new.spare + 5 }
        ensures cost { steps.new ≤ steps.old + 36 }
    {
        match self.table.screen(&arrival, steps) {
            Ok(Target::Session(k)) => {
                let packet = Event::Packet(arrival);
                self.own(rt, pass, moment, k, packet, outs, steps)
            }
            Ok(Target::Echo(k, sequence)) => {
                let returned = Event::Returned(sequence);
                self.own(rt, pass, moment, k, returned, outs, steps)
            }
            Ok(Target::Reflector(place)) => match self.table.reflected(place, &arrival) {
                Ok(out) => {
                    outs.push(out);
                    Ok(Answer::Handled)
                }
                Err(test) => Ok(Answer::Dropped(test)),
            },
            Err(test) => Ok(Answer::Dropped(test)),
        }
    }

    /// Advances a shard, whose number is below `shards()`, to this tick; one below its last tick counts as the last. It may wait.
    ///
    /// It is one turn, whose entry is this tick. Of the sessions of the shard exactly those forget that a packet was heard whose
    /// Detection Time has expired by it (RFC 5880 section 6.8.4), and nothing is left that is due. `outs` has room for five outputs
    /// for each session of the shard. A turn is refused as `turn_on` says.
    pub fn advance<R: Wait, L: Ledger>(
        &self,
        rt: &R,
        pass: &mut EnginePass,
        shard: u32,
        tick: Tick,
        outs: &mut Outs,
        steps: &mut Steps<L>,
    ) -> Result<Answer, EngineFault>
        requires of { IsOf self.now pass.old.1 }
        requires there { AllThere pass.old.1 }
        requires shard { shard < length self.now.locks }
        requires room { 5 * length (configs_at self.now shard) ≤ outs.old.spare }
        ensures of { IsOf self.now pass.new.1 }
        ensures there { AllThere pass.new.1 }
        ensures call { IsDone (Turns shard (TickEvent tick))
            self.now pass.old pass.new outs.old.items outs.new.items result }
        ensures expires { IfOk result (λ _. HasExpired (configs_at self.now shard)
            pass.old.0 tick (seen_at pass.new shard)) }
        ensures room { outs.new.room ≡ outs.old.room }
        ensures spare { outs.old.spare ≤ outs.new.spare + 5 * length (configs_at self.now shard) }
    {
        self.turn_on(rt, pass, shard, ShardEvent::Tick(tick), outs, steps)
    }
}
