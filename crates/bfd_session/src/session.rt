//! A session and its events.
ghost use Rattle.std.specs.Prelude.{◌≡◌, ◌<◌, ◌≤◌, ◌+◌, ◌*◌, ◌++◌, ℕ, List, false, IfSome, IsTrue, ◌↔◌};
ghost use Rattle.bfd_num.specs.Numbers.{moment_bound};
ghost use Rattle.bfd_num.specs.Due.{has_come};
ghost use Rattle.bfd_rules.specs.declared.outputs.Out.{Out};
ghost use Rattle.bfd_session.specs.Kinds.{discr_of};
ghost use Rattle.bfd_session.specs.Due as due;
ghost use Rattle.bfd_session.specs.Step.{IsFit, IsSound, CanTake, HasSize, started, next, emits, reply, tick_next, tick_emits};

use crate::answering::is_for;
use crate::plain::PlainMachine;
use crate::{Answer, Event, SessionConfig, plain, point};
use bfd_echo::Echo;
use bfd_mp::{Head, Tail};
use bfd_p2p::{P2p, control_port};
use bfd_packet::Port;
use bfd_rules::{Outs, Vars};
use bfd_sbfd::Initiator;
use std::marker::Model;

/// The machine of a session, by its kind: a point-to-point one with the Echo function that runs, if one does, and the
/// sequence number that the next one begins with.
#[derive(Drop)]
enum Machine {
    PointToPoint(P2p, Option<Echo>, u32),
    Initiator(Initiator),
    Head(Head),
    Tail(Tail),
}

/// A session: its configuration, its variables and its Echo function, which stay sound between events.
#[derive(Drop)]
pub struct Session {
    machine: Machine,
}

impl Model for Session {
    ghost use Rattle.bfd_session.specs.Kinds.{Running};

    ghost Value = { Running };

    ghost use Rattle.bfd_session.specs.Inside.{running_of, IsRunning};

    ghost view = { λ s. running_of s.machine };

    ghost invariant = { λ s. IsRunning s.machine };
}

impl Session {
    /// A session with the variables of the start. The configuration is within its ranges.
    #[tactic(auto, using(crate::proofs::Starting::starts_sound))]
    pub fn make(config: SessionConfig) -> Session
        requires { IsFit config }
        ensures session { result ≡ started config }
        ensures sound { IsSound result }
    {
        match config {
            SessionConfig::PointToPoint(config) => Session {
                machine: Machine::PointToPoint(P2p::make(config), None, 0),
            },
            SessionConfig::Initiator(config) => Session {
                machine: Machine::Initiator(Initiator::make(config)),
            },
            SessionConfig::Head(config) => Session {
                machine: Machine::Head(Head::make(config)),
            },
            SessionConfig::Tail(config) => Session {
                machine: Machine::Tail(Tail::make(config)),
            },
        }
    }

    /// The local discriminator.
    pub fn discr(&self) -> u32
        ensures { result ≡ discr_of self.now.config }
    {
        match &self.machine {
            Machine::PointToPoint(point, _, _) => point.config().discr,
            Machine::Initiator(initiator) => initiator.config().discr,
            Machine::Head(head) => head.config().discr,
            Machine::Tail(tail) => tail.config().discr,
        }
    }

    /// The variables.
    pub fn vars(&self) -> &Vars
        ensures value { result.now ≡ self.now.vars }
        ensures fit { IsFit self.now.config }
        ensures sound { IsSound self.now }
    {
        match &self.machine {
            Machine::PointToPoint(point, _, _) => point.vars(),
            Machine::Initiator(initiator) => initiator.vars(),
            Machine::Head(head) => head.vars(),
            Machine::Tail(tail) => tail.vars(),
        }
    }

    /// The Echo function, where one runs: in a point-to-point session over a single hop that is Up, where both sides want
    /// it (RFC 5880 section 6.8.9).
    pub fn echo(&self) -> Option<Echo>
        ensures { result ≡ self.now.echo }
    {
        match &self.machine {
            Machine::PointToPoint(_, echo, _) => *echo,
            _ => None,
        }
    }

    /// The sequence number that the next Echo function of the session begins with, 0 where none ran yet.
    pub fn echo_next(&self) -> u32
        ensures { result ≡ self.now.echo_next }
    {
        match &self.machine {
            Machine::PointToPoint(_, _, next) => *next,
            _ => 0,
        }
    }

    /// Whether the event may be handed to the session: a packet came on the session's port, passes the port's header
    /// tests and has M clear, or for a tail has it set; none may be handed to a head; and every other event may.
    pub fn takes(&self, event: &Event) -> bool
        ensures { IsTrue result ↔ CanTake self.now.config event.now }
    {
        let Event::Packet(arrival) = event else {
            return true;
        };
        match &self.machine {
            Machine::PointToPoint(point, _, _) => is_for(
                control_port(point.config().role),
                false,
                arrival,
            ),
            Machine::Initiator(_) => is_for(Port::Answer, false, arrival),
            Machine::Head(_) => false,
            Machine::Tail(_) => is_for(Port::Single, true, arrival),
        }
    }

    /// An own event at its effective moment `eff`, in microseconds: what has come due by it is done, then the event's
    /// own rules, then the event ends (RFC 5880 section 6.8). The event is one that `takes` says yes to. Adds at most
    /// five outputs. Allocates no memory.
    pub fn step(&mut self, eff: u64, event: &Event, outs: &mut Outs) -> Answer
        requires eff { eff < moment_bound }
        requires takes { CanTake self.old.config event.now }
        requires room { 5 ≤ outs.old.spare }
        ensures session { self.new ≡ next eff event.now self.old }
        ensures outs { outs.new.items ≡ outs.old.items ++ emits eff event.now self.old }
        ensures answer { result ≡ reply eff event.now self.old }
        ensures size { HasSize self.old.config event.now }
        ensures sound { IsSound self.new }
        ensures spare { outs.old.spare ≤ outs.new.spare + 5 }
        ensures room { outs.new.room ≡ outs.old.room }
    {
        match &mut self.machine {
            Machine::PointToPoint(point, echo, next) => point::steps(
                point, echo, next, eff, event, outs,
            ),
            Machine::Initiator(initiator) => plain::steps(initiator, eff, event, outs),
            Machine::Head(head) => plain::steps(head, eff, event, outs),
            Machine::Tail(tail) => plain::steps(tail, eff, event, outs),
        }
    }

    /// A tick: what has come due by `limit`, in microseconds, is done at the effective moment `eff`. A tick before
    /// `due` changes and adds nothing; after one with the limit of tick t nothing that is due by t is left. Adds at
    /// most five outputs. Allocates no memory.
    #[tactic(auto, using(crate::proofs::Rest::limit_session, crate::proofs::Rest::limit_outs))]
    pub fn tick(&mut self, limit: u64, eff: u64, outs: &mut Outs)
        requires eff { eff < moment_bound }
        requires room { 5 ≤ outs.old.spare }
        ensures session { self.new ≡ tick_next limit eff self.old }
        ensures outs { outs.new.items ≡ outs.old.items ++ tick_emits limit eff self.old }
        ensures over { (t : ℕ) → limit ≡ 1000 * t → limit ≤ eff → has_come t (due.due self.new) ≡ false }
        ensures rests { (t : ℕ) → limit ≡ 1000 * t → has_come t (due.due self.old) ≡ false → self.new ≡ self.old }
        ensures rests_outs { (t : ℕ) → limit ≡ 1000 * t → has_come t (due.due self.old) ≡ false
            → outs.new.items ≡ outs.old.items }
        ensures sound { IsSound self.new }
        ensures spare { outs.old.spare ≤ outs.new.spare + 5 }
        ensures room { outs.new.room ≡ outs.old.room }
    {
        match &mut self.machine {
            Machine::PointToPoint(point, echo, next) => point::ticks(
                point, echo, next, limit, eff, outs,
            ),
            Machine::Initiator(initiator) => plain::ticks(initiator, limit, eff, outs),
            Machine::Head(head) => plain::ticks(head, limit, eff, outs),
            Machine::Tail(tail) => plain::ticks(tail, limit, eff, outs),
        }
    }

    /// The tick that the session needs next: the least of its due ticks, or None where it has none (RFC 5880 sections
    /// 6.8.1, 6.8.4, 6.8.5, 6.8.7 and 6.8.9). It may lie at or below the last tick; the next tick then does it. Allocates no memory.
    pub fn due(&self) -> Option<u64>
        ensures value { result ≡ due.due self.now }
        ensures below { IfSome result (λ t. t < moment_bound) }
    {
        match &self.machine {
            Machine::PointToPoint(point, echo, _) => point::due_tick(point, echo),
            Machine::Initiator(initiator) => initiator.due_tick(),
            Machine::Head(head) => head.due_tick(),
            Machine::Tail(tail) => tail.due_tick(),
        }
    }
}
