//! A tail as its calls see it.
ghost use Rattle.std.specs.Prelude.{◌≡◌, ◌<◌, ◌≤◌, ◌+◌, None, true, ℕ};
ghost use Rattle.std.specs.Result.{result_err};
ghost use Rattle.std.specs.Option.{ForSome};
ghost use Rattle.bfd_num.specs.Numbers.{moment_bound};
ghost use Rattle.bfd_packet.specs.declared.arrival.Port.TheVariants.{Single};
ghost use Rattle.bfd_packet.specs.Layout.{fields_of};
ghost use Rattle.bfd_packet.specs.HeaderTests.{first_failing};
ghost use Rattle.bfd_rules.specs.EventFrame.{course, begins as begins_of, stamped as stamped_of};
ghost use Rattle.bfd_mp.specs.declared.config.TailConfig.{TailConfig as ConfigOf};
ghost use Rattle.bfd_mp.specs.Sound.{IsTailConfig, IsTailSound};
ghost use Rattle.bfd_mp.specs.TailSettle as settling;
ghost use Rattle.bfd_mp.specs.TailReceive as receive;
ghost use Rattle.bfd_mp.specs.TailReceive.{IsSized};
ghost use Rattle.bfd_mp.specs.Command as command;
ghost use Rattle.bfd_mp.specs.Over.{IsTailOver};
ghost use Rattle.bfd_mp.specs.Machine as machine;

use crate::TailConfig;
use crate::commanding::commands_tail;
use crate::detecting::settle;
use crate::receiving::receives;
use bfd_packet::{SeqState, State};
use bfd_rules::{Cmd, Mark, Outs, Poll, Refusal, Vars, Verdict, begins, stamped};
use std::marker::Model;

/// A tail (RFC 8562 section 5.4, MultipointTail): its configuration, and its variables, which are sound also between the
/// parts of an event. It emits changes of its state, and never a packet.
#[derive(Drop)]
pub struct Tail {
    config: TailConfig,
    vars: Vars,
}

impl Model for Tail {
    ghost use Rattle.bfd_mp.specs.Machine.{TailMachine, IsTail};

    ghost Value = { TailMachine };

    ghost view = { λ t. record { config = t.config; vars = t.vars } };

    ghost invariant = { λ t. IsTail (record { config = t.config; vars = t.vars }) };
}

/// The variables at the start (RFC 8562 section 5.4, RFC 5880 section 6.8.1).
fn made(c: &TailConfig) -> Vars
    requires { IsTailConfig c.now }
    ensures value { result ≡ machine.tail_made c.now }
    ensures sound { IsTailSound c.now result }
{
    Vars {
        state: State::Down,
        remote_state: State::Down,
        diag: 0,
        remote_discr: c.head,
        remote_min_rx: 0,
        remote_demand: false,
        remote_min_echo: 0,
        remote_tx: 0,
        remote_mult: 0,
        tx: 0,
        rx: 0,
        echo_every: 0,
        mult: 1,
        demand: false,
        poll: Poll::Idle,
        used_tx: 0,
        used_rx: 0,
        heard: None,
        seq_heard: None,
        seq: SeqState {
            xmit: 0,
            rcv: 0,
            known: false,
        },
        sending: 0,
        left: 0,
        base: 0,
        tx_due: None,
        j: 0,
        at: 0,
    }
}

/// The variables as an own event at this effective moment begins.
fn stamps(own: Option<u64>, v: Vars) -> Vars
    requires { ForSome own (λ eff. eff < moment_bound) }
    ensures value { result ≡ stamped_of own v }
    ensures sound { (c : ConfigOf) → IsTailSound c v → IsTailSound c result }
{
    stamped(own, v)
}

impl Tail {
    /// A tail with the variables of the start (RFC 8562 section 5.4, RFC 5880 section 6.8.1). The configuration is within
    /// its ranges.
    pub fn make(config: TailConfig) -> Tail
        requires { IsTailConfig config }
        ensures config { result.config ≡ config }
        ensures vars { result.vars ≡ machine.tail_made config }
        ensures sound { IsTailSound result.config result.vars }
    {
        let vars = made(&config);
        Tail { config, vars }
    }

    /// The configuration.
    pub fn config(&self) -> &TailConfig
        ensures value { result.now ≡ self.now.config }
        ensures fit { IsTailConfig self.now.config }
    {
        &self.config
    }

    /// The variables.
    pub fn vars(&self) -> &Vars
        ensures value { result.now ≡ self.now.vars }
        ensures sound { IsTailSound self.now.config self.now.vars }
    {
        &self.vars
    }

    /// Begins an event: for an own event `own` is its effective moment in microseconds, which `at` becomes; for a tick
    /// it is None, and nothing changes. The mark goes through the other calls of the event.
    pub fn begin(&mut self, own: Option<u64>) -> Mark
        requires { ForSome own (λ eff. eff < moment_bound) }
        ensures config { self.new.config ≡ self.old.config }
        ensures vars { self.new.vars ≡ stamped_of own self.old.vars }
        ensures mark { result ≡ begins_of self.new.vars }
    {
        self.vars = stamps(own, self.vars);
        begins(&self.vars)
    }

    /// Does what has come due by `limit`, in microseconds: detection (RFC 8562 section 5.11). Adds at most one output.
    pub fn settle(&mut self, limit: u64, eff: u64, mark: &mut Mark, outs: &mut Outs)
        requires eff { eff < moment_bound }
        requires room { 1 ≤ outs.old.spare }
        ensures config { self.new.config ≡ self.old.config }
        ensures course { course self.new.vars mark.new outs.new.items
            ≡ settling.settle self.old.config limit (course self.old.vars mark.old outs.old.items) }
        ensures settled { IsTailOver limit self.new.vars }
        ensures spare { outs.old.spare ≤ outs.new.spare + 1 }
        ensures room { outs.new.room ≡ outs.old.room }
    {
        // proof: names what the clauses speak of and the body does not use
        let _ = (eff, mark.moved);
        settle(&self.config, limit, &mut self.vars, outs);
    }

    /// Receives a head's packet (RFC 8562 section 5.13). `raw` passes the header tests of port Single and has M set; no
    /// test looks at the TTL. The verdict is the first of the tests AuthUnexpected and AdminDown that it fails; the first
    /// leaves all as it was, the second comes after the packet's state, Detect Mult, interval and moment were kept. P is not
    /// answered. Adds at most one output.
    pub fn accept(
        &mut self,
        eff: u64,
        ttl: u8,
        raw: &[u8],
        mark: &mut Mark,
        outs: &mut Outs,
    ) -> Verdict
        requires eff { eff < moment_bound }
        requires header { first_failing Single raw.now ≡ None }
        requires multi { (fields_of raw.now).multi ≡ true }
        requires room { 1 ≤ outs.old.spare }
        ensures config { self.new.config ≡ self.old.config }
        ensures course { course self.new.vars mark.new outs.new.items
            ≡ receive.received self.old.config eff raw.now (course self.old.vars mark.old outs.old.items) }
        ensures verdict { result ≡ receive.verdict_on raw.now self.old.vars }
        ensures sized { IsSized (fields_of raw.now) }
        ensures spare { outs.old.spare ≤ outs.new.spare + 1 }
        ensures room { outs.new.room ≡ outs.old.room }
    {
        // proof: names what the clauses speak of and the body does not use
        let _ = (ttl, mark.moved);
        receives(&self.config, eff, raw, &mut self.vars, outs)
    }

    /// Does a command, or refuses it by the first of WrongKind and WrongState that is true of it, and then changes nothing:
    /// a tail knows `Disable` and `Enable` alone (RFC 5880 section 6.8.16). Adds at most one output.
    pub fn command(
        &mut self,
        eff: u64,
        cmd: &Cmd,
        mark: &mut Mark,
        outs: &mut Outs,
    ) -> Result<(), Refusal>
        requires eff { eff < moment_bound }
        requires room { 1 ≤ outs.old.spare }
        ensures config { self.new.config ≡ self.old.config }
        ensures course { course self.new.vars mark.new outs.new.items
            ≡ command.tail_commanded self.old.config cmd.now (course self.old.vars mark.old outs.old.items) }
        ensures refusal { result_err result ≡ command.tail_refusal self.old.vars cmd.now }
        ensures spare { outs.old.spare ≤ outs.new.spare + 1 }
        ensures room { outs.new.room ≡ outs.old.room }
    {
        // proof: names what the clauses speak of and the body does not use
        let _ = (eff, mark.moved);
        commands_tail(&self.config, cmd, &mut self.vars, outs)
    }

    /// Ends an event, with nothing: a tail may send nothing, so no packet reports a change, and no due tick is drawn.
    pub fn finish(&mut self, eff: u64, mark: Mark, outs: &mut Outs)
        requires eff { eff < moment_bound }
        ensures same { self.new ≡ self.old }
        ensures outs { outs.new ≡ outs.old }
        ensures sound { IsTailSound self.new.config self.new.vars }
        ensures over { (limit : ℕ) → IsTailOver limit self.old.vars → IsTailOver limit self.new.vars }
    {
        // proof: names what the clauses speak of and the body does not use
        let _ = (eff, mark.moved, self.vars.at, outs.spare());
    }
}
