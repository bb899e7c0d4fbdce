//! An initiator as its calls see it.
ghost use Rattle.std.specs.Prelude.{◌≡◌, ◌<◌, ◌≤◌, ◌+◌, ◌^◌, None, ℕ};
ghost use Rattle.std.specs.Result.{result_err};
ghost use Rattle.std.specs.Option.{ForSome};
ghost use Rattle.bfd_num.specs.Numbers.{moment_bound};
ghost use Rattle.bfd_packet.specs.declared.arrival.Port.TheVariants.{Answer};
ghost use Rattle.bfd_packet.specs.Layout.{fields_of};
ghost use Rattle.bfd_packet.specs.HeaderTests.{first_failing};
ghost use Rattle.bfd_rules.specs.EventFrame.{course, begins as begins_of, stamped as stamped_of};
ghost use Rattle.bfd_sbfd.specs.declared.config.InitiatorConfig.{InitiatorConfig as ConfigOf};
ghost use Rattle.bfd_sbfd.specs.Sound.{IsInitiatorConfig, IsInitiatorSteady, IsInitiatorSound};
ghost use Rattle.bfd_sbfd.specs.Settle as settling;
ghost use Rattle.bfd_sbfd.specs.Receive as receive;
ghost use Rattle.bfd_sbfd.specs.Command as command;
ghost use Rattle.bfd_sbfd.specs.Finish as finishing;
ghost use Rattle.bfd_sbfd.specs.Over.{IsBegun, IsSettled, IsOver};
ghost use Rattle.bfd_sbfd.specs.Machine as machine;

use crate::InitiatorConfig;
use crate::commanding::commands;
use crate::finishing::finish;
use crate::receiving::receives;
use crate::settling::settle;
use bfd_packet::{SeqState, State};
use bfd_rules::{Cmd, Mark, Outs, Poll, Refusal, SLOW_TX, Vars, Verdict, begins, drawn, stamped};
use std::marker::Model;

/// An initiator (RFC 7880 section 7.3): its configuration, and its variables, which are steady also between the parts of
/// an event.
#[derive(Drop)]
pub struct Initiator {
    config: InitiatorConfig,
    vars: Vars,
}

impl Model for Initiator {
    ghost use Rattle.bfd_sbfd.specs.Machine.{Machine, IsMachine};

    ghost Value = { Machine };

    ghost view = { λ i. record { config = i.config; vars = i.vars } };

    ghost invariant = { λ i. IsMachine (record { config = i.config; vars = i.vars }) };
}

/// The variables at the start, before the first due tick is drawn (RFC 7880 section 6.2, RFC 5880 section 6.8.1).
fn initial(c: &InitiatorConfig) -> Vars
    requires { IsInitiatorConfig c.now }
    ensures value { result ≡ machine.initial c.now }
    ensures steady { IsInitiatorSteady c.now result }
{
    Vars {
        state: State::Down,
        remote_state: State::Down,
        diag: 0,
        remote_discr: c.target,
        remote_min_rx: 1,
        remote_demand: false,
        remote_min_echo: 0,
        remote_tx: 0,
        remote_mult: 0,
        tx: c.tx,
        rx: 0,
        echo_every: 0,
        mult: c.mult,
        demand: false,
        poll: Poll::Idle,
        used_tx: c.tx.max(SLOW_TX),
        used_rx: 0,
        heard: None,
        seq_heard: None,
        seq: SeqState {
            xmit: c.seed,
            rcv: 0,
            known: false,
        },
        sending: 0,
        left: 0,
        base: 0,
        tx_due: None,
        j: c.seed,
        at: 0,
    }
}

/// The variables at the start.
#[tactic(auto, using(crate::proofs::Drawing::drawn_sound), unfolding(crate::specs::Machine::made))]
fn made(c: &InitiatorConfig) -> Vars
    requires { IsInitiatorConfig c.now }
    ensures value { result ≡ machine.made c.now }
    ensures sound { IsInitiatorSound c.now result }
{
    let v = initial(c);
    let mark = begins(&v);
    drawn(true, &mark, v)
}

/// The variables as an own event at this effective moment begins.
fn stamps(own: Option<u64>, v: Vars) -> Vars
    requires { ForSome own (λ eff. eff < moment_bound) }
    ensures value { result ≡ stamped_of own v }
    ensures steady { (c : ConfigOf) → IsInitiatorSteady c v → IsInitiatorSteady c result }
{
    stamped(own, v)
}

impl Initiator {
    /// An initiator with the variables of the start (RFC 7880 section 6.2, RFC 5880 section 6.8.1), and the first due tick
    /// drawn: it is active. The configuration is within its ranges.
    pub fn make(config: InitiatorConfig) -> Initiator
        requires { IsInitiatorConfig config }
        ensures config { result.config ≡ config }
        ensures vars { result.vars ≡ machine.made config }
        ensures sound { IsInitiatorSound result.config result.vars }
    {
        let vars = made(&config);
        Initiator { config, vars }
    }

    /// The configuration.
    pub fn config(&self) -> &InitiatorConfig
        ensures value { result.now ≡ self.now.config }
        ensures fit { IsInitiatorConfig self.now.config }
    {
        &self.config
    }

    /// The variables.
    pub fn vars(&self) -> &Vars
        ensures value { result.now ≡ self.now.vars }
        ensures steady { IsInitiatorSteady self.now.config self.now.vars }
    {
        &self.vars
    }

    /// Begins an event: for an own event `own` is its effective moment in microseconds, which `at` becomes; for a tick
    /// it is None, and nothing changes. The mark goes through the other calls of the event.
    pub fn begin(&mut self, own: Option<u64>) -> Mark
        requires { ForSome own (λ eff. eff < moment_bound) }
        ensures config { self.new.config ≡ self.old.config }
        ensures vars { self.new.vars ≡ stamped_of own self.old.vars }
        ensures mark { result ≡ begins_of self.new.vars }
    {
        self.vars = stamps(own, self.vars);
        begins(&self.vars)
    }

    /// Does what has come due by `limit`, in microseconds: detection and the periodic packet, each at most once (RFC 7880
    /// sections 7.3.1 and 7.3.3, RFC 5880 sections 6.8.4 and 6.8.7). Adds at most two outputs.
    pub fn settle(&mut self, limit: u64, eff: u64, mark: &mut Mark, outs: &mut Outs)
        requires eff { eff < moment_bound }
        requires room { 2 ≤ outs.old.spare }
        ensures config { self.new.config ≡ self.old.config }
        ensures course { course self.new.vars mark.new outs.new.items
            ≡ settling.settle self.old.config limit eff (course self.old.vars mark.old outs.old.items) }
        ensures settled { IsBegun self.old.config limit eff mark.old self.old.vars
            → IsSettled limit eff mark.new self.new.vars }
        ensures spare { outs.old.spare ≤ outs.new.spare + 2 }
        ensures room { outs.new.room ≡ outs.old.room }
    {
        settle(&self.config, limit, eff, &mut self.vars, mark, outs);
    }

    /// Receives a reflector's answer (RFC 7880 sections 7.3.1 and 7.3.3). `raw` passes the header tests of the port on
    /// which answers come, so M is clear; no test looks at the TTL. The verdict is the first of the tests AuthUnexpected
    /// and AdminDown that it fails; the first leaves all as it was, the second comes after the answer's state, interval
    /// and moment were kept. P is not answered. Adds at most one output.
    pub fn accept(
        &mut self,
        eff: u64,
        ttl: u8,
        raw: &[u8],
        mark: &mut Mark,
        outs: &mut Outs,
    ) -> Verdict
        requires eff { eff < moment_bound }
        requires header { first_failing Answer raw.now ≡ None }
        requires room { 1 ≤ outs.old.spare }
        ensures config { self.new.config ≡ self.old.config }
        ensures course { course self.new.vars mark.new outs.new.items
            ≡ receive.received self.old.config eff raw.now (course self.old.vars mark.old outs.old.items) }
        ensures verdict { result ≡ receive.verdict_on raw.now self.old.vars }
        ensures sized { (fields_of raw.now).min_rx < 2 ^ 32 }
        ensures spare { outs.old.spare ≤ outs.new.spare + 1 }
        ensures room { outs.new.room ≡ outs.old.room }
    {
        // proof: names what the clauses speak of and the body does not use
        let _ = (ttl, mark.moved);
        receives(&self.config, eff, raw, &mut self.vars, outs)
    }

    /// Does a command, or refuses it by the first of WrongKind, OutOfRange and WrongState that is true of it, and then
    /// changes nothing: an initiator knows `Disable`, `Enable`, `Tx` and `Mult` alone. Adds at most one output.
    pub fn command(
        &mut self,
        eff: u64,
        cmd: &Cmd,
        mark: &mut Mark,
        outs: &mut Outs,
    ) -> Result<(), Refusal>
        requires eff { eff < moment_bound }
        requires room { 1 ≤ outs.old.spare }
        ensures config { self.new.config ≡ self.old.config }
        ensures course { course self.new.vars mark.new outs.new.items
            ≡ command.commanded self.old.config cmd.now (course self.old.vars mark.old outs.old.items) }
        ensures refusal { result_err result ≡ command.refusal self.old.vars cmd.now }
        ensures spare { outs.old.spare ≤ outs.new.spare + 1 }
        ensures room { outs.new.room ≡ outs.old.room }
    {
        // proof: names what the clauses speak of and the body does not use
        let _ = (eff, mark.moved);
        commands(&self.config, cmd, &mut self.vars, outs)
    }

    /// Ends an event: a state or diagnostic that changed in it, and that no periodic packet of it sent, is sent in one
    /// packet where one may be sent, and the next due tick is drawn (RFC 5880 section 6.8.7). Adds at most one output.
    pub fn finish(&mut self, eff: u64, mark: Mark, outs: &mut Outs)
        requires eff { eff < moment_bound }
        requires room { 1 ≤ outs.old.spare }
        ensures config { self.new.config ≡ self.old.config }
        ensures vars { self.new.vars ≡ (finishing.finish self.old.config eff
            (course self.old.vars mark outs.old.items)).vars }
        ensures outs { outs.new.items ≡ (finishing.finish self.old.config eff
            (course self.old.vars mark outs.old.items)).outs }
        ensures sound { IsInitiatorSound self.new.config self.new.vars }
        ensures over { (limit : ℕ) → limit ≤ eff → IsSettled limit eff mark self.old.vars → IsOver limit self.new.vars }
        ensures spare { outs.old.spare ≤ outs.new.spare + 1 }
        ensures room { outs.new.room ≡ outs.old.room }
    {
        finish(&self.config, eff, &mut self.vars, mark, outs);
    }
}
