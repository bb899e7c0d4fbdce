//! A head as its calls see it.
ghost use Rattle.std.specs.Prelude.{◌≡◌, ◌<◌, ◌≤◌, ◌+◌, ℕ};
ghost use Rattle.std.specs.Result.{result_err};
ghost use Rattle.std.specs.Option.{ForSome};
ghost use Rattle.bfd_num.specs.Numbers.{moment_bound};
ghost use Rattle.bfd_rules.specs.EventFrame.{course, begins as begins_of, stamped as stamped_of};
ghost use Rattle.bfd_mp.specs.Sound.{IsHeadConfig, IsHeadSteady, IsHeadSound};
ghost use Rattle.bfd_mp.specs.HeadSettle as settling;
ghost use Rattle.bfd_mp.specs.HeadFinish as finishing;
ghost use Rattle.bfd_mp.specs.Command as command;
ghost use Rattle.bfd_mp.specs.Over.{IsBegun, IsSettled, IsHeadOver};
ghost use Rattle.bfd_mp.specs.Machine as machine;

use crate::HeadConfig;
use crate::commanding::commands_head;
use crate::finishing::{drawn_anew, finish};
use crate::settling::settle;
use bfd_packet::{SeqState, State};
use bfd_rules::{Cmd, Mark, Outs, Poll, Refusal, Vars, begins, stamped};
use std::marker::Model;

/// A head (RFC 8562 section 5.4, MultipointHead): its configuration, and its variables, which are steady also between the
/// parts of an event.
#[derive(Drop)]
pub struct Head {
    config: HeadConfig,
    vars: Vars,
}

impl Model for Head {
    ghost use Rattle.bfd_mp.specs.Machine.{HeadMachine, IsHead};

    ghost Value = { HeadMachine };

    ghost view = { λ h. record { config = h.config; vars = h.vars } };

    ghost invariant = { λ h. IsHead (record { config = h.config; vars = h.vars }) };
}

/// The variables at the start, before the first due tick is drawn (RFC 8562 section 5.4, RFC 5880 section 6.8.1).
fn initial(c: &HeadConfig) -> Vars
    requires { IsHeadConfig c.now }
    ensures value { result ≡ machine.head_initial c.now }
    ensures steady { IsHeadSteady result }
{
    Vars {
        state: State::Up,
        remote_state: State::Down,
        diag: 0,
        remote_discr: 0,
        remote_min_rx: 1,
        remote_demand: false,
        remote_min_echo: 0,
        remote_tx: 0,
        remote_mult: 0,
        tx: c.tx,
        rx: 0,
        echo_every: 0,
        mult: c.mult,
        demand: false,
        poll: Poll::Idle,
        used_tx: c.tx,
        used_rx: 0,
        heard: None,
        seq_heard: None,
        seq: SeqState {
            xmit: c.seed,
            rcv: 0,
            known: false,
        },
        sending: 0,
        left: 0,
        base: 0,
        tx_due: None,
        j: c.seed,
        at: 0,
    }
}

/// The variables at the start.
#[tactic(auto, unfolding(crate::specs::Machine::head_made))]
fn made(c: &HeadConfig) -> Vars
    requires { IsHeadConfig c.now }
    ensures value { result ≡ machine.head_made c.now }
    ensures sound { IsHeadSound result }
{
    let v = initial(c);
    let mark = begins(&v);
    drawn_anew(&mark, v)
}

/// The variables as an own event at this effective moment begins.
fn stamps(own: Option<u64>, v: Vars) -> Vars
    requires { ForSome own (λ eff. eff < moment_bound) }
    ensures value { result ≡ stamped_of own v }
    ensures steady { IsHeadSteady v → IsHeadSteady result }
{
    stamped(own, v)
}

impl Head {
    /// A head with the variables of the start (RFC 8562 section 5.4, RFC 5880 section 6.8.1), and the first due tick drawn.
    /// It starts Up: there is no first phase in Down. The configuration is within its ranges.
    pub fn make(config: HeadConfig) -> Head
        requires { IsHeadConfig config }
        ensures config { result.config ≡ config }
        ensures vars { result.vars ≡ machine.head_made config }
        ensures sound { IsHeadSound result.vars }
    {
        let vars = made(&config);
        Head { config, vars }
    }

    /// The configuration.
    pub fn config(&self) -> &HeadConfig
        ensures value { result.now ≡ self.now.config }
        ensures fit { IsHeadConfig self.now.config }
    {
        &self.config
    }

    /// The variables.
    pub fn vars(&self) -> &Vars
        ensures value { result.now ≡ self.now.vars }
        ensures steady { IsHeadSteady self.now.vars }
    {
        &self.vars
    }

    /// Begins an event: for an own event `own` is its effective moment in microseconds, which `at` becomes; for a tick
    /// it is None, and nothing changes. The mark goes through the other calls of the event.
    pub fn begin(&mut self, own: Option<u64>) -> Mark
        requires { ForSome own (λ eff. eff < moment_bound) }
        ensures config { self.new.config ≡ self.old.config }
        ensures vars { self.new.vars ≡ stamped_of own self.old.vars }
        ensures mark { result ≡ begins_of self.new.vars }
    {
        self.vars = stamps(own, self.vars);
        begins(&self.vars)
    }

    /// Does what has come due by `limit`, in microseconds: the periodic packet, at most once, with P while packets that
    /// report a changed interval are to be sent (RFC 5880 section 6.8.7, RFC 8562 section 5.10). Adds at most one output.
    pub fn settle(&mut self, limit: u64, eff: u64, mark: &mut Mark, outs: &mut Outs)
        requires eff { eff < moment_bound }
        requires room { 1 ≤ outs.old.spare }
        ensures config { self.new.config ≡ self.old.config }
        ensures course { course self.new.vars mark.new outs.new.items
            ≡ settling.settle self.old.config limit eff (course self.old.vars mark.old outs.old.items) }
        ensures settled { IsBegun limit eff mark.old self.old.vars → IsSettled limit eff mark.new self.new.vars }
        ensures spare { outs.old.spare ≤ outs.new.spare + 1 }
        ensures room { outs.new.room ≡ outs.old.room }
    {
        settle(&self.config, limit, eff, &mut self.vars, mark, outs);
    }

    /// Does a command, or refuses it by the first of WrongKind, OutOfRange, WrongState and PollBusy that is true of it, and
    /// then changes nothing: a head knows `Disable`, `Enable`, `Tx` and `Mult` alone, and `Tx` is PollBusy while packets
    /// that report a changed interval are to be sent (RFC 8562 sections 5.9 and 5.10). Adds at most one output.
    pub fn command(
        &mut self,
        eff: u64,
        cmd: &Cmd,
        mark: &mut Mark,
        outs: &mut Outs,
    ) -> Result<(), Refusal>
        requires eff { eff < moment_bound }
        requires room { 1 ≤ outs.old.spare }
        ensures config { self.new.config ≡ self.old.config }
        ensures course { course self.new.vars mark.new outs.new.items
            ≡ command.head_commanded self.old.config cmd.now (course self.old.vars mark.old outs.old.items) }
        ensures refusal { result_err result ≡ command.head_refusal self.old.vars cmd.now }
        ensures spare { outs.old.spare ≤ outs.new.spare + 1 }
        ensures room { outs.new.room ≡ outs.old.room }
    {
        // proof: names what the clauses speak of and the body does not use
        let _ = (eff, mark.moved);
        commands_head(&self.config, cmd, &mut self.vars, outs)
    }

    /// Ends an event: a state or diagnostic that changed in it, and that no periodic packet of it sent, is sent in one
    /// packet with P clear, and the next due tick is drawn (RFC 5880 section 6.8.7). Adds at most one output.
    pub fn finish(&mut self, eff: u64, mark: Mark, outs: &mut Outs)
        requires eff { eff < moment_bound }
        requires room { 1 ≤ outs.old.spare }
        ensures config { self.new.config ≡ self.old.config }
        ensures vars { self.new.vars ≡ (finishing.finish self.old.config eff
            (course self.old.vars mark outs.old.items)).vars }
        ensures outs { outs.new.items ≡ (finishing.finish self.old.config eff
            (course self.old.vars mark outs.old.items)).outs }
        ensures sound { IsHeadSound self.new.vars }
        ensures over { (limit : ℕ) → limit ≤ eff → IsSettled limit eff mark self.old.vars
            → IsHeadOver limit self.new.vars }
        ensures spare { outs.old.spare ≤ outs.new.spare + 1 }
        ensures room { outs.new.room ≡ outs.old.room }
    {
        finish(&self.config, eff, &mut self.vars, mark, outs);
    }
}
