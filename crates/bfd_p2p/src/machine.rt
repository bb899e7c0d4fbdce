//! A point-to-point session as its calls see it.
ghost use Rattle.std.specs.Prelude.{◌≡◌, ◌<◌, ◌≤◌, ◌+◌, ◌*◌, None, true, false, ℕ};
ghost use Rattle.std.specs.Result.{result_err};
ghost use Rattle.std.specs.Option.{ForSome};
ghost use Rattle.bfd_num.specs.Numbers.{moment_bound};
ghost use Rattle.bfd_packet.specs.declared.control.State.TheVariants.{Up};
ghost use Rattle.bfd_packet.specs.HeaderTests.{first_failing};
ghost use Rattle.bfd_rules.specs.declared.config.Config.{Config as ConfigOf};
ghost use Rattle.bfd_rules.specs.declared.variables.Mark.{Mark as MarkOf};
ghost use Rattle.bfd_packet.specs.Layout.{fields_of};
ghost use Rattle.bfd_rules.specs.EventFrame.{course, begins as begins_of, stamped as stamped_of};
ghost use Rattle.bfd_rules.specs.Sound.{IsConfig, IsPlace, IsSteady, IsSound};
ghost use Rattle.bfd_p2p.specs.Settle as settling;
ghost use Rattle.bfd_p2p.specs.Receive as receive;
ghost use Rattle.bfd_p2p.specs.Receive.{IsSized};
ghost use Rattle.bfd_p2p.specs.Command as command;
ghost use Rattle.bfd_p2p.specs.Finish as finishing;
ghost use Rattle.bfd_p2p.specs.Frame.{moves as moves_of};
ghost use Rattle.bfd_p2p.specs.Again.{IsAgain, heard_again};
ghost use Rattle.bfd_p2p.specs.Beat.{IsBeat, redrawn_at};
ghost use Rattle.bfd_p2p.specs.Over.{IsBegun, IsSettled, IsOver};
ghost use Rattle.bfd_p2p.specs.Port.{port_of};
ghost use Rattle.bfd_p2p.specs.Machine as machine;

use crate::again::hears;
use crate::beating::beats;
use crate::commanding::commands;
use crate::finishing::finish;
use crate::frame::moves;
use crate::receiving::{accepts, fields_of_passed, judged};
use crate::settling::settle;
use bfd_packet::{Keys, SeqState, State};
use bfd_rules::{
    Cmd, Config, Mark, Outs, Poll, Refusal, SLOW_TX, Vars, Verdict, begins, draw, enters,
};
use std::marker::Model;

/// A point-to-point session: its configuration, and its variables, which are steady also between the parts of an event.
///
/// A call that writes its variables in several steps hands them to a function of the modules below, since between the steps
/// they needn't be steady.
#[derive(Drop)]
pub struct P2p {
    config: Config,
    vars: Vars,
}

impl Model for P2p {
    ghost use Rattle.bfd_p2p.specs.Machine.{Machine, IsMachine};

    ghost Value = { Machine };

    ghost view = { λ p. record { config = p.config; vars = p.vars } };

    ghost invariant = { λ p. IsMachine (record { config = p.config; vars = p.vars }) };
}

/// The place of the first key: 0, which there is, since no list of keys is empty.
fn first_place(keys: &Option<Keys>) -> u8
    ensures value { result ≡ 0 }
    ensures place { IsPlace keys.now result }
{
    if let Some(keys) = keys {
        let _some = &keys.list;
    }
    0
}

/// The variables at the start, before the first due tick is drawn (RFC 5880 section 6.8.1).
fn initial(c: &Config) -> Vars
    requires { IsConfig c.now }
    ensures value { result ≡ machine.initial c.now }
    ensures steady { IsSteady c.now result }
{
    Vars {
        state: State::Down,
        remote_state: State::Down,
        diag: 0,
        remote_discr: 0,
        remote_min_rx: 1,
        remote_demand: false,
        remote_min_echo: 0,
        remote_tx: 0,
        remote_mult: 0,
        tx: c.tx,
        rx: c.rx,
        echo_every: c.echo,
        mult: c.mult,
        demand: false,
        poll: Poll::Idle,
        used_tx: c.tx.max(SLOW_TX),
        used_rx: c.rx,
        heard: None,
        seq_heard: None,
        seq: SeqState {
            xmit: c.seed,
            rcv: 0,
            known: false,
        },
        sending: first_place(&c.keys),
        left: 0,
        base: 0,
        tx_due: None,
        j: c.seed,
        at: 0,
    }
}

/// The variables at the start.
#[tactic(auto, unfolding(crate::specs::Machine::made))]
fn made(c: &Config) -> Vars
    requires { IsConfig c.now }
    ensures value { result ≡ machine.made c.now }
    ensures sound { IsSound c.now result }
{
    let mut v = initial(c);
    let mark = begins(&v);
    draw(c.active, &mark, &mut v);
    v
}

/// The variables become those with which an own event at this effective moment begins.
fn stamps(own: Option<u64>, v: &mut Vars)
    requires { ForSome own (λ eff. eff < moment_bound) }
    ensures value { v.new ≡ stamped_of own v.old }
    ensures steady { (c : ConfigOf) → IsSteady c v.old → IsSteady c v.new }
{
    if let Some(eff) = own {
        v.at = eff;
    }
}

impl P2p {
    /// A session with the variables of the start (RFC 5880 section 6.8.1), and the first due tick drawn where it may
    /// send immediately. The configuration is within its ranges.
    pub fn make(config: Config) -> P2p
        requires { IsConfig config }
        ensures config { result.config ≡ config }
        ensures vars { result.vars ≡ machine.made config }
        ensures sound { IsSound result.config result.vars }
    {
        let vars = made(&config);
        P2p { config, vars }
    }

    /// The configuration.
    pub fn config(&self) -> &Config
        ensures value { result.now ≡ self.now.config }
        ensures fit { IsConfig self.now.config }
    {
        &self.config
    }

    /// The variables.
    pub fn vars(&self) -> &Vars
        ensures value { result.now ≡ self.now.vars }
        ensures steady { IsSteady self.now.config self.now.vars }
    {
        &self.vars
    }

    /// Begins an event: for an own event `own` is its effective moment in microseconds, which `at` becomes; for a tick
    /// it is None, and nothing changes. The mark goes through the other calls of the event.
    pub fn begin(&mut self, own: Option<u64>) -> Mark
        requires { ForSome own (λ eff. eff < moment_bound) }
        ensures config { self.new.config ≡ self.old.config }
        ensures vars { self.new.vars ≡ stamped_of own self.old.vars }
        ensures mark { result ≡ begins_of self.new.vars }
    {
        stamps(own, &mut self.vars);
        begins(&self.vars)
    }

    /// Does what has come due by `limit`, in microseconds: detection, forgetting of the received sequence number, and
    /// the periodic packet, each at most once (RFC 5880 sections 6.8.1, 6.8.4 and 6.8.7). Adds at most two outputs.
    pub fn settle(&mut self, limit: u64, eff: u64, mark: &mut Mark, outs: &mut Outs)
        requires eff { eff < moment_bound }
        requires room { 2 ≤ outs.old.spare }
        ensures config { self.new.config ≡ self.old.config }
        ensures course { course self.new.vars mark.new outs.new.items
            ≡ settling.settle self.old.config limit eff (course self.old.vars mark.old outs.old.items) }
        ensures settled { IsBegun self.old.config limit eff mark.old self.old.vars
            → IsSettled self.old.config.active limit eff mark.new self.new.vars }
        ensures spare { outs.old.spare ≤ outs.new.spare + 2 }
        ensures room { outs.new.room ≡ outs.old.room }
    {
        settle(&self.config, limit, eff, &mut self.vars, mark, outs);
    }

    /// Does a whole event by a packet with nothing new for a session in Up, as `begin`, `settle`, `accept` and `finish` do it: then
    /// the answer is true, and it was accepted. Else nothing is done. The packet is one that may be handed to `accept`.
    pub fn hears_again(&mut self, eff: u64, ttl: u8, raw: &[u8]) -> bool
        requires eff { eff < moment_bound }
        requires header { first_failing (port_of self.old.config.role) raw.now ≡ None }
        ensures config { self.new.config ≡ self.old.config }
        ensures again { result ≡ true → IsAgain self.old.config eff ttl raw.now self.old.vars }
        ensures moment { result ≡ true → self.new.vars ≡ heard_again eff self.old.vars }
        ensures sized { IsSized (fields_of raw.now) }
        ensures rests { result ≡ false → self.new ≡ self.old }
    {
        let packet = fields_of_passed(raw);
        hears(&self.config, eff, ttl, &packet, raw, &mut self.vars)
    }

    /// Does a whole tick by which a periodic packet is due and nothing else, as `begin`, `settle` and `finish` do it: then the answer is
    /// true. Else nothing is done. The limit and the effective moment are in microseconds. Adds at most one output.
    pub fn beats(&mut self, limit: u64, eff: u64, outs: &mut Outs) -> bool
        requires sound { IsSound self.old.config self.old.vars }
        requires eff { eff < moment_bound }
        requires room { 1 ≤ outs.old.spare }
        ensures config { self.new.config ≡ self.old.config }
        ensures beat { result ≡ true → IsBeat self.old.config limit eff self.old.vars outs.old.items outs.new.items }
        ensures moment { result ≡ true → self.new.vars ≡ redrawn_at eff self.old.vars }
        ensures rests { result ≡ false → self.new ≡ self.old }
        ensures rests_outs { result ≡ false → outs.new ≡ outs.old }
        ensures spare { outs.old.spare ≤ outs.new.spare + 1 }
        ensures room { outs.new.room ≡ outs.old.room }
    {
        beats(&self.config, limit, eff, &mut self.vars, outs)
    }

    /// Receives a packet that came with this TTL (RFC 5880 section 6.8.6). `raw` passes the header tests of the
    /// session's port and has M clear. The verdict is the first of the tests Ttl to AdminDown that it fails; one of
    /// the tests Ttl to AuthDigest leaves all as it was, AdminDown comes after the packet's fields were kept. Adds at
    /// most two outputs, and one where no packet with F answers it.
    #[tactic(auto, unfolding(crate::specs::Receive::received, crate::specs::Receive::received_on))]
    pub fn accept(
        &mut self,
        eff: u64,
        ttl: u8,
        raw: &[u8],
        mark: &mut Mark,
        outs: &mut Outs,
    ) -> Verdict
        requires eff { eff < moment_bound }
        requires header { first_failing (port_of self.old.config.role) raw.now ≡ None }
        requires plain { (fields_of raw.now).multi ≡ false }
        requires room { 2 ≤ outs.old.spare }
        ensures config { self.new.config ≡ self.old.config }
        ensures course { course self.new.vars mark.new outs.new.items
            ≡ receive.received self.old.config eff ttl raw.now (course self.old.vars mark.old outs.old.items) }
        ensures verdict { result ≡ receive.verdict_on self.old.config ttl raw.now self.old.vars }
        ensures sized { IsSized (fields_of raw.now) }
        ensures unanswered { mark.new.answered ≡ false → outs.old.spare ≤ outs.new.spare + 1 }
        ensures spare { outs.old.spare ≤ outs.new.spare + 2 }
        ensures room { outs.new.room ≡ outs.old.room }
    {
        let packet = fields_of_passed(raw);
        match judged(&self.config, &self.vars, ttl, &packet, raw) {
            Ok(seq) => accepts(&self.config, eff, &packet, seq, &mut self.vars, mark, outs),
            Err(test) => Verdict::Dropped(test),
        }
    }

    /// Does a command, or refuses it by the first of WrongKind, OutOfRange, WrongState and PollBusy that is true of
    /// it, and then changes nothing (RFC 5880 sections 6.8.10 to 6.8.17). Adds at most one output.
    pub fn command(
        &mut self,
        eff: u64,
        cmd: &Cmd,
        mark: &mut Mark,
        outs: &mut Outs,
    ) -> Result<(), Refusal>
        requires eff { eff < moment_bound }
        requires room { 1 ≤ outs.old.spare }
        ensures config { self.new.config ≡ self.old.config }
        ensures course { course self.new.vars mark.new outs.new.items
            ≡ command.commanded self.old.config eff cmd.now (course self.old.vars mark.old outs.old.items) }
        ensures refusal { result_err result ≡ command.refusal self.old.config self.old.vars cmd.now }
        ensures spare { outs.old.spare ≤ outs.new.spare + 1 }
        ensures room { outs.new.room ≡ outs.old.room }
    {
        // proof: names what the clauses speak of and the body does not use
        let _ = mark.moved;
        commands(&self.config, eff, cmd, &mut self.vars, outs)
    }

    /// Enters Down with this diagnostic, below 32, from Up: for a failure that another function of BFD finds, as Echo
    /// does (RFC 5880 section 6.8.5). What settling had done stays done: nothing comes due by it. Adds at most one output.
    pub fn fail(&mut self, eff: u64, diag: u8, mark: &mut Mark, outs: &mut Outs)
        requires eff { eff < moment_bound }
        requires up { self.old.vars.state ≡ Up }
        requires diag { diag < 32 }
        requires room { 1 ≤ outs.old.spare }
        ensures config { self.new.config ≡ self.old.config }
        ensures course { course self.new.vars mark.new outs.new.items
            ≡ moves_of self.old.config.discr eff (machine.failed diag self.old.vars)
            (course self.old.vars mark.old outs.old.items) }
        ensures settled { (limit : ℕ) → limit ≤ eff → IsSettled self.old.config.active limit eff mark.old self.old.vars
            → IsSettled self.old.config.active limit eff mark.new self.new.vars }
        ensures spare { outs.old.spare ≤ outs.new.spare + 1 }
        ensures room { outs.new.room ≡ outs.old.room }
    {
        // proof: names what the clauses speak of and the body does not use
        let _ = mark.moved;
        fails(&self.config, eff, diag, &mut self.vars, outs);
    }

    /// Ends an event: a state or diagnostic that changed in it, and that no periodic packet of it sent, is sent in one
    /// packet where one may be sent, and the next due tick is drawn (RFC 5880 section 6.8.7). Adds at most one output,
    /// and none where a packet with F was sent in the event.
    pub fn finish(&mut self, eff: u64, mark: Mark, outs: &mut Outs)
        requires eff { eff < moment_bound }
        requires room { mark.answered ≡ false → 1 ≤ outs.old.spare }
        ensures config { self.new.config ≡ self.old.config }
        ensures vars { self.new.vars ≡ (finishing.finish self.old.config eff
            (course self.old.vars mark outs.old.items)).vars }
        ensures outs { outs.new.items ≡ (finishing.finish self.old.config eff
            (course self.old.vars mark outs.old.items)).outs }
        ensures sound { IsSound self.new.config self.new.vars }
        ensures over { (limit : ℕ) → limit ≤ eff → IsSettled self.old.config.active limit eff mark self.old.vars
            → IsOver limit self.new.vars }
        ensures answered { mark.answered ≡ true → outs.new.spare ≡ outs.old.spare }
        ensures spare { outs.old.spare ≤ outs.new.spare + 1 }
        ensures room { outs.new.room ≡ outs.old.room }
    {
        finish(&self.config, eff, &mut self.vars, mark, outs);
    }
}

/// Enters Down with this diagnostic.
#[tactic(auto, using(crate::proofs::Failing::failed_settled))]
fn fails(config: &Config, eff: u64, diag: u8, vars: &mut Vars, outs: &mut Outs)
    requires steady { IsSteady config.now vars.old }
    requires eff { eff < moment_bound }
    requires up { vars.old.state ≡ Up }
    requires diag { diag < 32 }
    requires room { 0 < outs.old.spare }
    ensures steady { IsSteady config.now vars.new }
    ensures settled { (limit : ℕ) (m : MarkOf) → limit ≤ eff → IsSettled config.now.active limit eff m vars.old
        → IsSettled config.now.active limit eff m vars.new }
    ensures course { (m : MarkOf) → course vars.new m outs.new.items
        ≡ moves_of config.now.discr eff (machine.failed diag vars.old) (course vars.old m outs.old.items) }
    ensures spare { outs.old.spare ≤ outs.new.spare + 1 }
    ensures room { outs.new.room ≡ outs.old.room }
{
    let after = enters(State::Down, diag, *vars);
    moves(config, eff, after, vars, outs);
}
