//! What has come due by an event is done first: detection, sequence, periodic.
ghost use Rattle.std.specs.Prelude.{◌≡◌, ◌<◌, ◌≤◌, ◌+◌, List, true, false, ℕ};
ghost use Rattle.bfd_num.specs.Numbers.{moment_bound, floor_tick as tick_of};
ghost use Rattle.bfd_num.specs.Due as due;
ghost use Rattle.bfd_packet.specs.declared.control.State.TheVariants.{Up};
ghost use Rattle.bfd_rules.specs.declared.config.Config.{Config as ConfigOf};
ghost use Rattle.bfd_rules.specs.declared.variables.Mark.{Mark as MarkOf};
ghost use Rattle.bfd_rules.specs.declared.outputs.Out.{Out};
ghost use Rattle.bfd_rules.specs.Quantities.{deadline as deadline_of, seq_deadline as seq_deadline_of, may_send as may_send_of};
ghost use Rattle.bfd_rules.specs.EventFrame.{course, is_news};
ghost use Rattle.bfd_rules.specs.Sound.{IsPlain, IsRenewed, HasPeerMult, IsSteady};
ghost use Rattle.bfd_p2p.specs.Frame.{renews as renews_of};
ghost use Rattle.bfd_p2p.specs.Settle as settling;
ghost use Rattle.bfd_p2p.specs.Over.{IsBegun, IsStill};

use crate::frame::{moves, renews};
use crate::transmitting::transmits;
use bfd_num::{floor_tick, has_come};
use bfd_packet::{SeqState, State};
use bfd_rules::{
    Config, Mark, Outs, Poll, Vars, announces, deadline, enters, may_send, seq_deadline,
};

/// The peer is forgotten, and a session in Init or Up goes Down with diagnostic 1.
fn goes_silent(v: &Vars) -> Vars
    ensures value { result ≡ settling.goes_silent (settling.forgets_peer v.now) }
    ensures plain { (c : ConfigOf) → IsPlain c v.now → IsPlain c result }
    ensures peer { HasPeerMult v.now → HasPeerMult result }
{
    let silent = Vars {
        heard: None,
        remote_discr: 0,
        ..*v
    };
    if silent.state.is_init_or_up() {
        enters(State::Down, 1, silent)
    } else {
        silent
    }
}

/// Detection: the Detection Time has expired (section 6.8.4).
#[tactic(auto, unfolding(crate::specs::Settle::detection))]
fn detection(config: &Config, limit: u64, eff: u64, vars: &mut Vars, outs: &mut Outs)
    requires steady { IsSteady config.now vars.old }
    requires eff { eff < moment_bound }
    requires room { 0 < outs.old.spare }
    ensures steady { IsSteady config.now vars.new }
    ensures course { (m : MarkOf) → course vars.new m outs.new.items
        ≡ settling.detection config.now limit eff (course vars.old m outs.old.items) }
    ensures late { due.has_come limit (deadline_of vars.new) ≡ false }
    ensures not_up { vars.new.state ≡ Up → vars.new.state ≡ vars.old.state }
    ensures calm { vars.new.state ≡ vars.old.state
        → vars.new ≡ record vars.old { heard = vars.new.heard; remote_discr = vars.new.remote_discr } }
    ensures sends { vars.new.state ≡ vars.old.state → may_send_of config.now.active vars.new ≡ true
        → may_send_of config.now.active vars.old ≡ true }
    ensures spare { outs.old.spare ≤ outs.new.spare + 1 }
    ensures room { outs.new.room ≡ outs.old.room }
{
    if has_come(limit, deadline(vars)) {
        moves(config, eff, goes_silent(vars), vars, outs);
    }
}

/// The received sequence number is not known any more.
fn forgets_sequence(v: &Vars) -> Vars
    ensures value { result ≡ settling.forgets_sequence v.now }
    ensures plain { (c : ConfigOf) → IsPlain c v.now → IsPlain c result }
    ensures renewed { IsRenewed v.now → IsRenewed result }
    ensures peer { HasPeerMult v.now → HasPeerMult result }
{
    let seq = SeqState {
        known: false,
        ..v.seq
    };
    Vars {
        seq,
        seq_heard: None,
        ..*v
    }
}

/// Sequence: the received sequence number is forgotten (section 6.8.1, bfd.AuthSeqKnown).
#[tactic(auto, unfolding(crate::specs::Settle::sequence))]
fn sequence(config: &Config, limit: u64, eff: u64, vars: &mut Vars)
    requires steady { IsSteady config.now vars.old }
    requires eff { eff < moment_bound }
    ensures steady { IsSteady config.now vars.new }
    ensures course { (m : MarkOf) (os : List Out)
        → course vars.new m os ≡ settling.sequence limit eff (course vars.old m os) }
    ensures same { vars.new ≡ record vars.old { seq = vars.new.seq; seq_heard = vars.new.seq_heard } }
    ensures seq_late { due.has_come limit (seq_deadline_of vars.new) ≡ false }
{
    if has_come(limit, seq_deadline(vars)) {
        renews(config, eff, forgets_sequence(vars), vars);
    }
}

/// A Poll Sequence that is requested begins with this packet.
fn poll_sent(eff: u64, poll: Poll) -> Poll
    ensures { result ≡ settling.poll_sent eff poll }
{
    match poll {
        Poll::Wanted => Poll::Running(eff),
        Poll::Idle | Poll::Running(_) => poll,
    }
}

/// What a periodic packet makes of the variables. It leaves nothing to renew.
#[tactic(auto, using(crate::proofs::Later::wait_later, crate::proofs::Idle::renews_announced))]
pub fn after_packet(eff: u64, seq: SeqState, v: &mut Vars)
    requires eff { eff < moment_bound }
    requires mult { 0 < v.old.mult }
    requires interval { 10000 ≤ v.old.used_tx }
    ensures value { v.new ≡ record v.old { seq = seq; poll = settling.poll_sent eff v.old.poll; base = eff } }
    ensures plain { (c : ConfigOf) → IsPlain c v.old → IsPlain c v.new }
    ensures renewed { IsRenewed v.old → IsRenewed v.new }
    ensures peer { HasPeerMult v.old → HasPeerMult v.new }
    ensures late { (limit : ℕ) → limit ≤ eff → due.has_come limit (deadline_of v.old) ≡ false
        → due.has_come limit (deadline_of v.new) ≡ false }
    ensures seq_same { seq_deadline_of v.new ≡ seq_deadline_of v.old }
    ensures course { (m : MarkOf) (os : List Out) → IsRenewed v.old → course v.new m os
        ≡ renews_of eff (record v.old { seq = seq; poll = settling.poll_sent eff v.old.poll; base = eff })
        (course v.old m os) }
{
    v.seq = seq;
    v.poll = poll_sent(eff, v.poll);
    v.base = eff;
}

/// A periodic packet, with P while a Poll Sequence is on (sections 6.5 and 6.8.7).
#[tactic(auto, unfolding(crate::specs::Settle::periodic_packet))]
fn periodic_packet(config: &Config, eff: u64, vars: &mut Vars, mark: &mut Mark, outs: &mut Outs)
    requires steady { IsSteady config.now vars.old }
    requires eff { eff < moment_bound }
    requires room { 0 < outs.old.spare }
    ensures steady { IsSteady config.now vars.new }
    ensures course { course vars.new mark.new outs.new.items
        ≡ settling.periodic_packet config.now eff (course vars.old mark.old outs.old.items) }
    ensures moved { mark.new.moved ≡ true }
    ensures answered { mark.new.answered ≡ mark.old.answered }
    ensures base { vars.new.base ≡ eff }
    ensures state { vars.new.state ≡ vars.old.state }
    ensures announced { mark.new.state ≡ vars.new.state }
    ensures late { (limit : ℕ) → limit ≤ eff → due.has_come limit (deadline_of vars.old) ≡ false
        → due.has_come limit (deadline_of vars.new) ≡ false }
    ensures seq_same { seq_deadline_of vars.new ≡ seq_deadline_of vars.old }
    ensures spare { outs.old.spare ≤ outs.new.spare + 1 }
    ensures room { outs.new.room ≡ outs.old.room }
{
    let poll = !matches!(vars.poll, Poll::Idle);
    let seq = transmits(config, poll, false, vars, outs);
    announces(vars, mark);
    after_packet(eff, seq, vars);
}

/// Periodic: a periodic packet is due (section 6.8.7).
#[tactic(auto, unfolding(crate::specs::Settle::periodic))]
fn periodic(
    config: &Config,
    limit: u64,
    eff: u64,
    vars: &mut Vars,
    mark: &mut Mark,
    outs: &mut Outs,
)
    requires steady { IsSteady config.now vars.old }
    requires eff { eff < moment_bound }
    requires room { 0 < outs.old.spare }
    ensures steady { IsSteady config.now vars.new }
    ensures course { course vars.new mark.new outs.new.items
        ≡ settling.periodic config.now limit eff (course vars.old mark.old outs.old.items) }
    ensures answered { mark.new.answered ≡ mark.old.answered }
    ensures late { limit ≤ eff → due.has_come limit (deadline_of vars.old) ≡ false
        → due.has_come limit (deadline_of vars.new) ≡ false }
    ensures seq_same { seq_deadline_of vars.new ≡ seq_deadline_of vars.old }
    ensures based { mark.old.moved ≡ false → mark.new.moved ≡ true → vars.new.base ≡ eff }
    ensures state { vars.new.state ≡ vars.old.state }
    ensures announced { mark.new.moved ≡ true → mark.old.moved ≡ false → mark.new.state ≡ vars.new.state }
    ensures vars_rest { mark.new.moved ≡ false → vars.new ≡ vars.old }
    ensures mark_rests { mark.new.moved ≡ false → mark.new ≡ mark.old }
    ensures due_later { mark.new.moved ≡ false → may_send_of config.now.active vars.old ≡ true
        → due.has_come (tick_of limit) vars.old.tx_due ≡ false }
    ensures spare { outs.old.spare ≤ outs.new.spare + 1 }
    ensures room { outs.new.room ≡ outs.old.room }
{
    if has_come(floor_tick(limit), vars.tx_due) && may_send(config.active, vars) {
        periodic_packet(config, eff, vars, mark, outs);
    }
}

/// Does what has come due by the limit, at the effective moment `eff`, both in microseconds.
#[tactic(auto, using(bfd_rules::proofs::Still::unchanged_state), unfolding(crate::specs::Settle::settle))]
pub fn settle(
    config: &Config,
    limit: u64,
    eff: u64,
    vars: &mut Vars,
    mark: &mut Mark,
    outs: &mut Outs,
)
    requires steady { IsSteady config.now vars.old }
    requires eff { eff < moment_bound }
    requires room { 1 < outs.old.spare }
    ensures steady { IsSteady config.now vars.new }
    ensures course { course vars.new mark.new outs.new.items
        ≡ settling.settle config.now limit eff (course vars.old mark.old outs.old.items) }
    ensures late { limit ≤ eff → due.has_come limit (deadline_of vars.new) ≡ false }
    ensures seq_late { due.has_come limit (seq_deadline_of vars.new) ≡ false }
    ensures answered { mark.new.answered ≡ mark.old.answered }
    ensures based { mark.old.moved ≡ false → mark.new.moved ≡ true → vars.new.base ≡ eff }
    ensures up_before { IsBegun config.now limit eff mark.old vars.old → vars.new.state ≡ Up → mark.new.state ≡ Up }
    ensures still { IsBegun config.now limit eff mark.old vars.old → mark.new.moved ≡ false
        → is_news mark.new vars.new ≡ false
        → may_send_of config.now.active vars.new ≡ true → IsStill limit mark.new vars.new }
    ensures spare { outs.old.spare ≤ outs.new.spare + 2 }
    ensures room { outs.new.room ≡ outs.old.room }
{
    detection(config, limit, eff, vars, outs);
    sequence(config, limit, eff, vars);
    periodic(config, limit, eff, vars, mark, outs);
}
