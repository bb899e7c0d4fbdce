//! The frame of an event: what a rule does to variables, mark and outputs.
ghost use Rattle.std.specs.Prelude.{◌≡◌, ◌≢◌, ◌<◌, ◌≤◌, ◌+◌, ℕ, true, false, None, IsSome, IsTrue, ◌↔◌, IfSome};
ghost use Rattle.bfd_num.specs.Due.{has_come};
ghost use Rattle.bfd_num.specs.Numbers.{moment_bound, floor_tick};
ghost use Rattle.bfd_rules.specs.declared.variables.Mark.{Mark};
ghost use Rattle.bfd_rules.specs.declared.config.Config.{Config};
ghost use Rattle.bfd_rules.specs.Sound.{IsSteady};
ghost use Rattle.bfd_rules.specs.EventFrame.{course};
ghost use Rattle.bfd_rules.specs.EventFrame as frame;
ghost use Rattle.bfd_rules.specs.Quantities.{same_state, may_send as may_send_of};

use crate::{Mark, Out, Outs, Vars, may_send, pick, tx_interval};
use bfd_num::next_j;
use bfd_packet::{Datagram, State};

/// The states are the same.
fn same_state(a: State, b: State) -> bool
    ensures { result ≡ same_state a b }
{
    a == b
}

/// The variables as an event begins: an own event keeps its effective moment `own`, in microseconds, and a tick none.
pub fn stamped(own: Option<u64>, v: Vars) -> Vars
    ensures { result ≡ frame.stamped own v }
{
    match own {
        Some(eff) => Vars { at: eff, ..v },
        None => v,
    }
}

/// What an event keeps from its start.
pub fn begins(v: &Vars) -> Mark
    ensures { result ≡ frame.begins v.now }
{
    Mark {
        state: v.state,
        diag: v.diag,
        interval: tx_interval(v),
        one: v.mult == 1,
        moved: false,
        answered: false,
    }
}

/// The session enters a state with this diagnostic.
pub fn enters(state: State, diag: u8, v: Vars) -> Vars
    ensures { result ≡ frame.enters state diag v }
{
    Vars { state, diag, ..v }
}

/// The variables become `after`; where the state differs, that is emitted with the new diagnostic.
#[tactic(auto, unfolding(crate::specs::EventFrame::changes))]
pub fn changes(discr: u32, after: Vars, vars: &mut Vars, outs: &mut Outs)
    requires { 0 < outs.old.spare }
    ensures vars { vars.new ≡ after }
    ensures course { (m : Mark) → course vars.new m outs.new.items
        ≡ frame.changes discr after (course vars.old m outs.old.items) }
    ensures spare { outs.old.spare ≤ outs.new.spare + 1 }
    ensures room { outs.new.room ≡ outs.old.room }
{
    if !same_state(vars.state, after.state) {
        outs.push(Out::Changed {
            discr,
            old: vars.state,
            new: after.state,
            diag: after.diag,
        });
    }
    *vars = after;
}

/// A datagram is sent by the session of this discriminator.
#[tactic(auto, unfolding(crate::specs::EventFrame::sends))]
pub fn sends(discr: u32, datagram: Datagram, outs: &mut Outs)
    requires { 0 < outs.old.spare }
    ensures course { (v : Vars) (m : Mark)
        → course v m outs.new.items ≡ frame.sends discr datagram (course v m outs.old.items) }
    ensures spare { outs.old.spare ≤ outs.new.spare + 1 }
    ensures room { outs.new.room ≡ outs.old.room }
{
    outs.push(Out::Sent { discr, datagram });
}

/// A periodic packet sends the present state and diagnostic to the peer.
pub fn announces(v: &Vars, mark: &mut Mark)
    ensures { mark.new ≡ frame.announces v.now mark.old }
{
    mark.moved = true;
    mark.state = v.state;
    mark.diag = v.diag;
}

/// The state or diagnostic isn't the one that the event began with, or that its periodic packet sent.
fn is_news(mark: &Mark, v: &Vars) -> bool
    ensures { result ≡ frame.is_news mark.now v.now }
{
    !(same_state(v.state, mark.state) && v.diag == mark.diag)
}

/// A state or diagnostic that wasn't sent to the peer is to be sent now: no packet with F has sent it, and a packet
/// may be sent (section 6.8.7).
pub fn is_unannounced(active: bool, mark: &Mark, v: &Vars) -> bool
    ensures { result ≡ frame.is_unannounced active mark.now v.now }
{
    is_news(mark, v) && !mark.answered && may_send(active, v)
}

/// The due tick is to be redrawn.
fn draws(mark: &Mark, v: &Vars) -> bool
    ensures { result ≡ frame.draws mark.now v.now }
{
    let one_changed = if mark.one { v.mult != 1 } else { v.mult == 1 };
    mark.moved || v.tx_due.is_none() || tx_interval(v) != mark.interval || one_changed
}

/// Leaves the due tick as an event does: none where periodic packets may not be sent, else as it stands, or
/// redrawn where a packet moved the base or what it is drawn by has changed (section 6.8.7).
#[tactic(auto, unfolding(crate::specs::EventFrame::drawn))]
pub fn draw(active: bool, mark: &Mark, v: &mut Vars)
    requires base { v.old.base < moment_bound }
    requires interval { 10000 ≤ v.old.used_tx }
    requires mult { 0 < v.old.mult }
    requires due { IfSome v.old.tx_due (λ t. t < moment_bound) }
    ensures value { v.new ≡ frame.drawn active mark.now v.old }
    ensures due { IsSome v.new.tx_due ↔ IsTrue (may_send_of active v.new) }
    ensures steady { (c : Config) → IsSteady c v.old → IsSteady c v.new }
    ensures rest { v.new ≡ record v.old { tx_due = v.new.tx_due; j = v.new.j } }
    ensures silent { may_send_of active v.old ≡ false → v.new.tx_due ≡ None }
    ensures kept { frame.draws mark.now v.old ≡ false → may_send_of active v.old ≡ true → v.new.tx_due ≡ v.old.tx_due }
    ensures later { (m : ℕ) → m ≤ v.old.base → frame.draws mark.now v.old ≡ true
        → has_come (floor_tick m) v.new.tx_due ≡ false }
{
    if !may_send(active, v) {
        v.tx_due = None;
    } else if draws(mark, v) {
        v.tx_due = Some(pick(v.base, tx_interval(v), v.mult, v.j));
        v.j = next_j(v.j);
    }
}

/// The variables with the due tick as an event leaves it.
pub fn drawn(active: bool, mark: &Mark, v: Vars) -> Vars
    requires base { v.base < moment_bound }
    requires interval { 10000 ≤ v.used_tx }
    requires mult { 0 < v.mult }
    requires due { IfSome v.tx_due (λ t. t < moment_bound) }
    ensures value { result ≡ frame.drawn active mark.now v }
    ensures due { IsSome result.tx_due ↔ IsTrue (may_send_of active result) }
    ensures steady { (c : Config) → IsSteady c v → IsSteady c result }
    ensures rest { result ≡ record v { tx_due = result.tx_due; j = result.j } }
    ensures silent { may_send_of active v ≡ false → result.tx_due ≡ None }
    ensures kept { frame.draws mark.now v ≡ false → may_send_of active v ≡ true → result.tx_due ≡ v.tx_due }
    ensures later { (m : ℕ) → m ≤ v.base → frame.draws mark.now v ≡ true
        → has_come (floor_tick m) result.tx_due ≡ false }
{
    let mut v = v;
    draw(active, mark, &mut v);
    v
}
