//! A tick by which a periodic packet is due and nothing else (RFC 5880 section 6.8.7). Most ticks at which a session has something due are
//! such, so this looks for them first: the whole event then is that the packet is sent and the next due tick drawn.
ghost use Rattle.std.specs.Prelude.{◌≡◌, ◌<◌, ◌≤◌, ◌+◌, ℕ, None, List, Some, false, not, true};
ghost use Rattle.bfd_num.specs.Numbers.{moment_bound, floor_tick as tick_of, next_j};
ghost use Rattle.bfd_num.specs.Due as due;
ghost use Rattle.bfd_rules.specs.declared.config.Config.{Config as ConfigOf};
ghost use Rattle.bfd_rules.specs.declared.variables.Mark.{Mark};
ghost use Rattle.bfd_rules.specs.EventFrame.{course};
ghost use Rattle.bfd_rules.specs.Jitter.{pick as pick_of};
ghost use Rattle.bfd_rules.specs.Quantities.{deadline as deadline_of, seq_deadline as seq_deadline_of, is_idle, tx_interval as interval_of};
ghost use Rattle.bfd_rules.specs.Sound.{IsSteady, IsSound};
ghost use Rattle.bfd_p2p.specs.Transmit as transmit;
ghost use Rattle.bfd_p2p.specs.Beat.{IsBeat, redrawn_at, sent_at};

use crate::settling::after_packet;
use crate::transmitting::transmits_plain;
use bfd_num::{floor_tick, has_come, next_j};
use bfd_rules::{Config, Outs, Poll, Vars, deadline, pick, seq_deadline, tx_interval};

/// A periodic packet is due by the limit, and nothing else is.
fn is_due(config: &Config, limit: u64, v: &Vars) -> bool
    requires steady { IsSteady config.now v.now }
    ensures due { result ≡ true → due.has_come (tick_of limit) v.now.tx_due ≡ true }
    ensures late { result ≡ true → due.has_come limit (deadline_of v.now) ≡ false }
    ensures seq_late { result ≡ true → due.has_come limit (seq_deadline_of v.now) ≡ false }
{
    has_come(floor_tick(limit), v.tx_due)
        && !has_come(limit, deadline(v))
        && !has_come(limit, seq_deadline(v))
}

/// The session has no authentication, and needs no Echo function.
fn is_plain(config: &Config, v: &Vars) -> bool
    ensures plain { result ≡ true → config.now.keys ≡ None }
    ensures echoless { result ≡ true → v.now.echo_every ≡ 0 }
{
    config.keys.is_none() && v.echo_every == 0
}

/// The packet is sent at this moment, with P while a Poll Sequence is on.
fn sends_periodic(config: &Config, eff: u64, vars: &mut Vars, outs: &mut Outs)
    requires steady { IsSteady config.now vars.old }
    requires eff { eff < moment_bound }
    requires plain { config.now.keys ≡ None }
    requires room { 0 < outs.old.spare }
    ensures steady { IsSteady config.now vars.new }
    ensures value { vars.new ≡ sent_at eff vars.old }
    ensures sent { (m : Mark) → course vars.old m outs.new.items
        ≡ transmit.transmits config.now (not (is_idle vars.old.poll)) false (course vars.old m outs.old.items) }
    ensures late { (limit : ℕ) → limit ≤ eff → due.has_come limit (deadline_of vars.old) ≡ false
        → due.has_come limit (deadline_of vars.new) ≡ false }
    ensures spare { outs.old.spare ≤ outs.new.spare + 1 }
    ensures room { outs.new.room ≡ outs.old.room }
{
    let poll = !matches!(vars.poll, Poll::Idle);
    transmits_plain(config, poll, false, vars, outs);
    after_packet(eff, vars.seq, vars);
}

/// The next due tick is drawn.
fn redraws(v: &mut Vars)
    requires base { v.old.base < moment_bound }
    requires interval { 10000 ≤ v.old.used_tx }
    requires mult { 0 < v.old.mult }
    ensures value { v.new ≡ record v.old {
      tx_due = Some (pick_of v.old.base (interval_of v.old) v.old.mult v.old.j);
      j = next_j v.old.j;
    } }
    ensures steady { (c : ConfigOf) → IsSteady c v.old → IsSteady c v.new }
    ensures later { (m : ℕ) → m ≤ v.old.base → due.has_come (tick_of m) v.new.tx_due ≡ false }
{
    v.tx_due = Some(pick(v.base, tx_interval(v), v.mult, v.j));
    v.j = next_j(v.j);
}

/// Whether a periodic packet is all that is due by the limit; then it is sent at the effective moment `eff`, and else nothing is done. Both
/// are in microseconds.
pub fn beats(config: &Config, limit: u64, eff: u64, vars: &mut Vars, outs: &mut Outs) -> bool
    requires sound { IsSound config.now vars.old }
    requires eff { eff < moment_bound }
    requires room { 0 < outs.old.spare }
    ensures steady { IsSteady config.now vars.new }
    ensures beat { result ≡ true → IsBeat config.now limit eff vars.old outs.old.items outs.new.items }
    ensures moment { result ≡ true → vars.new ≡ redrawn_at eff vars.old }
    ensures rests { result ≡ false → vars.new ≡ vars.old }
    ensures rests_outs { result ≡ false → outs.new ≡ outs.old }
    ensures spare { outs.old.spare ≤ outs.new.spare + 1 }
    ensures room { outs.new.room ≡ outs.old.room }
{
    if !is_due(config, limit, vars) || !is_plain(config, vars) {
        return false;
    }
    sends_periodic(config, eff, vars, outs);
    redraws(vars);
    true
}
