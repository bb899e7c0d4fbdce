//! A packet with nothing new for a session in Up (RFC 5880 section 6.8.6). Most packets are such, so this looks for them first: the
//! whole event then is that the peer, in Up, was heard at this moment.
ghost use Rattle.std.specs.Prelude.{◌≡◌, ◌<◌, true, false, None, Some, IsSome, find};
ghost use Rattle.bfd_num.specs.Numbers.{moment_bound, floor_tick as tick_of};
ghost use Rattle.bfd_num.specs.Due as due;
ghost use Rattle.bfd_packet.specs.declared.control.State.TheVariants.{Up};
ghost use Rattle.bfd_packet.specs.Layout.{fields_of};
ghost use Rattle.bfd_rules.specs.declared.config.Config.{Config as ConfigOf};
ghost use Rattle.bfd_rules.specs.Quantities.{deadline as deadline_of, seq_deadline as seq_deadline_of, may_send as may_send_of};
ghost use Rattle.bfd_rules.specs.Sound.{IsSteady};
ghost use Rattle.bfd_p2p.specs.Receive.{poll_ended, session_fails, session_tests};
ghost use Rattle.bfd_p2p.specs.Again.{IsAgain, heard_again};

use crate::receiving::session_test;
use bfd_num::{floor_tick, has_come};
use bfd_packet::{Control, State};
use bfd_rules::{Config, Poll, Vars, deadline, may_send, seq_deadline};

/// The session is in Up, sends periodic packets, and has no authentication, Demand mode or Echo function.
fn is_calm(config: &Config, v: &Vars) -> bool
    ensures up { result ≡ true → v.now.state ≡ Up }
    ensures plain { result ≡ true → config.now.keys ≡ None }
    ensures demand { result ≡ true → v.now.demand ≡ false }
    ensures remote_demand { result ≡ true → v.now.remote_demand ≡ false }
    ensures echoless { result ≡ true → v.now.echo_every ≡ 0 }
    ensures there { result ≡ true → IsSome v.now.tx_due }
    ensures may { result ≡ true → may_send_of config.now.active v.now ≡ true }
{
    matches!(v.state, State::Up)
        && config.keys.is_none()
        && !v.demand
        && !v.remote_demand
        && v.echo_every == 0
        && v.tx_due.is_some()
        && may_send(config.active, v)
}

/// A Poll Sequence is running, which an F would end.
fn is_running(poll: Poll) -> bool
    ensures { result ≡ false → poll_ended poll ≡ poll }
{
    matches!(poll, Poll::Running(_))
}

/// The packet is in Up, repeats what else the session knows of its peer, and has P clear, and no F that ends a Poll Sequence.
fn is_repeated(packet: &Control, v: &Vars) -> bool
    ensures up { result ≡ true → packet.now.state ≡ Up }
    ensures poll { result ≡ true → packet.now.poll ≡ false }
    ensures fin { result ≡ true → packet.now.fin ≡ true → poll_ended v.now.poll ≡ v.now.poll }
    ensures discr { result ≡ true → packet.now.my ≡ v.now.remote_discr }
    ensures demand { result ≡ true → packet.now.demand ≡ v.now.remote_demand }
    ensures rx { result ≡ true → packet.now.min_rx ≡ v.now.remote_min_rx }
    ensures echo { result ≡ true → packet.now.min_echo ≡ v.now.remote_min_echo }
    ensures mult { result ≡ true → packet.now.mult ≡ v.now.remote_mult }
    ensures tx { result ≡ true → packet.now.min_tx ≡ v.now.remote_tx }
{
    matches!(packet.state, State::Up)
        && !packet.poll
        && !(packet.fin && is_running(v.poll))
        && packet.demand == v.remote_demand
        && packet.mult == v.remote_mult
        && packet.my == v.remote_discr
        && packet.min_tx == v.remote_tx
        && packet.min_rx == v.remote_min_rx
        && packet.min_echo == v.remote_min_echo
}

/// The packet passes the session's tests on TTL and the A bit.
fn passes(config: &Config, ttl: u8, packet: &Control) -> bool
    ensures { result ≡ true → find (session_fails config.now ttl packet.now) session_tests ≡ None }
{
    session_test(config, ttl, packet).is_none()
}

/// Nothing has come due by this moment.
fn rests(eff: u64, config: &Config, v: &Vars) -> bool
    requires steady { IsSteady config.now v.now }
    ensures late { result ≡ true → due.has_come eff (deadline_of v.now) ≡ false }
    ensures seq_late { result ≡ true → due.has_come eff (seq_deadline_of v.now) ≡ false }
    ensures due_later { result ≡ true → due.has_come (tick_of eff) v.now.tx_due ≡ false }
{
    !has_come(eff, deadline(v))
        && !has_come(eff, seq_deadline(v))
        && !has_come(floor_tick(eff), v.tx_due)
}

/// The peer was heard in Up at this moment.
fn hears_moment(eff: u64, v: &mut Vars)
    requires eff { eff < moment_bound }
    ensures value { v.new ≡ heard_again eff v.old }
    ensures steady { (c : ConfigOf) → IsSteady c v.old → v.old.state ≡ Up → IsSteady c v.new }
{
    v.remote_state = State::Up;
    v.heard = Some(eff);
    v.at = eff;
}

/// Whether the packet with these fields has nothing new for the session; then it was heard, and else nothing is done.
pub fn hears(
    config: &Config,
    eff: u64,
    ttl: u8,
    packet: &Control,
    raw: &[u8],
    vars: &mut Vars,
) -> bool
    requires steady { IsSteady config.now vars.old }
    requires eff { eff < moment_bound }
    requires fields { packet.now ≡ fields_of raw.now }
    ensures steady { IsSteady config.now vars.new }
    ensures again { result ≡ true → IsAgain config.now eff ttl raw.now vars.old }
    ensures moment { result ≡ true → vars.new ≡ heard_again eff vars.old }
    ensures rests { result ≡ false → vars.new ≡ vars.old }
{
    if !is_calm(config, vars) || !is_repeated(packet, vars) {
        return false;
    }
    if !passes(config, ttl, packet) || !rests(eff, config, vars) {
        return false;
    }
    hears_moment(eff, vars);
    true
}
