//! The quantities that a session's variables give (RFC 5880 sections 6.6 and 6.8.1 to 6.8.7).
ghost use Rattle.std.specs.Prelude.{◌≡◌, ◌<◌, ◌^◌};
ghost use Rattle.std.specs.Option.{ForSome};
ghost use Rattle.bfd_num.specs.Numbers.{moment_bound};
ghost use Rattle.bfd_rules.specs.Quantities as quantities;
ghost use Rattle.bfd_rules.specs.Quantities.{poll_started};

use crate::{Poll, Vars};
use bfd_packet::State;

/// The least Desired Min TX Interval that is advertised outside Up, in microseconds (section 6.8.3).
pub const SLOW_TX: u32 = 1_000_000;

/// The state is AdminDown (section 6.8.16).
pub fn is_admin_down(state: State) -> bool
    ensures { result ≡ quantities.is_admin_down state }
{
    matches!(state, State::AdminDown)
}

/// This session and its peer are Up, as far as this session knows.
fn both_up(v: &Vars) -> bool
    ensures { result ≡ quantities.both_up v.now }
{
    matches!(v.state, State::Up) && matches!(v.remote_state, State::Up)
}

/// The Desired Min TX Interval that is advertised, in microseconds: at least 1,000,000 unless the session is
/// Up (section 6.8.3).
pub fn adv_tx(v: &Vars) -> u32
    ensures { result ≡ quantities.adv_tx v.now }
{
    if matches!(v.state, State::Up) {
        v.tx
    } else {
        v.tx.max(SLOW_TX)
    }
}

/// The interval of periodic packets before jitter, in microseconds (section 6.8.7).
pub fn tx_interval(v: &Vars) -> u32
    ensures { result ≡ quantities.tx_interval v.now }
{
    v.used_tx.max(v.remote_min_rx)
}

/// Demand mode is active on the local system (section 6.6).
pub fn demand_here(v: &Vars) -> bool
    ensures { result ≡ quantities.demand_here v.now }
{
    v.demand && both_up(v)
}

/// Demand mode is active on the remote system (section 6.6).
pub fn demand_there(v: &Vars) -> bool
    ensures { result ≡ quantities.demand_there v.now }
{
    v.remote_demand && both_up(v)
}

/// No Poll Sequence is on (section 6.5).
pub(crate) fn is_idle(poll: Poll) -> bool
    ensures { result ≡ quantities.is_idle poll }
{
    matches!(poll, Poll::Idle)
}

/// Periodic packets may be sent: the peer's Required Min RX Interval isn't 0, this side is active or knows the
/// peer's discriminator, and Demand mode isn't active on the remote system unless a Poll Sequence is on
/// (sections 6.1, 6.6 and 6.8.7). An initiator and a head give `active` as true.
pub fn may_send(active: bool, v: &Vars) -> bool
    ensures { result ≡ quantities.may_send active v.now }
{
    v.remote_min_rx != 0
        && (active || v.remote_discr != 0)
        && (!demand_there(v) || !is_idle(v.poll))
}

/// The Detection Time in Asynchronous mode, in microseconds (section 6.8.4).
pub fn detection_time(v: &Vars) -> u64
    ensures value { result ≡ quantities.detection_time v.now }
    ensures fits { result < 2 ^ 40 }
{
    u64::from(v.remote_mult) * u64::from(v.used_rx.max(v.remote_tx))
}

/// When the first packet of a running Poll Sequence was sent, in microseconds.
fn poll_started(poll: Poll) -> Option<u64>
    ensures { result ≡ poll_started poll }
{
    match poll {
        Poll::Running(first) => Some(first),
        Poll::Idle | Poll::Wanted => None,
    }
}

/// The moment at which the Detection Time expires, in microseconds; None where none runs (section 6.8.4). With
/// Demand mode active here it is the own Detect Mult times the own interval after the first packet of a running
/// poll, else the Detection Time after the last packet heard.
pub fn deadline(v: &Vars) -> Option<u64>
    requires heard { ForSome v.now.heard (λ m. m < moment_bound) }
    requires poll { ForSome (poll_started v.now.poll) (λ m. m < moment_bound) }
    ensures { result ≡ quantities.deadline v.now }
{
    if demand_here(v) {
        let wait = u64::from(v.mult) * u64::from(tx_interval(v));
        poll_started(v.poll).map(|first| first + wait)
    } else {
        let wait = detection_time(v);
        v.heard.map(|heard| heard + wait)
    }
}

/// The moment at which the received sequence number is forgotten, in microseconds: two Detection Times after the
/// last one was heard; None where none is kept (section 6.8.1, bfd.AuthSeqKnown).
pub fn seq_deadline(v: &Vars) -> Option<u64>
    requires { ForSome v.now.seq_heard (λ m. m < moment_bound) }
    ensures { result ≡ quantities.seq_deadline v.now }
{
    let wait = 2 * detection_time(v);
    v.seq_heard.map(|heard| heard + wait)
}
