//! How long an initiator waits for an answer (RFC 7880 sections 6.2 and 7.3.3, RFC 5880 section 6.8.4).
ghost use Rattle.std.specs.Prelude.{◌≡◌, ◌<◌, ◌^◌};
ghost use Rattle.std.specs.Option.{ForSome};
ghost use Rattle.bfd_num.specs.Numbers.{moment_bound};
ghost use Rattle.bfd_sbfd.specs.Waiting as waiting;

use bfd_packet::State;
use bfd_rules::{Vars, tx_interval};

/// The Detection Time of an initiator, in microseconds: its own Detect Mult times its own transmit interval (RFC 5880
/// section 6.8.4, for Demand mode).
pub fn wait(v: &Vars) -> u64
    ensures value { result ≡ waiting.wait v.now }
    ensures fits { result < 2 ^ 40 }
{
    u64::from(v.mult) * u64::from(tx_interval(v))
}

/// The moment at which the Detection Time of an initiator expires, in microseconds: in Up `wait` after the last answer;
/// None in every other state, where none runs.
pub fn deadline(v: &Vars) -> Option<u64>
    requires { ForSome v.now.heard (λ m. m < moment_bound) }
    ensures { result ≡ waiting.deadline v.now }
{
    if matches!(v.state, State::Up) {
        let wait = wait(v);
        v.heard.map(|heard| heard + wait)
    } else {
        None
    }
}
