//! How long a tail waits for its head (RFC 8562 section 5.11).
ghost use Rattle.std.specs.Prelude.{◌≡◌, ◌<◌, ◌^◌};
ghost use Rattle.std.specs.Option.{ForSome};
ghost use Rattle.bfd_num.specs.Numbers.{moment_bound};
ghost use Rattle.bfd_mp.specs.Waiting as waiting;

use bfd_rules::Vars;

/// The Detection Time of a tail, in microseconds: the head's Detect Mult times its Desired Min TX Interval, as they were
/// received last; 0 before any packet.
pub fn wait(v: &Vars) -> u64
    ensures value { result ≡ waiting.wait v.now }
    ensures fits { result < 2 ^ 40 }
{
    u64::from(v.remote_mult) * u64::from(v.remote_tx)
}

/// The moment at which the Detection Time of a tail expires, in microseconds: `wait` after the last packet; None where none
/// was heard since it last expired.
pub fn deadline(v: &Vars) -> Option<u64>
    requires { ForSome v.now.heard (λ m. m < moment_bound) }
    ensures { result ≡ waiting.deadline v.now }
{
    let wait = wait(v);
    v.heard.map(|heard| heard + wait)
}
