//! What follows every rule of a point-to-point session (RFC 5880 sections 6.5, 6.6, 6.8.2 and 6.8.3).
ghost use Rattle.std.specs.Prelude.{◌≡◌, ◌<◌, is_some};
ghost use Rattle.bfd_num.specs.Numbers.{moment_bound};
ghost use Rattle.bfd_rules.specs.declared.config.Config.{Config};
ghost use Rattle.bfd_rules.specs.Quantities.{adv_tx as adv_of, demand_here as demand_of};
ghost use Rattle.bfd_rules.specs.Renewal.{poll_again as again_of};
ghost use Rattle.bfd_rules.specs.Renewal as renewal;
ghost use Rattle.bfd_rules.specs.Sound.{IsPlain, IsRenewed, HasPeerMult};

use crate::quantities::is_idle;
use crate::{Poll, Vars, adv_tx, demand_here};
use bfd_packet::State;

/// A change of the advertised Desired Min TX or of Required Min RX needs a Poll Sequence.
#[tactic(auto, unfolding(crate::specs::Renewal::poll_renewed))]
fn poll_renewed(before: &Vars, v: &mut Vars)
    ensures value { v.new ≡ renewal.poll_renewed before.now v.old }
    ensures state { v.new.state ≡ v.old.state }
    ensures heard { is_some v.new.heard ≡ is_some v.old.heard }
    ensures plain { (c : Config) → IsPlain c v.old → IsPlain c v.new }
    ensures peer { HasPeerMult v.old → HasPeerMult v.new }
    ensures idle { adv_of v.old ≡ adv_of before.now → v.old.rx ≡ before.now.rx → v.new ≡ v.old }
{
    if adv_tx(v) != adv_tx(before) || v.rx != before.rx {
        v.poll = Poll::Wanted;
    }
}

/// The intervals in use.
#[tactic(auto, unfolding(crate::specs::Renewal::used_renewed))]
fn used_renewed(v: &mut Vars)
    ensures value { v.new ≡ renewal.used_renewed v.old }
    ensures state { v.new.state ≡ v.old.state }
    ensures heard { is_some v.new.heard ≡ is_some v.old.heard }
    ensures plain { (c : Config) → IsPlain c v.old → IsPlain c v.new }
    ensures peer { HasPeerMult v.old → HasPeerMult v.new }
    ensures renewed { IsRenewed v.new }
    ensures idle { IsRenewed v.old → v.new ≡ v.old }
{
    let idle = is_idle(v.poll);
    let adv = adv_tx(v);
    let settled = !matches!(v.state, State::Up) || idle;
    v.used_tx = if settled { adv } else { v.used_tx.min(adv) };
    v.used_rx = if idle { v.rx } else { v.used_rx.max(v.rx) };
}

/// A running Poll Sequence restarts.
fn poll_again(poll: Poll) -> Poll
    ensures { result ≡ again_of poll }
{
    match poll {
        Poll::Running(_) => Poll::Wanted,
        Poll::Idle | Poll::Wanted => poll,
    }
}

/// Where Demand mode ends here, the Detection Time runs from now on; where it begins here, a poll restarts.
#[tactic(auto, unfolding(crate::specs::Renewal::demand_renewed))]
fn demand_renewed(eff: u64, before: &Vars, v: &mut Vars)
    requires { eff < moment_bound }
    ensures value { v.new ≡ renewal.demand_renewed eff before.now v.old }
    ensures state { v.new.state ≡ v.old.state }
    ensures heard { is_some v.new.heard ≡ is_some v.old.heard }
    ensures plain { (c : Config) → IsPlain c v.old → IsPlain c v.new }
    ensures peer { HasPeerMult v.old → HasPeerMult v.new }
    ensures renewed { IsRenewed v.old → IsRenewed v.new }
    ensures idle { demand_of v.old ≡ demand_of before.now → v.new ≡ v.old }
{
    match (demand_here(before), demand_here(v)) {
        (true, false) => v.heard = v.heard.map(|_| eff),
        (false, true) => v.poll = poll_again(v.poll),
        _ => {}
    }
}

/// Renews the variables `v` that a rule made from the variables `before`, at the effective moment `eff`, in
/// microseconds: a changed interval needs a Poll Sequence (sections 6.5 and 6.8.3), the intervals in use follow, and
/// where Demand mode begins or ends here the poll or the Detection Time restarts (section 6.6).
#[tactic(auto, unfolding(crate::specs::Renewal::renewed))]
pub fn renew(eff: u64, before: &Vars, v: &mut Vars)
    requires { eff < moment_bound }
    ensures value { v.new ≡ renewal.renewed eff before.now v.old }
    ensures state { v.new.state ≡ v.old.state }
    ensures heard { is_some v.new.heard ≡ is_some v.old.heard }
    ensures plain { (c : Config) → IsPlain c v.old → IsPlain c v.new }
    ensures renewed { IsRenewed v.new }
    ensures peer { HasPeerMult v.old → HasPeerMult v.new }
    ensures idle { IsRenewed v.old → adv_of v.old ≡ adv_of before.now → v.old.rx ≡ before.now.rx
        → demand_of v.old ≡ demand_of before.now → v.new ≡ v.old }
{
    poll_renewed(before, v);
    used_renewed(v);
    demand_renewed(eff, before, v);
}
