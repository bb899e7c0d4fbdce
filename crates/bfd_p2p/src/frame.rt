//! How one rule changes a session: what it makes of the variables is renewed, and a new state is emitted.
ghost use Rattle.std.specs.Prelude.{◌≡◌, ◌<◌, ◌≤◌, ◌+◌, is_some};
ghost use Rattle.bfd_num.specs.Numbers.{moment_bound};
ghost use Rattle.bfd_rules.specs.declared.config.Config.{Config as ConfigOf};
ghost use Rattle.bfd_rules.specs.declared.variables.Mark.{Mark};
ghost use Rattle.bfd_rules.specs.declared.outputs.Out.{Out};
ghost use Rattle.std.specs.Prelude.{List};
ghost use Rattle.bfd_rules.specs.Quantities.{adv_tx, demand_here};
ghost use Rattle.bfd_rules.specs.EventFrame.{course};
ghost use Rattle.bfd_rules.specs.Renewal.{renewed as renewed_of};
ghost use Rattle.bfd_rules.specs.Sound.{IsPlain, IsRenewed, HasPeerMult};
ghost use Rattle.bfd_p2p.specs.Frame as frame;

use bfd_rules::{Config, Outs, Vars, changes, renew};

/// A rule that leaves the state makes `after` of the variables.
#[tactic(auto, unfolding(crate::specs::Frame::renews))]
pub fn renews(config: &Config, eff: u64, after: Vars, vars: &mut Vars)
    requires eff { eff < moment_bound }
    requires plain { IsPlain config.now after }
    ensures plain { IsPlain config.now vars.new }
    ensures renewed { IsRenewed vars.new }
    ensures peer { HasPeerMult after → HasPeerMult vars.new }
    ensures state { vars.new.state ≡ after.state }
    ensures heard { is_some vars.new.heard ≡ is_some after.heard }
    ensures idle { IsRenewed after → adv_tx after ≡ adv_tx vars.old → after.rx ≡ vars.old.rx
        → demand_here after ≡ demand_here vars.old → vars.new ≡ after }
    ensures course { (m : Mark) (os : List Out) → course vars.new m os ≡ frame.renews eff after (course vars.old m os) }
{
    // proof: the read brings the invariant
    let _ = config.discr;
    let mut after = after;
    renew(eff, vars, &mut after);
    *vars = after;
}

/// A rule that may change the state makes `after` of the variables.
#[tactic(auto, unfolding(crate::specs::Frame::moves))]
pub fn moves(config: &Config, eff: u64, after: Vars, vars: &mut Vars, outs: &mut Outs)
    requires eff { eff < moment_bound }
    requires plain { IsPlain config.now after }
    requires room { 0 < outs.old.spare }
    ensures vars { vars.new ≡ renewed_of eff vars.old after }
    ensures plain { IsPlain config.now vars.new }
    ensures renewed { IsRenewed vars.new }
    ensures peer { HasPeerMult after → HasPeerMult vars.new }
    ensures state { vars.new.state ≡ after.state }
    ensures heard { is_some vars.new.heard ≡ is_some after.heard }
    ensures idle { IsRenewed after → adv_tx after ≡ adv_tx vars.old → after.rx ≡ vars.old.rx
        → demand_here after ≡ demand_here vars.old → vars.new ≡ after }
    ensures course { (m : Mark) → course vars.new m outs.new.items
        ≡ frame.moves config.now.discr eff after (course vars.old m outs.old.items) }
    ensures spare { outs.old.spare ≤ outs.new.spare + 1 }
    ensures room { outs.new.room ≡ outs.old.room }
{
    let mut after = after;
    renew(eff, vars, &mut after);
    changes(config.discr, after, vars, outs);
}
