//! How one rule that may change the state or an interval changes an initiator.
ghost use Rattle.std.specs.Prelude.{◌≡◌, ◌<◌, ◌≤◌, ◌+◌};
ghost use Rattle.bfd_rules.specs.declared.variables.Mark.{Mark};
ghost use Rattle.bfd_rules.specs.EventFrame.{course};
ghost use Rattle.bfd_sbfd.specs.Frame as frame;
ghost use Rattle.bfd_sbfd.specs.Sound.{IsInitiatorPlain, IsInitiatorSteady};

use crate::InitiatorConfig;
use bfd_rules::{Outs, Vars, adv_tx, changes};

/// The advertised interval is the one in use: an initiator has no Poll Sequences.
fn in_use(config: &InitiatorConfig, v: Vars) -> Vars
    requires plain { IsInitiatorPlain config.now v }
    ensures value { result ≡ frame.in_use v }
    ensures steady { IsInitiatorSteady config.now result }
{
    // proof: the read brings the invariant
    let _ = config.discr;
    Vars {
        used_tx: adv_tx(&v),
        ..v
    }
}

/// The rule makes `after` of the variables, and a new state is emitted.
#[tactic(auto, unfolding(crate::specs::Frame::moves))]
pub fn moves(config: &InitiatorConfig, after: Vars, vars: &mut Vars, outs: &mut Outs)
    requires plain { IsInitiatorPlain config.now after }
    requires room { 0 < outs.old.spare }
    ensures steady { IsInitiatorSteady config.now vars.new }
    ensures value { vars.new ≡ frame.in_use after }
    ensures course { (m : Mark) → course vars.new m outs.new.items
        ≡ frame.moves config.now.discr after (course vars.old m outs.old.items) }
    ensures spare { outs.old.spare ≤ outs.new.spare + 1 }
    ensures room { outs.new.room ≡ outs.old.room }
{
    let after = in_use(config, after);
    changes(config.discr, after, vars, outs);
}
