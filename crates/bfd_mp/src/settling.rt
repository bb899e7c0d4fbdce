//! What has come due by an event of a head is done first: the periodic packet.
ghost use Rattle.std.specs.Prelude.{◌≡◌, ◌<◌, ◌≤◌, ◌+◌, true, false};
ghost use Rattle.bfd_num.specs.Numbers.{moment_bound};
ghost use Rattle.bfd_rules.specs.EventFrame.{course};
ghost use Rattle.bfd_mp.specs.Sound.{IsHeadSteady};
ghost use Rattle.bfd_mp.specs.HeadSettle as settling;
ghost use Rattle.bfd_mp.specs.Over.{IsBegun, IsStill};

use crate::HeadConfig;
use crate::counting::counted;
use crate::transmitting::transmits;
use bfd_num::{floor_tick, has_come};
use bfd_rules::{Mark, Outs, Vars, announces};

/// What a periodic packet makes of the variables: where it carried P there is one fewer to be sent with it, and it moves
/// the base.
fn after_packet(eff: u64, v: &Vars) -> Vars
    requires eff { eff < moment_bound }
    ensures value { result ≡ record (settling.one_fewer v.now) { base = eff } }
    ensures steady { IsHeadSteady v.now → IsHeadSteady result }
{
    let after = if v.left == 0 {
        *v
    } else {
        counted(v.left - 1, *v)
    };
    Vars { base: eff, ..after }
}

/// A periodic packet, with P while such packets are to be sent (RFC 8562 section 5.10).
#[tactic(auto, unfolding(crate::specs::HeadSettle::periodic_packet))]
fn periodic_packet(config: &HeadConfig, eff: u64, vars: &mut Vars, mark: &mut Mark, outs: &mut Outs)
    requires steady { IsHeadSteady vars.old }
    requires eff { eff < moment_bound }
    requires room { 0 < outs.old.spare }
    ensures steady { IsHeadSteady vars.new }
    ensures course { course vars.new mark.new outs.new.items
        ≡ settling.periodic_packet config.now eff (course vars.old mark.old outs.old.items) }
    ensures base { vars.new.base ≡ eff }
    ensures moved { mark.new.moved ≡ true }
    ensures answered { mark.new.answered ≡ mark.old.answered }
    ensures spare { outs.old.spare ≤ outs.new.spare + 1 }
    ensures room { outs.new.room ≡ outs.old.room }
{
    let poll = vars.left != 0;
    transmits(config, poll, vars, outs);
    announces(vars, mark);
    *vars = after_packet(eff, vars);
}

/// Does what has come due by the limit, at the effective moment `eff`, both in microseconds.
#[tactic(auto, unfolding(crate::specs::HeadSettle::settle))]
pub fn settle(
    config: &HeadConfig,
    limit: u64,
    eff: u64,
    vars: &mut Vars,
    mark: &mut Mark,
    outs: &mut Outs,
)
    requires steady { IsHeadSteady vars.old }
    requires eff { eff < moment_bound }
    requires room { 0 < outs.old.spare }
    ensures steady { IsHeadSteady vars.new }
    ensures course { course vars.new mark.new outs.new.items
        ≡ settling.settle config.now limit eff (course vars.old mark.old outs.old.items) }
    ensures answered { mark.new.answered ≡ mark.old.answered }
    ensures based { mark.old.moved ≡ false → mark.new.moved ≡ true → vars.new.base ≡ eff }
    ensures still { IsBegun limit eff mark.old vars.old → mark.new.moved ≡ false → IsStill limit mark.new vars.new }
    ensures spare { outs.old.spare ≤ outs.new.spare + 1 }
    ensures room { outs.new.room ≡ outs.old.room }
{
    if has_come(floor_tick(limit), vars.tx_due) {
        periodic_packet(config, eff, vars, mark, outs);
    }
}
