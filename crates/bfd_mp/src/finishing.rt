//! How an event of a head ends: the extra packet, and the next due tick.
ghost use Rattle.std.specs.Prelude.{◌≡◌, ◌<◌, ◌≤◌, ◌+◌, ℕ, true, false};
ghost use Rattle.bfd_num.specs.Due.{has_come};
ghost use Rattle.bfd_num.specs.Numbers.{moment_bound, floor_tick};
ghost use Rattle.bfd_rules.specs.EventFrame.{course, draws, drawn as drawn_of};
ghost use Rattle.bfd_mp.specs.Sound.{IsHeadSteady, IsHeadSound};
ghost use Rattle.bfd_mp.specs.HeadFinish as finishing;
ghost use Rattle.bfd_mp.specs.Over.{IsSettled};

use crate::HeadConfig;
use crate::transmitting::transmits;
use bfd_rules::{Mark, Outs, Vars, drawn, is_unannounced};

/// The variables with the due tick as an event leaves it.
pub fn drawn_anew(mark: &Mark, v: Vars) -> Vars
    requires steady { IsHeadSteady v }
    ensures value { result ≡ drawn_of true mark.now v }
    ensures sound { IsHeadSound result }
    ensures kept { draws mark.now v ≡ false → result.tx_due ≡ v.tx_due }
    ensures later { (m : ℕ) → m ≤ v.base → draws mark.now v ≡ true → has_come (floor_tick m) result.tx_due ≡ false }
{
    drawn(true, mark, v)
}

/// A changed state or diagnostic is sent immediately.
#[tactic(auto, unfolding(crate::specs::HeadFinish::extra))]
fn extra(config: &HeadConfig, eff: u64, vars: &mut Vars, mark: &mut Mark, outs: &mut Outs)
    requires steady { IsHeadSteady vars.old }
    requires eff { eff < moment_bound }
    requires room { 0 < outs.old.spare }
    ensures steady { IsHeadSteady vars.new }
    ensures course { course vars.new mark.new outs.new.items
        ≡ finishing.extra config.now eff (course vars.old mark.old outs.old.items) }
    ensures based { (mark.old.moved ≡ true → vars.old.base ≡ eff) → mark.new.moved ≡ true → vars.new.base ≡ eff }
    ensures vars_rest { mark.new.moved ≡ false → vars.new ≡ vars.old }
    ensures mark_rests { mark.new.moved ≡ false → mark.new ≡ mark.old }
    ensures spare { outs.old.spare ≤ outs.new.spare + 1 }
    ensures room { outs.new.room ≡ outs.old.room }
{
    if is_unannounced(true, mark, vars) {
        transmits(config, false, vars, outs);
        vars.base = eff;
        mark.moved = true;
    }
}

/// Ends an event of a head at the effective moment `eff`, in microseconds.
#[tactic(auto, unfolding(crate::specs::HeadFinish::finish, bfd_rules::specs::EventFrame::redrawn))]
pub fn finish(config: &HeadConfig, eff: u64, vars: &mut Vars, mark: Mark, outs: &mut Outs)
    requires steady { IsHeadSteady vars.old }
    requires eff { eff < moment_bound }
    requires room { 0 < outs.old.spare }
    ensures sound { IsHeadSound vars.new }
    ensures due_later { (limit : ℕ) → limit ≤ eff → IsSettled limit eff mark vars.old
        → has_come (floor_tick limit) vars.new.tx_due ≡ false }
    ensures vars { vars.new ≡ (finishing.finish config.now eff (course vars.old mark outs.old.items)).vars }
    ensures outs { outs.new.items ≡ (finishing.finish config.now eff (course vars.old mark outs.old.items)).outs }
    ensures spare { outs.old.spare ≤ outs.new.spare + 1 }
    ensures room { outs.new.room ≡ outs.old.room }
{
    let mut mark = mark;
    extra(config, eff, vars, &mut mark, outs);
    *vars = drawn_anew(&mark, *vars);
}
