//! How an event ends: the extra packet, and the next due tick.
ghost use Rattle.std.specs.Prelude.{◌≡◌, ◌<◌, ◌≤◌, ◌+◌, ℕ, true, false};
ghost use Rattle.bfd_num.specs.Due.{has_come};
ghost use Rattle.bfd_num.specs.Numbers.{moment_bound, floor_tick};
ghost use Rattle.bfd_rules.specs.EventFrame.{course, is_news as is_news_of};
ghost use Rattle.bfd_rules.specs.Quantities.{may_send as may_send_of};
ghost use Rattle.bfd_sbfd.specs.Waiting.{deadline};
ghost use Rattle.bfd_sbfd.specs.Sound.{IsInitiatorSteady, IsInitiatorSound};
ghost use Rattle.bfd_sbfd.specs.Finish as finishing;
ghost use Rattle.bfd_sbfd.specs.Over.{IsSettled};

use crate::InitiatorConfig;
use crate::transmitting::transmits;
use bfd_rules::{Mark, Outs, Vars, drawn, is_unannounced};

/// A changed state or diagnostic is sent immediately, unless none may be sent.
#[tactic(auto, unfolding(crate::specs::Finish::extra))]
fn extra(config: &InitiatorConfig, eff: u64, vars: &mut Vars, mark: &mut Mark, outs: &mut Outs)
    requires steady { IsInitiatorSteady config.now vars.old }
    requires eff { eff < moment_bound }
    requires room { 0 < outs.old.spare }
    ensures steady { IsInitiatorSteady config.now vars.new }
    ensures course { course vars.new mark.new outs.new.items
        ≡ finishing.extra config.now eff (course vars.old mark.old outs.old.items) }
    ensures same { vars.new ≡ record vars.old { base = vars.new.base } }
    ensures based { (mark.old.moved ≡ true → vars.old.base ≡ eff) → mark.new.moved ≡ true → vars.new.base ≡ eff }
    ensures rests { mark.new.moved ≡ false → mark.new ≡ mark.old }
    ensures no_news { mark.new.moved ≡ false → mark.old.answered ≡ false → may_send_of true vars.old ≡ true
        → is_news_of mark.old vars.old ≡ false }
    ensures spare { outs.old.spare ≤ outs.new.spare + 1 }
    ensures room { outs.new.room ≡ outs.old.room }
{
    if is_unannounced(true, mark, vars) {
        transmits(config, vars, outs);
        vars.base = eff;
        mark.moved = true;
    }
}

/// Ends an event at the effective moment `eff`, in microseconds.
#[tactic(auto, using(crate::proofs::Drawing::drawn_sound), unfolding(crate::specs::Finish::finish, bfd_rules::specs::EventFrame::redrawn))]
pub fn finish(config: &InitiatorConfig, eff: u64, vars: &mut Vars, mark: Mark, outs: &mut Outs)
    requires steady { IsInitiatorSteady config.now vars.old }
    requires eff { eff < moment_bound }
    requires room { 0 < outs.old.spare }
    ensures sound { IsInitiatorSound config.now vars.new }
    ensures late { (limit : ℕ) → has_come limit (deadline vars.old) ≡ false
        → has_come limit (deadline vars.new) ≡ false }
    ensures due_later { (limit : ℕ) → limit ≤ eff → IsSettled limit eff mark vars.old
        → has_come (floor_tick limit) vars.new.tx_due ≡ false }
    ensures vars { vars.new ≡ (finishing.finish config.now eff (course vars.old mark outs.old.items)).vars }
    ensures outs { outs.new.items ≡ (finishing.finish config.now eff (course vars.old mark outs.old.items)).outs }
    ensures spare { outs.old.spare ≤ outs.new.spare + 1 }
    ensures room { outs.new.room ≡ outs.old.room }
{
    let mut mark = mark;
    extra(config, eff, vars, &mut mark, outs);
    *vars = drawn(true, &mark, *vars);
}
