//! What has come due by an event is done first: detection, periodic.
ghost use Rattle.std.specs.Prelude.{◌≡◌, ◌<◌, ◌≤◌, ◌+◌, true, false, ℕ};
ghost use Rattle.bfd_num.specs.Numbers.{moment_bound, floor_tick as tick_of};
ghost use Rattle.bfd_num.specs.Due as due;
ghost use Rattle.bfd_rules.specs.declared.variables.Mark.{Mark as MarkOf};
ghost use Rattle.bfd_rules.specs.Quantities.{may_send as may_send_of};
ghost use Rattle.bfd_rules.specs.EventFrame.{course, is_news};
ghost use Rattle.bfd_sbfd.specs.declared.config.InitiatorConfig.{InitiatorConfig as ConfigOf};
ghost use Rattle.bfd_sbfd.specs.Waiting.{deadline as deadline_of};
ghost use Rattle.bfd_sbfd.specs.Sound.{IsInitiatorPlain, IsInitiatorSteady};
ghost use Rattle.bfd_sbfd.specs.Settle as settling;
ghost use Rattle.bfd_sbfd.specs.Over.{IsBegun, IsStill};

use crate::InitiatorConfig;
use crate::frame::moves;
use crate::transmitting::transmits;
use crate::waiting::deadline;
use bfd_num::{floor_tick, has_come};
use bfd_packet::State;
use bfd_rules::{Mark, Outs, Vars, announces, enters, may_send};

/// No answer came: Down with diagnostic 1.
fn silenced(v: &Vars) -> Vars
    ensures value { result ≡ settling.silenced v.now }
    ensures plain { (c : ConfigOf) → IsInitiatorPlain c v.now → IsInitiatorPlain c result }
{
    let silent = Vars { heard: None, ..*v };
    enters(State::Down, 1, silent)
}

/// Detection: the Detection Time has expired (RFC 7880 section 7.3.1, RFC 5880 section 6.8.4).
#[tactic(auto, unfolding(crate::specs::Settle::detection))]
fn detection(config: &InitiatorConfig, limit: u64, vars: &mut Vars, outs: &mut Outs)
    requires steady { IsInitiatorSteady config.now vars.old }
    requires room { 0 < outs.old.spare }
    ensures steady { IsInitiatorSteady config.now vars.new }
    ensures course { (m : MarkOf) → course vars.new m outs.new.items
        ≡ settling.detection config.now limit (course vars.old m outs.old.items) }
    ensures late { due.has_come limit (deadline_of vars.new) ≡ false }
    ensures calm { vars.new.state ≡ vars.old.state → vars.new ≡ vars.old }
    ensures spare { outs.old.spare ≤ outs.new.spare + 1 }
    ensures room { outs.new.room ≡ outs.old.room }
{
    if has_come(limit, deadline(vars)) {
        moves(config, silenced(vars), vars, outs);
    }
}

/// What a periodic packet makes of the variables: it moves the base.
fn based(eff: u64, v: &Vars) -> Vars
    requires eff { eff < moment_bound }
    ensures value { result ≡ record v.now { base = eff } }
    ensures steady { (c : ConfigOf) → IsInitiatorSteady c v.now → IsInitiatorSteady c result }
{
    Vars { base: eff, ..*v }
}

/// A periodic packet (RFC 5880 section 6.8.7).
#[tactic(auto, unfolding(crate::specs::Settle::periodic_packet))]
fn periodic_packet(
    config: &InitiatorConfig,
    eff: u64,
    vars: &mut Vars,
    mark: &mut Mark,
    outs: &mut Outs,
)
    requires steady { IsInitiatorSteady config.now vars.old }
    requires eff { eff < moment_bound }
    requires room { 0 < outs.old.spare }
    ensures steady { IsInitiatorSteady config.now vars.new }
    ensures course { course vars.new mark.new outs.new.items
        ≡ settling.periodic_packet config.now eff (course vars.old mark.old outs.old.items) }
    ensures value { vars.new ≡ record vars.old { base = eff } }
    ensures moved { mark.new.moved ≡ true }
    ensures answered { mark.new.answered ≡ mark.old.answered }
    ensures spare { outs.old.spare ≤ outs.new.spare + 1 }
    ensures room { outs.new.room ≡ outs.old.room }
{
    transmits(config, vars, outs);
    announces(vars, mark);
    *vars = based(eff, vars);
}

/// Periodic: a periodic packet is due (RFC 5880 section 6.8.7).
#[tactic(auto, unfolding(crate::specs::Settle::periodic))]
fn periodic(
    config: &InitiatorConfig,
    limit: u64,
    eff: u64,
    vars: &mut Vars,
    mark: &mut Mark,
    outs: &mut Outs,
)
    requires steady { IsInitiatorSteady config.now vars.old }
    requires eff { eff < moment_bound }
    requires room { 0 < outs.old.spare }
    ensures steady { IsInitiatorSteady config.now vars.new }
    ensures course { course vars.new mark.new outs.new.items
        ≡ settling.periodic config.now limit eff (course vars.old mark.old outs.old.items) }
    ensures answered { mark.new.answered ≡ mark.old.answered }
    ensures same { vars.new ≡ record vars.old { base = vars.new.base } }
    ensures based { mark.old.moved ≡ false → mark.new.moved ≡ true → vars.new.base ≡ eff }
    ensures vars_rest { mark.new.moved ≡ false → vars.new ≡ vars.old }
    ensures mark_rests { mark.new.moved ≡ false → mark.new ≡ mark.old }
    ensures due_later { mark.new.moved ≡ false → may_send_of true vars.old ≡ true
        → due.has_come (tick_of limit) vars.old.tx_due ≡ false }
    ensures spare { outs.old.spare ≤ outs.new.spare + 1 }
    ensures room { outs.new.room ≡ outs.old.room }
{
    if has_come(floor_tick(limit), vars.tx_due) && may_send(true, vars) {
        periodic_packet(config, eff, vars, mark, outs);
    }
}

/// Does what has come due by the limit, at the effective moment `eff`, both in microseconds.
#[tactic(auto, using(bfd_rules::proofs::Still::unchanged_state), unfolding(crate::specs::Settle::settle))]
pub fn settle(
    config: &InitiatorConfig,
    limit: u64,
    eff: u64,
    vars: &mut Vars,
    mark: &mut Mark,
    outs: &mut Outs,
)
    requires steady { IsInitiatorSteady config.now vars.old }
    requires eff { eff < moment_bound }
    requires room { 1 < outs.old.spare }
    ensures steady { IsInitiatorSteady config.now vars.new }
    ensures course { course vars.new mark.new outs.new.items
        ≡ settling.settle config.now limit eff (course vars.old mark.old outs.old.items) }
    ensures late { due.has_come limit (deadline_of vars.new) ≡ false }
    ensures answered { mark.new.answered ≡ mark.old.answered }
    ensures based { mark.old.moved ≡ false → mark.new.moved ≡ true → vars.new.base ≡ eff }
    ensures still { IsBegun config.now limit eff mark.old vars.old → mark.new.moved ≡ false
        → is_news mark.new vars.new ≡ false
        → may_send_of true vars.new ≡ true → IsStill limit mark.new vars.new }
    ensures spare { outs.old.spare ≤ outs.new.spare + 2 }
    ensures room { outs.new.room ≡ outs.old.room }
{
    detection(config, limit, vars, outs);
    periodic(config, limit, eff, vars, mark, outs);
}
