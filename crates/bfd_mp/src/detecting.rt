//! What has come due by an event of a tail is done first: detection.
ghost use Rattle.std.specs.Prelude.{◌≡◌, ◌<◌, ◌≤◌, ◌+◌, false};
ghost use Rattle.bfd_num.specs.Due as due;
ghost use Rattle.bfd_rules.specs.declared.variables.Mark.{Mark};
ghost use Rattle.bfd_rules.specs.EventFrame.{course};
ghost use Rattle.bfd_mp.specs.declared.config.TailConfig.{TailConfig as ConfigOf};
ghost use Rattle.bfd_mp.specs.Waiting.{deadline as deadline_of};
ghost use Rattle.bfd_mp.specs.Sound.{IsTailSound};
ghost use Rattle.bfd_mp.specs.TailSettle as settling;

use crate::TailConfig;
use crate::waiting::deadline;
use bfd_num::has_come;
use bfd_packet::State;
use bfd_rules::{Outs, Vars, changes, enters};

/// Nothing was heard: a tail that is Up goes Down with diagnostic 1.
fn silenced(v: &Vars) -> Vars
    ensures value { result ≡ settling.silenced v.now }
    ensures sound { (c : ConfigOf) → IsTailSound c v.now → IsTailSound c result }
{
    let silent = Vars { heard: None, ..*v };
    if matches!(silent.state, State::Up) {
        enters(State::Down, 1, silent)
    } else {
        silent
    }
}

/// Does what has come due by the limit, in microseconds: the Detection Time has expired (RFC 8562 section 5.11).
#[tactic(auto, unfolding(crate::specs::TailSettle::settle))]
pub fn settle(config: &TailConfig, limit: u64, vars: &mut Vars, outs: &mut Outs)
    requires sound { IsTailSound config.now vars.old }
    requires room { 0 < outs.old.spare }
    ensures sound { IsTailSound config.now vars.new }
    ensures course { (m : Mark) → course vars.new m outs.new.items
        ≡ settling.settle config.now limit (course vars.old m outs.old.items) }
    ensures late { due.has_come limit (deadline_of vars.new) ≡ false }
    ensures spare { outs.old.spare ≤ outs.new.spare + 1 }
    ensures room { outs.new.room ≡ outs.old.room }
{
    if has_come(limit, deadline(vars)) {
        let after = silenced(vars);
        changes(config.discr, after, vars, outs);
    }
}
