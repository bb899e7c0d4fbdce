//! Taking what has come, in order.
ghost use Rattle.std.specs.Prelude.{◌≡◌, ℕ, ◌+◌, ◌-◌, ◌*◌, ◌^◌, ◌<◌, ◌≤◌, ◌++◌, max, map, length};
ghost use Rattle.bfd_lanes.specs.Held.{room_of};
ghost use Rattle.bfd_lanes.specs.Places.{due_of, come, without};
ghost use Rattle.bfd_levels.specs.Lists.{at_tick, loads, IsLevels};
ghost use Rattle.bfd_levels.specs.Rings.{IsPlaced};

use crate::jump::jump;
use crate::tick::{forward, overdue};
use bfd_lanes::Ids;
use bfd_num::Steps;
use bfd_wheel::Node;
use std::sync::ledger::Ledger;

/// The ticks from which on an advance goes by the list of due ticks.
const FAR: u64 = 65_536;

/// Takes what has come by `t`, ascending, and answers the greatest tick so far. With what is left of the loads the
/// steps are at most what the loads were, and 1 back, or two a tick and 5 forward.
pub(crate) fn take<L: Ledger>(
    nodes: &mut [Node],
    dues: &mut [u64],
    now: u64,
    t: u64,
    out: &mut Ids,
    steps: &mut Steps<L>,
) -> u64
    requires levels { IsLevels (length dues.old) now dues.old nodes.old }
    requires t { t < 2 ^ 60 }
    requires room { length dues.old ≤ out.old.spare }
    ensures levels { IsLevels (length dues.old) result dues.new nodes.new }
    ensures now { result ≡ max now t }
    ensures items { out.new.items ≡ out.old.items ++ come t (map due_of dues.old) }
    ensures room { room_of out.new ≡ room_of out.old }
    ensures dues { map due_of dues.new ≡ map (without t) (map due_of dues.old) }
    ensures forward { now ≤ t → steps.new + loads (length dues.old) (at_tick (length dues.old) result dues.new) dues.new
        ≤ steps.old + (2 * (t - now) + 5) + loads (length dues.old) (at_tick (length dues.old) now dues.old) dues.old }
    ensures back { t < now → steps.new + loads (length dues.old) (at_tick (length dues.old) result dues.new) dues.new
        ≤ steps.old + 1 + loads (length dues.old) (at_tick (length dues.old) now dues.old) dues.old }
{
    if t < now {
        take_overdue(nodes, dues, now, t, out, steps);
        now
    } else if t - now < FAR {
        take_near(nodes, dues, now, t, out, steps);
        t
    } else {
        jump(nodes, dues, now, t, out, steps);
        t
    }
}

/// Takes what has come by `t`, which is at most `now`.
fn take_overdue<L: Ledger>(
    nodes: &mut [Node],
    dues: &mut [u64],
    now: u64,
    t: u64,
    out: &mut Ids,
    steps: &mut Steps<L>,
)
    requires placed { IsPlaced (length dues.old) 1026 (at_tick (length dues.old) now dues.old) dues.old nodes.old }
    requires back { t ≤ now }
    requires t { t < 2 ^ 60 }
    requires room { length dues.old ≤ out.old.spare }
    ensures placed { IsPlaced (length dues.old) 1026 (at_tick (length dues.old) now dues.new) dues.new nodes.new }
    ensures items { out.new.items ≡ out.old.items ++ come t (map due_of dues.old) }
    ensures room { room_of out.new ≡ room_of out.old }
    ensures dues { map due_of dues.new ≡ map (without t) (map due_of dues.old) }
    ensures cost { steps.new + loads (length dues.old) (at_tick (length dues.old) now dues.new) dues.new
        ≤ steps.old + 1 + loads (length dues.old) (at_tick (length dues.old) now dues.old) dues.old }
{
    let from = out.items().len();
    overdue(nodes, dues, now, t, out, steps);
    out.sort_from(from);
}

/// Takes what has come by `t`, less than 65,536 ticks after `now`.
fn take_near<L: Ledger>(
    nodes: &mut [Node],
    dues: &mut [u64],
    now: u64,
    t: u64,
    out: &mut Ids,
    steps: &mut Steps<L>,
)
    requires placed { IsPlaced (length dues.old) 1026 (at_tick (length dues.old) now dues.old) dues.old nodes.old }
    requires later { now ≤ t }
    requires near { t < now + 65536 }
    requires t { t < 2 ^ 60 }
    requires room { length dues.old ≤ out.old.spare }
    ensures placed { IsPlaced (length dues.old) 1026 (at_tick (length dues.old) t dues.new) dues.new nodes.new }
    ensures items { out.new.items ≡ out.old.items ++ come t (map due_of dues.old) }
    ensures room { room_of out.new ≡ room_of out.old }
    ensures dues { map due_of dues.new ≡ map (without t) (map due_of dues.old) }
    ensures cost { steps.new + loads (length dues.old) (at_tick (length dues.old) t dues.new) dues.new
        ≤ steps.old + (2 * (t - now) + 4) + loads (length dues.old) (at_tick (length dues.old) now dues.old) dues.old }
{
    let from = out.items().len();
    forward(nodes, dues, now, t, out, steps);
    out.sort_from(from);
}
