//! Changes of one due tick and of the list that its node stands on.
ghost use Rattle.std.specs.Prelude.{◌≡◌, ◌≢◌, ℕ, ◌+◌, ◌<◌, ◌≤◌, length, slice_index, slice_set};
ghost use Rattle.bfd_lanes.specs.Places.{never, lowest};
ghost use Rattle.bfd_wheel.specs.Wheel.{next_in, prev_in, IsLinked};
ghost use Rattle.bfd_levels.specs.Lists.{IsLevels};
ghost use Rattle.bfd_levels.specs.Moves.{Relinks};

use crate::place::head_of;
use crate::soonest::after_write;
use bfd_lanes::NEVER;
use bfd_num::Steps;
use bfd_wheel::{Node, detach, link, unlink};
use std::sync::ledger::Ledger;

/// Takes the id off its list, if it is on one: at most 1 step, and 1 where it is.
fn free<L: Ledger>(nodes: &mut [Node], dues: &mut [u64], id: u32, steps: &mut Steps<L>)
    requires id { id < length dues.old }
    requires linked { slice_index dues.old id ≢ never → IsLinked id dues.old nodes.old }
    ensures levels { (n now : ℕ) → IsLevels n now dues.old nodes.old → IsLevels n now dues.new nodes.new }
    ensures dues { dues.new ≡ slice_set dues.old id never }
    ensures cost { steps.new ≤ steps.old + 1 }
    ensures counts { slice_index dues.old id ≢ never → steps.new ≡ steps.old + 1 }
{
    if dues[id as usize] != NEVER {
        detach(nodes, dues, id);
        steps.tick();
    }
}

/// Puts the id, which is on no list, on the list of its due tick: 1 step.
fn put<L: Ledger>(
    nodes: &mut [Node],
    dues: &mut [u64],
    now: u64,
    id: u32,
    due: u64,
    steps: &mut Steps<L>,
)
    requires id { id < length dues.old }
    requires levels { IsLevels (length dues.old) now dues.old nodes.old }
    requires off { slice_index dues.old id ≡ never }
    requires due { due < never }
    ensures levels { IsLevels (length dues.old) now dues.new nodes.new }
    ensures dues { dues.new ≡ slice_set dues.old id due }
    ensures cost { steps.new ≡ steps.old + 1 }
{
    let head = head_of(dues.len() as u32, now, due);
    link(nodes, id, head);
    dues[id as usize] = due;
    steps.tick();
}

/// Moves the id to the list of its new due tick, where that is another, and answers the lowest then, where it was `soonest`: at most
/// 2 steps.
pub(crate) fn change<L: Ledger>(
    nodes: &mut [Node],
    dues: &mut [u64],
    now: u64,
    soonest: u64,
    id: u32,
    due: u64,
    steps: &mut Steps<L>,
) -> u64
    requires id { id < length dues.old }
    requires levels { IsLevels (length dues.old) now dues.old nodes.old }
    requires soonest { soonest ≡ lowest dues.old }
    requires due { due < never }
    ensures levels { IsLevels (length dues.old) now dues.new nodes.new }
    ensures dues { dues.new ≡ slice_set dues.old id due }
    ensures soonest { result ≡ lowest dues.new }
    ensures cost { steps.new ≤ steps.old + 2 }
{
    let before = dues[id as usize];
    if before == due {
        return soonest;
    }
    free(nodes, dues, id, steps);
    put(nodes, dues, now, id, due, steps);
    after_write(nodes, dues, now, soonest, before, due)
}

/// Takes the due tick of the id away, if it has one, and answers the lowest then, where it was `soonest`: at most 1 step.
pub(crate) fn drop_due<L: Ledger>(
    nodes: &mut [Node],
    dues: &mut [u64],
    now: u64,
    soonest: u64,
    id: u32,
    steps: &mut Steps<L>,
) -> u64
    requires id { id < length dues.old }
    requires levels { IsLevels (length dues.old) now dues.old nodes.old }
    requires soonest { soonest ≡ lowest dues.old }
    ensures levels { IsLevels (length dues.old) now dues.new nodes.new }
    ensures dues { dues.new ≡ slice_set dues.old id never }
    ensures soonest { result ≡ lowest dues.new }
    ensures cost { steps.new ≤ steps.old + 1 }
{
    let before = dues[id as usize];
    free(nodes, dues, id, steps);
    after_write(nodes, dues, now, soonest, before, NEVER)
}

/// Moves the id, which stays due, behind another head: 2 steps.
pub(crate) fn relink<L: Ledger>(nodes: &mut [Node], id: u32, head: u32, steps: &mut Steps<L>)
    requires node { id < length nodes.old }
    requires next { next_in nodes.old id < length nodes.old }
    requires prev { prev_in nodes.old id < length nodes.old }
    requires head { head < length nodes.old }
    requires other { head ≢ id }
    requires first { next_in nodes.old head < length nodes.old }
    requires alone { next_in nodes.old id ≢ id }
    requires behind { head ≢ prev_in nodes.old id → next_in nodes.old head ≢ id }
    ensures links { Relinks id head (next_in nodes.old) (prev_in nodes.old) (next_in nodes.new) (prev_in nodes.new) }
    ensures cost { steps.new ≡ steps.old + 2 }
{
    unlink(nodes, id);
    steps.tick();
    link(nodes, id, head);
    steps.tick();
}
