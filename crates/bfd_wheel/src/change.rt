//! Changes of one due tick and of the list that its node stands on.
ghost use Rattle.std.specs.Prelude.{◌≡◌, ◌≢◌, ℕ, ◌+◌, ◌<◌, ◌≤◌, length, slice_index, slice_set};
ghost use Rattle.bfd_lanes.specs.Places.{never};
ghost use Rattle.bfd_wheel.specs.Rings.{Unlinks};
ghost use Rattle.bfd_wheel.specs.Wheel.{next_in, prev_in, IsWheel, IsLinked};

use crate::links::{Node, link, unlink};
use crate::place::head_of;
use bfd_lanes::NEVER;
use bfd_num::Steps;
use std::sync::ledger::Ledger;

/// Takes the id, which has a due tick, off its list.
pub fn detach(nodes: &mut [Node], dues: &mut [u64], id: u32)
    requires linked { IsLinked id dues.old nodes.old }
    ensures wheel { (n now : ℕ) → IsWheel n now dues.old nodes.old → IsWheel n now dues.new nodes.new }
    ensures dues { dues.new ≡ slice_set dues.old id never }
    ensures links { Unlinks id (next_in nodes.old) (prev_in nodes.old) (next_in nodes.new) (prev_in nodes.new) }
{
    unlink(nodes, id);
    dues[id as usize] = NEVER;
}

/// Takes the id off its list, if it is on one: at most 1 step, and 1 where it is.
pub(crate) fn free<L: Ledger>(nodes: &mut [Node], dues: &mut [u64], id: u32, steps: &mut Steps<L>)
    requires id { id < length dues.old }
    requires linked { slice_index dues.old id ≢ never → IsLinked id dues.old nodes.old }
    ensures wheel { (n now : ℕ) → IsWheel n now dues.old nodes.old → IsWheel n now dues.new nodes.new }
    ensures dues { dues.new ≡ slice_set dues.old id never }
    ensures cost { steps.new ≤ steps.old + 1 }
    ensures counts { slice_index dues.old id ≢ never → steps.new ≡ steps.old + 1 }
{
    if dues[id as usize] != NEVER {
        detach(nodes, dues, id);
        steps.tick();
    }
}

/// Puts the id, which is on no list, on the list of its due tick: 1 step.
fn put<L: Ledger>(
    nodes: &mut [Node],
    dues: &mut [u64],
    now: u64,
    id: u32,
    due: u64,
    steps: &mut Steps<L>,
)
    requires id { id < length dues.old }
    requires wheel { IsWheel (length dues.old) now dues.old nodes.old }
    requires off { slice_index dues.old id ≡ never }
    requires due { due < never }
    ensures wheel { IsWheel (length dues.old) now dues.new nodes.new }
    ensures dues { dues.new ≡ slice_set dues.old id due }
    ensures cost { steps.new ≡ steps.old + 1 }
{
    let head = head_of(dues.len() as u32, now, due);
    link(nodes, id, head);
    dues[id as usize] = due;
    steps.tick();
}

/// Moves the id to the list of its new due tick: at most 2 steps.
pub(crate) fn change<L: Ledger>(
    nodes: &mut [Node],
    dues: &mut [u64],
    now: u64,
    id: u32,
    due: u64,
    steps: &mut Steps<L>,
)
    requires id { id < length dues.old }
    requires wheel { IsWheel (length dues.old) now dues.old nodes.old }
    requires due { due < never }
    ensures wheel { IsWheel (length dues.old) now dues.new nodes.new }
    ensures dues { dues.new ≡ slice_set dues.old id due }
    ensures cost { steps.new ≤ steps.old + 2 }
{
    free(nodes, dues, id, steps);
    put(nodes, dues, now, id, due, steps);
}
