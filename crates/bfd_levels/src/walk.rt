//! Walks along one list.
ghost use Rattle.std.specs.Prelude.{◌≡◌, ◌≢◌, ℕ, ◌+◌, ◌<◌, ◌≤◌, length, slice_index};
ghost use Rattle.bfd_lanes.specs.Held.{room_of};
ghost use Rattle.bfd_lanes.specs.Places.{never};
ghost use Rattle.bfd_wheel.specs.Taken.{Took, waiting};
ghost use Rattle.bfd_levels.specs.Lists.{slot, midway, at_midway, loads};
ghost use Rattle.bfd_levels.specs.Moves.{CanMove, Visit, GoesDown};
ghost use Rattle.bfd_levels.specs.Rings.{IsPlaced};

use crate::change::relink;
use crate::place::{head_at, head_of};
use bfd_lanes::Ids;
use bfd_num::Steps;
use bfd_wheel::{Node, detach};
use std::sync::ledger::Ledger;

/// Visits an id of the list of `head`: takes it if its due tick is at most `t`, and else moves it to the list where it
/// belongs at `tick`.
fn visit<L: Ledger>(
    nodes: &mut [Node],
    dues: &mut [u64],
    tick: u64,
    head: u32,
    id: u32,
    t: u64,
    out: &mut Ids,
    steps: &mut Steps<L>,
)
    requires movable { CanMove id 1026 dues.old nodes.old }
    requires t { t < never }
    requires room { waiting t dues.old ≤ out.old.spare }
    ensures visit { Visit (length dues.old) tick head id t dues.old dues.new nodes.old nodes.new steps.old steps.new }
    ensures took { Took t dues.old dues.new out.old.items out.new.items }
    ensures room { room_of out.new ≡ room_of out.old }
    ensures spare { waiting t dues.new ≤ out.new.spare }
{
    let due = dues[id as usize];
    if due <= t {
        detach(nodes, dues, id);
        out.push(id);
        steps.tick();
        return;
    }
    let own = head_of(dues.len() as u32, tick, due);
    if own != head {
        relink(nodes, id, own, steps);
    }
}

/// Goes along the list of `tick` at a level: takes what has come by `t`, and moves the rest to where it belongs at
/// `tick`. The ids below the level were moved before, and the others stand as they belong at `before`. What was looked
/// at is 1 step, and the moves are paid for by what the loads fall.
pub(crate) fn walk<L: Ledger>(
    nodes: &mut [Node],
    dues: &mut [u64],
    before: u64,
    tick: u64,
    level: u32,
    t: u64,
    out: &mut Ids,
    steps: &mut Steps<L>,
)
    requires placed { IsPlaced (length dues.old) 1026 (at_midway (length dues.old) before tick level dues.old) dues.old
        nodes.old }
    requires down { (due : ℕ) → t < due
        → midway (length dues.old) before tick level due ≡ slot (length dues.old) tick level
        → GoesDown (length dues.old) tick due (slot (length dues.old) tick level) }
    requires level { level ≤ 5 }
    requires t { t < never }
    requires room { waiting t dues.old ≤ out.old.spare }
    ensures placed { IsPlaced (length dues.old) 1026 (at_midway (length dues.old) before tick (level + 1) dues.new)
        dues.new
        nodes.new }
    ensures took { Took t dues.old dues.new out.old.items out.new.items }
    ensures left { (j : ℕ) → j < length dues.old → slice_index dues.new j ≢ never
        → midway (length dues.old) before tick level (slice_index dues.new j) ≡ slot (length dues.old) tick level
        → t < slice_index dues.new j }
    ensures room { room_of out.new ≡ room_of out.old }
    ensures spare { waiting t dues.new ≤ out.new.spare }
    ensures cost { steps.new + loads (length dues.old) (at_midway (length dues.old) before tick (level + 1) dues.new)
        dues.new
        ≤ steps.old + 1 + loads (length dues.old) (at_midway (length dues.old) before tick level dues.old) dues.old }
    ensures looks { steps.old < steps.new }
{
    steps.tick();
    let head = head_at(dues.len() as u32, tick, level);
    let mut cur = nodes[head as usize].next;
    // A list has each id at most once.
    for _ in 0..dues.len() {
        if cur == head {
            return;
        }
        let next = nodes[cur as usize].next;
        visit(nodes, dues, tick, head, cur, t, out, steps);
        cur = next;
    }
}
