//! A long advance, by the list of due ticks.
ghost use Rattle.std.specs.Prelude.{◌≡◌, ◌≢◌, ◌⊎◌, ℕ, ◌+◌, ◌^◌, ◌<◌, ◌≤◌, ◌++◌, map, length, slice_index};
ghost use Rattle.bfd_lanes.specs.Held.{room_of};
ghost use Rattle.bfd_lanes.specs.Places.{never, due_of, come, without};
ghost use Rattle.bfd_wheel.specs.Taken.{times, counts_due};
ghost use Rattle.bfd_levels.specs.Lists.{at_tick, at_jump, loads};
ghost use Rattle.bfd_levels.specs.Rings.{IsPlaced};

use crate::change::relink;
use crate::place::head_of;
use bfd_lanes::{Ids, NEVER, due_ids};
use bfd_num::Steps;
use bfd_wheel::{Node, detach};
use std::sync::ledger::Ledger;

/// Takes the ids, which are those that have come by `t`, off their lists: a step each.
fn detach_all<L: Ledger>(
    nodes: &mut [Node],
    dues: &mut [u64],
    now: u64,
    t: u64,
    ids: &[u32],
    steps: &mut Steps<L>,
)
    requires placed { IsPlaced (length dues.old) 1026 (at_tick (length dues.old) now dues.old) dues.old nodes.old }
    requires t { t < never }
    requires ids { (x : ℕ) → times x ids.now ≡ counts_due t dues.old x }
    ensures placed { IsPlaced (length dues.old) 1026 (at_tick (length dues.old) now dues.new) dues.new nodes.new }
    ensures left { (x : ℕ) → counts_due t dues.new x ≡ 0 }
    ensures same_or_gone { (j : ℕ) → (slice_index dues.new j ≡ slice_index dues.old j)
        ⊎ ((slice_index dues.new j ≡ never) × (slice_index dues.old j ≤ t)) }
    ensures cost { steps.new + loads (length dues.old) (at_tick (length dues.old) now dues.new) dues.new
        ≤ steps.old + loads (length dues.old) (at_tick (length dues.old) now dues.old) dues.old }
    ensures counts { steps.old + length ids.now ≤ steps.new }
{
    for id in ids {
        detach(nodes, dues, *id);
        steps.tick();
    }
}

/// Moves the id, if it has a due tick, to the list where it belongs at `t`: at most 2 steps.
fn settle<L: Ledger>(
    nodes: &mut [Node],
    dues: &[u64],
    now: u64,
    t: u64,
    id: u32,
    steps: &mut Steps<L>,
)
    requires id { id < length dues.now }
    requires later { now ≤ t }
    requires above { (j : ℕ) → j < length dues.now → slice_index dues.now j ≢ never → t < slice_index dues.now j }
    requires placed { IsPlaced (length dues.now) 1026 (at_jump (length dues.now) now t id dues.now) dues.now nodes.old }
    ensures placed { IsPlaced (length dues.now) 1026 (at_jump (length dues.now) now t (id + 1) dues.now)
        dues.now nodes.new }
    ensures cost { steps.new + loads (length dues.now) (at_jump (length dues.now) now t (id + 1) dues.now) dues.now
        ≤ steps.old + 2 + loads (length dues.now) (at_jump (length dues.now) now t id dues.now) dues.now }
{
    let due = dues[id as usize];
    if due != NEVER {
        relink(nodes, id, head_of(dues.len() as u32, t, due), steps);
    }
}

/// Relinks all ids, as they belong at `t`: at most 2 steps each.
fn settle_all<L: Ledger>(nodes: &mut [Node], dues: &[u64], now: u64, t: u64, steps: &mut Steps<L>)
    requires later { now ≤ t }
    requires above { (j : ℕ) → j < length dues.now → slice_index dues.now j ≢ never → t < slice_index dues.now j }
    requires placed { IsPlaced (length dues.now) 1026 (at_tick (length dues.now) now dues.now) dues.now nodes.old }
    ensures placed { IsPlaced (length dues.now) 1026 (at_tick (length dues.now) t dues.now) dues.now nodes.new }
    ensures cost { steps.new + loads (length dues.now) (at_tick (length dues.now) t dues.now) dues.now
        ≤ steps.old + 131072 + loads (length dues.now) (at_tick (length dues.now) now dues.now) dues.now }
{
    for id in 0..dues.len() as u32 {
        settle(nodes, dues, now, t, id, steps);
    }
}

/// Takes what has come by `t`, at or after `now`, and relinks the rest: 1 step for the list of due ticks, one for each
/// id that is taken, and at most two for each of the rest.
pub(crate) fn jump<L: Ledger>(
    nodes: &mut [Node],
    dues: &mut [u64],
    now: u64,
    t: u64,
    out: &mut Ids,
    steps: &mut Steps<L>,
)
    requires placed { IsPlaced (length dues.old) 1026 (at_tick (length dues.old) now dues.old) dues.old nodes.old }
    requires later { now ≤ t }
    requires t { t < 2 ^ 60 }
    requires room { length dues.old ≤ out.old.spare }
    ensures placed { IsPlaced (length dues.old) 1026 (at_tick (length dues.old) t dues.new) dues.new nodes.new }
    ensures items { out.new.items ≡ out.old.items ++ come t (map due_of dues.old) }
    ensures room { room_of out.new ≡ room_of out.old }
    ensures dues { map due_of dues.new ≡ map (without t) (map due_of dues.old) }
    ensures cost { steps.new + loads (length dues.old) (at_tick (length dues.old) t dues.new) dues.new
        ≤ steps.old + 131073 + loads (length dues.old) (at_tick (length dues.old) now dues.old) dues.old }
{
    let from = out.items().len();
    steps.tick();
    due_ids(dues, t, out);
    detach_all(nodes, dues, now, t, &out.items()[from..], steps);
    settle_all(nodes, dues, now, t, steps);
}
