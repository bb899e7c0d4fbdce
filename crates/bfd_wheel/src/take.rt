//! Taking what has come, and ordering it.
ghost use Rattle.std.specs.Prelude.{◌≡◌, ◌≢◌, ◌⊎◌, ℕ, ◌+◌, ◌*◌, ◌^◌, ◌<◌, ◌≤◌, ◌++◌, max, map, length, slice_index, slice_set};
ghost use Rattle.bfd_lanes.specs.Held.{room_of};
ghost use Rattle.bfd_lanes.specs.Places.{never, due_of, come, without};
ghost use Rattle.bfd_wheel.specs.Rings.{Unlinks};
ghost use Rattle.bfd_wheel.specs.Taken.{Took, times, counts_due, waiting};
ghost use Rattle.bfd_wheel.specs.Wheel.{next_in, prev_in, place, IsWheel, IsLinked};

use crate::change::detach;
use crate::links::Node;
use crate::place::{SLOTS, head_of};
use bfd_lanes::{Ids, due_ids};

/// Takes all that has come by `t`, ascending, and answers the greatest tick so far. Less than a turn of the wheel
/// goes by the lists of the ticks in between, each looked at once. More goes by the list of due ticks.
pub(crate) fn take(nodes: &mut [Node], dues: &mut [u64], now: u64, t: u64, out: &mut Ids) -> u64
    requires wheel { IsWheel (length dues.old) now dues.old nodes.old }
    requires t { t < 2 ^ 60 }
    requires room { length dues.old ≤ out.old.spare }
    ensures wheel { IsWheel (length dues.old) result dues.new nodes.new }
    ensures now { result ≡ max now t }
    ensures items { out.new.items ≡ out.old.items ++ come t (map due_of dues.old) }
    ensures room { room_of out.new ≡ room_of out.old }
    ensures dues { map due_of dues.new ≡ map (without t) (map due_of dues.old) }
{
    if t.saturating_sub(now) < SLOTS as u64 {
        gather(nodes, dues, now, t, out)
    } else {
        jump(nodes, dues, now, t, out)
    }
}

/// Takes what has come from the overdue list and from the slots of the ticks after `now` up to `t`.
fn gather(nodes: &mut [Node], dues: &mut [u64], now: u64, t: u64, out: &mut Ids) -> u64
    requires wheel { IsWheel (length dues.old) now dues.old nodes.old }
    requires t { t < 2 ^ 60 }
    requires turn { t < now + 4096 }
    requires room { length dues.old ≤ out.old.spare }
    ensures wheel { IsWheel (length dues.old) result dues.new nodes.new }
    ensures now { result ≡ max now t }
    ensures items { out.new.items ≡ out.old.items ++ come t (map due_of dues.old) }
    ensures room { room_of out.new ≡ room_of out.old }
    ensures dues { map due_of dues.new ≡ map (without t) (map due_of dues.old) }
{
    let from = out.items().len();
    sweep(nodes, dues, now, t, out);
    out.sort_from(from);
    now.max(t)
}

/// Takes what has come, list by list: the overdue list first, which is that of `now`.
fn sweep(nodes: &mut [Node], dues: &mut [u64], now: u64, t: u64, out: &mut Ids)
    requires wheel { IsWheel (length dues.old) now dues.old nodes.old }
    requires t { t < 2 ^ 60 }
    requires turn { t < now + 4096 }
    requires room { waiting t dues.old ≤ out.old.spare }
    ensures wheel { IsWheel (length dues.old) now dues.new nodes.new }
    ensures took { Took t dues.old dues.new out.old.items out.new.items }
    ensures left { (j : ℕ) → j < length dues.old → slice_index dues.new j ≢ never
        → t < slice_index dues.new j }
    ensures room { room_of out.new ≡ room_of out.old }
{
    for tick in now..now.max(t) + 1 {
        collect(nodes, dues, now, tick, t, out);
    }
}

/// Takes what has come from the list that the due tick `tick` stands on.
fn collect(nodes: &mut [Node], dues: &mut [u64], now: u64, tick: u64, t: u64, out: &mut Ids)
    requires wheel { IsWheel (length dues.old) now dues.old nodes.old }
    requires t { t < never }
    requires room { waiting t dues.old ≤ out.old.spare }
    ensures wheel { IsWheel (length dues.old) now dues.new nodes.new }
    ensures took { Took t dues.old dues.new out.old.items out.new.items }
    ensures left { (j : ℕ) → j < length dues.old → slice_index dues.new j ≢ never
        → place (length dues.old) now (slice_index dues.new j) ≡ place (length dues.old) now tick
        → t < slice_index dues.new j }
    ensures room { room_of out.new ≡ room_of out.old }
    ensures spare { waiting t dues.new ≤ out.new.spare }
{
    let head = head_of(dues.len() as u32, now, tick);
    let mut cur = nodes[head as usize].next;
    // A list has each id at most once.
    for _ in 0..dues.len() {
        if cur == head {
            return;
        }
        let next = nodes[cur as usize].next;
        visit(nodes, dues, cur, t, out);
        cur = next;
    }
}

/// Takes the id if its due tick is at most `t`.
fn visit(nodes: &mut [Node], dues: &mut [u64], id: u32, t: u64, out: &mut Ids)
    requires linked { IsLinked id dues.old nodes.old }
    requires t { t < never }
    requires room { waiting t dues.old ≤ out.old.spare }
    ensures dues_kept { t < slice_index dues.old id → dues.new ≡ dues.old }
    ensures nodes_kept { t < slice_index dues.old id → nodes.new ≡ nodes.old }
    ensures gone { slice_index dues.old id ≤ t → dues.new ≡ slice_set dues.old id never }
    ensures links { slice_index dues.old id ≤ t
        → Unlinks id (next_in nodes.old) (prev_in nodes.old) (next_in nodes.new) (prev_in nodes.new) }
    ensures took { Took t dues.old dues.new out.old.items out.new.items }
    ensures room { room_of out.new ≡ room_of out.old }
    ensures spare { waiting t dues.new ≤ out.new.spare }
{
    if dues[id as usize] <= t {
        detach(nodes, dues, id);
        out.push(id);
    }
}

/// Finds what has come by the list of due ticks, where `t` is above `now`, and takes it off the lists.
fn jump(nodes: &mut [Node], dues: &mut [u64], now: u64, t: u64, out: &mut Ids) -> u64
    requires wheel { IsWheel (length dues.old) now dues.old nodes.old }
    requires later { now ≤ t }
    requires t { t < 2 ^ 60 }
    requires room { length dues.old ≤ out.old.spare }
    ensures wheel { IsWheel (length dues.old) result dues.new nodes.new }
    ensures now { result ≡ max now t }
    ensures items { out.new.items ≡ out.old.items ++ come t (map due_of dues.old) }
    ensures room { room_of out.new ≡ room_of out.old }
    ensures dues { map due_of dues.new ≡ map (without t) (map due_of dues.old) }
{
    let from = out.items().len();
    due_ids(dues, t, out);
    detach_all(nodes, dues, now, t, &out.items()[from..]);
    t
}

/// Takes the ids, which are those that have come by `t`, off their lists.
fn detach_all(nodes: &mut [Node], dues: &mut [u64], now: u64, t: u64, ids: &[u32])
    requires wheel { IsWheel (length dues.old) now dues.old nodes.old }
    requires t { t < never }
    requires ids { (x : ℕ) → times x ids.now ≡ counts_due t dues.old x }
    ensures wheel { IsWheel (length dues.old) now dues.new nodes.new }
    ensures left { (x : ℕ) → counts_due t dues.new x ≡ 0 }
    ensures same_or_gone { (j : ℕ) → (slice_index dues.new j ≡ slice_index dues.old j)
        ⊎ ((slice_index dues.new j ≡ never) × (slice_index dues.old j ≤ t)) }
{
    for id in ids {
        detach(nodes, dues, *id);
    }
}
