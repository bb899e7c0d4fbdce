//! All ids relinked, by the list of their due ticks: when an id is added or removed, those above it get other numbers.
ghost use Rattle.std.specs.Prelude.{◌≡◌, ◌+◌, ◌^◌, ◌<◌, ◌≤◌, map, length, IfSome, OnErr, OnOk};
ghost use Rattle.std.specs.List.{insert, remove};
ghost use Rattle.bfd_lanes.specs.Places.{due_of};
ghost use Rattle.bfd_wheel.specs.Wheel.{IsWheel, first_dues};

use crate::links::{Node, link, loops_again};
use crate::list::{insert_due, remove_due};
use crate::place::{HEADS, head_of};
use bfd_lanes::NEVER;
use std::alloc::AllocError;

/// Puts the next id on the list of its due tick, if it has one. Only ids below it are on a list.
fn put_next(nodes: &mut [Node], dues: &[u64], now: u64, id: u32)
    requires id { id < length dues.now }
    requires wheel { IsWheel (length dues.now) now (first_dues dues.now id) nodes.old }
    ensures { IsWheel (length dues.now) now (first_dues dues.now (id + 1)) nodes.new }
{
    let due = dues[id as usize];
    if due != NEVER {
        let head = head_of(dues.len() as u32, now, due);
        link(nodes, id, head);
    }
}

/// Puts each id on the list of its due tick, if it has one. No id is on a list before.
fn put_all(nodes: &mut [Node], dues: &[u64], now: u64)
    requires { IsWheel (length dues.now) now (first_dues dues.now 0) nodes.old }
    ensures { IsWheel (length dues.now) now dues.now nodes.new }
{
    for id in 0..dues.len() as u32 {
        put_next(nodes, dues, now, id);
    }
}

/// Relinks every node: no link from before stays.
fn link_all(nodes: &mut Vec<Node>, dues: &[u64], now: u64)
    requires few { length dues.now ≤ 65536 }
    requires now { now < 2 ^ 60 }
    requires room { length dues.now + 4097 ≤ length nodes.old.items }
    ensures { IsWheel (length dues.now) now dues.now nodes.new.items }
{
    loops_again(nodes, dues.len() as u32 + HEADS);
    put_all(nodes, dues, now);
}

/// One more id, with this due tick, if any: `id` and those above it move up by one. Fails only when out of memory, and
/// then nothing has changed.
pub(crate) fn insert_id(
    nodes: &mut Vec<Node>,
    dues: &mut Vec<u64>,
    now: u64,
    id: u32,
    due: Option<u64>,
) -> Result<(), AllocError>
    requires id { id ≤ length dues.old.items }
    requires few { length dues.old.items < 65536 }
    requires due { IfSome due (λ t. t < 2 ^ 60) }
    requires wheel { IsWheel (length dues.old.items) now dues.old.items nodes.old.items }
    ensures wheel { IsWheel (length dues.new.items) now dues.new.items nodes.new.items }
    ensures dues { OnOk result (map due_of dues.new.items ≡ insert (map due_of dues.old.items) id due) }
    ensures same { OnErr result (dues.new.items ≡ dues.old.items) }
{
    nodes.reserve(1)?;
    insert_due(dues, id, due)?;
    nodes.push_reserved(Node { next: 0, prev: 0 });
    link_all(nodes, dues, now);
    Ok(())
}

/// The id leaves, and those above it move down by one. Allocates no memory.
pub(crate) fn remove_id(nodes: &mut Vec<Node>, dues: &mut Vec<u64>, now: u64, id: u32)
    requires id { id < length dues.old.items }
    requires wheel { IsWheel (length dues.old.items) now dues.old.items nodes.old.items }
    ensures wheel { IsWheel (length dues.new.items) now dues.new.items nodes.new.items }
    ensures dues { map due_of dues.new.items ≡ remove (map due_of dues.old.items) id }
{
    remove_due(dues, id);
    link_all(nodes, dues, now);
}
