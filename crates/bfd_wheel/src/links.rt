//! Nodes that are linked to both neighbours by indices.
ghost use Rattle.std.specs.Prelude.{◌≡◌, ◌≢◌, ℕ, ◌^◌, ◌<◌, ◌≤◌, length, IfOk};
ghost use Rattle.bfd_wheel.specs.Rings.{Links, Unlinks};
ghost use Rattle.bfd_wheel.specs.Wheel.{next_in, prev_in};

use std::alloc::{AllocError, Global};

/// The indices of a node's neighbours.
#[derive(Clone, Copy)]
pub struct Node {
    /// The node behind this one.
    pub next: u32,
    /// The node before this one.
    pub prev: u32,
}

/// Links the neighbours of the node `id` to each other.
#[tactic(auto, unfolding(crate::specs::Wheel::next_in, crate::specs::Wheel::prev_in))]
pub fn unlink(nodes: &mut [Node], id: u32)
    requires node { id < length nodes.old }
    requires next { next_in nodes.old id < length nodes.old }
    requires prev { prev_in nodes.old id < length nodes.old }
    ensures { Unlinks id (next_in nodes.old) (prev_in nodes.old) (next_in nodes.new) (prev_in nodes.new) }
{
    let Node { next, prev } = nodes[id as usize];
    nodes[prev as usize].next = next;
    nodes[next as usize].prev = prev;
}

/// Puts the node `id` between `head` and the node that was first behind it.
#[tactic(auto, unfolding(crate::specs::Wheel::next_in, crate::specs::Wheel::prev_in))]
pub fn link(nodes: &mut [Node], id: u32, head: u32)
    requires node { id < length nodes.old }
    requires head { head < length nodes.old }
    requires next { next_in nodes.old head < length nodes.old }
    requires other { head ≢ id }
    requires apart { next_in nodes.old head ≢ id }
    ensures { Links id head (next_in nodes.old) (prev_in nodes.old) (next_in nodes.new) (prev_in nodes.new) }
{
    let first = nodes[head as usize].next;
    nodes[id as usize] = Node {
        next: first,
        prev: head,
    };
    nodes[first as usize].prev = id;
    nodes[head as usize].next = id;
}

/// Links each of the first `count` nodes to itself, and drops the others.
#[tactic(auto, unfolding(crate::specs::Wheel::next_in, crate::specs::Wheel::prev_in))]
pub fn loops_again(nodes: &mut Vec<Node>, count: u32)
    requires { count ≤ length nodes.old.items }
    ensures size { length nodes.new.items ≡ count }
    ensures next { (j : ℕ) → j < count → next_in nodes.new.items j ≡ j }
    ensures prev { (j : ℕ) → j < count → prev_in nodes.new.items j ≡ j }
{
    nodes.truncate(count as usize);
    link_to_self(nodes);
}

/// Links each node to itself.
#[tactic(auto, unfolding(crate::specs::Wheel::next_in, crate::specs::Wheel::prev_in))]
fn link_to_self(nodes: &mut [Node])
    requires { length nodes.old ≤ 2 ^ 32 }
    ensures next { (j : ℕ) → j < length nodes.old → next_in nodes.new j ≡ j }
    ensures prev { (j : ℕ) → j < length nodes.old → prev_in nodes.new j ≡ j }
{
    for at in 0..nodes.len() {
        nodes[at] = Node {
            next: at as u32,
            prev: at as u32,
        };
    }
}

/// As many nodes, each linked to itself. Fails only when out of memory.
#[tactic(auto, unfolding(crate::specs::Wheel::next_in, crate::specs::Wheel::prev_in))]
pub fn loops(alloc: Global, count: u32) -> Result<Vec<Node>, AllocError>
    ensures size { IfOk result (λ nodes. length nodes.items ≡ count) }
    ensures next { IfOk result (λ nodes. (j : ℕ) → j < count → next_in nodes.items j ≡ j) }
    ensures prev { IfOk result (λ nodes. (j : ℕ) → j < count → prev_in nodes.items j ≡ j) }
{
    let mut nodes = Vec::with_capacity(alloc, count as usize)?;
    for at in 0..count {
        nodes.push(Node { next: at, prev: at })?;
    }
    Ok(nodes)
}
