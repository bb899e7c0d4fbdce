//! The lowest due tick, kept from call to call.
ghost use Rattle.std.specs.Prelude.{◌≡◌, ◌≢◌, ℕ, ◌<◌, ◌≤◌, List, map, length, slice_index, slice_set, true, false, IfSome};
ghost use Rattle.bfd_lanes.specs.Places.{never, lowest, least, without};
ghost use Rattle.bfd_lanes.specs.Places as places;
ghost use Rattle.bfd_wheel.specs.Wheel.{next_in};
ghost use Rattle.bfd_levels.specs.Lists.{IsLevels};

use crate::place::{OVERDUE, head_at, head_of};
use bfd_lanes::{NEVER, least_due};
use bfd_wheel::Node;

/// Whether the list of the head is empty.
#[tactic(auto, unfolding(bfd_wheel::specs::Wheel::next_in))]
fn is_empty(nodes: &[Node], head: u32) -> bool
    requires { head < length nodes.now }
    ensures empty { result ≡ true → next_in nodes.now head ≡ head }
    ensures some { result ≡ false → next_in nodes.now head ≢ head }
{
    nodes[head as usize].next == head
}

/// The lowest of the numbers, by a look at each, eight at a time.
pub(crate) fn lowest_of(dues: &[u64]) -> u64
    ensures { result ≡ lowest dues.now }
{
    match least_due(dues) {
        Some(due) => due,
        None => NEVER,
    }
}

/// Whether the id that came first to the list of the due tick, of those that are on it, is due then.
#[tactic(auto, using(crate::proofs::Firsts::lowest_under))]
fn is_held(nodes: &[Node], dues: &[u64], now: u64, due: u64) -> bool
    requires { IsLevels (length dues.now) now dues.now nodes.now }
    ensures { result ≡ true → lowest dues.now ≤ due }
{
    let head = head_of(dues.len() as u32, now, due);
    let last = nodes[head as usize].prev as usize;
    last < dues.len() && dues[last] == due
}

/// The lowest of the numbers, of which none is below `from`, by the first list of level 0 that isn't empty. None where
/// level 0 has none, and where something is overdue.
fn first_near(nodes: &[Node], dues: &[u64], now: u64, from: u64) -> Option<u64>
    requires { IsLevels (length dues.now) now dues.now nodes.now }
    ensures { from ≤ lowest dues.now → IfSome result (λ due. due ≡ lowest dues.now) }
{
    let count = dues.len() as u32;
    if !is_empty(nodes, head_at(count, now, OVERDUE)) {
        return None;
    }
    for tick in from.max(now + 1)..(now / 256 + 1) * 256 {
        if !is_empty(nodes, head_at(count, tick, 0)) {
            return Some(tick);
        }
    }
    None
}

/// The lowest of the numbers, of which none is below `from`: `from` itself, if it is found to be still present, or else by
/// the lists of level 0, or else by a look at each number.
fn first_due(nodes: &[Node], dues: &[u64], now: u64, from: u64) -> u64
    requires { IsLevels (length dues.now) now dues.now nodes.now }
    ensures { from ≤ lowest dues.now → result ≡ lowest dues.now }
{
    if is_held(nodes, dues, now, from) {
        return from;
    }
    match first_near(nodes, dues, now, from) {
        Some(due) => due,
        None => lowest_of(dues),
    }
}

/// The lowest number, which was `soonest`, once `number` was written in place of `before`. It is searched only where
/// `before` was the lowest and a later one came.
pub(crate) fn after_write(
    nodes: &[Node],
    dues: &[u64],
    now: u64,
    soonest: u64,
    before: u64,
    number: u64,
) -> u64
    requires { IsLevels (length dues.now) now dues.now nodes.now }
    ensures { (was : List ℕ) (id : ℕ) → soonest ≡ lowest was → id < length was → before ≡ slice_index was id
        → dues.now ≡ slice_set was id number → result ≡ lowest dues.now }
{
    if number <= soonest {
        number
    } else if before != soonest {
        soonest
    } else {
        first_due(nodes, dues, now, soonest)
    }
}

/// The lowest number, which was `soonest`, once all that had come by `t` was taken. It is searched only where something
/// had.
pub(crate) fn after_advance(nodes: &[Node], dues: &[u64], now: u64, soonest: u64, t: u64) -> u64
    requires levels { IsLevels (length dues.now) now dues.now nodes.now }
    requires t { t < never }
    ensures { (was : List ℕ) → soonest ≡ lowest was → map places.due_of dues.now ≡ map (without t) (map places.due_of was)
        → result ≡ lowest dues.now }
{
    if t < soonest {
        soonest
    } else {
        first_due(nodes, dues, now, soonest)
    }
}

/// The due tick that the lowest number stands for is the least.
#[tactic(auto, using(bfd_lanes::proofs::Lower::least_is))]
pub(crate) fn least_of(dues: &[u64], soonest: u64) -> Option<u64>
    requires { soonest ≡ lowest dues.now }
    ensures { result ≡ least (map places.due_of dues.now) }
{
    bfd_lanes::due_of(soonest)
}
