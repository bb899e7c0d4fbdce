//! The places that have come.
ghost use Rattle.std.specs.Prelude.{◌≡◌, ◌+◌, ◌*◌, ◌^◌, ◌<◌, ◌≤◌, ◌++◌, map, length, drop};
ghost use Rattle.bfd_num.specs.Due.{has_come};
ghost use Rattle.bfd_lanes.specs.Places.{never, due_of, places, come};
ghost use Rattle.bfd_lanes.specs.Held.{room_of};

use crate::block::{LANES, none_come};
use crate::list::Ids;

/// Appends the ascending places whose number is at most `t`, eight numbers at a time.
pub fn due_ids(dues: &[u64], t: u64, out: &mut Ids)
    requires tick { t < never }
    requires room { length dues.now ≤ out.old.spare }
    requires count { length dues.now < 2 ^ 32 }
    ensures items { out.new.items ≡ out.old.items ++ come t (map due_of dues.now) }
    ensures room { room_of out.new ≡ room_of out.old }
{
    let blocks = dues.len() / LANES;
    for block in 0..blocks {
        scan_block(dues, LANES * block, t, out);
    }
    scan(dues, LANES * blocks, dues.len(), t, out);
}

/// Appends the places of one block that have come, and skips the whole block where none has.
#[tactic(auto, using(crate::proofs::Scanned::none_in_block))]
fn scan_block(dues: &[u64], at: usize, t: u64, out: &mut Ids)
    requires block { at + 8 ≤ length dues.now }
    requires tick { t < never }
    requires room { 8 ≤ out.old.spare }
    requires count { length dues.now < 2 ^ 32 }
    ensures items { out.new.items ++ places (has_come t) (at + 8) (map due_of (drop (at + 8) dues.now))
        ≡ out.old.items ++ places (has_come t) at (map due_of (drop at dues.now)) }
    ensures room { room_of out.new ≡ room_of out.old }
    ensures spare { out.old.spare ≤ out.new.spare + 8 }
{
    if !none_come(dues, at, t) {
        scan(dues, at, at + LANES, t, out);
    }
}

/// Appends the places from `from` up to `to` that have come, one by one.
#[tactic(auto, using(crate::proofs::Scanned::due_rest))]
fn scan(dues: &[u64], from: usize, to: usize, t: u64, out: &mut Ids)
    requires order { from ≤ to }
    requires end { to ≤ length dues.now }
    requires tick { t < never }
    requires room { to ≤ out.old.spare + from }
    requires count { length dues.now < 2 ^ 32 }
    ensures items { out.new.items ++ places (has_come t) to (map due_of (drop to dues.now))
        ≡ out.old.items ++ places (has_come t) from (map due_of (drop from dues.now)) }
    ensures room { room_of out.new ≡ room_of out.old }
    ensures spare { out.old.spare + from ≤ out.new.spare + to }
{
    for at in from..to {
        if dues[at] <= t {
            out.push(at as u32);
        }
    }
}
