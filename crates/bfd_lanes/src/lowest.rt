//! The least due tick.
ghost use Rattle.std.specs.Prelude.{◌≡◌, ◌+◌, ◌≤◌, ◌<◌, ◌^◌, min, map, length, drop, take, EachIndex, slice_index};
ghost use Rattle.bfd_lanes.specs.Places.{due_of, least, lowest};
ghost use Rattle.bfd_lanes.specs.Places as places;

use crate::NEVER;
use crate::block::LANES;
use std::simd::prelude::*;

/// The least due tick, eight numbers at a time: None if and only if every number is `NEVER`.
#[tactic(auto, using(crate::proofs::Lower::least_is))]
pub fn least_due(dues: &[u64]) -> Option<u64>
    ensures { result ≡ least (map due_of dues.now) }
{
    due_of(lowest_of(dues))
}

/// The due tick that a number stands for: None exactly for `NEVER`.
pub fn due_of(number: u64) -> Option<u64>
    ensures { result ≡ places.due_of number }
{
    if number == NEVER { None } else { Some(number) }
}

/// The lowest number, and `NEVER` where there is none.
#[tactic(auto, using(crate::proofs::Lower::from_never))]
fn lowest_of(dues: &[u64]) -> u64
    ensures { result ≡ lowest dues.now }
{
    let mut lanes = u64x8::splat(NEVER);
    let blocks = dues.len() / LANES;
    for block in 0..blocks {
        lanes = lower_lanes(lanes, dues, LANES * block);
    }
    lower(lower(NEVER, &lanes.to_array()), &dues[LANES * blocks..])
}

/// In each lane the lower of what it has and of what the block at `at` has there.
#[tactic(auto, using(crate::proofs::Lower::taken_in, crate::proofs::Lower::lanes_stay))]
fn lower_lanes(lanes: u64x8, dues: &[u64], at: usize) -> u64x8
    requires block { at + 8 ≤ length dues.now }
    requires width { length lanes ≡ 8 }
    ensures value { min (lowest result) (lowest (drop (at + 8) dues.now))
        ≡ min (lowest lanes) (lowest (drop at dues.now)) }
    ensures width { length result ≡ 8 }
{
    lanes.simd_min(u64x8::from_slice(&dues[at..]))
}

/// The lowest of `low` and of the numbers, one by one.
fn lower(low: u64, dues: &[u64]) -> u64
    ensures { result ≡ min low (lowest dues.now) }
{
    let mut low = low;
    for due in dues {
        low = low.min(*due);
    }
    low
}
