//! The parts' pieces, cut in two at a place of the report.
ghost use Rattle.std.specs.Prelude.{IfOk};
ghost use Rattle.bfd_replay.specs.Cutting.{AreHalved};

use crate::report::rest::Rest;
use std::alloc::{AllocError, Global};

/// The rank of the key of a piece in the middle of the longest text, or 0 where there is none. It is a guess: the two halves may have any
/// sizes.
pub(crate) fn middle_of(rests: &Vec<Rest>) -> u64 {
    let mut most = 0;
    let mut longest = 0;
    for s in 0..rests.len() {
        if most < rests[s].left() {
            most = rests[s].left();
            longest = s;
        }
    }
    match rests.get(longest) {
        Some(rest) => rest.middle(),
        None => 0,
    }
}

/// The pieces of each part up to the first one whose rank is this or above, and those from there on. Fails only when out of memory.
pub(crate) fn cut_all<'a>(
    alloc: Global,
    rests: &Vec<Rest<'a>>,
    rank: u64,
) -> Result<(Vec<Rest<'a>>, Vec<Rest<'a>>), AllocError>
    ensures { IfOk result (λ r. AreHalved rank rests.now.items r.0.items r.1.items) }
{
    let mut fronts = Vec::with_capacity(alloc, rests.len())?;
    let mut backs = Vec::with_capacity(alloc, rests.len())?;
    for s in 0..rests.len() {
        let (front, back) = rests[s].cut(rank);
        fronts.push(front)?;
        backs.push(back)?;
    }
    Ok((fronts, backs))
}
