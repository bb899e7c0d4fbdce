//! Making shards: one after another, or in parallel.
ghost use Rattle.std.specs.Prelude.{◌≡◌, ◌≤◌, ◌<◌, ℕ, IfOk, length, slice_index_or};
ghost use Rattle.bfd_session.specs.Rows.{AreFit};
ghost use Rattle.bfd_shard.specs.Dealing.{share};
ghost use Rattle.bfd_engine.specs.Opening.{AreNewStates, IsNewState, MayOpen};

use crate::beside::{all_there, each};
use bfd_session::SessionConfig;
use bfd_shard::ShardState;
use bfd_wheel::Timers;
use std::alloc::{AllocError, Global};
use std::thread::Threads;

/// New shards of these sessions by number, made one after another.
pub(crate) fn make_in_turn<W: Timers>(
    alloc: Global,
    configs: &[SessionConfig],
    shards: u32,
) -> Result<Vec<ShardState<W>>, AllocError>
    requires shards { shards ≤ 64 }
    requires sessions { MayOpen configs.now }
    ensures { IfOk result (λ states. AreNewStates shards configs.now states.items) }
{
    let count = shards as usize;
    let mut states = Vec::with_capacity(alloc, count)?;
    for shard in 0..count {
        let state = ShardState::make_share(alloc, configs, count, shard, 0)?;
        states.push(state)?;
    }
    Ok(states)
}

/// The numbers below this one, in order.
fn numbers_below(alloc: Global, count: usize) -> Result<Vec<usize>, AllocError>
    ensures long { IfOk result (λ all. length all.items ≡ count) }
    ensures each { IfOk result (λ all. (k d : ℕ) → k < count → slice_index_or all.items k d ≡ k) }
{
    let mut all = Vec::with_capacity(alloc, count)?;
    for number in 0..count {
        all.push(number)?;
    }
    Ok(all)
}

/// New shards of these sessions by number, all but the last made in a thread of its own if one is available: session k of the list lives in
/// shard k % shards, at place k / shards; all stand at the start, and no journal accepts an entry yet. Fails only when out of memory.
pub fn make_shards<W: Timers + Send, R: Threads + Sync>(
    rt: &R,
    alloc: Global,
    configs: &[SessionConfig],
    shards: u32,
) -> Result<Vec<ShardState<W>>, AllocError>
    requires shards { (0 < shards) × (shards ≤ 64) }
    requires few { length configs.now ≤ 65536 }
    requires fit { AreFit configs.now }
    ensures { IfOk result (λ states. AreNewStates shards configs.now states.items) }
{
    let count = shards as usize;
    let numbers = numbers_below(alloc, count)?;
    let made = each(
        rt,
        alloc,
        numbers,
        &|shard: usize| -> Result<ShardState<W>, AllocError>
            requires { MayOpen configs.now × (shard < count) × (count ≤ 64) }
            ensures { IfOk result (IsNewState (share count shard configs.entry.now)) }
        { ShardState::make_share(alloc, configs, count, shard, 0) },
    )?;
    all_there(alloc, made)
}
