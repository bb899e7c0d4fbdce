//! A watch that is full.

use crate::engine::configs_of;
use bfd_num::Tick;
use bfd_shard::{Entry, ShardEvent};
use bfd_watch::{Change, Watch, WatchFault};
use bfd_wheel::PlainTimers;
use std::alloc::Global;

/// Gives the watch an entry of a tick, where it may be given it.
fn take(
    watch: &mut Watch<PlainTimers>,
    number: u64,
    changes: &mut Vec<Change>,
) -> Option<Result<(), WatchFault>> {
    let event = ShardEvent::Tick(Tick::new(number)?);
    let entry = Entry { caller: 0, event };
    if !watch.takes(&entry) {
        return None;
    }
    Some(watch.take(entry, changes))
}

/// Whether a watch with the limit 1 accepts one entry, and refuses the second.
fn fills(alloc: Global) -> Option<bool> {
    let mut watch = Watch::make(alloc, configs_of(alloc, 0).ok()?, 1).ok()?;
    let mut changes = Vec::new(alloc);
    let first = take(&mut watch, 1, &mut changes)?;
    let second = take(&mut watch, 2, &mut changes)?;
    Some(first == Ok(()) && second == Err(WatchFault::Full(1)) && watch.taken() == 1)
}

#[test]
fn full(rt: HostRuntime) {
    assert!(rt; fills(rt.alloc()) == Some(true));
}
