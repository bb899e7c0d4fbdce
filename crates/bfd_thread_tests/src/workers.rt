//! A replay of many sessions, by one worker and by several.
ghost use Rattle.std.specs.Prelude.{◌<◌, ◌≤◌, IfSome};
ghost use Rattle.bfd_script.specs.Sound.{IsScript};

use bfd_edge::{MemSink, OpenGate};
use bfd_load::generate;
use bfd_replay::{Replayed, replay_to};
use bfd_script::Script;
use bfd_wheel::HashedWheel;
use std::alloc::Global;
use std::sync::Wait;
use std::thread::Threads;

/// The script of 200 sessions over 2,000 ticks.
fn script(alloc: Global) -> Option<Script>
    ensures { IfSome result IsScript }
{
    generate(alloc, 200, 2000, 1).ok()
}

/// Its report, on so many shards by so many workers.
fn many<R: Threads + Wait + Sync>(
    rt: &R,
    alloc: Global,
    shards: u32,
    workers: u32,
) -> Option<MemSink>
    requires shards { (0 < shards) × (shards ≤ 64) }
    requires workers { (0 < workers) × (workers ≤ 64) }
{
    let script = script(alloc)?;
    let mut sink = MemSink::make(alloc, 65536, Vec::new(alloc));
    let _replayed: Replayed<HashedWheel> = replay_to(
        rt, alloc, script, shards, workers, &OpenGate, &mut sink,
    ).ok()?;
    Some(sink)
}

/// Whether both reports are present and are the same, and have more than this many bytes.
fn are_same(one: Option<MemSink>, other: Option<MemSink>, least: usize) -> bool {
    match (one, other) {
        (Some(one), Some(other)) => {
            one.as_slice() == other.as_slice() && least < one.as_slice().len()
        }
        _ => false,
    }
}

#[test]
fn many_sessions(rt: HostRuntime) {
    let alone = many(&rt, rt.alloc(), 1, 1);
    let by_one = many(&rt, rt.alloc(), 7, 1);
    let by_five = many(&rt, rt.alloc(), 7, 5);
    let again = many(&rt, rt.alloc(), 1, 1);
    assert!(rt; are_same(alone, by_one, 10_000));
    assert!(rt; are_same(again, by_five, 10_000));
}
