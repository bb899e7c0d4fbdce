//! A daemon in small: a packet thread and a timer thread share an engine, which is closed when both have ended.

use crate::eight::packet;
use crate::embedding::{Call, Saw, add_job, at_once, finish};
use crate::engine::opened;
use bfd_num::{Moment, Tick};
use bfd_session::Answer;
use bfd_shard::ShardState;
use bfd_wheel::PlainTimers;
use std::alloc::Global;
use std::sync::Wait;
use std::thread::Threads;

/// A packet thread's calls, the last first: a packet for session 1, and one for session 2.
fn packet_calls(alloc: Global) -> Option<Vec<Call>> {
    let mut list = Vec::new(alloc);
    for discr in [2, 1] {
        let moment = Moment::new(1_500)?;
        let arrival = packet(alloc, 0x4000, discr).ok()?;
        list.push(Call::Packet(moment, arrival)).ok()?;
    }
    Some(list)
}

/// A timer thread's calls, the last first: the ticks 1 to 3 of every shard.
fn timer_calls(alloc: Global, shards: u32) -> Option<Vec<Call>> {
    let mut list = Vec::new(alloc);
    for count in 0..3 {
        for shard in 0..shards {
            list.push(Call::Advance(shard, Tick::new(3 - count)?)).ok()?;
        }
    }
    Some(list)
}

/// Both threads in parallel: the shards as they leave them, and what each saw.
#[tactic(auto, using(crate::proofs::Rooms::room_enough))]
fn daemon<R: Threads + Wait + Sync>(
    rt: &R,
    alloc: Global,
) -> Option<(Vec<ShardState<PlainTimers>>, Vec<Vec<Saw>>)> {
    let (engine, mut first) = opened(alloc, 100)?;
    let mut jobs = Vec::new(alloc);
    let calls = packet_calls(alloc)?;
    add_job(alloc, &engine, &mut first, &mut jobs, calls, 25).ok()?;
    let calls = timer_calls(alloc, engine.shards())?;
    add_job(alloc, &engine, &mut first, &mut jobs, calls, 25).ok()?;
    at_once(rt, alloc, &engine, jobs.as_mut_slice());
    finish(alloc, engine, first, jobs).ok()
}

/// Whether the thread made so many calls, and each had this answer.
fn saw(seen: &[Saw], calls: usize, answer: Answer) -> bool {
    for one in seen {
        if one.answer != Ok(answer) {
            return false;
        }
    }
    seen.len() == calls
}

#[test]
fn a_packet_thread_and_a_timer_thread(rt: HostRuntime) {
    let Some((shards, saws)) = daemon(&rt, rt.alloc()) else {
        assert!(rt; false, "no memory");
        return;
    };
    for (shard, entries) in shards.iter().zip([4, 4, 3]) {
        assert!(rt; shard.journal().len() == entries && shard.last().get() == 3);
    }
    for (seen, (calls, answer)) in saws.iter().zip([(2, Answer::Handled), (9, Answer::Ticked)]) {
        assert!(rt; saw(seen.as_slice(), calls, answer));
    }
}
