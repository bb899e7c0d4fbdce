//! Eight threads on three shards, compared with the journals that they leave.
ghost use Rattle.std.specs.Prelude.{◌≡◌, ◌<◌, [], IfSome, length, map};
ghost use Rattle.std.specs.List.{All};
ghost use Rattle.bfd_thread_tests.specs.Joining.{HasOpen};
ghost use Rattle.bfd_thread_tests.specs.Ready.{IsJobReady, number_of};
ghost use Rattle.bfd_num.specs.Counting.{IsBlankOf};

use crate::embedding::{Call, Job, Saw, add_job, at_once, finish};
use crate::engine::{Plain, fresh, opened, play};
use bfd_engine::EnginePass;
use bfd_num::{Moment, Steps, Tick, next_j};
use bfd_packet::{Addr, Arrival, Payload, Port};
use bfd_rules::{Cmd, Out, Outs};
use bfd_session::Answer;
use bfd_shard::{Entry, ShardState};
use bfd_wheel::PlainTimers;
use std::alloc::{AllocError, Global};
use std::marker::Brand;
use std::sync::Wait;
use std::sync::ledger::{Blank, Ledger};
use std::thread::Threads;

/// A packet for the session with this discriminator: a state, flags and numbers that are drawn.
pub(crate) fn packet(alloc: Global, j: u32, discr: u32) -> Result<Arrival, AllocError> {
    let mut bytes = [0; 24];
    bytes[0] = 0x20;
    bytes[1] = (j >> 8 & 0xf0) as u8;
    bytes[2] = 3;
    bytes[3] = 24;
    bytes[7] = 9;
    bytes[11] = (discr & 0xff) as u8;
    bytes[14] = (j >> 18 & 0x0f) as u8;
    bytes[18] = (j >> 22 & 0x03) as u8;
    bytes[19] = (j >> 24 & 0xff) as u8;
    let payload = Payload::keep(alloc, &bytes)?;
    Ok(Arrival {
        port: Port::Single,
        iface: discr,
        src: Addr::V4(0x0a00_0002),
        sport: 49152,
        dst: Addr::V4(0x0a00_0001),
        ttl: 255,
        payload,
    })
}

/// A drawn call near this moment, in microseconds: a packet or a command for a session, or a tick of its shard, some of them back.
fn drawn(alloc: Global, j: u32, now: u64) -> Option<Call> {
    let discr = 1 + (j >> 20 & 3);
    let number = u64::from(j >> 4 & 0xffff);
    let near = now.saturating_add(number);
    let moment = Moment::new(near)?;
    match j >> 28 {
        0..=6 => Some(Call::Packet(moment, packet(alloc, j, discr).ok()?)),
        7 => Some(Call::Command(moment, discr, Cmd::Disable)),
        8..=9 => Some(Call::Command(moment, discr, Cmd::Enable)),
        10 => Some(Call::Command(moment, discr, Cmd::Tx(10_000 + number))),
        _ => Some(Call::Advance(discr - 1, Tick::new(near / 1000)?)),
    }
}

/// So many drawn calls.
pub(crate) fn calls(alloc: Global, seed: u32) -> Option<Vec<Call>> {
    let mut list = Vec::new(alloc);
    let mut j = seed;
    for count in 0u64..500 {
        j = next_j(j);
        list.push(drawn(alloc, j, (500 - count) * 10_000)?).ok()?;
    }
    Some(list)
}

/// The shard that a call is of.
fn shard_of(call: &Call) -> u32 {
    match call {
        Call::Packet(_, arrival) => arrival.iface.wrapping_sub(1) % 3,
        Call::Command(_, discr, _) => discr.wrapping_sub(1) % 3,
        Call::Advance(shard, _) => shard % 3,
    }
}

/// The shards of the calls, the last first, as they are made.
fn shards_of(alloc: Global, calls: &[Call]) -> Result<Vec<u32>, AllocError> {
    let mut list = Vec::new(alloc);
    for call in calls.iter().rev() {
        list.push(shard_of(call))?;
    }
    Ok(list)
}

/// The shards of each job's calls.
fn shards_of_each(alloc: Global, jobs: &[Job]) -> Result<Vec<Vec<u32>>, AllocError> {
    let mut list = Vec::new(alloc);
    for job in jobs {
        list.push(shards_of(alloc, job.calls.as_slice())?)?;
    }
    Ok(list)
}

/// What a thread saw, the shard of each of its calls, and how many of them were looked at.
#[derive(Drop)]
struct Sight {
    saw: Vec<Saw>,
    shards: Vec<u32>,
    at: usize,
}

/// What the threads saw, alongside the shards of their calls.
fn sights(alloc: Global, saws: Vec<Vec<Saw>>, shards: Vec<Vec<u32>>) -> Option<Vec<Sight>> {
    let mut shards = shards;
    let mut list = Vec::new(alloc);
    for saw in saws.into_iter().rev() {
        let shards = shards.pop()?;
        list.push(Sight { saw, shards, at: 0 }).ok()?;
    }
    list.reverse();
    Some(list)
}

/// The two outputs are the same.
fn same_out(a: &Out, b: &Out) -> bool {
    match a {
        Out::Changed {
            discr,
            old,
            new,
            diag,
        } => match b {
            Out::Changed {
                discr: discr2,
                old: old2,
                new: new2,
                diag: diag2,
            } => *discr == *discr2 && *old == *old2 && *new == *new2 && *diag == *diag2,
            Out::Sent { .. } => false,
        },
        Out::Sent { discr, datagram } => match b {
            Out::Sent {
                discr: discr2,
                datagram: datagram2,
            } => *discr == *discr2 && datagram.bytes.as_slice() == datagram2.bytes.as_slice(),
            Out::Changed { .. } => false,
        },
    }
}

/// The outputs are the same, in their order.
fn same_outs(a: &[Out], b: &[Out]) -> bool {
    if a.len() != b.len() {
        return false;
    }
    for i in 0..a.len() {
        if !same_out(&a[i], &b[i]) {
            return false;
        }
    }
    true
}

/// The place of the next call of this shard that wasn't looked at; or how many calls there are.
fn next_of(sight: &Sight, shard: u32) -> usize {
    for i in sight.at..sight.shards.len() {
        if sight.shards[i] == shard {
            return i;
        }
    }
    sight.shards.len()
}

/// Whether the thread saw this at its next call of the shard, which was then looked at.
fn saw(sight: &mut Sight, shard: u32, answer: Answer, outs: &[Out]) -> bool {
    let next = next_of(sight, shard);
    sight.at = next.saturating_add(1);
    match sight.saw.get(next) {
        Some(seen) => seen.answer == Ok(answer) && same_outs(seen.outs.items(), outs),
        None => false,
    }
}

/// Eight jobs.
#[tactic(auto, using(crate::proofs::Rooms::room_enough))]
fn jobs(alloc: Global, engine: &Plain, first: &mut EnginePass) -> Option<Vec<Job>>
    requires passes { HasOpen engine.now first.old [] }
    requires used { first.old.2 ≡ 0 }
    requires configs { length engine.now.configs ≡ 4 }
    ensures passes { IfSome result (λ list. HasOpen engine.now first.new (map number_of list.items)) }
    ensures ready { IfSome result (λ list. All (λ (j : _). IsJobReady engine.now j) list.items) }
{
    let mut list = Vec::new(alloc);
    for number in 0..8 {
        let calls = calls(alloc, number)?;
        add_job(alloc, engine, first, &mut list, calls, 25).ok()?;
    }
    Some(list)
}

/// Does an entry of a shard's journal again. Gives whether its caller saw what it gave.
fn again<L: Ledger>(
    alloc: Global,
    state: &mut ShardState<PlainTimers>,
    entry: &Entry,
    shard: u32,
    sights: &mut [Sight],
    outs: &mut Outs,
    steps: &mut Steps<L>,
) -> Option<bool> {
    let place = (entry.caller as usize).checked_sub(1)?;
    let answer = play(state, entry.copy(alloc).ok()?, outs, steps)?;
    let sight = sights.get_mut(place)?;
    Some(saw(sight, shard, answer, outs.items()))
}

/// Whether all calls of a shard were looked at. The next look is at the first call.
fn over(sights: &mut [Sight], shard: u32) -> bool {
    for sight in sights {
        if next_of(sight, shard) != sight.shards.len() {
            return false;
        }
        sight.at = 0;
    }
    true
}

/// Holds each entry of a closed shard's journal, on one thread, against what its caller saw. Gives how many there are; None where one
/// differs or a caller saw more, or when out of memory.
fn beside_journal<L: Ledger>(
    alloc: Global,
    journal: &[Entry],
    shard: u32,
    sights: &mut [Sight],
    steps: &mut Steps<L>,
) -> Option<usize> {
    let mut state = fresh(alloc, shard).ok()?;
    let mut outs = Outs::make(alloc, 25).ok()?;
    for entry in journal {
        if !again(alloc, &mut state, entry, shard, sights, &mut outs, steps)? {
            return None;
        }
    }
    if over(sights, shard) {
        Some(journal.len())
    } else {
        None
    }
}

/// The same for each shard. Gives how many entries there are.
fn beside_journals<L: Ledger>(
    alloc: Global,
    shards: &[ShardState<PlainTimers>],
    sights: &mut [Sight],
    blank: Blank,
) -> Option<usize>
    requires blank { IsBlankOf L.name L.parts blank.name blank.parts }
{
    let mut steps = Steps::<L>::new(blank);
    let mut count = 0usize;
    for (state, shard) in shards.iter().zip(0u32..64) {
        let more = beside_journal(alloc, state.journal(), shard, sights, &mut steps)?;
        count = count.checked_add(more)?;
    }
    Some(count)
}

/// The same with a counter of its own.
fn beside(alloc: Global, shards: &[ShardState<PlainTimers>], sights: Vec<Sight>) -> Option<usize> {
    let mut sights = sights;
    beside_journals::<Brand>(alloc, shards, sights.as_mut_slice(), Blank::new(1))
}

/// Eight threads make their calls; their passes are joined, and the engine is closed. Gives how many entries the shards have.
fn eight<R: Threads + Wait + Sync>(rt: &R, alloc: Global) -> Option<usize> {
    let (engine, mut first) = opened(alloc, 100_000)?;
    let mut jobs = jobs(alloc, &engine, &mut first)?;
    let shards = shards_of_each(alloc, jobs.as_slice()).ok()?;
    at_once(rt, alloc, &engine, jobs.as_mut_slice());
    let (states, saws) = finish(alloc, engine, first, jobs).ok()?;
    beside(alloc, states.as_slice(), sights(alloc, saws, shards)?)
}

#[test]
fn eight_threads(rt: HostRuntime) {
    assert!(rt; eight(&rt, rt.alloc()) == Some(4000));
}
