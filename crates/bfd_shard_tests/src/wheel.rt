//! Tables of calls on every form of timers.
ghost use Rattle.std.specs.Prelude.{◌≡◌, ◌<◌, ◌≤◌, length};
ghost use Rattle.bfd_lanes.specs.Held.{room_of};
ghost use Rattle.bfd_num.specs.Counting.{IsBlankOf};

use bfd_lanes::Ids;
use bfd_levels::{ByCount, Levels};
use bfd_num::Steps;
use bfd_wheel::{HashedWheel, PlainTimers, Timers};
use std::alloc::Global;
use std::marker::Brand;
use std::process::Abort;
use std::sync::ledger::{Blank, Ledger};

/// One call: an id outside the timers and a due tick or a tick of 2^60 or more do nothing.
#[derive(Clone, Copy)]
enum Call {
    Set(u32, u64),
    Clear(u32),
    Advance(u64),
}

/// Makes the call; `out` then holds the ids that an advance took.
fn play<W: Timers, L: Ledger>(timers: &mut W, call: Call, out: &mut Ids, steps: &mut Steps<L>)
    requires count { length (W.dues timers.old) ≡ 17 }
    requires room { 17 ≤ room_of out.old }
    ensures count { length (W.dues timers.new) ≡ 17 }
    ensures room { room_of out.new ≡ room_of out.old }
{
    out.clear();
    match call {
        Call::Set(id, due) => {
            if id < 17 && due < 1 << 60 {
                timers.set(id, due, steps);
            }
        }
        Call::Clear(id) => {
            if id < 17 {
                timers.clear(id, steps);
            }
        }
        Call::Advance(t) => {
            if t < 1 << 60 {
                timers.advance(t, out);
            }
        }
    }
}

/// Seventeen ids whose due ticks fall, then three over the first turns of the hashed wheel, in jumps: which ids each call
/// takes, and which due tick is the least then.
fn in_jumps<W: Timers, L: Ledger, R: Abort>(rt: &R, mut timers: W, mut out: Ids, blank: Blank)
    requires count { length (W.dues timers) ≡ 17 }
    requires room { 17 ≤ room_of out }
    requires blank { IsBlankOf L.name L.parts blank.name blank.parts }
{
    let mut steps = Steps::<L>::new(blank);
    for id in 0..17 {
        play(
            &mut timers,
            Call::Set(id, 16 - id as u64),
            &mut out,
            &mut steps,
        );
    }
    let rows: [(Call, &[u32], Option<u64>); 14] = [
        (Call::Advance(7), &[9, 10, 11, 12, 13, 14, 15, 16], Some(8)),
        (Call::Advance(16), &[0, 1, 2, 3, 4, 5, 6, 7, 8], None),
        (Call::Set(2, 4097), &[], Some(4097)),
        (Call::Set(1, 4096), &[], Some(4096)),
        (Call::Set(0, 4095), &[], Some(4095)),
        (Call::Advance(4095), &[0], Some(4096)),
        (Call::Advance(4096), &[1], Some(4097)),
        (Call::Set(0, 5000), &[], Some(4097)),
        (Call::Set(1, 9000), &[], Some(4097)),
        (Call::Advance(16384), &[0, 1, 2], None),
        (Call::Set(2, 3), &[], Some(3)),
        (Call::Advance(16384), &[2], None),
        (Call::Advance(16384), &[], None),
        (Call::Clear(1), &[], None),
    ];
    for (call, ids, least) in rows {
        play(&mut timers, call, &mut out, &mut steps);
        assert!(*rt; out.items() == ids && timers.least() == least);
    }
}

/// Seventeen ids whose due ticks are out of order, by one advance.
fn out_of_order<W: Timers, L: Ledger, R: Abort>(rt: &R, mut timers: W, mut out: Ids, blank: Blank)
    requires count { length (W.dues timers) ≡ 17 }
    requires room { 17 ≤ room_of out }
    requires blank { IsBlankOf L.name L.parts blank.name blank.parts }
{
    let mut steps = Steps::<L>::new(blank);
    for id in 0..17 {
        let due = id as u64 * 5 % 17;
        play(&mut timers, Call::Set(id, due), &mut out, &mut steps);
    }
    play(&mut timers, Call::Advance(16), &mut out, &mut steps);
    let all: [u32; 17] = [0, 1, 2, 3, 4, 5, 6, 7, 8, 9, 10, 11, 12, 13, 14, 15, 16];
    assert!(*rt; out.items() == all.as_slice() && timers.least() == None);
}

/// Three ids over the first turns of the hashed wheel, tick by tick: each is taken at its own tick, and none at any other.
fn tick_by_tick<W: Timers, L: Ledger, R: Abort>(rt: &R, mut timers: W, mut out: Ids, blank: Blank)
    requires count { length (W.dues timers) ≡ 17 }
    requires room { 17 ≤ room_of out }
    requires blank { IsBlankOf L.name L.parts blank.name blank.parts }
{
    let mut steps = Steps::<L>::new(blank);
    play(&mut timers, Call::Set(0, 4095), &mut out, &mut steps);
    play(&mut timers, Call::Set(1, 4096), &mut out, &mut steps);
    play(&mut timers, Call::Set(2, 4097), &mut out, &mut steps);
    for t in 1..16385 {
        play(&mut timers, Call::Advance(t), &mut out, &mut steps);
        let taken: &[u32] = match t {
            4095 | 5000 => &[0],
            4096 | 9000 => &[1],
            4097 => &[2],
            _ => &[],
        };
        assert!(*rt; out.items() == taken);
        if t == 4096 {
            play(&mut timers, Call::Set(0, 5000), &mut out, &mut steps);
            play(&mut timers, Call::Set(1, 9000), &mut out, &mut steps);
        }
    }
    assert!(*rt; timers.least() == None);
}

/// The tables on timers of this form.
fn every_row<W: Timers, R: Abort>(rt: &R, alloc: Global) {
    let timers = W::make(alloc, 17).expect(rt, "memory");
    let out = Ids::make(alloc, 17).expect(rt, "memory");
    in_jumps::<W, Brand, R>(rt, timers, out, Blank::new(1));
    let timers = W::make(alloc, 17).expect(rt, "memory");
    let out = Ids::make(alloc, 17).expect(rt, "memory");
    out_of_order::<W, Brand, R>(rt, timers, out, Blank::new(1));
    let timers = W::make(alloc, 17).expect(rt, "memory");
    let out = Ids::make(alloc, 17).expect(rt, "memory");
    tick_by_tick::<W, Brand, R>(rt, timers, out, Blank::new(1));
}

#[test]
fn rows_of_timers(rt: HostRuntime) {
    every_row::<PlainTimers, HostRuntime>(&rt, rt.alloc());
    every_row::<HashedWheel, HostRuntime>(&rt, rt.alloc());
    every_row::<Levels, HostRuntime>(&rt, rt.alloc());
    every_row::<ByCount, HostRuntime>(&rt, rt.alloc());
}
