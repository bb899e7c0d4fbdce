//! Every schedule of up to six events: a tick, or one of the first three packets to either side. How many end in which states,
//! and how many packets all of them send, compared with what a model of the definition in another language counted.
ghost use Rattle.std.specs.Prelude.{◌≡◌, ◌≤◌, ◌<◌, IfSome};

use crate::pair::peers;
use bfd_num::{Moment, Tick};
use bfd_packet::State;
use bfd_pair::{Pair, PairEvent, Side};
use bfd_rules::Outs;
use std::alloc::Global;

/// How many events there are to choose from.
const CHOICES: u64 = 7;

/// So many schedules end with Left in Down, Init and Up, and in each with Right in these; and so many packets were sent in all.
#[derive(Drop)]
struct Tally {
    ends: [[u64; 3]; 3],
    sent: u64,
}

/// An event, a second after the one before it.
fn event(choice: u64, number: u64) -> Option<PairEvent>
    requires number { number ≤ 6 }
{
    let moment = Moment::new(1_000_000 * number)?;
    let (to, packet) = match choice {
        0 => {
            let tick = Tick::new(1_000 * number)?;
            return Some(PairEvent::Tick(tick));
        }
        1..=3 => (Side::Left, choice),
        _ => (Side::Right, choice.saturating_sub(3)),
    };
    Some(PairEvent::Give {
        to,
        moment,
        number: packet,
    })
}

/// The two after the schedule of this number among those of so many events.
fn played(alloc: Global, schedule: u64, events: u64, outs: &mut Outs) -> Option<Pair>
    requires events { events ≤ 6 }
    requires room { 10 ≤ outs.old.room }
    ensures { outs.new.room ≡ outs.old.room }
{
    let mut pair = peers(alloc, 300_000, 7).ok()?;
    let mut rest = schedule;
    for number in 1..events + 1 {
        outs.clear();
        pair.step(event(rest % CHOICES, number)?, outs).ok()?;
        rest /= CHOICES;
    }
    Some(pair)
}

/// The place of a state in a tally.
fn place(state: State) -> Option<usize>
    ensures { IfSome result (λ place. place < 3) }
{
    match state {
        State::AdminDown => None,
        State::Down => Some(0),
        State::Init => Some(1),
        State::Up => Some(2),
    }
}

/// Counts the schedule in.
fn count(tally: &mut Tally, pair: &Pair) -> Option<()> {
    let left = place(pair.session(Side::Left).vars().state)?;
    let right = place(pair.session(Side::Right).vars().state)?;
    tally.ends[left][right] = tally.ends[left][right].saturating_add(1);
    let sent = pair
        .sent(Side::Left)
        .len()
        .saturating_add(pair.sent(Side::Right).len());
    tally.sent = tally.sent.saturating_add(sent as u64);
    Some(())
}

/// All schedules of so many events.
fn tally_all(alloc: Global, events: u64, schedules: u64) -> Option<Tally>
    requires { events ≤ 6 }
{
    let mut outs = Outs::make(alloc, 10).ok()?;
    let mut tally = Tally {
        ends: [[0; 3]; 3],
        sent: 0,
    };
    for schedule in 0..schedules {
        let pair = played(alloc, schedule, events, &mut outs)?;
        count(&mut tally, &pair)?;
    }
    Some(tally)
}

/// Whether all schedules of so many events end so, and send so many packets.
fn are_so(alloc: Global, events: u64, schedules: u64, ends: [[u64; 3]; 3], sent: u64) -> bool {
    if events > 6 {
        return false;
    }
    match tally_all(alloc, events, schedules) {
        Some(tally) => tally.ends == ends && tally.sent == sent,
        None => false,
    }
}

#[test]
fn every_small_schedule(rt: HostRuntime) {
    for (events, schedules, ends, sent) in [
        (1, 7, [[7, 0, 0], [0, 0, 0], [0, 0, 0]], 2),
        (2, 49, [[47, 1, 0], [1, 0, 0], [0, 0, 0]], 32),
        (3, 343, [[305, 16, 0], [16, 4, 1], [0, 1, 0]], 384),
        (
            4,
            2_401,
            [[1_929, 169, 0], [169, 88, 22], [0, 22, 2]],
            4_066,
        ),
        (
            5,
            16_807,
            [[12_009, 1_479, 15], [1_479, 1_190, 292], [15, 292, 36]],
            39_988,
        ),
        (
            6,
            117_649,
            [
                [74_035, 11_736, 308],
                [11_736, 12_888, 3_074],
                [308, 3_074, 490],
            ],
            373_444,
        ),
    ] {
        assert!(rt; are_so(rt.alloc(), events, schedules, ends, sent));
    }
}
