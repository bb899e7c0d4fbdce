//! Runs of `serve` over links and a ticker of memory: the text where one order alone is possible, and each status.
use crate::Status;
use crate::tests::{Case, Hears, calm, ended};
use bfd_script::fields::LineFault;
use std::alloc::Global;
use std::sync::Wait;
use std::thread::Threads;

/// A table whose session waits for its peer, and one that sends by itself.
pub(crate) const PASSIVE: &str = "bfd 1\n\
    p2p 1 single 1 10.0.0.1 10.0.0.2 passive 1000000 1000000 3 0 0\n\
    run\n\
    end\n";

const ACTIVE: &str = "bfd 1\n\
    p2p 1 single 1 10.0.0.1 10.0.0.2 active 1000000 1000000 3 0 0\n\
    run\n\
    end\n";

/// The same, and questions before, at and after the tick 750, and after all ticks.
const ASKED: &str = "bfd 1\n\
    p2p 1 single 1 10.0.0.1 10.0.0.2 active 1000000 1000000 3 0 0\n\
    run\n\
    show 749999 1\n\
    show 750000 1\n\
    show 750001 1\n\
    show 900000 1\n\
    end\n";

/// The same, and one behind all ticks.
const ASKED_LATE: &str = "bfd 1\n\
    p2p 1 single 1 10.0.0.1 10.0.0.2 active 1000000 1000000 3 0 0\n\
    run\n\
    show 9000000 1\n\
    end\n";

/// A table with an event that comes from outside.
const TICKED: &str = "bfd 1\nrun\nshow 1 1\ntick 1\nend\n";

/// The text of a shard that heard nothing, and of one that heard a packet.
const NOTHING: &str = "shard 0\nserved 0 0 0\n";

const HEARD: &str = "shard 0\n\
    turn 1 1 rx 1500 single 1 10.0.0.2 10.0.0.1 255 204003180000000700000000000f42400000000000000000\n\
    1 state 1 Down Init 0\n\
    served 1 0 0\n";

/// The same on two shards.
const HEARD_BY_TWO: &str = "shard 0\n\
    turn 1 1 rx 1500 single 1 10.0.0.2 10.0.0.1 255 204003180000000700000000000f42400000000000000000\n\
    1 state 1 Down Init 0\n\
    shard 1\n\
    served 1 0 0\n";

/// That of one that sent three packets, of which one was lost.
const SENT: &str = "shard 0\n\
    turn 1 0 tick 750\n\
    1 tx 1 204003180000000100000000000f4240000f424000000000\n\
    turn 2 0 tick 1750\n\
    2 tx 1 204003180000000100000000000f4240000f424000000000\n\
    turn 3 0 tick 2750\n\
    3 tx 1 204003180000000100000000000f4240000f424000000000\n\
    served 3 3 1\n";

/// The same where none was lost.
const SENT_ALL: &str = "shard 0\n\
    turn 1 0 tick 750\n\
    1 tx 1 204003180000000100000000000f4240000f424000000000\n\
    turn 2 0 tick 1750\n\
    2 tx 1 204003180000000100000000000f4240000f424000000000\n\
    turn 3 0 tick 2750\n\
    3 tx 1 204003180000000100000000000f4240000f424000000000\n\
    served 3 3 0\n";

/// That of one that was asked.
const ANSWERED: &str = "shard 0\n\
    turn 1 0 show 749999 1\n\
    1 show 1 Down 0 Down 0 1000000 1000000 1000000 0 0\n\
    turn 2 0 show 750000 1\n\
    2 tx 1 204003180000000100000000000f4240000f424000000000\n\
    2 show 1 Down 0 Down 0 1000000 1000000 1000000 0 0\n\
    turn 3 0 tick 750\n\
    turn 4 0 show 750001 1\n\
    4 show 1 Down 0 Down 0 1000000 1000000 1000000 0 0\n\
    turn 5 0 tick 751\n\
    turn 6 0 show 900000 1\n\
    6 show 1 Down 0 Down 0 1000000 1000000 1000000 0 0\n\
    served 6 1 0\n";

/// The words for one worker.
const ONE: &[&str] = &["serve", "--workers", "1"];

const TWO: &[&str] = &["serve", "--workers", "2"];

/// A worker over a link that hears this, without a fault of anything else.
fn plain(
    words: &'static [&'static str],
    first: &'static [Hears],
    status: Status,
    written: &'static str,
) -> Case<'static> {
    let mut case = calm(words, PASSIVE, written);
    case.first = first;
    case.status = status;
    case.shut = 2;
    case
}

/// The case of this number, of those in which links hear something.
fn heard_case(number: u32) -> Option<Case<'static>> {
    let one = &[Hears::Packet(1500)];
    match number {
        0 => Some(plain(ONE, one, Status::Done, HEARD)),
        1 => Some(plain(
            &[
                "serve",
                "--workers",
                "1",
                "--shards",
                "2",
                "--timers",
                "levels",
            ],
            one,
            Status::Done,
            HEARD_BY_TWO,
        )),
        2 => Some(plain(
            ONE,
            &[Hears::Packet(1500), Hears::Failed],
            Status::LinkFault(1),
            HEARD,
        )),
        3 => Some(plain(
            &["serve", "--workers", "1", "--turns", "1"],
            &[Hears::Quiet, Hears::Quiet],
            Status::Turns(1),
            NOTHING,
        )),
        4 => Some(plain(
            &["serve", "--workers", "1", "--journal", "1"],
            &[Hears::Packet(1500), Hears::Packet(2500)],
            Status::JournalFull(0),
            HEARD,
        )),
        5 => {
            let mut case = plain(TWO, &[Hears::Failed], Status::LinkFault(1), NOTHING);
            case.second = &[Hears::Failed];
            case.shut = 3;
            Some(case)
        }
        _ => silent_case(number),
    }
}

/// The words of the case of this number, where links hear nothing.
fn silent_words(number: u32) -> &'static [&'static str] {
    match number {
        9 => TWO,
        12 => &["serve", "--workers", "1", "--journal", "3"],
        _ => ONE,
    }
}

/// .. and of those in which they hear nothing.
fn silent_case(number: u32) -> Option<Case<'static>> {
    let mut case = plain(silent_words(number), &[], Status::Done, NOTHING);
    match number {
        6 => {
            case.text = ACTIVE;
            case.ticks = &[750, 1750, 2750];
            case.send_fails = Some(1);
            case.written = SENT;
        }
        7 => {
            case.text = ASKED;
            case.ticks = &[750, 751];
            case.written = ANSWERED;
        }
        8 => {
            case.open_fails = Some(0);
            case.status = Status::PortFault;
            case.written = "";
            case.shut = 0;
        }
        9 => {
            case.open_fails = Some(2);
            case.status = Status::PortFault;
            case.written = "";
        }
        10 => {
            case.sink_fails = Some(0);
            case.status = Status::WriteFault;
            case.written = "";
        }
        11 => {
            case.tick_fails = Some(0);
            case.status = Status::ClockFault;
        }
        12 => {
            case.text = ASKED_LATE;
            case.ticks = &[750, 1750, 2750];
            case.status = Status::JournalFull(0);
            case.written = SENT_ALL;
        }
        13 => {
            case.text = TICKED;
            case.status = Status::BadLine {
                line: 3,
                fault: LineFault::NoSuchSession,
            };
            case.written = "bad 3 NoSuchSession\n";
            case.shut = 0;
        }
        _ => return None,
    }
    Some(case)
}

/// Whether the case of this number goes as it says.
fn goes<R: Threads + Wait + Sync>(rt: &R, alloc: Global, number: u32) -> Option<bool> {
    let case = heard_case(number)?;
    let ended = ended(rt, alloc, &case).ok()?;
    let shut = (0 < case.shut, 1 < case.shut, 2 < case.shut);
    Some(ended.is_reported(&case) && ended.shut == shut)
}

#[test]
fn serves(rt: HostRuntime) {
    for number in 0..14 {
        assert!(rt;
            goes(&rt, rt.alloc(), number) == Some(true),
            "case {number}"
        );
    }
}
