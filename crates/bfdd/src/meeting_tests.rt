//! Workers of a run that wait for one another, through the words.
ghost use Rattle.bfd_edge.specs.MemoryTicker.{observed_of};

use crate::Status;
use crate::serve_tests::PASSIVE;
use crate::tests::{Case, Hears, calm, met};
use bfd_edge::{Gate, MemTicker, Next, Ticker};
use std::alloc::Global;
use std::sync::Wait;
use std::sync::atomic::{AtomicU64, Ordering};
use std::test::Fail;
use std::thread;
use std::thread::Threads;

/// Two sessions, one on each of two shards, and a tick of both.
const TWO: &str = "bfd 1\n\
    p2p 1 single 1 10.0.0.1 10.0.0.2 active 1000000 1000000 3 0 0\n\
    p2p 2 single 2 10.0.0.1 10.0.0.2 active 1000000 1000000 3 0 0\n\
    run\n\
    tick 1\n\
    end\n";

/// Which of the first two workers came to their first turn, and how often one waited in vain for the other.
#[derive(Drop)]
struct Meeting {
    first: AtomicU64,
    second: AtomicU64,
    missed: AtomicU64,
}

impl Meeting {
    /// Waits until the other has come, for so many looks at most.
    fn wait_for(&self, other: &AtomicU64) {
        for look in 0..10_000_000u64 {
            if other.load(Ordering::SeqCst) == 1 {
                return;
            }
            if look % 64 == 63 {
                thread::yield_now();
            }
        }
        self.missed.store(1, Ordering::SeqCst);
    }
}

impl Gate for Meeting {
    fn before(&self, worker: u32, _turn: u64) {
        let (own, other) = if worker == 1 {
            (&self.first, &self.second)
        } else {
            (&self.second, &self.first)
        };
        own.store(1, Ordering::SeqCst);
        self.wait_for(other);
    }

    fn after(&self, _worker: u32, _turn: u64) {}
}

/// A ticker whose first call meets a worker's first turn.
#[derive(Drop)]
struct MeetingTicker<'a> {
    meeting: &'a Meeting,
    inner: MemTicker,
}

impl Ticker for MeetingTicker<'_> {
    ghost observed = { λ t. observed_of t.inner };

    fn next(&mut self) -> Next {
        self.meeting.second.store(1, Ordering::SeqCst);
        self.meeting.wait_for(&self.meeting.first);
        self.inner.next()
    }
}

/// A place where nobody has come yet.
fn nobody_yet() -> Meeting {
    Meeting {
        first: AtomicU64::new(0),
        second: AtomicU64::new(0),
        missed: AtomicU64::new(0),
    }
}

/// Who came, and how often one waited in vain.
fn came(meeting: &Meeting) -> (u64, u64, u64) {
    (
        meeting.first.load(Ordering::SeqCst),
        meeting.second.load(Ordering::SeqCst),
        meeting.missed.load(Ordering::SeqCst),
    )
}

/// A run of `serve` whose workers' links hear a packet each.
fn serving(words: &'static [&'static str]) -> Case<'static> {
    let one = &[Hears::Packet(1500)];
    let mut case = calm(words, PASSIVE, "");
    case.first = one;
    case.second = one;
    case
}

/// Whether the first two workers of this run met.
fn meets<R: Threads + Wait + Sync>(rt: &R, alloc: Global, case: &Case<'_>) -> Option<bool> {
    let meeting = nobody_yet();
    let mut ticker = MemTicker::make(Vec::new(alloc), Vec::new(alloc));
    let ended = met(rt, alloc, case, &mut ticker, &meeting).ok()?;
    Some(ended.status == Status::Done && came(&meeting) == (1, 1, 0))
}

#[test]
fn workers_meet(rt: HostRuntime) {
    let live = serving(&["serve", "--workers", "2"]);
    let replay = calm(&["replay", "--shards", "2", "--workers", "2"], TWO, "");
    assert!(rt; meets(&rt, rt.alloc(), &live) == Some(true));
    assert!(rt; meets(&rt, rt.alloc(), &replay) == Some(true));
}

#[test]
fn worker_and_timer_meet(rt: HostRuntime) -> Result<(), Fail> {
    let meeting = nobody_yet();
    let mut ticker = MeetingTicker {
        meeting: &meeting,
        inner: MemTicker::make(Vec::new(rt.alloc()), Vec::new(rt.alloc())),
    };
    let case = serving(&["serve", "--workers", "1"]);
    let ended = met(&rt, rt.alloc(), &case, &mut ticker, &meeting)?;
    assert!(rt; ended.status == Status::Done && came(&meeting) == (1, 1, 0));
    Ok(())
}
