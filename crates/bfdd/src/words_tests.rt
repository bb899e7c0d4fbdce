//! What `serve` is asked for, by its numbers, with no option and with each; and on what a replay, a load and a watch run without one.

use crate::words::{Form, Hands, Job, job_of};
use std::alloc::{AllocError, Global};
use std::test::Fail;

/// The words of a line with one space between two.
fn split(alloc: Global, line: &str) -> Result<Vec<String>, AllocError> {
    let mut words = Vec::new(alloc);
    for word in line.split(' ') {
        words.push(String::from_str(alloc, word)?)?;
    }
    Ok(words)
}

/// Whether the words ask `serve` for these hands, so many turns and ticks, and a journal of so many entries.
fn are_for(words: &[String], wanted: Hands, numbers: (u32, u32, u32)) -> bool {
    match job_of(words) {
        Some(
            Job::Serve {
                hands,
                turns,
                ticks,
                journal,
            },
        ) => {
            hands.shards == wanted.shards
                && hands.workers == wanted.workers
                && hands.timers == wanted.timers
                && (turns, ticks, journal) == numbers
        }
        _ => false,
    }
}

/// Whether the words ask for a replay or a load on these hands, or for a watch on as many shards.
fn run_on(words: &[String], wanted: Hands) -> bool {
    match job_of(words) {
        Some(Job::Replay(hands)) => hands == wanted,
        Some(Job::Load { hands, .. }) => hands == wanted,
        Some(Job::Watch { shards, .. }) => shards == wanted.shards,
        _ => false,
    }
}

#[test]
fn usual_hands(rt: HostRuntime) -> Result<(), Fail> {
    let usual = Hands {
        shards: 1,
        workers: 1,
        timers: Form::Hashed,
    };
    for line in ["replay", "load 1 1 0", "watch 1 1"] {
        let words = split(rt.alloc(), line)?;
        assert!(rt; run_on(&words, usual));
    }
    Ok(())
}

#[test]
fn jobs(rt: HostRuntime) -> Result<(), Fail> {
    let words = split(rt.alloc(), "serve")?;
    let usual = Hands {
        shards: 1,
        workers: 5,
        timers: Form::Hashed,
    };
    assert!(rt; are_for(&words, usual, (1_000_000, 10_000, 65_536)));
    let line = "serve --journal 1 --ticks 0 --turns 4 --timers levels --workers 3 --shards 2";
    let words = split(rt.alloc(), line)?;
    let reported = Hands {
        shards: 2,
        workers: 3,
        timers: Form::Levels,
    };
    assert!(rt; are_for(&words, reported, (4, 0, 1)));
    Ok(())
}
