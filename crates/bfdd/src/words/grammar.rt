//! The words of each job.
ghost use Rattle.std.specs.Prelude.{◌≡◌, ◌<◌, ◌≤◌, All, IfSome, None, length, map, string_bytes};
ghost use Rattle.bfdd.specs.Grammar.{are_distinct, hands_of, job_of, leading, load_by, load_of, pair_job, replay_of, serve_of, watch_by};
ghost use Rattle.bfdd.specs.Grammar.{watch_of};
ghost use Rattle.bfdd.specs.Ranges.{AreHands, IsJob};

use crate::words::job::{Hands, Job, Members};
use crate::words::number::number;
use crate::words::options::{are_options, number_option, timers};
use arrayvec::ArrayVec;

/// Options of hands.
const HANDS: [&str; 3] = ["--shards", "--workers", "--timers"];

/// Options of `serve`.
const SERVE: [&str; 6] = [
    "--shards",
    "--workers",
    "--timers",
    "--turns",
    "--ticks",
    "--journal",
];

/// Options of `watch`.
const WATCH: [&str; 1] = ["--shards"];

/// The hands of these options, with so many workers where they aren't given.
fn hands(workers: u32, options: &[String]) -> Option<Hands>
    requires { (1 ≤ workers) × (workers ≤ 64) }
    ensures value { result ≡ hands_of workers (map (λ word. string_bytes word) options.now) }
    ensures range { IfSome result AreHands }
{
    Some(Hands {
        shards: number_option("--shards", 1, 64, 1, options)?,
        workers: number_option("--workers", 1, 64, workers, options)?,
        timers: timers(options)?,
    })
}

/// The words after `replay`.
fn replay(words: &[String]) -> Option<Job>
    ensures value { result ≡ replay_of (map (λ word. string_bytes word) words.now) }
    ensures range { IfSome result IsJob }
{
    if !are_options(&HANDS, words) {
        return None;
    }
    Some(Job::Replay(hands(1, words)?))
}

/// The words after `serve`.
fn serve(words: &[String]) -> Option<Job>
    ensures value { result ≡ serve_of (map (λ word. string_bytes word) words.now) }
    ensures range { IfSome result IsJob }
{
    if !are_options(&SERVE, words) {
        return None;
    }
    Some(Job::Serve {
        hands: hands(5, words)?,
        turns: number_option("--turns", 1, 1_000_000_000, 1_000_000, words)?,
        ticks: number_option("--ticks", 0, 1_000_000_000, 10_000, words)?,
        journal: number_option("--journal", 1, 200_000, 65_536, words)?,
    })
}

/// A load of these numbers and options.
fn load_by(sessions: &str, ticks: &str, seed: &str, options: &[String]) -> Option<Job>
    ensures value { result ≡ load_by sessions.now ticks.now seed.now (map (λ word. string_bytes word) options.now) }
    ensures range { IfSome result IsJob }
{
    if !are_options(&HANDS, options) {
        return None;
    }
    Some(Job::Load {
        sessions: number(sessions, 1, 5000)?,
        ticks: number(ticks, 1, 6000)?,
        seed: number(seed, 0, u32::MAX)?,
        hands: hands(1, options)?,
    })
}

/// The words after `load`.
fn load(words: &[String]) -> Option<Job>
    ensures value { result ≡ load_of (map (λ word. string_bytes word) words.now) }
    ensures range { IfSome result IsJob }
{
    match words {
        [sessions, ticks, seed, options @ ..] => load_by(sessions, ticks, seed, options),
        _ => None,
    }
}

/// The words after `pair`.
fn pair(words: &[String]) -> Option<Job>
    ensures value { result ≡ pair_job (map (λ word. string_bytes word) words.now) }
    ensures range { IfSome result IsJob }
{
    let [events, seed] = words else {
        return None;
    };
    Some(Job::Pair {
        events: number(events, 1, 100_000)?,
        seed: number(seed, 0, u32::MAX)?,
    })
}

/// The discriminators that the words begin with, where they are 64 at most.
fn leading(words: &[String]) -> Option<ArrayVec<u32, 64>>
    ensures members { IfSome result (λ members. members.items ≡ leading (map (λ word. string_bytes word) words.now)) }
    ensures few { IfSome result (λ members. length members.items ≤ 64) }
    ensures fewer { IfSome result (λ members. length members.items ≤ length words.now) }
    ensures positive { IfSome result (λ members. All (λ member. 0 < member) members.items) }
    ensures many { result ≡ None → 64 < length (leading (map (λ word. string_bytes word) words.now)) }
{
    let mut members = ArrayVec::new();
    for word in words {
        let Some(member) = number(word, 1, u32::MAX) else {
            break;
        };
        if members.is_full() {
            return None;
        }
        members.push(member);
    }
    Some(members)
}

/// Whether no number is given twice.
fn are_distinct(numbers: &[u32]) -> bool
    ensures { result ≡ are_distinct numbers.now }
{
    let mut rest = numbers;
    while let [first, more @ ..] = rest {
        if more.contains(first) {
            return false;
        }
        rest = more;
    }
    true
}

/// A watch of these members and options.
fn watch_by(need: &str, members: ArrayVec<u32, 64>, options: &[String]) -> Option<Job>
    requires few { length members.items ≤ 64 }
    requires positive { All (λ member. 0 < member) members.items }
    ensures value { result ≡ watch_by need.now members.items (map (λ word. string_bytes word) options.now) }
    ensures range { IfSome result IsJob }
{
    if !are_distinct(members.as_slice()) || !are_options(&WATCH, options) {
        return None;
    }
    Some(Job::Watch {
        need: number(need, 1, members.len() as u32)?,
        shards: number_option("--shards", 1, 64, 1, options)?,
        members: Members::make(members),
    })
}

/// The words after `watch`.
fn watch(words: &[String]) -> Option<Job>
    ensures value { result ≡ watch_of (map (λ word. string_bytes word) words.now) }
    ensures range { IfSome result IsJob }
{
    let [need, words @ ..] = words else {
        return None;
    };
    let members = leading(words)?;
    let options = &words[members.len()..];
    watch_by(need, members, options)
}

/// The job that the words after the program's name ask for, and nothing where they aren't in the grammar.
pub fn job_of(words: &[String]) -> Option<Job>
    ensures value { result ≡ job_of (map (λ word. string_bytes word) words.now) }
    ensures range { IfSome result IsJob }
{
    let [word, words @ ..] = words else {
        return None;
    };
    match word.as_str() {
        "replay" => replay(words),
        "serve" => serve(words),
        "load" => load(words),
        "pair" => pair(words),
        "watch" => watch(words),
        _ => None,
    }
}
