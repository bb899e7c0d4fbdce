//! Playing a schedule, and the line of it.
ghost use Rattle.std.specs.Prelude.{◌≡◌, ◌<◌, ◌≤◌, ◌+◌, ◌*◌, ℕ, IfOk, OnOk, count_by, length, string_bytes};
ghost use Rattle.bfd_pair.specs.Run.{Both, side_of, pair_run, turn};
ghost use Rattle.bfd_pair.specs.Schedule as schedule;
ghost use Rattle.bfd_pair.specs.Line as line;
ghost use Rattle.bfd_pair.specs.Playing.{IsPlayed};

use crate::schedule::schedule::{event_by, peers};
use crate::{Pair, PairAnswer, PairEvent, Side};
use bfd_num::next_j;
use bfd_packet::State;
use bfd_rules::{Out, Outs};
use std::alloc::{AllocError, Global};

/// The last draw, and the sums over the events so far.
#[derive(Clone, Copy)]
pub(crate) struct Tally {
    pub(crate) draw: u32,
    pub(crate) given: u64,
    pub(crate) rises: u64,
}

/// The packets that an event gives, by its answer.
fn given_in(event: &PairEvent, answer: &PairAnswer) -> u64
    ensures given { (w : Both) → answer.now ≡ (turn event.now w).answer
        → result ≡ line.given_in event.now (turn event.now w) }
    ensures most { result ≤ 1 }
{
    match (event, answer) {
        (PairEvent::Give { .. }, PairAnswer::Did(_)) => 1,
        _ => 0,
    }
}

/// Whether an output is a change to Up.
fn is_rise(item: &Out) -> bool
    ensures { result ≡ line.is_rise item.now }
{
    matches!(item, Out::Changed { new: State::Up, .. })
}

/// How many of these outputs are changes to Up.
fn rises(items: &[Out]) -> usize
    ensures rises { result ≡ count_by line.is_rise items.now }
    ensures most { result ≤ length items.now }
{
    items.iter().filter(|item| is_rise(item)).count()
}

/// The next event, of number `e + 1`. Fails only when out of memory.
fn play_next(pair: &mut Pair, tally: &mut Tally, outs: &mut Outs, e: u64) -> Result<(), AllocError>
    requires number { e < 100000 }
    requires few_given { tally.old.given ≤ e }
    requires few_rises { tally.old.rises ≤ 10 * e }
    requires room { outs.old.room ≡ 10 }
    ensures played { (seed : ℕ) → IsPlayed seed e pair.old tally.old
        → OnOk result (IsPlayed seed (e + 1) pair.new tally.new) }
    ensures room { outs.new.room ≡ outs.old.room }
{
    tally.draw = next_j(tally.draw);
    let event = event_by(e + 1, tally.draw, pair);
    outs.clear();
    let answer = pair.step(event, outs)?;
    tally.given += given_in(&event, &answer);
    tally.rises += rises(outs.items()) as u64;
    Ok(())
}

/// The two of a seed after so many events of its schedule. Fails only when out of memory.
fn play(alloc: Global, events: u64, seed: u32) -> Result<(Pair, Tally), AllocError>
    requires { events ≤ 100000 }
    ensures { IfOk result (λ played. IsPlayed seed events played.0 played.1) }
{
    let mut pair = peers(alloc, seed)?;
    let mut outs = Outs::make(alloc, 10)?;
    let mut tally = Tally {
        draw: seed,
        given: 0,
        rises: 0,
    };
    for e in 0..events {
        play_next(&mut pair, &mut tally, &mut outs, e)?;
    }
    Ok((pair, tally))
}

/// The line of these numbers and states.
fn line_bytes(
    alloc: Global,
    events: u64,
    sent: u64,
    tally: Tally,
    left: State,
    right: State,
) -> Result<String, AllocError>
    ensures { IfOk result (λ text. string_bytes text ≡ line.line_by events sent tally.given left right tally.rises) }
{
    let Tally { given, rises, .. } = tally;
    let left = left.name();
    let right = right.name();
    let mut text = String::new(alloc);
    writeln!(text, "pair {events} {sent} {given} {left} {right} {rises}")?;
    Ok(text)
}

/// How many packets both sides have sent.
fn sent_in(pair: &Pair) -> u64
    ensures { result ≡ line.sent_in (pair_run pair.now.left pair.now.right pair.now.past) }
{
    pair.sent(Side::Left).len() as u64 + pair.sent(Side::Right).len() as u64
}

/// The state of a side.
fn state_of(pair: &Pair, side: Side) -> State
    ensures { result ≡ (side_of side (pair_run pair.now.left pair.now.right pair.now.past)).session.vars.state }
{
    pair.session(side).vars().state
}

/// Plays so many events, up to 100,000, of the seed's schedule from the start, and writes the line that sums it up: `pair EVENTS SENT GIVEN
/// LEFT RIGHT UPS` and LF, with how many packets both sides sent, how many Gives found a packet, the two last states, and how many changes
/// to Up there were. Fails only when out of memory.
#[tactic(auto, using(crate::proofs::Played::line_is))]
pub fn pair_line(alloc: Global, events: u64, seed: u32) -> Result<String, AllocError>
    requires { events ≤ 100000 }
    ensures { IfOk result (λ text. string_bytes text ≡ line.pair_line seed (schedule.schedule seed events)) }
{
    let (pair, tally) = play(alloc, events, seed)?;
    let (left, right) = (state_of(&pair, Side::Left), state_of(&pair, Side::Right));
    line_bytes(alloc, events, sent_in(&pair), tally, left, right)
}
