//! Many in a call: packets in, and outputs out.
ghost use Rattle.std.specs.Prelude.{◌≡◌, ◌≢◌, ◌≤◌, None, length, drop, min, take};
ghost use Rattle.bfd_c.specs.Engines.{asked, instance_after};
ghost use Rattle.bfd_c.specs.Structs.{answer_for_c};
ghost use Rattle.bfd_c.specs.Many as many;
ghost use Rattle.bfd_c.specs.Many.{Handed, IsShort, IsShortAt, handed, handed_to, line_of_arrived, many_by, many_read, outputs_in};

use crate::asking::hear;
use crate::engine::{CLOSED, DONE, END, Engine, RANGE, SIZE};
use crate::handle::Handle;
use crate::reading::read_next;
use crate::sizes;
use crate::structs::{Answered, Output, answer_out};
use crate::wire::Packet;
use std::alloc::Global;

const MOST: usize = 64;

/// One of many packets that came in, with its payload.
#[repr(C)]
#[derive(Clone, Copy, Drop)]
pub struct Arrived<'a> {
    pub packet: Packet,
    pub payload: &'a [u8],
}

/// One packet, and its answer.
fn hear_one(alloc: Global, engine: &mut Engine, arrived: &Arrived<'_>, answer: &mut Answered) -> u32
    ensures done { result ≢ 2 → (engine.new, result) ≡ asked (line_of_arrived arrived.now) engine.old }
    ensures memory { result ≡ 2 → engine.new ≡ engine.old }
    ensures fits { result ≡ 2 → line_of_arrived arrived.now ≢ None }
    ensures answer { result ≡ 0 → answer.new ≡ answer_for_c engine.new.discr engine.new.answer }
    ensures none { result ≢ 0 → answer.new ≡ answer.old }
    ensures short { IsShort arrived.now → result ≢ 2 }
{
    let code = hear(alloc, engine, &arrived.packet, arrived.payload);
    if code == DONE {
        *answer = answer_out(engine.discr(), engine.answer());
    }
    code
}

/// Packets one after another, until one leaves an output or can't be handled. How many were handled, and the code.
fn hand_in(
    alloc: Global,
    engine: &mut Engine,
    arrivals: &[Arrived<'_>],
    answers: &mut [Answered],
) -> (usize, u32)
    ensures done { result.1 ≢ 2 → record { engine = engine.new; answers = answers.new; packets = result.0; code = result.1 }
        ≡ handed (length arrivals.now) arrivals.now answers.old engine.old }
    ensures memory { result.1 ≡ 2 → record { engine = engine.new; answers = answers.new; packets = result.0; code = result.1 }
        ≡ handed result.0 arrivals.now answers.old engine.old }
    ensures most { result.0 ≤ length arrivals.now }
    ensures short { IsShortAt result.0 arrivals.now → result.1 ≢ 2 }
{
    let Some((arrived, others)) = arrivals.split_first() else {
        return (0, DONE);
    };
    let Some((answer, places)) = answers.split_first_mut() else {
        return (0, DONE);
    };
    let code = hear_one(alloc, engine, arrived, answer);
    if code != DONE {
        return (0, code);
    }
    if engine.first().is_some() {
        return (1, DONE);
    }
    let (packets, code) = hand_in(alloc, engine, others, places);
    (packets + 1, code)
}

/// Outputs in these places, as many as there are of both.
fn read_into(engine: &mut Engine, places: &mut [Output]) -> usize
    ensures left { engine.new ≡ record engine.old { left = drop (length places.old) engine.old.left } }
    ensures reported { places.new ≡ outputs_in engine.old.left places.old }
    ensures count { result ≡ min (length places.old) (length engine.old.left) }
{
    let Some((place, others)) = places.split_first_mut() else {
        return 0;
    };
    if read_next(engine, place) != DONE {
        return 0;
    }
    read_into(engine, others) + 1
}

/// Whether each packet has a struct of the size that is known.
fn are_packets_sized(arrivals: &[Arrived<'_>]) -> bool
    ensures { result ≡ many.are_packets_sized arrivals.now }
{
    arrivals
        .iter()
        .all(|arrived| arrived.packet.size == sizes::PACKET)
}

/// Whether each of these places has it.
fn are_answers_sized(places: &[Answered]) -> bool
    ensures { result ≡ many.are_answers_sized places.now }
{
    places.iter().all(|place| place.size == sizes::ANSWERED)
}

/// Packets came in: each is handed in as by `bfdd_receive`, in their order, and its answer goes to its place. None is handled behind
/// one that left outputs, so that they can be read, nor behind one that can't be handled.
///
/// `handled` gets how many were handled, the first ones. 0 comes where all were, or the last one left outputs. 1 comes if and only if the
/// handle is closed; 3 where it's open and there are more than 64 or fewer places; 11 iff neither comes and the size of a packet
/// or of its place isn't known, and then none was handled; 3 also iff none of these comes and the values of the packet behind
/// those that were handled are outside their ranges, as `bfdd_receive` says; 2 only when out of memory for its payload, where no other
/// comes, and never where that has up to 52 bytes. The packets that weren't handled have changed nothing, and their places stay.
#[unsafe(no_mangle)]
pub extern "C" fn bfdd_packets(
    alloc: Global,
    handle: &mut Handle,
    arrivals: &[Arrived<'_>],
    answers: &mut [Answered],
    handled: &mut usize,
) -> u32
    ensures done { result ≢ 2 → (handle.new.kept.held, (answers.new, (handled.new, result)))
        ≡ handed_to (length arrivals.now) arrivals.now answers.old handle.old.kept.held }
    ensures memory { result ≡ 2 → (handle.new.kept.held, (answers.new, (handled.new, result)))
        ≡ handed_to handled.new arrivals.now answers.old handle.old.kept.held }
    ensures short { IsShortAt handled.new arrivals.now → result ≢ 2 }
{
    *handled = 0;
    match handle.take(alloc) {
        Some(engine) => {
            let mut engine = engine;
            let mut code = RANGE;
            if arrivals.len() <= MOST && arrivals.len() <= answers.len() {
                code = SIZE;
                if are_packets_sized(arrivals) && are_answers_sized(&answers[..arrivals.len()]) {
                    (*handled, code) = hand_in(alloc, &mut engine, arrivals, answers);
                }
            }
            handle.put(engine);
            code
        }
        None => CLOSED,
    }
}

/// Whether each of these places has a struct of the size that is known.
fn are_outputs_sized(places: &[Output]) -> bool
    ensures { result ≡ many.are_outputs_sized places.now }
{
    places.iter().all(|place| place.size == sizes::OUTPUT)
}

/// The places that so many outputs get.
#[tactic(auto, using(std::proofs::lemmas::List::take_min))]
fn first_places(places: &[Output], count: usize) -> &[Output]
    ensures { result.now ≡ take count places.now }
{
    &places[..count.min(places.len())]
}

/// Outputs, or why none was read.
fn read_many(engine: &mut Engine, places: &mut [Output]) -> (usize, u32)
    ensures { (engine.new, (places.new, result)) ≡ many_by engine.old.left places.old engine.old }
{
    if engine.first().is_none() {
        return (0, END);
    }
    if !are_outputs_sized(first_places(places, engine.left())) {
        return (0, SIZE);
    }
    (read_into(engine, places), DONE)
}

/// The next outputs of the last event, in their order, as many as there are places, or all.
///
/// `count` gets how many were read. 1 comes if and only if the handle is closed, 3 iff it's open and there is no place or
/// there are more than 64, 4 iff neither comes and all were read, 11 iff none of these comes and the size of a place
/// that would get an output isn't known. Then nothing else has changed.
#[unsafe(no_mangle)]
pub extern "C" fn bfdd_outputs(
    alloc: Global,
    handle: &mut Handle,
    places: &mut [Output],
    count: &mut usize,
) -> u32
    ensures { (handle.new.kept.held, (places.new, (count.new, result))) ≡ many_read places.old handle.old.kept.held }
{
    *count = 0;
    match handle.take(alloc) {
        Some(engine) => {
            let mut engine = engine;
            let mut code = RANGE;
            if !places.is_empty() && places.len() <= MOST {
                (*count, code) = read_many(&mut engine, places);
            }
            handle.put(engine);
            code
        }
        None => CLOSED,
    }
}
