//! The report lines of one event.
ghost use Rattle.std.specs.Prelude.{◌≡◌, ◌≤◌, ◌+◌, ◌*◌, ◌++◌, ◌∷◌, ℕ, [], IfOk, OnErr, OnOk, codes, decimal, drop, length, string_bytes};
ghost use Rattle.std.specs.Prelude.{take};
ghost use Rattle.hex.specs.Hex.{encode_lower};
ghost use Rattle.std.specs.List.{flat_map};
ghost use Rattle.bfd_script.specs.Report.{answer_line, event_lines, item_line};
ghost use Rattle.bfd_script.specs.Spelling.{hex_field, line};
ghost use Rattle.bfd_packet.specs.States.{state_name};

use crate::fields::{BYTES, digits_of_run};
use bfd_packet::{State, Test};
use bfd_rules::{Out, Refusal};
use bfd_session::{Answer, Shown};
use itoa::{Buffer, write_digits};
use std::alloc::{AllocError, Global};
use std::fmt::Write;

/// The most bytes of the line of an output.
const MOST_OF_LINE: usize = 160;

/// Room for one line, which is put together from its end to its start: a number's digits come from the last to the first, so each is
/// written where it stays.
type Room = [u8; MOST_OF_LINE];

/// Puts a word before what the room has from a place on. Answers where it begins.
#[inline]
fn put(room: &mut Room, at: usize, word: &[u8]) -> usize
    requires within { at ≤ 160 }
    requires room { length word.now ≤ at }
    ensures text { drop result room.new ≡ word.now ++ drop at room.old }
    ensures start { result + length word.now ≡ at }
{
    let start = at - word.len();
    room[start..at].copy_from_slice(word);
    start
}

/// Puts the end of a line, before which the rest of it is put.
#[inline]
fn put_end(room: &mut Room) -> usize
    ensures text { drop result room.new ≡ 10 ∷ [] }
    ensures start { result ≡ 159 }
{
    put(room, MOST_OF_LINE, b"\n")
}

/// Puts a number.
#[inline]
fn put_number(room: &mut Room, at: usize, n: u64) -> usize
    requires within { at ≤ 160 }
    requires room { 20 ≤ at }
    ensures text { drop result room.new ≡ decimal n ++ drop at room.old }
    ensures least { at ≤ result + 20 }
    ensures most { result ≤ at }
{
    write_digits(n, room, at)
}

/// Puts the digits of bytes that are fewer than a run, and often none.
fn put_few(room: &mut Room, at: usize, bytes: &[u8]) -> usize
    requires few { length bytes.now ≤ 7 }
    requires within { at ≤ 160 }
    requires room { 2 * length bytes.now ≤ at }
    ensures text { drop result room.new ≡ encode_lower bytes.now ++ drop at room.old }
    ensures start { result + 2 * length bytes.now ≡ at }
{
    if bytes.is_empty() {
        return at;
    }
    let mut few = [0; 2 * BYTES];
    let digits = &mut few[..2 * bytes.len()];
    match hex::encode_to_slice(bytes, digits) {
        Ok(()) => put(room, at, digits),
        Err(_) => unreachable!(),
    }
}

/// Puts bytes as hexadecimal digits in lower case, and `-` where there are none.
fn put_hex(room: &mut Room, at: usize, bytes: &[u8]) -> usize
    requires few { length bytes.now ≤ 52 }
    requires within { at ≤ 160 }
    requires room { 104 ≤ at }
    ensures text { drop result room.new ≡ hex_field bytes.now ++ drop at room.old }
    ensures least { at ≤ result + 104 }
    ensures most { result ≤ at }
{
    if bytes.is_empty() {
        return put(room, at, b"-");
    }
    let mut rest = bytes;
    let mut start = at;
    while let Some((before, run)) = rest.split_last_chunk::<BYTES>() {
        start = put(room, start, &digits_of_run(run));
        rest = before;
    }
    put_few(room, start, rest)
}

/// Puts the names of two states, with a space before each and one behind.
fn put_states(room: &mut Room, at: usize, old: State, new: State) -> usize
    requires within { at ≤ 160 }
    requires room { 21 ≤ at }
    ensures text { drop result room.new
        ≡ 32 ∷ (state_name old ++ 32 ∷ (state_name new ++ 32 ∷ drop at room.old)) }
    ensures least { at ≤ result + 21 }
    ensures most { result ≤ at }
{
    let at = put(room, at, b" ");
    let at = put(room, at, new.name().as_bytes());
    let at = put(room, at, b" ");
    let at = put(room, at, old.name().as_bytes());
    put(room, at, b" ")
}

/// Puts the line of a packet that was sent into the room. Answers where it begins.
fn put_sent(room: &mut Room, number: &[u8], discr: u32, bytes: &[u8]) -> usize
    requires short { length number.now ≤ 20 }
    requires few { length bytes.now ≤ 52 }
    ensures text { drop result room.new
        ≡ line (number.now ∷ codes "tx" ∷ decimal discr ∷ hex_field bytes.now ∷ []) }
    ensures within { result ≤ 160 }
{
    let at = put_end(room);
    let at = put_hex(room, at, bytes);
    let at = put(room, at, b" ");
    let at = put_number(room, at, discr as u64);
    let at = put(room, at, b" tx ");
    put(room, at, number)
}

/// Puts the line of a change of state into the room. Answers where it begins.
fn put_changed(
    room: &mut Room,
    number: &[u8],
    discr: u32,
    old: State,
    new: State,
    diag: u8,
) -> usize
    requires { length number.now ≤ 20 }
    ensures text { drop result room.new ≡ line
        (number.now ∷ codes "state" ∷ decimal discr ∷ state_name old ∷ state_name new ∷ decimal diag ∷ []) }
    ensures within { result ≤ 160 }
{
    let at = put_end(room);
    let at = put_number(room, at, diag as u64);
    let at = put_states(room, at, old, new);
    let at = put_number(room, at, discr as u64);
    let at = put(room, at, b" state ");
    put(room, at, number)
}

/// Puts the line of one output into the room, for the event whose number is written so. Answers where it begins.
fn put_line(room: &mut Room, number: &[u8], out: &Out) -> usize
    requires { length number.now ≤ 20 }
    ensures text { (n : ℕ) → number.now ≡ decimal n → drop result room.new ≡ item_line n out.now }
    ensures within { result ≤ 160 }
{
    match out {
        Out::Changed {
            discr,
            old,
            new,
            diag,
        } => put_changed(room, number, *discr, *old, *new, *diag),
        Out::Sent { discr, datagram } => {
            put_sent(room, number, *discr, datagram.bytes.as_slice())
        }
    }
}

/// Appends the lines of the outputs, or some of them.
fn push_items(number: u64, outs: &[Out], text: &mut Vec<u8>) -> Result<(), AllocError>
    ensures all { OnOk result (text.new.items ≡ text.old.items ++ flat_map (item_line number) outs.now) }
    ensures front { OnErr result (take (length text.old.items) text.new.items ≡ text.old.items) }
{
    if outs.is_empty() {
        return Ok(());
    }
    let mut digits = Buffer::new();
    let head = digits.format(number).as_bytes();
    let mut room = [0; MOST_OF_LINE];
    for out in outs {
        let start = put_line(&mut room, head, out);
        text.extend_from_slice(&room[start..])?;
    }
    Ok(())
}

/// Appends the line of one output of the event whose number is written so, and gives how long it is: for a caller that reports outputs
/// one by one, and writes their number once. Fails only when out of memory; then the text is as before.
pub fn output_line(number: &[u8], out: &Out, text: &mut Vec<u8>) -> Result<usize, AllocError>
    requires { length number.now ≤ 20 }
    ensures text { (n : ℕ) → number.now ≡ decimal n → OnOk result (text.new.items ≡ text.old.items ++ item_line n out.now) }
    ensures long { (n : ℕ) → number.now ≡ decimal n → IfOk result (λ long. long ≡ length (item_line n out.now)) }
    ensures same { OnErr result (text.new.items ≡ text.old.items) }
{
    let mut room = [0; MOST_OF_LINE];
    let start = put_line(&mut room, number, out);
    text.extend_from_slice(&room[start..])?;
    Ok(MOST_OF_LINE - start)
}

/// The line of what a session shows.
fn shown_text(alloc: Global, number: u64, shown: &Shown) -> Result<String, AllocError>
    ensures { IfOk result (λ text. string_bytes text ≡ answer_line number (Answer.Shown shown.now)) }
{
    let Shown {
        discr,
        state,
        diag,
        remote_state,
        remote_discr,
        adv_tx,
        used_tx,
        used_rx,
        detect,
        poll,
    } = *shown;
    let state = state.name();
    let remote = remote_state.name();
    let mut text = String::new(alloc);
    writeln!(
        text,
        "{number} show {discr} {state} {diag} {remote} {remote_discr} {adv_tx} {used_tx} {used_rx} {detect} {poll}"
    )?;
    Ok(text)
}

/// The line of a refusal.
fn refused_text(alloc: Global, number: u64, refusal: Refusal) -> Result<String, AllocError>
    ensures { IfOk result (λ text. string_bytes text ≡ answer_line number (Answer.Refused refusal)) }
{
    let refusal = refusal.name();
    format!(in alloc; "{number} refuse {refusal}\n")
}

/// Puts the line of a packet that was dropped into the room. Answers where it begins.
fn put_dropped(room: &mut Room, number: u64, test: Test) -> usize
    ensures text { drop result room.new ≡ answer_line number (Answer.Dropped test) }
    ensures within { result ≤ 160 }
{
    let at = put_end(room);
    let at = put(room, at, test.name().as_bytes());
    let at = put(room, at, b" drop ");
    put_number(room, at, number)
}

/// Appends the line of a packet that was dropped.
fn push_dropped(number: u64, test: Test, text: &mut Vec<u8>) -> Result<(), AllocError>
    ensures all { OnOk result (text.new.items ≡ text.old.items ++ answer_line number (Answer.Dropped test)) }
    ensures same { OnErr result (text.new.items ≡ text.old.items) }
{
    let mut room = [0; MOST_OF_LINE];
    let start = put_dropped(&mut room, number, test);
    text.extend_from_slice(&room[start..])
}

/// Appends the line of an answer, where it has one.
fn push_answer(number: u64, answer: &Answer, text: &mut Vec<u8>) -> Result<(), AllocError>
    ensures all { OnOk result (text.new.items ≡ text.old.items ++ answer_line number answer.now) }
    ensures same { OnErr result (text.new.items ≡ text.old.items) }
{
    match answer {
        Answer::Handled | Answer::Ticked => Ok(()),
        Answer::Dropped(test) => push_dropped(number, *test, text),
        Answer::Refused(refusal) => {
            let line = refused_text(*text.allocator(), number, *refusal)?;
            text.extend_from_slice(line.as_bytes())
        }
        Answer::Shown(shown) => {
            let line = shown_text(*text.allocator(), number, shown)?;
            text.extend_from_slice(line.as_bytes())
        }
    }
}

/// Appends the lines of one event, or some of them.
fn push_event(
    number: u64,
    outs: &[Out],
    answer: &Answer,
    text: &mut Vec<u8>,
) -> Result<(), AllocError>
    ensures all { OnOk result (text.new.items
        ≡ text.old.items ++ event_lines number (record { items = outs.now; answer = answer.now })) }
    ensures front { OnErr result (take (length text.old.items) text.new.items ≡ text.old.items) }
{
    push_items(number, outs, text)?;
    push_answer(number, answer, text)
}

/// Appends the report lines of the event of this number: a line `state` or `tx` for each output, in their order, and then a line `drop`,
/// `refuse` or `show` where the answer has one. Fails only when out of memory; then the text is as before.
pub fn lines(
    number: u64,
    outs: &[Out],
    answer: &Answer,
    text: &mut Vec<u8>,
) -> Result<(), AllocError>
    ensures all { OnOk result (text.new.items
        ≡ text.old.items ++ event_lines number (record { items = outs.now; answer = answer.now })) }
    ensures kept { OnErr result (text.new.items ≡ text.old.items) }
{
    let before = text.len();
    match push_event(number, outs, answer, text) {
        Ok(()) => Ok(()),
        Err(error) => {
            text.truncate(before);
            Err(error)
        }
    }
}
