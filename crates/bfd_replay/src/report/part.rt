//! What one shard reports of its events.
ghost use Rattle.std.specs.Prelude.{◌≡◌, ◌<◌, ◌≤◌, ◌+◌, ◌++◌, ◌∷◌, [], ◌^◌, ◌⊎◌, IfNone, IfOk, IfSome, OnErr, OnOk, decimal, length, map};
ghost use Rattle.std.specs.Prelude.{sum_by};
ghost use Rattle.std.specs.List.{AllByRecursion};
ghost use Rattle.bfd_script.specs.Report.{item_line};
ghost use Rattle.bfd_replay.specs.Pieces.{texts, whole_piece, item_piece};
ghost use Rattle.bfd_replay.specs.Inside.{mark_of};

use crate::report::counts::{dropped, named, packets, sent};
use crate::report::key::{Key, Mark};
use crate::report::rest::Rest;
use bfd_rules::Out;
use bfd_script::{lines, output_line};
use bfd_session::Answer;
use itoa::Buffer;
use std::alloc::{AllocError, Global};
use std::marker::Model;
use std::mem;

/// What one shard reports of its events, or what is reported of the events that match no session: text in pieces. Its value is the pieces.
#[derive(Drop)]
pub struct Part {
    text: Vec<u8>,
    marks: Vec<Mark>,
}

impl Model for Part {
    ghost use Rattle.std.specs.Prelude.{List};
    ghost use Rattle.bfd_replay.specs.Pieces.{Piece};
    ghost use Rattle.bfd_replay.specs.Inside.{IsPart, pieces_at};

    ghost Value = { List Piece };

    ghost view = { λ p. pieces_at p.marks.items p.text.items };

    ghost invariant = { λ p. IsPart p.marks.items p.text.items };
}

/// Appends the text of an event, and its mark.
fn append_event(
    marks: &mut Vec<Mark>,
    text: &mut Vec<u8>,
    number: u64,
    outs: &[Out],
    answer: &Answer,
) -> Result<(), AllocError>
    ensures text { OnOk result (text.new.items
        ≡ text.old.items ++ (whole_piece number (record { items = outs.now; answer = answer.now })).text) }
    ensures mark { OnOk result (marks.new.items
        ≡ marks.old.items ++ mark_of (whole_piece number (record { items = outs.now; answer = answer.now })) ∷ []) }
    ensures same_text { OnErr result (text.new.items ≡ text.old.items) }
    ensures same_marks { OnErr result (marks.new.items ≡ marks.old.items) }
{
    marks.reserve(1)?;
    let before = text.len();
    lines(number, outs, answer, text)?;
    let key = Key {
        event: number,
        discr: 0,
    };
    match Mark::of(key, text.len() - before, sent(outs), dropped(answer)) {
        Some(mark) => {
            marks.push_reserved(mark);
            Ok(())
        }
        None => {
            text.truncate(before);
            Err(AllocError)
        }
    }
}

/// The mark of one output of a tick, whose line is so long, if neither that nor the tick's number is too great.
fn item_mark(number: u64, out: &Out, long: usize) -> Option<Mark>
    requires long { long ≡ length (item_line number out.now) }
    ensures mark { IfSome result (λ mark. mark ≡ mark_of (item_piece number out.now)) }
    ensures none { IfNone result ((2 ^ 32 ≤ number) ⊎ (2 ^ 32 ≤ long)) }
{
    let key = Key {
        event: number,
        discr: named(out),
    };
    Mark::of(key, long, packets(out), 0)
}

/// Appends the line of one output of a tick, whose number is written so, and its mark.
fn append_item(
    marks: &mut Vec<Mark>,
    text: &mut Vec<u8>,
    number: u64,
    digits: &[u8],
    out: &Out,
) -> Result<(), AllocError>
    requires digits { digits.now ≡ decimal number }
    requires few { length digits.now ≤ 20 }
    ensures text { OnOk result (text.new.items ≡ text.old.items ++ (item_piece number out.now).text) }
    ensures mark { OnOk result (marks.new.items ≡ marks.old.items ++ mark_of (item_piece number out.now) ∷ []) }
    ensures same_text { OnErr result (text.new.items ≡ text.old.items) }
    ensures same_marks { OnErr result (marks.new.items ≡ marks.old.items) }
{
    marks.reserve(1)?;
    let before = text.len();
    let long = output_line(digits, out, text)?;
    match item_mark(number, out, long) {
        Some(mark) => {
            marks.push_reserved(mark);
            Ok(())
        }
        None => {
            text.truncate(before);
            Err(AllocError)
        }
    }
}

/// Appends the lines of the outputs of a tick, and their marks; or none of them.
fn append_items(
    marks: &mut Vec<Mark>,
    text: &mut Vec<u8>,
    number: u64,
    outs: &[Out],
) -> Result<(), AllocError>
    ensures text { OnOk result (text.new.items ≡ text.old.items ++ texts (map (item_piece number) outs.now)) }
    ensures mark { OnOk result (marks.new.items ≡ marks.old.items ++ map mark_of (map (item_piece number) outs.now)) }
    ensures same_text { OnErr result (text.new.items ≡ text.old.items) }
    ensures same_marks { OnErr result (marks.new.items ≡ marks.old.items) }
{
    let (marks_before, text_before) = (marks.len(), text.len());
    let mut digits = Buffer::new();
    let digits = digits.format(number).as_bytes();
    for out in outs {
        if let Err(error) = append_item(marks, text, number, digits, out) {
            marks.truncate(marks_before);
            text.truncate(text_before);
            return Err(error);
        }
    }
    Ok(())
}

/// Appends the text, which is handed over as it lies where it comes behind no text.
fn hand_over(from: &mut Vec<u8>, text: &mut Vec<u8>) -> Result<(), AllocError>
    ensures text { OnOk result (text.new.items ≡ text.old.items ++ from.old.items) }
    ensures same { OnErr result (from.new.items ≡ from.old.items) }
{
    if text.is_empty() {
        mem::swap(from, text);
        return Ok(());
    }
    text.extend_from_slice(from.as_slice())
}

/// How many packets the marks say were sent, and were dropped. Each has a byte of text, so the sums fit.
fn counts_of(marks: &[Mark]) -> (u64, u64)
    requires counts { AllByRecursion (λ m. m.txs + m.drops ≤ m.long) marks.now }
    requires small { sum_by (λ m. m.long) marks.now < 2 ^ 64 }
    ensures txs { result.0 ≡ sum_by (λ m. m.txs) marks.now }
    ensures drops { result.1 ≡ sum_by (λ m. m.drops) marks.now }
{
    let mut txs = 0u64;
    let mut drops = 0u64;
    for at in 0..marks.len() {
        let (sent, dropped) = marks[at].counts();
        txs += sent;
        drops += dropped;
    }
    (txs, drops)
}

/// Appends these marks, and this text; or neither.
fn append_all(
    marks: &mut Vec<Mark>,
    text: &mut Vec<u8>,
    more: &Vec<Mark>,
    lines: &Vec<u8>,
) -> Result<(), AllocError>
    ensures text { OnOk result (text.new.items ≡ text.old.items ++ lines.now.items) }
    ensures mark { OnOk result (marks.new.items ≡ marks.old.items ++ more.now.items) }
    ensures same_text { OnErr result (text.new.items ≡ text.old.items) }
    ensures same_marks { OnErr result (marks.new.items ≡ marks.old.items) }
{
    let before = marks.len();
    marks.extend_from_slice(more.as_slice())?;
    if let Err(error) = text.extend_from_slice(lines.as_slice()) {
        marks.truncate(before);
        return Err(error);
    }
    Ok(())
}

/// For how many bytes of text, and for how many pieces, a part makes room for each event that it will report, and for how many events at
/// most: guesses.
const BYTES_AN_EVENT: usize = 320;

const PIECES_AN_EVENT: usize = 5;

const MOST_EVENTS: usize = 32_768;

/// An empty list with this room, or with none where there is no memory for it.
fn roomy<T>(alloc: Global, room: usize) -> Vec<T>
    ensures { result.items ≡ [] }
{
    match Vec::with_capacity(alloc, room) {
        Ok(list) => list,
        Err(_) => Vec::new(alloc),
    }
}

impl Part {
    /// A part that reports nothing.
    pub fn new(alloc: Global) -> Part
        ensures { result ≡ [] }
    {
        Part {
            text: Vec::new(alloc),
            marks: Vec::new(alloc),
        }
    }

    /// The same, with room for what so many events may report, up to a bound, if memory is available: a list that grows in small steps is
    /// moved many times.
    pub fn with_room(alloc: Global, events: usize) -> Part
        ensures { result ≡ [] }
    {
        let most = events.min(MOST_EVENTS);
        Part {
            text: roomy(alloc, most * BYTES_AN_EVENT),
            marks: roomy(alloc, most * PIECES_AN_EVENT),
        }
    }

    /// Reports all that an event of one session, or of none, gave. `number` is the event's in the replay. Fails only when out of memory, at
    /// 4 GiB of text for one event, at 2^16 packets that it sent or dropped, or at a number of 2^32 or more; then the part is as before.
    pub fn add_event(
        &mut self,
        number: u64,
        outs: &[Out],
        answer: &Answer,
    ) -> Result<(), AllocError>
        ensures reported { OnOk result (self.new
            ≡ self.old ++ whole_piece number (record { items = outs.now; answer = answer.now }) ∷ []) }
        ensures same { OnErr result (self.new ≡ self.old) }
    {
        append_event(&mut self.marks, &mut self.text, number, outs, answer)
    }

    /// Reports what a tick emitted, one piece for each output. `number` is the tick's in the replay. Fails only when out of memory or when
    /// a number is 2^32 or more; then the part is as before.
    pub fn add_tick(&mut self, number: u64, outs: &[Out]) -> Result<(), AllocError>
        ensures reported { OnOk result (self.new ≡ self.old ++ map (item_piece number) outs.now) }
        ensures same { OnErr result (self.new ≡ self.old) }
    {
        append_items(&mut self.marks, &mut self.text, number, outs)
    }

    /// Appends to what it reported so far all that another part reports. Fails only when out of memory, and then the part is as before.
    pub fn append(&mut self, other: &Part) -> Result<(), AllocError>
        ensures reported { OnOk result (self.new ≡ self.old ++ other.now) }
        ensures same { OnErr result (self.new ≡ self.old) }
    {
        append_all(&mut self.marks, &mut self.text, &other.marks, &other.text)
    }

    /// Its pieces, by reference.
    pub(crate) fn rest(&self) -> Rest
        ensures { result ≡ self.now }
    {
        Rest {
            marks: self.marks.as_slice(),
            text: self.text.as_slice(),
        }
    }

    /// Takes all pieces off, appends their text, and gives how many packets they report as sent and as dropped. Behind no text its own is
    /// handed over as it lies. Fails only when out of memory.
    pub(crate) fn take_all(&mut self, text: &mut Vec<u8>) -> Result<(u64, u64), AllocError>
        ensures rest { OnOk result (self.new ≡ []) }
        ensures text { OnOk result (text.new.items ≡ text.old.items ++ texts self.old) }
        ensures txs { IfOk result (λ counts. counts.0 ≡ sum_by (λ p. p.txs) self.old) }
        ensures drops { IfOk result (λ counts. counts.1 ≡ sum_by (λ p. p.drops) self.old) }
    {
        let counts = counts_of(self.marks.as_slice());
        hand_over(&mut self.text, text)?;
        self.marks.clear();
        self.text.clear();
        Ok(counts)
    }
}
