//! One line.
ghost use Rattle.std.specs.Prelude.{map};
ghost use Rattle.bfd_script.specs.Entries.{row_entry, rx_entry, valued, worded};
ghost use Rattle.bfd_script.specs.Gives.{◌>>=◌ as on_to, Gives};
ghost use Rattle.bfd_script.specs.Points.{p2p_row};
ghost use Rattle.bfd_script.specs.Reading.{admitted, line_read};

use crate::fields::{LineFault, ReadFault, line_text, split_fields};
use crate::line::{Word, read_point, read_values, rx_entry, word_named};
use crate::state::Reading;
use std::alloc::Global;

/// Accepts one more `rx` line of these values, which goes to the others as it is read.
fn take_packet(alloc: Global, reading: &mut Reading, values: &[&[u8]]) -> Result<(), ReadFault>
    ensures { Gives (λ _. reading.new)
        result (on_to (rx_entry (map (λ value. value.now) values.now)) (λ entry. admitted entry reading.old)) }
{
    let line = rx_entry(alloc, values)?;
    reading.push(line)
}

/// Accepts one more `p2p` line of these values. Most rows of a table are such lines, so the session goes to its place as it is read.
#[inline(never)]
fn take_point(alloc: Global, reading: &mut Reading, values: &[&[u8]]) -> Result<(), ReadFault>
    ensures { Gives (λ _. reading.new)
        result (on_to (row_entry (p2p_row (map (λ value. value.now) values.now))) (λ entry. admitted entry reading.old)) }
{
    let config = read_point(values)?;
    reading.add_row(alloc, config)
}

/// Accepts one more line of these values, another than `rx` and `p2p`.
#[inline(never)]
fn take_entry(
    alloc: Global,
    reading: &mut Reading,
    word: Word,
    values: &[&[u8]],
) -> Result<(), ReadFault>
    ensures { Gives (λ _. reading.new)
        result (on_to (valued reading.old.version word (map (λ value. value.now) values.now))
        (λ entry. admitted entry reading.old)) }
{
    let entry = read_values(alloc, reading.version(), word, values)?;
    reading.accept(alloc, entry)
}

/// Accepts one more line of these values. Most lines are `rx` and `p2p` lines, so these have ways of their own.
fn take_values(
    alloc: Global,
    reading: &mut Reading,
    word: Word,
    values: &[&[u8]],
) -> Result<(), ReadFault>
    ensures { Gives (λ _. reading.new)
        result (on_to (valued reading.old.version word (map (λ value. value.now) values.now))
        (λ entry. admitted entry reading.old)) }
{
    match word {
        Word::Rx => take_packet(alloc, reading, values),
        Word::P2p => take_point(alloc, reading, values),
        other => take_entry(alloc, reading, other, values),
    }
}

/// Accepts one more line of these fields.
fn take_fields(
    alloc: Global,
    live: bool,
    reading: &mut Reading,
    fields: &[&[u8]],
) -> Result<(), ReadFault>
    ensures { Gives (λ _. reading.new)
        result (on_to (worded reading.old.version reading.old.place live (map (λ field. field.now) fields.now))
        (λ entry. admitted entry reading.old)) }
{
    let Some((name, values)) = fields.split_first() else {
        return Err(ReadFault::Fault(LineFault::UnknownWord));
    };
    let Some(word) = word_named(reading.version(), name) else {
        return Err(ReadFault::Fault(LineFault::UnknownWord));
    };
    if !reading.place().takes(live, word) {
        return Err(ReadFault::Fault(LineFault::Order));
    }
    take_values(alloc, reading, word, values)
}

/// Accepts one more line. `fields` is room for its fields.
pub(crate) fn read_step<'a>(
    alloc: Global,
    live: bool,
    reading: &mut Reading,
    line: &'a [u8],
    fields: &mut Vec<&'a [u8]>,
) -> Result<(), ReadFault>
    ensures { Gives (λ _. reading.new) result (line_read live reading.old line.now) }
{
    let text = line_text(line)?;
    split_fields(text, fields)?;
    take_fields(alloc, live, reading, fields)
}
