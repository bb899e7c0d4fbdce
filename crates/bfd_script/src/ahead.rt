//! The usual lines that come next, one after another.
//!
//! Behind a line that was read as any line is, many of the most usual kinds tend to come: sessions in the table, and packets and ticks behind
//! it. They are read here in one way down their bytes, with no search for their ends and fields, as long as each is written in the usual way.
//! Where one isn't, the general reader goes on.
ghost use Rattle.std.specs.Prelude.{◌≡◌, ◌+◌, ◌++◌, ◌<◌, ◌≤◌, ◌^◌, Bool, IfOk, List, MatchResult, false, length, ℕ};
ghost use Rattle.bfd_script.specs.Fields.{lines_of};
ghost use Rattle.bfd_script.specs.Gives.{RefusesText};
ghost use Rattle.bfd_script.specs.Reading.{script_from};
ghost use Rattle.bfd_script.specs.declared.line.words.Place.TheVariants.{Events, Table};

use crate::fields::{ScriptFault, WINDOW};
use crate::line::{Place, event_at, point_at};
use crate::state::Reading;
use std::alloc::Global;

/// Reads packets and ticks one after another, the first of which has this number: what stands behind them, and the number of the line there.
fn take_events<'a>(
    reading: &mut Reading,
    bytes: &'a [u8],
    number: u64,
) -> Result<(&'a [u8], u64), ScriptFault>
    requires place { reading.old.place ≡ Events }
    requires room { number + length bytes.now < 2 ^ 64 }
    ensures script { MatchResult result
        (λ ahead. (more : List ℕ) → script_from false reading.old number (lines_of (bytes.now ++ more))
        ≡ script_from false reading.new ahead.1 (lines_of (ahead.0.now ++ more)))
        (λ fault. (more : List ℕ) → RefusesText fault (script_from false reading.old number (lines_of (bytes.now ++ more)))) }
    ensures count { IfOk result (λ ahead. ahead.1 + length ahead.0.now ≤ number + length bytes.now) }
    ensures less { IfOk result (λ ahead. length ahead.0.now ≤ length bytes.now) }
{
    let mut rest = bytes;
    let mut next = number;
    while let Some((text, _)) = rest.split_first_chunk::<WINDOW>() {
        let Some((line, used)) = event_at(text) else {
            break;
        };
        match reading.push(line) {
            Ok(()) => {}
            Err(fault) => return Err(fault.at(next)),
        }
        rest = &rest[used..];
        next += 1;
    }
    Ok((rest, next))
}

/// Reads sessions one after another, the first of which has this number: what stands behind them, and the number of the line there.
fn take_rows<'a>(
    alloc: Global,
    reading: &mut Reading,
    bytes: &'a [u8],
    number: u64,
) -> Result<(&'a [u8], u64), ScriptFault>
    requires place { reading.old.place ≡ Table }
    requires room { number + length bytes.now < 2 ^ 64 }
    ensures script { MatchResult result
        (λ ahead. (live : Bool) (more : List ℕ) → script_from live reading.old number (lines_of (bytes.now ++ more))
        ≡ script_from live reading.new ahead.1 (lines_of (ahead.0.now ++ more)))
        (λ fault. (live : Bool) (more : List ℕ) → RefusesText fault (script_from live reading.old number (lines_of (bytes.now ++ more)))) }
    ensures count { IfOk result (λ ahead. ahead.1 + length ahead.0.now ≤ number + length bytes.now) }
    ensures less { IfOk result (λ ahead. length ahead.0.now ≤ length bytes.now) }
{
    let mut rest = bytes;
    let mut next = number;
    while let Some((text, _)) = rest.split_first_chunk::<WINDOW>() {
        let Some((config, used)) = point_at(text) else {
            break;
        };
        match reading.add_row(alloc, config) {
            Ok(()) => {}
            Err(fault) => return Err(fault.at(next)),
        }
        rest = &rest[used..];
        next += 1;
    }
    Ok((rest, next))
}

/// Reads the usual lines that may come next, the first of which has this number: what stands behind them, and the number of the line there.
pub(crate) fn take_usual<'a>(
    alloc: Global,
    live: bool,
    reading: &mut Reading,
    bytes: &'a [u8],
    number: u64,
) -> Result<(&'a [u8], u64), ScriptFault>
    requires room { number + length bytes.now < 2 ^ 64 }
    ensures script { MatchResult result
        (λ ahead. (more : List ℕ) → script_from live reading.old number (lines_of (bytes.now ++ more))
        ≡ script_from live reading.new ahead.1 (lines_of (ahead.0.now ++ more)))
        (λ fault. (more : List ℕ) → RefusesText fault (script_from live reading.old number (lines_of (bytes.now ++ more)))) }
    ensures count { IfOk result (λ ahead. ahead.1 + length ahead.0.now ≤ number + length bytes.now) }
    ensures less { IfOk result (λ ahead. length ahead.0.now ≤ length bytes.now) }
{
    match reading.place() {
        Place::Table => take_rows(alloc, reading, bytes, number),
        Place::Events => {
            if live {
                return Ok((bytes, number));
            }
            take_events(reading, bytes, number)
        }
        _ => Ok((bytes, number)),
    }
}
