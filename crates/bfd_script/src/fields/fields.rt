//! Lines, fields and numbers.
ghost use Rattle.std.specs.Prelude.{◌≡◌, ◌+◌, ◌-◌, ◌++◌, ◌==◌, ◌<◌, ◌≤◌, ◌∷◌, [], ◌&&◌, ◌||◌, Err, IfOk, IfSome, IsTrue, MatchOption, None, Ok};
ghost use Rattle.std.specs.Prelude.{OnOk, drop, if◌then◌else◌, length, map, nat_lt, not, slice_index, take, true};
ghost use Rattle.std.specs.Simd.Lanes.{mask_l};
ghost use Rattle.std.specs.List.{list_all, position_or_len, slice_split};
ghost use Rattle.std.specs.Char.{is_ascii_digit};
ghost use Rattle.std.specs.Str.Parse.{digits_value};
ghost use Rattle.bfd_script.specs.Fields.{IsUnended, split_fields, is_printable, number_in, line_text};
ghost use Rattle.bfd_script.specs.Gives.{SeesField};
ghost use Rattle.bfd_script.specs.declared.fields.fault.LineFault.TheVariants.{OutOfRange};

use crate::fields::fault::LineFault;
use memchr::memchr;
use std::alloc::AllocError;
use std::simd::prelude::*;
use std::str;

/// The most bytes that a line may have before its LF.
const MOST_LINE: usize = 4096;

/// How many bytes are looked at side by side.
const RUN: usize = 32;

/// How many bytes of a line have their spaces marked.
const FRONT: usize = 64;

/// How many digits surely write a number of 64 bits.
const MOST_DIGITS: usize = 18;

/// The first line of a text without its LF, and the text after it; none where no LF ends it.
#[tactic(auto, using(crate::proofs::FirstLine::first_of_more, crate::proofs::FirstLine::no_end))]
pub fn whole_line(text: &[u8]) -> Option<(&[u8], &[u8])>
    ensures line { IfSome result (λ line. (text.now ≡ line.0.now ++ 10 ∷ line.1.now) × IsUnended line.0.now) }
    ensures inside { result ≡ None → IsUnended text.now }
{
    match memchr(b'\n', text) {
        Some(end) => {
            let (_, rest) = text.split_at(end + 1);
            Some((&text[..end], rest))
        }
        None => None,
    }
}

/// Whether each byte of a run may stand in a line: surely so where the answer is true.
fn is_run_printable(run: &[u8; RUN]) -> bool
    ensures { IsTrue result → list_all is_printable run.now ≡ true }
{
    let bytes = u8x32::from_array(*run);
    bytes.simd_lt(u8x32::splat(b' ')).to_bitmask() == 0
        && bytes.simd_gt(u8x32::splat(b'~')).to_bitmask() == 0
}

/// Whether each byte may stand in a line, by one after another.
fn is_rest_printable(line: &[u8]) -> bool
    ensures { result ≡ list_all is_printable line.now }
{
    let mut rest = line;
    let mut printable = true;
    while let [byte, after @ ..] = rest {
        printable &= *byte >= b' ' && *byte <= b'~';
        rest = after;
    }
    printable
}

/// Whether each byte of the last run may stand in a line: surely so where the answer is true.
fn is_end_printable(line: &[u8]) -> bool
    ensures { IsTrue result → list_all is_printable (drop (length line.now - 32) line.now) ≡ true }
{
    match line.split_last_chunk::<RUN>() {
        Some((_, run)) => is_run_printable(run),
        None => false,
    }
}

/// Whether each byte may stand in a line.
fn is_all_printable(line: &[u8]) -> bool
    ensures { result ≡ list_all is_printable line.now }
{
    let mut rest = line;
    while let Some((run, after)) = rest.split_first_chunk::<RUN>() {
        if !is_run_printable(run) {
            break;
        }
        rest = after;
    }
    if rest.len() < RUN && is_end_printable(line) {
        return true;
    }
    is_rest_printable(rest)
}

/// A line that may be looked at: refused where it is too long or has a byte that isn't printable.
pub fn line_text(line: &[u8]) -> Result<&[u8], LineFault>
    ensures { SeesField (λ text. text.now) result (line_text line.now) }
{
    if line.len() > MOST_LINE {
        return Err(LineFault::TooLong);
    }
    if !is_all_printable(line) {
        return Err(LineFault::NotAscii);
    }
    Ok(line)
}

/// Where the first such byte of a run is, by a look at all of them side by side: the length where there is none.
fn place_in_run(byte: u8, run: &[u8; RUN]) -> usize
    ensures { result ≡ position_or_len (λ other. other == byte) run.now }
{
    let marks = u8x32::from_array(*run)
        .simd_eq(u8x32::splat(byte))
        .to_bitmask();
    if marks == 0 {
        RUN
    } else {
        marks.trailing_zeros() as usize
    }
}

/// Where the first such byte of a text is, if far from its start: the length where there is none.
#[tactic(auto, using(crate::proofs::Cuts::at_place, crate::proofs::Cuts::at_end))]
fn far_place(byte: u8, text: &[u8]) -> usize
    ensures { result ≡ position_or_len (λ other. other == byte) text.now }
{
    match memchr(byte, text) {
        Some(place) => place,
        None => text.len(),
    }
}

/// Whether the last run of a text has no such byte: surely so where the answer is true.
fn is_absent_at_end(byte: u8, text: &[u8]) -> bool
    ensures { IsTrue result → 32 ≤ position_or_len (λ other. other == byte) (drop (length text.now - 32) text.now) }
{
    match text.split_last_chunk::<RUN>() {
        Some((_, run)) => place_in_run(byte, run) == RUN,
        None => false,
    }
}

/// Where the first such byte of a text is: the length where there is none.
fn place_of(byte: u8, text: &[u8]) -> usize
    ensures { result ≡ position_or_len (λ other. other == byte) text.now }
{
    if let Some((run, _)) = text.split_first_chunk::<RUN>() {
        let place = place_in_run(byte, run);
        if place < RUN {
            return place;
        }
        if text.len() <= 2 * RUN && is_absent_at_end(byte, text) {
            return text.len();
        }
    }
    far_place(byte, text)
}

/// What stands before the first such byte of a text, and after it: None where it has none.
pub(crate) fn cut_at(byte: u8, text: &[u8]) -> Option<(&[u8], &[u8])>
    ensures { MatchOption result (slice_split (λ other. other == byte) text.now ≡ text.now ∷ [])
        (λ parts. (slice_split (λ other. other == byte) text.now
        ≡ parts.0.now ∷ slice_split (λ other. other == byte) parts.1.now) × (length parts.1.now < length text.now)) }
{
    let place = place_of(byte, text);
    if place >= text.len() {
        return None;
    }
    let (_, rest) = text.split_at(place + 1);
    Some((&text[..place], rest))
}

/// Where the spaces of a line's first bytes are: a bit for each byte, by a look at all of them side by side.
fn marks_of(front: &[u8; FRONT]) -> u64
    ensures { result ≡ mask_l (map (λ other. other == 32) front.now) }
{
    u8x64::from_array(*front)
        .simd_eq(u8x64::splat(b' '))
        .to_bitmask()
}

/// What stands before the first space of a text, which is among the first bytes whose spaces are marked; what stands after it; and
/// the marks of those bytes that are left.
fn cut_marked(text: &[u8], marked: usize, marks: u64) -> (&[u8], &[u8], u64)
    requires some { 0 < marks }
    requires within { marked ≤ length text.now }
    requires few { marked ≤ 64 }
    requires marks { marks ≡ mask_l (map (λ other. other == 32) (take marked text.now)) }
    ensures cut { slice_split (λ other. other == 32) text.now
        ≡ result.0.now ∷ slice_split (λ other. other == 32) result.1.now }
    ensures marked { length result.0.now < marked }
    ensures long { length text.now ≡ length result.0.now + 1 + length result.1.now }
    ensures marks { result.2 ≡ mask_l
        (map (λ other. other == 32) (take (marked - (length result.0.now + 1)) result.1.now)) }
{
    let place = marks.trailing_zeros();
    let (front, _) = text.split_at(place as usize);
    let (_, rest) = text.split_at(place as usize + 1);
    (front, rest, marks >> place >> 1)
}

/// What stands between the spaces of a line's first bytes goes to `fields`: what is left of the line.
#[tactic(auto, using(crate::proofs::Cuts::next_part))]
fn split_front<'a>(line: &'a [u8], fields: &mut Vec<&'a [u8]>) -> Result<&'a [u8], AllocError>
    ensures { IfOk result (λ rest. map (λ field. field.now) fields.new.items
        ++ slice_split (λ other. other == 32) rest.now
        ≡ map (λ field. field.now) fields.old.items ++ slice_split (λ other. other == 32) line.now) }
{
    let Some((front, _)) = line.split_first_chunk::<FRONT>() else {
        return Ok(line);
    };
    fields.reserve(FRONT)?;
    let mut rest = line;
    let mut marked = FRONT;
    let mut marks = marks_of(front);
    while marks != 0 {
        let (field, after, others) = cut_marked(rest, marked, marks);
        fields.push_reserved(field);
        marked -= field.len() + 1;
        rest = after;
        marks = others;
    }
    Ok(rest)
}

/// What stands between the spaces of a line, in `fields`, whose room is used again for each line.
#[tactic(auto, using(crate::proofs::Cuts::next_part, crate::proofs::Cuts::last_part))]
pub fn split_fields<'a>(line: &'a [u8], fields: &mut Vec<&'a [u8]>) -> Result<(), AllocError>
    ensures { OnOk result (map (λ field. field.now) fields.new.items ≡ split_fields line.now) }
{
    fields.clear();
    let mut rest = split_front(line, fields)?;
    while let Some((field, after)) = cut_at(b' ', rest) {
        fields.push(field)?;
        rest = after;
    }
    fields.push(rest)?;
    Ok(())
}

/// Whether each byte is a decimal digit.
fn is_all_digits(field: &[u8]) -> bool
    ensures { result ≡ list_all is_ascii_digit field.now }
{
    field.iter().all(|byte| byte.is_ascii_digit())
}

/// Whether a field has a digit, and no zero before another one.
fn is_led(field: &[u8]) -> bool
    ensures { result ≡ (nat_lt 0 (length field.now) && not (nat_lt 1
        (length field.now) && slice_index field.now 0 == 48)) }
{
    !field.is_empty() && !(field.len() > 1 && field[0] == b'0')
}

/// The number that at most 18 decimal digits write, in one pass: None where one is no digit, and where there are more.
fn small_number(field: &[u8]) -> Option<u64>
    ensures { IfSome result (λ n. (n ≡ digits_value 10 field.now) × (list_all is_ascii_digit field.now ≡ true)) }
{
    if field.len() > MOST_DIGITS {
        return None;
    }
    let mut rest = field;
    let mut n = 0;
    while let [digit, after @ ..] = rest {
        if !digit.is_ascii_digit() {
            return None;
        }
        n = n * 10 + (*digit - b'0') as u64;
        rest = after;
    }
    Some(n)
}

/// A number of a range, or OutOfRange.
fn within(n: u64, least: u64, most: u64) -> Result<u64, LineFault>
    ensures value { result ≡ (if nat_lt n least || nat_lt most n then Err OutOfRange else Ok n) }
    ensures range { IfOk result (λ n. (least ≤ n) × (n ≤ most)) }
{
    if n < least || most < n {
        return Err(LineFault::OutOfRange);
    }
    Ok(n)
}

/// The same as `number`, by digits that it may look at twice.
#[tactic(auto, using(crate::proofs::Decimal::too_large))]
fn text_number(field: &str, least: u64, most: u64) -> Result<u64, LineFault>
    ensures value { result ≡ number_in least most field.now }
    ensures range { IfOk result (λ n. (least ≤ n) × (n ≤ most)) }
{
    if !is_all_digits(field.as_bytes()) || !is_led(field.as_bytes()) {
        return Err(LineFault::BadNumber);
    }
    match field.parse::<u64>() {
        Ok(n) => within(n, least, most),
        Err(_) => Err(LineFault::OutOfRange),
    }
}

/// The same as `number`, for a field that isn't surely a small number.
#[cold]
#[inline(never)]
#[tactic(auto, using(crate::proofs::Ascii::digits_are_utf8))]
fn any_number(field: &[u8], least: u64, most: u64) -> Result<u64, LineFault>
    ensures value { result ≡ number_in least most field.now }
    ensures range { IfOk result (λ n. (least ≤ n) × (n ≤ most)) }
{
    if !is_all_digits(field) {
        return Err(LineFault::BadNumber);
    }
    match str::from_utf8(field) {
        Ok(text) => text_number(text, least, most),
        Err(_) => unreachable!(),
    }
}

/// A field that is a number from `least` to `most`: BadNumber where it is no number, OutOfRange where it is another one.
#[inline]
pub fn number(field: &[u8], least: u64, most: u64) -> Result<u64, LineFault>
    ensures value { result ≡ number_in least most field.now }
    ensures range { IfOk result (λ n. (least ≤ n) × (n ≤ most)) }
{
    match small_number(field) {
        Some(n) => {
            if !is_led(field) {
                return Err(LineFault::BadNumber);
            }
            within(n, least, most)
        }
        None => any_number(field, least, most),
    }
}
