//! Numbers and addresses at a place of a text's first bytes.
//!
//! Each part looks at a byte once, and answers the place behind the byte that ends the field; where the field isn't written in the usual way
//! it answers that it doesn't know. It never answers a fault: the general reader reads such a line.
ghost use Rattle.std.specs.Prelude.{◌≡◌, ◌+◌, ◌<◌, ◌≤◌, ◌^◌, IfSome, length, slice_index};
ghost use Rattle.bfd_packet.specs.declared.arrival.Addr.TheVariants.{V4};
ghost use Rattle.bfd_script.specs.Fields.{number_in};
ghost use Rattle.bfd_script.specs.Values.{IsAddress, address_of};
ghost use Rattle.bfd_script.specs.Windows.{HasNumber, Reads};

use crate::fields::window_digits::long_at;
use bfd_packet::Addr;

/// How many bytes are surely there where a line is looked at in this way: more than the longest such line has.
pub(crate) const WINDOW: usize = 256;

/// What a byte is above `0`: more than 9 where it is no digit.
fn figure(text: &[u8; WINDOW], at: usize) -> u8
    requires { at < 256 }
    ensures { (result ≤ 9) → (slice_index text.now at ≡ 48 + result) }
{
    text[at].wrapping_sub(b'0')
}

/// A number of so many digits at most, and the place behind it.
fn number_at(text: &[u8; WINDOW], from: usize, most: usize) -> Option<(u64, usize)>
    requires few { most ≤ 18 }
    requires some { 0 < most }
    requires within { from + most + 1 ≤ 256 }
    ensures number { IfSome result (λ part. HasNumber text.now from part.1 part.0) }
    ensures near { IfSome result (λ part. part.1 ≤ from + most) }
{
    let first = figure(text, from);
    if first > 9 {
        return None;
    }
    let mut n = first as u64;
    let mut at = from + 1;
    let mut next = figure(text, at);
    if next <= 9 && first == 0 {
        return None;
    }
    while next <= 9 {
        if at - from >= most {
            return None;
        }
        n = n * 10 + next as u64;
        at += 1;
        next = figure(text, at);
    }
    Some((n, at))
}

/// A number of a range before such a byte, and the place behind that.
fn number_before(
    text: &[u8; WINDOW],
    from: usize,
    digits: usize,
    end: u8,
    least: u64,
    most: u64,
) -> Option<(u64, usize)>
    requires few { digits ≤ 18 }
    requires some { 0 < digits }
    requires within { from + digits + 1 ≤ 256 }
    ensures says { IfSome result (λ part. Reads (number_in least most) end text.now from part.1 part.0) }
    ensures range { IfSome result (λ part. (least ≤ part.0) × (part.0 ≤ most)) }
    ensures near { IfSome result (λ part. part.1 ≤ from + digits + 1) }
{
    let (n, at) = number_at(text, from, digits)?;
    if n < least || n > most || text[at] != end {
        return None;
    }
    Some((n, at + 1))
}

/// A number of a range before a space, and the place behind that.
pub(crate) fn spaced_at(
    text: &[u8; WINDOW],
    from: usize,
    digits: usize,
    least: u64,
    most: u64,
) -> Option<(u64, usize)>
    requires few { digits ≤ 18 }
    requires some { 0 < digits }
    requires within { from + digits + 1 ≤ 256 }
    ensures says { IfSome result (λ part. Reads (number_in least most) 32 text.now from part.1 part.0) }
    ensures range { IfSome result (λ part. (least ≤ part.0) × (part.0 ≤ most)) }
    ensures near { IfSome result (λ part. part.1 ≤ from + digits + 1) }
{
    number_before(text, from, digits, b' ', least, most)
}

/// A number of a range before the end of the line, and the place behind that.
pub(crate) fn ended_at(
    text: &[u8; WINDOW],
    from: usize,
    digits: usize,
    least: u64,
    most: u64,
) -> Option<(u64, usize)>
    requires few { digits ≤ 18 }
    requires some { 0 < digits }
    requires within { from + digits + 1 ≤ 256 }
    ensures says { IfSome result (λ part. Reads (number_in least most) 10 text.now from part.1 part.0) }
    ensures range { IfSome result (λ part. (least ≤ part.0) × (part.0 ≤ most)) }
    ensures near { IfSome result (λ part. part.1 ≤ from + digits + 1) }
{
    number_before(text, from, digits, b'\n', least, most)
}

/// A number up to 255 before such a byte, and the place behind that: the place 0 where there is none.
fn octet_at(text: &[u8; WINDOW], at: usize, end: u8) -> (u32, usize)
    requires { at + 4 ≤ 256 }
    ensures says { (0 < result.1) → Reads (number_in 0 255) end text.now at result.1 result.0 }
    ensures range { result.0 < 256 }
    ensures near { result.1 ≤ at + 4 }
{
    let a = figure(text, at) as u32;
    if a > 9 {
        return (0, 0);
    }
    if text[at + 1] == end {
        return (a, at + 2);
    }
    let b = figure(text, at + 1) as u32;
    if b > 9 || a == 0 {
        return (0, 0);
    }
    let n = a * 10 + b;
    if text[at + 2] == end {
        return (n, at + 3);
    }
    let c = figure(text, at + 2) as u32;
    let n = n * 10 + c;
    if c > 9 || n > 255 || text[at + 3] != end {
        return (0, 0);
    }
    (n, at + 4)
}

/// An address of four numbers before a space, and the place behind that: the place 0 where there is none.
fn quad_at(text: &[u8; WINDOW], at: usize) -> (u32, usize)
    requires { at + 16 ≤ 256 }
    ensures says { (0 < result.1) → Reads address_of 32 text.now at result.1 (V4 result.0) }
    ensures range { result.0 < 2 ^ 32 }
    ensures near { result.1 ≤ at + 16 }
{
    let (a, second) = octet_at(text, at, b'.');
    if second == 0 {
        return (0, 0);
    }
    let (b, third) = octet_at(text, second, b'.');
    if third == 0 {
        return (0, 0);
    }
    let (c, fourth) = octet_at(text, third, b'.');
    if fourth == 0 {
        return (0, 0);
    }
    let (d, behind) = octet_at(text, fourth, b' ');
    if behind == 0 {
        return (0, 0);
    }
    (((a * 256 + b) * 256 + c) * 256 + d, behind)
}

/// A number up to 255 before a space, and the place behind that.
pub(crate) fn small_at(text: &[u8; WINDOW], at: usize) -> Option<(u8, usize)>
    requires { at + 4 ≤ 256 }
    ensures says { IfSome result (λ part. Reads (number_in 0 255) 32 text.now at part.1 part.0) }
    ensures range { IfSome result (λ part. part.0 < 256) }
    ensures near { IfSome result (λ part. part.1 ≤ at + 4) }
{
    let (n, behind) = octet_at(text, at, b' ');
    if behind == 0 {
        return None;
    }
    Some((n as u8, behind))
}

/// An address before a space, and the place behind that.
pub(crate) fn address_at(text: &[u8; WINDOW], at: usize) -> Option<(Addr, usize)>
    requires { at + 33 ≤ 256 }
    ensures says { IfSome result (λ part. Reads address_of 32 text.now at part.1 part.0) }
    ensures range { IfSome result (λ part. IsAddress part.0) }
    ensures near { IfSome result (λ part. part.1 ≤ at + 33) }
{
    let (n, behind) = quad_at(text, at);
    if behind != 0 {
        return Some((Addr::V4(n), behind));
    }
    long_at(text, at)
}
