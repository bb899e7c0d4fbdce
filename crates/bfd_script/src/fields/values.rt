//! Addresses and bytes.
ghost use Rattle.std.specs.Prelude.{◌≡◌, ◌*◌, ◌+◌, ◌-◌, ◌<◌, ◌≤◌, ◌%◌, ◌^◌, ◌==◌, ◌∷◌, [], IfOk, IfSome, MatchResult, Ok, length, take};
ghost use Rattle.std.specs.Prelude.{string_bytes};
ghost use Rattle.std.specs.List.{before_first, slice_split};
ghost use Rattle.hex.specs.Hex.{IsBytes};
ghost use Rattle.bfd_packet.specs.declared.arrival.Addr.TheVariants.{V4};
ghost use Rattle.bfd_script.specs.Gives.{Gives};
ghost use Rattle.bfd_script.specs.declared.fields.fault.LineFault.TheVariants.{BadAddress};
ghost use Rattle.bfd_script.specs.Spelling.{hex_field};
ghost use Rattle.bfd_script.specs.Values.{IsAddress, address_of, bytes_of, dotted_of, octet_of, payload_of, quad_of};

use crate::fields::digits::decode;
use crate::fields::fault::{LineFault, ReadFault};
use crate::fields::fields::{cut_at, number};
use bfd_packet::{Addr, Bits128, Payload};
use byteorder::{BigEndian, ByteOrder};
use hex::FromHexError;
use std::alloc::{AllocError, Global};

/// How many bytes a short payload has at most: as many as the longest control packet.
const MOST_SHORT: usize = 52;

/// One of the four numbers of an address.
fn octet(field: &[u8]) -> Result<u8, LineFault>
    ensures { result ≡ octet_of field.now }
{
    match number(field, 0, 255) {
        Ok(value) => Ok(value as u8),
        Err(_) => Err(LineFault::BadAddress),
    }
}

/// An address of four numbers.
#[tactic(auto, unfolding(crate::specs::Values::quad_of))]
fn quad(a: &[u8], b: &[u8], c: &[u8], d: &[u8]) -> Result<Addr, LineFault>
    ensures value { result ≡ quad_of a.now b.now c.now d.now }
    ensures range { IfOk result IsAddress }
{
    let a = octet(a)?;
    let b = octet(b)?;
    let c = octet(c)?;
    let d = octet(d)?;
    Ok(Addr::V4(u32::from_be_bytes([a, b, c, d])))
}

/// What stands before the first dot of a field, and after it: BadAddress where it has none.
fn cut(field: &[u8]) -> Result<(&[u8], &[u8]), LineFault>
    ensures { MatchResult result (λ parts. slice_split (λ byte. byte == 46) field.now
        ≡ parts.0.now ∷ slice_split (λ byte. byte == 46) parts.1.now)
        (λ fault. (fault ≡ BadAddress) × (slice_split (λ byte. byte == 46) field.now ≡ field.now ∷ [])) }
{
    match cut_at(b'.', field) {
        Some((front, rest)) => Ok((front, rest)),
        None => Err(LineFault::BadAddress),
    }
}

/// An address of what stands between the dots of a field, of which there have to be three.
#[tactic(auto, using(crate::proofs::Cutting::four))]
fn dotted(field: &[u8]) -> Result<Addr, LineFault>
    ensures value { result ≡ dotted_of (slice_split (λ byte. byte == 46) field.now) }
    ensures range { IfOk result IsAddress }
{
    let (a, rest) = cut(field)?;
    let (b, rest) = cut(rest)?;
    let (c, d) = cut(rest)?;
    quad(a, b, c, d)
}

/// The number that three digits write.
fn three_digits(a: u8, b: u8, c: u8) -> u32
    requires first { (48 ≤ a) × (a ≤ 57) }
    requires second { (48 ≤ b) × (b ≤ 57) }
    requires third { (48 ≤ c) × (c ≤ 57) }
    ensures { result ≡ (a - 48) * 100 + (b - 48) * 10 + (c - 48) }
{
    (a - b'0') as u32 * 100 + (b - b'0') as u32 * 10 + (c - b'0') as u32
}

/// The first number of an address where it has three digits, and what stands behind its dot.
fn part_of_three(field: &[u8]) -> Option<(u32, &[u8])>
    ensures part { IfSome result (λ part. (octet_of (before_first (λ byte. byte == 46) field.now) ≡ Ok part.0)
        × (slice_split (λ byte. byte == 46) field.now
        ≡ before_first (λ byte. byte == 46) field.now ∷ slice_split (λ byte. byte == 46) part.1.now)) }
    ensures range { IfSome result (λ part. part.0 < 256) }
{
    match field {
        [
            a @ b'1'..=b'2',
            b @ b'0'..=b'9',
            c @ b'0'..=b'9',
            b'.',
            rest @ ..,
        ] => {
            let n = three_digits(*a, *b, *c);
            if n < 256 { Some((n, rest)) } else { None }
        }
        _ => None,
    }
}

/// The same where it has two or three.
fn part_of_two(field: &[u8]) -> Option<(u32, &[u8])>
    ensures part { IfSome result (λ part. (octet_of (before_first (λ byte. byte == 46) field.now) ≡ Ok part.0)
        × (slice_split (λ byte. byte == 46) field.now
        ≡ before_first (λ byte. byte == 46) field.now ∷ slice_split (λ byte. byte == 46) part.1.now)) }
    ensures range { IfSome result (λ part. part.0 < 256) }
{
    match field {
        [a @ b'1'..=b'9', b @ b'0'..=b'9', b'.', rest @ ..] => {
            Some(((*a - b'0') as u32 * 10 + (*b - b'0') as u32, rest))
        }
        _ => part_of_three(field),
    }
}

/// The first number of an address and what stands behind its dot, where the number is written as it has to be.
fn plain_part(field: &[u8]) -> Option<(u32, &[u8])>
    ensures part { IfSome result (λ part. (octet_of (before_first (λ byte. byte == 46) field.now) ≡ Ok part.0)
        × (slice_split (λ byte. byte == 46) field.now
        ≡ before_first (λ byte. byte == 46) field.now ∷ slice_split (λ byte. byte == 46) part.1.now)) }
    ensures range { IfSome result (λ part. part.0 < 256) }
{
    match field {
        [a @ b'0'..=b'9', b'.', rest @ ..] => Some(((*a - b'0') as u32, rest)),
        _ => part_of_two(field),
    }
}

/// The last number of an address, where it is written as it has to be.
fn plain_end(field: &[u8]) -> Option<u32>
    ensures value { IfSome result (λ n. octet_of field.now ≡ Ok n) }
    ensures range { IfSome result (λ n. n < 256) }
{
    match field {
        [a @ b'0'..=b'9'] => Some((*a - b'0') as u32),
        [a @ b'1'..=b'9', b @ b'0'..=b'9'] => { Some((*a - b'0') as u32 * 10 + (*b - b'0') as u32) }
        [a @ b'1'..=b'2', b @ b'0'..=b'9', c @ b'0'..=b'9'] => {
            let n = three_digits(*a, *b, *c);
            if n < 256 { Some(n) } else { None }
        }
        _ => None,
    }
}

/// The number of an address of four numbers that are written as they have to be.
fn plain_quad(field: &[u8]) -> Option<u32>
    ensures value { IfSome result (λ n. dotted_of (slice_split (λ byte. byte == 46) field.now) ≡ Ok (V4 n)) }
    ensures range { IfSome result (λ n. n < 2 ^ 32) }
{
    let (a, rest) = plain_part(field)?;
    let (b, rest) = plain_part(rest)?;
    let (c, rest) = plain_part(rest)?;
    let d = plain_end(rest)?;
    Some(((a * 256 + b) * 256 + c) * 256 + d)
}

/// The same as `address`, by looking for digits of both kinds.
#[inline(never)]
#[tactic(auto, using(crate::proofs::Nibbles::no_sixteen))]
fn any_address(field: &[u8]) -> Result<Addr, LineFault>
    ensures value { result ≡ address_of field.now }
    ensures range { IfOk result IsAddress }
{
    if field.len() != 32 {
        return dotted(field);
    }
    let mut bytes = [0; 16];
    if decode(field, &mut bytes) {
        Ok(Addr::V6(Bits128::of(BigEndian::read_u128(&bytes))))
    } else {
        dotted(field)
    }
}

/// An address of four numbers, of a field that is too short for 32 digits: None where they aren't written as they have to be.
#[tactic(auto, using(crate::proofs::Octets::no_digits))]
fn plain_address(field: &[u8]) -> Option<Addr>
    ensures value { IfSome result (λ addr. address_of field.now ≡ Ok addr) }
    ensures range { IfSome result IsAddress }
{
    if field.len() >= 32 {
        return None;
    }
    Some(Addr::V4(plain_quad(field)?))
}

/// A field that is an address: 32 hexadecimal digits of both cases, or four numbers 0 to 255 with dots. BadAddress where
/// it is neither.
#[inline]
pub fn address(field: &[u8]) -> Result<Addr, LineFault>
    ensures value { result ≡ address_of field.now }
    ensures range { IfOk result IsAddress }
{
    match plain_address(field) {
        Some(addr) => Ok(addr),
        None => any_address(field),
    }
}

/// The first 256 of these bytes.
fn keep(alloc: Global, bytes: &[u8]) -> Result<Payload, ReadFault>
    ensures value { IfOk result (λ payload. payload ≡ take 256 bytes.now) }
    ensures memory { Gives (λ p. p) result (Ok (take 256 bytes.now)) }
    ensures bytes { IfOk result (λ payload. IsBytes payload) }
    ensures short { IfOk result (λ payload. length payload ≤ 256) }
{
    Ok(Payload::keep(alloc, bytes)?)
}

/// A field that is bytes: an even number of hexadecimal digits of both cases, or `-` for none. BadHex where it is something
/// else.
pub fn bytes_read(alloc: Global, field: &[u8]) -> Result<Vec<u8>, ReadFault>
    ensures { Gives (λ bytes. bytes.items) result (bytes_of field.now) }
{
    if matches!(field, b"-") {
        return Ok(Vec::new(alloc));
    }
    if field.is_empty() {
        return Err(ReadFault::Fault(LineFault::BadHex));
    }
    match hex::decode(alloc, field) {
        Ok(bytes) => Ok(bytes),
        Err(FromHexError::OutOfMemory) => Err(ReadFault::Memory),
        Err(_) => Err(ReadFault::Fault(LineFault::BadHex)),
    }
}

/// A field of an even number of digits, 2 to 104, that is a payload.
#[tactic(auto, using(crate::proofs::Decoding::payload_by_room))]
fn short_payload(alloc: Global, field: &[u8]) -> Result<Payload, ReadFault>
    requires some { 2 ≤ length field.now }
    requires few { length field.now ≤ 104 }
    requires even { length field.now % 2 ≡ 0 }
    ensures value { Gives (λ p. p) result (payload_of field.now) }
    ensures bytes { IfOk result (λ payload. IsBytes payload) }
    ensures short { IfOk result (λ payload. length payload ≤ 256) }
{
    let mut room = [0; MOST_SHORT];
    let bytes = &mut room[..field.len() / 2];
    if !decode(field, bytes) {
        return Err(ReadFault::Fault(LineFault::BadHex));
    }
    keep(alloc, bytes)
}

/// A field that is a payload: bytes, of which the first 256 are kept.
pub fn payload_read(alloc: Global, field: &[u8]) -> Result<Payload, ReadFault>
    ensures value { Gives (λ p. p) result (payload_of field.now) }
    ensures bytes { IfOk result (λ payload. IsBytes payload) }
    ensures short { IfOk result (λ payload. length payload ≤ 256) }
{
    let digits = field.len();
    if 2 <= digits && digits <= 2 * MOST_SHORT && digits % 2 == 0 {
        return short_payload(alloc, field);
    }
    let bytes = bytes_read(alloc, field)?;
    keep(alloc, &bytes)
}

/// Bytes as hexadecimal digits in lower case, and `-` where there are none.
pub fn hex_text(alloc: Global, bytes: &[u8]) -> Result<String, AllocError>
    ensures { IfOk result (λ text. string_bytes text ≡ hex_field bytes.now) }
{
    match bytes {
        [] => String::from_str(alloc, "-"),
        _ => hex::encode(alloc, bytes),
    }
}
