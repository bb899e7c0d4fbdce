//! Hexadecimal digits at a place of a text's first bytes.
ghost use Rattle.std.specs.Prelude.{◌≡◌, ◌+◌, ◌*◌, ◌≤◌, ◌∷◌, [], ◌++◌, IfSome, Some, length, slice_index, take};
ghost use Rattle.hex.specs.Hex.{IsBytes, hex_digit_value};
ghost use Rattle.bfd_script.specs.Values.{IsAddress, address_of, payload_of};
ghost use Rattle.bfd_script.specs.Windows.{HasBytes, Reads};

use crate::fields::digits::{BYTES, DIGITS, bytes_of_run};
use crate::fields::window::WINDOW;
use bfd_packet::{Addr, Bits128};
use byteorder::{BigEndian, ByteOrder};

/// How many bytes of a payload are read in this way: as many as the longest control packet has.
pub(crate) const ROOM: usize = 52;

/// The bytes of sixteen digits that stand here.
#[tactic(auto, using(crate::proofs::WindowDigits::run_has))]
fn run_at(text: &[u8; WINDOW], at: usize) -> Option<[u8; BYTES]>
    requires { at + 16 ≤ 256 }
    ensures { IfSome result (λ bytes. HasBytes text.now at (at + 16) bytes) }
{
    bytes_of_run(&text[at..at + DIGITS])
}

/// An address of 32 digits before a space, and the place behind that.
#[tactic(auto, using(crate::proofs::WindowDigits::long_ends))]
pub(crate) fn long_at(text: &[u8; WINDOW], at: usize) -> Option<(Addr, usize)>
    requires { at + 33 ≤ 256 }
    ensures says { IfSome result (λ part. Reads address_of 32 text.now at part.1 part.0) }
    ensures range { IfSome result (λ part. IsAddress part.0) }
    ensures near { IfSome result (λ part. part.1 ≤ at + 33) }
{
    let high = run_at(text, at)?;
    let low = run_at(text, at + DIGITS)?;
    if text[at + 2 * DIGITS] != b' ' {
        return None;
    }
    let bits = Bits128 {
        high: BigEndian::read_u64(&high),
        low: BigEndian::read_u64(&low),
    };
    Some((Addr::V6(bits), at + 33))
}

/// What a digit of both cases says: more than 15 where it is none.
fn nibble(byte: u8) -> u8
    ensures value { (result ≤ 15) → (hex_digit_value byte ≡ Some result) }
{
    match byte {
        b'0'..=b'9' => byte - b'0',
        b'a'..=b'f' => byte - b'a' + 10,
        b'A'..=b'F' => byte - b'A' + 10,
        _ => 16,
    }
}

/// The byte of two digits that stand here.
#[tactic(auto, using(crate::proofs::WindowDigits::pair_has))]
fn pair_at(text: &[u8; WINDOW], at: usize) -> Option<u8>
    requires { at + 2 ≤ 256 }
    ensures { IfSome result (λ byte. HasBytes text.now at (at + 2) (byte ∷ [])) }
{
    let high = nibble(text[at]);
    let low = nibble(text[at + 1]);
    if high > 15 || low > 15 {
        return None;
    }
    Some(high * 16 + low)
}

/// Puts a run into room.
fn keep_run(room: &mut [u8; ROOM], done: usize, run: &[u8; BYTES])
    requires { done + 8 ≤ 52 }
    ensures { take (done + 8) room.new ≡ take done room.old ++ run.now }
{
    room[done..done + BYTES].copy_from_slice(run);
}

/// Puts the bytes of the runs that stand here into room: how many bytes, two digits each.
fn runs_at(text: &[u8; WINDOW], from: usize, room: &mut [u8; ROOM]) -> usize
    requires { from + 106 ≤ 256 }
    ensures bytes { HasBytes text.now from (from + 2 * result) (take result room.new) }
    ensures few { result ≤ 52 }
{
    let mut done = 0;
    while done + BYTES <= ROOM && text[from + 2 * done] != b'\n' {
        let Some(run) = run_at(text, from + 2 * done) else {
            return done;
        };
        keep_run(room, done, &run);
        done += BYTES;
    }
    done
}

/// Puts the bytes of the digits before the end of the line into room: how many bytes, two digits each.
fn bytes_at(text: &[u8; WINDOW], from: usize, room: &mut [u8; ROOM]) -> Option<usize>
    requires { from + 106 ≤ 256 }
    ensures bytes { IfSome result (λ done. HasBytes text.now from (from + 2 * done) (take done room.new)) }
    ensures end { IfSome result (λ done. slice_index text.now (from + 2 * done) ≡ 10) }
    ensures few { IfSome result (λ done. done ≤ 52) }
{
    let mut done = runs_at(text, from, room);
    while text[from + 2 * done] != b'\n' {
        if done >= ROOM {
            return None;
        }
        room[done] = pair_at(text, from + 2 * done)?;
        done += 1;
    }
    Some(done)
}

/// A payload of at most 52 bytes before the end of the line, put into room: how many bytes, and the place behind the end of the line.
#[tactic(auto, using(crate::proofs::WindowDigits::payload_ends, crate::proofs::WindowDigits::bytes_has))]
pub(crate) fn payload_at(
    text: &[u8; WINDOW],
    from: usize,
    room: &mut [u8; ROOM],
) -> Option<(u8, usize)>
    requires { from + 106 ≤ 256 }
    ensures says { IfSome result (λ part. Reads payload_of 10 text.now from part.1 (take part.0 room.new)) }
    ensures bytes { IfSome result (λ part. IsBytes (take part.0 room.new)) }
    ensures few { IfSome result (λ part. part.0 ≤ 52) }
    ensures near { IfSome result (λ part. part.1 ≤ from + 106) }
{
    let done = bytes_at(text, from, room)?;
    if done == 0 {
        return None;
    }
    Some((done as u8, from + 2 * done + 1))
}
