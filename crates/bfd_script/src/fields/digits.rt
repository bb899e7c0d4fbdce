//! Hexadecimal digits, many of them side by side.
ghost use Rattle.std.specs.Prelude.{◌≡◌, ◌≤◌, ◌+◌, ◌*◌, ◌++◌, ℕ, IfSome, IsTrue, MatchResult, Ok, drop, false, length, take, true};
ghost use Rattle.hex.specs.Hex.{decode_pairs, decode_sized, encode_lower};

use std::simd::prelude::*;

/// How many digits are read side by side.
pub(crate) const DIGITS: usize = 16;

/// How many bytes they write, and are written side by side.
pub const BYTES: usize = 8;

/// The bytes that a run of digits of both cases writes: None where one is no digit.
pub(crate) fn bytes_of_run(run: &[u8]) -> Option<[u8; BYTES]>
    requires { length run.now ≡ 16 }
    ensures { IfSome result (λ bytes. (i : ℕ) → decode_pairs i run.now ≡ Ok bytes) }
{
    let digits = u8x16::from_slice(run);
    let figure = digits - u8x16::splat(b'0');
    let letter = (digits | u8x16::splat(32)) - u8x16::splat(b'a');
    let beyond = figure.simd_gt(u8x16::splat(9));
    if (beyond & letter.simd_gt(u8x16::splat(5))).to_bitmask() != 0 {
        return None;
    }
    let values = beyond.select(letter + u8x16::splat(10), figure);
    let high = values.swizzle([0, 2, 4, 6, 8, 10, 12, 14]);
    let low = values.swizzle([1, 3, 5, 7, 9, 11, 13, 15]);
    Some(((high << u8x8::splat(4)) + low).to_array())
}

/// The digits of a run of bytes, in lower case.
pub fn digits_of_run(run: &[u8]) -> [u8; DIGITS]
    requires { length run.now ≡ 8 }
    ensures { result ≡ encode_lower run.now }
{
    let bytes = u8x8::from_slice(run);
    let high = bytes >> u8x8::splat(4);
    let low = bytes & u8x8::splat(15);
    let values = high.shuffle(low, [0, 8, 1, 9, 2, 10, 3, 11, 4, 12, 5, 13, 6, 14, 7, 15]);
    let figures = values + u8x16::splat(b'0');
    let letters = values + u8x16::splat(b'a' - 10);
    values
        .simd_gt(u8x16::splat(9))
        .select(letters, figures)
        .to_array()
}

/// Puts the bytes of a run into room.
fn put_run(room: &mut [u8], at: usize, run: &[u8; BYTES])
    requires { at + 8 ≤ length room.old }
    ensures text { take (at + 8) room.new ≡ take at room.old ++ run.now }
    ensures long { length room.new ≡ length room.old }
{
    room[at..at + BYTES].copy_from_slice(run);
}

/// Decodes digits into room from a place on: false where one is no digit.
fn decode_rest(digits: &[u8], room: &mut [u8], at: usize) -> bool
    requires within { at ≤ length room.old }
    ensures value { IsTrue result → decode_pairs 0 digits.now ≡ Ok (drop at room.new) }
    ensures front { take at room.new ≡ take at room.old }
    ensures long { length room.new ≡ length room.old }
{
    hex::decode_to_slice(digits, &mut room[at..]).is_ok()
}

/// The same as `decode`, by runs of digits: true only where all are digits.
fn decode_runs(digits: &[u8], room: &mut [u8]) -> bool
    requires { length digits.now ≡ 2 * length room.old }
    ensures value { IsTrue result → decode_pairs 0 digits.now ≡ Ok room.new }
    ensures long { length room.new ≡ length room.old }
{
    let mut rest = digits;
    let mut done = 0;
    while let Some((run, after)) = rest.split_first_chunk::<DIGITS>() {
        let Some(bytes) = bytes_of_run(run) else {
            return false;
        };
        put_run(room, done, &bytes);
        rest = after;
        done += BYTES;
    }
    decode_rest(rest, room, done)
}

/// The bytes that digits of both cases write, into room for just as many: false where one is no digit.
#[tactic(auto, using(crate::proofs::Nibbles::sized))]
pub(crate) fn decode(digits: &[u8], room: &mut [u8]) -> bool
    requires { length digits.now ≡ 2 * length room.old }
    ensures { MatchResult (decode_sized digits.now (length room.old)) (λ bytes. (result ≡ true) × (room.new ≡ bytes))
        (λ e. result ≡ false) }
{
    decode_runs(digits, room) || hex::decode_to_slice(digits, room).is_ok()
}
