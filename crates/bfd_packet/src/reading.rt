//! What a payload says, and the tests that look at its header alone.

ghost use Rattle.std.specs.Prelude.{◌≡◌, ◌<◌, ◌≤◌, length};
ghost use Rattle.bfd_packet.specs.Layout.{fields_of, has_bit_of, state_of};
ghost use Rattle.bfd_packet.specs.HeaderTests.{first_failing, read_of, takes_multipoint_of};

use crate::{Control, Port, State, Test};
use byteorder::{BigEndian, ByteOrder};

/// The first test on the header that the payload fails on this port, or None if and only if it passes them
/// all. The tests are Short, Version, LengthMin, LengthOver, DetectMult, Multipoint (on every port but
/// single) and MyDiscr, in this order (RFC 5880 section 6.8.6, RFC 8562 section 5.13).
pub fn header_test(port: Port, payload: &[u8]) -> Option<Test>
    ensures { result ≡ first_failing port payload.now }
{
    if payload.len() < 4 {
        return Some(Test::Short);
    }
    if payload[0] / 32 != 1 {
        return Some(Test::Version);
    }
    let least = if has_bit(payload[1], 2) { 26 } else { 24 };
    if payload[3] < least {
        return Some(Test::LengthMin);
    }
    if payload.len() < usize::from(payload[3]) {
        return Some(Test::LengthOver);
    }
    if payload[2] == 0 {
        return Some(Test::DetectMult);
    }
    if !takes_multipoint(port) && has_bit(payload[1], 0) {
        return Some(Test::Multipoint);
    }
    if BigEndian::read_u32(&payload[4..]) == 0 {
        return Some(Test::MyDiscr);
    }
    None
}

/// The fields of the packet where `header_test` of the same arguments is None, and else that test (RFC 5880
/// section 4.1).
pub fn read(port: Port, payload: &[u8]) -> Result<Control, Test>
    ensures { result ≡ read_of port payload.now }
{
    match header_test(port, payload) {
        Some(test) => Err(test),
        None => Ok(fields(payload)),
    }
}

/// Each field of a payload of 24 bytes or more, by its position (RFC 5880 section 4.1): what `read` gives where the tests on the header
/// were made before.
pub fn fields(payload: &[u8]) -> Control
    requires { 24 ≤ length payload.now }
    ensures { result ≡ fields_of payload.now }
{
    let flags = payload[1];
    Control {
        diag: payload[0] % 32,
        state: state_in(flags / 64),
        poll: has_bit(flags, 5),
        fin: has_bit(flags, 4),
        cpi: has_bit(flags, 3),
        auth: has_bit(flags, 2),
        demand: has_bit(flags, 1),
        multi: has_bit(flags, 0),
        mult: payload[2],
        length: payload[3],
        my: BigEndian::read_u32(&payload[4..]),
        your: BigEndian::read_u32(&payload[8..]),
        min_tx: BigEndian::read_u32(&payload[12..]),
        min_rx: BigEndian::read_u32(&payload[16..]),
        min_echo: BigEndian::read_u32(&payload[20..]),
    }
}

// Whether the bit at this place is set.
fn has_bit(byte: u8, place: u8) -> bool
    requires { place < 8 }
    ensures { result ≡ has_bit_of byte place }
{
    byte >> place & 1 == 1
}

// The state that a number of two bits names.
fn state_in(number: u8) -> State
    requires { number < 4 }
    ensures { result ≡ state_of number }
{
    match number {
        0 => State::AdminDown,
        1 => State::Down,
        2 => State::Init,
        _ => State::Up,
    }
}

// Whether the port accepts packets with M set.
fn takes_multipoint(port: Port) -> bool
    ensures { result ≡ takes_multipoint_of port }
{
    matches!(port, Port::Single)
}
