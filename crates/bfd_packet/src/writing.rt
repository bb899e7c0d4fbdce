//! A control packet as bytes.

ghost use Rattle.std.specs.Prelude.{◌≡◌, ◌≢◌, ◌<◌, ◌≤◌, [], length, ◌^◌, Ok};
ghost use Rattle.bfd_packet.specs.declared.arrival.Port.{Port};
ghost use Rattle.bfd_packet.specs.Layout.{HasWords, as_sent, bit_of, flag_byte, header_of, state_number, text_of};
ghost use Rattle.bfd_packet.specs.HeaderTests.{PassesHeader, read_of};

use crate::{AuthBytes, Control, State, Wire};
use byteorder::{BigEndian, ByteOrder};

/// The bytes of a control packet with an authentication section, which may be empty (RFC 5880 section 4.1).
/// Version is 1, A is set if and only if the section isn't empty, and Length is 24 plus the section's; so
/// `auth` and `length` of `c` play no part. `diag` is below 32.
pub fn write(c: &Control, section: &AuthBytes) -> Wire
    requires { c.now.diag < 32 }
    ensures text { result ≡ text_of c.now section.now }

    // What is written reads back on every port whose tests the fields pass. A section of one byte would
    // make A and Length disagree.
    ensures again { (port : Port) → PassesHeader port c.now → length section.now ≢ 1
        → read_of port result ≡ Ok (as_sent c.now section.now) }
{
    packed(c, section)
}

/// The bytes of a control packet without an authentication section, as `write` gives them for an empty one. `diag` is below 32.
#[tactic(auto, unfolding(crate::specs::Layout::text_of))]
pub fn write_plain(c: &Control) -> Wire
    requires { c.now.diag < 32 }
    ensures { result ≡ text_of c.now [] }
{
    Wire::of(&header(c, &[]))
}

// The same bytes, and that the words are of 32 bits.
#[tactic(auto, unfolding(crate::specs::Layout::text_of))]
fn packed(c: &Control, section: &AuthBytes) -> Wire
    requires { c.now.diag < 32 }
    ensures text { result ≡ text_of c.now section.now }
    ensures words { HasWords c.now }
{
    let section = section.as_slice();
    let mut wire = Wire::of(&header(c, section));
    wire.append(section);
    wire
}

// The mandatory section.
fn header(c: &Control, section: &[u8]) -> [u8; 24]
    requires diag { c.now.diag < 32 }
    requires few { length section.now ≤ 28 }
    ensures text { result ≡ header_of c.now section.now }
    ensures words { HasWords c.now }
{
    let mut bytes = [0; 24];
    bytes[0] = 32 + c.diag;
    bytes[1] = flags(c, section);
    bytes[2] = c.mult;
    bytes[3] = 24 + section.len() as u8;
    BigEndian::write_u32(&mut bytes[4..], c.my);
    BigEndian::write_u32(&mut bytes[8..], c.your);
    BigEndian::write_u32(&mut bytes[12..], c.min_tx);
    BigEndian::write_u32(&mut bytes[16..], c.min_rx);
    BigEndian::write_u32(&mut bytes[20..], c.min_echo);
    bytes
}

// The byte of the state and the flags.
fn flags(c: &Control, section: &[u8]) -> u8
    ensures { result ≡ flag_byte c.now section.now }
{
    let low = bit(c.demand, 1) + bit(c.multi, 0);
    let high = bit(c.poll, 5) + (bit(c.fin, 4) + bit(c.cpi, 3));
    number_of(c.state) * 64 + (high + (bit(!section.is_empty(), 2) + low))
}

// The number of a state, in two bits.
fn number_of(state: State) -> u8
    ensures number { result ≡ state_number state }
    ensures small { result < 4 }
{
    state as u8
}

// A flag as the bit at this place.
fn bit(set: bool, place: u8) -> u8
    requires { place < 8 }
    ensures number { result ≡ bit_of set place }
    ensures small { result ≤ 2 ^ place }
{
    if set { 1 << place } else { 0 }
}
