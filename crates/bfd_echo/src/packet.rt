//! The echo packet: its bytes, and where it goes.
ghost use Rattle.std.specs.Prelude.{◌≡◌};
ghost use Rattle.bfd_echo.specs.Packet as packet;

use bfd_packet::{Addr, Datagram, SOURCE_PORT, Wire};
use byteorder::{BigEndian, ByteOrder};

/// What each echo packet begins with: "BFDe".
const SIGN: u32 = 0x4246_4465;

/// The destination port of echo packets (RFC 5881 section 4).
const ECHO_PORT: u16 = 3785;

/// The bytes of an echo packet: the sign, the local discriminator, the sequence number, and a word of 0.
#[tactic(auto, unfolding(crate::specs::Packet::echo_text))]
pub(crate) fn text(discr: u32, sequence: u32) -> Wire
    ensures { result ≡ packet.echo_text discr sequence }
{
    let mut bytes = [0; 16];
    BigEndian::write_u32(&mut bytes, SIGN);
    BigEndian::write_u32(&mut bytes[4..], discr);
    BigEndian::write_u32(&mut bytes[8..], sequence);
    Wire::of(&bytes)
}

/// The bytes of an echo packet on their way (RFC 5881 section 4): out of the session's interface, from the own address
/// to the own address, which the peer forwards back; to port 3785, with TTL 255.
pub fn echo_datagram(iface: u32, local: Addr, bytes: Wire) -> Datagram
    ensures { result ≡ packet.echo_datagram iface local bytes }
{
    let src = local;
    Datagram {
        iface,
        src,
        sport: SOURCE_PORT,
        dst: local,
        dport: ECHO_PORT,
        ttl: 255,
        bytes,
    }
}
