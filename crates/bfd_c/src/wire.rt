//! Addresses and packets, as C gives and reads them.
ghost use Rattle.std.specs.Prelude.{◌≡◌, ◌≢◌, ◌≤◌, None, IfOk, IfSome, IsOk, OnErr, length};
ghost use Rattle.bfd_script.specs.Values.{IsAddress};
ghost use Rattle.bfd_c.specs.Wire.{addr_of, address_for_c, arrival_from_c, port_by_number};

use bfd_packet::{Addr, Arrival, Bits128, Payload, Port};
use std::alloc::{AllocError, Global};

/// An IP address: the family 4 or 6, and its bytes in network order, of which family 4 has four. The others are 0 in what is
/// returned, and count for nothing in what is handed in.
#[repr(C)]
#[derive(Clone, Copy, Drop)]
pub struct Address {
    pub family: u32,
    pub bytes: [u8; 16],
}

/// A packet that came in, but for its payload. The port is 1 single, 2 multi, 3 echo, 4 sbfd, 5 answer.
#[repr(C)]
#[derive(Clone, Copy, Drop)]
pub struct Packet {
    pub size: u32,
    pub port: u32,
    /// Microseconds, below 2^60.
    pub moment: u64,
    /// The interface's number, 0 to 65,535.
    pub iface: u32,
    /// The sender's UDP port.
    pub sport: u16,
    /// The IP TTL or Hop Limit with which it came.
    pub ttl: u8,
    pub src: Address,
    pub dst: Address,
}

/// The address, where the family is 4 or 6.
pub(crate) fn read_address(address: &Address) -> Option<Addr>
    ensures value { result ≡ addr_of address.now }
    ensures range { IfSome result IsAddress }
{
    let b = &address.bytes;
    match address.family {
        4 => Some(Addr::V4(u32::from_be_bytes([b[0], b[1], b[2], b[3]]))),
        6 => Some(Addr::V6(Bits128::of(u128::from_be_bytes(address.bytes)))),
        _ => None,
    }
}

/// Writes the address for C.
pub(crate) fn write_address(addr: &Addr, address: &mut Address)
    ensures { address.new ≡ address_for_c addr.now }
{
    match addr {
        Addr::V4(n) => {
            address.family = 4;
            address.bytes = [0; 16];
            address.bytes[..4].copy_from_slice(&n.to_be_bytes());
        }
        Addr::V6(n) => {
            address.family = 6;
            address.bytes = n.number().to_be_bytes();
        }
    }
}

/// The kind of port of a number.
fn port(number: u32) -> Option<Port>
    ensures { result ≡ port_by_number number }
{
    match number {
        1 => Some(Port::Single),
        2 => Some(Port::Multi),
        3 => Some(Port::Echo),
        4 => Some(Port::Sbfd),
        5 => Some(Port::Answer),
        _ => None,
    }
}

/// The packet with its payload, of which the first 256 bytes are kept, where its port, its interface and its addresses are in their ranges.
/// It fails only when out of memory, only where they are, and never with a payload of up to 52 bytes.
pub(crate) fn arrival(
    alloc: Global,
    packet: &Packet,
    payload: &[u8],
) -> Result<Option<Arrival>, AllocError>
    ensures value { IfOk result (λ arrival. arrival ≡ arrival_from_c packet.now payload.now) }
    ensures fits { OnErr result (arrival_from_c packet.now payload.now ≢ None) }
    ensures short { length payload.now ≤ 52 → IsOk result }
{
    if packet.iface > 65_535 {
        return Ok(None);
    }
    match (
        port(packet.port),
        read_address(&packet.src),
        read_address(&packet.dst),
    ) {
        (Some(port), Some(src), Some(dst)) => {
            let payload = Payload::keep(alloc, payload)?;
            Ok(Some(Arrival {
                port,
                iface: packet.iface,
                src,
                sport: packet.sport,
                dst,
                ttl: packet.ttl,
                payload,
            }))
        }
        _ => Ok(None),
    }
}
