//! Which port and address a link hears, by its number.
ghost use Rattle.std.specs.Prelude.{◌≡◌, ◌<◌, ◌-◌, ◌%◌};
ghost use Rattle.bfd_net.specs.Hearing.{port_at, port_number, loopback_of, is_local_addr};

use bfd_packet::{Addr, Port, SOURCE_PORT};

/// The UDP port of a kind of port: 3784 and 3785 (RFC 5881 section 4), 4784 (RFC 5883 section 5), 7784 (RFC 7881 section 2),
/// and 49152 for answers of a reflector, from which an initiator sends.
pub fn udp_port(port: Port) -> u16
    ensures { result ≡ port_number port }
{
    match port {
        Port::Single => 3784,
        Port::Multi => 4784,
        Port::Echo => 3785,
        Port::Sbfd => 7784,
        Port::Answer => SOURCE_PORT,
    }
}

/// The kind of port that the link of this number hears: each five links after number 0 hear one of each kind.
pub(crate) fn port_of_link(number: u32) -> Port
    requires { 0 < number }
    ensures { result ≡ port_at ((number - 1) % 5) }
{
    match (number - 1) % 5 {
        0 => Port::Single,
        1 => Port::Multi,
        2 => Port::Echo,
        3 => Port::Sbfd,
        _ => Port::Answer,
    }
}

/// The address that the link of this number hears: 127.0.0.1 for the first five after number 0, 127.0.0.2 for the next five,
/// and so on.
pub(crate) fn address_of_link(number: u32) -> u32
    requires { 0 < number }
    ensures { result ≡ loopback_of number }
{
    0x7f00_0001 + (number - 1) / 5
}

/// Whether the address is one of this machine's own, 127.0.0.0 to 127.255.255.255.
pub(crate) fn is_local(address: &Addr) -> bool
    ensures { result ≡ is_local_addr address.now }
{
    match address {
        Addr::V4(address) => *address / 0x0100_0000 == 127,
        Addr::V6(_) => false,
    }
}
