//! The kinds of port.
ghost use Rattle.std.specs.Prelude.{◌≡◌};
ghost use Rattle.bfd_script.specs.Arrivals.{port_in};

use crate::fields::LineFault;
use bfd_packet::Port;

/// The kind of port.
pub(crate) fn port_named(field: &[u8]) -> Result<Port, LineFault>
    ensures { result ≡ port_in field.now }
{
    match field {
        b"single" => Ok(Port::Single),
        b"multi" => Ok(Port::Multi),
        b"echo" => Ok(Port::Echo),
        b"sbfd" => Ok(Port::Sbfd),
        b"answer" => Ok(Port::Answer),
        _ => Err(LineFault::UnknownWord),
    }
}
