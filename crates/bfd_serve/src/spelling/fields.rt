//! How fields are written.
ghost use Rattle.std.specs.Prelude.{◌≡◌, IfOk, string_bytes};
ghost use Rattle.bfd_serve.specs.Written.{address_field, mode_field, port_field, role_field, up_field};

use bfd_packet::{Addr, Port};
use bfd_rules::Role;
use byteorder::{BigEndian, ByteOrder};
use std::alloc::{AllocError, Global};

/// An address: four numbers with dots, or 32 hexadecimal digits in lower case.
pub(crate) fn address_text(alloc: Global, address: Addr) -> Result<String, AllocError>
    ensures { IfOk result (λ text. string_bytes text ≡ address_field address) }
{
    match address {
        Addr::V4(n) => {
            let a = n / 256 / 256 / 256;
            let b = n / 256 / 256 % 256;
            let c = n / 256 % 256;
            let d = n % 256;
            format!(in alloc; "{a}.{b}.{c}.{d}")
        }
        Addr::V6(n) => {
            let mut bytes = [0; 16];
            BigEndian::write_u128(&mut bytes, n.number());
            hex::encode(alloc, bytes.as_slice())
        }
    }
}

/// Over how many hops.
pub(crate) fn role_text(role: Role) -> &'static str
    ensures { result.now ≡ role_field role }
{
    match role {
        Role::Single => "single",
        Role::Multi => "multi",
    }
}

/// Whether the session sends before it has heard the peer.
pub(crate) fn mode_text(active: bool) -> &'static str
    ensures { result.now ≡ mode_field active }
{
    if active { "active" } else { "passive" }
}

/// The kind of port.
pub(crate) fn port_text(port: Port) -> &'static str
    ensures { result.now ≡ port_field port }
{
    match port {
        Port::Single => "single",
        Port::Multi => "multi",
        Port::Echo => "echo",
        Port::Sbfd => "sbfd",
        Port::Answer => "answer",
    }
}

/// Whether a reflector is Up.
pub(crate) fn up_text(up: bool) -> &'static str
    ensures { result.now ≡ up_field up }
{
    if up { "up" } else { "admin" }
}
