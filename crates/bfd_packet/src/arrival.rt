//! Where a packet came from or goes to.
ghost use Rattle.std.specs.Prelude.{◌≡◌, IfOk};

use crate::{Bits128, Payload, Wire};
use std::alloc::{AllocError, Global};

/// The UDP port that every packet is sent from (RFC 5881 section 4: one of 49152 to 65535, the same for all of a session).
pub const SOURCE_PORT: u16 = 49_152;

/// The kind of port that a packet arrived on.
#[derive(Clone, Copy, Debug, PartialEq, Eq)]
pub enum Port {
    /// UDP 3784: control packets over a single hop (RFC 5881 section 4).
    Single,
    /// UDP 4784: control packets over several hops (RFC 5883 section 5).
    Multi,
    /// UDP 3785: returned echo packets (RFC 5881 section 4).
    Echo,
    /// UDP 7784: packets for a reflector (RFC 7881 section 2).
    Sbfd,
    /// The source port of an initiator: answers of a reflector (RFC 7881 section 2).
    Answer,
}

/// An IP address: its family, and its number in network order.
#[derive(Clone, Copy, Debug, PartialEq, Eq, PartialOrd, Ord)]
pub enum Addr {
    V4(u32),
    V6(Bits128),
}

/// A packet as it came in. `iface` is the interface's number, 0 to 65,535; `sport` the sender's UDP port;
/// `ttl` the IP TTL or Hop Limit with which it came. The widest fields stand first, so that no room is lost between them.
#[derive(Drop)]
pub struct Arrival {
    pub src: Addr,
    pub dst: Addr,
    pub payload: Payload,
    pub iface: u32,
    pub sport: u16,
    pub ttl: u8,
    pub port: Port,
}

impl Arrival {
    /// An equal arrival. Fails only when out of memory for the payload.
    pub fn copy(&self, alloc: Global) -> Result<Arrival, AllocError>
        ensures { IfOk result (λ copied. copied ≡ self.now) }
    {
        let payload = self.payload.copy(alloc)?;
        Ok(Arrival {
            port: self.port,
            iface: self.iface,
            src: self.src,
            sport: self.sport,
            dst: self.dst,
            ttl: self.ttl,
            payload,
        })
    }
}

/// A packet as it goes out.
#[derive(Drop)]
pub struct Datagram {
    pub iface: u32,
    pub src: Addr,
    pub sport: u16,
    pub dst: Addr,
    pub dport: u16,
    pub ttl: u8,
    pub bytes: Wire,
}
