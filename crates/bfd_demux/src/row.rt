//! A row of the table: a session or a reflector, and what its packets are selected by.

use bfd_packet::Addr;

/// What a row is for, and the addresses by which its packets are selected where they have no Your Discriminator.
/// `iface` is the interface's number.
#[derive(Clone, Copy, Debug, PartialEq, Eq, PartialOrd, Ord)]
pub enum RowKind {
    /// A single-hop session (RFC 5881).
    Single {
        iface: u32,
        local: Addr,
        remote: Addr,
    },
    /// A multihop session (RFC 5883).
    Multi {
        local: Addr,
        remote: Addr,
    },
    /// A seamless initiator (RFC 7880 section 7.3).
    Initiator,
    /// A seamless reflector (RFC 7880 section 7.2).
    Reflect,
    /// The head of a multipoint tree, which hears nothing (RFC 8562 section 5.4).
    Head,
    /// A tail: it hears the head of this discriminator at this group from this source (RFC 8562 section
    /// 5.7).
    Tail {
        head: u32,
        iface: u32,
        group: Addr,
        source: Addr,
    },
}

/// A row: its local discriminator (bfd.LocalDiscr, RFC 5880 section 6.8.1), and what it is.
#[derive(Clone, Copy, Debug, PartialEq, Eq)]
pub struct Row {
    pub discr: u32,
    pub kind: RowKind,
}

impl RowKind {
    ghost use Rattle.std.specs.Prelude.{◌≡◌};
    ghost use Rattle.bfd_demux.specs.Rows.{has_addresses};

    /// Whether packets without Your Discriminator may name this row, by addresses.
    pub fn has_addresses(&self) -> bool
        ensures { result ≡ has_addresses self.now }
    {
        matches!(
            self,
            RowKind::Single { .. } | RowKind::Multi { .. } | RowKind::Tail { .. }
        )
    }
}
