//! What a row is looked up by, where a packet has its discriminator.

ghost use Rattle.std.specs.Prelude.{◌≡◌};
ghost use Rattle.bfd_demux.specs.Index.{row_name, name_on, names_before, heard_on, is_heard};

use crate::row::{Row, RowKind};
use bfd_packet::Port;

/// A discriminator, and whether a session or a reflector has it: sessions come first in the order.
#[derive(Clone, Copy, PartialEq, Eq, PartialOrd, Ord)]
pub enum Name {
    Session(u32),
    Reflector(u32),
}

impl Name {
    ghost use Rattle.std.specs.Prelude.{◌≡◌};
    ghost use Rattle.bfd_demux.specs.Index.{name_discr, names_a_session};

    /// Whether a session has it.
    pub fn is_session(&self) -> bool
        ensures { result ≡ names_a_session self.now }
    {
        matches!(self, Name::Session(_))
    }

    /// The discriminator.
    pub fn discr(&self) -> u32
        ensures { result ≡ name_discr self.now }
    {
        match self {
            Name::Session(discr) => *discr,
            Name::Reflector(discr) => *discr,
        }
    }
}

/// The row's name.
pub fn row_name(row: &Row) -> Name
    ensures { result ≡ row_name row.now }
{
    match row.kind {
        RowKind::Reflect => Name::Reflector(row.discr),
        _ => Name::Session(row.discr),
    }
}

/// The port on which a control packet may name the row by its discriminator.
pub fn heard_on(row: &Row) -> Option<Port>
    ensures { result ≡ heard_on row.now.kind }
{
    match row.kind {
        RowKind::Single { .. } => Some(Port::Single),
        RowKind::Multi { .. } => Some(Port::Multi),
        RowKind::Initiator => Some(Port::Answer),
        RowKind::Reflect => Some(Port::Sbfd),
        RowKind::Head | RowKind::Tail { .. } => None,
    }
}

/// What an arrival on the port looks its discriminator up as.
pub fn name_on(port: Port, discr: u32) -> Name
    ensures { result ≡ name_on port discr }
{
    match port {
        Port::Sbfd => Name::Reflector(discr),
        _ => Name::Session(discr),
    }
}

/// Whether a row that is heard on the second port is of the first port's kind: packets on the echo port are
/// those of single-hop sessions.
pub fn is_heard(port: Port, heard: Option<Port>) -> bool
    ensures { result ≡ is_heard port heard }
{
    matches!(
        (port, heard),
        (Port::Single | Port::Echo, Some(Port::Single))
            | (Port::Multi, Some(Port::Multi))
            | (Port::Answer, Some(Port::Answer))
            | (Port::Sbfd, Some(Port::Sbfd))
    )
}

/// How many names stand before those that the port looks up: all sessions before the reflectors.
pub fn names_before(port: Port, sessions: usize) -> usize
    ensures { result ≡ names_before port sessions }
{
    match port {
        Port::Sbfd => sessions,
        _ => 0,
    }
}
