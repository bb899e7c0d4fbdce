//! How multipoint heads and tails are configured.

use bfd_packet::Addr;

/// The configuration of a head (RFC 8562 section 5.4), which doesn't change while it runs. Intervals are in microseconds.
#[derive(Clone, Copy, Debug, PartialEq, Eq)]
pub struct HeadConfig {
    /// The local discriminator, 1 to 4,294,967,295.
    pub discr: u32,
    /// The interface's number, 0 to 65,535.
    pub iface: u32,
    /// The address that this session sends from.
    pub local: Addr,
    /// The address of the group that it sends to.
    pub group: Addr,
    /// bfd.DesiredMinTxInterval at the start, 10,000 to 60,000,000.
    pub tx: u32,
    /// bfd.DetectMult at the start, 1 to 255.
    pub mult: u8,
    /// The first draw of jitter.
    pub seed: u32,
}

/// The configuration of a tail (RFC 8562 sections 5.4 and 5.7), which doesn't change while it runs. Its packets are those
/// that come on the interface from the source to the group with the head's discriminator.
#[derive(Clone, Copy, Debug, PartialEq, Eq)]
pub struct TailConfig {
    /// The local discriminator, 1 to 4,294,967,295.
    pub discr: u32,
    /// The discriminator of the head, 1 to 4,294,967,295.
    pub head: u32,
    /// The interface's number, 0 to 65,535.
    pub iface: u32,
    /// The address of the group that the head sends to.
    pub group: Addr,
    /// The address that the head sends from.
    pub source: Addr,
}
