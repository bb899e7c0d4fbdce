//! How an initiator is configured.

use bfd_packet::Addr;

/// The configuration of an initiator (RFC 7880 section 7.3), which doesn't change while it runs. Intervals are in
/// microseconds.
#[derive(Clone, Copy, Debug, PartialEq, Eq)]
pub struct InitiatorConfig {
    /// The local discriminator, 1 to 4,294,967,295.
    pub discr: u32,
    /// The discriminator of the reflector that is sought, 1 to 4,294,967,295 (RFC 7880 section 4).
    pub target: u32,
    /// The interface's number, 0 to 65,535.
    pub iface: u32,
    /// The address that this session sends from.
    pub local: Addr,
    /// The address of the reflector.
    pub remote: Addr,
    /// bfd.DesiredMinTxInterval at the start, 10,000 to 60,000,000.
    pub tx: u32,
    /// bfd.DetectMult at the start, 1 to 255.
    pub mult: u8,
    /// The first draw of jitter.
    pub seed: u32,
}
