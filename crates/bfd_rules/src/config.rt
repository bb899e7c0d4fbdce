//! How a point-to-point session is configured.
ghost use Rattle.std.specs.Prelude.{◌≡◌};
ghost use Rattle.bfd_rules.specs.Sound as sound;

use bfd_packet::{Addr, Keys};

/// The least interval that may be configured, in microseconds.
pub const LEAST_INTERVAL: u64 = 10_000;

/// The greatest interval that may be configured, in microseconds.
pub const MOST_INTERVAL: u64 = 60_000_000;

/// Whether this is an interval that may be configured, in microseconds.
pub fn is_interval(n: u64) -> bool
    ensures { result ≡ sound.is_interval n }
{
    LEAST_INTERVAL <= n && n <= MOST_INTERVAL
}

/// Over how many hops a session runs.
#[derive(Clone, Copy, Debug, PartialEq, Eq)]
pub enum Role {
    /// A single hop, by UDP port 3784 and an interface (RFC 5881).
    Single,
    /// Several hops, by UDP port 4784 and addresses alone (RFC 5883).
    Multi,
}

/// The configuration of a point-to-point session, which doesn't change while it runs. Intervals are in
/// microseconds.
#[derive(Drop)]
pub struct Config {
    /// The local discriminator, 1 to 4,294,967,295.
    pub discr: u32,
    pub role: Role,
    /// The interface's number, 0 to 65,535.
    pub iface: u32,
    /// The address that this session sends from.
    pub local: Addr,
    /// The address of the peer.
    pub remote: Addr,
    /// Active: it sends before it has heard the peer (RFC 5880 section 6.1). A passive session waits.
    pub active: bool,
    /// bfd.DesiredMinTxInterval at the start, 10,000 to 60,000,000.
    pub tx: u32,
    /// bfd.RequiredMinRxInterval at the start, 10,000 to 60,000,000.
    pub rx: u32,
    /// bfd.DetectMult at the start, 1 to 255.
    pub mult: u8,
    /// The interval of the Echo function at the start: 0 for none, or 10,000 to 60,000,000; 0 over several hops.
    pub echo: u32,
    /// The first draw of jitter and the first sequence number that is sent.
    pub seed: u32,
    /// What the session authenticates with, if it does.
    pub keys: Option<Keys>,
}

impl Config {
    /// An equal configuration.
    pub fn copy(&self) -> Self
        ensures { result ≡ self.now }
    {
        let keys = match &self.keys {
            Some(keys) => Some(keys.copy()),
            None => None,
        };
        Config {
            discr: self.discr,
            role: self.role,
            iface: self.iface,
            local: self.local,
            remote: self.remote,
            active: self.active,
            tx: self.tx,
            rx: self.rx,
            mult: self.mult,
            echo: self.echo,
            seed: self.seed,
            keys,
        }
    }
}
