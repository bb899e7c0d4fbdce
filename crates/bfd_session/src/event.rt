//! What a session is built from, what can happen to it, and what it answers.

use bfd_mp::{HeadConfig, TailConfig};
use bfd_packet::{Arrival, State, Test};
use bfd_rules::{Cmd, Config, Refusal};
use bfd_sbfd::InitiatorConfig;

/// The configuration of a session, by its kind.
#[derive(Drop)]
pub enum SessionConfig {
    /// A point-to-point session (RFC 5881, RFC 5883).
    PointToPoint(Config),
    /// A seamless initiator (RFC 7880).
    Initiator(InitiatorConfig),
    /// The head of a multipoint tree (RFC 8562).
    Head(HeadConfig),
    /// The tail of a multipoint tree (RFC 8562).
    Tail(TailConfig),
}

/// An own event of a session.
#[derive(Drop)]
pub enum Event {
    /// A control packet came in, and selection named this session.
    Packet(Arrival),
    /// An echo packet with this sequence number came back.
    Returned(u32),
    /// A command of the operator.
    Command(Cmd),
    /// A question: nothing but what has come due is done.
    Show,
}

/// What a session shows of itself. Intervals are in microseconds. The fields fill it, so that no move of one copies bytes between them.
#[derive(Clone, Copy, Debug, PartialEq, Eq)]
pub struct Shown {
    /// The local discriminator.
    pub discr: u32,
    pub state: State,
    pub diag: u8,
    pub remote_state: State,
    /// The Poll Sequence: 0 none, 1 requested, 2 running.
    pub poll: u8,
    pub remote_discr: u32,
    /// The Desired Min TX Interval that is advertised.
    pub adv_tx: u32,
    /// The Desired Min TX Interval in use.
    pub used_tx: u32,
    /// The Required Min RX Interval in use.
    pub used_rx: u32,
    /// The Detection Time.
    pub detect: u64,
}

/// What an event of a session answers.
#[derive(Clone, Copy, Debug, PartialEq, Eq)]
pub enum Answer {
    /// The packet or the command was accepted.
    Handled,
    /// A tick has passed.
    Ticked,
    /// The packet was discarded by this test, the first that it fails.
    Dropped(Test),
    /// The command was refused.
    Refused(Refusal),
    /// What the session shows.
    Shown(Shown),
}

impl SessionConfig {
    ghost use Rattle.std.specs.Prelude.{◌≡◌};
    ghost use Rattle.bfd_session.specs.Kinds.{discr_of};

    /// The local discriminator.
    pub fn discr(&self) -> u32
        ensures { result ≡ discr_of self.now }
    {
        match self {
            SessionConfig::PointToPoint(config) => config.discr,
            SessionConfig::Initiator(config) => config.discr,
            SessionConfig::Head(config) => config.discr,
            SessionConfig::Tail(config) => config.discr,
        }
    }

    /// An equal configuration.
    pub fn copy(&self) -> Self
        ensures { result ≡ self.now }
    {
        match self {
            SessionConfig::PointToPoint(config) => SessionConfig::PointToPoint(config.copy()),
            SessionConfig::Initiator(config) => SessionConfig::Initiator(*config),
            SessionConfig::Head(config) => SessionConfig::Head(*config),
            SessionConfig::Tail(config) => SessionConfig::Tail(*config),
        }
    }
}
