//! The variables of a session (RFC 5880 section 6.8.1).

use bfd_packet::{SeqState, State};

/// A Poll Sequence (RFC 5880 section 6.5).
#[derive(Clone, Copy, Debug, PartialEq, Eq)]
pub enum Poll {
    /// None is on.
    Idle,
    /// One is to begin with the next periodic packet.
    Wanted,
    /// One runs; its first packet with P was sent at this moment, in microseconds.
    Running(u64),
}

/// What a session keeps from one event to the next. Intervals and moments are in microseconds, `tx_due` is a
/// tick.
#[derive(Clone, Copy)]
pub struct Vars {
    /// bfd.SessionState.
    pub state: State,
    /// bfd.RemoteSessionState.
    pub remote_state: State,
    /// bfd.LocalDiag, below 32.
    pub diag: u8,
    /// bfd.RemoteDiscr; 0 while it isn't known.
    pub remote_discr: u32,
    /// bfd.RemoteMinRxInterval.
    pub remote_min_rx: u32,
    /// bfd.RemoteDemandMode.
    pub remote_demand: bool,
    /// The peer's Required Min Echo RX Interval.
    pub remote_min_echo: u32,
    /// The peer's Desired Min TX Interval.
    pub remote_tx: u32,
    /// The peer's Detect Mult.
    pub remote_mult: u8,
    /// bfd.DesiredMinTxInterval as configured.
    pub tx: u32,
    /// bfd.RequiredMinRxInterval as configured.
    pub rx: u32,
    /// The interval of the Echo function; 0 for none.
    pub echo_every: u32,
    /// bfd.DetectMult.
    pub mult: u8,
    /// bfd.DemandMode.
    pub demand: bool,
    /// The Poll Sequence.
    pub poll: Poll,
    /// The Desired Min TX Interval in use, which follows a longer one once its poll has ended.
    pub used_tx: u32,
    /// The Required Min RX Interval in use, which follows a shorter one once its poll has ended.
    pub used_rx: u32,
    /// When the last packet was heard, for the Detection Time.
    pub heard: Option<u64>,
    /// When the last authenticated packet with a sequence number was heard.
    pub seq_heard: Option<u64>,
    /// The sequence state of authentication.
    pub seq: SeqState,
    /// The place of the key that is sent with.
    pub sending: u8,
    /// How many more packets of a head carry P (RFC 8562); 0 in every other kind of session.
    pub left: u8,
    /// When the last periodic or extra packet was sent.
    pub base: u64,
    /// The tick at which the next periodic packet is due, present exactly while one may be sent.
    pub tx_due: Option<u64>,
    /// The draw that the next due tick uses.
    pub j: u32,
    /// The effective moment of the last own event.
    pub at: u64,
}

/// What an event keeps from its start.
#[derive(Clone, Copy)]
pub struct Mark {
    /// The state that was last sent to the peer: that of the start, or of a periodic packet since.
    pub state: State,
    /// The diagnostic that was last sent, likewise.
    pub diag: u8,
    /// The transmit interval at the start, in microseconds.
    pub interval: u32,
    /// Detect Mult was 1 at the start.
    pub one: bool,
    /// A periodic or extra packet was sent in this event.
    pub moved: bool,
    /// A packet with F was sent in this event.
    pub answered: bool,
}
