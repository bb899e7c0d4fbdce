//! Commands to a session, and why one is refused.
ghost use Rattle.std.specs.Prelude.{◌≡◌};
ghost use Rattle.bfd_rules.specs.Names.{refusal_name};

/// A command (RFC 5880 sections 6.8.10 to 6.8.17). The numbers are as they were given: one that is out of its range is refused.
#[derive(Clone, Copy, Debug, PartialEq, Eq)]
pub enum Cmd {
    /// Enter AdminDown (section 6.8.16).
    Disable,
    /// Leave AdminDown (section 6.8.16).
    Enable,
    /// The forwarding plane was reset (section 6.8.15).
    Reset,
    /// A concatenated path: 0 for none, 6 down, 8 down in reverse (section 6.8.17).
    Path(u64),
    /// Desired Min TX Interval, in microseconds (sections 6.8.3 and 6.8.11).
    Tx(u64),
    /// Required Min RX Interval, in microseconds (sections 6.8.3 and 6.8.10).
    Rx(u64),
    /// Detect Mult (section 6.8.12).
    Mult(u64),
    /// Demand mode: 1 on, 0 off (sections 6.6 and 6.8.14).
    Demand(u64),
    /// The interval of the Echo function, in microseconds, or 0 for none (sections 6.4, 6.8.9 and 6.8.13).
    EchoEvery(u64),
    /// The id of the key to send with (sections 6.7.2 to 6.7.4).
    Key(u64),
}

/// Why a command is refused.
#[derive(Clone, Copy, Debug, PartialEq, Eq)]
pub enum Refusal {
    /// In Up a Poll Sequence is on, and the command would need one of its own.
    PollBusy = 1,
    /// The session is in AdminDown, or for `Enable` isn't.
    WrongState = 2,
    /// The number is outside its range, or names no key of the session.
    OutOfRange = 3,
    /// Sessions of this kind don't know the command.
    WrongKind = 4,
    /// No session has the discriminator.
    UnknownSession = 5,
}

impl Refusal {
    /// The refusal's name, as it is written in the enum.
    pub fn name(self) -> &'static str
        ensures { result.now ≡ refusal_name self }
    {
        match self {
            Refusal::PollBusy => "PollBusy",
            Refusal::WrongState => "WrongState",
            Refusal::OutOfRange => "OutOfRange",
            Refusal::WrongKind => "WrongKind",
            Refusal::UnknownSession => "UnknownSession",
        }
    }
}
