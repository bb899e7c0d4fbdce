//! The control packet's fields (RFC 5880 section 4.1).

/// The session state that a packet carries or a session has (RFC 5880 section 4.1, Sta).
#[derive(Clone, Copy, Debug, PartialEq, Eq)]
pub enum State {
    AdminDown = 0,
    Down = 1,
    Init = 2,
    Up = 3,
}

impl State {
    ghost use Rattle.std.specs.Prelude.{◌≡◌};
    ghost use Rattle.bfd_packet.specs.States.{is_init_or_up, state_name};

    /// Whether it is Init or Up: a system in one of them has heard the other side (RFC 5880 section 6.2).
    pub fn is_init_or_up(self) -> bool
        ensures { result ≡ is_init_or_up self }
    {
        matches!(self, State::Init | State::Up)
    }

    /// The state's name, as it is written in the enum.
    pub fn name(self) -> &'static str
        ensures { result.now ≡ state_name self }
    {
        match self {
            State::AdminDown => "AdminDown",
            State::Down => "Down",
            State::Init => "Init",
            State::Up => "Up",
        }
    }
}

/// The mandatory section of a control packet, field by field (RFC 5880 section 4.1). Version is 1 and has
/// no field here. Intervals are in microseconds.
#[derive(Clone, Copy, Debug, PartialEq, Eq)]
pub struct Control {
    /// Diagnostic, 0 to 31: why the sender's session last changed its state.
    pub diag: u8,
    /// Sta: the sender's session state.
    pub state: State,
    /// P: the sender asks for a packet with F.
    pub poll: bool,
    /// F: the sender answers a packet with P.
    pub fin: bool,
    /// C: the sender's BFD does not share fate with its control plane.
    pub cpi: bool,
    /// A: an authentication section follows.
    pub auth: bool,
    /// D: Demand mode is active at the sender.
    pub demand: bool,
    /// M: a point-to-multipoint packet (RFC 8562).
    pub multi: bool,
    /// Detect Mult.
    pub mult: u8,
    /// Length of the packet in bytes, the authentication section included.
    pub length: u8,
    /// My Discriminator.
    pub my: u32,
    /// Your Discriminator.
    pub your: u32,
    /// Desired Min TX Interval.
    pub min_tx: u32,
    /// Required Min RX Interval.
    pub min_rx: u32,
    /// Required Min Echo RX Interval.
    pub min_echo: u32,
}
