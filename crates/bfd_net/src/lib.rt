//! bfd_net: the outside over UDP and the machine's clock.
//!
//! [`UdpPorts`] opens links over UDP sockets on this machine's own addresses, 127.0.0.0/8, and [`ClockTicker`] ticks by the
//! machine's clock. They are the trusted edge: they keep the contracts of `bfd_edge`'s traits, which speak of counts, and
//! report nothing of what a socket or a clock gave.
//!
//! Layers, lowest first: `clock` (the time since something was made), `hearing` (which port and address a link hears, by its
//! number), `link`, `ports` and `ticker`.
//!
//! It stands on `bfd_num`, `bfd_packet` and `bfd_edge`, and is the only crate that opens sockets.
#![tactic(auto)]

mod clock;
mod hearing;
mod link;
mod ports;
mod ticker;

pub use hearing::udp_port;
pub use link::UdpLink;
pub use ports::UdpPorts;
pub use ticker::ClockTicker;
