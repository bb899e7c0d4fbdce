//! bfd_edge: the outside, as the engine sees it.
//!
//! A [`Source`] gives bytes and a [`Sink`] accepts them; a [`Link`] gives and accepts packets, [`Ports`] open links by number, and a
//! [`Ticker`] gives ticks. Each may report what it gave, accepted or has left, and each keeps a count of faults, so that a caller's
//! contract can say that a failure came from the outside and from nowhere else: a call answers `Failed` only where that count
//! rose in it. A [`Gate`] is a meeting point for tests.
//!
//! [`MemSource`], [`MemSink`], [`MemLink`], [`MemPorts`] and [`MemTicker`] are forms over memory that report all and fail where they
//! are asked to. [`StdSource`] and [`StdSink`] stand over std's readers and writers: they are the trusted edge, and report of content
//! only what std's type reports. The adapters over UDP and the clock stand in `bfd_net`.
//!
//! Modules: `outside` (sources and sinks), `link`, `ports`, `ticker` and `gate` have the traits; `places` what ports keep of each
//! number; `memory`, `memory_link`, `memory_ports` and `memory_ticker` the forms over memory; `adapters` those over std.
//!
//! It stands on `bfd_num` and `bfd_packet`.
#![tactic(auto)]

mod adapters;
mod fault;
mod gate;
mod link;
mod memory;
mod memory_link;
mod memory_ports;
mod memory_ticker;
mod outside;
mod places;
mod ports;
mod ticker;

pub use adapters::{StdSink, StdSource};
pub use fault::Fault;
pub use gate::{Gate, OpenGate};
pub use link::{Link, LinkCounts, Received};
pub use memory::{MemSink, MemSource};
pub use memory_link::{Heard, MemLink};
pub use memory_ports::MemPorts;
pub use memory_ticker::MemTicker;
pub use outside::{Sink, Source};
pub use places::{Place, Places};
pub use ports::Ports;
pub use ticker::{Next, Ticker};
