//! Links: what packets come from and go to.

use crate::fault::Fault;
use bfd_num::Moment;
use bfd_packet::{Arrival, Datagram};

/// What a link answers when it is asked for a packet.
#[derive(Drop)]
pub enum Received {
    /// A packet, and the moment at which it came.
    Got { moment: Moment, arrival: Arrival },

    /// No packet for now.
    Quiet,

    /// No packet is left.
    Ended,

    /// The link failed: its count of failed receives rose in this call.
    Failed,

    /// Out of memory for the packet.
    Memory,
}

/// What a link counts, from its making on. Each count stands still at 2^64 - 1.
#[derive(Clone, Copy, Debug, PartialEq, Eq)]
pub struct LinkCounts {
    /// How often receiving failed.
    pub receive_faults: u64,

    /// How often sending failed.
    pub send_faults: u64,

    /// How many packets and Quiets it gave.
    pub gave: u64,

    /// Whether it answered Ended.
    pub over: bool,
}

impl LinkCounts {
    ghost use Rattle.std.specs.Prelude.{◌≡◌};
    ghost use Rattle.bfd_edge.specs.Links.{counts_after_receive, counts_after_send, no_counts};

    /// The counts of a link that was never called.
    pub fn new() -> Self
        ensures { result ≡ no_counts }
    {
        LinkCounts {
            receive_faults: 0,
            send_faults: 0,
            gave: 0,
            over: false,
        }
    }

    /// Counts an answer of `receive`.
    pub fn note_received(&mut self, received: &Received)
        ensures { self.new ≡ counts_after_receive received.now self.old }
    {
        match received {
            Received::Got { .. } => self.gave = self.gave.saturating_add(1),
            Received::Quiet => self.gave = self.gave.saturating_add(1),
            Received::Ended => self.over = true,
            Received::Failed => self.receive_faults = self.receive_faults.saturating_add(1),
            Received::Memory => {}
        }
    }

    /// Counts an answer of `send`.
    pub fn note_sent(&mut self, sent: &Result<(), Fault>)
        ensures { self.new ≡ counts_after_send sent.now self.old }
    {
        match sent {
            Err(Fault::Failed) => self.send_faults = self.send_faults.saturating_add(1),
            Err(Fault::Memory) => {}
            Ok(()) => {}
        }
    }
}

/// Something that packets come from and go to, as a UDP socket does.
///
/// It always reports the number by which it was opened, which every call keeps, and its counts. A link over memory also reports
/// what it received and sent, each in order.
pub trait Link {
    ghost use Rattle.std.specs.Prelude.{◌≡◌};
    ghost use Rattle.bfd_edge.specs.Links.{LinkObserved, after_receive, after_send};

    // What it reports.
    ghost observed: { Self → LinkObserved };

    /// Asks for the next packet, and may wait for a while.
    ///
    /// `Got` and `Quiet` raise the count of what was given, `Ended` is remembered, `Failed` raises the count of failed
    /// receives, and `Memory` leaves all that the link reports.
    fn receive(&mut self) -> Received
        ensures { observed self.new ≡ after_receive result (observed self.old) };

    /// Sends a packet. `Failed` raises the count of failed sends, and the packet is not sent; `Memory` leaves all that the
    /// link reports.
    fn send(&mut self, datagram: &Datagram) -> Result<(), Fault>
        ensures { observed self.new ≡ after_send datagram.now result (observed self.old) };
}
