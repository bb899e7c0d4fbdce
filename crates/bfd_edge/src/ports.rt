//! Ports: what links are opened from and shut to.

use crate::fault::Fault;
use crate::link::Link;

/// Something that opens links by number, as a machine opens sockets.
///
/// It always reports which numbers were opened, what the link of each number that was shut reported then, and how often opening
/// failed.
pub trait Ports {
    ghost use Rattle.std.specs.Prelude.{◌≡◌, true, false, IfOk};
    ghost use Rattle.bfd_edge.specs.Links.{IsNewLink};
    ghost use Rattle.bfd_edge.specs.Ports.{PortsObserved, after_open, after_shut};

    /// Its links.
    type Link: Link + Drop;

    // What it reports.
    ghost observed: { Self → PortsObserved };

    /// Opens the link of a number that wasn't opened before. The link is one that was never called, and reports the number.
    ///
    /// `Failed` raises the count of faults, and `Memory` leaves it; after both the number isn't opened.
    fn open(&mut self, number: u32) -> Result<Self::Link, Fault>
        requires { (observed self.old).opened number ≡ false }
        ensures link { IfOk result (λ link. IsNewLink (Self.Link.observed link)) }
        ensures number { IfOk result (λ link. (Self.Link.observed link).number ≡ number) }
        ensures after { observed self.new ≡ after_open number result (observed self.old) };

    /// Accepts back the link that was opened by this number, and keeps what it reports.
    fn shut(&mut self, number: u32, link: Self::Link)
        requires opened { (observed self.old).opened number ≡ true }
        requires number { (Self.Link.observed link).number ≡ number }
        ensures { observed self.new ≡ after_shut number (Self.Link.observed link) (observed self.old) };
}
