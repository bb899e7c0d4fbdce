//! Ports over memory.
ghost use Rattle.std.specs.Prelude.{◌≡◌, [], true, false, IfOk, MatchOption};
ghost use Rattle.bfd_edge.specs.Links.{IsNewLink};
ghost use Rattle.bfd_edge.specs.Ports.{after_open, after_shut};
ghost use Rattle.bfd_edge.specs.Places.{is_shut, with_place, place_in};
ghost use Rattle.bfd_edge.specs.MemoryLink as memory_link;
ghost use Rattle.bfd_edge.specs.MemoryPorts.{observed_of, AllNew, AnswersOpen, link_at, with_ended};

use crate::fault::Fault;
use crate::memory_link::MemLink;
use crate::places::{Place, Places};
use crate::ports::Ports;
use std::alloc::Global;
use std::marker::Model;
use std::mem;

/// Ports that open the links of a list, by number from 0. A number that the list lacks opens as a link that is Ended from the start. A link
/// that is shut is kept. Contracts see them as the record `HeldPorts`.
#[derive(Drop)]
pub struct MemPorts {
    alloc: Global,
    links: Vec<MemLink>,
    places: Places<MemLink>,
    calls: u64,
    fails: Vec<u64>,
    faults: u64,
}

impl Model for MemPorts {
    ghost use Rattle.bfd_edge.specs.MemoryPorts.{HeldPorts, AllNew};

    ghost Value = { HeldPorts };

    ghost view = { λ p. record {
      links = p.links.items;
      places = p.places;
      calls = p.calls;
      fails = p.fails.items;
      faults = p.faults;
    } };

    ghost invariant = { λ p. AllNew p.links.items };
}

impl MemPorts {
    /// Ports that open these links, and fail at the calls of `open` named, counted from 0.
    pub fn make(alloc: Global, links: Vec<MemLink>, fails: Vec<u64>) -> Self
        requires { AllNew links.items }
        ensures { result ≡ record { links = links.items; places = []; calls = 0; fails = fails.items; faults = 0 } }
    {
        MemPorts {
            alloc,
            links,
            places: Places::new(alloc),
            calls: 0,
            fails,
            faults: 0,
        }
    }

    /// The link that was shut under this number.
    pub fn shut_link(&self, number: u32) -> Option<&MemLink>
        ensures { MatchOption result (is_shut (place_in self.now.places number) ≡ false)
            (λ link. place_in self.now.places number ≡ Place.Shut link.now) }
    {
        self.places.kept(number)
    }
}

/// Takes the link of the number out of the list, and leaves one that is Ended from the start.
fn take_link(alloc: Global, links: &mut Vec<MemLink>, number: usize) -> MemLink
    ensures link { result ≡ link_at links.old.items number }
    ensures rest { links.new.items ≡ with_ended number links.old.items }
{
    let ended = MemLink::make(alloc, Vec::new(alloc), Vec::new(alloc));
    if number < links.len() {
        mem::replace(&mut links[number], ended)
    } else {
        ended
    }
}

impl Ports for MemPorts {
    type Link = MemLink;

    ghost observed = { observed_of };

    /// Opens the link of this number, or fails where this call is one of those named. `Memory` leaves all as it was.
    fn open(&mut self, number: u32) -> Result<MemLink, Fault>
        requires { (observed_of self.old).opened number ≡ false }
        ensures link { IfOk result (λ link. IsNewLink (memory_link.observed_of link)) }
        ensures number { IfOk result (λ link. link.number ≡ number) }
        ensures after { observed_of self.new ≡ after_open number result (observed_of self.old) }
        ensures answer { AnswersOpen number self.old result self.new }
    {
        let call = self.calls;
        if self.fails.contains(&call) {
            self.calls = call.saturating_add(1);
            self.faults = self.faults.saturating_add(1);
            return Err(Fault::Failed);
        }
        match self.places.open(number) {
            Ok(()) => {
                self.calls = call.saturating_add(1);
                let link = take_link(self.alloc, &mut self.links, number as usize);
                Ok(link.opened_as(number))
            }
            Err(_) => Err(Fault::Memory),
        }
    }

    /// Keeps the link under its number, and leaves all else. It allocates no memory.
    fn shut(&mut self, number: u32, link: MemLink)
        requires opened { (observed_of self.old).opened number ≡ true }
        requires number { link.number ≡ number }
        ensures after { observed_of self.new ≡ after_shut number (memory_link.observed_of link) (observed_of self.old) }
        ensures kept { place_in self.new.places ≡ with_place number (Place.Shut link) (place_in self.old.places) }
        ensures rest { self.new ≡ record self.old { places = self.new.places } }
    {
        self.places.shut(number, link);
    }
}
