//! A link over memory.
ghost use Rattle.std.specs.Prelude.{◌≡◌, [], slice_get};
ghost use Rattle.bfd_edge.specs.Links.{after_receive, after_send, no_counts};
ghost use Rattle.bfd_edge.specs.MemoryLink.{observed_of, items_used, Answers, AnswersSend, Hears};

use crate::fault::Fault;
use crate::link::{Link, LinkCounts, Received};
use bfd_num::Moment;
use bfd_packet::{Arrival, Datagram, Wire};
use std::alloc::Global;
use std::marker::Model;

/// One answer of a link over memory.
#[derive(Drop)]
pub enum Heard {
    /// A packet, and the moment at which it comes.
    Got(Moment, Arrival),

    /// No packet for now.
    Quiet,

    /// A failed receive.
    Failed,
}

/// A link that gives the answers of a list, one after another, and keeps what it is sent. After the list it answers Ended.
/// Contracts see it as the record `HeldLink`.
#[derive(Drop)]
pub struct MemLink {
    number: u32,
    alloc: Global,
    heard: Vec<Heard>,
    at: usize,
    sent: Vec<Datagram>,
    sends: u64,
    fails: Vec<u64>,
    counts: LinkCounts,
}

impl Model for MemLink {
    ghost use Rattle.std.specs.Prelude.{take, drop, ◌≤◌, vec_len};
    ghost use Rattle.bfd_edge.specs.MemoryLink.{HeldLink, packets_in};

    ghost Value = { HeldLink };

    ghost view = { λ l. record {
      number = l.number;
      received = packets_in (take l.at l.heard.items);
      left = drop l.at l.heard.items;
      sent = l.sent.items;
      sends = l.sends;
      fails = l.fails.items;
      counts = l.counts;
    } };

    ghost invariant = { λ l. l.at ≤ vec_len l.heard };
}

impl MemLink {
    /// A link that gives these answers, and fails at the sends named, counted from 0.
    pub fn make(alloc: Global, heard: Vec<Heard>, fails: Vec<u64>) -> Self
        ensures { result ≡ record {
          number = 0;
          received = [];
          left = heard.items;
          sent = [];
          sends = 0;
          fails = fails.items;
          counts = no_counts;
        } }
    {
        MemLink {
            number: 0,
            alloc,
            heard,
            at: 0,
            sent: Vec::new(alloc),
            sends: 0,
            fails,
            counts: LinkCounts::new(),
        }
    }

    /// The link, opened by this number.
    pub(crate) fn opened_as(self, number: u32) -> Self
        ensures { result ≡ record self { number = number } }
    {
        let mut link = self;
        link.number = number;
        link
    }

    /// The packets that were sent, in order.
    pub fn sent(&self) -> &[Datagram]
        ensures { result.now ≡ self.now.sent }
    {
        self.sent.as_slice()
    }
}

/// A copy of a packet that goes out.
fn copied_out(datagram: &Datagram) -> Datagram
    ensures { result ≡ datagram.now }
{
    Datagram {
        iface: datagram.iface,
        src: datagram.src,
        sport: datagram.sport,
        dst: datagram.dst,
        dport: datagram.dport,
        ttl: datagram.ttl,
        bytes: Wire::of(datagram.bytes.as_slice()),
    }
}

/// The answer that stands at this place of the list: Ended behind its end, and Memory where there is none for a packet.
fn heard_at(alloc: Global, heard: &[Heard], at: usize) -> Received
    ensures { Hears (slice_get heard.now at) result }
{
    match heard.get(at) {
        None => Received::Ended,
        Some(Heard::Quiet) => Received::Quiet,
        Some(Heard::Failed) => Received::Failed,
        Some(Heard::Got(moment, arrival)) => match arrival.copy(alloc) {
            Ok(arrival) => Received::Got {
                moment: *moment,
                arrival,
            },
            Err(_) => Received::Memory,
        },
    }
}

/// How many items of the list an answer uses up: one, or none.
fn items_of(received: &Received) -> usize
    ensures { result ≡ items_used received.now }
{
    match received {
        Received::Got { .. } | Received::Quiet | Received::Failed => 1,
        Received::Ended | Received::Memory => 0,
    }
}

impl Link for MemLink {
    ghost observed = { observed_of };

    /// Gives the next answer of the list, or Ended where none is left. `Memory` comes only at a packet, and leaves all as it
    /// was.
    fn receive(&mut self) -> Received
        ensures after { observed_of self.new ≡ after_receive result (observed_of self.old) }
        ensures answer { Answers self.old.left result self.new.left }
        ensures sends { (self.new.sends ≡ self.old.sends) × (self.new.fails ≡ self.old.fails) }
    {
        let received = heard_at(self.alloc, &self.heard, self.at);
        self.counts.note_received(&received);
        self.at += items_of(&received);
        received
    }

    /// Keeps a copy of the packet, or fails where this send is one of those named. `Memory` leaves all as it was.
    fn send(&mut self, datagram: &Datagram) -> Result<(), Fault>
        ensures after { observed_of self.new ≡ after_send datagram.now result (observed_of self.old) }
        ensures answer { AnswersSend self.old result self.new }
    {
        let send = self.sends;
        if self.fails.contains(&send) {
            self.sends = send.saturating_add(1);
            self.counts.note_sent(&Err(Fault::Failed));
            return Err(Fault::Failed);
        }
        if self.sent.push(copied_out(datagram)).is_err() {
            return Err(Fault::Memory);
        }
        self.sends = send.saturating_add(1);
        Ok(())
    }
}
