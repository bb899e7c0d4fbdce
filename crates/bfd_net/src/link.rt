//! A link over a UDP socket.
ghost use Rattle.std.specs.Prelude.{◌≡◌, ◌≢◌, ◌↔◌, ◌<◌, ◌≤◌, ◌-◌, ◌^◌, false, true, length, take, Some, is_some, IfOk, IfSome, Err};
ghost use Rattle.bfd_edge.specs.Links.{after_receive, after_send, no_counts};
ghost use Rattle.bfd_net.specs.Hearing.{is_local_addr};
ghost use Rattle.bfd_net.specs.Sockets.{answer_on_error, arrival_from, link_observed, is_done, quiets_after, sent_of, CameTo, IsGot};
ghost use Rattle.bfd_net.specs.Sockets.{IsHeard, IsTo};

use crate::clock::SinceMade;
use crate::hearing::is_local;
use bfd_edge::{Fault, Link, LinkCounts, Received};
use bfd_packet::{Addr, Arrival, Datagram, Payload, Port};
use std::alloc::Global;
use std::io;
use std::io::ErrorKind;
use std::marker::Model;
use std::net::{Ipv4Addr, SocketAddr, SocketAddrV4, UdpSocket};
use std::time::Clock;

/// How many bytes of a packet are read: no more are kept.
const KEPT: usize = 256;

/// How many answers in a row may be Quiet before the link is over.
const MOST_QUIETS: u32 = 500;

/// How often a receive that a signal interrupts is tried.
const TRIES: u32 = 16;

/// A socket, and the port and the address that it is bound to: none where it only sends.
#[derive(Drop)]
pub(crate) struct Bound {
    pub(crate) socket: UdpSocket,
    pub(crate) hears: Option<(Port, u32)>,
}

/// A link over a UDP socket, which [`crate::UdpPorts`] opens. Contracts see it as the record `UdpHeld`.
///
/// It is Quiet where no packet came for 20 milliseconds, and Ended after 500 Quiets in a row. A link that only sends is Ended
/// immediately.
#[derive(Drop)]
pub struct UdpLink<R: Clock> {
    number: u32,
    socket: UdpSocket,
    clock: SinceMade<R>,
    alloc: Global,
    hears: Option<(Port, u32)>,
    quiets: u32,
    counts: LinkCounts,
}

impl<R: Clock> Model for UdpLink<R> {
    ghost use Rattle.std.specs.Prelude.{◌≤◌};
    ghost use Rattle.bfd_net.specs.Sockets.{UdpHeld};

    ghost Value = { UdpHeld };

    ghost view = { λ l. record {
      number = l.number;
      made = l.clock.made;
      hears = l.hears;
      quiets = l.quiets;
      counts = l.counts;
    } };

    ghost invariant = { λ l. l.quiets ≤ 500 };
}

impl<R: Clock> UdpLink<R> {
    /// The link of this number over this socket, which hears the socket's port and address.
    pub(crate) fn over(number: u32, bound: Bound, clock: SinceMade<R>, alloc: Global) -> Self
        ensures { result
            ≡ record { number = number; made = clock.made; hears = bound.hears; quiets = 0; counts = no_counts } }
    {
        UdpLink {
            number,
            socket: bound.socket,
            clock,
            alloc,
            hears: bound.hears,
            quiets: 0,
            counts: LinkCounts::new(),
        }
    }

    /// What the link has counted.
    pub fn counts(&self) -> LinkCounts
        ensures { result ≡ self.now.counts }
    {
        self.counts
    }
}

/// Waits for a packet, and again where a signal interrupts that.
fn listen(socket: &UdpSocket, buf: &mut [u8]) -> io::Result<(usize, SocketAddr)>
    ensures { IfOk result (λ came. came.0 ≤ length buf.new) }
{
    for _ in 1..TRIES {
        match socket.recv_from(buf) {
            Err(error) if error.kind() == ErrorKind::Interrupted => {}
            came => return came,
        }
    }
    socket.recv_from(buf)
}

/// A packet that came from there to this port and address.
fn came(from: &SocketAddrV4, port: Port, address: u32, payload: Payload) -> Arrival
    ensures { result ≡ arrival_from from.now port address payload }
{
    Arrival {
        port,
        iface: 1,
        src: Addr::V4(from.ip().to_bits()),
        sport: from.port(),
        dst: Addr::V4(address),
        ttl: 255,
        payload,
    }
}

/// The answer to a receive that failed: Quiet where no packet came in time.
fn answer_to(kind: ErrorKind) -> Received
    ensures { result ≡ answer_on_error kind }
{
    match kind {
        ErrorKind::WouldBlock | ErrorKind::TimedOut => Received::Quiet,
        _ => Received::Failed,
    }
}

/// A packet of so many bytes that came from there to this port and address. They are at the start of the buffer.
fn kept<R: Clock>(
    count: usize,
    from: &SocketAddrV4,
    buf: &[u8],
    clock: &SinceMade<R>,
    alloc: Global,
    port: Port,
    address: u32,
) -> Received
    requires within { count ≤ length buf.now }
    requires few { length buf.now ≤ 256 }
    ensures { IsGot clock.now.made (arrival_from from.now port address (take count buf.now)) result }
{
    let Some(moment) = clock.moment() else {
        return Received::Failed;
    };
    match Payload::keep(alloc, &buf[..count]) {
        Ok(payload) => Received::Got {
            moment,
            arrival: came(from, port, address, payload),
        },
        Err(_) => Received::Memory,
    }
}

/// The answer to a receive into this buffer. Of a packet it keeps as many bytes of the buffer as came.
fn heard<R: Clock>(
    received: io::Result<(usize, SocketAddr)>,
    buf: &[u8],
    clock: &SinceMade<R>,
    alloc: Global,
    port: Port,
    address: u32,
) -> Received
    requires within { IfOk received (λ came. came.0 ≤ length buf.now) }
    requires few { length buf.now ≤ 256 }
    ensures { IsHeard clock.now.made port address received buf.now result }
{
    match received {
        Ok((count, SocketAddr::V4(from))) => kept(count, &from, buf, clock, alloc, port, address),
        Ok((_, SocketAddr::V6(_))) => Received::Failed,
        Err(error) => answer_to(error.kind()),
    }
}

/// Waits for a packet to this port and address.
fn hear<R: Clock>(
    socket: &UdpSocket,
    clock: &SinceMade<R>,
    alloc: Global,
    port: Port,
    address: u32,
) -> Received
    ensures came { CameTo clock.now.made (Some (port, address)) result }
    ensures goes_on { result ≢ Received.Ended }
{
    let mut buf = [0u8; KEPT];
    let received = listen(socket, &mut buf);
    heard(received, &buf, clock, alloc, port, address)
}

/// Where a packet goes: None if and only if that isn't one of this machine's own addresses.
fn destination(datagram: &Datagram) -> Option<SocketAddrV4>
    ensures to { IfSome result (IsTo datagram.now) }
    ensures local { is_some result ≡ is_local_addr datagram.now.dst }
{
    if !is_local(&datagram.dst) {
        return None;
    }
    let Addr::V4(address) = datagram.dst else {
        return None;
    };
    let ip = Ipv4Addr::from_bits(address);
    Some(SocketAddrV4::new(ip, datagram.dport))
}

/// The result of a send of so many bytes.
fn sent_as(sent: io::Result<usize>, long: usize) -> Result<(), Fault>
    ensures value { result ≡ sent_of sent long }
    ensures no_memory_taken { result ≢ Err Fault.Memory }
{
    match sent {
        Ok(count) if count == long => Ok(()),
        _ => Err(Fault::Failed),
    }
}

/// Sends a packet to one of this machine's own addresses.
fn put(socket: &UdpSocket, datagram: &Datagram) -> Result<(), Fault>
    ensures local { is_local_addr datagram.now.dst ≡ false → result ≡ Err Fault.Failed }
    ensures no_memory_taken { result ≢ Err Fault.Memory }
{
    let Some(to) = destination(datagram) else {
        return Err(Fault::Failed);
    };
    let bytes = datagram.bytes.as_slice();
    sent_as(socket.send_to(bytes, to), bytes.len())
}

/// How many answers were Quiet in a row after this one.
fn quiets_now(received: &Received, quiets: u32) -> u32
    requires { quiets < 2 ^ 32 - 1 }
    ensures { result ≡ quiets_after received.now quiets }
{
    match received {
        Received::Got { .. } | Received::Failed => 0,
        Received::Quiet => quiets + 1,
        Received::Ended | Received::Memory => quiets,
    }
}

impl<R: Clock> Link for UdpLink<R> {
    ghost observed = { link_observed };

    /// Waits for a packet, for at most 20 milliseconds. Each that comes has interface 1, TTL 255, the port and the address that
    /// the link hears, its first 256 bytes, and the microseconds since the ports were made as its moment. Where the clock can't
    /// be read, and for every other error of the socket, the answer is `Failed`.
    fn receive(&mut self) -> Received
        ensures after { link_observed self.new ≡ after_receive result (link_observed self.old) }
        ensures ended { (result ≡ Received.Ended) ↔ (is_done self.old.hears self.old.quiets ≡ true) }
        ensures came { CameTo self.old.made self.old.hears result }
        ensures quiets { self.new.quiets ≡ quiets_after result self.old.quiets }
        ensures kept { (self.new.hears ≡ self.old.hears) × (self.new.made ≡ self.old.made) }
    {
        let received = match self.hears {
            Some((port, address)) if self.quiets < MOST_QUIETS => {
                hear(&self.socket, &self.clock, self.alloc, port, address)
            }
            _ => Received::Ended,
        };
        self.quiets = quiets_now(&received, self.quiets);
        self.counts.note_received(&received);
        received
    }

    /// Sends a packet from the link's own port, with TTL 255. An address outside 127.0.0.0 to 127.255.255.255 is `Failed`, and
    /// so is every error of the socket.
    fn send(&mut self, datagram: &Datagram) -> Result<(), Fault>
        ensures after { link_observed self.new ≡ after_send datagram.now result (link_observed self.old) }
        ensures local { is_local_addr datagram.now.dst ≡ false → result ≡ Err Fault.Failed }
        ensures no_memory_taken { result ≢ Err Fault.Memory }
        ensures kept { (self.new.hears ≡ self.old.hears) × (self.new.quiets ≡ self.old.quiets) × (self.new.made ≡ self.old.made) }
    {
        let sent = put(&self.socket, datagram);
        self.counts.note_sent(&sent);
        sent
    }
}
