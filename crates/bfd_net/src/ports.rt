//! Ports over UDP.
ghost use Rattle.std.specs.Prelude.{◌≡◌, ◌<◌, [], false, true, IfOk, IfSome, IsErrOf, IsNone};
ghost use Rattle.bfd_edge.specs.Links.{IsNewLink, no_counts};
ghost use Rattle.bfd_edge.specs.Ports.{after_open, after_shut};
ghost use Rattle.bfd_net.specs.Hearing.{hears_of, IsSocketPlace};
ghost use Rattle.bfd_net.specs.Sockets.{link_observed, ports_observed_of};

use crate::clock::SinceMade;
use crate::hearing::{address_of_link, port_of_link, udp_port};
use crate::link::{Bound, UdpLink};
use bfd_edge::{Fault, LinkCounts, Places, Ports};
use bfd_packet::Port;
use std::alloc::Global;
use std::io;
use std::marker::Model;
use std::net::{Ipv4Addr, Net, SocketAddr, SocketAddrV4, UdpSocket};
use std::time::{Clock, Duration};

/// How long a receive waits for a packet.
const WAIT: u64 = 20;

/// The address that link 0 sends from, 127.0.0.1.
const LOCALHOST: u32 = 0x7f00_0001;

/// The last link: that of port Answer on 127.0.0.255.
const LAST_LINK: u32 = 1275;

/// Ports that open links over UDP on 127.0.0.0/8. They keep the numbers and the counts of the links that were shut. Contracts see them as
/// the record `UdpPortsHeld`.
#[derive(Drop)]
pub struct UdpPorts<R: Net + Clock + Copy> {
    rt: R,
    clock: SinceMade<R>,
    alloc: Global,
    places: Places<(u32, LinkCounts)>,
    faults: u64,
}

impl<R: Net + Clock + Copy> Model for UdpPorts<R> {
    ghost use Rattle.bfd_net.specs.Sockets.{UdpPortsHeld};

    ghost Value = { UdpPortsHeld };

    ghost view = { λ p. record { made = p.clock.made; places = p.places; faults = p.faults } };
}

impl<R: Net + Clock + Copy> UdpPorts<R> {
    /// Ports of which no number was opened. The moments of packets count from here.
    pub fn make(rt: R, alloc: Global) -> Self
        ensures { result ≡ record { made = result.made; places = []; faults = 0 } }
    {
        UdpPorts {
            rt,
            clock: SinceMade::now(rt),
            alloc,
            places: Places::new(alloc),
            faults: 0,
        }
    }
}

/// A socket on the address and port of what it hears, which waits for packets for 20 milliseconds and sends with TTL 255 (RFC 5881
/// section 5).
fn bound(net: &impl Net, hears: Option<(Port, u32)>, place: SocketAddrV4) -> io::Result<Bound>
    requires { IsSocketPlace hears place }
    ensures { IfOk result (λ bound. bound.hears ≡ hears) }
{
    let socket = UdpSocket::bind(net, SocketAddr::V4(place))?;
    socket.set_read_timeout(Some(Duration::from_millis(WAIT)))?;
    socket.set_ttl(255)?;
    Ok(Bound { socket, hears })
}

/// The port and the address that the link of this number hears. Link 0 only sends.
fn hearing(number: u32) -> Option<(Port, u32)>
    ensures { result ≡ hears_of number }
{
    if number == 0 {
        None
    } else {
        Some((port_of_link(number), address_of_link(number)))
    }
}

/// The address and port of a link's socket, by what the link hears: of one that only sends 127.0.0.1, and any port that is free.
fn place_of(hears: Option<(Port, u32)>) -> SocketAddrV4
    ensures { IsSocketPlace hears result }
{
    match hears {
        Some((port, address)) => SocketAddrV4::new(Ipv4Addr::from_bits(address), udp_port(port)),
        None => SocketAddrV4::new(Ipv4Addr::from_bits(LOCALHOST), 0),
    }
}

impl<R: Net + Clock + Copy> UdpPorts<R> {
    /// The link of this number over a socket of its own.
    fn link(&self, number: u32) -> Option<UdpLink<R>>
        ensures made { IfSome result (λ link. link ≡ record {
          number = number;
          made = self.now.made;
          hears = hears_of number;
          quiets = 0;
          counts = no_counts;
        }) }
        ensures above { 1275 < number → IsNone result }
    {
        if number > LAST_LINK {
            return None;
        }
        let hears = hearing(number);
        let bound = bound(&self.rt, hears, place_of(hears)).ok()?;
        Some(UdpLink::over(number, bound, self.clock, self.alloc))
    }
}

impl<R: Net + Clock + Copy> Ports for UdpPorts<R> {
    type Link = UdpLink<R>;

    ghost observed = { ports_observed_of };

    /// Opens the link of this number. `Failed` comes where its socket isn't available, as where another has its port, and for a
    /// number above 1,275, for which 127.0.0.0/24 has no address.
    fn open(&mut self, number: u32) -> Result<UdpLink<R>, Fault>
        requires { (ports_observed_of self.old).opened number ≡ false }
        ensures link { IfOk result (λ link. IsNewLink (link_observed link)) }
        ensures after { ports_observed_of self.new ≡ after_open number result (ports_observed_of self.old) }
        ensures number { IfOk result (λ link. link.number ≡ number) }
        ensures hears { IfOk result (λ link. (link.hears ≡ hears_of number) × (link.quiets ≡ 0)) }
        ensures made { IfOk result (λ link. link.made ≡ self.old.made) × (self.new.made ≡ self.old.made) }
        ensures above { 1275 < number → IsErrOf result Fault.Failed }
    {
        let Some(link) = self.link(number) else {
            self.faults = self.faults.saturating_add(1);
            return Err(Fault::Failed);
        };
        match self.places.open(number) {
            Ok(()) => Ok(link),
            Err(_) => Err(Fault::Memory),
        }
    }

    /// Closes the link's socket, and keeps its number and what it counted.
    fn shut(&mut self, number: u32, link: UdpLink<R>)
        requires opened { (ports_observed_of self.old).opened number ≡ true }
        requires number { link.number ≡ number }
        ensures after { ports_observed_of self.new ≡ after_shut number (link_observed link) (ports_observed_of self.old) }
        ensures made { self.new.made ≡ self.old.made }
    {
        self.places.shut(number, (number, link.counts()));
    }
}
