//! Links over the machine's own addresses, and its clock.
use bfd_edge::{Fault, Link, Next, Ports, Received, Ticker};
use bfd_net::{ClockTicker, UdpLink, UdpPorts, udp_port};
use bfd_packet::{Addr, Arrival, Datagram, Port, Wire};
use std::net::UdpSocket;
use std::process;
use std::process::Abort;
use std::test::Fail;

/// 127.0.0.1.
const LOCALHOST: u32 = 0x7f00_0001;

/// A control packet of a session in Down with discriminator 7.
const PACKET: [u8; 24] = [
    0x20, 0x40, 0x03, 0x18, 0, 0, 0, 7, 0, 0, 0, 0, 0, 0x0f, 0x42, 0x40, 0, 0, 0, 0, 0, 0, 0, 0,
];

/// The packet to this address, on port Single.
fn packet_to(address: u32) -> Datagram {
    Datagram {
        iface: 1,
        src: Addr::V4(LOCALHOST),
        sport: 49152,
        dst: Addr::V4(address),
        dport: udp_port(Port::Single),
        ttl: 255,
        bytes: Wire::of(&PACKET),
    }
}

/// Moves to another thread.
fn crosses<T: Send>(_value: &T) {}

/// A number of a link that no other run of these tests uses at the same time, but by accident.
fn own_number(rt: &HostRuntime) -> u32 {
    6 + process::id(rt.process()) % 1000
}

/// Link 0 only sends: within this machine, and nowhere else.
fn sends(rt: &impl Abort, zero: &mut UdpLink<HostRuntime>) {
    assert!(rt; matches!(zero.receive(), Received::Ended));
    for (address, answer) in [(LOCALHOST, Ok(())), (0xc000_0201, Err(Fault::Failed))] {
        assert!(rt; zero.send(&packet_to(address)) == answer);
    }
    assert!(rt; zero.counts().send_faults == 1);
}

/// The packet is as it was sent, from this machine on interface 1.
fn is_as_sent(arrival: &Arrival) -> bool {
    let local = Addr::V4(LOCALHOST);
    arrival.port == Port::Single
        && arrival.iface == 1
        && arrival.ttl == 255
        && arrival.src == local
        && arrival.dst == local
        && arrival.payload.as_slice() == PACKET.as_slice()
}

/// The packet comes as it was sent.
fn hears(rt: &impl Abort, one: &mut UdpLink<HostRuntime>) {
    let Received::Got { arrival, .. } = one.receive() else {
        assert!(rt; false, "the packet comes");
        return;
    };
    assert!(rt; is_as_sent(&arrival));
}

/// How many of 65,000 bytes that are sent to link 1 come.
fn hears_of_long(rt: HostRuntime, one: &mut UdpLink<HostRuntime>) -> Result<usize, Fail> {
    let sender = UdpSocket::bind(&rt, "127.0.0.1:0")?;
    let long = vec![in rt.alloc(); 7u8; 65_000]?;
    sender.send_to(&long, ("127.0.0.1", udp_port(Port::Single)))?;
    let Received::Got { arrival, .. } = one.receive() else {
        return Err(Fail::from("the long packet comes"));
    };
    Ok(arrival.payload.as_slice().len())
}

/// Whether link 1 can be opened.
fn is_free(rt: HostRuntime) -> bool {
    UdpPorts::make(rt, rt.alloc()).open(1).is_ok()
}

#[test]
fn loopback(rt: HostRuntime) -> Result<(), Fail> {
    let mut ports = UdpPorts::make(rt, rt.alloc());
    let Ok(mut zero) = ports.open(0) else {
        return Err(Fail::from("link 0 opens"));
    };
    let Ok(mut one) = ports.open(1) else {
        return Err(Fail::from("link 1 opens"));
    };
    crosses(&one);
    sends(&rt, &mut zero);
    hears(&rt, &mut one);
    assert!(rt; hears_of_long(rt, &mut one)? == 256);
    assert!(rt; !is_free(rt), "its port is taken");
    drop(one);
    assert!(rt; is_free(rt), "and free again without the link");
    Ok(())
}

#[test]
fn hears_nothing(rt: HostRuntime) {
    let mut ports = UdpPorts::make(rt, rt.alloc());
    let Ok(mut link) = ports.open(own_number(&rt)) else {
        assert!(rt; false, "the link opens");
        return;
    };
    for _quiet in 0..500 {
        assert!(rt; matches!(link.receive(), Received::Quiet));
    }
    // and from then on
    for _ended in 0..2 {
        assert!(rt; matches!(link.receive(), Received::Ended));
    }
    assert!(rt; link.counts().gave == 500 && link.counts().over);
}

#[test]
fn ticks(rt: HostRuntime) {
    let mut ticker = ClockTicker::make(rt);
    crosses(&ticker);
    let mut last = 0;
    for _ in 0..20 {
        match ticker.next() {
            Next::Got(tick) => {
                assert!(rt; last < tick.get());
                last = tick.get();
            }
            _ => assert!(rt; false, "the clock ticks"),
        }
    }
}
