//! The reflector: its answer to one arrival (RFC 7880 sections 5 and 7.2, RFC 7881 section 6).
ghost use Rattle.std.specs.Prelude.{◌≡◌, IfOk};
ghost use Rattle.bfd_packet.specs.declared.arrival.Port.TheVariants.{Sbfd};
ghost use Rattle.bfd_packet.specs.HeaderTests.{read_of};
ghost use Rattle.bfd_packet.specs.Layout.{fields_of};
ghost use Rattle.bfd_sbfd.specs.Reflect as reflecting;
ghost use Rattle.bfd_sbfd.specs.Reflect.{Ascends};

use crate::transmitting::SBFD_PORT;
use bfd_packet::{Arrival, Control, Datagram, Port, State, Test, read, write_plain};

/// A reflector (RFC 7880 section 5). It keeps nothing of the packets that it answers.
#[derive(Clone, Copy, Debug, PartialEq, Eq)]
pub struct Reflector {
    /// The discriminator that it answers to, 1 to 4,294,967,295.
    pub discr: u32,
    /// The Required Min RX Interval that it advertises, in microseconds.
    pub rx: u32,
    /// Up; otherwise it was set to AdminDown, and says so in its answers.
    pub up: bool,
}

/// The reflector that Your Discriminator names, by a binary search; 0 names none.
fn named(pool: &[Reflector], discr: u32) -> Option<Reflector>
    requires ascends { Ascends pool.now }
    ensures value { result ≡ reflecting.named_in pool.now discr }
{
    if discr == 0 {
        return None;
    }
    match pool.binary_search_by_key(&discr, |reflector| reflector.discr) {
        Ok(place) => Some(pool[place]),
        Err(_) => None,
    }
}

/// The fields of the answer to a packet.
fn answer(reflector: &Reflector, packet: &Control) -> Control
    ensures { result ≡ reflecting.reflected_fields reflector.now packet.now }
{
    Control {
        diag: 0,
        state: if reflector.up {
            State::Up
        } else {
            State::AdminDown
        },
        poll: false,
        fin: packet.poll,
        cpi: false,
        auth: false,
        demand: false,
        multi: false,
        mult: packet.mult,
        length: 0,
        my: packet.your,
        your: packet.my,
        min_tx: packet.min_tx,
        min_rx: reflector.rx,
        min_echo: 0,
    }
}

/// The answer on its way back.
fn answered(reflector: &Reflector, packet: &Control, arrival: &Arrival) -> Datagram
    requires { packet.now ≡ fields_of arrival.now.payload }
    ensures { result ≡ reflecting.answered reflector.now arrival.now }
{
    Datagram {
        iface: arrival.iface,
        src: arrival.dst,
        sport: SBFD_PORT,
        dst: arrival.src,
        dport: arrival.sport,
        ttl: 255,
        bytes: write_plain(&answer(reflector, packet)),
    }
}

/// The fields of a packet that passes the header tests of the reflectors' port, or the first of them that it fails.
fn fields(payload: &[u8]) -> Result<Control, Test>
    ensures value { result ≡ read_of Sbfd payload.now }
    ensures fields { IfOk result (λ packet. packet ≡ fields_of payload.now) }
{
    read(Port::Sbfd, payload)
}

/// The answer to a packet on the reflectors' port, 7784, or the first of that port's tests that it fails: Short, Version,
/// LengthMin, LengthOver, DetectMult, Multipoint, MyDiscr, YourUnknown, AuthUnexpected, NotDemand (RFC 7880 section 7.2,
/// RFC 7881 section 6). YourUnknown comes where Your Discriminator is 0 or no reflector of the pool has it. The pool is in
/// ascending order of discriminator, with none twice. A reflector answers whatever its own state is. Allocates no memory
/// and keeps none.
pub fn reflect(pool: &[Reflector], arrival: &Arrival) -> Result<Datagram, Test>
    requires { Ascends pool.now }
    ensures { result ≡ reflecting.reflect pool.now arrival.now }
{
    let packet = fields(arrival.payload.as_slice())?;
    let Some(reflector) = named(pool, packet.your) else {
        return Err(Test::YourUnknown);
    };
    if packet.auth {
        return Err(Test::AuthUnexpected);
    }
    if !packet.demand {
        return Err(Test::NotDemand);
    }
    Ok(answered(&reflector, &packet, arrival))
}
