//! What an event gave, as C reads it.
ghost use Rattle.std.specs.Prelude.{◌≡◌, replicate};
ghost use Rattle.bfd_c.specs.Structs as structs;

use crate::naming::{refusal_name, refusal_number, state_number, test_name, test_number};
use crate::packing::pack_wire;
use crate::sizes;
use crate::wire::{Address, write_address};
use bfd_packet::{Datagram, State};
use bfd_rules::Out;
use bfd_session::{Answer, Shown};

/// One output: the kind 1 is a change of state, 2 a packet to send. What a kind doesn't use is 0.
#[repr(C)]
#[derive(Drop)]
pub struct Output {
    pub size: u32,
    pub kind: u32,
    /// The discriminator of the session, or of the reflector that answers.
    pub discr: u32,
    /// The state before and after: 0 AdminDown, 1 Down, 2 Init, 3 Up.
    pub was: u8,
    pub state: u8,
    /// The diagnostic, 0 to 31.
    pub diag: u8,
    /// The IP TTL or Hop Limit to send with.
    pub ttl: u8,
    pub iface: u32,
    pub sport: u16,
    pub dport: u16,
    pub src: Address,
    pub dst: Address,
    /// How many of the bytes are to be sent, at most 52.
    pub len: u32,
    pub bytes: [u8; 52],
}

/// What an event was answered: the kind 0 is handled, 1 ticked, 2 dropped, 3 refused, 4 shown. Of dropped and refused, `code` is
/// the number and `name` the name of the cause, with zeros behind it. `discr` is the session to which the event came; 0 where it came to
/// none, to a reflector, or as a tick to all. What a kind doesn't use is 0.
#[repr(C)]
#[derive(Drop)]
pub struct Answered {
    pub size: u32,
    pub kind: u32,
    pub code: u32,
    pub name: [u8; 20],
    pub discr: u32,
    pub state: u8,
    pub diag: u8,
    pub remote_state: u8,
    /// The Poll Sequence: 0 none, 1 requested, 2 running.
    pub poll: u8,
    pub remote_discr: u32,
    /// Intervals, and the Detection Time, in microseconds.
    pub adv_tx: u32,
    pub used_tx: u32,
    pub used_rx: u32,
    pub detect: u64,
}

/// Writes a change of state for C.
fn write_change(discr: u32, was: State, state: State, diag: u8, output: &mut Output)
    ensures { output.new ≡ structs.output_of (Out.Changed discr was state diag) }
{
    let nowhere = Address {
        family: 0,
        bytes: [0; 16],
    };
    *output = Output {
        size: sizes::OUTPUT,
        kind: 1,
        discr,
        was: state_number(was),
        state: state_number(state),
        diag,
        ttl: 0,
        iface: 0,
        sport: 0,
        dport: 0,
        src: nowhere,
        dst: nowhere,
        len: 0,
        bytes: [0; 52],
    };
}

/// Writes a packet to send for C, in place: of the addresses and the bytes there is no copy.
fn write_packet(discr: u32, datagram: &Datagram, output: &mut Output)
    ensures { output.new ≡ structs.output_of (Out.Sent discr datagram.now) }
{
    let wire = datagram.bytes.as_slice();
    output.size = sizes::OUTPUT;
    output.kind = 2;
    output.discr = discr;
    output.was = 0;
    output.state = 0;
    output.diag = 0;
    output.ttl = datagram.ttl;
    output.iface = datagram.iface;
    output.sport = datagram.sport;
    output.dport = datagram.dport;
    write_address(&datagram.src, &mut output.src);
    write_address(&datagram.dst, &mut output.dst);
    output.len = wire.len() as u32;
    pack_wire(wire, &mut output.bytes);
}

/// Writes the output for C.
pub(crate) fn write_output(out: &Out, output: &mut Output)
    ensures { output.new ≡ structs.output_of out.now }
{
    match out {
        Out::Changed {
            discr,
            old,
            new,
            diag,
        } => write_change(*discr, *old, *new, *diag, output),
        Out::Sent { discr, datagram } => write_packet(*discr, datagram, output),
    }
}

/// An answer without a view.
fn plain_answer(kind: u32, code: u32, name: [u8; 20], discr: u32) -> Answered
    ensures { result ≡ structs.plain_answer kind code name discr }
{
    Answered {
        size: sizes::ANSWERED,
        kind,
        code,
        name,
        discr,
        state: 0,
        diag: 0,
        remote_state: 0,
        poll: 0,
        remote_discr: 0,
        adv_tx: 0,
        used_tx: 0,
        used_rx: 0,
        detect: 0,
    }
}

/// A view for C.
fn view(shown: &Shown) -> Answered
    ensures { result ≡ structs.view_of shown.now }
{
    Answered {
        size: sizes::ANSWERED,
        kind: 4,
        code: 0,
        name: [0; 20],
        discr: shown.discr,
        state: state_number(shown.state),
        diag: shown.diag,
        remote_state: state_number(shown.remote_state),
        poll: shown.poll,
        remote_discr: shown.remote_discr,
        adv_tx: shown.adv_tx,
        used_tx: shown.used_tx,
        used_rx: shown.used_rx,
        detect: shown.detect,
    }
}

/// The answer for C, of an event that came to the session of this discriminator.
pub(crate) fn answer_out(discr: u32, answer: &Answer) -> Answered
    ensures { result ≡ structs.answer_for_c discr answer.now }
{
    match answer {
        Answer::Handled => plain_answer(0, 0, [0; 20], discr),
        Answer::Ticked => plain_answer(1, 0, [0; 20], discr),
        Answer::Dropped(test) => plain_answer(2, test_number(*test), test_name(*test), discr),
        Answer::Refused(refusal) => {
            plain_answer(3, refusal_number(*refusal), refusal_name(*refusal), discr)
        }
        Answer::Shown(shown) => view(shown),
    }
}
