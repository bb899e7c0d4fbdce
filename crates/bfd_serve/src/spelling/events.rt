//! The lines of events.
ghost use Rattle.std.specs.Prelude.{◌≡◌, [], ◌∷◌, IfOk, codes, string_bytes};
ghost use Rattle.std.specs.Fmt.{decimal};
ghost use Rattle.bfd_script.specs.Spelling.{line};
ghost use Rattle.bfd_serve.specs.Written.{event_fields, events_text};

use crate::spelling::fields::{address_text, port_text};
use bfd_packet::Arrival;
use bfd_rules::Cmd;
use bfd_script::fields::hex_text;
use bfd_script::line::Line;
use std::alloc::{AllocError, Global};
use std::fmt::Write;

/// The line of a packet.
pub(crate) fn packet_text(
    alloc: Global,
    moment: u64,
    arrival: &Arrival,
) -> Result<String, AllocError>
    ensures { IfOk result (λ text. string_bytes text ≡ line (event_fields (Line.Rx moment arrival.now))) }
{
    let port = port_text(arrival.port);
    let iface = arrival.iface;
    let src = address_text(alloc, arrival.src)?;
    let dst = address_text(alloc, arrival.dst)?;
    let ttl = arrival.ttl;
    let payload = hex_text(alloc, arrival.payload.as_slice())?;
    let mut text = String::new(alloc);
    writeln!(
        text,
        "rx {moment} {port} {iface} {src} {dst} {ttl} {payload}"
    )?;
    Ok(text)
}

/// The line of a command without number.
fn plain_text(alloc: Global, moment: u64, discr: u32, verb: &str) -> Result<String, AllocError>
    ensures { IfOk result (λ text. string_bytes text
        ≡ line (codes "cmd" ∷ decimal moment ∷ decimal discr ∷ verb.now ∷ [])) }
{
    format!(in alloc; "cmd {moment} {discr} {verb}\n")
}

/// The line of a command with a number.
fn number_text(
    alloc: Global,
    moment: u64,
    discr: u32,
    verb: &str,
    number: u64,
) -> Result<String, AllocError>
    ensures { IfOk result (λ text. string_bytes text
        ≡ line (codes "cmd" ∷ decimal moment ∷ decimal discr ∷ verb.now ∷ decimal number ∷ [])) }
{
    format!(in alloc; "cmd {moment} {discr} {verb} {number}\n")
}

/// The line of a command.
pub(crate) fn command_text(
    alloc: Global,
    moment: u64,
    discr: u32,
    cmd: Cmd,
) -> Result<String, AllocError>
    ensures { IfOk result (λ text. string_bytes text ≡ line (event_fields (Line.Cmd moment discr cmd))) }
{
    match cmd {
        Cmd::Disable => plain_text(alloc, moment, discr, "disable"),
        Cmd::Enable => plain_text(alloc, moment, discr, "enable"),
        Cmd::Reset => plain_text(alloc, moment, discr, "reset"),
        Cmd::Path(n) => number_text(alloc, moment, discr, "path", n),
        Cmd::Tx(n) => number_text(alloc, moment, discr, "tx", n),
        Cmd::Rx(n) => number_text(alloc, moment, discr, "rx", n),
        Cmd::Mult(n) => number_text(alloc, moment, discr, "mult", n),
        Cmd::Demand(n) => number_text(alloc, moment, discr, "demand", n),
        Cmd::EchoEvery(n) => number_text(alloc, moment, discr, "echo", n),
        Cmd::Key(n) => number_text(alloc, moment, discr, "key", n),
    }
}

/// The line of a tick.
pub(crate) fn tick_text(alloc: Global, tick: u64) -> Result<String, AllocError>
    ensures { IfOk result (λ text. string_bytes text ≡ line (event_fields (Line.Tick tick))) }
{
    format!(in alloc; "tick {tick}\n")
}

/// The line of a question.
pub(crate) fn show_text(alloc: Global, moment: u64, discr: u32) -> Result<String, AllocError>
    ensures { IfOk result (λ text. string_bytes text ≡ line (event_fields (Line.Show moment discr))) }
{
    format!(in alloc; "show {moment} {discr}\n")
}

/// The line of an event.
fn event_text(alloc: Global, event: &Line) -> Result<String, AllocError>
    ensures { IfOk result (λ text. string_bytes text ≡ line (event_fields event.now)) }
{
    match event {
        Line::Rx { moment, arrival } => packet_text(alloc, moment.get(), arrival),
        Line::Tick(tick) => tick_text(alloc, tick.get()),
        Line::Cmd { moment, discr, cmd } => command_text(alloc, moment.get(), *discr, *cmd),
        Line::Show { moment, discr } => show_text(alloc, moment.get(), *discr),
    }
}

/// The lines of events.
pub(crate) fn events_text(alloc: Global, events: &[Line]) -> Result<String, AllocError>
    ensures { IfOk result (λ text. string_bytes text ≡ events_text events.now) }
{
    let mut text = String::new(alloc);
    for event in events {
        let line = event_text(alloc, event)?;
        text.push_str(line.as_str())?;
    }
    Ok(text)
}
