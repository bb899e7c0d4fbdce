//! The usual event lines, read in one way down their bytes.
ghost use Rattle.std.specs.Prelude.{◌≡◌, ◌+◌, ◌<◌, ◌≤◌, IfSome, false};
ghost use Rattle.bfd_script.specs.Arrivals.{port_in};
ghost use Rattle.bfd_script.specs.Ranges.{IsEvent};
ghost use Rattle.bfd_script.specs.Windows.{HasLine, Reads};
ghost use Rattle.bfd_script.specs.declared.line.entries.Entry.TheVariants.{Event};
ghost use Rattle.bfd_script.specs.declared.line.words.Place.TheVariants.{Events};

use crate::fields::{ROOM, WINDOW, address_at, ended_at, payload_at, small_at, spaced_at};
use crate::line::entries::Line;
use bfd_num::{GREATEST_TICK, MOMENT_BOUND, Moment, Tick};
use bfd_packet::{Arrival, Payload, Port, SOURCE_PORT};

/// The kind of port before a space, and the place behind that.
pub(crate) fn port_at(text: &[u8; WINDOW], at: usize) -> Option<(Port, usize)>
    requires { at + 7 ≤ 256 }
    ensures says { IfSome result (λ part. Reads port_in 32 text.now at part.1 part.0) }
    ensures near { IfSome result (λ part. part.1 ≤ at + 7) }
{
    if text[at] == b's'
        && text[at + 1] == b'i'
        && text[at + 2] == b'n'
        && text[at + 3] == b'g'
        && text[at + 4] == b'l'
        && text[at + 5] == b'e'
        && text[at + 6] == b' '
    {
        return Some((Port::Single, at + 7));
    }
    if text[at] == b'm'
        && text[at + 1] == b'u'
        && text[at + 2] == b'l'
        && text[at + 3] == b't'
        && text[at + 4] == b'i'
        && text[at + 5] == b' '
    {
        return Some((Port::Multi, at + 6));
    }
    None
}

/// The packet of the line that stands here, and how long the line is with its end.
fn packet_at(text: &[u8; WINDOW]) -> Option<(Line, usize)>
    ensures begins { IfSome result (λ part. HasLine Events false text.now part.1 (Event part.0)) }
    ensures sound { IfSome result (λ part. IsEvent part.0) }
    ensures near { IfSome result (λ part. (0 < part.1) × (part.1 ≤ 256)) }
{
    if text[0] != b'r' || text[1] != b'x' || text[2] != b' ' {
        return None;
    }
    let (moment, at) = spaced_at(text, 3, 18, 0, MOMENT_BOUND - 1)?;
    let moment = Moment::new(moment)?;
    let (port, at) = port_at(text, at)?;
    let (iface, at) = spaced_at(text, at, 5, 0, 65_535)?;
    let (src, at) = address_at(text, at)?;
    let (dst, at) = address_at(text, at)?;
    let (ttl, at) = small_at(text, at)?;
    let mut room = [0; ROOM];
    let (size, used) = payload_at(text, at, &mut room)?;
    let line = Line::Rx {
        moment,
        arrival: Arrival {
            port,
            iface: iface as u32,
            src,
            sport: SOURCE_PORT,
            dst,
            ttl,
            payload: Payload::front(room, size),
        },
    };
    Some((line, used))
}

/// The tick of the line that stands here, and how long the line is with its end.
fn tick_at(text: &[u8; WINDOW]) -> Option<(Line, usize)>
    ensures begins { IfSome result (λ part. HasLine Events false text.now part.1 (Event part.0)) }
    ensures sound { IfSome result (λ part. IsEvent part.0) }
    ensures near { IfSome result (λ part. (0 < part.1) × (part.1 ≤ 256)) }
{
    if text[0] != b't' || text[1] != b'i' || text[2] != b'c' || text[3] != b'k' || text[4] != b' ' {
        return None;
    }
    let (n, used) = ended_at(text, 5, 16, 0, GREATEST_TICK)?;
    let tick = Tick::new(n)?;
    Some((Line::Tick(tick), used))
}

/// The packet or the tick of the line that stands here, and how long the line is with its end.
pub(crate) fn event_at(text: &[u8; WINDOW]) -> Option<(Line, usize)>
    ensures begins { IfSome result (λ part. HasLine Events false text.now part.1 (Event part.0)) }
    ensures sound { IfSome result (λ part. IsEvent part.0) }
    ensures near { IfSome result (λ part. (0 < part.1) × (part.1 ≤ 256)) }
{
    match packet_at(text) {
        Some(event) => Some(event),
        None => tick_at(text),
    }
}
