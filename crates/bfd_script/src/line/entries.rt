//! What one line says.
ghost use Rattle.std.specs.Prelude.{◌≡◌, ◌∷◌, [], Err, IfOk, false, if◌then◌else◌, map, true};
ghost use Rattle.bfd_script.specs.Entries.{added, added_of, alone, cmd_entry, keyed, keyed_of, numbered_of, plain_of, rx_entry};
ghost use Rattle.bfd_script.specs.Entries.{received_of, show_entry, shown_of, tick_entry, valued, version_by, versioned};
ghost use Rattle.bfd_script.specs.Gives.{Gives};
ghost use Rattle.bfd_script.specs.Ranges.{IsEntry, IsEvent};
ghost use Rattle.bfd_script.specs.Verbs.{fits, verb_of};
ghost use Rattle.bfd_script.specs.declared.line.entries.Entry.TheVariants.{Event};
ghost use Rattle.bfd_script.specs.declared.fields.fault.LineFault.TheVariants.{FieldCount};

use crate::fields::{LineFault, ReadFault, address, number, payload_read};
use crate::line::arrivals::port_named;
use crate::line::points::read_point;
use crate::line::seamless::{read_initiator, read_reflector};
use crate::line::secrets::{read_chain, read_key};
use crate::line::trees::{read_head, read_tail};
use crate::line::verbs::{commanding, known_verb, may_fit, verb_named};
use crate::line::words::{Version, Word};
use bfd_num::{GREATEST_TICK, MOMENT_BOUND, Moment, Tick};
use bfd_packet::{Arrival, Key, Keys, SOURCE_PORT};
use bfd_rules::Cmd;
use bfd_sbfd::Reflector;
use bfd_session::SessionConfig;
use std::alloc::Global;

/// An event line.
#[derive(Drop)]
pub enum Line {
    /// A packet came in.
    Rx {
        moment: Moment,
        arrival: Arrival,
    },
    /// The clock ticks.
    Tick(Tick),
    /// A command to the session of this discriminator.
    Cmd {
        moment: Moment,
        discr: u32,
        cmd: Cmd,
    },
    /// The session of this discriminator is to show itself.
    Show {
        moment: Moment,
        discr: u32,
    },
}

/// What one line says.
#[derive(Drop)]
pub enum Entry {
    Version(Version),
    Row(SessionConfig),
    Reflect(Reflector),
    Auth { discr: u32, keys: Keys },
    Key { discr: u32, key: Key },
    Run,
    Event(Line),
    End,
}

/// A line that is its word alone.
fn alone(entry: Entry, values: &[&[u8]]) -> Result<Entry, LineFault>
    requires { IsEntry entry }
    ensures value { result ≡ alone entry (map (λ value. value.now) values.now) }
    ensures sound { IfOk result IsEntry }
{
    match values {
        [] => Ok(entry),
        _ => Err(LineFault::FieldCount),
    }
}

/// The version of a number 1 or 2.
fn version_by(n: u64) -> Version
    ensures { result ≡ version_by n }
{
    if n == 1 { Version::One } else { Version::Two }
}

/// `bfd VERSION`
fn versioned(values: &[&[u8]]) -> Result<Entry, LineFault>
    ensures value { result ≡ versioned (map (λ value. value.now) values.now) }
    ensures sound { IfOk result IsEntry }
{
    match values {
        [value] => {
            let n = number(value, 1, 2)?;
            Ok(Entry::Version(version_by(n)))
        }
        _ => Err(LineFault::FieldCount),
    }
}

/// `tick T`
fn tick_entry(values: &[&[u8]]) -> Result<Entry, LineFault>
    ensures value { result ≡ tick_entry (map (λ value. value.now) values.now) }
    ensures sound { IfOk result IsEntry }
{
    match values {
        [value] => {
            let tick = number(value, 0, GREATEST_TICK)?;
            Ok(Entry::Event(Line::Tick(Tick::new(tick).unwrap())))
        }
        _ => Err(LineFault::FieldCount),
    }
}

/// An `rx` line of these values.
#[tactic(auto, unfolding(crate::specs::Entries::received_of, crate::specs::Arrivals::arrival_of))]
fn received_of(
    alloc: Global,
    moment: &[u8],
    port: &[u8],
    iface: &[u8],
    src: &[u8],
    dst: &[u8],
    ttl: &[u8],
    payload: &[u8],
) -> Result<Line, ReadFault>
    ensures value { Gives (λ line. Event line) result
        (received_of moment.now port.now iface.now (src.now ∷ dst.now ∷ ttl.now ∷ payload.now ∷ [])) }
    ensures sound { IfOk result IsEvent }
{
    let moment = number(moment, 0, MOMENT_BOUND - 1)?;
    let port = port_named(port)?;
    let iface = number(iface, 0, 65_535)? as u32;
    let src = address(src)?;
    let dst = address(dst)?;
    let ttl = number(ttl, 0, 255)? as u8;
    let payload = payload_read(alloc, payload)?;
    Ok(Line::Rx {
        moment: Moment::new(moment).unwrap(),
        arrival: Arrival {
            port,
            iface,
            src,
            sport: SOURCE_PORT,
            dst,
            ttl,
            payload,
        },
    })
}

/// `rx MOMENT single|multi|echo|sbfd|answer IFACE SRC DST TTL HEX`
pub fn rx_entry(alloc: Global, values: &[&[u8]]) -> Result<Line, ReadFault>
    ensures value { Gives (λ line. Event line) result (rx_entry (map (λ value. value.now) values.now)) }
    ensures sound { IfOk result IsEvent }
{
    match values {
        [moment, port, iface, src, dst, ttl, payload] => {
            received_of(alloc, moment, port, iface, src, dst, ttl, payload)
        }
        _ => Err(ReadFault::Fault(LineFault::FieldCount)),
    }
}

/// A `cmd` line of these values, without number.
#[tactic(auto, unfolding(crate::specs::Entries::plain_of))]
fn plain_of(version: Version, moment: &[u8], discr: &[u8], verb: &[u8]) -> Result<Entry, LineFault>
    ensures value { result ≡ plain_of version moment.now discr.now verb.now }
    ensures sound { IfOk result IsEntry }
{
    let moment = number(moment, 0, MOMENT_BOUND - 1)?;
    let discr = number(discr, 1, 4_294_967_295)? as u32;
    let verb = known_verb(verb_named(version, verb))?;
    Ok(Entry::Event(Line::Cmd {
        moment: Moment::new(moment).unwrap(),
        discr,
        cmd: commanding(verb, 0),
    }))
}

/// A `cmd` line of these values.
#[tactic(auto, unfolding(crate::specs::Entries::numbered_of))]
fn numbered_of(
    version: Version,
    moment: &[u8],
    discr: &[u8],
    verb: &[u8],
    n: &[u8],
) -> Result<Entry, LineFault>
    ensures value { result ≡ numbered_of version moment.now discr.now verb.now n.now }
    ensures sound { IfOk result IsEntry }
{
    let moment = number(moment, 0, MOMENT_BOUND - 1)?;
    let discr = number(discr, 1, 4_294_967_295)? as u32;
    let verb = known_verb(verb_named(version, verb))?;
    let n = number(n, 0, u64::MAX)?;
    Ok(Entry::Event(Line::Cmd {
        moment: Moment::new(moment).unwrap(),
        discr,
        cmd: commanding(verb, n),
    }))
}

/// A `cmd` line of these values, without number, where the verb has none.
fn read_plain(
    version: Version,
    moment: &[u8],
    discr: &[u8],
    verb: &[u8],
) -> Result<Entry, LineFault>
    ensures value { result ≡ (if fits (verb_of version verb.now) false
        then plain_of version moment.now discr.now verb.now else Err FieldCount) }
    ensures sound { IfOk result IsEntry }
{
    if !may_fit(verb_named(version, verb), false) {
        return Err(LineFault::FieldCount);
    }
    plain_of(version, moment, discr, verb)
}

/// A `cmd` line of these values, where the verb has a number.
fn read_numbered(
    version: Version,
    moment: &[u8],
    discr: &[u8],
    verb: &[u8],
    n: &[u8],
) -> Result<Entry, LineFault>
    ensures value { result ≡ (if fits (verb_of version verb.now) true
        then numbered_of version moment.now discr.now verb.now n.now else Err FieldCount) }
    ensures sound { IfOk result IsEntry }
{
    if !may_fit(verb_named(version, verb), true) {
        return Err(LineFault::FieldCount);
    }
    numbered_of(version, moment, discr, verb, n)
}

/// `cmd MOMENT DISCR VERB` or `cmd MOMENT DISCR VERB N`
fn cmd_entry(version: Version, values: &[&[u8]]) -> Result<Entry, LineFault>
    ensures value { result ≡ cmd_entry version (map (λ value. value.now) values.now) }
    ensures sound { IfOk result IsEntry }
{
    match values {
        [moment, discr, verb] => read_plain(version, moment, discr, verb),
        [moment, discr, verb, n] => read_numbered(version, moment, discr, verb, n),
        _ => Err(LineFault::FieldCount),
    }
}

/// A `show` line of these values.
#[tactic(auto, unfolding(crate::specs::Entries::shown_of))]
fn shown_of(moment: &[u8], discr: &[u8]) -> Result<Entry, LineFault>
    ensures value { result ≡ shown_of moment.now discr.now }
    ensures sound { IfOk result IsEntry }
{
    let moment = number(moment, 0, MOMENT_BOUND - 1)?;
    let discr = number(discr, 1, 4_294_967_295)? as u32;
    Ok(Entry::Event(Line::Show {
        moment: Moment::new(moment).unwrap(),
        discr,
    }))
}

/// `show MOMENT DISCR`
fn show_entry(values: &[&[u8]]) -> Result<Entry, LineFault>
    ensures value { result ≡ show_entry (map (λ value. value.now) values.now) }
    ensures sound { IfOk result IsEntry }
{
    match values {
        [moment, discr] => shown_of(moment, discr),
        _ => Err(LineFault::FieldCount),
    }
}

/// An `auth` line of these values.
fn keyed_of(
    alloc: Global,
    discr: &[u8],
    kind: &[u8],
    id: &[u8],
    secret: &[u8],
) -> Result<Entry, ReadFault>
    ensures value { Gives (λ entry. entry) result (keyed_of discr.now kind.now id.now secret.now) }
    ensures sound { IfOk result IsEntry }
{
    let discr = number(discr, 1, 4_294_967_295)? as u32;
    let keys = read_chain(alloc, kind, id, secret)?;
    Ok(Entry::Auth { discr, keys })
}

/// `auth DISCR TYPE KEYID SECRET`
fn keyed(alloc: Global, values: &[&[u8]]) -> Result<Entry, ReadFault>
    ensures value { Gives (λ entry. entry) result (keyed (map (λ value. value.now) values.now)) }
    ensures sound { IfOk result IsEntry }
{
    match values {
        [discr, kind, id, secret] => keyed_of(alloc, discr, kind, id, secret),
        _ => Err(ReadFault::Fault(LineFault::FieldCount)),
    }
}

/// A `key` line of these values.
fn added_of(alloc: Global, discr: &[u8], id: &[u8], secret: &[u8]) -> Result<Entry, ReadFault>
    ensures value { Gives (λ entry. entry) result (added_of discr.now id.now secret.now) }
    ensures sound { IfOk result IsEntry }
{
    let discr = number(discr, 1, 4_294_967_295)? as u32;
    let key = read_key(alloc, id, secret)?;
    Ok(Entry::Key { discr, key })
}

/// `key DISCR KEYID SECRET`
fn added(alloc: Global, values: &[&[u8]]) -> Result<Entry, ReadFault>
    ensures value { Gives (λ entry. entry) result (added (map (λ value. value.now) values.now)) }
    ensures sound { IfOk result IsEntry }
{
    match values {
        [discr, id, secret] => added_of(alloc, discr, id, secret),
        _ => Err(ReadFault::Fault(LineFault::FieldCount)),
    }
}

/// What the values of a word say.
pub fn read_values(
    alloc: Global,
    version: Version,
    word: Word,
    values: &[&[u8]],
) -> Result<Entry, ReadFault>
    ensures value { Gives (λ entry. entry) result (valued version word (map (λ value. value.now) values.now)) }
    ensures sound { IfOk result IsEntry }
{
    match word {
        Word::Bfd => Ok(versioned(values)?),
        Word::P2p => Ok(Entry::Row(read_point(values)?)),
        Word::Sbfd => Ok(Entry::Row(read_initiator(values)?)),
        Word::Reflector => Ok(Entry::Reflect(read_reflector(values)?)),
        Word::Head => Ok(Entry::Row(read_head(values)?)),
        Word::Tail => Ok(Entry::Row(read_tail(values)?)),
        Word::Auth => keyed(alloc, values),
        Word::Key => added(alloc, values),
        Word::Run => Ok(alone(Entry::Run, values)?),
        Word::Rx => Ok(Entry::Event(rx_entry(alloc, values)?)),
        Word::Tick => Ok(tick_entry(values)?),
        Word::Cmd => Ok(cmd_entry(version, values)?),
        Word::Show => Ok(show_entry(values)?),
        Word::End => Ok(alone(Entry::End, values)?),
    }
}
