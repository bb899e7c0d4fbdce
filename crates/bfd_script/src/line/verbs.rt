//! The verbs of a command line.
ghost use Rattle.std.specs.Prelude.{◌≡◌, ◌<◌, ◌^◌};
ghost use Rattle.bfd_script.specs.Verbs.{command, fits, known_verb, command_number, takes_number, verb_of};

use crate::fields::LineFault;
use crate::line::words::{Version, spells};
use bfd_rules::Cmd;

/// What a session is commanded to do.
#[derive(Clone, Copy)]
pub enum Verb {
    Disable,
    Enable,
    Reset,
    Path,
    Tx,
    Rx,
    Mult,
    Demand,
    Echo,
    Key,
}

/// The verb that a field spells; `key` is one of version 2 alone.
pub(crate) fn verb_named(version: Version, field: &[u8]) -> Option<Verb>
    ensures { result ≡ verb_of version field.now }
{
    if spells(field, b"disable") {
        Some(Verb::Disable)
    } else if spells(field, b"enable") {
        Some(Verb::Enable)
    } else if spells(field, b"reset") {
        Some(Verb::Reset)
    } else if spells(field, b"path") {
        Some(Verb::Path)
    } else if spells(field, b"tx") {
        Some(Verb::Tx)
    } else if spells(field, b"rx") {
        Some(Verb::Rx)
    } else if spells(field, b"mult") {
        Some(Verb::Mult)
    } else if spells(field, b"demand") {
        Some(Verb::Demand)
    } else if spells(field, b"echo") {
        Some(Verb::Echo)
    } else if spells(field, b"key") && matches!(version, Version::Two) {
        Some(Verb::Key)
    } else {
        None
    }
}

/// Whether the verb has a number.
fn has_number(verb: Verb) -> bool
    ensures { result ≡ takes_number verb }
{
    !matches!(verb, Verb::Disable | Verb::Enable | Verb::Reset)
}

/// Whether a line with a number, or without, has as many fields as its verb asks for. A verb that isn't known asks for
/// neither.
pub(crate) fn may_fit(verb: Option<Verb>, numbered: bool) -> bool
    ensures { result ≡ fits verb numbered }
{
    match verb {
        None => true,
        Some(verb) => {
            if numbered {
                has_number(verb)
            } else {
                !has_number(verb)
            }
        }
    }
}

/// A verb that is known.
pub(crate) fn known_verb(verb: Option<Verb>) -> Result<Verb, LineFault>
    ensures { result ≡ known_verb verb }
{
    match verb {
        Some(verb) => Ok(verb),
        None => Err(LineFault::UnknownWord),
    }
}

/// The command of a verb, with its number where it has one.
pub(crate) fn commanding(verb: Verb, number: u64) -> Cmd
    ensures value { result ≡ command verb number }
    ensures range { command_number result < 2 ^ 64 }
{
    match verb {
        Verb::Disable => Cmd::Disable,
        Verb::Enable => Cmd::Enable,
        Verb::Reset => Cmd::Reset,
        Verb::Path => Cmd::Path(number),
        Verb::Tx => Cmd::Tx(number),
        Verb::Rx => Cmd::Rx(number),
        Verb::Mult => Cmd::Mult(number),
        Verb::Demand => Cmd::Demand(number),
        Verb::Echo => Cmd::EchoEvery(number),
        Verb::Key => Cmd::Key(number),
    }
}
