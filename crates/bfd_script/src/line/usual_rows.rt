//! The usual table line, read in one way down its bytes.
ghost use Rattle.std.specs.Prelude.{◌≡◌, ◌+◌, ◌<◌, ◌≤◌, Bool, IfSome, IsTrue};
ghost use Rattle.bfd_rules.specs.Sound.{is_echo_interval};
ghost use Rattle.bfd_session.specs.Step.{IsFit};
ghost use Rattle.bfd_script.specs.Points.{active_of, echo_of, role_of};
ghost use Rattle.bfd_script.specs.Ranges.{IsRow};
ghost use Rattle.bfd_script.specs.Windows.{HasLine, Reads};
ghost use Rattle.bfd_script.specs.declared.line.entries.Entry.TheVariants.{Row};
ghost use Rattle.bfd_script.specs.declared.line.words.Place.TheVariants.{Table};

use crate::fields::{WINDOW, address_at, ended_at, spaced_at};
use crate::line::points::{Ends, Timing, config, may_echo};
use crate::line::usual::port_at;
use bfd_packet::Port;
use bfd_rules::{LEAST_INTERVAL, MOST_INTERVAL, Role};
use bfd_session::SessionConfig;

/// Over how many hops, before a space, and the place behind that.
#[tactic(auto, using(crate::proofs::UsualRows::role_single, crate::proofs::UsualRows::role_multi))]
fn role_at(text: &[u8; WINDOW], at: usize) -> Option<(Role, usize)>
    requires { at + 7 ≤ 256 }
    ensures says { IfSome result (λ part. Reads role_of 32 text.now at part.1 part.0) }
    ensures near { IfSome result (λ part. part.1 ≤ at + 7) }
{
    let (port, behind) = port_at(text, at)?;
    match port {
        Port::Single => Some((Role::Single, behind)),
        Port::Multi => Some((Role::Multi, behind)),
        _ => None,
    }
}

/// Whether the session sends before it has heard the peer, before a space, and the place behind that.
fn mode_at(text: &[u8; WINDOW], at: usize) -> Option<(bool, usize)>
    requires { at + 8 ≤ 256 }
    ensures says { IfSome result (λ part. Reads active_of 32 text.now at part.1 part.0) }
    ensures near { IfSome result (λ part. part.1 ≤ at + 8) }
{
    if text[at] == b'a'
        && text[at + 1] == b'c'
        && text[at + 2] == b't'
        && text[at + 3] == b'i'
        && text[at + 4] == b'v'
        && text[at + 5] == b'e'
        && text[at + 6] == b' '
    {
        return Some((true, at + 7));
    }
    if text[at] == b'p'
        && text[at + 1] == b'a'
        && text[at + 2] == b's'
        && text[at + 3] == b's'
        && text[at + 4] == b'i'
        && text[at + 5] == b'v'
        && text[at + 6] == b'e'
        && text[at + 7] == b' '
    {
        return Some((false, at + 8));
    }
    None
}

/// The interval of the Echo function before a space, and the place behind that.
#[tactic(auto, using(crate::proofs::UsualRows::echo_reads))]
fn echo_at(text: &[u8; WINDOW], at: usize, role: Role) -> Option<(u32, usize)>
    requires { at + 9 ≤ 256 }
    ensures says { IfSome result (λ part. Reads (echo_of role) 32 text.now at part.1 part.0) }
    ensures range { IfSome result (λ part. IsTrue (is_echo_interval role part.0)) }
    ensures near { IfSome result (λ part. part.1 ≤ at + 9) }
{
    let (every, behind) = spaced_at(text, at, 8, 0, MOST_INTERVAL)?;
    if !may_echo(role, every) {
        return None;
    }
    Some((every as u32, behind))
}

/// The session of the `p2p` line that stands here, and how long the line is with its end.
pub(crate) fn point_at(text: &[u8; WINDOW]) -> Option<(SessionConfig, usize)>
    ensures begins { IfSome result (λ part. (live : Bool) → HasLine Table live text.now part.1 (Row part.0)) }
    ensures sound { IfSome result (λ part. IsFit part.0 × IsRow part.0) }
    ensures near { IfSome result (λ part. (0 < part.1) × (part.1 ≤ 256)) }
{
    if text[0] != b'p' || text[1] != b'2' || text[2] != b'p' || text[3] != b' ' {
        return None;
    }
    let (discr, at) = spaced_at(text, 4, 10, 1, 4_294_967_295)?;
    let (role, at) = role_at(text, at)?;
    let (iface, at) = spaced_at(text, at, 5, 0, 65_535)?;
    let (local, at) = address_at(text, at)?;
    let (remote, at) = address_at(text, at)?;
    let (active, at) = mode_at(text, at)?;
    let (tx, at) = spaced_at(text, at, 8, LEAST_INTERVAL, MOST_INTERVAL)?;
    let (rx, at) = spaced_at(text, at, 8, LEAST_INTERVAL, MOST_INTERVAL)?;
    let (mult, at) = spaced_at(text, at, 3, 1, 255)?;
    let (echo, at) = echo_at(text, at, role)?;
    let (seed, used) = ended_at(text, at, 10, 0, 4_294_967_295)?;
    let ends = Ends {
        discr: discr as u32,
        role,
        iface: iface as u32,
        local,
        remote,
    };
    let timing = Timing {
        active,
        tx: tx as u32,
        rx: rx as u32,
        mult: mult as u8,
        echo,
        seed: seed as u32,
    };
    Some((config(ends, timing), used))
}
