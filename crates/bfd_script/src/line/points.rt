//! The table line of a point-to-point session.
ghost use Rattle.std.specs.Prelude.{◌≡◌, IfOk, IsTrue, map};
ghost use Rattle.bfd_rules.specs.Sound.{is_echo_interval};
ghost use Rattle.bfd_session.specs.Step.{IsFit};
ghost use Rattle.bfd_script.specs.Points.{AreEnds, IsTiming, active_of, config_by, echo_of, ends_of, point_fields, p2p_row, point_with};
ghost use Rattle.bfd_script.specs.Points.{role_of, timing_fields, timing_of};
ghost use Rattle.bfd_script.specs.Ranges.{IsRow};

use crate::fields::{LineFault, address, number};
use bfd_packet::Addr;
use bfd_rules::{Config, LEAST_INTERVAL, MOST_INTERVAL, Role, is_interval};
use bfd_session::SessionConfig;

/// The values of a `p2p` line.
const PAIR_VALUES: usize = 11;

/// Which session it is, and between which addresses.
#[derive(Clone, Copy)]
pub(crate) struct Ends {
    pub(crate) discr: u32,
    pub(crate) role: Role,
    pub(crate) iface: u32,
    pub(crate) local: Addr,
    pub(crate) remote: Addr,
}

/// Who begins, and the intervals in microseconds.
#[derive(Clone, Copy)]
pub(crate) struct Timing {
    pub(crate) active: bool,
    pub(crate) tx: u32,
    pub(crate) rx: u32,
    pub(crate) mult: u8,
    pub(crate) echo: u32,
    pub(crate) seed: u32,
}

/// Over how many hops.
fn role_named(field: &[u8]) -> Result<Role, LineFault>
    ensures { result ≡ role_of field.now }
{
    match field {
        b"single" => Ok(Role::Single),
        b"multi" => Ok(Role::Multi),
        _ => Err(LineFault::UnknownWord),
    }
}

/// Whether the session sends before it has heard the peer.
fn active_named(field: &[u8]) -> Result<bool, LineFault>
    ensures { result ≡ active_of field.now }
{
    match field {
        b"active" => Ok(true),
        b"passive" => Ok(false),
        _ => Err(LineFault::UnknownWord),
    }
}

/// Whether the Echo function may have this interval.
pub(crate) fn may_echo(role: Role, every: u64) -> bool
    ensures { result ≡ is_echo_interval role every }
{
    match role {
        Role::Single => every == 0 || is_interval(every),
        Role::Multi => every == 0,
    }
}

/// The interval of the Echo function.
fn echo(role: Role, field: &[u8]) -> Result<u32, LineFault>
    ensures value { result ≡ echo_of role field.now }
    ensures range { IfOk result (λ every. IsTrue (is_echo_interval role every)) }
{
    let every = number(field, 0, MOST_INTERVAL)?;
    if !may_echo(role, every) {
        return Err(LineFault::OutOfRange);
    }
    Ok(every as u32)
}

/// The first five values.
#[tactic(auto, unfolding(crate::specs::Points::ends_of))]
fn read_ends(
    discr: &[u8],
    role: &[u8],
    iface: &[u8],
    local: &[u8],
    remote: &[u8],
) -> Result<Ends, LineFault>
    ensures value { result ≡ ends_of discr.now role.now iface.now local.now remote.now }
    ensures range { IfOk result AreEnds }
{
    let discr = number(discr, 1, 4_294_967_295)? as u32;
    let role = role_named(role)?;
    let iface = number(iface, 0, 65_535)? as u32;
    let local = address(local)?;
    let remote = address(remote)?;
    Ok(Ends {
        discr,
        role,
        iface,
        local,
        remote,
    })
}

/// The last six values.
#[tactic(auto, unfolding(crate::specs::Points::timing_of))]
fn timed(
    role: Role,
    mode: &[u8],
    tx: &[u8],
    rx: &[u8],
    mult: &[u8],
    every: &[u8],
    seed: &[u8],
) -> Result<Timing, LineFault>
    ensures value { result ≡ timing_of role mode.now tx.now rx.now mult.now every.now seed.now }
    ensures range { IfOk result (IsTiming role) }
{
    let active = active_named(mode)?;
    let tx = number(tx, LEAST_INTERVAL, MOST_INTERVAL)? as u32;
    let rx = number(rx, LEAST_INTERVAL, MOST_INTERVAL)? as u32;
    let mult = number(mult, 1, 255)? as u8;
    let echo = echo(role, every)?;
    let seed = number(seed, 0, 4_294_967_295)? as u32;
    Ok(Timing {
        active,
        tx,
        rx,
        mult,
        echo,
        seed,
    })
}

/// The last six of the values.
fn read_timing(role: Role, values: &[&[u8]]) -> Result<Timing, LineFault>
    ensures value { result ≡ timing_fields role (map (λ value. value.now) values.now) }
    ensures range { IfOk result (IsTiming role) }
{
    match values {
        [mode, tx, rx, mult, every, seed] => timed(role, mode, tx, rx, mult, every, seed),
        _ => Err(LineFault::FieldCount),
    }
}

/// The session of both parts.
pub(crate) fn config(ends: Ends, timing: Timing) -> SessionConfig
    requires ends { AreEnds ends }
    requires timing { IsTiming ends.role timing }
    ensures value { result ≡ config_by ends timing }
    ensures sound { IsFit result × IsRow result }
{
    SessionConfig::PointToPoint(Config {
        discr: ends.discr,
        role: ends.role,
        iface: ends.iface,
        local: ends.local,
        remote: ends.remote,
        active: timing.active,
        tx: timing.tx,
        rx: timing.rx,
        mult: timing.mult,
        echo: timing.echo,
        seed: timing.seed,
        keys: None,
    })
}

/// The session of the first five values and the others.
fn pair(ends: Ends, rest: &[&[u8]]) -> Result<SessionConfig, LineFault>
    requires { AreEnds ends }
    ensures value { result ≡ point_with ends (map (λ value. value.now) rest.now) }
    ensures sound { IfOk result (λ c. IsFit c × IsRow c) }
{
    let timing = read_timing(ends.role, rest)?;
    Ok(config(ends, timing))
}

/// The session of these values.
fn point_fields(values: &[&[u8]]) -> Result<SessionConfig, LineFault>
    ensures value { result ≡ point_fields (map (λ value. value.now) values.now) }
    ensures sound { IfOk result (λ c. IsFit c × IsRow c) }
{
    match values {
        [discr, role, iface, local, remote, rest @ ..] => {
            let ends = read_ends(discr, role, iface, local, remote)?;
            pair(ends, rest)
        }
        _ => Err(LineFault::FieldCount),
    }
}

/// The session of a `p2p` line.
pub(crate) fn read_point(values: &[&[u8]]) -> Result<SessionConfig, LineFault>
    ensures value { result ≡ p2p_row (map (λ value. value.now) values.now) }
    ensures sound { IfOk result (λ c. IsFit c × IsRow c) }
{
    if values.len() != PAIR_VALUES {
        return Err(LineFault::FieldCount);
    }
    point_fields(values)
}
