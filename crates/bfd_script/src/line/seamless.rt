//! The table lines of seamless BFD.
ghost use Rattle.std.specs.Prelude.{◌≡◌, IfOk, map};
ghost use Rattle.bfd_session.specs.Step.{IsFit};
ghost use Rattle.bfd_script.specs.Seamless as lines;
ghost use Rattle.bfd_script.specs.Ranges.{IsReflector, IsRow};

use crate::fields::{LineFault, address, number};
use bfd_rules::{LEAST_INTERVAL, MOST_INTERVAL};
use bfd_sbfd::{InitiatorConfig, Reflector};
use bfd_session::SessionConfig;

/// An initiator of these values.
#[tactic(auto, unfolding(crate::specs::Seamless::initiator_from))]
fn initiator(
    discr: &[u8],
    target: &[u8],
    iface: &[u8],
    local: &[u8],
    remote: &[u8],
    tx: &[u8],
    mult: &[u8],
    seed: &[u8],
) -> Result<SessionConfig, LineFault>
    ensures value { result
        ≡ lines.initiator_from discr.now target.now iface.now local.now remote.now tx.now mult.now seed.now }
    ensures sound { IfOk result (λ c. IsFit c × IsRow c) }
{
    let discr = number(discr, 1, 4_294_967_295)? as u32;
    let target = number(target, 1, 4_294_967_295)? as u32;
    let iface = number(iface, 0, 65_535)? as u32;
    let local = address(local)?;
    let remote = address(remote)?;
    let tx = number(tx, LEAST_INTERVAL, MOST_INTERVAL)? as u32;
    let mult = number(mult, 1, 255)? as u8;
    let seed = number(seed, 0, 4_294_967_295)? as u32;
    Ok(SessionConfig::Initiator(InitiatorConfig {
        discr,
        target,
        iface,
        local,
        remote,
        tx,
        mult,
        seed,
    }))
}

/// The initiator of the first two values and the others.
fn initiator_with(discr: &[u8], target: &[u8], rest: &[&[u8]]) -> Result<SessionConfig, LineFault>
    ensures value { result ≡ lines.initiator_with discr.now target.now (map (λ value. value.now) rest.now) }
    ensures sound { IfOk result (λ c. IsFit c × IsRow c) }
{
    match rest {
        [iface, local, remote, tx, mult, seed] => {
            initiator(discr, target, iface, local, remote, tx, mult, seed)
        }
        _ => Err(LineFault::FieldCount),
    }
}

/// The initiator of an `sbfd` line.
pub(crate) fn read_initiator(values: &[&[u8]]) -> Result<SessionConfig, LineFault>
    ensures value { result ≡ lines.sbfd_row (map (λ value. value.now) values.now) }
    ensures sound { IfOk result (λ c. IsFit c × IsRow c) }
{
    match values {
        [discr, target, rest @ ..] => initiator_with(discr, target, rest),
        _ => Err(LineFault::FieldCount),
    }
}

/// Whether the reflector is Up.
fn up_named(field: &[u8]) -> Result<bool, LineFault>
    ensures { result ≡ lines.up_of field.now }
{
    match field {
        b"up" => Ok(true),
        b"admin" => Ok(false),
        _ => Err(LineFault::UnknownWord),
    }
}

/// A reflector of these values.
#[tactic(auto, unfolding(crate::specs::Seamless::reflecting_of))]
fn reflecting(discr: &[u8], rx: &[u8], mode: &[u8]) -> Result<Reflector, LineFault>
    ensures value { result ≡ lines.reflecting_of discr.now rx.now mode.now }
    ensures sound { IfOk result IsReflector }
{
    let discr = number(discr, 1, 4_294_967_295)? as u32;
    let rx = number(rx, LEAST_INTERVAL, MOST_INTERVAL)? as u32;
    let up = up_named(mode)?;
    Ok(Reflector { discr, rx, up })
}

/// The reflector of a `reflector` line.
pub(crate) fn read_reflector(values: &[&[u8]]) -> Result<Reflector, LineFault>
    ensures value { result ≡ lines.reflector_of (map (λ value. value.now) values.now) }
    ensures sound { IfOk result IsReflector }
{
    match values {
        [discr, rx, mode] => reflecting(discr, rx, mode),
        _ => Err(LineFault::FieldCount),
    }
}
