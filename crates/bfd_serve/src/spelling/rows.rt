//! The rows of sessions and reflectors.
ghost use Rattle.std.specs.Prelude.{◌≡◌, IfOk, string_bytes};
ghost use Rattle.bfd_script.specs.Spelling.{line};
ghost use Rattle.bfd_serve.specs.Written.{reflector_fields, row_fields};

use crate::spelling::fields::{address_text, mode_text, role_text, up_text};
use bfd_mp::{HeadConfig, TailConfig};
use bfd_rules::Config;
use bfd_sbfd::{InitiatorConfig, Reflector};
use bfd_session::SessionConfig;
use std::alloc::{AllocError, Global};
use std::fmt::Write;

/// The row of a point-to-point session.
fn point_text(alloc: Global, config: &Config) -> Result<String, AllocError>
    ensures { IfOk result (λ text. string_bytes text ≡ line (row_fields (SessionConfig.PointToPoint config.now))) }
{
    let discr = config.discr;
    let role = role_text(config.role);
    let iface = config.iface;
    let local = address_text(alloc, config.local)?;
    let remote = address_text(alloc, config.remote)?;
    let mode = mode_text(config.active);
    let (tx, rx, mult, echo, seed) = (config.tx, config.rx, config.mult, config.echo, config.seed);
    let mut text = String::new(alloc);
    writeln!(
        text,
        "p2p {discr} {role} {iface} {local} {remote} {mode} {tx} {rx} {mult} {echo} {seed}"
    )?;
    Ok(text)
}

/// The row of an initiator.
fn initiator_text(alloc: Global, config: &InitiatorConfig) -> Result<String, AllocError>
    ensures { IfOk result (λ text. string_bytes text ≡ line (row_fields (SessionConfig.Initiator config.now))) }
{
    let (discr, target, iface) = (config.discr, config.target, config.iface);
    let local = address_text(alloc, config.local)?;
    let remote = address_text(alloc, config.remote)?;
    let (tx, mult, seed) = (config.tx, config.mult, config.seed);
    let mut text = String::new(alloc);
    writeln!(
        text,
        "sbfd {discr} {target} {iface} {local} {remote} {tx} {mult} {seed}"
    )?;
    Ok(text)
}

/// The row of a head.
fn head_text(alloc: Global, config: &HeadConfig) -> Result<String, AllocError>
    ensures { IfOk result (λ text. string_bytes text ≡ line (row_fields (SessionConfig.Head config.now))) }
{
    let (discr, iface) = (config.discr, config.iface);
    let local = address_text(alloc, config.local)?;
    let group = address_text(alloc, config.group)?;
    let (tx, mult, seed) = (config.tx, config.mult, config.seed);
    let mut text = String::new(alloc);
    writeln!(
        text,
        "head {discr} {iface} {local} {group} {tx} {mult} {seed}"
    )?;
    Ok(text)
}

/// The row of a tail.
fn tail_text(alloc: Global, config: &TailConfig) -> Result<String, AllocError>
    ensures { IfOk result (λ text. string_bytes text ≡ line (row_fields (SessionConfig.Tail config.now))) }
{
    let (discr, head, iface) = (config.discr, config.head, config.iface);
    let group = address_text(alloc, config.group)?;
    let source = address_text(alloc, config.source)?;
    format!(in alloc; "tail {discr} {head} {iface} {group} {source}\n")
}

/// The row of a session.
pub(crate) fn row_text(alloc: Global, config: &SessionConfig) -> Result<String, AllocError>
    ensures { IfOk result (λ text. string_bytes text ≡ line (row_fields config.now)) }
{
    match config {
        SessionConfig::PointToPoint(config) => point_text(alloc, config),
        SessionConfig::Initiator(config) => initiator_text(alloc, config),
        SessionConfig::Head(config) => head_text(alloc, config),
        SessionConfig::Tail(config) => tail_text(alloc, config),
    }
}

/// The row of a reflector.
pub(crate) fn reflector_text(alloc: Global, reflector: &Reflector) -> Result<String, AllocError>
    ensures { IfOk result (λ text. string_bytes text ≡ line (reflector_fields reflector.now)) }
{
    let (discr, rx) = (reflector.discr, reflector.rx);
    let up = up_text(reflector.up);
    format!(in alloc; "reflector {discr} {rx} {up}\n")
}
