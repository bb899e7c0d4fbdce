//! The table lines of multipoint trees.
ghost use Rattle.std.specs.Prelude.{◌≡◌, IfOk, map};
ghost use Rattle.bfd_session.specs.Step.{IsFit};
ghost use Rattle.bfd_script.specs.Trees as lines;
ghost use Rattle.bfd_script.specs.Ranges.{IsRow};

use crate::fields::{LineFault, address, number};
use bfd_mp::{HeadConfig, TailConfig};
use bfd_rules::{LEAST_INTERVAL, MOST_INTERVAL};
use bfd_session::SessionConfig;

/// A head of these values.
#[tactic(auto, unfolding(crate::specs::Trees::sender_of))]
fn sender(
    discr: &[u8],
    iface: &[u8],
    local: &[u8],
    group: &[u8],
    tx: &[u8],
    mult: &[u8],
    seed: &[u8],
) -> Result<SessionConfig, LineFault>
    ensures value { result ≡ lines.sender_of discr.now iface.now local.now group.now tx.now mult.now seed.now }
    ensures sound { IfOk result (λ c. IsFit c × IsRow c) }
{
    let discr = number(discr, 1, 4_294_967_295)? as u32;
    let iface = number(iface, 0, 65_535)? as u32;
    let local = address(local)?;
    let group = address(group)?;
    let tx = number(tx, LEAST_INTERVAL, MOST_INTERVAL)? as u32;
    let mult = number(mult, 1, 255)? as u8;
    let seed = number(seed, 0, 4_294_967_295)? as u32;
    Ok(SessionConfig::Head(HeadConfig {
        discr,
        iface,
        local,
        group,
        tx,
        mult,
        seed,
    }))
}

/// The head of a `head` line.
pub(crate) fn read_head(values: &[&[u8]]) -> Result<SessionConfig, LineFault>
    ensures value { result ≡ lines.head_row (map (λ value. value.now) values.now) }
    ensures sound { IfOk result (λ c. IsFit c × IsRow c) }
{
    match values {
        [discr, iface, local, group, tx, mult, seed] => {
            sender(discr, iface, local, group, tx, mult, seed)
        }
        _ => Err(LineFault::FieldCount),
    }
}

/// A tail of these values.
#[tactic(auto, unfolding(crate::specs::Trees::listener_of))]
fn listener(
    discr: &[u8],
    head: &[u8],
    iface: &[u8],
    group: &[u8],
    source: &[u8],
) -> Result<SessionConfig, LineFault>
    ensures value { result ≡ lines.listener_of discr.now head.now iface.now group.now source.now }
    ensures sound { IfOk result (λ c. IsFit c × IsRow c) }
{
    let discr = number(discr, 1, 4_294_967_295)? as u32;
    let head = number(head, 1, 4_294_967_295)? as u32;
    let iface = number(iface, 0, 65_535)? as u32;
    let group = address(group)?;
    let source = address(source)?;
    Ok(SessionConfig::Tail(TailConfig {
        discr,
        head,
        iface,
        group,
        source,
    }))
}

/// The tail of a `tail` line.
pub(crate) fn read_tail(values: &[&[u8]]) -> Result<SessionConfig, LineFault>
    ensures value { result ≡ lines.tail_row (map (λ value. value.now) values.now) }
    ensures sound { IfOk result (λ c. IsFit c × IsRow c) }
{
    match values {
        [discr, head, iface, group, source] => { listener(discr, head, iface, group, source) }
        _ => Err(LineFault::FieldCount),
    }
}
