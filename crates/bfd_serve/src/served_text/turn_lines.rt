//! The turn of an entry.
ghost use Rattle.std.specs.Prelude.{◌≡◌, ◌++◌, IfOk, OnOk, slice_get, string_bytes};
ghost use Rattle.bfd_session.specs.Kinds.{configs_of};
ghost use Rattle.bfd_serve.specs.Served as definition;

use crate::spelling::line_of;
use bfd_shard::{Entry, Seat, ShardEvent};
use std::alloc::{AllocError, Global};

/// The discriminator of the session whose own event this is; 0 for a tick.
pub(crate) fn discr_in(sessions: &[Seat], event: &ShardEvent) -> u32
    ensures { result ≡ definition.discr_in (configs_of sessions.now) event.now }
{
    match event {
        ShardEvent::Own { place, .. } => discr_at(sessions, *place),
        ShardEvent::Tick(_) => 0,
    }
}

/// The discriminator of the session at a place, and 0 where none stands there.
fn discr_at(sessions: &[Seat], place: u32) -> u32
    ensures { result ≡ definition.discr_at (slice_get (configs_of sessions.now) place) }
{
    match sessions.get(place as usize) {
        Some(seat) => seat.session().discr(),
        None => 0,
    }
}

/// What stands before the line of an entry's event.
fn turn_head(alloc: Global, number: u64, caller: u32) -> Result<String, AllocError>
    ensures { IfOk result (λ text. string_bytes text ≡ definition.turn_head number caller) }
{
    format!(in alloc; "turn {number} {caller} ")
}

/// Appends the line of an entry's turn. `discr` names the session of an own event.
pub(crate) fn write_turn(
    number: u64,
    discr: u32,
    entry: &Entry,
    text: &mut Vec<u8>,
) -> Result<(), AllocError>
    ensures { OnOk result (text.new.items ≡ text.old.items ++ definition.turn_line number discr entry.now) }
{
    let head = turn_head(*text.allocator(), number, entry.caller)?;
    text.extend_from_slice(head.as_bytes())?;
    line_of(discr, &entry.event, text)
}
