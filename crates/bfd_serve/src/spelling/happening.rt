//! The line of an event of a shard.
ghost use Rattle.std.specs.Prelude.{◌≡◌, ◌++◌, [], ◌∷◌, IfOk, OnOk, OnErr, codes, string_bytes};
ghost use Rattle.std.specs.Fmt.{decimal};
ghost use Rattle.bfd_script.specs.Spelling.{line};
ghost use Rattle.bfd_serve.specs.Happening.{happening_fields};

use crate::spelling::events::{command_text, packet_text, show_text, tick_text};
use bfd_session::Event;
use bfd_shard::ShardEvent;
use std::alloc::{AllocError, Global};

/// The line of an own event of the session with this discriminator.
fn own_text(
    alloc: Global,
    discr: u32,
    place: u32,
    moment: u64,
    event: &Event,
) -> Result<String, AllocError>
    ensures { IfOk result (λ text. string_bytes text
        ≡ line (happening_fields discr (ShardEvent.Own place moment event.now))) }
{
    match event {
        Event::Packet(arrival) => packet_text(alloc, moment, arrival),
        Event::Returned(sequence) => {
            let sequence = *sequence;
            format!(in alloc; "back {moment} {discr} {sequence}\n")
        }
        Event::Command(cmd) => command_text(alloc, moment, discr, *cmd),
        Event::Show => show_text(alloc, moment, discr),
    }
}

/// The line of an event of a shard.
fn happening_text(alloc: Global, discr: u32, event: &ShardEvent) -> Result<String, AllocError>
    ensures { IfOk result (λ text. string_bytes text ≡ line (happening_fields discr event.now)) }
{
    match event {
        ShardEvent::Own {
            place,
            moment,
            event,
        } => own_text(alloc, discr, *place, moment.get(), event),
        ShardEvent::Tick(tick) => tick_text(alloc, tick.get()),
    }
}

/// Appends the line of an event of a shard: that of a packet file, or `back MOMENT DISCR SEQ` for an echo packet that came back. `discr`
/// names the session of an own event. Fails only when out of memory; then the text is as before.
pub fn line_of(discr: u32, event: &ShardEvent, text: &mut Vec<u8>) -> Result<(), AllocError>
    ensures all { OnOk result (text.new.items ≡ text.old.items ++ line (happening_fields discr event.now)) }
    ensures kept { OnErr result (text.new.items ≡ text.old.items) }
{
    let piece = happening_text(*text.allocator(), discr, event)?;
    text.extend_from_slice(piece.as_bytes())
}
