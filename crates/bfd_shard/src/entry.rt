//! What can happen to a shard, and what it writes down of it.
ghost use Rattle.std.specs.Prelude.{◌≡◌, IfOk};

use bfd_num::{Moment, Tick};
use bfd_session::Event;
use std::alloc::{AllocError, Global};

/// An event of a shard.
#[derive(Drop)]
pub enum ShardEvent {
    /// An own event of the session at this place of the shard, with the moment at which it came.
    Own {
        place: u32,
        moment: Moment,
        event: Event,
    },
    /// A tick of the clock, which is an event of every session.
    Tick(Tick),
}

/// An entry of a shard's journal: an event, and the number of its caller.
#[derive(Drop)]
pub struct Entry {
    pub caller: u32,
    pub event: ShardEvent,
}

/// The journal has this many entries, which is its limit.
#[derive(Clone, Copy, Debug, PartialEq, Eq)]
pub struct Full(pub usize);

impl Entry {
    /// An equal entry. Fails only when out of memory for the payload of a packet.
    pub fn copy(&self, alloc: Global) -> Result<Entry, AllocError>
        ensures { IfOk result (λ entry. entry ≡ self.now) }
    {
        Ok(Entry {
            caller: self.caller,
            event: copy_happening(alloc, &self.event)?,
        })
    }
}

/// An equal event of a shard.
fn copy_happening(alloc: Global, event: &ShardEvent) -> Result<ShardEvent, AllocError>
    ensures { IfOk result (λ copied. copied ≡ event.now) }
{
    match event {
        ShardEvent::Own {
            place,
            moment,
            event,
        } => {
            let event = copy_event(alloc, event)?;
            Ok(ShardEvent::Own {
                place: *place,
                moment: *moment,
                event,
            })
        }
        ShardEvent::Tick(t) => Ok(ShardEvent::Tick(*t)),
    }
}

/// An equal event of a session.
fn copy_event(alloc: Global, event: &Event) -> Result<Event, AllocError>
    ensures { IfOk result (λ copied. copied ≡ event.now) }
{
    match event {
        Event::Packet(arrival) => {
            let arrival = arrival.copy(alloc)?;
            Ok(Event::Packet(arrival))
        }
        Event::Returned(sequence) => Ok(Event::Returned(*sequence)),
        Event::Command(cmd) => Ok(Event::Command(*cmd)),
        Event::Show => Ok(Event::Show),
    }
}
