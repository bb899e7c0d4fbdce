//! A replay's events, dealt out to shards.
ghost use Rattle.std.specs.Prelude.{ℕ, ◌≡◌, ◌<◌, ◌≤◌, ◌++◌, ◌∷◌, [], OnOk, length, map, slice_index_or};
ghost use Rattle.std.specs.List.{cons_option};
ghost use Rattle.bfd_shard.specs.declared.entry.ShardEvent.TheVariants as events;
ghost use Rattle.bfd_replay.specs.Happenings.{AreQueued};

use bfd_num::{Moment, Tick};
use bfd_session::Event;
use bfd_shard::ShardEvent;
use std::alloc::AllocError;

/// An event of a shard, with its number in the replay.
#[derive(Drop)]
pub struct Numbered {
    pub number: u64,
    pub event: ShardEvent,
}

/// Appends to one queue.
fn append(queues: &mut Vec<Vec<Numbered>>, at: usize, event: Numbered) -> Result<(), AllocError>
    requires inside { at < length queues.old.items }
    ensures long { length queues.new.items ≡ length queues.old.items }
    ensures own { OnOk result (slice_index_or (map (λ q. q.items) queues.new.items) at []
        ≡ slice_index_or (map (λ q. q.items) queues.old.items) at [] ++ event ∷ []) }
    ensures others { OnOk result ((r : ℕ) → (r ≡ at → ⊥)
        → slice_index_or (map (λ q. q.items) queues.new.items) r []
        ≡ slice_index_or (map (λ q. q.items) queues.old.items) r []) }
{
    queues[at].push(event)?;
    Ok(())
}

/// Deals out an own event: the session at place k of the table stands at place k / shards of shard k % shards.
fn deal_own(
    queues: &mut Vec<Vec<Numbered>>,
    number: u64,
    place: u32,
    moment: Moment,
    event: Event,
) -> Result<(), AllocError>
    requires some { 0 < length queues.old.items }
    requires few { length queues.old.items ≤ 64 }
    ensures long { length queues.new.items ≡ length queues.old.items }
    ensures queued { OnOk result (AreQueued number (events.Own place moment event)
        (map (λ q. q.items) queues.old.items) (map (λ q. q.items) queues.new.items)) }
{
    let shards = queues.len() as u32;
    let shard = place % shards;
    let event = ShardEvent::Own {
        place: place / shards,
        moment,
        event,
    };
    append(queues, shard as usize, Numbered { number, event })
}

/// Deals out a tick, which is an event of every shard.
fn deal_tick(queues: &mut Vec<Vec<Numbered>>, number: u64, tick: Tick) -> Result<(), AllocError>
    ensures long { length queues.new.items ≡ length queues.old.items }
    ensures queued { OnOk result (AreQueued number (events.Tick tick) (map (λ q. q.items) queues.old.items)
        (map (λ q. q.items) queues.new.items)) }
{
    for shard in 0..queues.len() {
        let event = ShardEvent::Tick(tick);
        append(queues, shard, Numbered { number, event })?;
    }
    Ok(())
}

/// Deals out the event of this number to the queues of 1 to 64 shards, by its place in the whole table; a tick goes to every queue. Fails
/// only when out of memory, and then some of the queues may have a tick already.
pub fn queue_event(
    queues: &mut Vec<Vec<Numbered>>,
    number: u64,
    event: ShardEvent,
) -> Result<(), AllocError>
    requires some { 0 < length queues.old.items }
    requires few { length queues.old.items ≤ 64 }
    ensures long { length queues.new.items ≡ length queues.old.items }
    ensures queued { OnOk result (AreQueued number event (map (λ q. q.items) queues.old.items)
        (map (λ q. q.items) queues.new.items)) }
{
    match event {
        ShardEvent::Own {
            place,
            moment,
            event,
        } => deal_own(queues, number, place, moment, event),
        ShardEvent::Tick(tick) => deal_tick(queues, number, tick),
    }
}
