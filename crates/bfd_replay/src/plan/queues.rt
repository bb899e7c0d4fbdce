//! Shards' queues, in the pieces that runs of lines gave.
ghost use Rattle.std.specs.Prelude.{ℕ, ◌≡◌, ◌++◌, ◌∷◌, [], IfOk, IfSome, None, length, map, slice_index_or};
ghost use Rattle.bfd_replay.specs.Planned.{behind, events_left};

use crate::plan::shrinking::next_of;
use crate::report::Numbered;
use std::alloc::{AllocError, Global};
use std::marker::Model;

/// The queue of a shard, in the pieces that runs of lines gave, from which its events are taken one by one. Contracts see the events
/// that are left, in their order.
#[derive(Drop)]
pub struct Queue {
    // What is left of the piece of which events are taken, in reverse.
    left: Vec<Numbered>,
    // The pieces behind it.
    pieces: Vec<Vec<Numbered>>,
    // How many events are left.
    count: usize,
}

impl Model for Queue {
    ghost use Rattle.std.specs.Prelude.{◌≡◌, List, length};
    ghost use Rattle.bfd_replay.specs.declared.report.queue.Numbered.{Numbered};
    ghost use Rattle.bfd_replay.specs.Planned.{events_left};

    ghost Value = { List Numbered };

    ghost view = { λ q. events_left q.left.items q.pieces.items };

    ghost invariant = { λ q. q.count ≡ length (events_left q.left.items q.pieces.items) };
}

/// Takes the first event of a list that is kept in reverse, and where that is empty, of the first of these pieces that has one, whose
/// others are the list then.
fn next_in(left: &mut Vec<Numbered>, pieces: &mut Vec<Vec<Numbered>>) -> Option<Numbered>
    ensures first { IfSome result (λ event. events_left left.old.items pieces.old.items
        ≡ event ∷ events_left left.new.items pieces.new.items) }
    ensures none { result ≡ None → events_left left.old.items pieces.old.items ≡ [] }
    ensures empty { result ≡ None → events_left left.new.items pieces.new.items ≡ [] }
{
    'pieces: while left.is_empty() {
        if pieces.is_empty() {
            return None;
        }
        *left = pieces.remove(0);
        left.reverse();
    }
    next_of(left)
}

impl Queue {
    /// No event.
    pub fn new(alloc: Global) -> Queue
        ensures { result ≡ [] }
    {
        Queue {
            left: Vec::new(alloc),
            pieces: Vec::new(alloc),
            count: 0,
        }
    }

    /// The queue with one more piece behind what there is. Fails only when out of memory, or at 2^64 events, which it reports as out of
    /// memory.
    pub(crate) fn with(self, piece: Vec<Numbered>) -> Result<Queue, AllocError>
        ensures { IfOk result (λ queue. queue ≡ self ++ piece.items) }
    {
        let Queue {
            left,
            mut pieces,
            count,
        } = self;
        let count = count.checked_add(piece.len()).ok_or(AllocError)?;
        pieces.push(piece)?;
        Ok(Queue {
            left,
            pieces,
            count,
        })
    }

    /// How many events are left.
    pub fn len(&self) -> usize
        ensures { result ≡ length self.now }
    {
        self.count
    }

    /// Takes the first event, or gives None where there is none. The queue gives memory back on its way.
    pub fn next(&mut self) -> Option<Numbered>
        ensures first { IfSome result (λ event. self.old ≡ event ∷ self.new) }
        ensures none { result ≡ None → self.old ≡ [] }
        ensures empty { result ≡ None → self.new ≡ [] }
    {
        let event = next_in(&mut self.left, &mut self.pieces)?;
        self.count -= 1;
        Some(event)
    }
}

/// As many queues with no event. Fails only when out of memory.
pub(crate) fn new_queues(alloc: Global, count: usize) -> Result<Vec<Queue>, AllocError>
    ensures long { IfOk result (λ queues. length queues.items ≡ count) }
    ensures each { IfOk result (λ queues. (k : ℕ) → slice_index_or queues.items k [] ≡ []) }
{
    let mut queues = Vec::with_capacity(alloc, count)?;
    for _ in 0..count {
        queues.push(Queue::new(alloc))?;
    }
    Ok(queues)
}

/// Puts a run's piece behind each shard's queue. Fails only when out of memory.
pub(crate) fn push_pieces(
    alloc: Global,
    queues: Vec<Queue>,
    pieces: Vec<Vec<Numbered>>,
) -> Result<Vec<Queue>, AllocError>
    requires { length queues.items ≡ length pieces.items }
    ensures { IfOk result (λ done. done.items ≡ behind queues.items (map (λ piece. piece.items) pieces.items)) }
{
    let mut done = Vec::with_capacity(alloc, queues.len())?;
    let mut left = queues;
    left.reverse();
    let mut more = pieces;
    more.reverse();
    'queues: while let Some(queue) = next_of(&mut left) {
        let Some(piece) = next_of(&mut more) else {
            unreachable!()
        };
        done.push(queue.with(piece)?)?;
    }
    Ok(done)
}
