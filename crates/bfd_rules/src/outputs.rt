//! What an event emits, in a list whose room is made before.
ghost use Rattle.std.specs.Prelude.{◌≡◌, ◌≤◌, ◌<◌, ◌+◌, ◌++◌, [], ◌∷◌, IfOk, OnOk, OnErr, length};

use bfd_packet::{Datagram, State};
use std::alloc::{AllocError, Global};
use std::marker::Model;

/// One output of an event.
#[derive(Drop)]
pub enum Out {
    /// The session of this discriminator changed its state; the diagnostic is the new one.
    Changed {
        discr: u32,
        old: State,
        new: State,
        diag: u8,
    },
    /// The session of this discriminator, or a reflector, sends a packet.
    Sent {
        discr: u32,
        datagram: Datagram,
    },
}

/// Outputs in the order in which they came, with room for a number of them that was set at the making.
#[derive(Drop)]
pub struct Outs {
    list: Vec<Out>,
    room: usize,
}

impl Model for Outs {
    ghost use Rattle.std.specs.Prelude.{◌-◌, ◌≤◌, vec_len, vec_capacity};
    ghost use Rattle.bfd_rules.specs.EventFrame.{Outputs};

    ghost Value = { Outputs };

    ghost view = { λ o. record { items = o.list.items; spare = o.room - vec_len o.list; room = o.room } };

    ghost invariant = { λ o. (vec_len o.list ≤ o.room) × (o.room ≤ vec_capacity o.list) };
}

impl Outs {
    /// An empty list with room for `room` outputs. Fails only when out of memory.
    pub fn make(alloc: Global, room: usize) -> Result<Outs, AllocError>
        ensures { IfOk result (λ outs. outs ≡ record { items = []; spare = room; room = room }) }
    {
        Ok(Outs {
            list: Vec::with_capacity(alloc, room)?,
            room,
        })
    }

    /// Drops the outputs; then all the room is free again.
    pub fn clear(&mut self)
        ensures { self.new ≡ record { items = []; spare = self.old.room; room = self.old.room } }
    {
        self.list.clear();
    }

    /// The outputs so far. With the room that is left they make up the room of the making.
    pub fn items(&self) -> &[Out]
        ensures items { result.now ≡ self.now.items }
        ensures whole { length self.now.items + self.now.spare ≡ self.now.room }
    {
        self.list.as_slice()
    }

    /// The room that is left, in outputs.
    pub fn spare(&self) -> usize
        ensures spare { result ≡ self.now.spare }
        ensures whole { length self.now.items + self.now.spare ≡ self.now.room }
    {
        self.room - self.list.len()
    }

    /// Returns the outputs; then all the room is free again. Fails only when out of memory, and then all is as it was.
    pub fn take(&mut self) -> Result<Vec<Out>, AllocError>
        ensures taken { IfOk result (λ list. list.items ≡ self.old.items) }
        ensures free { OnOk result (self.new ≡ record { items = []; spare = self.old.room; room = self.old.room }) }
        ensures same { OnErr result (self.new ≡ self.old) }
    {
        self.list.split_off(0)
    }

    /// Appends one output. Allocates no memory.
    pub fn push(&mut self, out: Out)
        requires { 0 < self.old.spare }
        ensures items { self.new.items ≡ self.old.items ++ out ∷ [] }
        ensures spare { self.new.spare + 1 ≡ self.old.spare }
        ensures room { self.new.room ≡ self.old.room }
    {
        self.list.push_reserved(out);
    }
}
