//! A list of ids that allocates its memory once.
ghost use Rattle.std.specs.Prelude.{◌≡◌, ◌+◌, ◌-◌, ◌*◌, ◌<◌, ◌≤◌, List, [], ◌∷◌, ◌++◌, length, take, drop, IfOk, IsPermutation};
ghost use Rattle.std.specs.List.Sorted.{IsNonDecreasing};
ghost use Rattle.bfd_lanes.specs.Held.{HeldIds, room_of};

use std::alloc::{AllocError, Global};
use std::marker::Model;

/// Ids, and the room for more.
#[derive(Drop)]
pub struct Ids {
    list: Vec<u32>,
    room: usize,
}

impl Model for Ids {
    ghost use Rattle.std.specs.Prelude.{◌-◌, length, vec_capacity};
    ghost use Rattle.bfd_lanes.specs.Held.{HeldIds, IsReserved};

    ghost Value = { HeldIds };

    ghost view = { λ o. record { items = o.list.items; spare = o.room - length o.list.items } };

    ghost invariant = { λ o. IsReserved (length o.list.items) o.room (vec_capacity o.list) };
}

impl Ids {
    /// Room for `room` ids, and none in it. Fails only when out of memory.
    pub fn make(alloc: Global, room: usize) -> Result<Ids, AllocError>
        ensures { IfOk result (λ ids. ids ≡ record { items = []; spare = room }) }
    {
        let list = Vec::with_capacity(alloc, room)?;
        Ok(Ids { list, room })
    }

    /// Drops all ids, so that the whole room is spare.
    pub fn clear(&mut self)
        ensures { self.new ≡ record { items = []; spare = room_of self.old } }
    {
        self.list.clear();
    }

    /// The ids in their order.
    pub fn items(&self) -> &[u32]
        ensures { result.now ≡ self.now.items }
    {
        self.list.as_slice()
    }

    /// Appends one id.
    pub fn push(&mut self, id: u32)
        requires { 0 < self.old.spare }
        ensures items { self.new.items ≡ self.old.items ++ id ∷ [] }
        ensures spare { self.new.spare + 1 ≡ self.old.spare }
    {
        self.list.push_reserved(id);
    }

    /// Orders the items from place `from` on, ascending, and leaves the others. It allocates no memory.
    pub fn sort_from(&mut self, from: usize)
        requires { from ≤ length self.old.items }
        ensures front { take from self.new.items ≡ take from self.old.items }
        ensures rest { IsPermutation (drop from self.old.items) (drop from self.new.items) }
        ensures sorted { IsNonDecreasing (drop from self.new.items) }
        ensures len { length self.new.items ≡ length self.old.items }
        ensures spare { self.new.spare ≡ self.old.spare }
    {
        sort_rest(&mut self.list, from);
    }
}

/// Orders the numbers from place `from` on.
fn sort_rest(list: &mut [u32], from: usize)
    requires { from ≤ length list.old }
    ensures front { take from list.new ≡ take from list.old }
    ensures rest { IsPermutation (drop from list.old) (drop from list.new) }
    ensures sorted { IsNonDecreasing (drop from list.new) }
{
    list[from..].sort_unstable();
}
