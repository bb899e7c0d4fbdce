//! What every form of timers promises.
ghost use Rattle.std.specs.Prelude.{◌≡◌, ℕ, ◌+◌, ◌^◌, ◌<◌, ◌≤◌, List, ◌++◌, map, length, replicate, Option, None, Some, slice_index_or};
ghost use Rattle.std.specs.Prelude.{slice_set, IfOk, IfSome, OnErr, OnOk};
ghost use Rattle.std.specs.List.{insert, remove};
ghost use Rattle.bfd_lanes.specs.Held.{room_of};
ghost use Rattle.bfd_lanes.specs.Places.{come, least, without};

use bfd_lanes::Ids;
use bfd_num::Steps;
use std::alloc::{AllocError, Global};
use std::sync::ledger::Ledger;

/// Timers of ids 0, 1, 2 .., seen as the list of their optional due ticks. Only `make` and `insert` allocate memory.
pub trait Timers: Drop + Sized {
    ghost dues: { Self → List (Option ℕ) };

    /// Timers for `count` ids, at most 65,536, with no due tick. Fails only when out of memory.
    fn make(alloc: Global, count: u32) -> Result<Self, AllocError>
        requires { count ≤ 65536 }
        ensures { IfOk result (λ timers. dues timers ≡ replicate count None) };

    /// One more id, with this due tick, if any, below 2^60: `id` and those above it move up by one. There are at most
    /// 65,536 ids then. Fails only when out of memory, and then no due tick has changed.
    fn insert(&mut self, alloc: Global, id: u32, due: Option<u64>) -> Result<(), AllocError>
        requires id { id ≤ length (dues self.old) }
        requires few { length (dues self.old) < 65536 }
        requires due { IfSome due (λ t. t < 2 ^ 60) }
        ensures dues { OnOk result (dues self.new ≡ insert (dues self.old) id due) }
        ensures same { OnErr result (dues self.new ≡ dues self.old) };

    /// The id leaves, and those above it move down by one. Allocates no memory.
    fn remove(&mut self, id: u32)
        requires { id < length (dues self.old) }
        ensures dues { dues self.new ≡ remove (dues self.old) id };

    /// Sets the id's due tick, below 2^60, in place of the one that it had: at most 2 steps.
    fn set<L: Ledger>(&mut self, id: u32, due: u64, steps: &mut Steps<L>)
        requires id { id < length (dues self.old) }
        requires due { due < 2 ^ 60 }
        ensures dues { dues self.new ≡ slice_set (dues self.old) id (Some due) }
        ensures cost { steps.new ≤ steps.old + 2 };

    /// Takes the id's due tick away, if it has one: at most 1 step.
    fn clear<L: Ledger>(&mut self, id: u32, steps: &mut Steps<L>)
        requires id { id < length (dues self.old) }
        ensures dues { dues self.new ≡ slice_set (dues self.old) id None }
        ensures cost { steps.new ≤ steps.old + 1 };

    /// The id's due tick.
    fn due(&self, id: u32) -> Option<u64>
        requires { id < length (dues self.now) }
        ensures { result ≡ slice_index_or (dues self.now) id None };

    /// The least due tick.
    fn least(&self) -> Option<u64>
        ensures { result ≡ least (dues self.now) };

    /// Appends the ids whose due tick is at most `t`, ascending, and takes these due ticks away. `t`, below 2^60, may
    /// be below an earlier one.
    fn advance(&mut self, t: u64, out: &mut Ids)
        requires t { t < 2 ^ 60 }
        requires room { length (dues self.old) ≤ out.old.spare }
        ensures items { out.new.items ≡ out.old.items ++ come t (dues self.old) }
        ensures room { room_of out.new ≡ room_of out.old }
        ensures dues { dues self.new ≡ map (without t) (dues self.old) };
}
