//! Timers as a plain list.
ghost use Rattle.std.specs.Prelude.{◌≡◌, ◌+◌, ◌^◌, ◌<◌, ◌≤◌, length, map, None, Some, slice_set};
ghost use Rattle.bfd_lanes.specs.Places.{due_of};

use crate::form::Timers;
use crate::list::{due_at, forget, insert_due, no_dues, remove_due, write};
use bfd_lanes::{Ids, NEVER, due_ids, least_due};
use bfd_num::Steps;
use std::alloc::{AllocError, Global};
use std::marker::Model;
use std::sync::ledger::Ledger;

/// The due ticks in one list, with `NEVER` for none: each advance goes over all of it.
#[derive(Drop)]
pub struct PlainTimers {
    dues: Vec<u64>,
}

impl Model for PlainTimers {
    ghost use Rattle.std.specs.Prelude.{ℕ, ◌≤◌, List, Option, map, length};
    ghost use Rattle.bfd_lanes.specs.Places.{due_of};

    ghost Value = { List (Option ℕ) };

    ghost view = { λ p. map due_of p.dues.items };

    ghost invariant = { λ p. length p.dues.items ≤ 65536 };
}

impl Timers for PlainTimers {
    ghost dues = { λ p. p };

    fn make(alloc: Global, count: u32) -> Result<Self, AllocError> {
        let dues = no_dues(alloc, count)?;
        Ok(PlainTimers { dues })
    }

    fn insert(&mut self, _alloc: Global, id: u32, due: Option<u64>) -> Result<(), AllocError> {
        insert_due(&mut self.dues, id, due)
    }

    fn remove(&mut self, id: u32) {
        remove_due(&mut self.dues, id);
    }

    fn set<L: Ledger>(&mut self, id: u32, due: u64, steps: &mut Steps<L>)
        requires id { id < length self.old }
        requires due { due < 2 ^ 60 }
        ensures dues { self.new ≡ slice_set self.old id (Some due) }
        ensures cost { steps.new ≡ steps.old + 1 }
    {
        write(&mut self.dues, id, due);
        steps.tick();
    }

    fn clear<L: Ledger>(&mut self, id: u32, steps: &mut Steps<L>)
        requires id { id < length self.old }
        ensures dues { self.new ≡ slice_set self.old id None }
        ensures cost { steps.new ≡ steps.old + 1 }
    {
        write(&mut self.dues, id, NEVER);
        steps.tick();
    }

    fn due(&self, id: u32) -> Option<u64> {
        due_at(&self.dues, id)
    }

    fn least(&self) -> Option<u64> {
        least_due(&self.dues)
    }

    fn advance(&mut self, t: u64, out: &mut Ids) {
        due_ids(&self.dues, t, out);
        forget(&mut self.dues, t);
    }
}

impl PlainTimers {
    /// The due ticks as numbers, at most 65,536, with `NEVER` for none.
    pub fn dues(&self) -> &[u64]
        ensures value { map due_of result.now ≡ self.now }
        ensures few { length result.now ≤ 65536 }
    {
        self.dues.as_slice()
    }
}
