//! Timers as a hashed wheel.
use crate::anew::{insert_id, remove_id};
use crate::change::{change, free};
use crate::form::Timers;
use crate::links::{Node, loops};
use crate::list::{due_at, no_dues};
use crate::place::HEADS;
use crate::take::take;
use bfd_lanes::{Ids, least_due};
use bfd_num::Steps;
use std::alloc::{AllocError, Global};
use std::marker::Model;
use std::sync::ledger::Ledger;

/// A wheel of 4,096 slots and an overdue list: each is a ring of nodes through a head, and each id with a due tick
/// stands in one of them. `now` is the greatest tick that the wheel was advanced to.
#[derive(Drop)]
pub struct HashedWheel {
    now: u64,
    dues: Vec<u64>,
    nodes: Vec<Node>,
}

impl Model for HashedWheel {
    ghost use Rattle.std.specs.Prelude.{ℕ, List, Option, map, length};
    ghost use Rattle.bfd_lanes.specs.Places.{due_of};
    ghost use Rattle.bfd_wheel.specs.Wheel.{IsWheel};

    ghost Value = { List (Option ℕ) };

    ghost view = { λ w. map due_of w.dues.items };

    ghost invariant = { λ w. IsWheel (length w.dues.items) w.now w.dues.items w.nodes.items };
}

impl Timers for HashedWheel {
    ghost dues = { λ w. w };

    fn make(alloc: Global, count: u32) -> Result<Self, AllocError> {
        let dues = no_dues(alloc, count)?;
        let nodes = loops(alloc, count + HEADS)?;
        Ok(HashedWheel {
            now: 0,
            dues,
            nodes,
        })
    }

    fn insert(&mut self, _alloc: Global, id: u32, due: Option<u64>) -> Result<(), AllocError> {
        insert_id(&mut self.nodes, &mut self.dues, self.now, id, due)
    }

    fn remove(&mut self, id: u32) {
        remove_id(&mut self.nodes, &mut self.dues, self.now, id);
    }

    fn set<L: Ledger>(&mut self, id: u32, due: u64, steps: &mut Steps<L>) {
        change(&mut self.nodes, &mut self.dues, self.now, id, due, steps);
    }

    fn clear<L: Ledger>(&mut self, id: u32, steps: &mut Steps<L>) {
        free(&mut self.nodes, &mut self.dues, id, steps);
    }

    fn due(&self, id: u32) -> Option<u64> {
        due_at(&self.dues, id)
    }

    fn least(&self) -> Option<u64> {
        least_due(&self.dues)
    }

    fn advance(&mut self, t: u64, out: &mut Ids) {
        self.now = take(&mut self.nodes, &mut self.dues, self.now, t, out);
    }
}
