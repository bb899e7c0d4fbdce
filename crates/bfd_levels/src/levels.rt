//! Timers as a wheel of levels.
ghost use Rattle.std.specs.Prelude.{◌≡◌, ℕ, ◌+◌, ◌-◌, ◌*◌, ◌^◌, ◌++◌, ◌≤◌, ◌<◌, max, map, length, replicate, None, Some, IfOk, IfSome};
ghost use Rattle.std.specs.Prelude.{OnErr, OnOk, slice_set};
ghost use Rattle.std.specs.List.{insert, remove};
ghost use Rattle.bfd_lanes.specs.Held.{room_of};
ghost use Rattle.bfd_lanes.specs.Places.{come, due_of, without};
ghost use Rattle.bfd_levels.specs.Height.{potential_of};
ghost use Rattle.bfd_num.specs.Counting.{IsBlankOf};

use crate::advance::take;
use crate::anew::{insert_id, link_all, remove_id};
use crate::change::{change, drop_due};
use crate::place::HEADS;
use crate::soonest::{after_advance, least_of, lowest_of};
use bfd_lanes::{Ids, NEVER};
use bfd_num::Steps;
use bfd_wheel::{Node, Timers, due_at, loops, no_dues};
use std::alloc::{AllocError, Global};
use std::marker::{Brand, Model};
use std::sync::ledger::{Blank, Ledger};

/// A wheel of four levels of 256 slots, an overflow list and an overdue list: each is a ring of nodes through a head,
/// and each id with a due tick stands on one of them. `clock` is the greatest tick that the wheel was advanced to, and
/// `soonest` the lowest due tick, `NEVER` where there is none.
#[derive(Drop)]
pub struct Levels {
    clock: u64,
    soonest: u64,
    dues: Vec<u64>,
    nodes: Vec<Node>,
}

impl Model for Levels {
    ghost use Rattle.std.specs.Prelude.{map};
    ghost use Rattle.bfd_lanes.specs.Places.{due_of};
    ghost use Rattle.bfd_levels.specs.Height.{Clocked};
    ghost use Rattle.bfd_levels.specs.Lists.{KnowsLeast};

    ghost Value = { Clocked };

    ghost view = { λ l. record { clock = l.clock; dues = map due_of l.dues.items } };

    ghost invariant = { λ l. KnowsLeast l.clock l.soonest l.dues.items l.nodes.items };
}

impl Timers for Levels {
    ghost dues = { λ l. l.dues };

    fn make(alloc: Global, count: u32) -> Result<Self, AllocError>
        requires { count ≤ 65536 }
        ensures { IfOk result (λ levels. levels ≡ record { clock = 0; dues = replicate count None }) }
    {
        let dues = no_dues(alloc, count)?;
        let nodes = loops(alloc, count + HEADS)?;
        Ok(Levels {
            clock: 0,
            soonest: NEVER,
            dues,
            nodes,
        })
    }

    fn insert(&mut self, _alloc: Global, id: u32, due: Option<u64>) -> Result<(), AllocError>
        requires id { id ≤ length self.old.dues }
        requires few { length self.old.dues < 65536 }
        requires due { IfSome due (λ t. t < 2 ^ 60) }
        ensures dues { OnOk result (self.new.dues ≡ insert self.old.dues id due) }
        ensures clock { self.new.clock ≡ self.old.clock }
        ensures same { OnErr result (self.new.dues ≡ self.old.dues) }
    {
        insert_id(&mut self.nodes, &mut self.dues, self.clock, id, due)?;
        self.soonest = lowest_of(&self.dues);
        Ok(())
    }

    fn remove(&mut self, id: u32)
        requires { id < length self.old.dues }
        ensures dues { self.new.dues ≡ remove self.old.dues id }
        ensures clock { self.new.clock ≡ self.old.clock }
    {
        remove_id(&mut self.nodes, &mut self.dues, self.clock, id);
        self.soonest = lowest_of(&self.dues);
    }

    fn set<L: Ledger>(&mut self, id: u32, due: u64, steps: &mut Steps<L>)
        requires id { id < length self.old.dues }
        requires due { due < 2 ^ 60 }
        ensures dues { self.new.dues ≡ slice_set self.old.dues id (Some due) }
        ensures clock { self.new.clock ≡ self.old.clock }
        ensures rises { potential_of self.new ≤ potential_of self.old + 9 }
        ensures cost { steps.new ≤ steps.old + 2 }
    {
        self.soonest = change(
            &mut self.nodes,
            &mut self.dues,
            self.clock,
            self.soonest,
            id,
            due,
            steps,
        );
    }

    fn clear<L: Ledger>(&mut self, id: u32, steps: &mut Steps<L>)
        requires id { id < length self.old.dues }
        ensures dues { self.new.dues ≡ slice_set self.old.dues id None }
        ensures clock { self.new.clock ≡ self.old.clock }
        ensures falls { potential_of self.new ≤ potential_of self.old }
        ensures cost { steps.new ≤ steps.old + 1 }
    {
        self.soonest = drop_due(
            &mut self.nodes,
            &mut self.dues,
            self.clock,
            self.soonest,
            id,
            steps,
        );
    }

    fn due(&self, id: u32) -> Option<u64> {
        due_at(&self.dues, id)
    }

    fn least(&self) -> Option<u64> {
        least_of(&self.dues, self.soonest)
    }

    fn advance(&mut self, t: u64, out: &mut Ids)
        requires t { t < 2 ^ 60 }
        requires room { length self.old.dues ≤ out.old.spare }
        ensures items { out.new.items ≡ out.old.items ++ come t self.old.dues }
        ensures room { room_of out.new ≡ room_of out.old }
        ensures dues { self.new.dues ≡ map (without t) self.old.dues }
        ensures clock { self.new.clock ≡ max self.old.clock t }
    {
        advance_uncounted::<Brand>(self, t, out, Blank::new(1));
    }
}

impl Levels {
    /// A wheel with these due ticks, `NEVER` for none, that was advanced to no tick. Fails only when out of memory.
    pub(crate) fn of(alloc: Global, dues: &[u64]) -> Result<Levels, AllocError>
        requires { length dues.now ≤ 65536 }
        ensures { IfOk result (λ levels. levels ≡ record { clock = 0; dues = map due_of dues.now }) }
    {
        let dues = Vec::from_slice(alloc, dues)?;
        let mut nodes = loops(alloc, dues.len() as u32 + HEADS)?;
        link_all(&mut nodes, &dues, 0);
        Ok(Levels {
            clock: 0,
            soonest: lowest_of(&dues),
            dues,
            nodes,
        })
    }

    /// The greatest tick that the wheel was advanced to, 0 at first.
    pub fn now(&self) -> u64
        ensures { result ≡ self.now.clock }
    {
        self.clock
    }

    /// `advance` with its steps counted: one for each list that is looked at, one for each id that is taken, and two
    /// for each that is moved to another list. Moves down are paid for by what the potential falls, so that forward an
    /// advance takes two steps for each tick and five more beyond that, and back one.
    #[tactic(auto, using(crate::proofs::Potentials::advance_falls))]
    pub fn advance_counted<L: Ledger>(&mut self, t: u64, out: &mut Ids, steps: &mut Steps<L>)
        requires t { t < 2 ^ 60 }
        requires room { length self.old.dues ≤ out.old.spare }
        ensures items { out.new.items ≡ out.old.items ++ come t self.old.dues }
        ensures room { room_of out.new ≡ room_of out.old }
        ensures dues { self.new.dues ≡ map (without t) self.old.dues }
        ensures clock { self.new.clock ≡ max self.old.clock t }
        ensures falls { potential_of self.new ≤ potential_of self.old }
        ensures forward { self.old.clock ≤ t → steps.new ≤ steps.old
            + (potential_of self.old - potential_of self.new + 2 * (t - self.old.clock) + 5) }
        ensures back { t < self.old.clock → steps.new ≤ steps.old
            + (potential_of self.old - potential_of self.new + 1) }
    {
        self.advance_paid(t, out, steps);
    }

    /// The same, where what is left of the potential is added to the steps.
    fn advance_paid<L: Ledger>(&mut self, t: u64, out: &mut Ids, steps: &mut Steps<L>)
        requires t { t < 2 ^ 60 }
        requires room { length self.old.dues ≤ out.old.spare }
        ensures items { out.new.items ≡ out.old.items ++ come t self.old.dues }
        ensures room { room_of out.new ≡ room_of out.old }
        ensures dues { self.new.dues ≡ map (without t) self.old.dues }
        ensures clock { self.new.clock ≡ max self.old.clock t }
        ensures forward { self.old.clock ≤ t → steps.new + potential_of self.new
            ≤ steps.old + (2 * (t - self.old.clock) + 5) + potential_of self.old }
        ensures back { t < self.old.clock → steps.new + potential_of self.new
            ≤ steps.old + 1 + potential_of self.old }
    {
        self.clock = take(&mut self.nodes, &mut self.dues, self.clock, t, out, steps);
        self.soonest = after_advance(&self.nodes, &self.dues, self.clock, self.soonest, t);
    }
}

/// An advance with a counter of its own.
fn advance_uncounted<L: Ledger>(levels: &mut Levels, t: u64, out: &mut Ids, blank: Blank)
    requires t { t < 2 ^ 60 }
    requires room { length levels.old.dues ≤ out.old.spare }
    requires blank { IsBlankOf L.name L.parts blank.name blank.parts }
    ensures items { out.new.items ≡ out.old.items ++ come t levels.old.dues }
    ensures room { room_of out.new ≡ room_of out.old }
    ensures dues { levels.new.dues ≡ map (without t) levels.old.dues }
    ensures clock { levels.new.clock ≡ max levels.old.clock t }
{
    levels.advance_counted(t, out, &mut Steps::<L>::new(blank));
}
