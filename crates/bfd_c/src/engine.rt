//! What an open handle holds.
ghost use Rattle.std.specs.Prelude.{◌≡◌, ◌≢◌, IfOk, Some, drop, length};
ghost use Rattle.std.specs.Option.{option_copied};
ghost use Rattle.bfd_session.specs.Step.{IsFit};
ghost use Rattle.bfd_instance.specs.Stage.{IsTable};
ghost use Rattle.bfd_c.specs.Looks.{look_of};
ghost use Rattle.bfd_c.specs.Engines.{instance_after, asked, first_of, soonest, new_instance};
ghost use Rattle.bfd_c.specs.Joining as joining;
ghost use Rattle.bfd_script.specs.declared.line.entries.Line.TheVariants as lines;

use crate::records::{Look, Recorded as World};
use bfd_demux::AddFault;
use bfd_levels::ByCount;
use bfd_num::{Moment, Tick};
use bfd_packet::Arrival;
use bfd_rules::Out;
use bfd_sbfd::Reflector;
use bfd_script::line::Line;
use bfd_session::{Answer, SessionConfig};
use std::alloc::{AllocError, Global};
use std::marker::Model;

pub(crate) const DONE: u32 = 0;

pub(crate) const CLOSED: u32 = 1;

pub(crate) const MEMORY: u32 = 2;

pub(crate) const RANGE: u32 = 3;

pub(crate) const END: u32 = 4;

pub(crate) const TEXT: u32 = 5;

pub(crate) const EVENTS: u32 = 6;

const TAKEN_DISCR: u32 = 7;

const TAKEN_ADDRESSES: u32 = 8;

const FULL: u32 = 9;

pub(crate) const NOT_FOUND: u32 = 10;

pub(crate) const SIZE: u32 = 11;

/// Sessions and reflectors with what is kept of each session, the outputs of the last event, of which so many were read, its answer, and
/// the session to which it came.
#[derive(Drop)]
pub struct Engine {
    world: World<ByCount>,
    read: usize,
    answer: Answer,
    discr: u32,
}

impl Model for Engine {
    ghost use Rattle.std.specs.Prelude.{drop};
    ghost use Rattle.bfd_c.specs.Engines.{Instance};

    ghost Value = { Instance };

    ghost view = { λ e. record {
      world = e.world.world;
      left = drop e.read e.world.items;
      answer = e.answer;
      discr = e.discr;
      records = e.world.records;
    } };
}

/// How many outputs were read, once one more was, if one was left.
#[tactic(auto, using(crate::proofs::Outputs::one_more, crate::proofs::Outputs::none_more))]
fn further(items: &[Out], read: usize) -> usize
    ensures { drop result items.now ≡ drop 1 (drop read items.now) }
{
    if read < items.len() { read + 1 } else { read }
}

/// The code of a fault.
fn add_code(fault: AddFault) -> u32
    ensures { result ≡ joining.add_code fault }
{
    match fault {
        AddFault::TooMany => FULL,
        AddFault::ZeroDiscr => RANGE,
        AddFault::SameDiscr => TAKEN_DISCR,
        AddFault::SameAddresses => TAKEN_ADDRESSES,
        AddFault::Memory => MEMORY,
    }
}

impl Engine {
    /// The sessions and reflectors of a table, before the first event. Fails only when out of memory.
    pub(crate) fn start(
        alloc: Global,
        configs: Vec<SessionConfig>,
        pool: Vec<Reflector>,
    ) -> Result<Engine, AllocError>
        requires { IsTable configs.items pool.items }
        ensures { IfOk result (λ engine. engine ≡ new_instance configs.items pool.items) }
    {
        let world = World::open(alloc, configs, pool)?;
        let read = world.items().len();
        Ok(Engine {
            world,
            read,
            answer: Answer::Handled,
            discr: 0,
        })
    }

    /// One event. Its outputs stand to be read from the first on.
    fn happen(&mut self, line: Line)
        ensures { self.new ≡ instance_after line self.old }
    {
        let (answer, discr) = self.world.happen_naming(line);
        self.answer = answer;
        self.discr = discr;
        self.read = 0;
    }

    /// A packet.
    pub(crate) fn hear(&mut self, moment: Moment, arrival: Arrival)
        ensures { self.new ≡ instance_after (lines.Rx moment arrival) self.old }
    {
        let (answer, discr) = self.world.hear(moment, arrival);
        self.answer = answer;
        self.discr = discr;
        self.read = 0;
    }

    /// A tick.
    pub(crate) fn tick(&mut self, t: Tick)
        ensures { self.new ≡ instance_after (lines.Tick t) self.old }
    {
        self.answer = self.world.tick(t);
        self.discr = 0;
        self.read = 0;
    }

    /// The event that was asked for; where it's none, a value is outside its range.
    pub(crate) fn ask(&mut self, line: Option<Line>) -> u32
        ensures { (self.new, result) ≡ asked line self.old }
    {
        match line {
            Some(line) => {
                self.happen(line);
                DONE
            }
            None => RANGE,
        }
    }

    /// One more session.
    pub(crate) fn add(&mut self, alloc: Global, config: SessionConfig) -> u32
        requires { IsFit config }
        ensures done { result ≢ 2 → (self.new, result) ≡ joining.session_added (Some config) self.old }
        ensures memory { result ≡ 2 → (joining.session_added (Some config) self.old).1 ≡ 0 }
        ensures kept { result ≡ 2 → self.new ≡ self.old }
    {
        let Err(fault) = self.world.add(alloc, config) else {
            return DONE;
        };
        add_code(fault)
    }

    /// The session of this discriminator leaves.
    pub(crate) fn remove(&mut self, discr: u32) -> u32
        ensures { (self.new, result) ≡ joining.session_removed discr self.old }
    {
        if self.world.remove(discr) {
            return DONE;
        }
        NOT_FOUND
    }

    /// One more reflector.
    pub(crate) fn add_reflector(&mut self, reflector: Reflector) -> u32
        ensures done { result ≢ 2 → (self.new, result) ≡ joining.reflector_added (Some reflector) self.old }
        ensures memory { result ≡ 2 → (joining.reflector_added (Some reflector) self.old).1 ≡ 0 }
        ensures kept { result ≡ 2 → self.new ≡ self.old }
    {
        let Err(fault) = self.world.add_reflector(reflector) else {
            return DONE;
        };
        add_code(fault)
    }

    /// The reflector of this discriminator leaves.
    pub(crate) fn remove_reflector(&mut self, discr: u32) -> u32
        ensures { (self.new, result) ≡ joining.reflector_removed discr self.old }
    {
        if self.world.remove_reflector(discr) {
            return DONE;
        }
        NOT_FOUND
    }

    /// A look at the session of this discriminator, if there is one.
    pub(crate) fn look(&self, discr: u32) -> Option<Look>
        ensures { result ≡ look_of discr self.now.world self.now.records }
    {
        self.world.look(discr)
    }

    /// The least tick that a session needs next.
    pub(crate) fn due(&self) -> Option<u64>
        ensures { result ≡ soonest self.now.world.sessions }
    {
        self.world.due()
    }

    /// The first output that is left to be read.
    pub(crate) fn first(&self) -> Option<&Out>
        ensures { option_copied result ≡ first_of self.now.left }
    {
        self.world.items().get(self.read)
    }

    /// How many outputs are left to be read.
    pub(crate) fn left(&self) -> usize
        ensures { result ≡ length self.now.left }
    {
        self.world.items().len().saturating_sub(self.read)
    }

    /// The first output that is left was read.
    pub(crate) fn read_on(&mut self)
        ensures { self.new ≡ record self.old { left = drop 1 self.old.left } }
    {
        self.read = further(self.world.items(), self.read);
    }

    /// The session to which the last event came, or 0.
    pub(crate) fn discr(&self) -> u32
        ensures { result ≡ self.now.discr }
    {
        self.discr
    }

    /// What the last event was answered.
    pub(crate) fn answer(&self) -> &Answer
        ensures { result.now ≡ self.now.answer }
    {
        &self.answer
    }
}
