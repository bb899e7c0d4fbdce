//! An instance that keeps a record of each session.
ghost use Rattle.std.specs.Prelude.{◌≡◌, ◌⊎◌, ◌<◌, ◌≤◌, None, Some, IfOk, MatchResult, OnErr, OnOk, false, length, map};
ghost use Rattle.std.specs.Prelude.{if◌then◌else◌, is_ok};
ghost use Rattle.std.specs.List.{insert, remove};
ghost use Rattle.bfd_lanes.specs.Places.{least};
ghost use Rattle.bfd_session.specs.Due.{due as due_tick};
ghost use Rattle.bfd_session.specs.Step.{IsFit};
ghost use Rattle.bfd_instance.specs.Stage.{IsTable};
ghost use Rattle.bfd_instance.specs.World.{turn_giving};
ghost use Rattle.bfd_instance.specs.World as world;
ghost use Rattle.bfd_c.specs.Looks.{look_in, look_of};
ghost use Rattle.bfd_script.specs.declared.line.entries.Line.TheVariants as lines;
ghost use Rattle.bfd_c.specs.Records as keeping;

use crate::records::boxed::BoxedRecord;
use crate::records::kept::{Record, came_on, came_with, fresh};
use crate::records::looking::{Look, seen};
use crate::records::noting::{note_all, note_came};
use bfd_demux::AddFault;
use bfd_instance::Instance;
use bfd_num::{Moment, Tick};
use bfd_packet::Arrival;
use bfd_rules::Out;
use bfd_sbfd::Reflector;
use bfd_script::line::Line;
use bfd_session::{Answer, SessionConfig};
use bfd_wheel::Timers;
use std::alloc::{AllocError, Global};
use std::marker::Model;

/// An instance with a record of each session, by place.
#[derive(Drop)]
pub struct Recorded<W: Timers> {
    instance: Instance<W>,
    records: Vec<BoxedRecord>,
}

impl<W: Timers> Model for Recorded<W> {
    ghost use Rattle.std.specs.Prelude.{◌≡◌};
    ghost use Rattle.bfd_c.specs.Records.{Kept, kinds_in, kinds_of};

    ghost Value = { Kept };

    ghost view = { λ r. record { world = r.instance.world; items = r.instance.items; records = r.records.items } };

    ghost invariant = { λ r. kinds_in r.records.items ≡ kinds_of r.instance.world.sessions };
}

/// The records of new sessions.
fn all_fresh(alloc: Global, configs: &[SessionConfig]) -> Result<Vec<BoxedRecord>, AllocError>
    ensures { IfOk result (λ list. list.items ≡ map keeping.fresh configs.now) }
{
    let mut records = Vec::with_capacity(alloc, configs.len())?;
    for config in configs {
        let boxed = BoxedRecord::make(alloc, fresh(config))?;
        records.push(boxed)?;
    }
    Ok(records)
}

/// Puts a record in at a place. Fails only when out of memory; then the records stay as they were.
fn put_in(
    alloc: Global,
    records: &mut Vec<BoxedRecord>,
    place: u32,
    kept: Record,
) -> Result<(), AllocError>
    requires { place ≤ length records.old.items }
    ensures items { records.new.items ≡ (if is_ok result then insert records.old.items place kept else records.old.items) }
{
    let boxed = BoxedRecord::make(alloc, kept)?;
    records.insert(place as usize, boxed)?;
    Ok(())
}

/// The record at a place leaves.
fn take_out(records: &mut Vec<BoxedRecord>, place: u32)
    requires { place < length records.old.items }
    ensures { records.new.items ≡ remove records.old.items place }
{
    records.remove(place as usize);
}

/// The discriminator of the session at a place, or 0.
fn discr_of_place<W: Timers>(instance: &Instance<W>, place: Option<u32>) -> u32
    ensures { result ≡ world.discr_of_place place instance.now.world }
{
    let Some(place) = place else {
        return 0;
    };
    match instance.sessions().get(place as usize) {
        Some(seat) => seat.session().discr(),
        None => 0,
    }
}

impl<W: Timers> Recorded<W> {
    /// The world at the start of a script with this table. Fails only when out of memory.
    pub fn open(
        alloc: Global,
        configs: Vec<SessionConfig>,
        pool: Vec<Reflector>,
    ) -> Result<Recorded<W>, AllocError>
        requires { IsTable configs.items pool.items }
        ensures world { IfOk result (λ opened. opened.world ≡ world.opened configs.items pool.items) }
        ensures records { IfOk result (λ opened. opened.records ≡ map keeping.fresh configs.items) }
    {
        let records = all_fresh(alloc, &configs)?;
        let instance = Instance::open(alloc, configs, pool)?;
        Ok(Recorded { instance, records })
    }

    /// One event, with the discriminator of the session to which it came; 0 where it came to none, to a reflector, or as a tick to all.
    /// Its answer and its outputs are recorded for the sessions that they name. Allocates no memory.
    pub fn happen_naming(&mut self, line: Line) -> (Answer, u32)
        ensures turn { turn_giving self.new.world self.new.items result.0 ≡ world.happens line self.old.world }
        ensures reached { result.1 ≡ world.discr_reached line self.old.world }
        ensures records { self.new.records ≡ keeping.recorded line self.old.world self.old.records }
    {
        let came = came_with(&line);
        let (answer, place) = self.instance.happen_placing(line);
        note_came(&self.instance, place, came, &answer, &mut self.records);
        note_all(&self.instance, place.unwrap_or(0), &mut self.records);
        (answer, discr_of_place(&self.instance, place))
    }

    /// A packet that came in: `happen_naming` of its line.
    pub fn hear(&mut self, moment: Moment, arrival: Arrival) -> (Answer, u32)
        ensures turn { turn_giving self.new.world self.new.items result.0 ≡ world.happens (lines.Rx moment arrival) self.old.world }
        ensures reached { result.1 ≡ world.discr_reached (lines.Rx moment arrival) self.old.world }
        ensures records { self.new.records ≡ keeping.recorded (lines.Rx moment arrival) self.old.world self.old.records }
    {
        let came = came_on(&arrival);
        let (answer, place) = self.instance.hear(moment, arrival);
        note_came(&self.instance, place, came, &answer, &mut self.records);
        note_all(&self.instance, place.unwrap_or(0), &mut self.records);
        (answer, discr_of_place(&self.instance, place))
    }

    /// A tick: `happen_naming` of its line.
    pub fn tick(&mut self, t: Tick) -> Answer
        ensures turn { turn_giving self.new.world self.new.items result ≡ world.happens (lines.Tick t) self.old.world }
        ensures records { self.new.records ≡ keeping.recorded (lines.Tick t) self.old.world self.old.records }
    {
        let answer = self.instance.tick(t);
        note_all(&self.instance, 0, &mut self.records);
        answer
    }

    /// One more session, as `Instance::add` has it, with a record in which nothing has happened. Where a fault keeps it from being added,
    /// nothing has changed.
    pub fn add(&mut self, alloc: Global, config: SessionConfig) -> Result<(), AddFault>
        requires { IsFit config }
        ensures world { OnOk result (self.new.world ≡ world.world_with config self.old.world) }
        ensures records { OnOk result (self.new.records ≡ keeping.records_with config self.old.world self.old.records) }
        ensures items { OnOk result (self.new.items ≡ self.old.items) }
        ensures fault { MatchResult result
            (λ _. world.session_fault config self.old.world ≡ None)
            (λ fault. ((fault ≡ AddFault.Memory) × (world.session_fault config self.old.world ≡ None))
            ⊎ (world.session_fault config self.old.world ≡ Some fault)) }
        ensures same { OnErr result (self.new ≡ self.old) }
    {
        let kept = fresh(&config);
        let discr = config.discr();
        let place = self.instance.add(alloc, config)?;
        match put_in(alloc, &mut self.records, place, kept) {
            Ok(()) => Ok(()),
            Err(_) => {
                self.instance.remove(discr);
                Err(AddFault::Memory)
            }
        }
    }

    /// The session of this discriminator leaves with its record, as `Instance::remove` has it; false where there is none.
    pub fn remove(&mut self, discr: u32) -> bool
        ensures found { result ≡ world.knows_session discr self.old.world }
        ensures world { self.new.world ≡ world.world_without discr self.old.world }
        ensures records { self.new.records ≡ keeping.records_without discr self.old.world self.old.records }
        ensures same { result ≡ false → self.new ≡ self.old }
        ensures items { self.new.items ≡ self.old.items }
    {
        match self.instance.place_of(discr) {
            Some(place) => {
                take_out(&mut self.records, place);
                self.instance.remove(discr)
            }
            None => false,
        }
    }

    /// One more reflector, as `Instance::add_reflector` has it. The records stay.
    pub fn add_reflector(&mut self, reflector: Reflector) -> Result<(), AddFault>
        ensures world { OnOk result (self.new.world ≡ world.world_with_reflector reflector self.old.world) }
        ensures records { self.new.records ≡ self.old.records }
        ensures items { OnOk result (self.new.items ≡ self.old.items) }
        ensures fault { MatchResult result
            (λ _. world.reflector_fault reflector self.old.world ≡ None)
            (λ fault. ((fault ≡ AddFault.Memory) × (world.reflector_fault reflector self.old.world ≡ None))
            ⊎ (world.reflector_fault reflector self.old.world ≡ Some fault)) }
        ensures same { OnErr result (self.new ≡ self.old) }
    {
        self.instance.add_reflector(reflector)
    }

    /// The reflector of this discriminator leaves; false where there is none. The records stay.
    pub fn remove_reflector(&mut self, discr: u32) -> bool
        ensures found { result ≡ world.knows_reflector discr self.old.world }
        ensures world { self.new.world ≡ world.world_without_reflector discr self.old.world }
        ensures records { self.new.records ≡ self.old.records }
        ensures same { result ≡ false → self.new ≡ self.old }
        ensures items { self.new.items ≡ self.old.items }
    {
        self.instance.remove_reflector(discr)
    }

    /// A look at the session at a place, if there is one.
    fn look_at_place(&self, place: u32) -> Option<Look>
        ensures { result ≡ look_in (Some place) self.now.world self.now.records }
    {
        let seat = self.instance.sessions().get(place as usize)?;
        let kept = self.records.get(place as usize)?;
        Some(seen(seat.session(), kept.record()))
    }

    /// A look at the session of this discriminator, if there is one. It settles nothing, and what the last event gave stays.
    pub fn look(&self, discr: u32) -> Option<Look>
        ensures { result ≡ look_of discr self.now.world self.now.records }
    {
        match self.instance.place_of(discr) {
            Some(place) => self.look_at_place(place),
            None => None,
        }
    }

    /// The outputs of the last event.
    pub fn items(&self) -> &[Out]
        ensures { result.now ≡ self.now.items }
    {
        self.instance.items()
    }

    /// The least tick that a session needs next, or None where none needs one.
    pub fn due(&self) -> Option<u64>
        ensures { result ≡ least (map due_tick self.now.world.sessions) }
    {
        self.instance.due()
    }
}
