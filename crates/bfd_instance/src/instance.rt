//! A world of sessions on its way.
ghost use Rattle.std.specs.Prelude.{◌≡◌, ◌⊎◌, ◌<◌, ◌≤◌, ◌+◌, ◌*◌, ◌++◌, ◌∷◌, None, Some, IfOk, IfSome, MatchResult, OnErr, OnOk};
ghost use Rattle.std.specs.Prelude.{[], drop, false, length, map, max, take};
ghost use Rattle.bfd_num.specs.Due.{has_come};
ghost use Rattle.bfd_lanes.specs.Places.{least, places};
ghost use Rattle.bfd_session.specs.Due.{due as due_tick};
ghost use Rattle.bfd_session.specs.Changes.{place_for};
ghost use Rattle.bfd_session.specs.Kinds.{configs_of, discr_of};
ghost use Rattle.bfd_session.specs.Rows.{Ascends, place_of as place_in};
ghost use Rattle.bfd_session.specs.Step.{IsFit, started};
ghost use Rattle.bfd_session.specs.Tables.{members};
ghost use Rattle.bfd_shard.specs.Expired.{forgotten, has_expired};
ghost use Rattle.bfd_shard.specs.Shard.{NoneDue};
ghost use Rattle.bfd_instance.specs.Judged.{arrival_answer};
ghost use Rattle.bfd_instance.specs.Stage.{IsTable};
ghost use Rattle.bfd_instance.specs.World.{turn_giving};
ghost use Rattle.bfd_instance.specs.World as world;
ghost use Rattle.bfd_script.specs.declared.line.entries.Line.TheVariants as lines;

use crate::room::make_room;
use crate::world::{arrive, happen, pass};
use bfd_demux::{AddFault, Demux};
use bfd_num::{Moment, Tick};
use bfd_packet::Arrival;
use bfd_rules::{Out, Outs};
use bfd_sbfd::Reflector;
use bfd_script::line::Line;
use bfd_session::{Answer, Roster, SessionConfig, Table, table_of};
use bfd_shard::{Seat, Sessions};
use bfd_wheel::Timers;
use std::alloc::{AllocError, Global};
use std::marker::{Brand, Model};
use std::sync::ledger::Blank;

/// The sessions and the reflectors of a table, each by ascending discriminator, with the sessions' timers, the last tick, and the
/// outputs of the last event.
///
/// A driver opens it, hands in each event by `happen`, reads `items`, and asks `due` when the next tick is needed.
#[derive(Drop)]
pub struct Instance<W: Timers> {
    table: Table,
    sessions: Sessions<W>,
    outs: Outs,
}

impl<W: Timers> Model for Instance<W> {
    ghost use Rattle.bfd_instance.specs.Stage.{Stage, IsStage};

    ghost Value = { Stage };

    ghost view = { λ r. record {
      world = record { sessions = r.sessions.sessions; pool = r.table.pool; last = r.sessions.last };
      items = r.outs.items;
    } };

    ghost invariant = { λ r. IsStage r.sessions.sessions r.table r.outs };
}

/// The table of sessions and reflectors that have no fault, with which an instance begins. Fails only when out of memory.
#[tactic(auto, using(crate::proofs::Stages::no_fault))]
pub fn table(
    alloc: Global,
    configs: &Vec<SessionConfig>,
    pool: Vec<Reflector>,
) -> Result<Table, AllocError>
    requires { IsTable configs.now.items pool.items }
    ensures { IfOk result (λ table. table ≡ members configs.now.items pool.items) }
{
    let rows = table_of(alloc, configs, &pool)?;
    let demux = Demux::of_sound(alloc, rows)?;
    let roster = Roster::of(alloc, configs)?;
    Ok(Table::of(demux, roster, pool))
}

/// Seats a session at this place, with room for its outputs. Where memory runs out the sessions are as they were.
fn seat<W: Timers>(
    alloc: Global,
    sessions: &mut Sessions<W>,
    outs: &mut Outs,
    place: u32,
    config: SessionConfig,
) -> Result<(), AllocError>
    requires place { place ≤ length sessions.old.sessions }
    requires few { length sessions.old.sessions < 65536 }
    requires fit { IsFit config }
    ensures sessions { OnOk result (sessions.new.sessions
        ≡ take place sessions.old.sessions ++ started config ∷ drop place sessions.old.sessions) }
    ensures last { sessions.new.last ≡ sessions.old.last }
    ensures same { OnErr result (sessions.new ≡ sessions.old) }
    ensures items { outs.new.items ≡ outs.old.items }
    ensures room { OnOk result (5 * (length sessions.old.sessions + 1) + 5 ≤ outs.new.room) }
    ensures kept { outs.old.room ≤ outs.new.room }
{
    make_room(alloc, outs, 5 * (sessions.sessions().len() + 1) + 5)?;
    sessions.add(alloc, place, config)
}

impl<W: Timers> Instance<W> {
    /// The world at the start of a script with this table. Fails only when out of memory.
    pub fn open(
        alloc: Global,
        configs: Vec<SessionConfig>,
        pool: Vec<Reflector>,
    ) -> Result<Instance<W>, AllocError>
        requires { IsTable configs.items pool.items }
        ensures { IfOk result (λ instance. instance.world ≡ world.opened configs.items pool.items) }
    {
        let table = table(alloc, &configs, pool)?;
        let outs = Outs::make(alloc, 5 * configs.as_slice().len() + 5)?;
        let sessions = Sessions::make(alloc, configs)?;
        Ok(Instance {
            table,
            sessions,
            outs,
        })
    }

    /// One event: what it gave is in the outputs and the answer. Allocates no memory.
    pub fn happen(&mut self, line: Line) -> Answer
        ensures { turn_giving self.new.world self.new.items result ≡ world.happens line self.old.world }
    {
        self.happen_placing(line).0
    }

    /// The same, with the place of the session to which the event came; none where it came to no session, to a reflector, or as a tick
    /// to all.
    pub fn happen_placing(&mut self, line: Line) -> (Answer, Option<u32>)
        ensures turn { turn_giving self.new.world self.new.items result.0 ≡ world.happens line self.old.world }
        ensures reached { result.1 ≡ world.place_reached line self.old.world }
        ensures within { IfSome result.1 (λ place. place < length self.old.world.sessions) }
    {
        let outs = &mut self.outs;
        outs.clear();
        happen(&self.table, &mut self.sessions, line, outs)
    }

    /// A packet that came in: `happen_placing` of its line. It is discarded by the first test that it fails, and handled where it fails
    /// none (RFC 5880 section 6.8.6).
    pub fn hear(&mut self, moment: Moment, arrival: Arrival) -> (Answer, Option<u32>)
        ensures turn { turn_giving self.new.world self.new.items result.0 ≡ world.happens (lines.Rx moment arrival) self.old.world }
        ensures judged { result.0 ≡ arrival_answer moment arrival self.old.world }
        ensures reached { result.1 ≡ world.place_reached (lines.Rx moment arrival) self.old.world }
        ensures within { IfSome result.1 (λ place. place < length self.old.world.sessions) }
    {
        self.outs.clear();
        arrive(
            &self.table,
            &mut self.sessions,
            moment,
            arrival,
            &mut self.outs,
        )
    }

    /// A tick: `happen` of its line. One below the last tick counts as the last. Exactly the sessions whose Detection Time has expired by
    /// it forget that they received a packet (RFC 5880 section 6.8.4), and nothing that is due is left. Where nothing is due by it, no
    /// session changes and nothing is emitted.
    pub fn tick(&mut self, t: Tick) -> Answer
        ensures turn { turn_giving self.new.world self.new.items result ≡ world.happens (lines.Tick t) self.old.world }
        ensures expires { forgotten self.old.world.sessions self.new.world.sessions
            ≡ places (has_expired (max self.old.world.last t)) 0 self.old.world.sessions }
        ensures none_due { NoneDue (max self.old.world.last t) self.new.world.sessions }
        ensures rests { has_come (max self.old.world.last t) (least (map due_tick self.old.world.sessions)) ≡ false
            → (self.new.world.sessions ≡ self.old.world.sessions) × (self.new.items ≡ []) }
    {
        self.outs.clear();
        pass::<W, Brand>(&mut self.sessions, t, &mut self.outs, Blank::new(1))
    }

    /// One more session, of this configuration, which is within its ranges. Its variables are those of the start, at moment 0, and its
    /// events are no earlier than the last tick. Returns its place. Nothing else changes, nor do the outputs of the last event. On a
    /// fault nothing has changed; it says why the session isn't added, and is `Memory` only if nothing else is wrong. Takes time linear
    /// in the sessions and reflectors.
    pub fn add(&mut self, alloc: Global, config: SessionConfig) -> Result<u32, AddFault>
        requires { IsFit config }
        ensures place { IfOk result (λ place. place ≡ place_for (discr_of config) (configs_of self.old.world.sessions)) }
        ensures within { IfOk result (λ place. place ≤ length self.old.world.sessions) }
        ensures world { OnOk result (self.new.world ≡ world.world_with config self.old.world) }
        ensures items { OnOk result (self.new.items ≡ self.old.items) }
        ensures fault { MatchResult result
            (λ _. world.session_fault config self.old.world ≡ None)
            (λ fault. ((fault ≡ AddFault.Memory) × (world.session_fault config self.old.world ≡ None))
            ⊎ (world.session_fault config self.old.world ≡ Some fault)) }
        ensures same { OnErr result (self.new ≡ self.old) }
    {
        let discr = config.discr();
        let place = self.table.add(&config)?;
        match seat(alloc, &mut self.sessions, &mut self.outs, place, config) {
            Ok(()) => Ok(place),
            Err(AllocError) => {
                self.table.remove(discr);
                Err(AddFault::Memory)
            }
        }
    }

    /// The session of this discriminator leaves; false where there is none. Nothing else changes, the outputs of the last event
    /// neither. Allocates no memory, and takes time linear in the sessions.
    pub fn remove(&mut self, discr: u32) -> bool
        ensures found { result ≡ world.knows_session discr self.old.world }
        ensures world { self.new.world ≡ world.world_without discr self.old.world }
        ensures same { result ≡ false → self.new ≡ self.old }
        ensures items { self.new.items ≡ self.old.items }
    {
        match self.table.remove(discr) {
            Some(place) => {
                self.sessions.remove(place);
                true
            }
            None => false,
        }
    }

    /// One more reflector. Nothing else changes, the outputs of the last event neither. A fault says why it isn't added, as `add`
    /// has it, and then nothing has changed.
    pub fn add_reflector(&mut self, reflector: Reflector) -> Result<(), AddFault>
        ensures world { OnOk result (self.new.world ≡ world.world_with_reflector reflector self.old.world) }
        ensures items { OnOk result (self.new.items ≡ self.old.items) }
        ensures fault { MatchResult result
            (λ _. world.reflector_fault reflector self.old.world ≡ None)
            (λ fault. ((fault ≡ AddFault.Memory) × (world.reflector_fault reflector self.old.world ≡ None))
            ⊎ (world.reflector_fault reflector self.old.world ≡ Some fault)) }
        ensures same { OnErr result (self.new ≡ self.old) }
    {
        self.table.add_reflector(reflector)
    }

    /// The reflector of this discriminator leaves; false where there is none. Nothing else changes, the outputs of the last event
    /// neither. Allocates no memory.
    pub fn remove_reflector(&mut self, discr: u32) -> bool
        ensures found { result ≡ world.knows_reflector discr self.old.world }
        ensures world { self.new.world ≡ world.world_without_reflector discr self.old.world }
        ensures same { result ≡ false → self.new ≡ self.old }
        ensures items { self.new.items ≡ self.old.items }
    {
        self.table.remove_reflector(discr)
    }

    /// The outputs of the last event, by ascending discriminator, each session's in their order.
    pub fn items(&self) -> &[Out]
        ensures { result.now ≡ self.now.items }
    {
        self.outs.items()
    }

    /// The place of the session with this discriminator, if there is one.
    pub fn place_of(&self, discr: u32) -> Option<u32>
        ensures value { result ≡ place_in discr (configs_of self.now.world.sessions) }
        ensures within { IfSome result (λ place. place < length self.now.world.sessions) }
    {
        // proof: the read brings the invariant
        let _ = &self.sessions;
        self.table.place_of(discr)
    }

    /// The greatest tick so far, or 0.
    pub fn last(&self) -> Tick
        ensures { result ≡ self.now.world.last }
    {
        self.sessions.last()
    }

    /// The least tick, in milliseconds, that a session needs next, or None where none needs one: no tick below it does anything.
    pub fn due(&self) -> Option<u64>
        ensures { result ≡ least (map due_tick self.now.world.sessions) }
    {
        self.sessions.due()
    }

    /// The sessions, by ascending discriminator.
    pub fn sessions(&self) -> &[Seat]
        ensures value { result.now ≡ self.now.world.sessions }
        ensures ascends { Ascends (configs_of result.now) }
    {
        // proof: the read brings the invariant
        let _ = &self.table;
        self.sessions.sessions()
    }
}
