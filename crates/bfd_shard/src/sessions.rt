//! Sessions with their timers and the last tick: what an event changes, no matter who keeps a journal of it.
ghost use Rattle.std.specs.Prelude.{ℕ, ◌≡◌, ◌+◌, ◌<◌, ◌≤◌, ◌++◌, ◌∷◌, IfOk, IfSome, OnErr, OnOk, IsTrue, ◌↔◌, drop, length, map, take};
ghost use Rattle.std.specs.Prelude.{vec_capacity, vec_len};
ghost use Rattle.std.specs.List.{AllByRecursion};
ghost use Rattle.bfd_num.specs.Numbers.{greatest_tick};
ghost use Rattle.bfd_lanes.specs.Held.{room_of};
ghost use Rattle.bfd_lanes.specs.Places.{least};
ghost use Rattle.bfd_session.specs.Due.{due as due_tick};
ghost use Rattle.bfd_session.specs.Kinds.{configs_of};
ghost use Rattle.bfd_session.specs.Rows.{AreFit};
ghost use Rattle.bfd_session.specs.Step.{IsFit, IsSound, started};
ghost use Rattle.bfd_shard.specs.Dealing.{share};
ghost use Rattle.bfd_shard.specs.History.{later, moved, outcome_of};
ghost use Rattle.bfd_shard.specs.Inside.{MayCome};
ghost use Rattle.bfd_shard.specs.Sessions.{HasForgotten};
ghost use Rattle.bfd_shard.specs.Shard.{CanHappen, IsOver, IsOwn, room_for};
ghost use Rattle.bfd_shard.specs.declared.entry.ShardEvent.TheVariants.{Own};
ghost use Rattle.bfd_session.specs.Reaching.{IsTaken, Stands};

use crate::entry::ShardEvent;
use crate::own::step_at;
use crate::seat::Seat;
use crate::start::{sessions_of, share_of, timers_of};
use crate::ticking::tick_all;
use bfd_lanes::Ids;
use bfd_num::{Moment, Steps, Tick};
use bfd_rules::Outs;
use bfd_session::{Answer, Event, Session, SessionConfig, tick_laws};
use bfd_wheel::Timers;
use std::alloc::{AllocError, Global};
use std::marker::Model;
use std::sync::ledger::Ledger;

/// Sessions by place, with their timers and the last tick. Between events the timers are the sessions' due ticks, and each
/// session is sound.
#[derive(Drop)]
pub struct Sessions<W: Timers> {
    sessions: Vec<Seat>,
    timers: W,
    last: u64,
    // Room for the places of the sessions that a tick finds due.
    ids: Ids,
}

impl<W: Timers> Model for Sessions<W> {
    ghost use Rattle.bfd_shard.specs.Sessions.{Timed, IsTimed};

    ghost Value = { Timed };

    ghost view = { λ s. record { sessions = s.sessions.items; last = s.last } };

    ghost invariant = { λ s. IsTimed s.sessions.items s.last (W.dues s.timers) s.ids };
}

/// An own event of the session at a place.
#[tactic(auto, using(bfd_session::proofs::Standing::takes_at, std::proofs::lemmas::Option::slice_get_within), unfolding(crate::specs::History::moved, crate::specs::History::outcome_of))]
fn act_own<W: Timers, L: Ledger>(
    sessions: &mut Vec<Seat>,
    timers: &mut W,
    last: u64,
    place: u32,
    moment: Moment,
    event: &Event,
    outs: &mut Outs,
    steps: &mut Steps<L>,
) -> Answer
    requires last { last ≤ greatest_tick }
    requires stands { Stands sessions.old.items place event.now }
    requires dues { W.dues timers.old ≡ map due_tick sessions.old.items }
    requires sound { AllByRecursion IsSound sessions.old.items }
    requires room { 5 ≤ outs.old.spare }
    ensures sessions { sessions.new.items ≡ moved last (Own place moment event.now) sessions.old.items }
    ensures items { outs.new.items
        ≡ outs.old.items ++ (outcome_of last (Own place moment event.now) sessions.old.items).items }
    ensures answer { result ≡ (outcome_of last (Own place moment event.now) sessions.old.items).answer }
    ensures dues { W.dues timers.new ≡ map due_tick sessions.new.items }
    ensures sound { AllByRecursion IsSound sessions.new.items }
    ensures spare { outs.old.spare ≤ outs.new.spare + 5 }
    ensures room { outs.new.room ≡ outs.old.room }
    ensures cost { steps.new ≤ steps.old + 2 }
{
    step_at(
        sessions,
        timers,
        last,
        place,
        moment.get(),
        event,
        outs,
        steps,
    )
}

/// An event of the sessions: answers the last tick after it, and the event's answer.
#[tactic(auto, unfolding(crate::specs::History::moved, crate::specs::History::outcome_of))]
fn act<W: Timers, L: Ledger>(
    sessions: &mut Vec<Seat>,
    timers: &mut W,
    last: u64,
    event: &ShardEvent,
    ids: &mut Ids,
    outs: &mut Outs,
    steps: &mut Steps<L>,
) -> (u64, Answer)
    requires few { length sessions.old.items ≤ 65536 }
    requires last { last ≤ greatest_tick }
    requires may_come { MayCome sessions.old.items event.now }
    requires dues { W.dues timers.old ≡ map due_tick sessions.old.items }
    requires sound { AllByRecursion IsSound sessions.old.items }
    requires ids { length sessions.old.items ≤ room_of ids.old }
    requires room { room_for sessions.old.items event.now ≤ outs.old.spare }
    ensures last { result.0 ≡ later last event.now }
    ensures early { result.0 ≤ greatest_tick }
    ensures sessions { sessions.new.items ≡ moved last event.now sessions.old.items }
    ensures items { outs.new.items ≡ outs.old.items ++ (outcome_of last event.now sessions.old.items).items }
    ensures answer { result.1 ≡ (outcome_of last event.now sessions.old.items).answer }
    ensures dues { W.dues timers.new ≡ map due_tick sessions.new.items }
    ensures over { IsOver (later last event.now) event.now sessions.new.items }
    ensures sound { AllByRecursion IsSound sessions.new.items }
    ensures ids { room_of ids.new ≡ room_of ids.old }
    ensures spare { outs.old.spare ≤ outs.new.spare + room_for sessions.old.items event.now }
    ensures room { outs.new.room ≡ outs.old.room }
    ensures cost { IsOwn event.now → steps.new ≤ steps.old + 2 }
{
    match event {
        ShardEvent::Own {
            place,
            moment,
            event,
        } => {
            let answer = act_own(sessions, timers, last, *place, *moment, event, outs, steps);
            (last, answer)
        }
        ShardEvent::Tick(t) => {
            let last = last.max(t.get());
            tick_all(sessions, timers, last, ids, outs, steps);
            (last, Answer::Ticked)
        }
    }
}

/// Whether a session stands at the place that accepts the event.
fn takes_at(sessions: &[Seat], place: u32, event: &Event) -> bool
    ensures { IsTrue result ↔ IsTaken (configs_of sessions.now) place event.now }
{
    match sessions.get(place as usize) {
        Some(seat) => seat.session().takes(event),
        None => false,
    }
}

/// Puts a session in at a place, where there is room for it.
#[tactic(auto, using(crate::proofs::Moves::all_in))]
fn put_in(sessions: &mut Vec<Seat>, place: u32, seat: Seat)
    requires place { place ≤ length sessions.old.items }
    requires room { vec_len sessions.old < vec_capacity sessions.old }
    requires all { AllByRecursion IsSound sessions.old.items }
    requires one { IsSound seat }
    ensures items { sessions.new.items
        ≡ take place sessions.old.items ++ seat ∷ drop place sessions.old.items }
    ensures sound { AllByRecursion IsSound sessions.new.items }
    ensures long { length sessions.new.items ≡ length sessions.old.items + 1 }
{
    match sessions.insert(place as usize, seat) {
        Ok(()) => (),
        Err(_) => unreachable!(),
    }
}

/// Takes the session at a place out.
#[tactic(auto, using(crate::proofs::Moves::all_out))]
fn take_out(sessions: &mut Vec<Seat>, place: u32)
    requires place { place < length sessions.old.items }
    requires all { AllByRecursion IsSound sessions.old.items }
    ensures items { sessions.new.items
        ≡ take place sessions.old.items ++ drop (place + 1) sessions.old.items }
    ensures sound { AllByRecursion IsSound sessions.new.items }
    ensures long { length sessions.new.items + 1 ≡ length sessions.old.items }
{
    drop(sessions.remove(place as usize));
}

impl<W: Timers> Sessions<W> {
    /// Sessions of these configurations, at most 65,536 and each within its ranges: all stand at the start, and the last tick is
    /// 0. Fails only when out of memory.
    pub fn make(alloc: Global, configs: Vec<SessionConfig>) -> Result<Sessions<W>, AllocError>
        requires few { length configs.items ≤ 65536 }
        requires fit { AreFit configs.items }
        ensures sessions { IfOk result (λ group. group.sessions ≡ map started configs.items) }
        ensures last { IfOk result (λ group. group.last ≡ 0) }
    {
        let sessions = sessions_of(alloc, configs)?;
        Sessions::at_start(alloc, sessions)
    }

    /// The sessions of one shard of 1 to 64, `shard` counted from 0, out of the configurations of all sessions, which stay: session k
    /// of the list stands in shard k % shards, at place k / shards. Fails only when out of memory.
    pub fn make_share(
        alloc: Global,
        configs: &[SessionConfig],
        shards: usize,
        shard: usize,
    ) -> Result<Sessions<W>, AllocError>
        requires within { (shard < shards) × (shards ≤ 64) }
        requires few { length configs.now ≤ 65536 }
        requires fit { AreFit configs.now }
        ensures sessions { IfOk result (λ group. group.sessions ≡ map started (share shards shard configs.now)) }
        ensures last { IfOk result (λ group. group.last ≡ 0) }
    {
        let sessions = share_of(alloc, configs, shards, shard)?;
        Sessions::at_start(alloc, sessions)
    }

    // Sessions that stand at the start, with their timers.
    fn at_start(alloc: Global, sessions: Vec<Seat>) -> Result<Sessions<W>, AllocError>
        requires few { length sessions.items ≤ 65536 }
        requires sound { AllByRecursion IsSound sessions.items }
        ensures sessions { IfOk result (λ group. group.sessions ≡ sessions.items) }
        ensures last { IfOk result (λ group. group.last ≡ 0) }
    {
        let timers = timers_of(alloc, &sessions)?;
        let ids = Ids::make(alloc, sessions.len())?;
        Ok(Sessions {
            sessions,
            timers,
            last: 0,
            ids,
        })
    }

    /// One more session, of this configuration, which is within its ranges: it stands at `place`, with the variables of the start, and
    /// those that stood there and after it move up by one. Nothing else changes. Fails only when out of memory, and then nothing
    /// has changed. Takes time linear in the sessions.
    #[tactic(auto, using(crate::proofs::Moves::dues_in))]
    pub fn add(
        &mut self,
        alloc: Global,
        place: u32,
        config: SessionConfig,
    ) -> Result<(), AllocError>
        requires place { place ≤ length self.old.sessions }
        requires few { length self.old.sessions < 65536 }
        requires fit { IsFit config }
        ensures sessions { OnOk result (self.new.sessions
            ≡ take place self.old.sessions ++ started config ∷ drop place self.old.sessions) }
        ensures last { self.new.last ≡ self.old.last }
        ensures same { OnErr result (self.new ≡ self.old) }
    {
        let ids = Ids::make(alloc, self.sessions.len() + 1)?;
        let seat = Seat::make(alloc, config)?;
        self.sessions.reserve(1)?;
        self.timers.insert(alloc, place, seat.session().due())?;
        put_in(&mut self.sessions, place, seat);
        self.ids = ids;
        Ok(())
    }

    /// The session at `place` leaves, and those behind it move down by one. Nothing else changes. Allocates no memory, and takes time
    /// linear in the sessions.
    #[tactic(auto, using(crate::proofs::Moves::dues_out))]
    pub fn remove(&mut self, place: u32)
        requires { place < length self.old.sessions }
        ensures sessions { self.new.sessions
            ≡ take place self.old.sessions ++ drop (place + 1) self.old.sessions }
        ensures last { self.new.last ≡ self.old.last }
    {
        take_out(&mut self.sessions, place);
        self.timers.remove(place);
    }

    /// Whether the event may be applied: a tick always may, and an own event where a session stands at its place that accepts
    /// it.
    pub fn takes(&self, event: &ShardEvent) -> bool
        ensures { IsTrue result ↔ CanHappen (configs_of self.now.sessions) event.now }
    {
        match event {
            ShardEvent::Own { place, event, .. } => takes_at(&self.sessions, *place, event),
            ShardEvent::Tick(_) => true,
        }
    }

    /// One event. An own event is one that the session at its place accepts; and `outs` has room for five outputs, or at a tick
    /// for five of each session.
    ///
    /// An own event changes the session at its place and no other, in at most 2 steps of the timers. A tick is an event of every
    /// session; one below the last tick counts as the last. It forgets of exactly the sessions that a packet was heard whose
    /// Detection Time has expired by it (RFC 5880 section 6.8.4), and leaves nothing that is due. The outputs are appended, at a
    /// tick by ascending place, and the answer is the session's, or `Ticked`. Allocates no memory.
    pub fn apply<L: Ledger>(
        &mut self,
        event: &ShardEvent,
        outs: &mut Outs,
        steps: &mut Steps<L>,
    ) -> Answer
        requires can { CanHappen (configs_of self.old.sessions) event.now }
        requires room { room_for self.old.sessions event.now ≤ outs.old.spare }
        ensures last { self.new.last ≡ later self.old.last event.now }
        ensures early { self.new.last ≤ greatest_tick }
        ensures sessions { self.new.sessions ≡ moved self.old.last event.now self.old.sessions }
        ensures items { outs.new.items ≡ outs.old.items ++ (outcome_of self.old.last event.now self.old.sessions).items }
        ensures answer { result ≡ (outcome_of self.old.last event.now self.old.sessions).answer }
        ensures over { IsOver self.new.last event.now self.new.sessions }
        ensures exact { HasForgotten self.old.last event.now self.old.sessions self.new.sessions }
        ensures sound { AllByRecursion IsSound self.new.sessions }
        ensures spare { outs.old.spare ≤ outs.new.spare + room_for self.old.sessions event.now }
        ensures room { outs.new.room ≡ outs.old.room }
        ensures cost { IsOwn event.now → steps.new ≤ steps.old + 2 }
    {
        tick_laws();
        let (last, answer) = act(
            &mut self.sessions,
            &mut self.timers,
            self.last,
            event,
            &mut self.ids,
            outs,
            steps,
        );
        self.last = last;
        answer
    }

    /// An own event of the session at `place`, as `apply` does it.
    pub fn apply_own<L: Ledger>(
        &mut self,
        place: u32,
        moment: Moment,
        event: &Event,
        outs: &mut Outs,
        steps: &mut Steps<L>,
    ) -> Answer
        requires taken { IsTaken (configs_of self.old.sessions) place event.now }
        requires room { 5 ≤ outs.old.spare }
        ensures last { self.new.last ≡ self.old.last }
        ensures sessions { self.new.sessions ≡ moved self.old.last (Own place moment event.now) self.old.sessions }
        ensures items { outs.new.items
            ≡ outs.old.items ++ (outcome_of self.old.last (Own place moment event.now) self.old.sessions).items }
        ensures answer { result ≡ (outcome_of self.old.last (Own place moment event.now) self.old.sessions).answer }
        ensures sound { AllByRecursion IsSound self.new.sessions }
        ensures spare { outs.old.spare ≤ outs.new.spare + 5 }
        ensures room { outs.new.room ≡ outs.old.room }
        ensures cost { steps.new ≤ steps.old + 2 }
    {
        act_own(
            &mut self.sessions,
            &mut self.timers,
            self.last,
            place,
            moment,
            event,
            outs,
            steps,
        )
    }

    /// The least tick that a session needs next, or None where none needs one. It may lie at or below the last tick; the next tick
    /// then does what is due.
    pub fn due(&self) -> Option<u64>
        ensures { result ≡ least (map due_tick self.now.sessions) }
    {
        self.timers.least()
    }

    /// The sessions, by place.
    pub fn sessions(&self) -> &[Seat]
        ensures value { result.now ≡ self.now.sessions }
        ensures few { length self.now.sessions ≤ 65536 }
        ensures sound { AllByRecursion IsSound self.now.sessions }
    {
        // proof: the read brings the invariant
        let _ = &self.last;
        self.sessions.as_slice()
    }

    /// The last tick: the greatest one so far, or 0.
    pub fn last(&self) -> Tick
        ensures { result ≡ self.now.last }
    {
        Tick::new(self.last).unwrap()
    }
}
