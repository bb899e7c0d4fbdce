//! Two sides, and all that has happened to them.
ghost use Rattle.std.specs.Prelude.{◌≡◌, ◌<◌, ◌≤◌, ◌+◌, ◌++◌, ◌∷◌, [], true, false, max, vec_len, vec_capacity, IfOk, OnOk, OnErr, Err};
ghost use Rattle.bfd_num.specs.Numbers.{greatest_tick};
ghost use Rattle.bfd_session.specs.declared.event.SessionConfig.TheVariants.{PointToPoint};
ghost use Rattle.bfd_session.specs.Alone as alone;
ghost use Rattle.bfd_session.specs.Step.{IsFit};
ghost use Rattle.bfd_pair.specs.declared.event.Side.{Side};
ghost use Rattle.bfd_pair.specs.Events as events;
ghost use Rattle.bfd_pair.specs.Run.{Both, PairTurn, side_of, items_of, pair_run, turn};
ghost use Rattle.bfd_pair.specs.Run as run;
ghost use Rattle.bfd_pair.specs.Handshake.{IsHandshake, reports_up, is_up_after};
ghost use Rattle.bfd_pair.specs.Inside.{seen, both_of, IsPeer};

use crate::peer::{Peer, give, open, own_move, tick};
use crate::{PairAnswer, PairEvent, PairFault, Side};
use bfd_num::Moment;
use bfd_packet::Wire;
use bfd_rules::{Cmd, Config, Outs};
use bfd_session::{Answer, Event, Session};
use std::alloc::{AllocError, Global};
use std::marker::Model;

/// Two point-to-point sessions that are peers, every packet that each has sent, and the events so far.
#[derive(Drop)]
pub struct Pair {
    left: Peer,
    right: Peer,
    last: u64,
    past: Vec<PairEvent>,
    alloc: Global,
}

impl Model for Pair {
    ghost use Rattle.bfd_pair.specs.Inside.{Pairing, pairing_of, IsPair};

    ghost Value = { Pairing };

    ghost view = { λ p. pairing_of p.left p.right p.past.items };

    ghost invariant = { λ p. IsPair p.left p.right p.last p.past.items };
}

/// Whether these are two ends of one path.
fn are_peers(left: &Config, right: &Config) -> bool
    ensures { result ≡ events.are_peers left.now right.now }
{
    left.role == right.role && left.local == right.remote && right.local == left.remote
}

/// A tick of both, Left first.
fn tick_both(left: &mut Peer, right: &mut Peer, last: u64, outs: &mut Outs)
    requires left { IsPeer left.old }
    requires right { IsPeer right.old }
    requires last { last ≤ greatest_tick }
    requires room { 10 ≤ outs.old.spare }
    requires more_left { vec_len left.old.sent + 5 ≤ vec_capacity left.old.sent }
    requires more_right { vec_len right.old.sent + 5 ≤ vec_capacity right.old.sent }
    ensures left { IsPeer left.new }
    ensures right { IsPeer right.new }
    ensures seen_left { seen left.new ≡ run.ticking last (seen left.old) }
    ensures seen_right { seen right.new ≡ run.ticking last (seen right.old) }
    ensures outs { outs.new.items
        ≡ outs.old.items ++ (alone.tick_items last left.old.session ++ alone.tick_items last right.old.session) }
    ensures spare { outs.old.spare ≤ outs.new.spare + 10 }
    ensures room { outs.new.room ≡ outs.old.room }
{
    tick(left, last, outs);
    tick(right, last, outs);
}

/// A command to a side.
fn order(peer: &mut Peer, last: u64, moment: Moment, cmd: Cmd, outs: &mut Outs) -> PairAnswer
    requires peer { IsPeer peer.old }
    requires last { last ≤ greatest_tick }
    requires room { 5 ≤ outs.old.spare }
    requires more { vec_len peer.old.sent + 5 ≤ vec_capacity peer.old.sent }
    ensures peer { IsPeer peer.new }
    ensures seen { seen peer.new ≡ (run.own_move moment last (Event.Command cmd) (seen peer.old)).end }
    ensures outs { outs.new.items
        ≡ outs.old.items ++ (run.own_move moment last (Event.Command cmd) (seen peer.old)).items }
    ensures answer { result ≡ (run.own_move moment last (Event.Command cmd) (seen peer.old)).answer }
    ensures spare { outs.old.spare ≤ outs.new.spare + 5 }
    ensures room { outs.new.room ≡ outs.old.room }
{
    PairAnswer::Did(own_move(peer, last, moment.get(), &Event::Command(cmd), outs))
}

/// One event. Answers the greatest tick so far besides. When out of memory it fails, and all is as before.
fn happen(
    left: &mut Peer,
    right: &mut Peer,
    last: u64,
    alloc: Global,
    event: &PairEvent,
    outs: &mut Outs,
) -> Result<(u64, PairAnswer), AllocError>
    requires left { IsPeer left.old }
    requires right { IsPeer right.old }
    requires last { last ≤ greatest_tick }
    requires room { 10 ≤ outs.old.spare }
    requires more_left { vec_len left.old.sent + 5 ≤ vec_capacity left.old.sent }
    requires more_right { vec_len right.old.sent + 5 ≤ vec_capacity right.old.sent }
    ensures left { IsPeer left.new }
    ensures right { IsPeer right.new }
    ensures last { IfOk result (λ r. r.0 ≤ greatest_tick) }
    ensures both { IfOk result (λ r. both_of left.new right.new r.0
        ≡ (turn event.now (both_of left.old right.old last)).both) }
    ensures answer { IfOk result (λ r. r.1 ≡ (turn event.now (both_of left.old right.old last)).answer) }
    ensures outs { OnOk result (outs.new.items ≡ outs.old.items
        ++ ((turn event.now (both_of left.old right.old last)).left_items
        ++ (turn event.now (both_of left.old right.old last)).right_items)) }
    ensures same_left { OnErr result (left.new ≡ left.old) }
    ensures same_right { OnErr result (right.new ≡ right.old) }
    ensures same_outs { OnErr result (outs.new ≡ outs.old) }
    ensures spare { outs.old.spare ≤ outs.new.spare + 10 }
    ensures room { outs.new.room ≡ outs.old.room }
{
    match event {
        PairEvent::Tick(t) => {
            let now = last.max(t.get());
            tick_both(left, right, now, outs);
            Ok((now, PairAnswer::Did(Answer::Ticked)))
        }
        PairEvent::Give {
            to: Side::Left,
            moment,
            number,
        } => {
            let answer = give(left, &right.sent, alloc, last, moment.get(), *number, outs)?;
            Ok((last, answer))
        }
        PairEvent::Give {
            to: Side::Right,
            moment,
            number,
        } => {
            let answer = give(right, &left.sent, alloc, last, moment.get(), *number, outs)?;
            Ok((last, answer))
        }
        PairEvent::Order {
            side: Side::Left,
            moment,
            cmd,
        } => Ok((last, order(left, last, *moment, *cmd, outs))),
        PairEvent::Order {
            side: Side::Right,
            moment,
            cmd,
        } => Ok((last, order(right, last, *moment, *cmd, outs))),
    }
}

impl Pair {
    /// Two sessions at the start, which know nothing of each other. NotPeers comes if and only if the roles differ or the local address of
    /// one isn't the remote address of the other, and is tested first; otherwise it fails only when out of memory. The configurations are
    /// within their ranges.
    pub fn make(alloc: Global, left: Config, right: Config) -> Result<Pair, PairFault>
        requires left { IsFit (PointToPoint left) }
        requires right { IsFit (PointToPoint right) }
        ensures made { IfOk result (λ pair. pair ≡ record { left = PointToPoint left; right = PointToPoint right; past = [] }) }
        ensures peers { OnOk result (events.are_peers left right ≡ true) }
        ensures not_peers { events.are_peers left right ≡ false → result ≡ Err PairFault.NotPeers }
        ensures memory { events.are_peers left right ≡ true → OnErr result (result ≡ Err PairFault.Memory) }
    {
        if !are_peers(&left, &right) {
            return Err(PairFault::NotPeers);
        }
        let Ok(left) = open(alloc, left) else {
            return Err(PairFault::Memory);
        };
        let Ok(right) = open(alloc, right) else {
            return Err(PairFault::Memory);
        };
        Ok(Pair {
            left,
            right,
            last: 0,
            past: Vec::new(alloc),
            alloc,
        })
    }

    /// One event. It answers NoPacket with the count if and only if a Give names no packet of the other side, and then only the list of
    /// past events grows. It adds at most ten outputs, Left's first. Room is made first; when out of memory it fails, and all is as before.
    pub fn step(&mut self, event: PairEvent, outs: &mut Outs) -> Result<PairAnswer, AllocError>
        requires room { 10 ≤ outs.old.spare }
        ensures past { OnOk result (self.new ≡ record self.old { past = self.old.past ++ event ∷ [] }) }
        ensures answer { IfOk result (λ a. a
            ≡ (turn event (pair_run self.old.left self.old.right self.old.past)).answer) }
        ensures outs { let t : PairTurn = turn event (pair_run self.old.left self.old.right self.old.past) in
            OnOk result (outs.new.items ≡ outs.old.items ++ (t.left_items ++ t.right_items)) }
        ensures same { OnErr result (self.new ≡ self.old) }
        ensures same_outs { OnErr result (outs.new ≡ outs.old) }
        ensures spare { outs.old.spare ≤ outs.new.spare + 10 }
        ensures room { outs.new.room ≡ outs.old.room }
        ensures handshake { OnOk result ((side : Side)
            → reports_up (items_of side (turn event (pair_run self.old.left self.old.right self.old.past))) ≡ true
            → IsHandshake self.old.left self.old.right side event self.old.past) }
        ensures rises { OnOk result ((side : Side) → is_up_after self.old.left self.old.right side self.old.past ≡ false
            → is_up_after self.new.left self.new.right side self.new.past ≡ true
            → IsHandshake self.old.left self.old.right side event self.old.past) }
    {
        self.past.reserve(1)?;
        self.left.sent.reserve(5)?;
        self.right.sent.reserve(5)?;
        let (last, answer) = happen(
            &mut self.left,
            &mut self.right,
            self.last,
            self.alloc,
            &event,
            outs,
        )?;
        self.last = last;
        self.past.push_reserved(event);
        Ok(answer)
    }

    /// The session of a side.
    pub fn session(&self, side: Side) -> &Session
        ensures { result.now ≡ (side_of side (pair_run self.now.left self.now.right self.now.past)).session }
    {
        match side {
            Side::Left => &self.left.session,
            Side::Right => &self.right.session,
        }
    }

    /// The packets that a side has sent, the first being number 1.
    pub fn sent(&self, side: Side) -> &[Wire]
        ensures { result.now ≡ (side_of side (pair_run self.now.left self.now.right self.now.past)).sent }
    {
        match side {
            Side::Left => &self.left.sent,
            Side::Right => &self.right.sent,
        }
    }

    /// The events so far.
    pub fn past(&self) -> &[PairEvent]
        ensures { result.now ≡ self.now.past }
    {
        &self.past
    }
}
