//! The lock and its calls.
ghost use Rattle.std.specs.Prelude.{◌≡◌, ◌≢◌, ℕ, ◌*◌, ◌^◌, ◌<◌, ◌≤◌, false, [], ◌∷◌, IfOk, MatchResult};
ghost use Rattle.bfd_turn.specs.Lists.{Begins, calls, has};
ghost use Rattle.bfd_turn.specs.Views.{known};
ghost use Rattle.bfd_turn.specs.declared.view.Role.TheVariants.{Holding};
ghost use Rattle.bfd_turn.specs.Plays.{AllKept};
ghost use Rattle.bfd_turn.specs.Passes.{opened_pass, having_made, made_by, having_joined, having_done, IsLent, Grows, IsNew, AllJoined};
ghost use Rattle.bfd_turn.specs.Refusals.{IsRefused, IsUsedUp};

use crate::board::{Board, Opening, Place};
use crate::fault::{Spent, TryFault};
use crate::pass::Pass;
use crate::plays::{Check, Cut, Glue, Look, Numbered, Release, Take};
use crate::recorded::Recorded;
use crate::turn::Turn;
use atomic_table::Badge;
use std::alloc::{AllocError, Global};
use std::marker::{Brand, Model};
use std::snapshot::Snapshot;
use std::sync::Wait;
use std::{mem, thread};

// The last even word.
const LAST: u64 = 18446744073709551614;

/// A lock round one value, whose turns add to one history of notes. Clauses see it as its identity alone.
#[derive(Drop)]
pub struct TurnLock<V: Recorded> {
    table: Board<V>,
}

impl<V: Recorded> Model for TurnLock<V> {
    ghost use Rattle.std.specs.Prelude.{◌≡◌};
    ghost use Rattle.atomic_table.specs.Seated.{TableId};

    ghost Value = { TableId };

    ghost view = { λ l. l.table.shared.table_id };

    ghost invariant = { λ l. (l.table.shared.table_id.words ≡ 1) × (l.table.shared.table_id.slots ≡ 1) };
}

impl<V: Recorded> TurnLock<V> {
    /// A lock round a value with no notes, and the pass of caller 0. The word begins as after `turns` turns, mostly 0; a lock has 2^63 - 1
    /// in all.
    pub fn new(
        alloc: Global,
        value: V,
        turns: u64,
    ) -> Result<(TurnLock<V>, Pass<V::Note, V::Base>), AllocError>
    where
        V: Drop,
        requires turns { turns < 2 ^ 63 }
        requires fresh { V.noted value ≡ [] }
        ensures { IfOk result (λ r. r.1 ≡ (r.0, opened_pass (V.base value) turns)) }
    {
        let about = Opening {
            value: Snapshot::of(&value),
            turns,
        };
        let mut slots = Vec::new(alloc);
        slots.push(Some(value))?;
        match Board::<V>::new(alloc, &[2 * turns], slots, &about) {
            Ok((table, seat)) => Ok((TurnLock { table }, Pass::of(seat, 0))),
            Err(_) => Err(AllocError),
        }
    }

    /// A pass with a new number, made by caller 0. It has seen what caller 0 has seen, where no note names the number. A pass allocates
    /// no memory.
    pub fn split(&self, first: &mut Pass<V::Note, V::Base>, number: u32) -> Pass<V::Note, V::Base>
        requires first { (first.old.0 ≡ self.now) × (first.old.1.number ≡ 0) }
        requires number { (0 < number) × IsNew number first.old.1 }
        ensures first { first.new ≡ (self.now, having_made number first.old.1) }
        ensures other { result ≡ (self.now, made_by number first.old.1) }
        ensures fresh { calls V.caller number first.old.1.seen ≡ [] }
    {
        self.split_as::<Brand>(first, number)
    }

    fn split_as<J: Numbered>(
        &self,
        first: &mut Pass<V::Note, V::Base>,
        number: u32,
    ) -> Pass<V::Note, V::Base>
        requires first { (first.old.0 ≡ self.now) × (first.old.1.number ≡ 0) }
        requires number { (0 < number) × IsNew number first.old.1 }
        requires picked { number ≡ J.number }
        ensures first { first.new ≡ (self.now, having_made number first.old.1) }
        ensures other { result ≡ (self.now, made_by number first.old.1) }
        ensures fresh { calls V.caller number first.old.1.seen ≡ [] }
    {
        let mut seat = mem::replace(&mut first.badge, Badge::blank()).into_seat();
        let shared = &self.table.shared;
        let mut other = shared.split_seat::<Cut<J>>(&mut seat);
        shared.load::<Check<V>>(&mut other, 0);
        first.badge = seat.into_badge();
        Pass::of(other, number)
    }

    /// Caller 0 joins another pass to its own. It has then seen the longer of the two lists, of which the other is a beginning, and keeps
    /// the number and its calls. Its own calls stay the same, and no later note names the number.
    pub fn join(&self, first: &mut Pass<V::Note, V::Base>, other: Pass<V::Note, V::Base>)
        requires first { (first.old.0 ≡ self.now) × (first.old.1.number ≡ 0) }
        requires other { (other.0 ≡ self.now) × (other.1.number ≢ 0) }
        ensures first { first.new ≡ (self.now, having_joined V.caller first.new.1.word first.old.1 other.1) }
        ensures word { (first.old.1.word ≤ first.new.1.word) × (other.1.word ≤ first.new.1.word) }
        ensures prefix { Begins first.old.1.seen first.new.1.seen × Begins other.1.seen first.new.1.seen }
        ensures mine { calls V.caller 0 first.new.1.seen ≡ calls V.caller 0 first.old.1.seen }
    {
        let mut seat = mem::replace(&mut first.badge, Badge::blank()).into_seat();
        let (other, _) = other.into_seat();
        let shared = &self.table.shared;
        shared.join_seat::<Glue<V>>(&mut seat, other);
        shared.load::<Look<V>>(&mut seat, 0);
        first.badge = seat.into_badge();
    }

    /// One try at a turn, by one load and at most one exchange. It doesn't wait.
    ///
    /// Busy comes only where the word read is odd or the exchange finds another word, and Spent only where the word read is 2^64 - 2.
    /// Either way the pass comes back with the word read as that of its one more load and the last word met, and all else as it was.
    pub fn try_turn(
        &self,
        pass: Pass<V::Note, V::Base>,
    ) -> Result<Turn<V>, TryFault<V::Note, V::Base>>
        requires { pass.0 ≡ self.now }
        ensures { MatchResult result (λ t. (t.0 ≡ self.now) × IsLent V.noted V.caller V.base pass.1 t.1 t.2)
            (IsRefused self.now pass.1) }
    {
        let (mut seat, number) = pass.into_seat();
        let shared = &self.table.shared;
        let read = shared.load::<Look<V>>(&mut seat, 0);
        if read == LAST {
            return Err(TryFault::Spent {
                pass: Pass::of(seat, number),
                word: read,
            });
        }
        if read % 2 == 1 {
            return Err(TryFault::Busy {
                pass: Pass::of(seat, number),
                read,
                found: read,
            });
        }
        let found = shared.compare_exchange::<Take<V>>(&mut seat, 0, read, read + 1);
        if found != read {
            return Err(TryFault::Busy {
                pass: Pass::of(seat, number),
                read,
                found,
            });
        }
        Ok(self.lend(seat, number))
    }

    // The value, out of the slot that the seat has taken.
    fn lend(&self, mut seat: Place<V>, number: u32) -> Turn<V>
        requires seat { (seat.table_id ≡ self.now) × (seat.me.0.role ≡ Holding) × (number ≡ seat.me.0.number) }
        requires slot { (x : V) × (seat.me.1 ≡ (0, Some x) ∷ []) }
        ensures turn { (result.0 ≡ self.now) × (result.1 ≡ known seat.me.0) }
        ensures value { seat.me.1 ≡ (0, Some result.2) ∷ [] }
    {
        let lent = self.table.shared.exchange(&mut seat, 0, None);
        let Some(value) = lent else { unreachable!() };
        Turn {
            seat,
            number,
            value,
        }
    }

    /// A turn, tried again until its exchange wins. It may wait. Spent comes only where the word read is 2^64 - 2.
    pub fn turn<R: Wait>(
        &self,
        rt: &R,
        mut pass: Pass<V::Note, V::Base>,
    ) -> Result<Turn<V>, Spent<V::Note, V::Base>>
        requires { pass.0 ≡ self.now }
        ensures { MatchResult result (λ t. (t.0 ≡ self.now) × IsLent V.noted V.caller V.base pass.1 t.1 t.2)
            (IsUsedUp self.now pass.1) }
    {
        for _ in rt.forever() {
            match self.try_turn(pass) {
                Ok(turn) => return Ok(turn),
                Err(TryFault::Spent { pass, word }) => return Err(Spent { pass, word }),
                Err(TryFault::Busy { pass: back, .. }) => pass = back,
            }
            thread::yield_now();
        }
        unreachable!()
    }

    /// Gives the turn back, with a value that has got at most one note since, which names this caller. The pass has then seen all notes of
    /// the value.
    pub fn done(&self, turn: Turn<V>) -> Pass<V::Note, V::Base>
        requires turn { turn.0 ≡ self.now }
        requires grows { Grows V.noted V.caller turn.1 turn.2 }
        requires base { Some (V.base turn.2) ≡ turn.1.base }
        ensures { result ≡ (self.now, having_done (V.noted turn.2) turn.1) }
    {
        let Turn {
            mut seat,
            number,
            value,
        } = turn;
        let shared = &self.table.shared;
        let empty = shared.exchange(&mut seat, 0, Some(value));
        let None = empty else { unreachable!() };
        shared.fetch_add::<Release<V>>(&mut seat, 0, 1);
        Pass::of(seat, number)
    }

    /// The value, whose notes are the lock's one history, once every other pass was joined (`AllJoined`).
    /// Each joined pass has the calls there that are kept of it, and a number that was never made has none.
    pub fn close(self, pass: Pass<V::Note, V::Base>) -> V
        requires pass { (pass.0 ≡ self) × (pass.1.number ≡ 0) }
        requires joined { AllJoined pass.1 }
        ensures notes { V.noted result ≡ pass.1.seen }
        ensures base { Some (V.base result) ≡ pass.1.base }
        ensures word { pass.1.word ≤ 2 * pass.1.taken }
        ensures kept { AllKept V.caller pass.1.joined (V.noted result) }
        ensures unmade { (n : ℕ) → n ≢ 0 → has n pass.1.made ≡ false → calls V.caller n (V.noted result) ≡ [] }
    {
        let TurnLock { table } = self;
        let (seat, _) = pass.into_seat();
        let mut closed = table.close_with(seat);
        let slot = closed.take(0);
        closed.free();
        let Some(value) = slot else { unreachable!() };
        value
    }
}
