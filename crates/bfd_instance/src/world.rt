//! The events of a world.
ghost use Rattle.std.specs.Prelude.{ℕ, ◌≡◌, ◌<◌, ◌≤◌, ◌+◌, ◌*◌, IfSome, Some, List, [], length, slice_get};
ghost use Rattle.std.specs.Prelude.{false, map, max};
ghost use Rattle.bfd_num.specs.Due.{has_come};
ghost use Rattle.bfd_lanes.specs.Places.{least, places};
ghost use Rattle.bfd_session.specs.Due.{due as due_tick};
ghost use Rattle.bfd_shard.specs.Expired.{forgotten, has_expired};
ghost use Rattle.bfd_shard.specs.Shard.{NoneDue};
ghost use Rattle.bfd_session.specs.declared.event.SessionConfig.{SessionConfig};
ghost use Rattle.bfd_session.specs.Arrivals.{comes_to};
ghost use Rattle.bfd_session.specs.Reaching.{IsNamed, IsTaken};
ghost use Rattle.bfd_session.specs.Kinds.{Running, configs_of};
ghost use Rattle.bfd_session.specs.Rows.{Ascends, table_of, place_of as place_in};
ghost use Rattle.bfd_session.specs.Step.{CanTake};
ghost use Rattle.bfd_sbfd.specs.Reflect as reflecting;
ghost use Rattle.bfd_sbfd.specs.declared.reflecting.Reflector.{Reflector};
ghost use Rattle.bfd_script.specs.Doing.{arriving, asking};
ghost use Rattle.bfd_instance.specs.World.{turned};
ghost use Rattle.bfd_instance.specs.World as world;
ghost use Rattle.bfd_num.specs.Counting.{IsBlankOf};

use bfd_demux::Target;
use bfd_num::{Moment, Steps, Tick};
use bfd_packet::Arrival;
use bfd_rules::{Outs, Refusal};
use bfd_script::line::Line;
use bfd_session::{Answer, Event, Table};
use bfd_shard::{Sessions, ShardEvent};
use bfd_wheel::Timers;
use std::marker::Brand;
use std::sync::ledger::{Blank, Ledger};

/// A tick of the sessions, with a counter of steps of its own.
#[tactic(auto, using(crate::proofs::Worlds::ticks_applied))]
pub fn pass<W: Timers, L: Ledger>(
    sessions: &mut Sessions<W>,
    t: Tick,
    outs: &mut Outs,
    blank: Blank,
) -> Answer
    requires room { 5 * length sessions.old.sessions ≤ outs.old.spare }
    requires empty { outs.old.items ≡ [] }
    requires blank { IsBlankOf L.name L.parts blank.name blank.parts }
    ensures turn { (pool : List Reflector) → turned sessions.new.sessions pool sessions.new.last outs.new.items result
        ≡ world.ticks t (world.world_of sessions.old.sessions pool sessions.old.last) }
    ensures expires { forgotten sessions.old.sessions sessions.new.sessions
        ≡ places (has_expired (max sessions.old.last t)) 0 sessions.old.sessions }
    ensures none_due { NoneDue (max sessions.old.last t) sessions.new.sessions }
    ensures rests { has_come (max sessions.old.last t) (least (map due_tick sessions.old.sessions)) ≡ false
        → (sessions.new.sessions ≡ sessions.old.sessions) × (outs.new.items ≡ []) }
    ensures room { outs.new.room ≡ outs.old.room }
{
    // proof: the read says that each session is sound
    let _ = sessions.sessions();
    sessions.apply(&ShardEvent::Tick(t), outs, &mut Steps::<L>::new(blank))
}

/// An own event of the session at a place, with a counter of steps of its own.
#[tactic(auto, using(crate::proofs::Worlds::own_applied))]
fn own<W: Timers, L: Ledger>(
    sessions: &mut Sessions<W>,
    place: u32,
    moment: Moment,
    event: &Event,
    outs: &mut Outs,
    blank: Blank,
) -> Answer
    requires taken { IsTaken (configs_of sessions.old.sessions) place event.now }
    requires room { 5 ≤ outs.old.spare }
    requires empty { outs.old.items ≡ [] }
    requires blank { IsBlankOf L.name L.parts blank.name blank.parts }
    ensures turn { (pool : List Reflector) → turned sessions.new.sessions pool sessions.new.last outs.new.items result
        ≡ world.own place moment event.now (world.world_of sessions.old.sessions pool sessions.old.last) }
    ensures room { outs.new.room ≡ outs.old.room }
{
    sessions.apply_own(place, moment, event, outs, &mut Steps::<L>::new(blank))
}

/// An arrival for the reflector at this place.
fn answered(table: &Table, place: u32, arrival: &Arrival, outs: &mut Outs) -> Answer
    requires named { IsNamed table.now.pool place arrival.now }
    requires room { 5 ≤ outs.old.spare }
    requires empty { outs.old.items ≡ [] }
    ensures turn { (sessions : List Running) (last : ℕ) → turned sessions table.now.pool last outs.new.items result
        ≡ world.reflected (slice_get table.now.pool place) (reflecting.reflect table.now.pool arrival.now)
        (world.world_of sessions table.now.pool last) }
    ensures room { outs.new.room ≡ outs.old.room }
{
    match table.reflected(place, arrival) {
        Ok(out) => {
            outs.push(out);
            Answer::Handled
        }
        Err(test) => Answer::Dropped(test),
    }
}

/// An arrival, and the place of the session to which it came, if to one.
#[inline(always)]
pub fn arrive<W: Timers>(
    table: &Table,
    sessions: &mut Sessions<W>,
    moment: Moment,
    arrival: Arrival,
    outs: &mut Outs,
) -> (Answer, Option<u32>)
    requires configs { table.now.configs ≡ configs_of sessions.old.sessions }
    requires ascends { Ascends table.now.configs }
    requires room { 5 ≤ outs.old.spare }
    requires empty { outs.old.items ≡ [] }
    ensures turn { turned sessions.new.sessions table.now.pool sessions.new.last outs.new.items result.0
        ≡ world.carried_out (arriving moment arrival (comes_to (table_of table.now.configs table.now.pool) arrival))
        (world.world_of sessions.old.sessions table.now.pool sessions.old.last) }
    ensures reached { result.1
        ≡ world.reached (arriving moment arrival (comes_to (table_of table.now.configs table.now.pool) arrival)) }
    ensures within { IfSome result.1 (λ place. place < length sessions.old.sessions) }
    ensures room { outs.new.room ≡ outs.old.room }
{
    match table.screen_uncounted(&arrival) {
        Ok(Target::Session(place)) => {
            let packet = Event::Packet(arrival);
            let answer = own::<W, Brand>(sessions, place, moment, &packet, outs, Blank::new(1));
            (answer, Some(place))
        }
        Ok(Target::Echo(place, sequence)) => {
            let returned = Event::Returned(sequence);
            let answer = own::<W, Brand>(sessions, place, moment, &returned, outs, Blank::new(1));
            (answer, Some(place))
        }
        Ok(Target::Reflector(place)) => (answered(table, place, &arrival, outs), None),
        Err(test) => (Answer::Dropped(test), None),
    }
}

/// A command or a question to the session with this discriminator, and its place, if there is one.
fn ask<W: Timers>(
    table: &Table,
    sessions: &mut Sessions<W>,
    moment: Moment,
    discr: u32,
    event: Event,
    outs: &mut Outs,
) -> (Answer, Option<u32>)
    requires free { (config : SessionConfig) → CanTake config event }
    requires configs { table.now.configs ≡ configs_of sessions.old.sessions }
    requires room { 5 ≤ outs.old.spare }
    requires empty { outs.old.items ≡ [] }
    ensures turn { turned sessions.new.sessions table.now.pool sessions.new.last outs.new.items result.0
        ≡ world.carried_out (asking moment event (place_in discr table.now.configs))
        (world.world_of sessions.old.sessions table.now.pool sessions.old.last) }
    ensures reached { result.1 ≡ world.reached (asking moment event (place_in discr table.now.configs)) }
    ensures within { IfSome result.1 (λ place. place < length sessions.old.sessions) }
    ensures room { outs.new.room ≡ outs.old.room }
{
    match table.place_of(discr) {
        Some(place) => {
            let answer = own::<W, Brand>(sessions, place, moment, &event, outs, Blank::new(1));
            (answer, Some(place))
        }
        None => (Answer::Refused(Refusal::UnknownSession), None),
    }
}

/// One line of a script, and the place of the session to which it came; none where it came to no session, to a reflector, or as a tick
/// to all.
pub fn happen<W: Timers>(
    table: &Table,
    sessions: &mut Sessions<W>,
    line: Line,
    outs: &mut Outs,
) -> (Answer, Option<u32>)
    requires configs { table.now.configs ≡ configs_of sessions.old.sessions }
    requires ascends { Ascends table.now.configs }
    requires room { 5 * length sessions.old.sessions + 5 ≤ outs.old.spare }
    requires empty { outs.old.items ≡ [] }
    ensures turn { turned sessions.new.sessions table.now.pool sessions.new.last outs.new.items result.0
        ≡ world.happens line (world.world_of sessions.old.sessions table.now.pool sessions.old.last) }
    ensures reached { result.1 ≡ world.place_reached line (world.world_of sessions.old.sessions table.now.pool sessions.old.last) }
    ensures within { IfSome result.1 (λ place. place < length sessions.old.sessions) }
    ensures room { outs.new.room ≡ outs.old.room }
{
    match line {
        Line::Rx { moment, arrival } => arrive(table, sessions, moment, arrival, outs),
        Line::Tick(t) => {
            let answer = pass::<W, Brand>(sessions, t, outs, Blank::new(1));
            (answer, None)
        }
        Line::Cmd { moment, discr, cmd } => {
            ask(table, sessions, moment, discr, Event::Command(cmd), outs)
        }
        Line::Show { moment, discr } => ask(table, sessions, moment, discr, Event::Show, outs),
    }
}
