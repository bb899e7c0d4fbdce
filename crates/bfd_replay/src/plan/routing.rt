//! What each line of a script is to the sessions.
ghost use Rattle.std.specs.Prelude.{◌≡◌, List};
ghost use Rattle.bfd_session.specs.Rows.{place_of as place_in};
ghost use Rattle.bfd_session.specs.Step.{CanTake};
ghost use Rattle.bfd_session.specs.declared.event.SessionConfig.{SessionConfig};
ghost use Rattle.bfd_sbfd.specs.declared.reflecting.Reflector.{Reflector as ReflectorIn};
ghost use Rattle.bfd_script.specs.Doing.{asking};
ghost use Rattle.bfd_script.specs.declared.line.entries.Line.TheVariants.{Rx};
ghost use Rattle.bfd_replay.specs.Planned.{route_is, happening, happening_by, IsMet};

use bfd_demux::Target;
use bfd_num::Moment;
use bfd_packet::Arrival;
use bfd_rules::{Out, Refusal};
use bfd_script::line::Line;
use bfd_session::{Answer, Event, Table};
use bfd_shard::ShardEvent;

/// What a line is to the sessions.
#[derive(Drop)]
pub enum Route {
    /// An event that matches no session, with this answer.
    Rests(Answer),
    /// A packet for a reflector, which sends this answer.
    Answers(Out),
    /// An event of the table's sessions, by place of the table.
    Happens(ShardEvent),
}

/// What an arrival is.
fn arrived(table: &Table, moment: Moment, arrival: Arrival) -> Route
    ensures route { route_is result ≡ happening table.now.configs table.now.pool (Rx moment arrival) }
    ensures met { IsMet table.now.configs (route_is result) }
{
    match table.screen_uncounted(&arrival) {
        Ok(Target::Session(place)) => Route::Happens(ShardEvent::Own {
            place,
            moment,
            event: Event::Packet(arrival),
        }),
        Ok(Target::Echo(place, sequence)) => Route::Happens(ShardEvent::Own {
            place,
            moment,
            event: Event::Returned(sequence),
        }),
        Ok(Target::Reflector(place)) => match table.reflected(place, &arrival) {
            Ok(out) => Route::Answers(out),
            Err(test) => Route::Rests(Answer::Dropped(test)),
        },
        Err(test) => Route::Rests(Answer::Dropped(test)),
    }
}

/// What a command or a question to the session with this discriminator is.
fn asked(table: &Table, moment: Moment, discr: u32, event: Event) -> Route
    requires free { (config : SessionConfig) → CanTake config event }
    ensures route { (pool : List ReflectorIn)
        → route_is result ≡ happening_by pool (asking moment event (place_in discr table.now.configs)) }
    ensures met { IsMet table.now.configs (route_is result) }
{
    match table.place_of(discr) {
        Some(place) => Route::Happens(ShardEvent::Own {
            place,
            moment,
            event,
        }),
        None => Route::Rests(Answer::Refused(Refusal::UnknownSession)),
    }
}

/// What a line of a script is to the sessions and reflectors of this table: an event that matches no session, or one of theirs, which they
/// may be given.
pub fn route_of(table: &Table, line: Line) -> Route
    ensures route { route_is result ≡ happening table.now.configs table.now.pool line }
    ensures met { IsMet table.now.configs (route_is result) }
{
    match line {
        Line::Rx { moment, arrival } => arrived(table, moment, arrival),
        Line::Tick(t) => Route::Happens(ShardEvent::Tick(t)),
        Line::Cmd { moment, discr, cmd } => asked(table, moment, discr, Event::Command(cmd)),
        Line::Show { moment, discr } => asked(table, moment, discr, Event::Show),
    }
}
