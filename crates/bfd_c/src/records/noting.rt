//! What an event adds to the records.
ghost use Rattle.std.specs.Prelude.{◌≡◌, ◌<◌, IfSome, Some, length, true};
ghost use Rattle.bfd_session.specs.Kinds.{configs_of};
ghost use Rattle.bfd_session.specs.Rows.{Ascends, place_of as place_in};
ghost use Rattle.bfd_c.specs.Records as keeping;

use crate::records::boxed::BoxedRecord;
use crate::records::kept::Came;
use bfd_instance::Instance;
use bfd_rules::Out;
use bfd_session::Answer;
use bfd_shard::Seat;
use bfd_wheel::Timers;

/// The moment of an event of the session at a place, after it.
fn moment_at<W: Timers>(instance: &Instance<W>, place: u32) -> u64
    ensures { result ≡ keeping.moment_at instance.now.world place }
{
    let tick = 1000 * instance.last().get();
    match instance.sessions().get(place as usize) {
        Some(seat) => tick.max(seat.session().vars().at),
        None => tick,
    }
}

/// What came to the session at a place had this answer.
pub(crate) fn note_came<W: Timers>(
    instance: &Instance<W>,
    place: Option<u32>,
    came: Came,
    answer: &Answer,
    records: &mut Vec<BoxedRecord>,
)
    requires { IfSome place (λ place. place < length records.old.items) }
    ensures { records.new.items ≡ keeping.changed_at place (keeping.answered_with came answer.now) instance.now.world records.old.items }
{
    let Some(place) = place else {
        return;
    };
    let moment = moment_at(instance, place);
    records[place as usize].note_answer(came, answer, moment);
}

/// Whose an output is.
fn giver(out: &Out) -> u32
    ensures { result ≡ keeping.giver out.now }
{
    match out {
        Out::Changed { discr, .. } | Out::Sent { discr, .. } => *discr,
    }
}

/// The session at a place gave an output.
fn note_given<W: Timers>(
    instance: &Instance<W>,
    place: Option<u32>,
    out: &Out,
    records: &mut Vec<BoxedRecord>,
)
    requires { IfSome place (λ place. place < length records.old.items) }
    ensures { records.new.items ≡ keeping.changed_at place (keeping.gave out.now) instance.now.world records.old.items }
{
    let Some(place) = place else {
        return;
    };
    match out {
        Out::Sent { .. } => records[place as usize].note_sent(),
        Out::Changed { new, .. } => {
            let moment = moment_at(instance, place);
            records[place as usize].note_change(*new, moment);
        }
    }
}

/// Whether the session at a place has this discriminator.
fn stands_at(sessions: &[Seat], place: u32, discr: u32) -> bool
    requires { Ascends (configs_of sessions.now) }
    ensures found { result ≡ true → place_in discr (configs_of sessions.now) ≡ Some place }
    ensures within { result ≡ true → place < length sessions.now }
{
    match sessions.get(place as usize) {
        Some(seat) => seat.session().discr() == discr,
        None => false,
    }
}

/// The place of the session with this discriminator, if there is one. Outputs ascend by discriminator, so it mostly is the place behind
/// that of the output before, or that place.
fn place_near<W: Timers>(instance: &Instance<W>, near: u32, discr: u32) -> Option<u32>
    ensures value { result ≡ place_in discr (configs_of instance.now.world.sessions) }
    ensures within { IfSome result (λ place. place < length instance.now.world.sessions) }
{
    let sessions = instance.sessions();
    let next = near.saturating_add(1);
    if stands_at(sessions, next, discr) {
        return Some(next);
    }
    if stands_at(sessions, near, discr) {
        return Some(near);
    }
    instance.place_of(discr)
}

/// Each output of the last event is recorded for the session that it names. The first is looked for at the place `near`.
pub(crate) fn note_all<W: Timers>(instance: &Instance<W>, near: u32, records: &mut Vec<BoxedRecord>)
    requires { length records.old.items ≡ length instance.now.world.sessions }
    ensures { records.new.items ≡ keeping.all_given instance.now.world records.old.items instance.now.items }
{
    let outs = instance.items();
    let mut near = near;
    for at in 0..outs.len() {
        let out = &outs[at];
        let place = place_near(instance, near, giver(out));
        note_given(instance, place, out, records);
        near = place.unwrap_or(near);
    }
}
