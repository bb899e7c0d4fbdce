//! The events of a point-to-point session with its Echo function.
ghost use Rattle.std.specs.Prelude.{◌≡◌, ◌<◌, ◌≤◌, ◌+◌, ◌*◌, ◌++◌, ℕ, List, None, Some, true, false, IfSome};
ghost use Rattle.bfd_num.specs.Numbers.{moment_bound};
ghost use Rattle.bfd_num.specs.Due.{has_come};
ghost use Rattle.bfd_rules.specs.declared.outputs.Out.{Out};
ghost use Rattle.bfd_rules.specs.EventFrame.{course, begins, announces};
ghost use Rattle.bfd_rules.specs.Sound.{IsSound as IsVarsSound};
ghost use Rattle.bfd_p2p.specs.Over.{IsBegun, IsOver, IsSettled};
ghost use Rattle.bfd_echo.specs.Rules.{HasMoments};
ghost use Rattle.bfd_session.specs.declared.event.SessionConfig.TheVariants.{PointToPoint};
ghost use Rattle.bfd_session.specs.declared.event.Answer.TheVariants.{Handled};
ghost use Rattle.bfd_session.specs.Due as due;
ghost use Rattle.bfd_session.specs.Echoing.{IsEchoOver};
ghost use Rattle.bfd_session.specs.Inside.{point_of};
ghost use Rattle.bfd_session.specs.Kinds.{flow};
ghost use Rattle.bfd_session.specs.Step as session;
ghost use Rattle.bfd_session.specs.Step.{CanTake, HasSize, IsPointSound};

use crate::answering::{to_command, to_packet, to_return};
use crate::echoing::{echo_due, settles_echo, takes_back, turns_echo};
use crate::showing::{shows, tick_of};
use crate::{Answer, Event};
use bfd_echo::Echo;
use bfd_num::sooner;
use bfd_p2p::P2p;
use bfd_rules::{Mark, Outs, adv_tx, deadline, detection_time, seq_deadline};

/// What has come due by the limit.
fn settles(
    p: &mut P2p,
    echo: &mut Option<Echo>,
    limit: u64,
    eff: u64,
    mark: &mut Mark,
    outs: &mut Outs,
)
    requires eff { eff < moment_bound }
    requires moments { IfSome echo.old HasMoments }
    requires room { 3 ≤ outs.old.spare }
    ensures config { p.new.config ≡ p.old.config }
    ensures flow { (next : ℕ) → flow (course p.new.vars mark.new outs.new.items) echo.new next
        ≡ session.settled (PointToPoint p.old.config)
        limit eff (flow (course p.old.vars mark.old outs.old.items) echo.old next) }
    ensures settled { IsBegun p.old.config limit eff mark.old p.old.vars
        → IsSettled p.old.config.active limit eff mark.new p.new.vars }
    ensures over { limit ≤ eff → IsEchoOver limit p.new.config p.new.vars echo.new }
    ensures moments { IfSome echo.new HasMoments }
    ensures spare { outs.old.spare ≤ outs.new.spare + 3 }
    ensures room { outs.new.room ≡ outs.old.room }
{
    p.settle(limit, eff, mark, outs);
    settles_echo(p, echo, limit, eff, mark, outs);
}

/// The event's own rules, after settling.
fn acts(
    p: &mut P2p,
    echo: &mut Option<Echo>,
    eff: u64,
    event: &Event,
    mark: &mut Mark,
    outs: &mut Outs,
) -> Answer
    requires eff { eff < moment_bound }
    requires takes { CanTake (PointToPoint p.old.config) event.now }
    requires moments { IfSome echo.old HasMoments }
    requires room { 2 ≤ outs.old.spare }
    ensures config { p.new.config ≡ p.old.config }
    ensures flow { (next : ℕ) → flow (course p.new.vars mark.new outs.new.items) echo.new next
        ≡ session.acted (PointToPoint p.old.config)
        eff event.now (flow (course p.old.vars mark.old outs.old.items) echo.old next) }
    ensures answer { (next : ℕ) → result
        ≡ session.answer_of (PointToPoint p.old.config)
        event.now (flow (course p.old.vars mark.old outs.old.items) echo.old next) }
    ensures size { HasSize (PointToPoint p.old.config) event.now }
    ensures moments { IfSome echo.new HasMoments }
    ensures unanswered { mark.new.answered ≡ false → outs.old.spare ≤ outs.new.spare + 1 }
    ensures spare { outs.old.spare ≤ outs.new.spare + 2 }
    ensures room { outs.new.room ≡ outs.old.room }
{
    match event {
        Event::Packet(arrival) => {
            to_packet(p.accept(eff, arrival.ttl, arrival.payload.as_slice(), mark, outs))
        }
        Event::Returned(sequence) => to_return(takes_back(p, echo, eff, *sequence)),
        Event::Command(cmd) => to_command(p.command(eff, cmd, mark, outs)),
        Event::Show => {
            let v = p.vars();
            Answer::Shown(shows(p.config().discr, adv_tx(v), detection_time(v), v))
        }
    }
}

/// The end of the event.
fn finishes(
    p: &mut P2p,
    echo: &mut Option<Echo>,
    next: &mut u32,
    eff: u64,
    mark: Mark,
    outs: &mut Outs,
)
    requires eff { eff < moment_bound }
    requires moments { IfSome echo.old HasMoments }
    requires room { mark.answered ≡ false → 1 ≤ outs.old.spare }
    ensures config { p.new.config ≡ p.old.config }
    ensures vars { p.new.vars
        ≡ (session.finished (PointToPoint p.old.config)
        eff (flow (course p.old.vars mark outs.old.items) echo.old next.old)).course.vars }
    ensures outs { outs.new.items
        ≡ (session.finished (PointToPoint p.old.config)
        eff (flow (course p.old.vars mark outs.old.items) echo.old next.old)).course.outs }
    ensures echo { echo.new
        ≡ (session.finished (PointToPoint p.old.config)
        eff (flow (course p.old.vars mark outs.old.items) echo.old next.old)).echo }
    ensures next { next.new
        ≡ (session.finished (PointToPoint p.old.config)
        eff (flow (course p.old.vars mark outs.old.items) echo.old next.old)).echo_next }
    ensures over { (limit : ℕ) → limit ≤ eff → IsSettled p.old.config.active limit eff mark p.old.vars
        → IsOver limit p.new.vars }
    ensures echo_over { (limit : ℕ) → limit ≤ eff → IsEchoOver limit p.old.config p.old.vars echo.old
        → IsEchoOver limit p.new.config p.new.vars echo.new }
    ensures sound { IsPointSound p.new.config (point_of p.new echo.new next.new) }
    ensures answered { mark.answered ≡ true → outs.new.spare ≡ outs.old.spare }
    ensures spare { outs.old.spare ≤ outs.new.spare + 1 }
    ensures room { outs.new.room ≡ outs.old.room }
{
    p.finish(eff, mark, outs);
    turns_echo(p, echo, next, eff);
}

/// Whether the event is a packet with nothing new for a session in Up; then that is all of the event (`P2p::hears_again`), and the packet
/// was accepted. Else nothing is done.
#[tactic(auto, using(crate::proofs::Repeated::again_step, crate::proofs::Repeated::again_answer))]
fn hears_again(p: &mut P2p, echo: &Option<Echo>, eff: u64, event: &Event) -> bool
    requires eff { eff < moment_bound }
    requires takes { CanTake (PointToPoint p.old.config) event.now }
    ensures config { p.new.config ≡ p.old.config }
    ensures rests { result ≡ false → p.new ≡ p.old }
    ensures size { result ≡ true → HasSize (PointToPoint p.old.config) event.now }
    ensures flow { result ≡ true → (next : ℕ) (os : List Out) → session.step (PointToPoint p.old.config) eff event.now
        (session.begun (Some eff) (point_of p.old echo.now next) os)
        ≡ flow (course p.new.vars (begins p.new.vars) os) echo.now next }
    ensures answer { result ≡ true → (next : ℕ) (os : List Out)
        → session.reply_from eff event.now (point_of p.old echo.now next) os ≡ Handled }
    ensures sound { result ≡ true → (next : ℕ) → IsPointSound p.new.config (point_of p.new echo.now next) }
{
    match (event, echo) {
        (Event::Packet(arrival), None) => {
            p.hears_again(eff, arrival.ttl, arrival.payload.as_slice())
        }
        _ => false,
    }
}

/// An own event, from what was emitted before it. At most three outputs are those of settling, and two of the event and its
/// end together: a packet with F sends the state, so nothing more is sent. (Apart from `steps`: this opens the definition that
/// a law of `steps` is about.)
#[tactic(auto, unfolding(crate::specs::Step::step))]
fn runs(
    p: &mut P2p,
    echo: &mut Option<Echo>,
    next: &mut u32,
    eff: u64,
    event: &Event,
    outs: &mut Outs,
) -> Answer
    requires eff { eff < moment_bound }
    requires takes { CanTake (PointToPoint p.old.config) event.now }
    requires moments { IfSome echo.old HasMoments }
    requires room { 5 ≤ outs.old.spare }
    ensures config { p.new.config ≡ p.old.config }
    ensures size { HasSize (PointToPoint p.old.config) event.now }
    ensures vars { p.new.vars ≡ (session.step_from eff event.now (point_of p.old echo.old next.old)
        outs.old.items).course.vars }
    ensures outs { outs.new.items ≡ (session.step_from eff event.now (point_of p.old echo.old next.old)
        outs.old.items).course.outs }
    ensures echo { echo.new ≡ (session.step_from eff event.now (point_of p.old echo.old next.old) outs.old.items).echo }
    ensures next { next.new ≡ (session.step_from eff event.now (point_of p.old echo.old next.old)
        outs.old.items).echo_next }
    ensures answer { result ≡ session.reply_from eff event.now (point_of p.old echo.old next.old) outs.old.items }
    ensures sound { IsPointSound p.new.config (point_of p.new echo.new next.new) }
    ensures spare { outs.old.spare ≤ outs.new.spare + 5 }
    ensures room { outs.new.room ≡ outs.old.room }
{
    if hears_again(p, echo, eff, event) {
        return Answer::Handled;
    }
    let mut mark = p.begin(Some(eff));
    settles(p, echo, eff, eff, &mut mark, outs);
    let answer = acts(p, echo, eff, event, &mut mark, outs);
    finishes(p, echo, next, eff, mark, outs);
    answer
}

/// An own event at its effective moment.
pub fn steps(
    p: &mut P2p,
    echo: &mut Option<Echo>,
    next: &mut u32,
    eff: u64,
    event: &Event,
    outs: &mut Outs,
) -> Answer
    requires eff { eff < moment_bound }
    requires takes { CanTake (PointToPoint p.old.config) event.now }
    requires moments { IfSome echo.old HasMoments }
    requires room { 5 ≤ outs.old.spare }
    ensures session { point_of p.new echo.new next.new ≡ session.next eff event.now (point_of p.old echo.old next.old) }
    ensures size { HasSize (PointToPoint p.old.config) event.now }
    ensures outs { outs.new.items ≡ outs.old.items ++ session.emits eff event.now (point_of p.old echo.old next.old) }
    ensures answer { result ≡ session.reply eff event.now (point_of p.old echo.old next.old) }
    ensures sound { IsPointSound p.new.config (point_of p.new echo.new next.new) }
    ensures spare { outs.old.spare ≤ outs.new.spare + 5 }
    ensures room { outs.new.room ≡ outs.old.room }
{
    runs(p, echo, next, eff, event, outs)
}

/// Whether a periodic packet is all that is due by the limit; then that is all of the tick (`P2p::beats`). Else nothing is done.
#[tactic(auto, using(crate::proofs::Beating::beat_tick, crate::proofs::Beating::none_over))]
fn beats(p: &mut P2p, echo: &Option<Echo>, limit: u64, eff: u64, outs: &mut Outs) -> bool
    requires sound { IsVarsSound p.old.config p.old.vars }
    requires eff { eff < moment_bound }
    requires room { 1 ≤ outs.old.spare }
    ensures config { p.new.config ≡ p.old.config }
    ensures rests { result ≡ false → p.new ≡ p.old }
    ensures rests_outs { result ≡ false → outs.new ≡ outs.old }
    ensures flow { result ≡ true → (next : ℕ) → session.tick (PointToPoint p.old.config) limit eff
        (session.begun None (point_of p.old echo.now next) outs.old.items)
        ≡ flow (course p.new.vars (announces p.old.vars (begins p.old.vars)) outs.new.items) echo.now next }
    ensures over { result ≡ true → limit ≤ eff → IsOver limit p.new.vars }
    ensures echo_over { result ≡ true → IsEchoOver limit p.new.config p.new.vars echo.now }
    ensures sound { result ≡ true → (next : ℕ) → IsPointSound p.new.config (point_of p.new echo.now next) }
    ensures spare { outs.old.spare ≤ outs.new.spare + 1 }
    ensures room { outs.new.room ≡ outs.old.room }
{
    match echo {
        None => p.beats(limit, eff, outs),
        Some(_) => false,
    }
}

/// A tick with this limit, from what was emitted before it. (Apart from `ticks`, as `runs` is from `steps`.)
#[tactic(auto, unfolding(crate::specs::Step::tick))]
fn passes(
    p: &mut P2p,
    echo: &mut Option<Echo>,
    next: &mut u32,
    limit: u64,
    eff: u64,
    outs: &mut Outs,
)
    requires sound { IsPointSound p.old.config (point_of p.old echo.old next.old) }
    requires eff { eff < moment_bound }
    requires room { 4 ≤ outs.old.spare }
    ensures config { p.new.config ≡ p.old.config }
    ensures vars { p.new.vars ≡ (session.tick_from limit eff (point_of p.old echo.old next.old)
        outs.old.items).course.vars }
    ensures outs { outs.new.items ≡ (session.tick_from limit eff (point_of p.old echo.old next.old)
        outs.old.items).course.outs }
    ensures echo { echo.new ≡ (session.tick_from limit eff (point_of p.old echo.old next.old) outs.old.items).echo }
    ensures next { next.new ≡ (session.tick_from limit eff (point_of p.old echo.old next.old) outs.old.items).echo_next }
    ensures over { limit ≤ eff → IsOver limit p.new.vars }
    ensures echo_over { limit ≤ eff → IsEchoOver limit p.new.config p.new.vars echo.new }
    ensures sound { IsPointSound p.new.config (point_of p.new echo.new next.new) }
    ensures spare { outs.old.spare ≤ outs.new.spare + 4 }
    ensures room { outs.new.room ≡ outs.old.room }
{
    if beats(p, echo, limit, eff, outs) {
        return;
    }
    let mut kept = p.begin(None);
    settles(p, echo, limit, eff, &mut kept, outs);
    finishes(p, echo, next, eff, kept, outs);
}

/// A tick with this limit, at the effective moment `eff`.
pub fn ticks(
    p: &mut P2p,
    echo: &mut Option<Echo>,
    next: &mut u32,
    limit: u64,
    eff: u64,
    outs: &mut Outs,
)
    requires sound { IsPointSound p.old.config (point_of p.old echo.old next.old) }
    requires eff { eff < moment_bound }
    requires room { 4 ≤ outs.old.spare }
    ensures session { point_of p.new echo.new next.new ≡ session.tick_next limit eff (point_of p.old echo.old next.old) }
    ensures outs { outs.new.items ≡ outs.old.items ++ session.tick_emits limit eff (point_of p.old echo.old next.old) }
    ensures over { (t : ℕ) → limit ≡ 1000 * t → limit ≤ eff
        → has_come t (due.due (point_of p.new echo.new next.new)) ≡ false }
    ensures sound { IsPointSound p.new.config (point_of p.new echo.new next.new) }
    ensures spare { outs.old.spare ≤ outs.new.spare + 4 }
    ensures room { outs.new.room ≡ outs.old.room }
{
    passes(p, echo, next, limit, eff, outs);
}

/// The least due tick.
pub fn due_tick(p: &P2p, echo: &Option<Echo>) -> Option<u64>
    requires moments { IfSome echo.now HasMoments }
    ensures value { (next : ℕ) → result ≡ due.due (point_of p.now echo.now next) }
    ensures below { IfSome result (λ t. t < moment_bound) }
{
    let v = p.vars();
    sooner(
        tick_of(deadline(v)),
        sooner(
            tick_of(seq_deadline(v)),
            sooner(v.tx_due, echo_due(p, echo)),
        ),
    )
}
