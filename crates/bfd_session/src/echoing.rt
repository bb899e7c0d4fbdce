//! The Echo function as a part of a point-to-point session's event (RFC 5880 sections 6.8.5, 6.8.8 and 6.8.9).
ghost use Rattle.std.specs.Prelude.{◌≡◌, ◌<◌, ◌≤◌, ◌+◌, ℕ, None, Some, IfSome};
ghost use Rattle.bfd_num.specs.Numbers.{moment_bound};
ghost use Rattle.bfd_rules.specs.EventFrame.{course};
ghost use Rattle.bfd_p2p.specs.Over.{IsSettled};
ghost use Rattle.bfd_echo.specs.Rules.{HasMoments};
ghost use Rattle.bfd_session.specs.Echoing as echoing;
ghost use Rattle.bfd_session.specs.Echoing.{IsEchoOver};
ghost use Rattle.bfd_session.specs.Kinds.{flow};

use bfd_echo::{Echo, EchoResult, echo_datagram, echo_interval, is_echo_wanted};
use bfd_p2p::P2p;
use bfd_packet::State;
use bfd_rules::{Config, Mark, Outs, Role, Vars, sends};

/// The Echo function should run: over a single hop, in Up, where both sides want it.
fn should_echo(c: &Config, v: &Vars) -> bool
    ensures { result ≡ echoing.should_echo c.now v.now }
{
    matches!(c.role, Role::Single)
        && matches!(v.state, State::Up)
        && is_echo_wanted(v.echo_every, v.remote_min_echo)
}

/// The interval of echo packets.
fn interval_of(v: &Vars) -> u32
    ensures { result ≡ echoing.interval_of v.now }
{
    echo_interval(v.echo_every, v.remote_min_echo)
}

/// Does what has come due of the Echo function: its failure, by which the session goes Down with diagnostic 2, or else
/// the sending of a packet.
#[tactic(auto, unfolding(crate::specs::Echoing::settles_echo))]
pub fn settles_echo(
    p: &mut P2p,
    echo: &mut Option<Echo>,
    limit: u64,
    eff: u64,
    mark: &mut Mark,
    outs: &mut Outs,
)
    requires eff { eff < moment_bound }
    requires moments { IfSome echo.old HasMoments }
    requires room { 1 ≤ outs.old.spare }
    ensures config { p.new.config ≡ p.old.config }
    ensures flow { (next : ℕ) → flow (course p.new.vars mark.new outs.new.items) echo.new next
        ≡ echoing.settles_echo p.old.config limit eff (flow (course p.old.vars mark.old outs.old.items) echo.old next) }
    ensures settled { limit ≤ eff → IsSettled p.old.config.active limit eff mark.old p.old.vars
        → IsSettled p.old.config.active limit eff mark.new p.new.vars }
    ensures over { limit ≤ eff → IsEchoOver limit p.new.config p.new.vars echo.new }
    ensures moments { IfSome echo.new HasMoments }
    ensures spare { outs.old.spare ≤ outs.new.spare + 1 }
    ensures room { outs.new.room ≡ outs.old.room }
{
    let (c, v) = (p.config(), p.vars());
    if !should_echo(c, v) {
        return;
    }
    let Some(running) = echo else {
        return;
    };
    match running.settle(limit, eff, interval_of(v), v.mult, c.discr) {
        EchoResult::Nothing => {}
        EchoResult::Sent(bytes) => { sends(c.discr, echo_datagram(c.iface, c.local, bytes), outs) }
        EchoResult::Failed => p.fail(eff, 2, mark, outs),
    }
}

/// Receives an echo packet that came back: whether its number was awaited.
pub fn takes_back(p: &P2p, echo: &mut Option<Echo>, eff: u64, sequence: u32) -> bool
    requires eff { eff < moment_bound }
    requires moments { IfSome echo.old HasMoments }
    ensures echo { echo.new ≡ echoing.back_to eff sequence (echoing.echoing p.now.config p.now.vars echo.old) echo.old }
    ensures awaited { result ≡ echoing.is_awaited sequence (echoing.echoing p.now.config p.now.vars echo.old) }
    ensures moments { IfSome echo.new HasMoments }
{
    match echo {
        Some(running) if should_echo(p.config(), p.vars()) => running.returned(eff, sequence),
        _ => false,
    }
}

/// Starts the Echo function where it should run, and ends it where it shouldn't.
pub fn turns_echo(p: &P2p, echo: &mut Option<Echo>, next: &mut u32, eff: u64)
    requires eff { eff < moment_bound }
    requires moments { IfSome echo.old HasMoments }
    ensures echo { echo.new ≡ echoing.echo_after p.now.config eff p.now.vars echo.old next.old }
    ensures next { next.new ≡ echoing.number_after p.now.config p.now.vars echo.old next.old }
    ensures over { (limit : ℕ) → limit ≤ eff → IsEchoOver limit p.now.config p.now.vars echo.old
        → IsEchoOver limit p.now.config p.now.vars echo.new }
    ensures moments { IfSome echo.new HasMoments }
{
    if should_echo(p.config(), p.vars()) {
        if echo.is_none() {
            *echo = Some(Echo::begin(eff, *next));
        }
    } else {
        if let Some(ending) = echo {
            *next = ending.next;
        }
        *echo = None;
    }
}

/// The tick that the Echo function needs next.
pub fn echo_due(p: &P2p, echo: &Option<Echo>) -> Option<u64>
    requires moments { IfSome echo.now HasMoments }
    ensures value { result ≡ echoing.echo_due p.now.config p.now.vars echo.now }
    ensures below { IfSome result (λ t. t < moment_bound) }
{
    match echo {
        Some(running) if should_echo(p.config(), p.vars()) => {
            Some(running.due(interval_of(p.vars()), p.vars().mult))
        }
        _ => None,
    }
}
