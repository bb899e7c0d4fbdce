//! The handshake of two active sessions, packet by packet, and two configurations that are no peers.
ghost use Rattle.std.specs.Prelude.{◌≡◌, ◌<◌, ◌≤◌};
ghost use Rattle.bfd_session.specs.declared.event.SessionConfig.TheVariants.{PointToPoint};
ghost use Rattle.bfd_session.specs.Step.{IsFit};

use bfd_num::{Moment, Tick};
use bfd_packet::{Addr, State, Test};
use bfd_pair::{Pair, PairAnswer, PairEvent, PairFault, Side};
use bfd_rules::{Cmd, Config, Outs, Refusal, Role};
use bfd_session::Answer;
use std::alloc::Global;

pub(crate) const FIRST: Addr = Addr::V4(0x0a00_0001);

pub(crate) const SECOND: Addr = Addr::V4(0x0a00_0002);

const THIRD: Addr = Addr::V4(0x0a00_0003);

/// An active session over a single hop that asks for this interval, in microseconds.
pub(crate) fn config(discr: u32, local: Addr, remote: Addr, interval: u32, seed: u32) -> Config
    requires some { 0 < discr }
    requires least { 10000 ≤ interval }
    requires most { interval ≤ 60000000 }
    ensures { IsFit (PointToPoint result) }
{
    Config {
        discr,
        role: Role::Single,
        iface: 1,
        local,
        remote,
        active: true,
        tx: interval,
        rx: interval,
        mult: 3,
        echo: 0,
        seed,
        keys: None,
    }
}

/// Two active peers that ask for this interval.
pub(crate) fn peers(alloc: Global, interval: u32, seed: u32) -> Result<Pair, PairFault>
    requires least { 10000 ≤ interval }
    requires most { interval ≤ 60000000 }
{
    Pair::make(
        alloc,
        config(1, FIRST, SECOND, interval, seed),
        config(2, SECOND, FIRST, interval, seed),
    )
}

fn tick(number: u64) -> Option<PairEvent> {
    let tick = Tick::new(number)?;
    Some(PairEvent::Tick(tick))
}

fn give(to: Side, us: u64, number: u64) -> Option<PairEvent> {
    let moment = Moment::new(us)?;
    Some(PairEvent::Give { to, moment, number })
}

fn order(side: Side, us: u64, cmd: Cmd) -> Option<PairEvent> {
    let moment = Moment::new(us)?;
    Some(PairEvent::Order { side, moment, cmd })
}

/// One event, with room for its outputs; None where there is no event or no memory.
fn play(pair: &mut Pair, event: Option<PairEvent>, outs: &mut Outs) -> Option<PairAnswer>
    requires { 10 ≤ outs.old.room }
    ensures { outs.new.room ≡ outs.old.room }
{
    let event = event?;
    outs.clear();
    pair.step(event, outs).ok()
}

/// The states of Left and Right, the diagnostic of Left, and how many packets each has sent.
type Looks = (State, u8, State, usize, usize);

/// Whether the two look so.
fn looks(pair: &Pair, want: Looks) -> bool {
    let (left, diag, right, from_left, from_right) = want;
    let vars = pair.session(Side::Left).vars();
    vars.state == left
        && vars.diag == diag
        && pair.session(Side::Right).vars().state == right
        && pair.sent(Side::Left).len() == from_left
        && pair.sent(Side::Right).len() == from_right
}

/// Whether the event is answered so, and the two look so then.
fn goes(
    pair: &mut Pair,
    event: Option<PairEvent>,
    outs: &mut Outs,
    answer: PairAnswer,
    want: Looks,
) -> bool
    requires { 10 ≤ outs.old.room }
    ensures { outs.new.room ≡ outs.old.room }
{
    play(pair, event, outs) == Some(answer) && looks(pair, want)
}

#[test]
fn handshake(rt: HostRuntime) {
    let mut pair = peers(rt.alloc(), 1_000_000, 0).expect(&rt, "peers");
    let mut outs = Outs::make(rt.alloc(), 10).expect(&rt, "memory");
    let handled = PairAnswer::Did(Answer::Handled);
    let ticked = PairAnswer::Did(Answer::Ticked);
    let dropped = PairAnswer::Did(Answer::Dropped(Test::AdminDown));
    let refused = PairAnswer::Did(Answer::Refused(Refusal::WrongState));
    let disabled = (State::Down, 3, State::AdminDown, 3, 4);
    for (event, answer, want) in [
        (tick(750), ticked, (State::Down, 0, State::Down, 1, 1)),
        (
            give(Side::Right, 751_000, 1),
            handled,
            (State::Down, 0, State::Init, 1, 2),
        ),
        (
            give(Side::Left, 752_000, 2),
            handled,
            (State::Up, 0, State::Init, 2, 2),
        ),
        (
            give(Side::Right, 753_000, 2),
            handled,
            (State::Up, 0, State::Up, 2, 3),
        ),
        (
            give(Side::Left, 754_000, 1),
            handled,
            (State::Down, 3, State::Up, 3, 3),
        ),
        (
            give(Side::Left, 755_000, 9),
            PairAnswer::NoPacket(3),
            (State::Down, 3, State::Up, 3, 3),
        ),
        (order(Side::Right, 756_000, Cmd::Disable), handled, disabled),
        (give(Side::Right, 757_000, 2), dropped, disabled),
        (order(Side::Left, 757_200, Cmd::Enable), refused, disabled),
        (
            order(Side::Left, 757_500, Cmd::EchoEvery(50_000)),
            handled,
            disabled,
        ),
        (
            give(Side::Left, 758_000, 0),
            PairAnswer::NoPacket(4),
            disabled,
        ),
        (tick(700), ticked, disabled),
        (give(Side::Left, 759_000, 4), handled, disabled),
    ] {
        assert!(rt; goes(&mut pair, event, &mut outs, answer, want));
    }
    assert!(rt; pair.past().len() == 13);
}

/// Why two whose addresses don't fit are no peers.
fn no_peers(alloc: Global) -> Option<PairFault> {
    Pair::make(
        alloc,
        config(1, FIRST, SECOND, 1_000_000, 0),
        config(2, FIRST, THIRD, 1_000_000, 0),
    )
    .err()
}

#[test]
fn two_that_are_no_peers(rt: HostRuntime) {
    assert!(rt; no_peers(rt.alloc()) == Some(PairFault::NotPeers));
}
