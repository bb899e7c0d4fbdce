//! The two of a seed, and the events of its schedule.
ghost use Rattle.std.specs.Prelude.{◌≡◌, ◌≤◌, [], IfOk, length};
ghost use Rattle.bfd_session.specs.declared.event.SessionConfig.TheVariants.{PointToPoint};
ghost use Rattle.bfd_pair.specs.Run.{pair_run};
ghost use Rattle.bfd_pair.specs.Schedule as schedule;

use crate::{Pair, PairEvent, PairFault, Side};
use bfd_num::{Moment, Tick};
use bfd_packet::Addr;
use bfd_rules::{Config, Role};
use std::alloc::{AllocError, Global};

/// The address of Left, 10.0.0.1.
const FIRST: Addr = Addr::V4(0x0a00_0001);

/// The address of Right, 10.0.0.2.
const SECOND: Addr = Addr::V4(0x0a00_0002);

/// The configuration of a side.
fn side(discr: u32, local: Addr, remote: Addr, seed: u32) -> Config
    ensures { result ≡ schedule.side discr local remote seed }
{
    Config {
        discr,
        role: Role::Single,
        iface: 1,
        local,
        remote,
        active: true,
        tx: 300_000,
        rx: 300_000,
        mult: 3,
        echo: 0,
        seed,
        keys: None,
    }
}

/// The two of a seed at the start. Fails only when out of memory.
pub(crate) fn peers(alloc: Global, seed: u32) -> Result<Pair, AllocError>
    ensures { IfOk result (λ pair. pair
        ≡ record { left = PointToPoint (schedule.left seed); right = PointToPoint (schedule.right seed); past = [] }) }
{
    match Pair::make(
        alloc,
        side(1, FIRST, SECOND, seed),
        side(2, SECOND, FIRST, seed),
    ) {
        Ok(pair) => Ok(pair),
        Err(PairFault::Memory) => Err(AllocError),
        Err(PairFault::NotPeers) => unreachable!(),
    }
}

/// The number of a packet among so many.
fn packet_by(draw: u32, count: usize) -> u64
    ensures { result ≡ schedule.packet_by draw count }
{
    if count == 0 {
        1
    } else {
        1 + u64::from(draw % 65_536) % count as u64
    }
}

/// A side is given a packet.
fn giving(to: Side, e: u64, draw: u32, pair: &Pair) -> PairEvent
    requires { e ≤ 100000 }
    ensures { result ≡ schedule.giving to e draw (pair_run pair.now.left pair.now.right pair.now.past) }
{
    let sent = match to {
        Side::Left => pair.sent(Side::Right),
        Side::Right => pair.sent(Side::Left),
    };
    PairEvent::Give {
        to,
        moment: Moment::new(1000 * e).unwrap(),
        number: packet_by(draw, sent.len()),
    }
}

/// The event of this number, from 1, and draw, over the two as the ones before it have left them.
pub(crate) fn event_by(e: u64, draw: u32, pair: &Pair) -> PairEvent
    requires { e ≤ 100000 }
    ensures { result ≡ schedule.event_by e draw (pair_run pair.now.left pair.now.right pair.now.past) }
{
    let choice = draw / 65_536 % 4;
    if choice < 2 {
        PairEvent::Tick(Tick::new(e).unwrap())
    } else if choice == 2 {
        giving(Side::Left, e, draw, pair)
    } else {
        giving(Side::Right, e, draw, pair)
    }
}
