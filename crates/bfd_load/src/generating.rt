//! The sessions and the events, one by one.
ghost use Rattle.std.specs.Prelude.{◌≡◌, ◌<◌, ◌≤◌, ◌++◌, ◌%◌, [], ◌∷◌, IfOk, OnOk, map};
ghost use Rattle.std.specs.List.{filter, range_with_len};
ghost use Rattle.bfd_script.specs.Sound.{IsScript};
ghost use Rattle.bfd_load.specs.Load as load;

use bfd_num::{Moment, Tick};
use bfd_packet::{Addr, Arrival, Control, Payload, Port, SOURCE_PORT, State, write_plain};
use bfd_rules::{Config, Role};
use bfd_script::Script;
use bfd_script::line::Line;
use bfd_session::SessionConfig;
use std::alloc::{AllocError, Global};

/// The ticks from one packet of a session to its next.
const PERIOD: u32 = 300;

/// The address of every session, 10.0.0.1.
const LOCAL: Addr = Addr::V4(0x0a00_0001);

/// The address before that of the first peer, 10.1.0.0.
const REMOTES: u32 = 0x0a01_0000;

/// The peer's address.
fn remote(i: u32) -> Addr
    requires { i ≤ 5000 }
    ensures { result ≡ load.remote i }
{
    Addr::V4(REMOTES + i)
}

/// A session.
fn config(seed: u32, i: u32) -> SessionConfig
    requires { i ≤ 5000 }
    ensures { result ≡ load.config seed i }
{
    SessionConfig::PointToPoint(Config {
        discr: i,
        role: Role::Single,
        iface: 1,
        local: LOCAL,
        remote: remote(i),
        active: true,
        tx: 300_000,
        rx: 300_000,
        mult: 3,
        echo: 0,
        seed: seed.wrapping_add(i),
        keys: None,
    })
}

/// The sessions.
fn configs(alloc: Global, sessions: u32, seed: u32) -> Result<Vec<SessionConfig>, AllocError>
    requires { sessions ≤ 5000 }
    ensures { IfOk result (λ configs. configs.items ≡ map (load.config seed) (range_with_len 1 sessions)) }
{
    let mut configs = Vec::new(alloc);
    for i in 1..sessions + 1 {
        configs.push(config(seed, i))?;
    }
    Ok(configs)
}

/// How many packets a session that hears one at this tick has heard before.
#[tactic(auto, using(crate::proofs::Counting::earlier_is))]
fn earlier(t: u32) -> u32
    requires { 0 < t }
    ensures { result ≡ load.earlier t }
{
    (t - 1) / PERIOD
}

/// Whether the session has fallen silent by its packet with so many before it.
fn is_silent(i: u32, before: u32) -> bool
    ensures { result ≡ load.is_silent i before }
{
    i % 10 == 0 && before >= 3
}

/// The fields of the session's packet with so many before it.
fn control(i: u32, before: u32) -> Control
    requires { i ≤ 5000 }
    ensures { result ≡ load.control i before }
{
    let first = before == 0;
    Control {
        diag: 0,
        state: if first { State::Init } else { State::Up },
        poll: false,
        fin: !first,
        cpi: false,
        auth: false,
        demand: false,
        multi: false,
        mult: 3,
        length: 24,
        my: 1_000_000 + i,
        your: i,
        min_tx: if first { 1_000_000 } else { 300_000 },
        min_rx: 300_000,
        min_echo: 0,
    }
}

/// The session's packet with so many before it, as it comes in.
#[tactic(auto, using(crate::proofs::Bytes::kept_whole))]
fn arrival(alloc: Global, i: u32, before: u32) -> Result<Arrival, AllocError>
    requires { i ≤ 5000 }
    ensures { IfOk result (λ arrival. arrival ≡ load.arrival i before) }
{
    let bytes = write_plain(&control(i, before));
    Ok(Arrival {
        port: Port::Single,
        iface: 1,
        src: remote(i),
        sport: SOURCE_PORT,
        dst: LOCAL,
        ttl: 255,
        payload: Payload::keep(alloc, bytes.as_slice())?,
    })
}

/// The line of the session's packet at this tick.
fn packet(alloc: Global, t: u32, i: u32) -> Result<Line, AllocError>
    requires some { 0 < t }
    requires session { i ≤ 5000 }
    ensures { IfOk result (λ line. line ≡ load.packet t i) }
{
    let moment = Moment::new(1000 * u64::from(t)).unwrap();
    let arrival = arrival(alloc, i, earlier(t))?;
    Ok(Line::Rx { moment, arrival })
}

/// Appends the packet of this session, one that hears one at this tick unless it is silent.
#[tactic(auto, using(crate::proofs::Hearing::hears_there))]
fn hear_one(alloc: Global, t: u32, i: u32, events: &mut Vec<Line>) -> Result<(), AllocError>
    requires some { 0 < t }
    requires session { i ≤ 5000 }
    requires place { t % 300 ≡ i % 300 }
    ensures { OnOk result (events.new.items
        ≡ events.old.items ++ map (load.packet t) (filter (load.hears t) (i ∷ []))) }
{
    if is_silent(i, earlier(t)) {
        return Ok(());
    }
    let line = packet(alloc, t, i)?;
    events.push(line)?;
    Ok(())
}

/// Appends the packets of this tick.
fn hear(alloc: Global, sessions: u32, t: u32, events: &mut Vec<Line>) -> Result<(), AllocError>
    requires some { 0 < t }
    requires sessions { sessions ≤ 5000 }
    ensures { OnOk result (events.new.items ≡ events.old.items ++ load.packets sessions t) }
{
    let mut i = (t - 1) % PERIOD + 1;
    while i <= sessions {
        hear_one(alloc, t, i, events)?;
        i += PERIOD;
    }
    Ok(())
}

/// The events of the ticks.
fn events(alloc: Global, sessions: u32, ticks: u32) -> Result<Vec<Line>, AllocError>
    requires sessions { sessions ≤ 5000 }
    requires ticks { ticks ≤ 6000 }
    ensures { IfOk result (λ events. events.items ≡ load.events sessions ticks) }
{
    let mut events = Vec::new(alloc);
    for t in 1..ticks + 1 {
        hear(alloc, sessions, t, &mut events)?;
        events.push(Line::Tick(Tick::new(u64::from(t)).unwrap()))?;
    }
    Ok(events)
}

/// The script of `sessions` sessions, at most 5,000, and `ticks` ticks, at most 6,000. Fails only when out of memory.
///
/// Session i, from 1 on, has the discriminator i and runs from 10.0.0.1 to 10.1.0.0 plus i over interface 1. It is active, its
/// intervals are 300,000 microseconds, its Detect Mult is 3, and its seed is `seed` plus i, round at 2^32. At each tick that
/// leaves the remainder by 300 that i leaves it hears a packet, at the tick's moment: the first says Init and a Desired Min TX
/// Interval of 1,000,000 microseconds, those after it Up, F and 300,000. A session whose number 10 divides hears three packets
/// and then none. The packets of a tick stand by ascending session, and the tick after them.
pub fn generate(alloc: Global, sessions: u32, ticks: u32, seed: u32) -> Result<Script, AllocError>
    requires sessions { sessions ≤ 5000 }
    requires ticks { ticks ≤ 6000 }
    ensures script { IfOk result (λ script. script ≡ load.script sessions ticks seed) }
    ensures sound { IfOk result IsScript }
{
    let configs = configs(alloc, sessions, seed)?;
    let events = events(alloc, sessions, ticks)?;
    Ok(Script {
        configs,
        pool: Vec::new(alloc),
        events,
    })
}
