//! The served text of two shards, with events of every kind.
ghost use Rattle.std.specs.Prelude.{◌≡◌, ◌<◌, ◌≤◌, ◌∷◌, [], true, None, IfOk, OnOk, length};
ghost use Rattle.bfd_packet.specs.declared.arrival.Addr.TheVariants.{V4};
ghost use Rattle.bfd_rules.specs.declared.config.Role.TheVariants.{Single};
ghost use Rattle.bfd_session.specs.declared.event.SessionConfig.TheVariants.{PointToPoint};
ghost use Rattle.bfd_session.specs.Kinds.{configs_of};
ghost use Rattle.bfd_session.specs.Rows.{AreFit};
ghost use Rattle.bfd_session.specs.Step.{IsFit};
ghost use Rattle.bfd_num.specs.Counting.{IsBlankOf};

use bfd_num::{Moment, Steps, Tick};
use bfd_packet::{Addr, Arrival, Payload, Port};
use bfd_rules::{Cmd, Config, Outs, Role};
use bfd_serve::served_text::served;
use bfd_session::{Event, SessionConfig};
use bfd_shard::{ShardEvent, ShardState};
use bfd_wheel::HashedWheel;
use std::alloc::{AllocError, Global};
use std::marker::Brand;
use std::process::Abort;
use std::sync::ledger::{Blank, Ledger};
use std::test::Fail;

/// An active session over a single hop, on the interface of its discriminator.
fn config(discr: u32) -> SessionConfig
    requires some { 0 < discr }
    requires iface { discr < 65536 }
    ensures fit { IsFit result }
    ensures value { result ≡ PointToPoint (record {
      discr = discr;
      role = Single;
      iface = discr;
      local = V4 167772161;
      remote = V4 167772162;
      active = true;
      tx = 1000000;
      rx = 1000000;
      mult = 3;
      echo = 0;
      seed = 0;
      keys = None;
    }) }
{
    SessionConfig::PointToPoint(Config {
        discr,
        role: Role::Single,
        iface: discr,
        local: Addr::V4(0x0a00_0001),
        remote: Addr::V4(0x0a00_0002),
        active: true,
        tx: 1_000_000,
        rx: 1_000_000,
        mult: 3,
        echo: 0,
        seed: 0,
        keys: None,
    })
}

/// Two sessions.
fn two(alloc: Global, first: u32, second: u32) -> Result<Vec<SessionConfig>, AllocError>
    requires first { (0 < first) × (first < 65536) }
    requires second { (0 < second) × (second < 65536) }
    ensures fit { IfOk result (λ configs. AreFit configs.items) }
    ensures value { IfOk result (λ configs. configs.items
        ≡ PointToPoint (record {
          discr = first;
          role = Single;
          iface = first;
          local = V4 167772161;
          remote = V4 167772162;
          active = true;
          tx = 1000000;
          rx = 1000000;
          mult = 3;
          echo = 0;
          seed = 0;
          keys = None;
        })
        ∷ PointToPoint (record {
          discr = second;
          role = Single;
          iface = second;
          local = V4 167772161;
          remote = V4 167772162;
          active = true;
          tx = 1000000;
          rx = 1000000;
          mult = 3;
          echo = 0;
          seed = 0;
          keys = None;
        }) ∷ []) }
{
    let mut configs = Vec::new(alloc);
    configs.push(config(first))?;
    configs.push(config(second))?;
    Ok(configs)
}

/// What a session is given: a packet of these six words, on the interface of this number; or another event.
#[derive(Clone, Copy)]
enum What {
    Rx(u32, [u32; 6]),
    Back(u32),
    Do(Cmd),
    Show,
}

/// An entry: a caller's tick, or a caller's event of the session at a place, with its moment.
#[derive(Clone, Copy)]
enum Row {
    Tick(u32, u64),
    Own(u32, u32, u64, What),
}

/// A packet of these words.
fn packet(alloc: Global, iface: u32, words: [u32; 6]) -> Result<Event, AllocError> {
    let mut bytes = Vec::new(alloc);
    for word in words {
        bytes.extend_from_slice(&word.to_be_bytes())?;
    }
    let payload = Payload::keep(alloc, bytes.as_slice())?;
    Ok(Event::Packet(Arrival {
        port: Port::Single,
        iface,
        src: Addr::V4(0x0a00_0002),
        sport: 49152,
        dst: Addr::V4(0x0a00_0001),
        ttl: 255,
        payload,
    }))
}

/// A session's event.
fn event(alloc: Global, what: What) -> Result<Event, AllocError> {
    match what {
        What::Rx(iface, words) => packet(alloc, iface, words),
        What::Back(sequence) => Ok(Event::Returned(sequence)),
        What::Do(cmd) => Ok(Event::Command(cmd)),
        What::Show => Ok(Event::Show),
    }
}

/// A row's caller and event.
fn happening(alloc: Global, row: Row) -> Result<(u32, ShardEvent), AllocError> {
    match row {
        Row::Tick(caller, t) => Ok((caller, ShardEvent::Tick(Tick::new(t).ok_or(AllocError)?))),
        Row::Own(caller, place, us, what) => {
            let moment = Moment::new(us).ok_or(AllocError)?;
            let event = event(alloc, what)?;
            Ok((
                caller,
                ShardEvent::Own {
                    place,
                    moment,
                    event,
                },
            ))
        }
    }
}

/// Gives a row to the shard, which accepts it.
fn give<L: Ledger, R: Abort>(
    rt: &R,
    alloc: Global,
    shard: &mut ShardState<HashedWheel>,
    row: Row,
    outs: &mut Outs,
    steps: &mut Steps<L>,
) -> Result<(), AllocError>
    ensures { OnOk result (configs_of shard.new.sessions ≡ configs_of shard.old.sessions) }
{
    let (caller, event) = happening(alloc, row)?;
    outs.clear();
    assert!(*rt; shard.takes(&event));
    assert!(*rt; 5 * shard.sessions().len() + 5 <= outs.spare());
    shard.prepare()?;
    assert!(*rt; shard.apply(caller, event, outs, steps).is_ok());
    Ok(())
}

/// The shard of these sessions that was given these rows.
fn closed<L: Ledger, R: Abort>(
    rt: &R,
    alloc: Global,
    configs: Vec<SessionConfig>,
    rows: &[Row],
    blank: Blank,
) -> Result<ShardState<HashedWheel>, AllocError>
    requires few { length configs.items ≤ 65536 }
    requires fit { AreFit configs.items }
    requires blank { IsBlankOf L.name L.parts blank.name blank.parts }
    ensures { IfOk result (λ shard. configs_of shard.sessions ≡ configs.items) }
{
    let mut outs = Outs::make(alloc, 5 * configs.len() + 5)?;
    let mut shard = ShardState::make(alloc, configs, rows.len())?;
    let mut steps = Steps::<L>::new(blank);
    for row in rows {
        give(rt, alloc, &mut shard, *row, &mut outs, &mut steps)?;
    }
    Ok(shard)
}

const EVEN: [Row; 8] = [
    Row::Own(
        1,
        0,
        1500,
        What::Rx(1, [0x2040_0318, 7, 1, 1_000_000, 0, 0]),
    ),
    Row::Tick(0, 750),
    Row::Own(
        2,
        1,
        800_000,
        What::Rx(3, [0x2080_0318, 7, 3, 1_000_000, 300_000, 0]),
    ),
    Row::Own(0, 1, 900_000, What::Do(Cmd::Tx(2_000_000))),
    Row::Own(0, 0, 900_001, What::Show),
    Row::Own(2, 1, 900_002, What::Back(7)),
    Row::Tick(0, 2000),
    Row::Own(0, 0, 5, What::Do(Cmd::Enable)),
];

const ODD: [Row; 5] = [
    Row::Tick(0, 750),
    Row::Own(
        2,
        0,
        800_000,
        What::Rx(2, [0x2080_0318, 7, 0, 1_000_000, 300_000, 0]),
    ),
    Row::Own(
        2,
        0,
        800_001,
        What::Rx(2, [0x2080_0318, 7, 2, 1_000_000, 300_000, 0]),
    ),
    Row::Tick(0, 2000),
    Row::Tick(0, 3801),
];

const WANTED: &str = "shard 0
turn 1 1 rx 1500 single 1 10.0.0.2 10.0.0.1 255 204003180000000700000001000f42400000000000000000
1 state 1 Down Init 0
turn 2 0 tick 750
2 tx 3 204003180000000300000000000f4240000f424000000000
turn 3 2 rx 800000 single 3 10.0.0.2 10.0.0.1 255 208003180000000700000003000f4240000493e000000000
3 state 3 Down Up 0
3 tx 3 20c003180000000300000007000f4240000f424000000000
turn 4 0 cmd 900000 3 tx 2000000
turn 5 0 show 900001 1
5 show 1 Init 0 Down 7 1000000 1000000 1000000 3000000 0
turn 6 2 back 900002 3 7
6 drop EchoStale
turn 7 0 tick 2000
7 tx 3 20e003180000000300000007001e8480000f424000000000
turn 8 0 cmd 5 1 enable
8 refuse WrongState
shard 1
turn 1 0 tick 750
1 tx 2 204003180000000200000000000f4240000f424000000000
1 tx 4 204003180000000400000000000f4240000f424000000000
turn 2 2 rx 800000 single 2 10.0.0.2 10.0.0.1 255 208003180000000700000000000f4240000493e000000000
2 state 2 Down Up 0
2 tx 2 20c003180000000200000007000f4240000f424000000000
turn 3 2 rx 800001 single 2 10.0.0.2 10.0.0.1 255 208003180000000700000002000f4240000493e000000000
turn 4 0 tick 2000
4 tx 2 20c003180000000200000007000f4240000f424000000000
4 tx 4 204003180000000400000000000f4240000f424000000000
turn 5 0 tick 3801
5 state 2 Up Down 1
5 tx 2 214003180000000200000000000f4240000f424000000000
5 tx 4 204003180000000400000000000f4240000f424000000000
served 13 10 4
";

#[test]
fn two_shards(rt: HostRuntime) -> Result<(), Fail> {
    let alloc = rt.alloc();
    let even = closed::<Brand, HostRuntime>(&rt, alloc, two(alloc, 1, 3)?, &EVEN, Blank::new(1))?;
    let odd = closed::<Brand, HostRuntime>(&rt, alloc, two(alloc, 2, 4)?, &ODD, Blank::new(1))?;
    let mut states = Vec::new(alloc);
    states.push(even)?;
    states.push(odd)?;
    let mut parts = Vec::new(alloc);
    parts.push(two(alloc, 1, 3)?)?;
    parts.push(two(alloc, 2, 4)?)?;
    let text = served(alloc, parts, states.as_slice(), 4)?;
    assert!(rt; text.as_slice() == WANTED.as_bytes());
    Ok(())
}
