//! Selection by addresses and by discriminators, and what a table refuses.
ghost use Rattle.std.specs.Prelude.{◌≡◌, ◌<◌, ◌≤◌, ◌+◌, false};
ghost use Rattle.bfd_demux.specs.Selection.{is_by_addresses};
ghost use Rattle.bfd_num.specs.Counting.{IsBlankOf};

use bfd_demux::{AddFault, BuildFault, Demux, Row, RowKind, Target};
use bfd_num::Steps;
use bfd_packet::{Addr, Arrival, Bits128, Payload, Port, Test};
use std::alloc::{AllocError, Global};
use std::marker::Brand;
use std::sync::ledger::{Blank, Ledger};
use std::test::Fail;

const LOCAL: Addr = Addr::V4(0x0a00_0001);

const REMOTE: Addr = Addr::V4(0x0a00_0002);

const GROUP: Addr = Addr::V4(0xef00_0001);

const LOCAL_6: Addr = Addr::V6(Bits128 {
    high: 0x2001_0db8_0000_0000,
    low: 1,
});

const REMOTE_6: Addr = Addr::V6(Bits128 {
    high: 0x2001_0db8_0000_0000,
    low: 2,
});

// Down from discriminator 7, Detect Mult 3, Desired Min TX 1 s.
const FROM_7: [u8; 24] = [
    0x20, 0x40, 3, 24, 0, 0, 0, 7, 0, 0, 0, 0, 0, 0x0f, 0x42, 0x40, 0, 0, 0, 0, 0, 0, 0, 0,
];

// An echo packet of the session 1, with the sequence number 9.
const ECHO: [u8; 16] = [0x42, 0x46, 0x44, 0x65, 0, 0, 0, 1, 0, 0, 0, 9, 0, 0, 0, 0];

fn single(discr: u32, iface: u32, local: Addr, remote: Addr) -> Row {
    let kind = RowKind::Single {
        iface,
        local,
        remote,
    };
    Row { discr, kind }
}

fn multi(discr: u32, local: Addr, remote: Addr) -> Row {
    let kind = RowKind::Multi { local, remote };
    Row { discr, kind }
}

fn initiator(discr: u32) -> Row {
    let kind = RowKind::Initiator;
    Row { discr, kind }
}

fn tail(discr: u32, head: u32, iface: u32) -> Row {
    let kind = RowKind::Tail {
        head,
        iface,
        group: GROUP,
        source: REMOTE,
    };
    Row { discr, kind }
}

fn arrival(
    port: Port,
    iface: u32,
    src: Addr,
    dst: Addr,
    payload: &[u8],
    alloc: Global,
) -> Result<Arrival, AllocError> {
    let payload = Payload::keep(alloc, payload)?;
    Ok(Arrival {
        port,
        iface,
        src,
        sport: 49152,
        dst,
        ttl: 255,
        payload,
    })
}

// The packet with this byte of flags, My Discriminator of one byte, and Your Discriminator of three.
fn packet(flags: u8, my: u8, your: u32) -> [u8; 24] {
    let mut bytes = FROM_7;
    bytes[1] = flags;
    bytes[7] = my;
    bytes[9] = (your >> 16 & 0xff) as u8;
    bytes[10] = (your >> 8 & 0xff) as u8;
    bytes[11] = (your & 0xff) as u8;
    bytes
}

// What `select` of a table answers where `screen` of the first one names a row, and else the test that this answers.
fn screened<L: Ledger>(
    first: &Demux,
    table: &Demux,
    arrival: &Arrival,
    blank: Blank,
) -> Result<Target, Test>
    requires blank { IsBlankOf L.name L.parts blank.name blank.parts }
{
    let mut steps = Steps::<L>::new(blank);
    first.screen(arrival, &mut steps)?;
    table.select(arrival, &mut steps)
}

fn select_after(first: &Demux, table: &Demux, arrival: &Arrival) -> Result<Target, Test> {
    screened::<Brand>(first, table, arrival, Blank::new(1))
}

fn select(table: &Demux, arrival: &Arrival) -> Result<Target, Test> {
    select_after(table, table, arrival)
}

// An interface, and the addresses that a packet comes from and goes to.
type Way = (u32, Addr, Addr);

const WAY: Way = (1, REMOTE, LOCAL);

const WAY_2: Way = (2, REMOTE, LOCAL);

const WAY_6: Way = (2, REMOTE_6, LOCAL_6);

const TREE: Way = (1, REMOTE, GROUP);

const TREE_2: Way = (2, REMOTE, GROUP);

// The port and the way, the packet's flags, My and Your Discriminator, and what it is for.
type Case = (Port, Way, u8, u8, u32, Result<Target, Test>);

// Whether the table selects so.
fn is_so(alloc: Global, table: &Demux, case: &Case) -> Result<bool, AllocError> {
    let (port, (iface, src, dst), flags, my, your, want) = *case;
    let came = arrival(port, iface, src, dst, &packet(flags, my, your), alloc)?;
    Ok(select(table, &came) == want)
}

// Whether the table selects so in all these cases.
fn are_so(alloc: Global, table: &Demux, cases: &[Case]) -> Result<bool, AllocError> {
    for case in cases {
        if !is_so(alloc, table, case)? {
            return Ok(false);
        }
    }
    Ok(true)
}

/// Why there is no table of these rows.
fn fault(alloc: Global, rows: &[Row]) -> Option<BuildFault> {
    Demux::build(alloc, rows).err()
}

#[test]
fn refuses_discriminators(rt: HostRuntime) -> Result<(), Fail> {
    let alloc = rt.alloc();
    for ([a, b, c, d], want) in [
        ([7, 7, 7, 8], BuildFault::SameDiscr(0, 1)),
        ([1, 2, 2, 1], BuildFault::SameDiscr(1, 2)),
        ([1, 2, 3, 1], BuildFault::SameDiscr(0, 3)),
        ([5, 5, 0, 0], BuildFault::ZeroDiscr(2)),
    ] {
        assert!(rt;
            fault(
                alloc,
                &[initiator(a), initiator(b), initiator(c), initiator(d)]
            ) == Some(want)
        );
    }
    let many = vec![in alloc; initiator(1); 65_537]?;
    assert!(rt; fault(alloc, &many) == Some(BuildFault::TooMany(65_537)));
    Ok(())
}

#[test]
fn refuses_addresses(rt: HostRuntime) {
    for (first, second, discr, want) in [
        (
            single(1, 1, LOCAL, REMOTE),
            single(2, 1, LOCAL, REMOTE),
            4,
            BuildFault::SameAddresses(0, 1),
        ),
        (
            multi(1, LOCAL, REMOTE),
            multi(2, LOCAL, REMOTE),
            4,
            BuildFault::SameAddresses(0, 1),
        ),
        (
            tail(1, 9, 1),
            tail(2, 9, 1),
            4,
            BuildFault::SameAddresses(0, 1),
        ),
        (
            multi(1, LOCAL, REMOTE),
            multi(2, LOCAL, REMOTE),
            3,
            BuildFault::SameDiscr(2, 3),
        ),
    ] {
        assert!(rt;
            fault(rt.alloc(), &[first, second, initiator(3), initiator(discr)]) == Some(want)
        );
    }
}

/// What a table of another row selects for a packet of the session 1 that was screened by its own.
fn by_another(alloc: Global, your: u32) -> Option<Result<Target, Test>> {
    let here = Demux::build(alloc, &[single(1, 1, LOCAL, REMOTE)]).ok()?;
    let other = Demux::build(alloc, &[initiator(3)]).ok()?;
    let bytes = packet(0x40, 7, your);
    let came = arrival(Port::Single, 1, REMOTE, LOCAL, &bytes, alloc).ok()?;
    Some(select_after(&here, &other, &came))
}

#[test]
fn selects_nothing_by_another_table(rt: HostRuntime) {
    assert!(rt; by_another(rt.alloc(), 0) == Some(Err(Test::NoSession)));
    assert!(rt; by_another(rt.alloc(), 1) == Some(Err(Test::YourUnknown)));
}

// A row of each kind, in no order. The sessions are, ascending: 1, 2, 3, 5, 6, 8, 30.
fn all_kinds() -> [Row; 8] {
    let head = RowKind::Head;
    let reflector = RowKind::Reflect;
    [
        tail(30, 77, 1),
        initiator(3),
        multi(8, LOCAL_6, REMOTE_6),
        single(1, 1, LOCAL, REMOTE),
        Row {
            discr: 5,
            kind: head,
        },
        single(6, 2, LOCAL_6, REMOTE_6),
        Row {
            discr: 4,
            kind: reflector,
        },
        multi(2, LOCAL, REMOTE),
    ]
}

#[test]
fn selects_each_kind(rt: HostRuntime) -> Result<(), Fail> {
    let Ok(table) = Demux::build(rt.alloc(), &all_kinds()) else {
        return Err(Fail::from("no table"));
    };
    let cases = [
        (Port::Single, WAY, 0x40, 7, 0, Ok(Target::Session(0))),
        (Port::Single, WAY, 0xc0, 7, 0, Err(Test::YourZeroState)),
        (Port::Single, WAY, 0x40, 7, 9, Err(Test::YourUnknown)),
        (Port::Single, WAY_2, 0x40, 7, 0, Err(Test::NoSession)),
        (
            Port::Single,
            (9, LOCAL, LOCAL),
            0xc0,
            7,
            1,
            Ok(Target::Session(0)),
        ),
        (
            Port::Multi,
            (9, REMOTE, LOCAL),
            0x40,
            7,
            0,
            Ok(Target::Session(1)),
        ),
        (Port::Single, WAY_6, 0x40, 7, 0, Ok(Target::Session(4))),
        (
            Port::Multi,
            (3, REMOTE_6, LOCAL_6),
            0x40,
            7,
            0,
            Ok(Target::Session(5)),
        ),
        (Port::Answer, WAY, 0xc0, 7, 3, Ok(Target::Session(2))),
        (Port::Answer, WAY, 0x40, 7, 0, Err(Test::NoSession)),
        (Port::Sbfd, WAY, 0x40, 7, 4, Ok(Target::Reflector(0))),
        (Port::Sbfd, WAY, 0x40, 7, 0, Err(Test::YourUnknown)),
        (Port::Sbfd, WAY, 0x40, 7, 3, Err(Test::YourUnknown)),
        (Port::Single, WAY, 0x40, 7, 2, Err(Test::YourUnknown)),
        (Port::Single, WAY, 0x40, 7, 5, Err(Test::YourUnknown)),
        (Port::Single, WAY, 0x40, 7, 30, Err(Test::YourUnknown)),
        (Port::Multi, WAY, 0x40, 7, 1, Err(Test::YourUnknown)),
        (Port::Answer, WAY, 0x40, 7, 1, Err(Test::YourUnknown)),
        (Port::Single, TREE, 0xc3, 77, 0, Ok(Target::Session(6))),
        (Port::Single, TREE, 0xc3, 77, 30, Err(Test::MultipointYour)),
        (Port::Single, TREE, 0xc3, 77, 1, Err(Test::MultipointYour)),
        (Port::Single, TREE, 0xc3, 78, 0, Err(Test::NoTail)),
        (Port::Single, TREE_2, 0xc3, 77, 0, Err(Test::NoTail)),
        (Port::Multi, TREE, 0xc3, 77, 0, Err(Test::Multipoint)),
    ];
    assert!(rt; are_so(rt.alloc(), &table, &cases)?);
    Ok(())
}

// The selection. Where it looks up no addresses, it takes at most 17 steps, whatever the table's length.
fn selected<L: Ledger>(
    table: &Demux,
    arrival: &Arrival,
    steps: &mut Steps<L>,
) -> Result<Target, Test>
    ensures { is_by_addresses arrival.now.port arrival.now ≡ false → steps.new ≤ steps.old + 17 }
{
    table.screen(arrival, steps)
}

// What the packets of initiators' peers with these Your Discriminators are for.
fn answered<L: Ledger>(
    alloc: Global,
    table: &Demux,
    yours: &[u32],
    blank: Blank,
) -> Result<Vec<Result<Target, Test>>, AllocError>
    requires blank { IsBlankOf L.name L.parts blank.name blank.parts }
{
    let mut steps = Steps::<L>::new(blank);
    let mut targets = Vec::new(alloc);
    for your in yours {
        let came = arrival(
            Port::Answer,
            1,
            REMOTE,
            LOCAL,
            &packet(0xc0, 7, *your),
            alloc,
        )?;
        targets.push(selected(table, &came, &mut steps))?;
    }
    Ok(targets)
}

#[test]
fn selects_among_65536_initiators(rt: HostRuntime) -> Result<(), Fail> {
    let mut rows = Vec::with_capacity(rt.alloc(), 65_536)?;
    for discr in 1..65_537 {
        rows.push(initiator(discr))?;
    }
    let Ok(table) = Demux::build(rt.alloc(), &rows) else {
        return Err(Fail::from("no table"));
    };
    let targets = answered::<Brand>(
        rt.alloc(),
        &table,
        &[1, 40_001, 65_536, 65_537],
        Blank::new(1),
    )?;
    let want = [
        Ok(Target::Session(0)),
        Ok(Target::Session(40_000)),
        Ok(Target::Session(65_535)),
        Err(Test::YourUnknown),
    ];
    assert!(rt; targets.as_slice() == want.as_slice());
    Ok(())
}

// A table to which these rows are added one after another, each before those that stand.
fn grown(alloc: Global, rows: &[Row]) -> Option<Demux> {
    let mut table = Demux::build(alloc, &[]).ok()?;
    for row in rows {
        table.add(0, row).ok()?;
    }
    Some(table)
}

#[test]
fn grows_row_by_row(rt: HostRuntime) -> Result<(), Fail> {
    let alloc = rt.alloc();
    let Some(mut table) = grown(alloc, &all_kinds()) else {
        return Err(Fail::from("no table"));
    };
    for (row, want) in [
        (initiator(0), AddFault::ZeroDiscr),
        (initiator(4), AddFault::SameDiscr),
        (single(30, 1, LOCAL, REMOTE), AddFault::SameDiscr),
        (single(7, 1, LOCAL, REMOTE), AddFault::SameAddresses),
        (multi(7, LOCAL_6, REMOTE_6), AddFault::SameAddresses),
        (tail(7, 77, 1), AddFault::SameAddresses),
    ] {
        assert!(rt; table.add(0, &row) == Err(want));
    }
    let cases = [
        (Port::Single, WAY, 0x40, 7, 0, Ok(Target::Session(0))),
        (Port::Single, WAY, 0x40, 7, 7, Err(Test::YourUnknown)),
        (Port::Single, WAY_6, 0x40, 7, 0, Ok(Target::Session(4))),
        (Port::Answer, WAY, 0xc0, 7, 3, Ok(Target::Session(2))),
        (Port::Sbfd, WAY, 0x40, 7, 4, Ok(Target::Reflector(0))),
        (Port::Single, TREE, 0xc3, 77, 0, Ok(Target::Session(6))),
    ];
    assert!(rt; are_so(alloc, &table, &cases)?);
    Ok(())
}

// The echo packet with one byte changed.
fn echo(at: usize, byte: u8) -> [u8; 16] {
    let mut bytes = ECHO;
    if at < 16 {
        bytes[at] = byte;
    }
    bytes
}

// What the table selects for these bytes on the port of echo packets.
fn select_echo(alloc: Global, table: &Demux, bytes: &[u8]) -> Option<Result<Target, Test>> {
    let came = arrival(Port::Echo, 1, LOCAL, LOCAL, bytes, alloc).ok()?;
    Some(select(table, &came))
}

#[test]
fn selects_echo_packets(rt: HostRuntime) -> Result<(), Fail> {
    let alloc = rt.alloc();
    let Ok(table) = Demux::build(alloc, &all_kinds()) else {
        return Err(Fail::from("no table"));
    };
    for (bytes, want) in [
        (ECHO, Ok(Target::Echo(0, 9))),
        (echo(7, 6), Ok(Target::Echo(4, 9))),
        (echo(7, 2), Err(Test::YourUnknown)),
        (echo(7, 9), Err(Test::YourUnknown)),
        (echo(0, 0x43), Err(Test::EchoForm)),
        (echo(15, 1), Err(Test::EchoForm)),
    ] {
        assert!(rt; select_echo(alloc, &table, &bytes) == Some(want));
    }
    assert!(rt; select_echo(alloc, &table, &ECHO[..15]) == Some(Err(Test::EchoForm)));
    Ok(())
}
