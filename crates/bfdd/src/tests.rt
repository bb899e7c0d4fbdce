//! Runs over the outside of memory: how source and sink give, accept and fail, and what is written then.
ghost use Rattle.std.specs.Prelude.{◌≡◌, false, IfOk};
ghost use Rattle.bfd_edge.specs.Links.{IsNewLink};
ghost use Rattle.bfd_edge.specs.MemoryLink as memory_link;
ghost use Rattle.bfd_edge.specs.MemoryPorts.{AllNew};

use crate::{Status, run};
use bfd_edge::{Gate, Heard, MemLink, MemPorts, MemSink, MemSource, MemTicker, OpenGate, Ticker};
use bfd_num::{Moment, Tick};
use bfd_packet::{Addr, Arrival, Payload, Port, SOURCE_PORT};
use bfd_script::fields::LineFault;
use std::alloc::{AllocError, Global};
use std::sync::Wait;
use std::test::Fail;
use std::thread::Threads;

/// What a link hears next: the packet of [`DOWN`] at this moment, nothing for now, or a failure.
#[derive(Clone, Copy)]
pub(crate) enum Hears {
    Packet(u64),
    Quiet,
    Failed,
}

/// A packet in Down from a peer with discriminator 7.
const DOWN: &[u8] = &[
    0x20, 0x40, 3, 24, 0, 0, 0, 7, 0, 0, 0, 0, 0, 0x0f, 0x42, 0x40, 0, 0, 0, 0, 0, 0, 0, 0,
];

/// That packet, to the session 1.
fn packet(alloc: Global) -> Result<Arrival, AllocError> {
    let payload = Payload::keep(alloc, DOWN)?;
    Ok(Arrival {
        port: Port::Single,
        iface: 1,
        src: Addr::V4(0x0a00_0002),
        sport: SOURCE_PORT,
        dst: Addr::V4(0x0a00_0001),
        ttl: 255,
        payload,
    })
}

/// A link that hears these, and fails at the calls of `send` named.
fn link(alloc: Global, hears: &[Hears], fails: Vec<u64>) -> Result<MemLink, AllocError>
    ensures { IfOk result (λ link. IsNewLink (memory_link.observed_of link)) }
{
    let mut heard = Vec::new(alloc);
    for next in hears {
        heard.push(match next {
            Hears::Packet(at) => { Heard::Got(Moment::new(*at).ok_or(AllocError)?, packet(alloc)?) }
            Hears::Quiet => Heard::Quiet,
            Hears::Failed => Heard::Failed,
        })?;
    }
    Ok(MemLink::make(alloc, heard, fails))
}

/// The call that fails, if one does.
fn calls(alloc: Global, call: Option<u64>) -> Result<Vec<u64>, AllocError> {
    let mut all = Vec::new(alloc);
    if let Some(call) = call {
        all.push(call)?;
    }
    Ok(all)
}

/// The links of caller 0 and of two workers.
fn links(
    alloc: Global,
    first: &[Hears],
    second: &[Hears],
    send_fails: Option<u64>,
) -> Result<Vec<MemLink>, AllocError>
    ensures { IfOk result (λ links. AllNew links.items) }
{
    let own = link(alloc, &[], calls(alloc, send_fails)?)?;
    let first = link(alloc, first, Vec::new(alloc))?;
    let second = link(alloc, second, Vec::new(alloc))?;
    let mut links = Vec::new(alloc);
    links.push(own)?;
    links.push(first)?;
    links.push(second)?;
    Ok(links)
}

/// The words of a command line.
fn words_of(alloc: Global, line: &[&str]) -> Result<Vec<String>, AllocError> {
    let mut words = Vec::new(alloc);
    for word in line {
        words.push(String::from_str(alloc, word)?)?;
    }
    Ok(words)
}

/// One run: its words and its text, what the links of two workers hear, the ticks that come, how many bytes the source gives in a call
/// and the sink accepts, and the calls that fail. Then what must be the result: the status, what the sink has, and how many links are shut.
#[derive(Clone, Copy)]
pub(crate) struct Case<'a> {
    pub(crate) words: &'a [&'a str],
    pub(crate) text: &'a str,
    pub(crate) first: &'a [Hears],
    pub(crate) second: &'a [Hears],
    pub(crate) ticks: &'a [u64],
    pub(crate) source_chunk: usize,
    pub(crate) sink_chunk: usize,
    pub(crate) source_fails: Option<u64>,
    pub(crate) sink_fails: Option<u64>,
    pub(crate) open_fails: Option<u64>,
    pub(crate) send_fails: Option<u64>,
    pub(crate) tick_fails: Option<u64>,
    pub(crate) status: Status,
    pub(crate) written: &'a str,
    pub(crate) shut: u32,
}

/// A run in which nothing is heard and nothing fails.
pub(crate) fn calm<'a>(words: &'a [&'a str], text: &'a str, written: &'a str) -> Case<'a> {
    Case {
        words,
        text,
        first: &[],
        second: &[],
        ticks: &[],
        source_chunk: 16,
        sink_chunk: 10,
        source_fails: None,
        sink_fails: None,
        open_fails: None,
        send_fails: None,
        tick_fails: None,
        status: Status::Done,
        written,
        shut: 0,
    }
}

/// How a run ended: its status, what was written, and which of the links 0 to 2 are shut.
#[derive(Drop)]
pub(crate) struct Outcome {
    pub(crate) status: Status,
    pub(crate) written: Vec<u8>,
    pub(crate) shut: (bool, bool, bool),
}

impl Outcome {
    /// Whether this is the result of the case, as it says: the status, and what was written.
    pub(crate) fn is_reported(&self, case: &Case<'_>) -> bool {
        self.status == case.status && self.written.as_slice() == case.written.as_bytes()
    }
}

/// Runs a case with this ticker and this gate.
pub(crate) fn met<R: Threads + Wait + Sync, T: Ticker + Send, G: Gate + Sync>(
    rt: &R,
    alloc: Global,
    case: &Case<'_>,
    ticker: &mut T,
    gate: &G,
) -> Result<Outcome, AllocError>
    requires clock { (T.observed ticker.old).over ≡ false }
{
    let words = words_of(alloc, case.words)?;
    let text = case.text.as_bytes().to_vec(alloc)?;
    let mut source = MemSource::make(
        text,
        case.source_chunk.max(1),
        calls(alloc, case.source_fails)?,
    );
    let mut sink = MemSink::make(
        alloc,
        case.sink_chunk.max(1),
        calls(alloc, case.sink_fails)?,
    );
    let links = links(alloc, case.first, case.second, case.send_fails)?;
    let mut ports = MemPorts::make(alloc, links, calls(alloc, case.open_fails)?);
    let status = run(
        rt,
        alloc,
        &words,
        &mut source,
        &mut sink,
        &mut ports,
        ticker,
        gate,
    );
    let shut = (
        ports.shut_link(0).is_some(),
        ports.shut_link(1).is_some(),
        ports.shut_link(2).is_some(),
    );
    Ok(Outcome {
        status,
        written: sink.as_slice().to_vec(alloc)?,
        shut,
    })
}

/// Runs a case with a ticker of its ticks.
pub(crate) fn ended<R: Threads + Wait + Sync>(
    rt: &R,
    alloc: Global,
    case: &Case<'_>,
) -> Result<Outcome, AllocError> {
    let mut ticks = Vec::new(alloc);
    for tick in case.ticks {
        ticks.push(Tick::new(*tick).ok_or(AllocError)?)?;
    }
    let mut ticker = MemTicker::make(ticks, calls(alloc, case.tick_fails)?);
    met(rt, alloc, case, &mut ticker, &OpenGate)
}

/// Two ticks, 31 bytes.
const TICKS: &str = "bfd 1\nrun\ntick 1\ntick 3001\nend\n";

const REPORT: &str = "done 2 0 0\n";

const FAULTY: &str = "bfd 1\nrun\ntick 01\nend\n";

/// A replay from a source that gives so many bytes in a call, of which one may fail.
fn reading(
    source_chunk: usize,
    source_fails: Option<u64>,
    status: Status,
    written: &'static str,
) -> Case<'static> {
    let mut case = calm(&["replay"], TICKS, written);
    case.source_chunk = source_chunk;
    case.source_fails = source_fails;
    case.status = status;
    case
}

/// A replay to a sink of which a call fails.
fn writing(text: &'static str, call: u64, status: Status, written: &'static str) -> Case<'static> {
    let mut case = calm(&["replay"], text, written);
    case.sink_fails = Some(call);
    case.status = status;
    case
}

/// Two sessions, each of which sends by the one tick.
const TWO: &str = "bfd 1
p2p 1 single 1 10.0.0.1 10.0.0.2 active 1000000 1000000 3 0 1
p2p 2 single 1 10.0.0.1 10.0.0.3 active 1000000 1000000 3 0 2
run
tick 1000
end
";

const SENT: &str = "1 tx 1 204003180000000100000000000f4240000f424000000000
1 tx 2 204003180000000200000000000f4240000f424000000000
done 1 2 0
";

/// By one worker the report is written as it comes.
const BY_ONE: &[&str] = &["replay", "--shards", "2"];

/// By two it is complete before, in texts.
const BY_TWO: &[&str] = &["replay", "--shards", "2", "--workers", "2"];

/// A replay on two shards with a session each, to a sink of which a call may fail.
fn on_shards(
    words: &'static [&'static str],
    call: Option<u64>,
    status: Status,
    written: &'static str,
) -> Case<'static> {
    let mut case = calm(words, TWO, written);
    case.sink_fails = call;
    case.status = status;
    case
}

#[test]
fn runs(rt: HostRuntime) -> Result<(), Fail> {
    let bad = Status::BadLine {
        line: 3,
        fault: LineFault::BadNumber,
    };
    let cases = [
        reading(1, None, Status::Done, REPORT),
        reading(7, None, Status::Done, REPORT),
        reading(16, None, Status::Done, REPORT),
        reading(16, Some(0), Status::ReadFault, ""),
        reading(16, Some(2), Status::ReadFault, ""),
        writing(TICKS, 1, Status::WriteFault, "done 2 0 0"),
        writing(TICKS, 0, Status::WriteFault, ""),
        on_shards(BY_ONE, None, Status::Done, SENT),
        on_shards(BY_ONE, Some(1), Status::WriteFault, "1 tx 1 204"),
        on_shards(BY_TWO, None, Status::Done, SENT),
        on_shards(BY_TWO, Some(1), Status::WriteFault, "1 tx 1 204"),
        writing(FAULTY, 9, bad, "bad 3 BadNumber\n"),
        writing(FAULTY, 1, bad, "bad 3 BadN"),
    ];
    for case in &cases {
        let ended = ended(&rt, rt.alloc(), case)?;
        assert!(rt; ended.is_reported(case));
    }
    Ok(())
}
