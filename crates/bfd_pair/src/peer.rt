//! One side: its session, how packets reach it, and all that it has sent.
ghost use Rattle.std.specs.Prelude.{◌≡◌, ◌<◌, ◌≤◌, ◌+◌, ◌*◌, ◌++◌, ◌∷◌, [], ℕ, List, max, length, drop, vec_len, vec_capacity, IfOk, OnOk};
ghost use Rattle.std.specs.Prelude.{OnErr, None, Some, MatchOption};
ghost use Rattle.std.specs.Result.{result_err};
ghost use Rattle.bfd_num.specs.Numbers.{moment_bound, greatest_tick};
ghost use Rattle.bfd_packet.specs.declared.arrival.Arrival.{Arrival};
ghost use Rattle.bfd_demux.specs.Selection.{first_header_failing, first_table_failing};
ghost use Rattle.bfd_session.specs.declared.event.SessionConfig.TheVariants.{PointToPoint};
ghost use Rattle.bfd_session.specs.Alone as alone;
ghost use Rattle.bfd_session.specs.Step.{IsFit, CanTake};
ghost use Rattle.bfd_session.specs.Rows as rows;
ghost use Rattle.bfd_pair.specs.Run.{arrival_to, packets_among, packet_at};
ghost use Rattle.bfd_pair.specs.Run as run;
ghost use Rattle.bfd_pair.specs.Inside.{seen, by_way, IsPeer};
ghost use Rattle.bfd_num.specs.Counting.{IsBlankOf};

use crate::PairAnswer;
use bfd_demux::{BuildFault, Demux, Target};
use bfd_num::Steps;
use bfd_p2p::control_port;
use bfd_packet::{Addr, Arrival, Payload, Port, SOURCE_PORT, Test, Wire};
use bfd_rules::{Config, Out, Outs};
use bfd_session::{Answer, Event, Session, SessionConfig, row_of};
use std::alloc::{AllocError, Global};
use std::marker::Brand;
use std::sync::ledger::{Blank, Ledger};

/// How packets reach a side.
#[derive(Clone, Copy)]
pub(crate) struct Way {
    pub(crate) port: Port,
    pub(crate) iface: u32,
    pub(crate) local: Addr,
    pub(crate) remote: Addr,
}

/// One side.
#[derive(Drop)]
pub(crate) struct Peer {
    pub(crate) session: Session,
    pub(crate) table: Demux,
    pub(crate) way: Way,
    pub(crate) sent: Vec<Wire>,
}

/// The table of one row, which is that of a session.
#[tactic(auto, using(crate::proofs::Peers::no_fault))]
fn table(alloc: Global, config: &SessionConfig) -> Result<Demux, AllocError>
    requires { IsFit config.now }
    ensures { IfOk result (λ demux. demux ≡ rows.row_of config.now ∷ []) }
{
    match Demux::build(alloc, &[row_of(config)]) {
        Ok(demux) => Ok(demux),
        Err(BuildFault::Memory) => Err(AllocError),
        Err(_) => unreachable!(),
    }
}

/// How packets reach a session of this configuration.
fn way_to(config: &Config) -> Way
    ensures { (bytes : List ℕ) → arrival_to (PointToPoint config.now) bytes ≡ Some (by_way result bytes) }
{
    Way {
        port: control_port(config.role),
        iface: config.iface,
        local: config.local,
        remote: config.remote,
    }
}

/// A side at the start. Fails only when out of memory.
pub(crate) fn open(alloc: Global, config: Config) -> Result<Peer, AllocError>
    requires { IsFit (PointToPoint config) }
    ensures peer { IfOk result (λ p. IsPeer p) }
    ensures opened { IfOk result (λ p. seen p ≡ run.opened_side (PointToPoint config)) }
{
    let way = way_to(&config);
    let config = SessionConfig::PointToPoint(config);
    let table = table(alloc, &config)?;
    Ok(Peer {
        session: Session::make(config),
        table,
        way,
        sent: Vec::new(alloc),
    })
}

/// Keeps the packet of an output.
fn keep_one(sent: &mut Vec<Wire>, item: &Out)
    requires room { vec_len sent.old + length (packets_among (item.now ∷ [])) ≤ vec_capacity sent.old }
    ensures items { sent.new.items ≡ sent.old.items ++ packets_among (item.now ∷ []) }
    ensures len { vec_len sent.new ≡ vec_len sent.old + length (packets_among (item.now ∷ [])) }
    ensures capacity { vec_capacity sent.new ≡ vec_capacity sent.old }
{
    if let Out::Sent { datagram, .. } = item {
        sent.push_reserved(Wire::of(datagram.bytes.as_slice()));
    }
}

/// Keeps the packets among outputs, for which there is room.
fn keep(sent: &mut Vec<Wire>, items: &[Out])
    requires room { vec_len sent.old + length (packets_among items.now) ≤ vec_capacity sent.old }
    ensures items { sent.new.items ≡ sent.old.items ++ packets_among items.now }
{
    for item in items {
        keep_one(sent, item);
    }
}

/// The outputs after the first `from`.
#[tactic(auto, using(crate::proofs::Peers::to_the_end))]
fn since(outs: &Outs, from: usize) -> &[Out]
    requires { from ≤ length outs.now.items }
    ensures value { result.now ≡ drop from outs.now.items }
    ensures room { length outs.now.items + outs.now.spare ≡ outs.now.room }
{
    &outs.items()[from..]
}

/// A tick of a side.
#[tactic(auto, using(crate::proofs::Peers::few, crate::proofs::Peers::put_since, crate::proofs::Peers::at_below))]
pub(crate) fn tick(peer: &mut Peer, last: u64, outs: &mut Outs)
    requires peer { IsPeer peer.old }
    requires last { last ≤ greatest_tick }
    requires room { 5 ≤ outs.old.spare }
    requires more { vec_len peer.old.sent + 5 ≤ vec_capacity peer.old.sent }
    ensures peer { IsPeer peer.new }
    ensures seen { seen peer.new ≡ run.ticking last (seen peer.old) }
    ensures outs { outs.new.items ≡ outs.old.items ++ alone.tick_items last peer.old.session }
    ensures spare { outs.old.spare ≤ outs.new.spare + 5 }
    ensures room { outs.new.room ≡ outs.old.room }
{
    let from = outs.items().len();
    let at = peer.session.vars().at;
    let limit = 1000 * last;
    peer.session.tick(limit, limit.max(at), outs);
    keep(&mut peer.sent, since(outs, from));
}

/// An own event of a side.
#[tactic(auto, using(crate::proofs::Peers::few, crate::proofs::Peers::put_since, crate::proofs::Peers::at_below))]
pub(crate) fn own_move(
    peer: &mut Peer,
    last: u64,
    moment: u64,
    event: &Event,
    outs: &mut Outs,
) -> Answer
    requires peer { IsPeer peer.old }
    requires takes { CanTake peer.old.session.config event.now }
    requires last { last ≤ greatest_tick }
    requires moment { moment < moment_bound }
    requires room { 5 ≤ outs.old.spare }
    requires more { vec_len peer.old.sent + 5 ≤ vec_capacity peer.old.sent }
    ensures peer { IsPeer peer.new }
    ensures seen { seen peer.new ≡ (run.own_move moment last event.now (seen peer.old)).end }
    ensures outs { outs.new.items ≡ outs.old.items ++ (run.own_move moment last event.now (seen peer.old)).items }
    ensures answer { PairAnswer.Did result ≡ (run.own_move moment last event.now (seen peer.old)).answer }
    ensures spare { outs.old.spare ≤ outs.new.spare + 5 }
    ensures room { outs.new.room ≡ outs.old.room }
{
    let from = outs.items().len();
    let at = peer.session.vars().at;
    let eff = moment.max((1000 * last).max(at));
    let answer = peer.session.step(eff, event, outs);
    keep(&mut peer.sent, since(outs, from));
    answer
}

/// A packet as it reaches a side. Fails only when out of memory.
#[tactic(auto, using(crate::proofs::Peers::whole))]
fn arrival(alloc: Global, way: &Way, wire: &Wire) -> Result<Arrival, AllocError>
    ensures { IfOk result (λ a. a ≡ by_way way.now wire.now) }
{
    let payload = Payload::keep(alloc, wire.as_slice())?;
    Ok(Arrival {
        port: way.port,
        iface: way.iface,
        src: way.remote,
        sport: SOURCE_PORT,
        dst: way.local,
        ttl: 255,
        payload,
    })
}

/// What the arrival is for, or the first of the tests up to selection that it fails, with a counter of steps of its own.
fn screened<L: Ledger>(table: &Demux, arrival: &Arrival, blank: Blank) -> Result<Target, Test>
    requires blank { IsBlankOf L.name L.parts blank.name blank.parts }
    ensures tests { result_err result ≡ first_table_failing table.now arrival.now }
    ensures header { OnOk result (first_header_failing arrival.now ≡ None) }
{
    table.screen(arrival, &mut Steps::<L>::new(blank))
}

/// A packet reaches a side.
#[tactic(auto, using(crate::proofs::Peers::takes_packet))]
fn receive(peer: &mut Peer, last: u64, moment: u64, arrival: Arrival, outs: &mut Outs) -> PairAnswer
    requires peer { IsPeer peer.old }
    requires comes { arrival ≡ by_way peer.old.way arrival.payload }
    requires last { last ≤ greatest_tick }
    requires moment { moment < moment_bound }
    requires room { 5 ≤ outs.old.spare }
    requires more { vec_len peer.old.sent + 5 ≤ vec_capacity peer.old.sent }
    ensures peer { IsPeer peer.new }
    ensures seen { seen peer.new ≡ (run.arrives moment last arrival (seen peer.old)).end }
    ensures outs { outs.new.items ≡ outs.old.items
        ++ (run.arrives moment last arrival (seen peer.old)).items }
    ensures answer { result ≡ (run.arrives moment last arrival (seen peer.old)).answer }
    ensures spare { outs.old.spare ≤ outs.new.spare + 5 }
    ensures room { outs.new.room ≡ outs.old.room }
{
    match screened::<Brand>(&peer.table, &arrival, Blank::new(1)) {
        Ok(_) => PairAnswer::Did(own_move(peer, last, moment, &Event::Packet(arrival), outs)),
        Err(test) => PairAnswer::Did(Answer::Dropped(test)),
    }
}

/// The packet of this number, the first being 1.
fn packet(sent: &[Wire], number: u64) -> Option<&Wire>
    ensures { MatchOption result (packet_at number sent.now ≡ None)
        (λ wire. packet_at number sent.now ≡ Some wire.now) }
{
    if number == 0 {
        return None;
    }
    sent.get(number as usize - 1)
}

/// A side is given the packet of this number among those that were sent. When out of memory it fails, and all is as before.
#[tactic(auto, using(crate::proofs::Peers::comes_by))]
pub(crate) fn give(
    peer: &mut Peer,
    sent: &[Wire],
    alloc: Global,
    last: u64,
    moment: u64,
    number: u64,
    outs: &mut Outs,
) -> Result<PairAnswer, AllocError>
    requires peer { IsPeer peer.old }
    requires last { last ≤ greatest_tick }
    requires moment { moment < moment_bound }
    requires room { 5 ≤ outs.old.spare }
    requires more { vec_len peer.old.sent + 5 ≤ vec_capacity peer.old.sent }
    ensures peer { IsPeer peer.new }
    ensures seen { OnOk result (seen peer.new ≡ (run.gives number sent.now moment last (seen peer.old)).end) }
    ensures outs { OnOk result (outs.new.items
        ≡ outs.old.items ++ (run.gives number sent.now moment last (seen peer.old)).items) }
    ensures answer { IfOk result (λ a. a ≡ (run.gives number sent.now moment last (seen peer.old)).answer) }
    ensures same_peer { OnErr result (peer.new ≡ peer.old) }
    ensures same_outs { OnErr result (outs.new ≡ outs.old) }
    ensures spare { outs.old.spare ≤ outs.new.spare + 5 }
    ensures room { outs.new.room ≡ outs.old.room }
{
    let Some(wire) = packet(sent, number) else {
        return Ok(PairAnswer::NoPacket(sent.len() as u64));
    };
    let arrival = arrival(alloc, &peer.way, wire)?;
    Ok(receive(peer, last, moment, arrival, outs))
}
