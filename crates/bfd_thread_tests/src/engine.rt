//! Two shards' turns at one time, a full journal, calls for nobody, and a session that is given twice.
ghost use Rattle.std.specs.Prelude.{◌≡◌, ◌≤◌, ◌<◌, ◌+◌, [], IfOk, IfSome, OnErr, length};
ghost use Rattle.bfd_session.specs.Step.{IsFit};
ghost use Rattle.bfd_session.specs.Kinds.{discr_of};
ghost use Rattle.bfd_session.specs.Rows.{AreFit};
ghost use Rattle.bfd_engine.specs.Engines.{IsOf, AllThere};
ghost use Rattle.bfd_engine.specs.Opening.{IsNewPass};
ghost use Rattle.bfd_session.specs.Tables.{IsSorted};
ghost use Rattle.bfd_thread_tests.specs.Joining.{HasOpen};
ghost use Rattle.bfd_num.specs.Counting.{IsBlankOf};

use crate::eight::packet;
use bfd_demux::BuildFault;
use bfd_engine::{Engine, EngineFault, EnginePass, HoldFault, OpenFault};
use bfd_num::{Moment, Steps, Tick};
use bfd_packet::{Addr, Arrival, Test};
use bfd_rules::{Cmd, Config, Outs, Refusal, Role};
use bfd_session::{Answer, SessionConfig};
use bfd_shard::{Entry, ShardState};
use bfd_wheel::PlainTimers;
use std::alloc::{AllocError, Global};
use std::marker::Brand;
use std::process::Abort;
use std::sync::Wait;
use std::sync::ledger::{Blank, Ledger};

pub(crate) type Plain = Engine<PlainTimers>;

/// A session over a single hop, on an interface of its own.
fn config(discr: u32) -> SessionConfig
    requires discr { (0 < discr) × (discr < 65536) }
    ensures fit { IsFit result }
    ensures discr { discr_of result ≡ discr }
{
    SessionConfig::PointToPoint(Config {
        discr,
        role: Role::Single,
        iface: discr,
        local: Addr::V4(0x0a00_0001),
        remote: Addr::V4(0x0a00_0002),
        active: true,
        tx: 50_000,
        rx: 50_000,
        mult: 3,
        echo: 0,
        seed: discr,
        keys: None,
    })
}

/// The sessions 1 to 4.
fn configs(alloc: Global) -> Result<Vec<SessionConfig>, AllocError>
    ensures fit { IfOk result (λ list. AreFit list.items) }
    ensures sorted { IfOk result (λ list. IsSorted list.items []) }
    ensures long { IfOk result (λ list. length list.items ≡ 4) }
{
    let mut list = Vec::new(alloc);
    list.push(config(1))?;
    list.push(config(2))?;
    list.push(config(3))?;
    list.push(config(4))?;
    Ok(list)
}

/// An engine of four sessions in three shards, whose journals accept so many entries.
#[tactic(auto, using(crate::proofs::Joins::open_new))]
pub(crate) fn opened(alloc: Global, limit: usize) -> Option<(Plain, EnginePass)>
    ensures pass { IfSome result (λ r. IsNewPass r.0 r.1) }
    ensures passes { IfSome result (λ r. HasOpen r.0 r.1 []) }
    ensures shards { IfSome result (λ r. length r.0.locks ≡ 3) }
    ensures configs { IfSome result (λ r. length r.0.configs ≡ 4) }
{
    let list = configs(alloc).ok()?;
    Engine::open(alloc, list, Vec::new(alloc), 3, limit).ok()
}

/// Whether this caller may have the shard's turn. One that it has is given back; refused, it may ask again.
fn tries(engine: &Plain, pass: &mut EnginePass, shard: u32) -> Result<(), HoldFault>
    requires of { IsOf engine.now pass.old.1 }
    requires there { AllThere pass.old.1 }
    requires shard { shard < length engine.now.locks }
    ensures of { IsOf engine.now pass.new.1 }
    ensures there { OnErr result (AllThere pass.new.1) }
{
    match engine.try_hold(pass, shard) {
        Ok(hold) => {
            engine.let_go(pass, hold);
            Ok(())
        }
        Err(fault) => Err(fault),
    }
}

/// A further pass.
pub(crate) fn part(engine: &Plain, alloc: Global, first: &mut EnginePass) -> Option<EnginePass>
    requires of { IsOf engine.now first.old.1 }
    requires there { AllThere first.old.1 }
    requires first { first.old.0 ≡ 0 }
    requires few { first.old.2 < 64 }
    ensures of { IsOf engine.now first.new.1 }
    ensures there { AllThere first.new.1 }
    ensures number { first.new.0 ≡ 0 }
    ensures used { first.new.2 ≡ first.old.2 + 1 }
    ensures other { IfSome result (λ other. IsOf engine.now other.1 × AllThere other.1) }
{
    match engine.split(alloc, first) {
        Ok(other) => Some(other),
        Err(_) => None,
    }
}

/// What others are answered: one of shard 1, a second of shard 0 while a caller has its turn, and the second again after that.
fn are_reported(
    beside: Result<(), HoldFault>,
    same: Result<(), HoldFault>,
    after: Result<(), HoldFault>,
) -> bool {
    beside == Ok(()) && same == Err(HoldFault::Busy(1, 1)) && after == Ok(())
}

/// Whether others are answered so of shards 1 and 0 while a caller has the turn of shard 0, and of shard 0 after that.
fn reported_beside(
    engine: &Plain,
    first: &mut EnginePass,
    other: &mut EnginePass,
    third: &mut EnginePass,
) -> Option<bool>
    requires first { IsOf engine.now first.old.1 × AllThere first.old.1 }
    requires other { IsOf engine.now other.old.1 × AllThere other.old.1 }
    requires third { IsOf engine.now third.old.1 × AllThere third.old.1 }
    requires shards { length engine.now.locks ≡ 3 }
{
    let hold = engine.try_hold(first, 0).ok()?;
    let beside = tries(engine, other, 1);
    let same = tries(engine, third, 0);
    engine.let_go(first, hold);
    if same.is_ok() {
        return None;
    }
    let after = tries(engine, third, 0);
    Some(are_reported(beside, same, after))
}

/// The same of a new engine.
fn holds(alloc: Global) -> Option<bool> {
    let (engine, mut first) = opened(alloc, 100_000)?;
    let mut other = part(&engine, alloc, &mut first)?;
    let mut third = part(&engine, alloc, &mut first)?;
    reported_beside(&engine, &mut first, &mut other, &mut third)
}

#[test]
fn each_shard_has_a_turn_of_its_own(rt: HostRuntime) {
    assert!(rt; holds(rt.alloc()) == Some(true));
}

/// The sessions of a shard, by place.
pub(crate) fn configs_of(alloc: Global, shard: u32) -> Result<Vec<SessionConfig>, AllocError>
    ensures fit { IfOk result (λ list. AreFit list.items) }
    ensures few { IfOk result (λ list. length list.items ≤ 2) }
{
    let mut list = Vec::new(alloc);
    match shard {
        0 => {
            list.push(config(1))?;
            list.push(config(4))?;
        }
        1 => list.push(config(2))?,
        _ => list.push(config(3))?,
    }
    Ok(list)
}

/// The shard as it was opened.
pub(crate) fn fresh(alloc: Global, shard: u32) -> Result<ShardState<PlainTimers>, AllocError> {
    ShardState::make(alloc, configs_of(alloc, shard)?, 100_000)
}

/// One entry of a journal on one thread.
pub(crate) fn play<L: Ledger>(
    state: &mut ShardState<PlainTimers>,
    entry: Entry,
    outs: &mut Outs,
    steps: &mut Steps<L>,
) -> Option<Answer> {
    outs.clear();
    let Entry { caller, event } = entry;
    if !state.takes(&event) || outs.spare() < 5 * state.sessions().len() + 5 {
        return None;
    }
    match state.prepare() {
        Ok(()) => state.apply(caller, event, outs, steps).ok(),
        Err(_) => None,
    }
}

/// A question to a session, or a command for it, with room for what it emits.
fn asks<R: Wait, L: Ledger>(
    rt: &R,
    engine: &Plain,
    pass: &mut EnginePass,
    ask: (Moment, u32, Option<Cmd>),
    outs: &mut Outs,
    steps: &mut Steps<L>,
) -> Result<Answer, EngineFault>
    requires of { IsOf engine.now pass.old.1 }
    requires there { AllThere pass.old.1 }
    requires room { outs.old.room ≡ 5 }
    ensures of { IsOf engine.now pass.new.1 }
    ensures there { AllThere pass.new.1 }
    ensures room { outs.new.room ≡ 5 }
{
    outs.clear();
    let (moment, discr, cmd) = ask;
    match cmd {
        None => engine.show(rt, pass, moment, discr, outs, steps),
        Some(cmd) => engine.command(rt, pass, moment, discr, cmd, outs, steps),
    }
}

/// What calls of an engine with one place in each journal result in: a question fills it, and whatever is for its session after that is
/// Full; a question and a command for nobody are refused.
fn are_full(reported: [Result<Answer, EngineFault>; 5]) -> bool {
    let [shown, again, command, stray, reset] = reported;
    let full = Err(EngineFault::Full(0, 1));
    let unknown = Ok(Answer::Refused(Refusal::UnknownSession));
    shown.is_ok() && again == full && command == full && stray == unknown && reset == unknown
}

/// Whether these calls result in that, and a packet for nobody is discarded.
fn asks_on<R: Wait, L: Ledger>(
    rt: &R,
    engine: &Plain,
    pass: &mut EnginePass,
    moment: Moment,
    stray: Arrival,
    outs: &mut Outs,
    blank: Blank,
) -> bool
    requires of { IsOf engine.now pass.old.1 }
    requires there { AllThere pass.old.1 }
    requires room { outs.old.room ≡ 5 }
    requires blank { IsBlankOf L.name L.parts blank.name blank.parts }
{
    let mut steps = Steps::<L>::new(blank);
    let reset = Some(Cmd::Reset);
    let reported = [
        asks(rt, engine, pass, (moment, 1, None), outs, &mut steps),
        asks(rt, engine, pass, (moment, 1, None), outs, &mut steps),
        asks(rt, engine, pass, (moment, 1, reset), outs, &mut steps),
        asks(rt, engine, pass, (moment, 7, None), outs, &mut steps),
        asks(rt, engine, pass, (moment, 7, reset), outs, &mut steps),
    ];
    outs.clear();
    let dropped = engine.receive(rt, pass, moment, stray, outs, &mut steps);
    are_full(reported) && dropped == Ok(Answer::Dropped(Test::YourUnknown))
}

/// The same of a new engine.
fn fills<R: Wait>(rt: &R, alloc: Global) -> Option<bool> {
    let moment = Moment::new(7)?;
    let stray = packet(alloc, 0x4000, 7).ok()?;
    let mut outs = Outs::make(alloc, 5).ok()?;
    let (engine, mut pass) = opened(alloc, 1)?;
    Some(asks_on::<R, Brand>(
        rt,
        &engine,
        &mut pass,
        moment,
        stray,
        &mut outs,
        Blank::new(1),
    ))
}

#[test]
fn a_full_journal(rt: HostRuntime) {
    assert!(rt; fills(&rt, rt.alloc()) == Some(true));
}

/// How many packets the first shard sends at a tick.
fn sent_at<R: Wait + Abort, L: Ledger>(
    rt: &R,
    engine: &Plain,
    pass: &mut EnginePass,
    tick: Tick,
    outs: &mut Outs,
    steps: &mut Steps<L>,
) -> usize
    requires of { IsOf engine.now pass.old.1 }
    requires there { AllThere pass.old.1 }
    requires shards { length engine.now.locks ≡ 3 }
    ensures of { IsOf engine.now pass.new.1 }
    ensures there { AllThere pass.new.1 }
{
    outs.clear();
    assert!(*rt; engine.sessions(0) <= outs.spare() / 5);
    let answer = engine.advance(rt, pass, 0, tick, outs, steps);
    assert!(*rt; answer == Ok(Answer::Ticked));
    outs.items().len()
}

/// It sends a packet of each of its two sessions at the late tick, and nothing more at the early one and at the late one again.
fn sends_once<R: Wait + Abort, L: Ledger>(
    rt: &R,
    engine: &Plain,
    pass: &mut EnginePass,
    ticks: (Tick, Tick),
    outs: &mut Outs,
    blank: Blank,
)
    requires of { IsOf engine.now pass.old.1 }
    requires there { AllThere pass.old.1 }
    requires shards { length engine.now.locks ≡ 3 }
    requires blank { IsBlankOf L.name L.parts blank.name blank.parts }
{
    let mut steps = Steps::<L>::new(blank);
    let (early, late) = ticks;
    assert!(*rt; sent_at(rt, engine, pass, late, outs, &mut steps) == 2);
    assert!(*rt; sent_at(rt, engine, pass, early, outs, &mut steps) == 0);
    assert!(*rt; sent_at(rt, engine, pass, late, outs, &mut steps) == 0);
}

#[test]
fn a_tick_below_the_last(rt: HostRuntime) {
    let (engine, mut pass) = opened(rt.alloc(), 100).expect(&rt, "memory");
    let mut outs = Outs::make(rt.alloc(), 10).expect(&rt, "memory");
    let early = Tick::new(1000).expect(&rt, "tick");
    let late = Tick::new(2000).expect(&rt, "tick");
    sends_once::<HostRuntime, Brand>(
        &rt,
        &engine,
        &mut pass,
        (early, late),
        &mut outs,
        Blank::new(1),
    );
}

/// What a session that is given twice results in.
fn twice(alloc: Global) -> Result<Option<OpenFault>, AllocError> {
    let mut list = Vec::new(alloc);
    list.push(config(1))?;
    list.push(config(1))?;
    Ok(Plain::open(alloc, list, Vec::new(alloc), 3, 10).err())
}

#[test]
fn a_session_twice(rt: HostRuntime) {
    assert!(rt;
        matches!(
            twice(rt.alloc()),
            Ok(Some(OpenFault::Build(BuildFault::SameDiscr(0, 1))))
        )
    );
}
