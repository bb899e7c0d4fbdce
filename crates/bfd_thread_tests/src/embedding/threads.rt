//! A packet thread and a timer thread, side by side.
ghost use Rattle.std.specs.Prelude.{ℕ, ◌≡◌, ◌≤◌, ◌<◌, ◌+◌, ◌*◌, [], OnOk, length, map, slice_index_or};
ghost use Rattle.std.specs.List.{All};
ghost use Rattle.bfd_engine.specs.Calls.{IsDone};
ghost use Rattle.bfd_engine.specs.Engines.{IsOf, AllThere, configs_at};
ghost use Rattle.bfd_thread_tests.specs.Calling.{act_of, HasCalled, HasEndedCalls};
ghost use Rattle.bfd_thread_tests.specs.Ready.{IsJobReady, number_of};
ghost use Rattle.bfd_num.specs.Counting.{IsBlankOf};

use bfd_engine::{Engine, EngineFault, EnginePass};
use bfd_num::{Moment, Steps, Tick};
use bfd_packet::Arrival;
use bfd_rules::{Cmd, Outs};
use bfd_session::Answer;
use bfd_wheel::Timers;
use std::alloc::{AllocError, Global};
use std::marker::Brand;
use std::sync::Wait;
use std::sync::ledger::{Blank, Ledger};
use std::thread;
use std::thread::Threads;

/// A call of an engine.
#[derive(Drop)]
pub enum Call {
    /// An arrival at this moment.
    Packet(Moment, Arrival),
    /// A command at this moment for the session with this discriminator.
    Command(Moment, u32, Cmd),
    /// A tick of this shard, by its number modulo that of the shards.
    Advance(u32, Tick),
}

/// What a thread saw of a call: its answer, and what it emitted.
#[derive(Drop)]
pub struct Saw {
    pub answer: Result<Answer, EngineFault>,
    pub outs: Outs,
}

/// What a thread does with a pass of its own.
#[derive(Drop)]
pub struct Job {
    pub pass: EnginePass,
    /// What it is still to do, the last call first.
    pub calls: Vec<Call>,
    /// What it saw of each call that it made, in their order.
    pub saw: Vec<Saw>,
    /// For how many outputs of a call there is to be room.
    pub room: usize,
    /// That its calls were made; or that memory ran out before the next of them.
    pub ended: Result<(), AllocError>,
}

/// One call.
fn make<W: Timers, R: Wait, L: Ledger>(
    rt: &R,
    engine: &Engine<W>,
    pass: &mut EnginePass,
    call: Call,
    outs: &mut Outs,
    steps: &mut Steps<L>,
) -> Result<Answer, EngineFault>
    requires of { IsOf engine.now pass.old.1 }
    requires there { AllThere pass.old.1 }
    requires room { (shard : ℕ) → 5 * length (configs_at engine.now shard) + 5 ≤ outs.old.spare }
    ensures of { IsOf engine.now pass.new.1 }
    ensures there { AllThere pass.new.1 }
    ensures call { IsDone (act_of engine.now call) engine.now pass.old pass.new outs.old.items outs.new.items result }
{
    match call {
        Call::Packet(moment, arrival) => engine.receive(rt, pass, moment, arrival, outs, steps),
        Call::Command(moment, discr, cmd) => {
            engine.command(rt, pass, moment, discr, cmd, outs, steps)
        }
        Call::Advance(shard, tick) => {
            engine.advance(rt, pass, shard % engine.shards(), tick, outs, steps)
        }
    }
}

/// The next call of a job, and what was seen of it. Fails only when out of memory, and before the call.
fn next<W: Timers, R: Wait, L: Ledger>(
    rt: &R,
    alloc: Global,
    engine: &Engine<W>,
    job: &mut Job,
    steps: &mut Steps<L>,
) -> Result<(), AllocError>
    requires ready { IsJobReady engine.now job.old }
    requires some { 0 < length job.old.calls.items }
    ensures worked { HasCalled engine.now job.old job.new }
    ensures one { OnOk result (length job.new.calls.items + 1 ≡ length job.old.calls.items) }
{
    let mut outs = Outs::make(alloc, job.room)?;
    job.saw.reserve(1)?;
    let Some(call) = job.calls.pop() else {
        unreachable!()
    };
    let answer = make(rt, engine, &mut job.pass, call, &mut outs, steps);
    job.saw.push_reserved(Saw { answer, outs });
    Ok(())
}

/// All calls of a job, or those before memory ran out.
fn work<W: Timers, R: Wait, L: Ledger>(
    rt: &R,
    alloc: Global,
    engine: &Engine<W>,
    job: &mut Job,
    blank: Blank,
) -> Result<(), AllocError>
    requires ready { IsJobReady engine.now job.old }
    requires blank { IsBlankOf L.name L.parts blank.name blank.parts }
    ensures worked { HasCalled engine.now job.old job.new }
    ensures all { OnOk result (job.new.calls.items ≡ []) }
{
    let mut steps = Steps::<L>::new(blank);
    for count in 0..job.calls.len() {
        next(rt, alloc, engine, job, &mut steps)?;
    }
    Ok(())
}

/// The same, with a count of its own.
pub(crate) fn work_alone<W: Timers, R: Wait>(
    rt: &R,
    alloc: Global,
    engine: &Engine<W>,
    job: &mut Job,
)
    requires { IsJobReady engine.now job.old }
    ensures { HasEndedCalls engine.now job.old job.new }
{
    job.ended = work::<W, R, Brand>(rt, alloc, engine, job, Blank::new(1));
}

/// Does all jobs, each in a thread of its own if one is available. It may wait.
///
/// Every pass comes back in its place, with its number, and no turn held. What a thread did are the calls that its job no longer
/// has, in their order, with the answer and the outputs of each.
pub fn at_once<W: Timers + Send, R: Threads + Wait + Sync>(
    rt: &R,
    alloc: Global,
    engine: &Engine<W>,
    jobs: &mut [Job],
)
    requires { All (λ (j : _). IsJobReady engine.now j) jobs.old }
    ensures long { length jobs.new ≡ length jobs.old }
    ensures each { (i : ℕ) (d : _) → i < length jobs.old
        → HasEndedCalls engine.now (slice_index_or jobs.old i d) (slice_index_or jobs.new i d) }
    ensures ready { All (λ (j : _). IsJobReady engine.now j) jobs.new }
    ensures numbers { map number_of jobs.new ≡ map number_of jobs.old }
{
    thread::for_each_mut(
        rt,
        jobs,
        64,
        &|_, job: &mut Job|
            requires { IsJobReady engine.now job.now }
            ensures { HasEndedCalls engine.entry.now job.entry.now job.exit.now }
        { work_alone(rt, alloc, engine, job) },
    );
}
