//! Workers' jobs.
ghost use Rattle.bfd_serve.specs.Jobs.{IsReady, IsWorked};

use crate::ending::End;
use crate::working::worker;
use bfd_edge::{Gate, Link};
use bfd_engine::{Engine, EnginePass};
use bfd_wheel::Timers;
use std::alloc::Global;
use std::sync::Wait;

/// What a worker works with, how it ended, and how many sends it lost.
#[derive(Drop)]
pub(crate) struct Job<L> {
    pub(crate) pass: EnginePass,
    pub(crate) link: L,
    pub(crate) end: End,
    pub(crate) lost: u64,
}

/// Works on one job.
pub(crate) fn work<W: Timers, L: Link, G: Gate, R: Wait>(
    rt: &R,
    alloc: Global,
    engine: &Engine<W>,
    job: &mut Job<L>,
    gate: &G,
    turns: u64,
)
    requires { IsReady L.observed engine.now job.old }
    ensures { IsWorked L.observed engine.now turns job.old job.new }
{
    let (end, lost) = worker(rt, alloc, engine, &mut job.pass, &mut job.link, gate, turns);
    job.end = end;
    job.lost = lost;
}
