//! The engine of a run, to its closing.
ghost use Rattle.std.specs.Prelude.{◌≡◌, ◌<◌, ◌≤◌, false, IfOk, OnErr, length};
ghost use Rattle.std.specs.List.{All};
ghost use Rattle.bfd_shard.specs.Shard.{IsShard};
ghost use Rattle.bfd_engine.specs.Opening.{IsNewPass};
ghost use Rattle.bfd_serve.specs.Jobs.{IsOpen};
ghost use Rattle.bfd_serve.specs.Finishes.{IsUnspent};
ghost use Rattle.bfd_serve.specs.Linking.{AreTheirs};
ghost use Rattle.bfd_serve.specs.Runs.{AreClosedShards, HaveRun, history_at, observed_on_link};

use crate::{End, Limits, Served, serve};
use bfd_edge::{Gate, Link, Ticker};
use bfd_engine::{Engine, EnginePass};
use bfd_script::line::Line;
use bfd_shard::ShardState;
use bfd_wheel::Timers;
use std::alloc::{AllocError, Global};
use std::sync::Wait;
use std::thread::Threads;

/// Each shard is what its journal makes of it.
fn keep<W: Timers>(states: &[ShardState<W>])
    ensures { All IsShard states.now }
{
    for at in 0..states.len() {
        states[at].sessions();
    }
}

/// What a run leaves: the closed shards, how each caller ended, and how many sends failed.
#[derive(Drop)]
pub(crate) struct Closed<W: Timers> {
    pub(crate) states: Vec<ShardState<W>>,
    pub(crate) ends: Vec<End>,
    pub(crate) lost: u64,
}

/// Runs the timer and a worker over each link, and closes the engine. The links come back in every case. Fails only when out of
/// memory, and before any of them is called.
pub(crate) fn run_all<
    W: Timers + Send,
    L: Link + Send + Drop,
    T: Ticker + Send,
    G: Gate + Sync,
    R: Threads + Wait + Sync,
>(
    rt: &R,
    alloc: Global,
    engine: Engine<W>,
    first: EnginePass,
    own: &mut L,
    links: Vec<L>,
    ticker: &mut T,
    gate: &G,
    orders: &[Line],
    limits: Limits,
) -> (Vec<L>, Result<Closed<W>, AllocError>)
    requires new { IsNewPass engine first }
    requires few { length links.items ≤ 64 }
    requires theirs { AreTheirs L.observed own.old links.items }
    requires clock { (T.observed ticker.old).over ≡ false }
    requires open { All (IsOpen L.observed) links.items }
    requires turns { limits.turns ≤ 1000000000 }
    requires ticks { limits.ticks ≤ 1000000000 }
    requires orders { length orders.now ≤ 200000 }
    ensures back { length result.0.items ≡ length links.items }
    ensures theirs { AreTheirs L.observed own.new result.0.items }
    ensures run { IfOk result.1 (λ closed. HaveRun engine (history_at closed.states.items)
        orders.now (length links.items) limits (observed_on_link L.observed own.old links.items)
        (observed_on_link L.observed own.new result.0.items) (T.observed ticker.old) (T.observed ticker.new)
        closed.ends.items closed.lost) }
    ensures closed { IfOk result.1 (λ closed. AreClosedShards engine closed.states.items) }
    ensures unspent { IfOk result.1 (λ closed. All IsUnspent closed.ends.items) }
    ensures few_ends { IfOk result.1 (λ closed. length closed.ends.items ≤ 65) }
    ensures idle { OnErr result.1 ((result.0.items ≡ links.items) × (L.observed own.new ≡ L.observed own.old)
        × (T.observed ticker.new ≡ T.observed ticker.old)) }
{
    let Ok(states) = Vec::with_capacity(alloc, engine.shards() as usize) else {
        return (links, Err(AllocError));
    };
    let mut first = first;
    match serve(
        rt, alloc, &engine, &mut first, own, links, ticker, gate, orders, limits,
    ) {
        Err(links) => (links, Err(AllocError)),
        Ok(served) => {
            let Served { links, ends, lost } = served;
            let states = engine.close(first, states);
            keep(&states);
            (links, Ok(Closed { states, ends, lost }))
        }
    }
}
