//! A run of a script.
ghost use Rattle.std.specs.Prelude.{◌≡◌, ◌<◌, ◌≤◌, ℕ, false, IfOk, IfErr};
ghost use Rattle.bfd_script.specs.Sound.{IsScript};
ghost use Rattle.bfd_serve.specs.Linking.{AreShut, IsOpenTo, IsLinkRefused};
ghost use Rattle.bfd_serve.specs.Wholes.{HasRun};

use crate::Limits;
use crate::run::copying::dealt;
use crate::run::finish::{Finish, Refused, finish_of};
use crate::run::linking::{open_all, shut_all};
use crate::run::opening::opened;
use crate::run::running::{Closed, run_all};
use crate::served_text::served;
use bfd_edge::{Gate, Link, Ports, Ticker};
use bfd_script::Script;
use bfd_shard::ShardState;
use bfd_wheel::Timers;
use std::alloc::Global;
use std::sync::Wait;
use std::thread::Threads;

/// What a run gives.
#[derive(Drop)]
pub struct Outcome<W: Timers> {
    /// The closed shards, by number.
    pub states: Vec<ShardState<W>>,

    /// The served text.
    pub text: Vec<u8>,

    /// How many sends failed, of all callers.
    pub lost: u64,

    /// How it ended.
    pub finish: Finish,
}

/// Runs a script whose packets come from links and whose ticks come from a ticker, on 1 to 64 shards, with 1 to 64 workers in parallel. It
/// may wait.
///
/// Session k of the table stands at place k / shards of shard k % shards, and each shard's journal accepts `journal` entries. The
/// timer is caller 0, over link 0 and the ticker, and gives the script's event lines as orders; worker i is caller i, over link i.
/// Turns and ticks are at most 1,000,000,000.
///
/// `PortFault` comes where a port can't be opened: its count of faults rose, nothing ran, and no link was called. `Memory` comes only when
/// out of memory, before the run, in a caller, or after it. In every case each link that was opened is shut.
pub fn serve_script<
    W: Timers + Send,
    P: Ports,
    T: Ticker + Send,
    G: Gate + Sync,
    R: Threads + Wait + Sync,
>(
    rt: &R,
    alloc: Global,
    script: Script,
    shards: u32,
    workers: u32,
    journal: u32,
    limits: Limits,
    ports: &mut P,
    ticker: &mut T,
    gate: &G,
) -> Result<Outcome<W>, Refused>
where
    P::Link: Send,
    requires script { IsScript script }
    requires shards { (0 < shards) × (shards ≤ 64) }
    requires workers { (0 < workers) × (workers ≤ 64) }
    requires journal { 0 < journal }
    requires turns { limits.turns ≤ 1000000000 }
    requires ticks { limits.ticks ≤ 1000000000 }
    requires new { (number : ℕ) → (P.observed ports.old).opened number ≡ false }
    requires clock { (T.observed ticker.old).over ≡ false }
    ensures run { IfOk result (λ run. HasRun script shards workers journal limits (P.observed ports.new)
        (T.observed ticker.old) (T.observed ticker.new) run.states.items run.text.items run.lost run.finish) }
    ensures opened { IfOk result (λ _. IsOpenTo workers (P.observed ports.old) (P.observed ports.new)) }
    ensures shut { AreShut (P.observed ports.new) }
    ensures refused { IfErr result (λ refused. IsLinkRefused refused (P.observed ports.old) (P.observed ports.new)
        (T.observed ticker.old) (T.observed ticker.new)) }
{
    let Script {
        configs,
        pool,
        events,
    } = script;
    let Ok(parts) = dealt(alloc, &configs, shards) else {
        return Err(Refused::Memory);
    };
    let Ok((engine, first)) = opened(alloc, configs, pool, &events, shards, journal as usize) else {
        return Err(Refused::Memory);
    };
    let (mut own, links) = open_all(alloc, ports, workers)?;
    let (links, ran) = run_all(
        rt, alloc, engine, first, &mut own, links, ticker, gate, &events, limits,
    );
    shut_all(ports, own, links);
    let Ok(Closed { states, ends, lost }) = ran else {
        return Err(Refused::Memory);
    };
    let Ok(finish) = finish_of(&ends) else {
        return Err(Refused::Memory);
    };
    let Ok(text) = served(alloc, parts, &states, lost) else {
        return Err(Refused::Memory);
    };
    Ok(Outcome {
        states,
        text,
        lost,
        finish,
    })
}
