//! A replay on the hands that a job asks for.
ghost use Rattle.std.specs.Prelude.{◌≡◌, IfOk, OnOk};
ghost use Rattle.std.specs.Io.KnownBytes.{Appends};
ghost use Rattle.bfd_edge.specs.Faults.{HasCause};
ghost use Rattle.bfd_replay.specs.Written.{TookFront};
ghost use Rattle.bfd_instance.specs.World.{replayed};
ghost use Rattle.bfd_replay.specs.Replayed.{HasTotals};
ghost use Rattle.bfd_script.specs.Sound.{IsScript};
ghost use Rattle.bfdd.specs.Ranges.{AreHands};
ghost use Rattle.bfdd.specs.Hands.{IsWrittenBy};

use crate::words::{Form, Hands};
use bfd_edge::{Fault, Gate, Sink};
use bfd_levels::Levels;
use bfd_replay::report::Counts;
use bfd_replay::{ClosedShards, Replayed, replay_to};
use bfd_script::Script;
use bfd_wheel::HashedWheel;
use std::alloc::Global;
use std::sync::Wait;
use std::thread::Threads;

/// The closed shards of a replay, by their form of timers, for clauses alone.
#[derive(Drop)]
pub(crate) enum ShardsOf {
    Hashed(ClosedShards<HashedWheel>),
    Levels(ClosedShards<Levels>),
}

/// What a replay leaves.
#[derive(Drop)]
pub(crate) struct Replay {
    pub(crate) counts: Counts,
    /// How many sessions are Up at the end.
    pub(crate) up: u32,
    pub(crate) shards: ShardsOf,
}

/// A replay on these hands, whose report is written to the sink. It fails as Failed where the sink failed, and as Memory when out of
/// memory, here or in the sink; the sink accepted a prefix of the report then.
pub(crate) fn write_replay<R: Threads + Wait + Sync, G: Gate + Sync, K: Sink>(
    rt: &R,
    alloc: Global,
    script: Script,
    hands: Hands,
    gate: &G,
    sink: &mut K,
) -> Result<Replay, Fault>
    requires script { IsScript script }
    requires hands { AreHands hands }
    ensures whole { OnOk result (Appends (K.taken sink.old) (K.taken sink.new) (replayed script)) }
    ensures front { TookFront (K.taken sink.old) (K.taken sink.new) (replayed script) }
    ensures hands { IfOk result (λ r. IsWrittenBy hands script r.shards) }
    ensures totals { IfOk result (λ r. HasTotals script r.counts r.up) }
    ensures cause { HasCause (K.faults sink.old) (K.faults sink.new) result }
    ensures calm { OnOk result (K.faults sink.new ≡ K.faults sink.old) }
{
    let Hands {
        shards,
        workers,
        timers,
    } = hands;
    match timers {
        Form::Hashed => match replay_to(rt, alloc, script, shards, workers, gate, sink) {
            Ok(Replayed { counts, up, closed }) => Ok(Replay {
                counts,
                up,
                shards: ShardsOf::Hashed(closed),
            }),
            Err(fault) => Err(fault),
        },
        Form::Levels => match replay_to(rt, alloc, script, shards, workers, gate, sink) {
            Ok(Replayed { counts, up, closed }) => Ok(Replay {
                counts,
                up,
                shards: ShardsOf::Levels(closed),
            }),
            Err(fault) => Err(fault),
        },
    }
}
