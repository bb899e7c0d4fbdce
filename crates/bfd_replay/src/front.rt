//! The one call that replays a script to a sink.
ghost use Rattle.std.specs.Prelude.{◌≡◌, ◌≤◌, ◌<◌, IfOk, OnOk};
ghost use Rattle.std.specs.Io.KnownBytes.{Appends};
ghost use Rattle.bfd_edge.specs.Faults.{HasCause};
ghost use Rattle.bfd_script.specs.Sound.{IsScript};
ghost use Rattle.bfd_instance.specs.World.{replayed};
ghost use Rattle.bfd_replay.specs.Replayed.{HasTotals, HaveReplayed, taker_of};
ghost use Rattle.bfd_replay.specs.Written.{TookFront};

use crate::counting::Replayed;
use crate::stream::report_to;
use crate::worker::replay_by_workers;
use bfd_edge::{Fault, Gate, Sink};
use bfd_script::Script;
use bfd_wheel::Timers;
use std::alloc::Global;
use std::sync::Wait;
use std::thread::Threads;

/// Replays the script on 1 to 64 shards of an engine, by 1 to 64 workers, and writes its report to the sink: by one worker as it comes, in
/// the caller's thread, and by several once all is done. The report is the same, byte for byte. Each turn for event N stands between
/// `gate.before(w, N)` and `gate.after(w, N)`, where w is the worker's number from 1, or 0 where there is one.
///
/// It fails as Failed where the sink failed, and as Memory when out of memory, here or in the sink, or at 2^64 packets sent or dropped; the
/// sink accepted a prefix of the report then. Its counts come back, and for clauses what the closed shards were. It may wait.
pub fn replay_to<W: Timers + Send + 'static, R: Threads + Wait + Sync, G: Gate + Sync, K: Sink>(
    rt: &R,
    alloc: Global,
    script: Script,
    shards: u32,
    workers: u32,
    gate: &G,
    sink: &mut K,
) -> Result<Replayed<W>, Fault>
    requires script { IsScript script }
    requires shards { (0 < shards) × (shards ≤ 64) }
    requires workers { (0 < workers) × (workers ≤ 64) }
    ensures whole { OnOk result (Appends (K.taken sink.old) (K.taken sink.new) (replayed script)) }
    ensures front { TookFront (K.taken sink.old) (K.taken sink.new) (replayed script) }
    ensures states { IfOk result (λ r. HaveReplayed script shards (taker_of workers) r.closed.value.items) }
    ensures totals { IfOk result (λ r. HasTotals script r.counts r.up) }
    ensures cause { HasCause (K.faults sink.old) (K.faults sink.new) result }
    ensures calm { OnOk result (K.faults sink.new ≡ K.faults sink.old) }
{
    if workers == 1 {
        report_to(rt, alloc, script, shards, gate, sink)
    } else {
        replay_by_workers(rt, alloc, script, shards, workers, gate, sink)
    }
}
