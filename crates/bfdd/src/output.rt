//! What a run writes.
ghost use Rattle.std.specs.Prelude.{◌≡◌, OnOk, IsErrOf};
ghost use Rattle.std.specs.Io.KnownBytes.{Appends};
ghost use Rattle.bfd_replay.specs.Written.{TookFront};
ghost use Rattle.bfd_edge.specs.Faults.{Rose};
ghost use Rattle.bfdd.specs.Held.{CanBeMade, held_text};
ghost use Rattle.bfdd.specs.Writing.{Writes, broken_off};

use crate::job::{Answer, Status, Text, write_replay};
use bfd_edge::{Fault, Gate, Sink};
use bfd_replay::report::write_all;
use std::alloc::Global;
use std::sync::Wait;
use std::thread::Threads;

/// The status where the sink failed: a faulty line that wasn't reported whole is still one.
fn broken_off(status: Status) -> Status
    ensures { result ≡ broken_off status }
{
    match status {
        Status::Done => Status::WriteFault,
        _ => status,
    }
}

/// Writes the whole text; a report is made as it is written.
fn write_text<R: Threads + Wait + Sync, G: Gate + Sync, K: Sink>(
    rt: &R,
    alloc: Global,
    text: Text,
    gate: &G,
    sink: &mut K,
) -> Result<(), Fault>
    requires { CanBeMade text }
    ensures whole { OnOk result (Appends (K.taken sink.old) (K.taken sink.new) (held_text text)) }
    ensures failed { IsErrOf result Fault.Failed → Rose (K.faults sink.old) (K.faults sink.new) }
    ensures front { TookFront (K.taken sink.old) (K.taken sink.new) (held_text text) }
    ensures calm { OnOk result (K.faults sink.new ≡ K.faults sink.old) }
    ensures calm_memory { IsErrOf result Fault.Memory → K.faults sink.new ≡ K.faults sink.old }
{
    match text {
        Text::Whole(bytes) => write_all(sink, bytes.as_slice()),
        Text::Report(script, hands) => match write_replay(rt, alloc, script, hands, gate, sink) {
            Ok(_replay) => Ok(()),
            Err(fault) => Err(fault),
        },
    }
}

/// Writes what a run has to write, and answers how it ends.
pub(crate) fn write_answer<R: Threads + Wait + Sync, G: Gate + Sync, K: Sink>(
    rt: &R,
    alloc: Global,
    answer: Answer,
    gate: &G,
    sink: &mut K,
) -> Status
    ensures { Writes answer result (K.taken sink.old) (K.taken sink.new) (K.faults sink.old) (K.faults sink.new) }
{
    let Answer { status, text } = answer;
    if text.is_empty() {
        return status;
    }
    match write_text(rt, alloc, text, gate, sink) {
        Ok(()) => status,
        Err(Fault::Failed) => broken_off(status),
        Err(Fault::Memory) => Status::Memory,
    }
}
