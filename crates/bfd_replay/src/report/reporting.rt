//! The report of the parts of a replay.
ghost use Rattle.std.specs.Prelude.{ℕ, ◌≡◌, ◌++◌, List, IfOk, OnOk, length, string_bytes, sum_by};
ghost use Rattle.std.specs.Io.KnownBytes.{Appends};
ghost use Rattle.bfd_edge.specs.Faults.{HasCause};
ghost use Rattle.bfd_session.specs.Kinds.{Running};
ghost use Rattle.bfd_script.specs.Report.{done_line};
ghost use Rattle.bfd_script.specs.Report as script;
ghost use Rattle.bfd_replay.specs.Happenings.{Happening, AreParts, happening_outcomes};
ghost use Rattle.bfd_replay.specs.Written.{TookFront};

use crate::report::output::write_all;
use bfd_edge::{Fault, Sink};
use std::alloc::{AllocError, Global};

/// The last line of a report: how many events there were, and how many packets were sent and were dropped. Fails only when out of memory.
pub(crate) fn done_text(
    alloc: Global,
    events: u64,
    txs: u64,
    drops: u64,
) -> Result<String, AllocError>
    ensures { IfOk result (λ text. string_bytes text ≡ done_line events txs drops) }
{
    format!(in alloc; "done {events} {txs} {drops}\n")
}

/// Writes what is left of a report's text, and its last line behind it. It is refused as Failed where the sink failed, and as Memory when
/// out of memory, here or in the sink; the sink accepted a prefix then.
pub fn write_last<K: Sink>(
    alloc: Global,
    text: Vec<u8>,
    events: u64,
    txs: u64,
    drops: u64,
    sink: &mut K,
) -> Result<(), Fault>
    ensures whole { OnOk result (Appends (K.taken sink.old) (K.taken sink.new)
        (text.items ++ done_line events txs drops)) }
    ensures front { TookFront (K.taken sink.old) (K.taken sink.new) (text.items ++ done_line events txs drops) }
    ensures cause { HasCause (K.faults sink.old) (K.faults sink.new) result }
    ensures calm { OnOk result (K.faults sink.new ≡ K.faults sink.old) }
{
    let mut text = text;
    let Ok(line) = done_text(alloc, events, txs, drops) else {
        return Err(Fault::Memory);
    };
    let Ok(()) = text.extend_from_slice(line.as_bytes()) else {
        return Err(Fault::Memory);
    };
    write_all(sink, text.as_slice())
}
