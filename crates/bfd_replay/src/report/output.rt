//! Text to a sink.
ghost use Rattle.std.specs.Prelude.{◌≡◌, ◌<◌, ◌≤◌, length, OnErr, OnOk, IsErrOf};
ghost use Rattle.std.specs.Io.KnownBytes.{Appends};
ghost use Rattle.std.specs.List.{flat_map};
ghost use Rattle.bfd_edge.specs.Faults.{HasCause, Rose};
ghost use Rattle.bfd_replay.specs.Written.{TookFront, TookUpTo};

use bfd_edge::{Fault, Sink};

/// How long a text gets before it is written.
const PIECE: usize = 65_536;

/// Writes the whole text. It is refused as Failed where the sink failed or accepted nothing of what is left, and as Memory where the sink
/// had none; the sink accepted a prefix of the text then.
pub fn write_all<K: Sink>(sink: &mut K, text: &[u8]) -> Result<(), Fault>
    ensures whole { OnOk result (Appends (K.taken sink.old) (K.taken sink.new) text.now) }
    ensures failed { IsErrOf result Fault.Failed → Rose (K.faults sink.old) (K.faults sink.new) }
    ensures front { TookFront (K.taken sink.old) (K.taken sink.new) text.now }
    ensures later { K.faults sink.old ≤ K.faults sink.new }
    ensures calm { OnOk result (K.faults sink.new ≡ K.faults sink.old) }
    ensures calm_memory { IsErrOf result Fault.Memory → K.faults sink.new ≡ K.faults sink.old }
{
    let mut rest = text;
    'pieces: while !rest.is_empty() {
        match sink.write(rest) {
            Ok(0) => return Err(Fault::Failed),
            Ok(count) => (_, rest) = rest.split_at(count),
            Err(fault) => return Err(fault),
        }
    }
    Ok(())
}

/// Writes the texts, one behind another. It is refused as `write_all` is; the sink accepted a prefix of them then.
pub fn write_each<K: Sink>(sink: &mut K, texts: &[Vec<u8>]) -> Result<(), Fault>
    ensures whole { OnOk result (Appends (K.taken sink.old) (K.taken sink.new) (flat_map (λ text. text.items) texts.now)) }
    ensures front { TookFront (K.taken sink.old) (K.taken sink.new) (flat_map (λ text. text.items) texts.now) }
    ensures cause { HasCause (K.faults sink.old) (K.faults sink.new) result }
    ensures calm { OnOk result (K.faults sink.new ≡ K.faults sink.old) }
{
    for at in 0..texts.len() {
        write_all(sink, texts[at].as_slice())?;
    }
    Ok(())
}

/// Writes the text if it is long, and begins a new one: less than 64 KiB of it is left. It is refused as `write_all` is; the sink
/// accepted a prefix of the text then, and the text is as it was.
pub fn give_on<K: Sink>(text: &mut Vec<u8>, sink: &mut K) -> Result<(), Fault>
    ensures text { OnOk result (TookUpTo (K.taken sink.old) (K.taken sink.new) text.old.items text.new.items) }
    ensures short { OnOk result (length text.new.items < 65536) }
    ensures front { TookFront (K.taken sink.old) (K.taken sink.new) text.old.items }
    ensures same { OnErr result (text.new.items ≡ text.old.items) }
    ensures cause { HasCause (K.faults sink.old) (K.faults sink.new) result }
    ensures calm { OnOk result (K.faults sink.new ≡ K.faults sink.old) }
{
    if text.len() < PIECE {
        return Ok(());
    }
    write_all(sink, text.as_slice())?;
    text.clear();
    Ok(())
}
