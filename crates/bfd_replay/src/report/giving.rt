//! The parts' pieces, taken in the order of a report and given to a sink.
ghost use Rattle.std.specs.Prelude.{ℕ, ◌≡◌, ◌<◌, ◌+◌, ◌++◌, List, IfOk, OnOk, drop, length, map, sum_by};
ghost use Rattle.bfd_edge.specs.Faults.{HasCause};
ghost use Rattle.bfd_replay.specs.Inside.{first_key, first_text, first_txs, first_drops, keys};
ghost use Rattle.bfd_replay.specs.Pieces.{texts};
ghost use Rattle.bfd_replay.specs.Spread.{Dealt, IsSpread, dealt_text};
ghost use Rattle.bfd_replay.specs.Written.{TookFront, TookUpTo};

use crate::report::counts::added;
use crate::report::gathering::{heads_of, least, rests_of, sole_of};
use crate::report::output::give_on;
use crate::report::part::Part;
use crate::report::rest::Rest;
use bfd_edge::{Fault, Sink};
use std::alloc::{AllocError, Global};

/// Takes the first piece off, appends its text, and adds to these counts the packets that it reports as sent and as dropped. Fails only
/// when out of memory, or when 2^64 packets were counted, which it reports as out of memory.
fn take_counted(
    rest: &mut Rest,
    text: &mut Vec<u8>,
    counts: (u64, u64),
) -> Result<(u64, u64), AllocError>
    requires { 0 < length rest.old }
    ensures rest { OnOk result (rest.new ≡ drop 1 rest.old) }
    ensures text { OnOk result (text.new.items ≡ text.old.items ++ first_text rest.old) }
    ensures txs { IfOk result (λ sums. sums.0 ≡ counts.0 + first_txs rest.old) }
    ensures drops { IfOk result (λ sums. sums.1 ≡ counts.1 + first_drops rest.old) }
{
    let more = rest.take(text)?;
    added(counts, more)
}

/// Takes all pieces off, which have these heads, in the order of a report. Appends their text, which the sink accepts where it is long,
/// and gives how many packets they report as sent and as dropped. It is refused as Failed where the sink failed, and as Memory when out of
/// memory, here or in the sink, or at 2^64 packets.
fn give<K: Sink>(
    heads: &mut [Option<u64>],
    rests: &mut Vec<Rest>,
    text: &mut Vec<u8>,
    sink: &mut K,
) -> Result<(u64, u64), Fault>
    requires { keys heads.old ≡ map first_key rests.old.items }
    ensures reported { (dealt : List Dealt) → IsSpread dealt rests.old.items
        → OnOk result (TookUpTo (K.taken sink.old) (K.taken sink.new)
        (text.old.items ++ dealt_text dealt) text.new.items) }
    ensures front { (dealt : List Dealt) → IsSpread dealt rests.old.items
        → TookFront (K.taken sink.old) (K.taken sink.new) (text.old.items ++ dealt_text dealt) }
    ensures txs { (dealt : List Dealt) → IsSpread dealt rests.old.items
        → IfOk result (λ counts. counts.0 ≡ sum_by (λ d. d.piece.txs) dealt) }
    ensures drops { (dealt : List Dealt) → IsSpread dealt rests.old.items
        → IfOk result (λ counts. counts.1 ≡ sum_by (λ d. d.piece.drops) dealt) }
    ensures cause { HasCause (K.faults sink.old) (K.faults sink.new) result }
    ensures calm { OnOk result (K.faults sink.new ≡ K.faults sink.old) }
{
    let mut counts = (0u64, 0u64);
    while let Some(s) = least(heads) {
        let rest = &mut rests[s];
        let Ok(sums) = take_counted(rest, text, counts) else {
            return Err(Fault::Memory);
        };
        heads[s] = rest.first();
        counts = sums;
        give_on(text, sink)?;
    }
    Ok(counts)
}

/// Takes all pieces off a part, appends their text, which the sink accepts where it is long, and gives how many packets they report as
/// sent and as dropped. It is refused as Failed where the sink failed, and as Memory when out of memory, here or in the sink.
fn give_sole<K: Sink>(
    part: &mut Part,
    text: &mut Vec<u8>,
    sink: &mut K,
) -> Result<(u64, u64), Fault>
    ensures reported { OnOk result (TookUpTo (K.taken sink.old) (K.taken sink.new)
        (text.old.items ++ texts part.old) text.new.items) }
    ensures front { TookFront (K.taken sink.old) (K.taken sink.new) (text.old.items ++ texts part.old) }
    ensures txs { IfOk result (λ counts. counts.0 ≡ sum_by (λ p. p.txs) part.old) }
    ensures drops { IfOk result (λ counts. counts.1 ≡ sum_by (λ p. p.drops) part.old) }
    ensures cause { HasCause (K.faults sink.old) (K.faults sink.new) result }
    ensures calm { OnOk result (K.faults sink.new ≡ K.faults sink.old) }
{
    let Ok(counts) = part.take_all(text) else {
        return Err(Fault::Memory);
    };
    give_on(text, sink)?;
    Ok(counts)
}

/// The same as `give`, of parts; the text of a part that has all pieces is given as a whole.
pub(crate) fn give_all<K: Sink>(
    alloc: Global,
    parts: &mut Vec<Part>,
    text: &mut Vec<u8>,
    sink: &mut K,
) -> Result<(u64, u64), Fault>
    ensures reported { (dealt : List Dealt) → IsSpread dealt parts.old.items
        → OnOk result (TookUpTo (K.taken sink.old) (K.taken sink.new)
        (text.old.items ++ dealt_text dealt) text.new.items) }
    ensures front { (dealt : List Dealt) → IsSpread dealt parts.old.items
        → TookFront (K.taken sink.old) (K.taken sink.new) (text.old.items ++ dealt_text dealt) }
    ensures txs { (dealt : List Dealt) → IsSpread dealt parts.old.items
        → IfOk result (λ counts. counts.0 ≡ sum_by (λ d. d.piece.txs) dealt) }
    ensures drops { (dealt : List Dealt) → IsSpread dealt parts.old.items
        → IfOk result (λ counts. counts.1 ≡ sum_by (λ d. d.piece.drops) dealt) }
    ensures cause { HasCause (K.faults sink.old) (K.faults sink.new) result }
    ensures calm { OnOk result (K.faults sink.new ≡ K.faults sink.old) }
{
    let Ok(one) = sole_of(alloc, parts) else {
        return Err(Fault::Memory);
    };
    if let Some(s) = one {
        return give_sole(&mut parts[s], text, sink);
    }
    let Ok(mut rests) = rests_of(alloc, parts) else {
        return Err(Fault::Memory);
    };
    let Ok(mut heads) = heads_of(alloc, &rests) else {
        return Err(Fault::Memory);
    };
    give(&mut heads, &mut rests, text, sink)
}
