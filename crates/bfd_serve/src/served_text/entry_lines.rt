//! An entry, and what it gave.
ghost use Rattle.std.specs.Prelude.{ℕ, ◌≡◌, ◌+◌, ◌*◌, ◌<◌, ◌≤◌, ◌++◌, ◌∷◌, [], IfOk, IsOk, OnOk, length, sum_by};
ghost use Rattle.bfd_session.specs.Kinds.{configs_of};
ghost use Rattle.bfd_script.specs.Report as report;
ghost use Rattle.bfd_shard.specs.History.{events_of};
ghost use Rattle.bfd_shard.specs.Shard.{CanHappen, IsHistory};
ghost use Rattle.bfd_serve.specs.Served.{reply_at, entry_text, entries_text, entries_sent};
ghost use Rattle.bfd_num.specs.Counting.{IsBlankOf};

use crate::served_text::turn_lines::{discr_in, write_turn};
use bfd_num::Steps;
use bfd_rules::{Out, Outs};
use bfd_script::lines;
use bfd_session::Answer;
use bfd_shard::{Entry, Full, ShardState};
use bfd_wheel::Timers;
use std::alloc::{AllocError, Global};
use std::marker::Brand;
use std::sync::ledger::{Blank, Ledger};

/// How many packets an output sends.
fn packets(out: &Out) -> u64
    ensures value { result ≡ report.packets_sent_by out.now }
    ensures few { result ≤ 1 }
{
    match out {
        Out::Sent { .. } => 1,
        Out::Changed { .. } => 0,
    }
}

/// How many packets the outputs send.
fn sent(outs: &[Out]) -> u64
    ensures { result ≡ sum_by report.packets_sent_by outs.now }
{
    let mut count = 0u64;
    for out in outs {
        count += packets(out);
    }
    count
}

/// Gives the entry to the shard, which is below its limit, with a counter of steps of its own. What it emits is in `outs`.
fn follow<W: Timers, L: Ledger>(
    shard: &mut ShardState<W>,
    entry: Entry,
    outs: &mut Outs,
    blank: Blank,
) -> Result<Answer, Full>
    requires ready { 0 < shard.old.room }
    requires below { length shard.old.journal < shard.old.limit }
    requires can { CanHappen (configs_of shard.old.sessions) entry.event }
    requires room { 5 * length shard.old.sessions + 5 ≤ outs.old.room }
    requires blank { IsBlankOf L.name L.parts blank.name blank.parts }
    ensures taken { IsOk result }
    ensures journal { shard.new.journal ≡ shard.old.journal ++ entry ∷ [] }
    ensures limit { shard.new.limit ≡ shard.old.limit }
    ensures configs { configs_of shard.new.sessions ≡ configs_of shard.old.sessions }
    ensures items { outs.new.items ≡ (reply_at (configs_of shard.old.sessions) shard.old.journal entry).items }
    ensures answer { IfOk result (λ answer. answer
        ≡ (reply_at (configs_of shard.old.sessions) shard.old.journal entry).answer) }
    ensures room { outs.new.room ≡ outs.old.room }
{
    outs.clear();
    shard.apply(entry.caller, entry.event, outs, &mut Steps::<L>::new(blank))
}

/// One more entry of a journal: the shard accepts it, and its turn and what it gave are appended. Gives how many packets it sent.
fn write_entry<W: Timers>(
    alloc: Global,
    shard: &mut ShardState<W>,
    entry: &Entry,
    outs: &mut Outs,
    text: &mut Vec<u8>,
) -> Result<u64, AllocError>
    requires below { length shard.old.journal < shard.old.limit }
    requires can { CanHappen (configs_of shard.old.sessions) entry.now.event }
    requires room { 5 * length shard.old.sessions + 5 ≤ outs.old.room }
    ensures journal { OnOk result (shard.new.journal ≡ shard.old.journal ++ entry.now ∷ []) }
    ensures limit { OnOk result (shard.new.limit ≡ shard.old.limit) }
    ensures configs { OnOk result (configs_of shard.new.sessions ≡ configs_of shard.old.sessions) }
    ensures text { OnOk result (text.new.items
        ≡ text.old.items ++ entry_text (configs_of shard.old.sessions) shard.old.journal entry.now) }
    ensures sent { IfOk result (λ count. count
        ≡ report.packets_sent (reply_at (configs_of shard.old.sessions) shard.old.journal entry.now)) }
    ensures few { IfOk result (λ count. length text.old.items + count + 1 ≤ length text.new.items) }
    ensures room { OnOk result (outs.new.room ≡ outs.old.room) }
{
    let number = shard.journal().len() as u64 + 1;
    let discr = discr_in(shard.sessions(), &entry.event);
    let copied = entry.copy(alloc)?;
    shard.prepare()?;
    let answer = follow::<W, Brand>(shard, copied, outs, Blank::new(1)).unwrap();
    write_turn(number, discr, entry, text)?;
    lines(number, outs.items(), &answer, text)?;
    Ok(sent(outs.items()))
}

/// The entries of a journal: a shard at the start accepts them, and they are appended with what they gave. Gives how many packets they
/// sent.
pub(crate) fn write_entries<W: Timers>(
    alloc: Global,
    shard: &mut ShardState<W>,
    journal: &[Entry],
    outs: &mut Outs,
    text: &mut Vec<u8>,
) -> Result<u64, AllocError>
    requires start { shard.old.journal ≡ [] }
    requires limit { shard.old.limit ≡ length journal.now }
    requires can { IsHistory (configs_of shard.old.sessions) (events_of journal.now) }
    requires room { 5 * length shard.old.sessions + 5 ≤ outs.old.room }
    ensures text { OnOk result (text.new.items
        ≡ text.old.items ++ entries_text (configs_of shard.old.sessions) [] journal.now) }
    ensures sent { IfOk result (λ count. count ≡ entries_sent (configs_of shard.old.sessions) [] journal.now) }
    ensures few { IfOk result (λ count. length text.old.items + count + length journal.now ≤ length text.new.items) }
{
    let mut count = 0u64;
    for entry in journal {
        let sent = write_entry(alloc, shard, entry, outs, text)?;
        count += sent;
    }
    Ok(count)
}
