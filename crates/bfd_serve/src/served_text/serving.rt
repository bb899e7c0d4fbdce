//! The text of all shards.
ghost use Rattle.std.specs.Prelude.{◌≡◌, ◌+◌, ◌≤◌, ◌++◌, IfOk, OnOk, length, map, string_bytes};
ghost use Rattle.std.specs.List.{AllByRecursion};
ghost use Rattle.bfd_session.specs.Kinds.{configs_of};
ghost use Rattle.bfd_session.specs.Rows.{AreFit};
ghost use Rattle.bfd_serve.specs.Served.{shard_history};
ghost use Rattle.bfd_serve.specs.Served as definition;

use crate::served_text::entry_lines::write_entries;
use bfd_rules::Outs;
use bfd_session::SessionConfig;
use bfd_shard::ShardState;
use bfd_wheel::Timers;
use std::alloc::{AllocError, Global};

/// The line of a shard's number.
fn shard_line(alloc: Global, number: u64) -> Result<String, AllocError>
    ensures { IfOk result (λ text. string_bytes text ≡ definition.shard_line number) }
{
    format!(in alloc; "shard {number}\n")
}

/// Appends the text of the shard of this number, whose sessions have these configurations. Gives how many packets its entries sent.
fn write_shard<W: Timers>(
    alloc: Global,
    number: u64,
    configs: Vec<SessionConfig>,
    state: &ShardState<W>,
    text: &mut Vec<u8>,
) -> Result<u64, AllocError>
    requires fit { AreFit configs.items }
    requires made { configs.items ≡ configs_of state.now.sessions }
    ensures text { OnOk result (text.new.items
        ≡ text.old.items ++ definition.shard_text number (shard_history state.now)) }
    ensures sent { IfOk result (λ count. count ≡ definition.shard_sent (shard_history state.now)) }
    ensures few { IfOk result (λ count. length text.old.items + count + length state.now.journal
        ≤ length text.new.items) }
{
    let mut outs = Outs::make(alloc, 5 * state.sessions().len() + 5)?;
    let journal = state.journal();
    let mut shard = ShardState::<W>::make(alloc, configs, journal.len())?;
    let line = shard_line(alloc, number)?;
    text.extend_from_slice(line.as_bytes())?;
    let sent = write_entries(alloc, &mut shard, journal, &mut outs, text)?;
    Ok(sent)
}

/// The last line.
fn served_line(alloc: Global, entries: u64, txs: u64, lost: u64) -> Result<String, AllocError>
    ensures { IfOk result (λ text. string_bytes text ≡ definition.served_line entries txs lost) }
{
    format!(in alloc; "served {entries} {txs} {lost}\n")
}

/// The served text of the journals of these shards, where so many sends failed. `parts` has for each shard the configurations of its
/// sessions, by place: the ones with which it was made, each within its ranges. Fails only when out of memory.
pub fn served<W: Timers>(
    alloc: Global,
    parts: Vec<Vec<SessionConfig>>,
    states: &[ShardState<W>],
    lost: u64,
) -> Result<Vec<u8>, AllocError>
    requires fit { AllByRecursion AreFit (map (λ part. part.items) parts.items) }
    requires made { map (λ part. part.items) parts.items ≡ map (λ state. configs_of state.sessions) states.now }
    ensures { IfOk result (λ text. text.items ≡ definition.served (map shard_history states.now) lost) }
{
    let mut text = Vec::new(alloc);
    let mut entries = 0u64;
    let mut txs = 0u64;
    let mut shard = 0;
    for configs in parts {
        let state = &states[shard];
        let sent = write_shard(alloc, shard as u64, configs, state, &mut text)?;
        txs += sent;
        entries += state.journal().len() as u64;
        shard += 1;
    }
    let line = served_line(alloc, entries, txs, lost)?;
    text.extend_from_slice(line.as_bytes())?;
    Ok(text)
}
