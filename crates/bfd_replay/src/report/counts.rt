//! What outputs name, and how many packets outputs and answers report.
ghost use Rattle.std.specs.Prelude.{◌≡◌, ◌≤◌, ◌⊎◌, ◌+◌, ◌^◌, IfOk, OnErr, length, sum_by};
ghost use Rattle.bfd_rules.specs.Names as names;
ghost use Rattle.bfd_script.specs.Report.{packets_sent_by, dropped_by};

use bfd_rules::Out;
use bfd_session::Answer;
use std::alloc::AllocError;

/// How many events a replay had, with how many packets that were sent and were dropped in them.
#[derive(Clone, Copy, Debug, PartialEq, Eq)]
pub struct Counts {
    pub events: u64,
    pub txs: u64,
    pub drops: u64,
}

/// The discriminator that an output names.
pub(crate) fn named(out: &Out) -> u32
    ensures { result ≡ names.named out.now }
{
    match out {
        Out::Changed { discr, .. } => *discr,
        Out::Sent { discr, .. } => *discr,
    }
}

/// How many packets an output sends.
pub(crate) fn packets(out: &Out) -> u64
    ensures value { result ≡ packets_sent_by out.now }
    ensures few { result ≤ 1 }
{
    match out {
        Out::Sent { .. } => 1,
        Out::Changed { .. } => 0,
    }
}

/// How many packets the outputs send.
pub fn sent(outs: &[Out]) -> u64
    ensures value { result ≡ sum_by packets_sent_by outs.now }
    ensures few { result ≤ length outs.now }
{
    let mut count = 0u64;
    for out in outs {
        count += packets(out);
    }
    count
}

/// How many packets the answer says were dropped.
pub fn dropped(answer: &Answer) -> u64
    ensures { result ≡ dropped_by answer.now }
{
    match answer {
        Answer::Dropped(_) => 1,
        Answer::Handled | Answer::Ticked | Answer::Refused(_) | Answer::Shown(_) => 0,
    }
}

/// Adds up how many packets were sent and were dropped. Fails only when 2^64 packets were counted, which it reports as out of memory.
pub(crate) fn added(counts: (u64, u64), more: (u64, u64)) -> Result<(u64, u64), AllocError>
    ensures sent { IfOk result (λ sums. sums.0 ≡ counts.0 + more.0) }
    ensures dropped { IfOk result (λ sums. sums.1 ≡ counts.1 + more.1) }
    ensures many { OnErr result ((2 ^ 64 ≤ counts.0 + more.0) ⊎ (2 ^ 64 ≤ counts.1 + more.1)) }
{
    match (counts.0.checked_add(more.0), counts.1.checked_add(more.1)) {
        (Some(txs), Some(drops)) => Ok((txs, drops)),
        _ => Err(AllocError),
    }
}
