//! The parts' pieces, taken in the order of a report.
ghost use Rattle.std.specs.Prelude.{ℕ, ◌≡◌, ◌≢◌, ◌<◌, ◌≤◌, ◌+◌, ◌++◌, [], List, None, IfNone, IfOk, IfSome, OnOk, length, map};
ghost use Rattle.std.specs.Prelude.{slice_index_or, sum_by, true};
ghost use Rattle.bfd_replay.specs.Spread.{Dealt, Gathers, IsSpread, dealt_text};
ghost use Rattle.bfd_replay.specs.Inside.{HasAll, IsLeast, first_key, keys};

use crate::report::part::Part;
use crate::report::rest::Rest;
use std::alloc::{AllocError, Global};

/// The pieces of the parts, by reference. Fails only when out of memory.
pub(crate) fn rests_of(alloc: Global, parts: &Vec<Part>) -> Result<Vec<Rest>, AllocError>
    ensures { IfOk result (λ rests. rests.items ≡ parts.now.items) }
{
    parts.iter().map(|part| part.rest()).collect(alloc)
}

/// The ranks of the first keys, in their order. Fails only when out of memory.
pub(crate) fn heads_of(alloc: Global, rests: &Vec<Rest>) -> Result<Vec<Option<u64>>, AllocError>
    ensures { IfOk result (λ heads. keys heads.items ≡ map first_key rests.now.items) }
{
    let mut heads = Vec::with_capacity(alloc, rests.len())?;
    for s in 0..rests.len() {
        heads.push(rests[s].first())?;
    }
    Ok(heads)
}

/// The part whose first key no other part's first key precedes, if one has a piece.
pub(crate) fn least(heads: &[Option<u64>]) -> Option<usize>
    ensures none { IfNone result ((s : ℕ) → s < length heads.now → slice_index_or heads.now s None ≡ None) }
    ensures some { IfSome result (λ s. IsLeast (keys heads.now) s) }
{
    let mut best = heads.len();
    let mut lowest = u64::MAX;
    for s in 0..heads.len() {
        if let Some(rank) = heads[s] {
            if rank <= lowest {
                best = s;
                lowest = rank;
            }
        }
    }
    if best < heads.len() { Some(best) } else { None }
}

/// The most bytes of a report's last line: a word, and three numbers of at most 20 digits.
const MOST_OF_LAST: usize = 68;

/// How much room the text that is left takes, and the last line behind it, or the most that there can be.
fn room_of(rests: &Vec<Rest>) -> usize {
    let mut count = MOST_OF_LAST;
    for s in 0..rests.len() {
        count = count.saturating_add(rests[s].left());
    }
    count
}

/// Takes all pieces off, which have these heads, in the order of a report: by event, and then by discriminator. Appends their text, and
/// gives how many packets they report as sent and as dropped. Fails only when out of memory.
fn gather(
    heads: &mut [Option<u64>],
    rests: &mut Vec<Rest>,
    text: &mut Vec<u8>,
) -> Result<(u64, u64), AllocError>
    requires { keys heads.old ≡ map first_key rests.old.items }
    ensures reported { (dealt : List Dealt) → IsSpread dealt rests.old.items
        → OnOk result (text.new.items ≡ text.old.items ++ dealt_text dealt) }
    ensures txs { (dealt : List Dealt) → IsSpread dealt rests.old.items
        → IfOk result (λ counts. counts.0 ≡ sum_by (λ d. d.piece.txs) dealt) }
    ensures drops { (dealt : List Dealt) → IsSpread dealt rests.old.items
        → IfOk result (λ counts. counts.1 ≡ sum_by (λ d. d.piece.drops) dealt) }
{
    let mut txs = 0u64;
    let mut drops = 0u64;
    while let Some(s) = least(heads) {
        let rest = &mut rests[s];
        let (sent, dropped) = rest.take(text)?;
        heads[s] = rest.first();
        txs += sent;
        drops += dropped;
    }
    Ok((txs, drops))
}

/// What parts report, gathered.
#[derive(Drop)]
pub struct Gathered {
    pub text: Vec<u8>,
    pub txs: u64,
    pub drops: u64,
}

/// All pieces, gathered into a text with room for a report's last line behind it. Fails only when out of memory.
pub(crate) fn gather_text(alloc: Global, rests: Vec<Rest>) -> Result<Gathered, AllocError>
    ensures { IfOk result (λ g. Gathers rests.entry.items g.text.items g.txs g.drops) }
{
    let mut rests = rests;
    let mut heads = heads_of(alloc, &rests)?;
    let mut text = Vec::with_capacity(alloc, room_of(&rests))?;
    let (txs, drops) = gather(&mut heads, &mut rests, &mut text)?;
    Ok(Gathered { text, txs, drops })
}

/// Whether no part but this one has a piece.
fn is_sole(heads: &[Option<u64>], s: usize) -> bool
    ensures { result ≡ true → (r : ℕ) → r < length heads.now → r ≢ s → slice_index_or heads.now r None ≡ None }
{
    for r in 0..heads.len() {
        if r != s && heads[r].is_some() {
            return false;
        }
    }
    true
}

/// The part that has all pieces, where one has them.
#[tactic(auto, using(crate::proofs::Scan::has_all))]
fn sole(heads: &[Option<u64>]) -> Option<usize>
    ensures { IfSome result (λ s. HasAll (keys heads.now) s) }
{
    match least(heads) {
        Some(s) if is_sole(heads, s) => Some(s),
        _ => None,
    }
}

/// The same, of parts. Fails only when out of memory.
pub(crate) fn sole_of(alloc: Global, parts: &Vec<Part>) -> Result<Option<usize>, AllocError>
    ensures { IfOk result (λ one. IfSome one (λ s. HasAll (map first_key parts.now.items) s)) }
{
    let rests = rests_of(alloc, parts)?;
    let heads = heads_of(alloc, &rests)?;
    Ok(sole(&heads))
}
