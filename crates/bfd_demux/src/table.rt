//! Sorted tables: entries by key in ascending order, and the search that counts each entry that it looks at.

ghost use Rattle.std.specs.Prelude.{ℕ, ◌≡◌, ◌+◌, ◌<◌, ◌≤◌, ◌∷◌, length, false, true, slice_index_or, IfSome, IfNone, IsOk, MatchResult};
ghost use Rattle.std.specs.Prelude.{OnErr, OnOk, vec_capacity, vec_len};
ghost use Rattle.std.specs.List.{list_any};
ghost use Rattle.std.specs.List.Sorted.{IsPermutation};
ghost use Rattle.std.specs.Ordering.{is_eq};
ghost use Rattle.std.specs.declared.cmp.Ordering.TheVariants.{Less, Greater};
ghost use Rattle.bfd_demux.specs.Table.{HasKeysOnce, HasSame, IsAscending, IsPlaceOf, IsSlotFor};

use bfd_num::Steps;
use std::alloc::AllocError;
use std::cmp::Ordering;
use std::sync::ledger::Ledger;

/// Whether each entry's key is below the next entry's.
fn is_ascending<K: Ord, V>(entries: &[(K, V)]) -> bool
    ensures rising { result ≡ true → IsAscending K.cmp entries.now }
    ensures reported { IsAscending K.cmp entries.now → result ≡ true }
{
    for place in 1..entries.len() {
        if !entries[place - 1].0.cmp(&entries[place].0).is_lt() {
            return false;
        }
    }
    true
}

/// Puts entries into the ascending order of their keys, and answers whether each key comes once. Entries that
/// already stand so are looked through and left where they are.
pub fn sort_by_key<K: Ord + Copy, V>(entries: &mut Vec<(K, V)>) -> bool
    ensures permutation { IsPermutation entries.old.items entries.new.items }
    ensures ascending { HasKeysOnce K.cmp entries.old.items → IsAscending K.cmp entries.new.items }
    ensures once { result ≡ true → HasKeysOnce K.cmp entries.old.items }
    ensures reported { HasKeysOnce K.cmp entries.old.items → result ≡ true }
{
    if is_ascending(entries) {
        return true;
    }
    entries.sort_unstable_by_key(|entry| entry.0);
    is_ascending(entries)
}

/// The place of the entry with this key among those from `low` up to `high`: all before are lower, and all from `high` on
/// higher. Each entry that it looks at is one step.
fn search<K: Ord, V, L: Ledger>(
    entries: &[(K, V)],
    low: usize,
    high: usize,
    key: &K,
    steps: &mut Steps<L>,
) -> Option<usize>
    requires ascending { IsAscending K.cmp entries.now }
    requires order { low ≤ high }
    requires within { high ≤ length entries.now }
    requires below { (k : ℕ) (d : _) → k < low → K.cmp (slice_index_or entries.now k d).0 key.now ≡ Less }
    requires above { (k : ℕ) (d : _) → high ≤ k → k < length entries.now
        → K.cmp (slice_index_or entries.now k d).0 key.now ≡ Greater }
    requires few { high < low + 65536 }
    ensures found { IfSome result (IsPlaceOf K.cmp entries.now key.now) }
    ensures none { IfNone result (list_any (λ entry. is_eq (K.cmp entry.0 key.now)) entries.now ≡ false) }
    ensures cost { steps.new ≤ steps.old + 16 }
{
    let mut low = low;
    let mut high = high;
    while low < high {
        let middle = low + (high - low) / 2;
        steps.tick();
        match entries[middle].0.cmp(key) {
            Ordering::Less => low = middle + 1,
            Ordering::Equal => return Some(middle),
            Ordering::Greater => high = middle,
        }
    }
    None
}

/// The place of the entry with this key, which is also the number of entries with a lower key, or None where
/// no entry has it. It looks first where it is guessed. Each entry that it looks at is one step.
pub fn place_near<K: Ord, V, L: Ledger>(
    entries: &[(K, V)],
    guess: usize,
    key: &K,
    steps: &mut Steps<L>,
) -> Option<usize>
    requires ascending { IsAscending K.cmp entries.now }
    requires few { length entries.now ≤ 65536 }
    ensures found { IfSome result (IsPlaceOf K.cmp entries.now key.now) }
    ensures none { IfNone result (list_any (λ entry. is_eq (K.cmp entry.0 key.now)) entries.now ≡ false) }
    ensures cost { steps.new ≤ steps.old + 17 }
{
    let Some(last) = entries.len().checked_sub(1) else {
        return None;
    };
    let middle = guess.min(last);
    steps.tick();
    match entries[middle].0.cmp(key) {
        Ordering::Less => search(entries, middle + 1, entries.len(), key, steps),
        Ordering::Equal => Some(middle),
        Ordering::Greater => search(entries, 0, middle, key, steps),
    }
}

/// The place of the entry with this key, or the one that it would have.
fn slot_of<K: Ord + Copy, V>(entries: &[(K, V)], key: &K) -> Result<usize, usize>
    requires { IsAscending K.cmp entries.now }
    ensures { MatchResult result (IsPlaceOf K.cmp entries.now key.now) (IsSlotFor K.cmp entries.now key.now) }
{
    entries.binary_search_by_key(key, |entry| entry.0)
}

/// Whether an entry has this key.
pub fn has_key<K: Ord + Copy, V>(entries: &[(K, V)], key: &K) -> bool
    requires { IsAscending K.cmp entries.now }
    ensures { result ≡ list_any (λ entry. is_eq (K.cmp entry.0 key.now)) entries.now }
{
    slot_of(entries, key).is_ok()
}

/// Adds an entry whose key no other has. Fails only when out of memory, and never where there is room.
pub fn insert_by_key<K: Ord + Copy, V: Copy>(
    entries: &mut Vec<(K, V)>,
    entry: (K, V),
) -> Result<(), AllocError>
    requires ascending { IsAscending K.cmp entries.old.items }
    requires new { list_any (λ other. is_eq (K.cmp other.0 entry.0)) entries.old.items ≡ false }
    ensures ascending { OnOk result (IsAscending K.cmp entries.new.items) }
    ensures same { OnOk result (HasSame (entry ∷ entries.old.items) entries.new.items) }
    ensures refused { OnErr result (entries.new.items ≡ entries.old.items) }
    ensures room { vec_len entries.old < vec_capacity entries.old → IsOk result }
{
    let Err(place) = slot_of(entries, &entry.0) else {
        unreachable!();
    };
    match entries.insert(place, entry) {
        Ok(()) => Ok(()),
        Err(_) => Err(AllocError),
    }
}
