//! What the definitions promise by themselves, of turns.
ghost use Rattle.std.specs.Prelude.{◌≡◌, ◌≢◌, ◌≤◌, ◌+◌, ◌++◌, ◌∷◌, [], ℕ, List};
ghost use Rattle.bfd_shard.specs.declared.entry.Entry.{Entry};
ghost use Rattle.bfd_shard.specs.declared.entry.ShardEvent.{ShardEvent};
ghost use Rattle.bfd_turn.specs.Lists.{Begins, calls};
ghost use Rattle.bfd_engine.specs.Calls.{Turned, mine, seen_at, taken_at, met_word};
ghost use Rattle.bfd_engine.specs.Engines.{Knows};
ghost use Rattle.bfd_engine.specs.Turned.{by, entry_of};

/// Laws of turns, and no work: by a turn what a pass has seen of each shard grows at its end; the caller's own calls on the
/// turn's shard are those that it had and those of the turn, and on the others as before; an entry that the caller adds is a
/// call of its own; and on no shard the word that was met falls, or the count of turns rises by more than one.
#[tactic(auto, using(crate::proofs::Growing::grows, crate::proofs::Growing::gains, crate::proofs::Growing::mine_elsewhere, crate::proofs::Growing::own_call, crate::proofs::Growing::words, crate::proofs::Growing::takens))]
pub fn turn_laws()
    ensures grows { (k l : Knows) (shard r : ℕ) (between new : List Entry) → Turned k l shard between new
        → Begins (seen_at k r) (seen_at l r) }
    ensures gains { (k l : Knows) (shard : ℕ) (between new : List Entry) → Turned k l shard between new
        → mine l shard ≡ mine k shard ++ calls by k.0 new }
    ensures elsewhere { (k l : Knows) (shard r : ℕ) (between new : List Entry) → Turned k l shard between new
        → r ≢ shard → mine l r ≡ mine k r }
    ensures own { (caller : ℕ) (event : ShardEvent)
        → calls by caller (entry_of caller event ∷ []) ≡ entry_of caller event ∷ [] }
    ensures words { (k l : Knows) (shard r : ℕ) (between new : List Entry) → Turned k l shard between new
        → met_word k r ≤ met_word l r }
    ensures takens { (k l : Knows) (shard r : ℕ) (between new : List Entry) → Turned k l shard between new
        → taken_at l r ≤ taken_at k r + 1 }
{}
