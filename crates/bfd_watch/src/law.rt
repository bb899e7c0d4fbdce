//! What the definitions promise by themselves.
ghost use Rattle.std.specs.Prelude.{ℕ, ◌≡◌, ◌+◌, ◌++◌, ◌∷◌, [], List, length};
ghost use Rattle.bfd_session.specs.declared.event.SessionConfig.{SessionConfig};
ghost use Rattle.bfd_session.specs.Alone.{Outcome};
ghost use Rattle.bfd_shard.specs.declared.entry.ShardEvent.{ShardEvent};
ghost use Rattle.bfd_shard.specs.History.{last_tick, outcome_of, runs};
ghost use Rattle.bfd_watch.specs.Changes.{history_changes, changes_from, changes_in, history_outcomes};
ghost use Rattle.bfd_watch.specs.Groups.{Group, group_after};
ghost use Rattle.bfd_watch.specs.Watched.{watched_lines, watched_lines_from, watched, watched_line};

/// Laws of changes, and no work: one more event gives what it does to the sessions that the history left, at its last tick;
/// its changes come behind the others, with the next number.
#[tactic(auto, using(crate::proofs::ChangeLines::outcomes_grow, crate::proofs::ChangeLines::changes_more))]
pub fn changes_laws()
    ensures outcomes { (configs : List SessionConfig) (events : List ShardEvent) (event : ShardEvent)
        → history_outcomes configs (events ++ event ∷ [])
        ≡ history_outcomes configs events ++ outcome_of (last_tick events) event (runs events configs) ∷ [] }
    ensures changes { (configs : List SessionConfig) (events : List ShardEvent) (event : ShardEvent)
        → history_changes configs (events ++ event ∷ [])
        ≡ history_changes configs events ++ changes_in (length events + 1)
        (outcome_of (last_tick events) event (runs events configs)).items }
{}

/// Laws of the watched text, and no work: with one more event come its lines, with the next number and the group as all
/// changes before have left it; and the group is then as its changes leave it. The whole text is these lines and the last.
#[tactic(auto, using(crate::proofs::Lines::lines_more, crate::proofs::Lines::group_more))]
pub fn watched_laws()
    ensures lines { (outcomes : List Outcome) (outcome : Outcome) (g : Group)
        → watched_lines_from 1 (outcomes ++ outcome ∷ []) g
        ≡ watched_lines_from 1 outcomes g
        ++ watched_lines (length outcomes + 1) (changes_in (length outcomes + 1) outcome.items)
        (group_after (changes_from 1 outcomes) g) }
    ensures group { (outcomes : List Outcome) (outcome : Outcome) (g : Group)
        → group_after (changes_from 1 (outcomes ++ outcome ∷ [])) g
        ≡ group_after (changes_in (length outcomes + 1) outcome.items) (group_after (changes_from 1 outcomes) g) }
    ensures whole { (outcomes : List Outcome) (g : Group)
        → watched outcomes g
        ≡ watched_lines_from 1 outcomes g ++ watched_line (length (changes_from 1 outcomes))
        (group_after (changes_from 1 outcomes) g) }
{}
