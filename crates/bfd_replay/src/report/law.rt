//! What the definitions promise by themselves, of tables that are dealt out.
ghost use Rattle.std.specs.Prelude.{ℕ, ◌≡◌, ◌<◌, ◌+◌, ◌/◌, ◌%◌, ◌++◌, ◌∷◌, [], List, length, map, slice_get};
ghost use Rattle.std.specs.List.{cons_option, filter_map};
ghost use Rattle.bfd_session.specs.Alone.{Outcome};
ghost use Rattle.bfd_session.specs.declared.event.Event.{Event};
ghost use Rattle.bfd_session.specs.declared.event.SessionConfig.{SessionConfig};
ghost use Rattle.bfd_session.specs.Kinds.{Running};
ghost use Rattle.bfd_session.specs.Step.{started};
ghost use Rattle.bfd_shard.specs.declared.entry.ShardEvent.{ShardEvent};
ghost use Rattle.bfd_shard.specs.declared.entry.ShardEvent.TheVariants.{Own};
ghost use Rattle.bfd_shard.specs.Dealing.{history_of, share};
ghost use Rattle.bfd_shard.specs.History.{last_tick, moved, outcome_of, runs};
ghost use Rattle.bfd_replay.specs.declared.report.queue.Numbered.{Numbered};
ghost use Rattle.bfd_replay.specs.Pieces.{Piece, event_pieces, whole_piece};
ghost use Rattle.bfd_replay.specs.Happenings.{Happening, Apart, Among, AreParts, session_event, in_shard, numbered, queue, shard_pieces};
ghost use Rattle.bfd_replay.specs.Happenings.{apart_pieces, whole_pieces};
ghost use Rattle.bfd_replay.specs.Spread.{AreGathered};

/// Laws of sessions that are dealt out, and no work. A shard's sessions after its history are those of the whole table after
/// its events; the session at place k of the table stands at place k / shards of shard k % shards; an own event gives there
/// what it gives of the table, and changes no session of another shard; the events of a shard's queue are its history; and
/// one more event adds to the queue what the shard has of it.
#[tactic(auto, using(bfd_shard::proofs::Sharing::there, crate::proofs::Sharing::own_gives, crate::proofs::Sharing::own_away, crate::proofs::Histories::runs_share, crate::proofs::Histories::queue_events, crate::proofs::Histories::queue_more, crate::proofs::Histories::queue_append))]
pub fn dealing_laws()
    ensures sessions { (shards shard : ℕ) (events : List ShardEvent) (configs : List SessionConfig) → shard < shards
        → runs (history_of shards shard events) (share shards shard configs)
        ≡ share shards shard (runs events configs) }
    ensures at { (shards k : ℕ) (sessions : List Running) → 0 < shards
        → slice_get (share shards (k % shards) sessions) (k / shards) ≡ slice_get sessions k }
    ensures own { (shards k moment last : ℕ) (event : Event) (sessions : List Running) → 0 < shards
        → outcome_of last (Own (k / shards) moment event) (share shards (k % shards) sessions)
        ≡ outcome_of last (Own k moment event) sessions }
    ensures others { (shards shard k moment last : ℕ) (event : Event) (sessions : List Running) → 0 < shards
        → shard < shards → (k % shards ≡ shard → ⊥)
        → share shards shard (moved last (Own k moment event) sessions) ≡ share shards shard sessions }
    ensures queue { (shards shard number : ℕ) (events : List Happening)
        → map (λ e. e.event) (queue shards shard number events)
        ≡ history_of shards shard (filter_map session_event events) }
    ensures queue_more { (shards shard number : ℕ) (events : List Happening) (event : Happening)
        → queue shards shard number (events ++ event ∷ [])
        ≡ queue shards shard number events
        ++ cons_option (numbered (number + length events) (in_shard shards shard event)) [] }
    ensures queue_append { (shards shard number : ℕ) (events others : List Happening)
        → queue shards shard number (events ++ others)
        ≡ queue shards shard number events ++ queue shards shard (number + length events) others }
{}

/// Laws of what shards report, and no work. One more event of a shard's queue adds the pieces of what it gives, of the sessions
/// that the events before it left; an event that matches no session adds its one piece to the part of those; what is reported of those
/// among events behind others stands behind what is reported of theirs; and of a table whose sessions ascend by discriminator, the parts of
/// any number of shards, taken in the order of a report, are the pieces of the whole table.
#[tactic(auto, using(crate::proofs::Histories::reported_runs, crate::proofs::Histories::apart_more, crate::proofs::Histories::among_more, crate::proofs::Histories::apart_append, crate::proofs::Whole::parts_gathered))]
pub fn piece_laws()
    ensures more { (events : List Numbered) (event : Numbered) (configs : List SessionConfig)
        → shard_pieces 0 (events ++ event ∷ []) (map started configs)
        ≡ shard_pieces 0 events (map started configs) ++ event_pieces event.number event.event
        (outcome_of (last_tick (map (λ e. e.event) events)) event.event (runs (map (λ e. e.event) events) configs)) }
    ensures more_apart { (number : ℕ) (events : List Happening) (outcome : Outcome)
        → apart_pieces number (events ++ Apart outcome ∷ [])
        ≡ apart_pieces number events ++ whole_piece (number + length events) outcome ∷ [] }
    ensures none_apart { (number : ℕ) (events : List Happening) (event : ShardEvent)
        → apart_pieces number (events ++ Among event ∷ []) ≡ apart_pieces number events }
    ensures append_apart { (number : ℕ) (events others : List Happening)
        → apart_pieces number (events ++ others)
        ≡ apart_pieces number events ++ apart_pieces (number + length events) others }
    ensures gathered { (shards number last : ℕ) (events : List Happening) (sessions : List Running)
        (parts : List (List Piece))
        → AreParts shards number last events sessions parts
        → AreGathered parts (whole_pieces number last events sessions) }
{}
