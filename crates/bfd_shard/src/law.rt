//! What the definitions promise by themselves, of histories.
ghost use Rattle.std.specs.Prelude.{◌≡◌, ◌<◌, ◌/◌, ◌%◌, ◌++◌, ◌∷◌, [], ℕ, List, length, slice_index_or};
ghost use Rattle.std.specs.List.{AllByRecursion};
ghost use Rattle.bfd_session.specs.declared.event.SessionConfig.{SessionConfig};
ghost use Rattle.bfd_session.specs.Kinds.{Running, configs_of};
ghost use Rattle.bfd_session.specs.Step.{IsSound};
ghost use Rattle.bfd_shard.specs.declared.entry.ShardEvent.{ShardEvent};
ghost use Rattle.bfd_shard.specs.declared.entry.ShardEvent.TheVariants.{Tick};
ghost use Rattle.bfd_shard.specs.Dealing.{own_events, history_of};
ghost use Rattle.bfd_shard.specs.Expired.{expired, forgotten};
ghost use Rattle.bfd_shard.specs.History.{later, last_from, last_tick, moved, run, runs};

use bfd_session::tick_laws;

/// Laws of histories, and no work: one more event is an event of the sessions that the history left, at its last tick; the
/// session at each place has run alone; and no event changes a configuration.
#[tactic(auto, using(crate::proofs::Runs::runs_more, crate::proofs::Runs::last_more, crate::proofs::Runs::runs_at, crate::proofs::Runs::runs_configs))]
pub fn history_laws()
    ensures more { (events : List ShardEvent) (event : ShardEvent) (configs : List SessionConfig)
        → runs (events ++ event ∷ []) configs ≡ moved (last_tick events) event (runs events configs) }
    ensures last { (events : List ShardEvent) (event : ShardEvent)
        → last_tick (events ++ event ∷ []) ≡ later (last_tick events) event }
    ensures at { (events : List ShardEvent) (configs : List SessionConfig) (k : ℕ) (c : SessionConfig) (d : Running)
        → k < length configs
        → slice_index_or (runs events configs) k d ≡ run k events (slice_index_or configs k c) }
    ensures configs { (events : List ShardEvent) (configs : List SessionConfig)
        → configs_of (runs events configs) ≡ configs }
{}

/// Laws of a session's own events, and no work: two sessions of one configuration with the same own events, and the same
/// ticks between them, are the same, whatever other sessions stand in their shards and at whatever places the two stand. And
/// of events of a whole table, whose sessions are dealt out to a number of shards, the session at place k has those own
/// events that place k / shards of shard k % shards has of its shard's history, so it is the same session; every shard has
/// the table's last tick.
#[tactic(auto, using(crate::proofs::Dealing::same_own_events, crate::proofs::Dealing::dealt_out))]
pub fn own_laws()
    ensures alone { (place other : ℕ) (events elsewhere : List ShardEvent) (config : SessionConfig)
        → own_events place events ≡ own_events other elsewhere → run place events config ≡ run other elsewhere config }
    ensures own { (shards k : ℕ) (events : List ShardEvent)
        → own_events (k / shards) (history_of shards (k % shards) events) ≡ own_events k events }
    ensures dealt { (shards k : ℕ) (events : List ShardEvent) (config : SessionConfig)
        → run (k / shards) (history_of shards (k % shards) events) config ≡ run k events config }
    ensures last { (shards number : ℕ) (events : List ShardEvent)
        → last_tick (history_of shards number events) ≡ last_tick events }
{}

/// A law of expiry, and no work: where a history has left sound sessions, as every history of a shard does, a tick forgets
/// of exactly those sessions that a packet was heard whose Detection Time has expired by it (RFC 5880 section 6.8.4), where
/// a tick below the last tick counts as the last tick.
pub fn expiry_laws()
    ensures { (configs : List SessionConfig) (events : List ShardEvent) (t : ℕ)
        → AllByRecursion IsSound (runs events configs)
        → forgotten (runs events configs) (runs (events ++ Tick t ∷ []) configs) ≡ expired configs events t }
{
    tick_laws();
}
