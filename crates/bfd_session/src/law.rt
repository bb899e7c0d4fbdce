//! What the definitions promise by themselves, for callers that skip ticks or speak of whole histories.
ghost use Rattle.std.specs.Prelude.{◌≡◌, ◌*◌, ◌<◌, ◌||◌, ℕ, List, [], false, is_none, IsSome};
ghost use Rattle.std.specs.List.{AllByRecursion};
ghost use Rattle.std.specs.Option.{option_or};
ghost use Rattle.bfd_num.specs.Numbers.{moment_bound};
ghost use Rattle.bfd_num.specs.Due.{has_come};
ghost use Rattle.bfd_packet.specs.declared.arrival.Arrival.{Arrival};
ghost use Rattle.bfd_rules.specs.declared.variables.Vars.{Vars};
ghost use Rattle.bfd_demux.specs.declared.row.Row.{Row};
ghost use Rattle.bfd_demux.specs.Selection.{first_table_failing};
ghost use Rattle.bfd_session.specs.declared.event.SessionConfig.{SessionConfig};
ghost use Rattle.bfd_session.specs.declared.event.Event.{Event};
ghost use Rattle.bfd_session.specs.declared.event.Event.TheVariants.{Packet};
ghost use Rattle.bfd_session.specs.Discards.{first_discarding, first_own_failing, test_of, judging, answer_by};
ghost use Rattle.bfd_session.specs.Kinds.{Running, discr_of};
ghost use Rattle.bfd_session.specs.Due.{due, detects};
ghost use Rattle.bfd_rules.specs.Names.{named};
ghost use Rattle.bfd_session.specs.Step.{IsSound, CanTake, HasSize, verdict_by, tick_next, tick_emits, next, emits, reply};

/// Laws, and no work: for every sound session, a tick by which nothing is due leaves it as it is and emits nothing, so
/// a caller may hand a tick to the due sessions alone; every tick keeps a session sound; its last own event was at a
/// moment; all that a tick of any session emits names that session; a tick forgets that a packet was heard if and
/// only if the Detection Time has expired by its limit; and that time runs only where a packet was heard.
#[tactic(auto, using(crate::proofs::Rest::rest_session, crate::proofs::Rest::rest_outs, crate::proofs::Soundness::tick_sound, crate::proofs::Soundness::at_sound, crate::proofs::Naming::tick_named, crate::proofs::Expiring::tick_expires, crate::proofs::Expiring::detects_heard))]
pub fn tick_laws()
    ensures session { (s : Running) (t eff : ℕ) → IsSound s → has_come t (due s) ≡ false
        → tick_next (1000 * t) eff s ≡ s }
    ensures outs { (s : Running) (t eff : ℕ) → IsSound s → has_come t (due s) ≡ false
        → tick_emits (1000 * t) eff s ≡ [] }
    ensures sound { (s : Running) (limit eff : ℕ) → eff < moment_bound → IsSound s → IsSound (tick_next limit eff s) }
    ensures moments { (s : Running) → IsSound s → s.vars.at < moment_bound }
    ensures named { (s : Running) (limit eff : ℕ)
        → AllByRecursion (λ o. named o ≡ discr_of s.config) (tick_emits limit eff s) }
    ensures expires { (s : Running) (limit eff : ℕ)
        → is_none (tick_next limit eff s).vars.heard ≡ (is_none s.vars.heard || has_come limit (detects s)) }
    ensures heard { (s : Running) → IsSound s → IsSome (detects s) → IsSome s.vars.heard }
{}

/// Laws of own events, and no work: all that an own event of any session emits names that session; and every own event
/// that a session can accept keeps it sound. The first test that discards an arrival is the first of the table, or else the
/// first of the session, and that is the one that its verdict names; a packet is answered by the first test of the
/// session that fails over the variables after settling, and handled where none does.
#[tactic(auto, using(crate::proofs::Naming::event_named, crate::proofs::Own::own_sound, crate::proofs::Discarding::discards_first, crate::proofs::Discarding::verdict_first, crate::proofs::Discarding::reply_first))]
pub fn event_laws()
    ensures named { (s : Running) (eff : ℕ) (event : Event)
        → AllByRecursion (λ o. named o ≡ discr_of s.config) (emits eff event s) }
    ensures sound { (s : Running) (eff : ℕ) (event : Event) → eff < moment_bound → CanTake s.config event
        → HasSize s.config event
        → IsSound s → IsSound (next eff event s) }
    ensures discards { (rows : List Row) (c : SessionConfig) (v : Vars) (arrival : Arrival)
        → first_discarding rows c v arrival
        ≡ option_or (first_table_failing rows arrival) (first_own_failing c v arrival) }
    ensures verdicts { (c : SessionConfig) (v : Vars) (arrival : Arrival)
        → first_own_failing c v arrival ≡ test_of (verdict_by c arrival v) }
    ensures answers { (s : Running) (eff : ℕ) (arrival : Arrival)
        → reply eff (Packet arrival) s ≡ answer_by (first_own_failing s.config (judging eff s) arrival) }
{}
