//! A watch of each shard of an engine, and what they report after an event.
ghost use Rattle.std.specs.Prelude.{ℕ, ◌≡◌, ◌≤◌, ◌<◌, ◌++◌, IfOk, IfErr, OnOk, [], length, slice_get, slice_index_or, Some};
ghost use Rattle.bfd_session.specs.Rows.{AreFit};
ghost use Rattle.bfd_shard.specs.Dealing.{share};
ghost use Rattle.bfd_engine.specs.Engines.{IsOf, AllThere, configs_at};
ghost use Rattle.bfd_engine.specs.Calls.{seen_at};
ghost use Rattle.bfd_engine.specs.Reads.{AreGiven, HasRead};
ghost use Rattle.bfd_turn.specs.Lists.{Begins};
ghost use Rattle.bfd_watch.specs.Watching.{Watching as WatchingIn, watching};
ghost use Rattle.bfd_replay.specs.Turning.{HasKept, Went};
ghost use Rattle.bfdd.specs.Following.{AreBehind, AreWatched, IsLeft, IsUntaken, merged_of, news, reported_after};

use crate::watched_text::merging::{merge, renumbered};
use bfd_engine::{Engine, EngineFault, EnginePass};
use bfd_session::SessionConfig;
use bfd_shard::Entry;
use bfd_watch::{Change, Watch, WatchFault};
use bfd_wheel::Timers;
use std::alloc::{AllocError, Global};
use std::sync::Wait;

/// Copies of the configurations of a shard's sessions.
fn dealt_to(
    alloc: Global,
    configs: &[SessionConfig],
    shards: usize,
    shard: usize,
) -> Result<Vec<SessionConfig>, AllocError>
    requires some { (0 < shards) × (shards ≤ 64) }
    requires few { length configs.now ≤ 65536 }
    requires inside { shard < shards }
    ensures { IfOk result (λ part. part.items ≡ share shards shard configs.now) }
{
    let mut part = Vec::new(alloc);
    let mut at = shard;
    while at < configs.len() {
        part.push(configs[at].copy())?;
        at += shards;
    }
    Ok(part)
}

/// A watch of each shard, which has accepted no entry, and accepts `limit`.
pub(crate) fn watches<W: Timers>(
    alloc: Global,
    configs: &[SessionConfig],
    shards: u32,
    limit: usize,
) -> Result<Vec<Watch<W>>, AllocError>
    requires some { (0 < shards) × (shards ≤ 64) }
    requires few { length configs.now ≤ 65536 }
    requires fit { AreFit configs.now }
    ensures long { IfOk result (λ list. length list.items ≡ shards) }
    ensures each { IfOk result (λ list. (r : ℕ) → r < shards
        → slice_get list.items r ≡ Some (watching (share shards r configs.now) [] limit)) }
{
    let mut list = Vec::new(alloc);
    for shard in 0..shards {
        let own = dealt_to(alloc, configs, shards as usize, shard as usize)?;
        list.push(Watch::make(alloc, own, limit)?)?;
    }
    Ok(list)
}

/// What these entries report, which the watch accepts.
fn take_all<W: Timers>(
    alloc: Global,
    watch: &mut Watch<W>,
    entries: Vec<Entry>,
) -> Result<Vec<Change>, WatchFault>
    requires { AreGiven watch.old.configs entries.items }
    ensures taken { OnOk result (watch.new ≡ record watch.old { entries = watch.old.entries ++ entries.items }) }
    ensures reported { IfOk result (λ reported. reported.items ≡ reported_after watch.old entries.items) }
    ensures left { IfErr result (λ fault. IsLeft fault watch.old entries.items) }
{
    let mut reported = Vec::new(alloc);
    for entry in entries {
        watch.take(entry, &mut reported)?;
    }
    Ok(reported)
}

/// What a shard's watch reports of the entries that it hasn't accepted yet, as those of the event of this number.
fn poll<W: Timers, R: Wait>(
    rt: &R,
    alloc: Global,
    engine: &Engine<W>,
    pass: &mut EnginePass,
    shard: u32,
    watch: &mut Watch<W>,
    number: u64,
) -> Result<Vec<Change>, EngineFault>
    requires of { IsOf engine.now pass.old.1 }
    requires there { AllThere pass.old.1 }
    requires shard { shard < length engine.now.locks }
    requires configs { watch.old.configs ≡ configs_at engine.now shard }
    requires begins { Begins watch.old.entries (seen_at pass.old shard) }
    ensures of { IsOf engine.now pass.new.1 }
    ensures there { AllThere pass.new.1 }
    ensures read { HasRead pass.old pass.new shard }
    ensures taken { OnOk result (watch.new ≡ record watch.old { entries = seen_at pass.new shard }) }
    ensures reported { IfOk result (λ reported. reported.items ≡ news number watch.old (seen_at pass.new shard)) }
    ensures untaken { IfErr result (λ fault. IsUntaken fault engine.now watch.old.limit shard pass.new) }
{
    let mut entries = Vec::new(alloc);
    engine.journal_from(rt, alloc, pass, shard, watch.taken(), &mut entries)?;
    let reported = match take_all(alloc, watch, entries) {
        Ok(reported) => reported,
        Err(WatchFault::Full(count)) => return Err(EngineFault::Full(shard, count)),
        Err(WatchFault::Memory) => return Err(EngineFault::Memory),
    };
    match renumbered(alloc, number, &reported) {
        Ok(reported) => Ok(reported),
        Err(_) => Err(EngineFault::Memory),
    }
}

/// What all watches report after the event of this number, by discriminator where each shard's is so.
pub(crate) fn poll_all<W: Timers, R: Wait>(
    rt: &R,
    alloc: Global,
    engine: &Engine<W>,
    pass: &mut EnginePass,
    watches: &mut Vec<Watch<W>>,
    number: u64,
) -> Result<Vec<Change>, EngineFault>
    requires of { IsOf engine.now pass.old.1 }
    requires there { AllThere pass.old.1 }
    requires number { pass.old.0 ≡ 0 }
    requires behind { AreBehind engine.now engine.now.limit pass.old watches.old.items }
    ensures of { IsOf engine.now pass.new.1 }
    ensures there { AllThere pass.new.1 }
    ensures kept { HasKept 1 pass.old pass.new }
    ensures went { (r : ℕ) → r < length engine.now.locks → Went pass.old pass.new [] r }
    ensures watched { OnOk result (AreWatched engine.now engine.now.limit pass.new watches.new.items) }
    ensures reported { IfOk result (λ reported. (d : WatchingIn) → reported.items ≡ merged_of (length engine.now.locks)
        (λ r. news number (slice_index_or watches.old.items r d) (seen_at pass.new r))) }
    ensures untaken { IfErr result (λ fault. (r : ℕ) × (r < length engine.now.locks) × IsUntaken fault engine.now engine.now.limit r
        pass.new) }
{
    let mut reported = Vec::new(alloc);
    for shard in 0..engine.shards() {
        let watch = &mut watches[shard as usize];
        let more = match poll(rt, alloc, engine, pass, shard, watch, number) {
            Ok(more) => more,
            Err(fault) => return Err(fault),
        };
        reported = match merge(alloc, &reported, &more) {
            Ok(all) => all,
            Err(_) => return Err(EngineFault::Memory),
        };
    }
    Ok(reported)
}
