//! A client that receives the state changes of a shard, alongside a thread that hands packets and ticks to the engine.
ghost use Rattle.std.specs.Prelude.{◌≡◌, ◌++◌, ◌∷◌, [], IfSome, length, map};
ghost use Rattle.std.specs.List.{All};
ghost use Rattle.bfd_engine.specs.Calls.{seen_at};
ghost use Rattle.bfd_engine.specs.Engines.{IsOf, AllThere};
ghost use Rattle.bfd_thread_tests.specs.Calling.{HasGrown};
ghost use Rattle.bfd_thread_tests.specs.Following.{AreItsChanges, IsClientReported};
ghost use Rattle.bfd_thread_tests.specs.Joining.{HasOpen};
ghost use Rattle.bfd_thread_tests.specs.Ready.{IsJobReady, number_of};

use crate::eight::calls;
use crate::embedding::{Job, add_job, at_once, finish};
use crate::engine::{configs_of, opened};
use bfd_engine::{Engine, EnginePass};
use bfd_shard::Entry;
use bfd_watch::{Change, Watch};
use bfd_wheel::{PlainTimers, Timers};
use std::alloc::Global;
use std::sync::Wait;
use std::thread::{Threads, join_mut};

/// A cursor over the history of shard 0, and the changes that it has reported.
#[derive(Drop)]
struct Client {
    watch: Watch<PlainTimers>,
    reported: Vec<Change>,
}

/// A client that has accepted no entry.
#[tactic(auto, unfolding(bfd_watch::specs::Changes::changes_from, bfd_watch::specs::Changes::outcomes_after))]
fn new_client(alloc: Global) -> Option<Client>
    ensures { IfSome result (λ client. IsClientReported [] client.watch client.reported.items) }
{
    let configs = configs_of(alloc, 0).ok()?;
    let watch = Watch::make(alloc, configs, 100_000).ok()?;
    Some(Client {
        watch,
        reported: Vec::new(alloc),
    })
}

/// The next entry of the shard. None where it is none of the shard's, or when out of memory.
fn take(client: &mut Client, entry: Entry) -> Option<()>
    requires reported { AreItsChanges client.old.watch client.old.reported.items }
    ensures reported { IfSome result (λ _. AreItsChanges client.new.watch client.new.reported.items) }
    ensures taken { IfSome result (λ _. client.new.watch.entries ≡ client.old.watch.entries ++ entry ∷ []) }
{
    if !client.watch.takes(&entry) {
        return None;
    }
    let Ok(()) = client.watch.take(entry, &mut client.reported) else {
        return None;
    };
    Some(())
}

/// The next entries of the shard.
fn take_all(alloc: Global, client: &mut Client, list: &[Entry]) -> Option<()>
    requires reported { AreItsChanges client.old.watch client.old.reported.items }
    ensures reported { IfSome result (λ _. AreItsChanges client.new.watch client.new.reported.items) }
    ensures taken { IfSome result (λ _. client.new.watch.entries ≡ client.old.watch.entries ++ list.now) }
{
    for entry in list {
        take(client, entry.copy(alloc).ok()?)?;
    }
    Some(())
}

/// A client that received what came to the shard so far.
#[tactic(auto, using(crate::proofs::Following::grown_read, crate::proofs::Worked::grown_same))]
fn start<W: Timers, R: Wait>(
    rt: &R,
    alloc: Global,
    engine: &Engine<W>,
    pass: &mut EnginePass,
) -> Option<Client>
    requires of { IsOf engine.now pass.old.1 }
    requires there { AllThere pass.old.1 }
    requires shards { length engine.now.locks ≡ 3 }
    ensures of { IsOf engine.now pass.new.1 }
    ensures there { AllThere pass.new.1 }
    ensures grown { HasGrown pass.old pass.new }
    ensures reported { IfSome result (λ client. IsClientReported (seen_at pass.new 0) client.watch client.reported.items) }
{
    let mut client = new_client(alloc)?;
    let mut list = Vec::new(alloc);
    match engine.journal_from(rt, alloc, pass, 0, 0, &mut list) {
        Ok(()) => take_all(alloc, &mut client, list.as_slice())?,
        Err(_) => return None,
    }
    Some(client)
}

/// A poll: what came to the shard since the last.
#[tactic(auto, using(crate::proofs::Following::grown_read, crate::proofs::Following::seen_rest))]
fn poll<W: Timers, R: Wait>(
    rt: &R,
    alloc: Global,
    engine: &Engine<W>,
    pass: &mut EnginePass,
    client: &mut Client,
) -> Option<()>
    requires of { IsOf engine.now pass.old.1 }
    requires there { AllThere pass.old.1 }
    requires shards { length engine.now.locks ≡ 3 }
    requires reported { IsClientReported (seen_at pass.old 0) client.old.watch client.old.reported.items }
    ensures of { IsOf engine.now pass.new.1 }
    ensures there { AllThere pass.new.1 }
    ensures grown { HasGrown pass.old pass.new }
    ensures reported { IfSome result (λ _. IsClientReported (seen_at pass.new 0) client.new.watch client.new.reported.items) }
{
    let mut list = Vec::new(alloc);
    let from = client.watch.taken();
    match engine.journal_from(rt, alloc, pass, 0, from, &mut list) {
        Ok(()) => take_all(alloc, client, list.as_slice()),
        Err(_) => None,
    }
}

/// So many polls.
#[tactic(auto, using(crate::proofs::Worked::grown_same))]
fn polls<W: Timers, R: Wait>(
    rt: &R,
    alloc: Global,
    engine: &Engine<W>,
    pass: &mut EnginePass,
    client: &mut Client,
) -> Option<()>
    requires of { IsOf engine.now pass.old.1 }
    requires there { AllThere pass.old.1 }
    requires shards { length engine.now.locks ≡ 3 }
    requires reported { IsClientReported (seen_at pass.old 0) client.old.watch client.old.reported.items }
    ensures of { IsOf engine.now pass.new.1 }
    ensures there { AllThere pass.new.1 }
    ensures grown { HasGrown pass.old pass.new }
    ensures reported { IfSome result (λ _. IsClientReported (seen_at pass.new 0) client.new.watch client.new.reported.items) }
{
    for count in 0u32..500 {
        poll(rt, alloc, engine, pass, client)?;
    }
    Some(())
}

/// The jobs in threads of their own, and the client's polls alongside them.
#[tactic(auto, using(crate::proofs::Following::open_grown))]
fn beside<W: Timers + Send, R: Threads + Wait + Sync>(
    rt: &R,
    alloc: Global,
    engine: &Engine<W>,
    first: &mut EnginePass,
    jobs: &mut [Job],
    client: &mut Client,
) -> Option<()>
    requires passes { HasOpen engine.now first.old (map number_of jobs.old) }
    requires ready { All (λ (j : _). IsJobReady engine.now j) jobs.old }
    requires shards { length engine.now.locks ≡ 3 }
    requires reported { IsClientReported (seen_at first.old 0) client.old.watch client.old.reported.items }
    ensures long { length jobs.new ≡ length jobs.old }
    ensures passes { HasOpen engine.now first.new (map number_of jobs.new) }
    ensures ready { All (λ (j : _). IsJobReady engine.now j) jobs.new }
    ensures reported { IfSome result (λ _. IsClientReported (seen_at first.new 0) client.new.watch client.new.reported.items) }
{
    let mut polled = || -> Option<()>
        requires { IsOf engine.now first.now.1 × AllThere first.now.1 × (length engine.now.locks ≡ 3)
            × IsClientReported (seen_at first.now 0) client.now.watch client.now.reported.items }
        ensures of { IsOf engine.entry.now first.exit.now.1 }
        ensures there { AllThere first.exit.now.1 }
        ensures grown { HasGrown first.entry.now first.exit.now }
        ensures reported { IfSome result (λ _. IsClientReported (seen_at first.exit.now 0)
            client.exit.now.watch client.exit.now.reported.items) }
    { polls(rt, alloc, engine, first, client) };
    let mut worked = ||
        requires { All (λ (j : _). IsJobReady engine.now j) jobs.now }
        ensures long { length jobs.exit.now ≡ length jobs.entry.now }
        ensures ready { All (λ (j : _). IsJobReady engine.entry.now j) jobs.exit.now }
        ensures numbers { map number_of jobs.exit.now ≡ map number_of jobs.entry.now }
    { at_once(rt, alloc, engine, jobs) };
    let (_, reported) = join_mut(rt, &mut worked, &mut polled);
    reported
}

/// What a watch reports of a whole journal.
fn history(alloc: Global, journal: &[Entry]) -> Option<Vec<Change>> {
    let mut client = new_client(alloc)?;
    take_all(alloc, &mut client, journal)?;
    Some(client.reported)
}

/// The changes are the same, and more than 20.
fn are_many_and_same(reported: &[Change], wanted: &[Change]) -> bool {
    reported == wanted && reported.len() > 20
}

/// Whether a client that polled while packets came, and once after that, received what the closed engine's journal reports.
#[tactic(auto, using(crate::proofs::Rooms::room_enough, crate::proofs::Following::open_grown))]
fn reported_beside<R: Threads + Wait + Sync>(rt: &R, alloc: Global) -> Option<bool> {
    let (engine, mut first) = opened(alloc, 100_000)?;
    let mut jobs = Vec::new(alloc);
    add_job(alloc, &engine, &mut first, &mut jobs, calls(alloc, 1)?, 25).ok()?;
    let mut client = start(rt, alloc, &engine, &mut first)?;
    beside(
        rt,
        alloc,
        &engine,
        &mut first,
        jobs.as_mut_slice(),
        &mut client,
    )?;
    poll(rt, alloc, &engine, &mut first, &mut client)?;
    let (shards, _) = finish(alloc, engine, first, jobs).ok()?;
    let wanted = history(alloc, shards.first()?.journal())?;
    Some(are_many_and_same(client.reported.as_slice(), wanted.as_slice()))
}

#[test]
fn a_client_beside_a_packet_thread(rt: HostRuntime) {
    assert!(rt; reported_beside(&rt, rt.alloc()) == Some(true));
}
