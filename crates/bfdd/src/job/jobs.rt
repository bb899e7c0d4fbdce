//! What each job has to write.
ghost use Rattle.std.specs.Prelude.{◌≡◌, ◌<◌, ◌≤◌, ℕ, [], false, true, IfOk, List, Ok, Some, string_bytes};
ghost use Rattle.bfd_load.specs.Load as load;
ghost use Rattle.bfd_instance.specs.World.{totals};
ghost use Rattle.bfd_pair.specs.Line.{pair_line};
ghost use Rattle.bfd_pair.specs.Schedule.{schedule};
ghost use Rattle.bfd_script.specs.Reading.{script_of};
ghost use Rattle.bfd_script.specs.Sound.{IsScript};
ghost use Rattle.bfdd.specs.Ranges.{AreHands, IsFrom, IsJob};
ghost use Rattle.bfdd.specs.Text.{answer_to, load_line, done_with, watch_wanted};
ghost use Rattle.bfdd.specs.Words.{reads, serves};

use crate::job::answer::Answer;
use crate::job::replaying::write_replay;
use crate::job::status::Status;
use crate::job::unread::Unread;
use crate::watched_text::{first_unknown, watched};
use crate::words::{Hands, Job};
use bfd_edge::Gate;
use bfd_load::generate;
use bfd_pair::schedule::pair_line;
use bfd_replay::report::Counts;
use bfd_script::Script;
use std::alloc::{AllocError, Global};
use std::sync::Wait;
use std::thread::Threads;

/// `watch` of a script.
fn watch_script<R: Wait>(
    rt: &R,
    alloc: Global,
    need: u32,
    members: &[u32],
    shards: u32,
    script: Script,
) -> Result<Answer, AllocError>
    requires script { IsScript script }
    requires shards { (0 < shards) × (shards ≤ 64) }
    ensures { IfOk result (λ answer. answer ≡ watch_wanted need members.now script) }
{
    match first_unknown(script.configs.as_slice(), members) {
        Some(discr) => Ok(Answer::bare(alloc, Status::NoMember(discr))),
        None => {
            let text = watched(rt, alloc, script, need as usize, members, shards)?;
            Ok(Answer::done_with(text))
        }
    }
}

/// The summary line of a load.
fn load_text(alloc: Global, sessions: u32, counts: Counts, up: u32) -> Result<String, AllocError>
    ensures { IfOk result (λ text. string_bytes text ≡ load_line sessions
        (record {
          events = counts.events;
          txs = counts.txs;
          drops = counts.drops;
          ups = up;
        })) }
{
    let Counts { events, txs, drops } = counts;
    format!(in alloc; "load {sessions} {events} {txs} {drops} {up}\n")
}

/// `load` of these numbers.
fn load_answer<R: Threads + Wait + Sync, G: Gate + Sync>(
    rt: &R,
    alloc: Global,
    sessions: u32,
    ticks: u32,
    seed: u32,
    hands: Hands,
    gate: &G,
) -> Result<Answer, AllocError>
    requires hands { AreHands hands }
    requires sessions { IsFrom 1 5000 sessions }
    requires ticks { IsFrom 1 6000 ticks }
    ensures { IfOk result (λ answer. answer
        ≡ done_with (load_line sessions (totals (load.script sessions ticks seed)))) }
{
    let script = generate(alloc, sessions, ticks, seed)?;
    let Ok(replay) = write_replay(rt, alloc, script, hands, gate, &mut Unread {}) else {
        return Err(AllocError);
    };
    let line = load_text(alloc, sessions, replay.counts, replay.up)?;
    Ok(Answer::done_with(line.into_bytes()))
}

/// `pair` of these numbers.
fn pair_answer(alloc: Global, events: u32, seed: u32) -> Result<Answer, AllocError>
    requires { IsFrom 1 100000 events }
    ensures { IfOk result (λ answer. answer ≡ done_with (pair_line seed (schedule seed events))) }
{
    let line = pair_line(alloc, u64::from(events), seed)?;
    Ok(Answer::done_with(line.into_bytes()))
}

/// What a job has to write that reads a script, with this one. Fails only when out of memory.
pub(crate) fn answer_on<R: Wait>(
    rt: &R,
    alloc: Global,
    job: &Job,
    script: Script,
) -> Result<Answer, AllocError>
    requires ranges { IsJob job.now }
    requires reading { reads job.now ≡ true }
    requires closed { serves job.now ≡ false }
    requires script { IsScript script }
    ensures answer { IfOk result (λ answer. (bytes : List ℕ) → script_of false bytes ≡ Ok script
        → answer_to job.now bytes ≡ Some answer) }
{
    match job {
        Job::Replay(hands) => Ok(Answer::report(script, *hands)),
        Job::Watch {
            need,
            members,
            shards,
        } => watch_script(rt, alloc, *need, members.as_slice(), *shards, script),
        Job::Load { .. } | Job::Pair { .. } | Job::Serve { .. } => unreachable!(),
    }
}

/// What a job has to write that reads nothing. Fails only when out of memory.
pub(crate) fn answer_alone<R: Threads + Wait + Sync, G: Gate + Sync>(
    rt: &R,
    alloc: Global,
    job: &Job,
    gate: &G,
) -> Result<Answer, AllocError>
    requires ranges { IsJob job.now }
    requires reading { reads job.now ≡ false }
    ensures answer { IfOk result (λ answer. answer_to job.now [] ≡ Some answer) }
{
    match job {
        Job::Load {
            sessions,
            ticks,
            seed,
            hands,
        } => load_answer(rt, alloc, *sessions, *ticks, *seed, *hands, gate),
        Job::Pair { events, seed } => pair_answer(alloc, *events, *seed),
        Job::Replay(_) | Job::Watch { .. } | Job::Serve { .. } => unreachable!(),
    }
}
