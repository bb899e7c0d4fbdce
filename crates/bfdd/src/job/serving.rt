//! `serve`: a script with packets and ticks from outside.
ghost use Rattle.std.specs.Prelude.{◌≡◌, ◌+◌, ℕ, false, IfErr, IfOk, IfSome, IsErrOf};
ghost use Rattle.std.specs.Io.KnownBytes.{IsAtEnd};
ghost use Rattle.bfd_edge.specs.Faults.{Rose};
ghost use Rattle.bfd_script.specs.Sound.{IsScript};
ghost use Rattle.bfd_serve.specs.Linking.{AreShut};
ghost use Rattle.bfdd.specs.Ranges.{IsJob};
ghost use Rattle.bfdd.specs.Answers.{IsAnswer};
ghost use Rattle.bfdd.specs.Outside.{ConsumesAtMost};
ghost use Rattle.bfdd.specs.Serving.{Comes, edges_of, job_by, status_of};
ghost use Rattle.bfdd.specs.Reports.{Reports};
ghost use Rattle.bfdd.specs.Text.{most_bytes, wanted_of};

use crate::job::answer::Answer;
use crate::job::input::{NoScript, script_in};
use crate::job::status::Status;
use crate::words::{Form, Hands};
use bfd_edge::{Fault, Gate, Ports, Source, Ticker};
use bfd_levels::Levels;
use bfd_script::Script;
use bfd_serve::Limits;
use bfd_serve::run::{Finish, Outcome, Refused, serve_script};
use bfd_wheel::{HashedWheel, Timers};
use std::alloc::{AllocError, Global};
use std::sync::Wait;
use std::thread::Threads;

/// The numbers of `serve`.
#[derive(Clone, Copy)]
pub(crate) struct Numbers {
    pub(crate) hands: Hands,
    pub(crate) turns: u32,
    pub(crate) ticks: u32,
    pub(crate) journal: u32,
}

/// How a run that ended so ends the program.
fn status_of(finish: Finish) -> Status
    ensures { result ≡ status_of finish }
{
    match finish {
        Finish::Done => Status::Done,
        Finish::LinkFault(number) => Status::LinkFault(number),
        Finish::ClockFault => Status::ClockFault,
        Finish::JournalFull(shard) => Status::JournalFull(shard),
        Finish::Turns(number) => Status::Turns(number),
    }
}

/// Serves a script with timers of this form.
#[tactic(auto, using(crate::proofs::ServedText::goes_with))]
fn serve_with<
    W: Timers + Send,
    R: Threads + Wait + Sync,
    G: Gate + Sync,
    P: Ports,
    T: Ticker + Send,
>(
    rt: &R,
    alloc: Global,
    script: Script,
    numbers: Numbers,
    ports: &mut P,
    ticker: &mut T,
    gate: &G,
) -> Result<Answer, AllocError>
where
    P::Link: Send,
    requires script { IsScript script }
    requires ranges { IsJob (job_by numbers) }
    requires new { (number : ℕ) → (P.observed ports.old).opened number ≡ false }
    requires clock { (T.observed ticker.old).over ≡ false }
    ensures comes { IfOk result (Comes (job_by numbers) script (edges_of (P.observed ports.old) (T.observed ticker.old))
        (edges_of (P.observed ports.new) (T.observed ticker.new))) }
    ensures sound { IfOk result IsAnswer }
    ensures shut { AreShut (P.observed ports.new) }
    ensures calm { IfErr result (λ _. (P.observed ports.new).faults ≡ (P.observed ports.old).faults) }
{
    let Numbers {
        hands,
        turns,
        ticks,
        journal,
    } = numbers;
    let limits = Limits {
        turns: u64::from(turns),
        ticks: u64::from(ticks),
    };
    let run: Result<Outcome<W>, Refused> = serve_script(
        rt,
        alloc,
        script,
        hands.shards,
        hands.workers,
        journal,
        limits,
        ports,
        ticker,
        gate,
    );
    match run {
        Ok(run) => {
            let status = status_of(run.finish);
            Ok(Answer::whole(status, run.text))
        }
        Err(Refused::PortFault) => Ok(Answer::bare(alloc, Status::PortFault)),
        Err(Refused::Memory) => Err(AllocError),
    }
}

/// Serves a script by these numbers, and answers what is to be reported of it. Fails only when out of memory. Every link that was opened is
/// shut.
pub(crate) fn serve_by<R: Threads + Wait + Sync, G: Gate + Sync, P: Ports, T: Ticker + Send>(
    rt: &R,
    alloc: Global,
    script: Script,
    numbers: Numbers,
    ports: &mut P,
    ticker: &mut T,
    gate: &G,
) -> Result<Answer, AllocError>
where
    P::Link: Send,
    requires script { IsScript script }
    requires ranges { IsJob (job_by numbers) }
    requires new { (number : ℕ) → (P.observed ports.old).opened number ≡ false }
    requires clock { (T.observed ticker.old).over ≡ false }
    ensures comes { IfOk result (Comes (job_by numbers) script (edges_of (P.observed ports.old) (T.observed ticker.old))
        (edges_of (P.observed ports.new) (T.observed ticker.new))) }
    ensures sound { IfOk result IsAnswer }
    ensures shut { AreShut (P.observed ports.new) }
    ensures calm { IfErr result (λ _. (P.observed ports.new).faults ≡ (P.observed ports.old).faults) }
{
    match numbers.hands.timers {
        Form::Hashed => serve_with::<HashedWheel, R, G, P, T>(
            rt, alloc, script, numbers, ports, ticker, gate,
        ),
        Form::Levels => serve_with::<Levels, R, G, P, T>(
            rt, alloc, script, numbers, ports, ticker, gate,
        ),
    }
}

/// What `serve` has to report, by these numbers and by the script that the source has. Every link that was opened is shut.
pub(crate) fn serve_answer<
    R: Threads + Wait + Sync,
    G: Gate + Sync,
    S: Source,
    P: Ports,
    T: Ticker + Send,
>(
    rt: &R,
    alloc: Global,
    numbers: Numbers,
    source: &mut S,
    ports: &mut P,
    ticker: &mut T,
    gate: &G,
) -> Result<Answer, Fault>
where
    P::Link: Send,
    requires ranges { IsJob (job_by numbers) }
    requires new { (number : ℕ) → (P.observed ports.old).opened number ≡ false }
    requires clock { (T.observed ticker.old).over ≡ false }
    ensures answer { IfOk result (λ answer. IfSome (wanted_of (job_by numbers) (S.left source.old)) (λ w. answer ≡ w)) }
    ensures reports { IfOk result (Reports (job_by numbers) (S.left source.old) (S.left source.new)
        (edges_of (P.observed ports.old) (T.observed ticker.old)) (edges_of (P.observed ports.new) (T.observed ticker.new))) }
    ensures sound { IfOk result IsAnswer }
    ensures end { IfOk result (λ answer. answer.status ≡ Status.Done → IsAtEnd (S.left source.new)) }
    ensures failed { IsErrOf result Fault.Failed → Rose (S.faults source.old) (S.faults source.new) }
    ensures unopened { IsErrOf result Fault.Failed
        → edges_of (P.observed ports.new) (T.observed ticker.new) ≡ edges_of (P.observed ports.old) (T.observed ticker.old) }
    ensures shut { AreShut (P.observed ports.new) }
    ensures at_most { ConsumesAtMost (most_bytes + 1) (S.left source.old) (S.left source.new) }
    ensures calm { IfOk result (λ answer. S.faults source.new ≡ S.faults source.old) }
    ensures calm_memory { IsErrOf result Fault.Memory → S.faults source.new ≡ S.faults source.old }
{
    match script_in(alloc, true, source) {
        Ok(script) => match serve_by(rt, alloc, script, numbers, ports, ticker, gate) {
            Ok(answer) => Ok(answer),
            Err(_) => Err(Fault::Memory),
        },
        Err(NoScript::Reported(answer)) => Ok(answer),
        Err(NoScript::Failed) => Err(Fault::Failed),
        Err(NoScript::Memory) => Err(Fault::Memory),
    }
}
