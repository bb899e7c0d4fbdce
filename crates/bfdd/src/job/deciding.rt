//! What any job has to write.
ghost use Rattle.std.specs.Prelude.{◌≡◌, ◌+◌, ℕ, IfOk, IfSome, IsErrOf, true, false};
ghost use Rattle.std.specs.Io.KnownBytes.{IsAtEnd};
ghost use Rattle.bfd_edge.specs.Faults.{Rose};
ghost use Rattle.bfdd.specs.Answers.{IsAnswer};
ghost use Rattle.bfdd.specs.Outside.{ConsumesAtMost};
ghost use Rattle.bfdd.specs.Serving.{edges_of};
ghost use Rattle.bfdd.specs.Reports.{Reports, ReportsBytes};
ghost use Rattle.bfdd.specs.Text.{most_bytes, wanted_of};
ghost use Rattle.bfdd.specs.Words.{reads, serves};
ghost use Rattle.bfd_serve.specs.Linking.{AreShut};
ghost use Rattle.bfdd.specs.Ranges.{IsJob};

use crate::job::answer::Answer;
use crate::job::asking::reads;
use crate::job::input::{NoScript, script_in};
use crate::job::jobs::{answer_alone, answer_on};
use crate::job::serving::{Numbers, serve_answer};
use crate::job::status::Status;
use crate::words::Job;
use bfd_edge::{Fault, Gate, Ports, Source, Ticker};
use std::alloc::Global;
use std::sync::Wait;
use std::thread::Threads;

/// What a job has to write that reads a script and doesn't serve it.
#[tactic(auto, using(crate::proofs::Reading::read_wanted, crate::proofs::Reading::read_reports, crate::proofs::Reading::read_answer, crate::proofs::Reading::none_reports,))]
fn answer_of_script<R: Wait, S: Source>(
    rt: &R,
    alloc: Global,
    job: &Job,
    source: &mut S,
) -> Result<Answer, Fault>
    requires ranges { IsJob job.now }
    requires reading { reads job.now ≡ true }
    requires closed { serves job.now ≡ false }
    ensures answer { IfOk result (λ answer. IfSome (wanted_of job.now (S.left source.old)) (λ w. answer ≡ w)) }
    ensures reports { IfOk result (ReportsBytes job.now (S.left source.old) (S.left source.new)) }
    ensures sound { IfOk result IsAnswer }
    ensures end { IfOk result (λ answer. answer.status ≡ Status.Done → IsAtEnd (S.left source.new)) }
    ensures failed { IsErrOf result Fault.Failed → Rose (S.faults source.old) (S.faults source.new) }
    ensures at_most { ConsumesAtMost (most_bytes + 1) (S.left source.old) (S.left source.new) }
    ensures calm { IfOk result (λ answer. S.faults source.new ≡ S.faults source.old) }
    ensures calm_memory { IsErrOf result Fault.Memory → S.faults source.new ≡ S.faults source.old }
{
    match script_in(alloc, false, source) {
        Ok(script) => match answer_on(rt, alloc, job, script) {
            Ok(answer) => Ok(answer),
            Err(_) => Err(Fault::Memory),
        },
        Err(NoScript::Reported(answer)) => Ok(answer),
        Err(NoScript::Failed) => Err(Fault::Failed),
        Err(NoScript::Memory) => Err(Fault::Memory),
    }
}

/// What a job other than `serve` has to write, after it has read what it reads.
#[tactic(auto, using(crate::proofs::Taking::read_nothing, crate::proofs::Reading::alone_reports, crate::proofs::Answering::is_answer))]
fn decided_answer<R: Threads + Wait + Sync, G: Gate + Sync, S: Source>(
    rt: &R,
    alloc: Global,
    job: &Job,
    source: &mut S,
    gate: &G,
) -> Result<Answer, Fault>
    requires ranges { IsJob job.now }
    requires closed { serves job.now ≡ false }
    ensures answer { IfOk result (λ answer. IfSome (wanted_of job.now (S.left source.old)) (λ w. answer ≡ w)) }
    ensures reports { IfOk result (ReportsBytes job.now (S.left source.old) (S.left source.new)) }
    ensures sound { IfOk result IsAnswer }
    ensures end { IfOk result (λ answer. answer.status ≡ Status.Done → reads job.now ≡ true
        → IsAtEnd (S.left source.new)) }
    ensures untouched { reads job.now ≡ false → source.new ≡ source.old }
    ensures failed { IsErrOf result Fault.Failed
        → (reads job.now ≡ true) × Rose (S.faults source.old) (S.faults source.new) }
    ensures at_most { ConsumesAtMost (most_bytes + 1) (S.left source.old) (S.left source.new) }
    ensures calm { IfOk result (λ answer. S.faults source.new ≡ S.faults source.old) }
    ensures calm_memory { IsErrOf result Fault.Memory → S.faults source.new ≡ S.faults source.old }
{
    if reads(job) {
        return answer_of_script(rt, alloc, job, source);
    }
    match answer_alone(rt, alloc, job, gate) {
        Ok(answer) => Ok(answer),
        Err(_) => Err(Fault::Memory),
    }
}

/// What the job has to write, and how a run of it is to end, after it has read what it reads: no more than 67,108,865 bytes. Ports and
/// ticker are `serve`'s alone, and every link that is opened is shut. The refusals: Failed where the source failed, and then no link was
/// opened and no tick asked for; Memory, at any place.
#[tactic(auto, using(crate::proofs::RunReport::closed_reports))]
pub fn answer_to_job<
    R: Threads + Wait + Sync,
    G: Gate + Sync,
    S: Source,
    P: Ports,
    T: Ticker + Send,
>(
    rt: &R,
    alloc: Global,
    job: &Job,
    source: &mut S,
    ports: &mut P,
    ticker: &mut T,
    gate: &G,
) -> Result<Answer, Fault>
where
    P::Link: Send,
    requires ranges { IsJob job.now }
    requires new { (number : ℕ) → (P.observed ports.old).opened number ≡ false }
    requires clock { (T.observed ticker.old).over ≡ false }
    ensures answer { IfOk result (λ answer. IfSome (wanted_of job.now (S.left source.old)) (λ w. answer ≡ w)) }
    ensures reports { IfOk result (Reports job.now (S.left source.old) (S.left source.new)
        (edges_of (P.observed ports.old) (T.observed ticker.old)) (edges_of (P.observed ports.new) (T.observed ticker.new))) }
    ensures sound { IfOk result IsAnswer }
    ensures end { IfOk result (λ answer. answer.status ≡ Status.Done → reads job.now ≡ true
        → IsAtEnd (S.left source.new)) }
    ensures untouched { reads job.now ≡ false → source.new ≡ source.old }
    ensures idle { serves job.now ≡ false → (ports.new ≡ ports.old) × (ticker.new ≡ ticker.old) }
    ensures failed { IsErrOf result Fault.Failed
        → (reads job.now ≡ true) × Rose (S.faults source.old) (S.faults source.new) }
    ensures unopened { IsErrOf result Fault.Failed
        → edges_of (P.observed ports.new) (T.observed ticker.new) ≡ edges_of (P.observed ports.old) (T.observed ticker.old) }
    ensures shut { AreShut (P.observed ports.new) }
    ensures at_most { ConsumesAtMost (most_bytes + 1) (S.left source.old) (S.left source.new) }
    ensures calm { IfOk result (λ answer. S.faults source.new ≡ S.faults source.old) }
    ensures calm_memory { IsErrOf result Fault.Memory → S.faults source.new ≡ S.faults source.old }
{
    match job {
        Job::Serve {
            hands,
            turns,
            ticks,
            journal,
        } => {
            let numbers = Numbers {
                hands: *hands,
                turns: *turns,
                ticks: *ticks,
                journal: *journal,
            };
            serve_answer(rt, alloc, numbers, source, ports, ticker, gate)
        }
        _ => decided_answer(rt, alloc, job, source, gate),
    }
}
