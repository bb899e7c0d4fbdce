//! The top call.
ghost use Rattle.std.specs.Prelude.{◌≡◌, ◌≢◌, ◌+◌, ◌⊎◌, ℕ, IfSome, None, Some, true, false, map, string_bytes};
ghost use Rattle.std.specs.Io.KnownBytes.{Appends, IsAtEnd};
ghost use Rattle.bfd_replay.specs.Written.{TookFront};
ghost use Rattle.bfd_edge.specs.Faults.{Rose};
ghost use Rattle.bfdd.specs.Outside.{ConsumesAtMost};
ghost use Rattle.bfdd.specs.Serving.{IsServedToFinish, edges_of};
ghost use Rattle.bfdd.specs.Text.{most_bytes, complaint_line, wanted};
ghost use Rattle.bfdd.specs.Words.{OfServing, is_reading, is_serving};
ghost use Rattle.bfd_serve.specs.Linking.{AreShut};
ghost use Rattle.bfdd.specs.Grammar.{job_of};
ghost use Rattle.bfdd.specs.Status.{IsDecided, IsEndOf, OnBadLine, UnlessWriting, WhereUnopened, WhereUnwritten};
ghost use Rattle.bfdd.specs.RunReport.{IsBrokenOff, IsReported};

use crate::job::{Status, answer_to_job};
use crate::output::write_answer;
use crate::words::job_of;
use bfd_edge::{Fault, Gate, Ports, Sink, Source, Ticker};
use std::alloc::Global;
use std::sync::Wait;
use std::thread::Threads;

/// Runs the program: `words` are those after its name, what it reads comes from `source`, and what it writes goes to
/// `sink`. Each turn of a replay's or of `serve`'s worker stands between two calls of `gate`.
///
/// `replay` reads a packet file to its end and writes the report of its events. `watch` reads one too, and writes what happens to
/// a link group. `serve` reads one without packets and ticks, receives packets from links that it opens from `ports` and ticks from
/// `ticker`, and writes what came in and the result of it; it alone opens links, and shuts them in every case. `load` and `pair` read
/// nothing: they write a line on a script, and on two peers, that numbers make. Everything else is `Usage`.
pub fn run<
    R: Threads + Wait + Sync,
    G: Gate + Sync,
    S: Source,
    K: Sink,
    P: Ports,
    T: Ticker + Send,
>(
    rt: &R,
    alloc: Global,
    words: &[String],
    source: &mut S,
    sink: &mut K,
    ports: &mut P,
    ticker: &mut T,
    gate: &G,
) -> Status
where
    P::Link: Send,
    requires new { (number : ℕ) → (P.observed ports.old).opened number ≡ false }
    requires clock { (T.observed ticker.old).over ≡ false }

    // The words and the text decide: the status is the required one, or memory, the source or the sink failed.
    ensures decided { IfSome (wanted (job_of (map (λ word. string_bytes word) words.now)) (S.left source.old))
        (λ w. IsDecided result w.status) }

    // With Done the required text was written and nothing else; and however the run ends, what was written is a prefix of it.
    ensures done { result ≡ Status.Done
        → IfSome (wanted (job_of (map (λ word. string_bytes word) words.now)) (S.left source.old))
        (λ w. Appends (K.taken sink.old) (K.taken sink.new) w.text) }
    ensures front { IfSome (wanted (job_of (map (λ word. string_bytes word) words.now)) (S.left source.old))
        (λ w. TookFront (K.taken sink.old) (K.taken sink.new) w.text) }

    // What is read is read to its end, and only by a job that reads.
    ensures end { result ≡ Status.Done → is_reading (job_of (map (λ word. string_bytes word) words.now)) ≡ true
        → IsAtEnd (S.left source.new) }
    ensures untouched { is_reading (job_of (map (λ word. string_bytes word) words.now)) ≡ false
        → source.new ≡ source.old }
    ensures at_most { ConsumesAtMost (most_bytes + 1) (S.left source.old) (S.left source.new) }

    // Words that ask for nothing are Usage, and no others.
    ensures usage { job_of (map (λ word. string_bytes word) words.now) ≡ None → result ≡ Status.Usage }
    ensures usage_alone { result ≡ Status.Usage → job_of (map (λ word. string_bytes word) words.now) ≡ None }

    // A faulty line is reported, or a prefix of that where the sink failed.
    ensures bad_text { OnBadLine result (λ bad. Appends (K.taken sink.old) (K.taken sink.new) (complaint_line bad)
        ⊎ (Rose (K.faults sink.old) (K.faults sink.new)
        × TookFront (K.taken sink.old) (K.taken sink.new) (complaint_line bad))) }
    ensures unwritten { WhereUnwritten result (K.taken sink.new ≡ K.taken sink.old) }

    ensures read_fault { result ≡ Status.ReadFault
        → (is_reading (job_of (map (λ word. string_bytes word) words.now)) ≡ true)
        × Rose (S.faults source.old) (S.faults source.new) }
    ensures write_fault { result ≡ Status.WriteFault → Rose (K.faults sink.old) (K.faults sink.new) }

    // No fault is passed over: where the count of the source rose, the status is ReadFault.
    ensures calm_source { result ≢ Status.ReadFault → S.faults source.new ≡ S.faults source.old }

    // And where that of the sink rose, it is WriteFault, or what it would have been without: BadLine, where the faulty line was
    // being reported, or a faulty end of `serve`, whose text was being written.
    ensures calm_sink { UnlessWriting result (K.faults sink.new ≡ K.faults sink.old) }

    // With an outside that doesn't fail, what is required comes, or memory ran out.
    ensures complete { (is_reading (job_of (map (λ word. string_bytes word) words.now)) ≡ true
        → ¬ Rose (S.faults source.old) (S.faults source.new)) → ¬ Rose (K.faults sink.old) (K.faults sink.new)
        → IfSome (wanted (job_of (map (λ word. string_bytes word) words.now)) (S.left source.old))
        (λ w. (result ≡ w.status) ⊎ (result ≡ Status.Memory)) }

    // Whether or not the source reports what it had: each status is one of the job's, and with every status but those of running out of
    // memory and of a source that failed there is an answer of which the status and what was written are. It is what is required of some
    // bytes that were read to the end of the source. A script that is served has one run: its engine and its histories, one per shard, give
    // the text, and each caller's entries, its sends and its end are those of what its link or the ticker gave. The status is the finish,
    // and shows its cause.
    ensures fits { IsEndOf (job_of (map (λ word. string_bytes word) words.now)) result }
    ensures reported { result ≢ Status.Memory → result ≢ Status.ReadFault
        → IfSome (job_of (map (λ word. string_bytes word) words.now))
        (λ job. IsReported job (S.left source.old) (S.left source.new)
        (edges_of (P.observed ports.old) (T.observed ticker.old)) (edges_of (P.observed ports.new) (T.observed ticker.new))
        (K.taken sink.old) (K.taken sink.new) (K.faults sink.old) (K.faults sink.new) result) }

    // When memory ran out, nothing of it was written, or a prefix.
    ensures broken_off { result ≡ Status.Memory → IsBrokenOff (job_of (map (λ word. string_bytes word) words.now))
        (S.left source.old) (S.left source.new)
        (edges_of (P.observed ports.old) (T.observed ticker.old)) (edges_of (P.observed ports.new) (T.observed ticker.new))
        (K.taken sink.old) (K.taken sink.new) }

    // Where no script is served no link is opened and no tick is asked for, and every link that is opened is shut.
    ensures idle { is_serving (job_of (map (λ word. string_bytes word) words.now)) ≡ false
        → (ports.new ≡ ports.old) × (ticker.new ≡ ticker.old) }
    ensures unopened { WhereUnopened result
        (edges_of (P.observed ports.new) (T.observed ticker.new) ≡ edges_of (P.observed ports.old) (T.observed ticker.old)) }
    ensures shut { AreShut (P.observed ports.new) }

    // With source, sink and ports that don't fail, a script is served to its finish, which is the status, or memory ran out.
    ensures finished { OfServing (job_of (map (λ word. string_bytes word) words.now))
        (λ job. ¬ Rose (S.faults source.old) (S.faults source.new) → ¬ Rose (K.faults sink.old) (K.faults sink.new)
        → ¬ Rose (P.observed ports.old).faults (P.observed ports.new).faults
        → IfSome (S.left source.old) (IsServedToFinish job
        (edges_of (P.observed ports.old) (T.observed ticker.old)) (edges_of (P.observed ports.new) (T.observed ticker.new)) result)) }
{
    let Some(job) = job_of(words) else {
        return Status::Usage;
    };
    match answer_to_job(rt, alloc, &job, source, ports, ticker, gate) {
        Ok(answer) => write_answer(rt, alloc, answer, gate, sink),
        Err(Fault::Failed) => Status::ReadFault,
        Err(Fault::Memory) => Status::Memory,
    }
}
