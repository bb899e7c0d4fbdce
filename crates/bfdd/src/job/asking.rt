//! What a job is, and what it does with the source.
ghost use Rattle.std.specs.Prelude.{◌≡◌};
ghost use Rattle.bfdd.specs.Words.{reads};

use crate::words::Job;

/// Whether the job reads the source.
pub(crate) fn reads(job: &Job) -> bool
    ensures { result ≡ reads job.now }
{
    matches!(job, Job::Replay(_) | Job::Watch { .. } | Job::Serve { .. })
}
