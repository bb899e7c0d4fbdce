//! What each job has to write.
//!
//! [`answer_to_job`] reads the source whole where the job reads it, does what the job asks for, and answers what is to be reported of that:
//! a status, and a text, or the script or the report's parts that the text is still to be built from. `serve` alone opens links from the
//! ports and asks the ticker. It writes nothing: a sink is its caller's.
//!
//! Layers, lowest first: `status`, `answer`, `asking` (whether a job reads), `input` (a whole text from a source), `unread` (a sink that
//! keeps nothing), `replaying`, `jobs` and `serving` (what each word has to write), `deciding` ([`answer_to_job`] itself).
//!
//! It promises that the answer is what the job and the source's bytes ask for, where the source reports them, and of `serve` a run of the
//! script for every interleaving; that a source is read to its end, but never more than one byte past 67,108,864; that every link that was
//! opened is shut; and that the text goes with its status. The refusals are a source that failed, with its cause, and running out of
//! memory.

mod answer;
mod asking;
mod deciding;
mod input;
mod jobs;
mod replaying;
mod serving;
mod status;
mod unread;

pub use answer::{Answer, Text};
pub use deciding::answer_to_job;
pub(crate) use replaying::write_replay;
pub use status::Status;
