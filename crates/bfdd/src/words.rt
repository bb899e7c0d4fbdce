//! The grammar of the command line.
//!
//! [`job_of`] turns the words after the program's name into a [`Job`]: first the word that says what to do, then numbers, then
//! options, each a name and its value, in any order and each at most once. `specs/Grammar.antt` is the grammar, as one function
//! on the words' bytes. This module knows nothing of what a job does.
//!
//! It promises that `job_of` answers the job that the grammar gives, if and only if it gives one, that every number of a job is within its
//! range (`IsJob`), and that no memory is allocated.

mod grammar;
mod job;
mod number;
mod options;

pub use grammar::job_of;
pub use job::{Form, Hands, Job, Members};
