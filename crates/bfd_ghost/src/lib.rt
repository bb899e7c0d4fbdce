//! A list that only clauses read: a struct keeps it alongside what it really holds, and it changes as the elements come and go.
//!
//! It stands on std alone. A [`GhostList`] has no bytes and owns nothing, and its calls do nothing at run time and allocate no memory.
#![tactic(auto)]

mod list;

pub use list::GhostList;
