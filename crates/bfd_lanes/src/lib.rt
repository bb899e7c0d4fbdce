//! Scans of plain lists of due ticks, eight numbers at a time: which places have come, and which due tick is least.
//!
//! It stands on bfd_num. It promises the ascending places and the minimum that a plain loop gives, at every length.
//! No scan allocates memory: `Ids` allocates its room when it is made.
#![tactic(auto)]

mod block;
mod list;
mod lowest;
mod scan;

pub use list::Ids;
pub use lowest::{due_of, least_due};
pub use scan::due_ids;

/// The number that stands for no due tick.
pub const NEVER: u64 = u64::MAX;
