//! A script of any size from three numbers.
//!
//! [`generate`] makes a script of so many sessions and ticks, and a seed of the jitter: each session hears a packet once in
//! 300 ticks and comes Up, and every tenth falls silent after three packets. `specs/Load.antt` is the script, as a list over
//! numbers.
//!
//! It stands on `bfd_num`, `bfd_packet`, `bfd_rules`, `bfd_session` and `bfd_script`. It promises that `generate` answers that
//! script, and that the script is one that `read` of `bfd_script` might have given, as `replay` asks: the sessions ascend and
//! are within their ranges, no two have the same addresses, and there are at most 200,000 events.
#![tactic(auto)]

mod generating;

pub use generating::generate;
