//! Why a call of an engine is refused.
ghost use Rattle.std.specs.Prelude.{Some};
ghost use Rattle.bfd_engine.specs.FaultText.{fault_text, open_fault_text};

use bfd_demux::BuildFault;
use std::fmt;
use thiserror::Error;

/// Why a turn added no entry. The shard is as before.
#[derive(Clone, Copy, Debug, PartialEq, Eq, Error)]
pub enum EngineFault {
    /// Out of memory for the entry.
    Memory,
    /// The journal of this shard has this many entries, which is its limit.
    Full(u32, usize),
    /// The word of this shard's lock is 2^64 - 2: no turn is left.
    Spent(u32, u64),
}

/// Why no engine is opened.
#[derive(Clone, Copy, Debug, PartialEq, Eq, Error)]
pub enum OpenFault {
    /// The rows of the sessions, and then of the reflectors, make no table.
    Build(BuildFault),
    /// Out of memory.
    Memory,
}

// The derive writes `Error`. It would also write this from messages, but then no contract would say what the text is.
impl fmt::Display for EngineFault {
    ghost output = { λ fault. Some (fault_text fault) };

    fn fmt<W: fmt::Write>(&self, f: &mut fmt::Formatter<W>) -> fmt::Result {
        match self {
            EngineFault::Memory => write!(f, "no memory is left"),
            EngineFault::Full(shard, length) => {
                write!(
                    f,
                    "the journal of shard {shard} has {length} entries, its limit"
                )
            }
            EngineFault::Spent(shard, _) => write!(f, "no turn of shard {shard} is left"),
        }
    }
}

impl fmt::Display for OpenFault {
    ghost output = { λ fault. Some (open_fault_text fault) };

    fn fmt<W: fmt::Write>(&self, f: &mut fmt::Formatter<W>) -> fmt::Result {
        match self {
            OpenFault::Build(fault) => write!(f, "{fault}"),
            OpenFault::Memory => write!(f, "no memory is left"),
        }
    }
}
