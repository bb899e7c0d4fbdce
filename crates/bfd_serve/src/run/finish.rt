//! How a run ends.
ghost use Rattle.std.specs.Prelude.{◌≡◌, ◌≤◌, ℕ, Some, length, slice_get, IfOk, OnErr};
ghost use Rattle.std.specs.List.{All};
ghost use Rattle.bfd_serve.specs.declared.ending.End.TheVariants.{Memory as OutOfMemory};
ghost use Rattle.bfd_serve.specs.Finishes.{finish_from, HadMemory, IsUnspent};

use crate::End;
use bfd_edge::Fault;
use std::alloc::AllocError;

/// How a run ended: by the first fault of the timer and then of the workers in ascending order, if there is one.
#[derive(Clone, Copy, Debug, PartialEq, Eq)]
pub enum Finish {
    /// Every link of a worker ended, and the ticker did or gave its limit of ticks.
    Done,

    /// The link of this number failed to receive.
    LinkFault(u32),

    /// The ticker failed.
    ClockFault,

    /// The journal of this shard is at its limit, and there was one more call.
    JournalFull(u32),

    /// The worker of this number made its number of turns before its link ended.
    Turns(u32),
}

/// Why there was no run, or nothing to report of it.
#[derive(Clone, Copy, Debug, PartialEq, Eq)]
pub enum Refused {
    /// A port couldn't be opened. Nothing ran.
    PortFault,

    /// Out of memory.
    Memory,
}

/// The fault of a port.
pub(crate) fn refused_as(fault: Fault) -> Refused
    ensures { result ≡ Rattle.bfd_serve.specs.Finishes.refused_as fault }
{
    match fault {
        Fault::Failed => Refused::PortFault,
        Fault::Memory => Refused::Memory,
    }
}

/// The finish that these ends give, of the timer first and then of each worker. Fails only where one of them is out of memory, which
/// gives none.
pub(crate) fn finish_of(ends: &[End]) -> Result<Finish, AllocError>
    requires unspent { All IsUnspent ends.now }
    requires few { length ends.now ≤ 65 }
    ensures value { IfOk result (λ finish. finish ≡ finish_from 0 ends.now) }
    ensures plain { IfOk result (λ finish. All HadMemory ends.now) }
    ensures wanting { OnErr result ((number : ℕ) × (slice_get ends.now number ≡ Some OutOfMemory)) }
{
    let mut finish = Finish::Done;
    let mut left = ends.len();
    while 0 < left {
        left -= 1;
        match ends[left] {
            End::Ended => {}
            End::LinkFault => finish = Finish::LinkFault(left as u32),
            End::ClockFault => finish = Finish::ClockFault,
            End::Full(shard, _) => finish = Finish::JournalFull(shard),
            End::Turns(_) => finish = Finish::Turns(left as u32),
            End::Spent(_, _) => unreachable!(),
            End::Memory => return Err(AllocError),
        }
    }
    Ok(finish)
}
