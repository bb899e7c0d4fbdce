//! How a run ended.
ghost use Rattle.std.specs.Prelude.{◌≡◌};
ghost use Rattle.bfdd.specs.Codes.{code_of};

use bfd_script::fields::LineFault;

/// How a run ended. Where several are true, the first in the order `Usage`, `ReadFault`, `TooLarge`, `BadLine`, `NoMember`,
/// `PortFault`, then the first fault of the timer and of the workers in ascending order (`LinkFault`, `JournalFull`, `Turns`,
/// `ClockFault`), then `WriteFault` comes; `Memory` may come at any place.
#[derive(Clone, Copy, PartialEq, Eq)]
pub enum Status {
    /// All was read and written.
    Done,

    /// The words aren't in the grammar. Nothing was read or written.
    Usage,

    /// The text is no script: its first faulty line, counted from 1, and that line's first fault.
    BadLine { line: u64, fault: LineFault },

    /// The source failed. Nothing was written.
    ReadFault,

    /// The sink failed.
    WriteFault,

    /// A port couldn't be opened. Nothing ran, nothing was written, and the links that were opened are shut.
    PortFault,

    /// The link of this number, a worker's, failed to receive. The served text was written, or a prefix of it where the sink failed.
    LinkFault(u32),

    /// The source gave more than 67,108,864 bytes. Nothing was written.
    TooLarge,

    /// The journal of this shard is at its limit, and there was one more call. The served text was written as with `LinkFault`.
    JournalFull(u32),

    /// The worker of this number made its number of turns before its link ended. The served text was written as with `LinkFault`.
    Turns(u32),

    /// The ticker failed. The served text was written as with `LinkFault`.
    ClockFault,

    /// Out of memory.
    Memory,

    /// The first of the discriminators to watch that no session of the script has. Nothing was written.
    NoMember(u32),
}

impl Status {
    /// The code that the program ends with.
    pub fn code(&self) -> u8
        ensures { result ≡ code_of self.now }
    {
        match self {
            Status::Done => 0,
            Status::Usage => 1,
            Status::BadLine { .. } => 2,
            Status::ReadFault => 3,
            Status::WriteFault => 4,
            Status::PortFault => 5,
            Status::LinkFault(_) => 6,
            Status::TooLarge => 7,
            Status::JournalFull(_) => 8,
            Status::Turns(_) => 9,
            Status::ClockFault => 10,
            Status::Memory => 11,
            Status::NoMember(_) => 12,
        }
    }
}
