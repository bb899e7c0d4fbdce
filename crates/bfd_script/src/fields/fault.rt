//! What can be wrong with a packet file.
ghost use Rattle.std.specs.Prelude.{◌≡◌, Some};
ghost use Rattle.bfd_script.specs.declared.fields.fault.ReadFault.TheVariants.{Memory};
ghost use Rattle.bfd_script.specs.Complaints.{fault_name, complaint};
ghost use Rattle.bfd_script.specs.Gives.{fault_at};

use std::alloc::{AllocError, AllocFailed};
use std::fmt;

/// What is wrong with a line. The tests of a line go in a fixed order, and the first that fails is the answer.
#[derive(Clone, Copy, Debug, PartialEq, Eq)]
pub enum LineFault {
    /// A byte is outside `20` to `7e` (hexadecimal).
    NotAscii = 1,

    /// The line has more than 4,096 bytes before its LF.
    TooLong = 2,

    /// A field is no word that may stand there.
    UnknownWord = 3,

    /// The number of fields is wrong.
    FieldCount = 4,

    /// A field isn't decimal digits without leading zero.
    BadNumber = 5,

    /// A number, or a key's length, is outside its range.
    OutOfRange = 6,

    /// A field isn't an even number of hexadecimal digits, nor `-`.
    BadHex = 7,

    /// A field is no address.
    BadAddress = 8,

    /// A second table row of a discriminator, or a second `auth` line of a session.
    SameDiscr = 9,

    /// A second table row of the same selecting addresses.
    SameAddresses = 10,

    /// The line names no session, or an `auth` line no point-to-point one. A reflector is none.
    NoSuchSession = 11,

    /// The word may not stand here.
    Order = 12,

    /// The text ends and no `end` line stood.
    MissingEnd = 13,

    /// A table row beyond 65,536, an event line beyond 200,000, or a key beyond four.
    TooMany = 14,

    /// The session has a key of that number already.
    SameKey = 16,
}

impl LineFault {
    /// Its name, as a complaint has it.
    fn name(self) -> &'static str
        ensures { result.now ≡ fault_name self }
    {
        match self {
            LineFault::NotAscii => "NotAscii",
            LineFault::TooLong => "TooLong",
            LineFault::UnknownWord => "UnknownWord",
            LineFault::FieldCount => "FieldCount",
            LineFault::BadNumber => "BadNumber",
            LineFault::OutOfRange => "OutOfRange",
            LineFault::BadHex => "BadHex",
            LineFault::BadAddress => "BadAddress",
            LineFault::SameDiscr => "SameDiscr",
            LineFault::SameAddresses => "SameAddresses",
            LineFault::NoSuchSession => "NoSuchSession",
            LineFault::Order => "Order",
            LineFault::MissingEnd => "MissingEnd",
            LineFault::TooMany => "TooMany",
            LineFault::SameKey => "SameKey",
        }
    }
}

impl fmt::Display for LineFault {
    ghost output = { λ fault. Some (fault_name fault) };

    fn fmt<W: fmt::Write>(&self, f: &mut fmt::Formatter<W>) -> fmt::Result {
        f.write_str(self.name())
    }
}

/// The first faulty line of a text, counted from 1, and its first fault.
#[derive(Clone, Copy, Debug, PartialEq, Eq)]
pub struct BadLine {
    pub line: u64,
    pub fault: LineFault,
}

impl fmt::Display for BadLine {
    ghost output = { λ bad. Some (complaint bad) };

    fn fmt<W: fmt::Write>(&self, f: &mut fmt::Formatter<W>) -> fmt::Result {
        let line = self.line;
        let fault = self.fault;
        write!(f, "bad {line} {fault}")
    }
}

/// Why a text gave no script.
#[derive(Clone, Copy, Debug, PartialEq, Eq)]
pub enum ScriptFault {
    /// The text isn't in the grammar.
    Bad(BadLine),

    /// Out of memory.
    Memory,
}

/// Why a line was not accepted.
#[derive(Clone, Copy)]
pub enum ReadFault {
    Fault(LineFault),
    Memory,
}

impl ReadFault {
    /// Why a text gives no script, in which the line of this number was not accepted.
    pub(crate) fn at(self, line: u64) -> ScriptFault
        ensures { result ≡ fault_at line self }
    {
        match self {
            ReadFault::Fault(fault) => ScriptFault::Bad(BadLine { line, fault }),
            ReadFault::Memory => ScriptFault::Memory,
        }
    }
}

impl From<LineFault> for ReadFault {
    ghost use Rattle.std.specs.Prelude.{◌≡◌};
    ghost use Rattle.bfd_script.specs.declared.fields.fault.ReadFault.TheVariants.{Fault};

    ghost from_gives = { λ fault e. e ≡ Fault fault };

    fn from(fault: LineFault) -> ReadFault {
        ReadFault::Fault(fault)
    }
}

impl From<AllocError> for ReadFault {
    ghost from_gives = { λ _ e. e ≡ Memory };

    fn from(_error: AllocError) -> ReadFault {
        ReadFault::Memory
    }
}

impl<T: Drop> From<AllocFailed<T>> for ReadFault {
    ghost from_gives = { λ _ e. e ≡ Memory };

    fn from(_error: AllocFailed<T>) -> ReadFault {
        ReadFault::Memory
    }
}
