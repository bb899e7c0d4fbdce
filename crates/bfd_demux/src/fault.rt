//! Why rows make no table, and why one isn't added.

ghost use Rattle.std.specs.Prelude.{Some};
ghost use Rattle.bfd_demux.specs.FaultText.{fault_text};

use std::fmt;
use thiserror::Error;

/// Why rows make no table. Rows are named by their places, from 0. A pair is named with the earlier row first.
#[derive(Clone, Copy, Debug, PartialEq, Eq, Error)]
pub enum BuildFault {
    /// Two rows have one discriminator.
    SameDiscr(usize, usize),
    /// Two rows are of one kind with the same addresses.
    SameAddresses(usize, usize),
    /// This row has the discriminator 0.
    ZeroDiscr(usize),
    /// So many rows are more than 65,536.
    TooMany(usize),
    /// Out of memory.
    Memory,
}

// The derive writes `Error`. It would also write this from messages, but then no contract would say what the text is.
impl fmt::Display for BuildFault {
    ghost output = { λ fault. Some (fault_text fault) };

    fn fmt<W: fmt::Write>(&self, f: &mut fmt::Formatter<W>) -> fmt::Result {
        match self {
            BuildFault::SameDiscr(earlier, place) => {
                write!(f, "rows {earlier} and {place} have one discriminator")
            }
            BuildFault::SameAddresses(earlier, place) => {
                write!(
                    f,
                    "rows {earlier} and {place} are of one kind with the same addresses"
                )
            }
            BuildFault::ZeroDiscr(place) => write!(f, "row {place} has the discriminator 0"),
            BuildFault::TooMany(count) => write!(f, "{count} rows are more than 65,536"),
            BuildFault::Memory => write!(f, "no memory is left"),
        }
    }
}

/// Why a row isn't added to a table.
#[derive(Clone, Copy, Debug, PartialEq, Eq)]
pub enum AddFault {
    /// The table has 65,536 rows.
    TooMany,
    /// The row has the discriminator 0.
    ZeroDiscr,
    /// A row of the table has its discriminator.
    SameDiscr,
    /// A row of the table is of its kind with the same addresses.
    SameAddresses,
    /// Out of memory.
    Memory,
}
