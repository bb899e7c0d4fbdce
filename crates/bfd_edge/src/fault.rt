//! Why a call to the outside was refused.

/// Why a call to the outside was refused.
#[derive(Clone, Copy, Debug, PartialEq, Eq)]
pub enum Fault {
    /// The outside failed: its count of faults rose in this call.
    Failed,

    /// Out of memory for the call.
    Memory,
}
