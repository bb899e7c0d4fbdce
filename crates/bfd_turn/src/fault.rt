//! Why a turn is refused.
use crate::pass::Pass;

/// The refusal of one try. The pass comes back.
#[derive(Drop)]
pub enum TryFault<N, B> {
    /// The word read was odd, so that another held the turn, and then `found` is `read`; or the exchange met another word, `found`.
    Busy {
        pass: Pass<N, B>,
        read: u64,
        found: u64,
    },
    /// The word is 2^64 - 2: no turn is left.
    Spent {
        pass: Pass<N, B>,
        word: u64,
    },
}

/// The word is 2^64 - 2: no turn is left. The pass comes back.
#[derive(Drop)]
pub struct Spent<N, B> {
    pub pass: Pass<N, B>,
    pub word: u64,
}
