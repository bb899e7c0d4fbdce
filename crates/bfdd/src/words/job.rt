//! What the words ask for.
ghost use Rattle.std.specs.Prelude.{◌≡◌};

use arrayvec::ArrayVec;
use std::marker::Model;

/// Which timers the shards keep.
#[derive(Clone, Copy, Debug, PartialEq, Eq)]
pub enum Form {
    /// The hashed wheel.
    Hashed,

    /// The wheel of levels.
    Levels,
}

/// On what a job runs.
#[derive(Clone, Copy, Debug, PartialEq, Eq)]
pub struct Hands {
    /// How many shards, 1 to 64.
    pub shards: u32,

    /// How many workers, 1 to 64.
    pub workers: u32,

    /// Which timers the shards keep.
    pub timers: Form,
}

/// The local discriminators that a watch names, in the order of the words: 1 to 64, distinct, and none of them 0.
#[derive(Drop)]
pub struct Members {
    items: ArrayVec<u32, 64>,
}

impl Model for Members {
    ghost use Rattle.std.specs.Prelude.{ℕ, List};

    ghost Value = { List ℕ };

    ghost view = { λ m. m.items.items };
}

impl Members {
    /// These discriminators.
    pub(crate) fn make(items: ArrayVec<u32, 64>) -> Members
        ensures { result ≡ items.items }
    {
        Members { items }
    }

    /// The discriminators.
    pub fn as_slice(&self) -> &[u32]
        ensures { result.now ≡ self.now }
    {
        self.items.as_slice()
    }
}

/// What the words ask for.
#[derive(Drop)]
pub enum Job {
    /// `replay`: a script from standard input.
    Replay(Hands),

    /// `serve`: a script from standard input, with packets and ticks from outside.
    Serve {
        /// On what it runs.
        hands: Hands,

        /// How many turns a worker makes at most, 1 to 1,000,000,000.
        turns: u32,

        /// How many ticks are accepted, 0 to 1,000,000,000.
        ticks: u32,

        /// How many entries a shard's journal holds, 1 to 200,000.
        journal: u32,
    },

    /// `load`: a script that three numbers make.
    Load {
        /// 1 to 5,000.
        sessions: u32,

        /// 1 to 6,000.
        ticks: u32,

        /// 0 to 4,294,967,295.
        seed: u32,

        /// On what it runs.
        hands: Hands,
    },

    /// `pair`: two peers by a schedule that a number decides.
    Pair {
        /// 1 to 100,000.
        events: u32,

        /// 0 to 4,294,967,295.
        seed: u32,
    },

    /// `watch`: a script from standard input, with a link group of some of its sessions.
    Watch {
        /// How many members must be Up, from 1 to their number.
        need: u32,

        /// The members of the link group.
        members: Members,

        /// How many shards the sessions are on, 1 to 64. It changes nothing that is written.
        shards: u32,
    },
}
