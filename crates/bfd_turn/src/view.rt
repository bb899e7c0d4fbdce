//! What a pass knows. These types are for clauses and proofs: no value of them is made.
use std::collections::LinkedList;

/// What a seat at the lock's table does.
pub enum Role {
    Idle,
    Holding,
    Joined,
}

/// What a seat at the lock's table knows.
pub struct View<N, B> {
    pub role: Role,
    pub number: u32,
    pub base: Option<B>,
    pub seen: LinkedList<N>,
    /// The shorter list of the last join, which a load then shows to be a beginning of `seen`.
    pub reported: LinkedList<N>,
    /// What it had seen at its own last turn, or before its last join: no call of its own has come since.
    pub own: LinkedList<N>,
    pub word: u64,
    /// The words of its loads, in their order.
    pub looks: LinkedList<u64>,
    pub taken: u64,
    pub made: LinkedList<u32>,
    pub joined: LinkedList<(u32, LinkedList<N>)>,
}

/// What clauses see of a pass, in addition to the lock that it is of. No value of it is made, so its numbers have no bound.
pub struct Known<N, B> {
    /// The caller's number: 0 for the one that the lock began with.
    pub number: u32,
    /// The lock's base. Only a pass that was joined has none.
    pub base: Option<B>,
    /// A beginning of the lock's one history of notes, as far as this pass has seen it.
    pub seen: LinkedList<N>,
    /// The last word that the pass's own steps have met. The lock's word has reached it.
    pub word: u64,
    /// The words of the loads that the pass made, in their order.
    pub looks: LinkedList<u64>,
    /// How many turns this pass, and those joined into it, have given back.
    pub taken: u64,
    /// Of caller 0: the numbers of the passes that were made, in their order.
    pub made: LinkedList<u32>,
    /// Of caller 0: the number of each pass that was joined, and its calls.
    pub joined: LinkedList<(u32, LinkedList<N>)>,
}
