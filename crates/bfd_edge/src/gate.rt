//! A meeting point for tests.

/// Stands round each turn of a worker, so that a test can make workers meet. It says nothing of packets.
pub trait Gate {
    /// Is called before the turn of this number of that worker.
    fn before(&self, worker: u32, turn: u64);

    /// Is called after it.
    fn after(&self, worker: u32, turn: u64);
}

/// A gate that does nothing.
#[derive(Clone, Copy, Debug, Drop)]
pub struct OpenGate;

impl Gate for OpenGate {
    fn before(&self, _worker: u32, _turn: u64) {}

    fn after(&self, _worker: u32, _turn: u64) {}
}
