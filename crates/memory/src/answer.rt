use board::answer::{AccessAnswer, Arrival};

/// What a running kit answers to a call.
#[derive(Clone, Copy, PartialEq, Eq, Debug)]
pub enum Answer {
    /// To a load or a store.
    Accessed(AccessAnswer),
    /// To a delivery: a message arrived.
    Arrived(Arrival),
    /// To a delivery: no message waited.
    Quiet,
}
