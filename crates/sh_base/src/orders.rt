use crate::Numbers;

/// The order in which the devices of a simulated grid take their turns.
#[derive(Debug, PartialEq, Eq, Drop)]
pub enum Order {
    /// One turn for each device that can move, by rising number, again and again.
    Round,
    /// The same by falling number.
    Reverse,
    /// Before each turn a draw from this seed chooses among the devices that can move.
    Seed(u64),
    /// The devices of this list, skipping those that can't move; then by rising number.
    Listed(Numbers),
}

/// The order in which propagation visits the operations of a function.
#[derive(Clone, Copy, Debug, PartialEq, Eq)]
pub enum Traversal {
    /// In text order.
    Forward,
    /// Against text order.
    Backward,
    /// In text order, and then against it.
    ForwardBackward,
    /// Against text order, and then in it.
    BackwardForward,
}
