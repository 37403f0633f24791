//! How loops may be split, and what follows them.
use sh_base::{Items, Numbers, Shape};

/// How a loop is split among the devices of a grid.
#[derive(Debug, Drop)]
pub struct Split {
    /// The grid axes along which it is split, the outermost first.
    pub axes: Shape,
    /// The start of each part, then the loop's extent.
    pub starts: Numbers,
}

/// For each loop of an operation its split, or none where it isn't split.
pub type LoopOption = Items<Option<Split>>;

/// How a dimension of an operand or of the result is divided where the loop that it follows is.
#[derive(Clone, Copy, Debug, PartialEq, Eq)]
pub enum How {
    /// As the loop is.
    Same,
    /// Each part is so many times as long.
    Scale(u64),
    /// It is read through a window, along which a kernel of this extent moves.
    Window(u64),
}

/// What a dimension follows.
#[derive(Clone, Copy, Debug, PartialEq, Eq)]
pub struct Follow {
    /// The number of the loop.
    pub loop_index: u64,
    pub how: How,
}
