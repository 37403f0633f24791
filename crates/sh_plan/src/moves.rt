/// A move from one sharding of a tensor to another, without halos.
///
/// A dimension is even where it is split, has no offsets of its own, and its number of parts
/// divides its extent; it is uneven where it is split and not even. The moves of a state are listed
/// by variant, then by the first number, then by the second.
#[derive(Clone, Copy, Debug, PartialEq, Eq)]
pub enum Move {
    /// Drops the last axis of an even dimension.
    M1 {
        /// The dimension.
        d: u64,
    },
    /// Appends an axis that splits no dimension to a dimension that is even or unsplit, and is even
    /// afterwards.
    M2 {
        /// The dimension.
        d: u64,
        /// The grid axis.
        a: u64,
    },
    /// Moves the last axis of an even dimension to the end of another dimension that is even or
    /// unsplit, and is even afterwards.
    M3 {
        /// The dimension that loses the axis.
        d: u64,
        /// The dimension that gains it.
        e: u64,
    },
    /// Gathers an uneven dimension whole.
    M4 {
        /// The dimension.
        d: u64,
    },
    /// Splits an unsplit dimension as the target does, where the target's is uneven and its axes
    /// split no dimension.
    M5 {
        /// The dimension.
        d: u64,
    },
}
