/// The name of a value, by its place among those of its function or region.
#[derive(Clone, Copy, Debug, PartialEq, Eq)]
pub enum Name {
    /// `%arg0`: an argument of the function.
    Argument(usize),
    /// `%0`: the value of an operation.
    Value(usize),
    /// `%b0`: an argument of the region's block.
    BlockArgument(usize),
    /// `%r0`: the value of an operation of the region.
    BodyValue(usize),
    /// `%_`: nothing defines it.
    Undefined,
}
