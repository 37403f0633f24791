/// The width of a signless integer type.
#[derive(Clone, Copy, Debug, PartialEq, Eq)]
pub enum Width {
    I1,
    I8,
    I16,
    I32,
    I64,
}

/// A cell of a tensor: a number below two to the width, or undefined.
///
/// An undefined cell models what the dialects call poison or undefined behaviour: it spreads through
/// element operations, and a program that returns one has no defined result.
#[derive(Clone, Copy, Debug, PartialEq, Eq)]
pub enum Cell {
    Undef,
    Val(u64),
}
