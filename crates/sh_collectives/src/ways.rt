ghost use Rattle.std.specs.Prelude.{◌≡◌};

use sh_base::{Kind, Shape};
use sh_ir::Dim;

/// A shift along one axis of a group: the extents of the axes along which the group stands, where
/// its axis stands among them, and how far it goes.
#[derive(Drop)]
pub(crate) struct Shifting {
    pub(crate) extents: Shape,
    pub(crate) along: Option<u64>,
    pub(crate) offset: i128,
    pub(crate) rotate: bool,
}

/// What a collective does with the operands of a group.
#[derive(Drop)]
pub(crate) enum Way {
    /// All one after the other along an axis.
    Gather(u64),
    /// All combined.
    Reduce(Kind),
    /// A piece of the combination along an axis.
    Scatter(Kind, u64),
    /// A piece of each along the first axis, one after the other along the second.
    Exchange(u64, u64),
    /// The operand of another member.
    Shift(Shifting),
}

/// What a collective does on a grid, and the extents that its operands' type knows.
#[derive(Drop)]
pub(crate) struct Described<'a> {
    pub(crate) way: Way,
    pub(crate) dims: &'a [Dim],
}
