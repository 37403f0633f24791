ghost use Rattle.std.specs.Prelude.{◌≡◌};
ghost use Rattle.sh_base.specs.Rules.{code_of};

/// The code of a rule, as error lines print it. `B` is said of bytes, `P` of tokens, `L` of limits,
/// `V` of verification, `A` of the admission of shardings, `C` of call items, `N` of annotation,
/// `U` of undefined source programs, `E` of device programs and `K` of traces.
#[derive(Clone, Copy, Debug, PartialEq, Eq, PartialOrd, Ord)]
pub enum Rule {
    /// No token begins with this byte.
    B1,
    /// A string isn't closed on its line, or holds a backslash.
    B2,
    /// A number is 2 to the 64th or more.
    B3,
    /// No reading of the text goes on with this token.
    P1,
    /// The same, where an operation is due and the token is a word.
    P2,
    /// The same, where the token belongs to a form that is left out by name.
    P3,
    /// The input has too many bytes.
    L1,
    /// A rank, a number of loops or of grid axes is too great.
    L2,
    /// A grid has too many devices.
    L3,
    /// A written type has too many cells.
    L4,
    /// A function in source form has too many operations.
    L5,
    /// A `linalg.generic` has too many inputs.
    L6,
    /// A device function has too many instructions.
    L7,
    /// A run takes too much work, or a result has too many cells.
    L8,
    /// A function is too large once its calls are written out.
    L9,
    /// A program of sends and receives is too long.
    L10,
    /// A value is used that isn't defined before.
    V1,
    /// A name is defined twice.
    V2,
    /// An operand isn't what its operation takes.
    V3,
    /// A result type isn't the operation's.
    V4,
    /// A number is out of its range.
    V5,
    /// A grid has no definition.
    V6,
    /// The returned types aren't the function's, or a function type isn't a tensor.
    V7,
    /// Indexing maps and iterators don't fit each other.
    V8,
    /// A region body is malformed.
    V9,
    /// An operation or type stands in the wrong form of function.
    V10,
    /// A function reaches itself over calls.
    V11,
    /// A listed axis isn't an axis of the grid.
    A1,
    /// An axis is listed twice.
    A2,
    /// There are more lists of axes than dimensions.
    A3,
    /// Offsets are malformed.
    A5,
    /// Halo sizes and offsets are both given.
    A6,
    /// The number of halo sizes is wrong, or one is negative.
    A7,
    /// A halo is wider than a shard, or a shard with its halos is too large.
    A8,
    /// A note names another grid than the function's first note.
    A9,
    /// There is no grid to partition a function on.
    A10,
    /// A call item names no function of the asked form.
    C1,
    /// A call item has the wrong number of arguments.
    C2,
    /// An argument of a call item has the wrong type.
    C3,
    /// A value isn't annotated.
    N1,
    /// An operation can't keep the user's annotations.
    N2,
    /// A halo stands on a dimension that is split along several axes.
    N3,
    /// A collective can't be written as sends and receives.
    N4,
    /// An operation of the source is stuck.
    U1,
    /// A result cell of the source is undefined.
    U2,
    /// A device's turn meets a mismatched collective.
    E1,
    /// A device's turn is stuck.
    E2,
    /// A turn line of a trace is malformed, or out of count.
    K1,
    /// A turn line names no device that can move, or not its next instruction.
    K2,
    /// The turn lines of a call end before its run is finished.
    K3,
    /// Another line of a trace isn't the expected one, is missing, or comes after the last.
    K4,
}

impl Rule {
    /// The letters of the code.
    pub fn code(self) -> &'static str
        ensures { result.now ≡ code_of self }
    {
        match self {
            Rule::B1 => "B1",
            Rule::B2 => "B2",
            Rule::B3 => "B3",
            Rule::P1 => "P1",
            Rule::P2 => "P2",
            Rule::P3 => "P3",
            Rule::L1 => "L1",
            Rule::L2 => "L2",
            Rule::L3 => "L3",
            Rule::L4 => "L4",
            Rule::L5 => "L5",
            Rule::L6 => "L6",
            Rule::L7 => "L7",
            Rule::L8 => "L8",
            Rule::L9 => "L9",
            Rule::L10 => "L10",
            Rule::V1 => "V1",
            Rule::V2 => "V2",
            Rule::V3 => "V3",
            Rule::V4 => "V4",
            Rule::V5 => "V5",
            Rule::V6 => "V6",
            Rule::V7 => "V7",
            Rule::V8 => "V8",
            Rule::V9 => "V9",
            Rule::V10 => "V10",
            Rule::V11 => "V11",
            Rule::A1 => "A1",
            Rule::A2 => "A2",
            Rule::A3 => "A3",
            Rule::A5 => "A5",
            Rule::A6 => "A6",
            Rule::A7 => "A7",
            Rule::A8 => "A8",
            Rule::A9 => "A9",
            Rule::A10 => "A10",
            Rule::C1 => "C1",
            Rule::C2 => "C2",
            Rule::C3 => "C3",
            Rule::N1 => "N1",
            Rule::N2 => "N2",
            Rule::N3 => "N3",
            Rule::N4 => "N4",
            Rule::U1 => "U1",
            Rule::U2 => "U2",
            Rule::E1 => "E1",
            Rule::E2 => "E2",
            Rule::K1 => "K1",
            Rule::K2 => "K2",
            Rule::K3 => "K3",
            Rule::K4 => "K4",
        }
    }
}
