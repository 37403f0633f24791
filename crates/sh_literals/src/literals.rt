use crate::rests::Rest;
use sh_base::Text;

/// A number, or `true` or `false`, in a literal.
#[derive(Clone, Copy)]
pub enum Element {
    Number(i128),
    Truth(bool),
}

/// Lists in lists down to numbers, all of one shape.
#[derive(Drop)]
pub struct Nested {
    /// The lengths of the lists, outermost first, up to the first that is 0. A number alone has
    /// none.
    pub extents: Rest<u64>,
    /// The numbers, row-major.
    pub elements: Rest<Element>,
}

/// What is written in `dense<..>`, before its type is known.
#[derive(Drop)]
pub enum Literal {
    /// Nothing.
    Empty,
    Nested(Nested),
    /// Lists that aren't all of one shape.
    Ragged,
    /// A string.
    Quoted(Text),
}
