/// What the next token of a text stands behind.
#[derive(Clone, Copy, Debug, PartialEq, Eq)]
pub enum Behind {
    /// A line feed, or nothing.
    LineStart,
    /// `(`, `[`, `<`, `-` or the extent of a dimension: no blank follows.
    Joint,
    /// `->`, behind which `(` has a blank before it.
    Arrow,
    /// Any other token.
    Other,
}
