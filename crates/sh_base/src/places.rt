use crate::Rule;

/// Where a thing stands in a text: line and column count from 1, columns in bytes. Places are
/// ordered as they come in the text.
#[derive(Clone, Copy, Debug, PartialEq, Eq, PartialOrd, Ord)]
pub struct Place {
    pub line: u32,
    pub column: u32,
}

/// A place and the rule that breaks at it. Refusals are ordered by place, at one place by rule.
#[derive(Clone, Copy, Debug, PartialEq, Eq, PartialOrd, Ord)]
pub struct Refusal {
    pub place: Place,
    pub rule: Rule,
}
