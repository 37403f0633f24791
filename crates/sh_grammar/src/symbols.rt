use crate::Form;

/// What stands in a row of the grammar: any token of a class, or a form.
#[derive(Clone, Copy)]
pub enum Symbol {
    Class(u16),
    Part(Form),
}

/// A step of a reading. The steps are the tree of the text, each form before what is below it.
#[derive(Clone, Copy)]
pub enum Event {
    /// The next token.
    Took,
    /// A form, by one of its alternatives, counted from 0: the next `size` trees are below it.
    Opened {
        form: Form,
        alternative: u16,
        size: u16,
    },
}

/// How a form begins.
#[derive(Clone, Copy)]
pub enum Beginning {
    /// An operation may begin where the form begins.
    Operation,
    /// The form may be empty, and no operation begins it.
    Empty,
    /// Neither.
    Other,
}
