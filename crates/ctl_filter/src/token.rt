//! The words of an expression, and the steps that make its truth.

/// A word of an expression, an atom standing as its number.
#[derive(Clone, Copy, Debug, PartialEq, Eq)]
pub(crate) enum Token {
    Bang,
    Open,
    Close,
    And,
    Or,
    Atom(usize),
}

/// A step: it puts the value of an atom on a stack, or takes values and puts one.
#[derive(Clone, Copy, Debug, PartialEq, Eq)]
pub(crate) enum Step {
    Value(usize),
    Not,
    Both,
    Either,
}
