//! What the words of a filter say, one by one.

use crate::token::Token;
use ctl_relation::{Bytes, Operator};

/// How a pattern is taken, where it need not merely stand in a text.
#[derive(Clone, Copy, Debug, PartialEq, Eq)]
pub(crate) enum Manner {
    /// `-X`: it is the whole text.
    Exact,
    /// `--rx`: it is a regular expression.
    Rx,
    /// `--eq` and its kin: it is a version, to which the text stands so.
    Compare(Operator),
}

/// What a word says, or a letter of a cluster.
#[derive(Drop)]
pub(crate) enum Piece {
    /// `!`, `(`, `)`, `-a` or `-o`.
    Sign(Token),
    /// A pattern.
    Pattern(Bytes),
    /// `-F FIELDS`, and `-P`, which is `-F Package`.
    Fields(Bytes),
    /// `-i`.
    AnyCase,
    /// `-X`, `--rx` and the comparisons.
    Manner(Manner),
    /// `-v`, `-c`, `-n` or `-d`, by its letter.
    Letter(u8),
    /// `-s FIELDS`.
    Shown(Bytes),
}
