//! Why a text is refused.

ghost use Rattle.std.specs.Prelude.{◌≡◌};
ghost use Rattle.ctl_stanza.specs.Faults.{number_of};

use std::alloc::{AllocError, AllocFailed};

/// What is wrong with a line of a text, or with the stanza that it stands in.
#[derive(Clone, Copy, PartialEq, Eq)]
pub enum Cause {
    /// The line has more than [`MAX_LINE`](crate::MAX_LINE) bytes, or continues a body to more than that.
    TooLong,
    /// The line is neither blank, nor a field line, nor a continuation line with a line before it.
    Line,
    /// An earlier line of the stanza gives a field of this name.
    FieldTwice,
    /// A field that the stanza has to have is absent or empty, or `Status` names no state; told at the first line
    /// of the stanza.
    Missing,
    /// The body of `Package` is no name; told at its line.
    Name,
    /// The body of `Version` is no version; told at its line.
    Version,
    /// The body of one of the nine relation fields can't be read; told at its line.
    Relation,
    /// A priority of preferences is none. Stanzas have no such fault.
    Priority,
    /// A record of preferences has a form that isn't known. Stanzas have no such fault.
    Form,
    /// Memory ran out.
    Memory,
}

impl Cause {
    /// The number of the cause. Of the faults of one line the one with the lowest number is told.
    pub fn number(self) -> u8
        ensures { result ≡ number_of self }
    {
        match self {
            Cause::TooLong => 4,
            Cause::Line => 5,
            Cause::FieldTwice => 6,
            Cause::Missing => 7,
            Cause::Name => 8,
            Cause::Version => 9,
            Cause::Relation => 10,
            Cause::Priority => 18,
            Cause::Form => 23,
            Cause::Memory => 22,
        }
    }
}

/// Why a text is refused: the number of a line, and its fault. The line is 0 where memory ran out.
#[derive(Clone, Copy, PartialEq, Eq)]
pub struct TextFault {
    /// The number of the line.
    pub line: u64,
    /// Its fault.
    pub cause: Cause,
}

impl TextFault {
    /// Memory ran out.
    pub(crate) const MEMORY: TextFault = TextFault {
        line: 0,
        cause: Cause::Memory,
    };
}

impl From<AllocError> for TextFault {
    ghost use Rattle.ctl_stanza.specs.declared.fault.Cause.TheVariants as causes;

    ghost from_gives = { λ _ fault. fault ≡ record { line = 0; cause = causes.Memory } };

    fn from(_error: AllocError) -> TextFault {
        TextFault::MEMORY
    }
}

impl<T: Drop> From<AllocFailed<T>> for TextFault {
    ghost use Rattle.ctl_stanza.specs.declared.fault.Cause.TheVariants as causes;

    ghost from_gives = { λ _ fault. fault ≡ record { line = 0; cause = causes.Memory } };

    fn from(_failed: AllocFailed<T>) -> TextFault {
        TextFault::from(AllocError)
    }
}
