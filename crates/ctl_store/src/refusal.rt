//! Why a command is refused.

ghost use Rattle.std.specs.Prelude.{◌≡◌};

use std::alloc::AllocError;

/// Why a command is refused.
#[derive(Clone, Copy, Debug, PartialEq, Eq)]
pub enum Refusal {
    /// There is no command of that name.
    Command,
    /// The words are not those of the command.
    Usage,
    /// The input ended before the line `.` that ends a body.
    Unended,
    /// A line, or the body of a field, has more than 1,048,576 bytes.
    TooLong,
    /// A line of a body is neither blank, nor a field line, nor a continuation.
    Line,
    /// A field stands twice in a stanza.
    FieldTwice,
    /// A field that a stanza must have is absent or empty.
    Missing,
    /// A word or a field that should be a name is none.
    Name,
    /// A word or a field that should be a version is none.
    Version,
    /// A relation field is not well formed.
    Relation,
    /// There is a list of that name already.
    ListExists,
    /// There is no list of that name.
    NoList,
    /// There is a status list already.
    StatusExists,
    /// The list has no stanza of that name and an equal version.
    NoStanza,
    /// The body of `put` is not one stanza.
    OneStanza,
    /// The package has no mark.
    NoMark,
    /// There is no pin setting of that selector.
    NoPin,
    /// A priority is no number from -32768 to 32767, or is 0.
    Priority,
    /// A filter is not well formed.
    Filter,
    /// A pattern is not well formed.
    Pattern,
    /// The new state would pass a limit.
    Full,
    /// There is not enough memory.
    Memory,
    /// A record of preferences has another form of pin.
    Form,
}

impl Refusal {
    ghost use Rattle.ctl_store.specs.Refusals.{number_of_refusal, words_of_refusal};

    /// The number of the refusal, from 1 on.
    pub fn number(self) -> u8
        ensures { result ≡ number_of_refusal self }
    {
        match self {
            Refusal::Command => 1,
            Refusal::Usage => 2,
            Refusal::Unended => 3,
            Refusal::TooLong => 4,
            Refusal::Line => 5,
            Refusal::FieldTwice => 6,
            Refusal::Missing => 7,
            Refusal::Name => 8,
            Refusal::Version => 9,
            Refusal::Relation => 10,
            Refusal::ListExists => 11,
            Refusal::NoList => 12,
            Refusal::StatusExists => 13,
            Refusal::NoStanza => 14,
            Refusal::OneStanza => 15,
            Refusal::NoMark => 16,
            Refusal::NoPin => 17,
            Refusal::Priority => 18,
            Refusal::Filter => 19,
            Refusal::Pattern => 20,
            Refusal::Full => 21,
            Refusal::Memory => 22,
            Refusal::Form => 23,
        }
    }

    /// The words that the refusal is printed with.
    pub fn text(self) -> &'static str
        ensures { result.now ≡ words_of_refusal self }
    {
        match self {
            Refusal::Command => "unknown command",
            Refusal::Usage => "bad arguments",
            Refusal::Unended => "body has no end",
            Refusal::TooLong => "line too long",
            Refusal::Line => "not a control line",
            Refusal::FieldTwice => "field given twice",
            Refusal::Missing => "required field missing",
            Refusal::Name => "bad name",
            Refusal::Version => "bad version",
            Refusal::Relation => "bad relation field",
            Refusal::ListExists => "list already present",
            Refusal::NoList => "no such list",
            Refusal::StatusExists => "a status list is already present",
            Refusal::NoStanza => "no such stanza",
            Refusal::OneStanza => "body is not one stanza",
            Refusal::NoMark => "no such mark",
            Refusal::NoPin => "no such pin",
            Refusal::Priority => "bad priority",
            Refusal::Filter => "bad filter",
            Refusal::Pattern => "bad pattern",
            Refusal::Full => "cache full",
            Refusal::Memory => "out of memory",
            Refusal::Form => "bad pin record",
        }
    }
}

impl From<AllocError> for Refusal {
    ghost use Rattle.ctl_store.specs.declared.refusal.Refusal.TheVariants as refusal;

    ghost from_gives = { λ _ why. why ≡ refusal.Memory };

    fn from(_error: AllocError) -> Refusal {
        Refusal::Memory
    }
}
