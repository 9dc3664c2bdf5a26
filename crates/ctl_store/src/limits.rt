//! What a store may hold, and what it holds, in numbers.

ghost use Rattle.std.specs.Prelude.{◌≡◌};

/// How many stanzas a store may hold, and how many edits it may accept.
#[derive(Clone, Copy, Debug, PartialEq, Eq)]
pub struct Limits {
    /// The stanzas in all lists together.
    pub stanzas: u32,
    /// The accepted edits.
    pub edits: u32,
}

impl Limits {
    /// The limits of a store that is given no smaller ones.
    pub const MOST: Limits = Limits {
        stanzas: 4_294_967_295,
        edits: 4_294_967_295,
    };
}

/// How many stanzas a store holds, and how many edits it has accepted.
#[derive(Clone, Copy, Debug, PartialEq, Eq)]
pub struct Counts {
    /// The stanzas in all lists together.
    pub stanzas: u32,
    /// The accepted edits.
    pub edits: u32,
}
