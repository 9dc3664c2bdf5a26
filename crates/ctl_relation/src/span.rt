//! Parts of a text, by their places.

ghost use Rattle.std.specs.Prelude.{◌≡◌};
ghost use Rattle.ctl_relation.specs.Spans.{IsWithin, shown};

/// From a place in a text up to another.
#[derive(Clone, Copy)]
pub struct Span {
    /// Where it begins.
    pub start: u32,
    /// Where the text behind it begins.
    pub end: u32,
}

impl Span {
    /// The part of a text that it shows.
    pub fn of<'a>(self, text: &'a [u8]) -> &'a [u8]
        requires { IsWithin text.now self }
        ensures { result.now ≡ shown text.now self }
    {
        &text[self.start as usize..self.end as usize]
    }
}
