//! How much of a text is shown where a row of a table fails.

ghost use Rattle.std.specs.Prelude.{◌≡◌, codes, take, if◌then◌else◌};

/// How many bytes of a text are shown where a row fails.
const SHOWN: usize = 4096;

/// The first bytes of a text, up to so many.
pub fn front(text: &[u8], count: usize) -> &[u8]
    ensures { result.now ≡ take count text.now }
{
    match text.get(..count) {
        Some(front) => front,
        None => text,
    }
}

/// The beginning of a text, as much as is shown of it.
pub fn beginning(text: &[u8]) -> &[u8]
    ensures { result.now ≡ take 4096 text.now }
{
    front(text, SHOWN)
}

/// The word for a truth.
pub fn truth(holds: bool) -> &'static [u8]
    ensures { result.now ≡ (if holds then codes "true" else codes "false") }
{
    if holds { b"true" } else { b"false" }
}
