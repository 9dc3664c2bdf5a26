//! Parts of tests, made of texts.

ghost use Rattle.std.specs.Prelude.{◌≡◌, Some, IfOk, is_ok, is_some};

use ctl_relation::Version;
use std::alloc::Global;
use std::test::Fail;

/// The version of a text. None comes where memory is refused, or where the text is none.
pub fn version(alloc: Global, text: &str) -> Option<Version> {
    Version::parse(alloc, text.as_bytes()).ok()
}

/// What a test is to begin with.
pub fn given<T>(made: Option<T>) -> Result<T, Fail>
    ensures given { IfOk result (λ it. made ≡ Some it) }
    ensures all { is_ok result ≡ is_some made }
{
    match made {
        Some(it) => Ok(it),
        None => Err(Fail::from("a part could not be made")),
    }
}
