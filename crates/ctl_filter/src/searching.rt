//! What is asked of patterns and texts byte by byte.

ghost use Rattle.std.specs.Prelude.{◌≡◌, IfOk};
ghost use Rattle.std.specs.List.{list_any};
ghost use Rattle.std.specs.Str.{str_to_ascii_lowercase};
ghost use Rattle.ctl_filter.specs.Inside.Searchers.{is_newline};

use bstr::ByteSlice;
use std::alloc::{AllocError, Global};

/// Whether a pattern has a newline.
pub(crate) fn has_newline(pattern: &[u8]) -> bool
    ensures { result ≡ list_any is_newline pattern.now }
{
    for byte in pattern {
        if *byte == b'\n' {
            return true;
        }
    }
    false
}

/// A copy of a text with small letters of ASCII in place of capital ones.
pub(crate) fn lowered(alloc: Global, text: &[u8]) -> Result<Vec<u8>, AllocError>
    ensures { IfOk result (λ small. small.items ≡ str_to_ascii_lowercase text.now) }
{
    text.to_ascii_lowercase(alloc)
}
