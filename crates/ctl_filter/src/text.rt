//! Lines, by their parts.

ghost use Rattle.std.specs.Prelude.{◌≡◌, ◌++◌, OnOk, map};
ghost use Rattle.ctl_filter.specs.Texts.{joined, line};

use std::alloc::AllocError;

/// Appends parts, one after another.
///
/// # Errors
///
/// Out of memory.
pub fn append_parts(out: &mut Vec<u8>, parts: &[&[u8]]) -> Result<(), AllocError>
    ensures { OnOk result (out.new.items ≡ out.old.items ++ joined (map (λ part. part.now) parts.now)) }
{
    for part in parts {
        out.extend_from_slice(part)?;
    }
    Ok(())
}

/// Appends a line: its parts, one after another, and a newline.
///
/// # Errors
///
/// Out of memory.
#[tactic(auto, unfolding(crate::specs::Texts::line))]
pub fn append_line(out: &mut Vec<u8>, parts: &[&[u8]]) -> Result<(), AllocError>
    ensures { OnOk result (out.new.items ≡ out.old.items ++ line (map (λ part. part.now) parts.now)) }
{
    append_parts(out, parts)?;
    out.extend_from_slice(b"\n")?;
    Ok(())
}
