//! What the answers have in common.

ghost use Rattle.std.specs.Prelude.{◌≡◌, ◌++◌, OnOk};
ghost use Rattle.std.specs.Fmt.{signed_decimal};
ghost use Rattle.ctl_query.specs.Texts.{unknown_line, right_four};
ghost use Rattle.ctl_query.specs.Packages.{version_text};

use ctl_filter::append_line;
use ctl_stanza::Stanza;
use itoa::Buffer;
use std::alloc::AllocError;

/// Appends what stands in place of the answer on a name that is not known.
pub(crate) fn append_unknown(out: &mut Vec<u8>, name: &[u8]) -> Result<(), AllocError>
    ensures { OnOk result (out.new.items ≡ out.old.items ++ unknown_line name.now) }
{
    append_line(out, &[b"N: Unable to locate package ", name])
}

/// Appends a number.
pub(crate) fn append_number(out: &mut Vec<u8>, number: i16) -> Result<(), AllocError>
    ensures { OnOk result (out.new.items ≡ out.old.items ++ signed_decimal number) }
{
    let mut digits = Buffer::new();
    out.extend_from_slice(digits.format(number).as_bytes())?;
    Ok(())
}

/// Appends a number, right in four places, wider where it doesn't fit.
pub(crate) fn append_right_four(out: &mut Vec<u8>, number: i16) -> Result<(), AllocError>
    ensures { OnOk result (out.new.items ≡ out.old.items ++ right_four number) }
{
    let mut digits = Buffer::new();
    let digits = digits.format(number).as_bytes();
    let blanks = b"    ";
    out.extend_from_slice(&blanks[..4usize.saturating_sub(digits.len())])?;
    out.extend_from_slice(digits)?;
    Ok(())
}

/// The text of a live stanza's version.
pub(crate) fn version_text(lead: &Stanza) -> &[u8]
    ensures { result.now ≡ version_text lead.now }
{
    match lead.version() {
        Some(version) => version.text(),
        None => &[],
    }
}
