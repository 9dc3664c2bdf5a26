//! FIELDS: names of fields, parted by commas.

ghost use Rattle.std.specs.Prelude.{◌≡◌, ◌++◌, OnOk, IfOk, map};
ghost use Rattle.std.specs.List.{list_all};
ghost use Rattle.ctl_stanza.specs.LineKind.{is_field_name_byte};
ghost use Rattle.ctl_filter.specs.Names.{is_field_name, are_field_names, names_in, description, is_description};

use ctl_relation::{Bytes, is_field_name_byte};
use std::alloc::{AllocError, Global};

fn are_field_name_bytes(bytes: &[u8]) -> bool
    ensures { result ≡ list_all is_field_name_byte bytes.now }
{
    for byte in bytes {
        if !is_field_name_byte(*byte) {
            return false;
        }
    }
    true
}

fn is_field_name(name: &[u8]) -> bool
    ensures { result ≡ is_field_name name.now }
{
    match name {
        [] => false,
        [byte, ..] => *byte != b'#' && *byte != b'-' && are_field_name_bytes(name),
    }
}

pub(crate) fn are_field_names(names: &[Bytes]) -> bool
    ensures { result ≡ are_field_names names.now }
{
    for name in names {
        if !is_field_name(name.as_slice()) {
            return false;
        }
    }
    true
}

fn parts_at_commas<'a>(alloc: Global, text: &'a [u8]) -> Result<Vec<&'a [u8]>, AllocError>
    ensures { IfOk result (λ parts. map (λ part. part.now) parts.items ≡ names_in text.now) }
{
    text.split(|byte| *byte == b',').collect(alloc)
}

fn push_names(parts: &[&[u8]], alloc: Global, names: &mut Vec<Bytes>) -> Result<(), AllocError>
    ensures { OnOk result (names.new.items ≡ names.old.items ++ map (λ part. part.now) parts.now) }
{
    for part in parts {
        names.push(Bytes::from_slice(alloc, part)?)?;
    }
    Ok(())
}

/// Appends the names that stand in FIELDS.
pub(crate) fn append_names(
    alloc: Global,
    text: &[u8],
    names: &mut Vec<Bytes>,
) -> Result<(), AllocError>
    ensures { OnOk result (names.new.items ≡ names.old.items ++ names_in text.now) }
{
    let parts = parts_at_commas(alloc, text)?;
    push_names(&parts, alloc, names)?;
    Ok(())
}

/// Whether a field is Description.
#[tactic(auto, unfolding(crate::specs::Names::is_description, crate::specs::Names::description))]
pub(crate) fn is_description(name: &[u8]) -> bool
    ensures { result ≡ is_description name.now }
{
    name.eq_ignore_ascii_case(b"Description")
}

/// The name of Description.
#[tactic(auto, unfolding(crate::specs::Names::description))]
pub(crate) fn description(alloc: Global) -> Result<Bytes, AllocError>
    ensures { IfOk result (λ name. name ≡ description) }
{
    Bytes::from_slice(alloc, b"Description")
}
