//! The options of a filter, wherever they stand: `-v`, `-c`, `-n`, `-d` and `-s`.

ghost use Rattle.std.specs.Prelude.{◌≡◌, ◌++◌, OnOk, IfOk, option_map};
ghost use Rattle.std.specs.List.{list_any};
ghost use Rattle.ctl_filter.specs.Atoms.{is_letter, is_given, names_of_shown, names_shown, with_description, fields_shown};
ghost use Rattle.ctl_filter.specs.Names.{is_description};

use crate::names::{append_names, description, is_description};
use crate::piece::Piece;
use ctl_relation::Bytes;
use std::alloc::{AllocError, Global};

fn is_letter(letter: u8, piece: &Piece) -> bool
    ensures { result ≡ is_letter letter piece.now }
{
    match piece {
        Piece::Letter(other) => *other == letter,
        _ => false,
    }
}

/// Whether an option is given, by its letter.
pub(crate) fn is_given(letter: u8, pieces: &[Piece]) -> bool
    ensures { result ≡ is_given letter pieces.now }
{
    for piece in pieces {
        if is_letter(letter, piece) {
            return true;
        }
    }
    false
}

fn append_shown(alloc: Global, piece: &Piece, names: &mut Vec<Bytes>) -> Result<(), AllocError>
    ensures { OnOk result (names.new.items ≡ names.old.items ++ names_of_shown piece.now) }
{
    match piece {
        Piece::Shown(text) => append_names(alloc, text.as_slice(), names),
        _ => Ok(()),
    }
}

/// The fields of each `-s`, one after another.
pub(crate) fn names_shown(alloc: Global, pieces: &[Piece]) -> Result<Vec<Bytes>, AllocError>
    ensures { IfOk result (λ names. names.items ≡ names_shown pieces.now) }
{
    let mut names = Vec::new(alloc);
    for piece in pieces {
        append_shown(alloc, piece, &mut names)?;
    }
    Ok(names)
}

fn has_description(names: &[Bytes]) -> bool
    ensures { result ≡ list_any is_description names.now }
{
    for name in names {
        if is_description(name.as_slice()) {
            return true;
        }
    }
    false
}

/// The fields named, and Description by `-d`.
fn with_description(
    alloc: Global,
    first_line_alone: bool,
    names: Vec<Bytes>,
) -> Result<Vec<Bytes>, AllocError>
    ensures { IfOk result (λ shown. shown.items ≡ with_description first_line_alone names.items) }
{
    let mut names = names;
    if first_line_alone && !has_description(&names) {
        names.push(description(alloc)?)?;
        return Ok(names);
    }
    Ok(names)
}

/// The fields to show. None where there is none, as the whole stanza is shown then.
pub(crate) fn fields_shown(
    alloc: Global,
    first_line_alone: bool,
    names: Vec<Bytes>,
) -> Result<Option<Vec<Bytes>>, AllocError>
    ensures { IfOk result (λ fields. option_map (λ names. names.items) fields ≡ fields_shown first_line_alone names.items) }
{
    let names = with_description(alloc, first_line_alone, names)?;
    if names.is_empty() {
        return Ok(None);
    }
    Ok(Some(names))
}
