//! The lines of atoms and groups.

ghost use Rattle.std.specs.Prelude.{◌≡◌, ◌++◌, OnOk};
ghost use Rattle.ctl_query.specs.Depends.{mark, named, named_shown, atom_line};

use ctl_filter::append_parts;
use ctl_relation::{Atom, FieldKind};
use std::alloc::AllocError;

/// An atom of a field, and whether a further alternative follows it in its group.
#[derive(Drop)]
pub(crate) struct Alternative<'a> {
    pub(crate) field: FieldKind,
    pub(crate) further: bool,
    pub(crate) atom: Atom<'a>,
}

/// What stands before the line of an atom: a bar where a further alternative follows.
pub(crate) fn mark(further: bool) -> &'static [u8]
    ensures { result.now ≡ mark further }
{
    if further { b" |" } else { b"  " }
}

fn append_named(atom: &Atom<'_>, out: &mut Vec<u8>) -> Result<(), AllocError>
    ensures { OnOk result (out.new.items ≡ out.old.items ++ named atom.now) }
{
    match atom.qualifier() {
        Some(qualifier) => append_parts(out, &[atom.name(), b":", qualifier]),
        None => append_parts(out, &[atom.name()]),
    }
}

/// Appends the name of an atom with its qualifier, in angle brackets where the name has no row.
fn append_named_shown(with_row: bool, atom: &Atom<'_>, out: &mut Vec<u8>) -> Result<(), AllocError>
    ensures { OnOk result (out.new.items ≡ out.old.items ++ named_shown with_row atom.now) }
{
    if with_row {
        append_named(atom, out)?;
        return Ok(());
    }
    out.extend_from_slice(b"<")?;
    append_named(atom, out)?;
    out.extend_from_slice(b">")?;
    Ok(())
}

/// Appends the line of an atom of `depends`, by whether its name has a row.
#[tactic(auto, unfolding(ctl_filter::specs::Texts::line))]
pub(crate) fn append_atom_line(
    with_row: bool,
    alternative: &Alternative<'_>,
    out: &mut Vec<u8>,
) -> Result<(), AllocError>
    ensures { OnOk result (out.new.items ≡ out.old.items
        ++ atom_line with_row alternative.now.field alternative.now.further alternative.now.atom) }
{
    let field = alternative.field.printed_name();
    append_parts(out, &[mark(alternative.further), field, b": "])?;
    append_named_shown(with_row, &alternative.atom, out)?;
    out.extend_from_slice(b"\n")?;
    Ok(())
}
