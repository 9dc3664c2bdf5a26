//! The lines of `showpkg` that one lead gives.

ghost use Rattle.std.specs.Prelude.{◌≡◌, ◌++◌, ◌∷◌, [], OnOk, flat_map};
ghost use Rattle.ctl_relation.specs.Printed.{atom_text};
ghost use Rattle.ctl_filter.specs.Texts.{line};
ghost use Rattle.ctl_query.specs.ShowPackage.{asker, label};
ghost use Rattle.ctl_query.specs.ShowPackage.{relation_line, relations_in, relation_lines, entry_line, entry_lines};
ghost use Rattle.ctl_query.specs.ShowPackage.{has_name, providing_line, line_if_providing, providing_lines};

use crate::text::version_text;
use ctl_filter::{append_line, append_parts};
use ctl_relation::{Atom, FieldKind, Group};
use ctl_stanza::Stanza;
use std::alloc::AllocError;

// The name of a field with what stands round it, in one piece: there are so many lines that each copy of a few bytes counts.
fn label(field: FieldKind) -> &'static [u8]
    ensures { result.now ≡ label field }
{
    match field {
        FieldKind::PreDepends => b" PreDepends: ",
        FieldKind::Depends => b" Depends: ",
        FieldKind::Conflicts => b" Conflicts: ",
        FieldKind::Breaks => b" Breaks: ",
        FieldKind::Recommends => b" Recommends: ",
        FieldKind::Suggests => b" Suggests: ",
        FieldKind::Replaces => b" Replaces: ",
        FieldKind::Enhances => b" Enhances: ",
        FieldKind::Provides => b" Provides: ",
    }
}

/// Appends what stands before a relation or an entry of another package: the package and the version of its lead.
pub(crate) fn append_asker(lead: &Stanza, out: &mut Vec<u8>) -> Result<(), AllocError>
    ensures { OnOk result (out.new.items ≡ out.old.items ++ asker lead.now) }
{
    out.push(b' ')?;
    out.push(b' ')?;
    out.extend_from_slice(lead.package())?;
    out.push(b' ')?;
    out.extend_from_slice(version_text(lead))?;
    Ok(())
}

/// Appends what is told of an atom that names a name, behind the package and the version of its lead.
#[tactic(auto, unfolding(ctl_filter::specs::Texts::line))]
pub(crate) fn append_naming_line(
    asker: &[u8],
    field: FieldKind,
    atom: &Atom<'_>,
    out: &mut Vec<u8>,
) -> Result<(), AllocError>
    ensures { OnOk result (out.new.items ≡ out.old.items ++ line (asker.now ∷ label field ∷ atom_text atom.now ∷ [])) }
{
    out.extend_from_slice(asker)?;
    out.extend_from_slice(label(field))?;
    atom.append_to(out)?;
    out.push(b'\n')?;
    Ok(())
}

#[tactic(auto, unfolding(ctl_filter::specs::Texts::line))]
fn append_relation(
    lead: &Stanza,
    field: FieldKind,
    group: &Group<'_>,
    out: &mut Vec<u8>,
) -> Result<(), AllocError>
    ensures { OnOk result (out.new.items ≡ out.old.items ++ relation_line lead.now field group.now) }
{
    out.extend_from_slice(version_text(lead))?;
    out.extend_from_slice(label(field))?;
    group.append_to(out)?;
    out.push(b'\n')?;
    Ok(())
}

fn append_relations_in(lead: &Stanza, field: FieldKind, out: &mut Vec<u8>) -> Result<(), AllocError>
    ensures { OnOk result (out.new.items ≡ out.old.items ++ relations_in lead.now field) }
{
    'groups: for group in lead.groups(field) {
        append_relation(lead, field, &group, out)?;
    }
    Ok(())
}

/// Appends the groups of the eight fields of a lead.
#[tactic(auto, unfolding(crate::specs::ShowPackage::relation_lines))]
pub(crate) fn append_relation_lines(lead: &Stanza, out: &mut Vec<u8>) -> Result<(), AllocError>
    ensures { OnOk result (out.new.items ≡ out.old.items ++ relation_lines lead.now) }
{
    let fields = FieldKind::eight();
    for field in fields {
        append_relations_in(lead, *field, out)?;
    }
    Ok(())
}

#[tactic(auto, unfolding(ctl_filter::specs::Texts::line))]
fn append_entry(lead: &Stanza, entry: &Group<'_>, out: &mut Vec<u8>) -> Result<(), AllocError>
    ensures { OnOk result (out.new.items ≡ out.old.items ++ entry_line lead.now entry.now) }
{
    append_parts(out, &[version_text(lead), b" "])?;
    entry.append_to(out)?;
    out.extend_from_slice(b"\n")?;
    Ok(())
}

/// Appends the entries of a lead's Provides.
#[tactic(auto, unfolding(crate::specs::ShowPackage::entry_lines))]
pub(crate) fn append_entry_lines(lead: &Stanza, out: &mut Vec<u8>) -> Result<(), AllocError>
    ensures { OnOk result (out.new.items ≡ out.old.items ++ entry_lines lead.now) }
{
    'entries: for entry in lead.provides() {
        append_entry(lead, &entry, out)?;
    }
    Ok(())
}

// Whether an entry has a name; it is read only where its name alone says so.
#[tactic(auto, using(crate::proofs::GroupLemmas::no_first_name))]
fn has_name(name: &[u8], entry: &Group<'_>) -> bool
    ensures { result ≡ has_name name.now entry.now }
{
    if !entry.has_name(name) {
        return false;
    }
    match entry.get(0) {
        Some(atom) => atom.name() == name,
        None => false,
    }
}

#[tactic(auto, unfolding(ctl_filter::specs::Texts::line))]
fn append_providing(lead: &Stanza, entry: &Group<'_>, out: &mut Vec<u8>) -> Result<(), AllocError>
    ensures { OnOk result (out.new.items ≡ out.old.items ++ providing_line lead.now entry.now) }
{
    append_asker(lead, out)?;
    out.push(b' ')?;
    entry.append_to(out)?;
    out.push(b'\n')?;
    Ok(())
}

/// Appends the entries of a lead's Provides with a name.
#[tactic(auto, unfolding(crate::specs::ShowPackage::providing_lines))]
pub(crate) fn append_providing_lines(
    name: &[u8],
    lead: &Stanza,
    out: &mut Vec<u8>,
) -> Result<(), AllocError>
    ensures { OnOk result (out.new.items ≡ out.old.items ++ providing_lines name.now lead.now) }
{
    'entries: for entry in lead.provides() {
        if has_name(name, &entry) {
            append_providing(lead, &entry, out)?;
        }
    }
    Ok(())
}
