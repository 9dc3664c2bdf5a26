//! Atoms that are looked at ahead of their lines. What a line is made of lies all over memory. Where it is gone to for many atoms,
//! one right behind another, the processor waits for many of these places at once, and not for each by itself.

ghost use Rattle.std.specs.Prelude.{◌≡◌, OnOk};

use crate::askers::AskerTable;
use crate::asking::AskedName;
use crate::lead_atoms::ListedAtom;
use crate::lead_table::LeadTable;
use crate::leads::lead_in;
use ctl_relation::FieldKind;
use ctl_stanza::Stanza;
use ctl_store::Store;
use std::alloc::{AllocError, Global};

// How many atoms or names are looked at ahead.
const AHEAD: usize = 32;

// Of fewer none is: there is little to wait for at once.
const FEW: usize = 4;

// Those of these that are looked at from a place on, where those before it are written: in between none.
fn next_of<T>(items: &[T], at: usize) -> &[T] {
    if at % AHEAD != 0 || items.len() < FEW {
        return &[];
    }
    let end = at.saturating_add(AHEAD).min(items.len());
    match items.get(at..end) {
        Some(next) => next,
        None => &[],
    }
}

// How many bytes the packages of the leads of these atoms have, with how many groups there are in their fields.
fn groups_of_fields(table: &LeadTable<'_>, atoms: &[ListedAtom<'_>]) -> usize {
    let mut groups: usize = 0;
    for atom in atoms {
        if let Some(lead) = table.lead(atom.at.place) {
            let more = lead
                .package()
                .len()
                .saturating_add(lead.groups(atom.at.field).len());
            groups = groups.saturating_add(more);
        }
    }
    groups
}

/// Makes room for what is written of the next atoms, where those before are written; in between it does nothing. Most lines take
/// less: what counts is that the packages and the fields of the atoms are gone to.
pub(crate) fn look_ahead(
    table: &LeadTable<'_>,
    atoms: &[ListedAtom<'_>],
    at: usize,
    out: &mut Vec<u8>,
) -> Result<(), AllocError>
    ensures { OnOk result (out.new.items ≡ out.old.items) }
{
    out.reserve(groups_of_fields(table, next_of(atoms, at)))
}

// ---- at the texts of leads

// How many bytes the texts of the leads of these atoms have. Of each its first byte is looked at, so that it is fetched.
fn bytes_of_texts(table: &AskerTable<'_>, atoms: &[ListedAtom<'_>]) -> usize {
    let mut bytes: usize = 0;
    for atom in atoms {
        let text = table.text(atom.at.place);
        if text.first() == Some(&b' ') {
            bytes = bytes.saturating_add(text.len());
        }
    }
    bytes
}

// How many groups there are in the fields of those of these atoms that are to be read in their stanzas.
fn groups_to_read(table: &AskerTable<'_>, name: &[u8], atoms: &[ListedAtom<'_>]) -> usize {
    let mut groups: usize = 0;
    for atom in atoms {
        if atom.namer.atom(name).is_some() {
            continue;
        }
        if let Some(lead) = table.table().lead(atom.at.place) {
            groups = groups.saturating_add(lead.groups(atom.at.field).len());
        }
    }
    groups
}

/// Room for what is written of the next atoms, where those before are written; in between none. Lines are written with the texts of
/// leads, and most atoms with a name are kept beside their keys: what counts is that the texts, and the fields of the others, are gone
/// to.
pub(crate) fn room_of_texts(
    table: &AskerTable<'_>,
    name: &[u8],
    atoms: &[ListedAtom<'_>],
    at: usize,
) -> usize {
    let next = next_of(atoms, at);
    bytes_of_texts(table, next).saturating_add(groups_to_read(table, name, next))
}

// ---- at names that are asked for

// How many stanzas there are in the newest rows of these names.
fn stanzas_of_rows(names: &[AskedName<'_>]) -> usize {
    let mut stanzas: usize = 0;
    for name in names {
        if let Some(row) = name.view.rows().next() {
            stanzas = stanzas.saturating_add(row.len());
        }
    }
    stanzas
}

// How many of these names are named by an atom in the first group of a field before all others.
fn named_first(names: &[AskedName<'_>]) -> usize {
    let mut named: usize = 0;
    for name in names {
        if let Some(namer) = name.view.kept_namers().next() {
            named = named.saturating_add((namer.key().group == 0) as usize);
        }
    }
    named
}

// The leads of the newest rows of these names.
fn newest_leads<'a>(
    alloc: Global,
    store: &'a Store,
    names: &[AskedName<'_>],
) -> Result<Vec<&'a Stanza>, AllocError> {
    let mut leads = Vec::with_capacity(alloc, names.len())?;
    for name in names {
        if let Some(row) = name.view.rows().next() {
            if let Some(lead) = lead_in(store, row) {
                leads.push(lead)?;
            }
        }
    }
    Ok(leads)
}

// How many of some leads are live, and how many groups they depend on.
fn groups_of_leads(leads: &[&Stanza]) -> usize {
    let mut groups: usize = 0;
    for lead in leads {
        groups = groups.saturating_add(lead.version().is_some() as usize);
    }
    for lead in leads {
        groups = groups.saturating_add(lead.groups(FieldKind::Depends).len());
    }
    groups
}

// How many of some leads depend on one of these bytes first, which none does: it is looked at where that text begins.
fn leads_that_depend_first_on(name: &[u8], leads: &[&Stanza]) -> usize {
    let mut count: usize = 0;
    for lead in leads {
        if let Some(group) = lead.groups(FieldKind::Depends).get(0) {
            count = count.saturating_add(group.has_name(name) as usize);
        }
    }
    count
}

/// Looks at what the next names are told of by, where those before are written; in between it does nothing. What stands under each
/// is gone to, then its leads, and then the fields of these, each of all names at once.
pub(crate) fn look_ahead_at_names(
    store: &Store,
    asked: &[AskedName<'_>],
    at: usize,
    out: &mut Vec<u8>,
) -> Result<(), AllocError>
    ensures { OnOk result (out.new.items ≡ out.old.items) }
{
    let next = next_of(asked, at);
    if next.is_empty() {
        return Ok(());
    }
    let stanzas = stanzas_of_rows(next);
    let named = named_first(next);
    let leads = newest_leads(*out.allocator(), store, next)?;
    let groups = groups_of_leads(&leads);
    let first = leads_that_depend_first_on(b"-", &leads);
    out.reserve(
        stanzas
            .saturating_add(named)
            .saturating_add(groups)
            .saturating_add(first),
    )
}
