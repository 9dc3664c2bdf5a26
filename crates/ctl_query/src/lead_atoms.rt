//! The atoms of leads that name a name, in the order in which `showpkg` tells them.

ghost use Rattle.std.specs.Prelude.{◌≡◌, ◌&&◌, ◌||◌, ◌++◌, ℕ, List, nat_eq, OnOk, IfOk, Some, flat_map};
ghost use Rattle.std.specs.Bool.{OnTrue};
ghost use Rattle.std.specs.Ordering.{is_lt};
ghost use Rattle.std.specs.List.{All, list_any};
ghost use Rattle.std.specs.List.Sorted.{IsStrictlySortedBy};
ghost use Rattle.ctl_index.specs.Names.{KeptNamer as KeyAndKept};
ghost use Rattle.ctl_store.specs.Entries.{Entry};
ghost use Rattle.ctl_query.specs.Leads.{lead_atom_cmp, is_listed, line_in, line_at, is_at, is_key_of, atom_in, key_at};
ghost use Rattle.ctl_query.specs.Inside.ListedAtoms.{places_in, listed_at, IsKeptIn, IsKept, IsKeptOf};
ghost use Rattle.ctl_query.specs.LeadTable.{lent_leads};
ghost use Rattle.ctl_query.specs.ShowPackage.{asker};

use crate::ahead::room_of_texts;
use crate::askers::{Asker, AskerTable};
use crate::lead_lines::append_naming_line;
use crate::lead_table::LeadTable;
use ctl_index::{KeptNamer, KeptNamers};
use ctl_relation::{Atom, FieldKind};
use ctl_stanza::Stanza;
use ctl_store::{StanzaKey, compare_keys};
use std::alloc::{AllocError, Global};

/// Where an atom of a lead stands: the place of its lead among all leads, its field, the place of its group in the field and its
/// own in the group, counted from 0. They stand in the order of these parts.
#[derive(Clone, Copy, Debug, PartialEq, Eq, PartialOrd, Ord)]
pub(crate) struct LeadAtom {
    pub(crate) place: usize,
    pub(crate) field: FieldKind,
    pub(crate) group: u32,
    pub(crate) atom: u32,
}

/// An atom of a lead: where it stands, and what is kept of it beside its key.
#[derive(Drop)]
pub(crate) struct ListedAtom<'a> {
    pub(crate) at: LeadAtom,
    pub(crate) namer: KeptNamer<'a>,
}

// The atom that a key names, of the lead at a place.
fn listed_at<'a>(namer: KeptNamer<'a>, place: usize) -> ListedAtom<'a>
    ensures { result ≡ listed_at namer.entry place }
{
    let key = namer.key();
    ListedAtom {
        at: LeadAtom {
            place,
            field: key.field,
            group: key.group,
            atom: key.atom,
        },
        namer,
    }
}

/// Adds the atom that a key names, if the lead at a place has this key.
fn push_if<'a>(
    atoms: &mut Vec<ListedAtom<'a>>,
    place: usize,
    lead: &StanzaKey,
    namer: &KeptNamer<'a>,
) -> Result<(), AllocError>
    ensures members { OnOk result ((a : LeadAtom) → is_listed (places_in atoms.new.items) a
        ≡ ((nat_eq a.place place && is_key_of a namer.now.0 lead.now) || is_listed (places_in atoms.old.items) a)) }
    ensures kept { OnOk result ((leads : List Entry) (name : List ℕ) → key_at leads place ≡ Some lead.now
        → IsKeptOf leads name namer.now → All (IsKept leads name) atoms.old.items → All (IsKept leads name) atoms.new.items) }
{
    if compare_keys(lead, &namer.key().stanza).is_eq() {
        atoms.push(listed_at(namer.copied(), place))?;
    }
    Ok(())
}

/// Adds the atom that a key names, of each lead that has its key. They are gone through one by one.
fn push_each<'a>(
    atoms: &mut Vec<ListedAtom<'a>>,
    leads: &[(StanzaKey, &Stanza)],
    namer: &KeptNamer<'a>,
) -> Result<(), AllocError>
    ensures members { OnOk result ((a : LeadAtom) → is_listed (places_in atoms.new.items) a
        ≡ (is_at (lent_leads leads.now) namer.now.0 a || is_listed (places_in atoms.old.items) a)) }
    ensures kept { OnOk result ((name : List ℕ) → IsKeptOf (lent_leads leads.now) name namer.now
        → All (IsKept (lent_leads leads.now) name) atoms.old.items → All (IsKept (lent_leads leads.now) name) atoms.new.items) }
{
    for place in 0..leads.len() {
        push_if(atoms, place, &leads[place].0, namer)?;
    }
    Ok(())
}

/// Adds the atom that a key names, if its stanza is a lead.
fn push_atom<'a>(
    atoms: &mut Vec<ListedAtom<'a>>,
    table: &LeadTable<'_>,
    namer: KeptNamer<'a>,
) -> Result<(), AllocError>
    ensures members { OnOk result ((a : LeadAtom) → is_listed (places_in atoms.new.items) a
        ≡ (is_at table.now namer.entry.0 a || is_listed (places_in atoms.old.items) a)) }
    ensures kept { OnOk result ((name : List ℕ) → IsKeptOf table.now name namer.entry
        → All (IsKept table.now name) atoms.old.items → All (IsKept table.now name) atoms.new.items) }
{
    match table.place(namer.key().stanza) {
        Some(Some(place)) => {
            atoms.push(listed_at(namer, place))?;
            Ok(())
        }
        Some(None) => Ok(()),
        None => push_each(atoms, table.leads(), &namer),
    }
}

/// Whether an atom stands before another one.
fn is_before(atom: &ListedAtom<'_>, other: &ListedAtom<'_>) -> bool
    ensures { result ≡ is_lt (lead_atom_cmp atom.now.at other.now.at) }
{
    atom.at.cmp(&other.at).is_lt()
}

/// Whether atoms stand in order, each once.
fn are_in_order(atoms: &[ListedAtom<'_>]) -> bool
    ensures { OnTrue result (IsStrictlySortedBy lead_atom_cmp (places_in atoms.now)) }
{
    for i in 1..atoms.len() {
        if !is_before(&atoms[i - 1], &atoms[i]) {
            return false;
        }
    }
    true
}

/// Sorts atoms, and leaves each once.
fn sort(atoms: &mut Vec<ListedAtom<'_>>)
    ensures order { IsStrictlySortedBy lead_atom_cmp (places_in atoms.new.items) }
    ensures members { (a : LeadAtom) → is_listed (places_in atoms.new.items) a ≡ is_listed (places_in atoms.old.items) a }
    ensures kept { (leads : List Entry) (name : List ℕ) → All (IsKept leads name) atoms.old.items
        → All (IsKept leads name) atoms.new.items }
{
    atoms.sort_unstable_by_key(|listed| listed.at);
    atoms.dedup_by(|a, b| a.at == b.at);
}

/// Puts atoms in order, each once. Where the stanzas of a list stand in the order of their names, they are so as they come.
fn put_in_order(atoms: &mut Vec<ListedAtom<'_>>)
    ensures order { IsStrictlySortedBy lead_atom_cmp (places_in atoms.new.items) }
    ensures members { (a : LeadAtom) → is_listed (places_in atoms.new.items) a ≡ is_listed (places_in atoms.old.items) a }
    ensures kept { (leads : List Entry) (name : List ℕ) → All (IsKept leads name) atoms.old.items
        → All (IsKept leads name) atoms.new.items }
{
    if !are_in_order(atoms) {
        sort(atoms);
    }
}

/// The atoms of leads that name what these keys name, in order, each once.
pub(crate) fn list_atoms<'a>(
    alloc: Global,
    table: &LeadTable<'_>,
    namers: KeptNamers<'a>,
) -> Result<Vec<ListedAtom<'a>>, AllocError>
    ensures order { IfOk result (λ atoms. IsStrictlySortedBy lead_atom_cmp (places_in atoms.items)) }
    ensures members { IfOk result (λ atoms. (a : LeadAtom) → is_listed (places_in atoms.items) a
        ≡ list_any (λ (n : KeyAndKept). is_at table.now n.0 a) namers.entry) }
    ensures kept { IfOk result (λ atoms. (name : List ℕ) → All (IsKeptOf table.now name) namers.entry
        → All (IsKept table.now name) atoms.items) }
{
    let mut atoms = Vec::new(alloc);
    'namers: for namer in namers {
        push_atom(&mut atoms, table, namer)?;
    }
    put_in_order(&mut atoms);
    Ok(atoms)
}

/// The atom of a lead, if it is there, read in its field.
fn atom_in(lead: &Stanza, atom: LeadAtom) -> Option<Atom<'_>>
    ensures { result ≡ atom_in atom lead.now }
{
    let group = lead.groups(atom.field).get(atom.group as usize)?;
    group.get(atom.atom as usize)
}

/// Appends the line of an atom of a lead, which is read in its field.
#[tactic(auto, using(crate::proofs::KeptLemmas::named_line))]
fn append_read(
    from: &Asker<'_>,
    name: &[u8],
    listed: &ListedAtom<'_>,
    out: &mut Vec<u8>,
) -> Result<(), AllocError>
    requires kept { IsKeptIn from.now.lead.now name.now listed.now }
    requires text { from.now.text.now ≡ asker from.now.lead.now }
    ensures { OnOk result (out.new.items ≡ out.old.items ++ line_in name.now listed.now.at from.now.lead.now) }
{
    match atom_in(from.lead, listed.at) {
        Some(found) => append_naming_line(from.text, listed.at.field, &found, out),
        None => Ok(()),
    }
}

/// Appends the line of an atom of a lead. What is kept of it is not read again.
#[tactic(auto, using(crate::proofs::KeptLemmas::named_line))]
fn append_atom_of(
    from: &Asker<'_>,
    name: &[u8],
    listed: &ListedAtom<'_>,
    out: &mut Vec<u8>,
) -> Result<(), AllocError>
    requires kept { IsKeptIn from.now.lead.now name.now listed.now }
    requires text { from.now.text.now ≡ asker from.now.lead.now }
    ensures { OnOk result (out.new.items ≡ out.old.items ++ line_in name.now listed.now.at from.now.lead.now) }
{
    match listed.namer.atom(name) {
        Some(kept) => append_naming_line(from.text, listed.at.field, &kept, out),
        None => append_read(from, name, listed, out),
    }
}

/// Appends the line of an atom.
fn append_atom(
    table: &AskerTable<'_>,
    name: &[u8],
    listed: &ListedAtom<'_>,
    out: &mut Vec<u8>,
) -> Result<(), AllocError>
    requires { IsKept table.now name.now listed.now }
    ensures { OnOk result (out.new.items ≡ out.old.items ++ line_at table.now name.now listed.now.at) }
{
    match table.asker(listed.at.place) {
        Some(asker) => append_atom_of(&asker, name, listed, out),
        None => Ok(()),
    }
}

/// Appends the lines of atoms.
pub(crate) fn append_atoms(
    table: &AskerTable<'_>,
    name: &[u8],
    atoms: &[ListedAtom<'_>],
    out: &mut Vec<u8>,
) -> Result<(), AllocError>
    requires { All (IsKept table.now name.now) atoms.now }
    ensures { OnOk result (out.new.items ≡ out.old.items
        ++ flat_map (λ (listed : ListedAtom). line_at table.now name.now listed.at) atoms.now) }
{
    for at in 0..atoms.len() {
        out.reserve(room_of_texts(table, name, atoms, at))?;
        append_atom(table, name, &atoms[at], out)?;
    }
    Ok(())
}
