//! Groups of alternatives.

ghost use Rattle.std.specs.Prelude.{◌≡◌, ◌≤◌, ◌^◌, ◌++◌, ◌∷◌, length, OnOk, OnErr, take, vec_len, slice_get, slice_index};
ghost use Rattle.std.specs.List.{flat_map};
ghost use Rattle.ctl_relation.specs.Inside.HeldPlaces.{HasAtom, HaveAtoms, atom_held, atoms_held};
ghost use Rattle.ctl_relation.specs.Named.{group_names};
ghost use Rattle.ctl_relation.specs.Printed.{alternative_text, atom_text, group_text};

use crate::atom::Atom;
use crate::field_kind::FieldKind;
use crate::printed::printed_atom;
use crate::reading::{atom_at_place, is_named_at};
use std::alloc::AllocError;
use std::marker::Model;

/// Alternatives, of which one is to be met: seen as the list of its atoms, of which there is at least one. They are lent from
/// the text of the field.
#[derive(Drop)]
pub struct Group<'a> {
    kind: FieldKind,
    body: &'a [u8],
    // Where the first atom begins, and where the further ones do.
    first: u32,
    further: &'a [u32],
}

impl<'a> Model for Group<'a> {
    ghost use Rattle.std.specs.Prelude.{List, ◌≤◌, ◌^◌, ◌∷◌, length};
    ghost use Rattle.ctl_relation.specs.Parts.{AtomParts};
    ghost use Rattle.ctl_relation.specs.Inside.HeldPlaces.{HaveAtoms, atoms_held};

    ghost Value = { List AtomParts };

    ghost view = { λ g. atoms_held g.kind g.body.now (g.first ∷ g.further.now) };

    ghost invariant = { λ g. HaveAtoms g.kind g.body.now (g.first ∷ g.further.now) × (length g.further.now ≤ 2 ^ 32) };
}

// The place at an index, the first one before the others.
fn place_at(first: u32, further: &[u32], index: usize) -> u32
    requires { index ≤ length further.now }
    ensures { result ≡ slice_index (first ∷ further.now) index }
{
    if index == 0 {
        first
    } else {
        further[index - 1]
    }
}

/// Whether an atom at one of these places of a body has a name.
pub(crate) fn is_named_among(kind: FieldKind, body: &[u8], places: &[u32], name: &[u8]) -> bool
    requires { HaveAtoms kind body.now places.now }
    ensures { result ≡ group_names name.now (atoms_held kind body.now places.now) }
{
    for place in places {
        if is_named_at(kind, body, *place, name) {
            return true;
        }
    }
    false
}

impl<'a> Group<'a> {
    /// The group of the atoms at these places of a body.
    pub(crate) fn new(kind: FieldKind, body: &'a [u8], first: u32, further: &'a [u32]) -> Group<'a>
        requires first { HasAtom kind body.now first }
        requires further { HaveAtoms kind body.now further.now }
        requires few { length further.now ≤ 2 ^ 32 }
        ensures { result ≡ atoms_held kind body.now (first ∷ further.now) }
    {
        Group {
            kind,
            body,
            first,
            further,
        }
    }

    /// How many atoms there are.
    pub fn len(&self) -> usize
        ensures { result ≡ length self.now }
    {
        self.further.len() + 1
    }

    /// The atom at an index, if there is one.
    pub fn get(&self, index: usize) -> Option<Atom<'a>>
        ensures { result ≡ slice_get self.now index }
    {
        if index > self.further.len() {
            return None;
        }
        let place = place_at(self.first, self.further, index);
        Some(atom_at_place(self.kind, self.body, place))
    }

    /// The atoms, in the order of the field.
    pub fn atoms(&self) -> Atoms<'a>
        ensures { result ≡ self.now }
    {
        Atoms {
            kind: self.kind,
            body: self.body,
            first: Some(self.first),
            further: self.further,
        }
    }

    /// Whether an atom has a name. No more is read of atoms than their names.
    pub fn has_name(&self, name: &[u8]) -> bool
        ensures { result ≡ group_names name.now self.now }
    {
        is_named_at(self.kind, self.body, self.first, name)
            || is_named_among(self.kind, self.body, self.further, name)
    }

    /// Appends the printed form of the group to `out`: its atoms joined by ` | `. The only error is out of memory,
    /// after which `out` holds what it held.
    pub fn append_to(&self, out: &mut Vec<u8>) -> Result<(), AllocError>
        ensures ok { OnOk result (out.new.items ≡ out.old.items ++ group_text self.now) }
        ensures err { OnErr result (out.new.items ≡ out.old.items) }
    {
        let start = out.len();
        match self.append_parts(out) {
            Ok(()) => Ok(()),
            Err(error) => {
                out.truncate(start);
                Err(error)
            }
        }
    }

    // Where memory runs out, what stood in `out` stays at its front.
    fn append_parts(&self, out: &mut Vec<u8>) -> Result<(), AllocError>
        ensures ok { OnOk result (out.new.items ≡ out.old.items ++ group_text self.now) }
        ensures err { OnErr result (take (vec_len out.old) out.new.items ≡ out.old.items) }
    {
        append_atom(self.kind, self.body, self.first, out)?;
        append_others(self.kind, self.body, self.further, out)?;
        Ok(())
    }
}

// Appends the atom at a place of a body. Where memory runs out, what stood in `out` stays at its front.
fn append_atom(
    kind: FieldKind,
    body: &[u8],
    place: u32,
    out: &mut Vec<u8>,
) -> Result<(), AllocError>
    requires { HasAtom kind body.now place }
    ensures ok { OnOk result (out.new.items ≡ out.old.items ++ atom_text (atom_held kind body.now place)) }
    ensures err { OnErr result (take (vec_len out.old) out.new.items ≡ out.old.items) }
{
    let (_, text) = body.split_at(place as usize);
    match printed_atom(text) {
        Some(printed) => out.extend_from_slice(printed),
        None => atom_at_place(kind, body, place).append_to(out),
    }
}

// Appends the atoms at these places, each behind a bar. Where memory runs out, what stood in `out` stays at its front.
fn append_others(
    kind: FieldKind,
    body: &[u8],
    places: &[u32],
    out: &mut Vec<u8>,
) -> Result<(), AllocError>
    requires { HaveAtoms kind body.now places.now }
    ensures ok { OnOk result (out.new.items ≡ out.old.items
        ++ flat_map (λ place. alternative_text (atom_held kind body.now place)) places.now) }
    ensures err { OnErr result (take (vec_len out.old) out.new.items ≡ out.old.items) }
{
    for place in places {
        out.extend_from_slice(b" | ")?;
        append_atom(kind, body, *place, out)?;
    }
    Ok(())
}

/// The atoms of a group, by [`Group::atoms`]: those that were not yet given.
#[derive(Drop)]
pub struct Atoms<'a> {
    kind: FieldKind,
    body: &'a [u8],
    // Where the first atom begins, until it was given.
    first: Option<u32>,
    further: &'a [u32],
}

impl<'a> Model for Atoms<'a> {
    ghost use Rattle.std.specs.Prelude.{List, ◌≤◌, ◌^◌, length};
    ghost use Rattle.ctl_relation.specs.Parts.{AtomParts};
    ghost use Rattle.ctl_relation.specs.Inside.HeldPlaces.{HaveAtoms, atoms_held, places_left};

    ghost Value = { List AtomParts };

    ghost view = { λ it. atoms_held it.kind it.body.now (places_left it.first it.further.now) };

    ghost invariant = { λ it. HaveAtoms it.kind it.body.now (places_left it.first it.further.now) };
}

impl<'a> Iterator for Atoms<'a> {
    ghost use Rattle.std.specs.Prelude.{◌≡◌, length};
    ghost use Rattle.std.specs.Iterator.{YieldsFirstBy, item_count};

    type Item = Atom<'a>;

    ghost next_gives = { YieldsFirstBy (λ atom. atom) (λ rest. rest) };

    ghost remaining = { item_count (λ rest. rest) };

    fn next(&mut self) -> Option<Atom<'a>> {
        if let Some(first) = self.first {
            self.first = None;
            return Some(atom_at_place(self.kind, self.body, first));
        }
        let (place, further) = self.further.split_first()?;
        self.further = further;
        Some(atom_at_place(self.kind, self.body, *place))
    }
}
