//! Relation fields: their groups and atoms, and which offers meet an atom.

use crate::calls::names::offer_of;
use crate::calls::versions::sign_of;
use crate::relations::fault_name;
use crate::said::Said;
use crate::words::Words;
use ctl_relation::{
    Atom, FieldKind, Group, Groups, Offer, Operator, Relations, Steps, is_field_name_byte,
    parse_relations, read_places,
};
use std::cmp::Ordering;

// Groups in their printed form, a line for each.
fn say_printed(groups: Groups<'_>, said: &mut Said) {
    for group in groups {
        said.group(&group);
        said.add(b"\n");
    }
}

// The groups of a field, or its fault.
fn say_read(words: &mut Words<'_, '_>, said: &mut Said) {
    let kind = words.field_kind();
    match parse_relations(words.alloc(), words.bytes(), kind) {
        Ok(relations) => say_printed(relations.groups(), said),
        Err(fault) => said.all(&[b"fault ", fault_name(fault)]),
    }
}

// The only atom of a field with one.
fn lone_atom<'a>(relations: &'a Relations<'_>) -> Option<Atom<'a>> {
    let groups = relations.groups();
    let group = groups.get(0)?;
    if groups.len() != 1 || group.len() != 1 {
        return None;
    }
    group.get(0)
}

fn say_word(word: &[u8], said: &mut Said) {
    said.all(&[b"[", word, b"]"]);
}

// The name, the qualifier, the operator and the version of an atom, each in brackets.
fn say_parts(atom: &Atom<'_>, said: &mut Said) {
    say_word(atom.name(), said);
    if let Some(qualifier) = atom.qualifier() {
        say_word(qualifier, said);
    }
    if let Some((operator, version)) = atom.bound() {
        say_word(operator.text(), said);
        say_word(version, said);
    }
}

// The name of a field, and behind it an atom in its printed form.
fn say_printed_atom(kind: FieldKind, atom: &Atom<'_>, said: &mut Said) {
    said.all(&[kind.printed_name(), b": "]);
    said.atom(atom);
}

// An atom that is made of the parts of another, in its printed form.
fn say_made(atom: &Atom<'_>, said: &mut Said) {
    said.atom(&Atom::new(atom.name(), atom.qualifier(), atom.bound()));
}

// Something of an atom of a field: its parts, its printed form behind the field's name, or that of an atom made of the parts.
fn say_of_atom(kind: FieldKind, what: &str, atom: &Atom<'_>, said: &mut Said) {
    match what {
        "parts" => say_parts(atom, said),
        "printed" => say_printed_atom(kind, atom, said),
        "made" => say_made(atom, said),
        _ => said.fail("a call of fields that is not known"),
    }
}

// Whether an offer meets the only atom of a field.
fn say_is_met(relations: &Relations<'_>, offer: &Offer, steps: &mut Steps, said: &mut Said) {
    match lone_atom(relations) {
        Some(atom) if atom.met_by(offer, steps) => said.add(b"met, "),
        Some(_) => said.add(b"not met, "),
        None => said.fail("a field that isn't one atom"),
    }
}

fn say_met_in(body: &[u8], offer: &Offer, steps: &mut Steps, said: &mut Said) {
    match parse_relations(said.alloc(), body, FieldKind::Depends) {
        Ok(relations) => say_is_met(&relations, offer, steps, said),
        Err(_) => said.fail("a field with a fault"),
    }
}

fn say_met_by(words: &mut Words<'_, '_>, steps: &mut Steps, said: &mut Said) {
    let body = words.bytes();
    if let Some(offer) = offer_of(words) {
        say_met_in(body, &offer, steps, said);
    }
}

// For each field and offer whether it meets the atom, and the count of tests.
fn say_met(words: &mut Words<'_, '_>, said: &mut Said) {
    let mut steps = Steps::new();
    for _ in 0..u64::MAX {
        if words.is_over() {
            break;
        }
        say_met_by(words, &mut steps, said);
    }
    said.number(b"", steps.count());
    said.add(b" tests");
}

fn say_atom_names(group: &Group<'_>, said: &mut Said) {
    for atom in group.atoms() {
        said.add(atom.name());
    }
}

// The names of the atoms, each group behind a semicolon.
fn say_names(groups: Groups<'_>, said: &mut Said) {
    for group in groups {
        said.add(b";");
        say_atom_names(&group, said);
    }
}

// How many groups there are by each call, and the names of their atoms.
fn say_groups(groups: Groups<'_>, said: &mut Said) {
    let (least, most) = groups.size_hint();
    said.number(b"", groups.len() as u128);
    said.add(if groups.is_empty() {
        b" groups, none"
    } else {
        b" groups, some"
    });
    said.number(b", from ", least as u128);
    said.number(b" to ", most.unwrap_or(0) as u128);
    say_names(groups, said);
}

// The names of the atoms by their numbers, up to the first that isn't there.
fn say_numbered_atoms(group: &Group<'_>, said: &mut Said) {
    for j in 0..group.len().saturating_add(1) {
        match group.get(j) {
            Some(atom) => said.add(atom.name()),
            None => said.add(b"."),
        }
    }
}

// The same of the groups.
fn say_numbered(groups: Groups<'_>, said: &mut Said) {
    for i in 0..groups.len().saturating_add(1) {
        match groups.get(i) {
            Some(group) => say_numbered_atoms(&group, said),
            None => said.add(b"!"),
        }
    }
}

fn say_truth(holds: bool, said: &mut Said) {
    said.add(if holds { b"+" } else { b"-" });
}

// Whether an atom of a field has a name, and then for each group whether one of its atoms has.
fn say_named(groups: Groups<'_>, name: &[u8], said: &mut Said) {
    say_truth(groups.have_name(name), said);
    for group in groups {
        say_truth(group.has_name(name), said);
    }
}

// Something of the only atom of a field.
fn say_atom(kind: FieldKind, what: &str, relations: &Relations<'_>, said: &mut Said) {
    match lone_atom(relations) {
        Some(atom) => say_of_atom(kind, what, &atom, said),
        None => said.fail("not one atom"),
    }
}

// Something of a field that is read.
fn say_of_field(
    kind: FieldKind,
    what: &str,
    relations: &Relations<'_>,
    words: &mut Words<'_, '_>,
    said: &mut Said,
) {
    match what {
        "groups" => say_groups(relations.groups(), said),
        "numbered" => say_numbered(relations.groups(), said),
        "named" => say_named(relations.groups(), words.bytes(), said),
        _ => say_atom(kind, what, relations, said),
    }
}

fn say_field(what: &str, words: &mut Words<'_, '_>, said: &mut Said) {
    let kind = words.field_kind();
    match parse_relations(words.alloc(), words.bytes(), kind) {
        Ok(relations) => say_of_field(kind, what, &relations, words, said),
        Err(_) => said.fail("a field with a fault"),
    }
}

// The field of places that are kept of a body, and the names of the atoms that stand at them.
fn say_places(words: &mut Words<'_, '_>, said: &mut Said) {
    let kind = words.field_kind();
    let body = words.bytes();
    match read_places(words.alloc(), body, kind) {
        Ok(places) => {
            said.add(places.kind().printed_name());
            say_names(places.groups(body), said);
        }
        Err(_) => said.fail("a field with a fault"),
    }
}

// Fields, with the key and the printed name of each, on a line.
fn say_fields(fields: &[FieldKind], said: &mut Said) {
    for field in fields {
        said.all(&[field.key(), b" ", field.printed_name(), b"\n"]);
    }
}

// The nine fields, with the place of each and whether it is wanted, on a line.
fn say_places_of_fields(said: &mut Said) {
    for field in FieldKind::nine() {
        said.add(field.key());
        said.number(b" ", field.place() as u128);
        said.add(if field.is_wanted() {
            b" wanted\n"
        } else {
            b"\n"
        });
    }
}

// Those of some bytes that may stand in the name of a field.
fn say_name_bytes(words: &mut Words<'_, '_>, said: &mut Said) {
    for byte in words.bytes() {
        if is_field_name_byte(*byte) {
            said.add(&[*byte]);
        }
    }
}

// The sign between two fields, or `?` where the calls that compare them don't agree.
fn sign(one: FieldKind, other: FieldKind) -> &'static [u8] {
    let order = one.cmp(&other);
    if (one == other) == (order == Ordering::Equal) {
        sign_of(order)
    } else {
        b"?"
    }
}

// The signs of each of the nine fields with all of them, those of each behind a space.
fn say_signs(said: &mut Said) {
    for one in FieldKind::nine() {
        said.add(b" ");
        for other in FieldKind::nine() {
            said.add(sign(*one, *other));
        }
    }
}

fn say_operators(said: &mut Said) {
    say_word(Operator::Earlier.text(), said);
    say_word(Operator::EarlierOrEqual.text(), said);
    say_word(Operator::Equal.text(), said);
    say_word(Operator::LaterOrEqual.text(), said);
    say_word(Operator::Later.text(), said);
}

// What is the same at each call, or something of a field.
fn say_constant(what: &str, words: &mut Words<'_, '_>, said: &mut Said) {
    match what {
        "nine" => say_fields(FieldKind::nine(), said),
        "eight" => say_fields(FieldKind::eight(), said),
        "four" => say_fields(FieldKind::four(), said),
        "signs" => say_signs(said),
        "wanted" => say_places_of_fields(said),
        "none" => say_groups(Groups::new(FieldKind::PreDepends, &[], &[], &[]), said),
        "operators" => say_operators(said),
        _ => say_field(what, words, said),
    }
}

/// What a call gives that is asked for by words:
///
/// - `read`, a field and its body: its groups, or its fault;
/// - `parts`, `printed` or `made`, a field and its body: of its only atom the parts, the printed form behind the field's name, and
///   that of an atom made of the parts;
/// - `met`, bodies of Depends with one atom, and behind each a name and a version or `-`: which are met, and how many tests it took;
/// - `groups` or `numbered`, a field and its body: how many groups there are, and their names; these by their numbers;
/// - `named`, a field, its body and a name: whether its atoms have it, and whether those of each group have;
/// - `places`, a field and its body: the field, and the names at its places;
/// - `nine`, `eight`, `four`, `signs`, `wanted`: these fields, how the nine are ordered, and which are wanted;
/// - `name-bytes`, some bytes: those that may stand in the name of a field;
/// - `none`: how many groups none are; `operators`: the texts of all.
pub fn say_call(words: &mut Words<'_, '_>, said: &mut Said) {
    match words.word() {
        "read" => say_read(words, said),
        "met" => say_met(words, said),
        "places" => say_places(words, said),
        "name-bytes" => say_name_bytes(words, said),
        what => say_constant(what, words, said),
    }
}
