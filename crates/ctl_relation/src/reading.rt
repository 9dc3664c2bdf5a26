//! Reading relation fields from left to right.

ghost use Rattle.std.specs.Prelude.{◌≡◌, ◌≢◌, ◌≤◌, ◌<◌, ◌+◌, ◌^◌, [], true, None, length, nat_eq, is_ok, IfOk, IfErr, OnOk, IfSome};
ghost use Rattle.std.specs.List.{starts_with};
ghost use Rattle.ctl_relation.specs.declared.relation_fault.RelationFault.TheVariants as relation;
ghost use Rattle.ctl_relation.specs.Inside.HeldPlaces.{ArePlacesIn, HasAtom, IsEnd, ReadsField, ReadsGroup, atom_held, groups_kept, place_of};
ghost use Rattle.ctl_relation.specs.Lent.{lent_bound};
ghost use Rattle.ctl_relation.specs.Named.{atom_names};
ghost use Rattle.ctl_relation.specs.Reading.{Gives, GivesAlways, parenthesized_at, bound_at, atom_at, group_at, relations_of};
ghost use Rattle.ctl_relation.specs.Version.{fault_of};

use crate::atom::Atom;
use crate::field_kind::FieldKind;
use crate::operator::Operator;
use crate::places::Places;
use crate::relation_fault::RelationFault;
use crate::tokens::{
    behind_byte, close_of, held_name, held_version, name_of, operator_of, qualifier_of, version_of,
    without_whitespace,
};
use std::alloc::Global;

// The operator and the version behind an open parenthesis, and what follows the closing one.
#[tactic(auto, unfolding(crate::specs::Reading::parenthesized_at))]
fn parenthesized_of(
    kind: FieldKind,
    text: &[u8],
) -> Result<((Operator, &[u8]), &[u8]), RelationFault>
    ensures gives { GivesAlways (λ x. ((x.0.0, x.0.1.now), x.1.now)) result (parenthesized_at kind text.now) }
    ensures within { IfOk result (λ x. length x.1.now ≤ length text.now) }
    ensures version { IfOk result (λ x. fault_of x.0.1.now ≡ None) }
{
    let (operator, after) = operator_of(kind, without_whitespace(text))?;
    let (version, after) = version_of(without_whitespace(after))?;
    let after = close_of(without_whitespace(after))?;
    Ok(((operator, version), after))
}

// The bound at the front, if an open parenthesis begins one, and what follows it.
fn bound_of(
    kind: FieldKind,
    text: &[u8],
) -> Result<(Option<(Operator, &[u8])>, &[u8]), RelationFault>
    ensures gives { GivesAlways (λ x. (lent_bound x.0, x.1.now)) result (bound_at kind text.now) }
    ensures within { IfOk result (λ x. length x.1.now ≤ length text.now) }
    ensures version { IfOk result (λ x. IfSome x.0 (λ bound. fault_of bound.1.now ≡ None)) }
{
    match without_whitespace(text) {
        [b'(', behind @ ..] => {
            let (bound, after) = parenthesized_of(kind, behind)?;
            Ok((Some(bound), after))
        }
        _ => Ok((None, text)),
    }
}

// The atom at the front, and what follows it.
#[tactic(auto, unfolding(crate::specs::Reading::atom_at))]
fn atom_of(kind: FieldKind, text: &[u8]) -> Result<(Atom<'_>, &[u8]), RelationFault>
    ensures gives { GivesAlways (λ x. (x.0, x.1.now)) result (atom_at kind text.now) }
    ensures shorter { IfOk result (λ x. length x.1.now < length text.now) }
{
    let (name, after) = name_of(text)?;
    let (qualifier, after) = qualifier_of(after)?;
    let (bound, after) = bound_of(kind, after)?;
    Ok((Atom::new(name, qualifier, bound), after))
}

// The operator and the version behind an open parenthesis, where they stand there.
#[tactic(auto, unfolding(crate::specs::Reading::parenthesized_at))]
fn held_parenthesized(kind: FieldKind, text: &[u8]) -> (Operator, &[u8])
    requires { is_ok (parenthesized_at kind text.now) ≡ true }
    ensures gives { IfOk (parenthesized_at kind text.now) (λ x. x.0 ≡ (result.0, result.1.now)) }
    ensures version { fault_of result.1.now ≡ None }
{
    match operator_of(kind, without_whitespace(text)) {
        Ok((operator, after)) => (operator, held_version(without_whitespace(after))),
        Err(_) => unreachable!("an operator stands there"),
    }
}

// The bound at the front, if an open parenthesis begins one, where it has no fault.
fn held_bound(kind: FieldKind, text: &[u8]) -> Option<(Operator, &[u8])>
    requires { is_ok (bound_at kind text.now) ≡ true }
    ensures gives { IfOk (bound_at kind text.now) (λ x. x.0 ≡ lent_bound result) }
    ensures version { IfSome result (λ bound. fault_of bound.1.now ≡ None) }
{
    match without_whitespace(text) {
        [b'(', behind @ ..] => Some(held_parenthesized(kind, behind)),
        _ => None,
    }
}

/// The atom that begins at a place of a body. It was read before, so its name and its version aren't tested again.
#[tactic(auto, unfolding(crate::specs::Reading::atom_at))]
pub(crate) fn atom_at_place(kind: FieldKind, body: &[u8], place: u32) -> Atom<'_>
    requires { HasAtom kind body.now place }
    ensures { result ≡ atom_held kind body.now place }
{
    let (_, text) = body.split_at(place as usize);
    let (name, after) = held_name(text);
    match qualifier_of(after) {
        Ok((qualifier, after)) => Atom::new(name, qualifier, held_bound(kind, after)),
        Err(_) => unreachable!("an atom begins there"),
    }
}

// Whether a text begins with a name. Most names differ from it in their last byte, so that is looked at before the others.
fn begins_with(text: &[u8], name: &[u8]) -> bool
    ensures { result ≡ starts_with nat_eq text.now name.now }
{
    let last = name.len().saturating_sub(1);
    match (text.get(last), name.get(last)) {
        (Some(one), Some(other)) if *one != *other => false,
        _ => text.starts_with(name),
    }
}

/// Whether the atom that begins at a place of a body has a name. No more of it is read.
pub(crate) fn is_named_at(_kind: FieldKind, body: &[u8], place: u32, name: &[u8]) -> bool
    requires { HasAtom _kind body.now place }
    ensures { result ≡ atom_names name.now (atom_held _kind body.now place) }
{
    let (_, text) = body.split_at(place as usize);
    if !begins_with(text, name) {
        return false;
    }
    match name_of(text) {
        Ok((own, _)) => own == name,
        Err(_) => unreachable!("an atom begins there"),
    }
}

// Where the end of a body begins.
fn place_of(body: &[u8], text: &[u8]) -> u32
    requires ends { IsEnd body.now text.now }
    requires short { length body.now < 2 ^ 32 }
    ensures { result ≡ place_of body.now text.now }
{
    (body.len() - text.len()) as u32
}

// Reads the group at the front of the end of a body: adds where its further atoms begin, and tells what follows it.
fn read_group<'a>(
    kind: FieldKind,
    body: &'a [u8],
    text: &'a [u8],
    further: &mut Vec<u32>,
) -> Result<&'a [u8], RelationFault>
    requires ends { IsEnd body.now text.now }
    requires short { length body.now < 2 ^ 32 }
    ensures read { IfOk result (λ after. ReadsGroup kind body.now text.now further.old.items further.new.items after.now) }
    ensures bad { IfErr result (λ fault. fault ≢ relation.Memory → group_at (length text.now + 1) kind text.now ≡ Err fault) }
{
    let mut left = text;
    'atoms: loop {
        let (_, after) = atom_of(kind, left)?;
        let Some(behind) = behind_byte(without_whitespace(after), b'|') else {
            return Ok(after);
        };
        if !kind.has_alternatives() {
            return Err(RelationFault::Alternative);
        }
        left = without_whitespace(behind);
        further.push(place_of(body, left))?;
    }
}

/// Reads the groups of the body of a relation field of this kind from left to right: adds where each begins to `starts`, and
/// where the atoms behind the first one of a group begin to `further`. Both are empty before. The error is the first fault
/// from the left, or out of memory.
pub(crate) fn read_groups(
    kind: FieldKind,
    body: &[u8],
    starts: &mut Vec<u32>,
    further: &mut Vec<u32>,
) -> Result<(), RelationFault>
    requires short { length body.now < 2 ^ 32 }
    requires none { starts.old.items ≡ [] }
    requires none_further { further.old.items ≡ [] }
    ensures read { OnOk result (ReadsField kind body.now starts.new.items further.new.items) }
    ensures bad { IfErr result (λ fault. fault ≢ relation.Memory → relations_of kind body.now ≡ Err fault) }
{
    let mut left = body;
    'groups: loop {
        let text = without_whitespace(left);
        if let Some(behind) = behind_byte(text, b',') {
            left = behind;
            continue 'groups;
        }
        if text.is_empty() {
            return Ok(());
        }
        let after = read_group(kind, body, text, further)?;
        starts.push(place_of(body, text))?;
        let after = without_whitespace(after);
        let Some(behind) = behind_byte(after, b',') else {
            if after.is_empty() {
                return Ok(());
            }
            return Err(RelationFault::Name);
        };
        left = behind;
    }
}

// How many of the pieces between commas aren't blank: so many groups a field has.
fn piece_count(body: &[u8]) -> usize {
    body.split(|byte| *byte == b',')
        .filter(|piece| !without_whitespace(piece).is_empty())
        .count()
}

/// Reads the body of a relation field of this kind: where its atoms stand, or its first fault from the left. A body of 2^32
/// bytes or more counts as out of memory.
pub fn read_places(alloc: Global, body: &[u8], kind: FieldKind) -> Result<Places, RelationFault>
    ensures groups { Gives (λ places. groups_kept body.now places) result (relations_of kind body.now) }
    ensures held { IfOk result (ArePlacesIn body.now) }
    ensures kind { IfOk result (λ places. places.kind ≡ kind) }
{
    if body.len() > u32::MAX as usize {
        return Err(RelationFault::Memory);
    }
    let mut starts = Vec::with_capacity(alloc, piece_count(body))?;
    let mut further = Vec::new(alloc);
    read_groups(kind, body, &mut starts, &mut further)?;
    let places = Places::new(kind, starts, further)?;
    Ok(places)
}
