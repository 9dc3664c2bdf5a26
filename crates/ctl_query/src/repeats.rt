//! Atoms of a field that stand there again: their lines are those that were written.

ghost use Rattle.std.specs.Prelude.{◌≡◌, IfOk, IfSome, OnOk, true};
ghost use Rattle.std.specs.BTreeMap.{values};
ghost use Rattle.std.specs.List.{IsAmong};
ghost use Rattle.ctl_relation.specs.Lent.{lent, lent_bound};
ghost use Rattle.ctl_query.specs.Inside.Repeats.{KeepsOneMore};

use crate::relation_lines::mark;
use ctl_relation::{Atom, Operator};
use std::alloc::{AllocError, Global};
use std::collections::BTreeMap;

/// An atom whose lines were written, whether a further alternative follows it, and where in the text its lines begin and end.
#[derive(Drop)]
pub(crate) struct Written<'a> {
    pub(crate) further: bool,
    pub(crate) atom: Atom<'a>,
    pub(crate) start: usize,
    pub(crate) end: usize,
}

fn are_same_qualifiers(qualifier: Option<&[u8]>, other: Option<&[u8]>) -> bool
    ensures { result ≡ true → lent qualifier.entry ≡ lent other.entry }
{
    match (qualifier, other) {
        (None, None) => true,
        (Some(qualifier), Some(other)) => qualifier == other,
        _ => false,
    }
}

fn are_same_bounds(bound: Option<(Operator, &[u8])>, other: Option<(Operator, &[u8])>) -> bool
    ensures { result ≡ true → lent_bound bound.entry ≡ lent_bound other.entry }
{
    match (bound, other) {
        (None, None) => true,
        (Some(bound), Some(other)) => bound.0 == other.0 && bound.1 == other.1,
        _ => false,
    }
}

fn are_same_atoms(atom: &Atom<'_>, other: &Atom<'_>) -> bool
    ensures { result ≡ true → atom.now ≡ other.now }
{
    atom.name() == other.name()
        && are_same_qualifiers(atom.qualifier(), other.qualifier())
        && are_same_bounds(atom.bound(), other.bound())
}

/// Whether lines are those of an atom that a further alternative follows, or none.
fn are_lines_of(written: &Written<'_>, further: bool, atom: &Atom<'_>) -> bool
    ensures further { result ≡ true → written.now.further ≡ further }
    ensures atom { result ≡ true → written.now.atom ≡ atom.now }
{
    written.further == further && are_same_atoms(&written.atom, atom)
}

/// The printed form of an atom, behind its mark.
fn printed(alloc: Global, further: bool, atom: &Atom<'_>) -> Result<Vec<u8>, AllocError> {
    let mut text = Vec::new(alloc);
    text.extend_from_slice(mark(further))?;
    atom.append_to(&mut text)?;
    Ok(text)
}

/// Where the lines of an atom begin and end, if it is one of those that are kept under their printed forms.
pub(crate) fn lines_of(
    alloc: Global,
    kept: &BTreeMap<Vec<u8>, Written<'_>>,
    further: bool,
    atom: &Atom<'_>,
) -> Result<Option<(usize, usize)>, AllocError>
    ensures { IfOk result (λ lines. IfSome lines (λ place.
        IsAmong (values kept.now) (record { further = further; atom = atom.now; start = place.0; end = place.1 }))) }
{
    if kept.is_empty() {
        return Ok(None);
    }
    let text = printed(alloc, further, atom)?;
    match kept.get(&text) {
        Some(written) if are_lines_of(written, further, atom) => {
            Ok(Some((written.start, written.end)))
        }
        _ => Ok(None),
    }
}

/// Keeps an atom under its printed form.
pub(crate) fn keep<'a>(
    alloc: Global,
    kept: &mut BTreeMap<Vec<u8>, Written<'a>>,
    written: Written<'a>,
) -> Result<(), AllocError>
    ensures { OnOk result (KeepsOneMore kept.old kept.new written.entry) }
{
    let text = printed(alloc, written.further, &written.atom)?;
    kept.insert(text, written)?;
    Ok(())
}
