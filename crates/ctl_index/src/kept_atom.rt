//! Atoms that are kept beside their keys.

ghost use Rattle.std.specs.Prelude.{◌≡◌, ◌≤◌, None, IfSome, length, option_map, take};
ghost use Rattle.ctl_relation.specs.Lent.{lent_bound};
ghost use Rattle.ctl_relation.specs.Version.{fault_of};
ghost use Rattle.ctl_index.specs.Names.{most_kept, kept_of, with_name};
ghost use Rattle.ctl_index.specs.Inside.KeptForm.{any_if, kept_with};

use ctl_relation::{Atom, Operator};
use std::marker::Model;

// How many bytes a version has at most that is kept.
const MOST_KEPT: usize = 8;

// The one qualifier that is kept.
const ANY: &[u8] = b"any";

// What is kept of a qualifier and of a bound.
#[derive(Drop)]
enum AtomForm {
    // There is neither.
    Without,
    // The qualifier is `any`, and there is no bound.
    Any,
    // An operator and a version, whose text are so many of the bytes behind the number, without a qualifier.
    Bound(Operator, u8, [u8; MOST_KEPT]),
    // The same with the qualifier `any`.
    AnyBound(Operator, u8, [u8; MOST_KEPT]),
    // The version is longer, or there is another qualifier.
    Elsewhere,
}

/// What is kept of an atom that names a name: its qualifier and its bound, and so all but the name. An atom with a version of more
/// than 8 bytes, or with another qualifier than `any`, stands in its stanza alone.
///
/// An offer that comes or goes is tested against each atom of its name, and `showpkg` tells of each. What is kept here need not be
/// fetched from the stanza of the atom, which takes more than half of the time of such a test.
#[derive(Drop)]
pub(crate) struct KeptAtom {
    form: AtomForm,
}

impl Model for KeptAtom {
    ghost use Rattle.std.specs.Prelude.{Option};
    ghost use Rattle.ctl_index.specs.Names.{AllButName};
    ghost use Rattle.ctl_index.specs.Inside.KeptForm.{form_held, IsHeld};

    ghost Value = { Option AllButName };

    ghost view = { λ a. form_held a.form };

    ghost invariant = { λ a. IsHeld a.form };
}

// The bytes of a short version, with others behind them.
fn places_of(version: &[u8]) -> [u8; MOST_KEPT]
    requires { length version.now ≤ most_kept }
    ensures { take (length version.now) result ≡ version.now }
{
    let mut places = [0; MOST_KEPT];
    let (front, _) = places.split_at_mut(version.len());
    front.copy_from_slice(version);
    places
}

// What is kept of an atom with the qualifier `any`, or with none, and with this bound.
fn kept_with(is_any: bool, bound: Option<(Operator, &[u8])>) -> KeptAtom
    requires { IfSome bound (λ bound. fault_of bound.1.now ≡ None) }
    ensures { result ≡ kept_with (any_if is_any) (lent_bound bound.entry) }
{
    let form = match bound {
        None if is_any => AtomForm::Any,
        None => AtomForm::Without,
        Some((_, version)) if version.len() > MOST_KEPT => AtomForm::Elsewhere,
        Some((operator, version)) => {
            let places = places_of(version);
            if is_any {
                AtomForm::AnyBound(operator, version.len() as u8, places)
            } else {
                AtomForm::Bound(operator, version.len() as u8, places)
            }
        }
    };
    KeptAtom { form }
}

impl KeptAtom {
    /// What is kept of an atom.
    pub(crate) fn of(atom: &Atom<'_>) -> KeptAtom
        ensures { result ≡ kept_of atom.now }
    {
        match atom.qualifier() {
            None => kept_with(false, atom.bound()),
            Some(qualifier) if qualifier == ANY => kept_with(true, atom.bound()),
            Some(_) => KeptAtom {
                form: AtomForm::Elsewhere,
            },
        }
    }

    /// The atom with this name, if it is kept.
    pub(crate) fn atom<'a>(&'a self, name: &'a [u8]) -> Option<Atom<'a>>
        ensures { result ≡ option_map (with_name name.now) self.now }
    {
        match &self.form {
            AtomForm::Without => Some(Atom::new(name, None, None)),
            AtomForm::Any => Some(Atom::new(name, Some(ANY), None)),
            AtomForm::Bound(operator, len, places) => {
                let version = &places[..*len as usize];
                Some(Atom::new(name, None, Some((*operator, version))))
            }
            AtomForm::AnyBound(operator, len, places) => {
                let version = &places[..*len as usize];
                Some(Atom::new(name, Some(ANY), Some((*operator, version))))
            }
            AtomForm::Elsewhere => None,
        }
    }
}
