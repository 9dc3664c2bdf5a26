//! The candidate among the rows of a name.

ghost use Rattle.std.specs.Prelude.{◌≡◌, ◌∷◌, [], None, Some, option_copied};
ghost use Rattle.ctl_relation.specs.Version.{triple_of};
ghost use Rattle.ctl_store.specs.Keys.{AreHeld};
ghost use Rattle.ctl_store.specs.Store.{keyed_of};
ghost use Rattle.ctl_policy.specs.Priority.{world_of};
ghost use Rattle.ctl_policy.specs.Candidate.{best_named, is_upgrade, may_be_taken};
ghost use Rattle.ctl_policy.specs.Inside.HeldRows.{IsOrderedForm, form_shown, rows_of_map};
ghost use Rattle.ctl_policy.specs.Inside.HeldWalk.{AreHeldIn, IsHeldForm, considered, considered_alone, may_win, triple_if_any, wins};

use crate::by_version::ByVersion;
use crate::form::Form;
use crate::priority::{bound_of_rows, is_pinned, priority_where, row_priority};
use ctl_relation::Version;
use ctl_store::{StanzaKey, Store};
use std::slice;

/// A row that may be taken: its priority and its lead.
pub type Choice = (i16, Option<StanzaKey>);

fn is_upgrade(priority: i16, version: &Version, installed: Option<&Version>) -> bool
    ensures { result ≡ is_upgrade priority (triple_of version.now) (triple_if_any (option_copied installed.entry)) }
{
    match installed {
        None => true,
        Some(installed) => priority >= 1000 || version.cmp(installed).is_ge(),
    }
}

fn may_be_taken(priority: i16, version: &Version, installed: Option<&Version>) -> bool
    ensures { result ≡ may_be_taken priority (triple_of version.now) (triple_if_any (option_copied installed.entry)) }
{
    priority > 0 && is_upgrade(priority, version, installed)
}

// Whether a row of this priority is taken instead of a newer one: where its priority is greater.
fn wins(priority: i16, newer: Option<Choice>) -> bool
    ensures { result ≡ wins priority newer }
{
    match newer {
        Some(newer) => newer.0 < priority,
        None => true,
    }
}

// What is chosen, once a row was considered that is older than the one chosen so far. Its version is compared only where it
// would win.
fn considered(
    priority: i16,
    version: &Version,
    lead: Option<StanzaKey>,
    installed: Option<&Version>,
    newer: Option<Choice>,
) -> Option<Choice>
    ensures { result ≡ considered priority (triple_of version.now) lead (triple_if_any (option_copied installed.entry)) newer }
{
    if wins(priority, newer) && may_be_taken(priority, version, installed) {
        Some((priority, lead))
    } else {
        newer
    }
}

// Whether an older row may win, where none has a priority above this one, if it is known.
fn may_win(bound: Option<i16>, newer: Option<Choice>) -> bool
    ensures { result ≡ may_win bound newer }
{
    match bound {
        Some(bound) => wins(bound, newer),
        None => true,
    }
}

// The row to be taken of a map of rows of a name, where this version is installed. The newest comes first: where no older row
// has a greater priority, no other version is compared, and where none can have one, no other row is looked at.
#[tactic(auto, using(crate::proofs::ChosenLemmas::best_carried))]
fn best_in_map(
    store: &Store,
    name: &[u8],
    installed: Option<&Version>,
    rows: &ByVersion,
) -> Option<Choice>
    requires { AreHeldIn (keyed_of store.now).lists rows.now.entries }
    ensures { result ≡ best_named name.now (world_of store.now) (triple_if_any (option_copied installed.entry)) (rows_of_map rows.now) }
{
    let pinned = is_pinned(store, name);
    let bound = bound_of_rows(store, pinned, rows.len());
    let mut known = None;
    let mut choice = None;
    let mut left = rows.iter();
    'rows: while let Some((version, keys)) = left.next_back() {
        let priority = priority_where(store, name, keys, pinned, &mut known);
        choice = considered(priority, version, keys.first().copied(), installed, choice);
        if !may_win(bound, choice) {
            return choice;
        }
    }
    choice
}

// The row of one stanza, if it may be taken.
fn best_of_one(
    store: &Store,
    name: &[u8],
    installed: Option<&Version>,
    version: &Version,
    key: &StanzaKey,
) -> Option<Choice>
    requires { AreHeld (key.now ∷ []) (keyed_of store.now).lists }
    ensures { result ≡ considered_alone name.now (world_of store.now) version.now key.now (triple_if_any (option_copied installed.entry)) }
{
    let priority = row_priority(store, name, slice::from_ref(key));
    considered(priority, version, Some(*key), installed, None)
}

/// The row to be taken of a name, of which these are the rows, where this version is installed.
pub(crate) fn best(
    store: &Store,
    name: &[u8],
    installed: Option<&Version>,
    rows: &Form,
) -> Option<Choice>
    requires held { IsHeldForm (keyed_of store.now).lists rows.now }
    requires ordered { IsOrderedForm rows.now }
    ensures { result ≡ best_named name.now (world_of store.now) (triple_if_any (option_copied installed.entry)) (form_shown rows.now) }
{
    match rows {
        Form::Empty => None,
        Form::One(version, key) => best_of_one(store, name, installed, version, key),
        Form::Many(map) => best_in_map(store, name, installed, map),
    }
}
