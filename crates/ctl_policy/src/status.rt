//! The version that a name should have installed: that of its mark, or of the status list.

ghost use Rattle.std.specs.Prelude.{◌≡◌, IfSome, IsSome, None, option_copied};
ghost use Rattle.ctl_store.specs.Keys.{AreHeld, AreRising, all_keys, stanza_at};
ghost use Rattle.ctl_store.specs.Store.{keyed_of};
ghost use Rattle.ctl_policy.specs.Rows.{rows_named};
ghost use Rattle.ctl_policy.specs.Priority.{world_of};
ghost use Rattle.ctl_policy.specs.Candidate.{status_version, wanted_version};
ghost use Rattle.ctl_policy.specs.Inside.HeldRows.{IsFormOf, IsOrderedForm};
ghost use Rattle.ctl_policy.specs.Inside.HeldWalk.{AreHeldIn, IsHeldForm, is_status_key, first_status, lower, lowest_status, status_key};
ghost use Rattle.ctl_policy.specs.Inside.KnownLists.{IsKnownStatus};

use crate::by_version::ByVersion;
use crate::form::Form;
use ctl_relation::Version;
use ctl_stanza::ListKind;
use ctl_store::{StanzaKey, Store};
use std::slice;

// A list, by the serial that its keys have, and whether it is the status list. Stanzas of one list mostly follow each other
// where rows are walked.
#[derive(Clone, Copy)]
struct KnownStatus {
    list: u32,
    is_status: bool,
}

// The list that holds a stanza, and whether it is the status list.
fn known_of(store: &Store, key: StanzaKey) -> KnownStatus
    requires { IsSome (stanza_at key (keyed_of store.now).lists) }
    ensures known { IsKnownStatus result (keyed_of store.now).lists }
    ensures status { result.is_status ≡ is_status_key (keyed_of store.now).lists key }
{
    KnownStatus {
        list: key.list,
        is_status: match store.kind_of(key) {
            ListKind::Status => true,
            ListKind::Packages => false,
        },
    }
}

// Whether a stanza stands in the status list: as is known of its list, if that is the one that is known. Else it is asked,
// and the list is known then.
fn is_status_key(store: &Store, known: &mut Option<KnownStatus>, key: StanzaKey) -> bool
    requires held { IsSome (stanza_at key (keyed_of store.now).lists) }
    requires known { IfSome known.old (λ one. IsKnownStatus one (keyed_of store.now).lists) }
    ensures status { result ≡ is_status_key (keyed_of store.now).lists key }
    ensures known { IfSome known.new (λ one. IsKnownStatus one (keyed_of store.now).lists) }
{
    if let Some(one) = *known {
        if one.list == key.list {
            return one.is_status;
        }
    }
    let found = known_of(store, key);
    *known = Some(found);
    found.is_status
}

// The first of these stanzas that stands in the status list.
fn first_status(
    store: &Store,
    known: &mut Option<KnownStatus>,
    keys: &[StanzaKey],
) -> Option<StanzaKey>
    requires held { AreHeld keys.now (keyed_of store.now).lists }
    requires known { IfSome known.old (λ one. IsKnownStatus one (keyed_of store.now).lists) }
    ensures first { result ≡ first_status (keyed_of store.now).lists keys.now }
    ensures known { IfSome known.new (λ one. IsKnownStatus one (keyed_of store.now).lists) }
{
    let mut left = keys;
    'keys: while let Some((key, rest)) = left.split_first() {
        if is_status_key(store, known, *key) {
            return Some(*key);
        }
        left = rest;
    }
    None
}

fn lower(one: Option<StanzaKey>, other: Option<StanzaKey>) -> Option<StanzaKey>
    ensures { result ≡ lower one other }
{
    match one {
        Some(key) => match other {
            Some(other) => { if other < key { Some(other) } else { Some(key) } }
            None => Some(key),
        },
        None => other,
    }
}

// The first stanza of these rows that stands in the status list, where there is one.
fn lowest_status(store: &Store, rows: &ByVersion) -> Option<StanzaKey>
    requires { AreHeldIn (keyed_of store.now).lists rows.now.entries }
    ensures { result ≡ lowest_status (keyed_of store.now).lists None rows.now.entries }
{
    let mut known = None;
    let mut lowest = None;
    let mut left = rows.iter();
    'rows: while let Some((_, keys)) = left.next() {
        lowest = lower(lowest, first_status(store, &mut known, keys));
    }
    lowest
}

// The first stanza of these rows that stands in the status list. Without such a list no row is looked at.
#[tactic(auto, using(crate::proofs::StatusLemmas::no_status_key))]
fn status_key(store: &Store, rows: &Form) -> Option<StanzaKey>
    requires { IsHeldForm (keyed_of store.now).lists rows.now }
    ensures { result ≡ status_key (keyed_of store.now).lists rows.now }
{
    if !store.has_status() {
        // The stanzas of each list are of its kind.
        let _ = store.lists();
        return None;
    }
    match rows {
        Form::Empty => None,
        Form::One(_, key) => first_status(store, &mut None, slice::from_ref(key)),
        Form::Many(map) => lowest_status(store, map),
    }
}

// The version that the status list has of a name, of which these are the rows.
fn status_version<'a>(store: &'a Store, name: &[u8], rows: &Form) -> Option<&'a Version>
    requires rising { AreRising (all_keys (keyed_of store.now).lists) }
    requires ordered { IsOrderedForm rows.now }
    requires held { IsHeldForm (keyed_of store.now).lists rows.now }
    requires rows { IsFormOf rows.now (rows_named name.now (keyed_of store.now).lists) }
    ensures { option_copied result ≡ status_version name.now (keyed_of store.now).lists }
{
    match status_key(store, rows) {
        Some(key) => match store.find(key) {
            Some(stanza) => stanza.version(),
            None => None,
        },
        None => None,
    }
}

/// The version that a name should have installed: that of its mark, also none; without a mark that of the status list.
pub(crate) fn wanted_version<'a>(store: &'a Store, name: &[u8], rows: &Form) -> Option<&'a Version>
    requires rising { AreRising (all_keys (keyed_of store.now).lists) }
    requires ordered { IsOrderedForm rows.now }
    requires held { IsHeldForm (keyed_of store.now).lists rows.now }
    requires rows { IsFormOf rows.now (rows_named name.now (keyed_of store.now).lists) }
    ensures { option_copied result ≡ wanted_version name.now (world_of store.now) }
{
    match store.mark(name) {
        Some(mark) => mark,
        None => status_version(store, name, rows),
    }
}
