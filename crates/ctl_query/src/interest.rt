//! The packages that an answer on all packages has to look at: those that the cache's tables name.

ghost use Rattle.std.specs.Prelude.{◌≡◌, ◌||◌, ℕ, List, OnOk, IfOk, false};
ghost use Rattle.std.specs.Cmp.Lexicographic.{slice_cmp};
ghost use Rattle.std.specs.List.{list_any};
ghost use Rattle.std.specs.List.Sorted.{IsStrictlySortedBy};
ghost use Rattle.std.specs.Ordering.{nat_cmp};
ghost use Rattle.ctl_store.specs.Entries.{AreAt};
ghost use Rattle.ctl_store.specs.Store.{keyed_of};
ghost use Rattle.ctl_store.specs.Pins.{is_of};
ghost use Rattle.ctl_policy.specs.Priority.{world_of};
ghost use Rattle.ctl_index.specs.HeldCache.{standing};
ghost use Rattle.ctl_query.specs.Interest.{is_of_package, is_provider, names_it, has_unmet, is_pinned};
ghost use Rattle.ctl_query.specs.NameSet.{lent_names, is_among};

use crate::asking::Asking;
use crate::name_set::{in_order, push_name};
use ctl_index::Offering;
use ctl_store::{Selector, StanzaKey, Store};
use std::alloc::{AllocError, Global};

/// Each stanza of a cache is found by its key.
pub(crate) fn stanzas_are_found(asking: &Asking<'_>)
    ensures { AreAt (standing asking.now) (keyed_of asking.now).lists }
{
    let _entries = asking.store().entries();
}

/// Adds the package of the stanza of a key.
fn add_package<'a>(
    names: &mut Vec<&'a [u8]>,
    store: &'a Store,
    key: StanzaKey,
) -> Result<(), AllocError>
    ensures { OnOk result ((name : List ℕ) → is_among (lent_names names.new.items) name ≡ (is_of_package store.now name key
        || is_among (lent_names names.old.items) name)) }
{
    match store.find(key) {
        Some(stanza) => push_name(names, stanza.package()),
        None => Ok(()),
    }
}

/// Adds the package of the stanza of a key, if it has entries of Provides. Most have none, and offer their own name alone.
fn add_provider<'a>(
    names: &mut Vec<&'a [u8]>,
    store: &'a Store,
    key: StanzaKey,
) -> Result<(), AllocError>
    ensures { OnOk result ((name : List ℕ) → is_among (lent_names names.new.items) name ≡ (is_provider store.now name key
        || is_among (lent_names names.old.items) name)) }
{
    match store.find(key) {
        Some(stanza) if !stanza.provides().is_empty() => push_name(names, stanza.package()),
        _ => Ok(()),
    }
}

/// The packages of the stanzas with an atom that names a name, each once, in the order of their bytes.
pub(crate) fn packages_naming<'a>(
    asking: &Asking<'a>,
    name: &[u8],
) -> Result<Vec<&'a [u8]>, AllocError>
    ensures order { IfOk result (λ names. IsStrictlySortedBy (slice_cmp nat_cmp) (lent_names names.items)) }
    ensures members { IfOk result (λ names. (asker : List ℕ) → is_among (lent_names names.items) asker
        ≡ names_it asking.now name.now asker) }
{
    let store = asking.store();
    let mut names = Vec::new(asking.alloc());
    'namers: for key in asking.namers(name) {
        add_package(&mut names, store, key.stanza)?;
    }
    let names = in_order(asking.alloc(), names)?;
    Ok(names)
}

/// The packages of those of some stanzas that have entries of Provides, each once, in the order of their bytes.
pub(crate) fn packages_providing<'a>(
    alloc: Global,
    store: &'a Store,
    offering: Offering<'_>,
) -> Result<Vec<&'a [u8]>, AllocError>
    ensures order { IfOk result (λ names. IsStrictlySortedBy (slice_cmp nat_cmp) (lent_names names.items)) }
    ensures members { IfOk result (λ names. (asker : List ℕ) → is_among (lent_names names.items) asker
        ≡ list_any (is_provider store.now asker) offering.entry) }
{
    let mut names = Vec::new(alloc);
    'offering: for key in offering {
        add_provider(&mut names, store, key)?;
    }
    let names = in_order(alloc, names)?;
    Ok(names)
}

/// The packages of the stanzas with a clause that no offer meets, each once, in the order of their bytes.
pub(crate) fn packages_with_unmet<'a>(asking: &Asking<'a>) -> Result<Vec<&'a [u8]>, AllocError>
    ensures order { IfOk result (λ names. IsStrictlySortedBy (slice_cmp nat_cmp) (lent_names names.items)) }
    ensures members { IfOk result (λ names. (asker : List ℕ) → is_among (lent_names names.items) asker ≡ has_unmet asking.now asker) }
{
    let store = asking.store();
    let mut names = Vec::new(asking.alloc());
    'clauses: for key in asking.unmet_clauses() {
        add_package(&mut names, store, key.stanza)?;
    }
    let names = in_order(asking.alloc(), names)?;
    Ok(names)
}

/// Adds the package of a specific pin.
#[tactic(auto, using(crate::proofs::PinnedLemmas::same_either_way))]
fn add_pinned<'a>(names: &mut Vec<&'a [u8]>, selector: &'a Selector) -> Result<(), AllocError>
    ensures { OnOk result ((name : List ℕ) → is_among (lent_names names.new.items) name
        ≡ (is_of name selector.now || is_among (lent_names names.old.items) name)) }
{
    match selector {
        Selector::Version { package, .. } => push_name(names, package.as_slice()),
        Selector::Release {
            package: Some(package),
            ..
        } => push_name(names, package.as_slice()),
        Selector::Release { package: None, .. } => Ok(()),
    }
}

/// The packages that have a specific pin, each once, in the order of their bytes.
pub(crate) fn pinned_packages<'a>(
    alloc: Global,
    store: &'a Store,
) -> Result<Vec<&'a [u8]>, AllocError>
    ensures order { IfOk result (λ names. IsStrictlySortedBy (slice_cmp nat_cmp) (lent_names names.items)) }
    ensures members { IfOk result (λ names. (name : List ℕ) → is_among (lent_names names.items) name
        ≡ is_pinned (world_of store.now).pins name) }
{
    let mut names = Vec::new(alloc);
    'pins: for (selector, _) in store.pins() {
        add_pinned(&mut names, selector)?;
    }
    let names = in_order(alloc, names)?;
    Ok(names)
}
