//! The names that an edit of a store touches, before it is made.

ghost use Rattle.std.specs.Prelude.{◌≡◌, ℕ, List, ◌++◌, ◌∷◌, [], None, true, IfOk, OnOk, option_copied};
ghost use Rattle.ctl_store.specs.Keys.{stanza_at, coming, AreComing};
ghost use Rattle.ctl_store.specs.Store.{keyed_of};
ghost use Rattle.ctl_store.specs.Plans.{IsReady};
ghost use Rattle.ctl_policy.specs.Laws.{HoldsNone};
ghost use Rattle.ctl_policy.specs.Priority.{world_of};
ghost use Rattle.ctl_policy.specs.Touched.{is_one_of, SelectsNone, LeavePins, LeavesStanzas, IsOfOthers, TouchesAlone, packages_at, sets_again};
ghost use Rattle.ctl_policy.specs.Inside.TouchedNames.{HoldsOfOthers, TargetHoldsAlone, package_found, packages_in, target_packages, selected_package, pinned_packages, repinned_in};

use crate::again::sets_again;
use crate::priority::keeps_priority;
use ctl_relation::Bytes;
use ctl_stanza::Stanza;
use ctl_store::{Edit, PinSettings, Pins, Plan, Selector, StanzaKey, Store};
use std::alloc::{AllocError, Global};

// ---- names of stanzas

// The package of a stanza, if there is one, comes last.
fn push_package(
    alloc: Global,
    stanza: Option<&Stanza>,
    names: &mut Vec<Bytes>,
) -> Result<(), AllocError>
    ensures { OnOk result (names.new.items ≡ names.old.items ++ package_found (option_copied stanza.entry)) }
{
    if let Some(stanza) = stanza {
        names.push(Bytes::from_slice(alloc, stanza.package())?)?;
    }
    Ok(())
}

// The packages of the stanzas under these keys come last.
fn push_packages(
    alloc: Global,
    store: &Store,
    keys: &[StanzaKey],
    names: &mut Vec<Bytes>,
) -> Result<(), AllocError>
    ensures { OnOk result (names.new.items ≡ names.old.items ++ packages_at keys.now (λ k. stanza_at k (keyed_of store.now).lists)) }
{
    let mut left = keys;
    'keys: while let Some((key, rest)) = left.split_first() {
        push_package(alloc, store.find(*key), names)?;
        left = rest;
    }
    Ok(())
}

// The packages of the stanzas that come under these keys come last.
fn push_coming(
    alloc: Global,
    plan: &Plan,
    keys: &[StanzaKey],
    names: &mut Vec<Bytes>,
) -> Result<(), AllocError>
    requires { AreComing keys.now plan.now.edit }
    ensures { OnOk result (names.new.items ≡ names.old.items ++ packages_at keys.now (coming plan.now.edit)) }
{
    let mut left = keys;
    'keys: while let Some((key, rest)) = left.split_first() {
        push_package(alloc, Some(plan.stanza(*key)), names)?;
        left = rest;
    }
    Ok(())
}

// The packages of the stanzas of a list come last.
fn push_list(
    alloc: Global,
    store: &Store,
    list: &[u8],
    names: &mut Vec<Bytes>,
) -> Result<(), AllocError>
    ensures { OnOk result (names.new.items ≡ names.old.items ++ packages_in list.now (keyed_of store.now).lists) }
{
    let mut left = store.stanzas(list);
    'keys: while let Some(key) = left.next() {
        push_package(alloc, store.find(key), names)?;
    }
    Ok(())
}

// ---- names of edits

fn one_name(alloc: Global, name: &[u8]) -> Result<Vec<Bytes>, AllocError>
    ensures { IfOk result (λ names. names.items ≡ name.now ∷ []) }
{
    let mut names = Vec::with_capacity(alloc, 1)?;
    names.push(Bytes::from_slice(alloc, name)?)?;
    Ok(names)
}

// The packages of the stanzas of a list.
fn list_names(alloc: Global, store: &Store, list: &[u8]) -> Result<Vec<Bytes>, AllocError>
    ensures { IfOk result (λ names. HoldsOfOthers names.items (λ name. HoldsNone list.now name (keyed_of store.now).lists)) }
{
    // No list stands twice.
    let _lists = store.lists();
    let mut names = Vec::new(alloc);
    push_list(alloc, store, list, &mut names)?;
    Ok(names)
}

// The names that a pin of this selector touches.
fn selected_names(
    alloc: Global,
    store: &Store,
    selector: &Selector,
) -> Result<Vec<Bytes>, AllocError>
    ensures { IfOk result (λ names. HoldsOfOthers names.items (λ name. SelectsNone selector.now name (keyed_of store.now).lists)) }
{
    match selector {
        Selector::Version {
            package,
            version: _,
        } => one_name(alloc, package.as_slice()),
        Selector::Release {
            package: None,
            list,
        } => list_names(alloc, store, list.as_slice()),
        Selector::Release {
            package: Some(package),
            list: _,
        } => one_name(alloc, package.as_slice()),
    }
}

// The packages of the stanzas of a list, if one is named, come last.
fn push_target(
    alloc: Global,
    store: &Store,
    target: Option<&[u8]>,
    names: &mut Vec<Bytes>,
) -> Result<(), AllocError>
    ensures { OnOk result (names.new.items ≡ names.old.items ++ target_packages (option_copied target.entry) (keyed_of store.now).lists) }
{
    match target {
        Some(list) => push_list(alloc, store, list, names),
        None => Ok(()),
    }
}

// The names that another target touches.
fn target_names(
    alloc: Global,
    store: &Store,
    target: Option<&[u8]>,
) -> Result<Vec<Bytes>, AllocError>
    ensures old { IfOk result (λ names. TargetHoldsAlone names.items store.now.target (keyed_of store.now).lists) }
    ensures new { IfOk result (λ names. TargetHoldsAlone names.items (option_copied target.entry) (keyed_of store.now).lists) }
{
    // No list stands twice.
    let _lists = store.lists();
    let mut names = Vec::new(alloc);
    push_target(alloc, store, store.target(), &mut names)?;
    push_target(alloc, store, target, &mut names)?;
    Ok(names)
}

// The package of a selector, if it is of one, comes last.
fn push_selected(
    alloc: Global,
    selector: &Selector,
    names: &mut Vec<Bytes>,
) -> Result<(), AllocError>
    ensures { OnOk result (names.new.items ≡ names.old.items ++ selected_package selector.now) }
{
    let package = match selector {
        Selector::Version {
            package,
            version: _,
        } => package,
        Selector::Release {
            package: None,
            list: _,
        } => return Ok(()),
        Selector::Release {
            package: Some(package),
            list: _,
        } => package,
    };
    names.push(Bytes::from_slice(alloc, package.as_slice())?)?;
    Ok(())
}

// The packages of the specific pins among these come last.
fn push_pinned(alloc: Global, pins: Pins<'_>, names: &mut Vec<Bytes>) -> Result<(), AllocError>
    ensures { OnOk result (names.new.items ≡ names.old.items ++ pinned_packages pins.entry) }
{
    let mut left = pins;
    'pins: while let Some((selector, _)) = left.next() {
        push_selected(alloc, selector, names)?;
    }
    Ok(())
}

// The packages of the lists that have another priority by these settings come last.
fn push_repinned(
    alloc: Global,
    store: &Store,
    settings: &PinSettings,
    names: &mut Vec<Bytes>,
) -> Result<(), AllocError>
    ensures { OnOk result (names.new.items ≡ names.old.items ++ repinned_in settings.now.pins store.now) }
{
    let mut left = store.lists();
    'lists: while let Some((list, _, _)) = left.next() {
        if !keeps_priority(store, settings, list) {
            push_list(alloc, store, list, names)?;
        }
    }
    Ok(())
}

// The names that these preferences touch.
fn preferred_names(
    alloc: Global,
    store: &Store,
    settings: &PinSettings,
) -> Result<Vec<Bytes>, AllocError>
    ensures { IfOk result (λ names. HoldsOfOthers names.items (λ name. LeavePins settings.now.pins name (world_of store.now))) }
{
    // No list stands twice.
    let _lists = store.lists();
    let mut names = Vec::new(alloc);
    push_pinned(alloc, store.pins(), &mut names)?;
    push_pinned(alloc, settings.iter(), &mut names)?;
    push_repinned(alloc, store, settings, &mut names)?;
    Ok(names)
}

// The packages of the stanzas that go and come by a plan.
fn stanza_names(alloc: Global, store: &Store, plan: &Plan) -> Result<Vec<Bytes>, AllocError>
    requires { IsReady store.now plan.now }
    ensures { IfOk result (λ names. HoldsOfOthers names.items (λ name. LeavesStanzas name store.now plan.now.edit)) }
{
    let mut names = Vec::new(alloc);
    push_packages(alloc, store, plan.removed(), &mut names)?;
    push_coming(alloc, plan, plan.added(), &mut names)?;
    Ok(names)
}

// The names that the edit of a plan is of, by what the edit is.
fn names_of_edit(alloc: Global, store: &Store, plan: &Plan) -> Result<Vec<Bytes>, AllocError>
    requires { IsReady store.now plan.now }
    ensures { IfOk result (λ names. HoldsOfOthers names.items (λ name. IsOfOthers name store.now plan.now.edit)) }
{
    match plan.edit() {
        Edit::AddList { .. } => stanza_names(alloc, store, plan),
        Edit::DropList { name: _ } => stanza_names(alloc, store, plan),
        Edit::Put { list: _, stanza: _ } => stanza_names(alloc, store, plan),
        Edit::Remove {
            list: _,
            package: _,
            version: _,
        } => stanza_names(alloc, store, plan),
        Edit::Mark {
            package,
            version: _,
        } => one_name(alloc, package.as_slice()),
        Edit::Unmark { package } => one_name(alloc, package.as_slice()),
        Edit::Pin { setting } => selected_names(alloc, store, &setting.selector),
        Edit::Unpin { selector } => selected_names(alloc, store, selector),
        Edit::Target { name: Some(name) } => target_names(alloc, store, Some(name.as_slice())),
        Edit::Target { name: None } => target_names(alloc, store, None),
        Edit::Prefs { settings } => preferred_names(alloc, store, settings),
    }
}

// Puts names that come several times beside each other, which saves time alone. The packages of an archive's list are so already.
fn put_in_order(names: &mut Vec<Bytes>)
    ensures { (name : List ℕ) → is_one_of name names.new.items ≡ is_one_of name names.old.items }
{
    if names.is_sorted() {
        return;
    }
    names.sort_unstable();
}

/// The names that the edit of a plan touches, before the store makes it. A name may come several times. An edit of a stanza, a
/// mark or a specific pin has its one name; one of a list, and what changes the priority of a list, has the packages of its
/// stanzas. One that sets again what stands has none, and takes no memory.
///
/// # Errors
///
/// Out of memory.
pub fn touched_names(alloc: Global, store: &Store, plan: &Plan) -> Result<Vec<Bytes>, AllocError>
    requires { IsReady store.now plan.now }
    ensures touches { IfOk result (λ names. TouchesAlone names.items store.now plan.now.edit) }
    ensures none { IfOk result (λ names. sets_again store.now plan.now.edit ≡ true → names.items ≡ []) }
{
    if sets_again(store, plan.edit()) {
        return Ok(Vec::new(alloc));
    }
    let mut names = names_of_edit(alloc, store, plan)?;
    put_in_order(&mut names);
    Ok(names)
}
