//! Edits that set again what stands.

ghost use Rattle.std.specs.Prelude.{◌≡◌, Some, option_copied};
ghost use Rattle.std.specs.FinMap as fin;
ghost use Rattle.std.specs.Map.{lookup};
ghost use Rattle.std.specs.Option.{option_eq};
ghost use Rattle.std.specs.Ordering.{int_eq};
ghost use Rattle.std.specs.Str.{bytes_eq};
ghost use Rattle.ctl_store.specs.Edits.{edit_of};
ghost use Rattle.ctl_store.specs.Store.{state_of};
ghost use Rattle.ctl_store.specs.Pins.{selector_eq};
ghost use Rattle.ctl_policy.specs.Touched.{sets_again};

use ctl_relation::Version;
use ctl_store::{Edit, PackagePins, Selector, Store};

// Whether two versions have one text, or neither is there.
fn have_same_text(one: Option<&Version>, other: Option<&Version>) -> bool
    ensures { result ≡ option_eq bytes_eq (option_copied one.entry) (option_copied other.entry) }
{
    match one {
        Some(one) => match other {
            Some(other) => one.text() == other.text(),
            None => false,
        },
        None => match other {
            Some(_) => false,
            None => true,
        },
    }
}

// Whether the mark of a package is of this version.
fn is_marked(store: &Store, name: &[u8], version: Option<&Version>) -> bool
    ensures { result ≡ option_eq (option_eq bytes_eq) (fin.get (state_of store.now).marks name.now) (Some (option_copied version.entry)) }
{
    match store.mark(name) {
        Some(mark) => have_same_text(mark, version),
        None => false,
    }
}

// The priority of a selector, if it is one of these settings.
fn priority_among(pins: PackagePins<'_>, selector: &Selector) -> Option<i16>
    ensures { result ≡ lookup (selector_eq selector.now) pins.entry }
{
    let mut left = pins;
    'pins: while let Some((other, priority)) = left.next() {
        if selector == other {
            return Some(priority);
        }
    }
    None
}

// The priority of a selector, if it is set. One of a package is sought among its pins.
#[tactic(auto, using(crate::proofs::AgainLemmas::own_version, crate::proofs::AgainLemmas::own_release, crate::proofs::AgainLemmas::general_lookup))]
fn pinned_priority(store: &Store, selector: &Selector) -> Option<i16>
    ensures { result ≡ lookup (selector_eq selector.now) (state_of store.now).pins }
{
    match selector {
        Selector::Version {
            package,
            version: _,
        } => priority_among(store.pins_of(package.as_slice()), selector),
        Selector::Release {
            package: None,
            list,
        } => store.general_pin(list.as_slice()),
        Selector::Release {
            package: Some(package),
            list: _,
        } => priority_among(store.pins_of(package.as_slice()), selector),
    }
}

// Whether a selector has this priority.
fn is_pinned(store: &Store, selector: &Selector, priority: i16) -> bool
    ensures { result ≡ option_eq int_eq (lookup (selector_eq selector.now) (state_of store.now).pins) (Some priority) }
{
    match pinned_priority(store, selector) {
        Some(there) => there == priority,
        None => false,
    }
}

// Whether a list is the target, or none where none is named.
fn is_target(store: &Store, name: Option<&[u8]>) -> bool
    ensures { result ≡ option_eq bytes_eq (state_of store.now).target (option_copied name.entry) }
{
    match store.target() {
        Some(target) => match name {
            Some(name) => target == name,
            None => false,
        },
        None => match name {
            Some(_) => false,
            None => true,
        },
    }
}

/// Whether an edit sets again what stands: the mark of a package with its text, a pin with its priority, the target. A mark, a
/// general pin and the target are found in the log of those that there are; a specific pin is sought among those of its package.
pub(crate) fn sets_again(store: &Store, edit: &Edit) -> bool
    ensures { result ≡ sets_again store.now (edit_of edit.now) }
{
    match edit {
        Edit::AddList { .. } => false,
        Edit::DropList { name: _ } => false,
        Edit::Put { list: _, stanza: _ } => false,
        Edit::Remove {
            list: _,
            package: _,
            version: _,
        } => false,
        Edit::Mark {
            package,
            version: Some(version),
        } => is_marked(store, package.as_slice(), Some(version)),
        Edit::Mark {
            package,
            version: None,
        } => is_marked(store, package.as_slice(), None),
        Edit::Unmark { package: _ } => false,
        Edit::Pin { setting } => is_pinned(store, &setting.selector, setting.priority),
        Edit::Unpin { selector: _ } => false,
        Edit::Target { name: Some(name) } => is_target(store, Some(name.as_slice())),
        Edit::Target { name: None } => is_target(store, None),
        Edit::Prefs { settings: _ } => false,
    }
}
