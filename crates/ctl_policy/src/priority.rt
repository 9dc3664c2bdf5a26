//! The priority of a list and of a row (apt_preferences(5)).

ghost use Rattle.std.specs.Prelude.{◌≡◌, ℕ, List, false, None, Some, IfSome, OnSome, option_copied};
ghost use Rattle.std.specs.Bool.{OnFalse};
ghost use Rattle.std.specs.Int.{int_max};
ghost use Rattle.ctl_store.specs.declared.stanza_key.StanzaKey.{StanzaKey};
ghost use Rattle.ctl_store.specs.Keys.{AreHeld};
ghost use Rattle.ctl_store.specs.Store.{keyed_of, state_of};
ghost use Rattle.ctl_store.specs.Pins.{general_pin};
ghost use Rattle.ctl_policy.specs.Rows.{lead_of, version_under, is_source};
ghost use Rattle.ctl_policy.specs.Inside.KnownLists.{IsKnownPriority};
ghost use Rattle.ctl_policy.specs.Inside.RowBound.{greatest_of_lists, priority_of_kind};
ghost use Rattle.ctl_policy.specs.Laws.{world_with};
ghost use Rattle.ctl_policy.specs.Inside.TouchedNames.{keeps_priority};
ghost use Rattle.ctl_policy.specs.Priority.{MatchesNoRow, PinsNoRow, Settings, world_of, own_priority, is_target, list_priority, matches_text, matches_row, specific_pin, greatest, greatest_with, source_priorities, row_priority};

use crate::known_priority::{KnownPriority, source_priority};
use ctl_relation::Version;
use ctl_stanza::ListKind;
use ctl_store::{ListClass, PackagePins, PinSettings, PinVersion, Selector, StanzaKey, Store};

fn own_priority(kind: ListKind, class: ListClass) -> i16
    ensures { result ≡ own_priority kind class }
{
    match kind {
        ListKind::Status => 100,
        ListKind::Packages => match class {
            ListClass::Plain => 500,
            ListClass::NotAutomatic => 1,
            ListClass::ButAutomatic => 100,
        },
    }
}

fn is_target(target: Option<&[u8]>, list: &[u8], kind: ListKind) -> bool
    ensures { result ≡ is_target (option_copied target.entry) list.now kind }
{
    match target {
        Some(target) => match kind {
            ListKind::Packages => target == list,
            ListKind::Status => false,
        },
        None => false,
    }
}

/// The priority of a list of this name, kind and class, where this is the priority of its general pin.
pub(crate) fn priority_of_kind(
    store: &Store,
    list: &[u8],
    kind: ListKind,
    class: ListClass,
    pin: Option<i16>,
) -> i16
    ensures { result ≡ priority_of_kind (state_of store.now).target list.now kind class pin }
{
    if is_target(store.target(), list, kind) {
        return 990;
    }
    match pin {
        Some(priority) => priority,
        None => own_priority(kind, class),
    }
}

// The priority of a list, if there is a list of this name, where this is the priority of its general pin.
fn priority_where_pinned(store: &Store, list: &[u8], pin: Option<i16>) -> Option<i16>
    ensures { (pins : Settings) → pin ≡ general_pin list.now pins → result ≡ list_priority list.now (world_with pins store.now) }
{
    let (kind, class) = store.list(list)?;
    Some(priority_of_kind(store, list, kind, class, pin))
}

/// The priority of a list, if there is a list of this name: 990 for the target release, else that of its general pin,
/// else its own.
pub fn list_priority(store: &Store, list: &[u8]) -> Option<i16>
    ensures { result ≡ list_priority list.now (world_of store.now) }
{
    priority_where_pinned(store, list, store.general_pin(list))
}

/// Whether a list has the priority that it has, once these settings take the place of all.
pub(crate) fn keeps_priority(store: &Store, settings: &PinSettings, list: &[u8]) -> bool
    ensures { result ≡ keeps_priority settings.now.pins (world_of store.now) list.now }
{
    let then = priority_where_pinned(store, list, settings.general(list));
    list_priority(store, list) == then
}

fn larger(one: i16, other: i16) -> i16
    ensures { result ≡ int_max one other }
{
    if other < one { one } else { other }
}

// The greatest priority of all lists, or 0 where that is greater.
fn greatest_of_lists(store: &Store) -> i16
    ensures { result ≡ greatest_of_lists store.now }
{
    let mut greatest = 0;
    let mut left = store.lists();
    'lists: while let Some((list, kind, class)) = left.next() {
        let pin = store.general_pin(list);
        greatest = larger(greatest, priority_of_kind(store, list, kind, class, pin));
    }
    greatest
}

// The greatest priority of the lists that hold these stanzas, beside one priority.
fn greatest_with(
    store: &Store,
    known: &mut Option<KnownPriority>,
    priority: i16,
    keys: &[StanzaKey],
) -> i16
    requires held { AreHeld keys.now (keyed_of store.now).lists }
    requires known { IfSome known.old (λ one. IsKnownPriority one (world_of store.now)) }
    ensures greatest { result ≡ greatest_with priority (source_priorities (world_of store.now) keys.now) }
    ensures known { IfSome known.new (λ one. IsKnownPriority one (world_of store.now)) }
{
    let mut greatest = priority;
    let mut left = keys;
    'keys: while let Some((key, rest)) = left.split_first() {
        greatest = larger(greatest, source_priority(store, known, *key));
        left = rest;
    }
    greatest
}

fn greatest(store: &Store, known: &mut Option<KnownPriority>, keys: &[StanzaKey]) -> i16
    requires held { AreHeld keys.now (keyed_of store.now).lists }
    requires known { IfSome known.old (λ one. IsKnownPriority one (world_of store.now)) }
    ensures greatest { result ≡ greatest (source_priorities (world_of store.now) keys.now) }
    ensures known { IfSome known.new (λ one. IsKnownPriority one (world_of store.now)) }
{
    match keys.split_first() {
        Some((key, rest)) => {
            let priority = source_priority(store, known, *key);
            greatest_with(store, known, priority, rest)
        }
        None => 0,
    }
}

/// Whether the list of a name is a source of a row, which has these stanzas.
pub fn is_source(store: &Store, list: &[u8], keys: &[StanzaKey]) -> bool
    requires { AreHeld keys.now (keyed_of store.now).lists }
    ensures { result ≡ is_source list.now (keyed_of store.now).lists keys.now }
{
    let mut left = keys;
    'keys: while let Some((key, rest)) = left.split_first() {
        if store.list_of(*key) == list {
            return true;
        }
        left = rest;
    }
    false
}

// The version of the lead of a row.
fn version_of<'a>(store: &'a Store, keys: &[StanzaKey]) -> Option<&'a Version>
    requires { AreHeld keys.now (keyed_of store.now).lists }
    ensures { option_copied result ≡ version_under (keyed_of store.now).lists (lead_of keys.now) }
{
    match keys.split_first() {
        Some((lead, _)) => store.stanza(*lead).version(),
        None => None,
    }
}

fn matches_text(wanted: &PinVersion, version: Option<&Version>) -> bool
    ensures { result ≡ matches_text wanted.now (option_copied version.entry) }
{
    match version {
        Some(version) => wanted.matches(version),
        None => false,
    }
}

fn matches_row(store: &Store, name: &[u8], keys: &[StanzaKey], selector: &Selector) -> bool
    requires { AreHeld keys.now (keyed_of store.now).lists }
    ensures { result ≡ matches_row name.now (keyed_of store.now).lists keys.now selector.now }
{
    match selector {
        Selector::Version { package, version } => {
            package.as_slice() == name && matches_text(version, version_of(store, keys))
        }
        Selector::Release {
            package: Some(package),
            list,
        } => { package.as_slice() == name && is_source(store, list.as_slice(), keys) }
        Selector::Release {
            package: None,
            list: _,
        } => false,
    }
}

// The priority of the first of these settings that is one of a name and matches a row of it.
fn first_match(store: &Store, name: &[u8], keys: &[StanzaKey], pins: PackagePins<'_>) -> Option<i16>
    requires { AreHeld keys.now (keyed_of store.now).lists }
    ensures { result ≡ specific_pin name.now (keyed_of store.now).lists keys.now pins.entry }
{
    let mut left = pins;
    'pins: while let Some((selector, priority)) = left.next() {
        if matches_row(store, name, keys, selector) {
            return Some(priority);
        }
    }
    None
}

/// The priority of the first specific pin that matches a row of a name, which has these stanzas, if there is one.
#[tactic(auto, using(crate::proofs::OwnLemmas::own_pins))]
pub fn specific_pin(store: &Store, name: &[u8], keys: &[StanzaKey]) -> Option<i16>
    requires { AreHeld keys.now (keyed_of store.now).lists }
    ensures { result ≡ specific_pin name.now (keyed_of store.now).lists keys.now (world_of store.now).pins }
{
    first_match(store, name, keys, store.pins_of(name))
}

// Whether a setting may match a row: one of a version, or of a list that is there.
fn may_match(store: &Store, selector: &Selector) -> bool
    ensures { OnFalse result (MatchesNoRow (keyed_of store.now).lists selector.now) }
{
    match selector {
        Selector::Version {
            package: _,
            version: _,
        } => true,
        Selector::Release {
            package: Some(_),
            list,
        } => is_there(store, list.as_slice()),
        Selector::Release {
            package: None,
            list: _,
        } => false,
    }
}

// Whether a list may be a source of a row: it is there.
#[tactic(auto, using(crate::proofs::AwayLemmas::no_source_away))]
fn is_there(store: &Store, list: &[u8]) -> bool
    ensures { OnFalse result ((keys : List StanzaKey) → is_source list.now (keyed_of store.now).lists keys ≡ false) }
{
    store.serial(list).is_some()
}

/// Whether a specific pin of a name may match a row of it. Pins of lists that aren't there match none.
#[tactic(auto, using(crate::proofs::OwnLemmas::own_pins))]
pub(crate) fn is_pinned(store: &Store, name: &[u8]) -> bool
    ensures { OnFalse result (PinsNoRow name.now (keyed_of store.now).lists (world_of store.now).pins) }
{
    may_match_any(store, store.pins_of(name))
}

fn may_match_any(store: &Store, pins: PackagePins<'_>) -> bool
    ensures { OnFalse result ((name : List ℕ) → PinsNoRow name (keyed_of store.now).lists pins.entry) }
{
    let mut left = pins;
    'pins: while let Some((selector, _)) = left.next() {
        if may_match(store, selector) {
            return true;
        }
    }
    false
}

/// The priority of a row of a name, where it is told whether a specific pin of the name may match one, and the priority of a list
/// may be known.
pub(crate) fn priority_where(
    store: &Store,
    name: &[u8],
    keys: &[StanzaKey],
    pinned: bool,
    known: &mut Option<KnownPriority>,
) -> i16
    requires held { AreHeld keys.now (keyed_of store.now).lists }
    requires none { pinned ≡ false → specific_pin name.now (keyed_of store.now).lists keys.now (world_of store.now).pins ≡ None }
    requires known { IfSome known.old (λ one. IsKnownPriority one (world_of store.now)) }
    ensures priority { result ≡ row_priority name.now (world_of store.now) keys.now }
    ensures known { IfSome known.new (λ one. IsKnownPriority one (world_of store.now)) }
{
    let pin = if pinned {
        specific_pin(store, name, keys)
    } else {
        None
    };
    match pin {
        Some(priority) => priority,
        None => greatest(store, known, keys),
    }
}

/// The priority of a row of a name, which has these stanzas: that of the first specific pin that matches it, else the
/// greatest of its sources.
pub fn row_priority(store: &Store, name: &[u8], keys: &[StanzaKey]) -> i16
    requires { AreHeld keys.now (keyed_of store.now).lists }
    ensures { result ≡ row_priority name.now (world_of store.now) keys.now }
{
    let mut known = None;
    priority_where(store, name, keys, true, &mut known)
}

/// The greatest priority of all lists, or 0 where that is greater: no row of a name has a greater one, if no specific pin of the
/// name matches a row. It is told where none may match, and where there are no more lists than so many rows: else it would take
/// longer to find it than to walk over the rows.
pub(crate) fn bound_of_rows(store: &Store, pinned: bool, rows: usize) -> Option<i16>
    ensures pinned { OnSome result (pinned ≡ false) }
    ensures bound { IfSome result (λ bound. bound ≡ greatest_of_lists store.now) }
{
    if pinned || store.lists().nth(rows).is_some() {
        None
    } else {
        Some(greatest_of_lists(store))
    }
}
