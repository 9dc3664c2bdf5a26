//! Rows in a map.

ghost use Rattle.std.specs.Prelude.{◌≡◌, ◌∷◌, ◌<◌, length, ℕ, List, [], IfOk, OnErr, OnOk, Some};
ghost use Rattle.std.specs.Bool.{MatchBool};
ghost use Rattle.ctl_store.specs.Keys.{AreRising};
ghost use Rattle.ctl_policy.specs.Keys.{without_key};
ghost use Rattle.ctl_policy.specs.Inside.HeldRows.{AreRows, HasKeyLeft, form_with, form_without, row_in_map, row_less, with_row};

use crate::keys::{put_key, take_key};
use ctl_relation::Version;
use ctl_store::StanzaKey;
use std::alloc::{AllocError, Global};
use std::collections::BTreeMap;

/// For each version of a package the keys of the stanzas that have it. Equal versions are one.
pub type ByVersion = BTreeMap<Version, Vec<StanzaKey>>;

// One key alone.
fn alone(alloc: Global, key: StanzaKey) -> Result<Vec<StanzaKey>, AllocError>
    ensures { IfOk result (λ keys. keys.items ≡ key ∷ []) }
{
    let mut keys = Vec::with_capacity(alloc, 1)?;
    keys.push(key)?;
    Ok(keys)
}

/// Puts a key under its version.
pub(crate) fn put_version(
    alloc: Global,
    rows: &mut ByVersion,
    version: &Version,
    key: StanzaKey,
) -> Result<(), AllocError>
    requires { AreRows rows.old }
    ensures ok { OnOk result ((v : List ℕ) → row_in_map rows.new v ≡ form_with version.now key (row_in_map rows.old) v) }
    ensures err { OnErr result ((v : List ℕ) → row_in_map rows.new v ≡ row_in_map rows.old v) }
{
    match rows.get_mut(version) {
        Some(keys) => {
            put_key(keys, key)?;
            Ok(())
        }
        None => {
            let keys = alone(alloc, key)?;
            let version = version.try_clone(alloc)?;
            rows.insert(version, keys)?;
            Ok(())
        }
    }
}

// Takes a key out, and tells whether none is left.
fn take_and_tell(keys: &mut Vec<StanzaKey>, key: StanzaKey) -> bool
    requires { AreRising keys.old.items }
    ensures keys { keys.new.items ≡ without_key key keys.old.items }
    ensures left { MatchBool result (keys.new.items ≡ []) (0 < length keys.new.items) }
{
    take_key(keys, key);
    keys.is_empty()
}

// Takes a key out from under its version, and tells whether that leaves a row without keys.
fn take_and_leave(rows: &mut ByVersion, version: &Version, key: StanzaKey) -> bool
    requires { AreRows rows.old }
    ensures rows { (v : List ℕ) → row_in_map rows.new v ≡ with_row version.now (row_less version.now key rows.old) (row_in_map rows.old) v }
    ensures left { MatchBool result (row_less version.now key rows.old ≡ Some []) (HasKeyLeft (row_less version.now key rows.old)) }
{
    match rows.get_mut(version) {
        Some(keys) => take_and_tell(keys, key),
        None => false,
    }
}

/// Takes a key out from under its version. It takes no memory.
pub(crate) fn take_version(rows: &mut ByVersion, version: &Version, key: StanzaKey)
    requires { AreRows rows.old }
    ensures { (v : List ℕ) → row_in_map rows.new v ≡ form_without version.now key (row_in_map rows.old) v }
{
    if take_and_leave(rows, version, key) {
        rows.remove(version);
    }
}
