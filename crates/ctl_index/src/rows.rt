//! The rows of names follow the stanzas that come and go.

ghost use Rattle.std.specs.Prelude.{◌≡◌, ℕ, List, [], ◌∷◌, OnOk};
ghost use Rattle.ctl_store.specs.Store.{Held, keyed_of};
ghost use Rattle.ctl_store.specs.Keys.{AreRising, all_keys};
ghost use Rattle.ctl_policy.specs.Rows.{AreRowsOf};
ghost use Rattle.ctl_index.specs.HeldCache.{standing};
ghost use Rattle.ctl_index.specs.Inside.TablesByName.{NameMap, offers_under, namers_under, rows_under, chosen_under};
ghost use Rattle.ctl_index.specs.Inside.TablesRows.{AreKept, AreRowsPut, AreRowsTaken};
ghost use Rattle.ctl_index.specs.Inside.TablesPending.{entries_seen};

use crate::name_table::NameTable;
use crate::pending_store::{PendingStore, stanza_at};
use ctl_policy::{rows_are_kept, rows_follow_stanzas};
use ctl_stanza::Stanza;
use ctl_store::StanzaKey;
use std::alloc::AllocError;

// The row of a stanza, where it is live.
fn put_row_of(key: StanzaKey, stanza: &Stanza, names: &mut NameTable) -> Result<(), AllocError>
    ensures rows { OnOk result (AreRowsPut ((key, stanza.now) ∷ []) (rows_under names.old.map) (rows_under names.new.map)) }
    ensures chosen { OnOk result (chosen_under names.new.map ≡ chosen_under names.old.map) }
    ensures offers { OnOk result (offers_under names.new.map ≡ offers_under names.old.map) }
    ensures namers { OnOk result (namers_under names.new.map ≡ namers_under names.old.map) }
{
    rows_follow_stanzas();
    match stanza.version() {
        Some(version) => names.put_row(stanza.package(), version, key),
        None => Ok(()),
    }
}

/// The row of the stanza under a key, if there is one.
pub(crate) fn put_row_at(
    pending: &PendingStore<'_>,
    key: StanzaKey,
    names: &mut NameTable,
) -> Result<(), AllocError>
    ensures rows { OnOk result (AreRowsPut (entries_seen pending.now (key ∷ [])) (rows_under names.old.map) (rows_under names.new.map)) }
    ensures chosen { OnOk result (chosen_under names.new.map ≡ chosen_under names.old.map) }
    ensures offers { OnOk result (offers_under names.new.map ≡ offers_under names.old.map) }
    ensures namers { OnOk result (namers_under names.new.map ≡ namers_under names.old.map) }
{
    match stanza_at(pending, key) {
        Some(stanza) => put_row_of(key, stanza, names),
        None => Ok(()),
    }
}

// The row of a stanza, where it is live.
fn take_row_of(key: StanzaKey, stanza: &Stanza, names: &mut NameTable)
    ensures rows { AreRowsTaken ((key, stanza.now) ∷ []) (rows_under names.old.map) (rows_under names.new.map) }
    ensures chosen { chosen_under names.new.map ≡ chosen_under names.old.map }
    ensures offers { offers_under names.new.map ≡ offers_under names.old.map }
    ensures namers { namers_under names.new.map ≡ namers_under names.old.map }
{
    rows_follow_stanzas();
    match stanza.version() {
        Some(version) => names.take_row(stanza.package(), version, key),
        None => {}
    }
}

// The row of the stanza under a key, if there is one.
fn take_row_at(pending: &PendingStore<'_>, key: StanzaKey, names: &mut NameTable)
    ensures rows { AreRowsTaken (entries_seen pending.now (key ∷ [])) (rows_under names.old.map) (rows_under names.new.map) }
    ensures chosen { chosen_under names.new.map ≡ chosen_under names.old.map }
    ensures offers { offers_under names.new.map ≡ offers_under names.old.map }
    ensures namers { namers_under names.new.map ≡ namers_under names.old.map }
{
    match stanza_at(pending, key) {
        Some(stanza) => take_row_of(key, stanza, names),
        None => {}
    }
}

/// The keys of the live stanzas among these go from their rows. It takes no memory.
pub(crate) fn take_rows(pending: &PendingStore<'_>, keys: &[StanzaKey], names: &mut NameTable)
    ensures rows { AreRowsTaken (entries_seen pending.now keys.now) (rows_under names.old.map) (rows_under names.new.map) }
    ensures chosen { chosen_under names.new.map ≡ chosen_under names.old.map }
    ensures offers { offers_under names.new.map ≡ offers_under names.old.map }
    ensures namers { namers_under names.new.map ≡ namers_under names.old.map }
{
    // The last goes first: in its row no key of its list stands behind it, which would have to be moved.
    for place in (0..keys.len()).rev() {
        take_row_at(pending, keys[place], names);
    }
}

/// The rows that are kept of the stanzas of a store are those of the definition.
pub(crate) fn rows_are_defined()
    ensures { (h : Held) → (m : NameMap) → AreRising (all_keys (keyed_of h).lists) → AreKept (standing h) m
        → (name : List ℕ) → AreRowsOf (rows_under m name) name (keyed_of h).lists }
{
    rows_are_kept();
}
