//! The rows of a name, read from the stanzas of a store.

ghost use Rattle.std.specs.Prelude.{◌≡◌, ℕ, List, option_copied, IfOk, OnOk};
ghost use Rattle.std.specs.FinMap as fin;
ghost use Rattle.ctl_store.specs.Store.{keyed_of};
ghost use Rattle.ctl_policy.specs.Rows.{AreRowsOf, row_with, version_in};

use crate::rows::Rows;
use ctl_relation::Version;
use ctl_stanza::Stanza;
use ctl_store::{StanzaKey, Store};
use std::alloc::{AllocError, Global};

// The version of a stanza, if it is a live one of a name.
fn version_in<'a>(name: &[u8], stanza: &'a Stanza) -> Option<&'a Version>
    ensures { option_copied result ≡ version_in name.now stanza.now }
{
    if stanza.package() == name {
        stanza.version()
    } else {
        None
    }
}

// Puts the key of a stanza into the rows of a name, if it is a live one of it.
fn put_stanza(
    rows: &mut Rows,
    name: &[u8],
    key: StanzaKey,
    stanza: &Stanza,
) -> Result<(), AllocError>
    ensures { OnOk result ((v : List ℕ) → fin.get rows.new v ≡ row_with name.now key stanza.now rows.old v) }
{
    match version_in(name, stanza) {
        Some(version) => rows.put(version, key),
        None => Ok(()),
    }
}

/// The rows of a name, by a walk over all stanzas of a store.
pub fn read_rows(alloc: Global, store: &Store, name: &[u8]) -> Result<Rows, AllocError>
    ensures { IfOk result (λ rows. AreRowsOf rows name.now (keyed_of store.now).lists) }
{
    let mut rows = Rows::new(alloc);
    let mut left = store.entries();
    'entries: while let Some((key, stanza)) = left.next() {
        put_stanza(&mut rows, name, key, stanza)?;
    }
    Ok(rows)
}
