//! Stanzas come, all at once.

ghost use Rattle.std.specs.Prelude.{◌≡◌, ◌≤◌, OnOk};
ghost use Rattle.ctl_index.specs.Inside.TablesHeld.{HasTested, TestsAtMost, chosen_in, offers_in};
ghost use Rattle.ctl_index.specs.Inside.TablesLoaded.{ComeApart, IsLoaded, tests_put_in};
ghost use Rattle.ctl_index.specs.Inside.TablesPending.{AreThere};

use crate::coming::{put_atoms, put_offers_and_rows};
use crate::pending_store::PendingStore;
use crate::tables::Tables;
use ctl_store::StanzaKey;
use std::alloc::AllocError;

/// The stanzas under these keys come. What then stands under a name is told by sums, whatever the order in which it is entered.
#[tactic(auto, using(crate::proofs::SeenLemmas::tests_come))]
pub(crate) fn put_list(
    pending: &PendingStore<'_>,
    keys: &[StanzaKey],
    tables: &mut Tables,
) -> Result<(), AllocError>
    requires { AreThere pending.now (offers_in tables.old) }
    ensures chosen { OnOk result (chosen_in tables.new ≡ chosen_in tables.old) }
    ensures tables { OnOk result (ComeApart pending.now keys.now → IsLoaded pending.now keys.now tables.old tables.new) }
    ensures steps { OnOk result (HasTested (tests_put_in pending.now keys.now tables.old) tables.old tables.new) }
    ensures most { TestsAtMost (tests_put_in pending.now keys.now tables.old) tables.old tables.new }
    ensures least { tables.old.steps ≤ tables.new.steps }
{
    put_offers_and_rows(pending, keys, tables)?;
    put_atoms(pending, keys, tables)?;
    Ok(())
}
