//! What is chosen of a name.

ghost use Rattle.std.specs.Prelude.{◌≡◌, option_copied, option_map};
ghost use Rattle.ctl_relation.specs.Version.{triple_of};
ghost use Rattle.ctl_store.specs.Store.{keyed_of};
ghost use Rattle.ctl_policy.specs.Rows.{rows_named, AreRowsOf};
ghost use Rattle.ctl_policy.specs.Priority.{world_of};
ghost use Rattle.ctl_policy.specs.Candidate.{lead_of_choice};
ghost use Rattle.ctl_policy.specs.Chosen.{choice_in};
ghost use Rattle.ctl_policy.specs.Inside.HeldRows.{IsFormOf, IsOrderedForm, lead_in, version_in_form};
ghost use Rattle.ctl_policy.specs.Inside.HeldWalk.{IsHeldForm};

use crate::candidate::{Choice, best};
use crate::form::{Form, has_row, keys_in_form};
use crate::rows::Rows;
use crate::status::wanted_version;
use ctl_relation::Version;
use ctl_store::{StanzaKey, Store};

/// The installed row and the candidate of a name, by their leads.
#[derive(Clone, Copy, Debug, PartialEq, Eq)]
pub struct Chosen {
    pub installed: Option<StanzaKey>,
    pub candidate: Option<StanzaKey>,
}

// The lead of a version.
fn lead_of(rows: &Form, wanted: Option<&Version>) -> Option<StanzaKey>
    ensures { result ≡ lead_in rows.now (option_copied wanted.entry) }
{
    keys_in_form(rows, wanted?).first().copied()
}

fn lead_of_choice(choice: Option<Choice>) -> Option<StanzaKey>
    ensures { result ≡ lead_of_choice choice }
{
    choice?.1
}

// The version, where there is a row of it.
fn version_there<'a>(rows: &Form, wanted: Option<&'a Version>) -> Option<&'a Version>
    ensures { option_map triple_of (option_copied result) ≡ version_in_form rows.now (option_copied wanted.entry) }
{
    let version = wanted?;
    if has_row(rows, version) {
        Some(version)
    } else {
        None
    }
}

fn choose_in(store: &Store, name: &[u8], rows: &Form) -> Chosen
    requires ordered { IsOrderedForm rows.now }
    requires held { IsHeldForm (keyed_of store.now).lists rows.now }
    requires rows { IsFormOf rows.now (rows_named name.now (keyed_of store.now).lists) }
    ensures { result ≡ choice_in name.now (world_of store.now) }
{
    // The keys of stanzas rise.
    let _ = store.counts();
    let wanted = wanted_version(store, name, rows);
    let installed = version_there(rows, wanted);
    let best = best(store, name, installed, rows);
    Chosen {
        installed: lead_of(rows, wanted),
        candidate: lead_of_choice(best),
    }
}

/// What is chosen of a name, of which these are the rows. It takes no memory.
pub fn choose(store: &Store, name: &[u8], rows: &Rows) -> Chosen
    requires { AreRowsOf rows.now name.now (keyed_of store.now).lists }
    ensures { result ≡ choice_in name.now (world_of store.now) }
{
    choose_in(store, name, rows.form())
}
