//! What stands under one name.

ghost use Rattle.std.specs.Prelude.{◌≡◌, nat_eq, is_some, ◌||◌};
ghost use Rattle.std.specs.FinMap as fin;
ghost use Rattle.ctl_policy.specs.Chosen.{no_choice};
ghost use Rattle.ctl_index.specs.Inside.TablesByName.{is_bare, is_used, no_rows};
ghost use Rattle.ctl_index.specs.Inside.TablesViews.{has_own, has_rows};

use crate::kept_choice::KeptChoice;
use crate::key_list::KeyList;
use crate::keys::NamingAtom;
use crate::offer_list::OfferList;
use ctl_policy::Rows;
use std::alloc::Global;

/// The rows of a name, and which of them is installed and which the candidate.
#[derive(Drop)]
pub(crate) struct ChosenRows {
    pub(crate) rows: Rows,
    pub(crate) chosen: KeptChoice,
}

impl ChosenRows {
    /// These rows, of which nothing is chosen yet.
    pub(crate) fn of_rows(rows: Rows) -> ChosenRows
        ensures { result ≡ record { rows = rows; chosen = no_choice } }
    {
        ChosenRows {
            rows,
            chosen: KeptChoice::none(),
        }
    }

    /// No rows. They take no memory.
    pub(crate) fn none(alloc: Global) -> ChosenRows
        ensures { result ≡ no_rows }
    {
        ChosenRows::of_rows(Rows::new(alloc))
    }
}

/// The offers of a name, the atoms that name it, and its rows with what is chosen of them.
#[derive(Drop)]
pub(crate) struct Named {
    pub(crate) offers: OfferList,
    pub(crate) namers: KeyList<NamingAtom>,
    pub(crate) own: ChosenRows,
}

// Whether there is no row.
fn is_without(rows: &Rows) -> bool
    ensures { result ≡ nat_eq (fin.len rows.now) 0 }
{
    rows.is_empty()
}

// Whether a row is installed, or there is a candidate.
fn is_chosen(chosen: &KeptChoice) -> bool
    ensures { result ≡ (is_some chosen.now.installed || is_some chosen.now.candidate) }
{
    let chosen = chosen.get();
    chosen.installed.is_some() || chosen.candidate.is_some()
}

// Whether there is no row, and nothing is chosen either.
fn is_bare(own: &ChosenRows) -> bool
    ensures { result ≡ is_bare own.now }
{
    is_without(&own.rows) && !is_chosen(&own.chosen)
}

/// Whether anything stands under the name.
pub(crate) fn is_used(named: &Named) -> bool
    ensures { result ≡ is_used named.now }
{
    !(named.offers.is_empty() && named.namers.is_empty() && is_bare(&named.own))
}

/// Whether the name has a row.
pub(crate) fn has_rows(named: &Named) -> bool
    ensures { result ≡ has_rows named.now }
{
    !is_without(&named.own.rows)
}

/// Whether one of the offers is the package of its stanza, which is the first of what a stanza offers.
pub(crate) fn has_own(named: &Named) -> bool
    ensures { result ≡ has_own named.now }
{
    named.offers.as_slice().iter().any(|key| key.place == 0)
}
