//! What stands under one name, lent by one look-up.

ghost use Rattle.std.specs.Prelude.{◌≡◌, false, map};
ghost use Rattle.std.specs.List.{AllByRecursion, list_any};
ghost use Rattle.std.specs.List.Sorted.{IsPermutation};
ghost use Rattle.std.specs.Str.{bytes_eq};
ghost use Rattle.ctl_store.specs.Keys.{AreHeld};
ghost use Rattle.ctl_store.specs.Store.{keyed_of, state_of};
ghost use Rattle.ctl_policy.specs.Chosen.{choice_in};
ghost use Rattle.ctl_policy.specs.Priority.{world_of};
ghost use Rattle.ctl_policy.specs.Rows.{rows_named, newest_first, keys_of_row};
ghost use Rattle.ctl_index.specs.HeldCache.{standing};
ghost use Rattle.ctl_index.specs.Names.{known_names, namers_named, kept_namers_named};
ghost use Rattle.ctl_index.specs.Offers.{offers_named};
ghost use Rattle.ctl_index.specs.Work.{stanzas_of_state};

use crate::cache::{Cache, KeptNamers, Namers, Offering};
use crate::named::Named;
use crate::rows::rows_are_defined;
use ctl_policy::{Chosen, NewestFirst, rows_are_held, rows_are_shown};
use std::marker::Model;

/// What stands under one name, by [`Cache::name_view`]: the name is looked up once for all of it.
#[derive(Drop)]
pub struct NameView<'a> {
    named: Option<&'a Named>,
}

impl<'a> Model for NameView<'a> {
    ghost use Rattle.std.specs.Prelude.{option_copied};
    ghost use Rattle.ctl_index.specs.Inside.NameView.{NameStanding, name_standing};

    ghost Value = { NameStanding };

    ghost view = { λ v. name_standing (option_copied v.named) };
}

impl<'a> NameView<'a> {
    /// Whether the name is known: one that is offered, or that an atom names.
    pub fn is_known(&self) -> bool
        ensures { result ≡ self.now.is_known }
    {
        self.named.is_some()
    }

    /// The rows of the name, newest first: the keys of the stanzas of each, in the order of all stanzas.
    pub fn rows(&self) -> NewestFirst<'a>
        ensures { result ≡ self.now.rows }
    {
        match self.named {
            Some(named) => named.own.rows.iter(),
            None => NewestFirst::none(),
        }
    }

    /// What is chosen of the name: the leads of the row that is installed and of the candidate.
    pub fn chosen(&self) -> Chosen
        ensures { result ≡ self.now.chosen }
    {
        match self.named {
            Some(named) => named.own.chosen.get(),
            None => Chosen {
                installed: None,
                candidate: None,
            },
        }
    }

    /// The keys of the stanzas that offer the name, in any order, as often as they do.
    pub fn offering(&self) -> Offering<'a>
        ensures { result ≡ self.now.offering }
    {
        match self.named {
            Some(named) => Offering::new(named.offers.as_slice()),
            None => Offering::new(&[]),
        }
    }

    /// The atoms of the eight fields that name the name, in any order.
    pub fn namers(&self) -> Namers<'a>
        ensures { result ≡ self.now.namers }
    {
        match self.named {
            Some(named) => Namers::new(named.namers.as_slice()),
            None => Namers::new(&[]),
        }
    }

    /// The same atoms, each with what is kept of it.
    pub fn kept_namers(&self) -> KeptNamers<'a>
        ensures { result ≡ self.now.kept_namers }
    {
        match self.named {
            Some(named) => KeptNamers::new(named.namers.as_slice()),
            None => KeptNamers::new(&[]),
        }
    }
}

impl Cache {
    /// What stands under a name. The name is looked up once.
    pub fn name_view(&self, name: &[u8]) -> NameView<'_>
        requires { self.now.stale ≡ false }
        ensures known { result.is_known ≡ list_any (bytes_eq name.now) (known_names (stanzas_of_state (state_of self.now.store))) }
        ensures rows { result.rows ≡ map keys_of_row (newest_first (rows_named name.now (keyed_of self.now.store).lists)) }
        ensures held { AllByRecursion (λ row. AreHeld row (keyed_of self.now.store).lists) result.rows }
        ensures offering { IsPermutation (map (λ offer. offer.0) (offers_named name.now (standing self.now.store))) result.offering }
        ensures namers { IsPermutation (namers_named name.now (standing self.now.store)) result.namers }
        ensures kept { IsPermutation (kept_namers_named name.now (standing self.now.store)) result.kept_namers }
        ensures chosen { result.chosen ≡ choice_in name.now (world_of self.now.store) }
    {
        rows_are_defined();
        rows_are_shown();
        rows_are_held();
        // That the keys rise is said here.
        let _counts = self.store.counts();
        NameView {
            named: self.tables.names.get(name),
        }
    }
}
