//! Names whose installed row and candidate are chosen anew.

ghost use Rattle.std.specs.Prelude.{◌≡◌, ℕ, List, [], Bool, true, Some, option_map};
ghost use Rattle.std.specs.BTreeMap.{get};
ghost use Rattle.std.specs.Cmp.Lexicographic.{slice_cmp};
ghost use Rattle.std.specs.Ordering.{nat_cmp};
ghost use Rattle.ctl_store.specs.Keys.{AreRising, all_keys};
ghost use Rattle.ctl_store.specs.Plans.{Planned};
ghost use Rattle.ctl_store.specs.Store.{Held, keyed_of};
ghost use Rattle.ctl_policy.specs.declared.chosen.Chosen.{Chosen};
ghost use Rattle.ctl_policy.specs.Chosen.{at_bytes, no_choice, AreChosen};
ghost use Rattle.ctl_policy.specs.Priority.{world_of};
ghost use Rattle.ctl_policy.specs.Rows.{AreRowsOf};
ghost use Rattle.ctl_policy.specs.Touched.{TouchesOnly};
ghost use Rattle.ctl_index.specs.HeldCache.{standing};
ghost use Rattle.ctl_index.specs.declared.named.Named.{Named as NamedHeld};
ghost use Rattle.ctl_index.specs.declared.tables.Tables.{Tables as TablesHeld};
ghost use Rattle.ctl_index.specs.Inside.TablesByName.{AreOffered, named_own};
ghost use Rattle.ctl_index.specs.Inside.TablesChosen.{AreRenewed, HasMade, are_asked, chosen_anew};
ghost use Rattle.ctl_index.specs.Inside.TablesHeld.{chosen_in};
ghost use Rattle.ctl_index.specs.Inside.TablesIndexed.{IsIndexed};

use crate::kept_choice::KeptChoice;
use crate::named::Named;
use crate::named_box::NamedBox;
use crate::rows::rows_are_defined;
use crate::short_name::ShortName;
use ctl_policy::{
    Rows, choose, names_with_rows_are_kept, plans_are_accepted, rows_are_shown,
    touched_names_are_enough, worlds_move,
};
use ctl_store::Store;
use std::collections::BTreeMap;

// Whether a name with these rows is asked for: one with a stanza of a list, or any.
fn are_asked(list: Option<u32>, rows: &Rows) -> bool
    ensures { result ≡ are_asked list rows.now }
{
    match list {
        Some(list) => rows.has_list(list),
        None => true,
    }
}

// Chooses anew for a name, if it is asked for.
fn choose_named(store: &Store, list: Option<u32>, name: &[u8], named: &mut Named)
    requires { AreRowsOf (named_own named.old).rows name.now (keyed_of store.now).lists }
    ensures { named.new ≡ chosen_anew store.now list name.now named.old }
{
    if are_asked(list, &named.own.rows) {
        named.own.chosen = KeptChoice::new(choose(store, name, &named.own.rows));
    }
}

// The same of a short name, of which it tells that it stays.
fn choose_boxed(store: &Store, list: Option<u32>, name: &ShortName, boxed: &mut NamedBox) -> bool
    requires { AreRowsOf (named_own boxed.old).rows name.now (keyed_of store.now).lists }
    ensures stays { result ≡ true }
    ensures named { boxed.new ≡ chosen_anew store.now list name.now boxed.old }
{
    if let Some(named) = boxed.get_mut() {
        choose_named(store, list, name.as_slice(), named);
    }
    true
}

// The same of a longer name.
fn choose_long_boxed(store: &Store, list: Option<u32>, name: &Vec<u8>, boxed: &mut NamedBox) -> bool
    requires { AreRowsOf (named_own boxed.old).rows name.now.items (keyed_of store.now).lists }
    ensures stays { result ≡ true }
    ensures named { boxed.new ≡ chosen_anew store.now list name.now.items boxed.old }
{
    if let Some(named) = boxed.get_mut() {
        choose_named(store, list, name.as_slice(), named);
    }
    true
}

/// Chooses anew for the short names that have a row with a stanza of a list, or for all. It takes no memory.
pub(crate) fn choose_short(
    store: &Store,
    list: Option<u32>,
    names: &mut BTreeMap<ShortName, NamedBox>,
)
    requires { (q : List ℕ) (v : NamedHeld) → get (slice_cmp nat_cmp) names.old q ≡ Some v
        → AreRowsOf (named_own v).rows q (keyed_of store.now).lists }
    ensures { (q : List ℕ) → get (slice_cmp nat_cmp) names.new q
        ≡ option_map (chosen_anew store.now list q) (get (slice_cmp nat_cmp) names.old q) }
{
    // That the keys rise is said here.
    let _len = names.len();
    names.retain(|name, boxed| choose_boxed(store, list, name, boxed));
}

/// The same for longer names.
pub(crate) fn choose_long(store: &Store, list: Option<u32>, names: &mut BTreeMap<Vec<u8>, NamedBox>)
    requires { (q : List ℕ) (v : NamedHeld) → at_bytes names.old q ≡ Some v
        → AreRowsOf (named_own v).rows q (keyed_of store.now).lists }
    ensures { (q : List ℕ) → at_bytes names.new q ≡ option_map (chosen_anew store.now list q) (at_bytes names.old q) }
{
    // That the keys rise is said here.
    let _len = names.len();
    names.retain(|name, boxed| choose_long_boxed(store, list, name, boxed));
}

/// Where the names that pass a test were chosen anew, those that an edit touches are among them, and the others stayed, all is
/// chosen as after the edit.
pub(crate) fn choices_follow_edits()
    ensures { (h : Held) → (plan : Planned) → (new : Held) → (touches : List ℕ → Bool) → (old : List ℕ → Chosen)
        → (chosen : List ℕ → Chosen) → HasMade h plan new → TouchesOnly touches h plan.edit → AreChosen old (world_of h)
        → AreRenewed touches (world_of new) old chosen → AreChosen chosen (world_of new) }
{
    plans_are_accepted();
    touched_names_are_enough();
    worlds_move();
}

/// Of an empty store nothing is chosen.
pub(crate) fn nothing_is_chosen()
    ensures { (h : Held) → (chosen : List ℕ → Chosen) → standing h ≡ [] → ((q : List ℕ) → chosen q ≡ no_choice)
        → AreChosen chosen (world_of h) }
{
    rows_are_shown();
    names_with_rows_are_kept();
}

/// In tables that hold the stanzas of a store, and in which is chosen what the policy gives, each name is offered that has a row, or
/// of which anything is chosen.
pub(crate) fn chosen_names_are_offered()
    ensures { (h : Held) → (t : TablesHeld) → AreRising (all_keys (keyed_of h).lists) → IsIndexed (standing h) t
        → AreChosen (chosen_in t) (world_of h) → AreOffered t.names.map }
{
    rows_are_defined();
    rows_are_shown();
    names_with_rows_are_kept();
}
