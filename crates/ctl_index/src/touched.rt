//! The names that an edit touches, once the tables follow it.

ghost use Rattle.std.specs.Prelude.{◌≡◌, ℕ, List, true, IfOk, IfSome};
ghost use Rattle.std.specs.Bool.{OnTrue};
ghost use Rattle.ctl_store.specs.Plans.{Planned, IsReady};
ghost use Rattle.ctl_store.specs.Store.{Held, keyed_of};
ghost use Rattle.ctl_policy.specs.Priority.{world_of};
ghost use Rattle.ctl_policy.specs.Rows.{AreRowsOf};
ghost use Rattle.ctl_policy.specs.Touched.{TouchesOnly, is_one_of};
ghost use Rattle.ctl_index.specs.declared.touched.Touched.{Touched as TouchedNames};
ghost use Rattle.ctl_index.specs.declared.touched.Touched.TheVariants.{OfList};
ghost use Rattle.ctl_index.specs.Inside.TablesByName.{NameMap, rows_under, chosen_under};
ghost use Rattle.ctl_index.specs.Inside.TablesChosen.{AreRenewed, HasMade, HasSameRows};
ghost use Rattle.ctl_index.specs.Inside.TablesTouched.{Covers, is_touched};

use crate::name_table::NameTable;
use ctl_policy::{plans_are_accepted, rows_tell_touched_names, touched_names};
use ctl_relation::Bytes;
use ctl_store::{Edit, Plan, Store};
use std::alloc::{AllocError, Global};

// The names of a list are told by a walk over all names and all keys in their rows, where at least one of its stanzas came for so
// many of both: a short list is not to pay for it. The walk needs no list of names, and what stands under each name is at hand.
const KNOWN_A_STANZA: usize = 4;

/// The names that an edit touches, while the tables are those after it.
#[derive(Drop)]
pub(crate) enum Touched {
    // Those that have a row with a stanza of the list with this serial number, which comes.
    OfList(u32),
    // These. One may come several times.
    Names(Vec<Bytes>),
}

// How many names there are, or stanzas before the plan is carried out, whichever are more.
fn known_before(store: &Store, names: &NameTable) -> usize {
    let stanzas = store.counts().stanzas as usize;
    stanzas.max(names.len())
}

// The serial number of the list that comes by a plan, where it is long enough for a walk over all that is known.
fn long_list(store: &Store, plan: &Plan, names: &NameTable) -> Option<u32>
    ensures { IfSome result (λ list. (h : Held) → IsReady h plan.now → Covers (OfList list) h plan.now.edit) }
{
    let added = plan.added();
    let least = known_before(store, names) / KNOWN_A_STANZA;
    match plan.edit() {
        Edit::AddList { .. } if added.len() >= least => {
            let first = added.first()?;
            Some(first.list)
        }
        _ => None,
    }
}

/// The names that the edit of a plan touches, before the store makes it. The tables follow the plan already.
///
/// # Errors
///
/// Out of memory, of which a long list takes none.
pub(crate) fn touched_of(
    alloc: Global,
    store: &Store,
    plan: &Plan,
    names: &NameTable,
) -> Result<Touched, AllocError>
    requires { IsReady store.now plan.now }
    ensures { IfOk result (λ touched. Covers touched store.now plan.now.edit) }
{
    match long_list(store, plan, names) {
        Some(list) => Ok(Touched::OfList(list)),
        None => Ok(Touched::Names(touched_names(alloc, store, plan)?)),
    }
}

// Whether a name comes again as the next one.
fn comes_next(name: &Bytes, rest: &[Bytes]) -> bool
    ensures { OnTrue result (is_one_of name.now rest.now ≡ true) }
{
    match rest.first() {
        Some(next) => next == name,
        None => false,
    }
}

// Chooses anew for each of these names.
fn choose_listed(store: &Store, listed: &[Bytes], names: &mut NameTable)
    requires { (q : List ℕ) → AreRowsOf (rows_under names.old.map q) q (keyed_of store.now).lists }
    ensures chosen { AreRenewed (λ q. is_one_of q listed.now) (world_of store.now)
        (chosen_under names.old.map) (chosen_under names.new.map) }
    ensures stays { HasSameRows names.old.map names.new.map }
{
    let mut left = listed;
    'names: while let Some((name, rest)) = left.split_first() {
        // Names that come several times stand together: of those the last is enough.
        if !comes_next(name, rest) {
            names.choose(store, name.as_slice());
        }
        left = rest;
    }
}

/// Chooses anew for each of the names that are touched, after the edit of the store. Others keep what is chosen of them. It takes
/// no memory.
pub(crate) fn choose_touched(store: &Store, touched: &Touched, names: &mut NameTable)
    requires { (q : List ℕ) → AreRowsOf (rows_under names.old.map q) q (keyed_of store.now).lists }
    ensures chosen { AreRenewed (is_touched names.old.map touched.now) (world_of store.now)
        (chosen_under names.old.map) (chosen_under names.new.map) }
    ensures stays { HasSameRows names.old.map names.new.map }
{
    match touched {
        Touched::OfList(list) => names.choose_for(store, Some(*list)),
        Touched::Names(listed) => choose_listed(store, listed, names),
    }
}

/// Once the store made an edit, and the rows are those of its stanzas, the edit touched no other names than these.
pub(crate) fn touched_names_are_told()
    ensures { (h : Held) → (plan : Planned) → (new : Held) → (touched : TouchedNames) → (m : NameMap) → HasMade h plan new
        → Covers touched h plan.edit → ((q : List ℕ) → AreRowsOf (rows_under m q) q (keyed_of new).lists)
        → TouchesOnly (is_touched m touched) h plan.edit }
{
    plans_are_accepted();
    rows_tell_touched_names();
}
