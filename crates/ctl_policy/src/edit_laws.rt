//! Laws on the names that an edit of the store touches: all others stay.

ghost use Rattle.std.specs.Prelude.{◌≡◌, ℕ, ℤ, Bool, false, List, Option, None, if◌then◌else◌};
ghost use Rattle.std.specs.Str.{bytes_eq};
ghost use Rattle.std.specs.List.{IsDistinct};
ghost use Rattle.std.specs.Map.{keys_of as names_of};
ghost use Rattle.ctl_stanza.specs.declared.list_kind.ListKind.{ListKind};
ghost use Rattle.ctl_stanza.specs.Content.{Content};
ghost use Rattle.ctl_store.specs.declared.list_class.ListClass.{ListClass};
ghost use Rattle.ctl_store.specs.declared.selector.Selector.TheVariants.{Release};
ghost use Rattle.ctl_store.specs.declared.stanza_key.StanzaKey.{StanzaKey};
ghost use Rattle.ctl_store.specs.Edits.{Edit, AddList, DropList, Put, Remove, Pin, Unpin, Target, Prefs};
ghost use Rattle.ctl_store.specs.Keys.{stanza_at, all_in, all_keys, AreRising, AreCome, keyed_after};
ghost use Rattle.ctl_store.specs.Entries.{IsChange};
ghost use Rattle.ctl_store.specs.Store.{Held, keyed_of, state_of};
ghost use Rattle.ctl_store.specs.Plans.{Planned, IsReady};
ghost use Rattle.ctl_policy.specs.declared.chosen.Chosen.{Chosen};
ghost use Rattle.ctl_policy.specs.Chosen.{choice_in, AreChosen};
ghost use Rattle.ctl_policy.specs.Priority.{Settings, world_of};
ghost use Rattle.ctl_policy.specs.Rows.{Rows, AreRowsOf, has_list};
ghost use Rattle.ctl_policy.specs.Laws.{Stays, HoldsNone, world_after};
ghost use Rattle.ctl_policy.specs.Touched.{TargetHoldsNone, LeavePins, LeavesStanzas, IsNotTouched, IsAccepted, TouchesOnly, HasNoneOf, is_one_of, packages_at};

use crate::laws::general_pins_leave_other_names;
use ctl_store::settings_by_package;

/// A general pin of the store leaves names of which its list holds no live stanza.
pub fn edits_of_general_pins()
    ensures pin { (old : Held) → (list : List ℕ) → (p : ℤ) → (name : List ℕ)
        → AreRising (all_keys (keyed_of old).lists) → HoldsNone list name (keyed_of old).lists
        → Stays name (world_of old) (world_after old (Pin (Release None list) p)) }
    ensures unpin { (old : Held) → (list : List ℕ) → (name : List ℕ)
        → AreRising (all_keys (keyed_of old).lists) → HoldsNone list name (keyed_of old).lists
        → Stays name (world_of old) (world_after old (Unpin (Release None list))) }
{
    general_pins_leave_other_names();
}

/// Another target of the store leaves names of which neither the list of the old one nor that of the new one holds a live
/// stanza.
#[tactic(auto, using(crate::proofs::SettingLemmas::target_untouched))]
pub fn edits_of_targets()
    ensures { (old : Held) → (target : Option (List ℕ)) → (name : List ℕ)
        → AreRising (all_keys (keyed_of old).lists)
        → TargetHoldsNone old.target name (keyed_of old).lists
        → TargetHoldsNone target name (keyed_of old).lists
        → Stays name (world_of old) (world_after old (Target target)) }
{}

/// Preferences of the store leave names whose specific pins stay, and of which no list whose priority changes holds a
/// live stanza.
#[tactic(auto, using(crate::proofs::SettingLemmas::prefs_untouched))]
pub fn edits_of_preferences()
    ensures { (old : Held) → (pins : Settings) → (name : List ℕ)
        → AreRising (all_keys (keyed_of old).lists) → LeavePins pins name (world_of old)
        → Stays name (world_of old) (world_after old (Prefs pins)) }
{}

/// A stanza that is put or removed leaves names of which no live stanza goes or comes.
pub fn edits_of_stanzas()
    ensures put { (old : Held) → (name : List ℕ) → (list : List ℕ) → (x : Content)
        → IsAccepted old (Put list x) → LeavesStanzas name old (Put list x)
        → Stays name (world_of old) (world_after old (Put list x)) }
    ensures remove { (old : Held) → (name : List ℕ) → (list : List ℕ) → (removed : List ℕ) → (version : List ℕ)
        → IsAccepted old (Remove list removed version)
        → LeavesStanzas name old (Remove list removed version)
        → Stays name (world_of old) (world_after old (Remove list removed version)) }
{}

/// A list that comes or goes leaves names of which it holds no live stanza.
pub fn edits_of_lists()
    ensures add { (old : Held) → (name : List ℕ) → (list : List ℕ) → (kind : ListKind) → (class : ListClass)
        → (stanzas : List Content) → IsAccepted old (AddList list kind class stanzas)
        → LeavesStanzas name old (AddList list kind class stanzas)
        → Stays name (world_of old) (world_after old (AddList list kind class stanzas)) }
    ensures drop { (old : Held) → (name : List ℕ) → (list : List ℕ) → IsAccepted old (DropList list)
        → LeavesStanzas name old (DropList list)
        → Stays name (world_of old) (world_after old (DropList list)) }
{}

/// An accepted edit of the store leaves each name that it doesn't touch.
pub fn untouched_names_stay()
    ensures { (old : Held) → (edit : Edit) → (name : List ℕ) → IsAccepted old edit
        → IsNotTouched name old edit → Stays name (world_of old) (world_after old edit) }
{
    settings_by_package();
}

/// Where a list comes, a name isn't touched of which no row, as it is after the edit, has the key of a stanza of that list.
pub fn rows_tell_touched_names()
    ensures { (h : Held) → (list : List ℕ) → (kind : ListKind) → (class : ListClass) → (stanzas : List Content)
        → (rows : Rows) → (name : List ℕ) → IsAccepted h (AddList list kind class stanzas)
        → AreRowsOf rows name (keyed_after (keyed_of h) (AddList list kind class stanzas)).lists
        → has_list h.next_list rows ≡ false
        → IsNotTouched name h (AddList list kind class stanzas) }
{}

/// After an accepted edit the names that pass a test are chosen anew, and those that the edit touches are among them: all are
/// right.
pub fn touched_names_are_enough()
    ensures { (old : List ℕ → Chosen) → (new : List ℕ → Chosen) → (touches : List ℕ → Bool) → (h : Held) → (edit : Edit)
        → IsAccepted h edit → TouchesOnly touches h edit → AreChosen old (world_of h)
        → ((q : List ℕ) → new q ≡ (if touches q then choice_in q (world_after h edit) else old q))
        → AreChosen new (world_after h edit) }
{
    untouched_names_stay();
}

/// What a plan of the store promises is what the laws on touched names want.
pub fn plans_are_accepted()
    ensures { (h : Held) → (plan : Planned) → IsReady h plan
        → AreRising (all_keys (keyed_of h).lists)
        → IsDistinct bytes_eq (names_of (state_of h).lists)
        → IsChange (keyed_of h).lists (keyed_after (keyed_of h) plan.edit).lists plan.removed plan.added plan.edit
        → AreCome plan.added plan.edit (keyed_after (keyed_of h) plan.edit).lists
        → IsAccepted h plan.edit }
{}

/// A name that is the package of no stanza under some keys has no live one under them; and where they are all keys of a
/// list, that list holds none.
pub fn packages_tell_live_stanzas()
    ensures keys { (name : List ℕ) → (find : StanzaKey → Option Content) → (keys : List StanzaKey)
        → is_one_of name (packages_at keys find) ≡ false → HasNoneOf name keys find }
    ensures list { (name : List ℕ) → (list : List ℕ) → (h : Held)
        → IsDistinct bytes_eq (names_of (state_of h).lists)
        → is_one_of name (packages_at (all_in list (keyed_of h).lists) (λ k. stanza_at k (keyed_of h).lists)) ≡ false
        → HoldsNone list name (keyed_of h).lists }
{}
