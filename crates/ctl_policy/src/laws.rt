//! Laws, each a function whose contract says it.

ghost use Rattle.std.specs.Prelude.{◌≡◌, ℕ, ℤ, List, [], Option, None, Some, map, true};
ghost use Rattle.std.specs.List.{AllByRecursion};
ghost use Rattle.std.specs.Map.{remove_entry};
ghost use Rattle.std.specs.FinMap as fin;
ghost use Rattle.indexmap.specs.IndexMap.{insert_entry};
ghost use Rattle.ctl_stanza.specs.Content.{Content, package_of, version_of};
ghost use Rattle.ctl_store.specs.declared.selector.Selector.{Selector};
ghost use Rattle.ctl_store.specs.declared.selector.Selector.TheVariants.{Release};
ghost use Rattle.ctl_store.specs.declared.stanza_key.StanzaKey.{StanzaKey};
ghost use Rattle.ctl_store.specs.Pins.{selector_eq, is_of, own_settings};
ghost use Rattle.ctl_store.specs.Edits.{Edit, Mark, Unmark, Pin, Unpin};
ghost use Rattle.ctl_store.specs.Step.{after};
ghost use Rattle.ctl_store.specs.Keys.{keyed_after, AreHeld, AreRising, all_keys};
ghost use Rattle.ctl_store.specs.Entries.{entries_of};
ghost use Rattle.ctl_store.specs.Store.{Held, keyed_of, state_of};
ghost use Rattle.ctl_policy.specs.Keys.{some_keys};
ghost use Rattle.ctl_policy.specs.Rows.{HasLead, Lists, Rows, rows_named, is_in_row, keys_at, keys_with, keys_of_row, newest_first, AreRowsOf};
ghost use Rattle.ctl_policy.specs.Priority.{World, Settings, world_of};
ghost use Rattle.ctl_policy.specs.Kept.{RowsByName, Stanzas, IsKept, OthersStay, HasPut, HasTaken, stanzas_in, with_stanza, without_stanza};
ghost use Rattle.ctl_policy.specs.Chosen.{choice_in, no_choice, kept_of};
ghost use Rattle.ctl_policy.specs.Laws.{Stays, IsOfName, IsNoSource, IsNoTarget, AreRankedAlike, HoldsNone, IsUntouched, AreSameLists, with_marks, with_pins, with_target, with_lists, world_after};

use ctl_store::settings_by_package;

/// The row of a version of a name has the live stanzas of that name with an equal version, in the order of all stanzas.
#[tactic(auto, using(crate::proofs::DefinedLemmas::row_defined))]
pub fn rows_are_classes()
    ensures { (name : List ℕ) → (version : List ℕ) → (lists : Lists)
        → fin.get (rows_named name lists) version ≡ some_keys (keys_with (is_in_row name version) (entries_of lists)) }
{}

/// Rows that follow the stanzas by their keys are those of the definition.
#[tactic(auto, using(crate::proofs::DefinedLemmas::kept_rows))]
pub fn rows_are_kept()
    ensures { (rows : RowsByName) → (lists : Lists) → AreRising (all_keys lists)
        → IsKept rows (stanzas_in lists) → (name : List ℕ) → AreRowsOf (rows name) name lists }
{}

/// The stanzas of the rows of a name stand in the store.
pub fn rows_are_held()
    ensures rows { (rows : Rows) → (name : List ℕ) → (lists : Lists) → AreRowsOf rows name lists
        → AllByRecursion (λ keys. AreHeld keys lists) (map keys_of_row (newest_first rows)) }
    ensures version { (rows : Rows) → (name : List ℕ) → (lists : Lists) → AreRowsOf rows name lists
        → (version : List ℕ) → AreHeld (keys_at rows version) lists }
{}

/// Each row of a name has a lead.
pub fn rows_have_leads()
    ensures { (rows : Rows) → (name : List ℕ) → (lists : Lists) → AreRowsOf rows name lists
        → AllByRecursion HasLead (map keys_of_row (newest_first rows)) }
{}

/// Rows that are those of a name are shown as the definition shows them, and no rows as none.
#[tactic(auto, using(crate::proofs::ChoiceLemmas::shown_alike, crate::proofs::WithoutLemmas::none_shown))]
pub fn rows_are_shown()
    ensures alike { (rows : Rows) → (name : List ℕ) → (lists : Lists) → AreRowsOf rows name lists
        → newest_first rows ≡ newest_first (rows_named name lists) }
    ensures none { newest_first fin.empty ≡ [] }
{}

/// Of a name without rows neither a row is installed nor a candidate, and nothing is to be kept. Of another what is chosen is
/// to be kept.
#[tactic(auto, using(crate::proofs::WithoutLemmas::not_chosen, crate::proofs::WithoutLemmas::not_kept, crate::proofs::WithoutLemmas::is_kept))]
pub fn names_with_rows_are_kept()
    ensures choice { (name : List ℕ) → (w : World) → newest_first (rows_named name w.lists) ≡ [] → choice_in name w ≡ no_choice }
    ensures none { (name : List ℕ) → (w : World) → newest_first (rows_named name w.lists) ≡ [] → kept_of name w ≡ None }
    ensures kept { (name : List ℕ) → (w : World) → (newest_first (rows_named name w.lists) ≡ [] → ⊥)
        → kept_of name w ≡ Some (choice_in name w) }
{}

/// Rows follow a stanza that comes where its key is put into the rows of its name, and one that goes where it is taken
/// out. A stanza that isn't live changes no row.
#[tactic(auto, using(crate::proofs::KeptLemmas::kept_none, crate::proofs::KeptLemmas::kept_idle, crate::proofs::KeptLemmas::kept_idle_goes, crate::proofs::KeptLemmas::kept_same, crate::proofs::KeptLemmas::kept_alike))]
pub fn rows_follow_stanzas()
    ensures none { (rows : RowsByName)
        → ((name : List ℕ) → (version : List ℕ) → fin.get (rows name) version ≡ None)
        → IsKept rows (λ key. None) }
    ensures put { (key : StanzaKey) → (x : Content) → (name : List ℕ) → (version : List ℕ) → (old : RowsByName)
        → (new : RowsByName) → (stanzas : Stanzas) → IsKept old stanzas → package_of x ≡ name
        → version_of x ≡ Some version → stanzas key ≡ None
        → HasPut version key (old name) (new name) → OthersStay name old new
        → IsKept new (with_stanza key x stanzas) }
    ensures taken { (key : StanzaKey) → (x : Content) → (name : List ℕ) → (version : List ℕ) → (old : RowsByName)
        → (new : RowsByName) → (stanzas : Stanzas) → IsKept old stanzas → package_of x ≡ name
        → version_of x ≡ Some version → stanzas key ≡ Some x
        → HasTaken version key (old name) (new name) → OthersStay name old new
        → IsKept new (without_stanza key stanzas) }
    ensures idle { (key : StanzaKey) → (x : Content) → (rows : RowsByName) → (stanzas : Stanzas)
        → version_of x ≡ None → stanzas key ≡ None → IsKept rows stanzas
        → IsKept rows (with_stanza key x stanzas) }
    ensures idle_goes { (key : StanzaKey) → (x : Content) → (rows : RowsByName) → (stanzas : Stanzas)
        → version_of x ≡ None → stanzas key ≡ Some x → IsKept rows stanzas
        → IsKept rows (without_stanza key stanzas) }
    ensures same { (old : RowsByName) → (new : RowsByName) → (stanzas : Stanzas)
        → ((name : List ℕ) → (version : List ℕ) → fin.get (new name) version ≡ fin.get (old name) version)
        → IsKept old stanzas → IsKept new stanzas }
    ensures alike { (rows : RowsByName) → (stanzas : Stanzas) → (others : Stanzas)
        → ((key : StanzaKey) → stanzas key ≡ others key) → IsKept rows stanzas → IsKept rows others }
{}

/// A mark changes its own name alone.
pub fn marks_leave_other_names()
    ensures mark { (w : World) → (name : List ℕ) → (mark : Option (List ℕ))
        → IsOfName name w (with_marks (fin.insert w.marks name mark) w) }
    ensures unmark { (w : World) → (name : List ℕ) → IsOfName name w (with_marks (fin.remove w.marks name) w) }
{}

/// A specific pin changes its own package alone.
pub fn specific_pins_leave_other_names()
    ensures pin { (w : World) → (name : List ℕ) → (s : Selector) → (p : ℤ) → is_of name s ≡ true
        → IsOfName name w (with_pins (insert_entry selector_eq w.pins s p) w) }
    ensures unpin { (w : World) → (name : List ℕ) → (s : Selector) → is_of name s ≡ true
        → IsOfName name w (with_pins (remove_entry (selector_eq s) w.pins) w) }
{
    settings_by_package();
}

/// A general pin changes names with a stanza in its list alone.
pub fn general_pins_leave_other_names()
    ensures pin { (w : World) → (list : List ℕ) → (p : ℤ) → (name : List ℕ) → IsNoSource list name w
        → Stays name w (with_pins (insert_entry selector_eq w.pins (Release None list) p) w) }
    ensures unpin { (w : World) → (list : List ℕ) → (name : List ℕ) → IsNoSource list name w
        → Stays name w (with_pins (remove_entry (selector_eq (Release None list)) w.pins) w) }
{
    settings_by_package();
}

/// Preferences change packages whose specific pins change, and names with a stanza in a list whose priority changes, alone.
pub fn preferences_leave_other_names()
    ensures { (w : World) → (pins : Settings) → (name : List ℕ)
        → own_settings name pins ≡ own_settings name w.pins
        → AreRankedAlike name w (with_pins pins w) → Stays name w (with_pins pins w) }
{}

/// Another target changes names with a stanza in the list of the old or the new one alone.
#[tactic(auto, using(crate::proofs::RestLemmas::target_others))]
pub fn targets_leave_other_names()
    ensures { (w : World) → (other : Option (List ℕ)) → (name : List ℕ) → IsNoTarget w.target name w
        → IsNoTarget other name w → Stays name w (with_target other w) }
{}

/// A stanza that comes or goes changes its own name alone, where the lists of other names keep their names and priorities.
pub fn stanzas_leave_other_names()
    ensures { (name : List ℕ) → (w : World) → (others : Lists) → AreSameLists name w others
        → IsUntouched name w.lists others → Stays name w (with_lists others w) }
{}

/// A name of which a list holds no live stanza has no row with this list as a source.
#[tactic(auto, using(crate::proofs::TouchLemmas::no_source))]
pub fn sources_hold_stanzas()
    ensures { (list : List ℕ) → (name : List ℕ) → (w : World) → AreRising (all_keys w.lists)
        → HoldsNone list name w.lists → IsNoSource list name w }
{}

/// What the policy rests on moves with the store.
#[tactic(auto, using(crate::proofs::RestLemmas::world_moves))]
pub fn worlds_move()
    ensures { (old : Held) → (new : Held) → (edit : Edit)
        → keyed_of new ≡ keyed_after (keyed_of old) edit → state_of new ≡ after (state_of old) edit
        → world_of new ≡ world_after old edit }
{}

/// A mark and a specific pin of the store leave other names.
pub fn edits_of_one_name()
    ensures mark { (old : Held) → (name : List ℕ) → (mark : Option (List ℕ))
        → IsOfName name (world_of old) (world_after old (Mark name mark)) }
    ensures unmark { (old : Held) → (name : List ℕ) → IsOfName name (world_of old) (world_after old (Unmark name)) }
    ensures pin { (old : Held) → (name : List ℕ) → (s : Selector) → (p : ℤ) → is_of name s ≡ true
        → IsOfName name (world_of old) (world_after old (Pin s p)) }
    ensures unpin { (old : Held) → (name : List ℕ) → (s : Selector) → is_of name s ≡ true
        → IsOfName name (world_of old) (world_after old (Unpin s)) }
{
    marks_leave_other_names();
    specific_pins_leave_other_names();
}
