//! Laws, each a function whose contract says it.

ghost use Rattle.std.specs.Prelude.{◌≡◌, ℕ, ℤ, List, Ok};
ghost use Rattle.ctl_store.specs.declared.selector.Selector.{Selector};
ghost use Rattle.ctl_store.specs.Edits.{Edit};
ghost use Rattle.ctl_stanza.specs.declared.list_kind.ListKind.{ListKind};
ghost use Rattle.ctl_stanza.specs.Content.{Content};
ghost use Rattle.ctl_stanza.specs.Text.{read_text};
ghost use Rattle.ctl_store.specs.Kinds.{AreOfKind, KeepKinds};
ghost use Rattle.ctl_store.specs.State.{State};
ghost use Rattle.ctl_store.specs.Step.{BringsItsKind, after};
ghost use Rattle.ctl_store.specs.PinLaws.{SetsOwn, TakesOwn};
ghost use Rattle.ctl_store.specs.PrefsFaults.{ReadsPrefsOrTells};
ghost use Rattle.ctl_store.specs.PrefsLaws.{CountsFirst};

use ctl_stanza::records_are_runs;

/// Of preferences that are read each selector has the priority of its first setting in the text, and no other is set.
pub fn first_setting_counts()
    ensures { (n : ℕ) (text : List ℕ) (settings : List (Selector × ℤ)) → CountsFirst n text settings }
{}

/// Preferences that are read have no fault. Of those that aren't, a fault is told that they have: no line before it has a
/// fault, and on its line no fault has a lower number.
pub fn told_prefs_fault_is_least()
    ensures { (n : ℕ) (text : List ℕ) → ReadsPrefsOrTells n text }
{
    records_are_runs();
}

/// A specific pin that is set or taken out is set or taken out among those of its package, and leaves those of others.
#[tactic(auto, using(crate::proofs::OwnLemmas::own_insert, crate::proofs::OwnLemmas::own_remove))]
pub fn settings_by_package()
    ensures set { (name : List ℕ) → (s : Selector) → (priority : ℤ) → (pins : List (Selector × ℤ)) → SetsOwn name s priority pins }
    ensures taken { (name : List ℕ) → (s : Selector) → (pins : List (Selector × ℤ)) → TakesOwn name s pins }
{}

/// What a store holds stays of one kind: where the stanzas of each list are of its kind, and those that an edit brings are of
/// that of their list, so they are after the edit.
pub fn kinds_stay()
    ensures { (s : State) → (edit : Edit) → KeepKinds s.lists → BringsItsKind s edit → KeepKinds (after s edit).lists }
{}

/// The stanzas that are read of the text of a list are of its kind.
pub fn stanzas_are_of_their_kind()
    ensures { (kind : ListKind) → (first : ℕ) → (text : List ℕ) → (stanzas : List Content)
        → read_text kind first text ≡ Ok stanzas → AreOfKind kind stanzas }
{}
