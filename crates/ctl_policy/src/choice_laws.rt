//! Laws on the rows of a name, their priorities and its candidate, each a function whose contract says it.

ghost use Rattle.std.specs.Prelude.{◌≡◌, ℕ, List, ◌∷◌, None, Some, is_some};
ghost use Rattle.std.specs.FinMap as fin;
ghost use Rattle.std.specs.List.{list_any};
ghost use Rattle.ctl_store.specs.declared.stanza_key.StanzaKey.{StanzaKey};
ghost use Rattle.ctl_store.specs.Entries.{entries_of};
ghost use Rattle.ctl_policy.specs.Rows.{Lists, rows_named, is_in_row, newest_first};
ghost use Rattle.ctl_policy.specs.Priority.{World, specific_pin, source_priorities, row_priority};
ghost use Rattle.ctl_policy.specs.Candidate.{candidate_of};
ghost use Rattle.ctl_policy.specs.ChoiceLaws.{AreFalling, IsGreatest, LeadsBest, MayTakeNone};

/// The versions of the rows of a name fall, and no two are equal. A version has a row exactly where a live stanza of the name
/// has an equal one.
pub fn rows_fall()
    ensures fall { (name : List ℕ) → (lists : Lists)
        → AreFalling (newest_first (rows_named name lists)) }
    ensures there { (name : List ℕ) → (version : List ℕ) → (lists : Lists)
        → is_some (fin.get (rows_named name lists) version) ≡ list_any (λ e. is_in_row name version e.1) (entries_of lists) }
{}

/// A row that no specific pin matches has the greatest of the priorities of its sources.
pub fn sources_bound_priorities()
    ensures { (name : List ℕ) → (w : World) → (lead : StanzaKey) → (others : List StanzaKey)
        → specific_pin name w.lists (lead ∷ others) w.pins ≡ None
        → IsGreatest (row_priority name w (lead ∷ others)) (source_priorities w (lead ∷ others)) }
{}

/// The candidate of a name leads a row that may be taken. Of those that may be, none has a greater priority, and no newer one
/// an equal priority. There is no candidate exactly where no row may be taken.
pub fn candidates_are_best()
    ensures best { (name : List ℕ) → (w : World) → (lead : StanzaKey) → candidate_of name w ≡ Some lead → LeadsBest name w lead }
    ensures none { (name : List ℕ) → (w : World) → candidate_of name w ≡ None → MayTakeNone name w }
    ensures only { (name : List ℕ) → (w : World) → MayTakeNone name w → candidate_of name w ≡ None }
{}
