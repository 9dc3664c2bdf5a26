//! Laws of the answers.

ghost use Rattle.std.specs.Prelude.{◌≡◌, ◌↔◌, ℕ, List, [], IsTrue, false, fold};
ghost use Rattle.std.specs.List.{All};
ghost use Rattle.ctl_relation.specs.Met.{met};
ghost use Rattle.ctl_relation.specs.Parts.{AtomParts};
ghost use Rattle.ctl_store.specs.Store.{Held, keyed_of, state_of};
ghost use Rattle.ctl_store.specs.Keys.{AreRising, all_keys};
ghost use Rattle.ctl_store.specs.State.{StanzaList};
ghost use Rattle.ctl_index.specs.Offers.{offers_among};
ghost use Rattle.ctl_policy.specs.Priority.{World, world_of};
ghost use Rattle.ctl_query.specs.Answer.{answer_text};
ghost use Rattle.ctl_query.specs.Anew.{answer_anew, lists_anew, added, no_lists};
ghost use Rattle.ctl_query.specs.Holdings.{holdings_of};
ghost use Rattle.ctl_query.specs.Packages.{stanzas_of};
ghost use Rattle.ctl_query.specs.Query.{Query};
ghost use Rattle.ctl_query.specs.Unmet.{is_unmet};

use ctl_policy::{rows_are_classes, rows_are_shown};
use ctl_relation::met_pairs_are_bounded;

/// Whatever edits led to what a store holds, it is answered as one that was built anew with the same lists, marks, pins and
/// target.
pub fn answers_are_as_if_built_anew()
    ensures { (store : Held) → (query : Query) → AreRising (all_keys (keyed_of store).lists)
        → answer_text (world_of store) query ≡ answer_anew (holdings_of (state_of store)) query }
{
    rows_are_classes();
    rows_are_shown();
}

/// A store that was built anew is one to whose lists, none at first, each was added by an edit, one after another.
pub fn lists_anew_are_added()
    ensures { (lists : List (List ℕ × StanzaList)) → (fold added no_lists lists).lists ≡ lists_anew 0 lists }
{}

/// A clause is unmet exactly where no offer meets any of its atoms.
pub fn unmet_clauses_are_met_by_no_offer()
    ensures { (world : World) → (clause : List AtomParts) → IsTrue (is_unmet world clause)
        ↔ All (λ atom. All (λ offer. met atom offer ≡ false) (offers_among (stanzas_of world))) clause }
{
    met_pairs_are_bounded();
}
