//! Laws on what a cache tells, each a function whose contract says it.

ghost use Rattle.std.specs.Prelude.{◌≡◌, ℕ, List, false, not};
ghost use Rattle.std.specs.Cmp.Lexicographic.{slice_cmp};
ghost use Rattle.std.specs.List.{list_any};
ghost use Rattle.std.specs.List.Sorted.{IsStrictlySortedBy};
ghost use Rattle.std.specs.Option.{option_map_or};
ghost use Rattle.std.specs.Ordering.{nat_cmp};
ghost use Rattle.std.specs.Str.{bytes_eq};
ghost use Rattle.ctl_stanza.specs.Content.{Content};
ghost use Rattle.ctl_store.specs.Entries.{Entry};
ghost use Rattle.ctl_index.specs.declared.keys.ClauseKey.{ClauseKey};
ghost use Rattle.ctl_index.specs.Clauses.{clause_at, is_met, is_unmet};
ghost use Rattle.ctl_index.specs.Names.{known_names, names_told};
ghost use Rattle.ctl_index.specs.Offers.{contents, offers_among};

/// The number of a clause is 0 exactly where no offer meets any of its atoms.
pub fn unmet_clauses_have_no_offer()
    ensures { (key : ClauseKey) → (es : List Entry)
        → is_unmet es key ≡ option_map_or (λ atoms. not (is_met atoms (offers_among (contents es)))) (clause_at key es) false }
{}

/// The known names stand in the order of their bytes, each once: those that a stanza offers, and those that an atom of one of
/// its eight fields names.
pub fn known_names_rise()
    ensures order { (stanzas : List Content) → IsStrictlySortedBy (slice_cmp nat_cmp) (known_names stanzas) }
    ensures members { (name : List ℕ) → (stanzas : List Content)
        → list_any (bytes_eq name) (known_names stanzas) ≡ list_any (λ stanza. list_any (bytes_eq name) (names_told stanza)) stanzas }
{}
