//! The laws of filters.

ghost use Rattle.std.specs.Prelude.{◌↔◌, ℕ, Bool, List, IsTrue};
ghost use Rattle.ctl_filter.specs.Laws.{IsReader, TruthByCases};
ghost use Rattle.ctl_filter.specs.Asking.{ModifiersAreSpelled, AtomsAreAsked, PatternsAreWords, ClustersAreLetters};
ghost use Rattle.ctl_filter.specs.Substring.{contains, IsSubstring, contains_in_any_case, IsSubstringInAnyCase};

/// Words are a filter's where a filter spells them within the limit on nesting, and then it is the only one.
pub fn filters_have_one_tree()
    ensures { IsReader }
{}

/// The truth of a filter by cases: an atom has its value, `!` turns it, `-a` and `-o` join it with what follows.
pub fn truths_are_by_cases()
    ensures { (values : List Bool) → TruthByCases values }
{}

/// A pattern is a substring of a text where the text parts into a prefix, the pattern and a suffix; and in any case, where in place of
/// the pattern a text stands that is equal to it but for the case of ASCII letters.
pub fn substrings_are_parts()
    ensures exact { (pattern : List ℕ) (text : List ℕ) → IsTrue (contains pattern text) ↔ IsSubstring pattern text }
    ensures any_case { (pattern : List ℕ) (text : List ℕ)
        → IsTrue (contains_in_any_case pattern text) ↔ IsSubstringInAnyCase pattern text }
{}

/// The words of an atom are modifiers in any order, at most one of `-X`, `--rx` and the comparisons among them, and then a pattern.
/// Its fields are those of all its `-F` and `-P`, one after another. With two such manners, or fields that are no names, the filter is
/// bad.
pub fn atoms_are_modifiers_and_a_pattern()
    ensures modifiers { ModifiersAreSpelled }
    ensures patterns { PatternsAreWords }
    ensures atoms { AtomsAreAsked }
{}

/// A cluster says what its letters say one by one, each as a word of its own. What stands behind `F` or `s` is its argument, as the
/// next word is where nothing does.
pub fn clusters_are_letters()
    ensures { ClustersAreLetters }
{}
