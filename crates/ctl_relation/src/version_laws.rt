//! Laws of versions and their order, each a clause of a function that does nothing.

ghost use Rattle.std.specs.Prelude.{◌≡◌, ◌↔◌, ℕ, pos, negsuc, List, [], ◌∷◌, codes};
ghost use Rattle.std.specs.declared.cmp.Ordering.TheVariants.{Equal};
ghost use Rattle.std.specs.Cmp.{IsTotalOrder};
ghost use Rattle.ctl_relation.specs.Key.{key};
ghost use Rattle.ctl_relation.specs.KeyTurns.{KeysGoByTurns, TildeComesFirst};
ghost use Rattle.ctl_relation.specs.Version.{version_cmp, triple_of};
ghost use Rattle.ctl_relation.specs.VersionText.{TextsHaveParts, PartsAreUnique, NoTestOfMemory};

/// The order of versions is a total order.
#[tactic(auto, using(crate::specs::Orders::Versions::version_total))]
pub fn versions_are_ordered()
    ensures { IsTotalOrder version_cmp }
{}

/// Two versions are equal exactly where their epochs, the keys of their upstream versions and the keys of their
/// revisions are.
#[tactic(auto, using(crate::specs::Orders::Versions::equal_versions))]
pub fn equal_versions()
    ensures { (a b : List ℕ) → (version_cmp a b ≡ Equal) ↔ (triple_of a ≡ triple_of b) }
{}

/// Going through an upstream version or a revision by turns, a run of bytes that are no digits counts the weight of
/// each and then a 0, and the run of digits behind it its value. Zeros at the end do not count. A tilde comes before
/// everything, the end included (deb-version(7), "Sorting algorithm").
#[tactic(auto, using(crate::proofs::KeyTurnLaws::keys_go_by_turns, crate::proofs::KeyTurnLaws::tilde_comes_first))]
pub fn keys_go_by_turns()
    ensures empty { key [] ≡ [] }
    ensures dotted { key (codes "1.0") ≡ pos 0 ∷ pos 1 ∷ pos 302 ∷ [] }
    ensures ends_in_dot { key (codes "1.") ≡ pos 0 ∷ pos 1 ∷ pos 302 ∷ [] }
    ensures tilde_alone { key (codes "~") ≡ negsuc 0 ∷ [] }
    ensures zero_alone { key (codes "0") ≡ [] }
    ensures turn { KeysGoByTurns }
    ensures tilde { TildeComesFirst }
{}

/// A text has one list of parts, `[epoch:]upstream[-revision]`: the colon of the epoch is its first, and the hyphen of
/// the revision the last behind the epoch.
pub fn texts_have_one_cut()
    ensures parts { TextsHaveParts }
    ensures unique { PartsAreUnique }
{}

/// Memory that runs out is no test of a text, so it is never why one is no version.
#[tactic(auto, using(crate::proofs::VersionTextLaws::no_test_of_memory))]
pub fn version_faults_are_of_texts()
    ensures { NoTestOfMemory }
{}
