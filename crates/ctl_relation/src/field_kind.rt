//! The nine fields that hold relations (Debian Policy 7.1).

ghost use Rattle.std.specs.Prelude.{◌≡◌, nat_eq};
ghost use Rattle.std.specs.Ordering.{nat_cmp, on, as_partial_cmp};
ghost use Rattle.std.specs.Cmp.{on_equiv, on_total, nat_eq_equiv, nat_cmp_total, partial_equiv_from_equiv, partial_order_from_own_ties};
ghost use Rattle.std.specs.Cmp.Rules.{comparing};
ghost use Rattle.std.proofs.Common.{rules};
ghost use Rattle.ctl_relation.specs.FieldKind.{nine_fields, eight_fields, four_fields, is_wanted};
ghost use Rattle.ctl_relation.specs.FieldKind.{names_of, field_place, has_alternatives, is_provides};

use std::cmp::Ordering;

/// The nine fields that hold relations, in the order in which they are listed and compared.
#[derive(Clone, Copy, Debug)]
pub enum FieldKind {
    PreDepends,
    Depends,
    Conflicts,
    Breaks,
    Recommends,
    Suggests,
    Replaces,
    Enhances,
    Provides,
}

const FOUR: [FieldKind; 4] = [
    FieldKind::PreDepends,
    FieldKind::Depends,
    FieldKind::Recommends,
    FieldKind::Suggests,
];

// What a field is called.
#[derive(Clone, Copy)]
struct FieldNames {
    // In small letters, as names of fields are compared.
    key: &'static [u8],
    printed: &'static [u8],
}

impl FieldKind {
    /// The nine fields, in their order.
    pub fn nine() -> &'static [FieldKind]
        ensures { result.now ≡ nine_fields }
    {
        &[
            FieldKind::PreDepends,
            FieldKind::Depends,
            FieldKind::Conflicts,
            FieldKind::Breaks,
            FieldKind::Recommends,
            FieldKind::Suggests,
            FieldKind::Replaces,
            FieldKind::Enhances,
            FieldKind::Provides,
        ]
    }

    /// The eight fields whose atoms name other packages, in their order: all but Provides.
    pub fn eight() -> &'static [FieldKind]
        ensures { result.now ≡ eight_fields }
    {
        FieldKind::nine().split_at(8).0
    }

    /// The four fields whose groups are wanted to be met, in their order.
    pub fn four() -> &'static [FieldKind]
        ensures { result.now ≡ four_fields }
    {
        &FOUR
    }

    /// Whether the field is one of the four, whose groups are wanted to be met.
    pub fn is_wanted(self) -> bool
        ensures { result ≡ is_wanted self }
    {
        matches!(
            self,
            FieldKind::PreDepends | FieldKind::Depends | FieldKind::Recommends | FieldKind::Suggests
        )
    }

    /// The name of the field in small letters. Names of fields are compared without regard to case.
    pub fn key(self) -> &'static [u8]
        ensures { result.now ≡ (names_of self).0 }
    {
        self.names().key
    }

    /// The name of the field as answers print it, without a hyphen.
    pub fn printed_name(self) -> &'static [u8]
        ensures { result.now ≡ (names_of self).1 }
    {
        self.names().printed
    }

    fn names(self) -> FieldNames
        ensures { (result.key.now, result.printed.now) ≡ names_of self }
    {
        match self {
            FieldKind::PreDepends => FieldNames {
                key: b"pre-depends",
                printed: b"PreDepends",
            },
            FieldKind::Depends => FieldNames {
                key: b"depends",
                printed: b"Depends",
            },
            FieldKind::Conflicts => FieldNames {
                key: b"conflicts",
                printed: b"Conflicts",
            },
            FieldKind::Breaks => FieldNames {
                key: b"breaks",
                printed: b"Breaks",
            },
            FieldKind::Recommends => FieldNames {
                key: b"recommends",
                printed: b"Recommends",
            },
            FieldKind::Suggests => FieldNames {
                key: b"suggests",
                printed: b"Suggests",
            },
            FieldKind::Replaces => FieldNames {
                key: b"replaces",
                printed: b"Replaces",
            },
            FieldKind::Enhances => FieldNames {
                key: b"enhances",
                printed: b"Enhances",
            },
            FieldKind::Provides => FieldNames {
                key: b"provides",
                printed: b"Provides",
            },
        }
    }

    /// Whether a group of the field may have several alternatives, joined by `|`.
    pub(crate) fn has_alternatives(self) -> bool
        ensures { result ≡ has_alternatives self }
    {
        !matches!(
            self,
            FieldKind::Conflicts | FieldKind::Breaks | FieldKind::Replaces | FieldKind::Provides
        )
    }

    pub(crate) fn is_provides(self) -> bool
        ensures { result ≡ is_provides self }
    {
        matches!(self, FieldKind::Provides)
    }

    /// The place of the field among the nine, from 0 on.
    pub fn place(self) -> u8
        ensures { result ≡ field_place self }
    {
        match self {
            FieldKind::PreDepends => 0,
            FieldKind::Depends => 1,
            FieldKind::Conflicts => 2,
            FieldKind::Breaks => 3,
            FieldKind::Recommends => 4,
            FieldKind::Suggests => 5,
            FieldKind::Replaces => 6,
            FieldKind::Enhances => 7,
            FieldKind::Provides => 8,
        }
    }
}

impl PartialEq for FieldKind {
    ghost eq = { λ x y. nat_eq (field_place x) (field_place y) };

    ghost laws = { partial_equiv_from_equiv (on_equiv field_place nat_eq_equiv) };

    fn eq(&self, other: &FieldKind) -> bool {
        self.place() == other.place()
    }
}

impl Eq for FieldKind {
    ghost laws = { on_equiv field_place nat_eq_equiv };
}

impl PartialOrd for FieldKind {
    ghost partial_cmp = { as_partial_cmp (on field_place nat_cmp) };

    ghost laws = { partial_order_from_own_ties (Prim.search (comparing, rules)) (Prim.search (comparing, rules)) };

    fn partial_cmp(&self, other: &FieldKind) -> Option<Ordering> {
        Some(self.cmp(other))
    }
}

impl Ord for FieldKind {
    ghost cmp = { on field_place nat_cmp };

    ghost total = { on_total field_place nat_cmp_total };

    ghost matches_partial_cmp = { Prim.search (comparing, rules) };

    ghost matches_eq = { Prim.search (comparing, rules) };

    fn cmp(&self, other: &FieldKind) -> Ordering {
        self.place().cmp(&other.place())
    }
}
