//! The operators of version bounds (Debian Policy 7.1).

ghost use Rattle.std.specs.Prelude.{◌≡◌, ◌++◌, None, codes};
ghost use Rattle.ctl_relation.specs.Met.{relates};
ghost use Rattle.ctl_relation.specs.Printed.{operator_text};
ghost use Rattle.ctl_relation.specs.Version.{fault_of};

use crate::version::{Version, compare_versions};

/// How a bound relates an offered version to its own: the five operators of Debian Policy 7.1.
#[derive(Clone, Copy, Debug, PartialEq, Eq)]
pub enum Operator {
    /// `<<`: strictly earlier.
    Earlier,
    /// `<=`: earlier or equal.
    EarlierOrEqual,
    /// `=`: exactly equal.
    Equal,
    /// `>=`: later or equal.
    LaterOrEqual,
    /// `>>`: strictly later.
    Later,
}

impl Operator {
    /// Whether `version` stands in this relation to `bound`, which is one too, by the order of Debian versions.
    pub(crate) fn relates(self, version: &Version, bound: &[u8]) -> bool
        requires { fault_of bound.now ≡ None }
        ensures { result ≡ relates self version.now bound.now }
    {
        let order = compare_versions(version.text(), bound);
        match self {
            Operator::Earlier => order.is_lt(),
            Operator::EarlierOrEqual => order.is_le(),
            Operator::Equal => order.is_eq(),
            Operator::LaterOrEqual => order.is_ge(),
            Operator::Later => order.is_gt(),
        }
    }

    /// What stands between a name and the version of its bound as they are printed, in one piece: atoms are printed by the
    /// hundred thousand.
    pub(crate) fn opening(self) -> &'static [u8]
        ensures { result.now ≡ codes " (" ++ operator_text self ++ codes " " }
    {
        match self {
            Operator::Earlier => b" (<< ",
            Operator::EarlierOrEqual => b" (<= ",
            Operator::Equal => b" (= ",
            Operator::LaterOrEqual => b" (>= ",
            Operator::Later => b" (>> ",
        }
    }

    /// The operator as it is printed.
    pub fn text(self) -> &'static [u8]
        ensures { result.now ≡ operator_text self }
    {
        match self {
            Operator::Earlier => b"<<",
            Operator::EarlierOrEqual => b"<=",
            Operator::Equal => b"=",
            Operator::LaterOrEqual => b">=",
            Operator::Later => b">>",
        }
    }
}
