//! Atoms that stand in the text of a field just as they are printed.

ghost use Rattle.std.specs.Prelude.{◌≡◌, ◌≤◌, ◌++◌, ◌∷◌, length, IfSome};
ghost use Rattle.ctl_relation.specs.Bytes.{space};
ghost use Rattle.ctl_relation.specs.Inside.PrintedAtoms.{IsPrintedAtom, IsPrintedBound, ends_name};
ghost use Rattle.ctl_relation.specs.Printed.{operator_text};

use crate::byte_class::ByteClass;
use crate::operator::Operator;
use crate::tokens::{behind_byte, run_len};

// What stands behind an operator and a space, where the operator is written as it is printed.
fn behind_operator(text: &[u8]) -> Option<(Operator, &[u8])>
    ensures printed { IfSome result (λ x. text.now ≡ operator_text x.0 ++ space ∷ x.1.now) }
    ensures within { IfSome result (λ x. length x.1.now ≤ length text.now) }
{
    match text {
        [b'<', b'<', b' ', after @ ..] => Some((Operator::Earlier, after)),
        [b'<', b'=', b' ', after @ ..] => Some((Operator::EarlierOrEqual, after)),
        [b'=', b' ', after @ ..] => Some((Operator::Equal, after)),
        [b'>', b'=', b' ', after @ ..] => Some((Operator::LaterOrEqual, after)),
        [b'>', b'>', b' ', after @ ..] => Some((Operator::Later, after)),
        _ => None,
    }
}

// What stands behind a bound, of which the text begins behind its open parenthesis, where it is written as it is printed.
fn behind_bound(text: &[u8]) -> Option<&[u8]>
    ensures printed { IfSome result (λ left. IsPrintedBound text.now left.now) }
    ensures within { IfSome result (λ left. length left.now ≤ length text.now) }
{
    let (_, word) = behind_operator(text)?;
    let (_, after) = word.split_at(run_len(ByteClass::VersionWord, word));
    let left = behind_byte(after, b')')?;
    Some(left)
}

// Whether an atom that is its name alone ends in front of a text: where that is empty, or begins with a comma.
fn ends_name(text: &[u8]) -> bool
    ensures { result ≡ ends_name text.now }
{
    match text {
        [first, ..] => *first == b',',
        _ => true,
    }
}

/// The atom at the front, as it is printed, where it stands there so. Most do.
pub(crate) fn printed_atom(text: &[u8]) -> Option<&[u8]>
    ensures { IfSome result (λ printed. IsPrintedAtom text.now printed.now) }
{
    let (name, after) = text.split_at(run_len(ByteClass::Name, text));
    if ends_name(after) {
        return Some(name);
    }
    let bound = behind_byte(after, b' ')?;
    let behind = behind_byte(bound, b'(')?;
    let left = behind_bound(behind)?;
    let (printed, _) = text.split_at(text.len() - left.len());
    Some(printed)
}
