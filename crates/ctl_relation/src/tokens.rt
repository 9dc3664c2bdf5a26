//! The tokens of a relation field: names, qualifiers, operators, versions, and the whitespace between them.

ghost use Rattle.std.specs.Prelude.{◌≡◌, ◌≤◌, ◌<◌, length, true, None, Ok, is_ok, IfOk, IfSome};
ghost use Rattle.std.specs.List.{prefix_len};
ghost use Rattle.std.specs.Option.{option_map};
ghost use Rattle.ctl_relation.specs.Inside.ByteClass.{class_has};
ghost use Rattle.ctl_relation.specs.FieldBytes.{is_whitespace};
ghost use Rattle.ctl_relation.specs.Runs.{rest};
ghost use Rattle.ctl_relation.specs.Reading.{GivesAlways, behind_byte, name_at, qualifier_at};
ghost use Rattle.ctl_relation.specs.Reading.{operator_token, operator_at, version_at, close_at};
ghost use Rattle.ctl_relation.specs.Version.{fault_of};

use crate::byte_class::ByteClass;
use crate::cut::version_fault;
use crate::field_kind::FieldKind;
use crate::operator::Operator;
use crate::relation_fault::RelationFault;

/// How many bytes at the front are of the class.
pub(crate) fn run_len(class: ByteClass, text: &[u8]) -> usize
    ensures len { result ≡ prefix_len (class_has class) text.now }
    ensures within { result ≤ length text.now }
{
    for (i, byte) in text.iter().enumerate() {
        if !class.has(*byte) {
            return i;
        }
    }
    text.len()
}

/// What follows the whitespace at the front.
pub(crate) fn without_whitespace(text: &[u8]) -> &[u8]
    ensures rest { result.now ≡ rest is_whitespace text.now }
    ensures within { length result.now ≤ length text.now }
{
    text.split_at(run_len(ByteClass::Whitespace, text)).1
}

/// What stands behind a byte, if it comes first.
pub(crate) fn behind_byte(text: &[u8], byte: u8) -> Option<&[u8]>
    ensures behind { option_map (λ x. x.now) result ≡ behind_byte byte text.now }
    ensures shorter { IfSome result (λ x. length x.now < length text.now) }
{
    match text {
        [first, behind @ ..] if *first == byte => Some(behind),
        _ => None,
    }
}

/// The name at the front, and what follows it.
pub(crate) fn name_of(text: &[u8]) -> Result<(&[u8], &[u8]), RelationFault>
    ensures gives { GivesAlways (λ x. (x.0.now, x.1.now)) result (name_at text.now) }
    ensures shorter { IfOk result (λ x. length x.1.now < length text.now) }
{
    let (name, after) = text.split_at(run_len(ByteClass::Name, text));
    // All its bytes may stand in a name, so that the first one tells whether it is one.
    match name {
        [first, ..] if first.is_ascii_alphanumeric() => Ok((name, after)),
        _ => Err(RelationFault::Name),
    }
}

/// The name at the front, where one stands there, and what follows it. That it is a name isn't looked at again.
pub(crate) fn held_name(text: &[u8]) -> (&[u8], &[u8])
    requires { is_ok (name_at text.now) ≡ true }
    ensures { name_at text.now ≡ Ok (result.0.now, result.1.now) }
{
    text.split_at(run_len(ByteClass::Name, text))
}

/// The qualifier at the front, if a colon begins one, and what follows it.
pub(crate) fn qualifier_of(text: &[u8]) -> Result<(Option<&[u8]>, &[u8]), RelationFault>
    ensures gives { GivesAlways (λ x. (option_map (λ y. y.now) x.0, x.1.now)) result (qualifier_at text.now) }
    ensures within { IfOk result (λ x. length x.1.now ≤ length text.now) }
{
    match text {
        [b':', behind @ ..] => {
            let (qualifier, after) = behind.split_at(run_len(ByteClass::Qualifier, behind));
            if qualifier.is_empty() {
                Err(RelationFault::Name)
            } else {
                Ok((Some(qualifier), after))
            }
        }
        _ => Ok((None, text)),
    }
}

fn operator_token(text: &[u8]) -> Option<(Operator, &[u8])>
    ensures token { option_map (λ x. (x.0, x.1.now)) result ≡ operator_token text.now }
    ensures within { IfSome result (λ x. length x.1.now ≤ length text.now) }
{
    match text {
        [b'<', b'<', after @ ..] => Some((Operator::Earlier, after)),
        [b'<', b'=', after @ ..] => Some((Operator::EarlierOrEqual, after)),
        [b'<', after @ ..] => Some((Operator::EarlierOrEqual, after)),
        [b'=', after @ ..] => Some((Operator::Equal, after)),
        [b'>', b'=', after @ ..] => Some((Operator::LaterOrEqual, after)),
        [b'>', b'>', after @ ..] => Some((Operator::Later, after)),
        [b'>', after @ ..] => Some((Operator::LaterOrEqual, after)),
        _ => None,
    }
}

/// The operator at the front, and what follows it. Provides has `=` alone.
pub(crate) fn operator_of(kind: FieldKind, text: &[u8]) -> Result<(Operator, &[u8]), RelationFault>
    ensures gives { GivesAlways (λ x. (x.0, x.1.now)) result (operator_at kind text.now) }
    ensures within { IfOk result (λ x. length x.1.now ≤ length text.now) }
{
    let Some((operator, after)) = operator_token(text) else {
        return Err(RelationFault::Operator);
    };
    if kind.is_provides() && operator != Operator::Equal {
        return Err(RelationFault::ProvidesOperator);
    }
    Ok((operator, after))
}

/// The version at the front, and what follows it.
pub(crate) fn version_of(text: &[u8]) -> Result<(&[u8], &[u8]), RelationFault>
    ensures gives { GivesAlways (λ x. (x.0.now, x.1.now)) result (version_at text.now) }
    ensures within { IfOk result (λ x. length x.1.now ≤ length text.now) }
    ensures version { IfOk result (λ x. fault_of x.0.now ≡ None) }
{
    let (version, after) = text.split_at(run_len(ByteClass::VersionWord, text));
    match version_fault(version) {
        None => Ok((version, after)),
        Some(_) => Err(RelationFault::Version),
    }
}

/// The version at the front, where one stands there. That it is a version isn't looked at again.
pub(crate) fn held_version(text: &[u8]) -> &[u8]
    requires { is_ok (version_at text.now) ≡ true }
    ensures gives { IfOk (version_at text.now) (λ x. x.0 ≡ result.now) }
    ensures version { fault_of result.now ≡ None }
{
    text.split_at(run_len(ByteClass::VersionWord, text)).0
}

/// What follows the closing parenthesis at the front.
pub(crate) fn close_of(text: &[u8]) -> Result<&[u8], RelationFault>
    ensures gives { GivesAlways (λ x. x.now) result (close_at text.now) }
    ensures within { IfOk result (λ x. length x.now ≤ length text.now) }
{
    match text {
        [b')', after @ ..] => Ok(after),
        _ => Err(RelationFault::Close),
    }
}
