//! Names of packages and of lists.

ghost use Rattle.std.specs.Prelude.{◌≡◌};
ghost use Rattle.std.specs.List.{list_all};
ghost use Rattle.ctl_relation.specs.Names.{is_name_byte, is_name, NamesByTheirBytes};

use crate::byte_class::ByteClass;

fn are_name_bytes(text: &[u8]) -> bool
    ensures { result ≡ list_all is_name_byte text.now }
{
    text.iter().all(|byte| ByteClass::Name.has(*byte))
}

/// Whether a text is a name: letters, digits and `+ - . _`, of which the first is a letter or a digit.
///
/// This is wider than Debian Policy 5.6.1, which has no capital letters and no underscore, and asks for two bytes.
pub fn is_name(text: &[u8]) -> bool
    ensures { result ≡ is_name text.now }
{
    match text {
        [] => false,
        [first, others @ ..] => { first.is_ascii_alphanumeric() && are_name_bytes(others) }
    }
}

/// A text is a name exactly where it has a byte, the first is a letter or a digit, and each may stand in a name.
#[tactic(auto, using(crate::proofs::NameLaws::names_by_their_bytes))]
pub fn names_by_their_bytes()
    ensures { NamesByTheirBytes }
{}
