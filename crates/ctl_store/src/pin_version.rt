//! What version pins ask for.

ghost use Rattle.std.specs.Prelude.{◌≡◌, ◌⊎◌, IfOk, IfSome, is_some, option_copied};
ghost use Rattle.std.specs.List.{list_all};
ghost use Rattle.ctl_relation.specs.Version.{is_upstream_byte};
ghost use Rattle.ctl_store.specs.PinVersions.{is_pin_version, before_star, pin_matches};
ghost use Rattle.std.specs.Str.{bytes_eq};

use ctl_relation::{Bytes, Version, VersionFault};
use std::alloc::{AllocError, Global};
use std::marker::Model;

#[derive(Drop)]
enum Form {
    Exact(Version),
    Prefix(Bytes),
}

/// What a version pin asks for: a version, or a prefix of versions with `*` behind it (apt_preferences(5)). It is
/// seen as its text.
#[derive(Drop)]
pub struct PinVersion {
    form: Form,
}

impl Model for PinVersion {
    ghost use Rattle.std.specs.Prelude.{List, ℕ};
    ghost use Rattle.ctl_store.specs.PinForms.{text_of_form, IsWellFormed};

    ghost Value = { List ℕ };

    ghost view = { λ pin. text_of_form pin.form };

    ghost invariant = { λ pin. IsWellFormed pin.form };
}

fn is_upstream_byte(byte: u8) -> bool
    ensures { result ≡ is_upstream_byte byte }
{
    byte.is_ascii_alphanumeric() || matches!(byte, b'+' | b'.' | b'~' | b'-' | b':')
}

fn are_upstream_bytes(text: &[u8]) -> bool
    ensures { result ≡ list_all is_upstream_byte text.now }
{
    text.iter().all(|byte| is_upstream_byte(*byte))
}

// What stands before the star at the end, if there is one.
fn before_star(text: &[u8]) -> Option<&[u8]>
    ensures { option_copied result ≡ before_star text.now }
{
    text.strip_suffix(b"*")
}

impl PinVersion {
    /// Reads what a version pin asks for: a version, or a prefix of letters, digits and `. + - ~ :`, which may be
    /// empty, with `*` behind it. None where the text is neither.
    pub fn read(alloc: Global, text: &[u8]) -> Result<Option<PinVersion>, AllocError>
        ensures text { IfOk result (λ pin. IfSome pin (λ pin. pin ≡ text.now)) }
        ensures some { IfOk result (λ pin. is_some pin ≡ is_pin_version text.now) }
    {
        match Version::parse(alloc, text) {
            Ok(version) => Ok(Some(PinVersion {
                form: Form::Exact(version),
            })),
            Err(VersionFault::Memory) => Err(AllocError),
            Err(_) => match before_star(text) {
                Some(prefix) if are_upstream_bytes(prefix) => {
                    let text = Bytes::from_slice(alloc, text)?;
                    Ok(Some(PinVersion {
                        form: Form::Prefix(text),
                    }))
                }
                _ => Ok(None),
            },
        }
    }

    /// A copy, which is always made unless memory runs out.
    pub fn try_clone(&self, alloc: Global) -> Result<PinVersion, AllocError>
        ensures { IfOk result (λ copy. copy ≡ self.now) }
    {
        let form = match &self.form {
            Form::Exact(version) => Form::Exact(version.try_clone(alloc)?),
            Form::Prefix(text) => Form::Prefix(Bytes::from_slice(alloc, text.as_slice())?),
        };
        Ok(PinVersion { form })
    }

    /// The text, as it was read.
    pub fn text(&self) -> &[u8]
        ensures { result.now ≡ self.now }
    {
        match &self.form {
            Form::Exact(version) => version.text(),
            Form::Prefix(text) => text.as_slice(),
        }
    }

    /// Whether a version pin of this matches a row of that version: an equal version, or one whose text begins with
    /// the prefix.
    pub fn matches(&self, version: &Version) -> bool
        ensures { result ≡ pin_matches self.now version.now }
    {
        match &self.form {
            Form::Exact(wanted) => wanted == version,
            Form::Prefix(text) => match before_star(text.as_slice()) {
                Some(prefix) => version.text().starts_with(prefix),
                None => false,
            },
        }
    }
}

impl PartialEq for PinVersion {
    ghost use Rattle.std.specs.Cmp.Lexicographic.{nat_list_eq_equiv};
    ghost use Rattle.std.specs.Cmp.{partial_equiv_from_equiv};

    ghost eq = { λ a b. bytes_eq a b };

    ghost laws = { partial_equiv_from_equiv nat_list_eq_equiv };

    fn eq(&self, other: &PinVersion) -> bool {
        self.text() == other.text()
    }
}

impl Eq for PinVersion {
    ghost use Rattle.std.specs.Cmp.Lexicographic.{nat_list_eq_equiv};

    ghost laws = { nat_list_eq_equiv };
}
