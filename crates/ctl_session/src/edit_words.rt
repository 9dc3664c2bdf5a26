//! The words of commands on stanzas, marks and the target release.

ghost use Rattle.std.specs.Prelude.{◌≡◌, ◌⊎◌, IfOk, IfErr, None, is_none, false};
ghost use Rattle.ctl_relation.specs.Version.{fault_of};
ghost use Rattle.ctl_store.specs.declared.refusal.Refusal.TheVariants.{Memory, Version as BadVersion};
ghost use Rattle.ctl_store.specs.Edits.{edit_of};
ghost use Rattle.ctl_filter.specs.Read.{Reads};
ghost use Rattle.ctl_session.specs.Request.{remove_edit as remove_asked, mark_edit as mark_asked, target_edit as target_asked};

use crate::list_words::copied;
use ctl_relation::{Bytes, Version, VersionFault, is_name};
use ctl_store::{Edit, Refusal};
use std::alloc::Global;

/// A word that has to be a version.
fn version_of(alloc: Global, word: &Bytes) -> Result<Version, Refusal>
    ensures ok { IfOk result (λ version. (version ≡ word.now) × (fault_of word.now ≡ None)) }
    ensures err { IfErr result (λ cause. (cause ≡ Memory) ⊎ ((cause ≡ BadVersion) × (is_none (fault_of word.now) ≡ false))) }
{
    match Version::parse(alloc, word.as_slice()) {
        Ok(version) => Ok(version),
        Err(VersionFault::Memory) => Err(Refusal::Memory),
        Err(_) => Err(Refusal::Version),
    }
}

/// `remove NAME PKG VERSION`
pub(crate) fn remove_edit(alloc: Global, words: &[Bytes]) -> Result<Edit, Refusal>
    ensures { Reads edit_of result (remove_asked words.now) }
{
    match words {
        [list, name, version] => {
            if !is_name(list.as_slice()) {
                return Err(Refusal::Name);
            }
            if !is_name(name.as_slice()) {
                return Err(Refusal::Name);
            }
            let version = version_of(alloc, version)?;
            let list = copied(alloc, list)?;
            let package = copied(alloc, name)?;
            Ok(Edit::Remove {
                list,
                package,
                version,
            })
        }
        _ => Err(Refusal::Usage),
    }
}

/// `mark PKG VERSION` or `mark PKG none`
pub(crate) fn mark_edit(alloc: Global, words: &[Bytes]) -> Result<Edit, Refusal>
    ensures { Reads edit_of result (mark_asked words.now) }
{
    match words {
        [name, version] => {
            if !is_name(name.as_slice()) {
                return Err(Refusal::Name);
            }
            if version.as_slice() == b"none".as_slice() {
                let package = copied(alloc, name)?;
                return Ok(Edit::Mark {
                    package,
                    version: None,
                });
            }
            let version = version_of(alloc, version)?;
            let package = copied(alloc, name)?;
            Ok(Edit::Mark {
                package,
                version: Some(version),
            })
        }
        _ => Err(Refusal::Usage),
    }
}

/// `target NAME` or `target none`
pub(crate) fn target_edit(alloc: Global, words: &[Bytes]) -> Result<Edit, Refusal>
    ensures { Reads edit_of result (target_asked words.now) }
{
    match words {
        [name] => {
            if name.as_slice() == b"none".as_slice() {
                return Ok(Edit::Target { name: None });
            }
            if !is_name(name.as_slice()) {
                return Err(Refusal::Name);
            }
            let name = copied(alloc, name)?;
            Ok(Edit::Target { name: Some(name) })
        }
        _ => Err(Refusal::Usage),
    }
}
