//! The words of commands on pins.

ghost use Rattle.std.specs.Prelude.{◌≡◌, IfOk};
ghost use Rattle.ctl_store.specs.Edits.{edit_of};
ghost use Rattle.ctl_filter.specs.Read.{Reads};
ghost use Rattle.ctl_session.specs.Request.{version_selector, release_selector, selector_of as selector_asked};
ghost use Rattle.ctl_session.specs.Request.{pin_edit as pin_asked, unpin_edit as unpin_asked};

use crate::list_words::copied;
use ctl_relation::{Bytes, is_name};
use ctl_store::{Edit, PinSetting, PinVersion, Refusal, Selector, read_priority};
use std::alloc::Global;

/// `PKG version V`
fn version_selector(alloc: Global, name: &Bytes, version: &Bytes) -> Result<Selector, Refusal>
    ensures { Reads (λ selector. selector) result (version_selector name.now version.now) }
{
    if name.as_slice() == b"*".as_slice() {
        return Err(Refusal::Usage);
    }
    if !is_name(name.as_slice()) {
        return Err(Refusal::Name);
    }
    match PinVersion::read(alloc, version.as_slice()) {
        Ok(Some(version)) => {
            let package = copied(alloc, name)?;
            Ok(Selector::Version { package, version })
        }
        Ok(None) => Err(Refusal::Version),
        Err(_) => Err(Refusal::Memory),
    }
}

/// `PKG release LIST`, or with `*` for all packages
fn release_selector(alloc: Global, name: &Bytes, list: &Bytes) -> Result<Selector, Refusal>
    ensures { Reads (λ selector. selector) result (release_selector name.now list.now) }
{
    if name.as_slice() == b"*".as_slice() {
        if !is_name(list.as_slice()) {
            return Err(Refusal::Name);
        }
        let list = copied(alloc, list)?;
        return Ok(Selector::Release {
            package: None,
            list,
        });
    }
    if !is_name(name.as_slice()) {
        return Err(Refusal::Name);
    }
    if !is_name(list.as_slice()) {
        return Err(Refusal::Name);
    }
    let package = copied(alloc, name)?;
    let list = copied(alloc, list)?;
    Ok(Selector::Release {
        package: Some(package),
        list,
    })
}

/// The selector that three words give.
fn selector_of(
    alloc: Global,
    name: &Bytes,
    form: &Bytes,
    value: &Bytes,
) -> Result<Selector, Refusal>
    ensures { Reads (λ selector. selector) result (selector_asked name.now form.now value.now) }
{
    if form.as_slice() == b"version".as_slice() {
        version_selector(alloc, name, value)
    } else if form.as_slice() == b"release".as_slice() {
        release_selector(alloc, name, value)
    } else {
        Err(Refusal::Usage)
    }
}

/// `pin` with a selector and a priority
pub(crate) fn pin_edit(alloc: Global, words: &[Bytes]) -> Result<Edit, Refusal>
    ensures { Reads edit_of result (pin_asked words.now) }
{
    match words {
        [name, form, value, priority] => {
            let selector = match selector_of(alloc, name, form, value) {
                Ok(selector) => selector,
                Err(cause) => return Err(cause),
            };
            match read_priority(priority.as_slice()) {
                Some(priority) => {
                    let setting = PinSetting { selector, priority };
                    Ok(Edit::Pin { setting })
                }
                None => Err(Refusal::Priority),
            }
        }
        _ => Err(Refusal::Usage),
    }
}

/// `unpin` with a selector
pub(crate) fn unpin_edit(alloc: Global, words: &[Bytes]) -> Result<Edit, Refusal>
    ensures { Reads edit_of result (unpin_asked words.now) }
{
    match words {
        [name, form, value] => match selector_of(alloc, name, form, value) {
            Ok(selector) => Ok(Edit::Unpin { selector }),
            Err(cause) => Err(cause),
        },
        _ => Err(Refusal::Usage),
    }
}
