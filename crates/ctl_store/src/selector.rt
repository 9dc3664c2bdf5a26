//! Pin settings and their selectors.

ghost use Rattle.std.specs.Prelude.{◌≡◌, None, Some, IfOk, option_copied, refl};
ghost use Rattle.std.specs.Cmp.{po, partial_equiv_from_equiv};
ghost use Rattle.ctl_store.specs.declared.selector.Selector.TheVariants as selectors;
ghost use Rattle.ctl_store.specs.Pins.{asked_of, is_of, package_for, selector_eq};
ghost use Rattle.ctl_store.specs.SelectorLaws.{selector_cmp, selector_equiv, selector_ties, selector_total};

use crate::pin_version::PinVersion;
use ctl_ordered::Wanted;
use ctl_relation::Bytes;
use std::alloc::{AllocError, Global};
use std::cmp::Ordering;

/// What a pin setting is for (apt_preferences(5)). A release pin names a list: a list's name is its archive, which apt
/// writes `a=NAME`.
///
/// They stand in the order of their packages, those of any package first, then versions before lists.
#[derive(Drop)]
pub enum Selector {
    /// The versions of a package that the pin's version matches.
    Version { package: Bytes, version: PinVersion },
    /// The versions of a package, or where there is none of any package, that the list holds.
    Release { package: Option<Bytes>, list: Bytes },
}

/// A pin setting: a selector and its priority, which is not 0.
#[derive(Drop)]
pub struct PinSetting {
    pub selector: Selector,
    pub priority: i16,
}

impl Selector {
    // The package that it is for, if it is for one.
    pub(crate) fn package(&self) -> Option<&[u8]>
        ensures { option_copied result ≡ package_for self.now }
    {
        match self {
            Selector::Version { package, .. } => Some(package.as_slice()),
            Selector::Release {
                package: Some(package),
                ..
            } => Some(package.as_slice()),
            Selector::Release { package: None, .. } => None,
        }
    }

    // Whether it is a specific one of the package.
    pub(crate) fn is_of(&self, name: &[u8]) -> bool
        ensures { result ≡ is_of name.now self.now }
    {
        self.package() == Some(name)
    }

    // Its form, and the version or list.
    fn asked(&self) -> (u8, &[u8])
        ensures { (result.0, result.1.now) ≡ asked_of self.now }
    {
        match self {
            Selector::Version { version, .. } => (0, version.text()),
            Selector::Release { list, .. } => (1, list.as_slice()),
        }
    }

    /// A copy, which is always made unless memory runs out.
    pub fn try_clone(&self, alloc: Global) -> Result<Selector, AllocError>
        ensures { IfOk result (λ copy. copy ≡ self.now) }
    {
        match self {
            Selector::Version { package, version } => Ok(Selector::Version {
                package: Bytes::from_slice(alloc, package.as_slice())?,
                version: version.try_clone(alloc)?,
            }),
            Selector::Release { package, list } => Ok(Selector::Release {
                package: match package {
                    Some(package) => Some(Bytes::from_slice(alloc, package.as_slice())?),
                    None => None,
                },
                list: Bytes::from_slice(alloc, list.as_slice())?,
            }),
        }
    }
}

impl PinSetting {
    /// A copy, which is always made unless memory runs out.
    pub fn try_clone(&self, alloc: Global) -> Result<PinSetting, AllocError>
        ensures { IfOk result (λ copy. copy ≡ self.now) }
    {
        Ok(PinSetting {
            selector: self.selector.try_clone(alloc)?,
            priority: self.priority,
        })
    }
}

impl PartialEq for Selector {
    ghost eq = { selector_eq };

    ghost laws = { partial_equiv_from_equiv selector_equiv };

    #[tactic(auto, using(crate::specs::SelectorLaws::selector_ties))]
    fn eq(&self, other: &Selector) -> bool {
        self.cmp(other).is_eq()
    }
}

impl Eq for Selector {
    ghost laws = { selector_equiv };
}

impl PartialOrd for Selector {
    ghost partial_cmp = { λ s t. Some (selector_cmp s t) };

    ghost laws = { po selector_total selector_ties };

    fn partial_cmp(&self, other: &Selector) -> Option<Ordering> {
        Some(self.cmp(other))
    }
}

impl Ord for Selector {
    ghost cmp = { selector_cmp };

    ghost total = { selector_total };

    ghost matches_partial_cmp = { λ s t. refl };

    ghost matches_eq = { selector_ties };

    fn cmp(&self, other: &Selector) -> Ordering {
        (self.package(), self.asked()).cmp(&(other.package(), other.asked()))
    }
}

/// What a general pin on a list is looked up by.
#[derive(Clone, Copy)]
pub(crate) struct GeneralOn<'a> {
    pub(crate) list: &'a [u8],
}

impl<'a> Wanted<Selector> for GeneralOn<'a> {
    ghost wanted = { λ general. selectors.Release None general.list.now };

    fn order_of(&self, key: &Selector) -> Ordering {
        (key.package(), key.asked()).cmp(&(None, (1, self.list)))
    }
}
