//! Why a text is no version.

ghost use Rattle.std.specs.Prelude.{◌≡◌};
ghost use Rattle.ctl_relation.specs.declared.version_fault.VersionFault.TheVariants.{Memory};

use std::alloc::AllocError;

/// Why a text is no version (Debian Policy 5.6.12): the first test that it fails, in the order of the variants,
/// or out of memory.
#[derive(Clone, Copy, Debug, PartialEq, Eq)]
pub enum VersionFault {
    /// The text has no byte.
    Empty,
    /// What stands before the first colon has no digit, has another byte than a digit, or is above 2147483647.
    /// Zeros in front are allowed.
    Epoch,
    /// The upstream version is empty.
    Upstream,
    /// The upstream version has another byte than letters, digits and `. + - ~ :`, or the revision another than
    /// letters, digits and `+ . ~`.
    Character,
    /// Nothing follows the last hyphen.
    Revision,
    /// There was no memory to keep the text.
    Memory,
}

impl From<AllocError> for VersionFault {
    ghost from_gives = { λ _ fault. fault ≡ Memory };

    fn from(_error: AllocError) -> VersionFault {
        VersionFault::Memory
    }
}
