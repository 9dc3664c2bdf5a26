//! Why a list was not loaded from a source.

use crate::load_fault::LoadFault;

/// Why a list was not loaded from a source.
#[derive(Clone, Copy, Debug, PartialEq, Eq)]
pub enum SourceFault {
    /// A read failed.
    Read,
    /// The source gives more than 4,294,967,295 bytes.
    TooLong,
    /// All was read, and the list is refused.
    Refused(LoadFault),
}
