//! Why a list was not loaded.

ghost use Rattle.std.specs.Prelude.{◌≡◌};

use ctl_store::Refusal;

/// Why a list was not loaded, and at which line of its text; the line is 0 where the text has no fault.
#[derive(Clone, Copy, Debug, PartialEq, Eq)]
pub struct LoadFault {
    /// The line of the text whose fault it is, or 0.
    pub line: u64,
    /// Why the list is refused.
    pub cause: Refusal,
}

impl LoadFault {
    /// A refusal of the list, whose text has no fault.
    pub(crate) fn of_list(cause: Refusal) -> LoadFault
        ensures { result ≡ record { line = 0; cause = cause } }
    {
        LoadFault { line: 0, cause }
    }
}
