//! A refusal with its line.

use ctl_store::Refusal;

/// A refusal with the line that it names.
#[derive(Clone, Copy, Debug, PartialEq, Eq)]
pub(crate) struct RefusalAt {
    pub(crate) line: u64,
    pub(crate) cause: Refusal,
}
