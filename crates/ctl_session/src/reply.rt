//! What a command came to.

use crate::refusal_at::RefusalAt;

/// What a command came to.
#[derive(Clone, Copy, Debug, PartialEq, Eq)]
pub(crate) enum Reply {
    Refused(RefusalAt),
    /// It is a query, whose answer stands in the buffer.
    Answered,
    /// It is an edit that was accepted.
    Changed,
}
