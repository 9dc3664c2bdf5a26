//! A read or a write that failed.

/// A read or a write that failed: it gave or took no byte.
#[derive(Clone, Copy, Debug, PartialEq, Eq)]
pub struct Failed;
