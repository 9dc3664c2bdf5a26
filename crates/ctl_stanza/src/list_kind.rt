//! Kinds of lists.

/// What a list holds.
#[derive(Clone, Copy, PartialEq, Eq)]
pub enum ListKind {
    /// Packages that can be had, as apt fetches such lists. Each stanza has a package and a version.
    Packages,
    /// Packages that a machine knows, as dpkg keeps them in its file `status`. Each stanza has a package and a
    /// state, and a version where its state is a live one.
    Status,
}
