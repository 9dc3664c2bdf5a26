//! Classes of lists.

/// How far apt takes versions of a list by itself (apt_preferences(5), "NotAutomatic" and "ButAutomaticUpgrades").
#[derive(Clone, Copy, Debug, PartialEq, Eq)]
pub enum ListClass {
    /// A list like others.
    Plain,
    /// Its versions are taken only where they are asked for.
    NotAutomatic,
    /// The same, but what is installed from it is upgraded from it.
    ButAutomatic,
}
