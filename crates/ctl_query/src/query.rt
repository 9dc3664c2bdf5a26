//! Queries: what their words ask for.

use ctl_filter::FilterQuery;
use ctl_relation::{Bytes, Version};

/// A word of `show`: a name, and a version if it has one.
#[derive(Drop)]
pub struct AskedRow {
    pub name: Bytes,
    pub version: Option<Version>,
}

/// What `depends` is to show.
#[derive(Clone, Copy, Debug, PartialEq, Eq)]
pub struct DependsOptions {
    /// Important dependencies alone, by `-i`.
    pub important: bool,
    /// Of what is installed alone, by `--installed`.
    pub installed: bool,
}

/// A query of apt-cache(8), or of grep-dctrl(1).
#[derive(Drop)]
pub enum Query {
    /// `pkgnames`: whether all known names are asked for, and the prefix.
    PackageNames(bool, Bytes),
    /// `show`: whether all versions are, and the rows.
    Show(bool, Vec<AskedRow>),
    /// `depends`: what is to be shown, and the names.
    Depends(DependsOptions, Vec<Bytes>),
    /// `rdepends`: whether what is installed alone is, and the names.
    ReverseDepends(bool, Vec<Bytes>),
    /// `unmet`: whether important dependencies alone are.
    Unmet(bool),
    /// `policy`: the names; all packages are asked for where there is none.
    Policy(Vec<Bytes>),
    /// `showpkg`: the names.
    ShowPackage(Vec<Bytes>),
    /// `grep-dctrl`: a filter.
    Filter(FilterQuery),
}
