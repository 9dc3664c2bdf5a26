//! Comparisons of versions.

ghost use Rattle.std.specs.Prelude.{◌≡◌, IfOk};
ghost use Rattle.ctl_relation.specs.Met.{relates};
ghost use Rattle.ctl_filter.specs.Filter.{version_in, are_related};

use ctl_relation::{Bytes, Operator, Version, VersionFault};
use std::alloc::{AllocError, Global};
use std::marker::Model;

/// A version, if the text is one. One of few bytes takes no memory.
fn version_in(alloc: Global, text: &[u8]) -> Result<Option<Version>, AllocError>
    ensures { IfOk result (λ version. version ≡ version_in text.now) }
{
    match Version::parse(alloc, text) {
        Ok(version) => Ok(Some(version)),
        Err(VersionFault::Memory) => Err(AllocError),
        Err(_) => Ok(None),
    }
}

fn relates(operator: Operator, version: &Version, bound: &Version) -> bool
    ensures { result ≡ relates operator version.now bound.now }
{
    let order = version.cmp(bound);
    match operator {
        Operator::Earlier => order.is_lt(),
        Operator::EarlierOrEqual => order.is_le(),
        Operator::Equal => order.is_eq(),
        Operator::LaterOrEqual => order.is_ge(),
        Operator::Later => order.is_gt(),
    }
}

fn are_related(operator: Operator, version: &Option<Version>, bound: &Option<Version>) -> bool
    ensures { result ≡ are_related operator version.now bound.now }
{
    match (version, bound) {
        (Some(version), Some(bound)) => relates(operator, version, bound),
        _ => false,
    }
}

/// What texts are compared with: a pattern, and the version that it is, if it is one, read once for all stanzas.
#[derive(Drop)]
pub(crate) struct Bound {
    pattern: Bytes,
    version: Option<Version>,
}

impl Model for Bound {
    ghost use Rattle.std.specs.Prelude.{◌≡◌, ℕ, List};
    ghost use Rattle.ctl_filter.specs.Filter.{version_in};

    ghost Value = { List ℕ };

    ghost view = { λ b. b.pattern };

    ghost invariant = { λ b. b.version ≡ version_in b.pattern };
}

impl Bound {
    /// Reads a pattern, in a box.
    pub(crate) fn boxed(alloc: Global, pattern: Bytes) -> Result<Box<Bound>, AllocError>
        ensures { IfOk result (λ bound. bound.value ≡ pattern) }
    {
        let version = version_in(alloc, pattern.as_slice())?;
        let bound = Bound { pattern, version };
        Ok(Box::new(alloc, bound)?)
    }

    /// Whether the pattern is a version, and this one stands so to it.
    pub(crate) fn is_met_by_version(&self, operator: Operator, version: &Version) -> bool
        ensures { result ≡ are_related operator (version_in version.now) (version_in self.now) }
    {
        // That it has no fault is said here.
        let _text = version.text();
        match &self.version {
            Some(bound) => relates(operator, version, bound),
            None => false,
        }
    }

    /// Whether both are versions, and the text stands so to the pattern.
    pub(crate) fn is_met_by(
        &self,
        alloc: Global,
        operator: Operator,
        text: &[u8],
    ) -> Result<bool, AllocError>
        ensures { IfOk result (λ met. met ≡ are_related operator (version_in text.now) (version_in self.now)) }
    {
        let version = version_in(alloc, text)?;
        Ok(are_related(operator, &version, &self.version))
    }
}
