//! Patterns of `--rx`: built from bytes, matched on bytes.

ghost use Rattle.std.specs.Prelude.{◌≡◌, IfOk, IfErr, true};
ghost use Rattle.regex.specs.Bytes.{regex_source, regex_config, regex_pattern, matcher_pattern, IsReadFromSource};
ghost use Rattle.ctl_filter.specs.Rx.{rx_config, rx_matches, is_well_formed};
ghost use Rattle.ctl_filter.specs.Inside.Faults.{IsFaultOf};

use ctl_store::Refusal;
use regex::bytes::{Matcher, Regex};
use regex::{Error, RegexBuilder};
use std::alloc::{AllocError, Global};
use std::str;

/// Why a pattern was not built.
#[derive(Clone, Copy, Debug, Drop, PartialEq, Eq)]
pub(crate) enum PatternFault {
    /// It isn't UTF-8, or the grammar of `regex` doesn't read it, or it nests too deep.
    Malformed,
    /// It is well formed, and what `regex` would build of it is too big.
    TooBig,
    /// Memory ran out.
    Memory,
}

impl From<PatternFault> for Refusal {
    ghost use Rattle.std.specs.Prelude.{◌≡◌};
    ghost use Rattle.ctl_filter.specs.Inside.Faults.{refusal_of};

    ghost from_gives = { λ fault cause. cause ≡ refusal_of fault };

    fn from(fault: PatternFault) -> Refusal {
        match fault {
            PatternFault::Malformed | PatternFault::TooBig => Refusal::Pattern,
            PatternFault::Memory => Refusal::Memory,
        }
    }
}

/// A pattern that `regex` has built.
#[derive(Drop)]
pub(crate) struct Expression {
    regex: Regex,
    ignores_case: bool,
    pub ghost read: { ∥ IsReadFromSource regex ∥₁ },
    pub ghost config: { regex_config regex ≡ rx_config ignores_case },
}

impl Expression {
    ghost use Rattle.ctl_filter.specs.Inside.Views.{expression_bytes, expression_ignores_case, expression_tree};

    /// Builds a pattern, whose tables may take about so many bytes.
    pub(crate) fn new(
        alloc: Global,
        pattern: &[u8],
        ignores_case: bool,
        size_limit: usize,
    ) -> Result<Expression, PatternFault>
        ensures bytes { IfOk result (λ e. expression_bytes e ≡ pattern.now) }
        ensures case { IfOk result (λ e. expression_ignores_case e ≡ ignores_case) }
        ensures well_formed { IfOk result (λ e. is_well_formed ignores_case pattern.now ≡ true) }
        ensures fault { IfErr result (λ fault. IsFaultOf ignores_case pattern.now fault) }
    {
        let Ok(source) = str::from_utf8(pattern) else {
            return Err(PatternFault::Malformed);
        };
        let builder = RegexBuilder::new(source)
            .case_insensitive(ignores_case)
            .size_limit(size_limit);
        match builder.build_bytes(alloc) {
            Ok(regex) => Ok(Expression {
                regex,
                ignores_case,
            }),
            Err(Error::Syntax(_)) => Err(PatternFault::Malformed),
            Err(Error::CompiledTooBig) => Err(PatternFault::TooBig),
            Err(Error::Internal) => Err(PatternFault::TooBig),
            Err(Error::OutOfMemory) => Err(PatternFault::Memory),
        }
    }

    /// What searches for the pattern.
    pub(crate) fn matcher(&self, alloc: Global) -> Result<Matcher<'_>, AllocError>
        ensures { IfOk result (λ m. matcher_pattern m ≡ expression_tree self.now) }
    {
        self.regex.matcher(alloc)
    }

    /// Whether the expression that `regex` read has a match in the text, by its own matcher.
    pub(crate) fn is_match(&self, matcher: &mut Matcher<'_>, text: &[u8]) -> bool
        requires { matcher_pattern matcher.old ≡ expression_tree self.now }
        ensures found { result ≡ rx_matches (expression_ignores_case self.now) (expression_bytes self.now) text.now }
        ensures same { matcher_pattern matcher.new ≡ matcher_pattern matcher.old }
    {
        let _case = self.ignores_case;
        matcher.is_match(text)
    }
}
