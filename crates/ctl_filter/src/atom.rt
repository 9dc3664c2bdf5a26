//! Filters: their atoms, and the truth of each on a stanza.

ghost use Rattle.std.specs.Prelude.{◌≡◌, ℕ, List, IfOk, IfSome, Some, map, take, true, false};
ghost use Rattle.std.specs.List.{list_any};
ghost use Rattle.ctl_filter.specs.Filter.{text_passes, field_passes, atom_passes};
ghost use Rattle.ctl_filter.specs.Rx.{rx_matches};
ghost use Rattle.ctl_filter.specs.Inside.Views.{expression_bytes, expression_ignores_case, expression_tree};
ghost use Rattle.ctl_filter.specs.Inside.Values.{test_of, atom_of};
ghost use Rattle.ctl_filter.specs.Inside.Searchers.{sought_by, finds, is_within_lines, Tree, Fits};

use crate::comparison::Bound;
use crate::expression::Expression;
use crate::finder::Finder;
use crate::pattern_finder::PatternFinder;
use crate::searching::has_newline;
use ctl_relation::{Bytes, Operator, Version};
use ctl_stanza::Stanza;
use regex::bytes::Matcher;
use std::alloc::{AllocError, Global};
use std::marker::Model;
use std::mem::size_of;

/// What an atom asks of a text, letters being taken without regard to case where the first part says so.
#[derive(Drop)]
pub(crate) enum Test {
    Substring(bool, Bytes),
    Exact(bool, Bytes),
    // What a plain pattern doesn't need stands in a box, so that it takes no room of each.
    Expression(Box<Expression>),
    Compare(Operator, Box<Bound>),
}

/// An atom of a filter: the fields whose bodies are its texts, or none where it is the whole stanza's.
#[derive(Drop)]
pub(crate) struct Atom {
    pub(crate) fields: Option<Vec<Bytes>>,
    pub(crate) test: Test,
}

// A line may have some 200,000 atoms.
const _: () = prove!(size_of::<Atom>() <= 64);

/// What serves each search by one test again. A matcher is large, and a plain pattern is to take little.
#[derive(Drop)]
pub(crate) enum Searcher<'q> {
    /// What searches for the pattern of a substring; in any case, for its small letters.
    Substring(Box<PatternFinder<'q>>),
    /// What searches for the pattern of `--rx`.
    Matcher(Box<Matcher<'q>>),
}

/// Whether a substring stands in the text, by its own searcher.
fn has_substring(
    any_case: bool,
    searcher: &Option<Searcher<'_>>,
    text: &[u8],
    room: &mut Vec<u8>,
) -> Result<bool, AllocError>
    ensures { IfOk result (λ found. found ≡ finds any_case (sought_by searcher.now) text.now) }
{
    match searcher {
        Some(Searcher::Substring(finder)) if any_case => finder.is_in_lowered(text, room),
        Some(Searcher::Substring(finder)) => Ok(finder.is_in(text)),
        _ => Ok(false),
    }
}

/// Whether the expression has a match in the text, by its own searcher.
fn has_match(expression: &Expression, searcher: &mut Option<Searcher<'_>>, text: &[u8]) -> bool
    requires { sought_by searcher.old ≡ Some (Tree (expression_tree expression.now)) }
    ensures found { result ≡ rx_matches (expression_ignores_case expression.now) (expression_bytes expression.now) text.now }
    ensures same { sought_by searcher.new ≡ sought_by searcher.old }
{
    match searcher {
        Some(Searcher::Matcher(matcher)) => expression.is_match(&mut **matcher, text),
        _ => false,
    }
}

/// The version of a stanza, if the text is that.
fn version_of<'a>(stanza: &'a Stanza, text: &[u8]) -> Option<&'a Version>
    ensures { IfSome result (λ version. version.now ≡ text.now) }
{
    let version = stanza.version()?;
    if version.text() == text {
        Some(version)
    } else {
        None
    }
}

/// The searcher of a test, if it needs one.
fn searcher_of(alloc: Global, test: &Test) -> Result<Option<Searcher<'_>>, AllocError>
    ensures { IfOk result (λ searcher. Fits test.now searcher) }
{
    let searcher = match test {
        Test::Substring(any_case, pattern) => {
            let finder = PatternFinder::new(alloc, *any_case, pattern.as_slice())?;
            Searcher::Substring(Box::new(alloc, finder)?)
        }
        Test::Expression(expression) => {
            let matcher = expression.matcher(alloc)?;
            Searcher::Matcher(Box::new(alloc, matcher)?)
        }
        _ => return Ok(None),
    };
    Ok(Some(searcher))
}

/// Whether a test asks for a substring whose pattern has no newline.
fn is_within_lines(test: &Test) -> bool
    ensures { result ≡ is_within_lines test.now }
{
    match test {
        Test::Substring(_, pattern) => !has_newline(pattern.as_slice()),
        _ => false,
    }
}

/// A test with what searches for its pattern, which is made once for all texts.
#[derive(Drop)]
struct PreparedTest<'q> {
    test: &'q Test,
    searcher: Option<Searcher<'q>>,
    // Whether it asks for a substring whose pattern has no newline, which is looked for once.
    within_lines: bool,
}

impl<'q> Model for PreparedTest<'q> {
    ghost use Rattle.std.specs.Prelude.{◌≡◌};
    ghost use Rattle.ctl_filter.specs.Filter.{Test};
    ghost use Rattle.ctl_filter.specs.Inside.Values.{test_of};
    ghost use Rattle.ctl_filter.specs.Inside.Searchers.{is_within_lines, Fits};

    ghost Value = { Test };

    ghost view = { λ p. test_of p.test.now };

    ghost invariant = { λ p. Fits p.test.now p.searcher × (p.within_lines ≡ is_within_lines p.test.now) };
}

impl<'q> PreparedTest<'q> {
    fn new(alloc: Global, test: &'q Test) -> Result<PreparedTest<'q>, AllocError>
        ensures { IfOk result (λ p. p ≡ test_of test.now) }
    {
        let searcher = searcher_of(alloc, test)?;
        let within_lines = is_within_lines(test);
        Ok(PreparedTest {
            test,
            searcher,
            within_lines,
        })
    }

    /// Whether a text passes.
    #[tactic(auto, using(crate::proofs::AnyCaseLemmas::contains_lowered))]
    fn text_passes(&mut self, text: &[u8], room: &mut Vec<u8>) -> Result<bool, AllocError>
        ensures passes { IfOk result (λ passes. passes ≡ text_passes self.old text.now) }
        ensures same { self.new ≡ self.old }
    {
        match self.test {
            Test::Substring(any_case, _) => has_substring(*any_case, &self.searcher, text, room),
            Test::Exact(false, pattern) => Ok(text == pattern.as_slice()),
            Test::Exact(true, pattern) => Ok(text.eq_ignore_ascii_case(pattern.as_slice())),
            Test::Expression(expression) => Ok(has_match(expression, &mut self.searcher, text)),
            Test::Compare(operator, bound) => bound.is_met_by(*room.allocator(), *operator, text),
        }
    }

    /// Whether a body of a stanza passes. One that is the stanza's version is not read anew, which could take memory.
    fn body_passes(
        &mut self,
        stanza: &Stanza,
        body: &[u8],
        room: &mut Vec<u8>,
    ) -> Result<bool, AllocError>
        ensures passes { IfOk result (λ passes. passes ≡ text_passes self.old body.now) }
        ensures same { self.new ≡ self.old }
    {
        if let Test::Compare(operator, bound) = self.test {
            if let Some(version) = version_of(stanza, body) {
                return Ok(bound.is_met_by_version(*operator, version));
            }
        }
        self.text_passes(body, room)
    }

    fn field_passes(
        &mut self,
        finder: &Finder<'_>,
        name: &[u8],
        room: &mut Vec<u8>,
    ) -> Result<bool, AllocError>
        ensures passes { IfOk result (λ passes. passes ≡ field_passes self.old finder.now name.now) }
        ensures same { self.new ≡ self.old }
    {
        match finder.body(name)? {
            Some(body) => self.body_passes(finder.stanza(), body, room),
            None => Ok(false),
        }
    }

    fn any_field_passes(
        &mut self,
        names: &[Bytes],
        finder: &Finder<'_>,
        room: &mut Vec<u8>,
    ) -> Result<bool, AllocError>
        ensures passes { IfOk result (λ passes. passes ≡ list_any (field_passes self.old finder.now) names.now) }
        ensures same { self.new ≡ self.old }
    {
        for name in names {
            if self.field_passes(finder, name.as_slice(), room)? {
                return Ok(true);
            }
        }
        Ok(false)
    }

    /// Whether the pattern of a substring stands nowhere in a stanza's text. Then it stands in no body: the pattern has no newline, and
    /// each line of a body is a part of a line of the text. The text is searched in less time than a field of it is found.
    #[tactic(auto, using(crate::proofs::BodyLemmas::nowhere))]
    fn is_nowhere(&self, stanza: &Stanza, room: &mut Vec<u8>) -> Result<bool, AllocError>
        ensures { IfOk result (λ nowhere. nowhere ≡ true
            → (names : List (List ℕ)) → list_any (field_passes self.now stanza.now) names ≡ false) }
    {
        if !self.within_lines {
            return Ok(false);
        }
        match self.test {
            Test::Substring(any_case, _) => {
                Ok(!has_substring(*any_case, &self.searcher, stanza.text(), room)?)
            }
            _ => Ok(false),
        }
    }
}

/// An atom with its searcher, which is made once for all stanzas.
#[derive(Drop)]
pub(crate) struct Prepared<'q> {
    atom: &'q Atom,
    test: PreparedTest<'q>,
}

impl<'q> Model for Prepared<'q> {
    ghost use Rattle.std.specs.Prelude.{◌≡◌};
    ghost use Rattle.ctl_filter.specs.Filter.{Atom};
    ghost use Rattle.ctl_filter.specs.Inside.Values.{atom_of, test_of};

    ghost Value = { Atom };

    ghost view = { λ p. atom_of p.atom.now };

    ghost invariant = { λ p. p.test ≡ test_of p.atom.now.test };
}

impl<'q> Prepared<'q> {
    pub(crate) fn new(alloc: Global, atom: &'q Atom) -> Result<Prepared<'q>, AllocError>
        ensures { IfOk result (λ p. p ≡ atom_of atom.now) }
    {
        let test = PreparedTest::new(alloc, &atom.test)?;
        Ok(Prepared { atom, test })
    }

    /// Whether a stanza passes. The room serves again.
    pub(crate) fn passes(&mut self, stanza: &Stanza, room: &mut Vec<u8>) -> Result<bool, AllocError>
        ensures passes { IfOk result (λ passes. passes ≡ atom_passes stanza.now self.old) }
        ensures same { self.new ≡ self.old }
    {
        match &self.atom.fields {
            None => self.test.text_passes(stanza.text(), room),
            Some(names) => {
                if self.test.is_nowhere(stanza, room)? {
                    return Ok(false);
                }
                let finder = Finder::new(*room.allocator(), stanza, names.len())?;
                self.test.any_field_passes(names, &finder, room)
            }
        }
    }
}
