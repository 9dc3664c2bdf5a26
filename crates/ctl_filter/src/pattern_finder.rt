//! What finds the pattern of a substring in texts.

ghost use Rattle.std.specs.Prelude.{◌≡◌, ◌+◌, ◌≤◌, IfOk, IfSome, is_some, length, true, if◌then◌else◌};
ghost use Rattle.std.specs.Bool.{OnTrue};
ghost use Rattle.std.specs.Str.{str_to_ascii_lowercase};
ghost use Rattle.ctl_filter.specs.Substring.{contains};
ghost use Rattle.ctl_filter.specs.Inside.CaseBits.{with_case_bits};

use crate::searching::lowered;
use bstr::Finder;
use std::alloc::{AllocError, Global};

/// Where the pattern of a finder first stands in the text, if it does.
fn place_in(finder: &Finder<'_>, text: &[u8]) -> Option<usize>
    ensures found { is_some result ≡ contains finder.now text.now }
    ensures fits { IfSome result (λ at. at + length finder.now ≤ length text.now) }
{
    finder.find(text)
}

/// Whether the pattern of a finder stands somewhere in the text.
fn has_pattern(finder: &Finder<'_>, text: &[u8]) -> bool
    ensures { result ≡ contains finder.now text.now }
{
    place_in(finder, text).is_some()
}

/// A finder of a pattern; in any case, of its small letters.
fn finder_of<'q>(alloc: Global, any_case: bool, pattern: &'q [u8]) -> Result<Finder<'q>, AllocError>
    ensures { IfOk result (λ finder. finder ≡ (if any_case then str_to_ascii_lowercase pattern.now else pattern.now)) }
{
    if any_case {
        let small = lowered(alloc, pattern)?;
        return Finder::new(&small).into_owned(alloc);
    }
    Ok(Finder::new(pattern))
}

// The bit that the small letters of ASCII have and the capital ones don't.
const CASE_BIT: u8 = 0x20;

// Whether each byte of a pattern has the case bit.
fn has_case_bits(pattern: &[u8]) -> bool
    ensures { OnTrue result (with_case_bits pattern.now ≡ pattern.now) }
{
    for byte in pattern {
        if *byte | CASE_BIT != *byte {
            return false;
        }
    }
    true
}

/// What finds a pattern in texts; in any case, the small letters of the pattern in those of the texts.
#[derive(Drop)]
pub(crate) struct PatternFinder<'q> {
    finder: Finder<'q>,
    // Whether each byte that is looked for has the case bit.
    has_case_bits: bool,
    ghost case_bits: { has_case_bits ≡ true → with_case_bits finder ≡ finder },
}

impl<'q> PatternFinder<'q> {
    /// What finds a pattern.
    pub(crate) fn new(
        alloc: Global,
        any_case: bool,
        pattern: &'q [u8],
    ) -> Result<PatternFinder<'q>, AllocError>
        ensures { IfOk result (λ it. it.finder ≡ (if any_case then str_to_ascii_lowercase pattern.now else pattern.now)) }
    {
        let finder = finder_of(alloc, any_case, pattern)?;
        let has_case_bits = has_case_bits(finder.needle());
        Ok(PatternFinder {
            finder,
            has_case_bits,
        })
    }

    /// Whether the pattern stands somewhere in the text.
    pub(crate) fn is_in(&self, text: &[u8]) -> bool
        ensures { result ≡ contains self.now.finder text.now }
    {
        has_pattern(&self.finder, text)
    }

    // Whether the text has the pattern once its letters are small ones, where a copy whose bytes all have the case bit tells it: the
    // copy has the pattern then too, if all bytes of this have the bit.
    #[tactic(auto, using(crate::proofs::CaseBitLemmas::not_in_lowered, crate::proofs::CaseBitLemmas::in_lowered))]
    fn is_in_by_case_bits(&self, text: &[u8], room: &mut [u8]) -> Option<bool>
        requires { length room.old ≡ length text.now }
        ensures found { IfSome result (λ found. found ≡ contains self.now.finder (str_to_ascii_lowercase text.now)) }
        ensures room { length room.new ≡ length text.now }
    {
        if !self.has_case_bits {
            return None;
        }
        write_with_case_bits(text, room);
        let pattern = self.finder.needle();
        match place_in(&self.finder, room) {
            None => Some(false),
            Some(at) if is_lowered(&text[at..at + pattern.len()], pattern) => Some(true),
            Some(_) => None,
        }
    }

    /// Whether the pattern, whose letters are small ones, stands somewhere in the text once its letters are small ones too. This takes
    /// time in proportion to both, and memory where the room is too small for the text.
    pub(crate) fn is_in_lowered(&self, text: &[u8], room: &mut Vec<u8>) -> Result<bool, AllocError>
        ensures { IfOk result (λ found. found ≡ contains self.now.finder (str_to_ascii_lowercase text.now)) }
    {
        if room.len() < text.len() {
            room.resize(text.len(), 0)?;
        }
        let small = &mut room[..text.len()];
        if let Some(found) = self.is_in_by_case_bits(text, small) {
            return Ok(found);
        }
        write_lowered(text, small);
        Ok(has_pattern(&self.finder, small))
    }
}

// Whether a pattern is a text with small letters in place of capital ones.
fn is_lowered(text: &[u8], pattern: &[u8]) -> bool
    requires { length text.now ≡ length pattern.now }
    ensures { OnTrue result (str_to_ascii_lowercase text.now ≡ pattern.now) }
{
    for i in 0..text.len() {
        if text[i].to_ascii_lowercase() != pattern[i] {
            return false;
        }
    }
    true
}

/// Writes a copy of a text whose bytes all have the case bit over a room of the text's length. That takes a step for many bytes at
/// once, and fewer than small letters do.
fn write_with_case_bits(text: &[u8], room: &mut [u8])
    requires { length room.old ≡ length text.now }
    ensures { room.new ≡ with_case_bits text.now }
{
    for i in 0..text.len() {
        room[i] = text[i] | CASE_BIT;
    }
}

/// Writes a copy of a text with small letters in place of capital ones over a room of the text's length. The text is gone through
/// once, many bytes at a time.
fn write_lowered(text: &[u8], room: &mut [u8])
    requires { length room.old ≡ length text.now }
    ensures { room.new ≡ str_to_ascii_lowercase text.now }
{
    for i in 0..text.len() {
        room[i] = text[i].to_ascii_lowercase();
    }
}
