//! The tokens of an expression to the steps of its truth.

ghost use Rattle.std.specs.Prelude.{◌≡◌, ◌<◌, ◌≤◌, ℕ, [], ◌∷◌, length, ◌++◌, IfOk, IfErr, OnOk, MatchOption};
ghost use Rattle.ctl_filter.specs.Grammar.{Lacks, NoMore, IsAfter, IsNoNeg, IsNoConj, IsNoPred};
ghost use Rattle.ctl_filter.specs.Inside.Reads.{ReadsNeg, ReadsConj, ReadsPred, ReadsTruth};
ghost use Rattle.ctl_filter.specs.Trees.{truth_of};

use crate::token::{Step, Token};
use ctl_store::Refusal;
use std::alloc::{AllocFailed, Global};

/// Why an expression was not read.
#[derive(Clone, Copy, Debug, Drop, PartialEq, Eq)]
enum Fault {
    /// The words are no expression within the limit on nesting.
    Form,
    /// Memory ran out.
    Memory,
}

impl<T: Drop> From<AllocFailed<T>> for Fault {
    ghost use Rattle.std.specs.Prelude.{◌≡◌};
    ghost use Rattle.ctl_filter.specs.declared.reading.Fault.TheVariants.{Memory};

    ghost from_gives = { λ _ fault. fault ≡ Memory };

    fn from(_: AllocFailed<T>) -> Fault {
        Fault::Memory
    }
}

fn after<'a>(tokens: &'a [Token], token: Token) -> Option<&'a [Token]>
    ensures { IsAfter token tokens.now result }
{
    match tokens {
        [first, rest @ ..] if *first == token => Some(rest),
        _ => None,
    }
}

fn first_atom<'a>(tokens: &'a [Token]) -> Option<(usize, &'a [Token])>
    ensures { MatchOption result ((n : ℕ) → Lacks (Token.Atom n) tokens.now) (λ r. tokens.now ≡ Token.Atom r.0 ∷ r.1.now) }
{
    match tokens {
        [Token::Atom(n), rest @ ..] => Some((*n, rest)),
        _ => None,
    }
}

fn push_step(out: &mut Vec<Step>, step: Step) -> Result<(), Fault>
    ensures ok { OnOk result (out.new.items ≡ out.old.items ++ step ∷ []) }
    ensures err { IfErr result (λ e. e ≡ Fault.Memory) }
{
    out.push(step)?;
    Ok(())
}

#[cycle(reading)]
fn read_neg<'a>(tokens: &'a [Token], depth: u32, out: &mut Vec<Step>) -> Result<&'a [Token], Fault>
    ensures read { IfOk result (λ r. ReadsNeg depth tokens.now r.now out.old.items out.new.items) }
    ensures refused { IfErr result (λ e. e ≡ Fault.Form → IsNoNeg depth tokens.now) }
    ensures shorter { IfOk result (λ r. length r.now < length tokens.now) }
{
    if let Some((atom, rest)) = first_atom(tokens) {
        push_step(out, Step::Value(atom))?;
        return Ok(rest);
    }
    if depth == 0 {
        return Err(Fault::Form);
    }
    if let Some(inside) = after(tokens, Token::Bang) {
        let rest = read_neg(inside, depth - 1, out)?;
        push_step(out, Step::Not)?;
        return Ok(rest);
    }
    if let Some(inside) = after(tokens, Token::Open) {
        let closing = read_pred(inside, depth - 1, out)?;
        return match after(closing, Token::Close) {
            Some(rest) => Ok(rest),
            None => Err(Fault::Form),
        };
    }
    Err(Fault::Form)
}

#[cycle(reading)]
fn read_conj<'a>(tokens: &'a [Token], depth: u32, out: &mut Vec<Step>) -> Result<&'a [Token], Fault>
    ensures read { IfOk result (λ r. ReadsConj depth tokens.now r.now out.old.items out.new.items) }
    ensures ends { IfOk result (λ r. Lacks Token.And r.now) }
    ensures refused { IfErr result (λ e. e ≡ Fault.Form → IsNoConj depth tokens.now) }
    ensures shorter { IfOk result (λ r. length r.now < length tokens.now) }
{
    let mut rest = read_neg(tokens, depth, out)?;
    'negs: while let Some(more) = after(rest, Token::And) {
        rest = read_neg(more, depth, out)?;
        push_step(out, Step::Both)?;
    }
    Ok(rest)
}

#[cycle(reading)]
fn read_pred<'a>(tokens: &'a [Token], depth: u32, out: &mut Vec<Step>) -> Result<&'a [Token], Fault>
    ensures read { IfOk result (λ r. ReadsPred depth tokens.now r.now out.old.items out.new.items) }
    ensures ends { IfOk result (λ r. NoMore r.now) }
    ensures refused { IfErr result (λ e. e ≡ Fault.Form → IsNoPred depth tokens.now) }
    ensures shorter { IfOk result (λ r. length r.now < length tokens.now) }
{
    let mut rest = read_conj(tokens, depth, out)?;
    'conjs: while let Some(more) = after(rest, Token::Or) {
        rest = read_conj(more, depth, out)?;
        push_step(out, Step::Either)?;
    }
    Ok(rest)
}

/// How deep `(` and `!` may nest.
const MOST_NESTED: u32 = 100;

/// The steps that make the truth of tokens.
///
/// # Errors
///
/// [`Refusal::Filter`], where they are no expression, or nest deeper than 100; [`Refusal::Memory`].
pub(crate) fn steps_of(alloc: Global, tokens: &[Token]) -> Result<Vec<Step>, Refusal>
    ensures { ReadsTruth result (truth_of tokens.now) }
{
    let mut steps = Vec::new(alloc);
    match read_pred(tokens, MOST_NESTED, &mut steps) {
        Ok(rest) => {
            if rest.is_empty() {
                Ok(steps)
            } else {
                Err(Refusal::Filter)
            }
        }
        Err(Fault::Form) => Err(Refusal::Filter),
        Err(Fault::Memory) => Err(Refusal::Memory),
    }
}
