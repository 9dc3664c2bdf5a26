//! Words to a filter.

ghost use Rattle.std.specs.Prelude.{◌≡◌, ◌⊎◌, ◌++◌, ◌*◌, ◌/◌, ◌^◌, max, ◌∷◌, [], OnOk, IfOk, IfErr, Ok, map, true, false};
ghost use Rattle.std.specs.List.{count_by, list_all, list_any};
ghost use Rattle.ctl_store.specs.declared.refusal.Refusal.TheVariants as refusal;
ghost use Rattle.ctl_filter.specs.Filter.{is_readable, has_expression};
ghost use Rattle.ctl_filter.specs.Rx.{is_well_formed};
ghost use Rattle.ctl_filter.specs.Filter as asked;
ghost use Rattle.ctl_filter.specs.Inside.Views.{expression_bytes, expression_ignores_case};
ghost use Rattle.ctl_filter.specs.Inside.Values.{asked_atom, atom_of, test_of, shown_of, AreOptionsOf};
ghost use Rattle.ctl_filter.specs.HeldQuery.{IsAskedBy};
ghost use Rattle.ctl_filter.specs.Names.{are_field_names};
ghost use Rattle.ctl_filter.specs.Atoms.{names_shown};
ghost use Rattle.ctl_filter.specs.Query.{shown_by, if_pieces, filter_of};

use crate::atom::{Atom, Test};
use crate::cluster::pieces_of;
use crate::comparison::Bound;
use crate::expression::Expression;
use crate::gathering::{AskedAtom, Gathered, Modifiers, parts_of};
use crate::names::are_field_names;
use crate::options::{fields_shown, is_given, names_shown};
use crate::piece::{Manner, Piece};
use crate::query::{FilterQuery, Shown};
use crate::reading::steps_of;
use ctl_relation::{Bytes, Operator};
use ctl_store::Refusal;
use std::alloc::{AllocError, Global};

fn expression_test(alloc: Global, expression: Expression) -> Result<Test, AllocError>
    ensures { IfOk result (λ test. test_of test
        ≡ asked.Expression (expression_ignores_case expression) (expression_bytes expression)) }
{
    let expression = Box::new(alloc, expression)?;
    Ok(Test::Expression(expression))
}

fn expression_of(
    alloc: Global,
    pattern: &[u8],
    any_case: bool,
    size_limit: usize,
) -> Result<Test, Refusal>
    ensures ok { IfOk result (λ test. (test_of test ≡ asked.Expression any_case pattern.now)
        × (is_well_formed any_case pattern.now ≡ true)) }
    ensures err { IfErr result (λ cause. (cause ≡ refusal.Pattern) ⊎ (cause ≡ refusal.Memory)) }
{
    let expression = Expression::new(alloc, pattern, any_case, size_limit)?;
    let test = expression_test(alloc, expression)?;
    Ok(test)
}

fn comparison_of(alloc: Global, operator: Operator, pattern: Bytes) -> Result<Test, AllocError>
    ensures { IfOk result (λ test. test_of test ≡ asked.Compare operator pattern) }
{
    let bound = Bound::boxed(alloc, pattern)?;
    Ok(Test::Compare(operator, bound))
}

/// Builds an atom. Its pattern is built where it is one of `--rx`, within a limit on size.
fn built_atom(alloc: Global, asked: AskedAtom, size_limit: usize) -> Result<Atom, Refusal>
    ensures ok { IfOk result (λ atom. (atom_of atom ≡ asked_atom asked) × (is_readable (asked_atom asked) ≡ true)) }
    ensures err { IfErr result (λ cause. ((cause ≡ refusal.Pattern) × (has_expression (asked_atom asked) ≡ true))
        ⊎ (cause ≡ refusal.Memory)) }
{
    let AskedAtom { modifiers, pattern } = asked;
    let Modifiers {
        fields,
        any_case,
        manner,
    } = modifiers;
    let test = match manner {
        None => Test::Substring(any_case, pattern),
        Some(Manner::Exact) => Test::Exact(any_case, pattern),
        Some(Manner::Rx) => expression_of(alloc, pattern.as_slice(), any_case, size_limit)?,
        Some(Manner::Compare(operator)) => comparison_of(alloc, operator, pattern)?,
    };
    Ok(Atom { fields, test })
}

fn push_atom(atoms: &mut Vec<Atom>, atom: Atom) -> Result<(), AllocError>
    ensures { OnOk result (map atom_of atoms.new.items ≡ map atom_of atoms.old.items ++ atom_of atom ∷ []) }
{
    atoms.push(atom)?;
    Ok(())
}

/// Whether an atom has a pattern of `--rx`.
fn has_expression(asked: &AskedAtom) -> bool
    ensures { result ≡ has_expression (asked_atom asked.now) }
{
    matches!(asked.modifiers.manner, Some(Manner::Rx))
}

/// How many atoms have one.
fn expression_count(asked: &[AskedAtom]) -> usize
    ensures { result ≡ count_by (λ atom. has_expression (asked_atom atom)) asked.now }
{
    let mut count = 0;
    for atom in asked {
        if has_expression(atom) {
            count += 1;
        }
    }
    count
}

/// How many bytes the tables of all patterns of a filter may take together, which one alone may take.
const SIZE_LIMIT: usize = 10 << 20;

/// The share of each of so many patterns.
fn size_limit_of(patterns: usize) -> usize
    ensures { result ≡ 10 * 2 ^ 20 / max patterns 1 }
{
    SIZE_LIMIT / patterns.max(1)
}

/// Builds atoms. Patterns of `--rx` share the room for their tables.
fn built_atoms(alloc: Global, asked: Vec<AskedAtom>) -> Result<Vec<Atom>, Refusal>
    ensures ok { IfOk result (λ atoms. (map atom_of atoms.items ≡ map asked_atom asked.items)
        × (list_all is_readable (map asked_atom asked.items) ≡ true)) }
    ensures err { IfErr result (λ cause. ((cause ≡ refusal.Pattern) × (list_any has_expression (map asked_atom asked.items) ≡ true))
        ⊎ (cause ≡ refusal.Memory)) }
{
    let size_limit = size_limit_of(expression_count(&asked));
    let mut atoms = Vec::new(alloc);
    'atoms: for one in asked {
        push_atom(&mut atoms, built_atom(alloc, one, size_limit)?)?;
    }
    Ok(atoms)
}

/// The names of `-s`, which are fields.
fn names_asked(alloc: Global, pieces: &[Piece]) -> Result<Vec<Bytes>, Refusal>
    ensures ok { IfOk result (λ names. (names.items ≡ names_shown pieces.now) × (are_field_names (names_shown pieces.now) ≡ true)) }
    ensures err { IfErr result (λ cause. ((cause ≡ refusal.Filter) × (are_field_names (names_shown pieces.now) ≡ false))
        ⊎ (cause ≡ refusal.Memory)) }
{
    let names = names_shown(alloc, pieces)?;
    if are_field_names(&names) {
        Ok(names)
    } else {
        Err(Refusal::Filter)
    }
}

/// What is to be shown.
fn shown_by(alloc: Global, pieces: &[Piece], names: Vec<Bytes>) -> Result<Shown, Refusal>
    requires { names.items ≡ names_shown pieces.now }
    ensures ok { IfOk result (λ shown. shown_of shown ≡ shown_by pieces.now) }
    ensures err { IfErr result (λ cause. cause ≡ refusal.Memory) }
{
    let first_line_alone = is_given(b'd', pieces);
    let fields = fields_shown(alloc, first_line_alone, names)?;
    Ok(Shown {
        bodies_alone: is_given(b'n', pieces),
        first_line_alone,
        fields,
    })
}

/// The options of a filter: `-v`, `-c`, and what is to be shown.
#[derive(Drop)]
struct Options {
    inverted: bool,
    counted: bool,
    shown: Shown,
}

fn options_of(alloc: Global, pieces: &[Piece]) -> Result<Options, Refusal>
    ensures ok { IfOk result (λ options. AreOptionsOf options pieces.now × (are_field_names (names_shown pieces.now) ≡ true)) }
    ensures err { IfErr result (λ cause. ((cause ≡ refusal.Filter) × (are_field_names (names_shown pieces.now) ≡ false))
        ⊎ (cause ≡ refusal.Memory)) }
{
    let names = names_asked(alloc, pieces)?;
    let shown = shown_by(alloc, pieces, names)?;
    Ok(Options {
        inverted: is_given(b'v', pieces),
        counted: is_given(b'c', pieces),
        shown,
    })
}

/// The filter of pieces.
fn query_in(alloc: Global, pieces: Vec<Piece>) -> Result<FilterQuery, Refusal>
    ensures { IsAskedBy result (if_pieces (Ok pieces.items)) }
{
    let Options {
        inverted,
        counted,
        shown,
    } = options_of(alloc, &pieces)?;
    let Gathered { tokens, atoms, .. } = parts_of(alloc, pieces)?;
    let steps = steps_of(alloc, &tokens)?;
    let atoms = built_atoms(alloc, atoms)?;
    Ok(FilterQuery {
        inverted,
        counted,
        shown,
        atoms,
        steps,
    })
}

/// What the words of a filter ask for (grep-dctrl(1)), those behind its name.
///
/// # Errors
///
/// The first of these: [`Refusal::Usage`], where a word is none of grep-dctrl's, or an option is without its argument;
/// [`Refusal::Filter`], where FIELDS are no names of fields, an atom has two of `-X`, `--rx` and the comparisons, or the words
/// are no expression of which `(` and `!` nest 100 deep at most; [`Refusal::Pattern`], where a pattern of `--rx` isn't UTF-8,
/// or is refused by `regex`. [`Refusal::Memory`] where memory is refused, but never where there are no words.
#[tactic(auto, unfolding(crate::specs::Query::filter_of))]
pub fn parse_filter(alloc: Global, words: &[Bytes]) -> Result<FilterQuery, Refusal>
    ensures asked { IsAskedBy result (filter_of words.now) }
    ensures no_words { words.now ≡ [] → IfErr result (λ cause. cause ≡ refusal.Filter) }
{
    if words.is_empty() {
        return Err(Refusal::Filter);
    }
    let pieces = pieces_of(alloc, words)?;
    query_in(alloc, pieces)
}
