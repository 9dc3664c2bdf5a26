//! What words say, parted into the tokens of an expression and its atoms.

ghost use Rattle.std.specs.Prelude.{◌≡◌, ◌++◌, ◌∷◌, ◌⊎◌, [], List, None, Ok, Err, OnOk, IfErr, IfOk, map, true, false, option_map};
ghost use Rattle.ctl_store.specs.declared.refusal.Refusal.TheVariants as refusal;
ghost use Rattle.ctl_filter.specs.declared.piece.Piece.{Piece};
ghost use Rattle.ctl_filter.specs.declared.piece.Piece.TheVariants as piece;
ghost use Rattle.ctl_filter.specs.Atoms.{Parts, no_modifiers, is_bare, with_fields, more_fields, parts_of};
ghost use Rattle.ctl_filter.specs.Inside.Values.{modifiers_of, asked_atom, resumed};
ghost use Rattle.ctl_filter.specs.Names.{names_in, are_field_names};
ghost use Rattle.ctl_filter.specs.Read.{Reads};

use crate::names::{append_names, are_field_names};
use crate::piece::{Manner, Piece};
use crate::token::Token;
use ctl_relation::Bytes;
use ctl_store::Refusal;
use std::alloc::{AllocError, Global};
use std::mem;

/// The modifiers of an atom.
#[derive(Drop)]
pub(crate) struct Modifiers {
    pub(crate) fields: Option<Vec<Bytes>>,
    pub(crate) any_case: bool,
    pub(crate) manner: Option<Manner>,
}

/// An atom as it is asked for: modifiers, and the pattern behind them.
#[derive(Drop)]
pub(crate) struct AskedAtom {
    pub(crate) modifiers: Modifiers,
    pub(crate) pattern: Bytes,
}

/// What was gathered so far: tokens and atoms, and the modifiers of the next atom.
#[derive(Drop)]
pub(crate) struct Gathered {
    pub(crate) tokens: Vec<Token>,
    pub(crate) atoms: Vec<AskedAtom>,
    pub(crate) modifiers: Modifiers,
}

fn no_modifiers() -> Modifiers
    ensures { modifiers_of result ≡ no_modifiers }
{
    Modifiers {
        fields: None,
        any_case: false,
        manner: None,
    }
}

fn is_bare(modifiers: &Modifiers) -> bool
    ensures { result ≡ is_bare (modifiers_of modifiers.now) }
{
    modifiers.fields.is_none() && !modifiers.any_case && modifiers.manner.is_none()
}

fn push_token(tokens: &mut Vec<Token>, token: Token) -> Result<(), AllocError>
    ensures { OnOk result (tokens.new.items ≡ tokens.old.items ++ token ∷ []) }
{
    tokens.push(token)?;
    Ok(())
}

fn push_atom(atoms: &mut Vec<AskedAtom>, atom: AskedAtom) -> Result<(), AllocError>
    ensures { OnOk result (atoms.new.items ≡ atoms.old.items ++ atom ∷ []) }
{
    atoms.push(atom)?;
    Ok(())
}

fn take_sign(sign: Token, gathered: &mut Gathered) -> Result<(), Refusal>
    ensures ok { OnOk result ((pieces : List Piece) → resumed gathered.old (piece.Sign sign ∷ pieces) ≡ resumed gathered.new pieces) }
    ensures err { IfErr result (λ cause. ((pieces : List Piece) → resumed gathered.old (piece.Sign sign ∷ pieces) ≡ Err cause)
        ⊎ (cause ≡ refusal.Memory)) }
{
    if !is_bare(&gathered.modifiers) {
        return Err(Refusal::Filter);
    }
    push_token(&mut gathered.tokens, sign)?;
    Ok(())
}

fn take_pattern(pattern: Bytes, gathered: &mut Gathered) -> Result<(), Refusal>
    ensures ok { OnOk result ((pieces : List Piece) → resumed gathered.old (piece.Pattern pattern ∷ pieces) ≡ resumed gathered.new pieces) }
    ensures err { IfErr result (λ cause. cause ≡ refusal.Memory) }
{
    let number = gathered.atoms.len();
    push_token(&mut gathered.tokens, Token::Atom(number))?;
    let modifiers = mem::replace(&mut gathered.modifiers, no_modifiers());
    push_atom(&mut gathered.atoms, AskedAtom { modifiers, pattern })?;
    Ok(())
}

/// The names of FIELDS behind those before.
fn more_fields(
    alloc: Global,
    fields: Option<Vec<Bytes>>,
    text: &[u8],
) -> Result<Vec<Bytes>, Refusal>
    ensures ok { IfOk result (λ names. names.items ≡ more_fields (option_map (λ names. names.items) fields) (names_in text.now)) }
    ensures err { IfErr result (λ cause. cause ≡ refusal.Memory) }
{
    let mut names = match fields {
        Some(names) => names,
        None => Vec::new(alloc),
    };
    append_names(alloc, text, &mut names)?;
    Ok(names)
}

/// Whether FIELDS are names.
fn are_fields(alloc: Global, text: &[u8]) -> Result<(), Refusal>
    ensures ok { OnOk result (are_field_names (names_in text.now) ≡ true) }
    ensures err { IfErr result (λ cause. ((are_field_names (names_in text.now) ≡ false) × (cause ≡ refusal.Filter))
        ⊎ (cause ≡ refusal.Memory)) }
{
    let names = more_fields(alloc, None, text)?;
    if are_field_names(&names) {
        Ok(())
    } else {
        Err(Refusal::Filter)
    }
}

fn take_fields(alloc: Global, text: &[u8], gathered: &mut Gathered) -> Result<(), Refusal>
    ensures ok { OnOk result ((pieces : List Piece) → resumed gathered.old (piece.Fields text.now ∷ pieces) ≡ resumed gathered.new pieces) }
    ensures err { IfErr result (λ cause. ((pieces : List Piece) → resumed gathered.old (piece.Fields text.now ∷ pieces) ≡ Err cause)
        ⊎ (cause ≡ refusal.Memory)) }
{
    are_fields(alloc, text)?;
    let fields = mem::replace(&mut gathered.modifiers.fields, None);
    gathered.modifiers.fields = Some(more_fields(alloc, fields, text)?);
    Ok(())
}

fn take_manner(manner: Manner, gathered: &mut Gathered) -> Result<(), Refusal>
    ensures ok { OnOk result ((pieces : List Piece) → resumed gathered.old (piece.Manner manner ∷ pieces) ≡ resumed gathered.new pieces) }
    ensures err { IfErr result (λ cause. (pieces : List Piece) → resumed gathered.old (piece.Manner manner ∷ pieces) ≡ Err cause) }
{
    if gathered.modifiers.manner.is_some() {
        return Err(Refusal::Filter);
    }
    gathered.modifiers.manner = Some(manner);
    Ok(())
}

fn take_piece(alloc: Global, piece: Piece, gathered: &mut Gathered) -> Result<(), Refusal>
    ensures ok { OnOk result ((pieces : List Piece) → resumed gathered.old (piece ∷ pieces) ≡ resumed gathered.new pieces) }
    ensures err { IfErr result (λ cause. ((pieces : List Piece) → resumed gathered.old (piece ∷ pieces) ≡ Err cause)
        ⊎ (cause ≡ refusal.Memory)) }
{
    match piece {
        Piece::Sign(sign) => take_sign(sign, gathered),
        Piece::Pattern(pattern) => take_pattern(pattern, gathered),
        Piece::Fields(text) => take_fields(alloc, text.as_slice(), gathered),
        Piece::Manner(manner) => take_manner(manner, gathered),
        Piece::AnyCase => {
            gathered.modifiers.any_case = true;
            Ok(())
        }
        Piece::Letter(_) | Piece::Shown(_) => Ok(()),
    }
}

/// The tokens and the atoms that pieces make.
///
/// # Errors
///
/// [`Refusal::Filter`], where FIELDS are no names, modifiers stand before no pattern, or an atom has two of `-X`, `--rx` and
/// the comparisons; [`Refusal::Memory`].
pub(crate) fn parts_of(alloc: Global, pieces: Vec<Piece>) -> Result<Gathered, Refusal>
    ensures { Reads (λ g. record { tokens = g.tokens.items; atoms = map asked_atom g.atoms.items }) result (parts_of pieces.items) }
{
    let mut gathered = Gathered {
        tokens: Vec::new(alloc),
        atoms: Vec::new(alloc),
        modifiers: no_modifiers(),
    };
    'pieces: for piece in pieces {
        take_piece(alloc, piece, &mut gathered)?;
    }
    if !is_bare(&gathered.modifiers) {
        return Err(Refusal::Filter);
    }
    Ok(gathered)
}
