//! Words to what they say, one by one.

ghost use Rattle.std.specs.Prelude.{◌≡◌, ◌++◌, ◌∷◌, ◌⊎◌, [], List, false, IfOk, IfErr, OnOk, Ok, Err, true};
ghost use Rattle.ctl_store.specs.declared.refusal.Refusal.TheVariants as refusal;
ghost use Rattle.ctl_filter.specs.Read.{Reads};
ghost use Rattle.ctl_filter.specs.Words.{sign_named, manner_named, onto_word, onto_pieces, takes_argument, argument_piece};
ghost use Rattle.ctl_filter.specs.Words.{argument_given, letter_piece, cluster, is_pattern, long_word, word_by};
ghost use Rattle.ctl_filter.specs.Words.{word_pieces, pieces_from, pieces_of};

use crate::piece::{Manner, Piece};
use crate::token::Token;
use ctl_relation::{Bytes, Operator};
use ctl_store::Refusal;
use std::alloc::{AllocError, Global};

fn sign_named(word: &[u8]) -> Option<Token>
    ensures { result ≡ sign_named word.now }
{
    if word == b"!".as_slice() {
        Some(Token::Bang)
    } else if word == b"(".as_slice() {
        Some(Token::Open)
    } else if word == b")".as_slice() {
        Some(Token::Close)
    } else if word == b"-a".as_slice() {
        Some(Token::And)
    } else if word == b"-o".as_slice() {
        Some(Token::Or)
    } else {
        None
    }
}

fn manner_named(word: &[u8]) -> Option<Manner>
    ensures { result ≡ manner_named word.now }
{
    if word == b"--rx".as_slice() {
        Some(Manner::Rx)
    } else if word == b"--eq".as_slice() {
        Some(Manner::Compare(Operator::Equal))
    } else if word == b"--lt".as_slice() {
        Some(Manner::Compare(Operator::Earlier))
    } else if word == b"--le".as_slice() {
        Some(Manner::Compare(Operator::EarlierOrEqual))
    } else if word == b"--gt".as_slice() {
        Some(Manner::Compare(Operator::Later))
    } else if word == b"--ge".as_slice() {
        Some(Manner::Compare(Operator::LaterOrEqual))
    } else {
        None
    }
}

fn copied(alloc: Global, text: &[u8]) -> Result<Bytes, Refusal>
    ensures { Reads (λ copy. copy) result (Ok text.now) }
{
    let copy = Bytes::from_slice(alloc, text)?;
    Ok(copy)
}

fn push_piece(pieces: &mut Vec<Piece>, piece: Piece) -> Result<(), AllocError>
    ensures { OnOk result (pieces.new.items ≡ pieces.old.items ++ piece ∷ []) }
{
    pieces.push(piece)?;
    Ok(())
}

// ---- clusters of letters

fn takes_argument(letter: u8) -> bool
    ensures { result ≡ takes_argument letter }
{
    letter == b'F' || letter == b's'
}

fn argument_piece(alloc: Global, letter: u8, word: &[u8]) -> Result<Piece, Refusal>
    ensures { Reads (λ piece. piece) result (Ok (argument_piece letter word.now)) }
{
    let word = copied(alloc, word)?;
    if letter == b'F' {
        Ok(Piece::Fields(word))
    } else {
        Ok(Piece::Shown(word))
    }
}

/// Takes the argument of a letter: the rest of its word or, where that is empty, the next word. Says whether it took that.
fn take_argument(
    letter: u8,
    letters: &[u8],
    words: &[Bytes],
    pieces: &mut Vec<Piece>,
) -> Result<bool, Refusal>
    ensures { Reads (λ taken. (pieces.new.items, taken)) result (onto_word pieces.old.items (argument_given letter letters.now words.now)) }
{
    let alloc = *pieces.allocator();
    if !letters.is_empty() {
        push_piece(pieces, argument_piece(alloc, letter, letters)?)?;
        return Ok(false);
    }
    match words {
        [word, ..] => {
            push_piece(pieces, argument_piece(alloc, letter, word.as_slice())?)?;
            Ok(true)
        }
        [] => Err(Refusal::Usage),
    }
}

fn letter_piece(alloc: Global, letter: u8) -> Result<Piece, Refusal>
    ensures { Reads (λ piece. piece) result (letter_piece letter) }
{
    if letter == b'P' {
        Ok(Piece::Fields(copied(alloc, b"Package")?))
    } else if letter == b'X' {
        Ok(Piece::Manner(Manner::Exact))
    } else if letter == b'i' {
        Ok(Piece::AnyCase)
    } else if letter == b'v' || letter == b'c' || letter == b'n' || letter == b'd' {
        Ok(Piece::Letter(letter))
    } else {
        Err(Refusal::Usage)
    }
}

/// Reads the letters of a cluster in turn.
fn read_cluster(letters: &[u8], words: &[Bytes], pieces: &mut Vec<Piece>) -> Result<bool, Refusal>
    ensures { Reads (λ taken. (pieces.new.items, taken)) result (onto_word pieces.old.items (cluster words.now letters.now)) }
{
    let alloc = *pieces.allocator();
    let mut rest = letters;
    'letters: while let Some((letter, others)) = rest.split_first() {
        if takes_argument(*letter) {
            return take_argument(*letter, others, words, pieces);
        }
        push_piece(pieces, letter_piece(alloc, *letter)?)?;
        rest = others;
    }
    Ok(false)
}

// ---- words

/// A word that begins with no `-`, or is `-` alone, is a pattern.
fn is_pattern(word: &[u8]) -> bool
    ensures { result ≡ is_pattern word.now }
{
    match word {
        [] | [_] => true,
        [byte, ..] => *byte != b'-',
    }
}

/// The piece of a word that begins with `--`.
fn long_piece(alloc: Global, word: &[u8]) -> Result<Piece, Refusal>
    ensures { Reads (λ piece. (piece ∷ [], false)) result (long_word word.now) }
{
    if word.starts_with(b"--pattern=") {
        return Ok(Piece::Pattern(copied(alloc, &word[10..])?));
    }
    match manner_named(word) {
        Some(manner) => Ok(Piece::Manner(manner)),
        None => Err(Refusal::Usage),
    }
}

fn read_long(word: &[u8], pieces: &mut Vec<Piece>) -> Result<bool, Refusal>
    ensures { Reads (λ taken. (pieces.new.items, taken)) result (onto_word pieces.old.items (long_word word.now)) }
{
    let piece = long_piece(*pieces.allocator(), word)?;
    push_piece(pieces, piece)?;
    Ok(false)
}

/// Reads a word, with the words behind it, and says whether it took the next.
fn read_word(word: &[u8], words: &[Bytes], pieces: &mut Vec<Piece>) -> Result<bool, Refusal>
    ensures { Reads (λ taken. (pieces.new.items, taken)) result (onto_word pieces.old.items (word_pieces word.now words.now)) }
{
    let alloc = *pieces.allocator();
    if let Some(sign) = sign_named(word) {
        push_piece(pieces, Piece::Sign(sign))?;
        return Ok(false);
    }
    if is_pattern(word) {
        push_piece(pieces, Piece::Pattern(copied(alloc, word)?))?;
        return Ok(false);
    }
    if word.starts_with(b"--") {
        return read_long(word, pieces);
    }
    read_cluster(&word[1..], words, pieces)
}

/// Reads the first of some words, unless it was taken as an argument. Says whether it takes the next.
fn read_first(
    taken: bool,
    word: &[u8],
    words: &[Bytes],
    pieces: &mut Vec<Piece>,
) -> Result<bool, Refusal>
    ensures ok { IfOk result (λ next. onto_pieces pieces.old.items (pieces_from taken (word.now ∷ words.now))
        ≡ onto_pieces pieces.new.items (pieces_from next words.now)) }
    ensures err { IfErr result (λ cause. (onto_pieces pieces.old.items (pieces_from taken (word.now ∷ words.now)) ≡ Err cause)
        ⊎ (cause ≡ refusal.Memory)) }
{
    if taken {
        return Ok(false);
    }
    let next = read_word(word, words, pieces)?;
    Ok(next)
}

/// What the words of a filter say.
///
/// # Errors
///
/// [`Refusal::Usage`], where a word is none of grep-dctrl's; [`Refusal::Memory`].
pub(crate) fn pieces_of(alloc: Global, words: &[Bytes]) -> Result<Vec<Piece>, Refusal>
    ensures { Reads (λ pieces. pieces.items) result (pieces_of words.now) }
{
    let mut pieces = Vec::new(alloc);
    let mut taken = false;
    let mut rest = words;
    'words: while let Some((word, others)) = rest.split_first() {
        taken = read_first(taken, word.as_slice(), others, &mut pieces)?;
        rest = others;
    }
    Ok(pieces)
}
