//! Bytes in plain words: most stand for themselves, and others are written by an escape.

use crate::said::Said;
use std::alloc::Global;

// The byte that a letter behind a backslash stands for.
fn byte_of(letter: u8) -> Option<u8> {
    match letter {
        b'n' => Some(b'\n'),
        b't' => Some(b'\t'),
        b'r' => Some(b'\r'),
        b'0' => Some(0),
        b'\\' | b'\'' | b'"' => Some(letter),
        _ => None,
    }
}

// So many of a byte, by what stands behind the bracket. What is behind them comes back.
fn say_repeated<'a>(behind: &'a [u8], said: &mut Said) -> &'a [u8] {
    let mut count: usize = 0;
    let mut left = behind;
    for _ in 0..u64::MAX {
        let [digit @ b'0'..=b'9', rest @ ..] = left else {
            break;
        };
        count = count
            .saturating_mul(10)
            .saturating_add((*digit).saturating_sub(b'0') as usize);
        left = rest;
    }
    let [b'*', byte, b')', rest @ ..] = left else {
        said.fail("a repetition is a count, a star, a byte and a bracket");
        return &[];
    };
    said.repeat(count, *byte);
    rest
}

// The byte of two hexadecimal digits.
fn say_byte(alloc: Global, digits: [u8; 2], said: &mut Said) {
    match hex::decode(alloc, digits.as_slice()) {
        Ok(byte) => said.add(&byte),
        Err(_) => said.fail("no hexadecimal digits"),
    }
}

fn say_letter(letter: u8, said: &mut Said) {
    match byte_of(letter) {
        Some(byte) => said.add(&[byte]),
        None => said.fail("an escape that is not known"),
    }
}

// What an escape stands for, by what stands behind its backslash. What is behind the escape comes back.
fn say_escape<'a>(alloc: Global, behind: &'a [u8], said: &mut Said) -> &'a [u8] {
    match behind {
        [b'x', high, low, rest @ ..] => {
            say_byte(alloc, [*high, *low], said);
            rest
        }
        [b'(', rest @ ..] => say_repeated(rest, said),
        [letter, rest @ ..] => {
            say_letter(*letter, said);
            rest
        }
        [] => {
            said.fail("an escape without a letter");
            behind
        }
    }
}

/// The bytes that a word stands for. `\n`, `\t`, `\r`, `\0`, `\\`, `\'`, `\"` and `\x` with two hexadecimal digits stand for
/// one byte, and `\(COUNT*BYTE)` for so many of one.
pub fn unescaped(alloc: Global, word: &str) -> Result<Vec<u8>, &'static str> {
    let mut said = Said::new(alloc);
    let mut left = word.as_bytes();
    for _ in 0..u64::MAX {
        match left {
            [] => break,
            [b'\\', behind @ ..] => left = say_escape(alloc, behind, &mut said),
            [byte, behind @ ..] => {
                said.add(&[*byte]);
                left = behind;
            }
        }
    }
    said.into_bytes()
}
