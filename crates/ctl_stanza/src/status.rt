//! The state of a package, and whether a stanza is live.

ghost use Rattle.std.specs.Prelude.{◌≡◌, ◌≤◌, length};
ghost use Rattle.std.specs.List.{prefix_len};
ghost use Rattle.std.specs.Str.{bytes_eq};
ghost use Rattle.ctl_stanza.specs.Status.{is_word_byte, first_word, behind_word, is_live_state, is_other_state};
ghost use Rattle.ctl_stanza.specs.Status.{liveness_in, liveness_by_body, liveness};
ghost use Rattle.ctl_stanza.specs.Inside.HeldFields.{AreWithin, shown_fields};

use crate::fields::{Field, blank_len, body_named};
use crate::lines::is_blank_byte;
use crate::list_kind::ListKind;

// How many bytes stand before the first blank.
fn word_len(text: &[u8]) -> usize
    ensures len { result ≡ prefix_len is_word_byte text.now }
    ensures within { result ≤ length text.now }
{
    for (i, byte) in text.iter().enumerate() {
        if is_blank_byte(*byte) {
            return i;
        }
    }
    text.len()
}

// The first word of a text, and what stands behind it.
fn take_word(text: &[u8]) -> (&[u8], &[u8])
    ensures word { result.0.now ≡ first_word text.now }
    ensures behind { result.1.now ≡ behind_word text.now }
{
    let (_, rest) = text.split_at(blank_len(text));
    rest.split_at(word_len(rest))
}

fn is_state(word: &[u8], state: &[u8]) -> bool
    ensures { result ≡ bytes_eq word.now state.now }
{
    word == state
}

fn is_live_state(word: &[u8]) -> bool
    ensures { result ≡ is_live_state word.now }
{
    is_state(word, b"unpacked")
        || is_state(word, b"half-configured")
        || is_state(word, b"triggers-awaited")
        || is_state(word, b"triggers-pending")
        || is_state(word, b"installed")
}

fn is_other_state(word: &[u8]) -> bool
    ensures { result ≡ is_other_state word.now }
{
    is_state(word, b"not-installed")
        || is_state(word, b"config-files")
        || is_state(word, b"half-installed")
}

// Whether a package in a state is live; None where the word is no state.
fn liveness_in(word: &[u8]) -> Option<bool>
    ensures { result ≡ liveness_in word.now }
{
    if is_live_state(word) {
        Some(true)
    } else if is_other_state(word) {
        Some(false)
    } else {
        None
    }
}

// Whether a package is live by the body of its field `Status`; None where the body isn't three words with a state as
// the third.
fn liveness_by_body(body: &[u8]) -> Option<bool>
    ensures { result ≡ liveness_by_body body.now }
{
    let (_, behind) = take_word(body);
    let (_, behind) = take_word(behind);
    let (state, behind) = take_word(behind);
    let (fourth, _) = take_word(behind);
    if !fourth.is_empty() {
        return None;
    }
    liveness_in(state)
}

/// Whether a stanza with these fields is live; None where it has no state, as one of a status list has to have.
pub(crate) fn liveness(kind: ListKind, fields: &[Field], bytes: &[u8]) -> Option<bool>
    requires { AreWithin bytes.now fields.now }
    ensures { result ≡ liveness kind (shown_fields bytes.now fields.now) }
{
    match kind {
        ListKind::Packages => Some(true),
        ListKind::Status => match body_named(fields, bytes, b"Status") {
            None => None,
            Some(body) => liveness_by_body(body),
        },
    }
}
