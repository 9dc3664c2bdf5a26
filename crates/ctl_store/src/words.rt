//! Words of the fields of preferences.

ghost use Rattle.std.specs.Prelude.{◌≡◌, ◌≤◌, length, option_copied};
ghost use Rattle.std.specs.List.{prefix_len};
ghost use Rattle.ctl_relation.specs.FieldBytes.{is_whitespace};
ghost use Rattle.ctl_store.specs.Prefs.{is_word_byte, words_of, is_general, are_names, asked};

use ctl_relation::is_name;

fn is_whitespace(byte: u8) -> bool
    ensures { result ≡ is_whitespace byte }
{
    byte == b' ' || byte == b'\t' || byte == b'\n'
}

// How many bytes stand before the first whitespace.
fn word_len(text: &[u8]) -> usize
    ensures len { result ≡ prefix_len is_word_byte text.now }
    ensures within { result ≤ length text.now }
{
    text.iter()
        .take_while(|byte| !is_whitespace(**byte))
        .count()
}

/// The words of a text, in order.
#[derive(Drop)]
pub(crate) struct Words<'a>(pub(crate) &'a [u8]);

impl<'a> Iterator for Words<'a> {
    ghost use Rattle.std.specs.Iterator.{YieldsFirstRef, item_count};

    type Item = &'a [u8];

    ghost next_gives = { YieldsFirstRef (λ words. words_of words.0.now) };

    ghost remaining = { item_count (λ words. words_of words.0.now) };

    #[tactic(auto, using(crate::proofs::PrefsLemmas::word_first, crate::proofs::PrefsLemmas::no_word))]
    fn next(&mut self) -> Option<&'a [u8]> {
        while let Some((first, rest)) = self.0.split_first() {
            if !is_whitespace(*first) {
                let (word, behind) = self.0.split_at(word_len(self.0));
                self.0 = behind;
                return Some(word);
            }
            self.0 = rest;
        }
        None
    }
}

/// Whether a text is one `*` alone.
pub(crate) fn is_general(text: &[u8]) -> bool
    ensures { result ≡ is_general (words_of text.now) }
{
    let mut words = Words(text);
    match (words.next(), words.next()) {
        (Some(word), None) => word == b"*".as_slice(),
        _ => false,
    }
}

/// Whether a text is one or more names.
pub(crate) fn are_names(text: &[u8]) -> bool
    ensures { result ≡ are_names (words_of text.now) }
{
    let mut some = false;
    for word in Words(text) {
        if !is_name(word) {
            return false;
        }
        some = true;
    }
    some
}

/// What stands behind the front of the second word, where a text is two words and `form` is the first.
pub(crate) fn asked<'a>(text: &'a [u8], form: &[u8], front: &[u8]) -> Option<&'a [u8]>
    ensures { option_copied result ≡ asked form.now front.now (words_of text.now) }
{
    let mut words = Words(text);
    match (words.next(), words.next(), words.next()) {
        (Some(first), Some(second), None) if first == form && second.starts_with(front) => {
            Some(&second[front.len()..])
        }
        _ => None,
    }
}
