//! The words of a command.

ghost use Rattle.std.specs.Prelude.{◌≡◌, ◌≤◌, ◌∷◌, [], ℕ, List, IfOk, OnOk, length, take};
ghost use Rattle.std.specs.List.{All};
ghost use Rattle.std.specs.Option.{option_map};
ghost use Rattle.ctl_session.specs.Words.{words_of};
ghost use Rattle.ctl_session.specs.declared.words.Place.TheVariants.{Between, Within, Quoted};
ghost use Rattle.ctl_session.specs.WordsRead.{words_read, IsPlain};

use crate::line_words::is_blank;
use ctl_relation::Bytes;
use std::alloc::{AllocError, Global};

/// Where the reading of words stands.
#[derive(Clone, Copy, Debug, PartialEq, Eq)]
pub(crate) enum Place {
    /// Between words.
    Between,
    /// Within a word, and not between quotes.
    Within,
    /// Between the quotes of a word.
    Quoted,
}

/// Words that are being read: those that have ended, the bytes of the one that has not, and the place.
#[derive(Drop)]
pub(crate) struct Reading {
    words: Vec<Bytes>,
    word: Vec<u8>,
    place: Place,
}

// How many bytes of a text stand before its first blank or quote.
fn plain_len(text: &[u8]) -> usize
    ensures bound { result ≤ length text.now }
    ensures plain { All IsPlain (take result text.now) }
{
    for place in 0..text.len() {
        if is_blank(text[place]) || text[place] == b'\'' {
            return place;
        }
    }
    text.len()
}

impl Reading {
    /// Reads one byte more.
    fn read(&mut self, alloc: Global, byte: u8) -> Result<(), AllocError>
        ensures { (text : List ℕ) → OnOk result (words_read self.new text ≡ words_read self.old (byte ∷ text)) }
    {
        match self.place {
            Place::Between => self.read_between(byte),
            Place::Within => self.read_within(alloc, byte),
            Place::Quoted => self.read_quoted(byte),
        }
    }

    /// Reads a byte between words: a blank, or the first byte of a word, which may be its opening quote.
    fn read_between(&mut self, byte: u8) -> Result<(), AllocError>
        requires { self.old.place ≡ Between }
        ensures { (text : List ℕ) → OnOk result (words_read self.new text ≡ words_read self.old (byte ∷ text)) }
    {
        if is_blank(byte) {
            return Ok(());
        }
        self.word.clear();
        if byte == b'\'' {
            self.place = Place::Quoted;
            return Ok(());
        }
        self.word.push(byte)?;
        self.place = Place::Within;
        Ok(())
    }

    /// Reads a byte within a word: a blank that ends it, an opening quote, or a byte of it.
    fn read_within(&mut self, alloc: Global, byte: u8) -> Result<(), AllocError>
        requires { self.old.place ≡ Within }
        ensures { (text : List ℕ) → OnOk result (words_read self.new text ≡ words_read self.old (byte ∷ text)) }
    {
        if is_blank(byte) {
            self.words.push(Bytes::from_slice(alloc, &self.word)?)?;
            self.place = Place::Between;
            return Ok(());
        }
        if byte == b'\'' {
            self.place = Place::Quoted;
            return Ok(());
        }
        self.word.push(byte)?;
        Ok(())
    }

    /// Reads the bytes of a word up to the next blank or quote, and tells what is left: the words of a line are mostly plain.
    fn read_plain<'t>(&mut self, text: &'t [u8]) -> Result<&'t [u8], AllocError>
        requires { self.old.place ≡ Within }
        ensures read { IfOk result (λ left. words_read self.new left.now ≡ words_read self.old text.now) }
        ensures shorter { IfOk result (λ left. length left.now ≤ length text.now) }
    {
        let (plain, left) = text.split_at(plain_len(text));
        self.word.extend_from_slice(plain)?;
        Ok(left)
    }

    /// Reads a byte between quotes: the closing one, or one of the word.
    fn read_quoted(&mut self, byte: u8) -> Result<(), AllocError>
        requires { self.old.place ≡ Quoted }
        ensures { (text : List ℕ) → OnOk result (words_read self.new text ≡ words_read self.old (byte ∷ text)) }
    {
        if byte == b'\'' {
            self.place = Place::Within;
            return Ok(());
        }
        self.word.push(byte)?;
        Ok(())
    }

    /// The words, where the text ends here. There are none where a quote lacks its end.
    fn end(self) -> Result<Option<Vec<Bytes>>, AllocError>
        ensures { IfOk result (λ words. option_map (λ some. some.items) words ≡ words_read self []) }
    {
        let Reading {
            mut words,
            word,
            place,
        } = self;
        match place {
            Place::Quoted => Ok(None),
            Place::Between => Ok(Some(words)),
            Place::Within => {
                words.push(Bytes::from_vec(word))?;
                Ok(Some(words))
            }
        }
    }
}

/// The words of a text. There are none where a quote lacks its end.
pub(crate) fn words(alloc: Global, text: &[u8]) -> Result<Option<Vec<Bytes>>, AllocError>
    ensures { IfOk result (λ words. option_map (λ some. some.items) words ≡ words_of text.now) }
{
    let mut reading = Reading {
        words: Vec::new(alloc),
        word: Vec::new(alloc),
        place: Place::Between,
    };
    let mut left = text;
    'bytes: while let Some((byte, rest)) = left.split_first() {
        reading.read(alloc, *byte)?;
        left = match reading.place {
            Place::Within => reading.read_plain(rest)?,
            _ => rest,
        };
    }
    reading.end()
}
