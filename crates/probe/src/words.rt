//! The words of a line.

use crate::escapes::unescaped;
use crate::relations::kind_named;
use crate::said::{OUT_OF_MEMORY, Said};
use crate::texts::list_kind_named;
use ctl_relation::{Bytes, FieldKind, Version};
use ctl_stanza::ListKind;
use ctl_store::Limits;
use std::alloc::{AllocError, Global};

/// How bytes stand in words: in hexadecimal digits, or most for themselves and others by escapes.
#[derive(Clone, Copy)]
pub enum Form {
    Hexadecimal,
    Plain,
}

/// A word: as it stands in its line, and the bytes that it gives, or why it gives none.
#[derive(Drop)]
pub struct Word<'a> {
    text: &'a str,
    bytes: Vec<u8>,
    fault: Option<&'static str>,
}

fn read_bytes(alloc: Global, form: Form, text: &str) -> Result<Vec<u8>, &'static str> {
    match form {
        Form::Plain => unescaped(alloc, text),
        Form::Hexadecimal => hex::decode(alloc, text).or(Err("a word that is not hexadecimal")),
    }
}

fn read_word<'a>(alloc: Global, form: Form, text: &'a str) -> Word<'a> {
    match read_bytes(alloc, form, text) {
        Ok(bytes) => Word {
            text,
            bytes,
            fault: None,
        },
        Err(why) => Word {
            text,
            bytes: Vec::new(alloc),
            fault: Some(why),
        },
    }
}

/// The words of a line, with tabs between them.
pub fn read_words<'a>(
    alloc: Global,
    form: Form,
    line: &'a str,
) -> Result<Vec<Word<'a>>, AllocError> {
    let mut words = Vec::new(alloc);
    for text in line.split('\t') {
        words.push(read_word(alloc, form, text))?;
    }
    Ok(words)
}

/// The words of a line that are left, and why they are no question if they are none. A word that is missing or not what it has
/// to be is kept as the fault, and is read as one that is empty: whoever answers the line asks once.
///
/// What a word gives is lent by the line, so that whoever asks for it has nothing to drop.
#[derive(Drop)]
pub struct Words<'w, 'a> {
    alloc: Global,
    left: &'w [Word<'a>],
    fault: Option<&'static str>,
}

impl<'w, 'a> Words<'w, 'a> {
    pub fn new(alloc: Global, left: &'w [Word<'a>]) -> Words<'w, 'a> {
        Words {
            alloc,
            left,
            fault: None,
        }
    }

    /// Where memory for what is asked for comes from.
    pub fn alloc(&self) -> Global {
        self.alloc
    }

    /// Keeps why the words are no question. The first fault stays.
    pub fn fail(&mut self, why: &'static str) {
        if self.fault.is_none() {
            self.fault = Some(why);
        }
    }

    /// Why the words are no question, if they are none.
    pub fn fault(&self) -> Option<&'static str> {
        self.fault
    }

    /// Hands on why the words are no question, if they are none, when the line is answered.
    pub fn end(&self, said: &mut Said) {
        if let Some(why) = self.fault {
            said.fail(why);
        }
    }

    /// Whether no word is left.
    pub fn is_over(&self) -> bool {
        self.left.is_empty()
    }

    /// The next word, if one is left.
    fn next_word(&mut self) -> Option<&'w Word<'a>> {
        match self.left {
            [word, rest @ ..] => {
                self.left = rest;
                Some(word)
            }
            [] => {
                self.fail("a word is missing");
                None
            }
        }
    }

    /// The next word, as it stands in the line.
    pub fn word(&mut self) -> &'a str {
        match self.next_word() {
            Some(word) => word.text,
            None => "",
        }
    }

    // The bytes that a word gives.
    fn bytes_of(&mut self, word: &'w Word<'a>) -> &'w [u8] {
        if let Some(why) = word.fault {
            self.fail(why);
        }
        &word.bytes
    }

    /// The bytes that the next word gives.
    pub fn bytes(&mut self) -> &'w [u8] {
        match self.next_word() {
            Some(word) => self.bytes_of(word),
            None => b"",
        }
    }

    // Whether the next word is `-`, which is then read.
    fn reads_none(&mut self) -> bool {
        match self.left {
            [word, rest @ ..] if word.text == "-" => {
                self.left = rest;
                true
            }
            _ => false,
        }
    }

    /// The bytes that the next word gives, kept.
    pub fn kept(&mut self) -> Bytes {
        match Bytes::from_slice(self.alloc, self.bytes()) {
            Ok(bytes) => bytes,
            Err(_) => {
                self.fail(OUT_OF_MEMORY);
                Bytes::from_vec(Vec::new(self.alloc))
            }
        }
    }

    /// The same, or none where the word is `-`.
    pub fn kept_or_none(&mut self) -> Option<Bytes> {
        if self.reads_none() {
            None
        } else {
            Some(self.kept())
        }
    }

    /// The bytes that each of the words gives that are left, kept.
    pub fn all_kept(&mut self) -> Vec<Bytes> {
        let mut all = Vec::new(self.alloc);
        for _ in self.left {
            if all.push(self.kept()).is_err() {
                self.fail(OUT_OF_MEMORY);
            }
        }
        all
    }

    /// The relation field of a name.
    pub fn field_kind(&mut self) -> FieldKind {
        match kind_named(self.word()) {
            Some(kind) => kind,
            None => {
                self.fail("a field that holds no relations");
                FieldKind::Depends
            }
        }
    }

    /// The kind of list of a name.
    pub fn list_kind(&mut self) -> ListKind {
        match list_kind_named(self.word()) {
            Some(kind) => kind,
            None => {
                self.fail("a kind that is not known");
                ListKind::Packages
            }
        }
    }

    /// A version, or none where the word is none, and then the words are no question.
    pub fn version(&mut self) -> Option<Version> {
        match Version::parse(self.alloc, self.bytes()) {
            Ok(version) => Some(version),
            Err(_) => {
                self.fail("a word that is no version");
                None
            }
        }
    }

    /// A version, or none where the word is `-`.
    pub fn version_or_none(&mut self) -> Option<Version> {
        if self.reads_none() {
            None
        } else {
            self.version()
        }
    }

    // Adds the version that the next word gives.
    fn add_version(&mut self, all: &mut Vec<Version>) {
        if let Some(version) = self.version() {
            if all.push(version).is_err() {
                self.fail(OUT_OF_MEMORY);
            }
        }
    }

    /// The versions that each of the words gives that are left.
    pub fn versions(&mut self) -> Vec<Version> {
        let mut all = Vec::new(self.alloc);
        for _ in self.left {
            self.add_version(&mut all);
        }
        all
    }

    pub fn number(&mut self) -> u32 {
        match self.word().parse::<u32>() {
            Ok(number) => number,
            Err(_) => {
                self.fail("a word that is no number");
                0
            }
        }
    }

    pub fn limits(&mut self) -> Limits {
        let stanzas = self.number();
        let edits = self.number();
        Limits { stanzas, edits }
    }

    pub fn priority(&mut self) -> i16 {
        match self.word().parse::<i16>() {
            Ok(priority) => priority,
            Err(_) => {
                self.fail("a word that is no priority");
                0
            }
        }
    }
}
