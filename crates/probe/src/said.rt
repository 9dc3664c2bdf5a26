//! What is said of a line.

use ctl_relation::{Atom, Group};
use ctl_store::StanzaKey;
use std::alloc::{AllocError, Global};

/// Why nothing is said where memory ran out.
pub const OUT_OF_MEMORY: &str = "memory allocation failed";

/// The bytes that are said of a line, and why they are not to be written if something failed. Nothing that adds to them answers
/// whether it failed: whoever writes them asks once.
#[derive(Drop)]
pub struct Said {
    alloc: Global,
    bytes: Vec<u8>,
    fault: Option<&'static str>,
}

impl Said {
    pub fn new(alloc: Global) -> Said {
        Said {
            alloc,
            bytes: Vec::new(alloc),
            fault: None,
        }
    }

    /// Where memory for what is said comes from.
    pub fn alloc(&self) -> Global {
        self.alloc
    }

    /// Keeps why something failed.
    pub fn fail(&mut self, why: &'static str) {
        self.fault = Some(why);
    }

    // Keeps that memory ran out, if it did.
    fn keep(&mut self, added: Result<(), AllocError>) {
        if added.is_err() {
            self.fail(OUT_OF_MEMORY);
        }
    }

    /// The bytes, or why they are not to be written.
    pub fn into_bytes(self) -> Result<Vec<u8>, &'static str> {
        match self.fault {
            Some(why) => Err(why),
            None => Ok(self.bytes),
        }
    }

    pub fn add(&mut self, part: &[u8]) {
        let added = self.bytes.extend_from_slice(part);
        self.keep(added);
    }

    /// Byte strings, in their order.
    pub fn all(&mut self, parts: &[&[u8]]) {
        for part in parts {
            self.add(part);
        }
    }

    /// So many of a byte.
    pub fn repeat(&mut self, count: usize, byte: u8) {
        let added = self
            .bytes
            .resize(self.bytes.len().saturating_add(count), byte);
        self.keep(added);
    }

    /// A number behind a mark.
    pub fn number(&mut self, mark: &[u8], number: u128) {
        let added = append_number(self.alloc, mark, number, &mut self.bytes);
        self.keep(added);
    }

    /// A priority behind a mark.
    pub fn priority(&mut self, mark: &[u8], priority: i16) {
        let added = append_priority(self.alloc, mark, priority, &mut self.bytes);
        self.keep(added);
    }

    /// A word in hexadecimal digits, behind a mark.
    pub fn word(&mut self, mark: &[u8], word: &[u8]) {
        let added = append_word(self.alloc, mark, word, &mut self.bytes);
        self.keep(added);
    }

    /// A key behind a mark: the serial number of the list, a dot and that of the stanza.
    pub fn key(&mut self, mark: &[u8], key: StanzaKey) {
        self.number(mark, key.list as u128);
        self.number(b".", key.stanza as u128);
    }

    /// The same, or `-` behind the mark where there is none.
    pub fn lead(&mut self, mark: &[u8], lead: Option<StanzaKey>) {
        match lead {
            Some(key) => self.key(mark, key),
            None => self.all(&[mark, b"-"]),
        }
    }

    /// Keys, each behind a mark.
    pub fn keys(&mut self, mark: &[u8], keys: &[StanzaKey]) {
        for key in keys {
            self.key(mark, *key);
        }
    }

    /// A group in its printed form.
    pub fn group(&mut self, group: &Group<'_>) {
        let added = group.append_to(&mut self.bytes);
        self.keep(added);
    }

    /// An atom in its printed form.
    pub fn atom(&mut self, atom: &Atom<'_>) {
        let added = atom.append_to(&mut self.bytes);
        self.keep(added);
    }

    /// The printed form of a group in hexadecimal digits, behind a mark.
    pub fn group_word(&mut self, mark: &[u8], group: &Group<'_>) {
        let added = append_group_word(self.alloc, mark, group, &mut self.bytes);
        self.keep(added);
    }

    /// Turns what is said into escapes as Rust writes them.
    pub fn escape(&mut self) {
        let told = format!(in self.alloc; "{}", self.bytes.escape_ascii());
        match told {
            Ok(told) => self.bytes = told.into_bytes(),
            Err(_) => self.fail(OUT_OF_MEMORY),
        }
    }
}

fn append_number(
    alloc: Global,
    mark: &[u8],
    number: u128,
    bytes: &mut Vec<u8>,
) -> Result<(), AllocError> {
    bytes.extend_from_slice(mark)?;
    let digits = format!(in alloc; "{number}")?;
    bytes.extend_from_slice(digits.as_bytes())
}

fn append_priority(
    alloc: Global,
    mark: &[u8],
    priority: i16,
    bytes: &mut Vec<u8>,
) -> Result<(), AllocError> {
    bytes.extend_from_slice(mark)?;
    let digits = format!(in alloc; "{priority}")?;
    bytes.extend_from_slice(digits.as_bytes())
}

fn append_word(
    alloc: Global,
    mark: &[u8],
    word: &[u8],
    bytes: &mut Vec<u8>,
) -> Result<(), AllocError> {
    bytes.extend_from_slice(mark)?;
    let digits = hex::encode(alloc, word)?;
    bytes.extend_from_slice(digits.as_bytes())
}

fn append_group_word(
    alloc: Global,
    mark: &[u8],
    group: &Group<'_>,
    bytes: &mut Vec<u8>,
) -> Result<(), AllocError> {
    let mut printed = Vec::new(alloc);
    group.append_to(&mut printed)?;
    append_word(alloc, mark, &printed, bytes)
}
