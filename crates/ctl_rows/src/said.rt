//! What is said of a session, a store or a cache, as text.

use ctl_store::{Selector, StanzaKey};
use std::alloc::{AllocError, Global};

/// The bytes that are said, and whether memory ran out. Nothing that adds to them answers whether it failed: whoever takes them asks
/// once.
#[derive(Drop)]
pub struct Said {
    alloc: Global,
    /// What calls that append are lent.
    pub bytes: Vec<u8>,
    is_short: bool,
}

impl Said {
    pub fn new(alloc: Global) -> Said {
        Said {
            alloc,
            bytes: Vec::new(alloc),
            is_short: false,
        }
    }

    /// Where memory for what is said comes from.
    pub fn alloc(&self) -> Global {
        self.alloc
    }

    /// Keeps that memory ran out.
    pub fn fail(&mut self) {
        self.is_short = true;
    }

    /// Keeps that memory ran out, if it did.
    pub fn keep(&mut self, added: Result<(), AllocError>) {
        if added.is_err() {
            self.fail();
        }
    }

    /// The bytes, or these words where memory ran out.
    pub fn shown(&self) -> &[u8] {
        if self.is_short {
            b"memory ran out"
        } else {
            &self.bytes
        }
    }

    pub fn add(&mut self, part: &[u8]) {
        let added = self.bytes.extend_from_slice(part);
        self.keep(added);
    }

    /// Takes back all that is said.
    pub fn clear(&mut self) {
        self.bytes.clear();
    }

    /// Byte strings, in their order.
    pub fn all(&mut self, parts: &[&[u8]]) {
        for part in parts {
            self.add(part);
        }
    }

    /// So many of a byte.
    pub fn repeat(&mut self, count: usize, byte: u8) {
        let added = self
            .bytes
            .resize(self.bytes.len().saturating_add(count), byte);
        self.keep(added);
    }

    /// A number behind a mark.
    pub fn number(&mut self, mark: &[u8], number: u128) {
        let added = append_number(self.alloc, mark, number, &mut self.bytes);
        self.keep(added);
    }

    /// A key behind a mark: the serial number of the list, a dot and that of the stanza.
    pub fn key(&mut self, mark: &[u8], key: StanzaKey) {
        self.number(mark, key.list as u128);
        self.number(b".", key.stanza as u128);
    }

    /// A pin, on a line.
    pub fn pin(&mut self, selector: &Selector, priority: i16) {
        self.add(b"pin ");
        say_selector(selector, self);
        let added = append_priority(self.alloc, priority, &mut self.bytes);
        self.keep(added);
    }
}

fn append_number(
    alloc: Global,
    mark: &[u8],
    number: u128,
    bytes: &mut Vec<u8>,
) -> Result<(), AllocError> {
    bytes.extend_from_slice(mark)?;
    let digits = format!(in alloc; "{number}")?;
    bytes.extend_from_slice(digits.as_bytes())
}

fn append_priority(alloc: Global, priority: i16, bytes: &mut Vec<u8>) -> Result<(), AllocError> {
    let told = format!(in alloc; " {priority}\n")?;
    bytes.extend_from_slice(told.as_bytes())
}

fn say_selector(selector: &Selector, said: &mut Said) {
    match selector {
        Selector::Version { package, version } => {
            said.all(&[package.as_slice(), b" version ", version.text()])
        }
        Selector::Release {
            package: Some(package),
            list,
        } => said.all(&[package.as_slice(), b" release ", list.as_slice()]),
        Selector::Release {
            package: None,
            list,
        } => said.all(&[b"* release ", list.as_slice()]),
    }
}
