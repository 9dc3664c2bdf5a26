//! A list that comes in pieces is read as the whole text is.

use crate::said::Said;
use crate::tables::same;
use ctl_stanza::{ListKind, Stanza, StanzaReader, TextFault};
use std::alloc::Global;
use std::process::Abort;

/// How many stanzas a list is read to, or the line of its fault and the number of the cause.
fn read_words(alloc: Global, read: Result<Vec<Stanza>, TextFault>) -> Said {
    let mut said = Said::new(alloc);
    match read {
        Ok(stanzas) => {
            said.number(b"", stanzas.len() as u128);
            said.add(b" stanzas");
        }
        Err(fault) => {
            said.number(b"line ", fault.line as u128);
            said.number(b": cause ", fault.cause.number() as u128);
        }
    }
    said
}

/// Reads a list that comes in two pieces.
fn read_in_pieces(alloc: Global, front: &[u8], behind: &[u8]) -> Result<Vec<Stanza>, TextFault> {
    let reader = StanzaReader::new(alloc, 1, ListKind::Packages);
    let reader = reader.push(alloc, front)?;
    let reader = reader.push(alloc, behind)?;
    reader.finish(alloc)
}

/// Compares what a list that comes in two pieces is read to, at each byte.
fn reads(rt: &(impl Abort + AllocGlobal), text: &[u8], wanted: &[u8]) {
    for at in 0..text.len() {
        let (front, behind) = text.split_at(at);
        let read = read_in_pieces(rt.alloc(), front, behind);
        same(rt, text, read_words(rt.alloc(), read).shown(), wanted);
    }
}

#[test]
fn lists_in_pieces_read_as_whole(rt: HostRuntime) {
    const ROWS: &[(&[u8], &[u8])] = &[
        (
            b"Package: a\nVersion: 1\n\nPackage: b\nVersion: 1\nX: y\n z\n\n\n",
            b"2 stanzas",
        ),
        (
            b"\n\nPackage: a\nVersion: 1\n\n \nPackage: b\n",
            b"line 7: cause 7",
        ),
        (b"Package: a!\nVersion: 1\n\n# c", b"line 1: cause 8"),
        (b"Package: a\nVersion: 1\n\n x: y", b"line 4: cause 5"),
    ];
    for (text, wanted) in ROWS {
        reads(&rt, text, wanted);
    }
}
