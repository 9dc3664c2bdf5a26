//! What is compared of rows.

use crate::runs::{Act, came, came_of};
use crate::said::Said;
use crate::texts::{beginning, truth};
use ctl_store::Limits;
use std::alloc::Global;
use std::process::Abort;

/// Ends the test where a row came to another text than was wanted, and shows the row and both texts.
pub fn same(rt: &impl Abort, row: &[u8], came: &[u8], wanted: &[u8]) {
    let row = beginning(row).escape_ascii();
    let is_same = came == wanted;
    let came = beginning(came).escape_ascii();
    let wanted = beginning(wanted).escape_ascii();
    assert!(rt;
        is_same,
        "at \"{row}\"\n  came   \"{came}\"\n  wanted \"{wanted}\""
    );
}

/// Ends the test where a row came to another truth than was wanted.
pub fn agree(rt: &impl Abort, row: &[u8], came: bool, wanted: bool) {
    same(rt, row, truth(came), truth(wanted));
}

/// Three texts, one behind another.
pub fn joined(alloc: Global, first: &[u8], second: &[u8], third: &[u8]) -> Said {
    let mut all = Said::new(alloc);
    all.all(&[first, second, third]);
    all
}

/// Compares what comes of acts in a new session with what is wanted.
pub fn comes(rt: &(impl Abort + AllocGlobal), row: &[u8], acts: &[Act<'_>], wanted: &[u8]) {
    same(rt, row, came(rt.alloc(), acts).shown(), wanted);
}

/// The same where runs read up to so many lines.
pub fn comes_by(
    rt: &(impl Abort + AllocGlobal),
    max_lines: u32,
    row: &[u8],
    acts: &[Act<'_>],
    wanted: &[u8],
) {
    same(
        rt,
        row,
        came_of(rt.alloc(), Limits::MOST, max_lines, acts).shown(),
        wanted,
    );
}

/// The name of a row, how many lines a run reads at most, what is done in a new session, and what comes of it.
pub type Acted = (&'static [u8], u32, &'static [Act<'static>], &'static [u8]);

/// Compares what comes of the acts of each row with what is wanted.
pub fn each_comes(rt: &(impl Abort + AllocGlobal), rows: &[Acted]) {
    for (row, max_lines, acts, wanted) in rows {
        comes_by(rt, *max_lines, row, acts, wanted);
    }
}

/// Compares what a script writes on an empty session with what is wanted.
pub fn writes(rt: &(impl Abort + AllocGlobal), script: &[u8], wanted: &[u8]) {
    comes(rt, script, &[Act::Script(script)], wanted);
}

/// Whether a byte ends a line.
pub fn is_newline(byte: &u8) -> bool {
    *byte == b'\n'
}

/// The lines of a table that stands on lines of its own.
pub fn rows_of<'a>(rt: &impl Abort, table: &'a [u8]) -> &'a [u8] {
    match table {
        [b'\n', rows @ .., b'\n'] => rows,
        _ => {
            same(rt, table, b"", b"a table on lines of its own");
            b""
        }
    }
}
