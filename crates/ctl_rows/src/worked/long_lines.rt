//! Lines and bodies of fields about the most bytes that they may have.

use crate::runs::Act;
use crate::said::Said;
use crate::tables::comes;
use std::alloc::Global;
use std::process::Abort;

/// A name, a script up to a run of one byte, how often the byte stands there, the script behind them, and what it writes.
pub type Row = (
    &'static [u8],
    &'static [u8],
    (usize, u8),
    &'static [u8],
    &'static [u8],
);

const ROWS: &[Row] = &[
    (
        b"A line past the most bytes",
        b"",
        (1_048_577, b'x'),
        b"\n",
        b"E: line 1: line too long\n",
    ),
    (
        b"A line of the most bytes",
        b"",
        (1_048_576, b'x'),
        b"\n",
        b"E: line 1: unknown command\n",
    ),
    (
        b"A long line in a body without its end",
        b"add-list main packages\nPackage: a\n",
        (1_048_577, b'x'),
        b"\n",
        b"E: line 3: line too long\n",
    ),
    (
        b"A field that goes on past the most bytes",
        b"add-list main packages\nPackage: a\nVersion: 1\nD:",
        (1_048_574, b'x'),
        b"\n y\n.\n",
        b"E: line 5: line too long\n",
    ),
    (
        b"A field that goes on to the most bytes",
        b"add-list main packages\nPackage: a\nVersion: 1\nD:",
        (1_048_573, b'x'),
        b"\n y\n.\n",
        b"",
    ),
    (
        b"It is accepted",
        b"add-list main packages\nPackage: a\nVersion: 1\nD:",
        (1_048_573, b'x'),
        b"\n y\n.\npkgnames\n",
        b"a\n",
    ),
];

/// A script with a long line.
fn script_of(alloc: Global, row: &Row) -> Said {
    let (_, before, (count, byte), behind, _) = row;
    let mut script = Said::new(alloc);
    script.add(before);
    script.repeat(*count, *byte);
    script.add(behind);
    script
}

/// Compares what each script with a long line writes with what is wanted.
pub fn each_is_read(rt: &(impl Abort + AllocGlobal), rows: &[Row]) {
    for row in rows {
        let script = script_of(rt.alloc(), row);
        comes(rt, row.0, &[Act::Script(script.shown())], row.4);
    }
}

#[test]
fn long_lines_are_read_or_told(rt: HostRuntime) {
    each_is_read(&rt, ROWS);
}
