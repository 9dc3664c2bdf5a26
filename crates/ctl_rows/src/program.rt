//! The words of the program.

use crate::said::Said;
use crate::tables::same;
use ctl_session::{Arguments, arguments};
use std::alloc::Global;

/// The lists, the status file and the script that were asked for, each behind what it is.
fn say_arguments(asked: &Arguments, said: &mut Said) {
    for list in &asked.lists {
        said.all(&[b"list ", list.as_bytes()]);
    }
    if let Some(status) = &asked.status {
        said.all(&[b"status ", status.as_bytes()]);
    }
    if let Some(script) = &asked.script {
        said.all(&[b"script ", script.as_bytes()]);
    }
}

/// What words ask for, or that they are refused.
fn came_of(alloc: Global, words: &[&str]) -> Said {
    let mut said = Said::new(alloc);
    match arguments(alloc, words) {
        Ok(asked) => say_arguments(&asked, &mut said),
        Err(_) => said.add(b"refused"),
    }
    said
}

/// Words as a row.
fn row_of(alloc: Global, words: &[&str]) -> Said {
    let mut row = Said::new(alloc);
    for word in words {
        row.all(&[word.as_bytes(), b" "]);
    }
    row
}

const ROWS: &[(&[&str], &[u8])] = &[
    (&["dctrl-cache"], b""),
    (&["dctrl-cache", "x"], b"script x"),
    (&["dctrl-cache", "x", "y"], b"refused"),
    (&["dctrl-cache", "--help"], b"refused"),
    (&["dctrl-cache", "-x"], b"refused"),
    (
        &["p", "-l", "a=f", "--status", "s", "x"],
        b"list a=fstatus sscript x",
    ),
    (
        &["p", "-l", "a=f", "--status", "s", "-l", "b", "x"],
        b"list a=flist bstatus sscript x",
    ),
    (&["p", "-l"], b"refused"),
    (&["p", "--status"], b"refused"),
    (&["p", "--status", "s", "--status", "s"], b"refused"),
    (&["p", "-l", "-x"], b"refused"),
];

#[test]
fn the_program_takes_lists_a_status_file_and_a_script(rt: HostRuntime) {
    for (words, wanted) in ROWS {
        let row = row_of(rt.alloc(), words);
        same(&rt, row.shown(), came_of(rt.alloc(), words).shown(), wanted);
    }
}
