//! What a session reads lines into and writes answers from.

ghost use Rattle.std.specs.Prelude.{◌≡◌, ◌≤◌, IfOk, vec_capacity};
ghost use Rattle.ctl_stanza.specs.Lines.{max_line};

use crate::lines::Lines;
use ctl_stanza::MAX_LINE;
use std::alloc::{AllocError, Global};

/// What a session reads lines into and writes answers from. All the memory that the reading of lines takes is here.
#[derive(Drop)]
pub(crate) struct Workspace {
    pub(crate) lines: Lines,
    /// A line that was read, or that of a refusal.
    pub(crate) line: Vec<u8>,
    /// The text of an answer.
    pub(crate) out: Vec<u8>,
    ghost room: { max_line ≤ vec_capacity line },
}

impl Workspace {
    /// A workspace with room for the longest line, for runs of so many lines at most.
    pub(crate) fn new(alloc: Global, max_lines: u32) -> Result<Self, AllocError>
        ensures { IfOk result (λ workspace. workspace.lines.max ≡ max_lines) }
    {
        Ok(Workspace {
            lines: Lines::new(alloc, max_lines)?,
            line: Vec::with_capacity(alloc, MAX_LINE)?,
            out: Vec::new(alloc),
        })
    }
}
