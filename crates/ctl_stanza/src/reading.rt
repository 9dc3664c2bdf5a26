//! A text to its stanzas.

ghost use Rattle.std.specs.Prelude.{◌≡◌, ◌≤◌, ◌<◌, ◌+◌, ◌^◌, ◌++◌, ◌∷◌, [], false, length, None, Ok, IfOk, IfErr, OnOk};
ghost use Rattle.ctl_stanza.specs.Lines.{lines_of, lent_lines, AreLines};
ghost use Rattle.ctl_stanza.specs.Faults.{IsMemoryAtZero, Tells};
ghost use Rattle.ctl_stanza.specs.Laws.{AreStanzasOf, HasNoFault, TellsLeastFault};
ghost use Rattle.ctl_stanza.specs.Inside.HeldFields.{IsReadFrom, AreBelow};
ghost use Rattle.ctl_stanza.specs.Inside.HeldNames.{HasSeenNone};
ghost use Rattle.ctl_stanza.specs.Inside.NameSlots.{AreTakenBy};
ghost use Rattle.ctl_stanza.specs.Text.{IsFirstPiece, is_gap, piece_content, piece_fault, piece};
ghost use Rattle.ctl_stanza.specs.Text.{read_text, with_contents, Reads, TellsFault};

use crate::fault::TextFault;
use crate::line_faults::{LinesSeen, first_fault};
use crate::lines::{behind_empty_line, is_blank, take_line};
use crate::list_kind::ListKind;
use crate::quick::{Accepted, accept_stanza};
use crate::repeats::Repeats;
use crate::stanza::{Stanza, StanzaHead, StanzaRoom, add_stanza, add_stanza_of_lines};
use std::alloc::{AllocError, Global};

/// Takes the lines of the first piece of a text: one blank line, or all lines up to the next blank one. What
/// stands behind them is returned.
pub(crate) fn take_piece<'a>(
    lines: &mut Vec<&'a [u8]>,
    text: &'a [u8],
) -> Result<&'a [u8], AllocError>
    requires { 0 < length text.now }
    ensures some { OnOk result (0 < length lines.new.items) }
    ensures within { IfOk result (λ behind. length lines.new.items + length behind.now ≤ length text.now) }
    ensures no_newline { OnOk result (AreLines (lent_lines lines.new.items)) }
    ensures lines { IfOk result (λ behind. lines_of text.now ≡ lent_lines lines.new.items ++ lines_of behind.now) }
    ensures first { IfOk result (λ behind.
        IsFirstPiece (lines_of text.now) (lent_lines lines.new.items) (lines_of behind.now)) }
{
    lines.clear();
    let mut left = text;
    'lines: loop {
        let Some((line, behind)) = take_line(left) else {
            return Ok(left);
        };
        let is_gap = is_blank(line);
        if is_gap && !lines.is_empty() {
            return Ok(left);
        }
        lines.push(line)?;
        if is_gap {
            return Ok(behind);
        }
        left = behind;
    }
}

// The room that one piece of a text after another is read with, so that it is asked for once: what the lines of a stanza gave,
// these lines, and what is read of the stanza.
#[derive(Drop)]
struct Room<'a> {
    seen: LinesSeen<'a>,
    lines: Vec<&'a [u8]>,
    stanza: StanzaRoom,
}

// Where a stanza begins: the number of its first line, and the kind of its list.
#[derive(Clone, Copy)]
struct StanzaStart {
    line: u64,
    kind: ListKind,
}

// Reads a piece that may have a fault: adds its stanza, if it is one.
fn read_piece(
    alloc: Global,
    stanzas: &mut Vec<Stanza>,
    room: &mut Room,
    from: StanzaStart,
) -> Result<(), TextFault>
    requires lines { from.line + length room.old.lines.items < 2 ^ 64 }
    requires some { 0 < length room.old.lines.items }
    requires no_newline { AreLines (lent_lines room.old.lines.items) }
    requires none { HasSeenNone room.old.seen }
    ensures stanzas { OnOk result (
        stanzas.new.items ≡ stanzas.old.items ++ piece_content from.kind (lent_lines room.old.lines.items)) }
    ensures whole { OnOk result (piece_fault from.kind (piece from.line (lent_lines room.old.lines.items)) ≡ None) }
    ensures fault { IfErr result (Tells (piece_fault from.kind (piece from.line (lent_lines room.old.lines.items)))) }
    ensures memory { IfErr result IsMemoryAtZero }
    ensures none { OnOk result (HasSeenNone room.new.seen) }
{
    let lines = room.lines.as_slice();
    let found = first_fault(alloc, Repeats::Never, &mut room.seen, lines, from.line)?;
    let names = room.seen.slots();
    // The names of a large stanza take more room than the stanza.
    room.seen.clear();
    if let Some(fault) = found {
        return Err(fault);
    }
    if is_blank(lines[0]) {
        return Ok(());
    }
    let head = StanzaHead {
        line: from.line,
        kind: from.kind,
        names,
    };
    add_stanza_of_lines(alloc, stanzas, &mut room.stanza, lines, head)
}

// Adds an accepted stanza, whose fields were found, or tells what is wrong with it.
fn add_accepted(
    alloc: Global,
    stanzas: &mut Vec<Stanza>,
    room: &mut StanzaRoom,
    accepted: &Accepted,
    from: StanzaStart,
) -> Result<(), TextFault>
    requires lines { from.line + accepted.now.line_count < 2 ^ 64 }
    requires read { IsReadFrom accepted.now.text.now (length accepted.now.text.now) room.old.fields.items }
    requires below { AreBelow accepted.now.line_count room.old.fields.items }
    requires stanza { is_gap (lines_of accepted.now.text.now) ≡ false }
    requires names { AreTakenBy (lines_of accepted.now.text.now) accepted.now.names }
    ensures stanza { OnOk result (
        stanzas.new.items ≡ stanzas.old.items ++ piece_content from.kind (lines_of accepted.now.text.now)) }
    ensures whole { OnOk result (piece_fault from.kind (piece from.line (lines_of accepted.now.text.now)) ≡ None) }
    ensures fault { IfErr result (Tells (piece_fault from.kind (piece from.line (lines_of accepted.now.text.now)))) }
    ensures memory { IfErr result IsMemoryAtZero }
{
    room.bytes.clear();
    room.bytes.extend_from_slice(accepted.text)?;
    let head = StanzaHead {
        line: from.line,
        kind: from.kind,
        names: accepted.names,
    };
    add_stanza(alloc, stanzas, room, head, accepted.text.len() as u32)
}

// Adds the stanzas of a text, and tells the number of the line behind it.
fn read_pieces<'a>(
    alloc: Global,
    stanzas: &mut Vec<Stanza>,
    room: &mut Room<'a>,
    text: &'a [u8],
    from: StanzaStart,
) -> Result<u64, TextFault>
    requires lines { from.line + length (lines_of text.now) < 2 ^ 64 }
    requires none { HasSeenNone room.old.seen }
    ensures line { IfOk result (λ line. line ≡ from.line + length (lines_of text.now)) }
    ensures read { OnOk result (with_contents stanzas.old.items (read_text from.kind from.line text.now) ≡ Ok stanzas.new.items) }
    ensures fault { IfErr result (TellsFault (with_contents stanzas.old.items (read_text from.kind from.line text.now))) }
    ensures memory { IfErr result IsMemoryAtZero }
{
    let kind = from.kind;
    let mut left = text;
    let mut line = from.line;
    'pieces: while !left.is_empty() {
        if let Some(behind) = behind_empty_line(left) {
            line += 1;
            left = behind;
            continue;
        }
        let from = StanzaStart { line, kind };
        let found = accept_stanza(alloc, &mut room.seen, &mut room.stanza.fields, left)?;
        // The names of a large stanza take more room than the stanza.
        room.seen.clear();
        if let Some(accepted) = found {
            add_accepted(alloc, stanzas, &mut room.stanza, &accepted, from)?;
            line += accepted.line_count as u64;
            left = accepted.behind;
            continue;
        }
        let behind = take_piece(&mut room.lines, left)?;
        let count = room.lines.len() as u64;
        read_piece(alloc, stanzas, room, from)?;
        line += count;
        left = behind;
    }
    Ok(line)
}

/// Adds the stanzas of a control text whose lines count from `first_line`, and tells the number of the line behind it.
pub(crate) fn read_behind(
    alloc: Global,
    stanzas: &mut Vec<Stanza>,
    text: &[u8],
    first_line: u64,
    kind: ListKind,
) -> Result<u64, TextFault>
    requires lines { first_line + length (lines_of text.now) < 2 ^ 64 }
    ensures line { IfOk result (λ line. line ≡ first_line + length (lines_of text.now)) }
    ensures read { OnOk result (with_contents stanzas.old.items (read_text kind first_line text.now) ≡ Ok stanzas.new.items) }
    ensures fault { IfErr result (TellsFault (with_contents stanzas.old.items (read_text kind first_line text.now))) }
    ensures memory { IfErr result IsMemoryAtZero }
{
    let mut room = Room {
        seen: LinesSeen::new(alloc),
        lines: Vec::new(alloc),
        stanza: StanzaRoom::new(alloc),
    };
    let from = StanzaStart {
        line: first_line,
        kind,
    };
    read_pieces(alloc, stanzas, &mut room, text, from)
}

/// The stanzas of a control text whose lines count from `first_line`, or its fault.
///
/// A line ends with a newline, and a last line without one counts if it isn't empty. Lines of spaces and
/// tabs alone, or of nothing, part stanzas. Each other line is a field line, `Name: value`, or continues the field
/// before it, as one that begins with a space or a tab does. A stanza has a `Package` that is a name; in a status list a
/// `Status` of three words, of which the third is one of the eight states of dpkg; and where it is live a `Version`
/// that is a version, and relation fields that can be read.
///
/// # Errors
///
/// The fault of the least line, and of the faults of that line the one with the lowest number: see
/// [`Cause`](crate::Cause). Where memory runs out the cause is [`Cause::Memory`](crate::Cause::Memory) and
/// the line is 0. So it is for a stanza of 2^32 bytes or more, where the bodies count that can't be lent from its text.
pub fn read_stanzas(
    alloc: Global,
    text: &[u8],
    first_line: u64,
    kind: ListKind,
) -> Result<Vec<Stanza>, TextFault>
    requires lines { first_line + length (lines_of text.now) < 2 ^ 64 }
    ensures stanzas { IfOk result (λ stanzas. AreStanzasOf kind (lines_of text.now) stanzas.items) }
    ensures no_fault { OnOk result (HasNoFault kind (lines_of text.now)) }
    ensures least { IfErr result (TellsLeastFault kind first_line (lines_of text.now)) }
    ensures read { Reads result (read_text kind first_line text.now) }
    ensures memory { IfErr result IsMemoryAtZero }
{
    let mut stanzas = Vec::new(alloc);
    read_behind(alloc, &mut stanzas, text, first_line, kind)?;
    stanzas.shrink_to_fit();
    Ok(stanzas)
}
