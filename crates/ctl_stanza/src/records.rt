//! The records of a text of preferences (apt_preferences(5)).

ghost use Rattle.std.specs.Prelude.{◌≡◌, ◌≢◌, ◌+◌, ◌<◌, ◌^◌, ◌++◌, ◌∷◌, [], length, None, Some, IfOk, IfErr, IfSome, OnOk, OnErr};
ghost use Rattle.ctl_stanza.specs.declared.fault.Cause.TheVariants as causes;
ghost use Rattle.ctl_stanza.specs.Lines.{lines_of, lent_lines, AreLines};
ghost use Rattle.ctl_stanza.specs.Faults.{IsMemoryAtZero, Tells};
ghost use Rattle.ctl_stanza.specs.Inside.HeldNames.{HasSeenNone};
ghost use Rattle.ctl_stanza.specs.Text.{pieces_of, Reads};
ghost use Rattle.ctl_stanza.specs.RecordLaws.{HasNoRecordFault, AreRecordsOf, AreRecordsUpTo, TellsLeastRecordFault};
ghost use Rattle.ctl_stanza.specs.Records.{record_of, numbered_fault, record_fault, piece_record, records_before, records_before_fault, read_record_text};

use crate::fault::{Cause, TextFault};
use crate::fields::{Field, fields_of_lines};
use crate::line_faults::{LinesSeen, first_fault};
use crate::lines::is_blank;
use crate::reading::take_piece;
use crate::record_lines::{RecordLines, record_lines};
use crate::repeats::Repeats;
use std::alloc::{AllocError, Global};
use std::marker::Model;

/// A record of preferences: fields, of which only their form is checked. It is seen as the number of its first line and
/// its fields, of each the number of its line, its name and its body.
#[derive(Drop)]
pub struct Record {
    // The text, and behind it the bodies that don't stand in it in one piece.
    bytes: Vec<u8>,
    fields: Vec<Field>,
    // The numbers of its lines.
    numbers: Vec<u64>,
}

impl Model for Record {
    ghost use Rattle.std.specs.Prelude.{map, slice_index};
    ghost use Rattle.ctl_stanza.specs.Records.{RecordText, numbered_field};
    ghost use Rattle.ctl_stanza.specs.Inside.HeldFields.{shown_fields, AreNumbered};

    ghost Value = { RecordText };

    ghost view = { λ r. record {
      first_line = slice_index r.numbers.items 0;
      fields = map (numbered_field r.numbers.items) (shown_fields r.bytes.items r.fields.items);
    } };

    ghost invariant = { λ r. AreNumbered r.bytes.items r.numbers.items r.fields.items };
}

// The room that one piece of a text after another is read with: what its lines gave, and these lines.
#[derive(Drop)]
struct RecordRoom<'a> {
    seen: LinesSeen<'a>,
    lines: Vec<&'a [u8]>,
}

// The record of lines without a faulty one, which have these numbers. One of 2^32 bytes or more counts as out of
// memory.
fn record_of(alloc: Global, lines: &[&[u8]], numbers: &[u64]) -> Result<Record, AllocError>
    requires some { 0 < length lines.now }
    requires numbers { length numbers.now ≡ length lines.now }
    ensures { IfOk result (λ read. read ≡ record_of numbers.now (lent_lines lines.now)) }
{
    let numbers = Vec::from_slice(alloc, numbers)?;
    let mut record = Record {
        bytes: Vec::new(alloc),
        fields: Vec::new(alloc),
        numbers,
    };
    fields_of_lines(&mut record.bytes, &mut record.fields, lines)?;
    record.fields.shrink_to_fit();
    Ok(record)
}

// A fault whose line is told by its index, with the number of that line.
fn numbered_fault(fault: TextFault, numbers: &[u64]) -> TextFault
    requires { fault.line < length numbers.now }
    ensures { result ≡ numbered_fault numbers.now fault }
{
    TextFault {
        line: numbers[fault.line as usize],
        cause: fault.cause,
    }
}

// Reads a piece of lines that have these numbers: adds its record, if it is one.
fn read_record(
    alloc: Global,
    records: &mut Vec<Record>,
    room: &mut RecordRoom,
    numbers: &[u64],
) -> Result<(), TextFault>
    requires some { 0 < length room.old.lines.items }
    requires numbers { length numbers.now ≡ length room.old.lines.items }
    requires none { HasSeenNone room.old.seen }
    ensures records { OnOk result (
        records.new.items ≡ records.old.items ++ piece_record numbers.now (lent_lines room.old.lines.items)) }
    ensures whole { OnOk result (record_fault numbers.now (lent_lines room.old.lines.items) ≡ None) }
    ensures none { OnOk result (HasSeenNone room.new.seen) }
    ensures kept { OnErr result (records.new.items ≡ records.old.items) }
    ensures fault { IfErr result (Tells (record_fault numbers.now (lent_lines room.old.lines.items))) }
    ensures memory { IfErr result IsMemoryAtZero }
{
    let lines = room.lines.as_slice();
    let found = first_fault(alloc, Repeats::Explanation, &mut room.seen, lines, 0)?;
    room.seen.clear();
    if let Some(fault) = found {
        return Err(numbered_fault(fault, numbers));
    }
    if is_blank(lines[0]) {
        return Ok(());
    }
    let record = record_of(alloc, lines, numbers)?;
    records.push(record)?;
    Ok(())
}

// Adds the records of lines, up to the first one that has a faulty line, and tells the fault of that line.
fn read_pieces<'a>(
    alloc: Global,
    records: &mut Vec<Record>,
    room: &mut RecordRoom<'a>,
    kept: &'a RecordLines,
) -> Result<(), TextFault>
    requires numbers { length kept.now.numbers.items ≡ length (lines_of kept.now.text.items) }
    requires none { HasSeenNone room.old.seen }
    requires new { records.old.items ≡ [] }
    ensures read { OnOk result (
        (records.new.items, None) ≡ records_before kept.now.numbers.items (pieces_of 0 (lines_of kept.now.text.items))) }
    ensures fault { IfErr result (λ fault. fault.cause ≢ causes.Memory →
        (records.new.items, Some fault) ≡ records_before kept.now.numbers.items (pieces_of 0 (lines_of kept.now.text.items))) }
{
    let mut left = kept.text.as_slice();
    let mut at: usize = 0;
    'pieces: while !left.is_empty() {
        let behind = take_piece(&mut room.lines, left)?;
        let end = at + room.lines.len();
        read_record(alloc, records, room, &kept.numbers[at..end])?;
        at = end;
        left = behind;
    }
    Ok(())
}

/// The records of a text of preferences before its first faulty line, and the fault of that line, if there is one.
#[derive(Drop)]
pub struct RecordsBeforeFault {
    /// The records, in order.
    pub records: Vec<Record>,
    /// The fault of the least line; `None` where all records were read.
    pub fault: Option<TextFault>,
}

/// The records of a text of preferences whose lines count from `first_line`, up to the first record that has a faulty
/// line.
///
/// A line that begins with `#` is a comment, which is skipped as if it weren't there, though its number counts. The
/// other lines are cut into records as the lines of a control text are cut into stanzas, and a field `Explanation` may
/// stand in a record more than once. What the fields say is not looked at.
///
/// # Errors
///
/// Out of memory. A record of 2^32 bytes or more counts as that.
pub fn read_records_before_fault(
    alloc: Global,
    text: &[u8],
    first_line: u64,
) -> Result<RecordsBeforeFault, AllocError>
    requires lines { first_line + length (lines_of text.now) < 2 ^ 64 }
    ensures records { IfOk result (λ read. AreRecordsUpTo first_line text.now read.records.items read.fault) }
    ensures read { IfOk result (λ read. (read.records.items, read.fault) ≡ records_before_fault first_line text.now) }
    ensures fault { IfOk result (λ read. IfSome read.fault (λ fault. fault.cause ≢ causes.Memory)) }
{
    let kept = record_lines(alloc, text, first_line)?;
    let mut room = RecordRoom {
        seen: LinesSeen::new(alloc),
        lines: Vec::new(alloc),
    };
    let mut records = Vec::new(alloc);
    let fault = match read_pieces(alloc, &mut records, &mut room, &kept) {
        Ok(()) => None,
        Err(
            TextFault {
                cause: Cause::Memory,
                ..
            },
        ) => return Err(AllocError),
        Err(fault) => Some(fault),
    };
    records.shrink_to_fit();
    Ok(RecordsBeforeFault { records, fault })
}

/// The records of a text of preferences whose lines count from `first_line`, or its fault: those of
/// [`read_records_before_fault`].
///
/// # Errors
///
/// The fault of the least line: [`Cause::TooLong`](crate::Cause::TooLong), [`Cause::Line`](crate::Cause::Line) or
/// [`Cause::FieldTwice`](crate::Cause::FieldTwice). Where memory runs out the cause is
/// [`Cause::Memory`](crate::Cause::Memory) and the line is 0. So it is for a record of 2^32 bytes or more.
pub fn read_records(alloc: Global, text: &[u8], first_line: u64) -> Result<Vec<Record>, TextFault>
    requires lines { first_line + length (lines_of text.now) < 2 ^ 64 }
    ensures records { IfOk result (λ records. AreRecordsOf first_line text.now records.items) }
    ensures no_fault { OnOk result (HasNoRecordFault first_line text.now) }
    ensures least { IfErr result (TellsLeastRecordFault first_line text.now) }
    ensures read { Reads result (read_record_text first_line text.now) }
    ensures memory { IfErr result IsMemoryAtZero }
{
    let RecordsBeforeFault { records, fault } = read_records_before_fault(alloc, text, first_line)?;
    match fault {
        Some(fault) => Err(fault),
        None => Ok(records),
    }
}

impl Record {
    ghost use Rattle.ctl_stanza.specs.Records.{parts_of_fields};

    /// The number of its first line.
    pub fn first_line(&self) -> u64
        ensures { result ≡ self.now.first_line }
    {
        self.numbers[0]
    }

    /// The names, the bodies and the numbers of the lines of the fields, in order.
    pub fn fields(&self) -> RecordFields<'_>
        ensures { result ≡ parts_of_fields self.now }
    {
        RecordFields {
            bytes: &self.bytes,
            fields: &self.fields,
            numbers: &self.numbers,
        }
    }
}

/// The fields of a record, by [`Record::fields`]: names with bodies and the numbers of their lines, in order.
#[derive(Drop)]
pub struct RecordFields<'a> {
    bytes: &'a [u8],
    fields: &'a [Field],
    numbers: &'a [u64],
}

impl<'a> Model for RecordFields<'a> {
    ghost use Rattle.std.specs.Prelude.{ℕ, List, map};
    ghost use Rattle.ctl_stanza.specs.Records.{numbered_field, parts_of_field};
    ghost use Rattle.ctl_stanza.specs.Inside.HeldFields.{shown_fields, AreNumbered};

    ghost Value = { List (List ℕ × List ℕ × ℕ) };

    ghost view = { λ it. map parts_of_field (map (numbered_field it.numbers.now) (shown_fields it.bytes.now it.fields.now)) };

    ghost invariant = { λ it. AreNumbered it.bytes.now it.numbers.now it.fields.now };
}

impl<'a> Iterator for RecordFields<'a> {
    ghost use Rattle.std.specs.Prelude.{◌≡◌, length, Some, IfSome};
    ghost use Rattle.std.specs.Iterator.{YieldsFirstBy, UpTo, at_most, item_count};
    ghost use Rattle.std.specs.Iterator.SizeHint.{IsWithinCount};

    type Item = (&'a [u8], &'a [u8], u64);

    ghost next_gives = { YieldsFirstBy (λ item. (item.0.now, item.1.now, item.2)) (λ rest. rest) };

    ghost remaining = { item_count (λ rest. rest) };

    fn next(&mut self) -> Option<(&'a [u8], &'a [u8], u64)> {
        let (field, rest) = self.fields.split_first()?;
        self.fields = rest;
        Some((
            field.name.of(self.bytes),
            field.body.of(self.bytes),
            self.numbers[field.line as usize],
        ))
    }

    fn size_hint(&self) -> (usize, Option<usize>)
        ensures lower { IsWithinCount result.0 (at_most (length self.now)) }
        ensures upper { IfSome result.1 (UpTo (at_most (length self.now))) }
        ensures exact { result ≡ (length self.now, Some (length self.now)) }
    {
        (self.fields.len(), Some(self.fields.len()))
    }
}
