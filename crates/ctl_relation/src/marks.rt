//! What is kept of relation fields whose bodies stand in the same bytes: words of 32 bits.

ghost use Rattle.std.specs.Prelude.{◌≡◌, ◌≢◌, ◌<◌, ◌≤◌, ◌-◌, ◌^◌, ◌++◌, List, [], ℕ, true, Some, length, is_ok, Err, IfErr, OnOk};
ghost use Rattle.ctl_relation.specs.declared.relation_fault.RelationFault.TheVariants as relation;
ghost use Rattle.ctl_relation.specs.Inside.HeldMarks.{HasFirst, IsFirst, AreCounts};
ghost use Rattle.ctl_relation.specs.Marks.{MarkedField, AreMarks, HasMarks, Marks, code_of, counts_of, kept_groups, words_of};
ghost use Rattle.ctl_relation.specs.Reading.{relations_of};
ghost use Rattle.ctl_relation.specs.Spans.{IsWithin, shown};

use crate::field_kind::FieldKind;
use crate::groups::Groups;
use crate::reading::read_groups;
use crate::relation_fault::RelationFault;
use crate::span::Span;
use std::alloc::{AllocError, Global};
use std::marker::Model;

// How many words each field has: where its body begins, and how long that is, with its code and its place among the nine.
const HEAD: usize = 2;

// The code says how many groups a field has that has no further atoms, or that these are counted by two words of their own.
const COUNTED: u32 = 127;

// What a word has of a place, and of a code.
const PLACES: u32 = 16;

const CODES: u32 = 128;

// One more than the most bytes of a body that can be marked.
const BODY_END: u32 = 2_097_152;

// A field at the front of marks, and what stands behind it.
#[derive(Clone, Copy)]
struct FirstField<'a> {
    place: u32,
    start: u32,
    len: u32,
    starts: &'a [u32],
    further: &'a [u32],
    behind: &'a [u32],
}

// How many groups and further atoms a field has, and what stands behind the words of these counts.
#[derive(Clone, Copy)]
struct Counts<'a> {
    groups: u32,
    further: u32,
    behind: &'a [u32],
}

/// The marks of the relation fields that were read, whose bodies all stand in the same bytes: seen as their words. Beside them it
/// has the room for the places of the field that is read, so that this is asked for once.
#[derive(Drop)]
pub struct RelationMarks {
    marks: Vec<u32>,
    starts: Vec<u32>,
    further: Vec<u32>,
}

impl Model for RelationMarks {
    ghost use Rattle.std.specs.Prelude.{List, ℕ};

    ghost Value = { List ℕ };

    ghost view = { λ relations. relations.marks.items };
}

// The code of counts.
fn code_of(groups: u32, further: u32) -> u32
    ensures code { result ≡ code_of groups further }
    ensures within { result < 128 }
{
    if groups < COUNTED && further == 0 {
        groups
    } else {
        COUNTED
    }
}

// Adds the words of counts of this code.
fn push_counts(marks: &mut Vec<u32>, code: u32, groups: u32, further: u32) -> Result<(), AllocError>
    requires { code ≡ code_of groups further }
    ensures { OnOk result (marks.new.items ≡ marks.old.items ++ counts_of groups further) }
{
    if code == COUNTED {
        marks.extend_from_slice(&[groups, further])?;
    }
    Ok(())
}

// Adds the words of a relation field: its place among the nine, where its body stands in the bytes, and where in its body its
// groups and the atoms behind the first one of a group begin.
fn push_field(
    marks: &mut Vec<u32>,
    kind: FieldKind,
    body: Span,
    starts: &[u32],
    further: &[u32],
) -> Result<(), AllocError>
    requires body { body.start ≤ body.end }
    requires short { body.end - body.start < 2 ^ 21 }
    requires groups { length starts.now < 2 ^ 32 }
    requires atoms { length further.now < 2 ^ 32 }
    ensures { OnOk result (marks.new.items
        ≡ marks.old.items ++ words_of (record { kind = kind; body = body; starts = starts.now; further = further.now })) }
{
    let groups = starts.len() as u32;
    let atoms = further.len() as u32;
    let code = code_of(groups, atoms);
    let word = ((body.end - body.start) * CODES + code) * PLACES + kind.place() as u32;
    marks.extend_from_slice(&[body.start, word])?;
    push_counts(marks, code, groups, atoms)?;
    marks.extend_from_slice(starts)?;
    marks.extend_from_slice(further)?;
    Ok(())
}

impl RelationMarks {
    /// No marks, and no room yet.
    pub fn new(alloc: Global) -> RelationMarks
        ensures { result ≡ [] }
    {
        RelationMarks {
            marks: Vec::new(alloc),
            starts: Vec::new(alloc),
            further: Vec::new(alloc),
        }
    }

    /// Forgets all fields.
    pub fn clear(&mut self)
        ensures { self.new ≡ [] }
    {
        self.marks.clear();
    }

    /// The words of the marks, by which [`kept_groups`] lends the groups of a field.
    pub fn as_slice(&self) -> &[u32]
        ensures { result.now ≡ self.now }
    {
        &self.marks
    }

    /// Reads the body of a relation field of this kind, which stands in bytes, from left to right, and marks where its groups and
    /// their atoms stand. A body of 2^21 bytes or more counts as out of memory.
    ///
    /// # Errors
    ///
    /// The first fault from the left, or out of memory.
    pub fn read(&mut self, bytes: &[u8], body: Span, kind: FieldKind) -> Result<(), RelationFault>
        requires { IsWithin bytes.now body }
        ensures good { OnOk result (is_ok (relations_of kind (shown bytes.now body)) ≡ true) }
        ensures bad { IfErr result (λ fault. fault ≢ relation.Memory → relations_of kind (shown bytes.now body) ≡ Err fault) }
        ensures marks { OnOk result (Marks bytes.now (Some kind) body self.old self.new) }
    {
        if body.end - body.start >= BODY_END {
            return Err(RelationFault::Memory);
        }
        self.starts.clear();
        self.further.clear();
        read_groups(kind, body.of(bytes), &mut self.starts, &mut self.further)?;
        if self.starts.len() > u32::MAX as usize || self.further.len() > u32::MAX as usize {
            return Err(RelationFault::Memory);
        }
        push_field(&mut self.marks, kind, body, &self.starts, &self.further)?;
        Ok(())
    }
}

// The counts of a field, by its code and the words behind its head.
fn counts_of(code: u32, words: &[u32]) -> Counts<'_>
    requires { code ≡ 127 → 2 ≤ length words.now }
    ensures { (groups further : ℕ) (rest : List ℕ) → code ≡ code_of groups further
        → words.now ≡ counts_of groups further ++ rest → AreCounts result groups further rest }
{
    if code == COUNTED {
        let (counts, behind) = words.split_at(2);
        return Counts {
            groups: counts[0],
            further: counts[1],
            behind,
        };
    }
    Counts {
        groups: code,
        further: 0,
        behind: words,
    }
}

// The first field of marks.
fn first_field(marks: &[u32]) -> FirstField<'_>
    requires { HasFirst marks.now }
    ensures { (field : MarkedField) (rest : List ℕ) → marks.now ≡ words_of field ++ rest → field.body.start ≤ field.body.end
        → IsFirst result field rest }
{
    let (head, behind) = marks.split_at(HEAD);
    let counts = counts_of(head[1] / PLACES % CODES, behind);
    let (starts, behind) = counts.behind.split_at(counts.groups as usize);
    let (further, behind) = behind.split_at(counts.further as usize);
    FirstField {
        place: head[1] % PLACES,
        start: head[0],
        len: head[1] / PLACES / CODES,
        starts,
        further,
        behind,
    }
}

/// The groups that are kept of a relation field, by the marks of fields whose bodies stand in these bytes. They are lent from
/// there. Of several fields of this kind the first one counts, and there are no groups where there is no such field.
pub fn kept_groups<'a>(marks: &'a [u32], bytes: &'a [u8], kind: FieldKind) -> Groups<'a>
    requires { HasMarks bytes.now marks.now }
    ensures { (fields : List MarkedField) → AreMarks bytes.now marks.now fields → result ≡ kept_groups kind bytes.now fields }
{
    let mut left = marks;
    'fields: while !left.is_empty() {
        let first = first_field(left);
        if first.place == kind.place() as u32 {
            let start = first.start as usize;
            let body = &bytes[start..start + first.len as usize];
            return Groups::new(kind, body, first.starts, first.further);
        }
        left = first.behind;
    }
    Groups::new(kind, &[], &[], &[])
}
