//! Stanzas and their parts.

ghost use Rattle.std.specs.Prelude.{◌≡◌, ◌+◌, ◌<◌, ◌≤◌, ◌^◌, ◌++◌, ◌∷◌, [], length, take, drop, option_map, None, IfOk, IfErr, OnOk};
ghost use Rattle.std.specs.List.{All};
ghost use Rattle.ctl_stanza.specs.Lines.{lines_of, lent_lines, AreLines};
ghost use Rattle.ctl_stanza.specs.Fields.{fields_of_lines};
ghost use Rattle.ctl_stanza.specs.Content.{content_of, offers_of};
ghost use Rattle.ctl_stanza.specs.Inside.HeldStanza.{content_in_front, live_offers, AreKept, AreRelationsOf};
ghost use Rattle.ctl_stanza.specs.Inside.HeldFields.{IsWalk, IsReadFrom, AreWithin, shown_fields};
ghost use Rattle.ctl_stanza.specs.Faults.{first_fault, whole_fault, stanza_fault, IsMemoryAtZero, Tells};
ghost use Rattle.ctl_stanza.specs.Inside.NameSlots.{AreTakenBy};
ghost use Rattle.ctl_stanza.specs.declared.repeats.Repeats.TheVariants.{Never};

use crate::checks::{first_wrong, is_missing};
use crate::fault::{Cause, TextFault};
use crate::fields::{Field, body_named, fields_of_lines};
use crate::laws::whole_stanzas_are_sound;
use crate::list_kind::ListKind;
use crate::live::{LiveParts, read_live};
use crate::name_slots::is_taken;
use crate::status::liveness;
use crate::walk::{body_in, count_fields, take_field};
use ctl_relation::{FieldKind, Groups, Offer, Offers, Version, kept_groups, offers_of};
use std::alloc::{AllocError, Global};
use std::marker::Model;
use std::mem;

/// A stanza without a fault, seen as its text and the kind of its list. What it has in it is read from its
/// text once, and lent from there.
#[derive(Drop)]
pub struct Stanza {
    // The text, and behind it the bodies that don't stand in it in one piece.
    bytes: Vec<u8>,
    text_len: u32,
    kind: ListKind,
    // The slots of the names of its fields: most fields that it hasn't are told by them.
    names: u64,
    // None where the stanza isn't live, as there are no offers then: its relation fields. The version is that of the first
    // offer.
    marks: Vec<u32>,
    offers: Offers,
}

impl Model for Stanza {
    ghost use Rattle.ctl_stanza.specs.Content.{Content};
    ghost use Rattle.ctl_stanza.specs.Inside.HeldStanza.{content_in_front, ArePartsOf};

    ghost Value = { Content };

    ghost view = { λ s. content_in_front s.kind s.text_len s.bytes.items };

    ghost invariant = { λ s. ArePartsOf (content_in_front s.kind s.text_len s.bytes.items)
        s.bytes.items s.text_len s.marks.items s.offers s.names };
}

/// Where a stanza begins, the kind of its list, and the slots of the names of its fields.
#[derive(Clone, Copy)]
pub(crate) struct StanzaHead {
    pub(crate) line: u64,
    pub(crate) kind: ListKind,
    pub(crate) names: u64,
}

/// What is read of a stanza before it is one: its bytes, which are its text and behind it the bodies that don't stand in it in
/// one piece, where its fields stand in them, and what these gave. One stanza after another is read with the same, and takes
/// the bytes with it.
#[derive(Drop)]
pub(crate) struct StanzaRoom {
    pub(crate) bytes: Vec<u8>,
    pub(crate) fields: Vec<Field>,
    live: LiveParts,
}

impl StanzaRoom {
    /// No room yet.
    pub(crate) fn new(alloc: Global) -> StanzaRoom {
        StanzaRoom {
            bytes: Vec::new(alloc),
            fields: Vec::new(alloc),
            live: LiveParts::new(alloc),
        }
    }
}

// The stanza of what was read.
fn stanza_of(
    bytes: Vec<u8>,
    text_len: u32,
    head: StanzaHead,
    marks: Vec<u32>,
    offers: Offers,
) -> Stanza
    requires within { text_len ≤ length bytes.items }
    requires walk { IsWalk (take text_len bytes.items) (drop text_len bytes.items) }
    requires relations { AreRelationsOf (content_in_front head.kind text_len bytes.items) bytes.items marks.items }
    requires offers { offers ≡ offers_of (content_in_front head.kind text_len bytes.items) }
    requires names { AreTakenBy (lines_of (take text_len bytes.items)) head.names }
    requires no_fault { stanza_fault head.kind 0 (lines_of (take text_len bytes.items)) ≡ None }
    ensures { result ≡ content_in_front head.kind text_len bytes.items }
{
    whole_stanzas_are_sound();
    Stanza {
        bytes,
        text_len,
        kind: head.kind,
        names: head.names,
        marks,
        offers,
    }
}

// What a live stanza of this version offers, by its fields and the marks of its relation fields.
fn live_offers(
    alloc: Global,
    fields: &[Field],
    bytes: &[u8],
    marks: &[u32],
    version: Option<Version>,
) -> Result<Offers, AllocError>
    requires within { AreWithin bytes.now fields.now }
    requires kept { AreKept bytes.now (shown_fields bytes.now fields.now) marks.now }
    ensures { IfOk result (λ offers. offers ≡ live_offers version (shown_fields bytes.now fields.now)) }
{
    let package = body_named(fields, bytes, b"Package").unwrap_or(&[]);
    let provides = kept_groups(marks, bytes, FieldKind::Provides);
    offers_of(alloc, package, version, provides)
}

// Reads the fields of a stanza, and tells what it offers. Of one that isn't live its package alone is checked.
fn read_offers(
    alloc: Global,
    room: &mut StanzaRoom,
    head: StanzaHead,
    text_len: u32,
) -> Result<Offers, TextFault>
    requires lines { All (λ field. head.line + field.line < 2 ^ 64) room.old.fields.items }
    requires read { IsReadFrom room.old.bytes.items text_len room.old.fields.items }
    ensures offers { IfOk result (λ offers. offers ≡ offers_of (content_in_front head.kind text_len room.old.bytes.items)) }
    ensures relations { OnOk result (AreRelationsOf (content_in_front head.kind text_len room.old.bytes.items)
        room.old.bytes.items room.new.live.relations) }
    ensures bytes { room.new.bytes ≡ room.old.bytes }
    ensures whole { OnOk result (whole_fault head.kind head.line (shown_fields room.old.bytes.items room.old.fields.items) ≡ None) }
    ensures fault { IfErr result (Tells (whole_fault head.kind head.line (shown_fields room.old.bytes.items room.old.fields.items))) }
    ensures memory { IfErr result IsMemoryAtZero }
{
    let fields = room.fields.as_slice();
    let bytes = room.bytes.as_slice();
    let live = liveness(head.kind, fields, bytes);
    if is_missing(head.kind, live, fields, bytes) {
        return Err(TextFault {
            line: head.line,
            cause: Cause::Missing,
        });
    }
    if let Some(true) = live {
        read_live(alloc, fields, bytes, head.line, &mut room.live)?;
        let version = room.live.version.take();
        let marks = room.live.relations.as_slice();
        let offers = live_offers(alloc, fields, bytes, marks, version)?;
        return Ok(offers);
    }
    if let Some(fault) = first_wrong(fields, bytes, head.line) {
        return Err(fault);
    }
    room.live.relations.clear();
    Ok(Offers::none())
}

/// Adds the stanza of bytes at whose front its text stands, of which the fields were found, or tells what is wrong with it.
pub(crate) fn add_stanza(
    alloc: Global,
    stanzas: &mut Vec<Stanza>,
    room: &mut StanzaRoom,
    head: StanzaHead,
    text_len: u32,
) -> Result<(), TextFault>
    requires lines { All (λ field. head.line + field.line < 2 ^ 64) room.old.fields.items }
    requires read { IsReadFrom room.old.bytes.items text_len room.old.fields.items }
    requires names { AreTakenBy (lines_of (take text_len room.old.bytes.items)) head.names }
    ensures stanza { OnOk result (stanzas.new.items ≡ stanzas.old.items ++ content_in_front head.kind text_len room.old.bytes.items ∷ []) }
    ensures whole { OnOk result (whole_fault head.kind head.line (shown_fields room.old.bytes.items room.old.fields.items) ≡ None) }
    ensures fault { IfErr result (Tells (whole_fault head.kind head.line (shown_fields room.old.bytes.items room.old.fields.items))) }
    ensures memory { IfErr result IsMemoryAtZero }
{
    let offers = read_offers(alloc, room, head, text_len)?;
    let marks = Vec::from_slice(alloc, room.live.relations.as_slice())?;
    let bytes = mem::replace(&mut room.bytes, Vec::new(alloc));
    stanzas.push(stanza_of(bytes, text_len, head, marks, offers))?;
    Ok(())
}

/// Adds the stanza of lines none of which is faulty, or tells what is wrong with it. One of 2^32 bytes or more counts as out
/// of memory.
pub(crate) fn add_stanza_of_lines(
    alloc: Global,
    stanzas: &mut Vec<Stanza>,
    room: &mut StanzaRoom,
    lines: &[&[u8]],
    head: StanzaHead,
) -> Result<(), TextFault>
    requires lines { head.line + length lines.now < 2 ^ 64 }
    requires no_newline { AreLines (lent_lines lines.now) }
    requires no_fault { first_fault Never head.line [] (lent_lines lines.now) ≡ None }
    requires names { AreTakenBy (lent_lines lines.now) head.names }
    ensures stanza { OnOk result (stanzas.new.items ≡ stanzas.old.items ++ content_of head.kind (lent_lines lines.now) ∷ []) }
    ensures whole { OnOk result (whole_fault head.kind head.line (fields_of_lines (lent_lines lines.now)) ≡ None) }
    ensures fault { IfErr result (Tells (whole_fault head.kind head.line (fields_of_lines (lent_lines lines.now)))) }
    ensures memory { IfErr result IsMemoryAtZero }
{
    let text_len = fields_of_lines(&mut room.bytes, &mut room.fields, lines)?;
    add_stanza(alloc, stanzas, room, head, text_len)
}

impl Stanza {
    ghost use Rattle.std.specs.Prelude.{true, IsSome};
    ghost use Rattle.std.specs.List.{All};
    ghost use Rattle.ctl_relation.specs.Bounds.{atom_count};
    ghost use Rattle.ctl_relation.specs.Lent.{lent};
    ghost use Rattle.ctl_relation.specs.Names.{is_name};
    ghost use Rattle.ctl_stanza.specs.Sound.{IsWhole, IsOneAtom, IsSmallGroup};
    ghost use Rattle.ctl_stanza.specs.Content.{body_of, package_of, named_bodies, is_live, version_of, groups_of, provides_of, offers_of};

    /// The lines of the stanza, each with a newline. A stanza has no fault, and less than 2^32 bytes.
    pub fn text(&self) -> &[u8]
        ensures text { result.now ≡ self.now.text }
        ensures whole { IsWhole self.now }
    {
        self.bytes.split_at(self.text_len as usize).0
    }

    /// The kind of its list.
    pub fn kind(&self) -> ListKind
        ensures kind { result ≡ self.now.kind }
        ensures whole { IsWhole self.now }
    {
        self.kind
    }

    /// Whether its package counts as there: it stands in a packages list, or its state is `unpacked`,
    /// `half-configured`, `triggers-awaited`, `triggers-pending` or `installed`. Of another stanza only `Package` and
    /// `Status` are checked, and it has no version, no groups and no offers.
    pub fn is_live(&self) -> bool
        ensures { result ≡ is_live self.now }
    {
        !self.offers.as_slice().is_empty()
    }

    /// The body of the field of a name, which is taken without regard to ASCII case. None where there is no
    /// such field.
    ///
    /// A body is the value of its field line, without the blanks round it, and then each line that continues it as it
    /// stands, behind a newline.
    pub fn field(&self, name: &[u8]) -> Option<&[u8]>
        ensures { option_map (λ body. body.now) result ≡ body_of self.now name.now }
    {
        if !is_taken(self.names, name) {
            return None;
        }
        let (text, loose) = self.bytes.split_at(self.text_len as usize);
        body_in(text, loose, name)
    }

    /// The names and the bodies of the fields, in order.
    pub fn fields(&self) -> Fields<'_>
        ensures { result ≡ named_bodies self.now }
    {
        let (text, loose) = self.bytes.split_at(self.text_len as usize);
        Fields { text, loose }
    }

    /// The name of the package, which is the body of the field `Package` (Debian Policy 5.6.7).
    pub fn package(&self) -> &[u8]
        ensures body { result.now ≡ package_of self.now }
        ensures name { is_name result.now ≡ true }
    {
        match self.offers.as_slice().first() {
            // It offers its own name first, so that the fields need not be looked through.
            Some(own) => own.name(),
            None => self.field(b"Package").unwrap_or(&[]),
        }
    }

    /// The version of a live stanza, which is the body of the field `Version` (Debian Policy 5.6.12). None where the
    /// stanza isn't live.
    pub fn version(&self) -> Option<&Version>
        ensures version { lent result ≡ version_of self.now }
        ensures live { is_live self.now ≡ true → IsSome result }
    {
        match self.offers.as_slice().first() {
            None => None,
            Some(own) => own.version(),
        }
    }

    /// The groups of one of the relation fields other than `Provides` (Debian Policy 7.1). None where the stanza has no
    /// such field or isn't live, and none of `Provides`.
    pub fn groups(&self, kind: FieldKind) -> Groups<'_>
        ensures groups { result ≡ groups_of kind self.now }
        ensures some { All (λ group. 0 < length group) result }
        ensures few { atom_count result < 2 ^ 32 }
        ensures count { length result < 2 ^ 32 }
        ensures sizes { All IsSmallGroup result }
    {
        match kind {
            FieldKind::Provides => Groups::new(kind, &[], &[], &[]),
            _ => kept_groups(&self.marks, &self.bytes, kind),
        }
    }

    /// The entries of the field `Provides` (Debian Policy 7.5), each a group of one atom. None where the stanza has no
    /// such field or isn't live.
    pub fn provides(&self) -> Groups<'_>
        ensures provides { result ≡ provides_of self.now }
        ensures some { All (λ group. 0 < length group) result }
        ensures one { All IsOneAtom result }
        ensures few { atom_count result < 2 ^ 32 }
        ensures count { length result < 2 ^ 32 }
        ensures sizes { All IsSmallGroup result }
    {
        kept_groups(&self.marks, &self.bytes, FieldKind::Provides)
    }

    /// What the stanza offers: its own name at its version, and then each entry of its `Provides`, at the version of that
    /// entry if it has one. None where the stanza isn't live.
    pub fn offers(&self) -> &[Offer]
        ensures offers { result.now ≡ offers_of self.now }
        ensures few { length result.now < 2 ^ 32 }
    {
        self.offers.as_slice()
    }
}

/// The fields of a stanza, by [`Stanza::fields`]: names with bodies, in order.
#[derive(Drop)]
pub struct Fields<'a> {
    // The lines that are left.
    text: &'a [u8],
    // The bodies of their fields that don't stand in them in one piece.
    loose: &'a [u8],
}

impl<'a> Model for Fields<'a> {
    ghost use Rattle.std.specs.Prelude.{ℕ, List};
    ghost use Rattle.ctl_stanza.specs.Inside.HeldFields.{IsWalk, bodies_in};

    ghost Value = { List (List ℕ × List ℕ) };

    ghost view = { λ it. bodies_in it.text.now };

    ghost invariant = { λ it. IsWalk it.text.now it.loose.now };
}

impl<'a> Iterator for Fields<'a> {
    ghost use Rattle.std.specs.Prelude.{◌≡◌, length, Some, IfSome};
    ghost use Rattle.std.specs.Iterator.{YieldsFirstBy, UpTo, at_most, item_count};
    ghost use Rattle.std.specs.Iterator.SizeHint.{IsWithinCount};

    type Item = (&'a [u8], &'a [u8]);

    ghost next_gives = { YieldsFirstBy (λ item. (item.0.now, item.1.now)) (λ rest. rest) };

    ghost remaining = { item_count (λ rest. rest) };

    fn next(&mut self) -> Option<(&'a [u8], &'a [u8])> {
        let taken = take_field(self.text, self.loose)?;
        self.text = taken.text;
        self.loose = taken.loose;
        Some((taken.name, taken.body))
    }

    fn size_hint(&self) -> (usize, Option<usize>)
        ensures lower { IsWithinCount result.0 (at_most (length self.now)) }
        ensures upper { IfSome result.1 (UpTo (at_most (length self.now))) }
        ensures exact { result ≡ (length self.now, Some (length self.now)) }
    {
        let count = count_fields(self.text, self.loose);
        (count, Some(count))
    }
}
