//! The groups of a relation field.

ghost use Rattle.std.specs.Prelude.{◌≡◌, ◌≤◌, ◌<◌, ◌^◌, ◌==◌, length, drop, slice_get};
ghost use Rattle.ctl_relation.specs.Inside.HeldPlaces.{AreHeld, Rise, groups_held, count_below, count_before, behind_earlier};
ghost use Rattle.ctl_relation.specs.Named.{groups_name};

use crate::field_kind::FieldKind;
use crate::group::{Group, is_named_among};
use std::marker::Model;

/// The groups of a field, all of which are to be met: seen as their list, each as the list of its atoms.
///
/// They are lent from the text of the field, which is read again where they are looked at. As an iterator this gives them in
/// their order.
#[derive(Drop)]
pub struct Groups<'a> {
    kind: FieldKind,
    body: &'a [u8],
    // Where each group begins.
    starts: &'a [u32],
    // Where the atoms behind the first one of a group begin, of all groups.
    further: &'a [u32],
}

impl<'a> Model for Groups<'a> {
    ghost use Rattle.std.specs.Prelude.{List};
    ghost use Rattle.ctl_relation.specs.Parts.{AtomParts};
    ghost use Rattle.ctl_relation.specs.Inside.HeldPlaces.{AreHeld, groups_held};

    ghost Value = { List (List AtomParts) };

    ghost view = { λ g. groups_held g.kind g.body.now g.starts.now g.further.now };

    ghost invariant = { λ g. AreHeld g.kind g.body.now g.starts.now g.further.now };
}

// How many of the places come before a bound.
fn count_below(places: &[u32], bound: u32) -> usize
    requires { Rise 0 (2 ^ 32) places.now }
    ensures count { result ≡ count_below bound places.now }
    ensures within { result ≤ length places.now }
{
    places.partition_point(|place| *place < bound)
}

// How many of the further places come before the next group, which begins at the first of `starts`.
fn count_before(starts: &[u32], further: &[u32]) -> usize
    requires { Rise 0 (2 ^ 32) further.now }
    ensures count { result ≡ count_before starts.now further.now }
    ensures within { result ≤ length further.now }
{
    match starts.first() {
        None => further.len(),
        Some(next) => count_below(further, *next),
    }
}

// The further places without those of groups before the first of `starts`.
fn behind_earlier<'a>(starts: &[u32], further: &'a [u32]) -> &'a [u32]
    requires { Rise 0 (2 ^ 32) further.now }
    ensures { result.now ≡ behind_earlier starts.now further.now }
{
    match starts.first() {
        None => further,
        Some(start) => further.split_at(count_below(further, *start)).1,
    }
}

impl<'a> Groups<'a> {
    /// The groups that begin at these places of a body, as [`Places`](crate::Places) keep them.
    pub fn new(kind: FieldKind, body: &'a [u8], starts: &'a [u32], further: &'a [u32]) -> Groups<'a>
        requires { AreHeld kind body.now starts.now further.now }
        ensures { result ≡ groups_held kind body.now starts.now further.now }
    {
        Groups {
            kind,
            body,
            starts,
            further,
        }
    }

    /// How many groups there are.
    pub fn len(&self) -> usize
        ensures { result ≡ length self.now }
    {
        self.starts.len()
    }

    /// Whether there is no group.
    pub fn is_empty(&self) -> bool
        ensures { result ≡ (length self.now == 0) }
    {
        self.starts.is_empty()
    }

    /// Whether an atom of a group has a name. No more is read of atoms than their names.
    pub fn have_name(&self, name: &[u8]) -> bool
        ensures { result ≡ groups_name name.now self.now }
    {
        if self.starts.is_empty() {
            return false;
        }
        is_named_among(self.kind, self.body, self.starts, name)
            || is_named_among(self.kind, self.body, self.further, name)
    }

    // The groups from this one on.
    fn from_index(&self, index: usize) -> Groups<'a>
        requires { index < length self.now }
        ensures { result ≡ drop index self.now }
    {
        if index == 0 {
            return Groups::new(self.kind, self.body, self.starts, self.further);
        }
        let (_, starts) = self.starts.split_at(index);
        let further = behind_earlier(starts, self.further);
        Groups::new(self.kind, self.body, starts, further)
    }

    /// The group at an index, if there is one. This takes time with the logarithm of how many atoms stand behind the first one
    /// of their group.
    pub fn get(&self, index: usize) -> Option<Group<'a>>
        ensures { result ≡ slice_get self.now index }
    {
        if index >= self.len() {
            return None;
        }
        let mut groups = self.from_index(index);
        groups.next()
    }
}

impl<'a> Iterator for Groups<'a> {
    ghost use Rattle.std.specs.Prelude.{◌≡◌, length, Some, IfSome};
    ghost use Rattle.std.specs.Iterator.{YieldsFirstBy, UpTo, at_most, item_count};
    ghost use Rattle.std.specs.Iterator.SizeHint.{IsWithinCount};

    type Item = Group<'a>;

    ghost next_gives = { YieldsFirstBy (λ group. group) (λ rest. rest) };

    ghost remaining = { item_count (λ rest. rest) };

    fn next(&mut self) -> Option<Group<'a>> {
        let (start, starts) = self.starts.split_first()?;
        let (ours, others) = self.further.split_at(count_before(starts, self.further));
        self.starts = starts;
        self.further = others;
        Some(Group::new(self.kind, self.body, *start, ours))
    }

    fn size_hint(&self) -> (usize, Option<usize>)
        ensures lower { IsWithinCount result.0 (at_most (length self.now)) }
        ensures upper { IfSome result.1 (UpTo (at_most (length self.now))) }
        ensures exact { result ≡ (length self.now, Some (length self.now)) }
    {
        (self.len(), Some(self.len()))
    }
}
