//! A relation field that was read.

ghost use Rattle.std.specs.Prelude.{◌≡◌, ◌≢◌, List, IfOk, IfErr};
ghost use Rattle.ctl_relation.specs.declared.relation_fault.RelationFault.TheVariants as relation;
ghost use Rattle.ctl_relation.specs.Fault.{IsFault};
ghost use Rattle.ctl_relation.specs.Grammar.{RelationsText};
ghost use Rattle.ctl_relation.specs.Parts.{AtomParts};

use crate::field_kind::FieldKind;
use crate::groups::Groups;
use crate::places::Places;
use crate::reading::read_places;
use crate::relation_fault::RelationFault;
use std::alloc::Global;
use std::marker::Model;

/// The groups of a field, over its text: seen as their list.
#[derive(Drop)]
pub struct Relations<'a> {
    body: &'a [u8],
    places: Places,
}

impl<'a> Model for Relations<'a> {
    ghost use Rattle.std.specs.Prelude.{List};
    ghost use Rattle.ctl_relation.specs.Inside.HeldPlaces.{ArePlacesIn, groups_kept};
    ghost use Rattle.ctl_relation.specs.Parts.{AtomParts};

    ghost Value = { List (List AtomParts) };

    ghost view = { λ relations. groups_kept relations.body.now relations.places };

    ghost invariant = { λ relations. ArePlacesIn relations.body.now relations.places };
}

impl<'a> Relations<'a> {
    /// The groups, in the order of the field.
    pub fn groups(&self) -> Groups<'_>
        ensures { result ≡ self.now }
    {
        self.places.groups(self.body)
    }
}

/// Reads the body of a relation field of this kind: its groups, or its first fault from the left.
///
/// `Memory` is the only fault that may stand in place of another answer. A body of 2^32 bytes or more is taken for it.
pub fn parse_relations<'a>(
    alloc: Global,
    body: &'a [u8],
    kind: FieldKind,
) -> Result<Relations<'a>, RelationFault>
    // What is read is in the grammar, with these groups.
    ensures found { IfOk result (λ relations. RelationsText kind body.now relations) }

    // What is in the grammar is read to these groups, or memory runs out.
    ensures only { (groups : List (List AtomParts)) → RelationsText kind body.now groups
        → IfOk result (λ relations. relations ≡ groups) × IfErr result (λ fault. fault ≡ relation.Memory) }

    // A fault other than out of memory is the one that is due where the body first leaves the grammar.
    ensures fault { IfErr result (λ fault. fault ≢ relation.Memory → IsFault kind body.now fault) }
{
    match read_places(alloc, body, kind) {
        Ok(places) => Ok(Relations { body, places }),
        Err(fault) => Err(fault),
    }
}
