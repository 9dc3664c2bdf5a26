//! Relation fields, and what they are read to.

use crate::said::Said;
use crate::words::Words;
use ctl_relation::{FieldKind, Groups, RelationFault, parse_relations};

/// The relation field of a name.
pub fn kind_named(name: &str) -> Option<FieldKind> {
    for kind in FieldKind::nine() {
        if kind.key().eq_ignore_ascii_case(name.as_bytes()) {
            return Some(*kind);
        }
    }
    None
}

/// The name of a fault.
pub fn fault_name(fault: RelationFault) -> &'static [u8] {
    match fault {
        RelationFault::Name => b"Name",
        RelationFault::Operator => b"Operator",
        RelationFault::Version => b"Version",
        RelationFault::Close => b"Close",
        RelationFault::Alternative => b"Alternative",
        RelationFault::ProvidesOperator => b"ProvidesOperator",
        RelationFault::Memory => b"Memory",
    }
}

// Groups in their printed form, joined by commas.
fn say_groups(groups: Groups<'_>, said: &mut Said) {
    said.add(b"groups:");
    let mut between: &[u8] = b" ";
    for group in groups {
        said.add(between);
        said.group(&group);
        between = b", ";
    }
}

/// `groups:` and the groups, each behind a space and joined by commas, or `fault:`, a space and its name.
pub fn say_field(words: &mut Words<'_, '_>, said: &mut Said) {
    let kind = words.field_kind();
    match parse_relations(words.alloc(), words.bytes(), kind) {
        Err(fault) => said.all(&[b"fault: ", fault_name(fault)]),
        Ok(relations) => say_groups(relations.groups(), said),
    }
}
