//! What the fields of a live stanza are read to.

ghost use Rattle.std.specs.Prelude.{◌≡◌, ◌≢◌, ◌+◌, ◌<◌, ◌^◌, true, false, None, Some, IfErr, OnOk};
ghost use Rattle.std.specs.List.{All};
ghost use Rattle.ctl_relation.specs.Marks.{Marks};
ghost use Rattle.ctl_relation.specs.Version.{fault_of};
ghost use Rattle.ctl_stanza.specs.declared.fault.Cause.TheVariants as causes;
ghost use Rattle.ctl_stanza.specs.Fields.{body_named, version_name};
ghost use Rattle.ctl_stanza.specs.RelationFields.{relation_kind};
ghost use Rattle.ctl_stanza.specs.Faults.{field_cause, first_wrong, or_else, IsMemoryAtZero, Tells, TellsCause};
ghost use Rattle.ctl_stanza.specs.Inside.HeldStanza.{version_given, AreKept};
ghost use Rattle.ctl_stanza.specs.Inside.HeldFields.{AreWithin, IsFieldWithin, shown, shown_fields};

use crate::fault::{Cause, TextFault};
use crate::fields::{Field, is_same_name};
use ctl_relation::{FieldKind, RelationFault, RelationMarks, Version, VersionFault, is_name};
use std::alloc::Global;

/// What the fields of a live stanza gave: its version, and the marks of its relation fields. One stanza after another is read
/// with the same, so that the room is asked for once.
#[derive(Drop)]
pub(crate) struct LiveParts {
    pub(crate) version: Option<Version>,
    pub(crate) relations: RelationMarks,
}

impl LiveParts {
    /// No room yet.
    pub(crate) fn new(alloc: Global) -> LiveParts {
        LiveParts {
            version: None,
            relations: RelationMarks::new(alloc),
        }
    }
}

// The relation field of a name, if it is the name of one.
fn relation_kind(name: &[u8]) -> Option<FieldKind>
    ensures { result ≡ relation_kind name.now }
{
    for kind in FieldKind::nine() {
        if is_same_name(name, kind.key()) {
            return Some(*kind);
        }
    }
    None
}

// Reads a version; the first one counts.
fn read_version(alloc: Global, body: &[u8], version: &mut Option<Version>) -> Result<(), Cause>
    ensures good { OnOk result (fault_of body.now ≡ None) }
    ensures bad { IfErr result (λ cause. cause ≢ causes.Memory → (cause ≡ causes.Version) × (fault_of body.now ≢ None)) }
    ensures version { OnOk result (version.new ≡ or_else version.old (Some body.now)) }
{
    match Version::parse(alloc, body) {
        Ok(read) => {
            version.get_or_insert(read);
            Ok(())
        }
        Err(VersionFault::Memory) => Err(Cause::Memory),
        Err(_) => Err(Cause::Version),
    }
}

// Reads a field of a live stanza, and keeps what it gives.
fn read_field(alloc: Global, field: &Field, bytes: &[u8], live: &mut LiveParts) -> Result<(), Cause>
    requires { IsFieldWithin bytes.now field.now }
    ensures good { OnOk result (field_cause true (shown bytes.now field.now.name) (shown bytes.now field.now.body) ≡ None) }
    ensures bad { IfErr result (TellsCause (field_cause true (shown bytes.now field.now.name) (shown bytes.now field.now.body))) }
    ensures version { OnOk result (
        live.new.version ≡ or_else live.old.version (version_given (shown bytes.now field.now.name) (shown bytes.now field.now.body))) }
    ensures marks { OnOk result (Marks bytes.now (relation_kind (shown bytes.now field.now.name)) field.now.body
        live.old.relations live.new.relations) }
{
    let name = field.name.of(bytes);
    if is_same_name(name, b"Package") {
        return if is_name(field.body.of(bytes)) {
            Ok(())
        } else {
            Err(Cause::Name)
        };
    }
    if is_same_name(name, b"Version") {
        return read_version(alloc, field.body.of(bytes), &mut live.version);
    }
    let Some(kind) = relation_kind(name) else {
        return Ok(());
    };
    match live.relations.read(bytes, field.body, kind) {
        Ok(()) => Ok(()),
        Err(RelationFault::Memory) => Err(Cause::Memory),
        Err(_) => Err(Cause::Relation),
    }
}

/// Reads the fields of a live stanza, or tells the first wrong one.
pub(crate) fn read_live(
    alloc: Global,
    fields: &[Field],
    bytes: &[u8],
    first_line: u64,
    live: &mut LiveParts,
) -> Result<(), TextFault>
    requires within { AreWithin bytes.now fields.now }
    requires lines { All (λ field. first_line + field.line < 2 ^ 64) fields.now }
    ensures good { OnOk result (first_wrong true first_line (shown_fields bytes.now fields.now) ≡ None) }
    ensures bad { IfErr result (Tells (first_wrong true first_line (shown_fields bytes.now fields.now))) }
    ensures memory { IfErr result IsMemoryAtZero }
    ensures version { OnOk result (live.new.version ≡ body_named version_name (shown_fields bytes.now fields.now)) }
    ensures relations { OnOk result (AreKept bytes.now (shown_fields bytes.now fields.now) live.new.relations) }
{
    live.version = None;
    live.relations.clear();
    for i in 0..fields.len() {
        let field = &fields[i];
        match read_field(alloc, field, bytes, live) {
            Ok(()) => {}
            Err(Cause::Memory) => {
                return Err(TextFault::MEMORY);
            }
            Err(cause) => {
                return Err(TextFault {
                    line: first_line + field.line as u64,
                    cause,
                });
            }
        }
    }
    Ok(())
}
