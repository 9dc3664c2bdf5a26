//! What a stanza without a faulty line lacks, and its first wrong field where it isn't live.

ghost use Rattle.std.specs.Prelude.{◌≡◌, ◌+◌, ◌<◌, ◌^◌, false, option_map};
ghost use Rattle.std.specs.List.{All};
ghost use Rattle.ctl_stanza.specs.Status.{liveness};
ghost use Rattle.ctl_stanza.specs.Faults.{is_empty_body, is_missing, field_cause, first_wrong};
ghost use Rattle.ctl_stanza.specs.Inside.HeldFields.{AreWithin, shown_fields};

use crate::fault::{Cause, TextFault};
use crate::fields::{Field, body_named, is_same_name};
use crate::list_kind::ListKind;
use ctl_relation::is_name;

fn is_empty_body(body: Option<&[u8]>) -> bool
    ensures { result ≡ is_empty_body (option_map (λ b. b.now) body.entry) }
{
    match body {
        None => true,
        Some(body) => body.is_empty(),
    }
}

/// Whether a stanza lacks its package, its state or its version, by whether it is live.
pub(crate) fn is_missing(kind: ListKind, live: Option<bool>, fields: &[Field], bytes: &[u8]) -> bool
    requires within { AreWithin bytes.now fields.now }
    requires live { live ≡ liveness kind (shown_fields bytes.now fields.now) }
    ensures { result ≡ is_missing kind (shown_fields bytes.now fields.now) }
{
    if is_empty_body(body_named(fields, bytes, b"Package")) {
        return true;
    }
    match live {
        None => true,
        Some(live) => live && is_empty_body(body_named(fields, bytes, b"Version")),
    }
}

// What is wrong with a field of a stanza that isn't live.
fn field_cause(name: &[u8], body: &[u8]) -> Option<Cause>
    ensures { result ≡ field_cause false name.now body.now }
{
    if is_same_name(name, b"Package") && !is_name(body) {
        return Some(Cause::Name);
    }
    None
}

/// The first wrong field of a stanza that isn't live, which is at `first_line`.
pub(crate) fn first_wrong(fields: &[Field], bytes: &[u8], first_line: u64) -> Option<TextFault>
    requires within { AreWithin bytes.now fields.now }
    requires lines { All (λ field. first_line + field.line < 2 ^ 64) fields.now }
    ensures { result ≡ first_wrong false first_line (shown_fields bytes.now fields.now) }
{
    for i in 0..fields.len() {
        let field = &fields[i];
        if let Some(cause) = field_cause(field.name.of(bytes), field.body.of(bytes)) {
            return Some(TextFault {
                line: first_line + field.line as u64,
                cause,
            });
        }
    }
    None
}
