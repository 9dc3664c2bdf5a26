//! What stanzas and records have in them, as text.

use crate::said::Said;
use ctl_relation::{FieldKind, Groups, Version};
use ctl_stanza::{Record, Stanza};

// Groups, each in its printed form.
fn say_groups(mark: &[u8], groups: Groups<'_>, said: &mut Said) {
    for group in groups {
        said.group_word(mark, &group);
    }
}

/// A version behind `@`, or `-` where there is none.
pub fn say_version(version: Option<&Version>, said: &mut Said) {
    match version {
        None => said.add(b"-"),
        Some(version) => said.word(b"@", version.text()),
    }
}

fn say_fields(stanza: &Stanza, said: &mut Said) {
    for (name, body) in stanza.fields() {
        said.word(b" ", name);
        said.word(b"=", body);
    }
}

// The groups of each field, and those of Provides.
fn say_relations(stanza: &Stanza, said: &mut Said) {
    for kind in FieldKind::nine() {
        said.add(b" ");
        say_groups(b"&", stanza.groups(*kind), said);
    }
    say_groups(b"+", stanza.provides(), said);
}

fn say_offers(stanza: &Stanza, said: &mut Said) {
    for offer in stanza.offers() {
        said.word(b" ", offer.name());
        say_version(offer.version(), said);
    }
}

/// A stanza: its text, whether it is live, its package, its version, its fields, its groups and what it offers.
pub fn say_stanza(stanza: &Stanza, said: &mut Said) {
    said.word(b"|", stanza.text());
    said.add(if stanza.is_live() { b" live" } else { b" gone" });
    said.word(b" ", stanza.package());
    say_version(stanza.version(), said);
    say_fields(stanza, said);
    say_relations(stanza, said);
    say_offers(stanza, said);
}

/// A record: its fields, each with the number of its line.
pub fn say_record(record: &Record, said: &mut Said) {
    said.number(b"|", record.first_line() as u128);
    for (name, body, number) in record.fields() {
        said.word(b" ", name);
        said.word(b"=", body);
        said.number(b":", number as u128);
    }
}
