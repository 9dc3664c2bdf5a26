//! How a stanza is shown.

ghost use Rattle.std.specs.Prelude.{◌≡◌, ◌++◌, ◌≤◌, OnOk, IfOk, length};
ghost use Rattle.std.specs.List.{list_any, prefix_len};
ghost use Rattle.ctl_filter.specs.Grep.{is_in_line, first_line, body_shown, gap, entry_line, field_line};
ghost use Rattle.ctl_filter.specs.Grep.{has_field, field_end, fields_text, stanza_shown};
ghost use Rattle.ctl_filter.specs.Inside.Values.{shown_of};

use crate::finder::Finder;
use crate::names::is_description;
use crate::query::Shown;
use crate::text::{append_line, append_parts};
use ctl_relation::Bytes;
use ctl_stanza::Stanza;
use std::alloc::AllocError;

// How many bytes stand before the first newline.
fn first_line_len(body: &[u8]) -> usize
    ensures len { result ≡ prefix_len is_in_line body.now }
    ensures within { result ≤ length body.now }
{
    for (i, byte) in body.iter().enumerate() {
        if *byte == b'\n' {
            return i;
        }
    }
    body.len()
}

fn first_line(body: &[u8]) -> &[u8]
    ensures { result.now ≡ first_line body.now }
{
    &body[..first_line_len(body)]
}

fn body_shown<'a>(shown: &Shown, name: &[u8], body: &'a [u8]) -> &'a [u8]
    ensures { result.now ≡ body_shown (shown_of shown.now) name.now body.now }
{
    if shown.first_line_alone && is_description(name) {
        first_line(body)
    } else {
        body
    }
}

fn gap(body: &[u8]) -> &'static [u8]
    ensures { result.now ≡ gap body.now }
{
    if first_line(body).is_empty() {
        b""
    } else {
        b" "
    }
}

#[tactic(auto, unfolding(crate::specs::Texts::line))]
fn append_entry(
    shown: &Shown,
    name: &[u8],
    body: &[u8],
    out: &mut Vec<u8>,
) -> Result<(), AllocError>
    ensures { OnOk result (out.new.items ≡ out.old.items ++ entry_line (shown_of shown.now) (name.now, body.now)) }
{
    let text = body_shown(shown, name, body);
    if shown.bodies_alone {
        append_line(out, &[text])?;
        return Ok(());
    }
    append_parts(out, &[name, b":"])?;
    out.extend_from_slice(gap(body))?;
    append_line(out, &[text])?;
    Ok(())
}

fn append_field(
    shown: &Shown,
    finder: &Finder<'_>,
    name: &[u8],
    out: &mut Vec<u8>,
) -> Result<(), AllocError>
    ensures { OnOk result (out.new.items ≡ out.old.items ++ field_line (shown_of shown.now) finder.now name.now) }
{
    match finder.entry(name)? {
        Some((spelled, body)) => append_entry(shown, spelled, body, out),
        None => Ok(()),
    }
}

fn has_any_field(finder: &Finder<'_>, names: &[Bytes]) -> Result<bool, AllocError>
    ensures { IfOk result (λ has. has ≡ list_any (has_field finder.now) names.now) }
{
    for name in names {
        if finder.entry(name.as_slice())?.is_some() {
            return Ok(true);
        }
    }
    Ok(false)
}

fn append_end(finder: &Finder<'_>, names: &[Bytes], out: &mut Vec<u8>) -> Result<(), AllocError>
    ensures { OnOk result (out.new.items ≡ out.old.items ++ field_end finder.now names.now) }
{
    if names.len() == 1 || !has_any_field(finder, names)? {
        return Ok(());
    }
    append_line(out, &[])
}

fn append_fields(
    shown: &Shown,
    finder: &Finder<'_>,
    names: &[Bytes],
    out: &mut Vec<u8>,
) -> Result<(), AllocError>
    ensures { OnOk result (out.new.items ≡ out.old.items ++ fields_text (shown_of shown.now) finder.now names.now) }
{
    for name in names {
        append_field(shown, finder, name.as_slice(), out)?;
    }
    append_end(finder, names, out)?;
    Ok(())
}

/// Appends a stanza as it is to be shown.
#[tactic(auto, unfolding(crate::specs::Grep::stanza_shown))]
pub(crate) fn append_stanza(
    shown: &Shown,
    stanza: &Stanza,
    out: &mut Vec<u8>,
) -> Result<(), AllocError>
    ensures { OnOk result (out.new.items ≡ out.old.items ++ stanza_shown (shown_of shown.now) stanza.now) }
{
    match &shown.fields {
        None => append_line(out, &[stanza.text()]),
        Some(names) => {
            let finder = Finder::new(*out.allocator(), stanza, names.len())?;
            append_fields(shown, &finder, names, out)
        }
    }
}
