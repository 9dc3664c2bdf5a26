//! Edits of the store by commands.

ghost use Rattle.std.specs.Prelude.{◌≡◌, false, IfOk, OnErr, Some};
ghost use Rattle.ctl_store.specs.Edits.{edit_of, AddList, Put};
ghost use Rattle.ctl_store.specs.Kinds.{AreOfKind};
ghost use Rattle.ctl_store.specs.declared.refusal.Refusal.TheVariants.{Memory};
ghost use Rattle.ctl_session.specs.Effect.{refusal_by, edited, edited_by_body, contents_of, list_added, put_in_list, prefs_set};
ghost use Rattle.ctl_session.specs.Replies.{CameTo, IsRefusalOf};
ghost use Rattle.ctl_session.specs.Asked.{kind_in};
ghost use Rattle.ctl_session.specs.State.{cache_state};

use crate::refusal_at::RefusalAt;
use ctl_index::Cache;
use ctl_relation::Bytes;
use ctl_stanza::{Cause, ListKind, Stanza, TextFault, lines_take_bytes, read_stanzas};
use ctl_store::{Edit, ListClass, NewStanzas, Refusal, read_prefs, stanzas_are_of_their_kind};
use std::alloc::Global;

/// Where an edit is made: at the line of its command, with memory from here.
#[derive(Clone, Copy)]
pub(crate) struct AtLine {
    pub(crate) alloc: Global,
    pub(crate) number: u32,
}

/// A list that is to be added: its name, its kind and its class.
#[derive(Drop)]
pub(crate) struct NewList {
    pub(crate) name: Bytes,
    pub(crate) kind: ListKind,
    pub(crate) class: ListClass,
}

/// The refusal of a body, by the cause of its text's fault.
fn refusal_by(cause: Cause) -> Refusal
    ensures { result ≡ refusal_by cause }
{
    match cause {
        Cause::TooLong => Refusal::TooLong,
        Cause::Line => Refusal::Line,
        Cause::FieldTwice => Refusal::FieldTwice,
        Cause::Missing => Refusal::Missing,
        Cause::Name => Refusal::Name,
        Cause::Version => Refusal::Version,
        Cause::Relation => Refusal::Relation,
        Cause::Priority => Refusal::Priority,
        Cause::Form => Refusal::Form,
        Cause::Memory => Refusal::Memory,
    }
}

/// A refusal at the line of a command.
pub(crate) fn refused(number: u32, cause: Refusal) -> RefusalAt
    ensures { result ≡ record { line = number; cause = cause } }
{
    RefusalAt {
        line: number as u64,
        cause,
    }
}

/// The refusal of a body whose text has a fault. Out of memory is told at the line of the command.
fn refusal_at(fault: TextFault, number: u32) -> RefusalAt
    ensures { IsRefusalOf fault number result }
{
    match fault.cause {
        Cause::Memory => refused(number, Refusal::Memory),
        cause => RefusalAt {
            line: fault.line,
            cause: refusal_by(cause),
        },
    }
}

/// Makes an edit, of the command at this line.
pub(crate) fn edit(cache: &mut Cache, edit: Edit, number: u32) -> Result<(), RefusalAt>
    requires { cache.old.stale ≡ false }
    ensures outcome { CameTo number result (cache_state cache.new) (edited (cache_state cache.old) number (edit_of edit)) }
    ensures err { OnErr result (cache_state cache.new ≡ cache_state cache.old) }
{
    match cache.apply(edit) {
        Ok(()) => Ok(()),
        Err(cause) => Err(refused(number, cause)),
    }
}

/// Adds a list with these stanzas.
fn add_stanzas(
    at: AtLine,
    cache: &mut Cache,
    list: NewList,
    stanzas: Vec<Stanza>,
) -> Result<(), RefusalAt>
    requires fresh { cache.old.stale ≡ false }
    requires kinds { AreOfKind list.kind stanzas.items }
    ensures outcome { CameTo at.number result (cache_state cache.new)
        (edited (cache_state cache.old) at.number (AddList list.name list.kind list.class stanzas.items)) }
    ensures err { OnErr result (cache_state cache.new ≡ cache_state cache.old) }
{
    let NewList { name, kind, class } = list;
    let Ok(stanzas) = NewStanzas::boxed(at.alloc, kind, stanzas) else {
        return Err(refused(at.number, Refusal::Memory));
    };
    let added = Edit::AddList {
        name,
        class,
        stanzas,
    };
    edit(cache, added, at.number)
}

/// Adds a list with the stanzas that were read of a text, or tells the fault of the text.
pub(crate) fn add_read_list(
    at: AtLine,
    cache: &mut Cache,
    list: NewList,
    read: Result<Vec<Stanza>, TextFault>,
) -> Result<(), RefusalAt>
    requires fresh { cache.old.stale ≡ false }
    requires kinds { IfOk read (λ stanzas. AreOfKind list.kind stanzas.items) }
    ensures outcome { CameTo at.number result (cache_state cache.new) (edited_by_body (cache_state cache.old) at.number
        (AddList list.name list.kind list.class) (contents_of read)) }
    ensures err { OnErr result (cache_state cache.new ≡ cache_state cache.old) }
{
    match read {
        Ok(stanzas) => add_stanzas(at, cache, list, stanzas),
        Err(fault) => Err(refusal_at(fault, at.number)),
    }
}

/// Adds a list with the stanzas of a text, which is the body of the command at this line. The text is given back as soon as
/// they are read, so that it isn't there beside the tables that they come into.
pub(crate) fn add_list(
    at: AtLine,
    cache: &mut Cache,
    list: NewList,
    text: Vec<u8>,
) -> Result<(), RefusalAt>
    requires { cache.old.stale ≡ false }
    ensures outcome { CameTo at.number result (cache_state cache.new)
        (list_added (cache_state cache.old) at.number list.name list.kind list.class text.items) }
    ensures err { OnErr result (cache_state cache.new ≡ cache_state cache.old) }
{
    lines_take_bytes();
    stanzas_are_of_their_kind();
    let stanzas = match read_stanzas(at.alloc, &text, at.number as u64 + 1, list.kind) {
        Ok(stanzas) => stanzas,
        Err(fault) => return Err(refusal_at(fault, at.number)),
    };
    drop(text);
    add_stanzas(at, cache, list, stanzas)
}

/// Puts a stanza into a list.
fn put_stanza(at: AtLine, cache: &mut Cache, list: Bytes, stanza: Stanza) -> Result<(), RefusalAt>
    requires { cache.old.stale ≡ false }
    ensures outcome { CameTo at.number result (cache_state cache.new) (edited (cache_state cache.old) at.number (Put list stanza)) }
    ensures err { OnErr result (cache_state cache.new ≡ cache_state cache.old) }
{
    let Ok(stanza) = Box::new(at.alloc, stanza) else {
        return Err(refused(at.number, Refusal::Memory));
    };
    edit(cache, Edit::Put { list, stanza }, at.number)
}

/// Puts the one stanza of a text into a list of this kind.
pub(crate) fn put(
    at: AtLine,
    cache: &mut Cache,
    list: Bytes,
    kind: ListKind,
    text: &[u8],
) -> Result<(), RefusalAt>
    requires { cache.old.stale ≡ false }
    ensures outcome { kind_in (cache_state cache.old) list ≡ Some kind
        → CameTo at.number result (cache_state cache.new) (put_in_list (cache_state cache.old) at.number list text.now) }
    ensures err { OnErr result (cache_state cache.new ≡ cache_state cache.old) }
{
    let number = at.number;
    lines_take_bytes();
    let mut stanzas = match read_stanzas(at.alloc, text, number as u64 + 1, kind) {
        Ok(stanzas) => stanzas,
        Err(fault) => return Err(refusal_at(fault, number)),
    };
    if stanzas.len() != 1 {
        return Err(refused(number, Refusal::OneStanza));
    }
    let Some(stanza) = stanzas.pop() else {
        unreachable!("there is one stanza");
    };
    put_stanza(at, cache, list, stanza)
}

/// Lets the pin settings of a text take the place of all.
pub(crate) fn set_prefs(at: AtLine, cache: &mut Cache, text: &[u8]) -> Result<(), RefusalAt>
    requires { cache.old.stale ≡ false }
    ensures outcome { CameTo at.number result (cache_state cache.new) (prefs_set (cache_state cache.old) at.number text.now) }
    ensures err { OnErr result (cache_state cache.new ≡ cache_state cache.old) }
{
    let number = at.number;
    lines_take_bytes();
    match read_prefs(at.alloc, text, number as u64 + 1) {
        Ok(settings) => edit(cache, Edit::Prefs { settings }, number),
        Err(fault) => Err(refusal_at(fault, number)),
    }
}
