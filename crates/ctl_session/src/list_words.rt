//! The words of commands on lists, of `unmark`, and of `prefs`.

ghost use Rattle.std.specs.Prelude.{◌≡◌, IfOk, IfErr, Ok};
ghost use Rattle.ctl_store.specs.Edits.{edit_of};
ghost use Rattle.ctl_store.specs.declared.refusal.Refusal.TheVariants.{Memory};
ghost use Rattle.ctl_filter.specs.Read.{Reads};
ghost use Rattle.ctl_session.specs.Request.{if_name, read_name, kind_of_word, class_of_words};
ghost use Rattle.ctl_session.specs.Request.{AddList as NewListAsked, add_list_request as add_list_asked, put_request as put_asked, prefs_request as prefs_asked};
ghost use Rattle.ctl_session.specs.Request.{drop_list_edit as drop_list_asked, unmark_edit as unmark_asked};
ghost use Rattle.ctl_session.specs.State.{cache_state};
ghost use Rattle.ctl_session.specs.Asked.{ReadsForAny, ReadsRequest};

use crate::edits::NewList;
use crate::request::Request;
use ctl_index::Cache;
use ctl_relation::{Bytes, is_name};
use ctl_stanza::ListKind;
use ctl_store::{Edit, ListClass, Refusal};
use std::alloc::Global;

/// Bytes of one's own.
pub(crate) fn copied(alloc: Global, word: &Bytes) -> Result<Bytes, Refusal>
    ensures ok { IfOk result (λ copy. copy ≡ word.now) }
    ensures err { IfErr result (λ refusal. refusal ≡ Memory) }
{
    match Bytes::from_slice(alloc, word.as_slice()) {
        Ok(copy) => Ok(copy),
        Err(_) => Err(Refusal::Memory),
    }
}

/// A word that has to be a name.
pub(crate) fn copied_name(alloc: Global, word: &Bytes) -> Result<Bytes, Refusal>
    ensures { Reads (λ name. name) result (if_name word.now (Ok word.now)) }
{
    if !is_name(word.as_slice()) {
        return Err(Refusal::Name);
    }
    copied(alloc, word)
}

/// The one word that there has to be, which has to be a name.
fn only_name(alloc: Global, words: &[Bytes]) -> Result<Bytes, Refusal>
    ensures { Reads (λ name. name) result (read_name (λ name. name) words.now) }
{
    match words {
        [name] => copied_name(alloc, name),
        _ => Err(Refusal::Usage),
    }
}

/// The kind of a list that a word names: `packages` or `status`.
fn kind_of_word(word: &[u8]) -> Option<ListKind>
    ensures { result ≡ kind_of_word word.now }
{
    if word == b"packages".as_slice() {
        return Some(ListKind::Packages);
    }
    if word == b"status".as_slice() {
        return Some(ListKind::Status);
    }
    None
}

/// The class of a list that two words name: `packages`, and `notauto` or `butauto`.
fn class_of_words(kind: &[u8], class: &[u8]) -> Option<ListClass>
    ensures { result ≡ class_of_words kind.now class.now }
{
    if kind != b"packages".as_slice() {
        return None;
    }
    if class == b"notauto".as_slice() {
        return Some(ListClass::NotAutomatic);
    }
    if class == b"butauto".as_slice() {
        return Some(ListClass::ButAutomatic);
    }
    None
}

/// A new list of this name, kind and class.
fn new_list(
    alloc: Global,
    name: &Bytes,
    kind: ListKind,
    class: ListClass,
) -> Result<Request, Refusal>
    ensures { ReadsForAny result (if_name name.now (Ok (NewListAsked name.now kind class))) }
{
    if !is_name(name.as_slice()) {
        return Err(Refusal::Name);
    }
    let name = copied(alloc, name)?;
    Ok(Request::AddList(NewList { name, kind, class }))
}

/// `add-list NAME packages [notauto|butauto]` or `add-list NAME status`
pub(crate) fn add_list_request(alloc: Global, words: &[Bytes]) -> Result<Request, Refusal>
    ensures { ReadsForAny result (add_list_asked words.now) }
{
    match words {
        [name, kind] => match kind_of_word(kind.as_slice()) {
            Some(kind) => new_list(alloc, name, kind, ListClass::Plain),
            None => Err(Refusal::Usage),
        },
        [name, kind, class] => match class_of_words(kind.as_slice(), class.as_slice()) {
            Some(class) => new_list(alloc, name, ListKind::Packages, class),
            None => Err(Refusal::Usage),
        },
        _ => Err(Refusal::Usage),
    }
}

/// `put NAME`, into a list that is there
pub(crate) fn put_request(alloc: Global, cache: &Cache, words: &[Bytes]) -> Result<Request, Refusal>
    ensures { ReadsRequest (cache_state cache.now) result (put_asked words.now) }
{
    let name = only_name(alloc, words)?;
    match cache.store().kind(name.as_slice()) {
        Some(kind) => Ok(Request::Put(name, kind)),
        None => Err(Refusal::NoList),
    }
}

/// `prefs`
pub(crate) fn prefs_request(words: &[Bytes]) -> Result<Request, Refusal>
    ensures { ReadsForAny result (prefs_asked words.now) }
{
    match words {
        [] => Ok(Request::Prefs),
        _ => Err(Refusal::Usage),
    }
}

/// `drop-list NAME`
pub(crate) fn drop_list_edit(alloc: Global, words: &[Bytes]) -> Result<Edit, Refusal>
    ensures { Reads edit_of result (drop_list_asked words.now) }
{
    let name = only_name(alloc, words)?;
    Ok(Edit::DropList { name })
}

/// `unmark PKG`
pub(crate) fn unmark_edit(alloc: Global, words: &[Bytes]) -> Result<Edit, Refusal>
    ensures { Reads edit_of result (unmark_asked words.now) }
{
    let package = only_name(alloc, words)?;
    Ok(Edit::Unmark { package })
}
