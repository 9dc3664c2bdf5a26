//! What a command asks for, by its line.

ghost use Rattle.std.specs.Prelude.{◌≡◌, Result};
ghost use Rattle.ctl_store.specs.declared.refusal.Refusal.{Refusal as RefusalText};
ghost use Rattle.ctl_store.specs.Edits.{Edit as EditText, edit_of};
ghost use Rattle.ctl_query.specs.Query.{query_behind};
ghost use Rattle.ctl_filter.specs.Read.{Reads};
ghost use Rattle.ctl_session.specs.Script.{name_of};
ghost use Rattle.ctl_session.specs.Request.{asking, changing, command_named, request_by};
ghost use Rattle.ctl_session.specs.State.{cache_state};
ghost use Rattle.ctl_session.specs.Asked.{ReadsForAny, ReadsLine, ReadsRequest};

use crate::command_name::CommandName;
use crate::edit_words::{mark_edit, remove_edit, target_edit};
use crate::edits::NewList;
use crate::line_words::behind_name;
use crate::list_words::{
    add_list_request, drop_list_edit, prefs_request, put_request, unmark_edit,
};
use crate::pin_words::{pin_edit, unpin_edit};
use crate::words::words;
use ctl_index::Cache;
use ctl_query::{Query, QueryName, parse_words};
use ctl_relation::Bytes;
use ctl_stanza::ListKind;
use ctl_store::{Edit, Refusal};
use std::alloc::Global;

/// What a command asks for.
#[derive(Drop)]
pub(crate) enum Request {
    /// A new last list, with the stanzas of the body.
    AddList(NewList),
    /// The stanza of the body for the list of this name, whose kind this is.
    Put(Bytes, ListKind),
    /// The pin settings of the body.
    Prefs,
    /// An edit that needs no body.
    Change(Edit),
    /// A query.
    Ask(Query),
}

/// Lets a request go that is not done: in one place, since the proof of each place where one is dropped is long.
pub(crate) fn let_go(_request: Result<Request, Refusal>) {}

/// An edit as what a command asks for.
fn change(edit: Result<Edit, Refusal>) -> Result<Request, Refusal>
    ensures { (asked : Result EditText RefusalText) → Reads edit_of edit asked → ReadsForAny result (changing asked) }
{
    Ok(Request::Change(edit?))
}

/// What a query asks for by the words behind its name.
#[tactic(auto, using(crate::proofs::AskingLemmas::query_refused))]
fn query_request(alloc: Global, name: QueryName, words: Vec<Bytes>) -> Result<Request, Refusal>
    ensures { ReadsForAny result (asking (query_behind name words.items)) }
{
    match parse_words(alloc, name, words) {
        Ok(query) => Ok(Request::Ask(query)),
        Err(cause) => Err(cause),
    }
}

/// What a command asks for by the words behind its name.
fn request_by(
    alloc: Global,
    cache: &Cache,
    command: CommandName,
    words: Vec<Bytes>,
) -> Result<Request, Refusal>
    ensures { ReadsRequest (cache_state cache.now) result (request_by command words.items) }
{
    match command {
        CommandName::AddList => add_list_request(alloc, &words),
        CommandName::DropList => change(drop_list_edit(alloc, &words)),
        CommandName::Put => put_request(alloc, cache, &words),
        CommandName::Remove => change(remove_edit(alloc, &words)),
        CommandName::Mark => change(mark_edit(alloc, &words)),
        CommandName::Unmark => change(unmark_edit(alloc, &words)),
        CommandName::Pin => change(pin_edit(alloc, &words)),
        CommandName::Unpin => change(unpin_edit(alloc, &words)),
        CommandName::Target => change(target_edit(alloc, &words)),
        CommandName::Prefs => prefs_request(&words),
        CommandName::Query(name) => query_request(alloc, name, words),
    }
}

/// What a line asks for over a cache, by the command that it names. A line that is refused is so whatever body comes: its name or its words are none of a
/// command's, there is no memory for them, or they put a stanza into a list that isn't there.
pub(crate) fn read_request(
    alloc: Global,
    cache: &Cache,
    command: Option<CommandName>,
    line: &[u8],
) -> Result<Request, Refusal>
    requires { command ≡ command_named (name_of line.now) }
    ensures { ReadsLine (cache_state cache.now) line.now result }
{
    let Some(command) = command else {
        return Err(Refusal::Command);
    };
    match words(alloc, behind_name(line)) {
        Ok(Some(words)) => request_by(alloc, cache, command, words),
        Ok(None) => Err(Refusal::Usage),
        Err(_) => Err(Refusal::Memory),
    }
}
