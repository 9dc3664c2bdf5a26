//! Doing what a command asks for.

ghost use Rattle.std.specs.Prelude.{◌≡◌, ℕ, List, OnErr, false, None, []};
ghost use Rattle.ctl_session.specs.Request.{lines_refused};
ghost use Rattle.ctl_session.specs.State.{CacheState, cache_state};
ghost use Rattle.ctl_session.specs.Replies.{outcome_from, outcome_of_edit, MayDo, ReadMayCome, ChangesByEdit};

use crate::edits::{AtLine, add_list, edit, put, refused, set_prefs};
use crate::refusal_at::RefusalAt;
use crate::reply::Reply;
use crate::request::{Request, let_go};
use crate::script::{Body, CommandRead};
use ctl_index::Cache;
use ctl_query::answer_and_keep;
use ctl_relation::Steps;
use ctl_store::Refusal;
use std::alloc::Global;

/// What an edit came to.
fn reply_of_edit(edited: Result<(), RefusalAt>) -> Reply
    ensures outcome { (out : List ℕ) (new : CacheState) → outcome_from result out new ≡ outcome_of_edit edited new }
    ensures state { (old new : CacheState) → OnErr edited (new ≡ old) → ChangesByEdit result old new }
{
    match edited {
        Ok(()) => Reply::Changed,
        Err(refused) => Reply::Refused(refused),
    }
}

/// Does what a request asks for, with the text of the command's body, and the text of an answer in the buffer.
fn carry_out(
    at: AtLine,
    cache: &mut Cache,
    request: Request,
    text: Vec<u8>,
    out: &mut Vec<u8>,
) -> Reply
    requires fresh { cache.old.stale ≡ false }
    requires empty { out.old.items ≡ [] }
    ensures may { MayDo (cache_state cache.old) at.number text.items request (outcome_from result out.new.items (cache_state cache.new)) }
    ensures state { ChangesByEdit result (cache_state cache.old) (cache_state cache.new) }
{
    match request {
        Request::AddList(list) => reply_of_edit(add_list(at, cache, list, text)),
        Request::Put(list, kind) => reply_of_edit(put(at, cache, list, kind, &text)),
        Request::Prefs => reply_of_edit(set_prefs(at, cache, &text)),
        Request::Change(change) => reply_of_edit(edit(cache, change, at.number)),
        Request::Ask(query) => match answer_and_keep(cache, &query, out, &mut Steps::new()) {
            Ok(()) => Reply::Answered,
            Err(_) => Reply::Refused(refused(at.number, Refusal::Memory)),
        },
    }
}

/// Does what a request asks for, with what was read of the command's body, and the text of an answer in the buffer.
fn do_request(
    at: AtLine,
    cache: &mut Cache,
    request: Request,
    body: Body,
    out: &mut Vec<u8>,
) -> Reply
    requires empty { out.old.items ≡ [] }
    ensures may { (text : List ℕ) → (body.dropped ≡ false → body.text.items ≡ text) →
        MayDo (cache_state cache.old) at.number text request (outcome_from result out.new.items (cache_state cache.new)) }
    ensures state { ChangesByEdit result (cache_state cache.old) (cache_state cache.new) }
{
    if body.dropped {
        let_go(Ok(request));
        return Reply::Refused(refused(at.number, Refusal::Memory));
    }
    match cache.recover() {
        Ok(()) => carry_out(at, cache, request, body.text, out),
        Err(_) => {
            let_go(Ok(request));
            Reply::Refused(refused(at.number, Refusal::Memory))
        }
    }
}

/// Why a command is refused by its lines: one of them is too long, or its body has no end, which is told at the last line of
/// the input.
fn refusal_of_lines(body: &Body, last_line: u32) -> Option<RefusalAt>
    ensures { result ≡ lines_refused body.now.too_long body.now.ended last_line }
{
    if let Some(line) = body.too_long {
        return Some(refused(line, Refusal::TooLong));
    }
    if !body.ended {
        return Some(refused(last_line, Refusal::Unended));
    }
    None
}

/// Does what a whole command asks for, with the text of an answer in the buffer.
fn do_whole(alloc: Global, cache: &mut Cache, command: CommandRead, out: &mut Vec<u8>) -> Reply
    requires empty { out.old.items ≡ [] }
    ensures may { (last_line : ℕ) → lines_refused command.body.too_long command.body.ended last_line ≡ None →
        ReadMayCome (cache_state cache.old) last_line command (outcome_from result out.new.items (cache_state cache.new)) }
    ensures state { ChangesByEdit result (cache_state cache.old) (cache_state cache.new) }
{
    let CommandRead {
        number,
        request,
        body,
    } = command;
    match request {
        Ok(request) => do_request(AtLine { alloc, number }, cache, request, body, out),
        Err(cause) => Reply::Refused(refused(number, cause)),
    }
}

/// Does what a command asks for, with the text of an answer in the buffer.
pub(crate) fn perform(
    alloc: Global,
    cache: &mut Cache,
    command: CommandRead,
    last_line: u32,
    out: &mut Vec<u8>,
) -> Reply
    ensures may { ReadMayCome (cache_state cache.old) last_line command (outcome_from result out.new.items (cache_state cache.new)) }
    ensures state { ChangesByEdit result (cache_state cache.old) (cache_state cache.new) }
{
    out.clear();
    match refusal_of_lines(&command.body, last_line) {
        Some(refused) => {
            let_go(command.request);
            Reply::Refused(refused)
        }
        None => do_whole(alloc, cache, command, out),
    }
}
