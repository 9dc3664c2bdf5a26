//! A query to its text.

ghost use Rattle.std.specs.Prelude.{◌≡◌, ◌++◌, ◌+◌, ◌≤◌, [], OnOk, OnErr, false};
ghost use Rattle.ctl_policy.specs.Priority.{world_of};
ghost use Rattle.ctl_store.specs.Store.{state_of};
ghost use Rattle.ctl_query.specs.Anew.{answer_anew};
ghost use Rattle.ctl_query.specs.Answer.{answer_text, answer_pairs, policy_answer};
ghost use Rattle.ctl_query.specs.Holdings.{holdings_of};
ghost use Rattle.ctl_query.specs.QueryRead.{query_text};

use crate::asking::Asking;
use crate::depends::Depending;
use crate::laws::answers_are_as_if_built_anew;
use crate::lead_table::pays;
use crate::package_names::append_package_names;
use crate::policy::{append_policy, append_policy_of_all};
use crate::query::Query;
use crate::reverse_depends::append_reverse_depends;
use crate::show::append_show;
use crate::show_package::append_show_package;
use crate::unmet::append_unmet;
use ctl_filter::append_filter;
use ctl_index::Cache;
use ctl_relation::{Bytes, Steps};
use ctl_store::Store;
use std::alloc::AllocError;

/// Appends the answer to `policy`, with or without names.
fn append_any_policy(
    asking: &Asking<'_>,
    names: &[Bytes],
    out: &mut Vec<u8>,
) -> Result<(), AllocError>
    ensures { OnOk result (out.new.items ≡ out.old.items ++ policy_answer (world_of asking.now) names.now) }
{
    if names.is_empty() {
        append_policy_of_all(asking, out)
    } else {
        append_policy(asking, names, out)
    }
}

/// Appends the answer to a query. Where memory runs out a part of it may stand there.
fn append_answer(
    asking: &Asking<'_>,
    query: &Query,
    out: &mut Vec<u8>,
    steps: &mut Steps,
) -> Result<(), AllocError>
    ensures text { OnOk result (out.new.items ≡ out.old.items ++ answer_text (world_of asking.now) (query_text query.now)) }
    ensures steps { steps.new ≤ steps.old + answer_pairs (world_of asking.now) (query_text query.now) }
    ensures kept { steps.old ≤ steps.new }
{
    match query {
        Query::PackageNames(all, prefix) => {
            append_package_names(asking, *all, prefix.as_slice(), out)
        }
        Query::Show(all, rows) => append_show(asking, *all, rows, out),
        Query::Depends(options, names) => {
            let options = *options;
            Depending { asking, options }.append_to(names, out, steps)
        }
        Query::ReverseDepends(installed, names) => {
            append_reverse_depends(asking, *installed, names, out)
        }
        Query::Unmet(important) => append_unmet(asking, *important, out),
        Query::Policy(names) => append_any_policy(asking, names, out),
        Query::ShowPackage(names) => append_show_package(asking, names, out),
        Query::Filter(filter) => append_filter(asking.alloc(), asking.store(), filter, out),
    }
}

/// Puts the answer to a query into an empty buffer, which stays empty where memory runs out.
fn answer_alone(
    asking: &Asking<'_>,
    query: &Query,
    out: &mut Vec<u8>,
    steps: &mut Steps,
) -> Result<(), AllocError>
    requires { out.old.items ≡ [] }
    ensures ok { OnOk result (out.new.items ≡ answer_text (world_of asking.now) (query_text query.now)) }
    ensures err { OnErr result (out.new.items ≡ []) }
    ensures steps { steps.new ≤ steps.old + answer_pairs (world_of asking.now) (query_text query.now) }
    ensures kept { steps.old ≤ steps.new }
{
    match append_answer(asking, query, out, steps) {
        Ok(()) => Ok(()),
        Err(error) => {
            out.clear();
            Err(error)
        }
    }
}

/// Appends the answer to a query to what is there, which alone stays where memory runs out.
fn answer_behind(
    asking: &Asking<'_>,
    query: &Query,
    out: &mut Vec<u8>,
    steps: &mut Steps,
) -> Result<(), AllocError>
    ensures ok { OnOk result (out.new.items ≡ out.old.items ++ answer_text (world_of asking.now) (query_text query.now)) }
    ensures err { OnErr result (out.new.items ≡ out.old.items) }
    ensures steps { steps.new ≤ steps.old + answer_pairs (world_of asking.now) (query_text query.now) }
    ensures kept { steps.old ≤ steps.new }
{
    let mut text = Vec::new(asking.alloc());
    answer_alone(asking, query, &mut text, steps)?;
    out.extend_from_slice(&text)
}

/// Appends the answer to a query (apt-cache(8), grep-dctrl(1)) on a cache that isn't stale. It makes no test of an offer
/// against an atom but for `depends`: there it makes at most one for each pair of an atom of a lead that is shown and an
/// offer of its name.
///
/// # Errors
///
/// Out of memory. Then the text is as before.
pub fn answer(
    cache: &Cache,
    query: &Query,
    out: &mut Vec<u8>,
    steps: &mut Steps,
) -> Result<(), AllocError>
    requires { cache.now.stale ≡ false }
    ensures ok { OnOk result (out.new.items ≡ out.old.items
        ++ answer_anew (holdings_of (state_of cache.now.store)) (query_text query.now)) }
    ensures err { OnErr result (out.new.items ≡ out.old.items) }
    ensures steps { steps.new ≤ steps.old + answer_pairs (world_of cache.now.store) (query_text query.now) }
    ensures kept { steps.old ≤ steps.new }
{
    answers_are_as_if_built_anew();
    // That the keys rise is said here.
    let _counts = cache.store().counts();
    let asking = Asking::new(*out.allocator(), cache);
    if out.is_empty() {
        answer_alone(&asking, query, out, steps)?;
        Ok(())
    } else {
        answer_behind(&asking, query, out, steps)?;
        Ok(())
    }
}

// Whether an answer looks at the leads of all rows.
fn wants_leads(store: &Store, query: &Query) -> bool {
    match query {
        Query::ShowPackage(names) => pays(store, names.len()),
        Query::ReverseDepends(_, names) => pays(store, names.len()),
        _ => false,
    }
}

/// Appends the answer as [`answer`] does, and has the cache keep what the next query of many names needs, up to the next edit.
///
/// # Errors
///
/// Out of memory. Then the text is as before.
pub fn answer_and_keep(
    cache: &mut Cache,
    query: &Query,
    out: &mut Vec<u8>,
    steps: &mut Steps,
) -> Result<(), AllocError>
    requires { cache.old.stale ≡ false }
    ensures ok { OnOk result (out.new.items ≡ out.old.items
        ++ answer_anew (holdings_of (state_of cache.old.store)) (query_text query.now)) }
    ensures err { OnErr result (out.new.items ≡ out.old.items) }
    ensures steps { steps.new ≤ steps.old + answer_pairs (world_of cache.old.store) (query_text query.now) }
    ensures kept { steps.old ≤ steps.new }
    ensures cache { cache.new ≡ cache.old }
{
    if wants_leads(cache.store(), query) {
        // Where there is no memory for them, the answer may still have it.
        let _ = cache.keep_leads();
    }
    answer(cache, query, out, steps)
}
