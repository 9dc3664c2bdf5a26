//! Queries that are asked of a cache by calls, behind what a text has.

use crate::said::Said;
use crate::tables::same;
use ctl_index::Cache;
use ctl_query::{Query, QueryName, answer, parse_query};
use ctl_relation::{Bytes, Steps};
use ctl_store::Refusal;
use std::alloc::{AllocError, Global};

/// Words of these texts.
pub fn words_of(alloc: Global, texts: &[&[u8]]) -> Result<Vec<Bytes>, AllocError> {
    let mut words = Vec::new(alloc);
    for text in texts {
        words.push(Bytes::from_slice(alloc, text)?)?;
    }
    Ok(words)
}

fn say_refusal(texts: &[&[u8]], refusal: Refusal, said: &mut Said) {
    said.number(b"number ", refusal.number() as u128);
    said.add(match texts {
        [name, ..] if QueryName::read(name).is_some() => b", a query\n",
        _ => b", no query\n",
    });
}

fn say_counted(cache: &Cache, query: &Query, said: &mut Said) {
    if cache.is_stale() {
        return said.add(b"stale\n");
    }
    let mut steps = Steps::new();
    let answered = answer(cache, query, &mut said.bytes, &mut steps);
    said.keep(answered);
    said.number(b"", steps.count());
    said.add(b" tests\n");
}

fn say_asked_by(cache: &Cache, texts: &[&[u8]], words: &[Bytes], said: &mut Said) {
    match parse_query(said.alloc(), words) {
        Ok(query) => say_counted(cache, &query, said),
        Err(refusal) => say_refusal(texts, refusal, said),
    }
}

/// The answer to the query of these words, and how many tests it made, or the number of its refusal.
pub fn say_asked(cache: &Cache, texts: &[&[u8]], said: &mut Said) {
    match words_of(said.alloc(), texts) {
        Ok(words) => say_asked_by(cache, texts, &words, said),
        Err(_) => said.fail(),
    }
}

#[test]
fn tests_are_counted_several_at_once(rt: HostRuntime) {
    let mut steps = Steps::new();
    steps.add(3);
    steps.add(0);
    steps.add(4);
    let mut said = Said::new(rt.alloc());
    said.number(b"", steps.count());
    same(&rt, b"3, 0 and 4", said.shown(), b"7");
}
