//! A filter to the text that it takes of a store.

ghost use Rattle.std.specs.Prelude.{◌≡◌, ◌++◌, OnOk, IfOk, map, flat_map, length};
ghost use Rattle.std.specs.List.{filter};
ghost use Rattle.ctl_store.specs.Entries.{stanzas_in_order};
ghost use Rattle.ctl_store.specs.Store.{state_of};
ghost use Rattle.ctl_filter.specs.Grep.{is_taken, taken_of, stanza_shown, filter_text};
ghost use Rattle.ctl_filter.specs.Inside.Values.{shown_of};
ghost use Rattle.ctl_filter.specs.HeldQuery.{query_of};

use crate::printing::append_stanza;
use crate::query::{FilterQuery, Shown};
use crate::stanzas::stanzas_of;
use crate::taking::Taker;
use crate::text::append_line;
use ctl_store::Store;
use itoa::Buffer;
use std::alloc::{AllocError, Global};

fn count_taken(store: &Store, taker: &mut Taker<'_>) -> Result<u64, AllocError>
    ensures { IfOk result (λ count. count ≡ length (taken_of (stanzas_in_order (state_of store.now).lists) (query_of taker.old))) }
{
    let mut count: u64 = 0;
    'stanzas: for stanza in stanzas_of(store) {
        if taker.takes(stanza)? {
            count += 1;
        }
    }
    Ok(count)
}

fn append_taken(
    store: &Store,
    shown: &Shown,
    taker: &mut Taker<'_>,
    out: &mut Vec<u8>,
) -> Result<(), AllocError>
    ensures { OnOk result (out.new.items ≡ out.old.items
        ++ flat_map (stanza_shown (shown_of shown.now)) (taken_of (stanzas_in_order (state_of store.now).lists) (query_of taker.old))) }
{
    'stanzas: for stanza in stanzas_of(store) {
        if taker.takes(stanza)? {
            append_stanza(shown, stanza, out)?;
        }
    }
    Ok(())
}

/// Appends the stanzas of a store that a filter takes, as it asks for them to be shown, or their number (grep-dctrl(1)). All are
/// tried in the order of the lists, also those that aren't live.
///
/// # Errors
///
/// Out of memory. Then a part of the text may stand there.
pub fn append_filter(
    alloc: Global,
    store: &Store,
    query: &FilterQuery,
    out: &mut Vec<u8>,
) -> Result<(), AllocError>
    ensures { OnOk result (out.new.items ≡ out.old.items
        ++ filter_text (stanzas_in_order (state_of store.now).lists) (query_of query.now)) }
{
    let mut taker = Taker::new(alloc, query)?;
    if query.counted {
        let count = count_taken(store, &mut taker)?;
        let mut digits = Buffer::new();
        append_line(out, &[digits.format(count).as_bytes()])?;
        return Ok(());
    }
    append_taken(store, &query.shown, &mut taker, out)?;
    Ok(())
}
