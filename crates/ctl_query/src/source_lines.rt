//! The lines of lists as sources of rows in `policy`: those of few lists are made once for all rows that are shown.

ghost use Rattle.std.specs.Prelude.{◌≡◌, ◌++◌, OnOk, IfOk, IfSome, flat_map};
ghost use Rattle.ctl_store.specs.Store.{keyed_of};
ghost use Rattle.ctl_store.specs.Keys.{AreHeld, AreRising};
ghost use Rattle.ctl_policy.specs.Priority.{world_of};
ghost use Rattle.ctl_policy.specs.Rows.{sources_of};
ghost use Rattle.ctl_query.specs.Inside.SourceLines.{lent_lines, lines_of_lists, line_if_source};
ghost use Rattle.ctl_query.specs.Policy.{source_line};

use crate::policy::append_source;
use crate::row_sources::RowSources;
use ctl_policy::is_source;
use ctl_relation::Bytes;
use ctl_store::{StanzaKey, Store};
use std::alloc::{AllocError, Global};
use std::marker::Model;

// Of more lists no line is made before it is told: of each row they are found by its keys.
const FEW: usize = 8;

/// The lines of the lists of a store, seen as what is held in it.
#[derive(Drop)]
pub(crate) struct SourceLines<'a> {
    store: &'a Store,
    // The line of each list beside its name, in the order of the lists, where these are few.
    lines: Option<Vec<(&'a [u8], Bytes)>>,
}

impl<'a> Model for SourceLines<'a> {
    ghost use Rattle.std.specs.Prelude.{◌≡◌, IfSome};
    ghost use Rattle.ctl_store.specs.Store.{Held};
    ghost use Rattle.ctl_policy.specs.Priority.{world_of};
    ghost use Rattle.ctl_query.specs.Inside.SourceLines.{lent_lines, lines_of_lists};

    ghost Value = { Held };

    ghost view = { λ it. it.store.now };

    ghost invariant = { λ it. IfSome it.lines (λ lines. lent_lines lines.items ≡ lines_of_lists (world_of it.store.now)) };
}

fn line_of(alloc: Global, store: &Store, list: &[u8]) -> Result<Bytes, AllocError>
    ensures { IfOk result (λ line. line ≡ source_line (world_of store.now) list.now) }
{
    let mut line = Vec::new(alloc);
    append_source(store, list, &mut line)?;
    Ok(Bytes::from_vec(line))
}

// The lines of all lists, where these are few.
fn lines_of<'a>(
    alloc: Global,
    store: &'a Store,
) -> Result<Option<Vec<(&'a [u8], Bytes)>>, AllocError>
    ensures { IfOk result (λ lines. IfSome lines (λ lines. lent_lines lines.items ≡ lines_of_lists (world_of store.now))) }
{
    let mut lines = Vec::new(alloc);
    'lists: for list in store.lists() {
        if lines.len() == FEW {
            return Ok(None);
        }
        let line = line_of(alloc, store, list.0)?;
        lines.push((list.0, line))?;
    }
    Ok(Some(lines))
}

// Appends the lines of the lists that hold a row, which has these stanzas, each made as it is told.
fn append_sources(store: &Store, row: &[StanzaKey], out: &mut Vec<u8>) -> Result<(), AllocError>
    requires held { AreHeld row.now (keyed_of store.now).lists }
    requires rising { AreRising row.now }
    ensures { OnOk result (out.new.items ≡ out.old.items
        ++ flat_map (source_line (world_of store.now)) (sources_of row.now (keyed_of store.now).lists)) }
{
    'lists: for list in RowSources::new(store, row) {
        append_source(store, list, out)?;
    }
    Ok(())
}

// Appends the lines of those lists that hold a row, which has these stanzas.
fn append_lines(
    store: &Store,
    lines: &[(&[u8], Bytes)],
    row: &[StanzaKey],
    out: &mut Vec<u8>,
) -> Result<(), AllocError>
    requires { AreHeld row.now (keyed_of store.now).lists }
    ensures { OnOk result (out.new.items ≡ out.old.items
        ++ flat_map (line_if_source (world_of store.now) row.now) (lent_lines lines.now)) }
{
    for line in lines {
        if is_source(store, line.0, row) {
            out.extend_from_slice(line.1.as_slice())?;
        }
    }
    Ok(())
}

impl<'a> SourceLines<'a> {
    /// The lines of the lists of a store.
    pub(crate) fn new(alloc: Global, store: &'a Store) -> Result<SourceLines<'a>, AllocError>
        ensures { IfOk result (λ lines. lines ≡ store.now) }
    {
        let lines = lines_of(alloc, store)?;
        Ok(SourceLines { store, lines })
    }

    /// The store.
    pub(crate) fn store(&self) -> &'a Store
        ensures { result.now ≡ self.now }
    {
        self.store
    }

    /// Appends the lines of the sources of a row, which has these stanzas.
    pub(crate) fn append_to(&self, row: &[StanzaKey], out: &mut Vec<u8>) -> Result<(), AllocError>
        requires held { AreHeld row.now (keyed_of self.now).lists }
        requires rising { AreRising row.now }
        ensures { OnOk result (out.new.items ≡ out.old.items
            ++ flat_map (source_line (world_of self.now)) (sources_of row.now (keyed_of self.now).lists)) }
    {
        if let Some(lines) = &self.lines {
            append_lines(self.store, lines, row, out)?;
            return Ok(());
        }
        append_sources(self.store, row, out)?;
        Ok(())
    }
}
