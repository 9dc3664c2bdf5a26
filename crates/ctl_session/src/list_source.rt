//! A list that is read from a source in blocks.

ghost use Rattle.std.specs.Prelude.{◌≡◌, ◌++◌, ℕ, List, IfOk, IfErr};
ghost use Rattle.ctl_stanza.specs.declared.list_kind.ListKind.{ListKind};
ghost use Rattle.ctl_stanza.specs.Text.{read_text};
ghost use Rattle.ctl_session.specs.Streams.{counted};
ghost use Rattle.ctl_session.specs.Loading.{ReadsAs, ReadsSoFar, ReadsList, StopsInList, is_failed_load};

use crate::read_ahead::ReadAhead;
use crate::source::Source;
use crate::source_fault::SourceFault;
use ctl_stanza::{ListKind, Stanza, StanzaReader, TextFault};
use std::alloc::Global;

/// Goes on over the next block of a text, unless the text has a fault before it.
fn read_block(
    alloc: Global,
    reading: Result<StanzaReader, TextFault>,
    block: &[u8],
) -> Result<StanzaReader, TextFault>
    ensures { (kind : ListKind) (text : List ℕ) → ReadsSoFar kind text reading → ReadsSoFar kind (text ++ block.now) result }
{
    match reading {
        Ok(reader) => reader.push(alloc, block),
        Err(fault) => Err(fault),
    }
}

/// The stanzas of a text all of whose blocks were read.
fn stanzas_of(
    alloc: Global,
    reading: Result<StanzaReader, TextFault>,
) -> Result<Vec<Stanza>, TextFault>
    ensures { (kind : ListKind) (text : List ℕ) → ReadsSoFar kind text reading → ReadsAs result (read_text kind 1 text) }
{
    match reading {
        Ok(reader) => reader.finish(alloc),
        Err(fault) => Err(fault),
    }
}

/// The stanzas of all that a source gives, or the fault of this text. It is read block by block, and to its end behind a
/// fault, too, since a read may fail there.
pub(crate) fn read_list<R: Source>(
    alloc: Global,
    blocks: &mut ReadAhead,
    reader: &mut R,
    kind: ListKind,
) -> Result<Result<Vec<Stanza>, TextFault>, SourceFault>
    ensures read { IfOk result (ReadsList kind (R.remaining reader.old) (R.remaining reader.new)) }
    ensures fault { IfErr result (StopsInList (R.remaining reader.old) (R.remaining reader.new)) }
    ensures failures { R.failures reader.new ≡ counted (is_failed_load result) (R.failures reader.old) }
{
    let mut reading = Ok(StanzaReader::new(alloc, 1, kind));
    let mut count: u32 = 0;
    blocks.clear();
    'reads: loop {
        match blocks.refill(reader) {
            Err(_) => return Err(SourceFault::Read),
            Ok(()) => {
                let block = blocks.rest();
                if block.is_empty() {
                    return Ok(stanzas_of(alloc, reading));
                }
                let size = block.len() as u32;
                if size > u32::MAX - count {
                    return Err(SourceFault::TooLong);
                }
                count += size;
                reading = read_block(alloc, reading, block);
                blocks.clear();
            }
        }
    }
}
