//! A session: a cache, and the scripts that are run over them.

ghost use Rattle.std.specs.Prelude.{◌≡◌, ◌-◌, ◌^◌, IfOk, IfErr, OnErr};
ghost use Rattle.ctl_session.specs.Effect.{contents_of, loaded, read_loaded};
ghost use Rattle.ctl_session.specs.Replies.{LoadCameTo};
ghost use Rattle.ctl_session.specs.Loading.{LoadedFrom, is_failed_load};
ghost use Rattle.ctl_session.specs.Streams.{counted};
ghost use Rattle.ctl_session.specs.Faults.{is_read_fault, is_write_fault};
ghost use Rattle.ctl_store.specs.Kinds.{AreOfKind};
ghost use Rattle.ctl_session.specs.Run.{Ran, Stopped, standing};
ghost use Rattle.ctl_session.specs.State.{cache_state};

use crate::edits::{AtLine, NewList, add_read_list};
use crate::fault::Fault;
use crate::list_source::read_list;
use crate::load_fault::LoadFault;
use crate::run::run_over;
use crate::sink::Sink;
use crate::source::Source;
use crate::source_fault::SourceFault;
use crate::summary::Summary;
use crate::workspace::Workspace;
use ctl_index::Cache;
use ctl_relation::{Bytes, is_name};
use ctl_stanza::{ListKind, Stanza, TextFault, lines_take_bytes, read_stanzas};
use ctl_store::{ListClass, Refusal, stanzas_are_of_their_kind};
use std::alloc::{AllocError, Global};
use std::marker::Model;

/// A session: a cache, and the scripts that are run over it.
#[derive(Drop)]
pub struct Session {
    cache: Cache,
    workspace: Workspace,
    alloc: Global,
}

impl Model for Session {
    ghost use Rattle.std.specs.Coded.{codes};
    ghost use Rattle.std.specs.FinMap.{code};
    ghost use Rattle.ctl_session.specs.State.{SessionState};

    ghost Value = { SessionState };

    ghost coded = { Prim.hlevel (codes, code) };

    ghost view = { λ session. record { cache = session.cache; max_lines = session.workspace.lines.max } };
}

impl Session {
    /// A session over a cache, whose runs read up to 4,294,967,295 lines.
    /// It hands the cache back where there is not enough memory.
    pub fn new(alloc: Global, cache: Cache) -> Result<Self, (Cache, AllocError)>
        ensures ok { IfOk result (λ session. session ≡ record { cache = cache; max_lines = 2 ^ 32 - 1 }) }
        ensures err { IfErr result (λ refused. refused.0 ≡ cache) }
    {
        Session::with_lines(alloc, cache, u32::MAX)
    }

    /// A session over a cache, whose runs read up to `max_lines` lines.
    /// It hands the cache back where there is not enough memory.
    pub fn with_lines(
        alloc: Global,
        cache: Cache,
        max_lines: u32,
    ) -> Result<Self, (Cache, AllocError)>
        ensures ok { IfOk result (λ session. session ≡ record { cache = cache; max_lines = max_lines }) }
        ensures err { IfErr result (λ refused. refused.0 ≡ cache) }
    {
        match Workspace::new(alloc, max_lines) {
            Ok(workspace) => Ok(Session {
                cache,
                workspace,
                alloc,
            }),
            Err(error) => Err((cache, error)),
        }
    }

    /// The cache.
    pub fn cache(&self) -> &Cache
        ensures { result.now ≡ self.now.cache }
    {
        &self.cache
    }

    /// Adds a last list of plain class with the stanzas that were read of a text.
    fn add_loaded(
        &mut self,
        name: &[u8],
        kind: ListKind,
        read: Result<Vec<Stanza>, TextFault>,
    ) -> Result<(), LoadFault>
        requires { IfOk read (λ stanzas. AreOfKind kind stanzas.items) }
        ensures loaded { LoadCameTo result (cache_state self.new.cache)
            (read_loaded (cache_state self.old.cache) name.now kind (contents_of read)) }
        ensures err { OnErr result (cache_state self.new.cache ≡ cache_state self.old.cache) }
        ensures max_lines { self.new.max_lines ≡ self.old.max_lines }
    {
        if !is_name(name) {
            return Err(LoadFault::of_list(Refusal::Name));
        }
        match self.cache.recover() {
            Ok(()) => {}
            Err(_) => return Err(LoadFault::of_list(Refusal::Memory)),
        }
        let Ok(name) = Bytes::from_slice(self.alloc, name) else {
            return Err(LoadFault::of_list(Refusal::Memory));
        };
        let list = NewList {
            name,
            kind,
            class: ListClass::Plain,
        };
        let at = AtLine {
            alloc: self.alloc,
            number: 0,
        };
        match add_read_list(at, &mut self.cache, list, read) {
            Ok(()) => Ok(()),
            Err(refused) => Err(LoadFault {
                line: refused.line,
                cause: refused.cause,
            }),
        }
    }

    /// Adds a last list of plain class with the stanzas of a text, as `add-list` does. The lines of the text count
    /// from 1.
    ///
    /// # Errors
    ///
    /// The first of these, and what the cache holds stays: the name is none; the fault of the text, with its line;
    /// there is a list of that name; there is a status list, and this would be another; the cache is full. Each may
    /// be out of memory instead.
    pub fn load(&mut self, name: &[u8], kind: ListKind, text: &[u8]) -> Result<(), LoadFault>
        ensures loaded { LoadCameTo result (cache_state self.new.cache)
            (loaded (cache_state self.old.cache) name.now kind text.now) }
        ensures err { OnErr result (cache_state self.new.cache ≡ cache_state self.old.cache) }
        ensures max_lines { self.new.max_lines ≡ self.old.max_lines }
    {
        lines_take_bytes();
        stanzas_are_of_their_kind();
        let read = read_stanzas(self.alloc, text, 1, kind);
        self.add_loaded(name, kind, read)
    }

    /// The same with a text of one's own, which is given back as soon as its stanzas are read: so it isn't there beside
    /// the tables that they come into.
    ///
    /// # Errors
    ///
    /// Those of [`load`](Session::load).
    pub fn load_text(&mut self, name: &[u8], kind: ListKind, text: Vec<u8>) -> Result<(), LoadFault>
        ensures loaded { LoadCameTo result (cache_state self.new.cache)
            (loaded (cache_state self.old.cache) name.now kind text.items) }
        ensures err { OnErr result (cache_state self.new.cache ≡ cache_state self.old.cache) }
        ensures max_lines { self.new.max_lines ≡ self.old.max_lines }
    {
        lines_take_bytes();
        stanzas_are_of_their_kind();
        let read = read_stanzas(self.alloc, &text, 1, kind);
        drop(text);
        self.add_loaded(name, kind, read)
    }

    /// The same with all that a source gives, of which a block is held at a time. A source whose text has a fault is
    /// read to its end, too.
    ///
    /// # Errors
    ///
    /// A failed read, or a source of more than 4,294,967,295 bytes, whatever the text is; then those of
    /// [`load`](Session::load).
    pub fn load_from<R: Source>(
        &mut self,
        name: &[u8],
        kind: ListKind,
        reader: &mut R,
    ) -> Result<(), SourceFault>
        ensures loaded { LoadedFrom (R.remaining reader.old) (R.remaining reader.new) result
            (cache_state self.old.cache) (cache_state self.new.cache) name.now kind }
        ensures failures { R.failures reader.new ≡ counted (is_failed_load result) (R.failures reader.old) }
        ensures err { OnErr result (cache_state self.new.cache ≡ cache_state self.old.cache) }
        ensures max_lines { self.new.max_lines ≡ self.old.max_lines }
    {
        stanzas_are_of_their_kind();
        let read = match read_list(self.alloc, &mut self.workspace.lines.pending, reader, kind) {
            Ok(read) => read,
            Err(fault) => return Err(fault),
        };
        match self.add_loaded(name, kind, read) {
            Ok(()) => Ok(()),
            Err(fault) => Err(SourceFault::Refused(fault)),
        }
    }

    /// Runs a script, and writes what its commands come to: for each command in its order nothing, one line that
    /// names the line and the cause of its refusal, or the answer to a query. The text of a command is written
    /// before the next line is read. The run ends where the reader ends, or by a fault: a failed read, a failed
    /// write, or a script past the limit of lines. A run after it begins with line 1.
    pub fn run<R: Source, W: Sink>(
        &mut self,
        reader: &mut R,
        writer: &mut W,
    ) -> Result<Summary, Fault>
        // All that the reader gave is a script within the limit of lines, and what the writer took is the text of its commands.
        ensures ok { IfOk result (Ran self.old.max_lines (standing self.old.cache (R.remaining reader.old) (W.taken writer.old))
            (standing self.new.cache (R.remaining reader.new) (W.taken writer.new))) }

        // A fault of reading or writing comes where a read or a write failed, and only there.
        ensures read { R.failures reader.new ≡ counted (is_read_fault result) (R.failures reader.old) }
        ensures write { W.failures writer.new ≡ counted (is_write_fault result) (W.failures writer.old) }

        // At a fault of reading, or past the limit, the text of the commands that were given whole is written, and no more;
        // at a fault of writing the text of the last command that was done is written in part.
        ensures fault { IfErr result (Stopped self.old.max_lines (standing self.old.cache (R.remaining reader.old) (W.taken writer.old))
            (standing self.new.cache (R.remaining reader.new) (W.taken writer.new))) }
        ensures max_lines { self.new.max_lines ≡ self.old.max_lines }
    {
        run_over(
            self.alloc,
            &mut self.cache,
            &mut self.workspace,
            reader,
            writer,
        )
    }
}
