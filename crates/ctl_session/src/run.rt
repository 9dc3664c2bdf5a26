//! A run: a script's commands, answered one after another.

ghost use Rattle.std.specs.Prelude.{◌≡◌, IfOk, IfErr};
ghost use Rattle.ctl_session.specs.Streams.{counted};
ghost use Rattle.ctl_session.specs.Faults.{is_read_fault, is_write_fault};
ghost use Rattle.ctl_session.specs.Run.{Ran, Stopped, standing};

use crate::fault::Fault;
use crate::perform::perform;
use crate::print::print;
use crate::script::read_command;
use crate::sink::Sink;
use crate::source::Source;
use crate::summary::Summary;
use crate::workspace::Workspace;
use ctl_index::Cache;
use std::alloc::Global;

/// Runs a script from a reader, and writes what its commands come to.
pub(crate) fn run_over<R: Source, W: Sink>(
    alloc: Global,
    cache: &mut Cache,
    workspace: &mut Workspace,
    reader: &mut R,
    writer: &mut W,
) -> Result<Summary, Fault>
    ensures ok { IfOk result (Ran workspace.old.lines.max (standing cache.old (R.remaining reader.old) (W.taken writer.old))
        (standing cache.new (R.remaining reader.new) (W.taken writer.new))) }
    ensures read { R.failures reader.new ≡ counted (is_read_fault result) (R.failures reader.old) }
    ensures write { W.failures writer.new ≡ counted (is_write_fault result) (W.failures writer.old) }
    ensures fault { IfErr result (Stopped workspace.old.lines.max (standing cache.old (R.remaining reader.old) (W.taken writer.old))
        (standing cache.new (R.remaining reader.new) (W.taken writer.new))) }
    ensures max_lines { workspace.new.lines.max ≡ workspace.old.lines.max }
{
    workspace.lines.restart();
    let mut summary = Summary {
        accepted: 0,
        refused: 0,
    };
    'commands: loop {
        let command = match read_command(
            alloc,
            cache,
            &mut workspace.lines,
            reader,
            &mut workspace.line,
        ) {
            Err(fault) => return Err(Fault::from(fault)),
            Ok(None) => return Ok(summary),
            Ok(Some(command)) => command,
        };
        let last = command.body.last;
        let reply = perform(
            alloc,
            cache,
            command,
            workspace.lines.number,
            &mut workspace.out,
        );
        match print(writer, reply, &workspace.out, &mut workspace.line) {
            Err(_) => return Err(Fault::Write),
            Ok(()) => {}
        }
        summary.count(reply);
        if last {
            return Ok(summary);
        }
    }
}
