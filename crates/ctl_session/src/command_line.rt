//! Reading the words that the program is called with.

ghost use Rattle.std.specs.Prelude.{◌≡◌, true, IfOk, IfErr, codes, map, string_bytes};
ghost use Rattle.std.specs.Option.{option_map};
ghost use Rattle.clap.specs.Words.{HasMatchesOf, app_of};
ghost use Rattle.clap.specs.Simple.{with_rule, is_simple};
ghost use Rattle.clap.specs.Takes.{takes};
ghost use Rattle.clap.specs.declared.parser.matches.ArgMatches.{ArgMatches as Matches};
ghost use Rattle.ctl_session.specs.Application.{application, IsFirstValue, program, list_rule, status_rule, script_rule};
ghost use Rattle.ctl_session.specs.declared.program_words.ArgumentsFault.TheVariants.{Memory};

use crate::program_words::{Arguments, ArgumentsFault};
use clap::error::ErrorKind;
use clap::{Arg, ArgAction, ArgMatches, Command};
use std::alloc::{AllocError, Global};

/// Adds `-l NAME=FILE`, which may be given any number of times.
fn with_list<'a>(alloc: Global, command: Command<'a>) -> Result<Command<'a>, AllocError>
    ensures { IfOk result (λ more. app_of more ≡ with_rule (app_of command.entry) list_rule) }
{
    command.arg(
        Arg::new(alloc, "LIST")
            .short('l')
            .value_name("NAME=FILE")
            .help("Reads the packages list FILE as the list NAME; may be given again")
            .action(ArgAction::Append),
    )
}

/// Adds `--status FILE`.
fn with_status<'a>(alloc: Global, command: Command<'a>) -> Result<Command<'a>, AllocError>
    ensures { IfOk result (λ more. app_of more ≡ with_rule (app_of command.entry) status_rule) }
{
    command.arg(
        Arg::new(alloc, "FILE")
            .long("status")
            .value_name("FILE")
            .help("Reads the status list FILE as the list `status`")
            .action(ArgAction::Set),
    )
}

/// Adds `SCRIPT`.
fn with_script<'a>(alloc: Global, command: Command<'a>) -> Result<Command<'a>, AllocError>
    ensures { IfOk result (λ more. app_of more ≡ with_rule (app_of command.entry) script_rule) }
{
    command.arg(
        Arg::new(alloc, "SCRIPT")
            .value_name("SCRIPT")
            .help("The file of the commands; without it they are read from standard input")
            .action(ArgAction::Set),
    )
}

/// The program without its words: its name, its version and what it is.
fn program<'a>(alloc: Global) -> Command<'a>
    ensures { app_of result ≡ program }
{
    Command::new(alloc, "dctrl-cache")
        .version("0.1.0")
        .about(
            "Holds lists of Debian packages in memory, edits them and answers queries about them",
        )
        .override_usage("dctrl-cache [-l NAME=FILE]... [--status FILE] [SCRIPT]")
}

/// The words that the program takes: `dctrl-cache [-l NAME=FILE]... [--status FILE] [SCRIPT]`.
fn command<'a>(alloc: Global) -> Result<Command<'a>, AllocError>
    ensures { IfOk result (λ command. app_of command ≡ application) }
{
    let command = with_list(alloc, program(alloc))?;
    let command = with_status(alloc, command)?;
    with_script(alloc, command)
}

/// A text of one's own.
fn owned(alloc: Global, text: Option<&str>) -> Result<Option<String>, AllocError>
    ensures { IfOk result (λ own. option_map string_bytes own ≡ option_map (λ text. text.now) text.entry) }
{
    match text {
        None => Ok(None),
        Some(text) => Ok(Some(String::from_str(alloc, text)?)),
    }
}

/// Texts of one's own.
fn all_owned(alloc: Global, texts: &[&str]) -> Result<Vec<String>, AllocError> {
    let mut own = Vec::new(alloc);
    for text in texts {
        own.push(String::from_str(alloc, text)?)?;
    }
    Ok(own)
}

/// What matches ask for.
fn asked(alloc: Global, matches: &ArgMatches<'_>) -> Result<Arguments, AllocError>
    ensures status { IfOk result (λ arguments. IsFirstValue matches.now (codes "FILE") arguments.status) }
    ensures script { IfOk result (λ arguments. IsFirstValue matches.now (codes "SCRIPT") arguments.script) }
{
    let lists = match matches.get_strs("LIST") {
        None => Vec::new(alloc),
        Some(lists) => all_owned(alloc, lists)?,
    };
    let status = owned(alloc, matches.get_str("FILE"))?;
    let script = owned(alloc, matches.get_str("SCRIPT"))?;
    Ok(Arguments {
        lists,
        status,
        script,
    })
}

/// Reads the words that the program is called with, its own name first.
///
/// # Errors
///
/// [`ArgumentsFault::Words`] where the words are not `[-l NAME=FILE]... [--status FILE] [SCRIPT]`, or ask for help or the
/// version; it holds clap's error, whose text tells what is wrong, or what was asked for. [`ArgumentsFault::Memory`] where
/// there is not enough memory.
pub fn arguments(alloc: Global, words: &[&str]) -> Result<Arguments, ArgumentsFault>
    // The status file and the script are the first values of their arguments in matches that clap promises for the words.
    ensures values { IfOk result (λ arguments. (found : Matches) × HasMatchesOf application (map (λ word. word.now) words.now) found
        × IsFirstValue found (codes "FILE") arguments.status × IsFirstValue found (codes "SCRIPT") arguments.script) }

    // What clap promises it promises of simple applications, as this one is.
    ensures simple { is_simple application ≡ true }

    // Words that clap takes are refused only where memory runs out.
    ensures memory { takes application (map (λ word. word.now) words.now) ≡ true → IfErr result (λ fault. fault ≡ Memory) }
{
    let command = match command(alloc) {
        Ok(command) => command,
        Err(_) => return Err(ArgumentsFault::Memory),
    };
    let matches = match command.try_get_matches_from(words) {
        Ok(matches) => matches,
        Err(error) => {
            if error.kind() == ErrorKind::OutOfMemory {
                return Err(ArgumentsFault::Memory);
            }
            return Err(ArgumentsFault::Words(error));
        }
    };
    match asked(alloc, &matches) {
        Ok(arguments) => Ok(arguments),
        Err(_) => Err(ArgumentsFault::Memory),
    }
}
