//! The commands of a script.

ghost use Rattle.std.specs.Prelude.{◌≡◌};
ghost use Rattle.ctl_session.specs.Request.{has_body};

use ctl_query::QueryName;

/// A command of a script.
#[derive(Clone, Copy, Debug, PartialEq, Eq)]
pub(crate) enum CommandName {
    AddList,
    DropList,
    Put,
    Remove,
    Mark,
    Unmark,
    Pin,
    Unpin,
    Target,
    Prefs,
    Query(QueryName),
}

impl CommandName {
    ghost use Rattle.ctl_session.specs.Request.{command_named};

    /// The command of a name, if there is one.
    pub(crate) fn read(name: &[u8]) -> Option<CommandName>
        ensures { result ≡ command_named name.now }
    {
        if name == b"add-list".as_slice() {
            Some(CommandName::AddList)
        } else if name == b"drop-list".as_slice() {
            Some(CommandName::DropList)
        } else if name == b"put".as_slice() {
            Some(CommandName::Put)
        } else if name == b"remove".as_slice() {
            Some(CommandName::Remove)
        } else if name == b"mark".as_slice() {
            Some(CommandName::Mark)
        } else if name == b"unmark".as_slice() {
            Some(CommandName::Unmark)
        } else if name == b"pin".as_slice() {
            Some(CommandName::Pin)
        } else if name == b"unpin".as_slice() {
            Some(CommandName::Unpin)
        } else if name == b"target".as_slice() {
            Some(CommandName::Target)
        } else if name == b"prefs".as_slice() {
            Some(CommandName::Prefs)
        } else {
            match QueryName::read(name) {
                Some(query) => Some(CommandName::Query(query)),
                None => None,
            }
        }
    }
}

/// Whether a body comes after a line, by the command that it names.
pub(crate) fn has_body(command: Option<CommandName>) -> bool
    ensures { result ≡ has_body command }
{
    match command {
        Some(CommandName::AddList | CommandName::Put | CommandName::Prefs) => true,
        _ => false,
    }
}
