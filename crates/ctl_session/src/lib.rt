//! Scripts over a cache of package lists: lines to commands, and a run over any reader and writer.
#![tactic(auto)]

mod command_line;
mod command_name;
mod edit_words;
mod edits;
mod failed;
mod fault;
mod laws;
mod line_words;
mod lines;
mod list_source;
mod list_words;
mod load_fault;
mod perform;
mod pin_words;
mod print;
mod program_words;
mod read_ahead;
mod refusal_at;
mod reply;
mod request;
mod run;
mod script;
mod session;
mod sink;
mod source;
mod source_fault;
mod summary;
mod words;
mod workspace;

pub use command_line::arguments;
pub use failed::Failed;
pub use fault::Fault;
pub use laws::commands_come_to_one_outcome;
pub use load_fault::LoadFault;
pub use program_words::{Arguments, ArgumentsFault};
pub use session::Session;
pub use sink::{FromWrite, Sink};
pub use source::{FromRead, Source};
pub use source_fault::SourceFault;
pub use summary::Summary;
