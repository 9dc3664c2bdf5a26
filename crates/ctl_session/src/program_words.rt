//! What the words of the program ask for.

use clap::Error as ClapError;
use thiserror::Error;

/// What the words of the program ask for.
#[derive(Drop)]
pub struct Arguments {
    /// The values of `-l`, each `NAME=FILE`, in order.
    pub lists: Vec<String>,
    /// The status file.
    pub status: Option<String>,
    /// The file of the script. Without one the script is read from standard input.
    pub script: Option<String>,
}

/// Why the words of the program were not read.
#[derive(Debug, Drop, Error)]
pub enum ArgumentsFault {
    /// The words are not those of the program, or ask for help or the version.
    #[error(transparent)]
    Words(ClapError),
    /// There is not enough memory.
    #[error("out of memory")]
    Memory,
}
