//! Maps in the order of insertion, from which an entry is taken out without moving the others.
#![tactic(auto)]

mod entries;
mod ordered;
mod search;
mod slot;
mod wanted;

pub use entries::{Entries, IntoEntries};
pub use ordered::Ordered;
pub use wanted::Wanted;
