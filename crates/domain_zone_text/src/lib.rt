//! The text of a zone (RFC 1035, 5; RFC 2308, 4; RFC 3597, 5).
#![tactic(auto)]

pub mod context;
mod data;
pub mod directive;
pub mod entry;
pub mod error;
mod head;
pub mod laws;
mod meaning;
mod mnemonic;
mod name;
mod push;
pub mod reader;
pub mod reading;

pub use context::Context;
pub use directive::Directive;
pub use entry::cut_entry;
pub use error::{EntryError, EntryFault, EntryReason};
pub use laws::{entry_law, lines_law, names_law, outcome_law, words_law, written_law};
pub use reader::{ZoneReader, ZoneTextError};
pub use reading::{Entry, EntryAndRest, Record, fault_place, read_entry};
