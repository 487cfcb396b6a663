//! The calls of the conformance table on texts and builders of names, uncompressed names, chains, and names compared.
#![tactic(auto)]

mod building;
mod canonical;
mod capacity;
mod chains;
mod command;
mod compare;
mod error_texts;
mod flat;
mod kept;
mod made;
mod octets;
mod orders;
mod relative;
mod reverse;
mod text;
mod text_command;

pub use chains::{AbsoluteCall, absolute_chain, put_absolute};
pub use command::answer_names;
pub use compare::{put_compared, put_ends_of, put_twins};
pub use made::{SIZE, put_appended, put_forms, put_relative_appended};
pub use octets::{absolute_of, relative_of};
pub use orders::{put_mixture, put_orders};
pub use text_command::answer_texts;
