//! What the documents show of calls on names, messages and record data, as a crate of a caller's own would have it:
//! each function stands here as the documents have it, with its contract, and is proved.
#![tactic(auto)]

pub mod address_data;
pub mod aliases;
pub mod answers;
pub mod any_records;
pub mod authoritative;
pub mod builders;
pub mod building;
pub mod chains;
pub mod character_strings;
pub mod circle;
pub mod comparing;
pub mod composing;
pub mod compressing;
pub mod counted;
pub mod counts_last;
pub mod edns;
pub mod exchange;
pub mod flat_names;
pub mod flattening;
pub mod host_labels;
pub mod hosts;
pub mod key_exchangers;
pub mod labels;
pub mod made_names;
pub mod mail;
pub mod name_tables;
pub mod octets;
pub mod owners;
pub mod program;
pub mod reading;
pub mod records;
pub mod referring;
pub mod sections;
pub mod services;
pub mod serving;
pub mod signing;
pub mod typed_names;
pub mod values;
pub mod wrapped;
