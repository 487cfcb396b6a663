//! What the conformance programs share, the fields of a line and its answer in the making, and the calls of the
//! conformance table on octets, numbers, serial numbers and labels.
#![tactic(auto)]

mod address;
mod answer;
mod command;
mod errors;
mod fields;
mod labels;
mod numbers;
mod octets;
mod order;
mod parser;
mod serials;
mod split;
mod table;

pub use answer::{Answer, Fail};
pub use command::answer_labels;
pub use errors::{put_name_error, put_parse_error, put_relative_kind, put_relative_name_error};
pub use fields::{Fields, decimal, is, length_of, number_up_to, octets_of, split_once};
pub use order::put_canonical_order;
pub use parser::parser_at;
pub use table::{Table, answer_table};
