//! Data of records of any type by one table: which fields data of a type has, and reading by it (RFC 1035, 3.3).
//!
//! [`fields_of`] is the table, one line for each type.
#![tactic(auto)]

pub mod blocks;
pub mod data;
pub mod fault;
pub mod field;
pub mod form;
pub mod kind;
pub mod laws;
pub mod octets;
pub mod rdata;
pub mod table;
pub mod value;

pub use data::{check_data, known_fields};
pub use fault::DataFault;
pub use field::{field_end, fields_end};
pub use form::{FieldForm, form_of};
pub use kind::FieldKind;
pub use rdata::{Field, Rdata};
pub use table::{compresses_names, fields_of, is_of_internet};

#[cfg(test)]
mod tests;
