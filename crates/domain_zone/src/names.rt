//! The names that own records.

use domain_name::Name;

/// Who owns records: an absolute name of its own octets.
pub type Owner = Name<Vec<u8>>;
