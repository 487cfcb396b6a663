//! The name that octets are.

use conformance_labels::{Answer, Fail};
use domain_name::{Name, RelativeName};

/// The absolute name of these octets. If they are none, that is noted, and it is the root.
pub fn absolute_of<'a>(out: &Answer, octets: &'a [u8]) -> Name<&'a [u8]> {
    match Name::from_slice(octets) {
        Ok(name) => name,
        Err(_) => {
            out.fail(Fail::Bad);
            Name::root_slice()
        }
    }
}

/// The relative name of these octets. If they are none, that is noted, and it is empty.
pub fn relative_of<'a>(out: &Answer, octets: &'a [u8]) -> RelativeName<&'a [u8]> {
    match RelativeName::from_slice(octets) {
        Ok(name) => name,
        Err(_) => {
            out.fail(Fail::Bad);
            RelativeName::empty_slice()
        }
    }
}
