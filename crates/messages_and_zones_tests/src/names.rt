//! A name that the tests of messages are made of.

use domain_name::Name;
use std::process::Abort;

pub const WWW: &[u8] = b"\x03www\x07Example\x03com\0";

pub fn absolute<'a>(rt: &impl Abort, octets: &'a [u8]) -> Name<&'a [u8]> {
    match Name::from_slice(octets) {
        Ok(name) => name,
        Err(_) => panic!(rt; "no absolute name"),
    }
}
