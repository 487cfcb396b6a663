//! Names that the tests are made of.

use domain_list::Chain;
use domain_name::{Name, RelativeName};
use domain_parsed::ParsedName;
use octseq::{Octets, Parser};
use std::process::Abort;

pub const WWW: &[u8] = b"\x03www\x07Example\x03com\0";

/// The same with A to Z as a to z.
pub const LOWER_WWW: &[u8] = b"\x03www\x07example\x03com\0";

/// `com` at 0, `Example` and a pointer to it at 5, `www` and a pointer to that at 15.
pub const SCATTERED: &[u8] = b"\x03com\0\x07Example\xc0\0\x03www\xc0\x05";

pub fn absolute<'a>(rt: &impl Abort, octets: &'a [u8]) -> Name<&'a [u8]> {
    match Name::from_slice(octets) {
        Ok(name) => name,
        Err(_) => panic!(rt; "no absolute name"),
    }
}

pub fn relative<'a>(rt: &impl Abort, octets: &'a [u8]) -> RelativeName<&'a [u8]> {
    match RelativeName::from_slice(octets) {
        Ok(name) => name,
        Err(_) => panic!(rt; "no relative name"),
    }
}

/// The name at an offset of a message.
pub fn parsed<'a>(rt: &impl Abort, octets: &'a [u8], offset: usize) -> ParsedName<&'a [u8]> {
    let mut parser = Parser::from_ref(octets);
    assert!(rt; parser.advance(offset).is_ok());
    match ParsedName::parse(&mut parser) {
        Ok(name) => name,
        Err(_) => panic!(rt; "no name at {offset}"),
    }
}

pub type Joined<'a> = Chain<RelativeName<&'a [u8]>, ParsedName<&'a [u8]>>;

pub type RelativeJoined<'a> = Chain<RelativeName<&'a [u8]>, RelativeName<&'a [u8]>>;

pub fn joined<'a>(rt: &impl Abort, left: &'a [u8], right: ParsedName<&'a [u8]>) -> Joined<'a> {
    match Chain::new(relative(rt, left), right) {
        Ok(name) => name,
        Err(_) => panic!(rt; "too long"),
    }
}

pub fn relative_joined<'a>(rt: &impl Abort, left: &'a [u8], right: &'a [u8]) -> RelativeJoined<'a> {
    match Chain::new(relative(rt, left), relative(rt, right)) {
        Ok(name) => name,
        Err(_) => panic!(rt; "too long"),
    }
}

/// The octets of a name that was made, where it was.
pub fn octets_of<Octs: Octets + Drop, E: Drop>(made: Result<Name<Octs>, E>) -> Result<Octs, E> {
    match made {
        Ok(name) => Ok(name.into_octets()),
        Err(e) => Err(e),
    }
}

pub fn relative_octets_of<Octs: Octets + Drop, E: Drop>(
    made: Result<RelativeName<Octs>, E>,
) -> Result<Octs, E> {
    match made {
        Ok(name) => Ok(name.into_octets()),
        Err(e) => Err(e),
    }
}
