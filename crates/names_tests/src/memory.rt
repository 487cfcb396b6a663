//! Memory that is refused.
//!
//! `.ci/refused-memory` runs each test whose name has the word `refused` once for each request for memory that it
//! makes, with that one refused. The run uses a copy of these sources that knows which request it is. So a call gives
//! the right octets or `ShortBuf`, whichever request is refused, and at most one call of a test is refused. Where no
//! request is refused, no call is.

use crate::names::{
    LOWER_WWW, SCATTERED, WWW, absolute, octets_of, parsed, relative, relative_joined,
    relative_octets_of,
};
use domain_builder::FromStrError;
use domain_list::RelativeLabels;
use domain_name::{Name, RelativeName};
use domain_parsed::ParsedName;
use domain_traits::{FlattenInto, ToName, ToRelativeName};
use domain_wire::{Compose, compose_vec};
use octseq::{EmptyBuilder, Octets, OctetsBuilder, OctetsFrom, ShortBuf};
use std::alloc::Global;
use std::process::Abort;

/// Which request of each test is refused, the first being 1; 0 where none is. Only a test's own body names this and
/// `MOST_REFUSED`, since it stands in the copy once for each request.
pub const REFUSED_REQUEST: u32 = 0;

/// How many calls of a test may be refused.
pub const MOST_REFUSED: u8 = if REFUSED_REQUEST == 0 { 0 } else { 1 };

/// How many calls were refused.
#[derive(Clone, Copy)]
struct Refusals {
    count: u8,
}

impl Refusals {
    /// Looks at what a call gave, octets or a refusal.
    fn look<Octs: Octets + Drop>(
        &mut self,
        rt: &impl Abort,
        made: Result<Octs, ShortBuf>,
        wanted: &[u8],
    ) {
        match made {
            Ok(octets) => assert!(rt; octets.as_slice() == wanted),
            Err(ShortBuf) => self.count = self.count.saturating_add(1),
        }
    }
}

/// The longest absolute name, 255 octets.
const LONGEST: &[u8] =
    b"\x09123456789\x09123456789\x09123456789\x09123456789\x09123456789\x09123456789\x09123456789\x09123456789\x09123456789\x09123456789\x09123456789\x09123456789\x09123456789\x09123456789\x09123456789\x09123456789\x09123456789\x09123456789\x09123456789\x09123456789\x09123456789\x09123456789\x09123456789\x09123456789\x09123456789\x03123\0";

/// The name is all that the test asks memory for, and it asks once: where the first request is refused there is no
/// name, and where the second would be the name is there.
#[test]
fn a_text_is_refused_where_its_one_request_is(rt: HostRuntime) {
    match Name::vec_from_str(rt.alloc(), "www.example.com") {
        Ok(name) => {
            assert!(rt; REFUSED_REQUEST != 1);
            assert!(rt; name.as_slice() == LOWER_WWW);
        }
        Err(error) => {
            assert!(rt; REFUSED_REQUEST == 1);
            assert!(rt; error == FromStrError::ShortBuf);
        }
    }
}

#[test]
fn octets_of_absolute_names_are_made_or_refused(rt: HostRuntime) {
    let alloc = rt.alloc();
    let mut refusals = Refusals { count: 0 };
    refusals.look(&rt, octets_of(Name::root_vec(alloc)), b"\0");
    for octets in [b"\0".as_slice(), WWW, LONGEST] {
        let name = absolute(&rt, octets);
        refusals.look(&rt, octets_of(name.to_vec(alloc)), octets);
    }
    assert!(rt; refusals.count <= MOST_REFUSED);
}

#[test]
fn absolute_names_are_made_or_refused(rt: HostRuntime) {
    let alloc = rt.alloc();
    let mut refusals = Refusals { count: 0 };
    for octets in [b"\0".as_slice(), WWW, LONGEST] {
        let name = absolute(&rt, octets);
        let made: Result<Name<Vec<u8>>, ShortBuf> = name.to_name(alloc);
        refusals.look(&rt, octets_of(made), octets);
        let made: Result<Name<Vec<u8>>, ShortBuf> = name.flatten_into(alloc);
        refusals.look(&rt, octets_of(made), octets);
    }
    assert!(rt; refusals.count <= MOST_REFUSED);
}

#[test]
fn scattered_names_are_made_or_refused(rt: HostRuntime) {
    let alloc = rt.alloc();
    let mut refusals = Refusals { count: 0 };
    let name = parsed(&rt, SCATTERED, 15);
    refusals.look(&rt, octets_of(name.to_cow(alloc)), WWW);
    let made: Result<Name<Vec<u8>>, ShortBuf> = name.to_canonical_name(alloc);
    refusals.look(&rt, octets_of(made), LOWER_WWW);
    let made: Result<Name<Vec<u8>>, ShortBuf> = name.flatten_into(alloc);
    refusals.look(&rt, octets_of(made), WWW);
    assert!(rt; refusals.count <= MOST_REFUSED);
}

#[test]
fn relative_names_are_made_or_refused(rt: HostRuntime) {
    let alloc = rt.alloc();
    let mut refusals = Refusals { count: 0 };
    refusals.look(&rt, relative_octets_of(RelativeName::empty_vec(alloc)), b"");
    refusals.look(
        &rt,
        relative_octets_of(RelativeName::wildcard_vec(alloc)),
        b"\x01*",
    );
    let name = relative(&rt, b"\x03wWw");
    refusals.look(&rt, relative_octets_of(name.to_vec(alloc)), b"\x03wWw");
    let made: Result<RelativeName<Vec<u8>>, ShortBuf> = name.to_canonical_relative_name(alloc);
    refusals.look(&rt, relative_octets_of(made), b"\x03www");
    assert!(rt; refusals.count <= MOST_REFUSED);
}

/// Makes names of `www.com` of any kind.
fn makes_of_relative<'a, N: RelativeLabels<'a>>(
    rt: &impl Abort,
    alloc: Global,
    refusals: &mut Refusals,
    name: &'a N,
) {
    let wanted = b"\x03www\x03com";
    refusals.look(rt, relative_octets_of(name.to_cow(alloc)), wanted);
    let made: Result<RelativeName<Vec<u8>>, ShortBuf> = name.to_relative_name(alloc);
    refusals.look(rt, relative_octets_of(made), wanted);
}

#[test]
fn relative_chains_are_made_or_refused(rt: HostRuntime) {
    let mut refusals = Refusals { count: 0 };
    let chain = relative_joined(&rt, b"\x03www", b"\x03com");
    makes_of_relative(&rt, rt.alloc(), &mut refusals, &chain);
    assert!(rt; refusals.count <= MOST_REFUSED);
}

#[test]
fn copies_are_made_or_refused(rt: HostRuntime) {
    let alloc = rt.alloc();
    let mut refusals = Refusals { count: 0 };
    for octets in [b"\0".as_slice(), WWW, LONGEST] {
        let held: Result<Name<Vec<u8>>, ShortBuf> = Name::try_octets_from(
            alloc,
            absolute(&rt, octets),
        );
        match held {
            Ok(name) => refusals.look(&rt, octets_of(name.clone(alloc)), octets),
            Err(e) => refusals.look(&rt, Err::<Vec<u8>, ShortBuf>(e), b""),
        }
    }
    assert!(rt; refusals.count <= MOST_REFUSED);
}

/// Copies what is left of the longest name without its first label. `ShortBuf` where memory is refused.
fn copy_rest(rt: &impl Abort, alloc: Global) -> Result<(), ShortBuf> {
    let octets: Name<Vec<u8>> = Name::try_octets_from(alloc, absolute(rt, LONGEST))?;
    let mut name = ParsedName::from(octets);
    assert!(rt; name.parent());
    let copy = name.clone(alloc)?;
    assert!(rt; copy == name && copy.label_count() == 26);
    Ok(())
}

#[test]
fn names_in_messages_are_copied_or_refused(rt: HostRuntime) {
    let copied = copy_rest(&rt, rt.alloc());
    assert!(rt; u8::from(copied.is_err()) <= MOST_REFUSED);
}

#[test]
fn octets_are_composed_or_refused(rt: HostRuntime) {
    let alloc = rt.alloc();
    let mut refusals = Refusals { count: 0 };
    let composed = compose_vec(alloc, |octets| {
        258u16.compose(octets)?;
        octets.append_slice(LONGEST)
    });
    if let Ok(octets) = &composed {
        assert!(rt; octets.len() == 257);
        assert!(rt; octets.as_slice().starts_with(&[1, 2]));
        assert!(rt; octets.as_slice().ends_with(LONGEST));
    }
    refusals.look(&rt, composed.map(|_octets| b"".as_slice()), b"");
    let made = <Vec<u8> as EmptyBuilder>::with_capacity(alloc, 300);
    refusals.look(&rt, made, b"");
    assert!(rt; refusals.count <= MOST_REFUSED);
    assert!(rt; compose_vec(alloc, |_octets| Err(ShortBuf)).is_err());
    assert!(rt; <Vec<u8> as EmptyBuilder>::with_capacity(alloc, usize::MAX).is_err());
}

/// A name is appended to the same octets again where it was refused, which leaves them.
#[test]
fn names_are_appended_or_refused(rt: HostRuntime) {
    let name = absolute(&rt, WWW);
    let mut octets = Vec::new(rt.alloc());
    if let Err(ShortBuf) = name.compose(&mut octets) {
        assert!(rt; MOST_REFUSED == 1 && octets.is_empty());
        assert!(rt; name.compose(&mut octets).is_ok());
    }
    assert!(rt; octets.as_slice() == WWW);
}
