//! Copies of relative names and absolute names made of them, whose memory is refused.
//!
//! As in `memory`, at most one request of a test is refused, whichever it is, and none where `MOST_REFUSED` is 0.

use crate::memory::MOST_REFUSED;
use crate::names::relative;
use domain_builder::PushError;
use domain_name::RelativeName;
use octseq::{EmptyBuilder, OctetsBuilder, OctetsFrom, ShortBuf};
use std::alloc::Global;
use std::process::Abort;

/// Copies a relative name twice, makes the copy absolute, and tells whether memory was refused.
fn make_absolute(rt: &impl Abort, alloc: Global) -> bool {
    let held: Result<RelativeName<Vec<u8>>, ShortBuf> = RelativeName::try_octets_from(
        alloc,
        relative(rt, b"\x03www"),
    );
    let Ok(held) = held else {
        return true;
    };
    let Ok(copy) = held.clone(alloc) else {
        return true;
    };
    assert!(rt; copy.as_slice() == b"\x03www".as_slice());
    match copy.into_absolute() {
        Ok(name) => {
            assert!(rt; name.as_slice() == b"\x03www\0".as_slice());
            false
        }
        Err(e) => {
            assert!(rt; e == PushError::ShortBuf);
            true
        }
    }
}

#[test]
fn relative_names_are_copied_and_made_absolute_or_refused(rt: HostRuntime) {
    assert!(rt; u8::from(make_absolute(&rt, rt.alloc())) <= MOST_REFUSED);
}

/// Makes a relative name absolute in octets that have room for the root, which is never refused, and tells
/// whether that room was.
fn make_absolute_in_room(rt: &impl Abort, alloc: Global) -> bool {
    let Ok(mut octets) = <Vec<u8> as EmptyBuilder>::with_capacity(alloc, 5) else {
        return true;
    };
    assert!(rt; octets.append_slice(b"\x03www").is_ok());
    let Ok(name) = RelativeName::from_octets(octets) else {
        panic!(rt; "no relative name");
    };
    match name.into_absolute() {
        Ok(name) => assert!(rt; name.as_slice() == b"\x03www\0".as_slice()),
        Err(_) => panic!(rt; "no room"),
    }
    false
}

#[test]
fn the_root_is_never_refused_room_that_is_there(rt: HostRuntime) {
    assert!(rt; u8::from(make_absolute_in_room(&rt, rt.alloc())) <= MOST_REFUSED);
}
