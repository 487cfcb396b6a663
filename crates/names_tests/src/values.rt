//! Values that no row of the table shows: texts of serial numbers, what an error holds, what is there by default.

use crate::names::{SCATTERED, WWW, parsed};
use arrayvec::ArrayVec;
use domain_label::{Label, LabelTypeError, SplitLabelError};
use domain_name::NameBuilder;
use domain_serial::Serial;
use octseq::{Octets, ShortInput};
use std::test::Fail;

#[test]
fn texts_of_serials_are_read_as_those_of_numbers(rt: HostRuntime) {
    for (text, wanted) in [
        ("0", Some(0u32)),
        ("+5", Some(5)),
        ("007", Some(7)),
        ("4294967295", Some(4_294_967_295)),
        ("4294967296", None),
        ("", None),
        ("+", None),
        ("-", None),
        ("-1", None),
        ("1 ", None),
    ] {
        match text.parse::<Serial>() {
            Ok(serial) => assert!(rt; wanted == Some(serial.into_int())),
            Err(error) => {
                assert!(rt; wanted.is_none());
                assert!(rt; text.parse::<u32>() == Err(error));
            }
        }
    }
}

#[test]
fn a_builder_is_empty_by_default(rt: HostRuntime) {
    let mut builder = NameBuilder::<ArrayVec<u8, 4>>::default();
    assert!(rt; builder.is_empty() && !builder.in_label());
    assert!(rt; Octets::as_slice(&builder).is_empty());
    assert!(rt; builder.push(b'a').is_ok());
    assert!(rt; Octets::as_slice(&builder) == b"\0a".as_slice());
}

#[test]
fn the_wildcard_label_is_a_star(rt: HostRuntime) {
    let label = Label::wildcard();
    assert!(rt; label.is_wildcard() && !label.is_root() && label.as_slice() == b"*".as_slice());
    assert!(rt; !Label::root().is_wildcard() && Label::root().is_empty());
}

#[test]
fn a_name_in_a_message_is_gone_over(rt: HostRuntime) {
    let name = parsed(&rt, SCATTERED, 15);
    let mut octets = ArrayVec::<u8, 17>::new();
    for label in &name {
        assert!(rt; label.compose(&mut octets).is_ok());
    }
    assert!(rt; octets.as_slice() == WWW);
}

#[test]
fn errors_that_others_hold_have_texts(rt: HostRuntime) -> Result<(), Fail> {
    let alloc = rt.alloc();
    assert!(rt; ShortInput.to_string(alloc)?.as_str() == "unexpected end of input");
    let pointer = SplitLabelError::Pointer(5).to_string(alloc)?;
    assert!(rt; pointer.as_str() == "compressed domain name");
    let undefined = LabelTypeError::Undefined.to_string(alloc)?;
    assert!(rt; undefined.as_str() == "undefined label type");
    let extended = LabelTypeError::Extended(0x4A).to_string(alloc)?;
    assert!(rt; extended.as_str() == "unknown extended label 0x4a");
    Ok(())
}
