//! Names that are read from text and built, where memory is refused.
//!
//! As in `memory`, at most one request of a test is refused, whichever it is: so a call that was refused is accepted
//! when it is made again.

use crate::memory::MOST_REFUSED;
use crate::names::{WWW, octets_of, relative, relative_octets_of};
use domain_builder::{FromStrError, PushError, RelativeFromStrError};
use domain_label::scan::Symbol;
use domain_name::{BuilderCall, Name, NameBuilder, RelativeName};
use domain_wire::IpAddr;
use octseq::{OctetsFrom, ShortBuf};
use std::alloc::Global;
use std::process::Abort;

/// Returns 1 where octets were refused because allocation failed, else 0. Octets that weren't refused are `wanted`.
fn refused<E: PartialEq + Drop>(
    rt: &impl Abort,
    made: Result<Vec<u8>, E>,
    short: E,
    wanted: &[u8],
) -> u8 {
    match made {
        Ok(octets) => {
            assert!(rt; octets.as_slice() == wanted);
            0
        }
        Err(error) => {
            assert!(rt; error == short);
            1
        }
    }
}

/// How many of the calls that read an absolute name were refused.
fn read_absolute(rt: &impl Abort, alloc: Global) -> u8 {
    let text = "www.Example.com";
    let by_str = refused(
        rt,
        octets_of(Name::vec_from_str(alloc, text)),
        FromStrError::ShortBuf,
        WWW,
    );
    let read: Result<Name<Vec<u8>>, FromStrError> = Name::from_chars(alloc, text.chars());
    let by_chars = refused(rt, octets_of(read), FromStrError::ShortBuf, WWW);
    let symbols = [Symbol::Char('a'), Symbol::DecimalEscape(0)];
    let read: Result<Name<Vec<u8>>, FromStrError> = Name::from_symbols(
        alloc,
        symbols.iter().copied(),
    );
    let by_symbols = refused(rt, octets_of(read), FromStrError::ShortBuf, b"\x02a\0\0");
    by_str.saturating_add(by_chars).saturating_add(by_symbols)
}

/// How many of the calls that read a relative name were refused.
fn read_relative(rt: &impl Abort, alloc: Global) -> u8 {
    let text = "www.Example";
    let wanted = b"\x03www\x07Example".as_slice();
    let short = RelativeFromStrError::FromStr(FromStrError::ShortBuf);
    let read = RelativeName::vec_from_str(alloc, text);
    let by_str = refused(rt, relative_octets_of(read), short, wanted);
    let read: Result<RelativeName<Vec<u8>>, RelativeFromStrError> = RelativeName::from_chars(
        alloc,
        text.chars(),
    );
    by_str.saturating_add(refused(rt, relative_octets_of(read), short, wanted))
}

#[test]
fn texts_are_read_or_refused(rt: HostRuntime) {
    let absolute = read_absolute(&rt, rt.alloc());
    let relative = read_relative(&rt, rt.alloc());
    assert!(rt; absolute.saturating_add(relative) <= MOST_REFUSED);
}

/// The name of an address, and a relative name with the root after it.
fn make_names(rt: &impl Abort, alloc: Global) -> u8 {
    let address = IpAddr::from([192u8, 0, 2, 1]);
    let wanted = b"\x011\x012\x010\x03192\x07in-addr\x04arpa\0".as_slice();
    let reverse: Result<Name<Vec<u8>>, PushError> = Name::reverse_from_addr(alloc, address);
    let count = refused(rt, octets_of(reverse), PushError::ShortBuf, wanted);
    let held: Result<RelativeName<Vec<u8>>, ShortBuf> = RelativeName::try_octets_from(
        alloc,
        relative(rt, b"\x03www\x07Example\x03com"),
    );
    match held {
        Ok(name) => {
            let made = octets_of(name.into_absolute());
            count.saturating_add(refused(rt, made, PushError::ShortBuf, WWW))
        }
        Err(_) => count.saturating_add(1),
    }
}

#[test]
fn names_of_addresses_and_of_relative_names_are_made_or_refused(rt: HostRuntime) {
    assert!(rt; make_names(&rt, rt.alloc()) <= MOST_REFUSED);
}

/// Makes a call, and makes it again where it was refused, which leaves the builder.
fn insist(rt: &impl Abort, builder: &mut NameBuilder<Vec<u8>>, call: BuilderCall<'_>) -> u8 {
    let before = (builder.len(), builder.in_label());
    if builder.apply_all(&[call]) == 1 {
        return 0;
    }
    assert!(rt; (builder.len(), builder.in_label()) == before);
    assert!(rt; builder.apply_all(&[call]) == 1);
    1
}

#[test]
fn builders_go_on_after_a_refused_call(rt: HostRuntime) {
    let mut builder = NameBuilder::new_vec(rt.alloc());
    let mut count: u8 = 0;
    for call in [
        BuilderCall::Push(b'w'),
        BuilderCall::AppendSlice(b"ww"),
        BuilderCall::EndLabel,
        BuilderCall::AppendLabel(b"Example"),
        BuilderCall::PushSymbol(Symbol::Char('c')),
        BuilderCall::AppendName(relative(&rt, b"\x03one\x03two")),
        BuilderCall::AppendDecU8Label(192),
        BuilderCall::AppendHexDigitLabel(0xfb),
    ] {
        count = count.saturating_add(insist(&rt, &mut builder, call));
    }
    let wanted = b"\x03www\x07Example\x01c\x03one\x03two\x03192\x01B".as_slice();
    assert!(rt; builder.as_slice() == wanted);
    match builder.clone(rt.alloc()) {
        Ok(copy) => assert!(rt; copy.finish().as_slice() == wanted),
        Err(_) => count = count.saturating_add(1),
    }
    match builder.into_name() {
        Ok(name) => assert!(rt; name.into_relative().as_slice() == wanted),
        Err(error) => {
            assert!(rt; error == PushError::ShortBuf);
            count = count.saturating_add(1);
        }
    }
    assert!(rt; count <= MOST_REFUSED);
}

#[test]
fn in_room_that_was_given_nothing_is_refused(rt: HostRuntime) {
    let Ok(mut builder) = NameBuilder::vec_with_capacity(rt.alloc(), 17) else {
        assert!(rt; MOST_REFUSED == 1);
        return;
    };
    assert!(rt; builder.append_label(b"www").is_ok());
    assert!(rt; builder.append_chars("Example.com".chars()).is_ok());
    match builder.into_name() {
        Ok(name) => assert!(rt; name.as_slice() == WWW),
        Err(_) => panic!(rt; "no room"),
    }
}

/// Appends a text by `apply_all` to a builder without labels. Where that is refused, it isn't counted, and the symbols
/// that stay are followed by the others of the text.
fn insist_on_text(rt: &impl Abort, builder: &mut NameBuilder<Vec<u8>>, text: &str) -> u8 {
    if builder.apply_all(&[BuilderCall::AppendChars(text)]) == 1 {
        return 0;
    }
    let open = usize::from(builder.in_label());
    let taken = builder.len().saturating_sub(open);
    for (at, char) in text.chars().enumerate() {
        if at >= taken {
            assert!(rt; builder.push_symbol(Symbol::Char(char)).is_ok());
        }
    }
    1
}

#[test]
fn a_text_goes_on_after_a_refused_symbol(rt: HostRuntime) {
    let mut builder = NameBuilder::new_vec(rt.alloc());
    let count = insist_on_text(&rt, &mut builder, "www.Example.com");
    assert!(rt; builder.in_label());
    assert!(rt; builder.finish().as_slice() == b"\x03www\x07Example\x03com".as_slice());
    assert!(rt; count <= MOST_REFUSED);
}
