//! Texts that RFCs have as examples.
use crate::{FieldText, Shown};
use domain_descriptor::FieldKind;

/// Whether a field with these octets, which isn't the first, has this text.
fn is_shown(rt: &HostRuntime, kind: FieldKind, octets: &[u8], expected: &str) -> bool {
    let Some(text) = FieldText::read(kind, octets) else {
        return false;
    };
    let shown = Shown { text, first: false };
    match format!(in rt.alloc(); "{shown}") {
        Ok(made) => made.as_str() == expected,
        Err(_) => false,
    }
}

/// An NSEC3 record of RFC 5155, appendix A.
#[test]
fn hashed_denial(rt: HostRuntime) {
    let salt = b"\x04\xaa\xbb\xcc\xdd";
    assert!(rt; is_shown(&rt, FieldKind::CountedBase16, salt, " aabbccdd"));
    assert!(rt; is_shown(&rt, FieldKind::CountedBase16, b"\x00", " -"));
    let hash =
        b"\x14\x17\x4e\xb2\x40\x9f\xe2\x8b\xcb\x48\x87\xa1\x83\x6f\x95\x7f\x0a\x84\x25\xe2\x7b";
    let text = " 2t7b4g4vsa5smi47k61mv5bv1a22bojr";
    assert!(rt; is_shown(&rt, FieldKind::CountedBase32, hash, text));
    let types = b"\x00\x07\x22\x01\x00\x00\x00\x02\x90";
    let text = " NS SOA MX RRSIG DNSKEY NSEC3PARAM";
    assert!(rt; is_shown(&rt, FieldKind::OptionalTypeBitmaps, types, text));
    assert!(rt; is_shown(&rt, FieldKind::OptionalTypeBitmaps, b"", ""));
    assert!(rt; !is_shown(&rt, FieldKind::TypeBitmaps, b"", ""));
}

/// The vectors of base32hex (RFC 4648, 10).
#[test]
fn base32(rt: HostRuntime) {
    assert!(rt; is_shown(&rt, FieldKind::CountedBase32, b"\x01f", " co"));
    assert!(rt; is_shown(&rt, FieldKind::CountedBase32, b"\x02fo", " cpng"));
    assert!(rt; is_shown(&rt, FieldKind::CountedBase32, b"\x03foo", " cpnmu"));
    assert!(rt; is_shown(&rt, FieldKind::CountedBase32, b"\x04foob", " cpnmuog"));
    assert!(rt; is_shown(&rt, FieldKind::CountedBase32, b"\x05fooba", " cpnmuoj1"));
    assert!(rt; is_shown(&rt, FieldKind::CountedBase32, b"\x06foobar", " cpnmuoj1e8"));
}

/// Strings: each between quotes, with a space between two. One is cut.
#[test]
fn strings(rt: HostRuntime) {
    let octets = b"\x02a\"\x00\x03b\xffc";
    assert!(rt;
        is_shown(
            &rt,
            FieldKind::CharStrings,
            octets,
            " \"a\\\"\" \"\" \"b\\255c\""
        )
    );
    assert!(rt; FieldText::read(FieldKind::CharString, b"\x02a").is_none());
    assert!(rt; is_shown(&rt, FieldKind::OptionalString, b"", ""));
}
