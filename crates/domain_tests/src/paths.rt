//! Traits, iterators and names at work, by the public paths of names alone.

use domain::base::name::{
    AbsoluteLabels, Chain, ChainIter, DisplayWithDot, FlattenInto, LongLabelError, Name, NameIter,
    NameLabels, ParsedName, ParsedNameIter, ParsedSuffixIter, RelativeLabels, RelativeName,
    SliceLabelsIter, StripSuffixError, SuffixIter, ToLabelIter, ToName, ToRelativeName,
};
use octseq::{Parser, ShortBuf};
use std::alloc::Global;

/// The iterators of labels and of suffixes.
pub type Iterators<'a> = (
    NameIter<'a>,
    SuffixIter<'a>,
    ParsedNameIter<'a>,
    ParsedSuffixIter<'a>,
    SliceLabelsIter<'a>,
    ChainIter<'a, NameIter<'a>, NameIter<'a>>,
);

pub type Errors = (LongLabelError, StripSuffixError);

/// How long an absolute name of any kind is, and how many labels a signature counts.
fn absolute_paths<'a, N: AbsoluteLabels<'a> + ToName<'a>>(name: &'a N) -> (u16, u8) {
    (
        NameLabels::compose_len(name),
        ToName::rrsig_label_count(name),
    )
}

/// Whether a relative name of any kind has labels, by two calls.
fn relative_paths<'a, N: RelativeLabels<'a> + ToRelativeName<'a>>(name: &'a N) -> (bool, bool) {
    let first = ToLabelIter::iter_labels(name).next();
    (ToRelativeName::is_empty(name), first.is_none())
}

/// A name in a message made flat, by the trait.
fn flat(name: ParsedName<&[u8]>, alloc: Global) -> Result<Name<Vec<u8>>, ShortBuf> {
    FlattenInto::flatten_into(name, alloc)
}

#[test]
fn traits_by_their_paths(rt: HostRuntime) {
    let root = Name::root_ref();
    assert!(rt; absolute_paths(&root) == (1, 0));
    assert!(rt; relative_paths(&RelativeName::wildcard_ref()) == (false, false));
    assert!(rt; flat(ParsedName::from(root), rt.alloc()).is_ok());
}

/// The chain of two names.
fn chain(
    left: RelativeName<&'static [u8]>,
) -> Option<Chain<RelativeName<&'static [u8]>, Name<&'static [u8]>>> {
    Chain::new(left, Name::root_ref()).ok()
}

#[test]
fn a_chain_is_shown(rt: HostRuntime) {
    let Some(chain) = chain(RelativeName::wildcard_ref()) else {
        panic!(rt; "too long");
    };
    let mut shown = String::new(rt.alloc());
    assert!(rt; write!(shown, "{}", DisplayWithDot::new(&chain)).is_ok());
    assert!(rt; shown.as_str() == "*.");
}

/// The chain of two relative names and the root, `None` where one isn't a name.
fn in_parts(
    left: &'static [u8],
    right: &'static [u8],
) -> Option<
    Chain<Chain<RelativeName<&'static [u8]>, RelativeName<&'static [u8]>>, Name<&'static [u8]>>,
> {
    let left = RelativeName::from_slice(left).ok()?;
    let right = RelativeName::from_slice(right).ok()?;
    let both = left.chain(right).ok()?;
    both.chain(Name::root_ref()).ok()
}

#[test]
fn a_name_equals_a_chain_of_its_parts(rt: HostRuntime) {
    let Ok(name) = Name::from_slice(b"\x03www\x07example\x03com\0") else {
        panic!(rt; "no name");
    };
    let rows = [
        (b"\x03www", b"\x07example\x03com", true),
        (b"\x03wWw", b"\x07eXAMple\x03coM", true),
        (b"\x03www", b"\x073xample\x03com", false),
    ];
    for (left, right, is_equal) in rows {
        let Some(chain) = in_parts(left, right) else {
            panic!(rt; "no chain");
        };
        assert!(rt; name.name_eq(&chain) == is_equal);
    }
}

/// Whether a name in a message begins with the labels `www` and `example`, and whether with these and `com`.
fn begins(message: &'static [u8], at: usize) -> Option<(bool, bool)> {
    let mut parser = Parser::from_ref(message);
    parser.seek(at).ok()?;
    let name = ParsedName::parse(&mut parser).ok()?;
    let www = RelativeName::from_slice(b"\x03www").ok()?;
    let two = www
        .chain(RelativeName::from_slice(b"\x07example").ok()?)
        .ok()?;
    let with_two = name.starts_with(&two);
    let three = two.chain(RelativeName::from_slice(b"\x03com").ok()?).ok()?;
    Some((with_two, name.starts_with(&three)))
}

#[test]
fn a_name_in_a_message_begins_with_a_chain(rt: HostRuntime) {
    let rows: [(&'static [u8], usize, bool); 4] = [
        (b"\0", 0, false),
        (b"\x03www\x07example\x03com\0", 0, true),
        (b"\x03com\0\x03www\x07example\xc0\0", 5, true),
        (b"\x03com\0\x07example\xc0\0\x03www\xc0\x05", 15, true),
    ];
    for (message, at, begins_so) in rows {
        assert!(rt; begins(message, at) == Some((begins_so, begins_so)));
    }
}
