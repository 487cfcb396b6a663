//! Callers that are generic over builders, octets and names: the traits' clauses suffice for them.
ghost use Rattle.std.specs.Prelude.{◌≡◌, ◌≤◌, ◌<◌, ◌+◌, ◌∷◌, ◌↔◌, ℕ, List, length, slice_set};
ghost use Rattle.std.specs.Prelude.{IsOk, IsErr, IfOk, IfSome, IsTrue, MatchBool};
ghost use Rattle.domain_label.specs.Lowercase.{lowercase_labels};
ghost use Rattle.domain_label.specs.Labels.{label_octets};
ghost use Rattle.domain_label.specs.Wire.{wire};
ghost use Rattle.domain_list.specs.Count.{rrsig_labels};
ghost use Rattle.domain_list.specs.Order.{SameLabels};
ghost use Rattle.domain_parsed.specs.ParsedNames.{parsed_labels};

use crate::names::{LOWER_WWW, SCATTERED, WWW, absolute, parsed};
use arrayvec::ArrayVec;
use domain_label::Label;
use domain_list::AbsoluteLabels;
use domain_parsed::ParsedName;
use domain_traits::ToName;
use domain_wire::Compose;
use octseq::{
    EmptyBuilder, FreezeBuilder, Octets, OctetsBuilder, OctetsFrom, OctetsMut, SameOctets,
    ShortBuf, Truncate,
};
use std::alloc::Global;

/// Under a fixed limit an append is refused exactly where the limit would be passed.
fn append_under_limit<B: OctetsBuilder>(
    builder: &mut B,
    octets: &[u8],
) -> Result<(), B::AppendError>
    ensures fits { IfSome B.limit (λ n.
        length (B.octets builder.old) + length octets.now ≤ n → IsOk result) }
    ensures passes { IfSome B.limit (λ n.
        n < length (B.octets builder.old) + length octets.now → IsErr result) }
{
    builder.append_slice(octets)
}

/// Writes one octet in place.
fn write_octet<T: OctetsMut>(octets: &mut T, offset: usize, octet: u8)
    requires { offset < length (T.octets octets.old) }
    ensures octets { T.octets octets.new ≡ slice_set (T.octets octets.old) offset octet }
    ensures capacity { T.capacity octets.new ≡ T.capacity octets.old }
{
    octets.as_slice_mut()[offset] = octet;
}

/// The room that a new builder has.
fn room<B: EmptyBuilder>() -> Option<usize>
    ensures { result ≡ B.ROOM }
{
    B::ROOM
}

/// What wraps octets and is itself no list of octets, as a name.
#[derive(Drop)]
struct Short<Octs: Octets> {
    octets: Octs,
    ghost short: { length (Octs.octets octets) ≤ 4 },
}

impl<Src: Octets, Octs: SameOctets<Src>> OctetsFrom<Short<Src>> for Short<Octs> {
    type Error = Octs::Error;

    ghost same = { λ source made. Octs.octets made.octets ≡ Src.octets source.octets };

    ghost may_refuse = { λ source. Octs.may_refuse source.octets };

    fn try_octets_from(alloc: Global, source: Short<Src>) -> Result<Short<Octs>, Octs::Error> {
        let Short { octets } = source;
        let octets = Octs::try_octets_from(alloc, octets)?;
        Ok(Short { octets })
    }
}

/// A builder with a fixed limit takes a label that fits.
fn compose_under_limit<B: OctetsBuilder>(label: Label, target: &mut B) -> Result<(), B::AppendError>
    ensures fits { IfSome B.limit
        (λ n.
        length (B.octets target.old) + (1 + length (label_octets label.entry)) ≤ n → IsOk result) }
{
    label.compose(target)
}

/// Whether three names are the same without case.
fn all_same<'a, A: AbsoluteLabels<'a>, B: AbsoluteLabels<'a>, C: AbsoluteLabels<'a>>(
    a: &'a A,
    b: &'a B,
    c: &'a C,
) -> bool
    ensures { IsTrue result ↔ (SameLabels (A.labels a.now) (B.labels b.now)
        × SameLabels (B.labels b.now) (C.labels c.now)) }
{
    a.name_eq(b) && b.name_eq(c)
}

/// What a name of any kind has for a signature: its canonical octets and its number of labels.
fn signed<'a, N: AbsoluteLabels<'a>>(name: &'a N, alloc: Global) -> Result<(Vec<u8>, u8), ShortBuf>
    ensures octets { IfOk result
        (λ both. both.0.items ≡ wire (lowercase_labels (N.labels name.now))) }
    ensures count { IfOk result (λ both. both.1 ≡ rrsig_labels (N.labels name.now)) }
{
    let mut octets = Vec::new(alloc);
    name.compose_canonical(&mut octets)?;
    Ok((octets, name.rrsig_label_count()))
}

/// Leaves out the first label, as `parent` does.
fn drop_first(name: &mut ParsedName<&[u8]>) -> bool
    ensures { MatchBool result
        ((l : List ℕ) × (parsed_labels name.old ≡ l ∷ parsed_labels name.new))
        (name.new ≡ name.old) }
{
    name.split_first().is_some()
}

#[test]
fn builders_take_what_is_under_their_limit(rt: HostRuntime) {
    assert!(rt; room::<ArrayVec<u8, 3>>() == Some(3) && room::<Vec<u8>>().is_none());
    let mut array = ArrayVec::<u8, 3>::empty(rt.alloc());
    for (octets, fits) in [
        (b"ab".as_slice(), true),
        (b"cd", false),
        (b"c", true),
        (b"d", false),
        (b"", true),
    ] {
        let taken = append_under_limit(&mut &mut array, octets).is_ok();
        assert!(rt; taken == fits);
    }
    assert!(rt; array.freeze().as_slice() == b"abc".as_slice());
}

#[test]
fn octets_are_written_in_place(rt: HostRuntime) {
    let mut array = ArrayVec::<u8, 4>::from([1, 2, 3, 4]);
    write_octet(&mut array, 1, 9);
    write_octet(&mut &mut array, 2, 8);
    Truncate::truncate(&mut &mut array, 3);
    assert!(rt; Octets::as_slice(&&mut array) == [1, 9, 8].as_slice());
}

#[test]
fn a_wrapper_takes_over_octets(rt: HostRuntime) {
    for (octets, fits) in [(b"abc".as_slice(), true), (b"abcd", false)] {
        assert!(rt; octets.len() <= 4);
        match Short::<ArrayVec<u8, 3>>::try_octets_from(rt.alloc(), Short { octets }) {
            Ok(made) => assert!(rt; fits && Octets::as_slice(&made.octets) == octets),
            Err(ShortBuf) => assert!(rt; !fits),
        }
    }
}

#[test]
fn labels_are_composed_under_a_limit(rt: HostRuntime) {
    let Ok((label, _)) = Label::split_from(b"\x0312C") else {
        panic!(rt; "no label");
    };
    let mut octets = ArrayVec::<u8, 8>::new();
    assert!(rt; compose_under_limit(label, &mut octets).is_ok());
    assert!(rt; compose_under_limit(label, &mut octets).is_ok());
    assert!(rt; compose_under_limit(Label::root(), &mut octets).is_err());
    assert!(rt; octets.as_slice() == b"\x0312C\x0312C".as_slice());
}

#[test]
fn callers_compare_names_of_any_kind(rt: HostRuntime) {
    let name = parsed(&rt, SCATTERED, 15);
    assert!(rt; all_same(&absolute(&rt, WWW), &name, &&absolute(&rt, LOWER_WWW)));
}

#[test]
fn callers_sign_names_of_any_kind(rt: HostRuntime) {
    match signed(&parsed(&rt, SCATTERED, 15), rt.alloc()) {
        Ok((octets, count)) => assert!(rt; octets.as_slice() == LOWER_WWW && count == 3),
        Err(_) => panic!(rt; "memory"),
    }
}

#[test]
fn a_name_is_shortened_to_the_root(rt: HostRuntime) {
    let mut name = parsed(&rt, SCATTERED, 15);
    for left in [3usize, 2, 1] {
        assert!(rt; drop_first(&mut name));
        assert!(rt; name.label_count() == left);
    }
    assert!(rt; !drop_first(&mut name) && name.is_root());
}

#[test]
fn small_arrays_stay_empty_where_values_do_not_fit(rt: HostRuntime) {
    let Ok(label) = Label::from_slice(b"www") else {
        panic!(rt; "no label");
    };
    let mut three = ArrayVec::<u8, 3>::new();
    assert!(rt; 1u32.compose(&mut three).is_err() && three.is_empty());
    assert!(rt; label.compose(&mut three).is_err() && three.is_empty());
    let mut four = ArrayVec::<u8, 4>::new();
    assert!(rt; 1u32.compose(&mut four).is_ok());
    assert!(rt; four.as_slice() == b"\0\0\0\x01".as_slice());
}
