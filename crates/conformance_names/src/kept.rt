//! Names over octets of their own: made, copied, and taken apart.

use arrayvec::ArrayVec;
use conformance_labels::{Answer, Fail};
use domain_label::Label;
use domain_name::{Name, RelativeName};
use octseq::{Octets, OctetsFrom, ShortBuf};
use std::borrow::CowSlice;

/// `keep NAME`: the name over a `Vec`, and then without its root label.
pub fn put_keep(out: &Answer, octets: &[u8]) {
    let owned = out.copy_of(octets);
    match Name::from_octets(owned) {
        Ok(name) => put_kept(out, name, octets),
        Err(_) => out.fail(Fail::Bad),
    }
    is_kept_in_an_array(out, octets);
    is_made_of_slice(out, octets);
}

fn put_kept(out: &Answer, name: Name<Vec<u8>>, octets: &[u8]) {
    match name.clone(out.alloc()) {
        Ok(copy) => put_copied(out, copy.into_octets(), octets),
        Err(_) => out.fail(Fail::Memory),
    }
    out.agree_all(
        b"for_ref;for_slice;as_octets",
        &[
            name.for_ref().as_slice() == octets,
            name.for_slice().as_slice() == octets,
            name.as_octets().as_slice() == octets,
        ],
    );
    out.put_hex_after(b" ", name.into_relative().as_slice());
}

/// The octets of a copy are those of the name.
fn put_copied(out: &Answer, copy: Vec<u8>, octets: &[u8]) {
    out.put_hex(copy.as_slice());
    out.same(copy.as_slice(), octets, b"into_octets");
}

fn is_kept_in_an_array(out: &Answer, octets: &[u8]) {
    let Ok(held) = ArrayVec::<u8, 255>::try_from(octets) else {
        return out.fail(Fail::Bad);
    };
    let Ok(name) = Name::from_octets(held) else {
        return out.wrong(b"from_octets");
    };
    match name.clone(out.alloc()) {
        Ok(copy) => out.same(copy.as_slice(), octets, b"clone"),
        Err(_) => out.wrong(b"clone"),
    }
}

/// The name in octets of each kind.
fn is_made_of_slice(out: &Answer, octets: &[u8]) {
    let Ok(name) = Name::from_slice(octets) else {
        return out.fail(Fail::Bad);
    };
    match name_over_vec(out, name) {
        Ok(made) => out.same(made.as_slice(), octets, b"try_octets_from"),
        Err(_) => out.fail(Fail::Memory),
    }
    match Name::<ArrayVec<u8, 255>>::try_octets_from(out.alloc(), name) {
        Ok(made) => out.same(made.as_slice(), octets, b"try_octets_from"),
        Err(_) => out.wrong(b"try_octets_from"),
    }
    match Name::<CowSlice<'_, u8>>::try_octets_from(out.alloc(), name) {
        Ok(made) => out.same(made.as_slice(), octets, b"try_octets_from"),
        Err(_) => out.wrong(b"try_octets_from"),
    }
}

fn name_over_vec(out: &Answer, name: Name<&[u8]>) -> Result<Name<Vec<u8>>, ShortBuf> {
    Name::try_octets_from(out.alloc(), name)
}

/// `relkeep NAME`: the name over a `Vec`.
pub fn put_relkeep(out: &Answer, octets: &[u8]) {
    let owned = out.copy_of(octets);
    match RelativeName::from_octets(owned) {
        Ok(name) => put_relative_kept(out, name, octets),
        Err(_) => out.fail(Fail::Bad),
    }
    is_relative_in_an_array(out, octets);
}

fn put_relative_kept(out: &Answer, name: RelativeName<Vec<u8>>, octets: &[u8]) {
    match name.clone(out.alloc()) {
        Ok(copy) => put_copied(out, copy.into_octets(), octets),
        Err(_) => out.fail(Fail::Memory),
    }
    out.agree_all(
        b"for_ref;for_slice;as_octets",
        &[
            name.for_ref().as_slice() == octets,
            name.for_slice().as_slice() == octets,
            name.as_octets().as_slice() == octets,
        ],
    );
}

fn is_relative_in_an_array(out: &Answer, octets: &[u8]) {
    let Ok(name) = RelativeName::from_slice(octets) else {
        return out.fail(Fail::Bad);
    };
    match RelativeName::<ArrayVec<u8, 255>>::try_octets_from(out.alloc(), name) {
        Ok(made) => match made.clone(out.alloc()) {
            Ok(copy) => out.same(copy.as_slice(), octets, b"clone"),
            Err(_) => out.wrong(b"clone"),
        },
        Err(_) => out.wrong(b"try_octets_from"),
    }
}

/// `root`
pub fn put_root(out: &Answer) {
    let root = Name::root_ref();
    out.put_hex(root.as_slice());
    out.agree_all(
        b"root_slice;root of labels;MAX_LEN;MAX_LEN",
        &[
            Name::root_slice() == root,
            Label::root().as_slice().is_empty(),
            Label::MAX_LEN == 63,
            Name::<&'static [u8]>::MAX_LEN == 255,
        ],
    );
    match Name::root_vec(out.alloc()) {
        Ok(made) => out.same(made.as_slice(), root.as_slice(), b"root_vec"),
        Err(_) => out.fail(Fail::Memory),
    }
    match Name::<ArrayVec<u8, 1>>::root(out.alloc()) {
        Ok(made) => out.same(made.as_slice(), root.as_slice(), b"root"),
        Err(_) => out.wrong(b"root"),
    }
    match Name::<ArrayVec<u8, 0>>::root(out.alloc()) {
        Ok(_) => out.wrong(b"root"),
        Err(error) => {
            out.put_text_after(b" ", error);
        }
    }
}

/// `empty`
pub fn put_empty(out: &Answer) {
    let empty = RelativeName::empty_ref();
    out.put_hex(empty.as_slice());
    out.agree(RelativeName::empty_slice() == empty, b"empty_slice");
    match RelativeName::empty_vec(out.alloc()) {
        Ok(made) => out.same(made.as_slice(), empty.as_slice(), b"empty_vec"),
        Err(_) => out.wrong(b"empty_vec"),
    }
    match RelativeName::<ArrayVec<u8, 0>>::empty(out.alloc()) {
        Ok(made) => out.same(made.as_slice(), empty.as_slice(), b"empty"),
        Err(_) => out.wrong(b"empty"),
    }
}

/// `wildcard`
pub fn put_wildcard(out: &Answer) {
    let wildcard = RelativeName::wildcard_ref();
    out.put_hex(wildcard.as_slice());
    out.agree(
        RelativeName::wildcard_slice() == wildcard,
        b"wildcard_slice",
    );
    match RelativeName::wildcard_vec(out.alloc()) {
        Ok(made) => out.same(made.as_slice(), wildcard.as_slice(), b"wildcard_vec"),
        Err(_) => out.fail(Fail::Memory),
    }
    match RelativeName::<ArrayVec<u8, 2>>::wildcard(out.alloc()) {
        Ok(made) => out.same(made.as_slice(), wildcard.as_slice(), b"wildcard"),
        Err(_) => out.wrong(b"wildcard"),
    }
    match RelativeName::<ArrayVec<u8, 1>>::wildcard(out.alloc()) {
        Ok(_) => out.wrong(b"wildcard"),
        Err(error) => {
            out.put_text_after(b" ", error);
        }
    }
}
