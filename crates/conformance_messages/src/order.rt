//! Two data of any type: their order, and whether they are equal.

use conformance_labels::{Answer, Fail, Fields};
use domain_any_rdata::{AllRecordData, OwnedRecordData};
use domain_rdata::{ParseAnyRecordData, Rtype};
use domain_traits::FlattenInto;
use domain_wire::CanonicalOrd;
use octseq::Parser;
use std::cmp::Ordering;
use std::hash::{DefaultHasher, Hash, Hasher};

/// `order TYPE OCTETS TYPE OCTETS`: the canonical order of the two, and whether they are equal. Over octets of their
/// own they must be the same, and what is equal must have one hash.
pub fn put_order(out: &Answer, fields: &Fields<'_>) {
    let (first_type, second_type) = (fields.number16(1, out), fields.number16(3, out));
    let (first, second) = (fields.octets(2, out), fields.octets(4, out));
    let first = read(out, first_type, first.as_slice());
    let second = read(out, second_type, second.as_slice());
    if let (Some(first), Some(second)) = (first, second) {
        put_both(out, first, second);
    }
}

/// Data of this type that is all of the octets. `None` if an error was written.
fn read<'a>(out: &Answer, rtype: u16, octets: &'a [u8]) -> Option<AllRecordData<'a>> {
    let mut parser = Parser::from_ref(octets);
    match AllRecordData::parse_any_rdata(Rtype::from_int(rtype), &mut parser) {
        Ok(data) => Some(data),
        Err(error) => {
            out.put_text_after(b"err ", error);
            None
        }
    }
}

/// The order of the two, and whether they are equal.
fn put_both(out: &Answer, first: AllRecordData<'_>, second: AllRecordData<'_>) {
    let order = first.canonical_cmp(&second);
    let is_equal = first == second;
    out.put(match order {
        Ordering::Less => b"less".as_slice(),
        Ordering::Equal => b"equal".as_slice(),
        Ordering::Greater => b"greater".as_slice(),
    });
    out.put(if is_equal { b" same" } else { b" other" });
    let one_hash = hash_of(&first) == hash_of(&second);
    out.agree(one_hash || !is_equal, b"hash");
    let owned: Option<(OwnedRecordData, OwnedRecordData)> = match (
        first.try_flatten_into(out.alloc()),
        second.try_flatten_into(out.alloc()),
    ) {
        (Ok(first), Ok(second)) => Some((first, second)),
        _ => None,
    };
    match owned {
        Some((first, second)) => {
            out.agree(first.canonical_cmp(&second) == order, b"canonical_cmp");
            out.agree((first == second) == is_equal, b"eq");
        }
        None => out.fail(Fail::Memory),
    }
}

/// What the data writes to a hasher, as one number.
fn hash_of(data: &AllRecordData<'_>) -> u64 {
    let mut hasher = DefaultHasher::new();
    data.hash(&mut hasher);
    hasher.finish()
}
