//! Record data is equal where its canonical forms are: the type decides whether names keep their case there (RFC 4034,
//! 6.2; RFC 6840, 5.1; RFC 3597, 6).

use crate::record_types::{MX, NSEC};
use domain_data::{Mx, Nsec};
use domain_parsed::ParsedName;
use domain_rdata::{ParseRecordData, Rtype};
use domain_svcb::{Https, Svcb};
use domain_wire::CanonicalOrd;
use octseq::Parser;
use std::process::Abort;

const SVCB: u16 = 64;

const HTTPS: u16 = 65;

/// A name in a message.
type Read<'a> = ParsedName<&'a [u8]>;

/// The data of the type that is in these octets.
fn read<'a, D: ParseRecordData<'a> + Drop>(rt: &impl Abort, rtype: u16, octets: &'a [u8]) -> D {
    let mut parser = Parser::from_ref(octets);
    match D::parse_rdata(Rtype::from_int(rtype), &mut parser) {
        Ok(Some(data)) => data,
        _ => panic!(rt; "no data of the type"),
    }
}

/// Whether the data in these octets is equal. The canonical order must say so too.
fn are_equal<'a, D: ParseRecordData<'a> + CanonicalOrd<D> + PartialEq + Drop>(
    rt: &impl Abort,
    rtype: u16,
    first: &'a [u8],
    second: &'a [u8],
) -> bool {
    let first: D = read(rt, rtype, first);
    let second: D = read(rt, rtype, second);
    let is_equal = first == second;
    assert!(rt; first.canonical_cmp(&second).is_eq() == is_equal);
    is_equal
}

#[test]
fn case_of_an_mx_exchange_does_not_count(rt: HostRuntime) {
    let mail = b"\0\x0A\x04mail\x02ex\0".as_slice();
    let mixed = b"\0\x0A\x04MAIL\x02eX\0".as_slice();
    let other = b"\0\x0A\x04main\x02ex\0".as_slice();
    let later = b"\0\x14\x04mail\x02ex\0".as_slice();
    assert!(rt; are_equal::<Mx<Read<'_>>>(&rt, MX, mail, mail));
    assert!(rt; are_equal::<Mx<Read<'_>>>(&rt, MX, mail, mixed));
    assert!(rt; !are_equal::<Mx<Read<'_>>>(&rt, MX, mail, other));
    assert!(rt; !are_equal::<Mx<Read<'_>>>(&rt, MX, mail, later));
}

#[test]
fn case_of_the_next_name_of_nsec_counts(rt: HostRuntime) {
    let next = b"\x04mail\x02ex\0\0\x01\x40".as_slice();
    let mixed = b"\x04Mail\x02ex\0\0\x01\x40".as_slice();
    let types = b"\x04mail\x02ex\0\0\x01\x60".as_slice();
    assert!(rt; are_equal::<Nsec<&[u8], Read<'_>>>(&rt, NSEC, next, next));
    assert!(rt; !are_equal::<Nsec<&[u8], Read<'_>>>(&rt, NSEC, next, mixed));
    assert!(rt; !are_equal::<Nsec<&[u8], Read<'_>>>(&rt, NSEC, next, types));
}

#[test]
fn case_of_the_target_of_svcb_and_https_counts(rt: HostRuntime) {
    let target = b"\0\x01\x03www\x02ex\0\0\x03\0\x02\x01\xBB".as_slice();
    let mixed = b"\0\x01\x03WWW\x02ex\0\0\x03\0\x02\x01\xBB".as_slice();
    let port = b"\0\x01\x03www\x02ex\0\0\x03\0\x02\x01\xBC".as_slice();
    assert!(rt; are_equal::<Svcb<&[u8], Read<'_>>>(&rt, SVCB, target, target));
    assert!(rt; !are_equal::<Svcb<&[u8], Read<'_>>>(&rt, SVCB, target, mixed));
    assert!(rt; !are_equal::<Svcb<&[u8], Read<'_>>>(&rt, SVCB, target, port));
    assert!(rt; are_equal::<Https<&[u8], Read<'_>>>(&rt, HTTPS, target, target));
    assert!(rt; !are_equal::<Https<&[u8], Read<'_>>>(&rt, HTTPS, target, mixed));
    assert!(rt; !are_equal::<Https<&[u8], Read<'_>>>(&rt, HTTPS, target, port));
}
