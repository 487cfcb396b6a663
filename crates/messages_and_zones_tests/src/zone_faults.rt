//! Why records make no zone, by the conditions of the RFCs.
//!
//! The RRsets of a zone are in canonical order: the first two are the name servers and the SOA of its apex. A fault
//! of an RRset has its index in this order.

use crate::record_types::{A, CNAME, DNAME, DS, MX, NS, NSEC, RRSIG, SOA, TXT};
use crate::zones::{Row, SOA_DATA, builder, built, copy, insert, insert_all, internet, owner};
use domain_header::Class;
use domain_zone::{BuildError, InsertError, RrsetFault, ZoneFault};
use std::alloc::Global;
use std::process::Abort;
use std::test::Fail;

const SERVER: &[u8] = b"\x02ns\x07example\x03com\0";

const ADDRESS: &[u8] = b"\xc0\0\x02\x01";

/// The fault of an RRset.
fn rrset(index: usize, fault: RrsetFault) -> Option<ZoneFault> {
    Some(ZoneFault::Rrset(index, fault))
}

/// Why there is no zone at an apex with these records and no others.
fn fault(rt: &impl Abort, alloc: Global, apex: &str, rows: &[Row]) -> Option<ZoneFault> {
    let mut builder = builder(rt, alloc, apex);
    insert_all(rt, alloc, &mut builder, rows);
    match builder.finish(alloc) {
        Ok(_) => None,
        Err(BuildError::Fault(fault)) => Some(fault),
        Err(BuildError::Memory) => panic!(rt; "no memory"),
    }
}

/// Why there is no zone at `example.` with an SOA, name servers and these records.
fn fault_beside(rt: &impl Abort, alloc: Global, rows: &[Row]) -> Option<ZoneFault> {
    match built(rt, alloc, "example.", rows) {
        Ok(_) => None,
        Err(BuildError::Fault(fault)) => Some(fault),
        Err(BuildError::Memory) => panic!(rt; "no memory"),
    }
}

/// Sees that an apex with these records and no others has this fault.
fn expect(rt: &impl Abort, alloc: Global, rows: &[Row], wanted: Option<ZoneFault>) {
    assert_eq!(rt; fault(rt, alloc, "example.", rows), wanted, "{wanted:?}");
}

/// Sees that these records have this fault beside an SOA and name servers.
fn expect_beside(rt: &impl Abort, alloc: Global, rows: &[Row], wanted: Option<ZoneFault>) {
    assert_eq!(rt; fault_beside(rt, alloc, rows), wanted, "{wanted:?}");
}

/// RFC 1034, 4.2.1; RFC 1035, 5.2; RFC 4035, 2.4.
#[test]
fn an_apex_has_one_soa_and_servers_and_no_ds(rt: HostRuntime) {
    let alloc = rt.alloc();
    let servers: Row = ("example.", NS, SERVER);
    let soa: Row = ("example.", SOA, SOA_DATA);
    let other_soa: Row = (
        "example.",
        SOA,
        b"\0\0\0\0\0\x02\0\0\x0e\x10\0\0\x03\x84\0\x09\x3a\x80\0\0\x0e\x10",
    );
    let ds: Row = ("example.", DS, b"\0\x01\x08\x02");
    let low_soa: Row = ("a.example.", SOA, SOA_DATA);
    expect(&rt, alloc, &[servers, soa, soa], None);
    expect(&rt, alloc, &[servers], Some(ZoneFault::NoSoa));
    expect(&rt, alloc, &[soa], Some(ZoneFault::NoServers));
    expect(&rt, alloc, &[], Some(ZoneFault::NoSoa));
    expect(&rt, alloc, &[servers, soa, ds], Some(ZoneFault::DsAtApex));
    let beside_soa = rrset(1, RrsetFault::Soa);
    expect(&rt, alloc, &[servers, soa, other_soa], beside_soa);
    let below_soa = rrset(2, RrsetFault::Soa);
    expect(&rt, alloc, &[servers, soa, low_soa], below_soa);
    expect(&rt, alloc, &[low_soa], rrset(0, RrsetFault::Soa));
}

/// RFC 2181, 10.1; RFC 4035, 2.5.
#[test]
fn what_cannot_be_beside_a_cname_is_a_fault(rt: HostRuntime) {
    let alloc = rt.alloc();
    let cname: Row = ("a.example.", CNAME, SERVER);
    let address: Row = ("a.example.", A, ADDRESS);
    let mail: Row = ("A.EXAMPLE.", MX, b"\0\0\0");
    let dname: Row = ("a.example.", DNAME, SERVER);
    let signature: Row = ("a.example.", RRSIG, b"\0");
    let next: Row = ("a.example.", NSEC, b"\0");
    let below: Row = ("b.a.example.", A, ADDRESS);
    let second: Row = ("a.example.", CNAME, b"\0");
    let cut_off: Row = ("a.example.", CNAME, b"\x02ns");
    expect_beside(
        &rt,
        alloc,
        &[cname, address],
        rrset(2, RrsetFault::BesideCname),
    );
    expect_beside(
        &rt,
        alloc,
        &[cname, mail],
        rrset(3, RrsetFault::BesideCname),
    );
    expect_beside(
        &rt,
        alloc,
        &[cname, dname],
        rrset(3, RrsetFault::BesideCname),
    );
    expect_beside(&rt, alloc, &[cname, signature, next], None);
    expect_beside(&rt, alloc, &[cname, below], None);
    expect_beside(&rt, alloc, &[cname, second], rrset(2, RrsetFault::Target));
    expect_beside(&rt, alloc, &[cut_off], rrset(2, RrsetFault::Target));
}

/// RFC 6672, 2.3 and 2.4.
#[test]
fn records_below_a_dname_are_a_fault(rt: HostRuntime) {
    let alloc = rt.alloc();
    let dname: Row = ("a.example.", DNAME, SERVER);
    let second: Row = ("a.example.", DNAME, b"\0");
    let compressed: Row = ("a.example.", DNAME, b"\xc0\0");
    let below: Row = ("b.a.example.", A, ADDRESS);
    let far_below: Row = ("d.c.b.A.example.", A, ADDRESS);
    let at_it: Row = ("a.example.", A, ADDRESS);
    let beside: Row = ("ba.example.", A, ADDRESS);
    let servers: Row = ("a.example.", NS, SERVER);
    let at_apex: Row = ("example.", DNAME, SERVER);
    expect_beside(&rt, alloc, &[dname, second], rrset(2, RrsetFault::Target));
    expect_beside(&rt, alloc, &[compressed], rrset(2, RrsetFault::Target));
    expect_beside(
        &rt,
        alloc,
        &[dname, below],
        rrset(2, RrsetFault::AboveRecords),
    );
    expect_beside(
        &rt,
        alloc,
        &[dname, far_below],
        rrset(2, RrsetFault::AboveRecords),
    );
    expect_beside(&rt, alloc, &[dname, at_it, beside], None);
    expect_beside(
        &rt,
        alloc,
        &[dname, servers],
        rrset(3, RrsetFault::DnameAtCut),
    );
    expect_beside(&rt, alloc, &[at_apex], None);
    expect_beside(
        &rt,
        alloc,
        &[at_apex, at_it],
        rrset(2, RrsetFault::AboveRecords),
    );
}

/// RFC 4592, 4.2 and 4.4.
#[test]
fn servers_and_dnames_at_a_wildcard_are_a_fault(rt: HostRuntime) {
    let alloc = rt.alloc();
    let servers: Row = ("*.example.", NS, SERVER);
    let dname: Row = ("*.b.example.", DNAME, SERVER);
    let cname: Row = ("*.example.", CNAME, SERVER);
    let below: Row = ("a.*.example.", NS, SERVER);
    expect_beside(&rt, alloc, &[servers], rrset(2, RrsetFault::Wildcard));
    expect_beside(&rt, alloc, &[dname], rrset(2, RrsetFault::Wildcard));
    expect_beside(&rt, alloc, &[cname, below], None);
}

/// RFC 4592, 4.1: a zone may begin at a wildcard.
#[test]
fn a_zone_may_begin_at_a_wildcard(rt: HostRuntime) {
    let alloc = rt.alloc();
    let rows: [Row; 2] = [("*.example.", NS, SERVER), ("*.example.", SOA, SOA_DATA)];
    assert_eq!(rt; fault(&rt, alloc, "*.example.", &rows), None);
}

/// RFC 1034, 4.2.1; RFC 6895, 3.1; RFC 5155, 7.2.8.
#[test]
fn records_that_cannot_be_in_the_zone_are_not_inserted(rt: HostRuntime) {
    let alloc = rt.alloc();
    let mut builder = builder(&rt, alloc, "example.com.");
    for (name, rtype, wanted) in [
        ("example.com.", TXT, Ok(())),
        ("A.b.EXAMPLE.com.", 65534, Ok(())),
        ("a.example.com.", 127, Ok(())),
        ("com.", TXT, Err(InsertError::OutOfZone)),
        (".", TXT, Err(InsertError::OutOfZone)),
        ("example.net.", TXT, Err(InsertError::OutOfZone)),
        ("myexample.com.", TXT, Err(InsertError::OutOfZone)),
        ("com.", 0, Err(InsertError::OutOfZone)),
        ("a.example.com.", 0, Err(InsertError::NotDataType)),
        ("a.example.com.", 41, Err(InsertError::NotDataType)),
        ("a.example.com.", 50, Err(InsertError::NotDataType)),
        ("a.example.com.", 128, Err(InsertError::NotDataType)),
        ("a.example.com.", 252, Err(InsertError::NotDataType)),
        ("a.example.com.", 255, Err(InsertError::NotDataType)),
        ("a.example.com.", 65535, Err(InsertError::NotDataType)),
    ] {
        let inserted = insert(&rt, alloc, &mut builder, 60, (name, rtype, b"\0"));
        assert_eq!(rt; inserted, wanted, "{name} {rtype}");
    }
}

/// RFC 1035, 5.2: all records of a zone have one class.
#[test]
fn a_record_of_another_class_is_not_inserted(rt: HostRuntime) {
    let alloc = rt.alloc();
    let mut builder = builder(&rt, alloc, "example.");
    for class in [3, 4, 254, 255] {
        let name = owner(&rt, alloc, "com.");
        let data = copy(&rt, alloc, ADDRESS);
        let inserted = builder.insert(name, A, Class::from_int(class), 60, data);
        assert_eq!(rt; inserted, Err(InsertError::OtherClass), "{class}");
    }
    insert_all(
        &rt,
        alloc,
        &mut builder,
        &[("example.", NS, SERVER), ("example.", SOA, SOA_DATA)],
    );
    match builder.finish(alloc) {
        Ok(zone) => assert!(rt; zone.class() == internet() && zone.records().sets.len() == 2),
        Err(why) => panic!(rt; "no zone: {why:?}"),
    }
}

/// A fault of an RRset shows the RRset's index, which counts from 0, and why it can't be in the zone.
#[test]
fn a_fault_shows_which_rrset_and_why(rt: HostRuntime) -> Result<(), Fail> {
    let alloc = rt.alloc();
    let fault = ZoneFault::Rrset(2, RrsetFault::BesideCname);
    let wanted = "RRset at index 2: type that cannot be beside a CNAME";
    assert!(rt; fault.to_string(alloc)?.as_str() == wanted);
    assert!(rt; BuildError::from(fault).to_string(alloc)?.as_str() == wanted);
    assert!(rt;
        InsertError::OtherClass.to_string(alloc)?.as_str() == "class other than that of the zone"
    );
    Ok(())
}
