//! The RRsets of a zone: which records are in one, and in which order they are.

use crate::record_types::{A, MX, NS, SOA, TXT};
use crate::zones::{Row, SOA_DATA, builder, insert, insert_all};
use domain_zone::{Zone, ZoneBuilder};
use std::alloc::Global;
use std::process::Abort;

const START: [Row; 2] = [
    ("example.", NS, b"\x02ns\x07example\x03com\0"),
    ("example.", SOA, SOA_DATA),
];

/// The zone of the records that were inserted.
fn finished(rt: &impl Abort, alloc: Global, builder: ZoneBuilder) -> Zone {
    match builder.finish(alloc) {
        Ok(zone) => zone,
        Err(why) => panic!(rt; "no zone: {why:?}"),
    }
}

/// RFC 2181, 5 and 5.2; RFC 4034, 6.3: equal data are one record, and the lowest TTL is that of all.
#[test]
fn records_of_one_owner_and_type_are_one_rrset(rt: HostRuntime) {
    let alloc = rt.alloc();
    let mut builder = builder(&rt, alloc, "example.");
    insert_all(&rt, alloc, &mut builder, &START);
    for (name, rtype, ttl, octets) in [
        ("a.example.", MX, 300, b"\0\x0a\0".as_slice()),
        ("A.example.", MX, 60, b"\0\x05\0"),
        ("a.EXAMPLE.", MX, 3600, b"\0\x0a\0"),
        ("a.example.", TXT, 30, b"\x01b"),
        ("a.example.", TXT, 30, b"\x01B"),
        ("a.example.", TXT, 30, b"\x02a"),
    ] {
        let inserted = insert(&rt, alloc, &mut builder, ttl, (name, rtype, octets));
        assert_eq!(rt; inserted, Ok(()), "{name}");
    }
    let zone = finished(&rt, alloc, builder);
    let sets = zone.records().sets.as_slice();
    assert_eq!(rt; sets.len(), 4);
    assert!(rt; sets[2].rtype == MX && sets[2].ttl == 60 && sets[2].rdata.len() == 2);
    assert!(rt; sets[2].rdata[0].as_slice() == b"\0\x05\0".as_slice());
    assert!(rt; sets[2].rdata[1].as_slice() == b"\0\x0a\0".as_slice());
    assert!(rt; sets[3].rtype == TXT && sets[3].ttl == 30 && sets[3].rdata.len() == 3);
    assert!(rt; sets[3].rdata[0].as_slice() == b"\x01B".as_slice());
    assert!(rt; sets[3].rdata[1].as_slice() == b"\x01b".as_slice());
    assert!(rt; sets[3].rdata[2].as_slice() == b"\x02a".as_slice());
}

/// RFC 4034, 6.1: the names of its example, inserted from the last to the first.
#[test]
fn owners_are_in_canonical_order(rt: HostRuntime) {
    let alloc = rt.alloc();
    let mut builder = builder(&rt, alloc, "example.");
    let rows: [Row; 8] = [
        ("\\200.z.example.", A, b"\0\0\0\0"),
        ("*.z.example.", A, b"\0\0\0\0"),
        ("\\001.z.example.", A, b"\0\0\0\0"),
        ("z.example.", A, b"\0\0\0\0"),
        ("zABC.a.EXAMPLE.", A, b"\0\0\0\0"),
        ("Z.a.example.", A, b"\0\0\0\0"),
        ("yljkjljk.a.example.", A, b"\0\0\0\0"),
        ("a.example.", A, b"\0\0\0\0"),
    ];
    insert_all(&rt, alloc, &mut builder, &rows);
    insert_all(&rt, alloc, &mut builder, &START);
    let zone = finished(&rt, alloc, builder);
    let sets = zone.records().sets.as_slice();
    assert_eq!(rt; sets.len(), 10);
    for (index, wanted) in [
        (0, "example"),
        (1, "example"),
        (2, "a.example"),
        (3, "yljkjljk.a.example"),
        (4, "Z.a.example"),
        (5, "zABC.a.EXAMPLE"),
        (6, "z.example"),
        (7, "\\001.z.example"),
        (8, "*.z.example"),
        (9, "\\200.z.example"),
    ] {
        match format!(in alloc; "{}", sets[index].owner) {
            Ok(text) => assert_eq!(rt; text.as_str(), wanted),
            Err(_) => panic!(rt; "no memory"),
        }
    }
    assert!(rt; sets[0].rtype == NS && sets[1].rtype == SOA);
}
