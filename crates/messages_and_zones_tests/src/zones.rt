//! Zones that are made of tables of records.

use domain_header::Class;
use domain_name::Name;
use domain_zone::{BuildError, InsertError, Owner, Zone, ZoneBuilder};
use std::alloc::Global;
use std::process::Abort;

/// A record of the class IN that is kept for an hour: its owner, its type and its data.
pub type Row = (&'static str, u16, &'static [u8]);

/// The data of an SOA record, in which both names are the root.
pub const SOA_DATA: &[u8] = b"\0\0\0\0\0\x01\0\0\x0e\x10\0\0\x03\x84\0\x09\x3a\x80\0\0\x0e\x10";

/// The class of the zones.
pub fn internet() -> Class {
    Class::from_int(1)
}

/// A name that is written as text.
pub fn owner(rt: &impl Abort, alloc: Global, text: &str) -> Owner {
    match Name::vec_from_str(alloc, text) {
        Ok(name) => name,
        Err(_) => panic!(rt; "no name: {text}"),
    }
}

/// A copy of octets.
pub fn copy(rt: &impl Abort, alloc: Global, octets: &[u8]) -> Vec<u8> {
    match octets.to_vec(alloc) {
        Ok(copy) => copy,
        Err(_) => panic!(rt; "no memory"),
    }
}

/// Inserts a record.
pub fn insert(
    rt: &impl Abort,
    alloc: Global,
    builder: &mut ZoneBuilder,
    ttl: u32,
    row: Row,
) -> Result<(), InsertError> {
    let (name, rtype, octets) = row;
    let name = owner(rt, alloc, name);
    let octets = copy(rt, alloc, octets);
    builder.insert(name, rtype, internet(), ttl, octets)
}

/// A builder of a zone at an apex.
pub fn builder(rt: &impl Abort, alloc: Global, apex: &str) -> ZoneBuilder {
    ZoneBuilder::new(alloc, internet(), owner(rt, alloc, apex))
}

/// Inserts records, each of which may be in the zone.
pub fn insert_all(rt: &impl Abort, alloc: Global, builder: &mut ZoneBuilder, rows: &[Row]) {
    for row in rows {
        let inserted = insert(rt, alloc, builder, 3600, *row);
        assert_eq!(rt; inserted, Ok(()), "{} {}", row.0, row.1);
    }
}

/// The zone at an apex with an SOA, name servers and these records, or why there is none.
pub fn built(
    rt: &impl Abort,
    alloc: Global,
    apex: &'static str,
    rows: &[Row],
) -> Result<Zone, BuildError> {
    let mut builder = builder(rt, alloc, apex);
    let start: [Row; 2] = [
        (apex, 6, SOA_DATA),
        (apex, 2, b"\x02ns\x07example\x03net\0"),
    ];
    insert_all(rt, alloc, &mut builder, &start);
    insert_all(rt, alloc, &mut builder, rows);
    builder.finish(alloc)
}
