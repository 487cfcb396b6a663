//! Types of records by their numbers (RFC 1035, 3.2.2; RFC 4034; RFC 6672).

pub const A: u16 = 1;

pub const NS: u16 = 2;

pub const CNAME: u16 = 5;

pub const SOA: u16 = 6;

pub const MX: u16 = 15;

pub const TXT: u16 = 16;

pub const DNAME: u16 = 39;

pub const DS: u16 = 43;

pub const RRSIG: u16 = 46;

pub const NSEC: u16 = 47;
