//! Why RRsets are no zone.

use std::error::Error;
use std::fmt;

/// Why an RRset can't be in a zone.
#[derive(Clone, Copy, Debug, PartialEq, Eq)]
pub enum RrsetFault {
    /// Its owner isn't at or below the apex (RFC 1034, 4.2.1).
    OutOfZone,
    /// Its type is no type of data, or NSEC3 (RFC 6895, 3.1).
    NotDataType,
    /// It has no records (RFC 2181, 5).
    NoRecords,
    /// The data of its records aren't in ascending order, or are repeated (RFC 2181, 5). Data are compared as octets,
    /// unchanged: the order of RFC 4034, 6.3, has names in lower case.
    DataOrder,
    /// It is an SOA below the apex, or of more than one record (RFC 1034, 4.2.1; RFC 1035, 5.2).
    Soa,
    /// It is a CNAME or DNAME, and not one record whose data are a name (RFC 2181, 10.1; RFC 6672, 2.4).
    Target,
    /// It has the name servers or the DNAME of a wildcard below the apex (RFC 4592, 4.2 and 4.4).
    Wildcard,
    /// It is beside a CNAME, and its type can't be (RFC 2181, 10.1; RFC 4035, 2.5).
    BesideCname,
    /// It is a DNAME, and there are records below its owner (RFC 6672, 2.4).
    AboveRecords,
    /// It is a DNAME at a cut (RFC 6672, 2.3).
    DnameAtCut,
}

impl fmt::Display for RrsetFault {
    ghost use Rattle.std.specs.Prelude.{Some};
    ghost use Rattle.domain_zone.specs.ErrorText.{rrset_fault_text};

    ghost output = { λ e. Some (rrset_fault_text e) };

    fn fmt<W: fmt::Write>(&self, f: &mut fmt::Formatter<W>) -> fmt::Result {
        match self {
            RrsetFault::OutOfZone => write!(f, "owner not at or below the apex"),
            RrsetFault::NotDataType => write!(f, "type that no record of a zone has"),
            RrsetFault::NoRecords => write!(f, "no records"),
            RrsetFault::DataOrder => write!(f, "data not in ascending order, or repeated"),
            RrsetFault::Soa => write!(f, "SOA below the apex, or more than one SOA record"),
            RrsetFault::Target => write!(f, "CNAME or DNAME that is not one record with one name"),
            RrsetFault::Wildcard => write!(f, "NS or DNAME at a wildcard below the apex"),
            RrsetFault::BesideCname => write!(f, "type that cannot be beside a CNAME"),
            RrsetFault::AboveRecords => write!(f, "DNAME with records below its owner"),
            RrsetFault::DnameAtCut => write!(f, "DNAME at a zone cut"),
        }
    }
}

impl Error for RrsetFault {}

/// Why RRsets are no zone, or aren't in canonical order.
#[derive(Clone, Copy, Debug, PartialEq, Eq)]
pub enum ZoneFault {
    /// The RRsets aren't in the canonical order of their owners (RFC 4034, 6.1) and in ascending order of their types.
    /// Or two have the same owner and type (RFC 2181, 5).
    Order,
    /// The RRset at this index, which counts from 0, can't be in the zone.
    Rrset(usize, RrsetFault),
    /// The apex owns no SOA (RFC 1034, 4.2.1).
    NoSoa,
    /// It owns no name servers (RFC 1034, 4.2.1).
    NoServers,
    /// It owns a DS (RFC 4035, 2.4).
    DsAtApex,
}

impl fmt::Display for ZoneFault {
    ghost use Rattle.std.specs.Prelude.{Some};
    ghost use Rattle.domain_zone.specs.ErrorText.{zone_fault_text};

    ghost output = { λ e. Some (zone_fault_text e) };

    fn fmt<W: fmt::Write>(&self, f: &mut fmt::Formatter<W>) -> fmt::Result {
        match self {
            ZoneFault::Order => write!(
                f,
                "RRsets not in canonical order, or two of one owner and type"
            ),
            ZoneFault::Rrset(at, why) => write!(f, "RRset at index {at}: {why}"),
            ZoneFault::NoSoa => write!(f, "no SOA at the apex"),
            ZoneFault::NoServers => write!(f, "no name servers at the apex"),
            ZoneFault::DsAtApex => write!(f, "DS at the apex"),
        }
    }
}

impl Error for ZoneFault {}
