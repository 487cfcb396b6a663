//! Data of records, by their types (RFC 1035, 3.3 and 3.4; RFC 4034, 2 to 5).
#![tactic(auto)]

pub mod address;
mod canonical;
pub mod denial;
mod display;
pub mod fields;
mod flatten;
pub mod host;
pub mod host_text;
pub mod keys;
pub mod later;
pub mod mail;
mod parse;
mod parse_octets;
mod read_back;
pub mod signature;

pub use address::{A, Aaaa};
pub use denial::Nsec;
pub use domain_dnssec::{RtypeField, TimeField, TypeBitmaps, TypeBitmapsError, TypesIter};
pub use domain_fields::{
    DataField, DataName, FieldError, FlattenField, NameField, OrderedField, OrderedLast,
    ReadBackData, ReadBackField, ReadBackLast, ReadField, Sequence, UncompressedNameField, field,
    name_field, order, read, read_all, sequence,
};
pub use domain_strings::{
    Base16Octets, Base64Octets, CharString, InvalidTag, LastOctets, LongCharString, QuotedOctets,
    Tag,
};
pub use fields::FieldsData;
pub use host::{Cname, Dname, Mx, Ns, Ptr, Soa, Srv};
pub use host_text::{Hinfo, Naptr};
pub use keys::{Caa, Dnskey, Ds, Sshfp, Tlsa};
pub use later::{Afsdb, Kx, Px, Rp, Rt};
pub use mail::{Mb, Md, Mf, Mg, Minfo, Mr};
pub use signature::Rrsig;
