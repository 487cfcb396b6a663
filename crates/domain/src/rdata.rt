//! Data of records by their types. The README.md of `domain_data` lists the calls, and that of `domain_svcb`
//! those of SVCB and HTTPS.

pub use domain_any_rdata::{AllRecordData, OwnedRecordData};
pub use domain_data::{
    A, Aaaa, Afsdb, Base16Octets, Base64Octets, Caa, CharString, Cname, Dname, Dnskey, Ds, Hinfo,
    InvalidTag, Kx, LastOctets, LongCharString, Mb, Md, Mf, Mg, Minfo, Mr, Mx, Naptr, Ns, Nsec,
    Ptr, Px, QuotedOctets, Rp, Rrsig, Rt, Soa, Srv, Sshfp, Tag, Tlsa, TypeBitmaps,
    TypeBitmapsError, TypesIter,
};
pub use domain_rdata::UnknownRecordData;
pub use domain_svcb::{
    Https, ServiceData, SvcParam, SvcParams, SvcParamsError, SvcParamsIter, Svcb,
};
pub use domain_txt::{Refusals, Txt, TxtError, TxtIter};

/// The types of RFC 1035, in whose data names may be compressed.
pub mod rfc1035 {
    pub use domain_data::{A, Cname, Hinfo, Mb, Md, Mf, Mg, Minfo, Mr, Mx, Ns, Ptr, Soa};
    pub use domain_txt::{Txt, TxtError, TxtIter};
}
