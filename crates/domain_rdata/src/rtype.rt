//! Types of records.
ghost use Rattle.std.specs.Prelude.{◌≡◌};

/// The types whose data has its names in lowercase in the canonical form: those of RFC 4034, 6.2, without NSEC, and
/// without HINFO, which has no name (RFC 6840, 5.1).
const LOWERCASE_TYPES: [u16; 23] = [
    2, 3, 4, 5, 6, 7, 8, 9, 12, 14, 15, 17, 18, 21, 24, 26, 30, 33, 35, 36, 38, 39, 46,
];

/// The type of a record: a number of 16 bits (RFC 1035, 3.2.2).
#[derive(Clone, Copy, Debug, PartialEq, Eq, PartialOrd, Ord, Hash)]
pub struct Rtype(u16);

impl Rtype {
    ghost use Rattle.domain_rdata.specs.Rtypes.{rtype_number, has_lowercase_names};

    /// The type that has this number.
    pub fn from_int(number: u16) -> Rtype
        ensures { rtype_number result ≡ number }
    {
        Rtype(number)
    }

    /// The number.
    pub fn to_int(self) -> u16
        ensures { result ≡ rtype_number self }
    {
        self.0
    }

    /// Returns whether the names in the data of such records are in lowercase in the canonical form (RFC 4034, 6.2).
    ///
    /// They are for these types of RFC 1035: NS, CNAME, SOA, PTR, MX, MINFO, MB, MD, MF, MG and MR. They are for these
    /// later types, too: SRV, DNAME, KX, NAPTR, RP, AFSDB, RT, PX, A6, RRSIG, SIG and NXT.
    ///
    /// The names in data of all other types keep their case, including those of NSEC (RFC 6840, 5.1; RFC 3597, 7).
    pub fn has_lowercase_names(self) -> bool
        ensures { result ≡ has_lowercase_names (rtype_number self) }
    {
        LOWERCASE_TYPES.contains(&self.0)
    }
}
