//! The mnemonics of types of records.
ghost use Rattle.std.specs.Prelude.{◌≡◌};
ghost use Rattle.domain_header.specs.Mnemonics.{rows_of};
ghost use Rattle.domain_header.specs.Rtypes.{rtype_rows};

use crate::mnemonic::Mnemonic;

macro_rules! mnemonic {
    ($number:literal, $word:literal) => {
        Mnemonic {
            number: $number,
            word: $word,
        }
    };
}

// The types of IANA's registry of DNS parameters of 6 December 2022, and the later ones 66 to 68, 128 and 261 to 264.
// `evidence/compare/registries` compares them with a copy of that day, and states the RFC of each later one. The first
// row of a number is its text, and each of its words is read.
const RTYPES: [Mnemonic; 98] = [
    mnemonic!(1, "A"),
    mnemonic!(2, "NS"),
    mnemonic!(3, "MD"),
    mnemonic!(4, "MF"),
    mnemonic!(5, "CNAME"),
    mnemonic!(6, "SOA"),
    mnemonic!(7, "MB"),
    mnemonic!(8, "MG"),
    mnemonic!(9, "MR"),
    mnemonic!(10, "NULL"),
    mnemonic!(11, "WKS"),
    mnemonic!(12, "PTR"),
    mnemonic!(13, "HINFO"),
    mnemonic!(14, "MINFO"),
    mnemonic!(15, "MX"),
    mnemonic!(16, "TXT"),
    mnemonic!(17, "RP"),
    mnemonic!(18, "AFSDB"),
    mnemonic!(19, "X25"),
    mnemonic!(20, "ISDN"),
    mnemonic!(21, "RT"),
    mnemonic!(22, "NSAP"),
    mnemonic!(23, "NSAP-PTR"),
    mnemonic!(24, "SIG"),
    mnemonic!(25, "KEY"),
    mnemonic!(26, "PX"),
    mnemonic!(27, "GPOS"),
    mnemonic!(28, "AAAA"),
    mnemonic!(29, "LOC"),
    mnemonic!(30, "NXT"),
    mnemonic!(31, "EID"),
    mnemonic!(32, "NIMLOC"),
    mnemonic!(33, "SRV"),
    mnemonic!(34, "ATMA"),
    mnemonic!(35, "NAPTR"),
    mnemonic!(36, "KX"),
    mnemonic!(37, "CERT"),
    mnemonic!(38, "A6"),
    mnemonic!(39, "DNAME"),
    mnemonic!(40, "SINK"),
    mnemonic!(41, "OPT"),
    mnemonic!(42, "APL"),
    mnemonic!(43, "DS"),
    mnemonic!(44, "SSHFP"),
    mnemonic!(45, "IPSECKEY"),
    mnemonic!(46, "RRSIG"),
    mnemonic!(47, "NSEC"),
    mnemonic!(48, "DNSKEY"),
    mnemonic!(49, "DHCID"),
    mnemonic!(50, "NSEC3"),
    mnemonic!(51, "NSEC3PARAM"),
    mnemonic!(52, "TLSA"),
    mnemonic!(53, "SMIMEA"),
    mnemonic!(55, "HIP"),
    mnemonic!(56, "NINFO"),
    mnemonic!(57, "RKEY"),
    mnemonic!(58, "TALINK"),
    mnemonic!(59, "CDS"),
    mnemonic!(60, "CDNSKEY"),
    mnemonic!(61, "OPENPGPKEY"),
    mnemonic!(62, "CSYNC"),
    mnemonic!(63, "ZONEMD"),
    mnemonic!(64, "SVCB"),
    mnemonic!(65, "HTTPS"),
    mnemonic!(66, "DSYNC"),
    mnemonic!(67, "HHIT"),
    mnemonic!(68, "BRID"),
    mnemonic!(99, "SPF"),
    mnemonic!(100, "UINFO"),
    mnemonic!(101, "UID"),
    mnemonic!(102, "GID"),
    mnemonic!(103, "UNSPEC"),
    mnemonic!(104, "NID"),
    mnemonic!(105, "L32"),
    mnemonic!(106, "L64"),
    mnemonic!(107, "LP"),
    mnemonic!(108, "EUI48"),
    mnemonic!(109, "EUI64"),
    mnemonic!(128, "NXNAME"),
    mnemonic!(249, "TKEY"),
    mnemonic!(250, "TSIG"),
    mnemonic!(251, "IXFR"),
    mnemonic!(252, "AXFR"),
    mnemonic!(253, "MAILB"),
    mnemonic!(254, "MAILA"),
    mnemonic!(255, "ANY"),
    mnemonic!(255, "*"),
    mnemonic!(256, "URI"),
    mnemonic!(257, "CAA"),
    mnemonic!(258, "AVC"),
    mnemonic!(259, "DOA"),
    mnemonic!(260, "AMTRELAY"),
    mnemonic!(261, "RESINFO"),
    mnemonic!(262, "WALLET"),
    mnemonic!(263, "CLA"),
    mnemonic!(264, "IPN"),
    mnemonic!(32768, "TA"),
    mnemonic!(32769, "DLV"),
];

/// Returns the table of the mnemonics of types (RFC 1035, 3.2.2 and 3.2.3, and IANA's registry of DNS parameters). Any
/// type, 255, is written `ANY`, and is read from `*` as well.
pub fn rtypes() -> &'static [Mnemonic]
    ensures { rows_of result.now ≡ rtype_rows }
{
    &RTYPES
}
