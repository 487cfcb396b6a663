//! Which fields record data has, type by type.
ghost use Rattle.std.specs.Prelude.{◌≡◌, option_map};
ghost use Rattle.domain_descriptor.specs.Table.{compresses_names, fields_of_type, fields_of_middle_type, fields_of_late_type, fields_in_class, is_of_internet};

use crate::kind::FieldKind;

/// The class of the Internet, IN (RFC 1035, 3.2.4).
pub const CLASS_IN: u16 = 1;

/// Whether data of this type has its fields in class IN alone.
pub fn is_of_internet(rtype: u16) -> bool
    ensures { result ≡ is_of_internet rtype }
{
    matches!(rtype, 1 | 11 | 26 | 28 | 33 | 36 | 42 | 49 | 64 | 65)
}

/// The fields of data of this type, where its class has them: of types up to 24.
fn fields_of_type(rtype: u16) -> Option<&'static [FieldKind]>
    ensures { option_map (λ kinds. kinds.now) result ≡ fields_of_type rtype }
{
    let kinds: &'static [FieldKind] = match rtype {
        1 => &[FieldKind::Ipv4], // A
        2 => &[FieldKind::Name], // NS
        3 => &[FieldKind::Name], // MD
        4 => &[FieldKind::Name], // MF
        5 => &[FieldKind::Name], // CNAME
        6 => &[
            FieldKind::Name,
            FieldKind::Name,
            FieldKind::Serial,
            FieldKind::Ttl,
            FieldKind::Ttl,
            FieldKind::Ttl,
            FieldKind::Ttl,
        ], // SOA
        7 => &[FieldKind::Name], // MB
        8 => &[FieldKind::Name], // MG
        9 => &[FieldKind::Name], // MR
        11 => &[FieldKind::Octets], // WKS
        12 => &[FieldKind::Name], // PTR
        13 => &[FieldKind::CharString, FieldKind::CharString], // HINFO
        14 => &[FieldKind::Name, FieldKind::Name], // MINFO
        15 => &[FieldKind::Number16, FieldKind::Name], // MX
        16 => &[FieldKind::CharStrings], // TXT
        17 => &[FieldKind::Name, FieldKind::Name], // RP
        18 => &[FieldKind::Number16, FieldKind::Name], // AFSDB
        19 => &[FieldKind::CharString], // X25
        20 => &[FieldKind::CharString, FieldKind::OptionalString], // ISDN
        21 => &[FieldKind::Number16, FieldKind::Name], // RT
        24 => &[
            FieldKind::Rtype,
            FieldKind::Number8,
            FieldKind::Number8,
            FieldKind::Ttl,
            FieldKind::Time,
            FieldKind::Time,
            FieldKind::Number16,
            FieldKind::Name,
            FieldKind::Base64,
        ], // SIG
        _ => return fields_of_middle_type(rtype),
    };
    Some(kinds)
}

/// The same of types up to 50.
fn fields_of_middle_type(rtype: u16) -> Option<&'static [FieldKind]>
    ensures { option_map (λ kinds. kinds.now) result ≡ fields_of_middle_type rtype }
{
    let kinds: &'static [FieldKind] = match rtype {
        25 => &[
            FieldKind::Number16,
            FieldKind::Number8,
            FieldKind::Number8,
            FieldKind::Base64,
        ], // KEY
        26 => &[FieldKind::Number16, FieldKind::Name, FieldKind::Name], // PX
        27 => &[
            FieldKind::CharString,
            FieldKind::CharString,
            FieldKind::CharString,
        ], // GPOS
        28 => &[FieldKind::Ipv6], // AAAA
        29 => &[FieldKind::Octets], // LOC
        30 => &[FieldKind::Name, FieldKind::Octets], // NXT
        33 => &[
            FieldKind::Number16,
            FieldKind::Number16,
            FieldKind::Number16,
            FieldKind::Name,
        ], // SRV
        35 => &[
            FieldKind::Number16,
            FieldKind::Number16,
            FieldKind::CharString,
            FieldKind::CharString,
            FieldKind::CharString,
            FieldKind::Name,
        ], // NAPTR
        36 => &[FieldKind::Number16, FieldKind::Name], // KX
        37 => &[
            FieldKind::Number16,
            FieldKind::Number16,
            FieldKind::Number8,
            FieldKind::Base64,
        ], // CERT
        39 => &[FieldKind::Name], // DNAME
        42 => &[FieldKind::Octets], // APL
        43 => &[
            FieldKind::Number16,
            FieldKind::Number8,
            FieldKind::Number8,
            FieldKind::Base16,
        ], // DS
        44 => &[FieldKind::Number8, FieldKind::Number8, FieldKind::Base16], // SSHFP
        45 => &[FieldKind::Octets], // IPSECKEY
        46 => &[
            FieldKind::Rtype,
            FieldKind::Number8,
            FieldKind::Number8,
            FieldKind::Ttl,
            FieldKind::Time,
            FieldKind::Time,
            FieldKind::Number16,
            FieldKind::Name,
            FieldKind::Base64,
        ], // RRSIG
        47 => &[FieldKind::Name, FieldKind::TypeBitmaps], // NSEC
        48 => &[
            FieldKind::Number16,
            FieldKind::Number8,
            FieldKind::Number8,
            FieldKind::Base64,
        ], // DNSKEY
        49 => &[FieldKind::Base64], // DHCID
        50 => &[
            FieldKind::Number8,
            FieldKind::Number8,
            FieldKind::Number16,
            FieldKind::CountedBase16,
            FieldKind::CountedBase32,
            FieldKind::OptionalTypeBitmaps,
        ], // NSEC3
        _ => return fields_of_late_type(rtype),
    };
    Some(kinds)
}

/// The same of later types.
fn fields_of_late_type(rtype: u16) -> Option<&'static [FieldKind]>
    ensures { option_map (λ kinds. kinds.now) result ≡ fields_of_late_type rtype }
{
    let kinds: &'static [FieldKind] = match rtype {
        51 => &[
            FieldKind::Number8,
            FieldKind::Number8,
            FieldKind::Number16,
            FieldKind::CountedBase16,
        ], // NSEC3PARAM
        52 => &[
            FieldKind::Number8,
            FieldKind::Number8,
            FieldKind::Number8,
            FieldKind::Base16,
        ], // TLSA
        53 => &[
            FieldKind::Number8,
            FieldKind::Number8,
            FieldKind::Number8,
            FieldKind::Base16,
        ], // SMIMEA
        55 => &[FieldKind::Octets], // HIP
        56 => &[FieldKind::CharStrings], // NINFO
        57 => &[
            FieldKind::Number16,
            FieldKind::Number8,
            FieldKind::Number8,
            FieldKind::Base64,
        ], // RKEY
        58 => &[FieldKind::Name, FieldKind::Name], // TALINK
        59 => &[
            FieldKind::Number16,
            FieldKind::Number8,
            FieldKind::Number8,
            FieldKind::Base16,
        ], // CDS
        60 => &[
            FieldKind::Number16,
            FieldKind::Number8,
            FieldKind::Number8,
            FieldKind::Base64,
        ], // CDNSKEY
        61 => &[FieldKind::Base64], // OPENPGPKEY
        62 => &[
            FieldKind::Serial,
            FieldKind::Number16,
            FieldKind::OptionalTypeBitmaps,
        ], // CSYNC
        63 => &[
            FieldKind::Serial,
            FieldKind::Number8,
            FieldKind::Number8,
            FieldKind::Base16,
        ], // ZONEMD
        64 => &[FieldKind::Number16, FieldKind::Name, FieldKind::SvcParams], // SVCB
        65 => &[FieldKind::Number16, FieldKind::Name, FieldKind::SvcParams], // HTTPS
        67 => &[FieldKind::Base64], // HHIT
        68 => &[FieldKind::Base64], // BRID
        99 => &[FieldKind::CharStrings], // SPF
        104 => &[FieldKind::Number16, FieldKind::Number64], // NID
        105 => &[FieldKind::Number16, FieldKind::Ipv4], // L32
        106 => &[FieldKind::Number16, FieldKind::Number64], // L64
        107 => &[FieldKind::Number16, FieldKind::Name], // LP
        108 => &[FieldKind::Number48], // EUI48
        109 => &[FieldKind::Number64], // EUI64
        249 => &[
            FieldKind::Name,
            FieldKind::Time,
            FieldKind::Time,
            FieldKind::Number16,
            FieldKind::Number16,
            FieldKind::CountedBase64,
            FieldKind::CountedBase64,
        ], // TKEY
        250 => &[
            FieldKind::Name,
            FieldKind::Number48,
            FieldKind::Number16,
            FieldKind::CountedBase64,
            FieldKind::Number16,
            FieldKind::Number16,
            FieldKind::CountedBase64,
        ], // TSIG
        256 => &[
            FieldKind::Number16,
            FieldKind::Number16,
            FieldKind::QuotedText,
        ], // URI
        257 => &[FieldKind::Number8, FieldKind::Tag, FieldKind::QuotedText], // CAA
        258 => &[FieldKind::CharStrings], // AVC
        260 => &[FieldKind::Octets], // AMTRELAY
        261 => &[FieldKind::CharStrings], // RESINFO
        262 => &[FieldKind::CharStrings], // WALLET
        263 => &[FieldKind::CharStrings], // CLA
        32769 => &[
            FieldKind::Number16,
            FieldKind::Number8,
            FieldKind::Number8,
            FieldKind::Base16,
        ], // DLV
        _ => return None,
    };
    Some(kinds)
}

/// Whether the names in data of this type may be compressed: of the types of RFC 1035 alone (RFC 3597, 4).
pub fn compresses_names(rtype: u16) -> bool
    ensures { result ≡ compresses_names rtype }
{
    matches!(rtype, 2 | 3 | 4 | 5 | 6 | 7 | 8 | 9 | 12 | 14 | 15)
}

/// The fields of data of this type in this class, in their order. `None` exactly where nothing is known of such data:
/// where the type isn't in the table, and where its data has fields in class IN alone and the class is another.
pub fn fields_of(rtype: u16, class: u16) -> Option<&'static [FieldKind]>
    ensures { option_map (λ kinds. kinds.now) result ≡ fields_in_class rtype class }
{
    if class != CLASS_IN && is_of_internet(rtype) {
        return None;
    }
    fields_of_type(rtype)
}
