//! Data with signatures of records (RFC 4034, 3).
ghost use Rattle.std.specs.Prelude.{◌≡◌};

use crate::fields::FieldsData;
use domain_dnssec::{RtypeField, TimeField};
use domain_fields::{Sequence, UncompressedNameField};
use domain_header::Ttl;
use domain_rdata::Rtype;
use domain_serial::Serial;
use domain_strings::Base64Octets;
use octseq::Octets;

/// The fields of a signature after the type: algorithm, labels, original TTL, expiration, inception, key tag, signer
/// and signature.
type SignatureFields<Octs, N> = Sequence<
    u8,
    Sequence<
        u8,
        Sequence<
            u32,
            Sequence<
                TimeField,
                Sequence<
                    TimeField,
                    Sequence<u16, Sequence<UncompressedNameField<N>, Base64Octets<Octs>>>,
                >,
            >,
        >,
    >,
>;

/// The signature of the records of a type that the owner has; the signer's name is never compressed (RFC 4034, 3).
pub type Rrsig<Octs, N> = FieldsData<46, Sequence<RtypeField, SignatureFields<Octs, N>>>;

impl<Octs: Octets, N> Rrsig<Octs, N> {
    ghost use Rattle.domain_data.specs.Views.{type_of};
    ghost use Rattle.domain_data.specs.SignatureFields.{rrsig_type_covered, rrsig_algorithm, rrsig_label_count, rrsig_original_ttl, rrsig_expiration};
    ghost use Rattle.domain_data.specs.SignatureFields.{rrsig_inception, rrsig_key_tag, rrsig_signer_name, rrsig_signature};
    ghost use Rattle.domain_header.specs.Values.{ttl_seconds};

    /// Data of these.
    pub fn new(
        type_covered: Rtype,
        algorithm: u8,
        labels: u8,
        original_ttl: Ttl,
        expiration: Serial,
        inception: Serial,
        key_tag: u16,
        signer_name: N,
        signature: Base64Octets<Octs>,
    ) -> Rrsig<Octs, N>
        ensures type_covered { rrsig_type_covered result ≡ type_covered }
        ensures algorithm { rrsig_algorithm result ≡ algorithm }
        ensures labels { rrsig_label_count result ≡ labels }
        ensures original_ttl { rrsig_original_ttl result ≡ ttl_seconds original_ttl }
        ensures expiration { rrsig_expiration result ≡ expiration.0 }
        ensures inception { rrsig_inception result ≡ inception.0 }
        ensures key_tag { rrsig_key_tag result ≡ key_tag }
        ensures signer_name { rrsig_signer_name result ≡ signer_name }
        ensures signature { rrsig_signature result ≡ signature }
        ensures of_type { type_of result ≡ 46 }
    {
        let signed = Sequence {
            first: key_tag,
            rest: Sequence {
                first: UncompressedNameField { name: signer_name },
                rest: signature,
            },
        };
        let times = Sequence {
            first: TimeField {
                seconds: expiration.into_int(),
            },
            rest: Sequence {
                first: TimeField {
                    seconds: inception.into_int(),
                },
                rest: signed,
            },
        };
        FieldsData {
            fields: Sequence {
                first: RtypeField {
                    rtype: type_covered,
                },
                rest: Sequence {
                    first: algorithm,
                    rest: Sequence {
                        first: labels,
                        rest: Sequence {
                            first: original_ttl.as_secs(),
                            rest: times,
                        },
                    },
                },
            },
        }
    }

    /// The type of the records that are signed.
    pub fn type_covered(&self) -> Rtype
        ensures { result ≡ rrsig_type_covered self.now }
    {
        self.fields.first.rtype
    }

    /// The number of the algorithm that the signature was made by.
    pub fn algorithm(&self) -> u8
        ensures { result ≡ rrsig_algorithm self.now }
    {
        self.fields.rest.first
    }

    /// How many labels the owner has where no wildcard was put for some: without the root, and without `*`.
    pub fn labels(&self) -> u8
        ensures { result ≡ rrsig_label_count self.now }
    {
        self.fields.rest.rest.first
    }

    /// The TTL of the records in the zone.
    pub fn original_ttl(&self) -> Ttl
        ensures { ttl_seconds result ≡ rrsig_original_ttl self.now }
    {
        Ttl::from_secs(self.fields.rest.rest.rest.first)
    }

    /// Until when the signature holds, in seconds since 1970 modulo 2^32: in the order of RFC 1982.
    pub fn expiration(&self) -> Serial
        ensures { result.0 ≡ rrsig_expiration self.now }
    {
        Serial(self.fields.rest.rest.rest.rest.first.seconds)
    }

    /// From when on it holds.
    pub fn inception(&self) -> Serial
        ensures { result.0 ≡ rrsig_inception self.now }
    {
        Serial(self.fields.rest.rest.rest.rest.rest.first.seconds)
    }

    /// The tag of the key (RFC 4034, appendix B).
    pub fn key_tag(&self) -> u16
        ensures { result ≡ rrsig_key_tag self.now }
    {
        self.fields.rest.rest.rest.rest.rest.rest.first
    }

    /// The owner of the key: the zone's name.
    pub fn signer_name(&self) -> &N
        ensures { result.now ≡ rrsig_signer_name self.now }
    {
        &self.fields.rest.rest.rest.rest.rest.rest.rest.first.name
    }

    /// The signature.
    pub fn signature(&self) -> &Base64Octets<Octs>
        ensures { result.now ≡ rrsig_signature self.now }
    {
        &self.fields.rest.rest.rest.rest.rest.rest.rest.rest
    }
}
