//! Data with keys, and with digests of keys and of certificates; and who may issue certificates.
ghost use Rattle.std.specs.Prelude.{◌≡◌};

use crate::fields::FieldsData;
use domain_fields::Sequence;
use domain_strings::{Base16Octets, Base64Octets, QuotedOctets, Tag};
use octseq::Octets;

/// The digest of a key of the zone that begins at the owner (RFC 4034, 5).
pub type Ds<Octs> = FieldsData<43, Sequence<u16, Sequence<u8, Sequence<u8, Base16Octets<Octs>>>>>;

/// The fingerprint of a key of an SSH server (RFC 4255, 3.1).
pub type Sshfp<Octs> = FieldsData<44, Sequence<u8, Sequence<u8, Base16Octets<Octs>>>>;

/// A key of the zone (RFC 4034, 2).
pub type Dnskey<Octs> = FieldsData<
    48,
    Sequence<u16, Sequence<u8, Sequence<u8, Base64Octets<Octs>>>>,
>;

/// What the certificate of a TLS server is matched with (RFC 6698, 2.1).
pub type Tlsa<Octs> = FieldsData<52, Sequence<u8, Sequence<u8, Sequence<u8, Base16Octets<Octs>>>>>;

/// A property of the authorities that may issue certificates (RFC 8659, 4.1).
pub type Caa<Octs> = FieldsData<257, Sequence<u8, Sequence<Tag<Octs>, QuotedOctets<Octs>>>>;

impl<Octs: Octets> Ds<Octs> {
    ghost use Rattle.domain_data.specs.Views.{type_of};
    ghost use Rattle.domain_data.specs.KeyFields.{ds_key_tag, ds_algorithm, ds_digest_type, ds_digest};

    /// Data of these.
    pub fn new(key_tag: u16, algorithm: u8, digest_type: u8, digest: Base16Octets<Octs>) -> Ds<Octs>
        ensures key_tag { ds_key_tag result ≡ key_tag }
        ensures algorithm { ds_algorithm result ≡ algorithm }
        ensures digest_type { ds_digest_type result ≡ digest_type }
        ensures digest { ds_digest result ≡ digest }
        ensures of_type { type_of result ≡ 43 }
    {
        FieldsData {
            fields: Sequence {
                first: key_tag,
                rest: Sequence {
                    first: algorithm,
                    rest: Sequence {
                        first: digest_type,
                        rest: digest,
                    },
                },
            },
        }
    }

    /// The tag of the key (RFC 4034, appendix B).
    pub fn key_tag(&self) -> u16
        ensures { result ≡ ds_key_tag self.now }
    {
        self.fields.first
    }

    /// The number of the key's algorithm.
    pub fn algorithm(&self) -> u8
        ensures { result ≡ ds_algorithm self.now }
    {
        self.fields.rest.first
    }

    /// The number of the algorithm that the digest was made by.
    pub fn digest_type(&self) -> u8
        ensures { result ≡ ds_digest_type self.now }
    {
        self.fields.rest.rest.first
    }

    /// The digest.
    pub fn digest(&self) -> &Base16Octets<Octs>
        ensures { result.now ≡ ds_digest self.now }
    {
        &self.fields.rest.rest.rest
    }
}

impl<Octs: Octets> Sshfp<Octs> {
    ghost use Rattle.domain_data.specs.Views.{type_of};
    ghost use Rattle.domain_data.specs.KeyFields.{sshfp_algorithm, sshfp_fp_type, sshfp_fingerprint};

    /// Data of these.
    pub fn new(algorithm: u8, fp_type: u8, fingerprint: Base16Octets<Octs>) -> Sshfp<Octs>
        ensures algorithm { sshfp_algorithm result ≡ algorithm }
        ensures fp_type { sshfp_fp_type result ≡ fp_type }
        ensures fingerprint { sshfp_fingerprint result ≡ fingerprint }
        ensures of_type { type_of result ≡ 44 }
    {
        FieldsData {
            fields: Sequence {
                first: algorithm,
                rest: Sequence {
                    first: fp_type,
                    rest: fingerprint,
                },
            },
        }
    }

    /// The number of the key's algorithm.
    pub fn algorithm(&self) -> u8
        ensures { result ≡ sshfp_algorithm self.now }
    {
        self.fields.first
    }

    /// The number of the algorithm that the fingerprint was made by.
    pub fn fp_type(&self) -> u8
        ensures { result ≡ sshfp_fp_type self.now }
    {
        self.fields.rest.first
    }

    /// The fingerprint.
    pub fn fingerprint(&self) -> &Base16Octets<Octs>
        ensures { result.now ≡ sshfp_fingerprint self.now }
    {
        &self.fields.rest.rest
    }
}

impl<Octs: Octets> Dnskey<Octs> {
    ghost use Rattle.domain_data.specs.Views.{type_of};
    ghost use Rattle.domain_data.specs.KeyFields.{dnskey_flags, dnskey_protocol, dnskey_algorithm, dnskey_public_key};

    /// Data of these.
    pub fn new(
        flags: u16,
        protocol: u8,
        algorithm: u8,
        public_key: Base64Octets<Octs>,
    ) -> Dnskey<Octs>
        ensures flags { dnskey_flags result ≡ flags }
        ensures protocol { dnskey_protocol result ≡ protocol }
        ensures algorithm { dnskey_algorithm result ≡ algorithm }
        ensures public_key { dnskey_public_key result ≡ public_key }
        ensures of_type { type_of result ≡ 48 }
    {
        FieldsData {
            fields: Sequence {
                first: flags,
                rest: Sequence {
                    first: protocol,
                    rest: Sequence {
                        first: algorithm,
                        rest: public_key,
                    },
                },
            },
        }
    }

    /// The flags. 256 marks a key of the zone; a DS record may lead only to such a key. 1 is a hint that the key is a
    /// secure entry point, and nothing may be decided by it (RFC 4034, 2.1.1 and 5.2).
    pub fn flags(&self) -> u16
        ensures { result ≡ dnskey_flags self.now }
    {
        self.fields.first
    }

    /// The protocol, which is 3 in each valid record.
    pub fn protocol(&self) -> u8
        ensures { result ≡ dnskey_protocol self.now }
    {
        self.fields.rest.first
    }

    /// The number of the key's algorithm.
    pub fn algorithm(&self) -> u8
        ensures { result ≡ dnskey_algorithm self.now }
    {
        self.fields.rest.rest.first
    }

    /// The key.
    pub fn public_key(&self) -> &Base64Octets<Octs>
        ensures { result.now ≡ dnskey_public_key self.now }
    {
        &self.fields.rest.rest.rest
    }
}

impl<Octs: Octets> Tlsa<Octs> {
    ghost use Rattle.domain_data.specs.Views.{type_of};
    ghost use Rattle.domain_data.specs.KeyFields.{tlsa_usage, tlsa_selector, tlsa_matching_type, tlsa_association};

    /// Data of these.
    pub fn new(
        usage: u8,
        selector: u8,
        matching_type: u8,
        association: Base16Octets<Octs>,
    ) -> Tlsa<Octs>
        ensures usage { tlsa_usage result ≡ usage }
        ensures selector { tlsa_selector result ≡ selector }
        ensures matching_type { tlsa_matching_type result ≡ matching_type }
        ensures association { tlsa_association result ≡ association }
        ensures of_type { type_of result ≡ 52 }
    {
        FieldsData {
            fields: Sequence {
                first: usage,
                rest: Sequence {
                    first: selector,
                    rest: Sequence {
                        first: matching_type,
                        rest: association,
                    },
                },
            },
        }
    }

    /// How the certificate is used.
    pub fn usage(&self) -> u8
        ensures { result ≡ tlsa_usage self.now }
    {
        self.fields.first
    }

    /// Which part of the certificate is matched.
    pub fn selector(&self) -> u8
        ensures { result ≡ tlsa_selector self.now }
    {
        self.fields.rest.first
    }

    /// How it is matched.
    pub fn matching_type(&self) -> u8
        ensures { result ≡ tlsa_matching_type self.now }
    {
        self.fields.rest.rest.first
    }

    /// What it is matched with.
    pub fn association(&self) -> &Base16Octets<Octs>
        ensures { result.now ≡ tlsa_association self.now }
    {
        &self.fields.rest.rest.rest
    }
}

impl<Octs: Octets> Caa<Octs> {
    ghost use Rattle.domain_data.specs.Views.{type_of};
    ghost use Rattle.domain_data.specs.KeyFields.{caa_flags, caa_tag, caa_value};

    /// Data of these.
    pub fn new(flags: u8, tag: Tag<Octs>, value: QuotedOctets<Octs>) -> Caa<Octs>
        ensures flags { caa_flags result ≡ flags }
        ensures tag { caa_tag result ≡ tag }
        ensures value { caa_value result ≡ value }
        ensures of_type { type_of result ≡ 257 }
    {
        FieldsData {
            fields: Sequence {
                first: flags,
                rest: Sequence {
                    first: tag,
                    rest: value,
                },
            },
        }
    }

    /// The flags: 128 where no certificate may be issued by who doesn't know the property.
    pub fn flags(&self) -> u8
        ensures { result ≡ caa_flags self.now }
    {
        self.fields.first
    }

    /// The tag of the property, by which it is known ignoring ASCII case.
    pub fn tag(&self) -> &Tag<Octs>
        ensures { result.now ≡ caa_tag self.now }
    {
        &self.fields.rest.first
    }

    /// The value of the property.
    pub fn value(&self) -> &QuotedOctets<Octs>
        ensures { result.now ≡ caa_value self.now }
    {
        &self.fields.rest.rest
    }
}
