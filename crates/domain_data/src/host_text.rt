//! Data with character strings: what a host is, and rules that rewrite to names.
ghost use Rattle.std.specs.Prelude.{◌≡◌};

use crate::fields::FieldsData;
use domain_fields::{Sequence, UncompressedNameField};
use domain_strings::CharString;
use octseq::Octets;

/// The processor and the operating system of a host (RFC 1035, 3.3.2).
pub type Hinfo<Octs> = FieldsData<13, Sequence<CharString<Octs>, CharString<Octs>>>;

/// The strings of a rule: flags, services and regular expression; and the name after them.
type RuleStrings<Octs, N> = Sequence<
    CharString<Octs>,
    Sequence<CharString<Octs>, Sequence<CharString<Octs>, UncompressedNameField<N>>>,
>;

/// A rule that rewrites what is asked for, and in which order rules are tried; its name is never compressed (RFC
/// 3403, 4.1).
pub type Naptr<Octs, N> = FieldsData<35, Sequence<u16, Sequence<u16, RuleStrings<Octs, N>>>>;

impl<Octs: Octets> Hinfo<Octs> {
    ghost use Rattle.domain_data.specs.Views.{fields_of, type_of};

    /// Data of these.
    pub fn new(cpu: CharString<Octs>, os: CharString<Octs>) -> Hinfo<Octs>
        ensures cpu { (fields_of result).first ≡ cpu }
        ensures os { (fields_of result).rest ≡ os }
        ensures of_type { type_of result ≡ 13 }
    {
        FieldsData {
            fields: Sequence {
                first: cpu,
                rest: os,
            },
        }
    }

    /// The processor.
    pub fn cpu(&self) -> &CharString<Octs>
        ensures { result.now ≡ (fields_of self.now).first }
    {
        &self.fields.first
    }

    /// The operating system.
    pub fn os(&self) -> &CharString<Octs>
        ensures { result.now ≡ (fields_of self.now).rest }
    {
        &self.fields.rest
    }
}

impl<Octs: Octets, N> Naptr<Octs, N> {
    ghost use Rattle.domain_data.specs.Views.{fields_of, type_of};

    /// Data of these.
    pub fn new(
        order: u16,
        preference: u16,
        flags: CharString<Octs>,
        services: CharString<Octs>,
        regexp: CharString<Octs>,
        replacement: N,
    ) -> Naptr<Octs, N>
        ensures order { (fields_of result).first ≡ order }
        ensures preference { (fields_of result).rest.first ≡ preference }
        ensures flags { (fields_of result).rest.rest.first ≡ flags }
        ensures services { (fields_of result).rest.rest.rest.first ≡ services }
        ensures regexp { (fields_of result).rest.rest.rest.rest.first ≡ regexp }
        ensures replacement { (fields_of result).rest.rest.rest.rest.rest.name ≡ replacement }
        ensures of_type { type_of result ≡ 35 }
    {
        let strings = Sequence {
            first: flags,
            rest: Sequence {
                first: services,
                rest: Sequence {
                    first: regexp,
                    rest: UncompressedNameField { name: replacement },
                },
            },
        };
        FieldsData {
            fields: Sequence {
                first: order,
                rest: Sequence {
                    first: preference,
                    rest: strings,
                },
            },
        }
    }

    /// In which order rules are tried: the lower the number, the sooner.
    pub fn order(&self) -> u16
        ensures { result ≡ (fields_of self.now).first }
    {
        self.fields.first
    }

    /// How much the rule is preferred of those with the same order: the lower the number, the more.
    pub fn preference(&self) -> u16
        ensures { result ≡ (fields_of self.now).rest.first }
    {
        self.fields.rest.first
    }

    /// The flags: letters and digits whose meaning the service defines.
    pub fn flags(&self) -> &CharString<Octs>
        ensures { result.now ≡ (fields_of self.now).rest.rest.first }
    {
        &self.fields.rest.rest.first
    }

    /// The services.
    pub fn services(&self) -> &CharString<Octs>
        ensures { result.now ≡ (fields_of self.now).rest.rest.rest.first }
    {
        &self.fields.rest.rest.rest.first
    }

    /// The regular expression, and what is put for its match; empty where the name is the answer.
    pub fn regexp(&self) -> &CharString<Octs>
        ensures { result.now ≡ (fields_of self.now).rest.rest.rest.rest.first }
    {
        &self.fields.rest.rest.rest.rest.first
    }

    /// The name to query next, or the root if the regular expression provides that name.
    pub fn replacement(&self) -> &N
        ensures { result.now ≡ (fields_of self.now).rest.rest.rest.rest.rest.name }
    {
        &self.fields.rest.rest.rest.rest.rest.name
    }
}
