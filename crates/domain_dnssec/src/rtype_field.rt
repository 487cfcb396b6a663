//! The type of other records, as a field of record data.
ghost use Rattle.std.specs.Prelude.{◌≡◌, ℕ, Some, refl};
ghost use Rattle.std.specs.Int.{w16, to_be_bytes, from_be_bytes};
ghost use Rattle.domain_wire.specs.FixedLength.{fixed_reading};
ghost use Rattle.domain_wire.specs.Values.{FixedAt, ShortAt};
ghost use Rattle.domain_fields.specs.Reading.{any_reading};
ghost use Rattle.domain_header.specs.Rtypes.{rtype_text};
ghost use Rattle.domain_rdata.specs.Rtypes.{rtype_number};

use domain_fields::{FlattenField, HashedField, OrderedField, ReadBackField, ReadField};
use domain_header::mnemonic::mnemonic_word;
use domain_header::rtypes::rtypes;
use domain_rdata::Rtype;
use domain_wire::{Compose, FixedLen, Parse, ParseError};
use octseq::{OctetsBuilder, Parser, ShortBuf};
use std::alloc::Global;
use std::cmp::Ordering;
use std::fmt;
use std::hash::Hasher;

/// The type of other records: a number of 16 bits, written by its mnemonic.
#[derive(Clone, Copy, Debug, PartialEq, Eq)]
pub struct RtypeField {
    pub rtype: Rtype,
}

impl Compose for RtypeField {
    const COMPOSE_LEN: u16 = 2;

    ghost composed_octets = { λ it. to_be_bytes w16 (rtype_number it.rtype) };

    fn compose<Target: OctetsBuilder>(
        &self,
        target: &mut Target,
    ) -> Result<(), Target::AppendError> {
        self.rtype.to_int().compose(target)
    }
}

impl FixedLen for RtypeField {
    const LEN: u16 = RtypeField::COMPOSE_LEN;

    ghost LEN = { 2 };

    ghost fixed = { λ value. refl };
}

impl<'a> ReadField<'a, ParseError> for RtypeField {
    ghost View = { ℕ };

    ghost model = { λ it. rtype_number it.rtype };

    ghost encodes = { FixedAt 2 (from_be_bytes w16) };

    ghost fails_with = { ShortAt 2 };

    fn read_field(parser: &mut Parser<'a>) -> Result<RtypeField, ParseError> {
        match u16::parse(parser) {
            Ok(number) => Ok(RtypeField {
                rtype: Rtype::from_int(number),
            }),
            Err(e) => Err(e),
        }
    }

    ghost lawful = { any_reading (fixed_reading 2 (from_be_bytes w16)) };
}

/// The order of the numbers.
impl OrderedField for RtypeField {
    fn canonical_field_cmp(&self, other: &RtypeField, lowercase: bool) -> Ordering {
        let number = self.rtype.to_int();
        let other = other.rtype.to_int();
        number.canonical_field_cmp(&other, lowercase)
    }
}

impl HashedField for RtypeField {
    fn hash_field<H: Hasher>(&self, state: &mut H) {
        self.rtype.to_int().hash_field(state);
    }
}

/// The same number.
impl ReadBackField for RtypeField {
    ghost Seen = { ℕ };

    ghost seen_at = { FixedAt 2 (from_be_bytes w16) };

    ghost like = { λ it seen. seen ≡ rtype_number it.rtype };

    fn reads_back(&self) {
        self.rtype.to_int().reads_back()
    }
}

impl FlattenField<RtypeField> for RtypeField {
    ghost use Rattle.std.proofs.Common.{ap};

    ghost same = { λ it made. made ≡ it };

    ghost may_refuse = { λ _. ⊥ };

    fn flatten_field(self, _alloc: Global) -> Result<RtypeField, ShortBuf> {
        Ok(self)
    }

    ghost same_octets = { λ _ _ _ same. ap (λ it. to_be_bytes w16 (rtype_number it.rtype)) same };
}

/// The mnemonic, or `TYPE` and the number where there is none (RFC 3597, 5).
impl fmt::Display for RtypeField {
    ghost output = { λ it. Some (rtype_text (rtype_number it.rtype)) };

    fn fmt<W: fmt::Write>(&self, f: &mut fmt::Formatter<W>) -> fmt::Result {
        let number = self.rtype.to_int();
        match mnemonic_word(rtypes(), number) {
            Some(word) => write!(f, "{word}"),
            None => write!(f, "TYPE{number}"),
        }
    }
}
