//! Data that shows that a name or a type isn't there (RFC 4034, 4).
ghost use Rattle.std.specs.Prelude.{◌≡◌};

use crate::fields::FieldsData;
use domain_dnssec::TypeBitmaps;
use domain_fields::{Sequence, UncompressedNameField};
use octseq::Octets;

/// The next name of the zone that has records, and the types that the owner has. The name is never compressed, and
/// keeps its case in the canonical form (RFC 4034, 4, and RFC 6840, 5.1).
pub type Nsec<Octs, N> = FieldsData<47, Sequence<UncompressedNameField<N>, TypeBitmaps<Octs>>>;

impl<Octs: Octets, N> Nsec<Octs, N> {
    ghost use Rattle.domain_data.specs.Views.{type_of};
    ghost use Rattle.domain_data.specs.SignatureFields.{nsec_next_name, nsec_types};

    /// Data of these.
    pub fn new(next_name: N, types: TypeBitmaps<Octs>) -> Nsec<Octs, N>
        ensures next_name { nsec_next_name result ≡ next_name }
        ensures types { nsec_types result ≡ types }
        ensures of_type { type_of result ≡ 47 }
    {
        FieldsData {
            fields: Sequence {
                first: UncompressedNameField { name: next_name },
                rest: types,
            },
        }
    }

    /// The next name, in the canonical order, of those that have records that are signed. At the last one it is the
    /// zone's own.
    pub fn next_name(&self) -> &N
        ensures { result.now ≡ nsec_next_name self.now }
    {
        &self.fields.first.name
    }

    /// The types of records that the owner has.
    pub fn types(&self) -> &TypeBitmaps<Octs>
        ensures { result.now ≡ nsec_types self.now }
    {
        &self.fields.rest
    }
}
