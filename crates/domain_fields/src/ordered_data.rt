//! Record data by its octets: order and hash (RFC 4034, 6.3).
ghost use Rattle.std.specs.Prelude.{◌≡◌, false, true, List, ℕ, Bool, refl};
ghost use Rattle.domain_fields.specs.Cases.{lowercase_where_known};
ghost use Rattle.domain_fields.specs.Orders.{octets_order, hashed};

use crate::hash::hash_octets;
use domain_rdata::{ComposeRecordData, UnknownRecordData};
use octseq::Octets;
use std::cmp::Ordering;
use std::hash::Hasher;

/// Record data that is compared and hashed as its octets with no name compressed.
pub trait OrderedData: ComposeRecordData {
    /// These octets, with names in lowercase if so.
    ghost cased: { Self → Bool → List ℕ };

    /// The order of these octets from the left; what begins another comes first (RFC 4034, 6.3).
    fn cased_data_cmp(&self, other: &Self, lowercase: bool) -> Ordering
        ensures { result ≡ octets_order cased lowercase self.now other.now };

    /// Writes these octets, names in lowercase, to the hasher, each as one `u8`.
    fn hash_data<H: Hasher>(&self, state: &mut H)
        ensures { state.new ≡ hashed H.write (cased self.now true) state.old };

    /// With their case they are the octets that are composed where nothing is compressed.
    ghost keeps_case: { (it : Self) → cased it false ≡ Self.uncompressed it };

    /// In lowercase they are those of the data in lowercase, or, where the names aren't known, the same as with their
    /// case.
    ghost lowers_case: { (it : Self) →
        cased it true ≡ lowercase_where_known (Self.lowercase it) (Self.uncompressed it) };
}

/// No name is seen in octets of a type that isn't known.
impl<Octs: Octets> OrderedData for UnknownRecordData<Octs> {
    ghost use Rattle.domain_rdata.specs.Unknown.{data_octets};

    ghost cased = { λ it _. data_octets it };

    fn cased_data_cmp(&self, other: &UnknownRecordData<Octs>, _lowercase: bool) -> Ordering {
        self.data().as_slice().cmp(other.data().as_slice())
    }

    fn hash_data<H: Hasher>(&self, state: &mut H) {
        hash_octets(self.data().as_slice(), state);
    }

    ghost keeps_case = { λ _. refl };

    ghost lowers_case = { λ _. refl };
}
