//! Facts on the definitions of record data.
ghost use Rattle.std.specs.Prelude.{◌≡◌};
ghost use Rattle.domain_descriptor.specs.Fields.{FieldsAt, FieldsFault, AreData, AreNoData};

/// Facts on record data. The call does nothing: its contract is the facts.
///
/// Fields of some kinds end at one offset. Where they are, none of them is missing; and octets that are data are no
/// others.
pub fn data_laws()
    ensures once { (kinds m p e f : _) → FieldsAt kinds m p e → FieldsAt kinds m p f → e ≡ f }
    ensures fields { (kinds m p e why : _) → FieldsAt kinds m p e → FieldsFault kinds m p why → ⊥ }
    ensures not_both { (kinds m p why : _) → AreData kinds m p → AreNoData kinds m p why → ⊥ }
{}
