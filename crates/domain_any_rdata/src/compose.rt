//! Composes record data by one loop over its fields: names as names, all other fields as their octets.
ghost use Rattle.std.specs.Prelude.{◌≡◌, ◌≤◌, ◌<◌, length, OnOk, OnErr};
ghost use Rattle.octseq.specs.Appending.{TooFull};
ghost use Rattle.domain_label.specs.Wire.{wire};
ghost use Rattle.domain_list.specs.Targets.{NameFollows, NameLacksRoom};
ghost use Rattle.domain_parsed.specs.ParsedNames.{parsed_labels};
ghost use Rattle.domain_rdata.specs.Targets.{RemembersAsBefore, Grows, LeftTo};
ghost use Rattle.domain_fields.specs.Cases.{cased_labels};
ghost use Rattle.domain_fields.specs.Parts.{a_name, part_octets, parts_octets};
ghost use Rattle.domain_any_rdata.specs.Composing.{PartComposed, PartsComposed, part_written, parts_written, lowers};
ghost use Rattle.domain_any_rdata.specs.Parts.{part_of, rdata_parts};

use crate::name_form::NameForm;
use domain_descriptor::{Field, Rdata};
use domain_fields::DataName;
use domain_parsed::ParsedName;
use domain_rdata::Composer;
use domain_traits::ToName;
use octseq::{Octets, OctetsBuilder, Truncate};

/// Appends an uncompressed name, in lowercase if `lowercase`. An error leaves the octets unchanged.
fn append_whole<T: Composer>(
    name: &ParsedName<&[u8]>,
    lowercase: bool,
    target: &mut T,
) -> Result<(), T::AppendError>
    ensures ok { OnOk result
        (NameFollows T.Octets (cased_labels lowercase (parsed_labels name.now)) target.old
        target.new) }
    ensures extends { OnOk result
        (T.extends target.old (wire (cased_labels lowercase (parsed_labels name.now)))
        target.new) }
    ensures memory { RemembersAsBefore T.Composer target.old target.new }
    ensures unchanged { OnErr result (T.octets target.new ≡ T.octets target.old) }
    ensures full { OnErr result
        (NameLacksRoom T.Octets (cased_labels lowercase (parsed_labels name.now)) target.old) }
    ensures capacity { T.capacity target.old ≤ T.capacity target.new }
{
    match lowercase {
        true => name.compose_canonical(target),
        false => name.compose(target),
    }
}

/// Appends a name in this form. An error leaves the octets unchanged.
fn append_name<T: Composer>(
    name: &ParsedName<&[u8]>,
    how: NameForm,
    target: &mut T,
) -> Result<(), T::AppendError>
    ensures ok { OnOk result
        (Grows T.Composer (PartComposed (a_name (parsed_labels name.now)) how) target.old
        target.new) }
    ensures names { OnOk result
        (LeftTo T.Composer (part_written (a_name (parsed_labels name.now)) how) target.old
        target.new) }
    ensures memory { RemembersAsBefore T.Composer target.old target.new }
    ensures unchanged { OnErr result (T.octets target.new ≡ T.octets target.old) }
    ensures full { OnErr result (TooFull T.Octets target.old
        (part_octets (lowers how) (a_name (parsed_labels name.now)))) }
    ensures some { OnErr result
        (0 < length (part_octets (lowers how) (a_name (parsed_labels name.now)))) }
    ensures capacity { T.capacity target.old ≤ T.capacity target.new }
{
    match how {
        NameForm::Compressed => name.append_name(target),
        NameForm::Whole(lowercase) => append_whole(name, lowercase, target),
    }
}

/// Appends a field: a name in this form, any other field as its octets. An error leaves the octets unchanged.
#[tactic(auto, using(crate::proofs::Named::octets_part))]
fn append_field<T: Composer>(
    field: &Field<'_>,
    how: NameForm,
    target: &mut T,
) -> Result<(), T::AppendError>
    ensures ok { OnOk result
        (Grows T.Composer (PartComposed (part_of field.now) how) target.old target.new) }
    ensures names { OnOk result
        (LeftTo T.Composer (part_written (part_of field.now) how) target.old target.new) }
    ensures memory { RemembersAsBefore T.Composer target.old target.new }
    ensures unchanged { OnErr result (T.octets target.new ≡ T.octets target.old) }
    ensures full { OnErr result
        (TooFull T.Octets target.old (part_octets (lowers how) (part_of field.now))) }
    ensures some { OnErr result (0 < length (part_octets (lowers how) (part_of field.now))) }
    ensures capacity { T.capacity target.old ≤ T.capacity target.new }
{
    match field.name() {
        Some(name) => append_name(&name, how, target),
        None => target.append_slice(field.octets()),
    }
}

/// Appends the fields, one after another, with names in this form. An error leaves the octets unchanged.
#[tactic(auto, using(crate::proofs::Named::all_left, crate::proofs::Named::none_left, crate::proofs::Composed::still_start, crate::proofs::Composed::still_full, crate::proofs::Composed::still_some, crate::proofs::Composed::still_forgotten, crate::proofs::Composed::all_grown, crate::proofs::Composed::all_written))]
pub(crate) fn compose_fields<T: Composer>(
    rdata: &Rdata<'_>,
    how: NameForm,
    target: &mut T,
) -> Result<(), T::AppendError>
    ensures ok { OnOk result
        (Grows T.Composer (PartsComposed (rdata_parts rdata.now) how) target.old target.new) }
    ensures names { OnOk result
        (LeftTo T.Composer (parts_written (rdata_parts rdata.now) how) target.old target.new) }
    ensures memory { RemembersAsBefore T.Composer target.old target.new }
    ensures unchanged { OnErr result (T.octets target.new ≡ T.octets target.old) }
    ensures full { OnErr result
        (TooFull T.Octets target.old (parts_octets (lowers how) (rdata_parts rdata.now))) }
    ensures some { OnErr result
        (0 < length (parts_octets (lowers how) (rdata_parts rdata.now))) }
    ensures capacity { T.capacity target.old ≤ T.capacity target.new }
{
    let start = target.as_slice().len();
    let mut fields = rdata.fields();
    'field: while let Some(field) = fields.next() {
        if let Err(e) = append_field(&field, how, target) {
            target.truncate(start);
            return Err(e);
        }
    }
    Ok(())
}
