//! Conversion of record data to record data whose names own their octets.
use crate::fields::FieldsData;
use domain_fields::{DataField, FlattenField};
use domain_traits::FlattenInto;
use octseq::{OctetsFrom, ShortBuf};
use std::alloc::Global;

/// Names are converted, and numbers stay.
impl<const TYPE: u16, F: FlattenField<Made>, Made: DataField> FlattenInto<FieldsData<TYPE, Made>>
    for FieldsData<TYPE, F> {
    ghost same = { λ it made. F.same it.fields made.fields };

    ghost may_refuse = { λ it. F.may_refuse it.fields };

    fn try_flatten_into(self, alloc: Global) -> Result<FieldsData<TYPE, Made>, ShortBuf> {
        let FieldsData { fields } = self;
        let fields = fields.flatten_field(alloc)?;
        Ok(FieldsData { fields })
    }

    fn flatten_into(self, alloc: Global) -> Result<FieldsData<TYPE, Made>, ShortBuf> {
        self.try_flatten_into(alloc)
    }
}

/// Like [`FlattenInto`]: names and octets are converted, and numbers stay.
impl<const TYPE: u16, F: FlattenField<Made>, Made: DataField> OctetsFrom<FieldsData<TYPE, F>>
    for FieldsData<TYPE, Made> {
    ghost use Rattle.domain_data.specs.Views.{fields_of};

    type Error = ShortBuf;

    ghost same = { λ source made. F.same (fields_of source) (fields_of made) };

    ghost may_refuse = { λ source. F.may_refuse (fields_of source) };

    fn try_octets_from(
        alloc: Global,
        source: FieldsData<TYPE, F>,
    ) -> Result<FieldsData<TYPE, Made>, ShortBuf> {
        source.try_flatten_into(alloc)
    }
}
