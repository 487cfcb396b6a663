//! What is composed for data is read back.
ghost use Rattle.domain_fields.specs.Data.{AllAt};

use crate::fields::FieldsData;
use domain_fields::{ReadBackData, ReadBackLast};

/// Each field: the same numbers and addresses, and names that are equal ignoring ASCII case.
impl<const TYPE: u16, F: ReadBackLast> ReadBackData for FieldsData<TYPE, F> {
    ghost use Rattle.domain_data.specs.Views.{fields_of};

    ghost Seen = { F.Seen };

    ghost seen_at = { λ _. AllAt F.seen_at };

    ghost like = { λ it. F.like (fields_of it) };

    ghost moves = { λ it. F.moves (fields_of it) };

    fn reads_back(&self) {
        self.fields.reads_back_last()
    }
}
