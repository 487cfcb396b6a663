//! Record data as text: its fields by the table of types (RFC 1035, 5.1), or its octets (RFC 3597, 5).
ghost use Rattle.std.specs.Prelude.{◌≡◌, true, false, Some, is_some};
ghost use Rattle.std.specs.List.{flat_map};
ghost use Rattle.domain_any_rdata.specs.Parts.{part_of, raw_octets, rdata_parts};
ghost use Rattle.domain_any_rdata.specs.AllData.{data_of, data_parts};
ghost use Rattle.domain_any_rdata.specs.Texts.{part_text, IsTold, parts_text, text_or_nothing, plain_octets, rdata_text};
ghost use Rattle.domain_descriptor.specs.Rdatas.{field_kind, rdata_kinds};
ghost use Rattle.domain_fields.specs.Parts.{parts_octets};
ghost use Rattle.domain_rdata.specs.AnyData.{spaced_octet, unknown_text};

use crate::all::AllRecordData;
use crate::len::uncompressed_len;
use crate::reader::OctetReader;
use domain_descriptor::{Field, Rdata};
use domain_field_text::{FieldText, HexPairs, Lead, Shown, UnknownText, ZoneName};
use std::fmt;

/// Whether a field has a text of its own.
#[tactic(auto, using(crate::proofs::Telling::name_told, crate::proofs::Telling::octets_told))]
fn has_text(field: &Field<'_>) -> bool
    ensures { IsTold (field_kind field.now) (part_of field.now) result }
{
    match field.name() {
        Some(_) => true,
        None => FieldText::read(field.kind(), field.octets()).is_some(),
    }
}

/// Whether each field has a text of its own.
#[tactic(auto, using(crate::proofs::Named::all_left, crate::proofs::Named::part_taken, crate::proofs::Telling::decides_not, crate::proofs::Telling::decides_all))]
fn have_text(rdata: &Rdata<'_>) -> bool
    ensures { result ≡ is_some (parts_text true (rdata_kinds rdata.now) (rdata_parts rdata.now)) }
{
    let mut fields = rdata.fields();
    'field: while let Some(field) = fields.next() {
        if !has_text(&field) {
            return false;
        }
    }
    true
}

/// A field as text, and nothing if it has none.
#[derive(Clone, Copy)]
struct ShownField<'m> {
    field: Field<'m>,
    /// Whether no field is before it.
    first: bool,
}

impl<'m> fmt::Display for ShownField<'m> {
    ghost output = { λ it.
        Some (text_or_nothing (part_text it.first (field_kind it.field) (part_of it.field))) };

    #[tactic(auto, using(crate::proofs::Telling::name_shown, crate::proofs::Telling::held_shown, crate::proofs::Telling::nothing_shown))]
    fn fmt<W: fmt::Write>(&self, f: &mut fmt::Formatter<W>) -> fmt::Result {
        let first = self.first;
        let lead = Lead { first };
        if let Some(name) = self.field.name() {
            return write!(f, "{lead}{}", ZoneName { name: &name });
        }
        match FieldText::read(self.field.kind(), self.field.octets()) {
            Some(text) => write!(f, "{}", Shown { text, first }),
            None => Ok(()),
        }
    }
}

/// The octets with no name compressed, each as a space and two hexadecimal digits.
#[derive(Clone, Copy)]
struct PlainPairs<'m> {
    rdata: Rdata<'m>,
}

impl<'m> fmt::Display for PlainPairs<'m> {
    ghost output = { λ it.
        Some (flat_map spaced_octet (parts_octets false (rdata_parts it.rdata))) };

    #[tactic(auto, using(crate::proofs::Telling::pairs_all, crate::proofs::Cutting::fewer_left))]
    fn fmt<W: fmt::Write>(&self, f: &mut fmt::Formatter<W>) -> fmt::Result {
        let mut left = OctetReader::new(&self.rdata, false);
        'octets: while left.fill() {
            let octets = left.first();
            let n = octets.len();
            write!(f, "{}", HexPairs { octets })?;
            left.skip(n);
        }
        Ok(())
    }
}

/// Data in the form for unknown types: `\#`, the number of its octets, and these (RFC 3597, 5).
#[derive(Clone, Copy)]
struct PlainText<'m> {
    data: AllRecordData<'m>,
}

impl<'m> fmt::Display for PlainText<'m> {
    ghost output = { λ it.
        Some (unknown_text
        (plain_octets (parts_octets false (data_parts it.data)) (raw_octets (data_of it.data)))) };

    #[tactic(auto, using(crate::proofs::Telling::plain_whole, crate::proofs::Telling::plain_raw))]
    fn fmt<W: fmt::Write>(&self, f: &mut fmt::Formatter<W>) -> fmt::Result {
        let rdata = self.data.rdata();
        let Some(len) = uncompressed_len(&rdata) else {
            let octets = self.data.octets();
            return write!(f, "{}", UnknownText { octets });
        };
        write!(f, "\\# {len}{}", PlainPairs { rdata })
    }
}

/// The fields, with a space between two words: names with their final dot, and with a backslash before what has a
/// meaning in a zone (RFC 1035, 5.1). Data with a field that has no text of its own is `\#`, the number of its octets,
/// and these: names are uncompressed, and keep their case (RFC 3597, 4 and 5). Where these would be more than the
/// 65,535 octets that data has at most, they are those of the message.
impl<'m> fmt::Display for AllRecordData<'m> {
    ghost output = { λ it. Some (rdata_text (data_of it)) };

    #[tactic(auto, using(crate::proofs::Named::all_left, crate::proofs::Telling::told_first, crate::proofs::Telling::told_all, crate::proofs::Telling::untold))]
    fn fmt<W: fmt::Write>(&self, f: &mut fmt::Formatter<W>) -> fmt::Result {
        let rdata = self.rdata();
        if !have_text(&rdata) {
            return write!(f, "{}", PlainText { data: *self });
        }
        let mut first = true;
        let mut fields = rdata.fields();
        'field: while let Some(field) = fields.next() {
            write!(f, "{}", ShownField { field, first })?;
            first = false;
        }
        Ok(())
    }
}
