//! The length of record data with no name compressed.
ghost use Rattle.std.specs.Prelude.{◌≡◌, ◌<◌, ◌↔◌, length, false, IfSome, IsNone};
ghost use Rattle.domain_fields.specs.Parts.{part_octets, parts_octets};
ghost use Rattle.domain_any_rdata.specs.Parts.{part_of, rdata_parts};

use domain_descriptor::{Field, Rdata};
use domain_list::NameLabels;

/// Returns the length of a field: for a name, that of its uncompressed encoding.
#[tactic(auto, using(crate::proofs::Named::octets_part))]
fn field_len(field: &Field<'_>) -> usize
    ensures { result ≡ length (part_octets false (part_of field.now)) }
{
    match field.name() {
        Some(name) => usize::from(name.compose_len()),
        None => field.octets().len(),
    }
}

/// Returns the length with no name compressed, or `None` if it exceeds 65,535.
#[tactic(auto, using(crate::proofs::Named::all_left, crate::proofs::Named::none_left, crate::proofs::Lengths::too_many, crate::proofs::Lengths::all_counted))]
pub(crate) fn uncompressed_len(rdata: &Rdata<'_>) -> Option<u16>
    ensures some { IfSome result (λ n. length (parts_octets false (rdata_parts rdata.now)) ≡ n) }
    ensures none { IsNone result
        ↔ (65535 < length (parts_octets false (rdata_parts rdata.now))) }
{
    let mut len: usize = 0;
    let mut fields = rdata.fields();
    'field: while let Some(field) = fields.next() {
        let n = field_len(&field);
        if n > 65535 - len {
            return None;
        }
        len += n;
    }
    Some(len as u16)
}
