//! Names, numbers and addresses in the data of records, by how many of them come before (RFC 1035, 3.3).
ghost use Rattle.std.specs.Prelude.{◌≡◌, ◌≤◌, ◌+◌, length, IfSome, IfNone, IfOk, IfErr};
ghost use Rattle.dnsnames_c.specs.Wanted.{is_wanted, IsPlace, HasNoPlace, HasWanted, LacksWanted, lack_number};

use crate::field::{data_in, number_of_data};
use domain_descriptor::table::CLASS_IN;
use domain_descriptor::{DataFault, Field, FieldKind, known_fields};

/// The fields among which one is looked for.
#[derive(Clone, Copy, Debug, PartialEq, Eq)]
pub(crate) enum Wanted {
    /// Names.
    Name,
    /// Numbers of at most 32 bits.
    Number,
    /// Addresses.
    Address,
}

/// Why there is no such field in data.
#[derive(Clone, Copy, Debug, PartialEq, Eq)]
pub(crate) enum FieldFault {
    /// Data of this type have no such field.
    NoField,
    /// The octets are no data of this type.
    Data(DataFault),
}

/// The number of why there is no such field.
pub(crate) fn number_of_lack(fault: FieldFault) -> u32
    ensures { result ≡ lack_number fault }
{
    match fault {
        FieldFault::NoField => 21,
        FieldFault::Data(fault) => number_of_data(fault),
    }
}

/// Whether a field of this kind is one of those.
fn is_wanted(wanted: Wanted, kind: FieldKind) -> bool
    ensures { result ≡ is_wanted wanted kind }
{
    match wanted {
        Wanted::Name => matches!(kind, FieldKind::Name),
        Wanted::Number => matches!(
            kind,
            FieldKind::Number8
                | FieldKind::Number16
                | FieldKind::Number32
                | FieldKind::Ttl
                | FieldKind::Serial
                | FieldKind::Time
                | FieldKind::Rtype
        ),
        Wanted::Address => matches!(kind, FieldKind::Ipv4 | FieldKind::Ipv6),
    }
}

/// How many fields come before the wanted one that has `index` wanted ones before it. `None` where there is none.
fn place_of(kinds: &[FieldKind], wanted: Wanted, index: usize) -> Option<usize>
    ensures some { IfSome result (IsPlace wanted kinds.now index) }
    ensures none { IfNone result (HasNoPlace wanted kinds.now index) }
{
    let mut passed = 0;
    for place in 0..kinds.len() {
        if is_wanted(wanted, kinds[place]) {
            if passed == index {
                return Some(place);
            }
            passed += 1;
        }
    }
    None
}

/// The wanted field with `index` wanted ones before it in the data of a record of this type, of class `IN`. The data
/// are the `data_len` octets of the message from `data_at` on, and are read whole or not at all.
///
/// `NoField` where data of this type have no such field; otherwise the first error of the data.
#[tactic(auto, using(crate::proofs::FieldsIn::place_known, crate::proofs::FieldsIn::no_place_known, crate::proofs::FieldsIn::field_there))]
pub(crate) fn wanted_field<'m>(
    message: &'m [u8],
    data_at: usize,
    data_len: usize,
    rtype: u16,
    wanted: Wanted,
    index: usize,
) -> Result<Field<'m>, FieldFault>
    ensures ok { IfOk result (HasWanted wanted message.now data_at data_len rtype index) }
    ensures inside { IfOk result (λ it. data_at + data_len ≤ length message.now) }
    ensures err { IfErr result (LacksWanted wanted message.now data_at data_len rtype index) }
{
    let Some(place) = place_of(known_fields(rtype, CLASS_IN), wanted, index) else {
        return Err(FieldFault::NoField);
    };
    let data = match data_in(message, data_at, data_len, rtype, CLASS_IN) {
        Ok(data) => data,
        Err(fault) => return Err(FieldFault::Data(fault)),
    };
    match data.field(place) {
        Some(field) => Ok(field),
        None => unreachable!(),
    }
}
