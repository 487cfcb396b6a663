//! Fields in the data of records, by the table of types (RFC 1035, 3.3).
ghost use Rattle.std.specs.Prelude.{◌≡◌, ◌≢◌, IfOk, IfErr};
ghost use Rattle.dnsnames_c.specs.Fields.{AreNoDataIn, ReadsData, GivesDataField};
ghost use Rattle.dnsnames_c.specs.Status.{data_number, kind_number};

use crate::read::number_of;
use domain_descriptor::{DataFault, FieldKind, Rdata};

/// The number of why octets aren't data of a type.
pub(crate) fn number_of_data(fault: DataFault) -> u32
    ensures { result ≡ data_number fault }
{
    match fault {
        DataFault::ShortInput => 1,
        DataFault::Name(fault) => number_of(fault),
        DataFault::InvalidTag => 32,
        DataFault::EmptyHash => 33,
        DataFault::WindowOrder => 34,
        DataFault::BitmapLength => 35,
        DataFault::KeyOrder => 36,
        DataFault::TrailingData => 7,
    }
}

/// The number of a kind of fields.
fn number_of_kind(kind: FieldKind) -> u32
    ensures { result ≡ kind_number kind }
{
    match kind {
        FieldKind::Number8 => 1,
        FieldKind::Number16 => 2,
        FieldKind::Number32 => 3,
        FieldKind::Number48 => 4,
        FieldKind::Number64 => 5,
        FieldKind::Ttl => 6,
        FieldKind::Serial => 7,
        FieldKind::Time => 8,
        FieldKind::Rtype => 9,
        FieldKind::Ipv4 => 10,
        FieldKind::Ipv6 => 11,
        FieldKind::Name => 12,
        FieldKind::CharString => 13,
        FieldKind::OptionalString => 14,
        FieldKind::CharStrings => 15,
        FieldKind::Tag => 16,
        FieldKind::QuotedText => 17,
        FieldKind::CountedBase16 => 18,
        FieldKind::CountedBase32 => 19,
        FieldKind::CountedBase64 => 20,
        FieldKind::TypeBitmaps => 21,
        FieldKind::OptionalTypeBitmaps => 22,
        FieldKind::SvcParams => 23,
        FieldKind::Base16 => 24,
        FieldKind::Base64 => 25,
        FieldKind::Octets => 26,
    }
}

/// The data of a record of this type in this class, which are the `data_len` octets of the message from `data_at` on.
pub(crate) fn data_in<'m>(
    message: &'m [u8],
    data_at: usize,
    data_len: usize,
    rtype: u16,
    class: u16,
) -> Result<Rdata<'m>, DataFault>
    ensures ok { IfOk result (ReadsData message.now data_at data_len rtype class) }
    ensures err { IfErr result (AreNoDataIn message.now data_at data_len rtype class) }
{
    if data_at > message.len() || message.len() - data_at < data_len {
        return Err(DataFault::ShortInput);
    }
    Rdata::parse(rtype, class, &message[..data_at + data_len], data_at)
}

/// Gives the field with `index` fields before it in the data of a record of this type in this class. The data are the
/// `data_len` octets of the message from `data_at` on. `kind` becomes the number of its kind, `begin` and `end` the
/// offsets in the message at which it begins and after it. `number` becomes the number that it is, of at most 64 bits,
/// or 0 where it is none. Data of which nothing is known is one field of octets.
///
/// Returns 27 if the data have no more than `index` fields. The data are read whole or not at all: otherwise returns
/// the number of the first error from the left. It is 1 if the data end past the message, in a field or where one is
/// due, and 1 to 4 as `dnsnames_read` returns for a name. It is 32 if a tag is empty or has another octet than letters
/// and digits, and 33 if the hash of NSEC3 is empty. It is 34 if the windows of a type bitmap don't ascend, and 35 if
/// one of its blocks has no octet or more than 32. It is 36 if the keys of service parameters don't ascend, and 7 if
/// octets follow the last field. In each of these cases nothing is changed.
#[unsafe(no_mangle)]
#[tactic(auto, using(crate::proofs::Given::field_given, crate::proofs::Given::no_more_given, crate::proofs::Given::fault_given))]
pub extern "C" fn dnsnames_data_field(
    message: &[u8],
    data_at: usize,
    data_len: usize,
    rtype: u16,
    class: u16,
    index: usize,
    kind: &mut u32,
    begin: &mut usize,
    end: &mut usize,
    number: &mut u64,
) -> u32
    ensures given { GivesDataField message.now data_at data_len rtype class index result
        kind.new begin.new end.new number.new }
    ensures kind { result ≢ 0 → kind.new ≡ kind.old }
    ensures begin { result ≢ 0 → begin.new ≡ begin.old }
    ensures end { result ≢ 0 → end.new ≡ end.old }
    ensures number { result ≢ 0 → number.new ≡ number.old }
{
    let data = match data_in(message, data_at, data_len, rtype, class) {
        Ok(data) => data,
        Err(fault) => return number_of_data(fault),
    };
    let Some(field) = data.field(index) else {
        return 27;
    };
    *kind = number_of_kind(field.kind());
    *begin = field.begin();
    *end = field.end();
    *number = field.number().unwrap_or(0);
    0
}
