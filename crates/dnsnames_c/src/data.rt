//! Names, numbers and addresses in the data of records (RFC 1035, 3.3).
ghost use Rattle.std.specs.Prelude.{◌≡◌, ◌+◌, ◌≤◌, length, true, Some};
ghost use Rattle.domain_descriptor.specs.Values.{number_in, size_of};
ghost use Rattle.domain_reading.specs.Faults.{NameFaultAt};
ghost use Rattle.domain_reading.specs.Limits.{max_pointers};
ghost use Rattle.domain_reading.specs.declared.fault.NameFault.{NameFault};
ghost use Rattle.dnsnames_c.specs.Data.{GivesNameAt, GivesDataName, GivesDataNumber, GivesDataAddress};
ghost use Rattle.dnsnames_c.specs.Wanted.{is_wanted};
ghost use Rattle.dnsnames_c.specs.declared.wanted.Wanted.TheVariants.{Number};

use crate::put::give;
use crate::wanted::{Wanted, number_of_lack, wanted_field};
use domain_buffer::read::read_into;
use domain_descriptor::FieldKind;
use domain_header::numbers::{number_of_16_bits, number_of_32_bits};

/// Gives the name at an offset, where one can be read.
fn give_name(octets: &[u8], begin: usize, buffer: &mut [u8], length: &mut usize) -> u32
    requires { (f : NameFault) → NameFaultAt max_pointers octets.now begin f → ⊥ }
    ensures { GivesNameAt octets.now begin result buffer.old buffer.new length.new }
{
    let mut name = [0; 255];
    let Ok(found) = read_into(octets, begin, 255, &mut name) else {
        unreachable!();
    };
    give(&name[..found.len], buffer, length)
}

/// Writes the name with `index` names before it in the data of a record of this type, of class `IN`, into the buffer,
/// with no pointer in it. `length` becomes its size. The data are the `data_len` octets of the message from `data_at`
/// on. The name's octets end inside the data; its pointers lead back, as far as the message goes.
///
/// Returns 21 if data of this type have no such name. The data are read whole or not at all: otherwise returns the
/// number of their first error, as `dnsnames_data_field` does. In each of these cases nothing is changed. Returns 8 if
/// the name doesn't fit into the buffer, which then stays unchanged.
#[unsafe(no_mangle)]
#[tactic(auto, using(crate::proofs::FieldsIn::name_there, crate::proofs::Given::name_given))]
pub extern "C" fn dnsnames_data_name(
    message: &[u8],
    data_at: usize,
    data_len: usize,
    rtype: u16,
    index: usize,
    buffer: &mut [u8],
    length: &mut usize,
) -> u32
    ensures { GivesDataName message.now data_at data_len rtype index result buffer.old buffer.new
        length.old length.new }
{
    let field = match wanted_field(message, data_at, data_len, rtype, Wanted::Name, index) {
        Ok(field) => field,
        Err(fault) => return number_of_lack(fault),
    };
    let octets = &message[..data_at + data_len];
    give_name(octets, field.begin(), buffer, length)
}

/// The number at an offset that a field of this kind is, of at most 32 bits.
fn number_at(kind: FieldKind, message: &[u8], at: usize) -> u32
    requires number { is_wanted Number kind ≡ true }
    requires inside { at + size_of kind ≤ length message.now }
    ensures { number_in kind message.now at ≡ Some result }
{
    match kind {
        FieldKind::Number8 => u32::from(message[at]),
        FieldKind::Number16 => u32::from(number_of_16_bits(message, at)),
        FieldKind::Rtype => u32::from(number_of_16_bits(message, at)),
        FieldKind::Number32 => number_of_32_bits(message, at),
        FieldKind::Ttl => number_of_32_bits(message, at),
        FieldKind::Serial => number_of_32_bits(message, at),
        FieldKind::Time => number_of_32_bits(message, at),
        _ => unreachable!(),
    }
}

/// Gives the number with `index` numbers before it in the data of a record of this type, of class `IN`. The data are
/// the `data_len` octets of the message from `data_at` on. Only numbers of at most 32 bits are counted and given.
///
/// Returns 21 if data of this type have no such number, and otherwise the number of the data's first error, as
/// `dnsnames_data_name` does. In each of these cases nothing is changed.
#[unsafe(no_mangle)]
#[tactic(auto, using(crate::proofs::FieldsIn::number_kind, crate::proofs::FieldsIn::number_there, crate::proofs::Given::number_given))]
pub extern "C" fn dnsnames_data_number(
    message: &[u8],
    data_at: usize,
    data_len: usize,
    rtype: u16,
    index: usize,
    value: &mut u32,
) -> u32
    ensures { GivesDataNumber message.now data_at data_len rtype index result value.old value.new }
{
    let field = match wanted_field(message, data_at, data_len, rtype, Wanted::Number, index) {
        Ok(field) => field,
        Err(fault) => return number_of_lack(fault),
    };
    let octets = &message[..data_at + data_len];
    *value = number_at(field.kind(), octets, field.begin());
    0
}

/// Writes the first address in the data of a record of this type, of class `IN`, into the buffer: 4 octets of an IPv4
/// address (RFC 1035, 3.4.1), 16 of an IPv6 address (RFC 3596, 2.2). `length` becomes its size. The data are the
/// `data_len` octets of the message from `data_at` on.
///
/// Returns 21 if data of this type have no address, and otherwise the number of the data's first error, as
/// `dnsnames_data_name` does. In each of these cases nothing is changed. Returns 8 if the address doesn't fit into the
/// buffer, which then stays unchanged.
#[unsafe(no_mangle)]
#[tactic(auto, using(crate::proofs::Given::address_given))]
pub extern "C" fn dnsnames_data_address(
    message: &[u8],
    data_at: usize,
    data_len: usize,
    rtype: u16,
    buffer: &mut [u8],
    length: &mut usize,
) -> u32
    ensures { GivesDataAddress message.now data_at data_len rtype result buffer.old buffer.new
        length.old length.new }
{
    match wanted_field(message, data_at, data_len, rtype, Wanted::Address, 0) {
        Ok(field) => give(field.octets(), buffer, length),
        Err(fault) => number_of_lack(fault),
    }
}
