//! Values of fields.
ghost use Rattle.std.specs.Prelude.{◌≡◌, ◌≤◌, ◌+◌, ◌*◌, ◌↔◌, length, false, IfSome, IfNone};
ghost use Rattle.domain_parsed.specs.ParsedNames.{parsed_octets, parsed_labels, may_be_compressed};
ghost use Rattle.domain_reading.specs.Faults.{NameFaultAt};
ghost use Rattle.domain_reading.specs.Grammar.{Names, IsContiguous};
ghost use Rattle.domain_reading.specs.declared.fault.NameFault.{NameFault};
ghost use Rattle.domain_descriptor.specs.Values.{number_in, size_of};

use crate::kind::FieldKind;
use domain_header::numbers::{number_of_16_bits, number_of_32_bits};
use domain_parsed::ParsedName;
use octseq::Parser;

/// The number of 64 bits that two numbers of 32 bits make, the high one first.
fn joined(high: u32, low: u32) -> u64
    ensures { result ≡ high * 4294967296 + low }
{
    u64::from(high) * 4294967296 + u64::from(low)
}

/// The number at an offset, where a field of this kind is one.
pub(crate) fn number_at(kind: FieldKind, message: &[u8], at: usize) -> Option<u64>
    requires { at + size_of kind ≤ length message.now }
    ensures { result ≡ number_in kind message.now at }
{
    match kind {
        FieldKind::Number8 => Some(u64::from(message[at])),
        FieldKind::Number16 => Some(u64::from(number_of_16_bits(message, at))),
        FieldKind::Number32 => Some(u64::from(number_of_32_bits(message, at))),
        FieldKind::Number48 => Some(joined(
            u32::from(number_of_16_bits(message, at)),
            number_of_32_bits(message, at + 2),
        )),
        FieldKind::Number64 => Some(joined(
            number_of_32_bits(message, at),
            number_of_32_bits(message, at + 4),
        )),
        FieldKind::Ttl => Some(u64::from(number_of_32_bits(message, at))),
        FieldKind::Serial => Some(u64::from(number_of_32_bits(message, at))),
        FieldKind::Time => Some(u64::from(number_of_32_bits(message, at))),
        FieldKind::Rtype => Some(u64::from(number_of_16_bits(message, at))),
        _ => None,
    }
}

/// The name at an offset, through at most 255 pointers.
#[tactic(auto, using(crate::proofs::Whole::named_here, crate::proofs::Whole::contiguous_here, crate::proofs::Whole::fault_here))]
pub(crate) fn name_at<'m>(message: &'m [u8], at: usize) -> Option<ParsedName<&'m [u8]>>
    requires { at ≤ length message.now }
    ensures some { IfSome result (λ name. Names 255 message.now at (parsed_labels name)) }
    ensures octets { IfSome result (λ name. parsed_octets name ≡ message.now) }
    ensures is_compressed { IfSome result
        (λ name. (may_be_compressed name ≡ false) ↔ IsContiguous message.now at) }
    ensures none { IfNone result ((f : NameFault) × NameFaultAt 255 message.now at f) }
{
    let mut parser = Parser::with_range(message, at..message.len());
    match ParsedName::parse(&mut parser) {
        Ok(name) => Some(name),
        Err(_fault) => None,
    }
}
