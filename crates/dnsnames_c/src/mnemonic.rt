//! Types, classes and codes as text.
ghost use Rattle.std.specs.Prelude.{◌≤◌, length, codes};
ghost use Rattle.domain_header.specs.Mnemonics.{rows_of};
ghost use Rattle.domain_header.specs.Rtypes.{rtype_rows, rtype_text};
ghost use Rattle.domain_header.specs.Tables.{class_rows, class_text, opcode_rows, opcode_text, response_rows, response_text};
ghost use Rattle.dnsnames_c.specs.Answers.{Gives};
ghost use Rattle.dnsnames_c.specs.Mnemonics.{GivesTextOf, GivesNumber};

use crate::put::give;
use arrayvec::ArrayVec;
use domain_header::class::classes;
use domain_header::code::{extended_rcodes, opcodes};
use domain_header::mnemonic::{Mnemonic, mnemonic_word};
use domain_header::numbered::named_number;
use domain_header::rtypes::rtypes;
use itoa::Buffer;
use std::str::from_utf8;

/// Gives the text of a number: its mnemonic in the table, or the word and the number in decimal digits.
fn give_text(table: &[Mnemonic], word: &str, number: u16, buffer: &mut [u8], len: &mut usize) -> u32
    requires { length word.now ≤ 6 }
    ensures { GivesTextOf (rows_of table.now) word.now number result buffer.old buffer.new len.new }
{
    if let Some(mnemonic) = mnemonic_word(table, number) {
        return give(mnemonic.as_bytes(), buffer, len);
    }
    let mut digits = Buffer::new();
    let digits = digits.format(number);
    let mut text = ArrayVec::<u8, 48>::new();
    let Ok(()) = text.try_extend_from_slice(word.as_bytes()) else {
        unreachable!();
    };
    let Ok(()) = text.try_extend_from_slice(digits.as_bytes()) else {
        unreachable!();
    };
    give(text.as_slice(), buffer, len)
}

/// Gives the number below the bound that a text names.
fn give_number(table: &[Mnemonic], word: &str, bound: u32, text: &[u8], number: &mut u16) -> u32
    ensures { GivesNumber (rows_of table.now) word.now bound text.now result number.old number.new }
{
    let Ok(text) = from_utf8(text) else {
        return 22;
    };
    let Some(named) = named_number(table, word, text) else {
        return 22;
    };
    if u32::from(named) >= bound {
        return 22;
    }
    *number = named;
    0
}

/// The text of a type into the buffer: its mnemonic, or `TYPE` and its number in decimal digits where there is none
/// (RFC 3597, 5). `length` becomes its size, at most 10. 8 where it doesn't fit.
#[unsafe(no_mangle)]
pub extern "C" fn dnsnames_type_text(rtype: u16, buffer: &mut [u8], length: &mut usize) -> u32
    ensures { Gives (rtype_text rtype) result buffer.old buffer.new length.new }
{
    give_text(rtypes(), "TYPE", rtype, buffer, length)
}

/// The number of the type that a text names: by its mnemonic, or by `TYPE` immediately followed by the number in
/// decimal digits (RFC 3597, 5), ignoring ASCII case. 22 where it names none: nothing is changed.
#[unsafe(no_mangle)]
pub extern "C" fn dnsnames_type_from_text(text: &[u8], rtype: &mut u16) -> u32
    ensures { GivesNumber rtype_rows (codes "TYPE") 65536 text.now result rtype.old rtype.new }
{
    give_number(rtypes(), "TYPE", 65536, text, rtype)
}

/// The text of a class into the buffer: its mnemonic, or `CLASS` and its number in decimal digits where there is none
/// (RFC 3597, 5). `length` becomes its size, at most 10. 8 where it doesn't fit.
#[unsafe(no_mangle)]
pub extern "C" fn dnsnames_class_text(class: u16, buffer: &mut [u8], length: &mut usize) -> u32
    ensures { Gives (class_text class) result buffer.old buffer.new length.new }
{
    give_text(classes(), "CLASS", class, buffer, length)
}

/// The number of the class that a text names: by its mnemonic, or by `CLASS` immediately followed by the number in
/// decimal digits (RFC 3597, 5), ignoring ASCII case. 22 where it names none: nothing is changed.
#[unsafe(no_mangle)]
pub extern "C" fn dnsnames_class_from_text(text: &[u8], class: &mut u16) -> u32
    ensures { GivesNumber class_rows (codes "CLASS") 65536 text.now result class.old class.new }
{
    give_number(classes(), "CLASS", 65536, text, class)
}

/// The text of a kind of query (RFC 1035, 4.1.1) into the buffer: its mnemonic, or `OPCODE` and its number in decimal
/// digits where there is none. `length` becomes its size, at most 11. 8 where it doesn't fit.
#[unsafe(no_mangle)]
pub extern "C" fn dnsnames_opcode_text(opcode: u16, buffer: &mut [u8], length: &mut usize) -> u32
    ensures { Gives (opcode_text opcode) result buffer.old buffer.new length.new }
{
    give_text(opcodes(), "OPCODE", opcode, buffer, length)
}

/// The number of the kind of query that a text names: by its mnemonic, or by `OPCODE` immediately followed by the
/// number in decimal digits, ignoring ASCII case. 22 where it names none of four bits: nothing is changed.
#[unsafe(no_mangle)]
pub extern "C" fn dnsnames_opcode_from_text(text: &[u8], opcode: &mut u16) -> u32
    ensures { GivesNumber opcode_rows (codes "OPCODE") 16 text.now result opcode.old opcode.new }
{
    give_number(opcodes(), "OPCODE", 16, text, opcode)
}

/// The text of a response code into the buffer, of a header (RFC 1035, 4.1.1) or with the eight bits more of an OPT
/// record (RFC 6891, 6.1.3): its mnemonic, or `RCODE` and its number in decimal digits where there is none. `length`
/// becomes its size, at most 10. 8 where it doesn't fit.
#[unsafe(no_mangle)]
pub extern "C" fn dnsnames_rcode_text(rcode: u16, buffer: &mut [u8], length: &mut usize) -> u32
    ensures { Gives (response_text rcode) result buffer.old buffer.new length.new }
{
    give_text(extended_rcodes(), "RCODE", rcode, buffer, length)
}

/// The number of the response code that a text names: by its mnemonic, or by `RCODE` immediately followed by the
/// number in decimal digits, ignoring ASCII case. 22 where it names none of twelve bits: nothing is changed.
#[unsafe(no_mangle)]
pub extern "C" fn dnsnames_rcode_from_text(text: &[u8], rcode: &mut u16) -> u32
    ensures { GivesNumber response_rows (codes "RCODE") 4096 text.now result rcode.old rcode.new }
{
    give_number(extended_rcodes(), "RCODE", 4096, text, rcode)
}
