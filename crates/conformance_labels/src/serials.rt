//! Serial numbers.

use crate::answer::{Answer, Fail};
use domain_serial::Serial;
use domain_wire::CanonicalOrd;
use octseq::Parser;

fn serial_of(digits: &[u8]) -> Option<Serial> {
    str::from_utf8(digits).ok()?.parse::<Serial>().ok()
}

fn number_of(digits: &[u8]) -> Option<u32> {
    str::from_utf8(digits).ok()?.parse::<u32>().ok()
}

/// `serial A B`
pub fn put_serial(out: &Answer, a: &[u8], b: &[u8]) {
    let Some(a) = serial_of(a) else {
        return out.fail(Fail::Bad);
    };
    let Some(b) = serial_of(b) else {
        return out.fail(Fail::Bad);
    };
    match a.partial_cmp(&b) {
        Some(order) => out.put_order(b"", order),
        None => out.put(b"none"),
    }
    // The canonical order is that of the numbers.
    let order = a.into_int().cmp(&b.into_int());
    out.agree_all(
        b"==;canonical_cmp",
        &[(a == b) == order.is_eq(), a.canonical_cmp(&b) == order],
    );
    is_written(out, a);
    out.shown_alike(a, a.into_int(), b"text");
}

/// A serial's octets are those of its number.
fn is_written(out: &Answer, serial: Serial) {
    let number = serial.into_int();
    let octets = number.to_be_bytes();
    out.agree_all(
        b"from_be_bytes;from;into",
        &[
            Serial::from_be_bytes(octets) == serial,
            Serial::from(number) == serial,
            u32::from(serial) == number,
        ],
    );
    let mut made: Vec<u8> = Vec::new(out.alloc());
    let is_taken = serial.compose(&mut made).is_ok();
    out.took(is_taken);
    out.same(made.as_slice(), &octets, b"compose");
    is_read_back(out, serial, made.as_slice());
}

/// The octets are as many as the call says, and are read as the serial number, once.
fn is_read_back(out: &Answer, serial: Serial, octets: &[u8]) {
    let mut parser = Parser::from_ref(octets);
    out.agree_all(
        b"COMPOSE_LEN;parse;parse",
        &[
            octets.len() == usize::from(Serial::COMPOSE_LEN),
            Serial::parse(&mut parser) == Ok(serial),
            Serial::parse(&mut parser).is_err(),
        ],
    );
}

/// `add SERIAL NUMBER`: `bad` where the number is more than may be added.
pub fn put_add(out: &Answer, serial: &[u8], number: &[u8]) {
    let Some(serial) = serial_of(serial) else {
        return out.fail(Fail::Bad);
    };
    match number_of(number) {
        Some(number) if number <= 0x7FFF_FFFF => out.put_text(serial.add(number)),
        _ => out.fail(Fail::Bad),
    }
}
