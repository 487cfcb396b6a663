//! Numbers and addresses on the wire.

use crate::answer::{Answer, Fail};
use crate::parser::parser_at;
use arrayvec::ArrayVec;
use domain_wire::{
    Compose, FixedLen, Ipv4Addr, Ipv6Addr, Parse, ParseError, compose_vec, parse_slice,
};
use octseq::{OctetsBuilder, Parser};
use std::fmt::Display;

/// A value that was parsed, or the error, and the parser's position.
fn put_parsed<T: Display + Drop>(out: &Answer, value: Result<T, ParseError>, offset: usize) {
    match value {
        Ok(value) => out.put_text(value),
        Err(error) => out.put_text(error),
    }
    put_position(out, offset);
}

fn put_position(out: &Answer, offset: usize) {
    out.put_number_after(b"@", offset);
    out.put(b";");
}

/// A number of a type at the parser's position.
fn put_number<'a, T: Parse<'a> + Display + Drop>(out: &Answer, parser: Parser<'a>) {
    let mut parser = parser;
    let value = T::parse(&mut parser);
    put_parsed(out, value, parser.pos());
}

/// `ints OCTETS PLACE`
pub fn put_ints(out: &Answer, octets: &[u8], offset: usize) {
    let Some(parser) = parser_at(octets, offset, octets.len()) else {
        return out.fail(Fail::Bad);
    };
    put_number::<i8>(out, parser);
    put_number::<u8>(out, parser);
    put_number::<i16>(out, parser);
    put_number::<u16>(out, parser);
    put_number::<i32>(out, parser);
    put_number::<u32>(out, parser);
    put_number::<i64>(out, parser);
    put_number::<u64>(out, parser);
    put_addresses(out, parser);
    let whole: Result<u32, ParseError> = parse_slice(octets, |p| u32::parse(p));
    put_parsed(out, whole, 0);
}

fn put_addresses(out: &Answer, parser: Parser<'_>) {
    let mut first = parser;
    match Ipv4Addr::parse(&mut first) {
        Ok(address) => out.put_hex(&address.octets()),
        Err(error) => out.put_text(error),
    }
    put_position(out, first.pos());
    let mut second = parser;
    match Ipv6Addr::parse(&mut second) {
        Ok(address) => out.put_hex(&address.octets()),
        Err(error) => out.put_text(error),
    }
    put_position(out, second.pos());
}

/// `arrays OCTETS PLACE`: an array of no octets, of 3, and of 16.
pub fn put_arrays(out: &Answer, octets: &[u8], offset: usize) {
    let Some(parser) = parser_at(octets, offset, octets.len()) else {
        return out.fail(Fail::Bad);
    };
    let mut none = parser;
    match <[u8; 0]>::parse(&mut none) {
        Ok(octets) => out.put_hex(&octets),
        Err(error) => out.put_text(error),
    }
    put_position(out, none.pos());
    let mut three = parser;
    match <[u8; 3]>::parse(&mut three) {
        Ok(octets) => out.put_hex(&octets),
        Err(error) => out.put_text(error),
    }
    put_position(out, three.pos());
    let mut sixteen = parser;
    match <[u8; 16]>::parse(&mut sixteen) {
        Ok(octets) => out.put_hex(&octets),
        Err(error) => out.put_text(error),
    }
    put_position(out, sixteen.pos());
}

/// `whole OCTETS`: all octets as a number of 16 bits, and as no octets.
pub fn put_whole(out: &Answer, octets: &[u8]) {
    let number: Result<u16, ParseError> = parse_slice(octets, |p| u16::parse(p));
    match number {
        Ok(value) => out.put_text(value),
        Err(error) => out.put_text(error),
    }
    out.put(b" ");
    let none: Result<[u8; 0], ParseError> = parse_slice(octets, |p| <[u8; 0]>::parse(p));
    match none {
        Ok(_) => out.put(b"ok"),
        Err(error) => out.put_text(error),
    }
}

/// What a value is composed to, in a room of 16 octets that it fits, and in one that lacks an octet.
pub fn put_composed<T: FixedLen>(out: &Answer, value: &T, len: usize) {
    let mut octets: Vec<u8> = Vec::new(out.alloc());
    let is_taken = value.compose(&mut octets).is_ok();
    out.took(is_taken);
    out.put_hex(octets.as_slice());
    out.agree_all(
        b"compose;COMPOSE_LEN;COMPOSE_LEN;LEN",
        &[
            octets.len() == len,
            usize::from(T::COMPOSE_LEN) == len,
            <&T>::COMPOSE_LEN == T::COMPOSE_LEN,
            usize::from(T::LEN) == len,
        ],
    );
    is_refused_by_a_full_room(out, value, len);
}

fn is_refused_by_a_full_room<T: Compose>(out: &Answer, value: &T, len: usize) {
    let mut fits = room_for(out, len);
    let mut full = room_for(out, len);
    let is_full = full.append_slice(b"\xee").is_ok();
    let held = full.len();
    out.agree_all(
        b"compose of what fits;append_slice;compose of what exceeds the room;compose of what exceeds the room",
        &[
            (&value).compose(&mut &mut fits).is_ok(),
            is_full,
            value.compose(&mut full).is_err(),
            full.len() == held,
        ],
    );
}

/// An array of 16 octets that has room for so many more.
fn room_for(out: &Answer, len: usize) -> ArrayVec<u8, 16> {
    let mut room = ArrayVec::<u8, 16>::new();
    for _octet in len..16 {
        out.agree(room.append_slice(b"\xee").is_ok(), b"append_slice");
    }
    room
}

fn number_of(field: &[u8]) -> Option<i128> {
    match str::from_utf8(field) {
        Ok(text) => text.parse::<i128>().ok(),
        Err(_) => None,
    }
}

/// A number in as few as 8 bits, with or without a sign.
fn put_in_bits<T: FixedLen + Copy>(out: &Answer, number: Option<T>, len: usize) {
    match number {
        Some(value) => put_composed(out, &value, len),
        None => out.fail(Fail::Bad),
    }
}

/// `signed BITS NUMBER`
pub fn put_signed(out: &Answer, bits: usize, digits: &[u8]) {
    let Some(number) = number_of(digits) else {
        return out.fail(Fail::Bad);
    };
    match bits {
        8 => put_in_bits(out, i8::try_from(number).ok(), 1),
        16 => put_in_bits(out, i16::try_from(number).ok(), 2),
        32 => put_in_bits(out, i32::try_from(number).ok(), 4),
        64 => put_in_bits(out, i64::try_from(number).ok(), 8),
        128 => put_composed(out, &number, 16),
        _ => out.fail(Fail::Bad),
    }
}

fn unsigned_number_of(field: &[u8]) -> Option<u128> {
    match str::from_utf8(field) {
        Ok(text) => text.parse::<u128>().ok(),
        Err(_) => None,
    }
}

/// `unsigned BITS NUMBER`
pub fn put_unsigned(out: &Answer, bits: usize, digits: &[u8]) {
    let Some(number) = unsigned_number_of(digits) else {
        return out.fail(Fail::Bad);
    };
    match bits {
        8 => put_in_bits(out, u8::try_from(number).ok(), 1),
        16 => put_in_bits(out, u16::try_from(number).ok(), 2),
        32 => put_in_bits(out, u32::try_from(number).ok(), 4),
        64 => put_in_bits(out, u64::try_from(number).ok(), 8),
        128 => put_composed(out, &number, 16),
        _ => out.fail(Fail::Bad),
    }
}

/// `composevec A B`: two runs of octets composed into one `Vec`, each octet as a number.
pub fn put_composevec(out: &Answer, first: &[u8], second: &[u8]) {
    let composed = compose_vec(out.alloc(), |target| {
        for octet in first {
            octet.compose(target)?;
        }
        for octet in second {
            octet.compose(target)?;
        }
        Ok(())
    });
    match composed {
        Ok(octets) => out.put_hex(octets.as_slice()),
        Err(_) => out.fail(Fail::Memory),
    }
}
